//! The board.

ghost use Rattle.std.specs.Slots.{slots_items, slots_len, IsFull};
ghost use Rattle.std.specs.Prelude.{◌≡◌, ◌≢◌, [], ℕ, ◌+◌, ◌^◌, ◌<◌, ◌≤◌, ◌↔◌, true, false, length, slice_index, IfSome, IfNone, IfOk, IfErr, IsOk, IsTrue, MatchBool, ⊤};
ghost use Rattle.meaning.specs.Image.View.{image_of};
ghost use Rattle.board.specs.Views.{first_view};
ghost use Rattle.board.specs.Words.{bits_of, word_count};
ghost use Rattle.board.specs.Layout.{pieces_of, own_of, own_cell, value_at, picture_of, IsSound, ShowsSamples};

use crate::law::{Ask, Draw, Finish, Hire, Law, Look, Merge, Put, Run};
use crate::rows::Rows;
use crate::seat::{BoardSeat, Ticket};
use crate::shown::{Shown, show, word_at};
use crate::source::Source;
use crate::view::View;
use atomic_table::{Closed, Seat, Table};
use meaning::image::{Image, Samples, Shape};
use std::alloc::{AllocError, Global};
use std::marker::Model;

/// How many seats may be split off the first.
const ALLOWANCE: u32 = 63;

/// The table that the workers of one run share, with the lists of own cells, which it borrows. Contracts see it as the table's
/// name, which its seats have too.
#[derive(Drop)]
pub struct Board<'a, J: Run> {
    table: Table<u8, View, (), Law<J>, Global>,
    own: Rows<'a>,
    shown: Shown,
    shape: Shape,
    samples: Vec<u16>,
}

impl<'a, J: Run> Model for Board<'a, J> {
    ghost use Rattle.std.specs.Prelude.{◌≡◌, length};
    ghost use Rattle.atomic_table.specs.Seated.{TableId, table_id_coded};
    ghost use Rattle.meaning.specs.Image.View.{shape_of};
    ghost use Rattle.board.specs.Layout.{IsSound, ShowsSamples, samples_in};
    ghost use Rattle.board.specs.Shown.{Tells};
    ghost use Rattle.board.specs.Words.{word_count};

    ghost Value = { TableId };

    ghost coded = { table_id_coded };

    ghost view = { λ b. b.table.shared.table_id };

    ghost invariant = { λ b. (b.own ≡ J.layout.own) × IsSound J.layout × (b.table.shared.table_id.words ≡ word_count J.layout) × (length b.samples.items ≡ samples_in J.layout) × (b.table.shared.table_id.slots ≡ 0) × Tells J.layout b.shown × (shape_of b.shape ≡ J.layout.frame) × ShowsSamples J.layout J.values };
}

impl<'a, J: Run> Board<'a, J> {
    ghost use Rattle.board.specs.Views.{first_view, drew, found_none, knowing, after_put, next_after, splitter, split_off, joined, Knows, IsDone, IsIdle};
    ghost use Rattle.board.specs.Seats.{Task, place, seeing, task, IsTicketOf, IsKnownCell, KnowsAll, IsFirstUnfinished};
    ghost use Rattle.board.specs.Words.{counter, cell, flag};
    ghost use Rattle.board.specs.Rule.{AtStep};

    /// A board with nothing drawn, and its first seat, which may split off 63 more.
    ///
    /// It takes 8 bytes for each piece and each cell (twice as much while it opens), 8 more for each piece, which are where its own
    /// cells stand, and 2 for each sample of the picture. Where the cells of the samples don't stand in planes it keeps these too,
    /// 4 bytes each.
    pub fn open<S: Source<'a>>(
        alloc: Global,
        source: &S,
    ) -> Result<(Board<'a, J>, BoardSeat), AllocError>
        requires layout { S.layout source.now ≡ J.layout }
        requires values { ShowsSamples J.layout J.values }
        ensures { IfOk result (λ b. b.1 ≡ place b.0 first_view) }
    {
        let (table, seat) = blank_table::<J, S>(alloc, source)?;
        let own = Rows::of(alloc, source)?;
        let shown = Shown::of(alloc, source)?;
        let shape = source.shape().copy(alloc)?;
        let samples = vec![in alloc; 0u16; shape.sample_count()]?;
        let board = Board {
            table,
            own,
            shown,
            shape,
            samples,
        };
        let seat = BoardSeat {
            seat,
            none_left: false,
            allowance: ALLOWANCE,
        };
        Ok((board, seat))
    }

    /// Draws a piece that no other seat has or had, or finds that all are drawn.
    pub fn draw(&self, seat: &mut BoardSeat) -> Option<Ticket>
        requires { seat.old.board ≡ self.now }
        ensures some { IfSome result (λ t. (seat.new ≡ seeing seat.old (drew seat.old.view t.piece)) × (t.puts ≡ 0)) }
        ensures ticket { IfSome result (λ t. IsTicketOf J.layout seat.new.view t) }
        ensures fresh { IfSome result (λ t. AtStep J.layout J.values seat.old.view (λ words. counter words ≡ t.piece) × ¬ (Knows seat.old.view t.piece)) }
        ensures rises { IfSome result (λ t. next_after seat.old.view.last ≤ t.piece) }
        ensures in_order { IfSome result (λ t. seat.old.view.allowance ≡ 63 → t.piece ≡ next_after seat.old.view.last) }
        ensures none { IfNone result (seat.new ≡ seeing seat.old (found_none seat.old.view)) }
        ensures all_drawn { IfNone result (seat.old.view.none_left ≡ false → AtStep J.layout J.values seat.old.view (λ words. pieces_of J.layout ≤ counter words)) }
        ensures last { IfNone result (seat.old.view.allowance ≡ 63 → seat.old.view.none_left ≡ false → pieces_of J.layout ≤ next_after seat.old.view.last) }
    {
        if seat.none_left {
            return None;
        }
        let pieces = self.own.len();
        let found = self.table.shared.fetch_add::<Draw<J>>(&mut seat.seat, 0, 1);
        if found < pieces as u64 {
            return Some(Ticket {
                piece: found as u32,
                puts: 0,
            });
        }
        seat.none_left = true;
        None
    }

    /// Whether a piece is finished. If so, the seat knows it from now on; if not, its flag was not set when it was read.
    pub fn ask(&self, seat: &mut BoardSeat, piece: u32) -> bool
        requires board { seat.old.board ≡ self.now }
        requires piece { piece < pieces_of J.layout }
        ensures answer { MatchBool result (seat.new ≡ seeing seat.old (knowing seat.old.view piece)) (seat.new ≡ seat.old) }
        ensures yes { IsTrue result → Knows seat.new.view piece }
        ensures no { MatchBool result ⊤ (AtStep J.layout J.values seat.old.view (λ words. flag words piece ≡ 0)) }
        ensures known { Knows seat.old.view piece → IsTrue result }
        ensures more { (j : ℕ) → Knows seat.old.view j → Knows seat.new.view j }
        ensures ticket { (t : Task) → IsTicketOf J.layout seat.old.view t → IsTicketOf J.layout seat.new.view t }
    {
        let flag = 1 + piece as usize;
        self.table.shared.load::<Ask<J>>(&mut seat.seat, flag) == 1
    }

    /// The bits of the value of a cell of a known piece.
    pub fn look(&self, seat: &mut BoardSeat, cell: u32) -> u32
        requires board { seat.old.board ≡ self.now }
        requires cell { IsKnownCell J.layout seat.old.view cell }
        ensures value { result ≡ bits_of (value_at J.values cell) }
        ensures same { seat.new ≡ seat.old }
    {
        let place = 1 + self.own.len() + cell as usize;
        let found = self.table.shared.load::<Look<J>>(&mut seat.seat, place);
        (found - 1) as u32
    }

    /// Sets the next own cell of the ticket's piece to its value, whose bits these are.
    pub fn put(&self, seat: &mut BoardSeat, ticket: &mut Ticket, bits: u32)
        requires board { seat.old.board ≡ self.now }
        requires ticket { IsTicketOf J.layout seat.old.view ticket.old }
        requires left { ticket.old.puts < length (own_of J.layout ticket.old.piece) }
        requires bits { bits ≡ bits_of (value_at J.values (own_cell J.layout ticket.old.piece ticket.old.puts)) }
        ensures seat { seat.new ≡ seeing seat.old (after_put seat.old.view) }
        ensures ticket { ticket.new ≡ task ticket.old.piece (ticket.old.puts + 1) }
        ensures unset { AtStep J.layout J.values seat.old.view (λ words. cell J.layout words (own_cell J.layout ticket.old.piece ticket.old.puts) ≡ 0) }
        ensures working { IsTicketOf J.layout seat.new.view ticket.new }
    {
        let own = self.own.get(ticket.piece as usize);
        // No number is taken of this call. It says that there are few own cells.
        own.len();
        let cell = own.cell(ticket.puts);
        let place = 1 + self.own.len() + cell as usize;
        let word = 1 + u64::from(bits);
        self.table
            .shared
            .store::<Put<J>>(&mut seat.seat, place, word);
        ticket.puts += 1;
    }

    /// Finishes the ticket's piece, all of whose own cells are put. The seat knows it from now on.
    pub fn finish(&self, seat: &mut BoardSeat, ticket: Ticket)
        requires board { seat.old.board ≡ self.now }
        requires ticket { IsTicketOf J.layout seat.old.view ticket }
        requires all_put { ticket.puts ≡ length (own_of J.layout ticket.piece) }
        ensures { seat.new ≡ seeing seat.old (knowing seat.old.view ticket.piece) }
    {
        let Ticket { piece, puts: _ } = ticket;
        let flag = 1 + piece as usize;
        self.table.shared.store::<Finish>(&mut seat.seat, flag, 1);
    }

    /// Gives a piece up: it stays unfinished for good.
    pub fn abandon(&self, seat: &mut BoardSeat, ticket: Ticket)
        requires board { seat.old.board ≡ self.now }
        requires ticket { IsTicketOf J.layout seat.old.view ticket }
        ensures { seat.new ≡ seat.old }
    {
        let Ticket { piece: _, puts: _ } = ticket;
    }

    /// Splits a seat off the first seat, which knows what the first knows.
    pub fn seat(&self, seat: &mut BoardSeat) -> Result<BoardSeat, SeatError>
        requires board { seat.old.board ≡ self.now }
        requires idle { IsIdle seat.old.view }
        ensures ok { IfOk result (λ s. (s ≡ seeing seat.old (split_off seat.old.view)) × (seat.new ≡ seeing seat.old (splitter seat.old.view))) }
        ensures err { IfErr result (λ _. seat.new ≡ seat.old) }
        ensures left { IsOk result ↔ (0 < seat.old.view.allowance) }
    {
        if seat.allowance == 0 {
            return Err(SeatError::NoneLeft);
        }
        let other = self.table.shared.split_seat::<Hire>(&mut seat.seat);
        seat.allowance -= 1;
        Ok(BoardSeat {
            seat: other,
            none_left: seat.none_left,
            allowance: 0,
        })
    }

    /// Adds what another seat knows. The seat stands for both from now on, and for the pieces that both drew.
    pub fn join(&self, seat: &mut BoardSeat, other: BoardSeat)
        requires board { (seat.old.board ≡ self.now) × (other.board ≡ self.now) }
        requires idle { IsIdle seat.old.view × IsIdle other.view }
        ensures { seat.new ≡ seeing seat.old (joined seat.old.view other.view) }
    {
        let BoardSeat {
            seat: second,
            none_left,
            allowance: _,
        } = other;
        self.table.shared.join_seat::<Merge>(&mut seat.seat, second);
        seat.none_left = seat.none_left || none_left;
    }

    /// The picture, or the first piece that is not finished. It is the picture where the seat knows all pieces, and so where all
    /// other seats are joined to it, all pieces are drawn, and it knows all that they drew.
    pub fn close(self, seat: BoardSeat) -> Result<Image, Unfinished>
        requires { seat.board ≡ self }
        ensures picture { IfOk result (λ image. image_of image ≡ picture_of J.layout J.values) }
        ensures all_known { KnowsAll J.layout seat.view → IsOk result }
        ensures done { IsDone seat.view → IsOk result }
        ensures unfinished { IfErr result (λ e. AtStep J.layout J.values seat.view (λ words. IsFirstUnfinished J.layout words e.0)) }
    {
        let Board {
            table,
            own,
            shown,
            shape,
            mut samples,
        } = self;
        let BoardSeat {
            seat,
            none_left: _,
            allowance: _,
        } = seat;
        let closed = table.close_with(seat);
        let pieces = own.len();
        let first = first_unfinished(&closed, pieces);
        if let Some(piece) = first {
            closed.free();
            return Err(Unfinished(piece));
        }
        show::<J>(&closed, 1 + pieces, &shown, samples.as_mut_slice());
        closed.free();
        let Shape { ty, extents } = shape;
        Ok(Image {
            ty,
            extents,
            samples: Samples::Words(samples),
        })
    }
}

/// Why no seat was split off.
#[derive(Clone, Copy, Debug, PartialEq, Eq, Drop)]
pub enum SeatError {
    /// The seat may split off no more.
    NoneLeft,
}

/// The lowest piece that is not finished.
#[derive(Clone, Copy, Debug, PartialEq, Eq, Drop)]
pub struct Unfinished(pub u32);

// A table of which nothing is drawn or set, for the pieces and the cells of a source, and its first seat. The words stand twice
// until it is made.
fn blank_table<'a, J: Run, S: Source<'a>>(
    alloc: Global,
    source: &S,
) -> Result<(Table<u8, View, (), Law<J>, Global>, Seat<u8, View>), AllocError>
    requires layout { S.layout source.now ≡ J.layout }
    ensures sound { IsSound J.layout }
    ensures blank { IfOk result (λ t. (t.0.shared.table_id.words ≡ word_count J.layout) × (t.0.shared.table_id.slots ≡ 0) × (t.1.table_id ≡ t.0.shared.table_id) × (t.1.me ≡ (first_view, []))) }
{
    let words = vec![in alloc; 0u64; 1 + source.pieces() + source.cells()]?;
    let made = Table::of_words(alloc, words.as_slice(), &())?;
    Ok(made)
}

// The first piece whose flag is not set.
fn first_unfinished(closed: &Closed<u8, Global>, pieces: usize) -> Option<u32>
    requires words { IsFull closed.now.words × (pieces < slots_len closed.now.words) × (pieces < 2 ^ 32) }
    ensures some { IfSome result (λ j. (j < pieces) × (slice_index (slots_items closed.now.words) (1 + j) ≢ 1) × ((k : ℕ) → k < j → slice_index (slots_items closed.now.words) (1 + k) ≡ 1)) }
    ensures none { IfNone result ((k : ℕ) → k < pieces → slice_index (slots_items closed.now.words) (1 + k) ≡ 1) }
{
    for piece in 0..pieces {
        if word_at(closed, 1 + piece) != 1 {
            return Some(piece as u32);
        }
    }
    None
}
