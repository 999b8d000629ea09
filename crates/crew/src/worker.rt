//! A worker at the board.

ghost use Rattle.std.specs.Prelude.{◌≡◌, ◌<◌, ◌≤◌, ℕ, ⊤, true, length, map, Contains, IfErr, IfOk, IsOk, IsTrue, MatchBool, slice_index, vec_capacity};
ghost use Rattle.board.specs.CellBits.{bits_in};
ghost use Rattle.board.specs.Layout.{own_of, pieces_of, value_at};
ghost use Rattle.board.specs.Sheets.{bits_at};
ghost use Rattle.board.specs.Seats.{seeing, IsKnownCell, IsTicketOf, Task};
ghost use Rattle.board.specs.Views.{completed, HasFinished, IsIdle, Knows};
ghost use Rattle.crew.specs.Crews.{ArePieces, IsDeskFor};
ghost use Rattle.crew.specs.Learning.{HasLearned, KnowsEach, WasUnfinished};
ghost use Rattle.crew.specs.Private.{needs_of, words_at, HasRoom};

use crate::gate::Gate;
use crate::values::{Desk, Pieces, PrivateRuns};
use board::{Board, BoardSeat, CellBits, Run, Ticket};
use crossbeam_utils::Backoff;
use piece::LookedCells;
use std::alloc::Global;
use std::sync::Wait;

/// Asks of each of these pieces, once, whether it is finished. The seat knows those that are.
fn ask_all<J: Run>(board: &Board<'_, J>, seat: &mut BoardSeat, pieces: &[u32]) -> bool
    requires board { seat.old.board ≡ board.now }
    requires pieces { (k : ℕ) → k < length pieces.now → slice_index pieces.now k < pieces_of J.layout }
    ensures board { seat.new.board ≡ seat.old.board }
    ensures learned { HasLearned seat.old.view seat.new.view }
    ensures ticket { (t : Task) → IsTicketOf J.layout seat.old.view t → IsTicketOf J.layout seat.new.view t }
    ensures yes { IsTrue result → KnowsEach seat.new.view pieces.now }
    ensures no { MatchBool result ⊤ (WasUnfinished J.layout J.values seat.old.view pieces.now) }
    ensures known { KnowsEach seat.old.view pieces.now → IsTrue result }
{
    let mut all = true;
    for piece in pieces {
        let asked = board.ask(seat, *piece);
        all = all & asked;
    }
    all
}

/// Looks at the cells that a piece fetches, each of which is a known piece's, and leaves their bits in the order of its
/// list. It takes no memory.
fn look_at<J: Run>(
    board: &Board<'_, J>,
    seat: &mut BoardSeat,
    looked: &mut LookedCells<'_>,
    piece: u32,
    cells: &[u32],
)
    requires board { seat.old.board ≡ board.now }
    requires known { (k : ℕ) → k < length cells.now → IsKnownCell J.layout seat.old.view (slice_index cells.now k) }
    requires room { length cells.now ≤ vec_capacity looked.old.looked }
    ensures seat { seat.new ≡ seat.old }
    ensures same { looked.new.cells.now ≡ looked.old.cells.now }
    ensures piece { looked.new.piece ≡ piece }
    ensures words { looked.new.looked.items ≡ words_at J.values cells.now }
    ensures room { vec_capacity looked.new.looked ≡ vec_capacity looked.old.looked }
{
    looked.begin(piece);
    for cell in cells {
        looked.push(i64::from(board.look(seat, *cell)));
    }
}

/// Puts the values of all own cells of the ticket's piece, whose bits these are, and finishes it.
fn complete<J: Run>(
    board: &Board<'_, J>,
    seat: &mut BoardSeat,
    mut ticket: Ticket,
    bits: CellBits<'_>,
)
    requires board { seat.old.board ≡ board.now }
    requires ticket { IsTicketOf J.layout seat.old.view ticket }
    requires fresh { ticket.puts ≡ 0 }
    requires bits { bits_in bits ≡ bits_at J.values (own_of J.layout ticket.piece) }
    ensures { seat.new ≡ seeing seat.old (completed seat.old.view ticket.piece (length (own_of J.layout ticket.piece))) }
{
    for place in 0..bits.len() {
        board.put(seat, &mut ticket, bits.at(place));
    }
    board.finish(seat, ticket);
}

/// Looks at the cells that the ticket's piece fetches, where all pieces that it needs are known, computes it at the desk, puts
/// its own cells and finishes it. It waits for nobody, and takes no memory.
fn fill<J: Run, P: PrivateRuns<J>>(
    alloc: Global,
    board: &Board<'_, J>,
    seat: &mut BoardSeat,
    ticket: Ticket,
    runs: &P,
    desk: &mut Desk<'_>,
)
    requires runs { P.gives runs.now }
    requires scratch { P.suffices runs.now desk.old.scratch }
    requires room { HasRoom (P.plan runs.now) (pieces_of J.layout) desk.old.looked }
    requires board { seat.old.board ≡ board.now }
    requires ticket { IsTicketOf J.layout seat.old.view ticket }
    requires fresh { ticket.puts ≡ 0 }
    requires known { (j : ℕ) → Contains (needs_of (P.plan runs.now) ticket.piece) j → Knows seat.old.view j }
    ensures seat { seat.new ≡ seeing seat.old (completed seat.old.view ticket.piece (length (own_of J.layout ticket.piece))) }
    ensures scratch { P.suffices runs.now desk.new.scratch }
    ensures room { HasRoom (P.plan runs.now) (pieces_of J.layout) desk.new.looked }
{
    let piece = ticket.piece();
    look_at(board, seat, &mut desk.looked, piece, runs.fetched(piece));
    runs.run(alloc, desk, piece);
    complete(board, seat, ticket, desk.given());
}

/// Asks once of each piece that the ticket's piece needs, and fills the ticket's piece where all are finished. Else it gives the
/// ticket back. It waits for nobody, and takes no memory.
pub(crate) fn try_fill<J: Run, P: PrivateRuns<J>>(
    alloc: Global,
    board: &Board<'_, J>,
    seat: &mut BoardSeat,
    ticket: Ticket,
    runs: &P,
    desk: &mut Desk<'_>,
) -> Result<(), Ticket>
    requires runs { P.gives runs.now }
    requires scratch { P.suffices runs.now desk.old.scratch }
    requires room { HasRoom (P.plan runs.now) (pieces_of J.layout) desk.old.looked }
    requires board { seat.old.board ≡ board.now }
    requires ticket { IsTicketOf J.layout seat.old.view ticket }
    requires fresh { ticket.puts ≡ 0 }
    ensures board { seat.new.board ≡ seat.old.board }
    ensures learned { HasLearned seat.old.view seat.new.view }
    ensures finished { IfOk result (λ _. Knows seat.new.view ticket.piece) }
    ensures back { IfErr result (λ t. (t ≡ ticket) × IsTicketOf J.layout seat.new.view t) }
    ensures unfinished { IfErr result (λ _. WasUnfinished J.layout J.values seat.old.view (needs_of (P.plan runs.now) ticket.piece)) }
    ensures known { KnowsEach seat.old.view (needs_of (P.plan runs.now) ticket.piece) → IsOk result }
    ensures scratch { P.suffices runs.now desk.new.scratch }
    ensures room { HasRoom (P.plan runs.now) (pieces_of J.layout) desk.new.looked }
{
    let piece = ticket.piece();
    if !ask_all(board, seat, runs.needs(piece)) {
        return Err(ticket);
    }
    fill(alloc, board, seat, ticket, runs, desk);
    Ok(())
}

/// Tries the ticket's piece again and again, with a back-off between, until it is finished.
fn fill_in_time<J: Run, P: PrivateRuns<J>, R: Wait>(
    rt: &R,
    alloc: Global,
    board: &Board<'_, J>,
    seat: &mut BoardSeat,
    mut ticket: Ticket,
    runs: &P,
    desk: &mut Desk<'_>,
)
    requires runs { P.gives runs.now }
    requires scratch { P.suffices runs.now desk.old.scratch }
    requires room { HasRoom (P.plan runs.now) (pieces_of J.layout) desk.old.looked }
    requires board { seat.old.board ≡ board.now }
    requires ticket { IsTicketOf J.layout seat.old.view ticket }
    requires fresh { ticket.puts ≡ 0 }
    ensures board { seat.new.board ≡ seat.old.board }
    ensures learned { HasLearned seat.old.view seat.new.view }
    ensures finished { Knows seat.new.view ticket.piece }
    ensures scratch { P.suffices runs.now desk.new.scratch }
    ensures room { HasRoom (P.plan runs.now) (pieces_of J.layout) desk.new.looked }
{
    let backoff = Backoff::new();
    for _ in rt.forever() {
        match try_fill(alloc, board, seat, ticket, runs, desk) {
            Ok(()) => return,
            Err(back) => ticket = back,
        }
        backoff.snooze();
    }
    unreachable!()
}

/// Draws pieces until all are drawn. Of each it tells the gate, tries it until the pieces that it needs are finished and it is
/// filled, and tells the gate. It takes no memory.
pub(crate) fn draw_and_fill<J: Run, P: PrivateRuns<J>, R: Wait, G: Gate>(
    rt: &R,
    alloc: Global,
    board: &Board<'_, J>,
    seat: &mut BoardSeat,
    runs: &P,
    desk: &mut Desk<'_>,
    gate: &G,
)
    requires runs { P.gives runs.now }
    requires scratch { P.suffices runs.now desk.old.scratch }
    requires room { HasRoom (P.plan runs.now) (pieces_of J.layout) desk.old.looked }
    requires board { seat.old.board ≡ board.now }
    requires idle { IsIdle seat.old.view }
    ensures board { seat.new.board ≡ seat.old.board }
    ensures idle { IsIdle seat.new.view }
    ensures all_drawn { seat.new.view.none_left ≡ true }
    ensures finished { HasFinished seat.old.view → HasFinished seat.new.view }
    ensures seats { seat.new.view.seats ≡ seat.old.view.seats }
    ensures scratch { P.suffices runs.now desk.new.scratch }
    ensures room { HasRoom (P.plan runs.now) (pieces_of J.layout) desk.new.looked }
{
    while let Some(ticket) = board.draw(seat) {
        let piece = ticket.piece();
        gate.enter(piece);
        fill_in_time(rt, alloc, board, seat, ticket, runs, desk);
        gate.leave(piece);
    }
}

/// Asks once of each piece that the ticket's piece needs. Where all are finished it computes the ticket's piece at the desk, puts
/// its own cells and finishes it; where one is not it gives the ticket back, and there only. The seat knows each piece that was
/// found finished. It waits for nobody, and takes no memory.
pub fn try_piece<J: Run>(
    alloc: Global,
    board: &Board<'_, J>,
    seat: &mut BoardSeat,
    ticket: Ticket,
    pieces: &Pieces<'_>,
    desk: &mut Desk<'_>,
) -> Result<(), Ticket>
    requires pieces { ArePieces J.layout J.values pieces.now }
    requires desk { IsDeskFor J.layout pieces.now desk.old }
    requires board { seat.old.board ≡ board.now }
    requires ticket { IsTicketOf J.layout seat.old.view ticket }
    requires fresh { ticket.puts ≡ 0 }
    ensures board { seat.new.board ≡ seat.old.board }
    ensures learned { HasLearned seat.old.view seat.new.view }
    ensures finished { IfOk result (λ _. Knows seat.new.view ticket.piece) }
    ensures back { IfErr result (λ t. (t ≡ ticket) × IsTicketOf J.layout seat.new.view t) }
    ensures unfinished { IfErr result (λ _. WasUnfinished J.layout J.values seat.old.view (needs_of pieces.now.checked.now ticket.piece)) }
    ensures known { KnowsEach seat.old.view (needs_of pieces.now.checked.now ticket.piece) → IsOk result }
    ensures desk { IsDeskFor J.layout pieces.now desk.new }
{
    try_fill::<J, Pieces<'_>>(alloc, board, seat, ticket, pieces, desk)
}

/// Draws pieces until all are drawn. Of each it tells the gate, tries it until the pieces that it needs are finished, with a
/// back-off between the tries, and tells the gate once it is finished. It takes no memory.
pub fn work<J: Run, R: Wait, G: Gate>(
    rt: &R,
    alloc: Global,
    board: &Board<'_, J>,
    seat: &mut BoardSeat,
    pieces: &Pieces<'_>,
    desk: &mut Desk<'_>,
    gate: &G,
)
    requires pieces { ArePieces J.layout J.values pieces.now }
    requires desk { IsDeskFor J.layout pieces.now desk.old }
    requires board { seat.old.board ≡ board.now }
    requires idle { IsIdle seat.old.view }
    ensures board { seat.new.board ≡ seat.old.board }
    ensures idle { IsIdle seat.new.view }
    ensures all_drawn { seat.new.view.none_left ≡ true }
    ensures finished { HasFinished seat.old.view → HasFinished seat.new.view }
    ensures seats { seat.new.view.seats ≡ seat.old.view.seats }
    ensures desk { IsDeskFor J.layout pieces.now desk.new }
{
    draw_and_fill::<J, Pieces<'_>, R, G>(rt, alloc, board, seat, pieces, desk, gate);
}
