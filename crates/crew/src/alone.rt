//! The run of a checked plan by one worker.

ghost use Rattle.std.specs.Prelude.{◌≡◌, ◌<◌, ◌≤◌, ◌+◌, ◌++◌, ℕ, length, map, Contains, IfOk, slice_index, vec_capacity};
ghost use Rattle.algo.specs.View.{picture_said, samples_of, IsFor};
ghost use Rattle.board.specs.Layout.{own_of, pieces_of, value_at};
ghost use Rattle.board.specs.Seen.{seen_bits};
ghost use Rattle.board.specs.Sheets.{IsPut, IsPutCell};
ghost use Rattle.checked_plan.specs.View.{algorithm_checked};
ghost use Rattle.crew.specs.Crews.{ArePieces, IsDeskFor};
ghost use Rattle.crew.specs.Opening.Layouts.{layout_of, values_of};
ghost use Rattle.crew.specs.Private.{needs_of, words_at, HasRoom};
ghost use Rattle.meaning.specs.Image.View.{image_of};

use crate::gate::{Gate, Unwatched};
use crate::opening::laws::pictures_are_said;
use crate::opening::open_alone;
use crate::values::{Desk, Pieces, PrivateRuns};
use algo::Inputs;
use board::{Run, Sheet, SheetCells};
use checked_plan::Checked;
use checked_plan::output::PlanCells;
use meaning::image::Image;
use piece::LookedCells;
use std::alloc::{AllocError, Global};
use std::marker::{Brand, Model};

/// How many cells are looked at together.
const PART: usize = 1024;

/// Looks at cells, each of which is put, one by one, and adds their bits. It takes no memory.
fn look_at_each<J: Run>(seen: &SheetCells<'_, '_, J>, looked: &mut LookedCells<'_>, cells: &[u32])
    requires put { (k : ℕ) → k < length cells.now → IsPutCell J.layout J.values (seen_bits seen.now) (slice_index cells.now k) }
    requires room { length looked.old.looked.items + length cells.now ≤ vec_capacity looked.old.looked }
    ensures same { (looked.new.cells.now ≡ looked.old.cells.now) × (looked.new.piece ≡ looked.old.piece) }
    ensures words { looked.new.looked.items ≡ looked.old.looked.items ++ words_at J.values cells.now }
    ensures room { vec_capacity looked.new.looked ≡ vec_capacity looked.old.looked }
{
    for cell in cells {
        looked.push(i64::from(seen.look(*cell)));
    }
}

/// Looks at cells, each of which is put, together where they follow each other, and adds their bits. It takes no memory.
fn look_at_part<J: Run>(seen: &SheetCells<'_, '_, J>, looked: &mut LookedCells<'_>, cells: &[u32])
    requires put { (k : ℕ) → k < length cells.now → IsPutCell J.layout J.values (seen_bits seen.now) (slice_index cells.now k) }
    requires room { length looked.old.looked.items + length cells.now ≤ vec_capacity looked.old.looked }
    ensures same { (looked.new.cells.now ≡ looked.old.cells.now) × (looked.new.piece ≡ looked.old.piece) }
    ensures words { looked.new.looked.items ≡ looked.old.looked.items ++ words_at J.values cells.now }
    ensures room { vec_capacity looked.new.looked ≡ vec_capacity looked.old.looked }
{
    match seen.look_row(cells) {
        Some(bits) => looked.push_all(bits),
        None => look_at_each(seen, looked, cells),
    }
}

/// Looks at the cells that a piece fetches, each of which is put, and leaves their bits in the order of its list. It takes no
/// memory.
fn look_at<J: Run>(
    seen: &SheetCells<'_, '_, J>,
    looked: &mut LookedCells<'_>,
    piece: u32,
    cells: &[u32],
)
    requires put { (k : ℕ) → k < length cells.now → IsPutCell J.layout J.values (seen_bits seen.now) (slice_index cells.now k) }
    requires room { length cells.now ≤ vec_capacity looked.old.looked }
    ensures same { looked.new.cells.now ≡ looked.old.cells.now }
    ensures piece { looked.new.piece ≡ piece }
    ensures words { looked.new.looked.items ≡ words_at J.values cells.now }
    ensures room { vec_capacity looked.new.looked ≡ vec_capacity looked.old.looked }
{
    looked.begin(piece);
    let mut rest = cells;
    while !rest.is_empty() {
        let (part, later) = rest.split_at(PART.min(rest.len()));
        look_at_part(seen, looked, part);
        rest = later;
    }
}

/// Looks at the cells that a piece fetches, where all pieces that it needs are put, and computes it at the desk, which has its
/// numbers then. It takes no memory.
pub(crate) fn compute<J: Run, P: PrivateRuns<J>>(
    alloc: Global,
    seen: &SheetCells<'_, '_, J>,
    runs: &P,
    desk: &mut Desk<'_>,
    piece: u32,
)
    requires runs { P.gives runs.now }
    requires scratch { P.suffices runs.now desk.old.scratch }
    requires room { HasRoom (P.plan runs.now) (pieces_of J.layout) desk.old.looked }
    requires piece { piece < pieces_of J.layout }
    requires needed { (j : ℕ) → Contains (needs_of (P.plan runs.now) piece) j → (j < pieces_of J.layout) × IsPut J.layout J.values (seen_bits seen.now) j }
    ensures values { desk.new.scratch.state.given.items ≡ map (value_at J.values) (own_of J.layout piece) }
    ensures scratch { P.suffices runs.now desk.new.scratch }
    ensures room { HasRoom (P.plan runs.now) (pieces_of J.layout) desk.new.looked }
{
    look_at(seen, &mut desk.looked, piece, runs.fetched(piece));
    runs.run(alloc, desk, piece);
}

/// Computes a piece at the desk, where all pieces that it needs are put, and puts it. It takes no memory.
fn fill<J: Run, P: PrivateRuns<J>>(
    alloc: Global,
    sheet: &mut Sheet<'_, J>,
    runs: &P,
    desk: &mut Desk<'_>,
    piece: u32,
)
    requires runs { P.gives runs.now }
    requires scratch { P.suffices runs.now desk.old.scratch }
    requires room { HasRoom (P.plan runs.now) (pieces_of J.layout) desk.old.looked }
    requires piece { piece < pieces_of J.layout }
    requires needed { (j : ℕ) → Contains (needs_of (P.plan runs.now) piece) j → (j < pieces_of J.layout) × IsPut J.layout J.values sheet.old j }
    ensures put { IsPut J.layout J.values sheet.new piece }
    ensures more { (j : ℕ) → IsPut J.layout J.values sheet.old j → IsPut J.layout J.values sheet.new j }
    ensures scratch { P.suffices runs.now desk.new.scratch }
    ensures room { HasRoom (P.plan runs.now) (pieces_of J.layout) desk.new.looked }
{
    let seen = sheet.cells();
    compute(alloc, &seen, runs, desk, piece);
    sheet.put(piece, desk.given());
}

/// Computes all pieces in their order and puts them, and tells the gate of each. Each piece needs earlier ones alone. It takes no
/// memory.
fn fill_all<J: Run, G: Gate>(
    alloc: Global,
    sheet: &mut Sheet<'_, J>,
    pieces: &Pieces<'_>,
    desk: &mut Desk<'_>,
    gate: &G,
)
    requires pieces { ArePieces J.layout J.values pieces.now }
    requires desk { IsDeskFor J.layout pieces.now desk.old }
    ensures { (j : ℕ) → j < pieces_of J.layout → IsPut J.layout J.values sheet.new j }
{
    let count = sheet.pieces() as u32;
    for piece in 0..count {
        gate.enter(piece);
        fill::<J, Pieces<'_>>(alloc, sheet, pieces, desk, piece);
        gate.leave(piece);
    }
}

/// The run of a checked plan on an input by one worker who has not begun, with all the memory that it takes: the cells, which it
/// shares with nobody, and a desk. Contracts see it as the picture that the algorithm says of the input.
#[derive(Drop)]
pub struct PreparedAlone<'a, J: Run> {
    sheet: Sheet<'a, J>,
    pieces: Pieces<'a>,
    desk: Desk<'a>,
}

impl<'a, J: Run> Model for PreparedAlone<'a, J> {
    ghost use Rattle.crew.specs.Prepared.{said_of, IsPreparedAlone};
    ghost use Rattle.meaning.specs.Image.View.{Picture};

    ghost Value = { Picture };

    ghost view = { λ p. said_of p.pieces };

    ghost invariant = { λ p. IsPreparedAlone J.layout J.values p.pieces p.desk };
}

impl<'a, J: Run> PreparedAlone<'a, J> {
    /// A run that has not begun. `cells` numbers the plan's cells.
    ///
    /// It takes all memory of the run: 8 bytes for each piece, one for each sample of the picture, 4 for each cell of another group
    /// than the output's, and that of one desk. Where the samples have 16 bits, the region of the output's group is larger than the
    /// picture, or cells of other groups come after its own, it takes 4 for each cell and 2 for each sample, and where that region is
    /// larger 4 more for each sample.
    ///
    /// # Errors
    /// `AllocError` where memory runs out.
    pub fn new(
        alloc: Global,
        checked: &'a Checked<'a>,
        inputs: &'a Inputs,
        cells: &'a PlanCells<'a>,
    ) -> Result<PreparedAlone<'a, J>, AllocError>
        requires layout { J.layout ≡ layout_of checked.now }
        requires values { J.values ≡ values_of checked.now inputs.now }
        requires input { IsFor checked.now.algo.now inputs.now }
        requires cells { cells.now.checked.now ≡ checked.now }
        ensures { IfOk result (λ run. run ≡ picture_said (algorithm_checked checked.now) (samples_of inputs.now)) }
    {
        pictures_are_said();
        let sheet = open_alone::<J>(alloc, checked, inputs)?;
        let pieces = Pieces::of::<J>(checked, inputs);
        let desk = Desk::new::<J>(alloc, &pieces, cells)?;
        Ok(PreparedAlone {
            sheet,
            pieces,
            desk,
        })
    }

    /// The picture, computed in the caller's thread, piece after piece. The gate hears of each piece before it is computed and
    /// after. It starts no thread, waits for nobody and takes no memory, and nothing is refused.
    pub fn picture<G: Gate>(self, alloc: Global, gate: &G) -> Image
        ensures { image_of result ≡ self.entry }
    {
        let PreparedAlone {
            mut sheet,
            pieces,
            mut desk,
        } = self;
        fill_all(alloc, &mut sheet, &pieces, &mut desk, gate);
        sheet.close()
    }
}

/// The picture, on a board for this checked plan and this input.
fn picture_on<J: Run>(
    alloc: Global,
    checked: &Checked<'_>,
    inputs: &Inputs,
) -> Result<Image, AllocError>
    requires layout { J.layout ≡ layout_of checked.now }
    requires values { J.values ≡ values_of checked.now inputs.now }
    requires input { IsFor checked.now.algo.now inputs.now }
    ensures { IfOk result (λ image. image_of image ≡ picture_said (algorithm_checked checked.now) (samples_of inputs.now)) }
{
    let cells = PlanCells::of(alloc, checked)?;
    let prepared = PreparedAlone::<J>::new(alloc, checked, inputs, &cells)?;
    Ok(prepared.picture(alloc, &Unwatched))
}

/// The picture that the algorithm says of the input, computed by one worker in the caller's thread, piece after piece. It
/// starts no thread and waits for nobody.
///
/// It takes the memory that `PreparedAlone::new` says. All of it is taken before the first piece.
///
/// # Errors
/// `AllocError` where memory runs out.
pub fn picture(alloc: Global, checked: &Checked<'_>, inputs: &Inputs) -> Result<Image, AllocError>
    requires { IsFor checked.now.algo.now inputs.now }
    ensures { IfOk result (λ image. image_of image ≡ picture_said (algorithm_checked checked.now) (samples_of inputs.now)) }
{
    picture_on::<Brand>(alloc, checked, inputs)
}
