//! The values that a piece gives its own cells.

ghost use Rattle.std.specs.Prelude.{◌≡◌, ◌<◌, ◌≤◌, ℕ, List, IfOk, length, map, slice_index};
ghost use Rattle.checked_plan.specs.declared.checked.Checked.{Checked as CheckedPlan};
ghost use Rattle.board.specs.CellBits.{bits_in};
ghost use Rattle.board.specs.Layout.{own_of, pieces_of, value_at};
ghost use Rattle.board.specs.Words.{bits_of};
ghost use Rattle.crew.specs.Private.{fetched_of, needs_of, told, HasLooked, IsOwnOf};
ghost use Rattle.interpreter.specs.GivenNumbers.{given_list};
ghost use Rattle.interpreter.specs.declared.scratch.Scratch.{Scratch as RunMemory};

use algo::Inputs;
use board::{CellBits, Run};
use checked_plan::Checked;
use interpreter::{CellRow, Cells, GivenBits, NumberKind, Scratch};
use numeric::wrap;
use piece::places::place_of;
use piece::{LookedCells, run_in};
use std::alloc::{AllocError, Global};
use tree::Value;

/// The memory of one worker: that of the private runs of all pieces, and what it has looked at.
#[derive(Drop)]
pub struct Desk<'a> {
    pub(crate) scratch: Scratch,
    pub(crate) looked: LookedCells<'a>,
}

// The low bits of numbers that a run gives, as those of cells.
fn cell_bits(given: GivenBits<'_>) -> CellBits<'_>
    ensures { bits_in result ≡ given_list given.entry }
{
    match given {
        GivenBits::Bytes(bytes) => CellBits::Bytes(bytes),
        GivenBits::Words(words) => CellBits::Words(words),
    }
}

impl Desk<'_> {
    /// The bits of the numbers that the last run of a piece gave.
    pub(crate) fn given(&self) -> CellBits<'_>
        ensures { bits_in result ≡ map bits_of self.now.scratch.state.given.items }
    {
        cell_bits(self.scratch.given())
    }
}

/// The private runs of the pieces that a board is for.
pub(crate) trait PrivateRuns<J: Run> {
    ghost gives: { Self → Type 0 };

    ghost suffices: { Self → RunMemory → Type 0 };

    ghost plan: { Self → CheckedPlan };

    /// The memory that one worker needs for the private runs of all pieces.
    ///
    /// # Errors
    /// `AllocError` where memory runs out.
    fn scratch(&self, alloc: Global) -> Result<Scratch, AllocError>
        requires { gives self.now }
        ensures { IfOk result (λ scratch. suffices self.now scratch) };

    /// The numbers of the pieces that a piece needs.
    fn needs(&self, piece: u32) -> &[u32]
        requires runs { gives self.now }
        requires piece { piece < pieces_of J.layout }
        ensures needs { result.now ≡ needs_of (plan self.now) piece }
        ensures pieces { (k : ℕ) → k < length result.now → slice_index result.now k < pieces_of J.layout }
        ensures earlier { (k : ℕ) → k < length result.now → slice_index result.now k < piece };

    /// The numbers of the cells that a piece fetches, each of which a needed piece owns.
    fn fetched(&self, piece: u32) -> &[u32]
        requires runs { gives self.now }
        requires piece { piece < pieces_of J.layout }
        ensures fetched { result.now ≡ fetched_of (plan self.now) piece }
        ensures needed { (k : ℕ) → k < length result.now → IsOwnOf J.layout (needs_of (plan self.now) piece) (slice_index result.now k) };

    /// The private run of a piece, of whose fetched cells the desk has the bits. It takes no memory. It leaves the values of the
    /// piece's own cells in the desk, in the order in which they are put.
    fn run(&self, alloc: Global, desk: &mut Desk<'_>, piece: u32)
        requires runs { gives self.now }
        requires scratch { suffices self.now desk.old.scratch }
        requires piece { piece < pieces_of J.layout }
        requires looked { HasLooked J.values (plan self.now) piece desk.old.looked }
        ensures values { desk.new.scratch.state.given.items ≡ map (value_at J.values) (own_of J.layout piece) }
        ensures scratch { suffices self.now desk.new.scratch }
        ensures looked { desk.new.looked ≡ desk.old.looked };
}

/// What a piece is told of the cells that it fetches: of each the value of its function's type that has the bits that
/// were looked at.
#[derive(Drop)]
struct Told<'a, 'b> {
    looked: &'a LookedCells<'b>,
}

impl Cells for Told<'_, '_> {
    ghost cell = { λ x. told x.looked.now };

    fn cell(&self, function: &str, at: &[i64]) -> Value {
        let Value { ty, number } = self.looked.cell(function, at);
        Value {
            ty,
            number: wrap(ty, number),
        }
    }

    fn row(&self, function: &str, at: &[i64], count: usize) -> Option<CellRow<'_>> {
        let CellRow { ty, numbers, kind } = self.looked.row(function, at, count)?;
        match kind {
            NumberKind::Exact => Some(CellRow {
                ty,
                numbers,
                kind: NumberKind::Bits,
            }),
            NumberKind::Bits => None,
        }
    }
}

/// The pieces of a checked plan on an input, and the number of cells that none owns more of.
#[derive(Clone, Copy, Drop)]
pub struct Pieces<'a> {
    pub(crate) checked: &'a Checked<'a>,
    pub(crate) inputs: &'a Inputs,
    pub(crate) most: usize,
}

impl<J: Run> PrivateRuns<J> for Pieces<'_> {
    ghost use Rattle.algo.specs.View.{picture_of};
    ghost use Rattle.checked_plan.specs.View.{certificate_checked, plan_checked};
    ghost use Rattle.crew.specs.Private.{CanRun, HasMemory};

    ghost gives = { λ runs. CanRun J.layout J.values runs.checked.now (picture_of runs.inputs.now) runs.most };

    ghost suffices = { λ runs scratch. HasMemory J.layout (plan_checked runs.checked.now) (certificate_checked runs.checked.now) scratch };

    ghost plan = { λ runs. runs.checked.now };

    fn scratch(&self, alloc: Global) -> Result<Scratch, AllocError> {
        let plan = self.checked.plan();
        let scratch = Scratch::new(alloc, &plan.groups, self.checked.cert(), self.most)?;
        Ok(scratch)
    }

    fn needs(&self, piece: u32) -> &[u32] {
        self.checked.needs(piece as usize)
    }

    fn fetched(&self, piece: u32) -> &[u32] {
        self.checked.fetched(piece as usize)
    }

    fn run(&self, alloc: Global, desk: &mut Desk<'_>, piece: u32) {
        let place = place_of(self.checked.plan(), piece);
        let cells = Told {
            looked: &desk.looked,
        };
        let Ok(()) = run_in(
            alloc,
            &mut desk.scratch,
            self.checked,
            self.inputs,
            &cells,
            piece,
            place,
        ) else {
            unreachable!()
        };
    }
}
