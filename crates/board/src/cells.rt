//! The cells of a sheet, as those who look at them share them.

ghost use Rattle.std.specs.Prelude.{◌≡◌, ℕ, ◌+◌, ◌^◌, ◌<◌, ◌≤◌, drop, length, slice_index, take, Contains, IfSome};
ghost use Rattle.std.specs.Bool.{OnTrue};
ghost use Rattle.board.specs.CellBits.{bits_in};
ghost use Rattle.board.specs.Kept.{in_planes, AreSamples};
ghost use Rattle.board.specs.Layout.{own_of, pieces_of, value_at, IsSound};
ghost use Rattle.board.specs.Seen.{place_of_cell, seen_bits, IsShown, NoneShown, StaysShown};
ghost use Rattle.board.specs.Sheets.{bits_at, IsPutCell};
ghost use Rattle.board.specs.Words.{bits_of};

use crate::cell_bits::CellBits;
use crate::kept::{bits_of_cell, sample_place};
use crate::law::Run;
use crate::putting::{PART, follow_each_other};
use crate::rows::Rows;
use crate::showing::show_in;
use crate::source::Planes;
use orders::CellRuns;
use std::marker::{Model, PhantomData};

/// The cells of a sheet, as several workers look at them, and none sets them. Where they set samples of the picture meanwhile, each
/// in a part of its own, it has none of these.
#[derive(Drop)]
pub struct SheetCells<'s, 'a, J: Run> {
    pub(crate) bits: &'s [u32],
    pub(crate) samples: &'s [u8],
    pub(crate) planes: Planes,
    pub(crate) own: &'s Rows<'a>,
    pub(crate) run: PhantomData<J>,
}

impl<'s, 'a, J: Run> Model for SheetCells<'s, 'a, J> {
    ghost use Rattle.std.specs.Prelude.{◌≡◌, ◌+◌, length};
    ghost use Rattle.board.specs.Kept.{in_planes, AreSamples};
    ghost use Rattle.board.specs.Layout.{IsSound};
    ghost use Rattle.board.specs.Seen.{Seen};

    ghost Value = { Seen };

    ghost view = { λ s. record { planes = s.planes; bits = s.bits.now; samples = s.samples.now } };

    ghost invariant = { λ s. (s.own.now ≡ J.layout.own) × IsSound J.layout × (length s.bits.now + in_planes s.planes ≡ J.layout.cells) × AreSamples J.values (length s.bits.now) (length s.bits.now + in_planes s.planes) };
}

impl<'s, 'a, J: Run> SheetCells<'s, 'a, J> {
    /// How many pieces there are.
    pub fn pieces(&self) -> usize
        ensures count { result ≡ pieces_of J.layout }
        ensures few { result ≤ 2 ^ 20 }
    {
        self.own.len()
    }

    /// The bits of the value of a cell of a piece that is put.
    #[inline(always)]
    pub fn look(&self, cell: u32) -> u32
        requires { IsPutCell J.layout J.values (seen_bits self.now) cell }
        ensures { result ≡ bits_of (value_at J.values cell) }
    {
        bits_of_cell(self.bits, self.samples, self.planes, cell as usize)
    }

    /// The bits of the values of cells of pieces that are put, where there are 1024 at most, which follow each other and are kept as
    /// bits. Of others it tells nothing.
    pub fn look_row(&self, cells: &[u32]) -> Option<&[u32]>
        requires { (k : ℕ) → k < length cells.now → IsPutCell J.layout J.values (seen_bits self.now) (slice_index cells.now k) }
        ensures { IfSome result (λ bits. bits.now ≡ bits_at J.values cells.now) }
    {
        let count = cells.len();
        if count == 0 || count > PART || !follow_each_other(cells, 0, count) {
            return None;
        }
        let row = window(self.bits, cells[0] as usize, count)?;
        Some(row)
    }

    /// The place, among all samples of the picture, of that of a piece's first own cell. It tells nothing where the piece has none, or
    /// the cell is kept as bits.
    pub fn first_sample(&self, piece: u32) -> Option<usize>
        requires { piece < pieces_of J.layout }
        ensures { IfSome result (λ place. place ≡ place_of_cell self.now.planes (length self.now.bits) (slice_index (own_of J.layout piece) 0)) }
    {
        let cells = self.own.get(piece as usize);
        if cells.is_empty() {
            return None;
        }
        let cell = cells.cell(0) as usize;
        if cell < self.bits.len() {
            return None;
        }
        Some(sample_place(self.planes, cell - self.bits.len()))
    }

    /// Writes the values of all own cells of a piece, whose bits these are, into a part of the picture's samples, which begins at this place of all, where it
    /// has the samples of all of them. Else it says no, and may have written some of them. What cells of the part had they have still.
    pub fn show(&self, piece: u32, bits: CellBits<'_>, part: &mut [u8], from: usize) -> bool
        requires piece { piece < pieces_of J.layout }
        requires bits { bits_in bits ≡ bits_at J.values (own_of J.layout piece) }
        requires short { from + length part.old < 2 ^ 32 }
        ensures shown { OnTrue result (IsShown J.layout J.values self.now from part.new piece) }
        ensures more { StaysShown self.now.planes (length self.now.bits) J.values from part.old part.new }
    {
        let cells = self.own.get(piece as usize);
        show_in::<J>(self.planes, self.bits.len(), cells, bits, part, from)
    }

    /// Whether no piece before this one owns a cell that is kept as a sample.
    pub fn none_shown(&self, to: u32) -> bool
        requires { to ≤ pieces_of J.layout }
        ensures { OnTrue result (NoneShown J.layout self.now to) }
    {
        for piece in 0..to {
            if !end_before(self.own.get(piece as usize), self.bits.len()) {
                return false;
            }
        }
        true
    }
}

/// Whether all these cells come before another.
fn end_before(cells: &CellRuns, end: usize) -> bool
    ensures { OnTrue result ((c : ℕ) → Contains cells.now c → c < end) }
{
    for run in cells.runs() {
        if run.first as usize + run.count as usize > end {
            return false;
        }
    }
    true
}

// So many bits from a place on, if there are so many.
fn window(bits: &[u32], first: usize, count: usize) -> Option<&[u32]>
    ensures inside { IfSome result (λ _. first + count ≤ length bits.now) }
    ensures same { IfSome result (λ row. row.now ≡ take count (drop first bits.now)) }
{
    if bits.len() < first {
        return None;
    }
    let (_, later) = bits.split_at(first);
    if later.len() < count {
        return None;
    }
    let (row, _) = later.split_at(count);
    Some(row)
}
