//! Writing the values of cells into a part of the picture's samples, while others write into other parts.

ghost use Rattle.std.specs.Prelude.{◌≡◌, ◌+◌, ◌-◌, ◌*◌, ◌^◌, ◌<◌, ◌≤◌, ℕ, length, slice_index};
ghost use Rattle.std.specs.Bool.{OnTrue};
ghost use Rattle.board.specs.CellBits.{bits_in};
ghost use Rattle.board.specs.Kept.{in_planes, AreSamples};
ghost use Rattle.board.specs.Seen.{place_of_cell, HasSample, HasSamples, LiesIn, StaysShown};
ghost use Rattle.board.specs.Sheets.{bits_at, AreOfRow};

use crate::bytes::write_each;
use crate::cell_bits::CellBits;
use crate::kept::pixel_of;
use crate::law::Run;
use crate::source::Planes;
use orders::CellRuns;

// Writes a row of cells of one colour into a part that has the samples of all of them. The first has this pixel and this colour.
fn show_colour<J: Run>(
    planes: Planes,
    before: usize,
    first: usize,
    values: CellBits<'_>,
    given: usize,
    count: usize,
    part: &mut [u8],
    from: usize,
    pixel: usize,
    colour: usize,
)
    requires values { given + count ≤ length (bits_in values) }
    requires few { given + count < 2 ^ 32 }
    requires row { AreOfRow J.values (bits_in values) given first count }
    requires samples { AreSamples J.values before (before + in_planes planes) }
    requires short { from + length part.old < 2 ^ 32 }
    requires some { 0 < count }
    requires inside { first + count ≤ before + in_planes planes }
    requires stands { first ≡ before + (colour * planes.pixels + pixel) }
    requires one { pixel + count ≤ planes.pixels }
    requires part { (from ≤ pixel * planes.colours + colour) × (pixel * planes.colours + colour + (count - 1) * planes.colours < from + length part.old) }
    ensures shown { HasSamples planes before J.values from part.new first count }
    ensures more { StaysShown planes before J.values from part.old part.new }
{
    let place = pixel * planes.colours + colour - from;
    write_each(part, place, planes.colours, values, given, count);
}

// Writes a row of cells where a part has the samples of all of them, and they are of one colour. Else it says no.
fn show_row<J: Run>(
    planes: Planes,
    before: usize,
    first: usize,
    values: CellBits<'_>,
    given: usize,
    count: usize,
    part: &mut [u8],
    from: usize,
) -> bool
    requires values { given + count ≤ length (bits_in values) }
    requires few { given + count < 2 ^ 32 }
    requires row { AreOfRow J.values (bits_in values) given first count }
    requires samples { AreSamples J.values before (before + in_planes planes) }
    requires short { (in_planes planes < 2 ^ 32) × (from + length part.old < 2 ^ 32) }
    requires inside { 0 < count → first + count ≤ before + in_planes planes }
    ensures shown { OnTrue result (HasSamples planes before J.values from part.new first count) }
    ensures more { StaysShown planes before J.values from part.old part.new }
{
    if count == 0 {
        return true;
    }
    if first < before {
        return false;
    }
    let (pixel, colour) = pixel_of(planes, first - before);
    if planes.pixels - pixel < count {
        return false;
    }
    let place = pixel * planes.colours + colour;
    if place < from || from + part.len() <= place + (count - 1) * planes.colours {
        return false;
    }
    show_colour::<J>(
        planes, before, first, values, given, count, part, from, pixel, colour,
    );
    true
}

/// Writes the values of cells into a part of the picture's samples, which begins at this place of all, where it has the samples of
/// all of them. Else it says no, and may have written some. What cells of the part had they have still.
pub(crate) fn show_in<J: Run>(
    planes: Planes,
    before: usize,
    cells: &CellRuns,
    values: CellBits<'_>,
    part: &mut [u8],
    from: usize,
) -> bool
    requires values { bits_in values ≡ bits_at J.values cells.now }
    requires samples { AreSamples J.values before (before + in_planes planes) }
    requires short { (in_planes planes < 2 ^ 32) × (from + length part.old < 2 ^ 32) }
    requires inside { (k : ℕ) → k < length cells.now → slice_index cells.now k < before + in_planes planes }
    ensures shown { OnTrue result ((k : ℕ) → k < length cells.now → HasSample planes before J.values from part.new (slice_index cells.now k)) }
    ensures more { StaysShown planes before J.values from part.old part.new }
{
    // No number is taken of this call. It says that there are few cells.
    cells.len();
    let mut given = 0;
    for run in cells.runs() {
        let first = run.first as usize;
        let count = run.count as usize;
        if !show_row::<J>(planes, before, first, values, given, count, part, from) {
            return false;
        }
        given += count;
    }
    true
}
