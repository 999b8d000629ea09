//! Putting the values of cells on a sheet.
//!
//! The cells of a piece are told by runs of cells that follow each other: each is put by loops that look at no cell.

ghost use Rattle.std.specs.Prelude.{◌≡◌, ◌+◌, ◌-◌, ◌*◌, ◌^◌, ◌<◌, ◌≤◌, ℕ, length, slice_index, IfSome};
ghost use Rattle.std.specs.Bool.{OnTrue};
ghost use Rattle.board.specs.CellBits.{bits_in};
ghost use Rattle.board.specs.Kept.{all_bits, in_planes, AreOfPixels, AreSamples, FollowEachOther};
ghost use Rattle.board.specs.Sheets.{bits_at, AreOfRow, HasBits, HasRow};

use crate::bytes::{write_each, write_pixels};
use crate::cell_bits::CellBits;
use crate::kept::pixel_of;
use crate::law::Run;
use crate::source::Planes;
use orders::{CellRun, CellRuns};

/// How many cells at most are looked at together.
pub(crate) const PART: usize = 1024;

/// Whether the cells of a part of a list follow each other. It says so of no part beyond the last 1024 numbers of its type.
pub(crate) fn follow_each_other(cells: &[u32], from: usize, to: usize) -> bool
    requires part { (from < to) × (to ≤ length cells.now) }
    requires short { to - from ≤ 1024 }
    ensures { OnTrue result (FollowEachOther cells.now from to) }
{
    let first = cells[from];
    if first > u32::MAX - PART as u32 {
        return false;
    }
    let mut next = first;
    let mut following: u32 = 0;
    for place in from..to {
        following += if cells[place] == next { 1 } else { 0 };
        next += 1;
    }
    following as usize == to - from
}

// Puts a row of cells that are kept as bits, by words.
fn put_words<J: Run>(
    bits_now: &mut [u32],
    samples: &[u8],
    planes: Planes,
    first: usize,
    values: &[u32],
    from: usize,
    count: usize,
)
    requires values { from + count ≤ length values.now }
    requires few { from + count < 2 ^ 32 }
    requires row { AreOfRow J.values values.now from first count }
    requires inside { first + count ≤ length bits_now.old }
    ensures put { HasRow J.values (all_bits planes bits_now.new samples.now) first count }
    ensures more { (c : ℕ) → HasBits J.values (all_bits planes bits_now.old samples.now) c → HasBits J.values (all_bits planes bits_now.new samples.now) c }
{
    for more in 0..count {
        bits_now[first + more] = values[from + more];
    }
}

// Puts a row of cells that are kept as bits, by bytes.
fn put_bytes<J: Run>(
    bits_now: &mut [u32],
    samples: &[u8],
    planes: Planes,
    first: usize,
    values: &[u8],
    from: usize,
    count: usize,
)
    requires values { from + count ≤ length values.now }
    requires few { from + count < 2 ^ 32 }
    requires row { AreOfRow J.values values.now from first count }
    requires inside { first + count ≤ length bits_now.old }
    ensures put { HasRow J.values (all_bits planes bits_now.new samples.now) first count }
    ensures more { (c : ℕ) → HasBits J.values (all_bits planes bits_now.old samples.now) c → HasBits J.values (all_bits planes bits_now.new samples.now) c }
{
    for more in 0..count {
        bits_now[first + more] = u32::from(values[from + more]);
    }
}

// Puts a row of cells that are kept as bits.
fn put_as_bits<J: Run>(
    bits_now: &mut [u32],
    samples: &[u8],
    planes: Planes,
    first: usize,
    values: CellBits<'_>,
    from: usize,
    count: usize,
)
    requires values { from + count ≤ length (bits_in values) }
    requires few { from + count < 2 ^ 32 }
    requires row { AreOfRow J.values (bits_in values) from first count }
    requires inside { first + count ≤ length bits_now.old }
    ensures put { HasRow J.values (all_bits planes bits_now.new samples.now) first count }
    ensures more { (c : ℕ) → HasBits J.values (all_bits planes bits_now.old samples.now) c → HasBits J.values (all_bits planes bits_now.new samples.now) c }
{
    match values {
        CellBits::Bytes(values) => {
            put_bytes::<J>(bits_now, samples, planes, first, values, from, count);
        }
        CellBits::Words(values) => {
            put_words::<J>(bits_now, samples, planes, first, values, from, count);
        }
    }
}

// Puts a row of cells that are kept as samples of one colour. The first has this pixel and this colour.
fn put_as_samples<J: Run>(
    bits_now: &[u32],
    samples: &mut [u8],
    planes: Planes,
    first: usize,
    values: CellBits<'_>,
    from: usize,
    count: usize,
    pixel: usize,
    colour: usize,
)
    requires values { from + count ≤ length (bits_in values) }
    requires few { from + count < 2 ^ 32 }
    requires row { AreOfRow J.values (bits_in values) from first count }
    requires inside { first + count ≤ length bits_now.now + in_planes planes }
    requires fits { in_planes planes ≤ length samples.old }
    requires samples { AreSamples J.values (length bits_now.now) (length bits_now.now + in_planes planes) }
    requires some { 0 < count }
    requires place { first ≡ length bits_now.now + (colour * planes.pixels + pixel) }
    requires one { pixel + count ≤ planes.pixels }
    ensures put { HasRow J.values (all_bits planes bits_now.now samples.new) first count }
    ensures more { (c : ℕ) → HasBits J.values (all_bits planes bits_now.now samples.old) c → HasBits J.values (all_bits planes bits_now.now samples.new) c }
{
    let place = pixel * planes.colours + colour;
    write_each(samples, place, planes.colours, values, from, count);
}

// Puts as many of a row of cells, from the first on, as are kept alike: as bits, or as samples of one colour. Answers how many.
fn put_alike<J: Run>(
    bits_now: &mut [u32],
    samples: &mut [u8],
    planes: Planes,
    first: usize,
    values: CellBits<'_>,
    from: usize,
    count: usize,
) -> usize
    requires some { 0 < count }
    requires values { from + count ≤ length (bits_in values) }
    requires few { from + count < 2 ^ 32 }
    requires row { AreOfRow J.values (bits_in values) from first count }
    requires inside { first + count ≤ length bits_now.old + in_planes planes }
    requires fits { in_planes planes ≤ length samples.old }
    requires samples { AreSamples J.values (length bits_now.old) (length bits_now.old + in_planes planes) }
    ensures some { (0 < result) × (result ≤ count) }
    ensures put { HasRow J.values (all_bits planes bits_now.new samples.new) first result }
    ensures more { (c : ℕ) → HasBits J.values (all_bits planes bits_now.old samples.old) c → HasBits J.values (all_bits planes bits_now.new samples.new) c }
{
    if first < bits_now.len() {
        let alike = count.min(bits_now.len() - first);
        put_as_bits::<J>(bits_now, samples, planes, first, values, from, alike);
        return alike;
    }
    let (pixel, colour) = pixel_of(planes, first - bits_now.len());
    let alike = count.min(planes.pixels - pixel);
    put_as_samples::<J>(
        bits_now, samples, planes, first, values, from, alike, pixel, colour,
    );
    alike
}

// Puts a row of cells.
fn put_row<J: Run>(
    bits_now: &mut [u32],
    samples: &mut [u8],
    planes: Planes,
    first: usize,
    values: CellBits<'_>,
    from: usize,
    count: usize,
)
    requires values { from + count ≤ length (bits_in values) }
    requires few { from + count < 2 ^ 32 }
    requires row { AreOfRow J.values (bits_in values) from first count }
    requires inside { 0 < count → first + count ≤ length bits_now.old + in_planes planes }
    requires fits { in_planes planes ≤ length samples.old }
    requires samples { AreSamples J.values (length bits_now.old) (length bits_now.old + in_planes planes) }
    ensures put { HasRow J.values (all_bits planes bits_now.new samples.new) first count }
    ensures more { (c : ℕ) → HasBits J.values (all_bits planes bits_now.old samples.old) c → HasBits J.values (all_bits planes bits_now.new samples.new) c }
{
    let mut done = 0;
    while done < count {
        done += put_alike::<J>(
            bits_now,
            samples,
            planes,
            first + done,
            values,
            from + done,
            count - done,
        );
    }
}

// Sets cells to the bits of their values, run by run.
fn put_runs<J: Run>(
    bits_now: &mut [u32],
    samples: &mut [u8],
    planes: Planes,
    cells: &CellRuns,
    values: CellBits<'_>,
)
    requires values { bits_in values ≡ bits_at J.values cells.now }
    requires inside { (k : ℕ) → k < length cells.now → slice_index cells.now k < length bits_now.old + in_planes planes }
    requires fits { in_planes planes ≤ length samples.old }
    requires samples { AreSamples J.values (length bits_now.old) (length bits_now.old + in_planes planes) }
    ensures put { (k : ℕ) → k < length cells.now → HasBits J.values (all_bits planes bits_now.new samples.new) (slice_index cells.now k) }
    ensures more { (c : ℕ) → HasBits J.values (all_bits planes bits_now.old samples.old) c → HasBits J.values (all_bits planes bits_now.new samples.new) c }
{
    // No number is taken of this call. It says that there are few cells.
    cells.len();
    let mut from = 0;
    for run in cells.runs() {
        let first = run.first as usize;
        let count = run.count as usize;
        put_row::<J>(bits_now, samples, planes, first, values, from, count);
        from += count;
    }
}

// Whether a run has as many cells as another, each so many behind that one's.
fn is_behind(one: CellRun, other: CellRun, pixels: usize) -> bool
    ensures { OnTrue result ((other.count ≡ one.count) × (other.first ≡ one.first + pixels)) }
{
    one.count == other.count
        && one.first <= other.first
        && (other.first - one.first) as usize == pixels
}

/// Pixels that follow one another.
#[derive(Clone, Copy, Drop)]
pub(crate) struct PixelRow {
    pub first: usize,
    pub count: usize,
}

// The pixels whose cells these are, behind so many other cells, where they have three colours and follow one another.
fn pixels_of(before: usize, planes: Planes, cells: &CellRuns) -> Option<PixelRow>
    ensures { IfSome result (λ row. AreOfPixels planes before cells.now row.first row.count) }
{
    let runs = cells.runs();
    if planes.colours != 3 || runs.len() != 3 {
        return None;
    }
    if !is_behind(runs[0], runs[1], planes.pixels) || !is_behind(runs[1], runs[2], planes.pixels) {
        return None;
    }
    let cell = runs[0].first as usize;
    let count = runs[0].count as usize;
    if cell < before || planes.pixels < count || planes.pixels - count < cell - before {
        return None;
    }
    Some(PixelRow {
        first: cell - before,
        count,
    })
}

// Sets the cells of pixels that follow one another, which are kept as samples of three colours, all in one pass.
fn put_pixels<J: Run>(
    bits_now: &[u32],
    samples: &mut [u8],
    planes: Planes,
    cells: &CellRuns,
    values: &[u8],
    row: PixelRow,
)
    requires values { values.now ≡ bits_at J.values cells.now }
    requires row { AreOfPixels planes (length bits_now.now) cells.now row.first row.count }
    requires fits { in_planes planes ≤ length samples.old }
    ensures put { (k : ℕ) → k < length cells.now → HasBits J.values (all_bits planes bits_now.now samples.new) (slice_index cells.now k) }
    ensures more { (c : ℕ) → HasBits J.values (all_bits planes bits_now.now samples.old) c → HasBits J.values (all_bits planes bits_now.now samples.new) c }
{
    write_pixels(samples, row.first * 3, values, row.count);
}

/// Sets cells to the bits of their values. A cell that had them has them still. Pixels of three colours that follow one another, as most
/// pictures with colours have them, take one pass for all of their colours, where the values stand in bytes.
pub(crate) fn put_bits<J: Run>(
    bits_now: &mut [u32],
    samples: &mut [u8],
    planes: Planes,
    cells: &CellRuns,
    values: CellBits<'_>,
)
    requires values { bits_in values ≡ bits_at J.values cells.now }
    requires inside { (k : ℕ) → k < length cells.now → slice_index cells.now k < length bits_now.old + in_planes planes }
    requires fits { in_planes planes ≤ length samples.old }
    requires samples { AreSamples J.values (length bits_now.old) (length bits_now.old + in_planes planes) }
    ensures put { (k : ℕ) → k < length cells.now → HasBits J.values (all_bits planes bits_now.new samples.new) (slice_index cells.now k) }
    ensures more { (c : ℕ) → HasBits J.values (all_bits planes bits_now.old samples.old) c → HasBits J.values (all_bits planes bits_now.new samples.new) c }
{
    match (values, pixels_of(bits_now.len(), planes, cells)) {
        (CellBits::Bytes(bytes), Some(row)) => {
            put_pixels::<J>(bits_now, samples, planes, cells, bytes, row);
        }
        _ => put_runs::<J>(bits_now, samples, planes, cells, values),
    }
}
