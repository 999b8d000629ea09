//! Rows of numbers written into bytes.

ghost use Rattle.std.specs.Prelude.{◌+◌, ◌*◌, ◌^◌, ◌<◌, ◌≤◌, ℕ, length, slice_index};
ghost use Rattle.board.specs.CellBits.{bits_in};
ghost use Rattle.board.specs.Kept.{AreWoven, AreWritten};

use crate::cell_bits::CellBits;

// Writes so many numbers, from one on, into bytes, from a place on, each so many behind the one before.
#[inline(always)]
fn write_along(
    bytes: &mut [u8],
    place: usize,
    step: usize,
    numbers: &[u32],
    from: usize,
    count: usize,
)
    requires step { 0 < step }
    requires numbers { from + count ≤ length numbers.now }
    requires small { (k : ℕ) → k < count → slice_index numbers.now (from + k) < 2 ^ 8 }
    requires room { (k : ℕ) → k < count → place + k * step < length bytes.old }
    ensures { AreWritten numbers.now from count place step bytes.old bytes.new }
{
    for turn in 0..count {
        bytes[place + turn * step] = numbers[from + turn] as u8;
    }
}

// The same, where the numbers stand in bytes themselves.
#[inline(always)]
fn copy_along(
    bytes: &mut [u8],
    place: usize,
    step: usize,
    numbers: &[u8],
    from: usize,
    count: usize,
)
    requires step { 0 < step }
    requires numbers { from + count ≤ length numbers.now }
    requires room { (k : ℕ) → k < count → place + k * step < length bytes.old }
    ensures { AreWritten numbers.now from count place step bytes.old bytes.new }
{
    for turn in 0..count {
        bytes[place + turn * step] = numbers[from + turn];
    }
}

// The same, where each stands behind the one before: a copy of memory.
fn copy_row(bytes: &mut [u8], place: usize, numbers: &[u8], from: usize, count: usize)
    requires numbers { from + count ≤ length numbers.now }
    requires room { place + count ≤ length bytes.old }
    ensures { AreWritten numbers.now from count place 1 bytes.old bytes.new }
{
    let (_, later) = numbers.split_at(from);
    let (row, _) = later.split_at(count);
    let (_, rest) = bytes.split_at_mut(place);
    let (part, _) = rest.split_at_mut(count);
    part.copy_from_slice(row);
}

/// Writes bytes of three colours, one colour behind the other, so many of each, side by side: those of a pixel, and then those of the
/// next, from a place on. All bytes behind the place are written, one after another, so that LLVM takes several pixels at once.
pub(crate) fn write_pixels(bytes: &mut [u8], place: usize, numbers: &[u8], count: usize)
    requires numbers { count + count + count ≤ length numbers.now }
    requires room { place + count * 3 ≤ length bytes.old }
    ensures { AreWoven numbers.now count count place bytes.old bytes.new }
{
    for turn in 0..count {
        bytes[place + turn * 3] = numbers[turn];
        bytes[place + turn * 3 + 1] = numbers[count + turn];
        bytes[place + turn * 3 + 2] = numbers[count + count + turn];
    }
}

// Writes words by a loop whose step is known, where it is that of grey or of three colours.
fn write_words(
    bytes: &mut [u8],
    place: usize,
    step: usize,
    numbers: &[u32],
    from: usize,
    count: usize,
)
    requires step { 0 < step }
    requires numbers { from + count ≤ length numbers.now }
    requires small { (k : ℕ) → k < count → slice_index numbers.now (from + k) < 2 ^ 8 }
    requires room { (k : ℕ) → k < count → place + k * step < length bytes.old }
    ensures { AreWritten numbers.now from count place step bytes.old bytes.new }
{
    match step {
        1 => write_along(bytes, place, 1, numbers, from, count),
        3 => write_along(bytes, place, 3, numbers, from, count),
        _ => write_along(bytes, place, step, numbers, from, count),
    }
}

// Writes bytes by a loop whose step is known, where it is that of three colours, and copies those of grey.
fn write_bytes(
    bytes: &mut [u8],
    place: usize,
    step: usize,
    numbers: &[u8],
    from: usize,
    count: usize,
)
    requires step { 0 < step }
    requires some { 0 < count }
    requires numbers { from + count ≤ length numbers.now }
    requires room { (k : ℕ) → k < count → place + k * step < length bytes.old }
    ensures { AreWritten numbers.now from count place step bytes.old bytes.new }
{
    match step {
        1 => copy_row(bytes, place, numbers, from, count),
        3 => copy_along(bytes, place, 3, numbers, from, count),
        _ => copy_along(bytes, place, step, numbers, from, count),
    }
}

/// Writes so many numbers, from one on, into bytes, from a place on, each so many behind the one before. The steps of grey and of
/// three colours, which most pictures have, are known to loops of their own.
pub(crate) fn write_each(
    bytes: &mut [u8],
    place: usize,
    step: usize,
    numbers: CellBits<'_>,
    from: usize,
    count: usize,
)
    requires step { 0 < step }
    requires some { 0 < count }
    requires numbers { from + count ≤ length (bits_in numbers) }
    requires small { (k : ℕ) → k < count → slice_index (bits_in numbers) (from + k) < 2 ^ 8 }
    requires room { (k : ℕ) → k < count → place + k * step < length bytes.old }
    ensures { AreWritten (bits_in numbers.entry) from count place step bytes.old bytes.new }
{
    match numbers {
        CellBits::Bytes(numbers) => write_bytes(bytes, place, step, numbers, from, count),
        CellBits::Words(numbers) => write_words(bytes, place, step, numbers, from, count),
    }
}
