//! Rows: what lies at points that differ in the first coordinate alone.

ghost use Rattle.std.specs.Prelude.{◌≡◌, ◌∷◌, [], ◌<◌, ◌≤◌, ◌≤ℤ◌, ◌+◌, ◌*◌, ◌+ℤ◌, ◌-ℤ◌, ℕ, ℤ, Some, IfSome, length, drop, take, pos, slice_get};
ghost use Rattle.numeric.specs.declared.ty.Ty.{Ty as TyFound};
ghost use Rattle.numeric.specs.Wrap.{greatest, wrap};
ghost use Rattle.tree.specs.Meaning.{typed};
ghost use Rattle.std.specs.Bool.{OnTrue};
ghost use Rattle.interpreter.specs.Buffers.Marks.{narrow_mark, places_held};
ghost use Rattle.interpreter.specs.Evaluation.Lanes.{number_at, taken_as};
ghost use Rattle.interpreter.specs.Evaluation.Lending.{lent};
ghost use Rattle.interpreter.specs.Evaluation.Words.{bits_at, word_at};
ghost use Rattle.interpreter.specs.SampleRows.{sampled};
ghost use Rattle.interpreter.specs.Scanlines.{along, input_at, pixel_along, sample_along};

use crate::buffers::{Held, Mark, narrow_mark, narrow_type, place_held};
use crate::evaluation::{LentNumbers, Number, copy_each};
use crate::samples::{SampleRow, put_bytes, put_colour, sample_count, sample_of, samples_among};
use numeric::Ty;

/// Places side by side, the first of which is that of the coordinate `origin`.
#[derive(Clone, Copy, Drop)]
pub(crate) struct Scanline<'a> {
    pub origin: i64,
    pub held: Held<'a>,
}

/// The number as a `usize`, unless it is below 0.
fn natural(number: i64) -> Option<usize>
    ensures { IfSome result (λ n. number ≡ pos n) }
{
    if number < 0 {
        None
    } else {
        Some(number as usize)
    }
}

/// How many coordinates lie from the origin on before this one, unless it lies before the origin.
pub(crate) fn distance(origin: i64, coordinate: i64) -> Option<usize>
    ensures { IfSome result (λ n. coordinate ≡ origin +ℤ pos n) }
{
    let difference = coordinate.checked_sub(origin)?;
    let number = natural(difference)?;
    Some(number)
}

/// So many elements from one on, if there are so many.
pub(crate) fn window<T>(all: &[T], start: usize, count: usize) -> Option<&[T]>
    ensures count { IfSome result (λ w. length w.now ≡ count) }
    ensures same { IfSome result (λ w. w.now ≡ take count (drop start all.now)) }
{
    if all.len() < start {
        return None;
    }
    let (_, later) = all.split_at(start);
    if later.len() < count {
        return None;
    }
    let (window, _) = later.split_at(count);
    Some(window)
}

/// An image's samples at the points with at most one coordinate behind the first one, from the first sample on.
pub(crate) fn samples_beside<'a>(
    extents: &[u32],
    samples: SampleRow<'a>,
    others: &[i64],
) -> Option<SampleRow<'a>>
    ensures { IfSome result (λ row. (t : TyFound) (z n : ℤ) → sample_along (sampled row) z ≡ Some n → input_at t extents.now (sampled samples.entry) (z ∷ others.now) ≡ Some (typed t n)) }
{
    match others {
        [] => only_row(extents, samples),
        [row] => later_row(extents, samples, *row),
        _ => None,
    }
}

/// The samples of an image of one dimension.
fn only_row<'a>(extents: &[u32], samples: SampleRow<'a>) -> Option<SampleRow<'a>>
    ensures { IfSome result (λ row. (t : TyFound) (z n : ℤ) → sample_along (sampled row) z ≡ Some n → input_at t extents.now (sampled samples.entry) (z ∷ []) ≡ Some (typed t n)) }
{
    match extents {
        [width] => samples_among(samples, 0, *width as usize),
        _ => None,
    }
}

/// The samples of a row of an image of two dimensions, if there is such a row.
fn later_row<'a>(extents: &[u32], samples: SampleRow<'a>, row: i64) -> Option<SampleRow<'a>>
    ensures { IfSome result (λ w. (t : TyFound) (z n : ℤ) → sample_along (sampled w) z ≡ Some n → input_at t extents.now (sampled samples.entry) (z ∷ row ∷ []) ≡ Some (typed t n)) }
{
    match extents {
        [width, height] => row_among(*width, *height, samples, row),
        _ => None,
    }
}

/// The samples of a row of so many, of which an image has so many, if there is such a row.
fn row_among(width: u32, height: u32, samples: SampleRow<'_>, row: i64) -> Option<SampleRow<'_>>
    ensures { IfSome result (λ w. (t : TyFound) (z n : ℤ) → sample_along (sampled w) z ≡ Some n → input_at t (width ∷ height ∷ []) (sampled samples.entry) (z ∷ row ∷ []) ≡ Some (typed t n)) }
{
    if row < 0 || i64::from(height) <= row {
        return None;
    }
    let width = width as usize;
    let start = (row as usize).checked_mul(width)?;
    samples_among(samples, start, width)
}

/// The sample at a place, if there is one.
fn sample_at(samples: SampleRow<'_>, place: Number) -> Option<Number>
    ensures { IfSome result (λ n. sample_along (sampled samples.entry) place.value ≡ Some n.value) }
{
    if place.value < 0 {
        return None;
    }
    let sample = sample_of(samples, place.value as usize)?;
    Some(Number {
        value: i64::from(sample),
    })
}

/// The samples at the places that a register has, put into it; nothing where there is none at one of them.
pub(crate) fn take_samples(samples: SampleRow<'_>, out: &mut [Number]) -> Option<()>
    ensures { IfSome result (λ _. (k : ℕ) → k < length out.new → sample_along (sampled samples.entry) (number_at out.old k) ≡ Some (number_at out.new k)) }
{
    for turn in 0..out.len() {
        out[turn] = sample_at(samples, out[turn])?;
    }
    Some(())
}

/// The samples of a row of an image of three dimensions, where the third is the colour, and which colour is meant.
#[derive(Clone, Copy, Drop)]
pub(crate) struct Pixels<'a> {
    pub samples: SampleRow<'a>,
    pub colours: usize,
    pub colour: usize,
}

/// An image's samples at the points with two coordinates behind the first one, if it has three dimensions.
pub(crate) fn pixels_beside<'a>(
    extents: &[u32],
    samples: SampleRow<'a>,
    others: &[i64],
) -> Option<Pixels<'a>>
    ensures { IfSome result (λ row. (t : TyFound) (z n : ℤ) → pixel_along row.colours row.colour (sampled row.samples) z ≡ Some n → input_at t extents.now (sampled samples.entry) (z ∷ others.now) ≡ Some (typed t n)) }
{
    match others {
        [row, colour] => pixels_in(extents, samples, *row, *colour),
        _ => None,
    }
}

/// The samples of a colour in a row of an image of three dimensions, if there are such.
fn pixels_in<'a>(
    extents: &[u32],
    samples: SampleRow<'a>,
    row: i64,
    colour: i64,
) -> Option<Pixels<'a>>
    ensures { IfSome result (λ p. (t : TyFound) (z n : ℤ) → pixel_along p.colours p.colour (sampled p.samples) z ≡ Some n → input_at t extents.now (sampled samples.entry) (z ∷ row ∷ colour ∷ []) ≡ Some (typed t n)) }
{
    match extents {
        [width, height, colours] => {
            let row = natural(row)?;
            let colour = natural(colour)?;
            if *height as usize <= row || *colours as usize <= colour {
                return None;
            }
            pixels_among(*width, *colours, samples, row, colour)
        }
        _ => None,
    }
}

/// The samples of a colour in a row, where each row has so many pixels and each pixel so many colours.
fn pixels_among(
    width: u32,
    colours: u32,
    samples: SampleRow<'_>,
    row: usize,
    colour: usize,
) -> Option<Pixels<'_>>
    requires { colour < colours }
    ensures { IfSome result (λ p. (t : TyFound) (h : ℕ) (z n : ℤ) → row < h → pixel_along p.colours p.colour (sampled p.samples) z ≡ Some n → input_at t (width ∷ h ∷ colours ∷ []) (sampled samples.entry) (z ∷ pos row ∷ pos colour ∷ []) ≡ Some (typed t n)) }
{
    let colours = colours as usize;
    let count = (width as usize).checked_mul(colours)?;
    let start = row.checked_mul(count)?;
    let samples = samples_among(samples, start, count)?;
    Some(Pixels {
        samples,
        colours,
        colour,
    })
}

/// The sample of a row's colour at a coordinate, if there is one.
fn pixel_at(row: Pixels<'_>, place: Number) -> Option<Number>
    ensures { IfSome result (λ n. pixel_along row.entry.colours row.entry.colour (sampled row.entry.samples) place.value ≡ Some n.value) }
{
    if place.value < 0 {
        return None;
    }
    let first = (place.value as usize).checked_mul(row.colours)?;
    let sample = sample_of(row.samples, first.checked_add(row.colour)?)?;
    Some(Number {
        value: i64::from(sample),
    })
}

/// The samples of a row's colour at the coordinates that a register has, put into it; nothing where there is none at one of
/// them.
pub(crate) fn take_pixels(row: Pixels<'_>, out: &mut [Number]) -> Option<()>
    ensures { IfSome result (λ _. (k : ℕ) → k < length out.new → pixel_along row.entry.colours row.entry.colour (sampled row.entry.samples) (number_at out.old k) ≡ Some (number_at out.new k)) }
{
    for turn in 0..out.len() {
        out[turn] = pixel_at(row, out[turn])?;
    }
    Some(())
}

/// The greatest sample that is of a type.
fn greatest_sample(ty: Ty) -> u16
    ensures { pos result ≤ℤ greatest ty }
{
    match ty {
        Ty::U8 => 255,
        Ty::I8 => 127,
        Ty::I16 => 32_767,
        Ty::U16 | Ty::U32 | Ty::I32 => 65_535,
    }
}

/// Whether no word is above this one. All are looked at, so that several are at once.
fn are_words_at_most(words: &[u32], most: u32) -> bool
    ensures { OnTrue result ((k : ℕ) → k < length words.now → bits_at words.now k ≤ most) }
{
    let mut all = true;
    for turn in 0..words.len() {
        let one = words[turn] <= most;
        all = all & one;
    }
    all
}

/// Whether so many samples are there from a place on, each so many behind the one before.
fn are_along(samples: SampleRow<'_>, start: usize, step: usize, count: usize) -> bool
    ensures { OnTrue result ((k : ℕ) → k < count → start + k * step < length (sampled samples.entry)) }
{
    let Some(last) = count.saturating_sub(1).checked_mul(step) else {
        return false;
    };
    match start.checked_add(last) {
        Some(last) => last < sample_count(samples),
        None => false,
    }
}

/// The samples of a row's colour at coordinates side by side, from one on, put into a register: a number that none of them is
/// above. Nothing where there is none at one of the coordinates.
pub(crate) fn put_pixels(row: Pixels<'_>, first: usize, out: &mut [u32]) -> Option<u32>
    ensures there { IfSome result (λ _. (k : ℕ) → k < length out.new → pixel_along row.entry.colours row.entry.colour (sampled row.entry.samples) (pos (first + k)) ≡ Some (pos (bits_at out.new k))) }
    ensures most { IfSome result (λ m. (k : ℕ) → k < length out.new → bits_at out.new k ≤ m) }
{
    let start = first.checked_mul(row.colours)?.checked_add(row.colour)?;
    if !are_along(row.samples, start, row.colours, out.len()) {
        return None;
    }
    Some(put_colour(row.samples, start, row.colours, out))
}

/// Whether words are samples of a type, where none is above a number. They are looked at only where that is not enough.
fn are_samples_of(ty: Ty, most: u32, words: &[u32]) -> bool
    requires { (k : ℕ) → k < length words.now → bits_at words.now k ≤ most }
    ensures { OnTrue result ((k : ℕ) → k < length words.now → pos (bits_at words.now k) ≤ℤ greatest ty) }
{
    let greatest = u32::from(greatest_sample(ty));
    if most <= greatest {
        return true;
    }
    are_words_at_most(words, greatest)
}

/// The type of a register's samples, of which none is above a number, and which are cast to a type, or else are of this one:
/// nothing where one of them is not.
pub(crate) fn sample_type(ty: Ty, cast: Option<Ty>, most: u32, words: &[u32]) -> Option<Ty>
    requires { (k : ℕ) → k < length words.now → bits_at words.now k ≤ most }
    ensures { IfSome result (λ t. (k : ℕ) → k < length words.now → typed t (word_at t words.now k) ≡ taken_as cast (typed ty (pos (bits_at words.now k)))) }
{
    match cast {
        Some(cast) => Some(cast),
        None if are_samples_of(ty, most, words) => Some(ty),
        None => None,
    }
}

/// The number of a place, where its value is of the type.
#[inline(always)]
#[tactic(auto, using(crate::proofs::HeldPlaces::get_held))]
fn number_held(held: Held<'_>, ty: Ty, place: usize) -> Option<Number>
    ensures { IfSome result (λ n. slice_get (places_held held.entry) place ≡ Some (Some (typed ty n.value))) }
{
    let value = place_held(held, place)?;
    if value.ty == ty {
        Some(Number {
            value: value.number,
        })
    } else {
        None
    }
}

/// The number at a coordinate, where that is of the type.
fn number_along(line: Scanline<'_>, ty: Ty, coordinate: Number) -> Option<Number>
    ensures { IfSome result (λ n. along (places_held line.entry.held) (coordinate.value -ℤ line.entry.origin) ≡ Some (Some (typed ty n.value))) }
{
    let place = coordinate.value.checked_sub(line.origin)?;
    if place < 0 {
        return None;
    }
    number_held(line.held, ty, place as usize)
}

/// The numbers at the coordinates that a register has, put into it, where all are of the type.
pub(crate) fn take_numbers(line: Scanline<'_>, ty: Ty, out: &mut [Number]) -> Option<()>
    ensures { IfSome result (λ _. (k : ℕ) → k < length out.new → along (places_held line.entry.held) (number_at out.old k -ℤ line.entry.origin) ≡ Some (Some (typed ty (number_at out.new k)))) }
{
    for turn in 0..out.len() {
        out[turn] = number_along(line, ty, out[turn])?;
    }
    Some(())
}

/// The type of what the first of some places holds, where its number fits it.
pub(crate) fn type_held(held: Held<'_>) -> Option<Ty> {
    narrow_type(*held.marks.first()?)
}

/// Whether all marks are this one. All are looked at, so that several are at once.
fn are_marked(marks: &[Mark], mark: Mark) -> bool
    ensures { OnTrue result ((k : ℕ) → k < length marks.now → slice_get marks.now k ≡ Some mark) }
{
    let mut all = true;
    for place in 0..marks.len() {
        let one = marks[place] == mark;
        all = all & one;
    }
    all
}

/// The type of what places hold, where all hold values of one type and these fit it.
pub(crate) fn row_type(marks: &[Mark]) -> Option<Ty>
    ensures { IfSome result (λ t. (k : ℕ) → k < length marks.now → slice_get marks.now k ≡ Some (narrow_mark t)) }
{
    let ty = narrow_type(*marks.first()?)?;
    if are_marked(marks, narrow_mark(ty)) {
        Some(ty)
    } else {
        None
    }
}

/// As many low bits, put into a register as words.
fn copy_bits(numbers: LentNumbers<'_>, out: &mut [u32])
    requires { length (lent numbers) ≡ length out.old }
    ensures { (k : ℕ) → k < length out.new → bits_at out.new k ≡ bits_at (lent numbers.entry) k }
{
    match numbers {
        LentNumbers::Words(words) => copy_each(words, out),
        LentNumbers::Bytes(bytes) => put_bytes(bytes, out),
    }
}

/// The low bits of the numbers of as many places, put into a register, where all are of the type and fit it.
pub(crate) fn copy_words(held: Held<'_>, ty: Ty, out: &mut [u32]) -> Option<()>
    requires marks { length held.marks.now ≡ length out.old }
    requires numbers { length (lent held.numbers) ≡ length out.old }
    ensures { IfSome result (λ _. (k : ℕ) → k < length out.new → along (places_held held.entry) (pos k) ≡ Some (Some (typed ty (word_at ty out.new k)))) }
{
    if !are_marked(held.marks, narrow_mark(ty)) {
        return None;
    }
    copy_bits(held.numbers, out);
    Some(())
}
