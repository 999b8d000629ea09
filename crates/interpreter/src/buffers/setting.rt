//! Setting places of a buffer, whose numbers are kept in bytes or in words.

ghost use Rattle.std.specs.Prelude.{◌≡◌, ◌<◌, ◌≤◌, ◌+◌, ℕ, List, length, slice_set, vec_capacity, Some};
ghost use Rattle.std.specs.Bool.{OnTrue};
ghost use Rattle.interpreter.specs.declared.evaluation.lanes.Number.{Number as NumberHeld};
ghost use Rattle.interpreter.specs.declared.cells.NumberKind.TheVariants.{Bits};
ghost use Rattle.numeric.specs.declared.ty.Ty.TheVariants.{U8};
ghost use Rattle.numeric.specs.Wrap.{wrap, IsOf};
ghost use Rattle.tree.specs.Meaning.{typed};
ghost use Rattle.interpreter.specs.Buffers.Marks.{held_places, row_held, word_in, word_values};
ghost use Rattle.interpreter.specs.Buffers.PlaceBits.{bits_of, low_byte};
ghost use Rattle.interpreter.specs.Buffers.SetRows.{set_row};
ghost use Rattle.interpreter.specs.CellRows.{row_value, told_value, number_told};

use crate::buffers::held::{
    are_within, mark_row, place_behind, put_cells, put_row_of_words, set_held,
};
use crate::buffers::marks::Mark;
use crate::buffers::place_bits::{PlaceBits, PlaceSize, widen};
use crate::buffers::words::fits;
use crate::cells::{CellRow, NumberKind};
use crate::evaluation::{Number, low_word};
use numeric::Ty;
use tree::Value;

/// The lowest 8 bits of a word.
#[inline(always)]
fn low_byte(word: u32) -> u8
    ensures { result ≡ low_byte word }
{
    (word & 0xff) as u8
}

/// Sets the place of a number to the value of `u8` whose low bits the number has.
#[inline(always)]
fn set_byte(marks: &mut [Mark], bytes: &mut [u8], place: usize, number: i64)
    requires marks { place < length marks.old }
    requires bytes { place < length bytes.old }
    ensures { (zs : List NumberHeld) → held_places marks.new bytes.new zs ≡ slice_set (held_places marks.old bytes.old zs) place (Some (typed U8 (wrap U8 number))) }
{
    marks[place] = Mark::U8;
    bytes[place] = low_byte(low_word(Number { value: number }));
}

/// Whether a value is one of `u8`, and fits it.
#[inline(always)]
fn is_byte(value: Value) -> bool
    ensures { OnTrue result ((value.ty ≡ U8) × IsOf U8 value.number) }
{
    value.ty == Ty::U8 && fits(Ty::U8, value.number)
}

/// Sets the place of a number to any value, and keeps all numbers in words.
#[inline(always)]
fn set_in_words(
    marks: &mut [Mark],
    bits: &mut PlaceBits,
    wides: &mut Vec<Number>,
    place: usize,
    value: Value,
)
    requires marks { place < length marks.old }
    requires bits { length (bits_of bits.old) ≡ length marks.old }
    requires room { length marks.old ≤ vec_capacity bits.old.words }
    requires apart { length marks.old ≤ vec_capacity wides.old }
    ensures set { held_places marks.new (bits_of bits.new) wides.new.items ≡ slice_set (held_places marks.old (bits_of bits.old) wides.old.items) place (Some value) }
    ensures length { length (bits_of bits.new) ≡ length (bits_of bits.old) }
    ensures bytes { vec_capacity bits.new.bytes ≡ vec_capacity bits.old.bytes }
    ensures words { vec_capacity bits.new.words ≡ vec_capacity bits.old.words }
    ensures wides { vec_capacity wides.old ≤ vec_capacity wides.new }
{
    widen(bits);
    set_held(marks, bits.words.as_mut_slice(), wides, place, value);
}

/// Sets the place of a number to a value.
#[inline(always)]
pub(crate) fn set_place(
    marks: &mut [Mark],
    bits: &mut PlaceBits,
    wides: &mut Vec<Number>,
    place: usize,
    value: Value,
)
    requires marks { place < length marks.old }
    requires bits { length (bits_of bits.old) ≡ length marks.old }
    requires room { length marks.old ≤ vec_capacity bits.old.words }
    requires apart { length marks.old ≤ vec_capacity wides.old }
    ensures set { held_places marks.new (bits_of bits.new) wides.new.items ≡ slice_set (held_places marks.old (bits_of bits.old) wides.old.items) place (Some value) }
    ensures length { length (bits_of bits.new) ≡ length (bits_of bits.old) }
    ensures bytes { vec_capacity bits.new.bytes ≡ vec_capacity bits.old.bytes }
    ensures words { vec_capacity bits.new.words ≡ vec_capacity bits.old.words }
    ensures wides { vec_capacity wides.old ≤ vec_capacity wides.new }
{
    match bits.size {
        PlaceSize::Byte if is_byte(value) => {
            set_byte(marks, bits.bytes.as_mut_slice(), place, value.number);
        }
        _ => set_in_words(marks, bits, wides, place, value),
    }
}

/// Puts in the lowest 8 bits of as many words.
fn narrow_each(words: &[u32], out: &mut [u8])
    requires { length out.old ≡ length words.now }
    ensures { (k : ℕ) → k < length out.new → word_in out.new k ≡ low_byte (word_in words.now k) }
{
    for turn in 0..out.len() {
        out[turn] = low_byte(words[turn]);
    }
}

/// Gives places side by side the lowest 8 bits of these words, from one on.
fn copy_narrowed(bytes: &mut [u8], place: usize, from: &[u32])
    requires { place + length from.now ≤ length bytes.old }
    ensures { bytes.new ≡ set_row (λ k. low_byte (word_in from.now k)) place bytes.old (length from.now) }
{
    let (_, later) = bytes.split_at_mut(place);
    let (row, _) = later.split_at_mut(from.len());
    narrow_each(from, row);
}

/// Sets the places from one on, each to the value of `u8` whose low bits a word has.
fn put_row_of_bytes(marks: &mut [Mark], bytes: &mut [u8], place: usize, from: &[u32])
    requires places { place + length from.now ≤ length marks.old }
    requires bytes { length bytes.old ≡ length marks.old }
    ensures { (zs : List NumberHeld) → held_places marks.new bytes.new zs ≡ row_held (word_values U8 from.now) place (held_places marks.old bytes.old zs) (length from.now) }
{
    mark_row(marks, place, from.len(), Mark::U8);
    copy_narrowed(bytes, place, from);
}

/// Sets the places from one on, each to the value of the type whose low bits a word has, and keeps all numbers in words.
fn put_row_in_words(marks: &mut [Mark], bits: &mut PlaceBits, place: usize, ty: Ty, from: &[u32])
    requires places { place + length from.now ≤ length marks.old }
    requires bits { length (bits_of bits.old) ≡ length marks.old }
    requires room { length marks.old ≤ vec_capacity bits.old.words }
    ensures set { (zs : List NumberHeld) → held_places marks.new (bits_of bits.new) zs ≡ row_held (word_values ty from.now) place (held_places marks.old (bits_of bits.old) zs) (length from.now) }
    ensures length { length (bits_of bits.new) ≡ length (bits_of bits.old) }
    ensures bytes { vec_capacity bits.new.bytes ≡ vec_capacity bits.old.bytes }
    ensures words { vec_capacity bits.new.words ≡ vec_capacity bits.old.words }
{
    widen(bits);
    put_row_of_words(marks, bits.words.as_mut_slice(), place, ty, from);
}

/// Sets the places from one on, each to the value of the type whose low bits a word has.
pub(crate) fn put_row(marks: &mut [Mark], bits: &mut PlaceBits, place: usize, ty: Ty, from: &[u32])
    requires places { place + length from.now ≤ length marks.old }
    requires bits { length (bits_of bits.old) ≡ length marks.old }
    requires room { length marks.old ≤ vec_capacity bits.old.words }
    ensures set { (zs : List NumberHeld) → held_places marks.new (bits_of bits.new) zs ≡ row_held (word_values ty from.now) place (held_places marks.old (bits_of bits.old) zs) (length from.now) }
    ensures length { length (bits_of bits.new) ≡ length (bits_of bits.old) }
    ensures bytes { vec_capacity bits.new.bytes ≡ vec_capacity bits.old.bytes }
    ensures words { vec_capacity bits.new.words ≡ vec_capacity bits.old.words }
{
    match (bits.size, ty) {
        (PlaceSize::Byte, Ty::U8) => {
            put_row_of_bytes(marks, bits.bytes.as_mut_slice(), place, from);
        }
        _ => put_row_in_words(marks, bits, place, ty, from),
    }
}

/// Sets the places from one on, one after another, each to the value of `u8` whose low bits a number has.
fn put_low_bytes(marks: &mut [Mark], bytes: &mut [u8], place: usize, numbers: &[i64])
    requires places { place + length numbers.now ≤ length marks.old }
    requires bytes { length bytes.old ≡ length marks.old }
    ensures { (zs : List NumberHeld) → held_places marks.new bytes.new zs ≡ row_held (λ k. told_value Bits U8 (number_told numbers.now k)) place (held_places marks.old bytes.old zs) (length numbers.now) }
{
    let all = marks.len();
    for turn in 0..numbers.len() {
        set_byte(marks, bytes, place_behind(all, place, turn), numbers[turn]);
    }
}

/// Whether all values of a row of cells are those of `u8` whose low bits the numbers have.
fn are_bytes(row: &CellRow<'_>) -> bool
    ensures { OnTrue result ((k : ℕ) → k < length row.now.numbers.now → told_value Bits U8 (number_told row.now.numbers.now k) ≡ row_value row.now k) }
{
    match (row.ty, row.kind) {
        (Ty::U8, NumberKind::Bits) => true,
        (Ty::U8, NumberKind::Exact) => are_within(Ty::U8, row.numbers),
        _ => false,
    }
}

/// Sets the places from one on to the values of a row of cells, one after another, and keeps all numbers in words.
fn put_cells_in_words(
    marks: &mut [Mark],
    bits: &mut PlaceBits,
    wides: &mut Vec<Number>,
    place: usize,
    row: &CellRow<'_>,
)
    requires places { place + length row.now.numbers.now ≤ length marks.old }
    requires bits { length (bits_of bits.old) ≡ length marks.old }
    requires room { length marks.old ≤ vec_capacity bits.old.words }
    requires apart { length marks.old ≤ vec_capacity wides.old }
    ensures set { held_places marks.new (bits_of bits.new) wides.new.items ≡ row_held (row_value row.now) place (held_places marks.old (bits_of bits.old) wides.old.items) (length row.now.numbers.now) }
    ensures length { length (bits_of bits.new) ≡ length (bits_of bits.old) }
    ensures bytes { vec_capacity bits.new.bytes ≡ vec_capacity bits.old.bytes }
    ensures words { vec_capacity bits.new.words ≡ vec_capacity bits.old.words }
    ensures wides { vec_capacity wides.old ≤ vec_capacity wides.new }
{
    widen(bits);
    put_cells(marks, bits.words.as_mut_slice(), wides, place, row);
}

/// Sets the places from one on to the values of a row of cells, one after another.
pub(crate) fn put_cell_row(
    marks: &mut [Mark],
    bits: &mut PlaceBits,
    wides: &mut Vec<Number>,
    place: usize,
    row: &CellRow<'_>,
)
    requires places { place + length row.now.numbers.now ≤ length marks.old }
    requires bits { length (bits_of bits.old) ≡ length marks.old }
    requires room { length marks.old ≤ vec_capacity bits.old.words }
    requires apart { length marks.old ≤ vec_capacity wides.old }
    ensures set { held_places marks.new (bits_of bits.new) wides.new.items ≡ row_held (row_value row.now) place (held_places marks.old (bits_of bits.old) wides.old.items) (length row.now.numbers.now) }
    ensures length { length (bits_of bits.new) ≡ length (bits_of bits.old) }
    ensures bytes { vec_capacity bits.new.bytes ≡ vec_capacity bits.old.bytes }
    ensures words { vec_capacity bits.new.words ≡ vec_capacity bits.old.words }
    ensures wides { vec_capacity wides.old ≤ vec_capacity wides.new }
{
    match bits.size {
        PlaceSize::Byte if are_bytes(row) => {
            put_low_bytes(marks, bits.bytes.as_mut_slice(), place, row.numbers);
        }
        _ => put_cells_in_words(marks, bits, wides, place, row),
    }
}
