//! What places hold, as three lists: a mark and the low bits of a number for each of them, and the numbers of those whose value does
//! not fit its type.

ghost use Rattle.std.specs.Prelude.{◌≡◌, ◌<◌, ◌≤◌, ◌+◌, ℕ, List, length, take, drop, pos, replicate, slice_index_or, slice_set, vec_capacity, IfSome, Some, None};
ghost use Rattle.std.specs.Bool.{OnTrue};
ghost use Rattle.interpreter.specs.declared.buffers.marks.Mark.TheVariants.{Unset};
ghost use Rattle.interpreter.specs.declared.evaluation.lanes.Number.{Number as NumberHeld};
ghost use Rattle.numeric.specs.Wrap.{wrap, IsOf};
ghost use Rattle.tree.specs.Meaning.{typed};
ghost use Rattle.interpreter.specs.Buffers.Marks.{held_by, held_places, places_held, row_held, word_in, word_values};
ghost use Rattle.interpreter.specs.Buffers.SetRows.{set_row};
ghost use Rattle.interpreter.specs.CellRows.{row_value, told_value, number_told};
ghost use Rattle.interpreter.specs.declared.cells.NumberKind.TheVariants.{Exact, Bits};
ghost use Rattle.interpreter.specs.Evaluation.Lanes.{number_at};
ghost use Rattle.interpreter.specs.Evaluation.Lending.{lent};

use crate::buffers::marks::{Mark, narrow_mark, wide_mark};
use crate::buffers::words::{fits, value_in_word};
use crate::cells::{CellRow, NumberKind};
use crate::evaluation::{
    LentNumbers, Number, Signed8, Signed16, Signed32, Unsigned8, Unsigned16, Unsigned32, Width,
    low_word, word_number,
};
use crate::run_reading::registers_behind;
use crate::scanlines::window;
use numeric::Ty;
use tree::Value;

/// Places side by side: of each its mark and the low bits of its number, and the numbers that stand apart, as far as there are such.
#[derive(Clone, Copy, Drop)]
pub struct Held<'a> {
    pub marks: &'a [Mark],
    pub numbers: LentNumbers<'a>,
    pub wides: &'a [Number],
}

/// Makes so many marks, each of an unset place.
pub(crate) fn unset_all(marks: &mut Vec<Mark>, count: usize)
    requires { count ≤ vec_capacity marks.old }
    ensures unset { marks.new.items ≡ replicate count Unset }
    ensures capacity { vec_capacity marks.old ≤ vec_capacity marks.new }
{
    marks.clear();
    let Ok(()) = marks.resize(count, Mark::Unset) else {
        unreachable!()
    };
}

/// The number that stands apart for a place, 0 where there is none.
fn number_apart(wides: &[Number], place: usize) -> i64
    ensures { result ≡ number_at wides.now place }
{
    match wides.get(place) {
        Some(number) => number.value,
        None => 0,
    }
}

/// The value of the type with the number that stands apart for a place.
#[inline(never)]
fn value_apart(ty: Ty, wides: &[Number], place: usize) -> Value
    ensures { result ≡ typed ty (number_at wides.now place) }
{
    Value {
        ty,
        number: number_apart(wides, place),
    }
}

/// What a place of a mark and a word holds.
#[inline(always)]
fn held_by(mark: Mark, word: u32, wides: &[Number], place: usize) -> Option<Value>
    ensures { result ≡ held_by mark word (number_at wides.now place) }
{
    match mark {
        Mark::Unset => None,
        Mark::U8 => Some(value_in_word::<Unsigned8>(word)),
        Mark::U16 => Some(value_in_word::<Unsigned16>(word)),
        Mark::U32 => Some(value_in_word::<Unsigned32>(word)),
        Mark::I8 => Some(value_in_word::<Signed8>(word)),
        Mark::I16 => Some(value_in_word::<Signed16>(word)),
        Mark::I32 => Some(value_in_word::<Signed32>(word)),
        Mark::WideU8 => Some(value_apart(Ty::U8, wides, place)),
        Mark::WideU16 => Some(value_apart(Ty::U16, wides, place)),
        Mark::WideU32 => Some(value_apart(Ty::U32, wides, place)),
        Mark::WideI8 => Some(value_apart(Ty::I8, wides, place)),
        Mark::WideI16 => Some(value_apart(Ty::I16, wides, place)),
        Mark::WideI32 => Some(value_apart(Ty::I32, wides, place)),
    }
}

/// The word of a place, 0 behind the last.
#[inline(always)]
fn word_there(words: &[u32], place: usize) -> u32
    ensures { result ≡ word_in words.now place }
{
    match words.get(place) {
        Some(word) => *word,
        None => 0,
    }
}

/// The byte of a place as a word, 0 behind the last.
#[inline(always)]
fn byte_there(bytes: &[u8], place: usize) -> u32
    ensures { result ≡ word_in bytes.now place }
{
    match bytes.get(place) {
        Some(byte) => u32::from(*byte),
        None => 0,
    }
}

/// The low bits of a place's number, 0 behind the last.
#[inline(always)]
fn bits_there(numbers: LentNumbers<'_>, place: usize) -> u32
    ensures { result ≡ word_in (lent numbers.entry) place }
{
    match numbers {
        LentNumbers::Words(words) => word_there(words, place),
        LentNumbers::Bytes(bytes) => byte_there(bytes, place),
    }
}

/// What the place of a number holds; nothing behind the last.
#[inline(always)]
#[tactic(auto, using(crate::proofs::HeldPlaces::held_outside))]
pub(crate) fn place_held(held: Held<'_>, place: usize) -> Option<Value>
    ensures { result ≡ slice_index_or (places_held held.entry) place None }
{
    if place >= held.marks.len() {
        return None;
    }
    held_by(
        held.marks[place],
        bits_there(held.numbers, place),
        held.wides,
        place,
    )
}

/// The same, where the numbers stand in words.
#[inline(always)]
#[tactic(auto, using(crate::proofs::HeldPlaces::held_outside))]
pub(crate) fn held_at(
    marks: &[Mark],
    words: &[u32],
    wides: &[Number],
    place: usize,
) -> Option<Value>
    ensures { result ≡ slice_index_or (held_places marks.now words.now wides.now) place None }
{
    if place >= marks.len() {
        return None;
    }
    held_by(marks[place], word_there(words, place), wides, place)
}

/// Makes so many numbers of those that stand apart, as many as there are at least.
fn lengthen(wides: &mut Vec<Number>, count: usize)
    requires { count ≤ vec_capacity wides.old }
    ensures count { count ≤ length wides.new.items }
    ensures same { (k : ℕ) → number_at wides.new.items k ≡ number_at wides.old.items k }
    ensures capacity { vec_capacity wides.old ≤ vec_capacity wides.new }
{
    if wides.len() >= count {
        return;
    }
    let Ok(()) = wides.resize(count, Number { value: 0 }) else {
        unreachable!()
    };
}

/// Sets the place of a number to a value whose number stands apart.
#[inline(never)]
fn set_apart(marks: &mut [Mark], wides: &mut Vec<Number>, place: usize, value: Value)
    requires marks { place < length marks.old }
    requires room { length marks.old ≤ vec_capacity wides.old }
    ensures set { (ws : List ℕ) → held_places marks.new ws wides.new.items ≡ slice_set (held_places marks.old ws wides.old.items) place (Some value) }
    ensures capacity { vec_capacity wides.old ≤ vec_capacity wides.new }
{
    lengthen(wides, marks.len());
    marks[place] = wide_mark(value.ty);
    wides[place] = Number {
        value: value.number,
    };
}

/// Sets the place of a number to the value of the type whose low bits a word has.
#[inline(always)]
fn put_word(marks: &mut [Mark], words: &mut [u32], place: usize, ty: Ty, word: u32)
    requires marks { place < length marks.old }
    requires words { place < length words.old }
    ensures { (zs : List NumberHeld) → held_places marks.new words.new zs ≡ slice_set (held_places marks.old words.old zs) place (Some (typed ty (wrap ty (pos word)))) }
{
    marks[place] = narrow_mark(ty);
    words[place] = word;
}

/// Gives so many places the mark, from one on.
pub(crate) fn mark_row(marks: &mut [Mark], place: usize, count: usize, mark: Mark)
    requires { place + count ≤ length marks.old }
    ensures { marks.new ≡ set_row (λ _. mark) place marks.old count }
{
    let all = marks.len();
    for turn in 0..count {
        marks[place_behind(all, place, turn)] = mark;
    }
}

/// Gives places side by side these words, from one on.
fn copy_row(words: &mut [u32], place: usize, from: &[u32])
    requires { place + length from.now ≤ length words.old }
    ensures { words.new ≡ set_row (word_in from.now) place words.old (length from.now) }
{
    let (_, later) = words.split_at_mut(place);
    let (row, _) = later.split_at_mut(from.len());
    row.copy_from_slice(from);
}

/// Sets the places from one on, each to the value of the type whose low bits a word has.
pub(crate) fn put_row_of_words(
    marks: &mut [Mark],
    words: &mut [u32],
    place: usize,
    ty: Ty,
    from: &[u32],
)
    requires places { place + length from.now ≤ length marks.old }
    requires words { length words.old ≡ length marks.old }
    ensures { (zs : List NumberHeld) → held_places marks.new words.new zs ≡ row_held (word_values ty from.now) place (held_places marks.old words.old zs) (length from.now) }
{
    mark_row(marks, place, from.len(), narrow_mark(ty));
    copy_row(words, place, from);
}

/// Sets the place of a number to the value of the type whose low bits the number has.
#[inline(always)]
fn set_word(marks: &mut [Mark], words: &mut [u32], place: usize, ty: Ty, number: i64)
    requires marks { place < length marks.old }
    requires words { place < length words.old }
    ensures { (zs : List NumberHeld) → held_places marks.new words.new zs ≡ slice_set (held_places marks.old words.old zs) place (Some (typed ty (wrap ty number))) }
{
    put_word(marks, words, place, ty, low_word(Number { value: number }));
}

/// Sets the place of a number.
#[inline(always)]
pub(crate) fn set_held(
    marks: &mut [Mark],
    words: &mut [u32],
    wides: &mut Vec<Number>,
    place: usize,
    value: Value,
)
    requires marks { place < length marks.old }
    requires words { length words.old ≡ length marks.old }
    requires room { length marks.old ≤ vec_capacity wides.old }
    ensures set { held_places marks.new words.new wides.new.items ≡ slice_set (held_places marks.old words.old wides.old.items) place (Some value) }
    ensures capacity { vec_capacity wides.old ≤ vec_capacity wides.new }
{
    if fits(value.ty, value.number) {
        set_word(marks, words, place, value.ty, value.number);
    } else {
        set_apart(marks, wides, place, value);
    }
}

/// So many of the low bits from one on, if there are so many.
fn window_of(numbers: LentNumbers<'_>, start: usize, count: usize) -> Option<LentNumbers<'_>>
    ensures count { IfSome result (λ w. length (lent w) ≡ count) }
    ensures same { IfSome result (λ w. lent w ≡ take count (drop start (lent numbers.entry))) }
{
    match numbers {
        LentNumbers::Words(words) => Some(LentNumbers::Words(window(words, start, count)?)),
        LentNumbers::Bytes(bytes) => Some(LentNumbers::Bytes(window(bytes, start, count)?)),
    }
}

/// So many places from one on, if there are so many.
#[tactic(auto, using(crate::proofs::HeldPlaces::window_held))]
pub(crate) fn held_window(held: Held<'_>, start: usize, count: usize) -> Option<Held<'_>>
    ensures marks { IfSome result (λ w. length w.marks.now ≡ count) }
    ensures numbers { IfSome result (λ w. length (lent w.numbers) ≡ count) }
    ensures same { IfSome result (λ w. places_held w ≡ take count (drop start (places_held held.entry))) }
{
    let marks = window(held.marks, start, count)?;
    let numbers = window_of(held.numbers, start, count)?;
    let wides = registers_behind(held.wides, start);
    Some(Held {
        marks,
        numbers,
        wides,
    })
}

/// The number of a place that is set to a value of the type and whose number stands in its word.
#[inline(always)]
pub(crate) fn number_in<W: Width>(marks: &[Mark], words: &[u32], place: usize) -> Option<Number>
    requires { length words.now ≡ length marks.now }
    ensures { (zs : List NumberHeld) → IfSome result (λ n. slice_index_or (held_places marks.now words.now zs) place None ≡ Some (typed W.ty n.value)) }
{
    if place >= marks.len() {
        return None;
    }
    if marks[place] == narrow_mark(W::kind()) {
        Some(word_number::<W>(words[place]))
    } else {
        None
    }
}

/// The numbers of two places that are set to values of the type and whose numbers stand in their words.
#[inline(always)]
pub(crate) fn numbers_in<W: Width>(
    marks: &[Mark],
    words: &[u32],
    first: usize,
    second: usize,
) -> Option<(Number, Number)>
    requires { length words.now ≡ length marks.now }
    ensures first { (zs : List NumberHeld) → IfSome result (λ p. slice_index_or (held_places marks.now words.now zs) first None ≡ Some (typed W.ty p.0.value)) }
    ensures second { (zs : List NumberHeld) → IfSome result (λ p. slice_index_or (held_places marks.now words.now zs) second None ≡ Some (typed W.ty p.1.value)) }
{
    let left = number_in::<W>(marks, words, first)?;
    let right = number_in::<W>(marks, words, second)?;
    Some((left, right))
}

/// Sets the place of a number to a number wrapped to the type.
#[inline(always)]
pub(crate) fn put_wrapped<W: Width>(
    marks: &mut [Mark],
    words: &mut [u32],
    place: usize,
    number: i64,
)
    requires marks { place < length marks.old }
    requires words { length words.old ≡ length marks.old }
    ensures { (zs : List NumberHeld) → held_places marks.new words.new zs ≡ slice_set (held_places marks.old words.old zs) place (Some (typed W.ty (wrap W.ty number))) }
{
    set_word(marks, words, place, W::kind(), number);
}

/// The number of the place so many behind another, where there are so many places.
#[inline(always)]
pub(crate) fn place_behind(all: usize, place: usize, behind: usize) -> usize
    requires { place + behind < all }
    ensures { result ≡ place + behind }
{
    place + behind
}

/// Whether all numbers fit a type. All are looked at, so that several are at once.
pub(crate) fn are_within(ty: Ty, numbers: &[i64]) -> bool
    ensures { OnTrue result ((k : ℕ) → k < length numbers.now → IsOf ty (number_told numbers.now k)) }
{
    let mut all = true;
    for turn in 0..numbers.len() {
        let one = fits(ty, numbers[turn]);
        all = all & one;
    }
    all
}

/// Sets the places from one on, one after another, each to the value of the type whose low bits a number has.
fn put_bits(marks: &mut [Mark], words: &mut [u32], place: usize, ty: Ty, numbers: &[i64])
    requires places { place + length numbers.now ≤ length marks.old }
    requires words { length words.old ≡ length marks.old }
    ensures { (zs : List NumberHeld) → held_places marks.new words.new zs ≡ row_held (λ k. told_value Bits ty (number_told numbers.now k)) place (held_places marks.old words.old zs) (length numbers.now) }
{
    let all = marks.len();
    for turn in 0..numbers.len() {
        set_word(
            marks,
            words,
            place_behind(all, place, turn),
            ty,
            numbers[turn],
        );
    }
}

/// Sets the places from one on, one after another, each to a number, as of the type.
#[inline(never)]
fn put_each_exact(
    marks: &mut [Mark],
    words: &mut [u32],
    wides: &mut Vec<Number>,
    place: usize,
    ty: Ty,
    numbers: &[i64],
)
    requires places { place + length numbers.now ≤ length marks.old }
    requires words { length words.old ≡ length marks.old }
    requires room { length marks.old ≤ vec_capacity wides.old }
    ensures set { held_places marks.new words.new wides.new.items ≡ row_held (λ k. told_value Exact ty (number_told numbers.now k)) place (held_places marks.old words.old wides.old.items) (length numbers.now) }
    ensures capacity { vec_capacity wides.old ≤ vec_capacity wides.new }
{
    let all = marks.len();
    for turn in 0..numbers.len() {
        let value = Value {
            ty,
            number: numbers[turn],
        };
        set_held(marks, words, wides, place_behind(all, place, turn), value);
    }
}

/// The same, together where all fit the type.
fn put_exact(
    marks: &mut [Mark],
    words: &mut [u32],
    wides: &mut Vec<Number>,
    place: usize,
    ty: Ty,
    numbers: &[i64],
)
    requires places { place + length numbers.now ≤ length marks.old }
    requires words { length words.old ≡ length marks.old }
    requires room { length marks.old ≤ vec_capacity wides.old }
    ensures set { held_places marks.new words.new wides.new.items ≡ row_held (λ k. told_value Exact ty (number_told numbers.now k)) place (held_places marks.old words.old wides.old.items) (length numbers.now) }
    ensures capacity { vec_capacity wides.old ≤ vec_capacity wides.new }
{
    if are_within(ty, numbers) {
        put_bits(marks, words, place, ty, numbers);
    } else {
        put_each_exact(marks, words, wides, place, ty, numbers);
    }
}

/// Sets the places from one on, one after another, each to the value of a row of cells.
pub(crate) fn put_cells(
    marks: &mut [Mark],
    words: &mut [u32],
    wides: &mut Vec<Number>,
    place: usize,
    row: &CellRow<'_>,
)
    requires places { place + length row.now.numbers.now ≤ length marks.old }
    requires words { length words.old ≡ length marks.old }
    requires room { length marks.old ≤ vec_capacity wides.old }
    ensures set { held_places marks.new words.new wides.new.items ≡ row_held (row_value row.now) place (held_places marks.old words.old wides.old.items) (length row.now.numbers.now) }
    ensures capacity { vec_capacity wides.old ≤ vec_capacity wides.new }
{
    match row.kind {
        NumberKind::Bits => put_bits(marks, words, place, row.ty, row.numbers),
        NumberKind::Exact => put_exact(marks, words, wides, place, row.ty, row.numbers),
    }
}
