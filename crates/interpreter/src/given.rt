//! The numbers that a run gives: in bytes as long as all are of `u8` and fit it, and else in words of 32 bits.

ghost use Rattle.std.specs.Prelude.{◌≡◌, ◌∷◌, ◌++◌, ◌+◌, ◌%◌, ◌^◌, ◌<◌, ◌≤◌, [], false, true, length, map, pos, vec_capacity, IfOk};
ghost use Rattle.std.specs.Bool.{OnTrue};
ghost use Rattle.numeric.specs.Wrap.{wrap};
ghost use Rattle.numeric.specs.declared.ty.Ty.TheVariants.{U8};
ghost use Rattle.interpreter.specs.LowBits.{low_bits, numbers_of, IsKept};
ghost use Rattle.interpreter.specs.GivenNumbers.{given_list, numbers_in, HasRoom};
ghost use Rattle.interpreter.specs.Rows.{listed};

use crate::evaluation::{Number, Unsigned8, Width, low_word, typed_number, word_number};
use numeric::Ty;
use std::alloc::{AllocError, Global};
use std::marker::Model;
use std::mem::replace;
use tree::Value;

/// Numbers by their low bits: those of a type that have these bits, or numbers that stand apart.
#[derive(Drop)]
struct Words {
    bits: Vec<u32>,
    ty: Ty,
    is_apart: bool,
    wides: Vec<i64>,
}

// The lowest 32 bits of a number, in two's complement.
#[inline(always)]
fn bits_of(number: i64) -> u32
    ensures { result ≡ low_bits number }
{
    low_word(Number { value: number })
}

// The list with the bits of the numbers of a type that words are, for which it has room. It takes no memory. The list is handed over,
// so that its length is known to be nobody else's while they are added.
#[inline(never)]
fn with_words<W: Width>(mut bits: Vec<u32>, words: &[u32]) -> Vec<u32>
    requires { length bits.items + length words.now ≤ vec_capacity bits }
    ensures items { result.items ≡ bits.items ++ map (λ w. low_bits (wrap W.ty (pos w))) words.now }
    ensures room { vec_capacity result ≡ vec_capacity bits }
{
    for word in words {
        bits.push_reserved(bits_of(word_number::<W>(*word).value));
    }
    bits
}

// Makes a list that of the numbers of a type that have these low bits. It takes no memory.
fn read_all(bits: &[u32], ty: Ty, numbers: &mut Vec<i64>)
    requires { length bits.now ≤ vec_capacity numbers.old }
    ensures items { numbers.new.items ≡ map (λ w. wrap ty (pos w)) bits.now }
    ensures room { vec_capacity numbers.new ≡ vec_capacity numbers.old }
{
    numbers.clear();
    for word in bits {
        numbers.push_reserved(typed_number(ty, *word));
    }
}

// Makes a list that of some numbers. It takes no memory.
fn copy_all(from: &[i64], numbers: &mut Vec<i64>)
    requires { length from.now ≤ vec_capacity numbers.old }
    ensures items { numbers.new.items ≡ from.now }
    ensures room { vec_capacity numbers.new ≡ vec_capacity numbers.old }
{
    numbers.clear();
    for number in from {
        numbers.push_reserved(*number);
    }
}

// Makes a list that of the numbers of u8 that bytes are. It takes no memory.
fn read_bytes(bytes: &[u8], numbers: &mut Vec<i64>)
    requires { length bytes.now ≤ vec_capacity numbers.old }
    ensures items { numbers.new.items ≡ map (λ w. wrap U8 (pos w)) bytes.now }
    ensures room { vec_capacity numbers.new ≡ vec_capacity numbers.old }
{
    numbers.clear();
    for byte in bytes {
        numbers.push_reserved(word_number::<Unsigned8>(u32::from(*byte)).value);
    }
}

// Makes a list that of the numbers that words are. It takes no memory.
fn read_words(words: &Words, numbers: &mut Vec<i64>)
    requires kept { IsKept words.now }
    requires room { length (numbers_of words.now) ≤ vec_capacity numbers.old }
    ensures items { numbers.new.items ≡ numbers_of words.now }
    ensures room { vec_capacity numbers.new ≡ vec_capacity numbers.old }
{
    if words.is_apart {
        copy_all(words.wides.as_slice(), numbers);
    } else {
        read_all(words.bits.as_slice(), words.ty, numbers);
    }
}

// Takes a type for the numbers that come, where there are none.
fn begin(words: &mut Words, ty: Ty)
    requires { IsKept words.old }
    ensures numbers { numbers_of words.new ≡ numbers_of words.old }
    ensures bits { words.new.bits ≡ words.old.bits }
    ensures wides { words.new.wides ≡ words.old.wides }
{
    if words.bits.is_empty() {
        words.ty = ty;
        words.is_apart = false;
    }
}

// Whether the numbers are those of this type that have the bits.
fn is_read_as(words: &Words, ty: Ty) -> bool
    ensures { OnTrue result ((words.now.is_apart ≡ false) × (words.now.ty ≡ ty)) }
{
    !words.is_apart && words.ty == ty
}

// Sets the numbers apart, if they do not stand so.
fn set_apart(words: &mut Words)
    requires { length words.old.bits.items ≤ vec_capacity words.old.wides }
    ensures apart { words.new.is_apart ≡ true }
    ensures numbers { words.new.wides.items ≡ numbers_of words.old }
    ensures bits { words.new.bits ≡ words.old.bits }
    ensures room { vec_capacity words.new.wides ≡ vec_capacity words.old.wides }
{
    if !words.is_apart {
        read_all(words.bits.as_slice(), words.ty, &mut words.wides);
        words.is_apart = true;
    }
}

// Takes one more number, and sets all apart.
#[inline(never)]
fn push_apart(words: &mut Words, number: i64)
    requires kept { IsKept words.old }
    requires bits { length words.old.bits.items < vec_capacity words.old.bits }
    requires wides { length words.old.bits.items < vec_capacity words.old.wides }
    ensures numbers { numbers_of words.new ≡ numbers_of words.old ++ number ∷ [] }
    ensures kept { IsKept words.new }
    ensures bits { vec_capacity words.new.bits ≡ vec_capacity words.old.bits }
    ensures wides { vec_capacity words.new.wides ≡ vec_capacity words.old.wides }
{
    set_apart(words);
    words.bits.push_reserved(bits_of(number));
    words.wides.push_reserved(number);
}

// Takes the number of one more value.
fn push(words: &mut Words, value: Value)
    requires kept { IsKept words.old }
    requires bits { length words.old.bits.items < vec_capacity words.old.bits }
    requires wides { length words.old.bits.items < vec_capacity words.old.wides }
    ensures numbers { numbers_of words.new ≡ numbers_of words.old ++ value.number ∷ [] }
    ensures kept { IsKept words.new }
    ensures bits { vec_capacity words.new.bits ≡ vec_capacity words.old.bits }
    ensures wides { vec_capacity words.new.wides ≡ vec_capacity words.old.wides }
{
    begin(words, value.ty);
    let word = bits_of(value.number);
    if words.is_apart || typed_number(words.ty, word) != value.number {
        push_apart(words, value.number);
    } else {
        words.bits.push_reserved(word);
    }
}

// Takes the numbers of a type that words are, one by one, and sets all apart.
fn append_apart<W: Width>(words: &mut Words, more: &[u32])
    requires kept { IsKept words.old }
    requires bits { length words.old.bits.items + length more.now ≤ vec_capacity words.old.bits }
    requires wides { length words.old.bits.items + length more.now ≤ vec_capacity words.old.wides }
    ensures numbers { numbers_of words.new ≡ numbers_of words.old ++ map (λ w. wrap W.ty (pos w)) more.now }
    ensures kept { IsKept words.new }
    ensures bits { vec_capacity words.new.bits ≡ vec_capacity words.old.bits }
    ensures wides { vec_capacity words.new.wides ≡ vec_capacity words.old.wides }
{
    for word in more {
        push_apart(words, word_number::<W>(*word).value);
    }
}

// Takes the numbers of a type that words are.
fn append<W: Width>(words: &mut Words, more: &[u32])
    requires kept { IsKept words.old }
    requires bits { length words.old.bits.items + length more.now ≤ vec_capacity words.old.bits }
    requires wides { length words.old.bits.items + length more.now ≤ vec_capacity words.old.wides }
    ensures numbers { numbers_of words.new ≡ numbers_of words.old ++ map (λ w. wrap W.ty (pos w)) more.now }
    ensures kept { IsKept words.new }
    ensures bits { vec_capacity words.new.bits ≡ vec_capacity words.old.bits }
    ensures wides { vec_capacity words.new.wides ≡ vec_capacity words.old.wides }
{
    begin(words, W::kind());
    if is_read_as(words, W::kind()) {
        let alloc = *words.bits.allocator();
        let bits = replace(&mut words.bits, Vec::new(alloc));
        words.bits = with_words::<W>(bits, more);
    } else {
        append_apart::<W>(words, more);
    }
}

// Takes the numbers of a type that bytes are, one by one.
fn append_narrow<W: Width>(words: &mut Words, more: &[u8])
    requires kept { IsKept words.old }
    requires bits { length words.old.bits.items + length more.now ≤ vec_capacity words.old.bits }
    requires wides { length words.old.bits.items + length more.now ≤ vec_capacity words.old.wides }
    ensures numbers { numbers_of words.new ≡ numbers_of words.old ++ map (λ w. wrap W.ty (pos w)) more.now }
    ensures kept { IsKept words.new }
    ensures bits { vec_capacity words.new.bits ≡ vec_capacity words.old.bits }
    ensures wides { vec_capacity words.new.wides ≡ vec_capacity words.old.wides }
{
    for byte in more {
        let value = Value {
            ty: W::kind(),
            number: word_number::<W>(u32::from(*byte)).value,
        };
        push(words, value);
    }
}

// Forgets what the words are, and has them be the numbers of u8 that bytes are.
fn move_in(words: &mut Words, bytes: &[u8])
    requires bits { length bytes.now ≤ vec_capacity words.old.bits }
    requires wides { length bytes.now ≤ vec_capacity words.old.wides }
    ensures numbers { numbers_of words.new ≡ map (λ w. wrap U8 (pos w)) bytes.now }
    ensures kept { IsKept words.new }
    ensures bits { vec_capacity words.new.bits ≡ vec_capacity words.old.bits }
    ensures wides { vec_capacity words.new.wides ≡ vec_capacity words.old.wides }
{
    words.bits.clear();
    words.is_apart = false;
    append_narrow::<Unsigned8>(words, bytes);
}

// The lowest 8 bits of a word.
#[inline(always)]
fn low_byte(word: u32) -> u8
    ensures { result ≡ word % 2 ^ 8 }
{
    (word % 256) as u8
}

// The list with the lowest bytes of words, for which it has room. It takes no memory. The list is handed over, so that its length is
// known to be nobody else's while they are added.
#[inline(never)]
fn with_low_bytes(mut bytes: Vec<u8>, words: &[u32]) -> Vec<u8>
    requires { length bytes.items + length words.now ≤ vec_capacity bytes }
    ensures items { result.items ≡ bytes.items ++ map (λ w. w % 2 ^ 8) words.now }
    ensures room { vec_capacity result ≡ vec_capacity bytes }
{
    for word in words {
        bytes.push_reserved(low_byte(*word));
    }
    bytes
}

// Says that bytes are the low bits of the numbers of u8 that they are: each is seen to be a byte. The program does nothing here.
fn see_bytes(bytes: &[u8])
    ensures { map (λ w. low_bits (wrap U8 (pos w))) bytes.now ≡ bytes.now }
{
    for byte in bytes {
        let _byte = *byte;
    }
}

/// Numbers, for which memory was taken before: there is room for so many.
#[derive(Drop)]
struct Numbers {
    /// The numbers are those of `u8` that the bytes are. What the words are counts for nothing then.
    in_bytes: bool,
    bytes: Vec<u8>,
    words: Words,
    room: usize,
}

// Has the numbers stand in words.
#[inline(never)]
fn leave_bytes(numbers: &mut Numbers)
    requires { HasRoom numbers.old }
    ensures words { numbers.new.in_bytes ≡ false }
    ensures numbers { numbers_of numbers.new.words ≡ numbers_in numbers.old }
    ensures bits { length numbers.new.words.bits.items ≡ length (numbers_in numbers.old) }
    ensures room { HasRoom numbers.new × (numbers.new.room ≡ numbers.old.room) }
{
    if numbers.in_bytes {
        move_in(&mut numbers.words, numbers.bytes.as_slice());
        numbers.in_bytes = false;
    }
}

// Takes the number of one more value, in a byte where the others stand so and it can.
fn take(numbers: &mut Numbers, value: Value)
    requires room { HasRoom numbers.old }
    requires free { length (numbers_in numbers.old) < numbers.old.room }
    ensures numbers { numbers_in numbers.new ≡ numbers_in numbers.old ++ value.number ∷ [] }
    ensures room { HasRoom numbers.new × (numbers.new.room ≡ numbers.old.room) }
{
    let byte = low_byte(bits_of(value.number));
    let number = word_number::<Unsigned8>(u32::from(byte)).value;
    if numbers.in_bytes && value.ty == Ty::U8 && number == value.number {
        numbers.bytes.push_reserved(byte);
    } else {
        leave_bytes(numbers);
        push(&mut numbers.words, value);
    }
}

// Whether the type is that of bytes.
#[inline(always)]
fn is_u8<W: Width>() -> bool
    ensures { OnTrue result (W.ty ≡ U8) }
{
    W::kind() == Ty::U8
}

// Takes the numbers of a type that words are, in bytes where the others stand so and it is u8.
fn take_words<W: Width>(numbers: &mut Numbers, words: &[u32])
    requires room { HasRoom numbers.old }
    requires free { length (numbers_in numbers.old) + length words.now ≤ numbers.old.room }
    ensures numbers { numbers_in numbers.new ≡ numbers_in numbers.old ++ map (λ w. wrap W.ty (pos w)) words.now }
    ensures room { HasRoom numbers.new × (numbers.new.room ≡ numbers.old.room) }
{
    if numbers.in_bytes && is_u8::<W>() {
        let alloc = *numbers.bytes.allocator();
        let bytes = replace(&mut numbers.bytes, Vec::new(alloc));
        numbers.bytes = with_low_bytes(bytes, words);
    } else {
        leave_bytes(numbers);
        append::<W>(&mut numbers.words, words);
    }
}

// Takes the numbers of a type that bytes are, as they are where the others stand in bytes and it is u8.
fn take_bytes<W: Width>(numbers: &mut Numbers, bytes: &[u8])
    requires room { HasRoom numbers.old }
    requires free { length (numbers_in numbers.old) + length bytes.now ≤ numbers.old.room }
    ensures numbers { numbers_in numbers.new ≡ numbers_in numbers.old ++ map (λ w. wrap W.ty (pos w)) bytes.now }
    ensures room { HasRoom numbers.new × (numbers.new.room ≡ numbers.old.room) }
{
    if numbers.in_bytes && is_u8::<W>() {
        let Ok(()) = numbers.bytes.extend_from_slice(bytes) else {
            unreachable!()
        };
    } else {
        leave_bytes(numbers);
        append_narrow::<W>(&mut numbers.words, bytes);
    }
}

/// The low bits of numbers. What reads many of them takes these apart once, so that a loop is over one kind.
#[derive(Clone, Copy, Drop)]
pub enum GivenBits<'a> {
    /// The lowest 8 bits, where all numbers are of `u8`: they have no others.
    Bytes(&'a [u8]),
    /// The lowest 32 bits, in two's complement.
    Words(&'a [u32]),
}

/// The numbers that a run gives, in memory that was taken before: there is room for so many. Contracts see them as a row.
#[derive(Drop)]
pub(crate) struct Given {
    numbers: Numbers,
}

impl Model for Given {
    ghost use Rattle.interpreter.specs.GivenNumbers.{numbers_in, HasRoom};
    ghost use Rattle.interpreter.specs.Rows.{Listed, listed};

    ghost Value = { Listed };

    ghost view = { λ g. listed (numbers_in g.numbers) g.numbers.room };

    ghost invariant = { λ g. HasRoom g.numbers };
}

impl Given {
    /// No numbers, and room for so many, at one byte each, and at 4 and at 8 that are not touched: those of 4 as long as all numbers
    /// are of `u8` and fit it, and those of 8 as long as all are of one type and fit it.
    ///
    /// # Errors
    /// `AllocError` where memory runs out.
    pub(crate) fn new(alloc: Global, room: usize) -> Result<Given, AllocError>
        ensures { IfOk result (λ given. given ≡ listed [] room) }
    {
        let bytes = Vec::with_capacity(alloc, room)?;
        let bits = Vec::with_capacity(alloc, room)?;
        let wides = Vec::with_capacity(alloc, room)?;
        let words = Words {
            bits,
            ty: Ty::U8,
            is_apart: false,
            wides,
        };
        Ok(Given {
            numbers: Numbers {
                in_bytes: true,
                bytes,
                words,
                room,
            },
        })
    }

    /// The low bits of the numbers.
    pub(crate) fn bits(&self) -> GivenBits<'_>
        ensures { given_list result ≡ map low_bits self.now.items }
    {
        if self.numbers.in_bytes {
            let bytes = self.numbers.bytes.as_slice();
            see_bytes(bytes);
            GivenBits::Bytes(bytes)
        } else {
            GivenBits::Words(self.numbers.words.bits.as_slice())
        }
    }

    /// How many numbers there are.
    pub(crate) fn len(&self) -> usize
        ensures { result ≡ length self.now.items }
    {
        if self.numbers.in_bytes {
            self.numbers.bytes.len()
        } else {
            self.numbers.words.bits.len()
        }
    }

    /// For how many more numbers there is room.
    pub(crate) fn free(&self) -> usize
        ensures { length self.now.items + result ≡ self.now.room }
    {
        self.numbers.room - self.len()
    }

    /// Makes a list that of these numbers. It takes no memory.
    pub(crate) fn copy_to(&self, numbers: &mut Vec<i64>)
        requires { length self.now.items ≤ vec_capacity numbers.old }
        ensures items { numbers.new.items ≡ self.now.items }
        ensures room { vec_capacity numbers.new ≡ vec_capacity numbers.old }
    {
        if self.numbers.in_bytes {
            read_bytes(self.numbers.bytes.as_slice(), numbers);
        } else {
            read_words(&self.numbers.words, numbers);
        }
    }

    /// Forgets all numbers.
    pub(crate) fn clear(&mut self)
        ensures { self.new ≡ listed [] self.old.room }
    {
        self.numbers.bytes.clear();
        self.numbers.in_bytes = true;
    }

    /// Takes the number of one more value.
    pub(crate) fn push(&mut self, value: Value)
        requires { length self.old.items < self.old.room }
        ensures { self.new ≡ listed (self.old.items ++ value.number ∷ []) self.old.room }
    {
        take(&mut self.numbers, value);
    }

    /// Takes the numbers of a type that words are, behind the others.
    pub(crate) fn append_words<W: Width>(&mut self, words: &[u32])
        requires { length self.old.items + length words.now ≤ self.old.room }
        ensures { self.new ≡ listed (self.old.items ++ map (λ w. wrap W.ty (pos w)) words.now) self.old.room }
    {
        take_words::<W>(&mut self.numbers, words);
    }

    /// Takes the numbers of a type that bytes are, as words of which no other bit is set, behind the others.
    pub(crate) fn append_bytes<W: Width>(&mut self, bytes: &[u8])
        requires { length self.old.items + length bytes.now ≤ self.old.room }
        ensures { self.new ≡ listed (self.old.items ++ map (λ w. wrap W.ty (pos w)) bytes.now) self.old.room }
    {
        take_bytes::<W>(&mut self.numbers, bytes);
    }
}
