//! The low bits of the numbers of places: a byte each as long as all are values of `u8`, then a word each.

ghost use Rattle.std.specs.Prelude.{◌≡◌, ◌≤◌, length, vec_capacity, IfOk};
ghost use Rattle.interpreter.specs.Buffers.PlaceBits.{bits_of};
ghost use Rattle.interpreter.specs.Evaluation.Lending.{lent};
ghost use Rattle.interpreter.specs.declared.buffers.place_bits.PlaceSize.TheVariants.{Word};

use crate::evaluation::LentNumbers;
use std::alloc::{AllocError, Global};

/// What the low bits of a place's number take.
#[derive(Clone, Copy, Drop)]
pub(crate) enum PlaceSize {
    /// A byte.
    Byte,
    /// A word of 32 bits.
    Word,
}

/// The low bits of the numbers of places: a byte each until a number is set that is no value of `u8`, and from then on a word each.
/// The other list has its memory, which is not touched as long as the list is not in use.
#[derive(Drop)]
pub(crate) struct PlaceBits {
    pub size: PlaceSize,
    pub bytes: Vec<u8>,
    pub words: Vec<u32>,
}

/// The low bits of one number, with memory for those of so many.
pub(crate) fn one_number(alloc: Global, count: usize) -> Result<PlaceBits, AllocError>
    ensures one { IfOk result (λ bits. length (bits_of bits) ≡ 1) }
    ensures bytes { IfOk result (λ bits. count ≤ vec_capacity bits.bytes) }
    ensures words { IfOk result (λ bits. count ≤ vec_capacity bits.words) }
    ensures room { IfOk result (λ bits. 1 ≤ vec_capacity bits.words) }
{
    let mut bytes = Vec::with_capacity(alloc, count)?;
    bytes.push(0)?;
    let words = Vec::with_capacity(alloc, count.max(1))?;
    Ok(PlaceBits {
        size: PlaceSize::Byte,
        bytes,
        words,
    })
}

/// Makes so many bytes of some.
fn make_bytes(bytes: &mut Vec<u8>, count: usize)
    requires { count ≤ vec_capacity bytes.old }
    ensures count { length bytes.new.items ≡ count }
    ensures capacity { vec_capacity bytes.old ≤ vec_capacity bytes.new }
{
    let Ok(()) = bytes.resize(count, 0) else {
        unreachable!()
    };
}

/// Makes so many words of some.
fn make_words(words: &mut Vec<u32>, count: usize)
    requires { count ≤ vec_capacity words.old }
    ensures count { length words.new.items ≡ count }
    ensures capacity { vec_capacity words.old ≤ vec_capacity words.new }
{
    let Ok(()) = words.resize(count, 0) else {
        unreachable!()
    };
}

/// Makes the low bits of so many numbers of some.
pub(crate) fn make_as_many(bits: &mut PlaceBits, count: usize)
    requires bytes { count ≤ vec_capacity bits.old.bytes }
    requires words { count ≤ vec_capacity bits.old.words }
    ensures count { length (bits_of bits.new) ≡ count }
    ensures bytes { vec_capacity bits.old.bytes ≤ vec_capacity bits.new.bytes }
    ensures words { vec_capacity bits.old.words ≤ vec_capacity bits.new.words }
{
    match bits.size {
        PlaceSize::Byte => make_bytes(&mut bits.bytes, count),
        PlaceSize::Word => make_words(&mut bits.words, count),
    }
}

/// The low bits, where they are kept.
#[inline(always)]
pub(crate) fn lent(bits: &PlaceBits) -> LentNumbers<'_>
    ensures { lent result ≡ bits_of bits.now }
{
    match bits.size {
        PlaceSize::Byte => LentNumbers::Bytes(bits.bytes.as_slice()),
        PlaceSize::Word => LentNumbers::Words(bits.words.as_slice()),
    }
}

// Makes a list that of words with these bytes as their lowest, for which it has room. It takes no memory.
fn widen_bytes(bytes: &[u8], words: &mut Vec<u32>)
    requires { length bytes.now ≤ vec_capacity words.old }
    ensures items { words.new.items ≡ bytes.now }
    ensures room { vec_capacity words.new ≡ vec_capacity words.old }
{
    words.clear();
    for byte in bytes {
        words.push_reserved(u32::from(*byte));
    }
}

/// Keeps the low bits in words from now on. It takes no memory.
#[inline(always)]
pub(crate) fn widen(bits: &mut PlaceBits)
    requires { length (bits_of bits.old) ≤ vec_capacity bits.old.words }
    ensures size { bits.new.size ≡ Word }
    ensures items { bits.new.words.items ≡ bits_of bits.old }
    ensures bytes { vec_capacity bits.new.bytes ≡ vec_capacity bits.old.bytes }
    ensures words { vec_capacity bits.new.words ≡ vec_capacity bits.old.words }
{
    match bits.size {
        PlaceSize::Byte => {
            widen_bytes(bits.bytes.as_slice(), &mut bits.words);
            bits.size = PlaceSize::Word;
        }
        PlaceSize::Word => {}
    }
}
