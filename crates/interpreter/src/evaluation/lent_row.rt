//! Rows of numbers that a reader lends.

ghost use Rattle.std.specs.Prelude.{◌≡◌, ◌<◌, ◌≤◌, IfSome, IfNone, length, pos, take, drop};
ghost use Rattle.numeric.specs.declared.ty.Ty.{Ty as TyFound};
ghost use Rattle.numeric.specs.Wrap.{wrap};
ghost use Rattle.interpreter.specs.Evaluation.Lending.{lent, lent_bits, times_factor};
ghost use Rattle.interpreter.specs.Evaluation.Words.{bits_at};

use crate::evaluation::lanes::Number;
use crate::evaluation::residue_kernels::word_times;
use crate::scanlines::window;
use numeric::Ty;

/// Numbers side by side that lie where they are kept, so that nothing is copied.
#[derive(Clone, Copy, Drop)]
pub enum LentNumbers<'a> {
    /// In words.
    Words(&'a [u32]),
    /// In one byte each.
    Bytes(&'a [u8]),
}

/// Numbers side by side, each of which is a number of the type as the words of registers are.
#[derive(Clone, Copy, Drop)]
pub struct LentRow<'a> {
    pub ty: Ty,
    pub numbers: LentNumbers<'a>,
}

/// Numbers for the turns of a run, each of which is a number of the type as the words of registers are: one at the first turns, then
/// those that are lent, and another one at all turns behind them.
#[derive(Clone, Copy, Drop)]
pub(crate) struct LentOperand<'a> {
    pub ty: Ty,
    pub before: usize,
    pub low: u32,
    pub numbers: LentNumbers<'a>,
    pub high: u32,
}

/// Numbers for the turns of a run: those of an operand that is lent, as many times as a factor says, if there is one.
#[derive(Clone, Copy, Drop)]
pub(crate) struct LentTerm<'a> {
    pub factor: Option<Number>,
    pub operand: LentOperand<'a>,
}

impl LentNumbers<'_> {
    /// How many numbers there are.
    pub(crate) fn count(self) -> usize
        ensures { result ≡ length (lent self.entry) }
    {
        match self {
            LentNumbers::Words(words) => words.len(),
            LentNumbers::Bytes(bytes) => bytes.len(),
        }
    }
}

/// The bits of the lent number at a place, if there is one.
pub(crate) fn word_of(numbers: LentNumbers<'_>, place: usize) -> Option<u32>
    ensures inside { IfSome result (λ _. place < length (lent numbers.entry)) }
    ensures word { IfSome result (λ w. w ≡ bits_at (lent numbers.entry) place) }
    ensures behind { IfNone result (length (lent numbers.entry) ≤ place) }
{
    match numbers {
        LentNumbers::Words(words) => {
            if words.len() <= place {
                return None;
            }
            Some(words[place])
        }
        LentNumbers::Bytes(bytes) => {
            if bytes.len() <= place {
                return None;
            }
            Some(u32::from(bytes[place]))
        }
    }
}

impl LentOperand<'_> {
    /// The bits of the number for a turn.
    pub(crate) fn bits(self, turn: usize) -> u32
        ensures { result ≡ lent_bits self.entry turn }
    {
        if turn < self.before {
            return self.low;
        }
        match word_of(self.numbers, turn - self.before) {
            Some(word) => word,
            None => self.high,
        }
    }
}

/// The lowest 32 bits of a word, as many times as the factor says, if there is one.
pub(crate) fn word_by_factor(factor: Option<Number>, word: u32) -> u32
    ensures { (t : TyFound) → wrap t (pos result) ≡ times_factor t factor (wrap t (pos word)) }
{
    match factor {
        Some(factor) => word_times(factor, word),
        None => word,
    }
}

/// So many lent numbers from a place on, if they reach so far.
pub(crate) fn part_of<'a>(
    numbers: LentNumbers<'a>,
    from: usize,
    count: usize,
) -> Option<LentNumbers<'a>>
    ensures count { IfSome result (λ part. length (lent part) ≡ count) }
    ensures numbers { IfSome result (λ part. lent part ≡ take count (drop from (lent numbers.entry))) }
{
    match numbers {
        LentNumbers::Words(words) => {
            let part = window(words, from, count)?;
            Some(LentNumbers::Words(part))
        }
        LentNumbers::Bytes(bytes) => {
            let part = window(bytes, from, count)?;
            Some(LentNumbers::Bytes(part))
        }
    }
}
