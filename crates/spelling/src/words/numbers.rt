//! Reading numbers.

ghost use Rattle.std.specs.Prelude.{◌≡◌, ◌<◌, ◌≤◌, ◌+◌, ◌^◌, length, if◌then◌else◌, nat_lt, Some, None};
ghost use Rattle.std.specs.List.{prefix_len};
ghost use Rattle.std.specs.Str.Parse.{digits_value};
ghost use Rattle.tree.specs.Token.Spelling.{is_digit};
ghost use Rattle.spelling.specs.Words.Reading as spec;

use crate::words::bytes::{begins, skip};
use lin::Sym;

/// Counts are below this.
const COUNT_BOUND: u64 = 1 << 32;
/// Numbers that are not negative are below this.
const NUMBER_BOUND: u64 = 1 << 63;

/// How many digits stand at the front.
fn digits_len(text: &[u8]) -> usize
    ensures len { result ≡ prefix_len is_digit text.now }
    ensures within { result ≤ length text.now }
{
    for (i, byte) in text.iter().enumerate() {
        if !byte.is_ascii_digit() {
            return i;
        }
    }
    text.len()
}

/// The number that decimal digits are, if it is below a bound.
fn decimal(bound: u64, digits: &[u8]) -> Option<u64>
    requires digits { prefix_len is_digit digits.now ≡ length digits.now }
    requires bound { 0 < bound }
    ensures { result ≡ (if nat_lt (digits_value 10 digits.now) bound then Some (digits_value 10 digits.now) else None) }
{
    let mut value: u64 = 0;
    for digit in digits {
        let next = 10 * u128::from(value) + u128::from(*digit - b'0');
        if next >= u128::from(bound) {
            return None;
        }
        value = next as u64;
    }
    Some(value)
}

/// The number that the digits at the front are, if it is below a bound.
#[tactic(auto, using(crate::proofs::Decimals::whole_front))]
fn number_below(bound: u64, text: &[u8]) -> Option<u64>
    requires { 0 < bound }
    ensures { result ≡ spec.number_below bound text.now }
{
    let (digits, _) = text.split_at(digits_len(text));
    decimal(bound, digits)
}

/// The number that the digits at the front are, 0 where that is not below a bound, and what follows the digits.
#[tactic(auto, unfolding(crate::specs::Words::Reading::digits_from))]
fn digits_from(bound: u64, text: &[u8]) -> (u64, &[u8])
    requires { 0 < bound }
    ensures number { result.0 ≡ (spec.digits_from bound text.now).0 }
    ensures rest { result.1.now ≡ (spec.digits_from bound text.now).1 }
    ensures below { result.0 < bound }
{
    let number = number_below(bound, text).unwrap_or(0);
    (number, skip(digits_len(text), text))
}

/// The count at the front, 0 where it takes more than 32 bits, and what follows its digits.
#[tactic(auto, unfolding(crate::specs::Words::Reading::count_from))]
pub fn count_from(text: &[u8]) -> (u32, &[u8])
    ensures count { result.0 ≡ (spec.count_from text.now).0 }
    ensures rest { result.1.now ≡ (spec.count_from text.now).1 }
{
    let (number, rest) = digits_from(COUNT_BOUND, text);
    (number as u32, rest)
}

/// The symbol behind the first byte, 0 where its number takes more than 63 bits, and what follows its digits.
#[tactic(auto, unfolding(crate::specs::Words::Reading::symbol_from))]
pub fn symbol_from(text: &[u8]) -> (Sym, &[u8])
    ensures symbol { result.0 ≡ (spec.symbol_from text.now).0 }
    ensures rest { result.1.now ≡ (spec.symbol_from text.now).1 }
{
    let (number, rest) = digits_from(NUMBER_BOUND, skip(1, text));
    (number as usize, rest)
}

/// The number at the front, negative behind a `-`, 0 where it takes more than 64 bits, and what follows its digits.
#[tactic(auto, unfolding(crate::specs::Words::Reading::number_from))]
pub fn number_from(text: &[u8]) -> (i64, &[u8])
    ensures number { result.0 ≡ (spec.number_from text.now).0 }
    ensures rest { result.1.now ≡ (spec.number_from text.now).1 }
{
    if begins(b'-', text) {
        let (number, rest) = digits_from(NUMBER_BOUND + 1, skip(1, text));
        ((-i128::from(number)) as i64, rest)
    } else {
        let (number, rest) = digits_from(NUMBER_BOUND, text);
        (number as i64, rest)
    }
}

/// Whether no number of 64 bits with a sign begins behind this byte, where digits do.
fn is_large_behind(before: u8, text: &[u8]) -> bool
    ensures { result ≡ spec.is_large_behind before text.now }
{
    let bound = if before == b'-' {
        NUMBER_BOUND + 1
    } else {
        NUMBER_BOUND
    };
    !before.is_ascii_digit() && number_below(bound, text).is_none()
}

/// Whether some run of digits, with the `-` before it if there is one, is no number of 64 bits with a sign.
pub fn has_large_number(line: &[u8]) -> bool
    ensures { result ≡ spec.has_large_number line.now }
{
    let mut before = 0;
    let mut rest = line;
    while let [byte, after @ ..] = rest {
        if is_large_behind(before, rest) {
            return true;
        }
        before = *byte;
        rest = after;
    }
    false
}
