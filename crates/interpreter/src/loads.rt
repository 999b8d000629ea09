//! Names, and those by which claims' cells are loaded.

ghost use Rattle.std.specs.Bool.{OnTrue};
ghost use Rattle.std.specs.Prelude.{◌≡◌, ◌∷◌, [], ◌-◌, ◌^◌, ◌==◌, ◌&&◌, not, min, None};
ghost use Rattle.std.specs.List.{list_all};
ghost use Rattle.meaning.specs.Names.{same_name};
ghost use Rattle.plan.specs.Claimed.{is_digit, is_numeral, digits_after};
ghost use Rattle.interpreter.specs.Claims.{Means};

use meaning::sameness::same_name;

/// Whether the names are the same. Names of one byte, as most variables have, or of two, and such as begin
/// with other bytes are compared in place.
#[inline(always)]
pub(crate) fn is_named(left: &str, right: &str) -> bool
    ensures { result ≡ same_name left.now right.now }
{
    match (left.as_bytes(), right.as_bytes()) {
        ([first], [second]) => first == second,
        ([first, second], [third, fourth]) => first == third && second == fourth,
        ([first, ..], [second, ..]) if first != second => false,
        _ => same_name(left, right),
    }
}

/// Whether a name is this byte alone.
#[inline(always)]
pub(crate) fn is_named_byte(name: &str, byte: u8) -> bool
    ensures { result ≡ same_name name.now (byte ∷ []) }
{
    match name.as_bytes() {
        [first] => *first == byte,
        _ => false,
    }
}

/// Whether the byte is a decimal digit.
fn is_digit(byte: u8) -> bool
    ensures { result ≡ is_digit byte }
{
    b'0' <= byte && byte <= b'9'
}

/// Whether the byte is a digit that a longer numeral can begin with.
fn is_leading(byte: u8) -> bool
    ensures { result ≡ (is_digit byte && not (byte == 48)) }
{
    is_digit(byte) && byte != b'0'
}

/// Whether all bytes are decimal digits.
fn are_digits(bytes: &[u8]) -> bool
    ensures { result ≡ list_all is_digit bytes.now }
{
    bytes.iter().all(|byte| is_digit(*byte))
}

/// Whether the bytes are decimal digits without a leading zero, or a 0 alone.
fn is_numeral(digits: &[u8]) -> bool
    ensures { result ≡ is_numeral digits.now }
{
    match digits {
        [] => false,
        [digit] => is_digit(*digit),
        [first, rest @ ..] => is_leading(*first) && are_digits(rest),
    }
}

/// The number that digits write. More than a `usize` holds count as the greatest `usize`.
fn number_of(digits: &[u8]) -> usize
    ensures { result ≡ min (digits_after 0 digits.now) (2 ^ 64 - 1) }
{
    let mut number: usize = 0;
    for digit in digits {
        number = number
            .saturating_mul(10)
            .saturating_add(usize::from(digit.saturating_sub(b'0')));
    }
    number
}

/// The number of the claim that a call's name means, if it means one.
pub(crate) fn claim_of(name: &str) -> Option<usize>
    ensures { Means name.now result }
{
    match name.as_bytes() {
        [b'@', digit] if is_digit(*digit) => Some(usize::from(*digit - b'0')),
        [b'@', digits @ ..] if is_numeral(digits) => Some(number_of(digits)),
        _ => None,
    }
}

/// Whether a name means no claim.
pub(crate) fn means_none(name: &str) -> bool
    ensures { OnTrue result (Means name.now None) }
{
    match claim_of(name) {
        Some(_) => false,
        None => true,
    }
}
