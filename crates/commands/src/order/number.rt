//! A worker's number, digit by digit.

ghost use Rattle.std.specs.Prelude.{◌<◌, ◌+◌, ◌++◌, ◌∷◌, [], IfSome, MatchOption};
ghost use Rattle.spelling.specs.Words.Spelling.{count_text};
ghost use Rattle.commands.specs.Order.Numbers.{digits_of, BeginsNone, Spells};

/// Workers' numbers are below this.
const WORKERS: u8 = 64;
/// The numbers that another digit may follow are from this one on: no number has a leading zero.
const FIRST_TENS: u8 = 1;
/// The last number that another digit may follow.
const LAST_TENS: u8 = 6;

/// The number with another digit behind it, if that is a worker's.
fn with_digit(number: u8, digit: u8) -> Option<u8>
    requires number { number < 64 }
    requires digit { digit < 10 }
    ensures { MatchOption result (BeginsNone (count_text number ++ (48 + digit) ∷ [])) (Spells (count_text number ++ (48 + digit) ∷ [])) }
{
    if number < FIRST_TENS || number > LAST_TENS {
        return None;
    }
    let longer = 10 * number + digit;
    if longer < WORKERS { Some(longer) } else { None }
}

/// The number so far with the byte behind it, if that is a worker's.
pub(crate) fn with_byte(number: Option<u8>, byte: u8) -> Option<u8>
    requires { IfSome number (λ n. n < 64) }
    ensures { MatchOption result (BeginsNone (digits_of number ++ byte ∷ [])) (Spells (digits_of number ++ byte ∷ [])) }
{
    if !byte.is_ascii_digit() {
        return None;
    }
    let digit = byte - b'0';
    match number {
        None => Some(digit),
        Some(number) => with_digit(number, digit),
    }
}
