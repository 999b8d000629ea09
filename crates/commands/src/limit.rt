//! A limit, as the command line spells it.

ghost use Rattle.std.specs.Prelude.{◌≡◌};
ghost use Rattle.commands.specs.Limit.{limit_spelled, side_spelled};

use crate::workers::is_spelled;

/// The number below 2^64 that the text spells: without a sign, and without a zero before it.
pub(crate) fn limit_spelled(text: &str) -> Option<u64>
    ensures { result ≡ limit_spelled text.now }
{
    match text.parse::<u64>() {
        Ok(number) if is_spelled(number, text) => Some(number),
        _ => None,
    }
}

/// The number below 2^32 that the text spells: without a sign, and without a zero before it.
pub(crate) fn side_spelled(text: &str) -> Option<u32>
    ensures { result ≡ side_spelled text.now }
{
    match text.parse::<u32>() {
        Ok(number) if is_spelled(u64::from(number), text) => Some(number),
        _ => None,
    }
}
