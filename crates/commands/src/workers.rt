//! A number of workers, as the command line spells it.

ghost use Rattle.std.specs.Prelude.{◌≡◌};
ghost use Rattle.std.specs.Str.{bytes_eq};
ghost use Rattle.spelling.specs.Words.Spelling.{count_text};
ghost use Rattle.commands.specs.Workers.{workers_spelled};

use itoa::Buffer;

/// The most workers that there may be.
const MOST: u64 = 64;

/// Whether the text is the number's digits.
pub(crate) fn is_spelled(number: u64, text: &str) -> bool
    ensures { result ≡ bytes_eq (count_text number) text.now }
{
    let mut buffer = Buffer::new();
    buffer.format(number) == text
}

/// The number of workers, from 1 to 64, that the text spells: without a sign, and without a zero before it.
pub(crate) fn workers_spelled(text: &str) -> Option<usize>
    ensures { result ≡ workers_spelled text.now }
{
    for number in 1..=MOST {
        if is_spelled(number, text) {
            return Some(number as usize);
        }
    }
    None
}
