//! The codes of refusals as words have them.

ghost use Rattle.std.specs.Prelude.{◌≡◌, map};
ghost use Rattle.std.specs.Option.{is_some};
ghost use Rattle.std.specs.Char.{to_ascii_uppercase};
ghost use Rattle.report.specs.Codes.Codes.{is_code};

use report::codes::page;
use std::str;

// The page of a code that these bytes are.
fn page_of(code: &[u8]) -> Option<&'static str>
    ensures { is_some result ≡ is_code code.now }
{
    match str::from_utf8(code) {
        Ok(text) => page(text),
        Err(_) => None,
    }
}

/// The page of a code, whose letter may be a small one.
pub(super) fn page_spelled(code: &str) -> Option<&'static str>
    ensures { is_some result ≡ is_code (map to_ascii_uppercase code.now) }
{
    match code.as_bytes() {
        [] | [_] => None,
        [letter, digit] => page_of(&[letter.to_ascii_uppercase(), digit.to_ascii_uppercase()]),
        [letter, first, second] => page_of(&[
            letter.to_ascii_uppercase(),
            first.to_ascii_uppercase(),
            second.to_ascii_uppercase(),
        ]),
        [_, _, _, _, ..] => None,
    }
}
