//! Writing sizes at the end of a text.

ghost use Rattle.std.specs.Prelude.{◌≡◌, ◌++◌, OnOk, string_bytes};
ghost use Rattle.spelling.specs.Words.Spelling as spec;

use crate::words::put_separator;
use itoa::Buffer;
use std::alloc::AllocError;

/// Writes a size.
pub fn put_size(text: &mut String, size: u64) -> Result<(), AllocError>
    ensures { OnOk result (string_bytes text.new ≡ string_bytes text.old ++ spec.count_text size) }
{
    text.push_str(Buffer::new().format(size))
}

fn put_by_commas(text: &mut String, sizes: &[u64]) -> Result<(), AllocError>
    ensures { OnOk result (string_bytes text.new ≡ string_bytes text.old ++ spec.separated_text 44 spec.count_text sizes.now) }
{
    for (i, size) in sizes.iter().enumerate() {
        put_separator(text, ",", i)?;
        put_size(text, *size)?;
    }
    Ok(())
}

/// Writes sizes by commas, in brackets.
#[tactic(auto, unfolding(crate::specs::Words::Spelling::counts_text))]
pub fn put_sizes(text: &mut String, sizes: &[u64]) -> Result<(), AllocError>
    ensures { OnOk result (string_bytes text.new ≡ string_bytes text.old ++ spec.counts_text sizes.now) }
{
    text.push_str("[")?;
    put_by_commas(text, sizes)?;
    text.push_str("]")
}
