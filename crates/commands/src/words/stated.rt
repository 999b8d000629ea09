//! The words that ask for a command, without those that ask for more of a refusal.

ghost use Rattle.std.specs.Prelude.{◌≡◌, map, IfOk};
ghost use Rattle.commands.specs.Line.{stated};

use std::alloc::{AllocError, Global};

// The word that asks for more of a refusal.
const EXPLAIN: &str = "--explain";

// The word behind which each word is a name.
const NAMES_FOLLOW: &str = "--";

/// The words without those that ask for more of a refusal. Behind `--` each word is a name, and none asks for more.
///
/// # Errors
/// Where memory runs out.
pub fn stated_words<'a>(alloc: Global, words: &[&'a str]) -> Result<Vec<&'a str>, AllocError>
    ensures { IfOk result (λ kept. map (λ word. word.now) kept.items ≡ stated (map (λ word. word.now) words.now)) }
{
    let mut kept = Vec::with_capacity(alloc, words.len())?;
    let mut are_names = false;
    for word in words {
        are_names = are_names || *word == NAMES_FOLLOW;
        if are_names || *word != EXPLAIN {
            kept.push(*word)?;
        }
    }
    Ok(kept)
}
