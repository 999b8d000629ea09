//! What registers hold.

ghost use Rattle.std.specs.Prelude.{◌≡◌, ◌<◌, length};
ghost use Rattle.tree.specs.Meaning.{typed};
ghost use Rattle.interpreter.specs.Evaluation.Words.{word_at};

use crate::evaluation::typed_number;
use numeric::Ty;
use tree::Value;

/// How many turns of a loop are taken together at most: so many words a register has.
pub(crate) const LONGEST_RUN: usize = 1024;

/// The same of a loop that updates, for each of whose turns places of its own are found too.
pub(crate) const LONGEST_UPDATE: usize = 512;

/// Fewer turns of a loop are taken one by one: what a run costs whatever its length is more than they do.
pub(crate) const SHORTEST_RUN: usize = 8;

/// What a register holds for a turn, of the type.
#[inline(always)]
pub(crate) fn value_at(ty: Ty, words: &[u32], turn: usize) -> Value
    requires { turn < length words.now }
    ensures { result ≡ typed ty (word_at ty words.now turn) }
{
    Value {
        ty,
        number: typed_number(ty, words[turn]),
    }
}
