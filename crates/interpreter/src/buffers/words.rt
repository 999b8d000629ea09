//! Words of places: 32 bits, which hold the number of a value that fits its type.

ghost use Rattle.std.specs.Prelude.{◌≡◌, pos};
ghost use Rattle.std.specs.Bool.{OnTrue};
ghost use Rattle.numeric.specs.Wrap.{wrap, IsOf};
ghost use Rattle.tree.specs.Meaning.{typed};

use crate::evaluation::{Width, word_number};
use numeric::Ty;
use tree::Value;

/// The value of the type whose low bits a word has.
#[inline(always)]
pub(crate) fn value_in_word<W: Width>(word: u32) -> Value
    ensures { result ≡ typed W.ty (wrap W.ty (pos word)) }
{
    Value {
        ty: W::kind(),
        number: word_number::<W>(word).value,
    }
}

/// Whether a number fits a type.
#[inline(always)]
pub(crate) fn fits(ty: Ty, number: i64) -> bool
    ensures { OnTrue result (IsOf ty number) }
{
    ty.least() <= number && number <= ty.greatest()
}
