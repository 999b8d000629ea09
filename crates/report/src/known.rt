//! What is known of symbols: between which numbers the value of each lies.

ghost use Rattle.std.specs.Prelude.{◌≡◌, ◌∷◌, ◌++◌, [], IfOk};
ghost use Rattle.report.specs.Known.{known_of};

use lin::Sym;
use std::alloc::{AllocError, Global};

/// The value of a symbol lies from `low` to `high`, and it may be the first turn of the symbol's loop, or a later one.
#[derive(Clone, Copy, Drop)]
pub(crate) struct Binding {
    pub symbol: Sym,
    pub low: i64,
    pub high: i64,
    pub first: bool,
    pub later: bool,
}

/// What is known of a symbol, by the last that was bound to it. A symbol to which nothing was bound is 0.
#[tactic(auto, using(crate::proofs::Bindings::known_same, crate::proofs::Bindings::known_other))]
pub(crate) fn known_of(known: &[Binding], symbol: Sym) -> Binding
    ensures { result ≡ known_of known.now symbol }
{
    let mut found = Binding {
        symbol,
        low: 0,
        high: 0,
        first: false,
        later: true,
    };
    for binding in known {
        if binding.symbol == symbol {
            found = *binding;
        }
    }
    found
}

/// What is known where one more symbol is bound.
pub(crate) fn bound(
    alloc: Global,
    known: &[Binding],
    binding: Binding,
) -> Result<Vec<Binding>, AllocError>
    ensures { IfOk result (λ more. more.items ≡ known.now ++ binding ∷ []) }
{
    let mut more = Vec::from_slice(alloc, known)?;
    more.push(binding)?;
    Ok(more)
}
