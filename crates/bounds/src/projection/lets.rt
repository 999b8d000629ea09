//! The symbols of some loops and of the lets over them.

ghost use Rattle.std.specs.Prelude.{◌≡◌, IfOk};
ghost use Rattle.std.specs.List.{list_any};
ghost use Rattle.bounds.specs.Projection.Elimination.{names_inner};
ghost use Rattle.bounds.specs.Projection.Lets.{is_let_over, with_lets};
ghost use Rattle.bounds.specs.Projection.Sound.{AreInner};

use crate::projection::search::names_inner;
use lin::{Binding, Lin, Scope, Sym};
use std::alloc::{AllocError, Global};

/// Whether one of some forms names one of some symbols.
fn name_inner(symbols: &[Sym], forms: &[Lin]) -> bool
    ensures { result ≡ list_any (λ f. names_inner symbols.now f) forms.now }
{
    forms.iter().any(|form| names_inner(symbols, form))
}

/// Whether a binding is that of a let over one of some symbols.
fn is_let_over(symbols: &[Sym], binding: &Binding) -> bool
    ensures { result ≡ is_let_over symbols.now binding.now }
{
    match binding {
        Binding::Loop(_) => false,
        Binding::LetMin(forms) | Binding::LetMax(forms) => name_inner(symbols, forms.as_slice()),
    }
}

/// The symbols of some loops, and after them those of the lets over one of these or over such a let, in their order: what
/// is to be eliminated where these loops are inner ones. A let that names a later symbol is none over it.
pub fn with_lets(alloc: Global, scope: &Scope, loops: &[Sym]) -> Result<Vec<Sym>, AllocError>
    ensures exact { IfOk result (λ inner. inner.items ≡ with_lets scope.now loops.now) }
    ensures sound { IfOk result (λ inner. AreInner scope.now loops.now inner.items) }
{
    let mut inner = Vec::from_slice(alloc, loops)?;
    for (symbol, binding) in scope.as_slice().iter().enumerate() {
        if is_let_over(&inner, binding) {
            inner.push(symbol)?;
        }
    }
    Ok(inner)
}
