//! Forms with others in a symbol's place.

ghost use Rattle.std.specs.Prelude.{◌≡◌, ◌++◌, false, IfOk, MatchOption, None, Some};
ghost use Rattle.lin.specs.Forms.{combined};
ghost use Rattle.lin.specs.Search.{replaced};
ghost use Rattle.tails.specs.Moves.{each_replaced, expanded, joined, naming, not_naming, only};
ghost use Rattle.tails.specs.Held.{expanded_one, some_if};

use lin::{Forms, Lin, LinError, Sym};
use soundness::binders::symbols::{form_has, forms_have};
use std::alloc::{AllocError, Global};

/// A form and a multiple of another; None where that leaves the limits.
pub(crate) fn combined(
    alloc: Global,
    form: &Lin,
    factor: i64,
    other: &Lin,
) -> Result<Option<Lin>, AllocError>
    ensures { IfOk result (λ made. made ≡ combined form.now factor other.now) }
{
    match form.plus_multiple(alloc, factor, other) {
        Ok(made) => Ok(Some(made)),
        Err(LinError::Limit) => Ok(None),
        Err(LinError::Memory) => Err(AllocError),
    }
}

/// The form with another in the place of a symbol of this factor; None where that leaves the limits.
fn replaced(
    alloc: Global,
    form: &Lin,
    symbol: Sym,
    factor: i64,
    other: &Lin,
) -> Result<Option<Lin>, AllocError>
    ensures { IfOk result (λ made. made ≡ replaced form.now symbol factor other.now) }
{
    let rest = form.without(alloc, symbol)?;
    combined(alloc, &rest, factor, other)
}

/// Adds the form with each of the others in the symbol's place, and tells whether all are within the limits.
#[tactic(auto, using(crate::proofs::Joined::joined_nothing))]
pub(crate) fn push_replaced(
    alloc: Global,
    into: &mut Forms,
    form: &Lin,
    symbol: Sym,
    factor: i64,
    others: &[Lin],
) -> Result<bool, AllocError>
    ensures { IfOk result (λ all. some_if all into.new ≡ joined (Some into.old) (each_replaced form.now symbol factor others.now)) }
{
    match others {
        [] => Ok(true),
        [first, rest @ ..] => match replaced(alloc, form, symbol, factor, first)? {
            Some(made) => {
                into.push(made)?;
                push_replaced(alloc, into, form, symbol, factor, rest)
            }
            None => Ok(false),
        },
    }
}

/// Adds those of the forms in which the symbol does not stand.
#[tactic(auto, using(crate::proofs::Joined::kept_first, crate::proofs::Joined::passed_first))]
pub(crate) fn push_without(
    alloc: Global,
    into: &mut Forms,
    symbol: Sym,
    forms: &[Lin],
) -> Result<(), AllocError>
    ensures { IfOk result (λ done. into.new ≡ into.old ++ not_naming symbol forms.now) }
{
    match forms {
        [] => Ok(()),
        [first, rest @ ..] => {
            if form_has(symbol, first) {
                return push_without(alloc, into, symbol, rest);
            }
            into.push(first.copy(alloc)?)?;
            push_without(alloc, into, symbol, rest)
        }
    }
}

/// The only one of the forms in which the symbol stands.
#[tactic(auto, using(crate::proofs::Joined::only_passed))]
pub(crate) fn only_with(symbol: Sym, forms: &[Lin]) -> Option<&Lin>
    ensures { MatchOption result (only (naming symbol forms.now) ≡ None) (λ form. only (naming symbol forms.now) ≡ Some form.now) }
{
    match forms {
        [] => None,
        [first, rest @ ..] => {
            if form_has(symbol, first) {
                if forms_have(symbol, rest) {
                    None
                } else {
                    Some(first)
                }
            } else {
                only_with(symbol, rest)
            }
        }
    }
}

/// Adds the form with each of the members in the symbol's place, or the form itself, where the symbol does not stand in it. It tells
/// whether the symbol's factor is positive and all are within the limits.
#[tactic(auto, using(crate::proofs::Joined::joined_none))]
fn push_expanded_one(
    alloc: Global,
    into: &mut Forms,
    symbol: Sym,
    members: &[Lin],
    form: &Lin,
) -> Result<bool, AllocError>
    ensures { IfOk result (λ all. some_if all into.new ≡ joined (Some into.old) (expanded_one symbol members.now form.now)) }
{
    if !form_has(symbol, form) {
        into.push(form.copy(alloc)?)?;
        return Ok(true);
    }
    let factor = form.factor(symbol);
    if factor < 1 {
        return Ok(false);
    }
    push_replaced(alloc, into, form, symbol, factor, members)
}

/// Adds the forms with each of the members in the symbol's place, and tells whether each factor of the symbol is positive and all are
/// within the limits.
#[tactic(auto, using(crate::proofs::Joined::joined_nothing, crate::proofs::Joined::expanded_more, crate::proofs::Joined::expanded_none))]
pub(crate) fn push_expanded(
    alloc: Global,
    into: &mut Forms,
    symbol: Sym,
    members: &[Lin],
    forms: &[Lin],
) -> Result<bool, AllocError>
    ensures { IfOk result (λ all. some_if all into.new ≡ joined (Some into.old) (expanded false (λ a b. false) symbol members.now forms.now)) }
{
    match forms {
        [] => Ok(true),
        [first, rest @ ..] => {
            if push_expanded_one(alloc, into, symbol, members, first)? {
                push_expanded(alloc, into, symbol, members, rest)
            } else {
                Ok(false)
            }
        }
    }
}

/// The forms with each of the members in the symbol's place; None where the symbol has a factor that is not positive, or a form leaves
/// the limits.
#[tactic(auto, using(crate::proofs::Joined::joined_into_none))]
pub(crate) fn expanded(
    alloc: Global,
    symbol: Sym,
    members: &[Lin],
    forms: &[Lin],
) -> Result<Option<Forms>, AllocError>
    ensures { IfOk result (λ made. made ≡ expanded false (λ a b. false) symbol members.now forms.now) }
{
    let mut made = Forms::new(alloc);
    if push_expanded(alloc, &mut made, symbol, members, forms)? {
        Ok(Some(made))
    } else {
        Ok(None)
    }
}
