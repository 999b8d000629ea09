//! The scope that the binders around a line make.

ghost use Rattle.std.specs.Prelude.{◌≡◌, ℕ, suc, ◌+◌, ◌^◌, ◌≤◌, ◌==◌, false, [], ◌∷◌, IfOk, map, min};
ghost use Rattle.std.specs.Option.{option_map_or};
ghost use Rattle.std.specs.List.{list_all, range_with_len};
ghost use Rattle.lin.specs.Forms.{is_within_limits};
ghost use Rattle.lin.specs.declared.scope.Binding.TheVariants.{Loop};
ghost use Rattle.soundness.specs.Obligations.{anything};
ghost use Rattle.soundness.specs.Binders.View.{binders_of, grid_span};
ghost use Rattle.rules.specs.Bounding.Held.{binds, told_by, told_by_one, end_of};
ghost use Rattle.rules.specs.Bounding.Scopes.{most_symbols, is_limited, limited, picked_binding, binding_of, symbol_count, scope_of};

use lin::{Binding, Forms, Lin, Scope, Span1, Sym};
use plan::Pick;
use soundness::binders::Binder;
use std::alloc::{AllocError, Global};

/// The most symbols that a group has.
const MOST_SYMBOLS: usize = 256;
/// The most values of a grid's symbol that a form within the limits tells of.
const MOST_VALUES: u64 = (1 << 40) + 1;

/// The span without forms, which holds every number.
pub(crate) fn anything(alloc: Global) -> Span1
    ensures { result ≡ anything }
{
    Span1 {
        lower: Forms::new(alloc),
        upper: Forms::new(alloc),
    }
}

/// The list of one form.
pub(crate) fn one_form(alloc: Global, form: Lin) -> Result<Forms, AllocError>
    ensures { IfOk result (λ forms. forms ≡ form ∷ []) }
{
    let mut forms = Forms::new(alloc);
    forms.push(form)?;
    Ok(forms)
}

/// Whether all forms are within the limits.
fn are_limited(forms: &[Lin]) -> bool
    ensures { result ≡ list_all is_within_limits forms.now }
{
    forms.iter().all(|form| form.is_within_limits())
}

/// Whether all forms of a span are within the limits.
fn is_limited(span: &Span1) -> bool
    ensures { result ≡ is_limited span.now }
{
    are_limited(span.lower.as_slice()) && are_limited(span.upper.as_slice())
}

/// The span from 0 to one less than a count.
fn below(alloc: Global, count: u64) -> Result<Span1, AllocError>
    requires { count ≤ 2 ^ 40 + 1 }
    ensures { IfOk result (λ span. span ≡ grid_span count) }
{
    let last = count as i64 - 1;
    Ok(Span1 {
        lower: one_form(alloc, Lin::number(alloc, 0))?,
        upper: one_form(alloc, Lin::number(alloc, last))?,
    })
}

/// What is known of a symbol of the grid.
fn counted(alloc: Global, count: u64) -> Result<Binding, AllocError>
    ensures { IfOk result (λ binding. binding ≡ Loop (limited (grid_span count))) }
{
    if count <= MOST_VALUES {
        Ok(Binding::Loop(below(alloc, count)?))
    } else {
        Ok(Binding::Loop(anything(alloc)))
    }
}

/// What is known of a loop's symbol.
fn ranged(alloc: Global, span: &Span1) -> Result<Binding, AllocError>
    ensures { IfOk result (λ binding. binding ≡ Loop (limited span.now)) }
{
    if is_limited(span) {
        Ok(Binding::Loop(span.copy(alloc)?))
    } else {
        Ok(Binding::Loop(anything(alloc)))
    }
}

/// What is known of a name for the smallest or largest of some forms.
fn picked(alloc: Global, pick: Pick, forms: &Forms) -> Result<Binding, AllocError>
    ensures { IfOk result (λ binding. binding ≡ picked_binding pick forms.now) }
{
    if forms.as_slice().is_empty() {
        return Ok(Binding::Loop(anything(alloc)));
    }
    let forms = forms.copy(alloc)?;
    match pick {
        Pick::Min => Ok(Binding::LetMin(forms)),
        Pick::Max => Ok(Binding::LetMax(forms)),
    }
}

/// What a binder tells of its symbol.
fn told_by(alloc: Global, binder: &Binder<'_>) -> Result<Binding, AllocError>
    ensures { IfOk result (λ binding. binding ≡ told_by binder.now) }
{
    match binder {
        Binder::Grid { count, .. } => counted(alloc, *count),
        Binder::Ranged { span, .. } => ranged(alloc, span),
        Binder::Picked { pick, forms, .. } => picked(alloc, *pick, forms),
        Binder::Passed { .. } => Ok(Binding::Loop(anything(alloc))),
    }
}

/// The symbol of a binder, if it binds one.
fn symbol_of(binder: &Binder<'_>) -> Option<Sym>
    ensures binds { (i : ℕ) → binds binder.now i ≡ option_map_or (λ s. s == i) result false }
    ensures end { end_of binder.now ≡ option_map_or suc result 0 }
{
    match binder {
        Binder::Grid { symbol, .. }
        | Binder::Ranged { symbol, .. }
        | Binder::Picked { symbol, .. } => Some(*symbol),
        Binder::Passed { .. } => None,
    }
}

/// Whether a binder binds a symbol.
fn binds(binder: &Binder<'_>, symbol: Sym) -> bool
    ensures { result ≡ binds binder.now symbol }
{
    match symbol_of(binder) {
        Some(bound) => bound == symbol,
        None => false,
    }
}

/// The innermost binder of a symbol, where the binders are given from the outermost on.
fn innermost<'b, 'a>(binders: &'b [Binder<'a>], symbol: Sym) -> Option<Binder<'a>>
    ensures { told_by_one result ≡ binding_of (binders_of binders.now) symbol }
{
    let mut found = None;
    for binder in binders {
        if binds(binder, symbol) {
            found = Some(*binder);
        }
    }
    found
}

/// One more than the symbol of a binder, 0 where it has none, and at most the number of a group's symbols.
fn end_of(binder: &Binder<'_>) -> usize
    ensures { result ≡ min (end_of binder.now) most_symbols }
{
    match symbol_of(binder) {
        Some(symbol) if symbol < MOST_SYMBOLS => symbol + 1,
        Some(_) => MOST_SYMBOLS,
        None => 0,
    }
}

/// How many symbols the scope has.
fn symbol_count(binders: &[Binder<'_>]) -> usize
    ensures { result ≡ min (symbol_count (binders_of binders.now)) most_symbols }
{
    let mut count = 0;
    for binder in binders {
        count = end_of(binder).max(count);
    }
    count
}

/// What is known of a symbol.
fn binding_of(alloc: Global, binders: &[Binder<'_>], symbol: Sym) -> Result<Binding, AllocError>
    ensures { IfOk result (λ binding. binding ≡ binding_of (binders_of binders.now) symbol) }
{
    match innermost(binders, symbol) {
        Some(binder) => told_by(alloc, &binder),
        None => Ok(Binding::Loop(anything(alloc))),
    }
}

/// The scope that binders make, which are given from the outermost on.
pub(crate) fn scope_of(alloc: Global, binders: &[Binder<'_>]) -> Result<Scope, AllocError>
    ensures { IfOk result (λ scope. scope ≡ scope_of (binders_of binders.now)) }
{
    let mut scope = Scope::new(alloc);
    for symbol in 0..symbol_count(binders) {
        scope.push(binding_of(alloc, binders, symbol)?)?;
    }
    Ok(scope)
}
