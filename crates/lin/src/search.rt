//! Bounds of forms over a scope, found by a search over the bounds of their symbols.

ghost use Rattle.std.specs.Prelude.{◌≡◌, ◌+◌, ◌<◌, ◌≤◌, ◌^◌, length, IfOk, IsTrue, MatchOption, All, IfSome, map, ℕ, ℤ, negsuc, ◌≤ℤ◌, ◌-ℤ◌};
ghost use Rattle.lin.specs.Forms.{is_within_limits, value_of, combined, IsWithin};
ghost use Rattle.lin.specs.Search.{candidates, any_may_be, pick, least, replacements, sup, sup_of_difference, at_most, number_of, branch_bound, branch_cost, total, that_counts};
ghost use Rattle.lin.specs.Spans.{HoldsIn};

use crate::form::{Lin, LinError, Sym};
use crate::scope::{Binding, Scope};
use std::alloc::{AllocError, Global};

/// The most replacements that a search makes.
const MOST_REPLACEMENTS: usize = 4096;

impl Binding {
    /// The forms that may stand in the place of the symbol where its factor is this one, not 0.
    pub fn candidates(&self, factor: i64) -> &[Lin]
        ensures { result.now ≡ candidates self.now factor }
    {
        match self {
            Binding::Loop(span) => {
                if factor >= 0 {
                    span.upper.as_slice()
                } else {
                    span.lower.as_slice()
                }
            }
            Binding::LetMin(forms) => forms.as_slice(),
            Binding::LetMax(forms) => forms.as_slice(),
        }
    }

    /// Whether any of the candidates may be the value, so that the largest result counts.
    pub fn any_may_be(&self, factor: i64) -> bool
        ensures { result ≡ any_may_be self.now factor }
    {
        match self {
            Binding::Loop(_) => false,
            Binding::LetMin(_) => factor < 0,
            Binding::LetMax(_) => factor >= 0,
        }
    }
}

/// Of two bounds the one that counts; None is larger than every number.
fn pick(largest: bool, first: Option<i64>, second: Option<i64>) -> Option<i64>
    ensures { result ≡ pick largest first second }
{
    match (first, second) {
        (Some(a), Some(b)) => Some(if largest { a.max(b) } else { a.min(b) }),
        (Some(a), None) => { if largest { None } else { Some(a) } }
        (None, b) => { if largest { None } else { b } }
    }
}

/// The number that a form without symbols is.
fn number_of(form: &Lin) -> Option<i64>
    ensures { result ≡ number_of form.now }
{
    if form.is_number() {
        Some(form.constant())
    } else {
        None
    }
}

/// What a search found: the bound, where there is one, and how many replacements it left.
#[derive(Drop)]
struct Found {
    bound: Option<i64>,
    left: usize,
}

/// Eliminates the symbols below `earlier`, the latest first, by at most `budget` replacements; None where that takes more.
#[cycle(search)]
fn search(
    alloc: Global,
    symbols: &[Binding],
    earlier: usize,
    form: &Lin,
    budget: usize,
) -> Result<Option<Found>, AllocError>
    requires form { IsTrue (is_within_limits form.now) }
    requires earlier { earlier ≤ length symbols.now }
    ensures left { IfOk result (λ found. MatchOption found (budget < replacements symbols.now earlier form.now) (λ f. replacements symbols.now earlier form.now + f.left ≡ budget)) }
    ensures bound { IfOk result (λ found. IfSome found (λ f. f.bound ≡ least symbols.now earlier form.now)) }
{
    if earlier == 0 {
        return Ok(Some(Found {
            bound: number_of(form),
            left: budget,
        }));
    }
    let symbol = earlier - 1;
    let factor = form.factor(symbol);
    if factor == 0 {
        return search(alloc, symbols, symbol, form, budget);
    }
    let rest = form.without(alloc, symbol)?;
    let binding = &symbols[symbol];
    branches(
        alloc,
        symbols,
        symbol,
        &rest,
        factor,
        binding.candidates(factor),
        binding.any_may_be(factor),
        budget,
    )
}

/// Puts each of some forms in the place of a symbol.
#[cycle(search)]
fn branches(
    alloc: Global,
    symbols: &[Binding],
    symbol: Sym,
    rest: &Lin,
    factor: i64,
    candidates: &[Lin],
    largest: bool,
    budget: usize,
) -> Result<Option<Found>, AllocError>
    requires symbol { symbol < length symbols.now }
    ensures left { let cost = total (λ other. branch_cost symbols.now symbol (combined rest.now factor other)) candidates.now in IfOk result (λ found. MatchOption found (budget < cost) (λ f. cost + f.left ≡ budget)) }
    ensures bound { let bounds = map (λ other. branch_bound symbols.now symbol (combined rest.now factor other)) candidates.now in IfOk result (λ found. IfSome found (λ f. f.bound ≡ that_counts largest bounds)) }
{
    let mut left = budget;
    let mut counted = None;
    for (place, candidate) in candidates.iter().enumerate() {
        let Some(found) = branch(alloc, symbols, symbol, rest, factor, candidate, left)? else {
            return Ok(None);
        };
        left = found.left;
        counted = if place == 0 {
            found.bound
        } else {
            pick(largest, counted, found.bound)
        };
    }
    Ok(Some(Found {
        bound: counted,
        left,
    }))
}

/// Puts a form in the place of a symbol, by one replacement, and goes on with the symbols before it.
#[cycle(search)]
fn branch(
    alloc: Global,
    symbols: &[Binding],
    symbol: Sym,
    rest: &Lin,
    factor: i64,
    candidate: &Lin,
    budget: usize,
) -> Result<Option<Found>, AllocError>
    requires symbol { symbol < length symbols.now }
    ensures left { let made = combined rest.now factor candidate.now in IfOk result (λ found. MatchOption found (budget < branch_cost symbols.now symbol made) (λ f. branch_cost symbols.now symbol made + f.left ≡ budget)) }
    ensures bound { let made = combined rest.now factor candidate.now in IfOk result (λ found. IfSome found (λ f. f.bound ≡ branch_bound symbols.now symbol made)) }
{
    if budget == 0 {
        return Ok(None);
    }
    match rest.plus_multiple(alloc, factor, candidate) {
        Ok(next) => search(alloc, symbols, symbol, &next, budget - 1),
        Err(LinError::Limit) => Ok(Some(Found {
            bound: None,
            left: budget - 1,
        })),
        Err(LinError::Memory) => Err(AllocError),
    }
}

impl Scope {
    /// A number that a form never passes, found by putting bounds in the place of its symbols, the latest first; None
    /// where a search of 4096 replacements finds none, and for a form outside the limits.
    pub fn sup(&self, alloc: Global, form: &Lin) -> Result<Option<i64>, AllocError>
        ensures exact { IfOk result (λ found. found ≡ sup self.now form.now) }
        ensures above { IfOk result (λ found. IfSome found (λ m. (v : ℕ → ℤ) → HoldsIn self.now v → value_of form.now v ≤ℤ m)) }
        ensures small { IfOk result (λ found. IfSome found (λ m. IsWithin (2 ^ 40) m)) }
    {
        if !form.is_within_limits() {
            return Ok(None);
        }
        let symbols = self.as_slice();
        match search(alloc, symbols, symbols.len(), form, MOST_REPLACEMENTS)? {
            Some(found) => Ok(found.bound),
            None => Ok(None),
        }
    }

    /// A number that one form less another never passes; None also where one of the two or their difference is outside
    /// the limits.
    pub fn sup_of_difference(
        &self,
        alloc: Global,
        first: &Lin,
        second: &Lin,
    ) -> Result<Option<i64>, AllocError>
        ensures exact { IfOk result (λ found. found ≡ sup_of_difference self.now first.now second.now) }
        ensures above { IfOk result (λ found. IfSome found (λ m. (v : ℕ → ℤ) → HoldsIn self.now v → (value_of first.now v -ℤ value_of second.now v) ≤ℤ m)) }
        ensures small { IfOk result (λ found. IfSome found (λ m. IsWithin (2 ^ 40) m)) }
    {
        match first.plus_multiple(alloc, -1, second) {
            Ok(difference) => self.sup(alloc, &difference),
            Err(LinError::Limit) => Ok(None),
            Err(LinError::Memory) => Err(AllocError),
        }
    }

    /// Whether the bounds of the symbols show that one form is at most another. No where one of the two or their
    /// difference is outside the limits.
    pub fn at_most(&self, alloc: Global, first: &Lin, second: &Lin) -> Result<bool, AllocError>
        ensures exact { IfOk result (λ yes. yes ≡ at_most self.now first.now second.now) }
        ensures sound { IfOk result (λ yes. IsTrue yes → (v : ℕ → ℤ) → HoldsIn self.now v → value_of first.now v ≤ℤ value_of second.now v) }
    {
        match self.sup_of_difference(alloc, first, second)? {
            Some(bound) => Ok(bound <= 0),
            None => Ok(false),
        }
    }
}
