//! From an update's statement to the update.

ghost use Rattle.std.specs.Prelude.{◌≡◌, ◌++◌, ◌∷◌, ◌≤◌, ◌^◌, ◌+◌, ◌*◌, ◌↔◌, [], not, map, length, vec_len, All, Some, IfOk, IfErr, IfSome, OnErr, slice_get, IsTrue, MatchOption, MatchResult};
ghost use Rattle.numeric.specs.declared.ty.Ty.TheVariants.{I32 as Index};
ghost use Rattle.tree.specs.Term.{Term, term_of, list_terms};
ghost use Rattle.tree.specs.Uses.{EachCall};
ghost use Rattle.meaning.specs.Names.{same_name, is_among};
ghost use Rattle.algo.specs.Scoping.Expressions.{is_known};
ghost use Rattle.meaning.specs.Conditions.{callable, AreDistinct, IsRange};
ghost use Rattle.meaning.specs.Reduction.{size, width};
ghost use Rattle.expr.specs.Statements.View.{update_text, bound_text, domain_text};
ghost use Rattle.expr.specs.Statements.Text.{bound_value};
ghost use Rattle.algo.specs.declared.error.Code.{Code};
ghost use Rattle.algo.specs.declared.error.Code.TheVariants.{Limit};
ghost use Rattle.algo.specs.declared.error.AlgoError.TheVariants.{Refused};
ghost use Rattle.algo.specs.Parts.{names_of, range_of, function_of, functions_of, change_of};
ghost use Rattle.algo.specs.Context.{only_input, HasType};
ghost use Rattle.algo.specs.Saying.{change_said, range_said, domain_names};
ghost use Rattle.algo.specs.Keeping.{KeepsUpdateOver, Breaks, OnLimit, DomainLimits, UpdateNames, UpdateCalls, UpdateIndices, UpdatePlaces, UpdateTypes, names_for};
ghost use Rattle.algo.specs.Faults.{BadRangeAt, BadTypeAt, CallAt, CalledAt, DomainLimitAt, InOneAt, InUpdateAt, IsLeftPlace, Tells, OneRangeAt, OnlyLimit, UpdateCountAt, UpdateFaultAt, UpdateNameAt, UpdatePlaceAt, UpdateTypeAt};

use crate::checks::{
    Condition, Context, CountedCalls, KnownCalls, KnownNames, Scope, refuse, typed,
};
use crate::error::{AlgoError, Code};
use crate::function::{Function, Range, Update};
use crate::scoping::{CallTest, first_call, first_double, first_misplaced, same_name};
use expr::statements::{Bound, Domain, UpdateStatement};
use numeric::Ty;
use std::alloc::{AllocError, Global};
use tree::token::Span;
use tree::{Expr, copy};

// No call is of the function of this name.
#[derive(Clone, Copy, Drop)]
struct OtherCalls<'a> {
    pub name: &'a str,
}

impl CallTest for OtherCalls<'_> {
    ghost accepted = { λ t name at. not (same_name t.name.now name) };

    fn accepts(&self, name: &str, _at: &[Expr]) -> bool {
        !same_name(self.name, name)
    }
}

impl Condition for OtherCalls<'_> {
    ghost holds = { λ c e. EachCall (λ name at. IsTrue (not (same_name c.name.now name))) e };

    ghost broken_at = { λ c e at. CallAt (λ name indices. not (same_name c.name.now name)) e at };

    fn fault(&self, expr: &Expr) -> Option<Span> {
        Some(first_call(expr, self)?.call)
    }
}

// The first fault of several expressions.
fn first_fault<C: Condition>(at: &[Expr], condition: &C) -> Option<Span>
    ensures holds { MatchOption result (All (C.holds condition.now) (list_terms at.now)) (λ _. ¬ All (C.holds condition.now) (list_terms at.now)) }
    ensures place { IfSome result (InOneAt (C.broken_at condition.now) at.now) }
{
    for index in at {
        if let Some(span) = condition.fault(index) {
            return Some(span);
        }
    }
    None
}

// Ok where each of these is an index. Else the place in the first that is none.
fn indices(at: &[Expr], scope: &Scope<'_>) -> Result<(), Span>
    ensures typed { MatchResult result (λ _. All (HasType scope.now.variables.now scope.now.functions.now scope.now.input.now Index) (list_terms at.now))
        (λ _. ¬ All (HasType scope.now.variables.now scope.now.functions.now scope.now.input.now Index) (list_terms at.now)) }
    ensures place { IfErr result (InOneAt (BadTypeAt (is_among (names_of scope.now.variables.now)) (callable (only_input scope.now.input.now) (functions_of scope.now.functions.now)) Index) at.now) }
{
    for index in at {
        if let Err(span) = typed(index, scope, Ty::I32) {
            return Err(span);
        }
    }
    Ok(())
}

// Where an update has a name that is unknown or doubled.
fn names_fault(
    context: &Context<'_>,
    own: &(String, Function),
    variables: &[String],
    statement: &UpdateStatement,
) -> Option<Span>
    requires names { names_of variables.now ≡ names_for (function_of own.now) (update_text statement.now) }
    requires distinct { AreDistinct (names_of own.now.1.variables.items) }
    ensures kept { MatchOption result
        (UpdateNames (names_of context.now.declared.now) (function_of own.now) (update_text statement.now))
        (λ _. ¬ UpdateNames (names_of context.now.declared.now) (function_of own.now) (update_text statement.now)) }
    ensures place { IfSome result (UpdateNameAt (names_of context.now.declared.now) (function_of own.now) statement.now) }
{
    if !same_name(own.0.as_str(), statement.name.name.as_str()) {
        return Some(statement.name.span);
    }
    if let Some(i) = first_double(variables) {
        return Some(reduction_place(statement, i.saturating_sub(own.1.variables.len())));
    }
    let known = KnownNames {
        variables,
        declared: context.declared,
    };
    if let Some(span) = first_fault(&statement.at, &known) {
        return Some(span);
    }
    known.fault(&statement.value)
}

// The place of a reduction variable, and of the function's name where there is none.
fn reduction_place(statement: &UpdateStatement, i: usize) -> Span
    ensures { MatchOption (slice_get statement.now.domains.items i) (result ≡ statement.now.name.span) (λ domain. result ≡ domain.variable.span) }
{
    match statement.domains.get(i) {
        Some(domain) => domain.variable.span,
        None => statement.name.span,
    }
}

// Where an update calls what is not declared before it.
fn calls_fault(context: &Context<'_>, statement: &UpdateStatement) -> Option<Span>
    ensures kept { MatchOption result
        (UpdateCalls (callable (only_input context.now.input.now) (functions_of context.now.functions.now)) (update_text statement.now))
        (λ _. ¬ UpdateCalls (callable (only_input context.now.input.now) (functions_of context.now.functions.now)) (update_text statement.now)) }
    ensures place { IfSome result (InUpdateAt (CalledAt (is_known (callable (only_input context.now.input.now) (functions_of context.now.functions.now)))) statement.now) }
{
    let known = KnownCalls {
        functions: context.functions,
        input: context.input,
    };
    if let Some(span) = first_fault(&statement.at, &known) {
        return Some(span);
    }
    known.fault(&statement.value)
}

// Where an update has a wrong number of indices.
fn indices_fault(
    context: &Context<'_>,
    own: &(String, Function),
    statement: &UpdateStatement,
) -> Option<Span>
    ensures kept { MatchOption result
        (UpdateIndices (callable (only_input context.now.input.now) (functions_of context.now.functions.now)) (function_of own.now) (update_text statement.now))
        (λ _. ¬ UpdateIndices (callable (only_input context.now.input.now) (functions_of context.now.functions.now)) (function_of own.now) (update_text statement.now)) }
    ensures place { IfSome result (UpdateCountAt (callable (only_input context.now.input.now) (functions_of context.now.functions.now)) (function_of own.now) statement.now) }
{
    let counted = CountedCalls {
        functions: context.functions,
        input: context.input,
    };
    if statement.at.len() != own.1.variables.len() {
        return Some(left_place(statement));
    }
    if let Some(span) = first_fault(&statement.at, &counted) {
        return Some(span);
    }
    counted.fault(&statement.value)
}

// The place of the left side.
fn left_place(statement: &UpdateStatement) -> Span
    ensures { IsLeftPlace statement.now result }
{
    match statement.at.as_slice() {
        [] => statement.name.span,
        [first, ..] => first.span(),
    }
}

// Where a variable of the function stands out of its place.
fn places_out(own: &(String, Function), statement: &UpdateStatement) -> Option<Span>
    ensures kept { MatchOption result
        (UpdatePlaces (function_of own.now) (update_text statement.now))
        (λ _. ¬ UpdatePlaces (function_of own.now) (update_text statement.now)) }
    ensures place { IfSome result (UpdatePlaceAt (function_of own.now) statement.now) }
{
    let name = own.0.as_str();
    let variables = own.1.variables.as_slice();
    if let Some(span) = first_fault(&statement.at, &OtherCalls { name }) {
        return Some(span);
    }
    first_misplaced(name, variables, &statement.at, &statement.value)
}

// Where types differ.
fn types_fault(
    context: &Context<'_>,
    before: &[(String, Function)],
    own: &(String, Function),
    variables: &[String],
    statement: &UpdateStatement,
) -> Option<Span>
    requires { names_of variables.now ≡ names_for (function_of own.now) (update_text statement.now) }
    ensures kept { MatchOption result
        (UpdateTypes (callable (only_input context.now.input.now) (functions_of before.now)) (callable (only_input context.now.input.now) (functions_of context.now.functions.now)) (function_of own.now) (update_text statement.now))
        (λ _. ¬ UpdateTypes (callable (only_input context.now.input.now) (functions_of before.now)) (callable (only_input context.now.input.now) (functions_of context.now.functions.now)) (function_of own.now) (update_text statement.now)) }
    ensures place { IfSome result (UpdateTypeAt (callable (only_input context.now.input.now) (functions_of before.now)) (callable (only_input context.now.input.now) (functions_of context.now.functions.now)) (function_of own.now) statement.now) }
{
    let left = Scope {
        variables,
        functions: before,
        input: context.input,
    };
    let right = Scope {
        variables,
        functions: context.functions,
        input: context.input,
    };
    if let Err(span) = indices(&statement.at, &left) {
        return Some(span);
    }
    match typed(&statement.value, &right, own.1.ty) {
        Ok(()) => None,
        Err(span) => Some(span),
    }
}

// Ok where an update keeps each condition but its limits. Else the first that it breaks.
fn check_update(
    context: &Context<'_>,
    before: &[(String, Function)],
    own: &(String, Function),
    variables: &[String],
    statement: &UpdateStatement,
) -> Result<(), AlgoError>
    requires names { names_of variables.now ≡ names_for (function_of own.now) (update_text statement.now) }
    requires distinct { AreDistinct (names_of own.now.1.variables.items) }
    ensures kept { MatchResult result
        (λ _. UpdateNames (names_of context.now.declared.now) (function_of own.now) (update_text statement.now)
        × UpdateCalls (callable (only_input context.now.input.now) (functions_of context.now.functions.now)) (update_text statement.now)
        × UpdateIndices (callable (only_input context.now.input.now) (functions_of context.now.functions.now)) (function_of own.now) (update_text statement.now)
        × UpdatePlaces (function_of own.now) (update_text statement.now)
        × (1 ≤ length statement.now.domains.items)
        × UpdateTypes (callable (only_input context.now.input.now) (functions_of before.now)) (callable (only_input context.now.input.now) (functions_of context.now.functions.now)) (function_of own.now) (update_text statement.now))
        (Breaks (λ code. KeepsUpdateOver (only_input context.now.input.now) (names_of context.now.declared.now) (functions_of before.now) (function_of own.now) (functions_of context.now.functions.now) code (update_text statement.now))) }
    ensures place { IfErr result (Tells (UpdateFaultAt (only_input context.now.input.now) (names_of context.now.declared.now) (functions_of before.now) (function_of own.now) (functions_of context.now.functions.now) statement.now)) }
{
    refuse(names_fault(context, own, variables, statement), Code::Name)?;
    refuse(calls_fault(context, statement), Code::LaterCall)?;
    refuse(indices_fault(context, own, statement), Code::IndexCount)?;
    refuse(places_out(own, statement), Code::MovedVariable)?;
    let domain = if statement.domains.is_empty() {
        Some(statement.word)
    } else {
        None
    };
    refuse(domain, Code::NoDomain)?;
    refuse(
        types_fault(context, before, own, variables, statement),
        Code::TypesDiffer,
    )
}

/// The update that a statement says, where the statement keeps each condition. `own` is the last of the functions so far,
/// and `before` are the others.
pub(crate) fn read_update(
    alloc: Global,
    context: &Context<'_>,
    before: &[(String, Function)],
    own: &(String, Function),
    statement: &UpdateStatement,
) -> Result<Update, AlgoError>
    requires { AreDistinct (names_of own.now.1.variables.items) }
    ensures said { IfOk result (λ u. change_of u ≡ change_said (update_text statement.now)) }
    ensures kept { IfOk result (λ _. (code : Code) → KeepsUpdateOver (only_input context.now.input.now) (names_of context.now.declared.now) (functions_of before.now) (function_of own.now) (functions_of context.now.functions.now) code (update_text statement.now)) }
    ensures refused { IfErr result (Breaks (λ code. KeepsUpdateOver (only_input context.now.input.now) (names_of context.now.declared.now) (functions_of before.now) (function_of own.now) (functions_of context.now.functions.now) code (update_text statement.now))) }
    ensures place { IfErr result (Tells (UpdateFaultAt (only_input context.now.input.now) (names_of context.now.declared.now) (functions_of before.now) (function_of own.now) (functions_of context.now.functions.now) statement.now)) }
{
    let variables = with_reductions(alloc, &own.1.variables, &statement.domains)?;
    check_update(context, before, own, &variables, statement)?;
    let ranges = match read_ranges(alloc, &statement.domains, statement.word) {
        Ok(ranges) => ranges,
        Err(error) => return Err(error),
    };
    if own.1.updates.len() >= 4 {
        return Err(AlgoError::Refused {
            code: Code::Limit,
            span: statement.word,
        });
    }
    Ok(Update {
        ranges,
        at: copies(alloc, &statement.at)?,
        value: copy(alloc, &statement.value)?,
    })
}

// The same expressions in memory of their own.
fn copies(alloc: Global, at: &[Expr]) -> Result<Vec<Expr>, AllocError>
    ensures { IfOk result (λ copies. list_terms copies.items ≡ list_terms at.now) }
{
    let mut copies = Vec::new(alloc);
    for index in at {
        copies.push(copy(alloc, index)?)?;
    }
    Ok(copies)
}

// These names, and then those of the reduction variables.
fn with_reductions(
    alloc: Global,
    variables: &[String],
    domains: &[Domain],
) -> Result<Vec<String>, AllocError>
    ensures names { IfOk result (λ names. names_of names.items ≡ names_of variables.now ++ domain_names (map domain_text domains.now)) }
    ensures count { IfOk result (λ names. vec_len names ≡ length variables.now + length domains.now) }
{
    let mut names = name_copies(alloc, variables)?;
    for domain in domains {
        names.push(domain.variable.name.clone()?)?;
    }
    Ok(names)
}

// The same names in memory of their own.
fn name_copies(alloc: Global, names: &[String]) -> Result<Vec<String>, AllocError>
    ensures names { IfOk result (λ copies. names_of copies.items ≡ names_of names.now) }
    ensures count { IfOk result (λ copies. vec_len copies ≡ length names.now) }
{
    let mut copies = Vec::new(alloc);
    for name in names {
        copies.push(name.clone()?)?;
    }
    Ok(copies)
}

// The number of a bound.
fn end(bound: Bound) -> i64
    ensures { result ≡ bound_value (bound_text bound) }
{
    let number = i64::from(bound.number);
    if bound.negative { -number } else { number }
}

// The range of a reduction variable, or the place of what passes the limits: an end, or both where they are crossed.
fn range(domain: &Domain) -> Result<Range, AlgoError>
    ensures said { MatchResult result
        (λ range. (range_of range ≡ range_said (domain_text domain.now)) × IsRange (range_of range))
        (Breaks (OnLimit (IsRange (range_said (domain_text domain.now))))) }
    ensures place { IfErr result (Tells (OnlyLimit (BadRangeAt domain.now))) }
{
    let (low, high) = (end(domain.low), end(domain.high));
    let ends = Span {
        start: domain.low.span.start,
        end: domain.high.span.end,
    };
    if low < -8192 || low > high {
        Err(limit(ends))
    } else if high > 8192 {
        Err(limit(domain.high.span))
    } else {
        Ok(Range {
            variable: domain.variable.name.clone()?,
            low: low as i32,
            high: high as i32,
        })
    }
}

// The refusal of what passes a limit.
fn limit(span: Span) -> AlgoError
    ensures { result ≡ Refused Limit span }
{
    AlgoError::Refused {
        code: Code::Limit,
        span,
    }
}

// The ranges of the domains, each within its limits.
fn ranges(alloc: Global, domains: &[Domain]) -> Result<Vec<Range>, AlgoError>
    ensures said { IfOk result (λ ranges. map range_of ranges.items ≡ map range_said (map domain_text domains.now)) }
    ensures within { IfOk result (λ ranges. All IsRange (map range_of ranges.items)) }
    ensures refused { IfErr result (Breaks (OnLimit (All IsRange (map range_said (map domain_text domains.now))))) }
    ensures place { IfErr result (Tells (OnlyLimit (OneRangeAt domains.now))) }
{
    let mut ranges = Vec::new(alloc);
    for domain in domains {
        match range(domain) {
            Ok(range) => ranges.push(range)?,
            Err(error) => return Err(error),
        }
    }
    Ok(ranges)
}

// The ranges of a reduction domain that keeps its limits; `word` is where its update stands.
fn read_ranges(alloc: Global, domains: &[Domain], word: Span) -> Result<Vec<Range>, AlgoError>
    ensures said { IfOk result (λ ranges. map range_of ranges.items ≡ map range_said (map domain_text domains.now)) }
    ensures within { IfOk result (λ _. DomainLimits (map domain_text domains.now)) }
    ensures refused { IfErr result (Breaks (OnLimit (DomainLimits (map domain_text domains.now)))) }
    ensures place { IfErr result (Tells (OnlyLimit (DomainLimitAt domains.now word))) }
{
    if let [_, _, _, fourth, ..] = domains {
        return Err(limit(fourth.variable.span));
    }
    let ranges = match ranges(alloc, domains) {
        Ok(ranges) => ranges,
        Err(error) => return Err(error),
    };
    if has_few_points(&ranges) {
        Ok(ranges)
    } else {
        Err(limit(word))
    }
}

// Whether there are at most 2^24 points.
fn has_few_points(ranges: &[Range]) -> bool
    ensures { IsTrue result ↔ (size (map range_of ranges.now) ≤ 2 ^ 24) }
{
    let mut points: u64 = 1;
    for range in ranges {
        match points.checked_mul(width(range)) {
            Some(more) => points = more,
            None => return false,
        }
    }
    points <= 1 << 24
}

// How many values a reduction variable takes.
fn width(range: &Range) -> u64
    ensures { result ≡ width (range_of range.now) }
{
    u64::from(range.high.abs_diff(range.low)) + 1
}
