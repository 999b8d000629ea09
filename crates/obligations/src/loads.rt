//! The loads of a store's expressions.

ghost use Rattle.std.specs.Prelude.{◌≡◌, ◌++◌, ◌==◌, ◌&&◌, [], IfOk};
ghost use Rattle.std.specs.List.{list_any};
ghost use Rattle.tree.specs.Term.{term_of, test_of, indices, list_terms};
ghost use Rattle.plan.specs.Semantics.Run.{ByClaim};
ghost use Rattle.soundness.specs.Obligations.{is_usable, serves};
ghost use Rattle.soundness.specs.Outline.View.{outline_in};
ghost use Rattle.obligations.specs.Context.Around.{known_of, nest_of};
ghost use Rattle.obligations.specs.Asked.{first_unmet};
ghost use Rattle.obligations.specs.Loads.{intervals_in, is_own, load_in, loads_in, loads_of_all_in, loads_of_test_in, may_in, steps_met};

use crate::asked::told;
use crate::context::{
    Facts, Judge, Known, Nest, are_within, have_room, is_member, is_same, said_by,
};
use crate::spans::met_spans;
use lin::{Region, Span1};
use plan::Coordinate;
use soundness::binders::NestTests;
use soundness::outline::Source;
use soundness::outline::refusals::{Flaw, K};
use std::alloc::AllocError;
use tree::{Cond, Expr};

/// A store: its line, what is known there, what it writes, its left side and its variables' names.
#[derive(Clone, Copy, Drop)]
pub(crate) struct Reads<'r, 'a> {
    pub line: u32,
    pub known: &'r Known<'a>,
    pub updating: &'r [Nest],
    pub buffer: u64,
    pub function: &'r str,
    pub definition: u64,
    pub at: &'r [Coordinate],
    pub names: &'r [&'r str],
}

/// Whether a nest does the steps of a definition in a buffer.
pub(crate) fn serves<B: Facts, T: NestTests>(
    judge: &Judge<'_, B, T>,
    buffer: u64,
    function: &str,
    definition: u64,
    nest: Nest,
) -> bool
    ensures { result ≡ serves (outline_in judge.now.outlined.now) (B.rules judge.now.bounds.now) buffer function.now definition (nest_of nest) }
{
    let next = said_by(judge.outlined, nest.next);
    next.buffer == buffer && is_same(next.function, function) && next.definition == definition
}

/// Whether a claim in force is of its function's last definition.
pub(crate) fn is_usable<B: Facts, T: NestTests>(
    judge: &Judge<'_, B, T>,
    known: &Known<'_>,
    claim: u64,
) -> bool
    ensures { result ≡ is_usable (outline_in judge.now.outlined.now) (B.rules judge.now.bounds.now) (known_of known.now []) claim }
{
    let said = said_by(judge.outlined, claim);
    is_member(claim, &known.claims) && judge.bounds.is_last(said.function, said.definition)
}

/// Whether a nest under way lets an update load by the claim of the definition before.
fn is_served<B: Facts, T: NestTests>(
    judge: &Judge<'_, B, T>,
    reads: &Reads<'_, '_>,
    claim: u64,
) -> bool
    ensures { result ≡ list_any (λ u. (u.before == claim) && serves (outline_in judge.now.outlined.now) (B.rules judge.now.bounds.now) reads.now.buffer reads.now.function.now reads.now.definition (nest_of u)) reads.now.updating.now }
{
    for nest in reads.updating {
        if nest.before == claim
            && serves(judge, reads.buffer, reads.function, reads.definition, *nest)
        {
            return true;
        }
    }
    false
}

/// Whether a store is an update whose own function a claim is of.
fn is_own<B: Facts, T: NestTests>(
    judge: &Judge<'_, B, T>,
    reads: &Reads<'_, '_>,
    claim: u64,
) -> bool
    ensures { result ≡ is_own (outline_in judge.now.outlined.now) reads.now claim }
{
    reads.definition > 0 && is_same(said_by(judge.outlined, claim).function, reads.function)
}

/// Whether a store may load by a claim.
fn may_load<B: Facts, T: NestTests>(
    judge: &Judge<'_, B, T>,
    reads: &Reads<'_, '_>,
    claim: u64,
) -> bool
    ensures { result ≡ may_in (outline_in judge.now.outlined.now) (B.rules judge.now.bounds.now) reads.now claim }
{
    if is_own(judge, reads, claim) {
        is_served(judge, reads, claim)
    } else {
        is_usable(judge, reads.known, claim)
    }
}

/// A load of an update's own function at a point that the step does not meet. Of a definition's calls none is: each has a
/// variable at its place that stands there alone on the left side. So something else is stored.
#[tactic(auto, using(crate::proofs::Unmet::one, crate::proofs::Unmet::alone, crate::proofs::Unmet::nothing, crate::proofs::Unmet::append, crate::proofs::Unmet::stops, crate::proofs::Unmet::goes))]
fn unmet_step<B: Facts, T: NestTests>(
    judge: &Judge<'_, B, T>,
    reads: &Reads<'_, '_>,
    claim: u64,
    spans: &[Span1],
) -> Result<Option<Flaw>, AllocError>
    ensures { IfOk result (λ flaw. flaw ≡ first_unmet (B.rules judge.now.bounds.now) (T.nests judge.now.tests.now) judge.now.part (steps_met (outline_in judge.now.outlined.now) (B.rules judge.now.bounds.now) reads.now claim spans.now)) }
{
    if !is_own(judge, reads, claim) {
        return Ok(None);
    }
    let met = met_spans(judge, reads.at)?;
    let shown = are_within(judge, &reads.known.binders, spans, met.as_slice())?;
    Ok(told(judge.part, K::K12, reads.line, shown))
}

/// A load by a claim that leaves the buffer, or that the claim does not allow.
#[tactic(auto, using(crate::proofs::Unmet::one, crate::proofs::Unmet::alone, crate::proofs::Unmet::nothing, crate::proofs::Unmet::append, crate::proofs::Unmet::stops, crate::proofs::Unmet::goes))]
fn unmet_load<B: Facts, T: NestTests>(
    judge: &Judge<'_, B, T>,
    reads: &Reads<'_, '_>,
    claim: u64,
    spans: &[Span1],
) -> Result<Option<Flaw>, AllocError>
    ensures { IfOk result (λ flaw. flaw ≡ first_unmet (B.rules judge.now.bounds.now) (T.nests judge.now.tests.now) judge.now.part (load_in (outline_in judge.now.outlined.now) (B.rules judge.now.bounds.now) reads.now (ByClaim claim) spans.now)) }
{
    let said = said_by(judge.outlined, claim);
    let places = reads.known.places_of(said.buffer);
    let seated = have_room(judge, &reads.known.binders, spans, places)?;
    if let Some(flaw) = told(judge.part, K::K4, reads.line, seated) {
        return Ok(Some(flaw));
    }
    let may = may_load(judge, reads, claim);
    if let Some(flaw) = told(judge.part, K::K5, reads.line, may) {
        return Ok(Some(flaw));
    }
    let inside = are_within(judge, &reads.known.binders, spans, said.region)?;
    if let Some(flaw) = told(judge.part, K::K5, reads.line, inside) {
        return Ok(Some(flaw));
    }
    unmet_step(judge, reads, claim, spans)
}

/// The spans of indices.
fn intervals<B: Facts, T: NestTests>(
    judge: &Judge<'_, B, T>,
    reads: &Reads<'_, '_>,
    vars: &Region,
    at: &[Expr],
) -> Result<Region, AllocError>
    ensures { IfOk result (λ spans. spans ≡ intervals_in (outline_in judge.now.outlined.now) (B.rules judge.now.bounds.now) reads.now vars.now (indices (list_terms at.now))) }
{
    let mut spans = Region::new(judge.alloc);
    for index in at {
        spans.push(
            judge.bounds.interval(judge.alloc, &reads.known.binders, reads.names, vars, index)?,
        )?;
    }
    Ok(spans)
}

/// What a call asks for besides what its indices ask for.
#[tactic(auto, using(crate::proofs::Unmet::one, crate::proofs::Unmet::alone, crate::proofs::Unmet::nothing, crate::proofs::Unmet::append, crate::proofs::Unmet::stops, crate::proofs::Unmet::goes))]
fn unmet_call<B: Facts, T: NestTests>(
    judge: &Judge<'_, B, T>,
    reads: &Reads<'_, '_>,
    vars: &Region,
    name: &str,
    at: &[Expr],
) -> Result<Option<Flaw>, AllocError>
    ensures { IfOk result (λ flaw. flaw ≡ first_unmet (B.rules judge.now.bounds.now) (T.nests judge.now.tests.now) judge.now.part (load_in (outline_in judge.now.outlined.now) (B.rules judge.now.bounds.now) reads.now ((outline_in judge.now.outlined.now).source name.now) (intervals_in (outline_in judge.now.outlined.now) (B.rules judge.now.bounds.now) reads.now vars.now (indices (list_terms at.now))))) }
{
    let spans = intervals(judge, reads, vars, at)?;
    match judge.outlined.source(name) {
        Source::Input => {
            let extents = judge.bounds.extents();
            let shown = are_within(judge, &reads.known.binders, spans.as_slice(), extents)?;
            Ok(told(judge.part, K::K4, reads.line, shown))
        }
        Source::ByClaim(claim) => unmet_load(judge, reads, claim, spans.as_slice()),
        Source::Unknown => Ok(told(judge.part, K::K2, reads.line, false)),
    }
}

/// The first that is not shown of what the loads of an expression ask for, where its variables have these spans.
#[tactic(auto, using(crate::proofs::Unmet::one, crate::proofs::Unmet::alone, crate::proofs::Unmet::nothing, crate::proofs::Unmet::append, crate::proofs::Unmet::stops, crate::proofs::Unmet::goes))]
#[cycle(loading)]
pub(crate) fn unmet_loads<B: Facts, T: NestTests>(
    judge: &Judge<'_, B, T>,
    reads: &Reads<'_, '_>,
    vars: &Region,
    expr: &Expr,
) -> Result<Option<Flaw>, AllocError>
    ensures { IfOk result (λ flaw. flaw ≡ first_unmet (B.rules judge.now.bounds.now) (T.nests judge.now.tests.now) judge.now.part (loads_in (outline_in judge.now.outlined.now) (B.rules judge.now.bounds.now) reads.now vars.now (term_of expr.now))) }
{
    match expr {
        Expr::Literal { .. } | Expr::Variable { .. } => Ok(None),
        Expr::Call { name, at, .. } => {
            if let Some(flaw) = unmet_indices(judge, reads, vars, at)? {
                return Ok(Some(flaw));
            }
            unmet_call(judge, reads, vars, name.as_str(), at)
        }
        Expr::Negate { value, .. } | Expr::Cast { value, .. } => {
            unmet_loads(judge, reads, vars, value)
        }
        Expr::Binary { left, right, .. } => {
            if let Some(flaw) = unmet_loads(judge, reads, vars, left)? {
                return Ok(Some(flaw));
            }
            unmet_loads(judge, reads, vars, right)
        }
        Expr::Clamp {
            value,
            low,
            high,
            ..
        } => {
            if let Some(flaw) = unmet_loads(judge, reads, vars, value)? {
                return Ok(Some(flaw));
            }
            if let Some(flaw) = unmet_loads(judge, reads, vars, low)? {
                return Ok(Some(flaw));
            }
            unmet_loads(judge, reads, vars, high)
        }
        Expr::Select { cond, yes, no, .. } => {
            if let Some(flaw) = unmet_test(judge, reads, vars, cond)? {
                return Ok(Some(flaw));
            }
            if let Some(flaw) = unmet_loads(judge, reads, vars, yes)? {
                return Ok(Some(flaw));
            }
            unmet_loads(judge, reads, vars, no)
        }
    }
}

/// The same of a condition.
#[tactic(auto, using(crate::proofs::Unmet::one, crate::proofs::Unmet::alone, crate::proofs::Unmet::nothing, crate::proofs::Unmet::append, crate::proofs::Unmet::stops, crate::proofs::Unmet::goes))]
#[cycle(loading)]
fn unmet_test<B: Facts, T: NestTests>(
    judge: &Judge<'_, B, T>,
    reads: &Reads<'_, '_>,
    vars: &Region,
    cond: &Cond,
) -> Result<Option<Flaw>, AllocError>
    ensures { IfOk result (λ flaw. flaw ≡ first_unmet (B.rules judge.now.bounds.now) (T.nests judge.now.tests.now) judge.now.part (loads_of_test_in (outline_in judge.now.outlined.now) (B.rules judge.now.bounds.now) reads.now vars.now (test_of cond.now))) }
{
    match cond {
        Cond::Compare { left, right, .. } => {
            if let Some(flaw) = unmet_loads(judge, reads, vars, left)? {
                return Ok(Some(flaw));
            }
            unmet_loads(judge, reads, vars, right)
        }
        Cond::Not { cond, .. } => unmet_test(judge, reads, vars, cond),
        Cond::All { first, second, .. } | Cond::Any { first, second, .. } => {
            if let Some(flaw) = unmet_test(judge, reads, vars, first)? {
                return Ok(Some(flaw));
            }
            unmet_test(judge, reads, vars, second)
        }
    }
}

/// The same of a call's indices.
#[cycle(loading)]
fn unmet_indices<B: Facts, T: NestTests>(
    judge: &Judge<'_, B, T>,
    reads: &Reads<'_, '_>,
    vars: &Region,
    at: &[Expr],
) -> Result<Option<Flaw>, AllocError>
    ensures { IfOk result (λ flaw. flaw ≡ first_unmet (B.rules judge.now.bounds.now) (T.nests judge.now.tests.now) judge.now.part (loads_of_all_in (outline_in judge.now.outlined.now) (B.rules judge.now.bounds.now) reads.now vars.now (indices (list_terms at.now)))) }
{
    for index in at {
        if let Some(flaw) = unmet_loads(judge, reads, vars, index)? {
            return Ok(Some(flaw));
        }
    }
    Ok(None)
}
