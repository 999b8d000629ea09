//! The walk over a group's lines.

ghost use Rattle.std.specs.Prelude.{◌≡◌, ◌+◌, ◌<◌, ◌^◌, ◌∷◌, [], ◌++◌, IfOk, flat_map, not};
ghost use Rattle.plan.specs.Lines.{body_line, lines, block_lines};
ghost use Rattle.plan.specs.Lists.{list_statements};
ghost use Rattle.plan.specs.Plan.{block, Publish};
ghost use Rattle.plan.specs.View.{statement_of};
ghost use Rattle.soundness.specs.Obligations.{block_obligations, claim_obligations, has_symbol, obligation, obligations, turn_obligations, within, from_each, Named, Undefined};
ghost use Rattle.soundness.specs.Shown.{start};
ghost use Rattle.soundness.specs.Binders.View.{binders_of, grid_binders};
ghost use Rattle.soundness.specs.Outline.View.{outline_in, group_in, number_in, plan_in};
ghost use Rattle.obligations.specs.Context.Around.{known_of, windows_of};
ghost use Rattle.obligations.specs.Around.{IsLine};
ghost use Rattle.obligations.specs.Asked.{first_unmet};

use crate::asked::told;
use crate::claiming::unmet_claims;
use crate::context::{
    Facts, Judge, Known, Nest, Part, are_within, around_has, have_room, nests_within, onwards,
    said_by,
};
use crate::loads::is_usable;
use crate::stores::unmet_store;
use crate::windows::{kept_of, without};
use lin::{Lin, Span1, Sym};
use plan::Stmt;
use plan::certificate::Window;
use soundness::binders::symbols::{forms_have, span_has};
use soundness::binders::{Binder, NestTests};
use soundness::outline::Outlined;
use soundness::outline::refusals::{Flaw, K};
use std::alloc::{AllocError, Global};

/// What a line without lines in it asks for, but for loops, arms and guards.
#[tactic(auto, using(crate::proofs::Unmet::one, crate::proofs::Unmet::alone, crate::proofs::Unmet::nothing, crate::proofs::Unmet::append, crate::proofs::Unmet::stops, crate::proofs::Unmet::goes))]
fn unmet_line<B: Facts, T: NestTests>(
    judge: &Judge<'_, B, T>,
    stmt: &Stmt,
    line: u32,
    known: &Known<'_>,
    updating: &[Nest],
) -> Result<Option<Flaw>, AllocError>
    requires { IsLine (statement_of stmt.now) }
    ensures { IfOk result (λ flaw. flaw ≡ first_unmet (B.rules judge.now.bounds.now) (T.nests judge.now.tests.now) judge.now.part (obligations (outline_in judge.now.outlined.now) (B.rules judge.now.bounds.now) (statement_of stmt.now) line (known_of known.now updating.now))) }
{
    match stmt {
        Stmt::Let { symbol, forms, .. } => {
            Ok(unmet_name(judge, *symbol, forms.as_slice(), line, known, updating))
        }
        Stmt::Alloc { buffer, .. } => {
            let free = known.places_of(*buffer).is_none();
            Ok(told(judge.part, K::K2, line, free))
        }
        Stmt::Fetch { buffer, region, .. } => {
            let places = known.places_of(*buffer);
            let seated = have_room(judge, &known.binders, region.as_slice(), places)?;
            Ok(told(judge.part, K::K4, line, seated))
        }
        Stmt::Store {
            buffer,
            definition,
            coordinates,
            value,
        } => unmet_store(
            judge,
            line,
            known,
            updating,
            *buffer,
            *definition,
            coordinates,
            value,
        ),
        Stmt::Publish { claim } => unmet_publish(judge, line, known, *claim),
        Stmt::Seq(_) | Stmt::For { .. } | Stmt::First { .. } | Stmt::Guard { .. } => unreachable!(),
    }
}

/// What giving the own cells by a claim asks for.
#[tactic(auto, using(crate::proofs::Unmet::one, crate::proofs::Unmet::alone, crate::proofs::Unmet::nothing, crate::proofs::Unmet::append, crate::proofs::Unmet::stops, crate::proofs::Unmet::goes))]
fn unmet_publish<B: Facts, T: NestTests>(
    judge: &Judge<'_, B, T>,
    line: u32,
    known: &Known<'_>,
    claim: u64,
) -> Result<Option<Flaw>, AllocError>
    ensures { IfOk result (λ flaw. flaw ≡ first_unmet (B.rules judge.now.bounds.now) (T.nests judge.now.tests.now) judge.now.part (obligations (outline_in judge.now.outlined.now) (B.rules judge.now.bounds.now) (Publish claim) line (known_of known.now []))) }
{
    let usable = is_usable(judge, known, claim);
    if let Some(flaw) = told(judge.part, K::K5, line, usable) {
        return Ok(Some(flaw));
    }
    let region = said_by(judge.outlined, claim).region;
    let inside = are_within(judge, &known.binders, judge.bounds.own(), region)?;
    Ok(told(judge.part, K::K5, line, inside))
}

/// A name of the smallest or largest of forms that stands elsewhere.
#[tactic(auto, using(crate::proofs::Unmet::one, crate::proofs::Unmet::alone, crate::proofs::Unmet::nothing, crate::proofs::Unmet::append, crate::proofs::Unmet::stops, crate::proofs::Unmet::goes, crate::proofs::Tests::or_false))]
fn unmet_name<B: Facts, T: NestTests>(
    judge: &Judge<'_, B, T>,
    symbol: Sym,
    forms: &[Lin],
    line: u32,
    known: &Known<'_>,
    updating: &[Nest],
) -> Option<Flaw>
    ensures { result ≡ first_unmet (B.rules judge.now.bounds.now) (T.nests judge.now.tests.now) judge.now.part (obligation (outline_in judge.now.outlined.now) (B.rules judge.now.bounds.now) Undefined line (known_of known.now updating.now) (Named (not (has_symbol (outline_in judge.now.outlined.now) (B.rules judge.now.bounds.now) symbol (from_each forms.now) (known_of known.now updating.now)))) ∷ []) }
{
    let stands = forms_have(symbol, forms) || around_has(judge, symbol, known, updating);
    told(judge.part, K::K2, line, !stands)
}

/// A loop's symbol that stands elsewhere.
#[tactic(auto, using(crate::proofs::Unmet::one, crate::proofs::Unmet::alone, crate::proofs::Unmet::nothing, crate::proofs::Unmet::append, crate::proofs::Unmet::stops, crate::proofs::Unmet::goes))]
fn unmet_loop<B: Facts, T: NestTests>(
    judge: &Judge<'_, B, T>,
    symbol: Sym,
    span: &Span1,
    line: u32,
    known: &Known<'_>,
    updating: &[Nest],
) -> Option<Flaw>
    ensures { result ≡ first_unmet (B.rules judge.now.bounds.now) (T.nests judge.now.tests.now) judge.now.part (obligation (outline_in judge.now.outlined.now) (B.rules judge.now.bounds.now) Undefined line (known_of known.now updating.now) (Named (not (has_symbol (outline_in judge.now.outlined.now) (B.rules judge.now.bounds.now) symbol span.now (known_of known.now updating.now)))) ∷ []) }
{
    let stands = span_has(symbol, span) || around_has(judge, symbol, known, updating);
    told(judge.part, K::K2, line, !stands)
}

/// What a statement that begins at the line asks for, where it is the body of a loop that keeps these windows.
#[tactic(auto, using(crate::proofs::Unmet::one_apart, crate::proofs::Unmet::alone, crate::proofs::Unmet::nothing, crate::proofs::Unmet::append, crate::proofs::Unmet::stops, crate::proofs::Unmet::goes))]
#[cycle(walking)]
fn unmet_in<'a, B: Facts, T: NestTests>(
    judge: &Judge<'_, B, T>,
    kept: &[&Window],
    stmt: &'a Stmt,
    line: u32,
    known: &Known<'a>,
    updating: &[Nest],
) -> Result<Option<Flaw>, AllocError>
    requires { line + lines (statement_of stmt.now) < 2 ^ 32 }
    ensures { IfOk result (λ flaw. flaw ≡ first_unmet (B.rules judge.now.bounds.now) (T.nests judge.now.tests.now) judge.now.part (turn_obligations (outline_in judge.now.outlined.now) (B.rules judge.now.bounds.now) (windows_of kept.now) (statement_of stmt.now) line (known_of known.now updating.now))) }
{
    match stmt {
        Stmt::Seq(all) => unmet_in_block(judge, kept, all, line, known.in_block(judge)?, updating),
        Stmt::For {
            symbol,
            span,
            body,
            ..
        } => {
            if let Some(flaw) = unmet_loop(judge, *symbol, span, line, known, updating) {
                return Ok(Some(flaw));
            }
            let inside = known.in_loop(judge, *symbol, span, body)?;
            let kept = kept_of(judge, *symbol, body, line + 1)?;
            unmet_in(judge, &kept, body, line + 1, &inside, updating)
        }
        Stmt::First { first, later, .. } => {
            let inside = known.in_block(judge)?;
            if let Some(flaw) = unmet_in(judge, &[], first, line + 1, &inside, updating)? {
                return Ok(Some(flaw));
            }
            unmet_in(
                judge,
                &[],
                later,
                line + 2 + first.line_count(),
                &inside,
                updating,
            )
        }
        Stmt::Guard { low, high, body } => {
            let inside = known.in_guard(judge, low, high)?;
            unmet_in(judge, &[], body, line + 1, &inside, updating)
        }
        _ => unmet_line(judge, stmt, line, known, updating),
    }
}

/// What a statement of a block asks for, which stands from the one line to the other, and the claims that its end makes.
#[tactic(auto, using(crate::proofs::Unmet::one, crate::proofs::Unmet::alone, crate::proofs::Unmet::nothing, crate::proofs::Unmet::append, crate::proofs::Unmet::stops, crate::proofs::Unmet::goes))]
#[cycle(walking)]
fn unmet_at<'a, B: Facts, T: NestTests>(
    judge: &Judge<'_, B, T>,
    kept: &[&Window],
    stmt: &'a Stmt,
    begin: u32,
    last: u32,
    known: &Known<'a>,
    updating: &[Nest],
    next: &[u64],
) -> Result<Option<Flaw>, AllocError>
    requires { begin + lines (statement_of stmt.now) < 2 ^ 32 }
    ensures { IfOk result (λ flaw. flaw ≡ first_unmet (B.rules judge.now.bounds.now) (T.nests judge.now.tests.now) judge.now.part (obligations (outline_in judge.now.outlined.now) (B.rules judge.now.bounds.now) (statement_of stmt.now) begin (within (outline_in judge.now.outlined.now) (B.rules judge.now.bounds.now) (statement_of stmt.now) next.now (known_of known.now updating.now)) ++ flat_map (claim_obligations (outline_in judge.now.outlined.now) (B.rules judge.now.bounds.now) (windows_of kept.now) begin last (known_of known.now updating.now) (statement_of stmt.now)) next.now)) }
{
    let nests = nests_within(judge, stmt, next, &known.own, updating)?;
    if let Some(flaw) = unmet_in(judge, &[], stmt, begin, known, &nests)? {
        return Ok(Some(flaw));
    }
    unmet_claims(judge, kept, stmt, begin, last, known, next)
}

/// What a block's statements ask for, of which the first begins at the line, in a loop that keeps these windows.
#[cycle(walking)]
fn unmet_in_block<'a, B: Facts, T: NestTests>(
    judge: &Judge<'_, B, T>,
    kept: &[&Window],
    all: &'a [Stmt],
    line: u32,
    known: Known<'a>,
    updating: &[Nest],
) -> Result<Option<Flaw>, AllocError>
    requires { line + block_lines (block (list_statements all.now)) < 2 ^ 32 }
    ensures { IfOk result (λ flaw. flaw ≡ first_unmet (B.rules judge.now.bounds.now) (T.nests judge.now.tests.now) judge.now.part (block_obligations (outline_in judge.now.outlined.now) (B.rules judge.now.bounds.now) (windows_of kept.now) (block (list_statements all.now)) line (known_of known.entry updating.now))) }
{
    let mut begin = line;
    let mut known = known;
    let mut left = without(judge.alloc, &[], kept)?;
    for stmt in all {
        let end = begin + stmt.line_count();
        let last = end.saturating_sub(1);
        let next = judge.outlined.named(judge.alloc, u64::from(last))?;
        if let Some(flaw) = unmet_at(judge, &left, stmt, begin, last, &known, updating, &next)? {
            return Ok(Some(flaw));
        }
        known = onwards(judge, stmt, &next, known)?;
        left = without(judge.alloc, &next, &left)?;
        begin = end;
    }
    Ok(None)
}

/// The symbols of a grid, of which each takes so many values.
fn grid_binders<'a>(alloc: Global, counts: &[u64]) -> Result<Vec<Binder<'a>>, AllocError>
    ensures { IfOk result (λ binders. binders_of binders.items ≡ grid_binders counts.now) }
{
    let mut binders = Vec::new(alloc);
    for (symbol, count) in counts.iter().enumerate() {
        binders.push(Binder::Grid {
            symbol,
            count: *count,
        })?;
    }
    Ok(binders)
}

/// The first obligation of a group's lines that is asked after and not shown, by its code and line, if there is one. Lines
/// past the greatest `u32` are told as that.
///
/// # Errors
/// Want of memory. A plan in which a group's body reaches line 2^32 - 1 counts as that.
pub fn first_unmet<B: Facts, T: NestTests>(
    alloc: Global,
    outlined: &Outlined<'_>,
    bounds: &B,
    tests: &T,
    part: Part,
) -> Result<Option<Flaw>, AllocError>
    ensures { IfOk result (λ flaw. flaw ≡ first_unmet (B.rules bounds.now) (T.nests tests.now) part (obligations (outline_in outlined.now) (B.rules bounds.now) (group_in outlined.now).body (body_line (plan_in outlined.now) (number_in outlined.now)) (start (grid_binders (group_in outlined.now).grid)))) }
{
    let body = outlined.body();
    let line = outlined.body_line();
    if line == u32::MAX || line.saturating_add(body.line_count()) == u32::MAX {
        return Err(AllocError);
    }
    let judge = Judge {
        alloc,
        outlined,
        bounds,
        tests,
        part,
    };
    let known = Known {
        binders: grid_binders(alloc, &outlined.group().grid)?,
        buffers: Vec::new(alloc),
        claims: Vec::new(alloc),
        own: Vec::new(alloc),
    };
    unmet_in(&judge, &[], body, line, &known, &[])
}
