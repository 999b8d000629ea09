//! What a statement that makes claims asks for.

ghost use Rattle.std.specs.Prelude.{◌≡◌, ◌+◌, ◌<◌, ◌^◌, ◌∷◌, ◌++◌, [], IfOk, map, filter, flat_map};
ghost use Rattle.std.specs.List.{list_any};
ghost use Rattle.plan.specs.Lines.{lines, block_lines};
ghost use Rattle.plan.specs.Lists.{list_statements};
ghost use Rattle.plan.specs.Plan.{block};
ghost use Rattle.plan.specs.View.{statement_of};
ghost use Rattle.soundness.specs.Obligations.{claim_obligations, earlier_obligations, follows, obligation, region_of, store_line, block_store_line, Inside, NotMade};
ghost use Rattle.soundness.specs.Outline.View.{outline_in};
ghost use Rattle.obligations.specs.Context.Around.{known_of, windows_of};
ghost use Rattle.obligations.specs.Around.{asked_by_claims, asked_of_turn, asked_of_updates};
ghost use Rattle.obligations.specs.Asked.{first_unmet};

use crate::asked::{told, unless};
use crate::context::{
    Facts, Judge, Known, are_within, follows, only_updates, only_writes, said_by,
};
use crate::windows::unmet_making;
use plan::Stmt;
use plan::certificate::Window;
use soundness::binders::NestTests;
use soundness::outline::refusals::{Flaw, K};
use std::alloc::AllocError;

/// The line of a statement's first store of a definition in a buffer, where the statement begins at the line.
#[cycle(storing)]
fn store_line<B: Facts, T: NestTests>(
    judge: &Judge<'_, B, T>,
    stmt: &Stmt,
    line: u32,
    buffer: u64,
    definition: u64,
) -> Option<u32>
    requires { line + lines (statement_of stmt.now) < 2 ^ 32 }
    ensures { result ≡ store_line (outline_in judge.now.outlined.now) (B.rules judge.now.bounds.now) (statement_of stmt.now) line buffer definition }
{
    match stmt {
        Stmt::Seq(all) => store_line_in(judge, all, line, buffer, definition),
        Stmt::For { body, .. } | Stmt::Guard { body, .. } => {
            store_line(judge, body, line + 1, buffer, definition)
        }
        Stmt::First { first, later, .. } => {
            if let Some(found) = store_line(judge, first, line + 1, buffer, definition) {
                return Some(found);
            }
            store_line(
                judge,
                later,
                line + 2 + first.line_count(),
                buffer,
                definition,
            )
        }
        Stmt::Store {
            buffer: other,
            definition: stored,
            ..
        } => {
            if *other == buffer && *stored == definition {
                Some(line)
            } else {
                None
            }
        }
        Stmt::Let { .. } | Stmt::Alloc { .. } | Stmt::Fetch { .. } | Stmt::Publish { .. } => None,
    }
}

/// The same of a block.
#[cycle(storing)]
fn store_line_in<B: Facts, T: NestTests>(
    judge: &Judge<'_, B, T>,
    all: &[Stmt],
    line: u32,
    buffer: u64,
    definition: u64,
) -> Option<u32>
    requires { line + block_lines (block (list_statements all.now)) < 2 ^ 32 }
    ensures { result ≡ block_store_line (outline_in judge.now.outlined.now) (B.rules judge.now.bounds.now) (block (list_statements all.now)) line buffer definition }
{
    let mut begin = line;
    for stmt in all {
        if let Some(found) = store_line(judge, stmt, begin, buffer, definition) {
            return Some(found);
        }
        begin += stmt.line_count();
    }
    None
}

/// Whether a claim of this block is of the definition before.
fn has_earlier<B: Facts, T: NestTests>(judge: &Judge<'_, B, T>, own: &[u64], claim: u64) -> bool
    ensures { result ≡ list_any (λ d. follows (outline_in judge.now.outlined.now) (B.rules judge.now.bounds.now) d claim) own.now }
{
    for before in own {
        if follows(judge, *before, claim) {
            return true;
        }
    }
    false
}

/// A claim of the definition before whose region does not hold that of the claim, if the one is that.
#[tactic(auto, using(crate::proofs::Unmet::one, crate::proofs::Unmet::alone, crate::proofs::Unmet::nothing, crate::proofs::Unmet::append, crate::proofs::Unmet::stops, crate::proofs::Unmet::goes))]
fn unmet_region<B: Facts, T: NestTests>(
    judge: &Judge<'_, B, T>,
    known: &Known<'_>,
    claim: u64,
    before: u64,
) -> Result<Option<Flaw>, AllocError>
    ensures { IfOk result (λ flaw. flaw ≡ first_unmet (B.rules judge.now.bounds.now) (T.nests judge.now.tests.now) judge.now.part (asked_by_claims (outline_in judge.now.outlined.now) (B.rules judge.now.bounds.now) known.now claim (before ∷ []))) }
{
    if !follows(judge, before, claim) {
        return Ok(None);
    }
    let inner = said_by(judge.outlined, claim).region;
    let outer = said_by(judge.outlined, before).region;
    let shown = are_within(judge, &known.binders, inner, outer)?;
    let line = judge.bounds.claim_line(claim);
    Ok(unless(judge.part, K::K6, line, shown))
}

/// A claim of the definition before whose region does not hold that of the claim.
fn unmet_regions<B: Facts, T: NestTests>(
    judge: &Judge<'_, B, T>,
    known: &Known<'_>,
    own: &[u64],
    claim: u64,
) -> Result<Option<Flaw>, AllocError>
    ensures { IfOk result (λ flaw. flaw ≡ first_unmet (B.rules judge.now.bounds.now) (T.nests judge.now.tests.now) judge.now.part (asked_by_claims (outline_in judge.now.outlined.now) (B.rules judge.now.bounds.now) known.now claim own.now)) }
{
    for before in own {
        if let Some(flaw) = unmet_region(judge, known, claim, *before)? {
            return Ok(Some(flaw));
        }
    }
    Ok(None)
}

/// What a claim asks of the order of a nest of updates, which begins at the line: it is asked of the nest that does the steps of
/// the claim's definition. Where none of its stores is of that definition, the nest does not make the claim.
#[tactic(auto, using(crate::proofs::Unmet::alone, crate::proofs::Unmet::told_turn, crate::proofs::Unmet::told_claim))]
fn unmet_turn<B: Facts, T: NestTests>(
    judge: &Judge<'_, B, T>,
    stmt: &Stmt,
    begin: u32,
    known: &Known<'_>,
    claim: u64,
) -> Result<Option<Flaw>, AllocError>
    requires { begin + lines (statement_of stmt.now) < 2 ^ 32 }
    ensures { IfOk result (λ flaw. flaw ≡ first_unmet (B.rules judge.now.bounds.now) (T.nests judge.now.tests.now) judge.now.part (asked_of_turn (outline_in judge.now.outlined.now) (B.rules judge.now.bounds.now) begin known.now (statement_of stmt.now) claim ∷ [])) }
{
    let shown = judge
        .tests
        .is_in_turn(judge.alloc, &known.binders, claim, stmt)?;
    let said = said_by(judge.outlined, claim);
    match store_line(judge, stmt, begin, said.buffer, said.definition) {
        Some(line) => Ok(told(judge.part, K::K7, line, shown)),
        None => Ok(unless(judge.part, K::K6, judge.bounds.claim_line(claim), shown)),
    }
}

/// What a claim asks of a nest of updates, which begins at the line: that it is in turn, and goes on from claims of the
/// definition before.
#[tactic(auto, using(crate::proofs::Unmet::one, crate::proofs::Unmet::alone, crate::proofs::Unmet::nothing, crate::proofs::Unmet::append, crate::proofs::Unmet::stops, crate::proofs::Unmet::goes, crate::proofs::Unmet::one_apart))]
fn unmet_update<B: Facts, T: NestTests>(
    judge: &Judge<'_, B, T>,
    stmt: &Stmt,
    begin: u32,
    known: &Known<'_>,
    claim: u64,
) -> Result<Option<Flaw>, AllocError>
    requires { begin + lines (statement_of stmt.now) < 2 ^ 32 }
    ensures { IfOk result (λ flaw. flaw ≡ first_unmet (B.rules judge.now.bounds.now) (T.nests judge.now.tests.now) judge.now.part (asked_of_updates (outline_in judge.now.outlined.now) (B.rules judge.now.bounds.now) begin known.now (statement_of stmt.now) claim)) }
{
    let has = has_earlier(judge, &known.own, claim);
    if let Some(flaw) = unless(judge.part, K::K6, judge.bounds.claim_line(claim), has) {
        return Ok(Some(flaw));
    }
    if let Some(flaw) = unmet_turn(judge, stmt, begin, known, claim)? {
        return Ok(Some(flaw));
    }
    unmet_regions(judge, known, &known.own, claim)
}

/// What a claim that goes on from the definition before asks for. The statement stands from the one line to the other.
#[tactic(auto, using(crate::proofs::Unmet::one, crate::proofs::Unmet::alone, crate::proofs::Unmet::nothing, crate::proofs::Unmet::append, crate::proofs::Unmet::stops, crate::proofs::Unmet::goes))]
fn unmet_earlier<B: Facts, T: NestTests>(
    judge: &Judge<'_, B, T>,
    stmt: &Stmt,
    begin: u32,
    last: u32,
    known: &Known<'_>,
    claim: u64,
) -> Result<Option<Flaw>, AllocError>
    requires { begin + lines (statement_of stmt.now) < 2 ^ 32 }
    ensures { IfOk result (λ flaw. flaw ≡ first_unmet (B.rules judge.now.bounds.now) (T.nests judge.now.tests.now) judge.now.part (earlier_obligations (outline_in judge.now.outlined.now) (B.rules judge.now.bounds.now) begin last (known_of known.now []) (statement_of stmt.now) claim)) }
{
    let said = said_by(judge.outlined, claim);
    if only_updates(judge.outlined, stmt, said.buffer, said.function) {
        unmet_update(judge, stmt, begin, known, claim)
    } else {
        Ok(None)
    }
}

/// What a claim asks of the statement that makes it, which stands from the one line to the other, in the body of a loop that
/// keeps these windows.
#[tactic(auto, using(crate::proofs::Unmet::one, crate::proofs::Unmet::alone, crate::proofs::Unmet::nothing, crate::proofs::Unmet::append, crate::proofs::Unmet::stops, crate::proofs::Unmet::goes))]
fn unmet_claim<B: Facts, T: NestTests>(
    judge: &Judge<'_, B, T>,
    kept: &[&Window],
    stmt: &Stmt,
    begin: u32,
    last: u32,
    known: &Known<'_>,
    claim: u64,
) -> Result<Option<Flaw>, AllocError>
    requires { begin + lines (statement_of stmt.now) < 2 ^ 32 }
    ensures { IfOk result (λ flaw. flaw ≡ first_unmet (B.rules judge.now.bounds.now) (T.nests judge.now.tests.now) judge.now.part (claim_obligations (outline_in judge.now.outlined.now) (B.rules judge.now.bounds.now) (windows_of kept.now) begin last (known_of known.now []) (statement_of stmt.now) claim)) }
{
    let said = said_by(judge.outlined, claim);
    let line = judge.bounds.claim_line(claim);
    let alone = only_writes(judge.outlined, stmt, said.buffer, said.function);
    if let Some(flaw) = unless(judge.part, K::K6, line, alone) {
        return Ok(Some(flaw));
    }
    if let Some(flaw) = unmet_making(judge, kept, stmt, known, claim)? {
        return Ok(Some(flaw));
    }
    unmet_earlier(judge, stmt, begin, last, known, claim)
}

/// What claims ask of the statement that makes them, which stands from the one line to the other, in the body of a loop that
/// keeps these windows.
pub(crate) fn unmet_claims<B: Facts, T: NestTests>(
    judge: &Judge<'_, B, T>,
    kept: &[&Window],
    stmt: &Stmt,
    begin: u32,
    last: u32,
    known: &Known<'_>,
    next: &[u64],
) -> Result<Option<Flaw>, AllocError>
    requires { begin + lines (statement_of stmt.now) < 2 ^ 32 }
    ensures { IfOk result (λ flaw. flaw ≡ first_unmet (B.rules judge.now.bounds.now) (T.nests judge.now.tests.now) judge.now.part (flat_map (claim_obligations (outline_in judge.now.outlined.now) (B.rules judge.now.bounds.now) (windows_of kept.now) begin last (known_of known.now []) (statement_of stmt.now)) next.now)) }
{
    for claim in next {
        if let Some(flaw) = unmet_claim(judge, kept, stmt, begin, last, known, *claim)? {
            return Ok(Some(flaw));
        }
    }
    Ok(None)
}
