//! Claims that are made along windows.

ghost use Rattle.std.specs.Prelude.{◌≡◌, ◌+◌, ◌<◌, ◌^◌, [], IfOk, None, Some};
ghost use Rattle.std.specs.Option.{option_map};
ghost use Rattle.plan.specs.Lines.{lines};
ghost use Rattle.plan.specs.View.{statement_of};
ghost use Rattle.soundness.specs.Obligations.{held, kept_of, made, making_obligations, places_of, slid, window_of, without};
ghost use Rattle.soundness.specs.Shown.{shows};
ghost use Rattle.soundness.specs.Binders.View.{binders_of};
ghost use Rattle.soundness.specs.Outline.View.{outline_in};
ghost use Rattle.obligations.specs.Context.Around.{buffers_of, known_of, windows_of};
ghost use Rattle.obligations.specs.Asked.{first_unmet};

use crate::asked::unless;
use crate::context::{Facts, Judge, Known, is_member, only_updates, said_by};
use lin::Sym;
use plan::Stmt;
use plan::certificate::Window;
use soundness::binders::NestTests;
use soundness::outline::kept::is_alone_in;
use soundness::outline::refusals::{Flaw, K};
use std::alloc::{AllocError, Global};

/// The windows that a loop over the symbol keeps, whose body begins at the line.
pub(crate) fn kept_of<'a, B: Facts, T: NestTests>(
    judge: &Judge<'a, B, T>,
    symbol: Sym,
    body: &Stmt,
    line: u32,
) -> Result<Vec<&'a Window>, AllocError>
    requires { line + lines (statement_of body.now) < 2 ^ 32 }
    ensures { IfOk result (λ kept. windows_of kept.items ≡ kept_of (outline_in judge.now.outlined.now) (B.rules judge.now.bounds.now) symbol (statement_of body.now) line) }
{
    let mut kept = Vec::new(judge.alloc);
    for window in judge.outlined.windows() {
        if window.symbol == symbol && is_alone_in(judge.outlined, window, body, line) {
            kept.push(window)?;
        }
    }
    Ok(kept)
}

/// The windows whose claims are none of these.
pub(crate) fn without<'a>(
    alloc: Global,
    claims: &[u64],
    windows: &[&'a Window],
) -> Result<Vec<&'a Window>, AllocError>
    ensures { IfOk result (λ left. windows_of left.items ≡ without claims.now (windows_of windows.now)) }
{
    let mut left = Vec::new(alloc);
    for window in windows {
        if !is_member(window.claim, claims) {
            left.push(*window)?;
        }
    }
    Ok(left)
}

/// The first of these windows that is of the claim.
fn window_of<'a>(windows: &[&'a Window], claim: u64) -> Option<&'a Window>
    ensures { option_map (λ w. w.now) result ≡ window_of (windows_of windows.now) claim }
{
    for window in windows {
        if window.claim == claim {
            return Some(*window);
        }
    }
    None
}

/// Whether a statement is shown to make a claim.
fn is_made<B: Facts, T: NestTests>(
    judge: &Judge<'_, B, T>,
    stmt: &Stmt,
    known: &Known<'_>,
    claim: u64,
) -> Result<bool, AllocError>
    ensures { IfOk result (λ yes. yes ≡ shows (B.rules judge.now.bounds.now) (T.nests judge.now.tests.now) (binders_of known.now.binders.items) (made (outline_in judge.now.outlined.now) (B.rules judge.now.bounds.now) (places_of (buffers_of known.now.buffers.items) ((outline_in judge.now.outlined.now).claim claim).buffer) claim (statement_of stmt.now))) }
{
    let said = said_by(judge.outlined, claim);
    let Some(places) = known.places_of(said.buffer) else {
        return Ok(false);
    };
    let from = if only_updates(judge.outlined, stmt, said.buffer, said.function) {
        Some(said.definition.saturating_sub(1))
    } else {
        None
    };
    judge
        .tests
        .is_made(judge.alloc, &known.binders, claim, from, places, stmt)
}

/// Whether a statement is shown to make a claim along a window.
fn is_slid<B: Facts, T: NestTests>(
    judge: &Judge<'_, B, T>,
    window: &Window,
    stmt: &Stmt,
    known: &Known<'_>,
    claim: u64,
) -> Result<bool, AllocError>
    ensures { IfOk result (λ yes. yes ≡ shows (B.rules judge.now.bounds.now) (T.nests judge.now.tests.now) (binders_of known.now.binders.items) (slid (outline_in judge.now.outlined.now) (B.rules judge.now.bounds.now) (places_of (buffers_of known.now.buffers.items) ((outline_in judge.now.outlined.now).claim claim).buffer) window.now claim (statement_of stmt.now))) }
{
    let said = said_by(judge.outlined, claim);
    let Some(places) = known.places_of(said.buffer) else {
        return Ok(false);
    };
    judge
        .tests
        .is_slid(judge.alloc, &known.binders, window, claim, places, stmt)
}

/// Whether the window's buffer is shown to hold its rows at each turn, which the statement makes.
fn is_held<B: Facts, T: NestTests>(
    judge: &Judge<'_, B, T>,
    window: &Window,
    stmt: &Stmt,
    known: &Known<'_>,
    claim: u64,
) -> Result<bool, AllocError>
    ensures { IfOk result (λ yes. yes ≡ shows (B.rules judge.now.bounds.now) (T.nests judge.now.tests.now) (binders_of known.now.binders.items) (held (outline_in judge.now.outlined.now) (B.rules judge.now.bounds.now) (places_of (buffers_of known.now.buffers.items) ((outline_in judge.now.outlined.now).claim claim).buffer) window.now (binders_of known.now.binders.items) claim (statement_of stmt.now))) }
{
    let said = said_by(judge.outlined, claim);
    let Some(places) = known.places_of(said.buffer) else {
        return Ok(false);
    };
    let tests = judge.tests;
    if tests.is_slid(judge.alloc, &known.binders, window, claim, places, stmt)? {
        tests.is_held(judge.alloc, &known.binders, window, claim, places, stmt)
    } else {
        Ok(false)
    }
}

/// What is asked of a claim that is made along a window.
#[tactic(auto, using(crate::proofs::Unmet::one, crate::proofs::Unmet::alone, crate::proofs::Unmet::nothing, crate::proofs::Unmet::append, crate::proofs::Unmet::stops, crate::proofs::Unmet::goes))]
fn unmet_window<B: Facts, T: NestTests>(
    judge: &Judge<'_, B, T>,
    window: &Window,
    stmt: &Stmt,
    known: &Known<'_>,
    claim: u64,
) -> Result<Option<Flaw>, AllocError>
    ensures { IfOk result (λ flaw. flaw ≡ first_unmet (B.rules judge.now.bounds.now) (T.nests judge.now.tests.now) judge.now.part (making_obligations (outline_in judge.now.outlined.now) (B.rules judge.now.bounds.now) (Some window.now) (known_of known.now []) (statement_of stmt.now) claim)) }
{
    let slid = is_slid(judge, window, stmt, known, claim)?;
    if let Some(flaw) = unless(judge.part, K::K6, judge.bounds.claim_line(claim), slid) {
        return Ok(Some(flaw));
    }
    let held = is_held(judge, window, stmt, known, claim)?;
    Ok(unless(judge.part, K::K8, judge.bounds.window_line(claim), held))
}

/// What is asked of a claim that is made by its statement alone.
#[tactic(auto, using(crate::proofs::Unmet::one, crate::proofs::Unmet::alone, crate::proofs::Unmet::nothing, crate::proofs::Unmet::append, crate::proofs::Unmet::stops, crate::proofs::Unmet::goes))]
fn unmet_alone<B: Facts, T: NestTests>(
    judge: &Judge<'_, B, T>,
    stmt: &Stmt,
    known: &Known<'_>,
    claim: u64,
) -> Result<Option<Flaw>, AllocError>
    ensures { IfOk result (λ flaw. flaw ≡ first_unmet (B.rules judge.now.bounds.now) (T.nests judge.now.tests.now) judge.now.part (making_obligations (outline_in judge.now.outlined.now) (B.rules judge.now.bounds.now) None (known_of known.now []) (statement_of stmt.now) claim)) }
{
    let shown = is_made(judge, stmt, known, claim)?;
    Ok(unless(judge.part, K::K6, judge.bounds.claim_line(claim), shown))
}

/// What is asked of a claim that its statement makes, by itself or along the first of these windows that is of the claim.
pub(crate) fn unmet_making<B: Facts, T: NestTests>(
    judge: &Judge<'_, B, T>,
    kept: &[&Window],
    stmt: &Stmt,
    known: &Known<'_>,
    claim: u64,
) -> Result<Option<Flaw>, AllocError>
    ensures { IfOk result (λ flaw. flaw ≡ first_unmet (B.rules judge.now.bounds.now) (T.nests judge.now.tests.now) judge.now.part (making_obligations (outline_in judge.now.outlined.now) (B.rules judge.now.bounds.now) (window_of (windows_of kept.now) claim) (known_of known.now []) (statement_of stmt.now) claim)) }
{
    match window_of(kept, claim) {
        None => unmet_alone(judge, stmt, known, claim),
        Some(window) => unmet_window(judge, window, stmt, known, claim),
    }
}
