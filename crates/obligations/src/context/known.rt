//! What is known at a line.

ghost use Rattle.std.specs.Prelude.{◌≡◌, ◌++◌, List, IfOk, OnOk, map, filter, not, option_copied};
ghost use Rattle.plan.specs.View.{statement_of};
ghost use Rattle.soundness.specs.Obligations.{places_of, is_member, is_left, is_next, follows, nests_of, in_guard, in_block, in_loop, makes, onwards};
ghost use Rattle.soundness.specs.Outline.View.{outline_in};
ghost use Rattle.obligations.specs.declared.context.known.Nest.{Nest};
ghost use Rattle.obligations.specs.Context.Around.{buffers_of, known_of, nest_of, IsBound};

use crate::context::changes::{changed, only_updates};
use crate::context::facts::Facts;
use crate::context::judge::{Judge, said_by};
use lin::{Lin, Span1, Sym};
use plan::{Places, Stmt};
use soundness::binders::{Binder, NestTests};
use std::alloc::AllocError;

/// A buffer in scope.
#[derive(Clone, Copy, Drop)]
pub struct Buffer<'a> {
    pub name: u64,
    pub places: &'a [Places],
}

/// An update's nest that is under way: the claim of the definition before, and the claim that the nest makes.
#[derive(Clone, Copy, Drop)]
pub struct Nest {
    pub before: u64,
    pub next: u64,
}

/// What is known at a line, but for the nests under way. Binders and buffers are given from the outermost on.
#[derive(Drop)]
pub struct Known<'a> {
    pub binders: Vec<Binder<'a>>,
    pub buffers: Vec<Buffer<'a>>,
    /// The claims in force.
    pub claims: Vec<u64>,
    /// Those of them that came into force in this very block.
    pub own: Vec<u64>,
}

/// Whether the number is among these.
pub fn is_member(number: u64, numbers: &[u64]) -> bool
    ensures { result ≡ is_member number numbers.now }
{
    numbers.iter().any(|one| *one == number)
}

/// Whether the one definition is just before the other.
fn is_next(before: u64, next: u64) -> bool
    ensures { result ≡ is_next before next }
{
    next > 0 && next - 1 == before
}

/// Whether the second claim is of the definition after that of the first.
pub fn follows<B: Facts, T: NestTests>(judge: &Judge<'_, B, T>, before: u64, next: u64) -> bool
    ensures { result ≡ follows (outline_in judge.now.outlined.now) (B.rules judge.now.bounds.now) before next }
{
    let before = said_by(judge.outlined, before);
    let next = said_by(judge.outlined, next);
    before.buffer == next.buffer
        && before.function == next.function
        && is_next(before.definition, next.definition)
}

/// The claims whose buffer a statement leaves alone.
#[tactic(auto, using(crate::proofs::Tests::filter_same))]
fn left_alone<B: Facts, T: NestTests>(
    judge: &Judge<'_, B, T>,
    stmt: &Stmt,
    claims: &[u64],
) -> Result<Vec<u64>, AllocError>
    ensures { IfOk result (λ left. left.items ≡ filter (is_left (outline_in judge.now.outlined.now) (B.rules judge.now.bounds.now) (statement_of stmt.now)) claims.now) }
{
    let changed = changed(judge.alloc, stmt)?;
    kept(judge, &changed, claims)
}

/// The claims whose buffer is not among these.
fn kept<B: Facts, T: NestTests>(
    judge: &Judge<'_, B, T>,
    changed: &[u64],
    claims: &[u64],
) -> Result<Vec<u64>, AllocError>
    ensures { IfOk result (λ left. left.items ≡ filter (λ c. not (is_member ((outline_in judge.now.outlined.now).claim c).buffer changed.now)) claims.now) }
{
    let mut left = Vec::new(judge.alloc);
    for claim in claims {
        if !is_member(said_by(judge.outlined, *claim).buffer, changed) {
            left.push(*claim)?;
        }
    }
    Ok(left)
}

/// The nests that a claim's statement begins after each claim of the definition before, behind others.
fn note_nests<B: Facts, T: NestTests>(
    judge: &Judge<'_, B, T>,
    claim: u64,
    own: &[u64],
    nests: &mut Vec<Nest>,
) -> Result<(), AllocError>
    ensures { OnOk result (map nest_of nests.new.items ≡ map nest_of nests.old.items ++ map (λ d. record { before = d; next = claim }) (filter (λ d. follows (outline_in judge.now.outlined.now) (B.rules judge.now.bounds.now) d claim) own.now)) }
{
    for before in own {
        if follows(judge, *before, claim) {
            nests.push(Nest {
                before: *before,
                next: claim,
            })?;
        }
    }
    Ok(())
}

/// The nests that a statement begins, whose end makes these claims.
fn nests_of<B: Facts, T: NestTests>(
    judge: &Judge<'_, B, T>,
    stmt: &Stmt,
    next: &[u64],
    own: &[u64],
) -> Result<Vec<Nest>, AllocError>
    ensures { IfOk result (λ nests. map nest_of nests.items ≡ nests_of (outline_in judge.now.outlined.now) (B.rules judge.now.bounds.now) (statement_of stmt.now) next.now own.now) }
{
    let mut nests = Vec::new(judge.alloc);
    for claim in next {
        let made = said_by(judge.outlined, *claim);
        if only_updates(judge.outlined, stmt, made.buffer, made.function) {
            note_nests(judge, *claim, own, &mut nests)?;
        }
    }
    Ok(nests)
}

/// The nests around the lines of a statement, whose end makes these claims.
pub fn nests_within<B: Facts, T: NestTests>(
    judge: &Judge<'_, B, T>,
    stmt: &Stmt,
    next: &[u64],
    own: &[u64],
    updating: &[Nest],
) -> Result<Vec<Nest>, AllocError>
    ensures { IfOk result (λ nests. map nest_of nests.items ≡ nests_of (outline_in judge.now.outlined.now) (B.rules judge.now.bounds.now) (statement_of stmt.now) next.now own.now ++ map nest_of updating.now) }
{
    let mut nests = nests_of(judge, stmt, next, own)?;
    nests.extend_from_slice(updating)?;
    Ok(nests)
}

impl<'a> Known<'a> {
    /// The places of a buffer, if it is in scope.
    #[tactic(auto, using(crate::proofs::Bound::buffers_pushed))]
    pub fn places_of(&self, buffer: u64) -> Option<&'a [Places]>
        ensures { option_copied result ≡ places_of (buffers_of self.now.buffers.items) buffer }
    {
        let mut found = None;
        for one in &self.buffers {
            if buffer == one.name {
                found = Some(one.places);
            }
        }
        found
    }

    /// What is known in a block.
    pub fn in_block<B: Facts, T: NestTests>(
        &self,
        judge: &Judge<'_, B, T>,
    ) -> Result<Known<'a>, AllocError>
        ensures { IfOk result (λ known. (updating : List Nest) → known_of known updating ≡ in_block (outline_in judge.now.outlined.now) (B.rules judge.now.bounds.now) (known_of self.now updating)) }
    {
        Ok(Known {
            binders: Vec::from_slice(judge.alloc, &self.binders)?,
            buffers: Vec::from_slice(judge.alloc, &self.buffers)?,
            claims: Vec::from_slice(judge.alloc, &self.claims)?,
            own: Vec::new(judge.alloc),
        })
    }

    /// What is known in a guard.
    #[tactic(auto, using(crate::proofs::Bound::binders_pushed))]
    pub fn in_guard<B: Facts, T: NestTests>(
        &self,
        judge: &Judge<'_, B, T>,
        low: &'a Lin,
        high: &'a Lin,
    ) -> Result<Known<'a>, AllocError>
        ensures { IfOk result (λ known. (updating : List Nest) → known_of known updating ≡ in_guard (outline_in judge.now.outlined.now) (B.rules judge.now.bounds.now) low.now high.now (known_of self.now updating)) }
    {
        let mut binders = Vec::from_slice(judge.alloc, &self.binders)?;
        binders.push(Binder::Passed { low, high })?;
        Ok(Known {
            binders,
            buffers: Vec::from_slice(judge.alloc, &self.buffers)?,
            claims: Vec::from_slice(judge.alloc, &self.claims)?,
            own: Vec::new(judge.alloc),
        })
    }

    /// What is known in every turn of a loop.
    #[tactic(auto, using(crate::proofs::Bound::binders_pushed))]
    pub fn in_loop<B: Facts, T: NestTests>(
        &self,
        judge: &Judge<'_, B, T>,
        symbol: Sym,
        span: &'a Span1,
        body: &Stmt,
    ) -> Result<Known<'a>, AllocError>
        ensures { IfOk result (λ known. (updating : List Nest) → known_of known updating ≡ in_loop (outline_in judge.now.outlined.now) (B.rules judge.now.bounds.now) symbol span.now (statement_of body.now) (known_of self.now updating)) }
    {
        let mut binders = Vec::from_slice(judge.alloc, &self.binders)?;
        binders.push(Binder::Ranged { symbol, span })?;
        Ok(Known {
            binders,
            buffers: Vec::from_slice(judge.alloc, &self.buffers)?,
            claims: left_alone(judge, body, &self.claims)?,
            own: Vec::new(judge.alloc),
        })
    }
}

/// What a line of a block binds for the lines after it.
#[tactic(auto, using(crate::proofs::Bound::binders_pushed, crate::proofs::Bound::buffers_pushed))]
fn bind<'a, B: Facts, T: NestTests>(
    judge: &Judge<'_, B, T>,
    stmt: &'a Stmt,
    known: &mut Known<'a>,
) -> Result<(), AllocError>
    ensures { OnOk result (IsBound (outline_in judge.now.outlined.now) (B.rules judge.now.bounds.now) (statement_of stmt.now) known.old known.new) }
{
    match stmt {
        Stmt::Let {
            symbol,
            pick,
            forms,
        } => known.binders.push(Binder::Picked {
            symbol: *symbol,
            pick: *pick,
            forms,
        })?,
        Stmt::Alloc { buffer, places, .. } => known.buffers.push(Buffer {
            name: *buffer,
            places,
        })?,
        _ => (),
    }
    Ok(())
}

/// The claims in force after a statement that makes these, of those before it.
fn claims_after<B: Facts, T: NestTests>(
    judge: &Judge<'_, B, T>,
    changed: &[u64],
    made: &[u64],
    claims: &[u64],
) -> Result<Vec<u64>, AllocError>
    ensures { IfOk result (λ after. after.items ≡ made.now ++ filter (λ c. not (is_member ((outline_in judge.now.outlined.now).claim c).buffer changed.now)) claims.now) }
{
    let mut after = Vec::from_slice(judge.alloc, made)?;
    let left = kept(judge, changed, claims)?;
    after.extend_from_slice(&left)?;
    Ok(after)
}

/// The claims that a line of a block makes: one that gives a symbol its number makes none.
fn made<'c, B: Facts, T: NestTests>(
    judge: &Judge<'_, B, T>,
    stmt: &Stmt,
    next: &'c [u64],
) -> &'c [u64]
    ensures { result.now ≡ makes (outline_in judge.now.outlined.now) (B.rules judge.now.bounds.now) (statement_of stmt.now) next.now }
{
    match stmt {
        Stmt::Let { .. } => &[],
        _ => next,
    }
}

/// What is known after a statement of a block, whose end names these claims.
#[tactic(auto, using(crate::proofs::Tests::filter_same))]
pub fn onwards<'a, B: Facts, T: NestTests>(
    judge: &Judge<'_, B, T>,
    stmt: &'a Stmt,
    next: &[u64],
    mut known: Known<'a>,
) -> Result<Known<'a>, AllocError>
    ensures { IfOk result (λ after. (updating : List Nest) → known_of after updating ≡ onwards (outline_in judge.now.outlined.now) (B.rules judge.now.bounds.now) (statement_of stmt.now) next.now (known_of known.entry updating)) }
{
    let changed = changed(judge.alloc, stmt)?;
    let made = made(judge, stmt, next);
    bind(judge, stmt, &mut known)?;
    let Known {
        binders,
        buffers,
        claims,
        own,
    } = known;
    let claims = claims_after(judge, &changed, made, &claims)?;
    let own = claims_after(judge, &changed, made, &own)?;
    Ok(Known {
        binders,
        buffers,
        claims,
        own,
    })
}
