//! The statements of a function inside whose loops nothing is computed: those of its skeleton, whose symbols are the plan's.

ghost use Rattle.std.specs.Prelude.{◌≡◌, ◌∷◌, [], ◌++◌, IfOk, map, slice_get, ◌+◌};
ghost use Rattle.std.specs.Option.{option_copied, option_map};
ghost use Rattle.tree.specs.Term.{term_of};
ghost use Rattle.plan.specs.Lists.{list_statements};
ghost use Rattle.plan.specs.Plan.{block, Alloc as AllocSaid, Publish as PublishSaid};
ghost use Rattle.plan.specs.View.{coordinate_of, index_of as told_index, statement_of};
ghost use Rattle.sched.specs.Runs.{lines_to as steps_to};
ghost use Rattle.sched.specs.Skeleton.{nest_seen, skeleton_seen};
ghost use Rattle.blocks.specs.Loading.{load_of};
ghost use Rattle.sched.specs.Stored.{formula_of, stored_of};
ghost use Rattle.blocks.specs.Fetches.{fetch_seen, with_fetch, with_fetches};
ghost use Rattle.sched.specs.Limited.{TellsIf};
ghost use Rattle.blocks.specs.Planned as planned;
ghost use Rattle.blocks.specs.Bodies as spec;
ghost use Rattle.sched.specs.Bodies as sched;
ghost use Rattle.sched.specs.Placed.{around};

use crate::loading::{Load, loaded};
use lin::{Lin, Region};
use plan::{Coordinate, Index, Places, Stmt};
use sched::roots::Root;
use sched::scopes::variables_of;
use sched::stop::Stop;
use sched::{Nest, Step};
use std::alloc::{AllocError, Global};
use tree::Expr;

/// A buffer of another function, and what of a group is fetched into it.
#[derive(Drop)]
pub struct Fetch<'a> {
    pub buffer: u64,
    pub function: &'a str,
    pub places: Vec<Places>,
    pub group: u64,
    pub region: Region,
}

// ---- steps

/// One statement.
pub(crate) fn alone(alloc: Global, statement: Stmt) -> Result<Vec<Stmt>, AllocError>
    ensures { IfOk result (λ v. v.items ≡ statement ∷ []) }
{
    let mut statements = Vec::new(alloc);
    statements.push(statement)?;
    Ok(statements)
}

/// The statement of a block.
pub(crate) fn block_of(inside: Vec<Stmt>) -> Stmt
    ensures { statement_of result ≡ spec.body (list_statements inside.items) }
{
    Stmt::Seq(inside)
}

/// A loop or a guard around what follows, or a let in front of it.
pub(crate) fn with_step(
    alloc: Global,
    step: &Step,
    inside: Vec<Stmt>,
) -> Result<Vec<Stmt>, AllocError>
    ensures block { IfOk result (λ v. block (list_statements v.items) ≡ spec.with_step step.now (block (list_statements inside.items))) }
    ensures list { IfOk result (λ v. list_statements v.items ≡ around step.now (list_statements inside.items)) }
{
    match step {
        Step::Turns { symbol, span, kind } => {
            let span = span.copy(alloc)?;
            let body = Box::new(alloc, block_of(inside))?;
            let statement = Stmt::For {
                symbol: *symbol,
                span,
                kind: *kind,
                body,
            };
            alone(alloc, statement)
        }
        Step::Named {
            symbol,
            pick,
            forms,
        } => {
            let forms = forms.copy(alloc)?;
            let mut statements = inside;
            let statement = Stmt::Let {
                symbol: *symbol,
                pick: *pick,
                forms,
            };
            statements.insert(0, statement)?;
            Ok(statements)
        }
        Step::Tested { low, high } => {
            let low = low.copy(alloc)?;
            let high = high.copy(alloc)?;
            let body = Box::new(alloc, block_of(inside))?;
            alone(alloc, Stmt::Guard { low, high, body })
        }
    }
}

/// The lines that come to these, by the steps.
#[tactic(auto, using(crate::proofs::Wholes::stepped))]
pub(crate) fn lines_to(
    alloc: Global,
    steps: &[Step],
    inner: Vec<Stmt>,
) -> Result<Vec<Stmt>, AllocError>
    ensures { IfOk result (λ v. block (list_statements v.items) ≡ steps_to steps.now (block (list_statements inner.items))) }
{
    match steps {
        [] => Ok(inner),
        [step, rest @ ..] => {
            let inside = lines_to(alloc, rest, inner)?;
            with_step(alloc, step, inside)
        }
    }
}

/// The line that stands so many lines behind another one.
pub fn line_behind(line: u64, count: u64) -> Result<u64, AllocError>
    ensures { IfOk result (λ behind. behind ≡ line + count) }
{
    match line.checked_add(count) {
        Some(behind) => Ok(behind),
        None => Err(AllocError),
    }
}

/// How many lines a step makes: a loop and a guard have an `end`.
pub(crate) fn own_lines(step: &Step) -> u64
    ensures { result ≡ spec.own_lines step.now }
{
    match step {
        Step::Named { .. } => 1,
        Step::Turns { .. } | Step::Tested { .. } => 2,
    }
}

/// How many lines the steps make.
pub fn line_count(steps: &[Step]) -> Result<u64, AllocError>
    ensures { IfOk result (λ count. count ≡ spec.step_lines steps.now) }
{
    match steps {
        [] => Ok(0),
        [step, rest @ ..] => line_behind(own_lines(step), line_count(rest)?),
    }
}

// ---- stores

// A coordinate: the skeleton's form, or the left index with its calls as loads where that has none.
fn index_of(
    alloc: Global,
    form: &Option<Lin>,
    index: Option<&Expr>,
    loads: &[Load<'_>],
) -> Result<Index, Stop>
    ensures made { IfOk result (λ made. spec.IsIndex (map load_of loads.now) form.now (option_map term_of (option_copied index.entry)) (told_index made)) }
    ensures told { TellsIf result (planned.has_index form.now (option_map term_of (option_copied index.entry))) }
{
    match form {
        Some(form) => Ok(Index::Form(form.copy(alloc)?)),
        None => match index {
            Some(index) => Ok(Index::Found(loaded(alloc, index, loads)?)),
            None => Err(Stop::Limit),
        },
    }
}

// The left index of a variable, where it is not the variable alone.
fn first_index(at: &[Option<Expr>]) -> Option<&Expr>
    ensures { option_map term_of (option_copied result) ≡ sched.first_left (map (option_map term_of) at.now) }
{
    match at {
        [first, _rest @ ..] => first.as_ref(),
        [] => None,
    }
}

fn other_indices(at: &[Option<Expr>]) -> &[Option<Expr>]
    ensures { map (option_map term_of) result.now ≡ sched.other_lefts (map (option_map term_of) at.now) }
{
    match at {
        [_first, rest @ ..] => rest,
        [] => at,
    }
}

/// The coordinates of a store: each the form, or the left index with its calls as loads where there is none.
#[tactic(auto, using(crate::proofs::Wholes::coordinates_made))]
pub(crate) fn coordinates_of(
    alloc: Global,
    names: &[&str],
    forms: &[Option<Lin>],
    at: &[Option<Expr>],
    loads: &[Load<'_>],
) -> Result<Vec<Coordinate>, Stop>
    ensures made { IfOk result (λ v. spec.AreCoordinates (map load_of loads.now) (map (λ x. x.now) names.now) forms.now
        (map (option_map term_of) at.now) (map coordinate_of v.items)) }
    ensures told { TellsIf result (planned.have_indices (map (λ x. x.now) names.now) forms.now (map (option_map term_of) at.now)) }
{
    match forms {
        [] => Ok(Vec::new(alloc)),
        [form, others @ ..] => match names {
            [] => Err(Stop::Limit),
            [name, rest @ ..] => {
                let index = index_of(alloc, form, first_index(at), loads)?;
                let variable = String::from_str(alloc, name)?;
                let first = Coordinate { variable, index };
                let mut found = coordinates_of(alloc, rest, others, other_indices(at), loads)?;
                found.insert(0, first)?;
                Ok(found)
            }
        },
    }
}

/// The store of the definition of this number, its calls as loads, at the coordinates of its nest, into the piece's own buffer.
#[tactic(auto, using(crate::proofs::Wholes::store_made, crate::proofs::Unplanned::not_stored, crate::proofs::Unplanned::stored_tells))]
pub(crate) fn store_of(
    alloc: Global,
    root: &Root<'_>,
    definition: usize,
    nest: &Nest,
    loads: &[Load<'_>],
) -> Result<Stmt, Stop>
    ensures made { IfOk result (λ store. spec.IsStore (stored_of root.now.stored.now) (map formula_of root.now.formulas.now) (map load_of loads.now)
        definition (nest_seen nest.now) (statement_of store)) }
    ensures told { TellsIf result (planned.is_stored_by (stored_of root.now.stored.now) definition (nest_seen nest.now)
        (slice_get (map formula_of root.now.formulas.now) definition)) }
{
    let Some(formula) = root.formulas.get(definition) else {
        return Err(Stop::Limit);
    };
    let names = variables_of(alloc, root.stored.function, definition)?;
    let coordinates = coordinates_of(alloc, &names, &nest.at, &formula.at, loads)?;
    let value = loaded(alloc, &formula.value, loads)?;
    Ok(Stmt::Store {
        buffer: 0,
        definition: definition as u64,
        coordinates,
        value,
    })
}

/// The lines down to that store, with it.
#[tactic(auto, using(crate::proofs::Wholes::nest_made))]
pub(crate) fn nest_of(
    alloc: Global,
    root: &Root<'_>,
    definition: usize,
    nest: &Nest,
    loads: &[Load<'_>],
) -> Result<Vec<Stmt>, Stop>
    ensures made { IfOk result (λ v. spec.IsNest (stored_of root.now.stored.now) (map formula_of root.now.formulas.now) (map load_of loads.now)
        definition (nest_seen nest.now) (list_statements v.items)) }
    ensures told { TellsIf result (planned.is_stored_by (stored_of root.now.stored.now) definition (nest_seen nest.now)
        (slice_get (map formula_of root.now.formulas.now) definition)) }
{
    let store = store_of(alloc, root, definition, nest, loads)?;
    let inner = alone(alloc, store)?;
    Ok(lines_to(alloc, &nest.steps, inner)?)
}

// ---- fetches

// The lines of a fetch before others.
fn before_others(
    alloc: Global,
    fetch: Fetch<'_>,
    others: Vec<Stmt>,
) -> Result<Vec<Stmt>, AllocError>
    ensures { IfOk result (λ v. list_statements v.items ≡ with_fetch (fetch_seen fetch.entry) (list_statements others.items)) }
{
    let function = String::from_str(alloc, fetch.function)?;
    let mut statements = others;
    statements.insert(
        0,
        Stmt::Fetch {
            buffer: fetch.buffer,
            group: fetch.group,
            region: fetch.region,
        },
    )?;
    statements.insert(
        0,
        Stmt::Alloc {
            buffer: fetch.buffer,
            function,
            places: fetch.places,
        },
    )?;
    Ok(statements)
}

// The lines of these fetches, in their order, before others.
#[tactic(auto, using(crate::proofs::Wholes::with_popped))]
fn before_all(
    alloc: Global,
    fetches: Vec<Fetch<'_>>,
    others: Vec<Stmt>,
) -> Result<Vec<Stmt>, AllocError>
    ensures { IfOk result (λ v. list_statements v.items ≡ with_fetches (map fetch_seen fetches.entry.items) (list_statements others.items)) }
{
    let mut left = fetches;
    let mut statements = others;
    while let Some(fetch) = left.pop() {
        statements = before_others(alloc, fetch, statements)?;
    }
    Ok(statements)
}

// ---- the whole

// The line of a piece's own buffer with these places.
fn own_line(alloc: Global, root: &Root<'_>, places: Vec<Places>) -> Result<Stmt, AllocError>
    ensures { IfOk result (λ own. statement_of own ≡ AllocSaid 0 (stored_of root.now.stored.now).subject.name places.items) }
{
    let function = String::from_str(alloc, root.stored.subject.name.as_str())?;
    Ok(Stmt::Alloc {
        buffer: 0,
        function,
        places,
    })
}

// What is fetched, these nests, and by which claim a piece publishes.
#[tactic(auto, using(crate::proofs::Wholes::published))]
fn published(
    alloc: Global,
    fetches: Vec<Fetch<'_>>,
    nests: Vec<Stmt>,
    claim: u64,
) -> Result<Vec<Stmt>, AllocError>
    ensures { IfOk result (λ v. list_statements v.items ≡ with_fetches (map fetch_seen fetches.entry.items) (list_statements nests.items ++ PublishSaid claim ∷ [])) }
{
    let mut last = nests;
    last.push(Stmt::Publish { claim })?;
    before_all(alloc, fetches, last)
}

// The lines that come to this one and others behind it, by the steps.
fn lines_from(
    alloc: Global,
    steps: &[Step],
    own: Stmt,
    others: Vec<Stmt>,
) -> Result<Vec<Stmt>, AllocError>
    ensures { IfOk result (λ v. block (list_statements v.items) ≡ steps_to steps.now (block (statement_of own ∷ list_statements others.items))) }
{
    let mut all = others;
    all.insert(0, own)?;
    lines_to(alloc, steps, all)
}

/// What a piece does: the lets over the grid, its buffer, what it fetches, these nests, and by which claim it publishes.
#[tactic(auto, using(crate::proofs::Wholes::body_joined))]
pub fn body_with(
    alloc: Global,
    root: &Root<'_>,
    places: Vec<Places>,
    fetches: Vec<Fetch<'_>>,
    nests: Vec<Stmt>,
    claim: u64,
) -> Result<Vec<Stmt>, AllocError>
    ensures { IfOk result (λ v. spec.IsBodyWith (stored_of root.now.stored.now) (skeleton_seen root.now.laid.now.skeleton)
        places.items (map fetch_seen fetches.entry.items) (list_statements nests.items) claim (spec.body (list_statements v.items))) }
{
    let own = own_line(alloc, root, places)?;
    let others = published(alloc, fetches, nests, claim)?;
    let all = lines_from(alloc, &root.laid.skeleton.head, own, others)?;
    Ok(all)
}
