//! The nests of a root function's definitions over its region, and the grid of its pieces.

ghost use Rattle.std.specs.Prelude.{◌≡◌, [], ◌∷◌, ◌++◌, IfOk, map};
ghost use Rattle.sched.specs.Placing.{placed_of};
ghost use Rattle.sched.specs.Numbers.{parallel_loops, piece_counts};
ghost use Rattle.meaning.specs.Names.{is_among};
ghost use Rattle.sched.specs.Standing.{standing_of, Builds};
ghost use Rattle.sched.specs.Standing as standing;
ghost use Rattle.sched.specs.Skeleton as spec;

use crate::numbers::{Extent, Numbers, loop_numbers, numbers_named, piece_counts};
use crate::placing::{Loop, Mark, Placed};
use crate::schedule::Split;
use crate::skeleton::{
    Known, SkeletonError, Standing, Step, Within, counted_from, form_of, is_guarded,
};
use lin::{Forms, Lin, Span1};
use plan::Kind;
use std::alloc::{AllocError, Global};
use std::mem;
use tree::token::Name;

/// A loop of a nest: its numbers from the lowest to the last.
#[derive(Clone, Copy, Drop)]
pub struct Turning {
    pub name: Name,
    pub low: i64,
    pub last: i64,
    pub kind: Kind,
}

/// What a nest has to know of a definition.
#[derive(Drop)]
pub struct Body {
    /// The dimensions that it has no pure variable for.
    pub missing: Vec<usize>,
    /// The loops of its reduction variables, in the order in which they are declared: the last becomes the outermost.
    pub ranges: Vec<Turning>,
}

/// The way down to the store of a definition.
#[derive(Drop)]
pub struct Nest {
    /// The outermost first.
    pub steps: Vec<Step>,
    /// The coordinates of the store, one a variable of the function, and behind them those of the reduction variables: none
    /// where the definition has no pure variable for the dimension, whose coordinate an expression finds.
    pub at: Vec<Option<Lin>>,
}

/// What of a root function stands in its plan.
#[derive(Drop)]
pub struct Skeleton {
    /// How many turns each parallel loop has, the innermost first.
    pub grid: Vec<u32>,
    /// The lets over the grid.
    pub head: Vec<Step>,
    /// One a definition.
    pub nests: Vec<Nest>,
    /// The forms over the grid of the parallel loops and of loops that were split whose position the grid alone gives.
    pub known: Vec<Known>,
    /// The forms over the grid of the first numbers of blocks, each under the name of the loop that was split.
    pub starts: Vec<Known>,
}

fn kind_of(mark: Option<Mark>) -> Kind
    ensures { result ≡ spec.kind_of mark }
{
    match mark {
        Some(Mark::Unrolled) => Kind::Unroll,
        Some(Mark::Vectorized) => Kind::Vector,
        Some(Mark::Parallel) | None => Kind::Serial,
    }
}

fn inside(kind: Kind) -> Within
    ensures { result ≡ spec.inside kind }
{
    match kind {
        Kind::Serial | Kind::Unroll => Within::Nest,
        Kind::Vector => Within::Lanes,
    }
}

fn loop_turning(numbers: &[Numbers], one: &Loop) -> Turning
    ensures { result ≡ spec.loop_turning numbers.now one.now }
{
    let own = numbers_named(numbers, &one.name);
    Turning {
        name: one.name,
        low: i64::from(own.low),
        last: own.last(),
        kind: kind_of(one.mark),
    }
}

// From the lowest number to the last, and at most each of the limits.
fn span_of(alloc: Global, low: i64, last: i64, limits: &[Lin]) -> Result<Span1, AllocError>
    ensures { IfOk result (λ span. span ≡ spec.span low last limits.now) }
{
    let mut lower = Forms::new(alloc);
    lower.push(Lin::number(alloc, low))?;
    let mut upper = Forms::new(alloc);
    upper.push(Lin::number(alloc, last))?;
    for limit in limits {
        let copy = limit.copy(alloc)?;
        upper.push(copy)?;
    }
    Ok(Span1 { lower, upper })
}

// The step behind some steps, and others behind it.
#[tactic(auto, using(crate::proofs::Skeletons::left_behind))]
fn joined(steps: Vec<Step>, one: Step, inside: Vec<Step>) -> Result<Vec<Step>, AllocError>
    ensures { IfOk result (λ v. v.items ≡ steps.items ++ one ∷ inside.items) }
{
    let mut all = steps;
    let mut others = inside;
    all.push(one)?;
    all.append(&mut others)?;
    Ok(all)
}

impl Standing {
    // Whatever stands now is named, guarded and put together.
    #[tactic(auto, using(crate::proofs::Skeletons::settle_next))]
    fn settle(
        &mut self,
        alloc: Global,
        within: Within,
        numbers: &[Numbers],
        cuts: &[Split],
    ) -> Result<(), SkeletonError>
        ensures { Builds result (standing_of self.new) (standing.settle within numbers.now cuts.now (standing_of self.old)) }
    {
        for cut in cuts {
            let own = numbers_named(numbers, &cut.whole);
            self.begin(alloc, cut, &own)?;
            let guarded = is_guarded(numbers, cuts, cut);
            self.join(alloc, within, guarded, cut, &own)?;
        }
        Ok(())
    }

    // Inside the next loop; the steps before it are answered.
    fn enter(&mut self, alloc: Global, name: Name) -> Result<Vec<Step>, AllocError>
        ensures steps { IfOk result (λ steps. steps.items ≡ self.old.steps.items) }
        ensures inside { IfOk result (λ _. standing_of self.new ≡ spec.enter name (standing_of self.old)) }
    {
        let symbol = self.next;
        let Some(next) = symbol.checked_add(1) else {
            return Err(AllocError);
        };
        let form = Lin::symbol(alloc, symbol)?;
        let steps = mem::replace(&mut self.steps, Vec::new(alloc));
        self.limits = Vec::new(alloc);
        self.bound.push(symbol)?;
        self.next = next;
        self.learn(name, form)?;
        Ok(steps)
    }

    // Outside of it again.
    fn leave(
        &mut self,
        alloc: Global,
        steps: Vec<Step>,
        symbol: usize,
        turning: &Turning,
    ) -> Result<(), AllocError>
        ensures { IfOk result (λ _. standing_of self.new ≡ spec.leave steps.items symbol turning.now (standing_of self.old)) }
    {
        let span = span_of(alloc, turning.low, turning.last, &self.limits)?;
        let inside = mem::replace(&mut self.steps, Vec::new(alloc));
        let turns = Step::Turns {
            symbol,
            span,
            kind: turning.kind,
        };
        self.steps = joined(steps, turns, inside)?;
        self.limits = Vec::new(alloc);
        Ok(())
    }

    // A loop, and inside it what stands by it.
    fn turn(
        &mut self,
        alloc: Global,
        numbers: &[Numbers],
        cuts: &[Split],
        turning: &Turning,
    ) -> Result<(), SkeletonError>
        ensures { Builds result (standing_of self.new) (spec.turn numbers.now cuts.now turning.now (standing_of self.old)) }
    {
        let symbol = self.next;
        let steps = self.enter(alloc, turning.name)?;
        self.settle(alloc, inside(turning.kind), numbers, cuts)?;
        self.leave(alloc, steps, symbol, turning)?;
        Ok(())
    }

    // Each inside the one before.
    #[tactic(auto, using(crate::proofs::Skeletons::turn_next))]
    fn turn_all(
        &mut self,
        alloc: Global,
        numbers: &[Numbers],
        cuts: &[Split],
        turnings: &[Turning],
    ) -> Result<(), SkeletonError>
        ensures { Builds result (standing_of self.new) (spec.turn_all numbers.now cuts.now turnings.now (standing_of self.old)) }
    {
        for turning in turnings {
            self.turn(alloc, numbers, cuts, turning)?;
        }
        Ok(())
    }
}

fn is_missing(body: &Body, dimension: usize) -> bool
    ensures { result ≡ spec.is_missing (spec.body_of body.now) dimension }
{
    body.missing.iter().any(|one| *one == dimension)
}

// The variables that the definition has.
#[tactic(auto, using(crate::proofs::Skeletons::kept_next, crate::proofs::Skeletons::kept_not))]
fn kept(alloc: Global, body: &Body, variables: &[Name]) -> Result<Vec<Name>, AllocError>
    ensures { IfOk result (λ v. v.items ≡ spec.kept_from (spec.body_of body.now) 0 variables.now) }
{
    let mut found = Vec::new(alloc);
    for (dimension, variable) in variables.iter().enumerate() {
        if !is_missing(body, dimension) {
            found.push(*variable)?;
        }
    }
    Ok(found)
}

fn is_in_nest(body: &Body, vectorized: bool, one: &Loop) -> bool
    ensures { result ≡ spec.is_in_nest (spec.body_of body.now) vectorized one.now }
{
    !one.is_parallel() && !is_missing(body, one.dimension) && one.is_vectorized() == vectorized
}

// The loops of its nest among these.
#[tactic(auto, using(crate::proofs::Skeletons::nest_loop_next, crate::proofs::Skeletons::nest_loop_not))]
fn turnings_in(
    alloc: Global,
    body: &Body,
    vectorized: bool,
    numbers: &[Numbers],
    loops: &[Loop],
) -> Result<Vec<Turning>, AllocError>
    ensures { IfOk result (λ v. v.items ≡ spec.turnings_in (spec.body_of body.now) vectorized numbers.now loops.now) }
{
    let mut found = Vec::new(alloc);
    for one in loops {
        if is_in_nest(body, vectorized, one) {
            found.push(loop_turning(numbers, one))?;
        }
    }
    Ok(found)
}

// The loops of its nest that are vectorised, or that are not, the outermost first.
fn nest_loops(
    alloc: Global,
    body: &Body,
    vectorized: bool,
    numbers: &[Numbers],
    loops: &[Loop],
) -> Result<Vec<Turning>, AllocError>
    ensures { IfOk result (λ v. v.items ≡ spec.nest_loops (spec.body_of body.now) vectorized numbers.now loops.now) }
{
    let mut outermost = Vec::from_slice(alloc, loops)?;
    outermost.reverse();
    turnings_in(alloc, body, vectorized, numbers, &outermost)
}

// The reduction loops stand inside the pure ones, the last variable outermost, and a vectorised loop inside them.
fn nest_turns(
    alloc: Global,
    body: &Body,
    numbers: &[Numbers],
    loops: &[Loop],
) -> Result<Vec<Turning>, AllocError>
    ensures { IfOk result (λ v. v.items ≡ spec.nest_turns (spec.body_of body.now) numbers.now loops.now) }
{
    let mut found = nest_loops(alloc, body, false, numbers, loops)?;
    let mut ranges = Vec::from_slice(alloc, &body.ranges)?;
    ranges.reverse();
    found.append(&mut ranges)?;
    let mut vectorized = nest_loops(alloc, body, true, numbers, loops)?;
    found.append(&mut vectorized)?;
    Ok(found)
}

fn is_among(names: &[Name], name: &Name) -> bool
    ensures { result ≡ is_among names.now name.now }
{
    names.iter().any(|other| other.as_str() == name.as_str())
}

// The splits of the variable and of what these make.
#[tactic(auto, using(crate::proofs::Skeletons::cut_found, crate::proofs::Skeletons::cut_passed))]
fn cuts_of(alloc: Global, cuts: &[Split], variable: &Name) -> Result<Vec<Split>, AllocError>
    ensures { IfOk result (λ v. v.items ≡ standing.cuts_of cuts.now (variable.now ∷ [])) }
{
    let mut names = Vec::new(alloc);
    names.push(*variable)?;
    let mut found = Vec::new(alloc);
    for cut in cuts {
        if is_among(&names, &cut.whole) {
            found.push(*cut)?;
            names.push(cut.outer)?;
            names.push(cut.inner)?;
        }
    }
    Ok(found)
}

// Variable by variable, later splits first, so that a split's own loops come before it.
#[tactic(auto, using(crate::proofs::Skeletons::by_variable_next))]
fn cuts_by_variable(
    alloc: Global,
    cuts: &[Split],
    variables: &[Name],
) -> Result<Vec<Split>, AllocError>
    ensures { IfOk result (λ v. v.items ≡ standing.cuts_by_variable cuts.now variables.now) }
{
    let mut found = Vec::new(alloc);
    for variable in variables {
        let mut own = cuts_of(alloc, cuts, variable)?;
        own.reverse();
        found.append(&mut own)?;
    }
    Ok(found)
}

// The coordinates of the variables, and of the reduction variables behind them.
#[tactic(auto, using(crate::proofs::Skeletons::variable_at_missing, crate::proofs::Skeletons::variable_at_next))]
fn variables_at(
    alloc: Global,
    body: &Body,
    variables: &[Name],
    known: &[Known],
) -> Result<Vec<Option<Lin>>, AllocError>
    ensures { IfOk result (λ v. v.items ≡ spec.variables_at (spec.body_of body.now) 0 variables.now known.now) }
{
    let mut at = Vec::new(alloc);
    for (dimension, variable) in variables.iter().enumerate() {
        if is_missing(body, dimension) {
            at.push(None)?;
        } else {
            let form = form_of(alloc, known, variable)?;
            at.push(form)?;
        }
    }
    Ok(at)
}

fn ranges_at(
    alloc: Global,
    ranges: &[Turning],
    known: &[Known],
) -> Result<Vec<Option<Lin>>, AllocError>
    ensures { IfOk result (λ v. v.items ≡ spec.ranges_at ranges.now known.now) }
{
    let mut at = Vec::new(alloc);
    for range in ranges {
        let form = form_of(alloc, known, &range.name)?;
        at.push(form)?;
    }
    Ok(at)
}

fn nest_of(
    alloc: Global,
    variables: &[Name],
    body: &Body,
    standing: Standing,
) -> Result<Nest, AllocError>
    ensures { IfOk result (λ nest. spec.nest_seen nest ≡ spec.nest_of variables.now (spec.body_of body.now) (standing_of standing)) }
{
    let mut at = variables_at(alloc, body, variables, &standing.known)?;
    let mut ranges = ranges_at(alloc, &body.ranges, &standing.known)?;
    at.append(&mut ranges)?;
    Ok(Nest {
        steps: standing.steps,
        at,
    })
}

fn copied(alloc: Global, known: &[Known]) -> Result<Vec<Known>, AllocError>
    ensures { IfOk result (λ v. v.items ≡ known.now) }
{
    let mut copies = Vec::new(alloc);
    for one in known {
        let form = one.form.copy(alloc)?;
        copies.push(Known {
            name: one.name,
            form,
        })?;
    }
    Ok(copies)
}

fn copied_forms(alloc: Global, forms: &[Lin]) -> Result<Vec<Lin>, AllocError>
    ensures { IfOk result (λ v. v.items ≡ forms.now) }
{
    let mut copies = Vec::new(alloc);
    for form in forms {
        let copy = form.copy(alloc)?;
        copies.push(copy)?;
    }
    Ok(copies)
}

impl Standing {
    // The same place, with no steps and this symbol next.
    fn begun(&self, alloc: Global, next: usize) -> Result<Standing, AllocError>
        ensures { IfOk result (λ st. standing_of st ≡ spec.begun next (standing_of self.now)) }
    {
        let known = copied(alloc, &self.known)?;
        let starts = copied(alloc, &self.starts)?;
        let bound = Vec::from_slice(alloc, &self.bound)?;
        let limits = copied_forms(alloc, &self.limits)?;
        Ok(Standing {
            known,
            starts,
            bound,
            next,
            steps: Vec::new(alloc),
            limits,
        })
    }

    fn nest_in(
        &mut self,
        alloc: Global,
        variables: &[Name],
        placed: &Placed,
        numbers: &[Numbers],
        body: &Body,
    ) -> Result<(), SkeletonError>
        ensures { Builds result (standing_of self.new)
            (spec.nest_in variables.now (placed_of placed.now) numbers.now (spec.body_of body.now) (standing_of self.old)) }
    {
        let own = kept(alloc, body, variables)?;
        let cuts = cuts_by_variable(alloc, &placed.cuts, &own)?;
        let turnings = nest_turns(alloc, body, numbers, &placed.loops)?;
        self.settle(alloc, Within::Nest, numbers, &cuts)?;
        self.turn_all(alloc, numbers, &cuts, &turnings)
    }
}

// One behind another: symbols are numbered in the order in which a plan binds them.
fn nests_in(
    alloc: Global,
    variables: &[Name],
    placed: &Placed,
    numbers: &[Numbers],
    head: &Standing,
    bodies: &[Body],
) -> Result<Vec<Nest>, SkeletonError>
    ensures { spec.Nests result
        (spec.nests_in variables.now (placed_of placed.now) numbers.now (standing_of head.now) (map spec.body_of bodies.now) head.now.next) }
{
    let mut nests = Vec::new(alloc);
    let mut next = head.next;
    for body in bodies {
        let mut standing = head.begun(alloc, next)?;
        standing.nest_in(alloc, variables, placed, numbers, body)?;
        next = standing.next;
        let nest = nest_of(alloc, variables, body, standing)?;
        nests.push(nest)?;
    }
    Ok(nests)
}

// A symbol for each parallel loop, the innermost first.
#[tactic(auto, using(crate::proofs::Skeletons::grid_next, crate::proofs::Skeletons::grid_not))]
fn grid_forms(alloc: Global, numbers: &[Numbers], loops: &[Loop]) -> Result<Vec<Known>, AllocError>
    ensures { IfOk result (λ v. v.items ≡ spec.grid_forms numbers.now 0 (parallel_loops loops.now)) }
{
    let mut known = Vec::new(alloc);
    for one in loops {
        if one.is_parallel() {
            let low = i64::from(numbers_named(numbers, &one.name).low);
            let form = counted_from(alloc, low, known.len())?;
            known.push(Known {
                name: one.name,
                form,
            })?;
        }
    }
    Ok(known)
}

fn over_grid(
    alloc: Global,
    numbers: &[Numbers],
    placed: &Placed,
    grid: &[u32],
) -> Result<Standing, AllocError>
    requires { grid.now ≡ piece_counts numbers.now placed.now.loops.items }
    ensures { IfOk result (λ st. standing_of st ≡ spec.over_grid numbers.now (placed_of placed.now)) }
{
    let known = grid_forms(alloc, numbers, &placed.loops)?;
    Ok(Standing {
        known,
        starts: Vec::new(alloc),
        bound: Vec::new(alloc),
        next: grid.len(),
        steps: Vec::new(alloc),
        limits: Vec::new(alloc),
    })
}

/// What of a root function stands in its plan, over a region of one extent a variable: of its variables in the order of its
/// declaration, and of its definitions in their order, the pure one first (`bodies_of` makes them of a function), where a
/// schedule has made these loops and splits of it.
///
/// # Errors
/// `Limit` where a form leaves the limits of forms, and `Memory`.
pub fn skeleton_over(
    alloc: Global,
    variables: &[Name],
    bodies: &[Body],
    placed: &Placed,
    region: &[Extent],
) -> Result<Skeleton, SkeletonError>
    ensures { spec.Stands result (spec.skeleton_in variables.now (map spec.body_of bodies.now) (placed_of placed.now) region.now) }
{
    let numbers = loop_numbers(alloc, variables, &placed.cuts, region)?;
    let grid = piece_counts(alloc, &numbers, &placed.loops)?;
    let cuts = cuts_by_variable(alloc, &placed.cuts, variables)?;
    let mut head = over_grid(alloc, &numbers, placed, &grid)?;
    head.settle(alloc, Within::Grid, &numbers, &cuts)?;
    let nests = nests_in(alloc, variables, placed, &numbers, &head, bodies)?;
    Ok(Skeleton {
        grid,
        head: head.steps,
        nests,
        known: head.known,
        starts: head.starts,
    })
}
