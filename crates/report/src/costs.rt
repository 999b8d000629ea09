//! What each stored function of a checked plan costs.

ghost use Rattle.std.specs.Prelude.{◌≡◌, ◌<◌, IfOk, filter, length, pos, slice_get, sum_by};
ghost use Rattle.std.specs.List.{list_any};
ghost use Rattle.meaning.specs.Names.{same_name};
ghost use Rattle.plan.specs.Certificate.Cells.{grid_point, group_pieces, piece_count, pieces};
ghost use Rattle.plan.specs.Lists.{list_groups};
ghost use Rattle.plan.specs.View.{group_of, plan_of};
ghost use Rattle.report.specs.Memory.{has_function, private_cells};
ghost use Rattle.checked_plan.specs.View.{algorithm_checked, certificate_checked, plan_checked};
ghost use Rattle.report.specs.Costs.{capped, row, rows, up_to};
ghost use Rattle.report.specs.Deeds.{deeds, deeds_in};
ghost use Rattle.report.specs.Grid.{grid_bindings, point_binding, IsPieceTally};
ghost use Rattle.report.specs.Subject.{counted_of};
ghost use Rattle.report.specs.View.{row_of, rows_of};

use crate::counting::count;
use crate::known::Binding;
use crate::memory::{allocates, places_in};
use crate::subject::{Deed, Subject};
use checked_plan::Checked;
use headline::laws::pieces_are_numbered;
use piece::laws::pieces_are_narrow;
use piece::places::place_of;
use plan::{Group, Plan};
use std::alloc::{AllocError, Global};

/// What a stored function costs. A number above the greatest `u64` is given as that.
#[derive(Drop)]
pub struct FunctionCost {
    /// The function's name.
    pub name: String,
    /// How many stores the pieces make, over all its definitions.
    pub stores: u64,
    /// How many places its buffers have, each buffer counted once.
    pub private: u64,
    /// How many of its cells the pieces fetch.
    pub fetched: u64,
    /// How many pieces its group has, 0 where it has no group.
    pub pieces: u64,
}

/// What a plan costs: its stored functions, in the order of their declaration.
#[derive(Drop)]
pub struct Costs {
    pub functions: Vec<FunctionCost>,
}

impl Costs {
    ghost use Rattle.report.specs.Costs.{all_stores};

    /// How many stores the pieces make, of all functions together. A number above the greatest `u64` is given as that.
    #[tactic(auto, using(crate::proofs::Totals::more_stores, crate::proofs::Sums::capped_sum))]
    pub fn stores(&self) -> u64
        ensures { result ≡ all_stores (rows_of self.now) }
    {
        let mut count: u64 = 0;
        for cost in &self.functions {
            count = count.saturating_add(cost.stores);
        }
        count
    }
}

/// What is known of a symbol of a grid that has this value.
fn point_binding(symbol: usize, value: u32) -> Binding
    ensures { result ≡ point_binding symbol (pos value) }
{
    let value = i64::from(value);
    Binding {
        symbol,
        low: value,
        high: value,
        first: false,
        later: true,
    }
}

/// What is known of the symbols at the point of a grid that so many come before. The first symbol runs fastest.
#[tactic(auto, using(crate::proofs::Grids::begun, crate::proofs::Grids::some_there, crate::proofs::Grids::ended))]
fn known_at(alloc: Global, grid: &[u64], rank: u32) -> Result<Vec<Binding>, AllocError>
    requires { rank < piece_count grid.now }
    ensures { IfOk result (λ known. known.items ≡ grid_bindings 0 (grid_point grid.now rank)) }
{
    let mut known = Vec::new(alloc);
    let mut rest = u64::from(rank);
    for extent in grid {
        let coordinate = (rest % *extent) as u32;
        known.push(point_binding(known.len(), coordinate))?;
        rest /= *extent;
    }
    Ok(known)
}

/// How often a group's piece stores or fetches, as far as is enough.
fn count_at(
    alloc: Global,
    subject: &Subject<'_>,
    group: &Group,
    rank: u32,
) -> Result<u64, AllocError>
    requires { rank < group_pieces (group_of group.now) }
    ensures { IfOk result (IsPieceTally (counted_of subject.now) (group_of group.now) rank) }
{
    let known = known_at(alloc, &group.grid, rank)?;
    match count(alloc, subject, &group.body, &known)? {
        Some(count) => Ok(count),
        None => unreachable!(),
    }
}

/// How often a piece stores or fetches the function's cells, as far as is enough.
fn count_in_piece(
    alloc: Global,
    checked: &Checked<'_>,
    function: &str,
    deed: Deed,
    piece: u32,
    enough: u64,
) -> Result<u64, AllocError>
    requires { piece < length (pieces (plan_checked checked.now)) }
    ensures { IfOk result (λ n. up_to enough n ≡ up_to enough (deeds_in (plan_checked checked.now) (certificate_checked checked.now) deed function.now (slice_get (pieces (plan_checked checked.now)) piece))) }
{
    pieces_are_numbered();
    pieces_are_narrow();
    let plan = checked.plan();
    let place = place_of(plan, piece);
    let group = &plan.groups[place.group];
    let subject = Subject {
        deed,
        function,
        groups: &plan.groups,
        body: &group.body,
        enough,
    };
    count_at(alloc, &subject, group, place.rank)
}

/// How often all pieces do, as far as is enough: behind pieces that do it so often none is looked at.
pub(crate) fn count_as_far(
    alloc: Global,
    checked: &Checked<'_>,
    function: &str,
    deed: Deed,
    enough: u64,
) -> Result<u64, AllocError>
    ensures { IfOk result (λ n. up_to enough n ≡ up_to enough (deeds (plan_checked checked.now) (certificate_checked checked.now) deed function.now)) }
{
    let mut total: u64 = 0;
    for piece in 0..checked.pieces() {
        if enough <= total {
            return Ok(total);
        }
        let more = count_in_piece(alloc, checked, function, deed, piece as u32, enough)?;
        total = total.saturating_add(more);
    }
    Ok(total)
}

/// How often all pieces do. A number above the greatest `u64` is given as that.
fn count_in_pieces(
    alloc: Global,
    checked: &Checked<'_>,
    function: &str,
    deed: Deed,
) -> Result<u64, AllocError>
    ensures { IfOk result (λ n. n ≡ capped (deeds (plan_checked checked.now) (certificate_checked checked.now) deed function.now)) }
{
    let count = count_as_far(alloc, checked, function, deed, u64::MAX)?;
    Ok(count)
}

/// The private cells of a function's buffers.
#[tactic(auto, using(crate::proofs::Places::more_private, crate::proofs::Sums::capped_sum))]
fn private_cells(plan: &Plan, function: &str) -> u64
    ensures { result ≡ capped (private_cells (plan_of plan.now) function.now) }
{
    let mut count: u64 = 0;
    for group in &plan.groups {
        count = count.saturating_add(places_in(&group.body, function));
    }
    count
}

/// How many points a grid has.
#[tactic(auto, using(crate::proofs::Sums::saturated_front))]
pub(crate) fn point_count(grid: &[u64]) -> u64
    ensures { result ≡ capped (piece_count grid.now) }
{
    match grid {
        [] => 1,
        [extent, rest @ ..] => point_count(rest).saturating_mul(*extent),
    }
}

/// How many pieces the groups of a function have.
#[tactic(auto, using(crate::proofs::Places::more_pieces, crate::proofs::Places::no_pieces, crate::proofs::Sums::capped_sum))]
fn pieces_of(groups: &[Group], function: &str) -> u64
    ensures { result ≡ capped (sum_by group_pieces (filter (λ g. same_name g.function function.now) (list_groups groups.now))) }
{
    let mut count: u64 = 0;
    for group in groups {
        if group.function.as_str() == function {
            count = count.saturating_add(point_count(&group.grid));
        }
    }
    count
}

/// Whether a group is the function's, or has a buffer of it.
fn has_function(group: &Group, function: &str) -> bool
    ensures { result ≡ has_function function.now (group_of group.now) }
{
    group.function.as_str() == function || allocates(&group.body, function)
}

/// Whether the plan has a group or a buffer of the function.
#[tactic(auto, using(crate::proofs::Places::group_here, crate::proofs::Places::group_later))]
pub(crate) fn is_stored(groups: &[Group], function: &str) -> bool
    ensures { result ≡ list_any (has_function function.now) (list_groups groups.now) }
{
    for group in groups {
        if has_function(group, function) {
            return true;
        }
    }
    false
}

/// What a function costs.
fn cost_of(alloc: Global, checked: &Checked<'_>, function: &str) -> Result<FunctionCost, AllocError>
    ensures { IfOk result (λ cost. row_of cost ≡ row (plan_checked checked.now) (certificate_checked checked.now) function.now) }
{
    let plan = checked.plan();
    Ok(FunctionCost {
        name: String::from_str(alloc, function)?,
        stores: count_in_pieces(alloc, checked, function, Deed::Store)?,
        private: private_cells(plan, function),
        fetched: count_in_pieces(alloc, checked, function, Deed::Fetch)?,
        pieces: pieces_of(&plan.groups, function),
    })
}

/// What each stored function of a checked plan costs: those of which the plan has a group or a buffer, in the order of their
/// declaration. A number above the greatest `u64` is given as that.
///
/// A loop is counted by multiplying where its turns are seen to count the same, and parted where not.
///
/// # Errors
/// `AllocError` where memory runs out.
pub fn cost(alloc: Global, checked: &Checked<'_>) -> Result<Costs, AllocError>
    ensures { IfOk result (λ costs. rows_of costs ≡ rows (algorithm_checked checked.now) (plan_checked checked.now) (certificate_checked checked.now)) }
{
    let mut functions = Vec::new(alloc);
    let all = checked.algo().funcs();
    for number in 0..all.len() {
        let Some((name, _)) = all.get_index(number) else {
            unreachable!();
        };
        if is_stored(&checked.plan().groups, name.as_str()) {
            functions.push(cost_of(alloc, checked, name.as_str())?)?;
        }
    }
    Ok(Costs { functions })
}
