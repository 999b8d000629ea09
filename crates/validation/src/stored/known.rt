//! The names in a store: its variables and its calls.

ghost use Rattle.std.specs.Prelude.{◌≡◌, map, take, drop, length};
ghost use Rattle.std.specs.List.{list_all};
ghost use Rattle.tree.specs.Term.{term_of, test_of, list_terms, indices};
ghost use Rattle.algo.specs.Parts.{names_of, range_of};
ghost use Rattle.algo.specs.View.{algorithm_of};
ghost use Rattle.plan.specs.View.{coordinate_of, index_of};
ghost use Rattle.soundness.specs.Outline.View.{outline_in, plan_in};
ghost use Rattle.validation.specs.Stored.Definitions.{definition_held};
ghost use Rattle.validation.specs.Stored.Stored.{are_for, has_names, is_named, is_known, is_known_test, are_known, index_is_known, is_call};

use crate::stored::defined::{Defined, has_variables};
use crate::stored::ground::Ground;
use algo::Range;
use algo::scoping::same_name;
use plan::{Coordinate, Index};
use soundness::outline::Source;
use tree::{Cond, Expr};

/// The first coordinates, so many of them.
pub(crate) fn first_of(coordinates: &[Coordinate], count: usize) -> &[Coordinate]
    ensures { result.now ≡ take count coordinates.now }
{
    &coordinates[..count.min(coordinates.len())]
}

/// The coordinates behind so many.
pub(crate) fn rest_of(coordinates: &[Coordinate], count: usize) -> &[Coordinate]
    ensures { result.now ≡ drop count coordinates.now }
{
    &coordinates[count.min(coordinates.len())..]
}

/// Whether one of the coordinates is for this variable.
fn is_named(coordinates: &[Coordinate], name: &str) -> bool
    ensures { result ≡ is_named (map coordinate_of coordinates.now) name.now }
{
    for one in coordinates {
        if same_name(one.variable.as_str(), name) {
            return true;
        }
    }
    false
}

/// Whether the coordinates are for these variables, in their order.
fn are_for(coordinates: &[Coordinate], variables: &[String]) -> bool
    ensures { result ≡ are_for (map coordinate_of coordinates.now) (names_of variables.now) }
{
    if coordinates.len() != variables.len() {
        return false;
    }
    for i in 0..coordinates.len() {
        if !same_name(coordinates[i].variable.as_str(), variables[i].as_str()) {
            return false;
        }
    }
    true
}

/// Whether the coordinates are for the variables of these ranges, in their order.
fn are_for_ranges(coordinates: &[Coordinate], ranges: &[Range]) -> bool
    ensures { result ≡ are_for (map coordinate_of coordinates.now) (map (λ d. d.variable) (map range_of ranges.now)) }
{
    if coordinates.len() != ranges.len() {
        return false;
    }
    for i in 0..coordinates.len() {
        if !same_name(
            coordinates[i].variable.as_str(),
            ranges[i].variable.as_str(),
        ) {
            return false;
        }
    }
    true
}

/// Whether the first coordinates are for these variables.
fn first_are_for(coordinates: &[Coordinate], variables: &[String]) -> bool
    ensures { result ≡ are_for (take (length (names_of variables.now)) (map coordinate_of coordinates.now)) (names_of variables.now) }
{
    are_for(first_of(coordinates, variables.len()), variables)
}

/// Whether the coordinates behind so many are for the variables of these ranges.
fn rest_are_for(coordinates: &[Coordinate], count: usize, ranges: &[Range]) -> bool
    ensures { result ≡ are_for (drop count (map coordinate_of coordinates.now)) (map (λ d. d.variable) (map range_of ranges.now)) }
{
    are_for_ranges(rest_of(coordinates, count), ranges)
}

/// Whether the coordinates are for the definition's variables: the function's, then the update's reduction variables.
pub fn has_names(defined: Defined<'_>, coordinates: &[Coordinate]) -> bool
    ensures { result ≡ has_names (definition_held defined.entry) (map coordinate_of coordinates.now) }
{
    match defined {
        Defined::Pure(function) => are_for(coordinates, &function.variables),
        Defined::Update(function, update) => {
            first_are_for(coordinates, &function.variables)
                && rest_are_for(coordinates, function.variables.len(), &update.ranges)
        }
    }
}

/// Whether a call of this name with so many indices is of the input or of a claim of the group and of a known function, which
/// has as many.
fn is_call(ground: Ground<'_, '_>, name: &str, count: usize) -> bool
    ensures { result ≡ is_call (algorithm_of ground.entry.algo.now) (plan_in ground.entry.outlined.now) ground.entry.lines (outline_in ground.entry.outlined.now) name.now count }
{
    match ground.outlined.source(name) {
        Source::Input => ground.outlined.plan().input.extents.len() == count,
        Source::ByClaim(claim) => match ground.outlined.claim(claim) {
            Some(claim) => {
                ground.lines.has(claim.line)
                    && has_variables(ground.algo, claim.function.as_str(), count)
            }
            None => false,
        },
        Source::Unknown => false,
    }
}

/// Whether the expression's variables are the coordinates' and its calls are known.
#[cycle(known)]
pub fn is_known(ground: Ground<'_, '_>, coordinates: &[Coordinate], expr: &Expr) -> bool
    ensures { result ≡ is_known (is_named (map coordinate_of coordinates.now)) (is_call (algorithm_of ground.entry.algo.now) (plan_in ground.entry.outlined.now) ground.entry.lines (outline_in ground.entry.outlined.now)) (term_of expr.now) }
{
    match expr {
        Expr::Literal { .. } => true,
        Expr::Variable { name, .. } => is_named(coordinates, name.as_str()),
        Expr::Call { name, at, .. } => {
            is_call(ground, name.as_str(), at.len()) && are_known(ground, coordinates, at)
        }
        Expr::Negate { value, .. } | Expr::Cast { value, .. } => is_known(
            ground,
            coordinates,
            value,
        ),
        Expr::Binary { left, right, .. } => {
            is_known(ground, coordinates, left) && is_known(ground, coordinates, right)
        }
        Expr::Clamp {
            value,
            low,
            high,
            ..
        } => {
            is_known(ground, coordinates, value)
                && is_known(ground, coordinates, low)
                && is_known(ground, coordinates, high)
        }
        Expr::Select { cond, yes, no, .. } => {
            is_known_test(ground, coordinates, cond)
                && is_known(ground, coordinates, yes)
                && is_known(ground, coordinates, no)
        }
    }
}

/// The same of a condition.
#[cycle(known)]
fn is_known_test(ground: Ground<'_, '_>, coordinates: &[Coordinate], cond: &Cond) -> bool
    ensures { result ≡ is_known_test (is_named (map coordinate_of coordinates.now)) (is_call (algorithm_of ground.entry.algo.now) (plan_in ground.entry.outlined.now) ground.entry.lines (outline_in ground.entry.outlined.now)) (test_of cond.now) }
{
    match cond {
        Cond::Compare { left, right, .. } => {
            is_known(ground, coordinates, left) && is_known(ground, coordinates, right)
        }
        Cond::Not { cond, .. } => is_known_test(ground, coordinates, cond),
        Cond::All { first, second, .. } | Cond::Any { first, second, .. } => {
            is_known_test(ground, coordinates, first) && is_known_test(ground, coordinates, second)
        }
    }
}

/// The same of several expressions.
#[cycle(known)]
fn are_known(ground: Ground<'_, '_>, coordinates: &[Coordinate], at: &[Expr]) -> bool
    ensures { result ≡ are_known (is_named (map coordinate_of coordinates.now)) (is_call (algorithm_of ground.entry.algo.now) (plan_in ground.entry.outlined.now) ground.entry.lines (outline_in ground.entry.outlined.now)) (indices (list_terms at.now)) }
{
    for index in at {
        if !is_known(ground, coordinates, index) {
            return false;
        }
    }
    true
}

/// Whether the names in the coordinate's expression, if it has one, are known.
fn index_is_known(ground: Ground<'_, '_>, coordinates: &[Coordinate], index: &Index) -> bool
    ensures { result ≡ index_is_known (is_named (map coordinate_of coordinates.now)) (is_call (algorithm_of ground.entry.algo.now) (plan_in ground.entry.outlined.now) ground.entry.lines (outline_in ground.entry.outlined.now)) (index_of index.now) }
{
    match index {
        Index::Form(_) => true,
        Index::Found(expr) => is_known(ground, coordinates, expr),
    }
}

/// Whether the names in the expressions of all coordinates are known.
pub fn indices_are_known(ground: Ground<'_, '_>, coordinates: &[Coordinate]) -> bool
    ensures { result ≡ list_all (λ x. index_is_known (is_named (map coordinate_of coordinates.now)) (is_call (algorithm_of ground.entry.algo.now) (plan_in ground.entry.outlined.now) ground.entry.lines (outline_in ground.entry.outlined.now)) x.index) (map coordinate_of coordinates.now) }
{
    for one in coordinates {
        if !index_is_known(ground, coordinates, &one.index) {
            return false;
        }
    }
    true
}
