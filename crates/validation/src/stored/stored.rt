//! Whether a store is of its definition: with each load read as a call of its claim's function, the definition with the
//! calls of unstored functions put in.

ghost use Rattle.std.specs.Prelude.{◌≡◌, ◌&&◌, true, IfOk, map, take, drop, length};
ghost use Rattle.std.specs.List.{list_all};
ghost use Rattle.tree.specs.Term.{term_of, list_terms};
ghost use Rattle.algo.specs.Parts.{names_of};
ghost use Rattle.algo.specs.View.{algorithm_of};
ghost use Rattle.soundness.specs.Obligations.{is_form};
ghost use Rattle.plan.specs.View.{coordinate_of, index_of};
ghost use Rattle.soundness.specs.Outline.View.{outline_in, plan_in};
ghost use Rattle.validation.specs.Stored.Definitions.{definition_held};
ghost use Rattle.validation.specs.Stored.Sizes.{is_small};
ghost use Rattle.validation.specs.Stored.Stored.{index_is_small, is_put_in, is_left, are_left, is_defined};

use crate::stored::alike::is_read_as;
use crate::stored::defined::Defined;
use crate::stored::ground::Ground;
use crate::stored::known::{first_of, rest_of};
use crate::stored::small::is_small;
use algo::scoping::is_variable;
use plan::{Coordinate, Index};
use std::alloc::{AllocError, Global};
use subst::{SubstError, put_in};
use tree::Expr;

/// Whether an expression, its loads read as calls, is another with the calls of unstored functions put in.
fn is_put_in(
    alloc: Global,
    ground: Ground<'_, '_>,
    definition: &Expr,
    value: &Expr,
) -> Result<bool, AllocError>
    requires { is_small (term_of value.now) ≡ true }
    ensures { IfOk result (λ yes. yes ≡ is_put_in (algorithm_of ground.entry.algo.now) (plan_in ground.entry.outlined.now) (outline_in ground.entry.outlined.now) (term_of definition.now) (term_of value.now)) }
{
    match put_in(alloc, ground.algo, definition, ground.stored) {
        Ok(whole) => Ok(is_read_as(ground.outlined, value, &whole)),
        Err(SubstError::TooLarge) => Ok(false),
        Err(SubstError::Updates) => Ok(false),
        Err(SubstError::Memory) => Err(AllocError),
    }
}

/// Whether a coordinate is given as the left index asks: by a form where that is the variable alone, else by the index.
fn is_left(
    alloc: Global,
    ground: Ground<'_, '_>,
    variable: &str,
    definition: &Expr,
    index: &Index,
) -> Result<bool, AllocError>
    requires { index_is_small (index_of index.now) ≡ true }
    ensures { IfOk result (λ yes. yes ≡ is_left (algorithm_of ground.entry.algo.now) (plan_in ground.entry.outlined.now) (outline_in ground.entry.outlined.now) variable.now (term_of definition.now) (index_of index.now)) }
{
    let alone = is_variable(variable, definition);
    match index {
        Index::Form(_) => Ok(alone),
        Index::Found(expr) => {
            let put = is_put_in(alloc, ground, definition, expr)?;
            Ok(!alone && put)
        }
    }
}

/// Whether the coordinates are given as the left side of an update asks.
fn are_left(
    alloc: Global,
    ground: Ground<'_, '_>,
    variables: &[String],
    at: &[Expr],
    coordinates: &[Coordinate],
) -> Result<bool, AllocError>
    requires { list_all (λ x. index_is_small x.index) (map coordinate_of coordinates.now) ≡ true }
    ensures { IfOk result (λ yes. yes ≡ are_left (algorithm_of ground.entry.algo.now) (plan_in ground.entry.outlined.now) (outline_in ground.entry.outlined.now) (names_of variables.now) (list_terms at.now) (map coordinate_of coordinates.now)) }
{
    if variables.len() != at.len() {
        return Ok(false);
    }
    if at.len() != coordinates.len() {
        return Ok(false);
    }
    for i in 0..at.len() {
        if !is_left(
            alloc,
            ground,
            variables[i].as_str(),
            &at[i],
            &coordinates[i].index,
        )? {
            return Ok(false);
        }
    }
    Ok(true)
}

/// Whether the coordinate is a form.
fn is_form(coordinate: &Coordinate) -> bool
    ensures { result ≡ is_form (coordinate_of coordinate.now) }
{
    match &coordinate.index {
        Index::Form(_) => true,
        Index::Found(_) => false,
    }
}

/// Whether all coordinates are forms.
fn are_forms(coordinates: &[Coordinate]) -> bool
    ensures { result ≡ list_all is_form (map coordinate_of coordinates.now) }
{
    for one in coordinates {
        if !is_form(one) {
            return false;
        }
    }
    true
}

/// Whether the coordinate's expression, if it has one, is small.
fn index_is_small(coordinate: &Coordinate) -> bool
    ensures { result ≡ index_is_small (coordinate_of coordinate.now).index }
{
    match &coordinate.index {
        Index::Form(_) => true,
        Index::Found(expr) => is_small(expr),
    }
}

/// Whether the expressions of all coordinates are small.
pub fn indices_are_small(coordinates: &[Coordinate]) -> bool
    ensures { result ≡ list_all (λ x. index_is_small x.index) (map coordinate_of coordinates.now) }
{
    for one in coordinates {
        if !index_is_small(one) {
            return false;
        }
    }
    true
}

/// Whether a store of small expressions is of the definition.
pub fn is_defined(
    alloc: Global,
    ground: Ground<'_, '_>,
    defined: Defined<'_>,
    coordinates: &[Coordinate],
    value: &Expr,
) -> Result<bool, AllocError>
    requires value { is_small (term_of value.now) ≡ true }
    requires left { list_all (λ x. index_is_small x.index) (map coordinate_of coordinates.now) ≡ true }
    ensures { IfOk result (λ yes. yes ≡ is_defined (algorithm_of ground.entry.algo.now) (plan_in ground.entry.outlined.now) (outline_in ground.entry.outlined.now) (definition_held defined.entry) (map coordinate_of coordinates.now) (term_of value.now)) }
{
    match defined {
        Defined::Pure(function) => {
            let put = is_put_in(alloc, ground, &function.value, value)?;
            Ok(are_forms(coordinates) && put)
        }
        Defined::Update(function, update) => {
            let left = first_are_left(alloc, ground, &function.variables, &update.at, coordinates)?;
            let put = is_put_in(alloc, ground, &update.value, value)?;
            let rest = rest_are_forms(coordinates, function.variables.len());
            Ok(are_all(left, rest, put))
        }
    }
}

/// Whether all three hold.
fn are_all(first: bool, second: bool, third: bool) -> bool
    ensures { result ≡ (first && (second && third)) }
{
    first && second && third
}

/// Whether the coordinates behind so many are forms.
fn rest_are_forms(coordinates: &[Coordinate], count: usize) -> bool
    ensures { result ≡ list_all is_form (drop count (map coordinate_of coordinates.now)) }
{
    are_forms(rest_of(coordinates, count))
}

/// Whether the first coordinates are given as the left side of an update asks.
fn first_are_left(
    alloc: Global,
    ground: Ground<'_, '_>,
    variables: &[String],
    at: &[Expr],
    coordinates: &[Coordinate],
) -> Result<bool, AllocError>
    requires { list_all (λ x. index_is_small x.index) (map coordinate_of coordinates.now) ≡ true }
    ensures { IfOk result (λ yes. yes ≡ are_left (algorithm_of ground.entry.algo.now) (plan_in ground.entry.outlined.now) (outline_in ground.entry.outlined.now) (names_of variables.now) (list_terms at.now) (take (length (names_of variables.now)) (map coordinate_of coordinates.now))) }
{
    are_left(
        alloc,
        ground,
        variables,
        at,
        first_of(coordinates, variables.len()),
    )
}
