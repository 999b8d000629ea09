//! The loops, lets and guards of a stored function's definitions over its region.

ghost use Rattle.std.specs.Prelude.{◌≡◌, ◌++◌, IfOk, OnOk, map, drop};
ghost use Rattle.std.specs.Option.{option_map};
ghost use Rattle.tree.specs.Term.{term_of};
ghost use Rattle.algo.specs.Parts.{change_of, range_of};
ghost use Rattle.sched.specs.Placing.{placed_of};
ghost use Rattle.sched.specs.Skeleton.{body_of, skeleton_in, skeleton_seen};
ghost use Rattle.sched.specs.Stored.{formula_of, stored_of};
ghost use Rattle.sched.specs.Limited.{Gives};
ghost use Rattle.regions.specs.Regions as spec;

use algo::Range;
use plan::Kind;
use sched::definitions::{Formula, Stored};
use sched::scopes::ranges_of;
use sched::stop::Stop;
use sched::{Body, Extent, Placed, Skeleton, Turning, skeleton_over};
use std::alloc::{AllocError, Global};
use tree::Expr;
use tree::token::Name;

// Adds the places from this one on at which a left index is not the variable.
fn add_missing(place: usize, at: &[Option<Expr>], found: &mut Vec<usize>) -> Result<(), AllocError>
    ensures { OnOk result (found.new.items ≡ found.old.items ++ spec.missing_from place (map (option_map term_of) at.now)) }
{
    match at {
        [] => Ok(()),
        [index, rest @ ..] => {
            let Some(next) = place.checked_add(1) else {
                return Err(AllocError);
            };
            if index.is_some() {
                found.push(place)?;
            }
            add_missing(next, rest, found)
        }
    }
}

// The loop of a reduction variable, by this name.
fn turning(range: &Range, name: &Name) -> Turning
    ensures { result ≡ spec.turning (range_of range.now) name.now }
{
    Turning {
        name: *name,
        low: i64::from(range.low),
        last: i64::from(range.high),
        kind: Kind::Serial,
    }
}

// Adds the loops of reduction variables, by these names.
fn add_turnings(
    ranges: &[Range],
    names: &[Name],
    found: &mut Vec<Turning>,
) -> Result<(), AllocError>
    ensures { OnOk result (found.new.items ≡ found.old.items ++ spec.turnings (map range_of ranges.now) names.now) }
{
    match ranges {
        [] => Ok(()),
        [range, others @ ..] => match names {
            [] => Ok(()),
            [name, rest @ ..] => {
                found.push(turning(range, name))?;
                add_turnings(others, rest, found)
            }
        },
    }
}

fn rest_of(names: &[Name], from: usize) -> &[Name]
    ensures { result.now ≡ drop from names.now }
{
    match names.get(from..) {
        Some(rest) => rest,
        None => &[],
    }
}

// What a nest has to know of a definition, whose reduction variables have these names.
fn body(
    alloc: Global,
    ranges: &[Range],
    names: &[Name],
    formula: &Formula,
) -> Result<Body, AllocError>
    ensures { IfOk result (λ body. body_of body ≡ spec.body_by (map range_of ranges.now) names.now (formula_of formula.now)) }
{
    let mut missing = Vec::new(alloc);
    add_missing(0, &formula.at, &mut missing)?;
    let mut turnings = Vec::new(alloc);
    add_turnings(ranges, names, &mut turnings)?;
    Ok(Body {
        missing,
        ranges: turnings,
    })
}

// Adds what nests have to know of the definitions from this number on, whose reduction variables have the next of these names.
#[tactic(auto, using(sched::proofs::Places::pushed, crate::proofs::Places::range_count))]
fn add_bodies(
    alloc: Global,
    stored: &Stored<'_>,
    definition: usize,
    names: &[Name],
    formulas: &[Formula],
    found: &mut Vec<Body>,
) -> Result<(), AllocError>
    ensures { OnOk result (map body_of found.new.items ≡ map body_of found.old.items ++ spec.bodies_from
        (map change_of stored.now.function.now.updates.items) definition names.now (map formula_of formulas.now)) }
{
    match formulas {
        [] => Ok(()),
        [formula, others @ ..] => {
            let Some(next) = definition.checked_add(1) else {
                return Err(AllocError);
            };
            let ranges = ranges_of(stored.function, definition);
            found.push(body(alloc, ranges, names, formula)?)?;
            add_bodies(
                alloc,
                stored,
                next,
                rest_of(names, ranges.len()),
                others,
                found,
            )
        }
    }
}

/// What the nests of a function's definitions have to know of them.
pub fn bodies(
    alloc: Global,
    stored: &Stored<'_>,
    formulas: &[Formula],
) -> Result<Vec<Body>, AllocError>
    ensures { IfOk result (λ v. map body_of v.items ≡ spec.bodies_from
        (map change_of stored.now.function.now.updates.items) 0 stored.now.subject.now.reductions.items (map formula_of formulas.now)) }
{
    let mut found = Vec::new(alloc);
    add_bodies(
        alloc,
        stored,
        0,
        &stored.subject.reductions,
        formulas,
        &mut found,
    )?;
    Ok(found)
}

// The loops, lets and guards of nests over a region.
#[tactic(auto, using(crate::proofs::Stops::skeleton_gives))]
fn laid_out(
    alloc: Global,
    variables: &[Name],
    bodies: &[Body],
    placed: &Placed,
    region: &[Extent],
) -> Result<Skeleton, Stop>
    ensures { Gives result skeleton_seen (skeleton_in variables.now (map body_of bodies.now) (placed_of placed.now) region.now) }
{
    match skeleton_over(alloc, variables, bodies, placed, region) {
        Ok(skeleton) => Ok(skeleton),
        Err(error) => Err(Stop::from(error)),
    }
}

/// What of a stored function stands in its plan, over a region.
pub fn skeleton_of(
    alloc: Global,
    stored: &Stored<'_>,
    formulas: &[Formula],
    region: &[Extent],
) -> Result<Skeleton, Stop>
    ensures { Gives result skeleton_seen (spec.skeleton_of (stored_of stored.now) (map formula_of formulas.now) region.now) }
{
    let bodies = bodies(alloc, stored, formulas)?;
    laid_out(
        alloc,
        &stored.subject.variables,
        &bodies,
        stored.placed,
        region,
    )
}
