//! What the nests of a function's definitions have to know of them.

ghost use Rattle.std.specs.Prelude.{◌≡◌, IfOk, map, string_bytes, true};
ghost use Rattle.std.specs.List.{list_all};
ghost use Rattle.algo.specs.Parts.{change_of, names_of, range_of};
ghost use Rattle.sched.specs.Subjects.{has_range_names, is_name, range_names};
ghost use Rattle.sched.specs.Skeleton as spec;

use crate::nest::{Body, Turning};
use crate::subject::{lacks, name_of};
use algo::{Function, Range, Update};
use plan::Kind;
use std::alloc::{AllocError, Global};

fn range_turning(range: &Range) -> Turning
    requires { is_name (string_bytes range.now.variable) ≡ true }
    ensures { result ≡ spec.range_turning (range_of range.now) }
{
    Turning {
        name: name_of(range.variable.as_str()),
        low: i64::from(range.low),
        last: i64::from(range.high),
        kind: Kind::Serial,
    }
}

#[tactic(auto, using(crate::proofs::Functions::range_here, crate::proofs::Functions::range_later))]
fn range_turnings(alloc: Global, ranges: &[Range]) -> Result<Vec<Turning>, AllocError>
    requires { list_all is_name (range_names (map range_of ranges.now)) ≡ true }
    ensures { IfOk result (λ v. v.items ≡ map spec.range_turning (map range_of ranges.now)) }
{
    let mut turnings = Vec::new(alloc);
    for range in ranges {
        turnings.push(range_turning(range))?;
    }
    Ok(turnings)
}

// The dimensions that it has no pure variable for.
#[tactic(auto, using(crate::proofs::Updates::missing_next, crate::proofs::Updates::missing_not))]
fn missing(alloc: Global, update: &Update, variables: &[String]) -> Result<Vec<usize>, AllocError>
    ensures { IfOk result (λ v. v.items ≡ spec.missing_from (change_of update.now) 0 (map string_bytes variables.now)) }
{
    let mut found = Vec::new(alloc);
    for (dimension, variable) in variables.iter().enumerate() {
        if lacks(update, dimension, variable.as_str()) {
            found.push(dimension)?;
        }
    }
    Ok(found)
}

fn update_body(alloc: Global, variables: &[String], update: &Update) -> Result<Body, AllocError>
    requires { has_range_names (change_of update.now) ≡ true }
    ensures { IfOk result (λ body. spec.body_of body ≡ spec.change_body (map string_bytes variables.now) (change_of update.now)) }
{
    let missing = missing(alloc, update, variables)?;
    let ranges = range_turnings(alloc, &update.ranges)?;
    Ok(Body { missing, ranges })
}

/// What the nests of a function's definitions have to know of them: of the pure one first, which has all its variables, and then
/// of each update. Its reduction variables have names that a schedule's text could give (`has_names`).
#[tactic(auto, using(crate::proofs::Functions::update_here, crate::proofs::Functions::update_later, crate::proofs::Updates::body_next))]
pub fn bodies_of(alloc: Global, function: &Function) -> Result<Vec<Body>, AllocError>
    requires { list_all has_range_names (map change_of function.now.updates.items) ≡ true }
    ensures { IfOk result (λ v. map spec.body_of v.items ≡ spec.bodies_in (names_of function.now.variables.items) (map change_of function.now.updates.items)) }
{
    let mut bodies = Vec::new(alloc);
    bodies.push(Body {
        missing: Vec::new(alloc),
        ranges: Vec::new(alloc),
    })?;
    for update in &function.updates {
        let body = update_body(alloc, &function.variables, update)?;
        bodies.push(body)?;
    }
    Ok(bodies)
}
