//! What stands for the calls of functions that are not stored.

ghost use Rattle.std.specs.Prelude.{◌≡◌, length, map, MatchResult};
ghost use Rattle.std.specs.Option.{option_copied};
ghost use Rattle.meaning.specs.Inlining.PutIn.{has_updates as are_updates};
ghost use Rattle.algo.specs.Parts.{function_of, change_of};
ghost use Rattle.subst.specs.Limits.{IsMemory};
ghost use Rattle.subst.specs.Table.{found, AreBodies, IsBodyOf, IsTableOf};

use crate::built::Built;
use crate::error::SubstError;
use crate::putting::put_within;
use crate::updates::calls_updates;
use algo::{Function, Update};
use indexmap::IndexMap;
use std::alloc::Global;

/// A function that is not stored, and what stands for its calls.
#[derive(Drop)]
pub struct Body<'a> {
    pub name: &'a String,
    pub function: &'a Function,
    /// Its pure definition with the calls in it put in, or nothing where that passes the limits.
    pub value: Option<Built>,
    /// Whether it has updates, or its pure definition comes to a function that has updates and is not stored.
    pub updates: bool,
}

/// The last body of the name.
pub fn body_of_name<'a, 'b>(bodies: &'b [Body<'a>], name: &str) -> Option<&'b Body<'a>>
    ensures { option_copied result ≡ found bodies.now name.now }
{
    let mut last = None;
    for body in bodies {
        if body.name.as_str() == name {
            last = Some(body);
        }
    }
    last
}

/// The bodies of all functions that are not stored, in their order.
pub fn bodies_of<'a>(
    alloc: Global,
    functions: &'a IndexMap<String, Function>,
    stored: &[bool],
) -> Result<Vec<Body<'a>>, SubstError>
    requires { length stored.now ≡ length functions.now.entries }
    ensures { MatchResult result (λ v. IsTableOf functions.now.entries stored.now v.items) (λ error. IsMemory error) }
{
    let mut bodies = Vec::new(alloc);
    for k in 0..stored.len() {
        if !stored[k] {
            match functions.get_index(k) {
                Some((name, function)) => {
                    let body = body_of(alloc, &bodies, name, function)?;
                    bodies.push(body)?;
                }
                None => unreachable!(),
            }
        }
    }
    Ok(bodies)
}

// The body of a function over the bodies of those before it.
fn body_of<'a>(
    alloc: Global,
    before: &[Body<'a>],
    name: &'a String,
    function: &'a Function,
) -> Result<Body<'a>, SubstError>
    requires { AreBodies before.now }
    ensures { MatchResult result (IsBodyOf before.now (function_of (name.now, function.now))) (λ error. IsMemory error) }
{
    let value = put_within(alloc, before, &function.value)?;
    let updates = has_updates(&function.updates) || calls_updates(before, &function.value);
    Ok(Body {
        name,
        function,
        value,
        updates,
    })
}

// Whether there are updates.
fn has_updates(updates: &[Update]) -> bool
    ensures { result ≡ are_updates (map change_of updates.now) }
{
    !updates.is_empty()
}
