//! The reduction domains of an algorithm's updates, by the functions' names.

ghost use Rattle.std.specs.Prelude.{◌≡◌, length, MatchOption, None, Some};
ghost use Rattle.algo.specs.Parts.{change_of, functions_of};
ghost use Rattle.algo.specs.View.{algorithm_of};
ghost use Rattle.soundness.specs.Given.{function_named};
ghost use Rattle.soundness.specs.Nests.Laws.{domains_of};
ghost use Rattle.tails.specs.Domains.{changes_in, ranges_held, updates_held};

use algo::scoping::same_name;
use algo::{Algo, Function, Range, Update};
use indexmap::IndexMap;

/// The updates of the function of this name, if there is one.
fn updates_named<'a>(functions: &'a IndexMap<String, Function>, name: &str) -> Option<&'a [Update]>
    ensures { updates_held result ≡ changes_in (function_named (functions_of functions.now.entries) name.now) }
{
    for k in 0..functions.len() {
        match functions.get_index(k) {
            Some((known, function)) => {
                if same_name(known.as_str(), name) {
                    return Some(&function.updates);
                }
            }
            None => unreachable!(),
        }
    }
    None
}

/// The reduction domain of a definition of the function of this name: the pure one and unknown ones have none.
pub(crate) fn domain_of<'a>(algo: &'a Algo, name: &str, definition: u64) -> Option<&'a [Range]>
    ensures { ranges_held result ≡ domains_of (algorithm_of algo.now) name.now definition }
{
    let updates = updates_named(algo.funcs(), name)?;
    let update = definition.checked_sub(1)?;
    match updates.get(update as usize) {
        Some(update) => Some(&update.ranges),
        None => None,
    }
}
