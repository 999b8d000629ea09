//! The nests of the turns after the first one, of a function that slides.

ghost use Rattle.std.specs.Prelude.{IfOk, Some, map};
ghost use Rattle.std.specs.Option.{option_map};
ghost use Rattle.sched.specs.Limited.{Gives};
ghost use Rattle.sched.specs.Placed.{later_seen};
ghost use Rattle.lower.specs.Slid as spec;
ghost use Rattle.regions.specs.Slid as regions;
ghost use Rattle.sched.specs.Stored.{formula_of, stored_of};

use crate::nesting::nests_over;
use blocks::ends::Needed;
use lin::{Binding, Region, Scope};
use plan::Pick;
use regions::sliding::{Sliding, new_from, new_region};
use sched::hosts::Later;
use sched::roots::Root;
use sched::stop::Stop;
use std::alloc::Global;

/// The turns after the first one of a function that holds such a region in each turn.
#[tactic(auto, using(crate::proofs::Along::later_made, crate::proofs::Along::later_nowhere, crate::proofs::Along::later_unnamed, crate::proofs::Along::later_unnested, crate::proofs::Along::later_told))]
pub(crate) fn later_of(
    alloc: Global,
    root: &Root<'_>,
    scope: &Scope,
    region: &Region,
    kept: &Region,
    sliding: &Sliding,
) -> Result<Option<Later>, Stop>
    ensures turns { IfOk result (λ found. spec.HasLater (stored_of root.now.stored.now) (map formula_of root.now.formulas.now) (Some kept.now)
        (regions.sliding_seen sliding.now) scope.now region.now (option_map later_seen found)) }
    ensures told { Gives result (option_map later_seen) (spec.later_turns (stored_of root.now.stored.now) (map formula_of root.now.formulas.now) kept.now
        (regions.sliding_seen sliding.now) scope.now region.now) }
{
    let Sliding { track, dimension } = sliding;
    let Some(span) = region.as_slice().get(*dimension) else {
        return Ok(None);
    };
    let first_new = new_from(alloc, span, track.symbol)?;
    let new = new_region(alloc, scope, region, *dimension)?;
    let mut inner = scope.copy(alloc)?;
    inner.push(Binding::LetMin(first_new.copy(alloc)?))?;
    let needed = Needed {
        scope: &inner,
        region: &new,
        kept,
    };
    let nests = nests_over(alloc, root, needed)?;
    Ok(Some(Later {
        symbol: track.symbol,
        dimension: *dimension,
        first_new,
        scope: inner,
        region: new,
        nests,
    }))
}
