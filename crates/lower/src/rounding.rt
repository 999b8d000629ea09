//! How the nests of a function with updates lie whose blocks run past the end of what is needed.

ghost use Rattle.std.specs.Prelude.{◌≡◌, IfOk, IfSome, Some, map};
ghost use Rattle.std.specs.Option.{option_map};
ghost use Rattle.algo.specs.View.{algorithm_of};
ghost use Rattle.sched.specs.Around.{bind_steps as bound_by};
ghost use Rattle.sched.specs.Limited.{Gives};
ghost use Rattle.lower.specs.Rounded as spec;
ghost use Rattle.blocks.specs.Rounded as blocks;
ghost use Rattle.sched.specs.Stored.{formula_of, stored_of};

use crate::nesting::{nests_begun, nests_over};
use algo::Algo;
use blocks::ends::Needed;
use blocks::rounded::{
    Begun, Lain, calls_itself, is_allowed, is_plain, named_over, scope_behind, unnamed,
};
use sched::roots::Root;
use sched::stop::Stop;
use std::alloc::Global;

fn lain_plainly(alloc: Global, root: &Root<'_>, needed: Needed<'_>) -> Result<Lain, Stop>
    ensures scope { IfOk result (λ lain. lain.scope ≡ bound_by needed.entry.scope.now lain.begun.lets.items) }
    ensures plain { Gives result spec.lain_seen (spec.lain_plainly (stored_of root.now.stored.now) (map formula_of root.now.formulas.now)
        needed.entry.scope.now needed.entry.region.now needed.entry.kept.now) }
{
    let nests = nests_over(alloc, root, needed)?;
    let begun = unnamed(alloc, needed.region)?;
    let scope = needed.scope.copy(alloc)?;
    Ok(Lain {
        scope,
        begun,
        nests,
    })
}

// The nests behind names; none where an index would leave what there is.
fn lain_behind(
    alloc: Global,
    algo: &Algo,
    root: &Root<'_>,
    needed: Needed<'_>,
    begun: Begun,
) -> Result<Option<Lain>, Stop>
    ensures scope { IfOk result (λ found. IfSome found (λ lain. lain.scope ≡ bound_by needed.entry.scope.now lain.begun.lets.items)) }
    ensures behind { Gives result (option_map spec.lain_seen) (spec.lain_behind (algorithm_of algo.now) (stored_of root.now.stored.now)
        (map formula_of root.now.formulas.now) needed.entry.scope.now needed.entry.region.now needed.entry.kept.now (blocks.begun_seen begun)) }
{
    let scope = scope_behind(alloc, needed.scope, &begun.lets)?;
    let nests = nests_begun(alloc, root, &scope, &begun, needed.kept)?;
    if is_allowed(alloc, algo, root, &scope, &begun, &nests, needed.region)? {
        Ok(Some(Lain {
            scope,
            begun,
            nests,
        }))
    } else {
        Ok(None)
    }
}

// The nests behind what is named, where that is told; else as where nothing is.
fn lain_named(
    alloc: Global,
    algo: &Algo,
    root: &Root<'_>,
    needed: Needed<'_>,
    begun: Option<Begun>,
) -> Result<Lain, Stop>
    ensures scope { IfOk result (λ lain. lain.scope ≡ bound_by needed.entry.scope.now lain.begun.lets.items) }
    ensures named { Gives result spec.lain_seen (spec.lain_named (algorithm_of algo.now) (stored_of root.now.stored.now)
        (map formula_of root.now.formulas.now) needed.entry.scope.now needed.entry.region.now needed.entry.kept.now
        (option_map blocks.begun_seen begun)) }
{
    let Some(begun) = begun else {
        return lain_plainly(alloc, root, needed);
    };
    match lain_behind(alloc, algo, root, needed, begun)? {
        Some(lain) => Ok(lain),
        None => lain_plainly(alloc, root, needed),
    }
}

// The nests of a function in blocks that run past the end of what is needed. Of one that calls itself in an update, what its blocks
// make is told, where names tell it and no index leaves what there is.
fn lain_rounded(
    alloc: Global,
    algo: &Algo,
    root: &Root<'_>,
    needed: Needed<'_>,
) -> Result<Lain, Stop>
    ensures scope { IfOk result (λ lain. lain.scope ≡ bound_by needed.entry.scope.now lain.begun.lets.items) }
    ensures rounded { Gives result spec.lain_seen (spec.lain_rounded (algorithm_of algo.now) (stored_of root.now.stored.now)
        (map formula_of root.now.formulas.now) needed.entry.scope.now needed.entry.region.now needed.entry.kept.now) }
{
    if !calls_itself(alloc, root)? {
        return lain_plainly(alloc, root, needed);
    }
    let begun = named_over(alloc, root, needed.scope, needed.region)?;
    lain_named(alloc, algo, root, needed, begun)
}

/// The nests of a function over a region.
pub(crate) fn lain_over(
    alloc: Global,
    algo: &Algo,
    root: &Root<'_>,
    needed: Needed<'_>,
) -> Result<Lain, Stop>
    ensures scope { IfOk result (λ lain. lain.scope ≡ bound_by needed.entry.scope.now lain.begun.lets.items) }
    ensures lain { Gives result spec.lain_seen (spec.lain_over (algorithm_of algo.now) (stored_of root.now.stored.now)
        (map formula_of root.now.formulas.now) needed.entry.scope.now needed.entry.region.now needed.entry.kept.now) }
{
    if is_plain(root) {
        lain_plainly(alloc, root, needed)
    } else {
        lain_rounded(alloc, algo, root, needed)
    }
}
