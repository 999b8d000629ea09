//! The nests of a function that is computed inside loops, over what one turn of them needs of it.

ghost use Rattle.std.specs.Prelude.{[], Some, map};
ghost use Rattle.sched.specs.Skeleton.{body_of, nest_seen};
ghost use Rattle.sched.specs.Limited.{Gives};
ghost use Rattle.sched.specs.Stored.{formula_of, stored_of};
ghost use Rattle.lower.specs.Parted as parted;
ghost use Rattle.blocks.specs.Parted as blocks_parted;

use blocks::counting::Blocks;
use blocks::ends::{Needed, frame_of};
use blocks::rounded::Begun;
use lin::{Region, Scope};
use regions::nests::bodies;
use regions::turns::{nest_in, whole_nests, with_first};
use sched::roots::Root;
use sched::stop::Stop;
use sched::{Body, Nest};
use std::alloc::Global;

// The nest of a definition of this number.
fn nest_over(
    alloc: Global,
    root: &Root<'_>,
    needed: Needed<'_>,
    blocks: &[Option<Blocks>],
    definition: usize,
    body: &Body,
) -> Result<Nest, Stop>
    ensures { Gives result nest_seen (blocks_parted.nest_over (stored_of root.now.stored.now) needed.entry.scope.now needed.entry.region.now
        needed.entry.kept.now blocks.now definition (body_of body.now)) }
{
    let (frame, lets) = frame_of(alloc, root, needed, blocks, definition)?;
    nest_in(alloc, root, needed.scope, needed.region, &frame, lets, body)
}

// The nests of the definitions from this one on.
fn nests_from(
    alloc: Global,
    root: &Root<'_>,
    needed: Needed<'_>,
    blocks: &[Option<Blocks>],
    definition: usize,
    bodies: &[Body],
) -> Result<Vec<Nest>, Stop>
    ensures { Gives result (λ v. map nest_seen v.items) (blocks_parted.nests_from (stored_of root.now.stored.now) needed.entry.scope.now
        needed.entry.region.now needed.entry.kept.now blocks.now definition (map body_of bodies.now)) }
{
    match bodies {
        [] => Ok(Vec::new(alloc)),
        [body, rest @ ..] => {
            let Some(next) = definition.checked_add(1) else {
                return Err(Stop::Memory);
            };
            let first = nest_over(alloc, root, needed, blocks, definition, body)?;
            let others = nests_from(alloc, root, needed, blocks, next, rest)?;
            Ok(with_first(first, others)?)
        }
    }
}

fn nests_with(
    alloc: Global,
    root: &Root<'_>,
    needed: Needed<'_>,
    blocks: &[Option<Blocks>],
) -> Result<Vec<Nest>, Stop>
    ensures { Gives result (λ v. map nest_seen v.items) (parted.parted_nests (stored_of root.now.stored.now) (map formula_of root.now.formulas.now)
        needed.entry.scope.now needed.entry.region.now needed.entry.kept.now blocks.now) }
{
    let bodies = bodies(alloc, root.stored, root.formulas)?;
    nests_from(alloc, root, needed, blocks, 0, &bodies)
}

// ---- over a region

/// The nests of a function's definitions over what a turn needs, in which the symbols are numbered from those around on.
pub fn nests_over(alloc: Global, root: &Root<'_>, needed: Needed<'_>) -> Result<Vec<Nest>, Stop>
    ensures { Gives result (λ v. map nest_seen v.items) (parted.nests_over (stored_of root.now.stored.now) (map formula_of root.now.formulas.now)
        needed.entry.scope.now needed.entry.region.now needed.entry.kept.now) }
{
    match root.stored.placed.cuts.as_slice() {
        [] => whole_nests(alloc, root, needed.scope, needed.region),
        [_first, ..] => nests_with(alloc, root, needed, &[]),
    }
}

/// The same behind names that stand before them.
pub(crate) fn nests_begun(
    alloc: Global,
    root: &Root<'_>,
    scope: &Scope,
    begun: &Begun,
    kept: &Region,
) -> Result<Vec<Nest>, Stop>
    ensures { Gives result (λ v. map nest_seen v.items) (parted.parted_nests (stored_of root.now.stored.now) (map formula_of root.now.formulas.now)
        scope.now begun.now.region kept.now begun.now.blocks.items) }
{
    let needed = Needed {
        scope,
        region: &begun.region,
        kept,
    };
    nests_with(alloc, root, needed, &begun.blocks)
}
