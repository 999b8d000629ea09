//! All steps of the pieces of accepted work, taken by one worker.

ghost use Rattle.std.specs.Prelude.{◌≡◌, ◌<◌, length, replicate};
ghost use Rattle.orders.specs.Crew.{go, go_from, start};
ghost use Rattle.orders.specs.Work.{all_steps, IsSound};
ghost use Rattle.steps.specs.Seats.{HaveRoom, IsReached, shown};

use crate::crew::Crew;
use crate::desk::Desk;
use crate::runs::Runs;
use std::alloc::Global;

/// So many steps of worker 0.
fn take_steps<J: Runs>(alloc: Global, job: &J, desk: &mut Desk<'_>, crew: &mut Crew, steps: usize)
    requires seats { 0 < length crew.old.workers.items }
    requires sound { ∥ IsSound (J.work job.now) (J.target job.now) ∥₁ }
    requires reached { IsReached (J.work job.now) (shown crew.old) }
    requires desk { J.suffices job.now desk.old }
    requires room { HaveRoom (J.work job.now) crew.old.workers.items }
    ensures steps { shown crew.new ≡ go_from (J.work job.now) (shown crew.old) (replicate steps 0) }
    ensures seats { length crew.new.workers.items ≡ length crew.old.workers.items }
    ensures desk { J.suffices job.now desk.new }
    ensures room { HaveRoom (J.work job.now) crew.new.workers.items }
{
    for _ in 0..steps {
        crew.step(alloc, job, desk, 0);
    }
}

/// Worker 0 alone takes all steps that the work has: for each piece it draws, asks, looks, puts and finishes. It takes no
/// memory.
pub(crate) fn finish_alone<J: Runs>(alloc: Global, job: &J, desk: &mut Desk<'_>, crew: &mut Crew)
    requires seats { 0 < length crew.old.workers.items }
    requires sound { ∥ IsSound (J.work job.now) (J.target job.now) ∥₁ }
    requires start { shown crew.old ≡ start (J.work job.now) }
    requires desk { J.suffices job.now desk.old }
    requires room { HaveRoom (J.work job.now) crew.old.workers.items }
    ensures { shown crew.new ≡ go (J.work job.now) (replicate (all_steps (J.work job.now)) 0) }
{
    for piece in 0..job.pieces() {
        let asked = job.needs(piece).len();
        let looked = job.fetched(piece).len();
        let put = job.own(piece).len();
        take_steps(alloc, job, desk, crew, 2 + asked + looked + put);
    }
}
