//! A crew that has all the memory of its steps.

ghost use Rattle.std.specs.Prelude.{◌≡◌, ◌<◌, All, IfOk, length};
ghost use Rattle.orders.specs.Crew.{go, start, step};
ghost use Rattle.orders.specs.Work.{IsSound};
ghost use Rattle.steps.specs.Seats.{HaveRoom, IsIdle, IsMost, IsReached, shown};

use crate::act::act;
use crate::desk::Desk;
use crate::runs::Runs;
use crate::worker::{Place, Worker};
use orders::Table;
use std::alloc::{AllocError, Global};

/// A table, and workers in the first seats, each with room for the numbers that it holds.
#[derive(Drop)]
pub(crate) struct Crew {
    pub(crate) table: Table,
    pub(crate) workers: Vec<Worker>,
}

/// So many workers who have no piece, each with room for so many numbers.
fn idle_workers(alloc: Global, seats: usize, most: usize) -> Result<Vec<Worker>, AllocError>
    ensures seats { IfOk result (λ workers. length workers.items ≡ seats) }
    ensures idle { IfOk result (λ workers. All (IsIdle most) workers.items) }
{
    let mut workers = Vec::with_capacity(alloc, seats)?;
    for _ in 0..seats {
        let numbers = Vec::with_capacity(alloc, most)?;
        workers.push(Worker {
            place: Place::Idle,
            numbers,
        })?;
    }
    Ok(workers)
}

impl Crew {
    /// The crew before the first step, of so many workers, where no piece fetches or owns more than so many cells.
    pub(crate) fn new<J: Runs>(
        alloc: Global,
        job: &J,
        seats: usize,
        most: usize,
    ) -> Result<Crew, AllocError>
        requires { IsMost (J.work job.now) most }
        ensures start { IfOk result (λ crew. shown crew ≡ start (J.work job.now)) }
        ensures seats { IfOk result (λ crew. length crew.workers.items ≡ seats) }
        ensures room { IfOk result (λ crew. HaveRoom (J.work job.now) crew.workers.items) }
    {
        let workers = idle_workers(alloc, seats, most)?;
        let table = Table::new(alloc, job.cells(), job.pieces())?;
        Ok(Crew { table, workers })
    }

    /// One step of a worker. It takes no memory.
    pub(crate) fn step<J: Runs>(&mut self, alloc: Global, job: &J, desk: &mut Desk<'_>, worker: u8)
        requires worker { worker < length self.old.workers.items }
        requires sound { ∥ IsSound (J.work job.now) (J.target job.now) ∥₁ }
        requires reached { IsReached (J.work job.now) (shown self.old) }
        requires desk { J.suffices job.now desk.old }
        requires room { HaveRoom (J.work job.now) self.old.workers.items }
        ensures step { shown self.new ≡ step (J.work job.now) (shown self.old) worker }
        ensures desk { J.suffices job.now desk.new }
        ensures seats { length self.new.workers.items ≡ length self.old.workers.items }
        ensures room { HaveRoom (J.work job.now) self.new.workers.items }
    {
        let place = usize::from(worker);
        let seat = &mut self.workers[place];
        seat.place = act(
            alloc,
            job,
            desk,
            &mut self.table,
            seat.place,
            &mut seat.numbers,
        );
    }

    /// All steps of an order. It takes no memory.
    pub(crate) fn go<J: Runs>(&mut self, alloc: Global, job: &J, desk: &mut Desk<'_>, order: &[u8])
        requires workers { All (λ worker. worker < length self.old.workers.items) order.now }
        requires sound { ∥ IsSound (J.work job.now) (J.target job.now) ∥₁ }
        requires start { shown self.old ≡ start (J.work job.now) }
        requires desk { J.suffices job.now desk.old }
        requires room { HaveRoom (J.work job.now) self.old.workers.items }
        ensures { shown self.new ≡ go (J.work job.now) order.now }
    {
        for worker in order {
            self.step(alloc, job, desk, *worker);
        }
    }
}
