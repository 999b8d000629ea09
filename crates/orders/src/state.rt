//! The crew after some steps.

ghost use Rattle.std.specs.Prelude.{◌≡◌, ◌<◌, IfOk, OnOk, is_some, count_by, length, map, replicate};
ghost use Rattle.orders.specs.Crew.{start, step, cell_at};
ghost use Rattle.orders.specs.Seen.{Snapshot, crew_of, machine_worker};
ghost use Rattle.orders.specs.Within.{AllWithin};

use crate::Job;
use crate::act::act;
use crate::table::Table;
use crate::worker::Worker;
use std::alloc::{AllocError, Global};
use std::marker::Model;
use std::mem;

/// The most workers of a crew.
const WORKERS: u8 = 64;

/// The crew after some steps: its table, and what each worker is at.
#[derive(Drop)]
pub struct State {
    table: Table,
    workers: Vec<Worker>,
}

impl Model for State {
    ghost Value = { Snapshot };

    ghost view = { λ s. record { table = s.table; workers = map machine_worker s.workers.items } };

    ghost invariant = { λ s. length s.workers.items ≡ 64 };
}

/// Workers that have no piece.
fn idle_workers(alloc: Global) -> Result<Vec<Worker>, AllocError>
    ensures { IfOk result (λ workers. workers.items ≡ replicate 64 Worker.Idle) }
{
    let mut workers = Vec::new(alloc);
    for _ in 0..WORKERS {
        workers.push(Worker::Idle)?;
    }
    Ok(workers)
}

impl State {
    /// The crew before the first step.
    pub fn new<J: Job>(alloc: Global, job: &J) -> Result<State, AllocError>
        ensures { IfOk result (λ state. crew_of state ≡ start (J.work job.now)) }
    {
        Ok(State {
            table: Table::new(alloc, job.cells(), job.pieces())?,
            workers: idle_workers(alloc)?,
        })
    }

    /// One step of a worker.
    pub fn step<J: Job>(&mut self, alloc: Global, job: &J, worker: u8) -> Result<(), AllocError>
        requires worker { worker < 64 }
        requires within { AllWithin (J.work job.now) (crew_of self.old) }
        ensures { OnOk result (crew_of self.new ≡ step (J.work job.now) (crew_of self.old) worker) }
    {
        let seat = usize::from(worker);
        let before = mem::replace(&mut self.workers[seat], Worker::Idle);
        let next = act(alloc, job, &mut self.table, before)?;
        self.workers[seat] = next;
        Ok(())
    }

    /// How many pieces were drawn.
    pub fn drawn(&self) -> u32
        ensures { result ≡ self.now.table.drawn }
    {
        self.table.drawn()
    }

    /// How many pieces are finished.
    pub fn finished(&self) -> usize
        ensures { result ≡ count_by (λ done. done) self.now.table.finished }
    {
        self.table.finished()
    }

    /// How many cells are set.
    pub fn set(&self) -> usize
        ensures { result ≡ count_by is_some self.now.table.cells }
    {
        self.table.set()
    }

    /// The value of a cell, if it is set.
    pub fn cell(&self, cell: u32) -> Option<i64>
        ensures { result ≡ cell_at self.now.table cell }
    {
        self.table.cell(cell)
    }
}
