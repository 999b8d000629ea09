//! One step of a worker.

ghost use Rattle.std.specs.Prelude.{◌≡◌, ◌<◌, IfOk, OnOk, length};
ghost use Rattle.orders.specs.Crew.{Worker as MachineWorker, Idle, Asking, Looking, Putting, act};
ghost use Rattle.orders.specs.Seen.{machine_worker};
ghost use Rattle.orders.specs.Within.{IsWithin};

use crate::Job;
use crate::table::Table;
use crate::worker::{Worker, after_asks, after_looks};
use std::alloc::{AllocError, Global};

/// An idle worker draws the next piece, or is done where none is left.
fn draw<J: Job>(alloc: Global, job: &J, table: &mut Table) -> Result<Worker, AllocError>
    ensures table { OnOk result (table.new ≡ (act (J.work job.now) table.old Idle).table) }
    ensures worker { IfOk result (λ next. machine_worker next ≡ (act (J.work job.now) table.old Idle).worker) }
{
    let piece = table.drawn();
    if piece < job.pieces() {
        let next = after_asks(alloc, job, piece, 0)?;
        table.draw();
        Ok(next)
    } else {
        Ok(Worker::Done)
    }
}

/// A worker asks for the next needed piece, and goes on only where that is finished.
fn ask<J: Job>(
    alloc: Global,
    job: &J,
    table: &Table,
    piece: u32,
    asked: usize,
) -> Result<Worker, AllocError>
    requires { IsWithin (J.work job.now) (Asking piece asked) }
    ensures { IfOk result (λ next. machine_worker next ≡ (act (J.work job.now) table.now (Asking piece asked)).worker) }
{
    if table.is_finished(job.needs(piece)[asked]) {
        after_asks(alloc, job, piece, asked + 1)
    } else {
        Ok(Worker::Asking { piece, asked })
    }
}

/// A worker looks at the next fetched cell.
fn look<J: Job>(
    alloc: Global,
    job: &J,
    table: &Table,
    piece: u32,
    looked: Vec<i64>,
) -> Result<Worker, AllocError>
    requires { IsWithin (J.work job.now) (Looking piece looked.items) }
    ensures { IfOk result (λ next. machine_worker next ≡ (act (J.work job.now) table.now (Looking piece looked.items)).worker) }
{
    match table.cell(job.fetched(piece)[looked.len()]) {
        Some(value) => {
            let mut looked = looked;
            looked.push(value)?;
            after_looks(alloc, job, piece, looked)
        }
        None => Ok(Worker::Faulted),
    }
}

/// A worker puts its next own cell, or finishes its piece where all are put.
fn put<J: Job>(job: &J, table: &mut Table, piece: u32, values: Vec<i64>, put: usize) -> Worker
    requires { IsWithin (J.work job.now) (Putting piece values.items put) }
    ensures table { table.new ≡ (act (J.work job.now) table.old (Putting piece values.items put)).table }
    ensures worker { machine_worker result ≡ (act (J.work job.now) table.old (Putting piece values.items put)).worker }
{
    let own = job.own(piece);
    if put < own.len() {
        let cell = own.cell(put);
        match table.cell(cell) {
            None => {
                table.put(cell, values.get(put).copied());
                Worker::Putting {
                    piece,
                    values,
                    put: put + 1,
                }
            }
            Some(_) => Worker::Faulted,
        }
    } else {
        table.finish(piece);
        Worker::Idle
    }
}

/// One step of a worker.
pub fn act<J: Job>(
    alloc: Global,
    job: &J,
    table: &mut Table,
    worker: Worker,
) -> Result<Worker, AllocError>
    requires { IsWithin (J.work job.now) (machine_worker worker) }
    ensures table { OnOk result (table.new ≡ (act (J.work job.now) table.old (machine_worker worker)).table) }
    ensures worker { IfOk result (λ next. machine_worker next ≡ (act (J.work job.now) table.old (machine_worker worker)).worker) }
{
    match worker {
        Worker::Idle => draw(alloc, job, table),
        Worker::Done => Ok(Worker::Done),
        Worker::Asking { piece, asked } => ask(alloc, job, table, piece, asked),
        Worker::Looking { piece, looked } => look(alloc, job, table, piece, looked),
        Worker::Putting {
            piece,
            values,
            put: done,
        } => Ok(put(job, table, piece, values, done)),
        Worker::Faulted => Ok(Worker::Faulted),
    }
}
