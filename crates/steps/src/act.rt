//! One step of a worker.

ghost use Rattle.std.specs.Prelude.{◌≡◌, ◌<◌, length, vec_capacity};
ghost use Rattle.orders.specs.Crew.{Idle, Asking, Looking, Putting, act};
ghost use Rattle.orders.specs.Within.{IsWithin};
ghost use Rattle.steps.specs.Seats.{AreTargets, HasSeenTargets, HoldsTargets, IsMost, worker_at};

use crate::desk::Desk;
use crate::runs::Runs;
use crate::worker::{Place, after_asks, after_looks};
use orders::Table;
use std::alloc::Global;

/// An idle worker draws the next piece, or is done where none is left.
fn draw<J: Runs>(
    alloc: Global,
    job: &J,
    desk: &mut Desk<'_>,
    table: &mut Table,
    numbers: &mut Vec<i64>,
) -> Place
    requires desk { J.suffices job.now desk.old }
    requires room { IsMost (J.work job.now) (vec_capacity numbers.old) }
    ensures table { table.new ≡ (act (J.work job.now) table.old Idle).table }
    ensures worker { worker_at result numbers.new.items ≡ (act (J.work job.now) table.old Idle).worker }
    ensures desk { J.suffices job.now desk.new }
    ensures room { vec_capacity numbers.new ≡ vec_capacity numbers.old }
{
    let piece = table.drawn();
    if piece < job.pieces() {
        let next = after_asks(alloc, job, desk, piece, 0, numbers);
        table.draw();
        next
    } else {
        Place::Done
    }
}

/// A worker asks for the next needed piece, and goes on only where that is finished.
fn ask<J: Runs>(
    alloc: Global,
    job: &J,
    desk: &mut Desk<'_>,
    table: &Table,
    piece: u32,
    asked: usize,
    numbers: &mut Vec<i64>,
) -> Place
    requires within { IsWithin (J.work job.now) (Asking piece asked) }
    requires desk { J.suffices job.now desk.old }
    requires room { IsMost (J.work job.now) (vec_capacity numbers.old) }
    ensures worker { worker_at result numbers.new.items ≡ (act (J.work job.now) table.now (Asking piece asked)).worker }
    ensures desk { J.suffices job.now desk.new }
    ensures room { vec_capacity numbers.new ≡ vec_capacity numbers.old }
{
    if table.is_finished(job.needs(piece)[asked]) {
        after_asks(alloc, job, desk, piece, asked + 1, numbers)
    } else {
        Place::Asking { piece, asked }
    }
}

/// A worker looks at the next fetched cell.
fn look<J: Runs>(
    alloc: Global,
    job: &J,
    desk: &mut Desk<'_>,
    table: &Table,
    piece: u32,
    numbers: &mut Vec<i64>,
) -> Place
    requires within { IsWithin (J.work job.now) (Looking piece numbers.old.items) }
    requires right { HoldsTargets (J.target job.now) table.now }
    requires looked { AreTargets (J.work job.now) (J.target job.now) piece numbers.old.items }
    requires desk { J.suffices job.now desk.old }
    requires room { IsMost (J.work job.now) (vec_capacity numbers.old) }
    ensures worker { worker_at result numbers.new.items ≡ (act (J.work job.now) table.now (Looking piece numbers.old.items)).worker }
    ensures desk { J.suffices job.now desk.new }
    ensures room { vec_capacity numbers.new ≡ vec_capacity numbers.old }
{
    match table.cell(job.fetched(piece)[numbers.len()]) {
        Some(value) => {
            numbers.push_reserved(value);
            after_looks(alloc, job, desk, piece, numbers)
        }
        None => Place::Faulted,
    }
}

/// A worker puts its next own cell, or finishes its piece where all are put.
fn put<J: Runs>(job: &J, table: &mut Table, piece: u32, put: usize, numbers: &[i64]) -> Place
    requires { IsWithin (J.work job.now) (Putting piece numbers.now put) }
    ensures table { table.new ≡ (act (J.work job.now) table.old (Putting piece numbers.now put)).table }
    ensures worker { worker_at result numbers.now ≡ (act (J.work job.now) table.old (Putting piece numbers.now put)).worker }
{
    let own = job.own(piece);
    if put < own.len() {
        let cell = own.cell(put);
        match table.cell(cell) {
            None => {
                table.put(cell, numbers.get(put).copied());
                Place::Putting {
                    piece,
                    put: put + 1,
                }
            }
            Some(_) => Place::Faulted,
        }
    } else {
        table.finish(piece);
        Place::Idle
    }
}

/// One step of a worker that is at this place and holds these numbers. It takes no memory.
pub fn act<J: Runs>(
    alloc: Global,
    job: &J,
    desk: &mut Desk<'_>,
    table: &mut Table,
    place: Place,
    numbers: &mut Vec<i64>,
) -> Place
    requires within { IsWithin (J.work job.now) (worker_at place numbers.old.items) }
    requires right { HoldsTargets (J.target job.now) table.old }
    requires looked { HasSeenTargets (J.work job.now) (J.target job.now) (worker_at place numbers.old.items) }
    requires desk { J.suffices job.now desk.old }
    requires room { IsMost (J.work job.now) (vec_capacity numbers.old) }
    ensures table { table.new ≡ (act (J.work job.now) table.old (worker_at place numbers.old.items)).table }
    ensures worker { worker_at result numbers.new.items ≡ (act (J.work job.now) table.old (worker_at place numbers.old.items)).worker }
    ensures desk { J.suffices job.now desk.new }
    ensures room { vec_capacity numbers.new ≡ vec_capacity numbers.old }
{
    match place {
        Place::Idle => draw(alloc, job, desk, table, numbers),
        Place::Done => Place::Done,
        Place::Asking { piece, asked } => ask(alloc, job, desk, table, piece, asked, numbers),
        Place::Looking { piece } => look(alloc, job, desk, table, piece, numbers),
        Place::Putting { piece, put: done } => {
            put::<J>(job, table, piece, done, numbers.as_slice())
        }
        Place::Faulted => Place::Faulted,
    }
}
