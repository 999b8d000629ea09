//! What a worker is at.

ghost use Rattle.std.specs.Prelude.{◌≡◌, ◌<◌, length, vec_capacity};
ghost use Rattle.orders.specs.Crew.{after_asks, after_looks};
ghost use Rattle.steps.specs.Seats.{AreTargets, IsMost, worker_at};

use crate::desk::Desk;
use crate::runs::Runs;
use std::alloc::Global;

/// What a worker is at, beside the numbers that it holds.
#[derive(Clone, Copy, Drop)]
pub enum Place {
    /// Has no piece.
    Idle,
    /// Found no piece left.
    Done,
    /// Asks for the needed piece at a place.
    Asking { piece: u32, asked: usize },
    /// Holds the values of the first fetched cells.
    Looking { piece: u32 },
    /// Holds the values of its own cells, of which it has put the first.
    Putting { piece: u32, put: usize },
    /// Met a fault.
    Faulted,
}

/// A worker, and room for the numbers that it holds: those that it has looked at, or those that it puts.
#[derive(Drop)]
pub struct Worker {
    pub place: Place,
    pub numbers: Vec<i64>,
}

/// Goes on after these looks: to the next one, or after the last to the private run.
pub fn after_looks<J: Runs>(
    alloc: Global,
    job: &J,
    desk: &mut Desk<'_>,
    piece: u32,
    numbers: &mut Vec<i64>,
) -> Place
    requires desk { J.suffices job.now desk.old }
    requires piece { piece < (J.work job.now).pieces }
    requires looked { AreTargets (J.work job.now) (J.target job.now) piece numbers.old.items }
    requires room { IsMost (J.work job.now) (vec_capacity numbers.old) }
    ensures worker { worker_at result numbers.new.items ≡ after_looks (J.work job.now) piece numbers.old.items }
    ensures desk { J.suffices job.now desk.new }
    ensures room { vec_capacity numbers.new ≡ vec_capacity numbers.old }
{
    if numbers.len() != job.fetched(piece).len() {
        return Place::Looking { piece };
    }
    job.run(alloc, desk, piece, numbers);
    Place::Putting { piece, put: 0 }
}

/// Goes on after so many asks: to the next one, or after the last to the looks.
pub fn after_asks<J: Runs>(
    alloc: Global,
    job: &J,
    desk: &mut Desk<'_>,
    piece: u32,
    asked: usize,
    numbers: &mut Vec<i64>,
) -> Place
    requires desk { J.suffices job.now desk.old }
    requires piece { piece < (J.work job.now).pieces }
    requires room { IsMost (J.work job.now) (vec_capacity numbers.old) }
    ensures worker { worker_at result numbers.new.items ≡ after_asks (J.work job.now) piece asked }
    ensures desk { J.suffices job.now desk.new }
    ensures room { vec_capacity numbers.new ≡ vec_capacity numbers.old }
{
    if asked == job.needs(piece).len() {
        numbers.clear();
        after_looks(alloc, job, desk, piece, numbers)
    } else {
        Place::Asking { piece, asked }
    }
}
