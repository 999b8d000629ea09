//! What a worker is at.

ghost use Rattle.std.specs.Prelude.{◌≡◌, ◌<◌, ◌≤◌, IfOk, length};
ghost use Rattle.orders.specs.Crew.{after_looks, after_asks};
ghost use Rattle.orders.specs.Seen.{machine_worker};

use crate::Job;
use std::alloc::{AllocError, Global};

/// What a worker is at.
#[derive(Drop)]
pub enum Worker {
    /// Has no piece.
    Idle,
    /// Found no piece left.
    Done,
    /// Asks for the needed piece at a place.
    Asking {
        piece: u32,
        asked: usize,
    },
    /// Has looked at the first fetched cells.
    Looking {
        piece: u32,
        looked: Vec<i64>,
    },
    /// Has put the first of its values.
    Putting {
        piece: u32,
        values: Vec<i64>,
        put: usize,
    },
    /// Met a fault.
    Faulted,
}

/// Goes on after these looks: to the next one, or after the last to the private run.
pub fn after_looks<J: Job>(
    alloc: Global,
    job: &J,
    piece: u32,
    looked: Vec<i64>,
) -> Result<Worker, AllocError>
    requires { piece < (J.work job.now).pieces }
    ensures { IfOk result (λ next. machine_worker next ≡ after_looks (J.work job.now) piece looked.items) }
{
    if looked.len() != job.fetched(piece).len() {
        return Ok(Worker::Looking { piece, looked });
    }
    match job.private_run(alloc, piece, looked.as_slice())? {
        Some(values) => Ok(Worker::Putting {
            piece,
            values,
            put: 0,
        }),
        None => Ok(Worker::Faulted),
    }
}

/// Goes on after so many asks: to the next one, or after the last to the looks.
pub fn after_asks<J: Job>(
    alloc: Global,
    job: &J,
    piece: u32,
    asked: usize,
) -> Result<Worker, AllocError>
    requires { piece < (J.work job.now).pieces }
    ensures { IfOk result (λ next. machine_worker next ≡ after_asks (J.work job.now) piece asked) }
{
    if asked == job.needs(piece).len() {
        after_looks(alloc, job, piece, Vec::new(alloc))
    } else {
        Ok(Worker::Asking { piece, asked })
    }
}
