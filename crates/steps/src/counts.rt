//! How many cells a piece fetches or owns at most, and how many seats an order needs.

ghost use Rattle.std.specs.Prelude.{◌<◌, ◌≤◌, ℕ, All};
ghost use Rattle.steps.specs.Seats.{IsMost};

use crate::runs::Runs;

/// The larger of a number and a count of cells.
fn at_least(most: usize, cells: usize) -> usize
    ensures most { most ≤ result }
    ensures cells { cells ≤ result }
{
    if most < cells { cells } else { most }
}

/// How many cells a piece fetches or owns at most.
pub(crate) fn most_cells<J: Runs>(job: &J) -> usize
    ensures { IsMost (J.work job.now) result }
{
    let mut most = 0;
    for piece in 0..job.pieces() {
        let fetched = at_least(most, job.fetched(piece).len());
        most = at_least(fetched, job.own(piece).len());
    }
    most
}

/// So many seats, or more where this worker has none of these.
fn with_seat(seats: usize, worker: u8) -> usize
    ensures seats { seats ≤ result }
    ensures worker { worker < result }
{
    let seat = usize::from(worker);
    if seats <= seat { seat + 1 } else { seats }
}

/// How many seats the workers of an order need: one more than the greatest number that it names.
pub(crate) fn seats_of(order: &[u8]) -> usize
    ensures { All (λ worker. worker < result) order.now }
{
    let mut seats = 0;
    for worker in order {
        seats = with_seat(seats, *worker);
    }
    seats
}
