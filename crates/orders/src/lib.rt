//! Pieces of work over shared cells, and the crew that does them: a pure machine of workers that take single steps,
//! in any order.
//!
//! A worker draws the next piece, asks for the pieces that this one needs, looks at the cells that it fetches, runs in
//! private, puts its own cells and finishes. Of sound work every order of steps is right. `replay` runs any order.
#![tactic(auto)]

ghost use Rattle.std.specs.Prelude.{◌≡◌, ℕ, ◌<◌, ℤ, List, IfOk, All};
ghost use Rattle.orders.specs.Work.{Work, IsSound};
ghost use Rattle.orders.specs.Crew.{Crew, Faulted, go, go_from};
ghost use Rattle.orders.specs.Outcome.{EveryOrderIsRight, OneWorkerFinishes};
ghost use Rattle.orders.specs.Seen.{crew_of};

mod act;
mod cell_runs;
mod job;
mod lists;
mod needs;
mod owners;
mod state;
mod table;
mod worker;

pub use cell_runs::{CellRun, CellRuns, run_length};
pub use job::Job;
pub use lists::{ListFault, Piece, first_fault};
pub use needs::first_unserved;
pub use owners::{claim_cell, first_gap, owners_of};
pub use state::State;
use std::alloc::{AllocError, Global};
pub use table::Table;

/// Of sound work, every order of steps is clean and right, and one worker alone finishes it.
pub fn every_order_is_right()
    ensures right { (work : Work) (target : ℕ → ℤ) → IsSound work target → EveryOrderIsRight work target }
    ensures finishes { (work : Work) (target : ℕ → ℤ) → IsSound work target → OneWorkerFinishes work }
{}

/// A worker that met a fault is faulted in every later crew.
pub fn faults_stay()
    ensures { (work : Work) (crew : Crew) (order : List ℕ) (w : ℕ) → crew.workers w ≡ Faulted → (go_from work crew order).workers w ≡ Faulted }
{}

/// The crew after one step of each worker that the order names, one after another. Workers are numbered from 0 to 63.
pub fn replay<J: Job>(alloc: Global, job: &J, order: &[u8]) -> Result<State, AllocError>
    requires { All (λ worker. worker < 64) order.now }
    ensures { IfOk result (λ state. crew_of state ≡ go (J.work job.now) order.now) }
{
    let mut state = State::new(alloc, job)?;
    for worker in order {
        state.step(alloc, job, *worker)?;
    }
    Ok(state)
}
