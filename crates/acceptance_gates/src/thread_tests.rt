//! Two threads of the caller that work at one board.

ghost use Rattle.std.specs.Prelude.{◌≡◌, ◌++◌, ◌∷◌, [], length, All, IfSome};
ghost use Rattle.algo.specs.View.{IsFor};
ghost use Rattle.board.specs.Views.{IsIdle};
ghost use Rattle.crew.specs.Crews.{ArePieces, IsDeskFor};
ghost use Rattle.crew.specs.Opening.Layouts.{layout_of, values_of};

use crate::example_tests::{TRI, TRI_PICTURE, algo_of, checked_of, inputs_of, shows};
use crate::seat_tests::{board_of, cells_of, desk_of};
use crate::watching_tests::Meeting;
use crate::worker::Worker;
use algo::Inputs;
use board::{Board, BoardSeat, Run};
use checked_plan::Checked;
use checked_plan::output::PlanCells;
use crew::{Gate, Pieces, work};
use std::alloc::Global;
use std::marker::Brand;
use std::process::Abort;
use std::sync::Wait;
use std::test::Fail;
use std::thread::{Threads, for_each_mut};

// Pieces that threads share.
trait Held {
    ghost use Rattle.crew.specs.declared.values.Pieces.{Pieces as PiecesOfPlan};

    ghost held: { Self → PiecesOfPlan };

    // These pieces.
    fn pieces(&self) -> &Pieces<'_>
        ensures { result.now ≡ held self.now };
}

impl Held for Pieces<'_> {
    ghost held = { λ p. p };

    fn pieces(&self) -> &Pieces<'_> {
        self
    }
}

// One worker's turn at the board.
fn work_at<J: Run, P: Held, R: Wait, G: Gate>(
    rt: &R,
    alloc: Global,
    board: &Board<J>,
    shared: &P,
    gate: &G,
    worker: &mut Worker<'_>,
)
    requires pieces { ArePieces J.layout J.values (P.held shared.now) }
    requires ready { (worker.old.seat.board ≡ board.now) × (IsIdle worker.old.seat.view × IsDeskFor J.layout (P.held shared.now) worker.old.desk) }
    ensures { (worker.new.seat.board ≡ board.now) × IsIdle worker.new.seat.view }
{
    work(
        rt,
        alloc,
        board,
        &mut worker.seat,
        shared.pieces(),
        &mut worker.desk,
        gate,
    );
}

// The workers' turns at one board, in two threads.
fn work_both<J: Run + Send + Sync, P: Held + Sync, R: Threads + Wait + Sync, G: Gate>(
    rt: &R,
    alloc: Global,
    board: &Board<J>,
    shared: &P,
    gate: &G,
    workers: &mut [Worker<'_>],
)
    requires pieces { ArePieces J.layout J.values (P.held shared.now) }
    requires ready { All (λ w. (w.seat.board ≡ board.now) × (IsIdle w.seat.view × IsDeskFor J.layout (P.held shared.now) w.desk)) workers.old }
    ensures back { All (λ w. (w.seat.board ≡ board.now) × IsIdle w.seat.view) workers.new }
    ensures count { length workers.new ≡ length workers.old }
{
    let turn = move |_: usize, worker: &mut Worker<'_>|
        requires { ArePieces J.layout J.values (P.held shared.now)
            × ((worker.now.seat.board ≡ board.now) × (IsIdle worker.now.seat.view × IsDeskFor J.layout (P.held shared.now) worker.now.desk)) }
        ensures { (worker.exit.now.seat.board ≡ board.entry.now) × IsIdle worker.exit.now.seat.view }
    { work_at(rt, alloc, board, shared, gate, worker) };
    for_each_mut(rt, workers, 2, &turn);
}

// The same with the pieces of a checked plan.
fn work_pieces<J: Run + Send + Sync, R: Threads + Wait + Sync, G: Gate>(
    rt: &R,
    alloc: Global,
    board: &Board<J>,
    pieces: &Pieces<'_>,
    gate: &G,
    workers: &mut [Worker<'_>],
)
    requires pieces { ArePieces J.layout J.values pieces.now }
    requires ready { All (λ w. (w.seat.board ≡ board.now) × (IsIdle w.seat.view × IsDeskFor J.layout pieces.now w.desk)) workers.old }
    ensures { All (λ w. (w.seat.board ≡ board.now) × IsIdle w.seat.view) workers.new }
{
    work_both(rt, alloc, board, pieces, gate, workers);
}

// Hires a worker.
fn hire<'a>(rt: &impl Abort, workers: &mut Vec<Worker<'a>>, worker: Worker<'a>)
    ensures { workers.new.items ≡ workers.old.items ++ worker.entry ∷ [] }
{
    match workers.push(worker) {
        Ok(()) => {}
        Err(_) => panic!(rt; "no memory"),
    }
}

// Two workers, of whom one has the first seat.
fn hire_two<'a, J: Run, R: Abort>(
    rt: &R,
    alloc: Global,
    board: &Board<J>,
    mut first: BoardSeat,
    pieces: &Pieces<'_>,
    cells: &'a PlanCells<'a>,
) -> Vec<Worker<'a>>
    requires layout { J.layout ≡ layout_of pieces.now.checked.now }
    requires pieces { ArePieces J.layout J.values pieces.now }
    requires cells { cells.now.checked.now ≡ pieces.now.checked.now }
    requires board { first.board ≡ board.now }
    requires idle { IsIdle first.view }
    ensures { All (λ w. (w.seat.board ≡ board.now) × (IsIdle w.seat.view × IsDeskFor J.layout pieces.now w.desk)) result.items }
{
    let Ok(second) = board.seat(&mut first) else {
        panic!(rt; "no seat");
    };
    let one = desk_of::<J, R>(rt, alloc, pieces, cells);
    let two = desk_of::<J, R>(rt, alloc, pieces, cells);
    let mut workers = Vec::new(alloc);
    hire(
        rt,
        &mut workers,
        Worker {
            seat: second,
            desk: one,
        },
    );
    hire(
        rt,
        &mut workers,
        Worker {
            seat: first,
            desk: two,
        },
    );
    workers
}

// The seats of two workers in one.
fn joined<J: Run>(board: &Board<J>, mut workers: Vec<Worker<'_>>) -> Option<BoardSeat>
    requires { All (λ w. (w.seat.board ≡ board.now) × IsIdle w.seat.view) workers.items }
    ensures { IfSome result (λ seat. seat.board ≡ board.now) }
{
    let last = workers.pop()?;
    let first = workers.pop()?;
    let Worker { mut seat, desk: _ } = last;
    board.join(&mut seat, first.seat);
    Some(seat)
}

// Whether two threads that work at one board compute this picture.
fn compute_by_two<J: Run + Send + Sync, R: Threads + Wait + Sync + Abort, G: Gate>(
    rt: &R,
    alloc: Global,
    checked: &Checked<'_>,
    inputs: &Inputs,
    gate: &G,
    picture: &[u16],
) -> bool
    requires layout { J.layout ≡ layout_of checked.now }
    requires values { J.values ≡ values_of checked.now inputs.now }
    requires input { IsFor checked.now.algo.now inputs.now }
{
    let pieces = Pieces::of::<J>(checked, inputs);
    let cells = cells_of(rt, alloc, checked);
    let (board, first) = board_of::<J, R>(rt, alloc, checked, inputs);
    let mut workers = hire_two::<J, R>(rt, alloc, &board, first, &pieces, &cells);
    work_pieces(rt, alloc, &board, &pieces, gate, workers.as_mut_slice());
    let Some(seat) = joined(&board, workers) else {
        return false;
    };
    match board.close(seat) {
        Ok(image) => shows(&image, picture),
        Err(_) => false,
    }
}

#[test]
fn two_threads_meet_at_a_gate(rt: HostRuntime) -> Result<(), Fail> {
    let algo = algo_of(&rt, rt.alloc(), TRI.algorithm);
    let checked = checked_of(&rt, rt.alloc(), &algo, TRI.plan);
    let inputs = inputs_of(&rt, rt.alloc(), &algo, TRI.samples);
    assert!(rt; inputs.is_for(checked.algo()));
    let gate = Meeting::new();
    assert!(rt;
        compute_by_two::<Brand, _, _>(&rt, rt.alloc(), &checked, &inputs, &gate, &TRI_PICTURE)
    );
    assert!(rt; gate.was_held(3));
    Ok(())
}
