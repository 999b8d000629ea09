//! The workers of a crew, each with a seat at the board and a desk.

ghost use Rattle.std.specs.Prelude.{◌≡◌, ◌<◌, ◌≤◌, length, vec_len, All, IfOk};
ghost use Rattle.board.specs.Layout.{pieces_of};
ghost use Rattle.board.specs.Seats.{place};
ghost use Rattle.board.specs.Views.{first_view, IsDone};
ghost use Rattle.crew.specs.Crews.{ArePieces, IsDeskFor};
ghost use Rattle.crew.specs.Opening.Layouts.{layout_of};
ghost use Rattle.crew.specs.Private.{HasRoom, IsMostFetched};
ghost use Rattle.crew.specs.Workers.{seats_held, HasDrawnAll, IsReady};

use crate::counts::most_fetched;
use crate::gate::Gate;
use crate::values::{Desk, Pieces, PrivateRuns};
use crate::worker::draw_and_fill;
use board::{Board, BoardSeat, Run};
use checked_plan::output::PlanCells;
use piece::LookedCells;
use std::alloc::{AllocError, Global};
use std::sync::Wait;
use std::thread::{Threads, for_each_mut};

/// A worker: its seat at the board, and its desk. Both are its own.
#[derive(Drop)]
pub(crate) struct Worker<'a> {
    pub(crate) seat: BoardSeat,
    pub(crate) desk: Desk<'a>,
}

/// The memory of one worker, who looks at so many cells for a piece at most.
pub(crate) fn desk_for<'a, J: Run, P: PrivateRuns<J>>(
    alloc: Global,
    runs: &P,
    cells: &'a PlanCells<'a>,
    most: usize,
) -> Result<Desk<'a>, AllocError>
    requires runs { P.gives runs.now }
    requires plan { cells.now.checked.now ≡ P.plan runs.now }
    requires most { IsMostFetched (P.plan runs.now) (pieces_of J.layout) most }
    ensures scratch { IfOk result (λ desk. P.suffices runs.now desk.scratch) }
    ensures room { IfOk result (λ desk. HasRoom (P.plan runs.now) (pieces_of J.layout) desk.looked) }
{
    let scratch = runs.scratch(alloc)?;
    let looked = LookedCells::new(alloc, cells, most)?;
    Ok(Desk { scratch, looked })
}

impl<'a> Desk<'a> {
    /// A desk with all the memory that one worker takes for the pieces, whose cells are numbered by `cells`: the private runs of
    /// all groups, and the bits of the cells that a piece fetches.
    ///
    /// # Errors
    /// `AllocError` where memory runs out.
    pub fn new<J: Run>(
        alloc: Global,
        pieces: &Pieces<'_>,
        cells: &'a PlanCells<'a>,
    ) -> Result<Desk<'a>, AllocError>
        requires layout { J.layout ≡ layout_of pieces.now.checked.now }
        requires pieces { ArePieces J.layout J.values pieces.now }
        requires cells { cells.now.checked.now ≡ pieces.now.checked.now }
        ensures { IfOk result (IsDeskFor J.layout pieces.now) }
    {
        let most = most_fetched(pieces.checked);
        desk_for::<J, Pieces<'_>>(alloc, pieces, cells, most)
    }
}

/// So many workers, of whom one has the first seat. All memory that they take is taken here.
pub(crate) fn hire<'a, J: Run, P: PrivateRuns<J>>(
    alloc: Global,
    board: &Board<'_, J>,
    mut first: BoardSeat,
    runs: &P,
    cells: &'a PlanCells<'a>,
    most: usize,
    count: usize,
) -> Result<Vec<Worker<'a>>, AllocError>
    requires seat { first ≡ place board.now first_view }
    requires runs { P.gives runs.now }
    requires plan { cells.now.checked.now ≡ P.plan runs.now }
    requires most { IsMostFetched (P.plan runs.now) (pieces_of J.layout) most }
    requires count { (1 ≤ count) × (count ≤ 64) }
    ensures count { IfOk result (λ workers. vec_len workers ≡ count) }
    ensures seats { IfOk result (λ workers. seats_held workers.items ≡ 64) }
    ensures ready { IfOk result (λ workers. All (IsReady board.now (P.plan runs.now) (pieces_of J.layout) (P.suffices runs.now)) workers.items) }
{
    let mut workers = Vec::with_capacity(alloc, count)?;
    while workers.len() + 1 < count {
        let desk = desk_for::<J, P>(alloc, runs, cells, most)?;
        let Ok(seat) = board.seat(&mut first) else {
            unreachable!()
        };
        workers.push(Worker { seat, desk })?;
    }
    let desk = desk_for::<J, P>(alloc, runs, cells, most)?;
    workers.push(Worker { seat: first, desk })?;
    Ok(workers)
}

/// One worker's turn at the board. It comes back where all pieces are drawn and it has finished its own.
fn work_at<J: Run, P: PrivateRuns<J>, R: Wait, G: Gate>(
    rt: &R,
    alloc: Global,
    board: &Board<'_, J>,
    runs: &P,
    gate: &G,
    worker: &mut Worker<'_>,
)
    requires runs { P.gives runs.now }
    requires ready { IsReady board.now (P.plan runs.now) (pieces_of J.layout) (P.suffices runs.now) worker.old }
    ensures drawn { HasDrawnAll board.now worker.new }
    ensures seats { worker.new.seat.view.seats ≡ worker.old.seat.view.seats }
{
    draw_and_fill(
        rt,
        alloc,
        board,
        &mut worker.seat,
        runs,
        &mut worker.desk,
        gate,
    );
}

/// The turns of all workers, one in the caller's thread and each other in one of its own where it can be started. Where it
/// cannot they take their turns one after another: each draws until no piece is left.
pub(crate) fn work_all<
    J: Run + Send + Sync,
    P: PrivateRuns<J> + Sync,
    R: Threads + Wait + Sync,
    G: Gate,
>(rt: &R, alloc: Global, board: &Board<'_, J>, runs: &P, gate: &G, workers: &mut [Worker<'_>])
    requires some { 0 < length workers.old }
    requires runs { P.gives runs.now }
    requires ready { All (IsReady board.now (P.plan runs.now) (pieces_of J.layout) (P.suffices runs.now)) workers.old }
    ensures drawn { All (HasDrawnAll board.now) workers.new }
    ensures seats { seats_held workers.new ≡ seats_held workers.old }
{
    let turn = move |_: usize, worker: &mut Worker<'_>|
        requires { P.gives runs.now × IsReady board.now (P.plan runs.now) (pieces_of J.layout) (P.suffices runs.now) worker.now }
        ensures { HasDrawnAll board.entry.now worker.exit.now × (worker.exit.now.seat.view.seats ≡ worker.entry.now.seat.view.seats) }
    { work_at(rt, alloc, board, runs, gate, worker) };
    let count = workers.len();
    for_each_mut(rt, workers, count, &turn);
}

/// The seats of all workers in one, which stands for all seats of the board, and knows all that was drawn.
pub(crate) fn united<J: Run>(board: &Board<'_, J>, mut workers: Vec<Worker<'_>>) -> BoardSeat
    requires some { 0 < vec_len workers }
    requires drawn { All (HasDrawnAll board.now) workers.items }
    requires seats { seats_held workers.items ≡ 64 }
    ensures board { result.board ≡ board.now }
    ensures done { IsDone result.view }
{
    let Some(last) = workers.pop() else {
        unreachable!()
    };
    let Worker { mut seat, desk: _ } = last;
    while let Some(worker) = workers.pop() {
        board.join(&mut seat, worker.seat);
    }
    seat
}
