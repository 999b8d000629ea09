//! The run of a checked plan by a crew, in two parts: one takes all memory, and the other computes the picture.

ghost use Rattle.std.specs.Prelude.{◌≡◌, ◌≤◌, IfOk};
ghost use Rattle.algo.specs.View.{picture_said, samples_of, IsFor};
ghost use Rattle.board.specs.Views.{IsDone};
ghost use Rattle.checked_plan.specs.View.{algorithm_checked};
ghost use Rattle.crew.specs.Opening.Layouts.{layout_of, values_of};
ghost use Rattle.crew.specs.Prepared.{said_of, CanBegin, IsPrepared, IsPreparedInStages};
ghost use Rattle.crew.specs.Crews.{ArePieces};
ghost use Rattle.crew.specs.Private.{IsMostFetched};
ghost use Rattle.board.specs.Layout.{pieces_of, picture_of};
ghost use Rattle.meaning.specs.Image.View.{image_of};

use crate::counts::most_fetched;
use crate::gate::Gate;
use crate::opening::laws::{layouts_are_sound, own_is_of_work, pictures_are_said};
use crate::opening::{open, open_alone};
use crate::stages::{desks_for, filled_in_stages, lists_for, stage_count};
use crate::values::{Desk, Pieces};
use crate::workers::{Worker, hire, united, work_all};
use algo::Inputs;
use board::{Board, BoardSeat, Run, Sheet};
use checked_plan::Checked;
use checked_plan::output::PlanCells;
use meaning::image::Image;
use std::alloc::{AllocError, Global};
use std::marker::Model;
use std::sync::Wait;
use std::thread::Threads;

/// How the workers of a run come to their pieces.
#[derive(Drop)]
pub(crate) enum Way<'a, J: Run> {
    /// They draw them at a board, where a piece goes on as soon as those that it needs are finished. Each has a seat and a desk.
    AtBoard {
        board: Board<'a, J>,
        workers: Vec<Worker<'a>>,
    },
    /// Each has some of each stage. They read the cells of the stages before on a sheet. Each has a desk, and each piece a list.
    InStages {
        sheet: Sheet<'a, J>,
        desks: Vec<Desk<'a>>,
        lists: Vec<Vec<u32>>,
    },
}

/// The run of a checked plan on an input by a crew that has not begun, with all the memory that it takes: that of the cells, and
/// for each worker a desk. Contracts see it as the picture that the algorithm says of the input.
#[derive(Drop)]
pub struct Prepared<'a, J: Run> {
    way: Way<'a, J>,
    pieces: Pieces<'a>,
}

impl<'a, J: Run> Model for Prepared<'a, J> {
    ghost use Rattle.crew.specs.Prepared.{said_of, CanBegin};
    ghost use Rattle.meaning.specs.Image.View.{Picture};

    ghost Value = { Picture };

    ghost view = { λ p. said_of p.pieces };

    ghost invariant = { λ p. CanBegin J.layout J.values p.way p.pieces };
}

/// The work of all workers at a board, of whom one comes back with the seats of all, and with what all know: that all pieces are
/// drawn, and that all are finished.
fn work_on<J: Run + Send + Sync, R: Threads + Wait + Sync, G: Gate>(
    rt: &R,
    alloc: Global,
    board: &Board<'_, J>,
    pieces: &Pieces<'_>,
    mut workers: Vec<Worker<'_>>,
    gate: &G,
) -> BoardSeat
    requires { IsPrepared J.layout J.values board.now pieces.now workers.items }
    ensures board { result.board ≡ board.now }
    ensures done { IsDone result.view }
{
    work_all(rt, alloc, board, pieces, gate, workers.as_mut_slice());
    united(board, workers)
}

/// The picture, by workers at a board.
fn picture_at_board<J: Run + Send + Sync, R: Threads + Wait + Sync, G: Gate>(
    rt: &R,
    alloc: Global,
    board: Board<'_, J>,
    pieces: &Pieces<'_>,
    workers: Vec<Worker<'_>>,
    gate: &G,
) -> Image
    requires { IsPrepared J.layout J.values board pieces.now workers.items }
    ensures { image_of result ≡ said_of pieces.now }
{
    let seat = work_on(rt, alloc, &board, pieces, workers, gate);
    let Ok(image) = board.close(seat) else {
        unreachable!()
    };
    image
}

/// The picture, by workers in stages.
fn picture_in_stages<J: Run + Send + Sync, R: Threads + Wait + Sync, G: Gate>(
    rt: &R,
    alloc: Global,
    sheet: Sheet<'_, J>,
    pieces: &Pieces<'_>,
    mut desks: Vec<Desk<'_>>,
    mut lists: Vec<Vec<u32>>,
    gate: &G,
) -> Image
    requires { IsPreparedInStages J.layout J.values pieces.now desks.items lists.items }
    ensures { image_of result ≡ said_of pieces.now }
{
    let sheet = filled_in_stages(
        rt,
        alloc,
        sheet,
        pieces,
        desks.as_mut_slice(),
        lists.as_mut_slice(),
        gate,
    );
    sheet.close()
}

/// Whether so many workers are to compute the pieces in stages: where, on the average, a stage has a piece for each worker.
fn goes_in_stages<J: Run>(pieces: &Pieces<'_>, workers: usize) -> bool
    requires layout { J.layout ≡ layout_of pieces.now.checked.now }
    requires pieces { ArePieces J.layout J.values pieces.now }
    requires workers { workers ≤ 64 }
{
    layouts_are_sound();
    own_is_of_work();
    let count = pieces.checked.pieces();
    let stages = stage_count::<J, Pieces<'_>>(pieces, count as u32) as usize;
    stages * workers.min(count) <= count
}

/// A board with so many workers at it, of whom none has begun.
fn at_board<'a, J: Run>(
    alloc: Global,
    inputs: &Inputs,
    pieces: &Pieces<'a>,
    cells: &'a PlanCells<'a>,
    most: usize,
    workers: usize,
) -> Result<Way<'a, J>, AllocError>
    requires layout { J.layout ≡ layout_of pieces.now.checked.now }
    requires values { J.values ≡ values_of pieces.now.checked.now inputs.now }
    requires input { IsFor pieces.now.checked.now.algo.now inputs.now }
    requires cells { cells.now.checked.now ≡ pieces.now.checked.now }
    requires pieces { ArePieces J.layout J.values pieces.now }
    requires said { picture_of J.layout J.values ≡ said_of pieces.now }
    requires most { IsMostFetched pieces.now.checked.now (pieces_of J.layout) most }
    requires workers { (1 ≤ workers) × (workers ≤ 64) }
    ensures { IfOk result (λ way. CanBegin J.layout J.values way pieces.now) }
{
    let (board, first) = open::<J>(alloc, pieces.checked, inputs)?;
    let workers = hire::<J, Pieces<'_>>(alloc, &board, first, pieces, cells, most, workers)?;
    Ok(Way::AtBoard { board, workers })
}

/// A sheet with at most so many workers, of whom each has pieces and none has begun.
fn in_stages<'a, J: Run>(
    alloc: Global,
    inputs: &Inputs,
    pieces: &Pieces<'a>,
    cells: &'a PlanCells<'a>,
    most: usize,
    workers: usize,
) -> Result<Way<'a, J>, AllocError>
    requires layout { J.layout ≡ layout_of pieces.now.checked.now }
    requires values { J.values ≡ values_of pieces.now.checked.now inputs.now }
    requires input { IsFor pieces.now.checked.now.algo.now inputs.now }
    requires cells { cells.now.checked.now ≡ pieces.now.checked.now }
    requires pieces { ArePieces J.layout J.values pieces.now }
    requires said { picture_of J.layout J.values ≡ said_of pieces.now }
    requires most { IsMostFetched pieces.now.checked.now (pieces_of J.layout) most }
    requires workers { (1 ≤ workers) × (workers ≤ 64) }
    ensures { IfOk result (λ way. CanBegin J.layout J.values way pieces.now) }
{
    let sheet = open_alone::<J>(alloc, pieces.checked, inputs)?;
    let count = workers.min(sheet.pieces()).max(1);
    let desks = desks_for::<J, Pieces<'_>>(alloc, pieces, cells, most, count)?;
    let lists = lists_for(alloc, &sheet)?;
    Ok(Way::InStages {
        sheet,
        desks,
        lists,
    })
}

impl<'a, J: Run> Prepared<'a, J> {
    /// A run by so many workers, from 1 to 64, of whom none has begun. `cells` numbers the plan's cells.
    ///
    /// It takes all memory of the run: what `run` says that it takes.
    ///
    /// # Errors
    /// `AllocError` where memory runs out.
    pub fn new(
        alloc: Global,
        checked: &'a Checked<'a>,
        inputs: &'a Inputs,
        cells: &'a PlanCells<'a>,
        workers: usize,
    ) -> Result<Prepared<'a, J>, AllocError>
        requires layout { J.layout ≡ layout_of checked.now }
        requires values { J.values ≡ values_of checked.now inputs.now }
        requires input { IsFor checked.now.algo.now inputs.now }
        requires cells { cells.now.checked.now ≡ checked.now }
        requires workers { (1 ≤ workers) × (workers ≤ 64) }
        ensures { IfOk result (λ run. run ≡ picture_said (algorithm_checked checked.now) (samples_of inputs.now)) }
    {
        pictures_are_said();
        let pieces = Pieces::of::<J>(checked, inputs);
        let most = most_fetched(checked);
        let way = if goes_in_stages::<J>(&pieces, workers) {
            in_stages::<J>(alloc, inputs, &pieces, cells, most, workers)?
        } else {
            at_board::<J>(alloc, inputs, &pieces, cells, most, workers)?
        };
        Ok(Prepared { way, pieces })
    }
}

impl<J: Run + Send + Sync> Prepared<'_, J> {
    /// The picture, computed by the workers as `run` says. They take no memory, and nothing is refused.
    pub fn picture<R: Threads + Wait + Sync, G: Gate>(
        self,
        rt: &R,
        alloc: Global,
        gate: &G,
    ) -> Image
        ensures { image_of result ≡ self.entry }
    {
        let Prepared { way, pieces } = self;
        match way {
            Way::AtBoard { board, workers } => {
                picture_at_board(rt, alloc, board, &pieces, workers, gate)
            }
            Way::InStages {
                sheet,
                desks,
                lists,
            } => picture_in_stages(rt, alloc, sheet, &pieces, desks, lists, gate),
        }
    }
}
