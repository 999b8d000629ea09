//! Seats of the caller at one board: single pieces, pieces that are given up, and what a second seat sees.

ghost use Rattle.std.specs.Prelude.{◌≡◌, ◌<◌, IsTrue};
ghost use Rattle.algo.specs.View.{IsFor};
ghost use Rattle.board.specs.Layout.{pieces_of};
ghost use Rattle.board.specs.Seats.{place};
ghost use Rattle.board.specs.Views.{first_view, IsIdle, Knows};
ghost use Rattle.crew.specs.Crews.{ArePieces, IsDeskFor};
ghost use Rattle.crew.specs.Opening.Layouts.{layout_of, values_of};

use crate::example_tests::{Example, INC, TWO, algo_of, checked_of, inputs_of};
use algo::Inputs;
use board::{Board, BoardSeat, Run};
use checked_plan::Checked;
use checked_plan::output::PlanCells;
use crew::opening::laws::own_is_of_work;
use crew::opening::open;
use crew::{Desk, Pieces, Unwatched, try_piece, work};
use std::alloc::Global;
use std::marker::Brand;
use std::process::Abort;
use std::sync::Wait;
use std::test::Fail;
use std::thread::Threads;

// What is done at a board of three pieces, or of two.
#[derive(Clone, Copy, Drop)]
enum Trial {
    // The pieces are tried in their order, but for this one, which is given up.
    GivesUp(u32),
    // A second seat finishes all pieces and is let go, and the first closes.
    LetsGo,
    // The first seat finishes a piece, and a second looks at its first cell.
    Looks,
}

// Draws the next piece and tries it once, or gives it up at once. Where its ticket comes back the piece is given up too, and this is
// its number.
fn draw_next<J: Run>(
    alloc: Global,
    board: &Board<J>,
    seat: &mut BoardSeat,
    pieces: &Pieces<'_>,
    desk: &mut Desk<'_>,
    is_tried: bool,
) -> Option<u32>
    requires pieces { ArePieces J.layout J.values pieces.now }
    requires desk { IsDeskFor J.layout pieces.now desk.old }
    requires board { seat.old.board ≡ board.now }
    ensures board { seat.new.board ≡ seat.old.board }
    ensures desk { IsDeskFor J.layout pieces.now desk.new }
{
    let ticket = board.draw(seat)?;
    if !is_tried {
        board.abandon(seat, ticket);
        return None;
    }
    match try_piece(alloc, board, seat, ticket, pieces, desk) {
        Ok(()) => None,
        Err(back) => {
            let piece = back.piece();
            board.abandon(seat, back);
            Some(piece)
        }
    }
}

// The last piece whose ticket comes back, which is to be the third, and the piece that `close` names.
fn given_up<J: Run>(
    alloc: Global,
    board: Board<J>,
    mut seat: BoardSeat,
    pieces: &Pieces<'_>,
    desk: &mut Desk<'_>,
    piece: u32,
) -> Option<(u32, u32)>
    requires pieces { ArePieces J.layout J.values pieces.now }
    requires desk { IsDeskFor J.layout pieces.now desk.old }
    requires seat { seat.board ≡ board }
{
    let first = draw_next(alloc, &board, &mut seat, pieces, desk, piece != 0);
    let second = draw_next(alloc, &board, &mut seat, pieces, desk, piece != 1);
    let third = draw_next(alloc, &board, &mut seat, pieces, desk, true);
    let Err(unfinished) = board.close(seat) else {
        return None;
    };
    match (first, second, third) {
        (None, None, Some(back)) => Some((back, unfinished.0)),
        _ => None,
    }
}

// Both samples of the picture, where a second seat finishes all pieces and is let go, and the first closes. No seat is split off
// the second.
fn after_the_second<J: Run, R: Wait>(
    rt: &R,
    alloc: Global,
    board: Board<J>,
    mut first: BoardSeat,
    pieces: &Pieces<'_>,
    desk: &mut Desk<'_>,
) -> Option<(u32, u32)>
    requires pieces { ArePieces J.layout J.values pieces.now }
    requires desk { IsDeskFor J.layout pieces.now desk.old }
    requires seat { first.board ≡ board }
    requires idle { IsIdle first.view }
{
    let mut second = board.seat(&mut first).ok()?;
    let Err(_) = board.seat(&mut second) else {
        return None;
    };
    work(rt, alloc, &board, &mut second, pieces, desk, &Unwatched);
    drop(second);
    let image = board.close(first).ok()?;
    if image.samples.len() != 2 {
        return None;
    }
    let (left, right) = (image.samples.at(0), image.samples.at(1));
    Some((u32::from(left), u32::from(right)))
}

// Whether a seat that asks again and again comes to know a piece within 10,000 turns.
fn comes_to_know<J: Run>(board: &Board<J>, seat: &mut BoardSeat, piece: u32) -> bool
    requires board { seat.old.board ≡ board.now }
    requires piece { piece < pieces_of J.layout }
    ensures board { seat.new.board ≡ seat.old.board }
    ensures known { IsTrue result → Knows seat.new.view piece }
{
    for _turn in 0..10_000u32 {
        if board.ask(seat, piece) {
            return true;
        }
    }
    false
}

// The first piece, and what a second seat sees of its first cell once the first seat has finished it. Before, it is not known to be
// finished.
fn seen_by<J: Run>(
    alloc: Global,
    board: &Board<J>,
    first: &mut BoardSeat,
    second: &mut BoardSeat,
    checked: &Checked<'_>,
    pieces: &Pieces<'_>,
    desk: &mut Desk<'_>,
) -> Option<(u32, u32)>
    requires layout { J.layout ≡ layout_of checked.now }
    requires pieces { ArePieces J.layout J.values pieces.now }
    requires desk { IsDeskFor J.layout pieces.now desk.old }
    requires first { first.old.board ≡ board.now }
    requires second { second.old.board ≡ board.now }
{
    own_is_of_work();
    let ticket = board.draw(first)?;
    let piece = ticket.piece();
    let before = board.ask(second, piece);
    if let Err(back) = try_piece(alloc, board, first, ticket, pieces, desk) {
        board.abandon(first, back);
        return None;
    }
    if before || !comes_to_know(board, second, piece) {
        return None;
    }
    let cells = checked.own(piece as usize);
    if cells.is_empty() {
        return None;
    }
    Some((piece, board.look(second, cells.cell(0))))
}

// The same with a second seat that is split off the first.
fn seen<J: Run>(
    alloc: Global,
    board: Board<J>,
    mut first: BoardSeat,
    checked: &Checked<'_>,
    pieces: &Pieces<'_>,
    desk: &mut Desk<'_>,
) -> Option<(u32, u32)>
    requires layout { J.layout ≡ layout_of checked.now }
    requires pieces { ArePieces J.layout J.values pieces.now }
    requires desk { IsDeskFor J.layout pieces.now desk.old }
    requires seat { first.board ≡ board }
    requires idle { IsIdle first.view }
{
    let mut second = board.seat(&mut first).ok()?;
    seen_by(
        alloc,
        &board,
        &mut first,
        &mut second,
        checked,
        pieces,
        desk,
    )
}

// The cells of a checked plan.
pub(crate) fn cells_of<'a>(
    rt: &impl Abort,
    alloc: Global,
    checked: &'a Checked<'a>,
) -> PlanCells<'a>
    ensures { result.checked.now ≡ checked.now }
{
    match PlanCells::of(alloc, checked) {
        Ok(cells) => cells,
        Err(_) => panic!(rt; "no memory"),
    }
}

// A desk for the pieces.
pub(crate) fn desk_of<'a, J: Run, R: Abort>(
    rt: &R,
    alloc: Global,
    pieces: &Pieces<'_>,
    cells: &'a PlanCells<'a>,
) -> Desk<'a>
    requires layout { J.layout ≡ layout_of pieces.now.checked.now }
    requires pieces { ArePieces J.layout J.values pieces.now }
    requires cells { cells.now.checked.now ≡ pieces.now.checked.now }
    ensures { IsDeskFor J.layout pieces.now result }
{
    match Desk::new::<J>(alloc, pieces, cells) {
        Ok(desk) => desk,
        Err(_) => panic!(rt; "no memory"),
    }
}

// A board for a checked plan and an input, and its first seat.
pub(crate) fn board_of<'a, J: Run, R: Abort>(
    rt: &R,
    alloc: Global,
    checked: &'a Checked<'a>,
    inputs: &Inputs,
) -> (Board<'a, J>, BoardSeat)
    requires layout { J.layout ≡ layout_of checked.now }
    requires values { J.values ≡ values_of checked.now inputs.now }
    requires input { IsFor checked.now.algo.now inputs.now }
    ensures { result.1 ≡ place result.0 first_view }
{
    match open::<J>(alloc, checked, inputs) {
        Ok(opened) => opened,
        Err(_) => panic!(rt; "no memory"),
    }
}

// A trial on a board by its first seat.
fn tried_at<J: Run, R: Wait>(
    rt: &R,
    alloc: Global,
    board: Board<J>,
    seat: BoardSeat,
    checked: &Checked<'_>,
    pieces: &Pieces<'_>,
    desk: &mut Desk<'_>,
    trial: Trial,
) -> Option<(u32, u32)>
    requires layout { J.layout ≡ layout_of checked.now }
    requires pieces { ArePieces J.layout J.values pieces.now }
    requires desk { IsDeskFor J.layout pieces.now desk.old }
    requires seat { seat.board ≡ board }
    requires idle { IsIdle seat.view }
{
    match trial {
        Trial::GivesUp(piece) => given_up(alloc, board, seat, pieces, desk, piece),
        Trial::LetsGo => after_the_second(rt, alloc, board, seat, pieces, desk),
        Trial::Looks => seen(alloc, board, seat, checked, pieces, desk),
    }
}

// The same on a board for a checked plan and an input.
fn tried_on_a_board<J: Run, R: Wait + Abort>(
    rt: &R,
    alloc: Global,
    checked: &Checked<'_>,
    inputs: &Inputs,
    trial: Trial,
) -> Option<(u32, u32)>
    requires layout { J.layout ≡ layout_of checked.now }
    requires values { J.values ≡ values_of checked.now inputs.now }
    requires input { IsFor checked.now.algo.now inputs.now }
{
    let cells = cells_of(rt, alloc, checked);
    let pieces = Pieces::of::<J>(checked, inputs);
    let mut desk = desk_of::<J, R>(rt, alloc, &pieces, &cells);
    let (board, seat) = board_of::<J, R>(rt, alloc, checked, inputs);
    tried_at(rt, alloc, board, seat, checked, &pieces, &mut desk, trial)
}

// The same by the texts of an example.
fn tried<R: Threads + Wait + Sync + Abort>(
    rt: &R,
    alloc: Global,
    example: &Example<'_>,
    trial: Trial,
) -> Option<(u32, u32)> {
    let algo = algo_of(rt, alloc, example.algorithm);
    let checked = checked_of(rt, alloc, &algo, example.plan);
    let inputs = inputs_of(rt, alloc, &algo, example.samples);
    assert!(rt; inputs.is_for(checked.algo()));
    tried_on_a_board::<Brand, R>(rt, alloc, &checked, &inputs, trial)
}

#[test]
fn a_needed_piece_that_was_given_up_is_named(rt: HostRuntime) -> Result<(), Fail> {
    assert_eq!(rt;
        tried(&rt, rt.alloc(), &TWO, Trial::GivesUp(0)),
        Some((2, 0))
    );
    assert_eq!(rt;
        tried(&rt, rt.alloc(), &TWO, Trial::GivesUp(1)),
        Some((2, 1))
    );
    Ok(())
}

#[test]
fn a_seat_let_go_leaves_finished_pieces(rt: HostRuntime) -> Result<(), Fail> {
    assert_eq!(rt; tried(&rt, rt.alloc(), &TWO, Trial::LetsGo), Some((20, 22)));
    Ok(())
}

#[test]
fn a_finished_piece_is_seen(rt: HostRuntime) -> Result<(), Fail> {
    assert_eq!(rt; tried(&rt, rt.alloc(), &INC, Trial::Looks), Some((0, 65)));
    Ok(())
}
