//! Whether what pieces fetch is found, run by run, among the own cells of the pieces that they need.

ghost use Rattle.std.specs.Prelude.{◌≡◌, ℕ, ◌<◌, ◌≤◌, ◌+◌, ◌^◌, IsTrue, Contains, All, length, take};
ghost use Rattle.orders.specs.CellRuns.{run_cells};
ghost use Rattle.orders.specs.Lists.{own_lists, fetched_lists, needs_lists};
ghost use Rattle.orders.specs.Work.{NeedsServe};
ghost use Rattle.shares.specs.Served.{IsOwnOf};

use orders::{CellRun, CellRuns, Piece, run_length};

/// How many cells, from the first on, follow one another in a run of cells.
fn length_in(run: &CellRun, cells: &[u32]) -> usize
    ensures within { result ≤ length cells.now }
    ensures same { All (λ cell. Contains (run_cells run.now) cell) (take result cells.now) }
{
    if cells.is_empty() || cells[0] < run.first {
        return 0;
    }
    let passed = cells[0] - run.first;
    if run.count <= passed {
        return 0;
    }
    ((run.count - passed) as usize).min(run_length(cells))
}

/// How many cells, from the first on, follow one another in a piece's own cells, where the runs of these rise.
fn run_in(own: &CellRuns, cells: &[u32]) -> usize
    ensures within { result ≤ length cells.now }
    ensures same { All (λ cell. Contains own.now cell) (take result cells.now) }
{
    if cells.is_empty() {
        return 0;
    }
    let runs = own.runs();
    let behind = runs.partition_point(|run| run.first <= cells[0]);
    match behind.checked_sub(1) {
        Some(place) => length_in(&runs[place], cells),
        None => 0,
    }
}

/// How many cells, from the first on, follow one another in the own cells of the piece of this number, where these rise.
fn run_of(pieces: &[Piece], piece: u32, cells: &[u32]) -> usize
    ensures within { result ≤ length cells.now }
    ensures own { All (λ cell. Contains (own_lists pieces.now piece) cell) (take result cells.now) }
{
    match pieces.get(piece as usize) {
        Some(piece) => run_in(&piece.own, cells),
        None => 0,
    }
}

/// How many cells, from the first on, follow one another in the own cells of one of these pieces; none where so many looks at
/// pieces find none. Looks are taken away from their number.
fn first_run(pieces: &[Piece], needs: &[u32], cells: &[u32], looks: &mut usize) -> usize
    ensures within { result ≤ length cells.now }
    ensures own { All (IsOwnOf (own_lists pieces.now) needs.now) (take result cells.now) }
{
    for needed in needs {
        if *looks == 0 {
            return 0;
        }
        *looks -= 1;
        let count = run_of(pieces, *needed, cells);
        if count != 0 {
            return count;
        }
    }
    0
}

/// Whether so many looks at these pieces find each of these cells among their own.
fn are_found(pieces: &[Piece], needs: &[u32], cells: &[u32], looks: &mut usize) -> bool
    ensures { IsTrue result → All (IsOwnOf (own_lists pieces.now) needs.now) cells.now }
{
    let mut found = 0;
    while found < cells.len() {
        let count = first_run(pieces, needs, &cells[found..], looks);
        if count == 0 {
            return false;
        }
        found += count;
    }
    true
}

/// Whether a piece needs only earlier ones.
fn are_earlier(needs: &[u32], piece: u32) -> bool
    ensures { IsTrue result → All (λ needed. needed < piece) needs.now }
{
    needs.iter().all(|needed| *needed < piece)
}

/// Whether a piece needs only earlier ones, and so many looks find all that it fetches among their own cells.
fn is_found(pieces: &[Piece], piece: u32, looks: &mut usize) -> bool
    requires piece { piece < length pieces.now }
    requires served { NeedsServe piece (own_lists pieces.now) (fetched_lists pieces.now) (needs_lists pieces.now) }
    ensures { IsTrue result → NeedsServe (piece + 1) (own_lists pieces.now) (fetched_lists pieces.now) (needs_lists pieces.now) }
{
    let one = &pieces[piece as usize];
    let needs = one.needs.as_slice();
    are_earlier(needs, piece) && are_found(pieces, needs, one.fetched.as_slice(), looks)
}

/// Whether so many looks at needed pieces find that each piece needs only earlier ones and fetches only what these own.
///
/// Where not, nothing is known. A look takes about as many steps as the number of the piece's own cells has digits, and each
/// fetched cell that is found takes one.
pub(crate) fn all_found(pieces: &[Piece], looks: usize) -> bool
    requires pieces { length pieces.now < 2 ^ 32 }
    ensures { IsTrue result → NeedsServe (length pieces.now) (own_lists pieces.now) (fetched_lists pieces.now) (needs_lists pieces.now) }
{
    let mut left = looks;
    for piece in 0..pieces.len() as u32 {
        if !is_found(pieces, piece, &mut left) {
            return false;
        }
    }
    true
}
