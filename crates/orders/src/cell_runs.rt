//! Lists of cells that mostly follow one another.

ghost use Rattle.std.specs.Prelude.{◌≡◌, ◌↔◌, ℕ, ◌+◌, ◌≤◌, ◌<◌, ◌^◌, [], ◌++◌, All, IsTrue, length, slice_index, take, IfOk, OnErr, OnOk};
ghost use Rattle.std.specs.Bool.{OnTrue};
ghost use Rattle.std.specs.List.{range_with_len};
ghost use Rattle.orders.specs.CellRuns.{AreCounted, EndsAt, HasPlace, IsRun, cells_of};

use std::alloc::{AllocError, Global};
use std::marker::Model;

/// Cells that follow one another: so many, from `first` on.
#[derive(Clone, Copy, Drop)]
pub struct CellRun {
    pub first: u32,
    pub count: u32,
    /// How many cells of the list come before.
    before: u32,
}

/// A list of cells, by runs of cells that follow one another: the memory is that of the runs, 12 bytes each.
#[derive(Drop)]
pub struct CellRuns {
    runs: Vec<CellRun>,
    count: usize,
}

impl Model for CellRuns {
    ghost use Rattle.std.specs.Prelude.{◌≡◌, ◌<◌, ◌^◌, ℕ, List, All, length};
    ghost use Rattle.orders.specs.CellRuns.{AreCounted, IsRun, cells_of};

    ghost Value = { List ℕ };

    ghost view = { λ c. cells_of c.runs.items };

    ghost invariant = { λ c. (c.count ≡ length (cells_of c.runs.items)) × (c.count < 2 ^ 32) × AreCounted 0 c.runs.items × All IsRun c.runs.items };
}

impl CellRun {
    /// The number behind its last cell.
    fn end(&self) -> u32
        requires { IsRun self.now }
        ensures { result ≡ self.now.first + self.now.count }
    {
        self.first + self.count
    }

    /// With so many more cells behind its last.
    fn longer(&self, more: u32) -> CellRun
        requires { self.now.first + self.now.count + more < 2 ^ 32 }
        ensures { result ≡ record self.now { count = self.now.count + more } }
    {
        CellRun {
            first: self.first,
            count: self.count + more,
            before: self.before,
        }
    }
}

/// The run that has the cell at a place.
///
/// The time is logarithmic in the runs.
fn run_with(runs: &[CellRun], place: usize) -> CellRun
    requires counted { AreCounted 0 runs.now }
    requires place { place < length (cells_of runs.now) }
    ensures { HasPlace runs.now result place }
{
    let behind = runs.partition_point(|run| run.before as usize <= place);
    runs[behind - 1]
}

/// Whether the last run ends before this cell.
fn ends_at(runs: &[CellRun], first: u32) -> bool
    requires { All IsRun runs.now }
    ensures { IsTrue result → EndsAt runs.now first }
{
    let count = runs.len();
    count > 0 && runs[count - 1].end() == first
}

/// The last run, which ends before a cell, with so many more from that one on.
fn lengthen(runs: &mut [CellRun], first: u32, more: u32)
    requires counted { AreCounted 0 runs.old }
    requires runs { All IsRun runs.old }
    requires ends { EndsAt runs.old first }
    requires more { first + more < 2 ^ 32 }
    ensures cells { cells_of runs.new ≡ cells_of runs.old ++ range_with_len first more }
    ensures counted { AreCounted 0 runs.new }
    ensures runs { All IsRun runs.new }
{
    let last = runs.len() - 1;
    runs[last] = runs[last].longer(more);
}

/// One run more.
fn push_run(runs: &mut Vec<CellRun>, before: u32, first: u32, count: u32) -> Result<(), AllocError>
    requires counted { AreCounted 0 runs.old.items }
    requires runs { All IsRun runs.old.items }
    requires before { before ≡ length (cells_of runs.old.items) }
    requires run { first + count < 2 ^ 32 }
    ensures cells { OnOk result (cells_of runs.new.items ≡ cells_of runs.old.items ++ range_with_len first count) }
    ensures counted { OnOk result (AreCounted 0 runs.new.items) }
    ensures runs { OnOk result (All IsRun runs.new.items) }
    ensures kept { OnErr result (runs.new.items ≡ runs.old.items) }
{
    runs.push(CellRun {
        first,
        count,
        before,
    })?;
    Ok(())
}

/// So many more cells, from one on, by the last run where they follow it.
fn add_cells(runs: &mut Vec<CellRun>, before: u32, first: u32, count: u32) -> Result<(), AllocError>
    requires counted { AreCounted 0 runs.old.items }
    requires runs { All IsRun runs.old.items }
    requires before { before ≡ length (cells_of runs.old.items) }
    requires run { first + count < 2 ^ 32 }
    ensures cells { OnOk result (cells_of runs.new.items ≡ cells_of runs.old.items ++ range_with_len first count) }
    ensures counted { OnOk result (AreCounted 0 runs.new.items) }
    ensures runs { OnOk result (All IsRun runs.new.items) }
    ensures kept { OnErr result (runs.new.items ≡ runs.old.items) }
{
    if ends_at(runs.as_slice(), first) {
        lengthen(runs.as_mut_slice(), first, count);
        return Ok(());
    }
    push_run(runs, before, first, count)
}

/// How many cells are looked at together.
const PART: usize = 32;

/// Whether these cells follow one another from this one on. All are looked at, so that several are at once.
fn is_row(cells: &[u32], first: u32) -> bool
    requires { first + length cells.now < 2 ^ 32 }
    ensures { OnTrue result (cells.now ≡ range_with_len first (length cells.now)) }
{
    let mut all = true;
    for place in 0..cells.len() {
        let one = cells[place] == first + place as u32;
        all = all & one;
    }
    all
}

/// Whether so many cells, from this one on, have numbers that are not the last.
fn is_within(first: u32, count: usize) -> bool
    ensures { IsTrue result → first + count < 2 ^ 32 }
{
    count < (u32::MAX - first) as usize
}

/// How many of these cells, from the first on, follow one another, by whole parts.
fn row_by_parts(cells: &[u32]) -> usize
    requires { 0 < length cells.now }
    ensures within { result ≤ length cells.now }
    ensures run { take result cells.now ≡ range_with_len (slice_index cells.now 0) result }
{
    let first = cells[0];
    let mut known = 0;
    while cells.len() - known >= PART && is_within(first, known + PART) {
        if !is_row(&cells[known..known + PART], first + known as u32) {
            return known;
        }
        known += PART;
    }
    known
}

/// How many of these cells, from the first on, follow one another.
pub fn run_length(cells: &[u32]) -> usize
    requires { 0 < length cells.now }
    ensures some { 0 < result }
    ensures within { result ≤ length cells.now }
    ensures run { take result cells.now ≡ range_with_len (slice_index cells.now 0) result }
{
    let first = u64::from(cells[0]);
    for place in row_by_parts(cells)..cells.len() {
        if u64::from(cells[place]) != first.saturating_add(place as u64) {
            return place;
        }
    }
    cells.len()
}

impl CellRuns {
    /// These cells.
    pub fn of(alloc: Global, cells: &[u32]) -> Result<Self, AllocError>
        requires few { length cells.now < 2 ^ 32 }
        requires cells { All (λ cell. cell + 1 < 2 ^ 32) cells.now }
        ensures { IfOk result (λ runs. runs ≡ cells.now) }
    {
        let mut runs = CellRuns::new(alloc);
        let mut place = 0;
        while place < cells.len() {
            let count = run_length(&cells[place..]);
            runs.push(cells[place], count as u32)?;
            place += count;
        }
        Ok(runs)
    }

    /// No cells.
    pub fn new(alloc: Global) -> Self
        ensures { result ≡ [] }
    {
        CellRuns {
            runs: Vec::new(alloc),
            count: 0,
        }
    }

    /// No cells, and room for so many runs.
    pub fn with_capacity(alloc: Global, runs: usize) -> Result<Self, AllocError>
        ensures { IfOk result (λ made. made ≡ []) }
    {
        Ok(CellRuns {
            runs: Vec::with_capacity(alloc, runs)?,
            count: 0,
        })
    }

    /// How many cells there are.
    pub fn len(&self) -> usize
        ensures count { result ≡ length self.now }
        ensures few { result < 2 ^ 32 }
    {
        self.count
    }

    /// Whether there are none.
    pub fn is_empty(&self) -> bool
        ensures { IsTrue result ↔ (length self.now ≡ 0) }
    {
        self.count == 0
    }

    /// The cells, by runs.
    pub fn runs(&self) -> &[CellRun]
        ensures cells { cells_of result.now ≡ self.now }
        ensures runs { All IsRun result.now }
    {
        self.runs.as_slice()
    }

    /// The cell at a place of the list.
    ///
    /// The time is logarithmic in the runs.
    pub fn cell(&self, place: usize) -> u32
        requires { place < length self.now }
        ensures { result ≡ slice_index self.now place }
    {
        let run = run_with(self.runs.as_slice(), place);
        run.first + (place - run.before as usize) as u32
    }

    /// Adds cells that follow one another.
    pub fn push(&mut self, first: u32, count: u32) -> Result<(), AllocError>
        requires cells { first + count < 2 ^ 32 }
        requires room { length self.old + count < 2 ^ 32 }
        ensures { OnOk result (self.new ≡ self.old ++ range_with_len first count) }
    {
        if count == 0 {
            return Ok(());
        }
        let before = self.count as u32;
        add_cells(&mut self.runs, before, first, count)?;
        self.count += count as usize;
        Ok(())
    }
}
