//! Which cells are some piece's own.

ghost use Rattle.std.specs.Prelude.{◌≡◌, ℕ, ◌+◌, ◌*◌, ◌<◌, ◌≤◌, List, false, IsTrue, IsFalse, IfNone, IfSome, IfOk, length, replicate};
ghost use Rattle.std.specs.Int.{bit_at};
ghost use Rattle.orders.specs.Work.{OwnIsParted};
ghost use Rattle.orders.specs.CellRuns.{IsRun};
ghost use Rattle.shares.specs.Taken.{AreClear, AreMarked, AreTaken, HasPart, HasRun, IsClear, free_count};

use orders::{CellRun, CellRuns};
use std::alloc::{AllocError, Global};
use std::marker::Model;

/// Which cells of a plan are some piece's own, as far as they are noted: a bit a cell.
///
/// Contracts see whether each cell is taken, in the order of the cells.
#[derive(Drop)]
pub(crate) struct TakenCells {
    words: Vec<u64>,
    count: usize,
}

impl Model for TakenCells {
    ghost use Rattle.std.specs.Prelude.{◌*◌, ◌≤◌, Bool, List, length};
    ghost use Rattle.shares.specs.Taken.{marks_in};

    ghost Value = { List Bool };

    ghost view = { λ t. marks_in t.words.items t.count };

    ghost invariant = { λ t. t.count ≤ 64 * length t.words.items };
}

/// The word whose bits from one up to another are set, and no others.
fn ones(low: u32, high: u32) -> u64
    requires { (low < high) × (high ≤ 64) }
    ensures inside { (i : ℕ) → low ≤ i → i < high → bit_at result i ≡ 1 }
    ensures below { (i : ℕ) → i < low → bit_at result i ≡ 0 }
    ensures above { (i : ℕ) → high ≤ i → bit_at result i ≡ 0 }
{
    (u64::MAX >> (64 - high)) & (u64::MAX << low)
}

/// The word with its bits from one up to another set, where none of them is.
fn with_part(word: u64, low: u32, high: u32) -> Option<u64>
    requires { (low < high) × (high ≤ 64) }
    ensures some { IfSome result (λ made. IsClear word low high × HasPart word made low high) }
    ensures none { IfNone result (IsClear word low high → ⊥) }
{
    let part = ones(low, high);
    if word & part != 0 {
        return None;
    }
    Some(word | part)
}

/// Sets the bits from one up to another of words of 64 bits each, where none of them is set.
fn take_bits(words: &mut [u64], first: usize, end: usize) -> bool
    requires some { first < end }
    requires within { end ≤ 64 * length words.old }
    ensures marked { IsTrue result → AreMarked words.old words.new first end end }
    ensures held { IsFalse result → AreClear words.old first end → ⊥ }
{
    for place in first / 64..(end - 1) / 64 + 1 {
        let start = place * 64;
        let low = first.saturating_sub(start) as u32;
        let high = (end - start).min(64) as u32;
        let Some(word) = with_part(words[place], low, high) else {
            return false;
        };
        words[place] = word;
    }
    true
}

impl TakenCells {
    /// So many cells, of which none is taken.
    pub(crate) fn new(alloc: Global, count: u32) -> Result<TakenCells, AllocError>
        ensures { IfOk result (λ made. made ≡ replicate count false) }
    {
        let count = count as usize;
        let words = vec![in alloc; 0; count / 64 + 1]?;
        Ok(TakenCells { words, count })
    }

    /// Notes that cells that follow one another, those of the next piece from a place on, are taken, where all are in the table and
    /// each is free.
    fn take_run(&mut self, run: &CellRun) -> bool
        requires { IsRun run.now }
        ensures length { length self.new ≡ length self.old }
        ensures taken { (own : ℕ → List ℕ) (n a : ℕ) → HasRun (own n) a run.now → AreTaken own self.old n a → IsTrue result → AreTaken own self.new n (a + run.now.count) }
        ensures fault { (own : ℕ → List ℕ) (n a : ℕ) → HasRun (own n) a run.now → AreTaken own self.old n a → IsFalse result → OwnIsParted (n + 1) (length self.old) own → ⊥ }
        ensures count { IsTrue result → free_count self.new + run.now.count ≡ free_count self.old }
    {
        let first = run.first as usize;
        let end = first + run.count as usize;
        if first == end {
            return true;
        }
        if self.count < end {
            return false;
        }
        take_bits(self.words.as_mut_slice(), first, end)
    }

    /// Notes that the own cells of the next piece are taken, where all are in the table and each is free.
    ///
    /// The time is linear in the runs of these cells and in their words of 64.
    pub(crate) fn take_cells(&mut self, cells: &CellRuns) -> bool
        ensures length { length self.new ≡ length self.old }
        ensures taken { (own : ℕ → List ℕ) (n : ℕ) → own n ≡ cells.now → AreTaken own self.old n 0 → IsTrue result → AreTaken own self.new (n + 1) 0 }
        ensures fault { (own : ℕ → List ℕ) (n : ℕ) → own n ≡ cells.now → AreTaken own self.old n 0 → IsFalse result → OwnIsParted (n + 1) (length self.old) own → ⊥ }
        ensures count { IsTrue result → free_count self.new + length cells.now ≡ free_count self.old }
    {
        for run in cells.runs() {
            if !self.take_run(run) {
                return false;
            }
        }
        true
    }
}
