//! The run of a checked plan in stages, whose pieces workers compute side by side without a board.
//!
//! A stage is a run of pieces that follow each other, each of which needs only pieces before the stage. Where these are put on a
//! sheet, the workers read the sheet alone, and none reads what another computes. Each has some pieces that follow each other, and
//! a part of the picture's samples, so far as no piece before the stage has any: what it computes of them it writes there, and
//! keeps all else. Once all have come back, what they have kept is put on the sheet, and the next stage begins.

ghost use Rattle.std.specs.Prelude.{◌≡◌, ◌+◌, ◌^◌, ◌<◌, ◌≤◌, ℕ, Contains, IfOk, Vec, length, map, slice_index, slice_index_or, vec_len};
ghost use Rattle.std.specs.Global.{Global};
ghost use Rattle.std.specs.Bool.{OnTrue};
ghost use denote.Param.Send.{IsSend, IsSync};
ghost use Rattle.board.specs.CellBits.{bits_in};
ghost use Rattle.board.specs.Layout.{own_of, pieces_of, value_at};
ghost use Rattle.board.specs.Seen.{beside, seen_bits, NoneShown, StaysShown};
ghost use Rattle.board.specs.Sheets.{bits_at, IsPut};
ghost use Rattle.board.specs.Words.{bits_of};
ghost use Rattle.crew.specs.Crews.{ArePieces};
ghost use Rattle.crew.specs.Private.{needs_of, HasMemory, IsMostFetched};
ghost use Rattle.crew.specs.Stages.{AreDesks, AreDone, AreFresh, AreFreshFrom, ArePut, CanCompute, CanWork, HasWorked, IsDesk, IsDone, IsFresh, IsLeft, IsStage};
ghost use Rattle.checked_plan.specs.View.{certificate_checked, plan_checked};

use crate::alone::compute;
use crate::gate::Gate;
use crate::values::{Desk, Pieces, PrivateRuns};
use crate::workers::desk_for;
use board::{ApartSheet, CellBits, Run, Sheet, SheetCells, keep_bits};
use checked_plan::output::PlanCells;
use std::alloc::{AllocError, Global};
use std::sync::Wait;
use std::thread::{Threads, join_mut};

/// Whether all these pieces come before another.
fn are_before(pieces: &[u32], first: u32) -> bool
    ensures { OnTrue result ((k : ℕ) → k < length pieces.now → slice_index pieces.now k < first) }
{
    for place in 0..pieces.len() {
        if pieces[place] >= first {
            return false;
        }
    }
    true
}

/// The end of the longest stage that begins with a piece. A piece needs earlier ones alone, so that this one is in it.
fn stage_end<J: Run, P: PrivateRuns<J>>(runs: &P, from: u32, count: u32) -> u32
    requires runs { P.gives runs.now }
    requires count { count ≡ pieces_of J.layout }
    requires from { from < count }
    ensures end { (from < result) × (result ≤ count) }
    ensures stage { IsStage (P.plan runs.now) from result }
{
    // No number is taken of this call. It says that what the first piece needs comes before it.
    runs.needs(from);
    for to in from + 1..count {
        if !are_before(runs.needs(to), from) {
            return to;
        }
    }
    count
}

/// How many stages there are.
pub(crate) fn stage_count<J: Run, P: PrivateRuns<J>>(runs: &P, count: u32) -> u32
    requires runs { P.gives runs.now }
    requires count { count ≡ pieces_of J.layout }
    ensures { result ≤ count }
{
    let mut stages = 0;
    let mut from = 0;
    while from < count {
        from = stage_end::<J, P>(runs, from, count);
        stages += 1;
    }
    stages
}

/// A list for each piece, with room for the bits of its own cells.
pub(crate) fn lists_for<J: Run>(
    alloc: Global,
    sheet: &Sheet<'_, J>,
) -> Result<Vec<Vec<u32>>, AllocError>
    ensures count { IfOk result (λ lists. vec_len lists ≡ pieces_of J.layout) }
    ensures lists { IfOk result (λ lists. AreFresh J.layout 0 lists.items) }
{
    let pieces = sheet.pieces();
    let mut lists = Vec::with_capacity(alloc, pieces)?;
    for piece in 0..pieces {
        let list = Vec::with_capacity(alloc, sheet.own_count(piece as u32))?;
        lists.push(list)?;
    }
    Ok(lists)
}

/// So many desks.
pub(crate) fn desks_for<'a, J: Run, P: PrivateRuns<J>>(
    alloc: Global,
    runs: &P,
    cells: &'a PlanCells<'a>,
    most: usize,
    count: usize,
) -> Result<Vec<Desk<'a>>, AllocError>
    requires runs { P.gives runs.now }
    requires plan { cells.now.checked.now ≡ P.plan runs.now }
    requires most { IsMostFetched (P.plan runs.now) (pieces_of J.layout) most }
    ensures count { IfOk result (λ desks. vec_len desks ≡ count) }
    ensures ready { IfOk result (λ desks. AreDesks J.layout (P.plan runs.now) (P.suffices runs.now) desks.items) }
{
    let mut desks = Vec::with_capacity(alloc, count)?;
    while desks.len() < count {
        let desk = desk_for::<J, P>(alloc, runs, cells, most)?;
        desks.push(desk)?;
    }
    Ok(desks)
}

/// Leaves the values of a piece's own cells, whose bits these are, as samples of a part, where it has all of them, or else the bits
/// in a list that has room for them. It takes no memory.
fn leave<J: Run>(
    seen: &SheetCells<'_, '_, J>,
    piece: u32,
    bits: CellBits<'_>,
    list: &mut Vec<u32>,
    part: &mut [u8],
    from: usize,
)
    requires piece { piece < pieces_of J.layout }
    requires bits { bits_in bits ≡ bits_at J.values (own_of J.layout piece) }
    requires list { IsFresh J.layout piece list.old }
    requires short { from + length part.old < 2 ^ 32 }
    ensures done { IsDone J.layout J.values seen.now from part.new piece list.new }
    ensures more { StaysShown seen.now.planes (length seen.now.bits) J.values from part.old part.new }
{
    if !seen.show(piece, bits, part, from) {
        keep_bits(bits, list);
    }
}

/// A desk of any lifetime, as one of several that are divided among threads.
pub(crate) trait HasDesk {
    ghost use Rattle.crew.specs.declared.values.Desk.{Desk as DeskValue};

    ghost desk: { Self → DeskValue };

    /// Computes a piece, as `compute` does.
    fn compute<J: Run, P: PrivateRuns<J>>(
        &mut self,
        alloc: Global,
        seen: &SheetCells<'_, '_, J>,
        runs: &P,
        piece: u32,
    )
        requires runs { P.gives runs.now }
        requires piece { piece < pieces_of J.layout }
        requires needed { (j : ℕ) → Contains (needs_of (P.plan runs.now) piece) j → (j < pieces_of J.layout) × IsPut J.layout J.values (seen_bits seen.now) j }
        requires desk { IsDesk J.layout (P.plan runs.now) (P.suffices runs.now) (desk self.old) }
        ensures values { (desk self.new).scratch.state.given.items ≡ map (value_at J.values) (own_of J.layout piece) }
        ensures desk { IsDesk J.layout (P.plan runs.now) (P.suffices runs.now) (desk self.new) };

    /// The bits of the numbers that the last run of a piece gave.
    fn bits(&self) -> CellBits<'_>
        ensures { bits_in result ≡ map bits_of (desk self.now).scratch.state.given.items };
}

impl HasDesk for Desk<'_> {
    ghost desk = { λ d. d };

    fn compute<J: Run, P: PrivateRuns<J>>(
        &mut self,
        alloc: Global,
        seen: &SheetCells<'_, '_, J>,
        runs: &P,
        piece: u32,
    ) {
        compute(alloc, seen, runs, self, piece);
    }

    fn bits(&self) -> CellBits<'_> {
        self.given()
    }
}

/// Computes a piece at the worker's desk, where the pieces that it needs are put, leaves the values of its own cells, and tells the
/// gate of it. It takes no memory.
fn compute_apart<J: Run, P: PrivateRuns<J>, G: Gate, D: HasDesk>(
    alloc: Global,
    seen: &SheetCells<'_, '_, J>,
    runs: &P,
    gate: &G,
    piece: u32,
    desk: &mut D,
    list: &mut Vec<u32>,
    part: &mut [u8],
    from: usize,
)
    requires runs { P.gives runs.now }
    requires piece { piece < pieces_of J.layout }
    requires needed { (j : ℕ) → Contains (needs_of (P.plan runs.now) piece) j → (j < pieces_of J.layout) × IsPut J.layout J.values (seen_bits seen.now) j }
    requires desk { IsDesk J.layout (P.plan runs.now) (P.suffices runs.now) (D.desk desk.old) }
    requires list { IsFresh J.layout piece list.old }
    requires short { from + length part.old < 2 ^ 32 }
    ensures done { IsDone J.layout J.values seen.now from part.new piece list.new }
    ensures more { StaysShown seen.now.planes (length seen.now.bits) J.values from part.old part.new }
    ensures desk { IsDesk J.layout (P.plan runs.now) (P.suffices runs.now) (D.desk desk.new) }
{
    gate.enter(piece);
    desk.compute::<J, P>(alloc, seen, runs, piece);
    leave(seen, piece, desk.bits(), list, part, from);
    gate.leave(piece);
}

/// One worker's turn: it computes pieces that follow each other, each of which has a list, and leaves what it computes in its part
/// of the samples, which begins at this place of all, or in the lists. It takes no memory.
fn work_in_turn<J: Run, P: PrivateRuns<J>, G: Gate, D: HasDesk>(
    alloc: Global,
    seen: &SheetCells<'_, '_, J>,
    runs: &P,
    gate: &G,
    first: usize,
    from: usize,
    desk: &mut D,
    lists: &mut [Vec<u32>],
    part: &mut [u8],
)
    requires runs { P.gives runs.now }
    requires can { CanCompute J.layout J.values (P.plan runs.now) (seen_bits seen.now) first (length lists.old) }
    requires inside { first + length lists.old ≤ pieces_of J.layout }
    requires short { from + length part.old < 2 ^ 32 }
    requires desk { IsDesk J.layout (P.plan runs.now) (P.suffices runs.now) (D.desk desk.old) }
    requires lists { AreFresh J.layout first lists.old }
    ensures desk { IsDesk J.layout (P.plan runs.now) (P.suffices runs.now) (D.desk desk.new) }
    ensures lists { AreDone J.layout J.values seen.now from part.new first lists.new }
{
    // No number is taken of this call. It says that there are few pieces.
    seen.pieces();
    for i in 0..lists.len() {
        let piece = (first + i) as u32;
        let list = &mut lists[i];
        compute_apart::<J, P, G, D>(alloc, seen, runs, gate, piece, desk, list, part, from);
    }
}

/// How many samples of a part, which begins at this place of all, come before those of a piece.
fn cut_before<J: Run>(
    seen: &SheetCells<'_, '_, J>,
    piece: usize,
    from: usize,
    count: usize,
) -> usize
    ensures { result ≤ count }
{
    if seen.pieces() <= piece {
        return count;
    }
    match seen.first_sample(piece as u32) {
        Some(place) => place.saturating_sub(from).min(count),
        None => count,
    }
}

/// The turns of all workers, one in the caller's thread and each other in one of its own where it can be started. Where it cannot
/// they take their turns one after another. All have come back once this returns. The lists are those of pieces that follow each
/// other, from this one on, and the part begins at this place of all samples; both are halved among the workers.
#[cycle(halves)]
fn work_together<
    J: Run + Send + Sync,
    P: PrivateRuns<J> + Sync,
    R: Threads + Wait + Sync,
    G: Gate,
    D: HasDesk + Send,
>(
    rt: &R,
    alloc: Global,
    seen: &SheetCells<'_, '_, J>,
    runs: &P,
    gate: &G,
    first: usize,
    from: usize,
    desks: &mut [D],
    lists: &mut [Vec<u32>],
    part: &mut [u8],
)
    requires runs { P.gives runs.now }
    requires can { CanWork D.desk J.layout J.values (P.plan runs.now) (P.suffices runs.now) (seen_bits seen.now) first from desks.old lists.old part.old }
    ensures { HasWorked D.desk J.layout J.values (P.plan runs.now) (P.suffices runs.now) seen.now first from desks.new lists.new part.new }
{
    let count = desks.len();
    if count == 1 {
        work_in_turn::<J, P, G, D>(
            alloc,
            seen,
            runs,
            gate,
            first,
            from,
            &mut desks[0],
            lists,
            part,
        );
        return;
    }
    // No number is taken of this call. It says that there are few pieces.
    seen.pieces();
    let half = count / 2;
    let at = (lists.len() * half / count).min(lists.len());
    let cut = cut_before(seen, first + at, from, part.len());
    let (some_desks, other_desks) = desks.split_at_mut(half);
    let (some_lists, other_lists) = lists.split_at_mut(at);
    let (some_samples, other_samples) = part.split_at_mut(cut);
    work_halves::<J, P, R, G, D>(
        rt,
        alloc,
        seen,
        runs,
        gate,
        first,
        from,
        some_desks,
        some_lists,
        some_samples,
        first + at,
        from + cut,
        other_desks,
        other_lists,
        other_samples,
    );
}

/// The turns of the workers of two halves.
#[cycle(halves)]
fn work_halves<
    J: Run + Send + Sync,
    P: PrivateRuns<J> + Sync,
    R: Threads + Wait + Sync,
    G: Gate,
    D: HasDesk + Send,
>(
    rt: &R,
    alloc: Global,
    seen: &SheetCells<'_, '_, J>,
    runs: &P,
    gate: &G,
    first: usize,
    from: usize,
    some_desks: &mut [D],
    some_lists: &mut [Vec<u32>],
    some_samples: &mut [u8],
    later: usize,
    cut: usize,
    other_desks: &mut [D],
    other_lists: &mut [Vec<u32>],
    other_samples: &mut [u8],
)
    requires runs { P.gives runs.now }
    requires front { CanWork D.desk J.layout J.values (P.plan runs.now) (P.suffices runs.now) (seen_bits seen.now) first from some_desks.old some_lists.old some_samples.old }
    requires back { CanWork D.desk J.layout J.values (P.plan runs.now) (P.suffices runs.now) (seen_bits seen.now) later cut other_desks.old other_lists.old other_samples.old }
    ensures front { HasWorked D.desk J.layout J.values (P.plan runs.now) (P.suffices runs.now) seen.now first from some_desks.new some_lists.new some_samples.new }
    ensures back { HasWorked D.desk J.layout J.values (P.plan runs.now) (P.suffices runs.now) seen.now later cut other_desks.new other_lists.new other_samples.new }
{
    let mut front = ||
        requires { IsSync R.row × IsSync P.row × IsSync J.row × IsSync G.row × IsSend D.row × P.gives runs.now × CanWork D.desk J.layout J.values (P.plan runs.now) (P.suffices runs.now) (seen_bits seen.now) first from some_desks.now some_lists.now some_samples.now }
        ensures { HasWorked D.desk J.layout J.values (P.plan runs.entry.now) (P.suffices runs.entry.now) seen.entry.now first from some_desks.exit.now some_lists.exit.now some_samples.exit.now }
    {
        work_together::<J, P, R, G, D>(
            rt,
            alloc,
            seen,
            runs,
            gate,
            first,
            from,
            some_desks,
            some_lists,
            some_samples,
        )
    };
    let mut back = ||
        requires { IsSync R.row × IsSync P.row × IsSync J.row × IsSync G.row × IsSend D.row × P.gives runs.now × CanWork D.desk J.layout J.values (P.plan runs.now) (P.suffices runs.now) (seen_bits seen.now) later cut other_desks.now other_lists.now other_samples.now }
        ensures { HasWorked D.desk J.layout J.values (P.plan runs.entry.now) (P.suffices runs.entry.now) seen.entry.now later cut other_desks.exit.now other_lists.exit.now other_samples.exit.now }
    {
        work_together::<J, P, R, G, D>(
            rt,
            alloc,
            seen,
            runs,
            gate,
            later,
            cut,
            other_desks,
            other_lists,
            other_samples,
        )
    };
    join_mut(rt, &mut front, &mut back);
}

/// The turns of all workers in a stage, of whom none reads a sample, where no piece before it has any: all samples are theirs to set.
fn work_in_parts<J: Run + Send + Sync, P: PrivateRuns<J> + Sync, R: Threads + Wait + Sync, G: Gate>(
    rt: &R,
    alloc: Global,
    seen: &SheetCells<'_, '_, J>,
    runs: &P,
    gate: &G,
    first: usize,
    desks: &mut [Desk<'_>],
    lists: &mut [Vec<u32>],
    samples: &mut [u8],
)
    requires runs { P.gives runs.now }
    requires none { NoneShown J.layout seen.now first }
    requires short { length samples.old < 2 ^ 32 }
    requires put { ArePut J.layout J.values (seen_bits (beside seen.now samples.old)) first }
    requires stage { IsStage (P.plan runs.now) first (first + length lists.old) × (first + length lists.old ≤ pieces_of J.layout) }
    requires crew { (0 < length desks.old) × (length desks.old ≤ 64) × AreDesks J.layout (P.plan runs.now) (P.suffices runs.now) desks.old }
    requires lists { AreFresh J.layout first lists.old }
    ensures put { ArePut J.layout J.values (seen_bits (beside seen.now samples.new)) first }
    ensures desks { AreDesks J.layout (P.plan runs.now) (P.suffices runs.now) desks.new }
    ensures lists { AreDone J.layout J.values seen.now 0 samples.new first lists.new }
{
    work_together::<J, P, R, G, Desk<'_>>(
        rt, alloc, seen, runs, gate, first, 0, desks, lists, samples,
    );
}

/// The turns of all workers in a stage, who read all cells and set no sample.
fn work_beside<J: Run + Send + Sync, P: PrivateRuns<J> + Sync, R: Threads + Wait + Sync, G: Gate>(
    rt: &R,
    alloc: Global,
    seen: &SheetCells<'_, '_, J>,
    runs: &P,
    gate: &G,
    first: usize,
    desks: &mut [Desk<'_>],
    lists: &mut [Vec<u32>],
    none: &mut [u8],
)
    requires runs { P.gives runs.now }
    requires none { length none.old ≡ 0 }
    requires put { ArePut J.layout J.values (seen_bits seen.now) first }
    requires stage { IsStage (P.plan runs.now) first (first + length lists.old) × (first + length lists.old ≤ pieces_of J.layout) }
    requires crew { (0 < length desks.old) × (length desks.old ≤ 64) × AreDesks J.layout (P.plan runs.now) (P.suffices runs.now) desks.old }
    requires lists { AreFresh J.layout first lists.old }
    ensures desks { AreDesks J.layout (P.plan runs.now) (P.suffices runs.now) desks.new }
    ensures lists { AreDone J.layout J.values seen.now 0 seen.now.samples first lists.new }
{
    work_together::<J, P, R, G, Desk<'_>>(
        rt, alloc, seen, runs, gate, first, 0, desks, lists, none,
    );
}

/// The turns of all workers in a stage, beside these samples of the picture.
fn work_stage<J: Run + Send + Sync, P: PrivateRuns<J> + Sync, R: Threads + Wait + Sync, G: Gate>(
    rt: &R,
    alloc: Global,
    sheet: &ApartSheet<'_, J>,
    runs: &P,
    gate: &G,
    first: usize,
    desks: &mut [Desk<'_>],
    lists: &mut [Vec<u32>],
    samples: &mut [u8],
)
    requires runs { P.gives runs.now }
    requires put { ArePut J.layout J.values (seen_bits (beside sheet.now samples.old)) first }
    requires stage { IsStage (P.plan runs.now) first (first + length lists.old) × (first + length lists.old ≤ pieces_of J.layout) }
    requires crew { (0 < length desks.old) × (length desks.old ≤ 64) × AreDesks J.layout (P.plan runs.now) (P.suffices runs.now) desks.old }
    requires lists { AreFresh J.layout first lists.old }
    ensures put { ArePut J.layout J.values (seen_bits (beside sheet.now samples.new)) first }
    ensures desks { AreDesks J.layout (P.plan runs.now) (P.suffices runs.now) desks.new }
    ensures lists { AreDone J.layout J.values sheet.now 0 samples.new first lists.new }
{
    let none = [0u8; 0];
    let bare = (&*sheet).cells(&none);
    if samples.len() <= u32::MAX as usize && bare.none_shown(first as u32) {
        work_in_parts::<J, P, R, G>(rt, alloc, &bare, runs, gate, first, desks, lists, samples);
        return;
    }
    let seen = (&*sheet).cells(&*samples);
    let mut nothing = [0u8; 0];
    work_beside::<J, P, R, G>(
        rt,
        alloc,
        &seen,
        runs,
        gate,
        first,
        desks,
        lists,
        &mut nothing,
    );
}

/// Puts what a worker has left of a piece: the bits in its list, or, where it has none, nothing.
fn put_left<J: Run>(sheet: &mut Sheet<'_, J>, piece: usize, list: &[u32])
    requires piece { piece < pieces_of J.layout }
    requires left { IsLeft J.layout J.values sheet.old piece list.now }
    ensures put { IsPut J.layout J.values sheet.new piece }
    ensures more { (j : ℕ) → IsPut J.layout J.values sheet.old j → IsPut J.layout J.values sheet.new j }
{
    if list.is_empty() {
        return;
    }
    // No number is taken of this call. It says that there are few pieces.
    sheet.pieces();
    sheet.put(piece as u32, CellBits::Words(list));
}

/// Puts the pieces of a stage, which the workers have computed, on the sheet.
fn put_stage<J: Run>(sheet: &mut Sheet<'_, J>, first: usize, lists: &[Vec<u32>])
    requires inside { first + length lists.now ≤ pieces_of J.layout }
    requires put { ArePut J.layout J.values sheet.old first }
    requires left { (i : ℕ) (d : Vec ℕ Global) → i < length lists.now → IsLeft J.layout J.values sheet.old (first + i) (slice_index_or lists.now i d).items }
    ensures { ArePut J.layout J.values sheet.new (first + length lists.now) }
{
    // No number is taken of this call. It says that there are few pieces.
    sheet.pieces();
    for i in 0..lists.len() {
        put_left(sheet, first + i, lists[i].as_slice());
    }
}

/// The sheet once the pieces of a stage are computed and put.
fn with_stage<
    'a,
    J: Run + Send + Sync,
    P: PrivateRuns<J> + Sync,
    R: Threads + Wait + Sync,
    G: Gate,
>(
    rt: &R,
    alloc: Global,
    sheet: Sheet<'a, J>,
    runs: &P,
    gate: &G,
    first: usize,
    desks: &mut [Desk<'_>],
    lists: &mut [Vec<u32>],
) -> Sheet<'a, J>
    requires runs { P.gives runs.now }
    requires put { ArePut J.layout J.values sheet first }
    requires stage { IsStage (P.plan runs.now) first (first + length lists.old) × (first + length lists.old ≤ pieces_of J.layout) }
    requires crew { (0 < length desks.old) × (length desks.old ≤ 64) × AreDesks J.layout (P.plan runs.now) (P.suffices runs.now) desks.old }
    requires lists { AreFresh J.layout first lists.old }
    ensures put { ArePut J.layout J.values result (first + length lists.old) }
    ensures desks { AreDesks J.layout (P.plan runs.now) (P.suffices runs.now) desks.new }
{
    let (apart, mut samples) = sheet.apart();
    let all = samples.as_mut_slice();
    work_stage::<J, P, R, G>(rt, alloc, &apart, runs, gate, first, desks, lists, all);
    let mut sheet = apart.joined(samples);
    put_stage(&mut sheet, first, lists);
    sheet
}

/// The sheet once one stage more is computed and put: the pieces from one to another.
fn with_next<'a, J: Run + Send + Sync, P: PrivateRuns<J> + Sync, R: Threads + Wait + Sync, G: Gate>(
    rt: &R,
    alloc: Global,
    sheet: Sheet<'a, J>,
    runs: &P,
    gate: &G,
    from: usize,
    to: usize,
    desks: &mut [Desk<'_>],
    lists: &mut [Vec<u32>],
) -> Sheet<'a, J>
    requires runs { P.gives runs.now }
    requires put { ArePut J.layout J.values sheet from }
    requires stage { (from ≤ to) × (to ≤ length lists.old) × (length lists.old ≤ pieces_of J.layout) × IsStage (P.plan runs.now) from to }
    requires crew { (0 < length desks.old) × (length desks.old ≤ 64) × AreDesks J.layout (P.plan runs.now) (P.suffices runs.now) desks.old }
    requires lists { AreFreshFrom J.layout from lists.old }
    ensures put { ArePut J.layout J.values result to }
    ensures desks { AreDesks J.layout (P.plan runs.now) (P.suffices runs.now) desks.new }
    ensures lists { AreFreshFrom J.layout to lists.new }
{
    let (_, later) = lists.split_at_mut(from);
    let (stage, _) = later.split_at_mut(to - from);
    with_stage::<J, P, R, G>(rt, alloc, sheet, runs, gate, from, desks, stage)
}

/// The sheet once all pieces are computed, stage after stage, and put. It takes no memory.
pub(crate) fn filled_in_stages<'a, J: Run + Send + Sync, R: Threads + Wait + Sync, G: Gate>(
    rt: &R,
    alloc: Global,
    sheet: Sheet<'a, J>,
    pieces: &Pieces<'_>,
    desks: &mut [Desk<'_>],
    lists: &mut [Vec<u32>],
    gate: &G,
) -> Sheet<'a, J>
    requires pieces { ArePieces J.layout J.values pieces.now }
    requires crew { (0 < length desks.old) × (length desks.old ≤ 64) × AreDesks J.layout pieces.now.checked.now (HasMemory J.layout (plan_checked pieces.now.checked.now) (certificate_checked pieces.now.checked.now)) desks.old }
    requires lists { (length lists.old ≡ pieces_of J.layout) × AreFresh J.layout 0 lists.old }
    ensures { (j : ℕ) → j < pieces_of J.layout → IsPut J.layout J.values result j }
{
    let count = sheet.pieces();
    let mut sheet = sheet;
    let mut from = 0;
    while from < count {
        let to = stage_end::<J, Pieces<'_>>(pieces, from as u32, count as u32) as usize;
        sheet = with_next::<J, Pieces<'_>, R, G>(
            rt, alloc, sheet, pieces, gate, from, to, desks, lists,
        );
        from = to;
    }
    sheet
}
