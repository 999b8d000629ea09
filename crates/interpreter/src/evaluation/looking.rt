//! What calls find at the turns of a run, by the numbers of their indices, and what it is cast to, if there is a type for that.

ghost use Rattle.std.specs.Prelude.{◌≡◌, ◌∷◌, ◌<◌, ◌≤◌, ◌+◌, ◌+ℤ◌, ◌≤ℤ◌, ℕ, List, pos, IfSome, Some, length};
ghost use Rattle.plan.specs.Semantics.Memory.{Memory};
ghost use Rattle.tree.specs.declared.value.Value.{Value as ValueFound};
ghost use Rattle.tree.specs.Meaning.{typed};
ghost use Rattle.interpreter.specs.Evaluation.Lanes.{clamped_number, found_as, lane_number, lanes_at, number_at};
ghost use Rattle.interpreter.specs.Evaluation.Words.{word_at};

use crate::evaluation::kernels::{
    clamp_between, fill, fill_steps, fill_words, narrow_words, widen_all,
};
use crate::evaluation::lanes::{ClampedRamp, Lanes, Number};
use crate::evaluation::run_reader::RunReader;
use crate::evaluation::whole::cast_words;
use crate::registers::LONGEST_RUN;
use crate::scanlines::distance;
use numeric::Ty;

/// How many turns a run has at most for which a shorter list of numbers is cleared.
const SHORT_RUN: usize = 128;

/// The number of lanes that have one value at all turns.
fn fixed(lanes: Lanes) -> Option<i64>
    ensures { IfSome result (λ z. (ws : List ℕ) (k : ℕ) → lane_number lanes ws k ≡ z) }
{
    match lanes {
        Lanes::Broadcast(_, number) => Some(number.value),
        _ => None,
    }
}

/// The numbers of lanes over a register, put into a list.
fn numbers_of(lanes: Lanes, registers: &[u32], out: &mut [Number]) -> Option<()>
    ensures { IfSome result (λ _. (k : ℕ) → k < length out.new → number_at out.new k ≡ lane_number lanes registers.now k) }
{
    match lanes {
        Lanes::Broadcast(_, number) => {
            fill(number, out);
            Some(())
        }
        Lanes::Ramp(_, first) => fill_steps(first.value, 1, out),
        Lanes::Clamped(_, ramp) => {
            fill_steps(ramp.first.value, 1, out)?;
            clamp_between(out, ramp.low, ramp.high);
            Some(())
        }
        Lanes::Vector(ty) => {
            if registers.len() < out.len() {
                return None;
            }
            widen_all(ty, registers, out);
            Some(())
        }
    }
}

/// What a name finds at the turns of a run, at one after another, where these are the indices but the first.
fn look_singly<R: RunReader>(
    name: &str,
    first: Lanes,
    others: &[i64],
    registers: &[u32],
    cast: Option<Ty>,
    reader: &R,
    out: &mut [u32],
) -> Option<Ty>
    ensures { IfSome result (λ t. (m : Memory ValueFound) → R.agrees reader.now m → (k : ℕ) → k < length out.new → found_as cast (R.look reader.now m name.now (lane_number first registers.now k ∷ others.now)) ≡ Some (typed t (word_at t out.new k))) }
{
    if out.len() <= SHORT_RUN {
        let mut room = [Number { value: 0 }; SHORT_RUN];
        return look_singly_in(&mut room, name, first, others, registers, cast, reader, out);
    }
    let mut room = [Number { value: 0 }; LONGEST_RUN];
    look_singly_in(&mut room, name, first, others, registers, cast, reader, out)
}

/// What a name finds at the turns of a run, at one after another, where these are the indices but the first. The numbers have room in
/// the list.
fn look_singly_in<R: RunReader>(
    room: &mut [Number],
    name: &str,
    first: Lanes,
    others: &[i64],
    registers: &[u32],
    cast: Option<Ty>,
    reader: &R,
    out: &mut [u32],
) -> Option<Ty>
    ensures { IfSome result (λ t. (m : Memory ValueFound) → R.agrees reader.now m → (k : ℕ) → k < length out.new → found_as cast (R.look reader.now m name.now (lane_number first registers.now k ∷ others.now)) ≡ Some (typed t (word_at t out.new k))) }
{
    if room.len() < out.len() {
        return None;
    }
    let (numbers, _) = room.split_at_mut(out.len());
    numbers_of(first, registers, numbers)?;
    let ty = reader.look_each(name, others, numbers)?;
    narrow_words(ty, numbers, out)?;
    Some(cast_words(ty, cast, out))
}

/// What a name finds at the turns of a run, at one after another, where each index may change.
fn look_points<R: RunReader>(
    name: &str,
    indices: &[Lanes],
    registers: &[u32],
    cast: Option<Ty>,
    reader: &R,
    out: &mut [u32],
) -> Option<Ty>
    ensures { IfSome result (λ t. (m : Memory ValueFound) → R.agrees reader.now m → (k : ℕ) → k < length out.new → found_as cast (R.look reader.now m name.now (lanes_at (length out.new) indices.now registers.now k)) ≡ Some (typed t (word_at t out.new k))) }
{
    if out.len() <= SHORT_RUN {
        let mut room = [Number { value: 0 }; SHORT_RUN];
        return look_points_in(&mut room, name, indices, registers, cast, reader, out);
    }
    let mut room = [Number { value: 0 }; LONGEST_RUN];
    look_points_in(&mut room, name, indices, registers, cast, reader, out)
}

/// What a name finds at the turns of a run, at one after another, where each index may change. The numbers have room in the list.
fn look_points_in<R: RunReader>(
    room: &mut [Number],
    name: &str,
    indices: &[Lanes],
    registers: &[u32],
    cast: Option<Ty>,
    reader: &R,
    out: &mut [u32],
) -> Option<Ty>
    ensures { IfSome result (λ t. (m : Memory ValueFound) → R.agrees reader.now m → (k : ℕ) → k < length out.new → found_as cast (R.look reader.now m name.now (lanes_at (length out.new) indices.now registers.now k)) ≡ Some (typed t (word_at t out.new k))) }
{
    if room.len() < out.len() {
        return None;
    }
    let (numbers, _) = room.split_at_mut(out.len());
    let ty = reader.look_points(name, indices, registers, numbers)?;
    narrow_words(ty, numbers, out)?;
    Some(cast_words(ty, cast, out))
}

/// What a name finds at the turns of a run, where each index has a register, one behind the other. Where no index but the
/// first changes from turn to turn, what is found lies along a row.
pub(crate) fn look_run<R: RunReader>(
    name: &str,
    indices: &[Lanes],
    registers: &[u32],
    cast: Option<Ty>,
    reader: &R,
    out: &mut [u32],
) -> Option<Ty>
    ensures { IfSome result (λ t. (m : Memory ValueFound) → R.agrees reader.now m → (k : ℕ) → k < length out.new → found_as cast (R.look reader.now m name.now (lanes_at (length out.new) indices.now registers.now k)) ≡ Some (typed t (word_at t out.new k))) }
{
    match indices {
        [first] => look_along(name, *first, &[], registers, cast, reader, out),
        [first, second] => match fixed(*second) {
            Some(second) => look_along(name, *first, &[second], registers, cast, reader, out),
            None => look_points(name, indices, registers, cast, reader, out),
        },
        [first, second, third] => match (fixed(*second), fixed(*third)) {
            (Some(second), Some(third)) => {
                look_along(name, *first, &[second, third], registers, cast, reader, out)
            }
            _ => look_points(name, indices, registers, cast, reader, out),
        },
        _ => look_points(name, indices, registers, cast, reader, out),
    }
}

/// What a name finds at the turns of a run, where these are the indices but the first.
fn look_along<R: RunReader>(
    name: &str,
    first: Lanes,
    others: &[i64],
    registers: &[u32],
    cast: Option<Ty>,
    reader: &R,
    out: &mut [u32],
) -> Option<Ty>
    ensures { IfSome result (λ t. (m : Memory ValueFound) → R.agrees reader.now m → (k : ℕ) → k < length out.new → found_as cast (R.look reader.now m name.now (lane_number first registers.now k ∷ others.now)) ≡ Some (typed t (word_at t out.new k))) }
{
    match look_rising(name, first, others, cast, reader, out) {
        Some(ty) => Some(ty),
        None => look_singly(name, first, others, registers, cast, reader, out),
    }
}

/// What a name finds at the turns of a run along a row, where the first index rises by one, and perhaps stays at ends.
fn look_rising<R: RunReader>(
    name: &str,
    first: Lanes,
    others: &[i64],
    cast: Option<Ty>,
    reader: &R,
    out: &mut [u32],
) -> Option<Ty>
    ensures { IfSome result (λ t. (m : Memory ValueFound) → R.agrees reader.now m → (ws : List ℕ) (k : ℕ) → k < length out.new → found_as cast (R.look reader.now m name.now (lane_number first ws k ∷ others.now)) ≡ Some (typed t (word_at t out.new k))) }
{
    match first {
        Lanes::Ramp(_, number) => reader.look_row(name, number.value, others, cast, out),
        Lanes::Clamped(_, ramp) => look_bent(name, ramp, others, cast, reader, out),
        _ => None,
    }
}

/// How many of so many turns of a ramp come before it reaches a number.
fn turns_below(first: i64, number: i64, count: usize) -> Option<usize>
    ensures most { IfSome result (λ n. n ≤ count) }
    ensures below { IfSome result (λ n. (k : ℕ) → k < n → (first +ℤ pos (k + 1)) ≤ℤ number) }
    ensures above { IfSome result (λ n. (k : ℕ) → n ≤ k → k < count → number ≤ℤ (first +ℤ pos k)) }
{
    if number <= first {
        return Some(0);
    }
    let turns = distance(first, number)?;
    if turns < count {
        Some(turns)
    } else {
        Some(count)
    }
}

/// The number that lies so many behind another, if it is of 64 bits.
pub(crate) fn number_after(first: i64, turns: usize) -> Option<i64>
    ensures { IfSome result (λ z. z ≡ first +ℤ pos turns) }
{
    first.checked_add(i64::try_from(turns).ok()?)
}

/// The turns between which a clamped ramp rises by one at each, from this number on: it stays there before them, and at the last one's
/// number behind them.
#[derive(Clone, Copy, Drop)]
pub(crate) struct Bends {
    pub start: i64,
    pub before: usize,
    pub after: usize,
}

/// One turn more than so many, of a number of turns.
fn one_turn_more(turns: usize, count: usize) -> usize
    ensures more { turns < count → result ≡ turns + 1 }
    ensures all { count ≤ turns → result ≡ count }
{
    if turns < count { turns + 1 } else { count }
}

/// Where a clamped ramp bends in so many turns, if it rises in them.
pub(crate) fn bends_of(ramp: ClampedRamp, count: usize) -> Option<Bends>
    ensures order { IfSome result (λ b. (b.before < b.after) × (b.after ≤ count)) }
    ensures low { IfSome result (λ b. (k : ℕ) → k < b.before → clamped_number ramp k ≡ b.start) }
    ensures rising { IfSome result (λ b. (k : ℕ) → b.before + k < b.after → clamped_number ramp (b.before + k) ≡ b.start +ℤ pos k) }
    ensures high { IfSome result (λ b. (k last : ℕ) → b.after ≤ k → k < count → b.before + last + 1 ≡ b.after → clamped_number ramp k ≡ b.start +ℤ pos last) }
{
    if ramp.high.value < ramp.low.value {
        return None;
    }
    let before = turns_below(ramp.first.value, ramp.low.value, count)?;
    let reached = turns_below(ramp.first.value, ramp.high.value, count)?;
    if reached <= before {
        return None;
    }
    let start = number_after(ramp.first.value, before)?;
    Some(Bends {
        start,
        before,
        after: one_turn_more(reached, count),
    })
}

/// What a name finds at the turns of a run, where the first index is a clamped ramp's number, which bends in them: along a row,
/// before which and behind which it stays.
pub(crate) fn look_bent<R: RunReader>(
    name: &str,
    ramp: ClampedRamp,
    others: &[i64],
    cast: Option<Ty>,
    reader: &R,
    out: &mut [u32],
) -> Option<Ty>
    ensures { IfSome result (λ t. (m : Memory ValueFound) → R.agrees reader.now m → (k : ℕ) → k < length out.new → found_as cast (R.look reader.now m name.now (clamped_number ramp k ∷ others.now)) ≡ Some (typed t (word_at t out.new k))) }
{
    let bends = bends_of(ramp, out.len())?;
    let (left, rest) = out.split_at_mut(bends.before);
    let (middle, right) = rest.split_at_mut(bends.after - bends.before);
    let ty = reader.look_row(name, bends.start, others, cast, middle)?;
    fill_words(middle[0], left);
    fill_words(middle[middle.len() - 1], right);
    Some(ty)
}
