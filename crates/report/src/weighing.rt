//! How often a statement's lines count, over many values of symbols at once: for each value how often the symbol has it.
//!
//! Where a loop runs to the number of the one outside, how often its symbol has a value follows from how often the outer one
//! has each: the two sums change places.

ghost use Rattle.std.specs.Prelude.{◌≡◌, ℕ, ◌-◌, ◌^◌, ◌<◌, ◌≤◌, Bool, true, false, length, replicate, slice_get, slice_set, sum, ℤ, pos, ◌+ℤ◌, IfOk, IfSome};
ghost use Rattle.plan.specs.declared.stmt.Kind.{Kind};
ghost use Rattle.plan.specs.Lists.{list_statements};
ghost use Rattle.plan.specs.Plan.{block, Fetch, For, Guard, Seq};
ghost use Rattle.plan.specs.Symbols.{rising};
ghost use Rattle.plan.specs.View.{statement_of};
ghost use Rattle.interpreter.specs.Narrow.{IsNumber};
ghost use Rattle.report.specs.Costs.{capped};
ghost use Rattle.report.specs.Known.{Allows};
ghost use Rattle.report.specs.Ranges.{numbers};
ghost use Rattle.report.specs.Subject.{counted_of};
ghost use Rattle.report.specs.Weighing.{all_weighed, all_weights, is_weighed, weighed_from, weighed_of, AreEndsAt, AreHeavier, ArePassedOn, IsCountOf, IsHandedBy, IsWeighedTurns, KeepsValues};

use crate::counting::{Turns, all_turns, binding_of, known_behind, points_in};
use crate::known::{Binding, bound, known_of};
use crate::ranges::{Range, count_of, ends_of, range_of};
use crate::subject::{Subject, counts};
use lin::{Lin, Span1, Sym};
use plan::Stmt;
use std::alloc::{AllocError, Global};

/// How many values of a symbol are weighed: as many as a loop over a function's points has turns.
const MOST_VALUES: u64 = 8192;

/// How often a symbol has each of the numbers from `low` on. More than a `u64` holds count as the greatest `u64`.
#[derive(Drop)]
pub(crate) struct Weighing {
    pub symbol: Sym,
    pub low: i64,
    pub weights: Vec<u64>,
}

/// The weights of an inner loop's numbers: of which outer symbol they were made, and the first number.
#[derive(Drop)]
pub(crate) struct Handed {
    place: usize,
    low: i64,
    weights: Vec<u64>,
}

/// How often a symbol has any of its values.
fn total_of(weights: &[u64]) -> u64
    ensures { result ≡ capped (sum weights.now) }
{
    let mut total: u64 = 0;
    for weight in weights {
        total = total.saturating_add(*weight);
    }
    total
}

/// How often the symbols have any of their values together.
#[tactic(auto, using(crate::proofs::Sums::saturated_both))]
fn all_of(weighings: &[Weighing]) -> u64
    ensures { result ≡ capped (all_weights (all_weighed weighings.now)) }
{
    match weighings {
        [] => 1,
        [weighing, rest @ ..] => all_of(rest).saturating_mul(total_of(&weighing.weights)),
    }
}

/// Whether the symbol's values are weighed.
fn is_weighed(weighings: &[Weighing], symbol: Sym) -> bool
    ensures { result ≡ is_weighed (all_weighed weighings.now) symbol }
{
    for weighing in weighings {
        if weighing.symbol == symbol {
            return true;
        }
    }
    false
}

/// Whether a line gives a symbol whose values are weighed another value.
fn is_renamed(stmt: &Stmt, weighings: &[Weighing]) -> bool
    ensures { result ≡ false → KeepsValues (all_weighed weighings.now) (statement_of stmt.now) }
{
    match stmt {
        Stmt::Let { symbol, .. } => is_weighed(weighings, *symbol),
        _ => false,
    }
}

/// The same weight for so many numbers.
fn same_weights(alloc: Global, weight: u64, count: u64) -> Result<Vec<u64>, AllocError>
    ensures { IfOk result (λ weights. weights.items ≡ replicate count weight) }
{
    let mut weights = Vec::new(alloc);
    for _ in 0..count {
        weights.push(weight)?;
    }
    Ok(weights)
}

/// These weights of a symbol.
fn weighing_of(
    alloc: Global,
    symbol: Sym,
    low: i64,
    weights: &[u64],
) -> Result<Weighing, AllocError>
    ensures { IfOk result (λ weighing. weighed_of weighing ≡ weighed_from symbol low weights.now) }
{
    let weights = Vec::from_slice(alloc, weights)?;
    Ok(Weighing {
        symbol,
        low,
        weights,
    })
}

/// The same weights.
fn copied(alloc: Global, weighings: &[Weighing]) -> Result<Vec<Weighing>, AllocError>
    ensures { IfOk result (λ more. all_weighed more.items ≡ all_weighed weighings.now) }
{
    let mut more = Vec::new(alloc);
    for weighing in weighings {
        more.push(weighing_of(alloc, weighing.symbol, weighing.low, &weighing.weights)?)?;
    }
    Ok(more)
}

/// The same weights, but another symbol's in one place.
fn replaced(
    alloc: Global,
    weighings: &[Weighing],
    place: usize,
    symbol: Sym,
    low: i64,
    weights: &[u64],
) -> Result<Vec<Weighing>, AllocError>
    ensures { IfOk result (λ more. all_weighed more.items ≡ slice_set (all_weighed weighings.now) place (weighed_from symbol low weights.now)) }
{
    let mut more = Vec::new(alloc);
    for number in 0..weighings.len() {
        let weighing = &weighings[number];
        let made = if number == place {
            weighing_of(alloc, symbol, low, weights)?
        } else {
            weighing_of(alloc, weighing.symbol, weighing.low, &weighing.weights)?
        };
        more.push(made)?;
    }
    Ok(more)
}

/// A symbol that may have any value, in a first turn or not.
fn any_value(symbol: Sym) -> Binding
    ensures symbol { result.symbol ≡ symbol }
    ensures allows { (z : ℤ) (turn : Bool) → IsNumber z → Allows result z turn }
{
    Binding {
        symbol,
        low: i64::MIN,
        high: i64::MAX,
        first: true,
        later: true,
    }
}

/// A symbol that has this value, in a first turn or not.
fn one_value(symbol: Sym, value: i64) -> Binding
    ensures { result ≡ record { symbol = symbol; low = value; high = value; first = true; later = true } }
{
    Binding {
        symbol,
        low: value,
        high: value,
        first: true,
        later: true,
    }
}

/// The numbers of a span where a symbol has this value, if the span's ends can have but one value then.
fn ends_at(
    alloc: Global,
    span: &Span1,
    known: &[Binding],
    symbol: Sym,
    value: i64,
) -> Result<Option<Range>, AllocError>
    ensures { IfOk result (AreEndsAt known.now symbol value span.now) }
{
    let here = bound(alloc, known, one_value(symbol, value))?;
    Ok(ends_of(span, &here))
}

/// The numbers from the lowest to the highest of two ranges, where the second is not empty.
fn united(hull: Range, more: Range) -> Range {
    if more.low > more.high {
        hull
    } else if hull.low > hull.high {
        more
    } else {
        Range {
            low: hull.low.min(more.low),
            high: hull.high.max(more.high),
        }
    }
}

/// The numbers from the lowest to the highest of a span, over all values that the symbol has, if its ends can have but one
/// value for each.
fn hull_of(
    alloc: Global,
    span: &Span1,
    known: &[Binding],
    weighing: &Weighing,
) -> Result<Option<Range>, AllocError> {
    let mut hull = Range { low: 0, high: -1 };
    let mut value = weighing.low;
    for weight in &weighing.weights {
        if *weight != 0 {
            let Some(ends) = ends_at(alloc, span, known, weighing.symbol, value)? else {
                return Ok(None);
            };
            hull = united(hull, ends);
        }
        value = value.saturating_add(1);
    }
    Ok(Some(hull))
}

/// A weight more for the numbers at these places.
fn add_at(weights: &mut [u64], from: usize, to: usize, weight: u64)
    requires from { from ≤ to }
    requires to { to ≤ length weights.old }
    ensures { (m : ℕ) (low : ℤ) → m < 2 ^ 64 → AreHeavier m low weights.old weights.new weight (rising (low +ℤ pos from) (to - from)) }
{
    for place in from..to {
        weights[place] = weights[place].saturating_add(weight);
    }
}

/// A weight more for each number of a range, where all of them are weighed.
fn add_to(weights: &mut [u64], low: i64, ends: Range, weight: u64) -> bool
    ensures { result ≡ true → (m : ℕ) → m < 2 ^ 64 → AreHeavier m low weights.old weights.new weight (numbers ends) }
{
    let count = count_of(ends);
    if count == 0 {
        return true;
    }
    let from = ends.low.abs_diff(low);
    if ends.low < low || from > MOST_VALUES || count > MOST_VALUES {
        return false;
    }
    let to = from + count;
    if to > weights.len() as u64 {
        return false;
    }
    add_at(weights, from as usize, to as usize, weight);
    true
}

/// How often an inner loop has each number of the hull, where its ends name this symbol.
fn weights_over(
    alloc: Global,
    span: &Span1,
    known: &[Binding],
    weighing: &Weighing,
    hull: Range,
) -> Result<Option<Vec<u64>>, AllocError>
    ensures { IfOk result (λ o. IfSome o (λ made. ArePassedOn known.now span.now (weighed_of weighing.now) hull.low made.items)) }
{
    let mut weights = same_weights(alloc, 0, count_of(hull))?;
    let mut value = weighing.low;
    for place in 0..weighing.weights.len() {
        let weight = weighing.weights[place];
        if weight != 0 {
            let Some(ends) = ends_at(alloc, span, known, weighing.symbol, value)? else {
                return Ok(None);
            };
            if !add_to(&mut weights, hull.low, ends, weight) {
                return Ok(None);
            }
        }
        let Some(next) = value.checked_add(1) else {
            return Ok(None);
        };
        value = next;
    }
    Ok(Some(weights))
}

/// The weights that an inner loop's numbers have by those of one symbol, if its ends name no other one that is weighed.
fn passed_by(
    alloc: Global,
    span: &Span1,
    known: &[Binding],
    place: usize,
    weighing: &Weighing,
) -> Result<Option<Handed>, AllocError>
    ensures place { IfOk result (λ o. IfSome o (λ p. p.place ≡ place)) }
    ensures passed { IfOk result (λ o. IfSome o (IsHandedBy known.now span.now weighing.now)) }
{
    let Some(hull) = hull_of(alloc, span, known, weighing)? else {
        return Ok(None);
    };
    if count_of(hull) > MOST_VALUES {
        return Ok(None);
    }
    match weights_over(alloc, span, known, weighing, hull)? {
        Some(weights) => Ok(Some(Handed {
            place,
            low: hull.low,
            weights,
        })),
        None => Ok(None),
    }
}

/// The weights that an inner loop's numbers have by those of the one symbol that its ends name, if there is one.
fn passed(
    alloc: Global,
    span: &Span1,
    known: &[Binding],
    weighings: &[Weighing],
) -> Result<Option<Handed>, AllocError>
    ensures place { IfOk result (λ o. IfSome o (λ p. p.place < length weighings.now)) }
    ensures passed { IfOk result (λ o. IfSome o (λ p. IfSome (slice_get weighings.now p.place) (λ w. IsHandedBy known.now span.now w p))) }
{
    for place in 0..weighings.len() {
        if let Some(passed) = passed_by(alloc, span, known, place, &weighings[place])? {
            return Ok(Some(passed));
        }
    }
    Ok(None)
}

/// How often the lines of an inner loop's body count, where its ends name one of the symbols.
#[cycle(weighed)]
fn weighed_inner(
    alloc: Global,
    subject: &Subject<'_>,
    body: &Stmt,
    known: &[Binding],
    weighings: &[Weighing],
    symbol: Sym,
    span: &Span1,
) -> Result<Option<u64>, AllocError>
    requires { is_weighed (all_weighed weighings.now) symbol ≡ false }
    ensures { (kind : Kind) → IfOk result (λ o. IfSome o (IsCountOf subject.now known.now weighings.now (For symbol span.now kind (statement_of body.now)))) }
{
    let Some(passed) = passed(alloc, span, known, weighings)? else {
        return Ok(None);
    };
    let more = replaced(
        alloc,
        weighings,
        passed.place,
        symbol,
        passed.low,
        &passed.weights,
    )?;
    let here = bound(alloc, known, any_value(symbol))?;
    weighed(alloc, subject, body, &here, &more)
}

/// How often the lines of a loop's body count in these turns, for all values of the symbols together.
#[cycle(weighed)]
pub(crate) fn weighed_turns(
    alloc: Global,
    subject: &Subject<'_>,
    body: &Stmt,
    known: &[Binding],
    weighings: &[Weighing],
    turns: Turns,
) -> Result<Option<u64>, AllocError>
    requires { is_weighed (all_weighed weighings.now) turns.symbol ≡ false }
    ensures { IfOk result (λ o. IfSome o (IsWeighedTurns (counted_of subject.now) known.now (all_weighed weighings.now) (statement_of body.now) turns)) }
{
    let count = count_of(turns.range);
    if count > MOST_VALUES {
        return Ok(None);
    }
    let weights = same_weights(alloc, 1, count)?;
    let mut more = copied(alloc, weighings)?;
    more.push(Weighing {
        symbol: turns.symbol,
        low: turns.range.low,
        weights,
    })?;
    let here = bound(alloc, known, binding_of(turns))?;
    weighed(alloc, subject, body, &here, &more)
}

/// How often the lines of a loop count, for all values of the symbols together.
#[cycle(weighed)]
fn weighed_loop(
    alloc: Global,
    subject: &Subject<'_>,
    body: &Stmt,
    known: &[Binding],
    weighings: &[Weighing],
    symbol: Sym,
    span: &Span1,
) -> Result<Option<u64>, AllocError>
    ensures { (kind : Kind) → IfOk result (λ o. IfSome o (IsCountOf subject.now known.now weighings.now (For symbol span.now kind (statement_of body.now)))) }
{
    if is_weighed(weighings, symbol) {
        return Ok(None);
    }
    match ends_of(span, known) {
        Some(range) => {
            let turns = all_turns(symbol, range);
            weighed_turns(alloc, subject, body, known, weighings, turns)
        }
        None => weighed_inner(alloc, subject, body, known, weighings, symbol, span),
    }
}

/// How often the lines of a block's statements count, for all values of the symbols together.
#[cycle(weighed)]
fn weighed_block(
    alloc: Global,
    subject: &Subject<'_>,
    all: &[Stmt],
    known: &[Binding],
    weighings: &[Weighing],
) -> Result<Option<u64>, AllocError>
    ensures { IfOk result (λ o. IfSome o (IsCountOf subject.now known.now weighings.now (Seq (block (list_statements all.now))))) }
{
    let mut here = Vec::from_slice(alloc, known)?;
    let mut total: u64 = 0;
    for stmt in all {
        if subject.enough <= total {
            return Ok(Some(total));
        }
        let Some(more) = weighed_line(alloc, subject, stmt, &here, weighings)? else {
            return Ok(None);
        };
        total = total.saturating_add(more);
        if is_renamed(stmt, weighings) {
            return Ok(None);
        }
        known_behind(stmt, &mut here)?;
    }
    Ok(Some(total))
}

/// How often the lines of a statement count, for all values of the symbols together. Where none does, that is 0 whatever
/// its loops ask.
#[cycle(weighed)]
fn weighed_line(
    alloc: Global,
    subject: &Subject<'_>,
    stmt: &Stmt,
    known: &[Binding],
    weighings: &[Weighing],
) -> Result<Option<u64>, AllocError>
    ensures { IfOk result (λ o. IfSome o (IsCountOf subject.now known.now weighings.now (statement_of stmt.now))) }
{
    if counts(subject, stmt) {
        weighed(alloc, subject, stmt, known, weighings)
    } else {
        Ok(Some(0))
    }
}

/// The same of a statement behind a guard.
#[cycle(weighed)]
fn weighed_guarded(
    alloc: Global,
    subject: &Subject<'_>,
    low: &Lin,
    high: &Lin,
    body: &Stmt,
    known: &[Binding],
    weighings: &[Weighing],
) -> Result<Option<u64>, AllocError>
    ensures { IfOk result (λ o. IfSome o (IsCountOf subject.now known.now weighings.now (Guard low.now high.now (statement_of body.now)))) }
{
    let low = range_of(low, known);
    let high = range_of(high, known);
    if low.high <= high.low {
        weighed(alloc, subject, body, known, weighings)
    } else if low.low > high.high {
        Ok(Some(0))
    } else {
        Ok(None)
    }
}

/// How many cells of a region are fetched, for all values of the symbols together, where the ends of its spans can have but
/// one value.
fn weighed_fetch(
    subject: &Subject<'_>,
    buffer: u64,
    group: u64,
    region: &[Span1],
    known: &[Binding],
    weighings: &[Weighing],
) -> Option<u64>
    ensures { IfSome result (IsCountOf subject.now known.now weighings.now (Fetch buffer group region.now)) }
{
    if !subject.counts_group(group) {
        return Some(0);
    }
    let count = points_in(region, known)?;
    Some(count.saturating_mul(all_of(weighings)))
}

/// How often a line counts in which no other line stands, for all values of the symbols together, where what it asks is known.
fn weighed_alone(
    subject: &Subject<'_>,
    stmt: &Stmt,
    known: &[Binding],
    weighings: &[Weighing],
) -> Option<u64>
    ensures { IfSome result (IsCountOf subject.now known.now weighings.now (statement_of stmt.now)) }
{
    match stmt {
        Stmt::Fetch {
            buffer,
            group,
            region,
        } => {
            let region = region.as_slice();
            weighed_fetch(subject, *buffer, *group, region, known, weighings)
        }
        Stmt::Store { buffer, .. } => {
            if subject.counts_buffer(*buffer) {
                Some(all_of(weighings))
            } else {
                Some(0)
            }
        }
        _ => None,
    }
}

/// How often the lines of a statement count, for all values of the symbols together, where what they ask is known. A loop
/// whose ends name one of the symbols hands its weights down to its own numbers.
#[cycle(weighed)]
fn weighed(
    alloc: Global,
    subject: &Subject<'_>,
    stmt: &Stmt,
    known: &[Binding],
    weighings: &[Weighing],
) -> Result<Option<u64>, AllocError>
    ensures { IfOk result (λ o. IfSome o (IsCountOf subject.now known.now weighings.now (statement_of stmt.now))) }
{
    match stmt {
        Stmt::Seq(all) => weighed_block(alloc, subject, all, known, weighings),
        Stmt::For {
            symbol,
            span,
            body,
            ..
        } => weighed_loop(alloc, subject, body, known, weighings, *symbol, span),
        Stmt::First {
            symbol,
            first,
            later,
        } => {
            let binding = known_of(known, *symbol);
            if !binding.later {
                weighed_line(alloc, subject, first, known, weighings)
            } else if !binding.first {
                weighed_line(alloc, subject, later, known, weighings)
            } else {
                Ok(None)
            }
        }
        Stmt::Guard { low, high, body } => {
            weighed_guarded(alloc, subject, low, high, body, known, weighings)
        }
        _ => Ok(weighed_alone(subject, stmt, known, weighings)),
    }
}
