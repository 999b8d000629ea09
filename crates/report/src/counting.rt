//! How often the lines of a statement store or fetch a function's cells, counted by multiplying, as far as is enough.

ghost use Rattle.std.specs.Prelude.{◌≡◌, ◌≤ℤ◌, ◌+ℤ◌, pos, int_le, int_lt, if◌then◌else◌, IfOk, IfSome, Ok, None, OnOk};
ghost use Rattle.plan.specs.Lists.{list_statements};
ghost use Rattle.plan.specs.Plan.{block};
ghost use Rattle.plan.specs.Symbols.{Symbols};
ghost use Rattle.plan.specs.View.{statement_of};
ghost use Rattle.plan.specs.Semantics.Actions.{after};
ghost use Rattle.interpreter.specs.Bindings.{named_value};
ghost use Rattle.interpreter.specs.Narrow.{FormsAreNarrow};
ghost use Rattle.report.specs.Counting.{IsPointCount, IsTally, IsBlockTally, IsTurnsTally, Fits};
ghost use Rattle.report.specs.Known.{AllSettled, AllowsAll};
ghost use Rattle.report.specs.Ranges.{Holds, IsOne};
ghost use Rattle.report.specs.Subject.{counted_of};

use crate::known::{Binding, bound, known_of};
use crate::ranges::{Range, count_of, ends_of, largest, range_of, smallest};
use crate::subject::{Subject, counts};
use crate::weighing::weighed_turns;
use lin::{Forms, Span1, Sym};
use plan::{Pick, Stmt};
use std::alloc::{AllocError, Global};

/// How many points a region has, where the ends of its spans can have but one value.
pub(crate) fn points_in(region: &[Span1], known: &[Binding]) -> Option<u64>
    ensures holds { IfSome result (IsPointCount known.now region.now) }
    ensures one { AllSettled known.now → result ≡ None → ⊥ }
{
    let [span, rest @ ..] = region else {
        return Some(1);
    };
    let ends = ends_of(span, known)?;
    let count = points_in(rest, known)?;
    Some(count.saturating_mul(count_of(ends)))
}

/// Turns of a loop: its symbol, where the first of all turns stands, and the numbers of these turns.
#[derive(Clone, Copy, Drop)]
pub(crate) struct Turns {
    pub symbol: Sym,
    pub start: i64,
    pub range: Range,
}

/// What is known of the loop's symbol in these turns.
pub(crate) fn binding_of(turns: Turns) -> Binding
    ensures { result ≡ record { symbol = turns.symbol; low = turns.range.low; high = turns.range.high; first = int_le turns.range.low turns.start; later = int_lt turns.start turns.range.high } }
{
    Binding {
        symbol: turns.symbol,
        low: turns.range.low,
        high: turns.range.high,
        first: turns.range.low <= turns.start,
        later: turns.start < turns.range.high,
    }
}

/// Between which numbers the smallest or the largest of some forms lies.
fn named(pick: Pick, forms: &Forms, known: &[Binding]) -> Range
    ensures holds { (s : Symbols) → AllowsAll known.now s → FormsAreNarrow s forms.now → Holds result (named_value pick s forms.now) }
    ensures one { AllSettled known.now → IsOne result }
{
    match pick {
        Pick::Min => smallest(forms, known),
        Pick::Max => largest(forms, known),
    }
}

/// What is known behind a line: the name of a `let` holds to the end of the block.
pub(crate) fn known_behind(stmt: &Stmt, known: &mut Vec<Binding>) -> Result<(), AllocError>
    ensures allows { OnOk result ((s : Symbols) → AllowsAll known.old.items s → Fits (statement_of stmt.now) s → AllowsAll known.new.items (after (statement_of stmt.now) s)) }
    ensures settled { OnOk result (AllSettled known.old.items → AllSettled known.new.items) }
{
    let Stmt::Let {
        symbol,
        pick,
        forms,
    } = stmt
    else {
        return Ok(());
    };
    let range = named(*pick, forms, known);
    known.push(Binding {
        symbol: *symbol,
        low: range.low,
        high: range.high,
        first: true,
        later: false,
    })?;
    Ok(())
}

/// How often a store counts.
fn once_if(counts: bool) -> u64
    ensures { result ≡ (if counts then 1 else 0) }
{
    if counts { 1 } else { 0 }
}

/// All turns of a loop.
pub(crate) fn all_turns(symbol: Sym, range: Range) -> Turns
    ensures { result ≡ record { symbol = symbol; start = range.low; range = range } }
{
    Turns {
        symbol,
        start: range.low,
        range,
    }
}

/// Some of the turns.
fn part_of(turns: Turns, low: i64, high: i64) -> Turns
    ensures { result ≡ record { symbol = turns.symbol; start = turns.start; range = record { low = low; high = high } } }
{
    Turns {
        symbol: turns.symbol,
        start: turns.start,
        range: Range { low, high },
    }
}

/// The number that lies so far behind another, or the last number where that is nearer.
fn reached(from: i64, reach: i64, last: i64) -> i64
    requires reach { pos 0 ≤ℤ reach }
    requires from { from ≤ℤ last }
    ensures from { from ≤ℤ result }
    ensures last { result ≤ℤ last }
    ensures near { result ≤ℤ (from +ℤ reach) }
{
    from.saturating_add(reach).min(last)
}

/// Twice as far.
fn farther(reach: i64) -> i64
    requires { pos 0 ≤ℤ reach }
    ensures { pos 0 ≤ℤ result }
{
    reach.saturating_add(reach).saturating_add(1)
}

/// How often the lines of a statement count. Where none does, that is 0 whatever values the symbols may have.
#[cycle(count)]
fn count_line(
    alloc: Global,
    subject: &Subject<'_>,
    stmt: &Stmt,
    known: &[Binding],
) -> Result<Option<u64>, AllocError>
    ensures holds { IfOk result (λ o. IfSome o (IsTally (counted_of subject.now) known.now (statement_of stmt.now))) }
    ensures some { AllSettled known.now → result ≡ Ok None → ⊥ }
{
    match count(alloc, subject, stmt, known)? {
        Some(count) => Ok(Some(count)),
        None => {
            if counts(subject, stmt) {
                Ok(None)
            } else {
                Ok(Some(0))
            }
        }
    }
}

/// How often the lines of a loop's body count in these turns, where each is seen to count the same or all of them are counted
/// together.
#[cycle(count)]
fn count_alike(
    alloc: Global,
    subject: &Subject<'_>,
    body: &Stmt,
    known: &[Binding],
    turns: Turns,
) -> Result<Option<u64>, AllocError>
    ensures holds { IfOk result (λ o. IfSome o (IsTurnsTally (counted_of subject.now) known.now (statement_of body.now) turns)) }
    ensures some { AllSettled known.now → turns.range.low ≡ turns.range.high → result ≡ Ok None → ⊥ }
{
    let together = bound(alloc, known, binding_of(turns))?;
    match count_line(alloc, subject, body, &together)? {
        Some(each) => Ok(Some(each.saturating_mul(count_of(turns.range)))),
        None => {
            if turns.range.low == turns.range.high {
                Ok(None)
            } else {
                weighed_turns(alloc, subject, body, known, &[], turns)
            }
        }
    }
}

/// How often the lines of a loop's body count in all of its turns, where it is the same for all values that the symbols may
/// have. As many turns as are seen to count the same are counted at once: half as many are tried where they are not, and
/// twice as many where they are. Behind turns that count enough none is tried.
#[cycle(count)]
fn count_turns(
    alloc: Global,
    subject: &Subject<'_>,
    body: &Stmt,
    known: &[Binding],
    turns: Turns,
) -> Result<Option<u64>, AllocError>
    ensures holds { IfOk result (λ o. IfSome o (IsTurnsTally (counted_of subject.now) known.now (statement_of body.now) turns)) }
    ensures some { AllSettled known.now → result ≡ Ok None → ⊥ }
{
    let mut total: u64 = 0;
    let mut low = turns.range.low;
    let mut reach = i64::MAX;
    while low <= turns.range.high {
        if subject.enough <= total {
            return Ok(Some(total));
        }
        let high = reached(low, reach, turns.range.high);
        match count_alike(alloc, subject, body, known, part_of(turns, low, high))? {
            Some(more) => {
                total = total.saturating_add(more);
                if high == turns.range.high {
                    return Ok(Some(total));
                }
                low = high + 1;
                reach = farther(reach);
            }
            None => {
                if low == high {
                    return Ok(None);
                }
                reach = (high - low) / 2;
            }
        }
    }
    Ok(Some(total))
}

/// How often the lines of a block's statements count, where that is the same for all values that the symbols may have. Behind
/// lines that count enough none is looked at.
#[cycle(count)]
fn count_block(
    alloc: Global,
    subject: &Subject<'_>,
    all: &[Stmt],
    known: &[Binding],
) -> Result<Option<u64>, AllocError>
    ensures holds { IfOk result (λ o. IfSome o (IsBlockTally (counted_of subject.now) known.now (block (list_statements all.now)))) }
    ensures some { AllSettled known.now → result ≡ Ok None → ⊥ }
{
    let mut here = Vec::from_slice(alloc, known)?;
    let mut total: u64 = 0;
    for stmt in all {
        if subject.enough <= total {
            return Ok(Some(total));
        }
        let Some(more) = count_line(alloc, subject, stmt, &here)? else {
            return Ok(None);
        };
        total = total.saturating_add(more);
        known_behind(stmt, &mut here)?;
    }
    Ok(Some(total))
}

/// The same of a statement.
#[cycle(count)]
pub(crate) fn count(
    alloc: Global,
    subject: &Subject<'_>,
    stmt: &Stmt,
    known: &[Binding],
) -> Result<Option<u64>, AllocError>
    ensures holds { IfOk result (λ o. IfSome o (IsTally (counted_of subject.now) known.now (statement_of stmt.now))) }
    ensures some { AllSettled known.now → result ≡ Ok None → ⊥ }
{
    match stmt {
        Stmt::Seq(all) => count_block(alloc, subject, all, known),
        Stmt::For {
            symbol,
            span,
            body,
            ..
        } => match ends_of(span, known) {
            Some(range) => { count_turns(alloc, subject, body, known, all_turns(*symbol, range)) }
            None => Ok(None),
        },
        Stmt::First {
            symbol,
            first,
            later,
        } => {
            let binding = known_of(known, *symbol);
            if !binding.later {
                count(alloc, subject, first, known)
            } else if !binding.first {
                count(alloc, subject, later, known)
            } else {
                Ok(None)
            }
        }
        Stmt::Guard { low, high, body } => {
            let low = range_of(low, known);
            let high = range_of(high, known);
            if low.high <= high.low {
                count(alloc, subject, body, known)
            } else if low.low > high.high {
                Ok(Some(0))
            } else {
                Ok(None)
            }
        }
        Stmt::Fetch { group, region, .. } => {
            if subject.counts_group(*group) {
                Ok(points_in(region.as_slice(), known))
            } else {
                Ok(Some(0))
            }
        }
        Stmt::Store { buffer, .. } => Ok(Some(once_if(subject.counts_buffer(*buffer)))),
        Stmt::Let { .. } | Stmt::Alloc { .. } | Stmt::Publish { .. } => Ok(Some(0)),
    }
}
