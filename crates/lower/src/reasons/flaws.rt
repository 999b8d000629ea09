//! Which part of an index, or which splits, have a form past the limits of forms.

use crate::reasons::causes::Excess;
use algo::Algo;
use lin::{Lin, Span1};
use numeric::Op;
use sched::Split;
use sched::definitions::Stored;
use sched::scopes::{Around, interval};
use sched::stop::Stop;
use std::alloc::{AllocError, Global};
use tree::Expr;
use tree::token::{Name, Span};

/// The largest factor of a form.
const LARGEST_FACTOR: u64 = 1 << 20;

/// The most symbols of a form.
const MOST_SYMBOLS: usize = 8;

/// A part of an index that has a form past the limits.
#[derive(Clone, Copy, Drop)]
pub(crate) struct Flaw {
    pub place: Span,
    pub excess: Excess,
    /// The number by which the text multiplies there, without its sign.
    pub multiplier: Option<u64>,
}

// ---- forms

// How large the factors of a form are at most.
fn largest_factor(form: &Lin) -> u64 {
    let mut largest: u64 = 0;
    for term in form.terms() {
        largest = largest.max(term.factor.unsigned_abs());
    }
    largest
}

fn largest_of(forms: &[Lin]) -> u64 {
    let mut largest: u64 = 0;
    for form in forms {
        largest = largest.max(largest_factor(form));
    }
    largest
}

// The same of both ends.
fn largest_in(span: &Span1) -> u64 {
    largest_of(span.lower.as_slice()).max(largest_of(span.upper.as_slice()))
}

// The size of the number that a span is, where it is one.
fn size_of(span: &Span1) -> Option<u64> {
    match (span.lower.as_slice(), span.upper.as_slice()) {
        ([low], [high]) => {
            if low.is_number() && high.is_number() && low.constant() == high.constant() {
                Some(low.constant().unsigned_abs())
            } else {
                None
            }
        }
        _ => None,
    }
}

// How large the factors of a sum of two forms are at most, or of a difference.
fn largest_summed(one: &Lin, other: &Lin, sign: i64) -> u64 {
    let mut largest: u64 = 0;
    for term in one.terms() {
        let added = other.factor(term.symbol).saturating_mul(sign);
        let sum = term.factor.saturating_add(added);
        largest = largest.max(sum.unsigned_abs());
    }
    largest
}

// How many symbols two forms have.
fn symbols_in(one: &Lin, other: &Lin) -> usize {
    let mut count = one.terms().len();
    for term in other.terms() {
        if one.factor(term.symbol) == 0 {
            count = count.saturating_add(1);
        }
    }
    count
}

// Which limit a sum of two forms passes, or a difference.
fn excess_of_sum(one: &Lin, other: &Lin, sign: i64) -> Excess {
    let largest = largest_summed(one, other, sign);
    let count = symbols_in(one, other);
    if largest > LARGEST_FACTOR {
        Excess::Factor(largest)
    } else if count > MOST_SYMBOLS {
        Excess::Symbols(count)
    } else {
        Excess::Some
    }
}

// The same of the first two of these forms of which it is known.
fn excess_of_sums(ones: &[Lin], others: &[Lin], sign: i64) -> Excess {
    for one in ones {
        let found = excess_with(one, others, sign);
        if !matches!(found, Excess::Some) {
            return found;
        }
    }
    Excess::Some
}

fn excess_with(one: &Lin, others: &[Lin], sign: i64) -> Excess {
    for other in others {
        let found = excess_of_sum(one, other, sign);
        if !matches!(found, Excess::Some) {
            return found;
        }
    }
    Excess::Some
}

fn excess_of_spans(left: &Span1, right: &Span1, sign: i64) -> Excess {
    let found = excess_of_sums(left.lower.as_slice(), right.lower.as_slice(), sign);
    if !matches!(found, Excess::Some) {
        return found;
    }
    excess_of_sums(left.upper.as_slice(), right.upper.as_slice(), sign)
}

fn flaw_of_product(place: Span, left: &Span1, right: &Span1) -> Flaw {
    let (multiplier, factor) = match (size_of(left), size_of(right)) {
        (Some(number), _) => (Some(number), largest_in(right)),
        (None, Some(number)) => (Some(number), largest_in(left)),
        (None, None) => (None, 0),
    };
    let product = factor.saturating_mul(multiplier.unwrap_or(0));
    if product > LARGEST_FACTOR {
        Flaw {
            place,
            excess: Excess::Factor(product),
            multiplier,
        }
    } else {
        Flaw {
            place,
            excess: Excess::Some,
            multiplier: None,
        }
    }
}

// What is wrong with the result of an operator.
fn flaw_of(place: Span, op: Op, left: &Span1, right: &Span1) -> Flaw {
    let excess = match op {
        Op::Mul => return flaw_of_product(place, left, right),
        Op::Add => excess_of_spans(left, right, 1),
        Op::Sub => excess_of_spans(left, right, -1),
        Op::Div | Op::Rem | Op::Min | Op::Max => Excess::Some,
    };
    Flaw {
        place,
        excess,
        multiplier: None,
    }
}

// ---- parts of an index

/// Whether a form passes its limits.
pub(crate) fn passes_limits<T: Drop>(made: Result<T, Stop>) -> Result<bool, AllocError> {
    match made {
        Ok(_) => Ok(false),
        Err(Stop::Limit) => Ok(true),
        Err(Stop::Memory) => Err(AllocError),
    }
}

/// What an expression stays within; none where a form leaves its limits.
pub(crate) fn interval_or_none(
    alloc: Global,
    algo: &Algo,
    around: &Around<'_>,
    expr: &Expr,
) -> Result<Option<Span1>, AllocError> {
    match interval(alloc, algo, around, expr) {
        Ok(span) => Ok(Some(span)),
        Err(Stop::Limit) => Ok(None),
        Err(Stop::Memory) => Err(AllocError),
    }
}

// What is wrong with the result of an operator of whose operands the left one stays within a span.
fn flaw_beside(
    alloc: Global,
    algo: &Algo,
    around: &Around<'_>,
    place: Span,
    op: Op,
    left: &Span1,
    right: &Expr,
) -> Result<Option<Flaw>, AllocError> {
    match interval_or_none(alloc, algo, around, right)? {
        Some(right) => Ok(Some(flaw_of(place, op, left, &right))),
        None => Ok(None),
    }
}

// What is wrong with the result of an operator of which both operands have bounds.
fn operator_flaw(
    alloc: Global,
    algo: &Algo,
    around: &Around<'_>,
    place: Span,
    op: Op,
    left: &Expr,
    right: &Expr,
) -> Result<Option<Flaw>, AllocError> {
    match interval_or_none(alloc, algo, around, left)? {
        Some(left) => flaw_beside(alloc, algo, around, place, op, &left, right),
        None => Ok(None),
    }
}

// What is wrong with an expression of which the parts have bounds.
fn own_flaw(
    alloc: Global,
    algo: &Algo,
    around: &Around<'_>,
    expr: &Expr,
) -> Result<Flaw, AllocError> {
    let place = expr.span();
    let found = match expr {
        Expr::Binary {
            op,
            left,
            right,
            ..
        } => operator_flaw(alloc, algo, around, place, *op, left, right)?,
        _ => None,
    };
    Ok(found.unwrap_or(Flaw {
        place,
        excess: Excess::Some,
        multiplier: None,
    }))
}

/// The smallest part of an expression that has a form past the limits, the first of several; none where it has bounds.
pub(crate) fn flaw_in(
    alloc: Global,
    algo: &Algo,
    around: &Around<'_>,
    expr: &Expr,
) -> Result<Option<Flaw>, AllocError> {
    if !passes_limits(interval(alloc, algo, around, expr))? {
        return Ok(None);
    }
    let found = match expr {
        Expr::Literal { .. } | Expr::Variable { .. } | Expr::Call { .. } => None,
        Expr::Negate { value, .. } | Expr::Cast { value, .. } => {
            flaw_in(alloc, algo, around, value)?
        }
        Expr::Binary { left, right, .. } => match flaw_in(alloc, algo, around, left)? {
            Some(flaw) => Some(flaw),
            None => flaw_in(alloc, algo, around, right)?,
        },
        Expr::Clamp { value, .. } => flaw_in(alloc, algo, around, value)?,
        Expr::Select { yes, no, .. } => match flaw_in(alloc, algo, around, yes)? {
            Some(flaw) => Some(flaw),
            None => flaw_in(alloc, algo, around, no)?,
        },
    };
    match found {
        Some(flaw) => Ok(Some(flaw)),
        None => Ok(Some(own_flaw(alloc, algo, around, expr)?)),
    }
}

// ---- splits

/// A loop that splits make, and how often it counts in its dimension.
#[derive(Clone, Copy, Drop)]
pub(crate) struct Counted {
    name: Name,
    factor: u64,
}

/// How often the loop of this name counts, where it is one of them.
pub(crate) fn factor_named(known: &[Counted], name: &Name) -> Option<u64> {
    for one in known {
        if one.name.as_str() == name.as_str() {
            return Some(one.factor);
        }
    }
    None
}

/// The loops that the splits of a variable make, that one first.
pub(crate) fn counted_of(
    alloc: Global,
    cuts: &[Split],
    variable: &Name,
) -> Result<Vec<Counted>, AllocError> {
    let mut known = Vec::new(alloc);
    known.push(Counted {
        name: *variable,
        factor: 1,
    })?;
    for cut in cuts {
        if let Some(factor) = factor_named(&known, &cut.whole) {
            known.push(Counted {
                name: cut.outer,
                factor: factor.saturating_mul(u64::from(cut.factor)),
            })?;
            known.push(Counted {
                name: cut.inner,
                factor,
            })?;
        }
    }
    Ok(known)
}

// Which limit the loops of a variable pass. Each split makes two loops of one.
fn excess_of_loops(known: &[Counted]) -> Option<Excess> {
    let mut largest: u64 = 0;
    for one in known {
        largest = largest.max(one.factor);
    }
    let loops = (known.len().saturating_sub(1) / 2).saturating_add(1);
    if largest > LARGEST_FACTOR {
        Some(Excess::Factor(largest))
    } else if loops > MOST_SYMBOLS {
        Some(Excess::Symbols(loops))
    } else {
        None
    }
}

/// The first variable of a function whose splits alone have a form past the limits.
pub(crate) fn split_flaw(
    alloc: Global,
    stored: &Stored<'_>,
) -> Result<Option<(Name, Excess)>, AllocError> {
    for variable in &stored.subject.variables {
        let known = counted_of(alloc, &stored.placed.cuts, variable)?;
        if let Some(excess) = excess_of_loops(&known) {
            return Ok(Some((*variable, excess)));
        }
    }
    Ok(None)
}
