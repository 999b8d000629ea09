//! Looks up the names of expressions, once a plan.

ghost use Rattle.std.specs.Bool.{OnTrue};
ghost use Rattle.std.specs.Prelude.{◌≡◌, List, map, string_bytes};
ghost use Rattle.interpreter.specs.Claims.{Means};
ghost use Rattle.interpreter.specs.Codes.{term_in, terms_in, test_in, ArePlaced, IsPlaced, IsPlacedTest, StandsAtPlace};
ghost use Rattle.tree.specs.Term.{indices, list_terms, term_of, test_of};

use crate::code::{Code, Codes, Condition};
use crate::loads::claim_of;
use meaning::sameness::same_name;
use plan::Coordinate;
use std::alloc::{AllocError, Global};
use tree::{Cond, Expr};

/// The place of the first of the coordinates that has the name, behind the last where none has it. Nothing rests on it.
fn place_of(coordinates: &[Coordinate], name: &str) -> usize {
    for (place, coordinate) in coordinates.iter().enumerate() {
        if same_name(coordinate.variable.as_str(), name) {
            return place;
        }
    }
    coordinates.len()
}

/// An expression with its names looked up. Nothing rests on it: what is made here is compared with the expression.
#[cycle(code_of)]
pub(crate) fn code_of(
    alloc: Global,
    coordinates: &[Coordinate],
    expr: &Expr,
) -> Result<Code, AllocError> {
    match expr {
        Expr::Literal { ty, number, .. } => Ok(Code::Number {
            ty: *ty,
            number: *number,
        }),
        Expr::Variable { name, .. } => Ok(Code::Coordinate {
            name: name.clone()?,
            place: place_of(coordinates, name.as_str()),
        }),
        Expr::Call { name, at, .. } => Ok(Code::Call {
            name: name.clone()?,
            claim: claim_of(name.as_str()),
            at: codes_of(alloc, coordinates, at)?,
        }),
        Expr::Negate { value, .. } => Ok(Code::Negate {
            value: code_in_box(alloc, coordinates, value)?,
        }),
        Expr::Binary {
            op,
            left,
            right,
            ..
        } => Ok(Code::Binary {
            op: *op,
            left: code_in_box(alloc, coordinates, left)?,
            right: code_in_box(alloc, coordinates, right)?,
        }),
        Expr::Clamp {
            value,
            low,
            high,
            ..
        } => Ok(Code::Clamp {
            value: code_in_box(alloc, coordinates, value)?,
            low: code_in_box(alloc, coordinates, low)?,
            high: code_in_box(alloc, coordinates, high)?,
        }),
        Expr::Cast { ty, value, .. } => Ok(Code::Cast {
            ty: *ty,
            value: code_in_box(alloc, coordinates, value)?,
        }),
        Expr::Select { cond, yes, no, .. } => Ok(Code::Select {
            cond: condition_of(alloc, coordinates, cond)?,
            yes: code_in_box(alloc, coordinates, yes)?,
            no: code_in_box(alloc, coordinates, no)?,
        }),
    }
}

// The same in a box.
#[cycle(code_of)]
fn code_in_box(
    alloc: Global,
    coordinates: &[Coordinate],
    expr: &Expr,
) -> Result<Box<Code>, AllocError> {
    let code = code_of(alloc, coordinates, expr)?;
    Ok(Box::new(alloc, code)?)
}

// The same of the indices of a call.
#[cycle(code_of)]
fn codes_of(
    alloc: Global,
    coordinates: &[Coordinate],
    at: &[Expr],
) -> Result<Box<Codes>, AllocError> {
    let mut codes = Box::new(alloc, Codes::NoMore)?;
    for index in at.iter().rev() {
        let first = code_of(alloc, coordinates, index)?;
        codes = Box::new(alloc, Codes::One { first, rest: codes })?;
    }
    Ok(codes)
}

// The same of a condition.
#[cycle(code_of)]
fn condition_of(
    alloc: Global,
    coordinates: &[Coordinate],
    cond: &Cond,
) -> Result<Box<Condition>, AllocError> {
    let condition = match cond {
        Cond::Compare {
            by,
            left,
            right,
            ..
        } => Condition::Compare {
            by: *by,
            left: code_of(alloc, coordinates, left)?,
            right: code_of(alloc, coordinates, right)?,
        },
        Cond::Not { cond, .. } => Condition::Not {
            cond: condition_of(alloc, coordinates, cond)?,
        },
        Cond::All { first, second, .. } => Condition::All {
            first: condition_of(alloc, coordinates, first)?,
            second: condition_of(alloc, coordinates, second)?,
        },
        Cond::Any { first, second, .. } => Condition::Any {
            first: condition_of(alloc, coordinates, first)?,
            second: condition_of(alloc, coordinates, second)?,
        },
    };
    Ok(Box::new(alloc, condition)?)
}

/// Whether a name stands for the number at a place among those of the coordinates.
fn stands_at(coordinates: &[Coordinate], name: &str, place: usize) -> bool
    ensures { OnTrue result (StandsAtPlace (map (λ c. string_bytes c.variable) coordinates.now) name.now place) }
{
    match coordinates {
        [] => false,
        [coordinate, rest @ ..] => {
            if same_name(coordinate.variable.as_str(), name) {
                place == 0
            } else {
                place > 0 && stands_at(rest, name, place - 1)
            }
        }
    }
}

/// Whether a name means this claim.
fn means(name: &str, claim: Option<usize>) -> bool
    ensures { OnTrue result (Means name.now claim) }
{
    match (claim_of(name), claim) {
        (Some(left), Some(right)) => left == right,
        (None, None) => true,
        _ => false,
    }
}

/// Whether a code stands for an expression, and what it says of names is right over these coordinates.
#[cycle(is_code_of)]
pub(crate) fn is_code_of(code: &Code, coordinates: &[Coordinate], expr: &Expr) -> bool
    ensures term { OnTrue result (term_in code.now ≡ term_of expr.now) }
    ensures placed { OnTrue result (IsPlaced (map (λ c. string_bytes c.variable) coordinates.now) code.now) }
{
    match code {
        Code::Number { ty, number } => match expr {
            Expr::Literal {
                ty: other,
                number: value,
                ..
            } => ty == other && number == value,
            _ => false,
        },
        Code::Coordinate { name, place } => match expr {
            Expr::Variable { name: other, .. } => {
                same_name(name.as_str(), other.as_str())
                    && stands_at(coordinates, name.as_str(), *place)
            }
            _ => false,
        },
        Code::Call { name, claim, at } => match expr {
            Expr::Call {
                name: other,
                at: all,
                ..
            } => {
                same_name(name.as_str(), other.as_str())
                    && means(name.as_str(), *claim)
                    && are_codes_of(at, coordinates, all)
            }
            _ => false,
        },
        Code::Negate { value } => match expr {
            Expr::Negate { value: other, .. } => is_code_of(value, coordinates, other),
            _ => false,
        },
        Code::Binary { op, left, right } => match expr {
            Expr::Binary {
                op: other,
                left: a,
                right: b,
                ..
            } => {
                op == other && is_code_of(left, coordinates, a) && is_code_of(right, coordinates, b)
            }
            _ => false,
        },
        Code::Clamp { value, low, high } => match expr {
            Expr::Clamp {
                value: a,
                low: b,
                high: c,
                ..
            } => {
                is_code_of(value, coordinates, a)
                    && is_code_of(low, coordinates, b)
                    && is_code_of(high, coordinates, c)
            }
            _ => false,
        },
        Code::Cast { ty, value } => match expr {
            Expr::Cast {
                ty: other,
                value: a,
                ..
            } => ty == other && is_code_of(value, coordinates, a),
            _ => false,
        },
        Code::Select { cond, yes, no } => match expr {
            Expr::Select {
                cond: a,
                yes: b,
                no: c,
                ..
            } => {
                is_condition_of(cond, coordinates, a)
                    && is_code_of(yes, coordinates, b)
                    && is_code_of(no, coordinates, c)
            }
            _ => false,
        },
    }
}

// The same of the indices of a call.
#[cycle(is_code_of)]
fn are_codes_of(codes: &Codes, coordinates: &[Coordinate], at: &[Expr]) -> bool
    ensures terms { OnTrue result (terms_in codes.now ≡ indices (list_terms at.now)) }
    ensures placed { OnTrue result (ArePlaced (map (λ c. string_bytes c.variable) coordinates.now) codes.now) }
{
    match (codes, at) {
        (Codes::NoMore, []) => true,
        (Codes::One { first, rest }, [index, more @ ..]) => {
            is_code_of(first, coordinates, index) && are_codes_of(rest, coordinates, more)
        }
        _ => false,
    }
}

// The same of a condition.
#[cycle(is_code_of)]
fn is_condition_of(condition: &Condition, coordinates: &[Coordinate], cond: &Cond) -> bool
    ensures test { OnTrue result (test_in condition.now ≡ test_of cond.now) }
    ensures placed { OnTrue result (IsPlacedTest (map (λ c. string_bytes c.variable) coordinates.now) condition.now) }
{
    match condition {
        Condition::Compare { by, left, right } => match cond {
            Cond::Compare {
                by: other,
                left: a,
                right: b,
                ..
            } => {
                by == other && is_code_of(left, coordinates, a) && is_code_of(right, coordinates, b)
            }
            _ => false,
        },
        Condition::Not { cond: inner } => match cond {
            Cond::Not { cond: a, .. } => is_condition_of(inner, coordinates, a),
            _ => false,
        },
        Condition::All { first, second } => match cond {
            Cond::All {
                first: a,
                second: b,
                ..
            } => {
                is_condition_of(first, coordinates, a) && is_condition_of(second, coordinates, b)
            }
            _ => false,
        },
        Condition::Any { first, second } => match cond {
            Cond::Any {
                first: a,
                second: b,
                ..
            } => {
                is_condition_of(first, coordinates, a) && is_condition_of(second, coordinates, b)
            }
            _ => false,
        },
    }
}
