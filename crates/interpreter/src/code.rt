//! Expressions whose names were looked up before.

ghost use Rattle.std.specs.Prelude.{◌≡◌, ◌+◌, ◌≤◌, Some, None, MatchBool, neg_ℤ, drop, take, length, pos, slice_index_or};
ghost use Rattle.interpreter.specs.Claims.{Means};
ghost use Rattle.interpreter.specs.Codes.{term_in, terms_in, test_in, ArePlaced, IsPlaced, IsPlacedTest};
ghost use Rattle.interpreter.specs.Evaluation.Indices.{indices_in, indices_in_all, indices_in_test};
ghost use Rattle.interpreter.specs.Pieces.{found_in, IsReady};
ghost use Rattle.interpreter.specs.Readings.{names_in, holds_in, numbers_of_indices, value_in};
ghost use Rattle.numeric.specs.Apply.{apply};
ghost use Rattle.numeric.specs.Wrap.{wrap};
ghost use Rattle.std.specs.Option.{option_map};
ghost use Rattle.tree.specs.Meaning.{typed};
ghost use Rattle.tree.specs.Term.{Choice};
ghost use Rattle.tree.specs.Term.{Binary as BinaryTerm, Call as CallTerm, Clamp as ClampTerm};

use crate::evaluation::{low_bits, wrapped_number};
use crate::reading::Reading;
use crate::row::Row;
use numeric::{Comparison, Op, Ty, compare};
use tree::Value;

/// An expression of a line: of each variable the place of its number among those of the line's coordinates, and of each call the
/// claim that its name means.
#[cycle(code)]
#[derive(Drop)]
pub(crate) enum Code {
    /// A number with its type.
    Number {
        ty: Ty,
        number: i64,
    },
    /// The number of a coordinate.
    Coordinate {
        name: String,
        place: usize,
    },
    /// What a claim's buffer or the input holds.
    Call {
        name: String,
        claim: Option<usize>,
        at: Box<Codes>,
    },
    /// The wrapped negation.
    Negate {
        value: Box<Code>,
    },
    /// An operator on two expressions.
    Binary {
        op: Op,
        left: Box<Code>,
        right: Box<Code>,
    },
    /// The value, not above `high`, then not below `low`.
    Clamp {
        value: Box<Code>,
        low: Box<Code>,
        high: Box<Code>,
    },
    /// The value wrapped to another type.
    Cast {
        ty: Ty,
        value: Box<Code>,
    },
    /// `yes` where the condition holds, else `no`.
    Select {
        cond: Box<Condition>,
        yes: Box<Code>,
        no: Box<Code>,
    },
}

/// The indices of a call.
#[cycle(code)]
#[derive(Drop)]
pub(crate) enum Codes {
    NoMore,
    One { first: Code, rest: Box<Codes> },
}

/// A condition, which a choice tests.
#[cycle(code)]
#[derive(Drop)]
pub(crate) enum Condition {
    /// A comparison of two expressions.
    Compare {
        by: Comparison,
        left: Code,
        right: Code,
    },
    /// The condition does not hold.
    Not {
        cond: Box<Condition>,
    },
    /// Both conditions hold.
    All {
        first: Box<Condition>,
        second: Box<Condition>,
    },
    /// One of the conditions holds, or both.
    Any {
        first: Box<Condition>,
        second: Box<Condition>,
    },
}

/// The number at a place, 0 behind the last.
#[inline(always)]
fn number_at(numbers: &[i64], place: usize) -> i64
    ensures { result ≡ slice_index_or numbers.now place (pos 0) }
{
    match numbers.get(place) {
        Some(number) => *number,
        None => 0,
    }
}

/// The operator on two numbers, the first of the type, wrapped to the type of what it gives.
#[inline(always)]
fn applied_number(op: Op, ty: Ty, left: i64, right: i64) -> i64
    ensures { result ≡ apply op ty left right }
{
    // What is lost of the exact result is a multiple of 2 to the 64, and so of every modulus.
    wrapped_number(op.result_type(ty), low_bits(op, left, right))
}

/// The negation of a number of the type, wrapped to it.
#[inline(always)]
fn negated_number(ty: Ty, number: i64) -> i64
    ensures { result ≡ wrap ty (neg_ℤ number) }
{
    wrapped_number(ty, number.wrapping_neg())
}

/// Puts in a number that is found, and answers its type. A type and a number apart are copied at once, and a value is not.
#[inline(always)]
fn put(ty: Ty, number: i64, out: &mut i64) -> Option<Ty>
    ensures { option_map (λ t. typed t out.new) result ≡ Some (typed ty number) }
{
    *out = number;
    Some(ty)
}

/// The value of an expression by its code: its type, where its number is put in. Both arms of a choice are evaluated, and all of its
/// condition.
#[cycle(run_code)]
pub(crate) fn run_code(
    code: &Code,
    reading: &Reading<'_, '_>,
    stack: &mut Row,
    out: &mut i64,
) -> Option<Ty>
    requires ready { IsReady reading.now.piece.now }
    requires placed { IsPlaced (names_in reading.now) code.now }
    requires room { length stack.old.items + indices_in (term_in code.now) ≤ stack.old.room }
    ensures value { option_map (λ t. typed t out.new) result ≡ value_in reading.now (term_in code.now) }
    ensures stack { stack.new ≡ stack.old }
{
    match code {
        Code::Number { ty, number } => put(*ty, *number, out),
        Code::Coordinate { place, .. } => put(Ty::I32, number_at(reading.numbers, *place), out),
        Code::Call { name, claim, at } => run_call(name.as_str(), *claim, at, reading, stack, out),
        Code::Negate { value } => {
            let ty = run_operand(value, reading, stack, out)?;
            let number = negated_number(ty, *out);
            put(ty, number, out)
        }
        Code::Binary { op, left, right } => run_binary(*op, left, right, reading, stack, out),
        Code::Clamp { value, low, high } => run_clamp(value, low, high, reading, stack, out),
        Code::Cast { ty, value } => {
            run_operand(value, reading, stack, out)?;
            let number = wrapped_number(*ty, *out);
            put(*ty, number, out)
        }
        Code::Select { cond, yes, no } => run_select(cond, yes, no, reading, stack, out),
    }
}

// The value of an expression. Those without parts take no further call.
#[cycle(run_code)]
#[inline(always)]
fn run_operand(code: &Code, reading: &Reading<'_, '_>, stack: &mut Row, out: &mut i64) -> Option<Ty>
    requires ready { IsReady reading.now.piece.now }
    requires placed { IsPlaced (names_in reading.now) code.now }
    requires room { length stack.old.items + indices_in (term_in code.now) ≤ stack.old.room }
    ensures value { option_map (λ t. typed t out.new) result ≡ value_in reading.now (term_in code.now) }
    ensures stack { stack.new ≡ stack.old }
{
    match code {
        Code::Number { ty, number } => put(*ty, *number, out),
        Code::Coordinate { place, .. } => put(Ty::I32, number_at(reading.numbers, *place), out),
        _ => run_code(code, reading, stack, out),
    }
}

// The operator on two expressions.
#[cycle(run_code)]
#[inline(always)]
fn run_binary(
    op: Op,
    left: &Code,
    right: &Code,
    reading: &Reading<'_, '_>,
    stack: &mut Row,
    out: &mut i64,
) -> Option<Ty>
    requires ready { IsReady reading.now.piece.now }
    requires left { IsPlaced (names_in reading.now) left.now }
    requires right { IsPlaced (names_in reading.now) right.now }
    requires room { length stack.old.items + indices_in (BinaryTerm op (term_in left.now) (term_in right.now)) ≤ stack.old.room }
    ensures value { option_map (λ t. typed t out.new) result ≡ value_in reading.now (BinaryTerm op (term_in left.now) (term_in right.now)) }
    ensures stack { stack.new ≡ stack.old }
{
    let mut number = 0;
    let second = &mut number;
    let ty = run_operand(left, reading, stack, out)?;
    run_operand(right, reading, stack, second)?;
    let number = applied_number(op, ty, *out, *second);
    put(op.result_type(ty), number, out)
}

// The value between two others.
#[cycle(run_code)]
#[inline(always)]
fn run_clamp(
    value: &Code,
    low: &Code,
    high: &Code,
    reading: &Reading<'_, '_>,
    stack: &mut Row,
    out: &mut i64,
) -> Option<Ty>
    requires ready { IsReady reading.now.piece.now }
    requires value { IsPlaced (names_in reading.now) value.now }
    requires low { IsPlaced (names_in reading.now) low.now }
    requires high { IsPlaced (names_in reading.now) high.now }
    requires room { length stack.old.items + indices_in (ClampTerm (term_in value.now) (term_in low.now) (term_in high.now)) ≤ stack.old.room }
    ensures value { option_map (λ t. typed t out.new) result ≡ value_in reading.now (ClampTerm (term_in value.now) (term_in low.now) (term_in high.now)) }
    ensures stack { stack.new ≡ stack.old }
{
    let (mut first, mut second) = (0, 0);
    let (least, greatest) = (&mut first, &mut second);
    let ty = run_operand(value, reading, stack, out)?;
    run_operand(low, reading, stack, least)?;
    run_operand(high, reading, stack, greatest)?;
    let number = (*out).min(*greatest).max(*least);
    put(ty, number, out)
}

// One of two values.
#[cycle(run_code)]
#[inline(never)]
fn run_select(
    cond: &Condition,
    yes: &Code,
    no: &Code,
    reading: &Reading<'_, '_>,
    stack: &mut Row,
    out: &mut i64,
) -> Option<Ty>
    requires ready { IsReady reading.now.piece.now }
    requires cond { IsPlacedTest (names_in reading.now) cond.now }
    requires yes { IsPlaced (names_in reading.now) yes.now }
    requires no { IsPlaced (names_in reading.now) no.now }
    requires room { length stack.old.items + indices_in (Choice (test_in cond.now) (term_in yes.now) (term_in no.now)) ≤ stack.old.room }
    ensures value { option_map (λ t. typed t out.new) result ≡ value_in reading.now (Choice (test_in cond.now) (term_in yes.now) (term_in no.now)) }
    ensures stack { stack.new ≡ stack.old }
{
    let mut number = 0;
    let other = &mut number;
    let chosen = run_test(cond, reading, stack)?;
    let ty = run_operand(yes, reading, stack, out)?;
    let other_ty = run_operand(no, reading, stack, other)?;
    if chosen {
        Some(ty)
    } else {
        put(other_ty, *other, out)
    }
}

// Whether a condition holds. All of it is evaluated.
#[cycle(run_code)]
#[inline(never)]
fn run_test(cond: &Condition, reading: &Reading<'_, '_>, stack: &mut Row) -> Option<bool>
    requires ready { IsReady reading.now.piece.now }
    requires placed { IsPlacedTest (names_in reading.now) cond.now }
    requires room { length stack.old.items + indices_in_test (test_in cond.now) ≤ stack.old.room }
    ensures value { result ≡ holds_in reading.now (test_in cond.now) }
    ensures stack { stack.new ≡ stack.old }
{
    match cond {
        Condition::Compare { by, left, right } => {
            let (mut first, mut second) = (0, 0);
            let (one, other) = (&mut first, &mut second);
            run_operand(left, reading, stack, one)?;
            run_operand(right, reading, stack, other)?;
            Some(compare(*by, *one, *other))
        }
        Condition::Not { cond } => Some(!run_test(cond, reading, stack)?),
        Condition::All { first, second } => {
            let first = run_test(first, reading, stack)?;
            let second = run_test(second, reading, stack)?;
            Some(first && second)
        }
        Condition::Any { first, second } => {
            let first = run_test(first, reading, stack)?;
            let second = run_test(second, reading, stack)?;
            Some(first || second)
        }
    }
}

// What a call finds.
#[cycle(run_code)]
#[inline(never)]
fn run_call(
    name: &str,
    claim: Option<usize>,
    at: &Codes,
    reading: &Reading<'_, '_>,
    stack: &mut Row,
    out: &mut i64,
) -> Option<Ty>
    requires means { Means name.now claim }
    requires ready { IsReady reading.now.piece.now }
    requires placed { ArePlaced (names_in reading.now) at.now }
    requires room { length stack.old.items + indices_in_all (terms_in at.now) ≤ stack.old.room }
    ensures value { option_map (λ t. typed t out.new) result ≡ value_in reading.now (CallTerm name.now (terms_in at.now)) }
    ensures stack { stack.new ≡ stack.old }
{
    let mark = stack.len();
    let are_found = run_indices(at, reading, stack);
    let found = found_behind(name, claim, reading, stack, mark, are_found);
    stack.truncate(mark);
    let value = found?;
    put(value.ty, value.number, out)
}

// What a name finds at the indices behind the first so many numbers of the stack, if they are found.
fn found_behind(
    name: &str,
    claim: Option<usize>,
    reading: &Reading<'_, '_>,
    stack: &Row,
    mark: usize,
    are_found: bool,
) -> Option<Value>
    requires ready { IsReady reading.now.piece.now }
    requires means { Means name.now claim }
    requires mark { mark ≤ length stack.now.items }
    ensures { MatchBool are_found (result ≡ found_in reading.now.piece.now reading.now.memory.now name.now (drop mark stack.now.items)) (result ≡ None) }
{
    if !are_found {
        return None;
    }
    reading.look_by(claim, name, &stack.as_slice()[mark..])
}

// Whether the numbers of the indices of a call are found. They then lie behind what the stack held before.
#[cycle(run_code)]
fn run_indices(at: &Codes, reading: &Reading<'_, '_>, stack: &mut Row) -> bool
    requires ready { IsReady reading.now.piece.now }
    requires placed { ArePlaced (names_in reading.now) at.now }
    requires room { length stack.old.items + indices_in_all (terms_in at.now) ≤ stack.old.room }
    ensures before { take (length stack.old.items) stack.new.items ≡ stack.old.items }
    ensures room { stack.new.room ≡ stack.old.room }
    ensures found { MatchBool result (numbers_of_indices reading.now (terms_in at.now) ≡ Some (drop (length stack.old.items) stack.new.items)) (numbers_of_indices reading.now (terms_in at.now) ≡ None) }
{
    match at {
        Codes::NoMore => true,
        Codes::One { first, rest } => {
            let mut number = 0;
            let index = &mut number;
            let Some(_) = run_operand(first, reading, stack, index) else {
                return false;
            };
            stack.push(*index);
            run_indices(rest, reading, stack)
        }
    }
}

/// The value of an expression by its code.
pub(crate) fn value_by(code: &Code, reading: &Reading<'_, '_>, stack: &mut Row) -> Option<Value>
    requires ready { IsReady reading.now.piece.now }
    requires placed { IsPlaced (names_in reading.now) code.now }
    requires room { length stack.old.items + indices_in (term_in code.now) ≤ stack.old.room }
    ensures value { result ≡ value_in reading.now (term_in code.now) }
    ensures stack { stack.new ≡ stack.old }
{
    let mut number = 0;
    let out = &mut number;
    let ty = run_code(code, reading, stack, out)?;
    Some(Value { ty, number: *out })
}
