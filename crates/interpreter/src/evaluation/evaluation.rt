//! The value of an expression.

ghost use Rattle.std.specs.Prelude.{◌≡◌, ◌+◌, ◌≤◌, drop, length, take, Some, None, MatchBool, if◌then◌else◌};
ghost use Rattle.plan.specs.Semantics.Found.{found, test_found, all_found, with};
ghost use Rattle.interpreter.specs.Evaluation.Indices.{indices_in, indices_in_all, indices_in_test};
ghost use Rattle.numeric.specs.Wrap.{wrap};
ghost use Rattle.tree.specs.Meaning.{applied, clamped, negated, typed};
ghost use Rattle.tree.specs.Term.{term_of, test_of, indices, list_terms};

use crate::evaluation::operators::{applied, clamped, negated, wrapped};
use crate::evaluation::reader::Reader;
use crate::row::Row;
use numeric::{Op, Ty, compare};
use tree::{Cond, Expr, Value};

/// The value of an expression, nothing where a call finds nothing. Both arms of a choice are evaluated, and all of its
/// condition.
///
/// It takes no memory: the indices of the calls that are under way lie on a stack that has room for all of them.
#[cycle(evaluate)]
pub fn evaluate<R: Reader>(expr: &Expr, reader: &R, stack: &mut Row) -> Option<Value>
    requires room { length stack.old.items + indices_in (term_of expr.now) ≤ stack.old.room }
    ensures value { result ≡ found (R.variables reader.now) (R.look reader.now) (term_of expr.now) }
    ensures stack { stack.new ≡ stack.old }
{
    match expr {
        Expr::Literal { ty, number, .. } => Some(typed(*ty, *number)),
        Expr::Variable { name, .. } => Some(typed(Ty::I32, reader.variable(name.as_str()))),
        Expr::Call { name, at, .. } => call(name.as_str(), at, reader, stack),
        Expr::Negate { value, .. } => found_negated(operand(value, reader, stack)?),
        Expr::Binary {
            op,
            left,
            right,
            ..
        } => {
            let left = operand(left, reader, stack)?;
            let right = operand(right, reader, stack)?;
            found_applied(*op, left, right)
        }
        Expr::Clamp {
            value,
            low,
            high,
            ..
        } => {
            let value = operand(value, reader, stack)?;
            let low = operand(low, reader, stack)?;
            let high = operand(high, reader, stack)?;
            found_clamped(value, low, high)
        }
        Expr::Cast { ty, value, .. } => {
            let value = operand(value, reader, stack)?;
            found_wrapped(*ty, value.number)
        }
        Expr::Select { cond, yes, no, .. } => {
            let chosen = holds(cond, reader, stack)?;
            let yes = operand(yes, reader, stack)?;
            let no = operand(no, reader, stack)?;
            found_chosen(chosen, yes, no)
        }
    }
}

// The value of an expression. Those without parts, which are more than half of all, take no further call.
#[cycle(evaluate)]
#[inline(always)]
fn operand<R: Reader>(expr: &Expr, reader: &R, stack: &mut Row) -> Option<Value>
    requires room { length stack.old.items + indices_in (term_of expr.now) ≤ stack.old.room }
    ensures value { result ≡ found (R.variables reader.now) (R.look reader.now) (term_of expr.now) }
    ensures stack { stack.new ≡ stack.old }
{
    match expr {
        Expr::Literal { ty, number, .. } => Some(typed(*ty, *number)),
        Expr::Variable { name, .. } => Some(typed(Ty::I32, reader.variable(name.as_str()))),
        _ => evaluate(expr, reader, stack),
    }
}

// Whether a condition holds. All of it is evaluated.
#[cycle(evaluate)]
#[inline(never)]
fn holds<R: Reader>(cond: &Cond, reader: &R, stack: &mut Row) -> Option<bool>
    requires room { length stack.old.items + indices_in_test (test_of cond.now) ≤ stack.old.room }
    ensures stack { stack.new ≡ stack.old }
    ensures value { result ≡ test_found (R.variables reader.now) (R.look reader.now) (test_of cond.now) }
{
    match cond {
        Cond::Compare {
            by,
            left,
            right,
            ..
        } => {
            let left = operand(left, reader, stack)?;
            let right = operand(right, reader, stack)?;
            Some(compare(*by, left.number, right.number))
        }
        Cond::Not { cond, .. } => Some(!holds(cond, reader, stack)?),
        Cond::All { first, second, .. } => {
            let first = holds(first, reader, stack)?;
            let second = holds(second, reader, stack)?;
            Some(first && second)
        }
        Cond::Any { first, second, .. } => {
            let first = holds(first, reader, stack)?;
            let second = holds(second, reader, stack)?;
            Some(first || second)
        }
    }
}

// What a call finds.
#[cycle(evaluate)]
#[inline(never)]
fn call<R: Reader>(name: &str, at: &[Expr], reader: &R, stack: &mut Row) -> Option<Value>
    requires room { length stack.old.items + indices_in_all (indices (list_terms at.now)) ≤ stack.old.room }
    ensures value { result ≡ with (all_found (R.variables reader.now) (R.look reader.now) (indices (list_terms at.now))) (λ zs. R.look reader.now name.now zs) }
    ensures stack { stack.new ≡ stack.old }
{
    let mark = stack.len();
    let are_found = numbers(at, reader, stack);
    let found = look_behind(name, reader, stack, mark, are_found);
    stack.truncate(mark);
    found
}

// What a name finds at the indices behind the first so many numbers of the stack, if they are found.
fn look_behind<R: Reader>(
    name: &str,
    reader: &R,
    stack: &Row,
    mark: usize,
    are_found: bool,
) -> Option<Value>
    requires { mark ≤ length stack.now.items }
    ensures { MatchBool are_found (result ≡ R.look reader.now name.now (drop mark stack.now.items)) (result ≡ None) }
{
    if are_found {
        reader.look(name, &stack.as_slice()[mark..])
    } else {
        None
    }
}

// Whether the numbers of the indices of a call are found. They then lie behind what the stack held before.
#[cycle(evaluate)]
fn numbers<R: Reader>(at: &[Expr], reader: &R, stack: &mut Row) -> bool
    requires room { length stack.old.items + indices_in_all (indices (list_terms at.now)) ≤ stack.old.room }
    ensures before { take (length stack.old.items) stack.new.items ≡ stack.old.items }
    ensures room { stack.new.room ≡ stack.old.room }
    ensures found { MatchBool result (all_found (R.variables reader.now) (R.look reader.now) (indices (list_terms at.now)) ≡ Some (drop (length stack.old.items) stack.new.items)) (all_found (R.variables reader.now) (R.look reader.now) (indices (list_terms at.now)) ≡ None) }
{
    for index in at {
        let Some(value) = operand(index, reader, stack) else {
            return false;
        };
        stack.push(value.number);
    }
    true
}

// A number with its type.
fn typed(ty: Ty, number: i64) -> Value
    ensures { result ≡ typed ty number }
{
    Value { ty, number }
}

// The negation, found. What these functions give is not copied on its way out.
#[inline(never)]
fn found_negated(value: Value) -> Option<Value>
    ensures { result ≡ Some (negated value) }
{
    Some(negated(value))
}

// The operator on two values, found.
#[inline(never)]
fn found_applied(op: Op, left: Value, right: Value) -> Option<Value>
    ensures { result ≡ Some (applied op left right) }
{
    Some(applied(op, left, right))
}

// The value between two others, found.
#[inline(never)]
fn found_clamped(value: Value, low: Value, high: Value) -> Option<Value>
    ensures { result ≡ Some (clamped value low high) }
{
    Some(clamped(value, low, high))
}

// The wrapped number, found.
#[inline(never)]
fn found_wrapped(ty: Ty, number: i64) -> Option<Value>
    ensures { result ≡ Some (typed ty (wrap ty number)) }
{
    Some(wrapped(ty, number))
}

// One of two values, found.
#[inline(never)]
fn found_chosen(chosen: bool, yes: Value, no: Value) -> Option<Value>
    ensures { result ≡ Some (if chosen then yes else no) }
{
    Some(if chosen { yes } else { no })
}
