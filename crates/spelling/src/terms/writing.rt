//! Writing expressions at the end of a text.

ghost use Rattle.std.specs.Prelude.{◌≡◌, ◌++◌, codes, OnOk, string_bytes};
ghost use Rattle.tree.specs.Term.{term_of, test_of, list_terms, indices, Call};
ghost use Rattle.spelling.specs.Terms.Spelling as spec;

use crate::words::{put_name, put_number, put_type};
use numeric::{Comparison, Op, Ty};
use std::alloc::AllocError;
use tree::{Cond, Expr};

/// The sign of a comparison.
pub(crate) fn comparison_text(by: Comparison) -> &'static str
    ensures { result.now ≡ spec.comparison_text by }
{
    match by {
        Comparison::Less => "<",
        Comparison::AtMost => "<=",
        Comparison::Greater => ">",
        Comparison::AtLeast => ">=",
        Comparison::Equal => "==",
        Comparison::Different => "!=",
    }
}

/// The word before the bracket of an operator, if it has one.
fn operator_word(op: Op) -> &'static str
    ensures { result.now ≡ spec.operator_word op }
{
    match op {
        Op::Min => "min",
        Op::Max => "max",
        _ => "",
    }
}

/// What stands between an operator's operands.
fn operator_sign(op: Op) -> &'static str
    ensures { result.now ≡ spec.operator_sign op }
{
    match op {
        Op::Add => "+",
        Op::Sub => "-",
        Op::Mul => "*",
        Op::Div => "/",
        Op::Rem => "%",
        Op::Min | Op::Max => ",",
    }
}

/// The type behind a literal.
fn put_suffix(text: &mut String, ty: Ty) -> Result<(), AllocError>
    ensures { OnOk result (string_bytes text.new ≡ string_bytes text.old ++ spec.suffix_text ty) }
{
    match ty {
        Ty::I32 => Ok(()),
        _ => put_type(text, ty),
    }
}

/// Writes an expression as a plan's text has it: without blanks, each operator and each negation in round brackets.
#[cycle(put)]
pub fn put_term(text: &mut String, expr: &Expr) -> Result<(), AllocError>
    ensures { OnOk result (string_bytes text.new ≡ string_bytes text.old ++ spec.term_text (term_of expr.now)) }
{
    match expr {
        Expr::Literal { ty, number, .. } => {
            put_number(text, *number)?;
            put_suffix(text, *ty)
        }
        Expr::Variable { name, .. } => put_name(text, name.as_str()),
        Expr::Call { name, at, .. } => put_call(text, name.as_str(), at),
        Expr::Negate { value, .. } => put_last(text, "(-", value),
        Expr::Binary {
            op,
            left,
            right,
            ..
        } => {
            text.push_str(operator_word(*op))?;
            put_behind(text, "(", left)?;
            put_last(text, operator_sign(*op), right)
        }
        Expr::Clamp {
            value,
            low,
            high,
            ..
        } => {
            put_behind(text, "clamp(", value)?;
            put_behind(text, ",", low)?;
            put_last(text, ",", high)
        }
        Expr::Cast { ty, value, .. } => {
            put_type(text, *ty)?;
            put_last(text, "(", value)
        }
        Expr::Select { cond, yes, no, .. } => {
            put_test_behind(text, "select(", cond)?;
            put_behind(text, ",", yes)?;
            put_last(text, ",", no)
        }
    }
}

/// An expression behind a sign.
#[cycle(put)]
fn put_behind(text: &mut String, sign: &str, expr: &Expr) -> Result<(), AllocError>
    ensures { OnOk result (string_bytes text.new ≡ string_bytes text.old ++ (sign.now ++ spec.term_text (term_of expr.now))) }
{
    text.push_str(sign)?;
    put_term(text, expr)
}

/// An expression behind a sign, and the bracket that closes.
#[cycle(put)]
fn put_last(text: &mut String, sign: &str, expr: &Expr) -> Result<(), AllocError>
    ensures { OnOk result (string_bytes text.new ≡ string_bytes text.old ++ (sign.now ++ (spec.term_text (term_of expr.now) ++ codes ")"))) }
{
    put_behind(text, sign, expr)?;
    text.push_str(")")
}

/// A call: the name, and in brackets the indices.
#[cycle(put)]
fn put_call(text: &mut String, name: &str, at: &[Expr]) -> Result<(), AllocError>
    ensures { OnOk result (string_bytes text.new ≡ string_bytes text.old ++ spec.term_text (Call name.now (indices (list_terms at.now)))) }
{
    put_name(text, name)?;
    text.push_str("[")?;
    put_row(text, at)?;
    text.push_str("]")
}

/// Indices with a comma between one and the next.
#[cycle(put)]
fn put_row(text: &mut String, at: &[Expr]) -> Result<(), AllocError>
    ensures { OnOk result (string_bytes text.new ≡ string_bytes text.old ++ spec.row_text 0 (indices (list_terms at.now))) }
{
    for (i, index) in at.iter().enumerate() {
        put_behind(text, comma_before(i), index)?;
    }
    Ok(())
}

/// What stands before an index of a call.
fn comma_before(index: usize) -> &'static str
    ensures { result.now ≡ spec.comma_before index }
{
    if index == 0 { "" } else { "," }
}

/// A condition.
#[cycle(put)]
fn put_test(text: &mut String, cond: &Cond) -> Result<(), AllocError>
    ensures { OnOk result (string_bytes text.new ≡ string_bytes text.old ++ spec.test_text (test_of cond.now)) }
{
    match cond {
        Cond::Compare {
            by,
            left,
            right,
            ..
        } => {
            put_term(text, left)?;
            put_behind(text, comparison_text(*by), right)
        }
        Cond::Not { cond, .. } => {
            put_test_behind(text, "not(", cond)?;
            text.push_str(")")
        }
        Cond::All { first, second, .. } => {
            put_test_behind(text, "all(", first)?;
            put_test_behind(text, ",", second)?;
            text.push_str(")")
        }
        Cond::Any { first, second, .. } => {
            put_test_behind(text, "any(", first)?;
            put_test_behind(text, ",", second)?;
            text.push_str(")")
        }
    }
}

/// A condition behind a sign.
#[cycle(put)]
fn put_test_behind(text: &mut String, sign: &str, cond: &Cond) -> Result<(), AllocError>
    ensures { OnOk result (string_bytes text.new ≡ string_bytes text.old ++ (sign.now ++ spec.test_text (test_of cond.now))) }
{
    text.push_str(sign)?;
    put_test(text, cond)
}
