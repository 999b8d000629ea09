//! Whether an expression, its loads read as calls of their claims' functions, is another.

ghost use Rattle.std.specs.Prelude.{◌≡◌};
ghost use Rattle.tree.specs.Term.{term_of, test_of, list_terms, indices};
ghost use Rattle.meaning.specs.Names.{same_name};
ghost use Rattle.tree.specs.Substitution.{test_with_calls, all_with_calls};
ghost use Rattle.soundness.specs.Outline.View.{outline_in};
ghost use Rattle.validation.specs.Stored.Alike.{IsChoice, type_number, op_number, comparison_number, same_term, same_terms, same_test};
ghost use Rattle.subst.specs.Kinds.{HasParts};
ghost use Rattle.validation.specs.Stored.Stored.{as_read, call_read, name_read};

use algo::scoping::same_name;
use numeric::{Comparison, Op, Ty};
use soundness::outline::{Outlined, Source};
use tree::{Cond, Expr};

/// The type's number.
fn type_number(ty: Ty) -> u32
    ensures { result ≡ type_number ty }
{
    match ty {
        Ty::U8 => 0,
        Ty::U16 => 1,
        Ty::U32 => 2,
        Ty::I8 => 3,
        Ty::I16 => 4,
        Ty::I32 => 5,
    }
}

/// The operator's number.
fn op_number(op: Op) -> u32
    ensures { result ≡ op_number op }
{
    match op {
        Op::Add => 0,
        Op::Sub => 1,
        Op::Mul => 2,
        Op::Div => 3,
        Op::Rem => 4,
        Op::Min => 5,
        Op::Max => 6,
    }
}

/// The comparison's number.
fn comparison_number(by: Comparison) -> u32
    ensures { result ≡ comparison_number by }
{
    match by {
        Comparison::Less => 0,
        Comparison::AtMost => 1,
        Comparison::Greater => 2,
        Comparison::AtLeast => 3,
        Comparison::Equal => 4,
        Comparison::Different => 5,
    }
}

/// Whether the name by which a load is read, that of its claim's function, is another.
fn is_name_read(outlined: &Outlined<'_>, name: &str, known: &str) -> bool
    ensures { result ≡ same_name (name_read (outline_in outlined.now) ((outline_in outlined.now).source name.now) name.now) known.now }
{
    match outlined.source(name) {
        Source::ByClaim(claim) => match outlined.claim(claim) {
            Some(claim) => same_name(claim.function.as_str(), known),
            None => same_name("", known),
        },
        Source::Input | Source::Unknown => same_name(name, known),
    }
}

/// Whether an expression, with each load read as a call of its claim's function, is another.
#[cycle(alike)]
pub(crate) fn is_read_as(outlined: &Outlined<'_>, expr: &Expr, other: &Expr) -> bool
    ensures { result ≡ same_term (as_read (outline_in outlined.now) (term_of expr.now)) (term_of other.now) }
{
    match (expr, other) {
        (
            Expr::Literal { ty, number, .. },
            Expr::Literal {
                ty: of,
                number: n,
                ..
            },
        ) => type_number(*ty) == type_number(*of) && number == n,
        (Expr::Variable { name, .. }, Expr::Variable { name: known, .. }) => same_name(
            name.as_str(),
            known.as_str(),
        ),
        (
            Expr::Call { name, at, .. },
            Expr::Call {
                name: known,
                at: by,
                ..
            },
        ) => {
            is_name_read(outlined, name.as_str(), known.as_str()) && are_read_as(outlined, at, by)
        }
        (Expr::Negate { value, .. }, Expr::Negate { value: known, .. }) => is_read_as(
            outlined, value, known,
        ),
        (
            Expr::Cast { ty, value, .. },
            Expr::Cast {
                ty: of,
                value: known,
                ..
            },
        ) => type_number(*ty) == type_number(*of) && is_read_as(outlined, value, known),
        (Expr::Binary { .. } | Expr::Clamp { .. } | Expr::Select { .. }, _) => parts_are_read_as(
            outlined, expr, other,
        ),
        _ => false,
    }
}

/// The same where the first is an operation, a clamp or a choice.
#[cycle(alike)]
fn parts_are_read_as(outlined: &Outlined<'_>, expr: &Expr, other: &Expr) -> bool
    requires { HasParts (term_of expr.now) }
    ensures { result ≡ same_term (as_read (outline_in outlined.now) (term_of expr.now)) (term_of other.now) }
{
    match (expr, other) {
        (
            Expr::Binary {
                op,
                left,
                right,
                ..
            },
            Expr::Binary {
                op: known,
                left: first,
                right: second,
                ..
            },
        ) => {
            op_number(*op) == op_number(*known)
                && is_read_as(outlined, left, first)
                && is_read_as(outlined, right, second)
        }
        (
            Expr::Clamp {
                value,
                low,
                high,
                ..
            },
            Expr::Clamp {
                value: known,
                low: least,
                high: most,
                ..
            },
        ) => {
            is_read_as(outlined, value, known)
                && is_read_as(outlined, low, least)
                && is_read_as(outlined, high, most)
        }
        (Expr::Select { .. }, _) => choices_are_read_as(outlined, expr, other),
        _ => false,
    }
}

/// The same where the first is a choice.
#[cycle(alike)]
fn choices_are_read_as(outlined: &Outlined<'_>, expr: &Expr, other: &Expr) -> bool
    requires { IsChoice (term_of expr.now) }
    ensures { result ≡ same_term (as_read (outline_in outlined.now) (term_of expr.now)) (term_of other.now) }
{
    match (expr, other) {
        (
            Expr::Select { cond, yes, no, .. },
            Expr::Select {
                cond: known,
                yes: first,
                no: second,
                ..
            },
        ) => {
            test_is_read_as(outlined, cond, known)
                && is_read_as(outlined, yes, first)
                && is_read_as(outlined, no, second)
        }
        _ => false,
    }
}

/// The same of two conditions.
#[cycle(alike)]
fn test_is_read_as(outlined: &Outlined<'_>, cond: &Cond, other: &Cond) -> bool
    ensures { result ≡ same_test (test_with_calls (call_read (outline_in outlined.now)) (test_of cond.now)) (test_of other.now) }
{
    match (cond, other) {
        (
            Cond::Compare {
                by,
                left,
                right,
                ..
            },
            Cond::Compare {
                by: known,
                left: first,
                right: second,
                ..
            },
        ) => {
            comparison_number(*by) == comparison_number(*known)
                && is_read_as(outlined, left, first)
                && is_read_as(outlined, right, second)
        }
        (Cond::Not { cond, .. }, Cond::Not { cond: known, .. }) => test_is_read_as(
            outlined, cond, known,
        ),
        (
            Cond::All { first, second, .. },
            Cond::All {
                first: third,
                second: fourth,
                ..
            },
        )
        | (
            Cond::Any { first, second, .. },
            Cond::Any {
                first: third,
                second: fourth,
                ..
            },
        ) => test_is_read_as(outlined, first, third) && test_is_read_as(outlined, second, fourth),
        _ => false,
    }
}

/// The same of two rows of indices.
#[cycle(alike)]
fn are_read_as(outlined: &Outlined<'_>, at: &[Expr], by: &[Expr]) -> bool
    ensures { result ≡ same_terms (all_with_calls (call_read (outline_in outlined.now)) (indices (list_terms at.now))) (indices (list_terms by.now)) }
{
    if at.len() != by.len() {
        return false;
    }
    for i in 0..at.len() {
        if !is_read_as(outlined, &at[i], &by[i]) {
            return false;
        }
    }
    true
}
