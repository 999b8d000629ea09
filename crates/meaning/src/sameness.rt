//! Whether two names are the same, and whether two expressions are the same tree.

ghost use Rattle.std.specs.Prelude.{◌≡◌, IsTrue};
ghost use Rattle.tree.specs.Term.{list_terms, term_of, test_of};
ghost use Rattle.meaning.specs.Names.{same_name};

use tree::{Cond, Expr};

/// Whether the names are the same.
pub fn same_name(left: &str, right: &str) -> bool
    ensures { result ≡ same_name left.now right.now }
{
    left == right
}

/// Whether two expressions are the same tree, wherever their parts stand in a text. A yes is sure.
#[cycle(compare)]
pub fn same_expr(first: &Expr, second: &Expr) -> bool
    ensures { IsTrue result → term_of first.now ≡ term_of second.now }
{
    match first {
        Expr::Literal { ty, number, .. } => match second {
            Expr::Literal {
                ty: other,
                number: value,
                ..
            } => ty == other && number == value,
            _ => false,
        },
        Expr::Variable { name, .. } => match second {
            Expr::Variable { name: other, .. } => same_name(name.as_str(), other.as_str()),
            _ => false,
        },
        Expr::Call { name, at, .. } => match second {
            Expr::Call {
                name: other,
                at: indices,
                ..
            } => same_name(name.as_str(), other.as_str()) && same_row(at, indices),
            _ => false,
        },
        Expr::Negate { value, .. } => match second {
            Expr::Negate { value: other, .. } => same_expr(value, other),
            _ => false,
        },
        Expr::Binary {
            op,
            left,
            right,
            ..
        } => match second {
            Expr::Binary {
                op: other,
                left: a,
                right: b,
                ..
            } => op == other && same_expr(left, a) && same_expr(right, b),
            _ => false,
        },
        Expr::Clamp {
            value,
            low,
            high,
            ..
        } => match second {
            Expr::Clamp {
                value: a,
                low: b,
                high: c,
                ..
            } => same_expr(value, a) && same_expr(low, b) && same_expr(high, c),
            _ => false,
        },
        Expr::Cast { ty, value, .. } => match second {
            Expr::Cast {
                ty: other,
                value: a,
                ..
            } => ty == other && same_expr(value, a),
            _ => false,
        },
        Expr::Select { cond, yes, no, .. } => match second {
            Expr::Select {
                cond: a,
                yes: b,
                no: c,
                ..
            } => same_cond(cond, a) && same_expr(yes, b) && same_expr(no, c),
            _ => false,
        },
    }
}

// The same of conditions.
#[cycle(compare)]
fn same_cond(first: &Cond, second: &Cond) -> bool
    ensures { IsTrue result → test_of first.now ≡ test_of second.now }
{
    match first {
        Cond::Compare {
            by,
            left,
            right,
            ..
        } => match second {
            Cond::Compare {
                by: other,
                left: a,
                right: b,
                ..
            } => by == other && same_expr(left, a) && same_expr(right, b),
            _ => false,
        },
        Cond::Not { cond, .. } => match second {
            Cond::Not { cond: other, .. } => same_cond(cond, other),
            _ => false,
        },
        Cond::All {
            first: one,
            second: two,
            ..
        } => match second {
            Cond::All {
                first: a,
                second: b,
                ..
            } => same_cond(one, a) && same_cond(two, b),
            _ => false,
        },
        Cond::Any {
            first: one,
            second: two,
            ..
        } => match second {
            Cond::Any {
                first: a,
                second: b,
                ..
            } => same_cond(one, a) && same_cond(two, b),
            _ => false,
        },
    }
}

/// The same of several expressions, one after another.
#[cycle(compare)]
pub fn same_row(first: &[Expr], second: &[Expr]) -> bool
    ensures { IsTrue result → list_terms first.now ≡ list_terms second.now }
{
    if first.len() != second.len() {
        return false;
    }
    for (place, one) in first.iter().enumerate() {
        if !same_expr(one, &second[place]) {
            return false;
        }
    }
    true
}
