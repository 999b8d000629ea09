//! Operands that repeat another one.

ghost use Rattle.std.specs.Prelude.{◌≡◌, IfSome, IsTrue};
ghost use Rattle.numeric.specs.declared.op.Op.TheVariants.{Sub};
ghost use Rattle.tree.specs.Term.{term_of, Binary, Minus, Number};
ghost use Rattle.interpreter.specs.Evaluation.Repeats.{repeated};

use meaning::sameness::same_expr;
use numeric::Op;
use tree::{Expr, Value};

/// How an operator's second operand repeats its first.
#[derive(Clone, Copy, Drop)]
pub(crate) enum Repeat {
    /// It is the same expression.
    Same,
    /// It is the negation of that.
    Opposite,
    /// It is this value less that.
    Complement(Value),
}

/// Whether an expression is the negation of another. A yes is sure.
fn is_opposite(left: &Expr, right: &Expr) -> bool
    ensures { IsTrue result → Minus (term_of left.now) ≡ term_of right.now }
{
    match right {
        Expr::Negate { value, .. } => same_expr(left, value),
        _ => false,
    }
}

/// The value that an expression is, if it is a literal.
fn literal_of(expr: &Expr) -> Option<Value>
    ensures { IfSome result (λ v. Number v.ty v.number ≡ term_of expr.now) }
{
    match expr {
        Expr::Literal { ty, number, .. } => Some(Value {
            ty: *ty,
            number: *number,
        }),
        _ => None,
    }
}

/// The value that an expression takes another one from, if it is such a difference.
fn complement_of(left: &Expr, right: &Expr) -> Option<Value>
    ensures { IfSome result (λ v. Binary Sub (Number v.ty v.number) (term_of left.now) ≡ term_of right.now) }
{
    match right {
        Expr::Binary {
            op: Op::Sub,
            left: first,
            right: second,
            ..
        } if same_expr(left, second) => literal_of(first),
        _ => None,
    }
}

/// Whether an operator makes a square, as `d * d`. A yes is sure.
fn is_square(op: Op, left: &Expr, right: &Expr) -> bool
    ensures { IsTrue result → term_of left.now ≡ term_of right.now }
{
    op == Op::Mul && same_expr(left, right)
}

/// How the second operand of an operator repeats the first, if it is seen to: a factor that is the other one, a negation, as in
/// `max(d, -d)`, or a literal less it, as in `v * (510 - v)`.
pub(crate) fn repeat_of(op: Op, left: &Expr, right: &Expr) -> Option<Repeat>
    ensures { IfSome result (λ r. repeated r (term_of left.now) ≡ term_of right.now) }
{
    if is_opposite(left, right) {
        return Some(Repeat::Opposite);
    }
    if is_square(op, left, right) {
        return Some(Repeat::Same);
    }
    let value = complement_of(left, right)?;
    Some(Repeat::Complement(value))
}
