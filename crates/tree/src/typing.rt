//! The type of an expression.

ghost use Rattle.std.specs.Prelude.{◌≡◌, [], IfOk, IfErr, is_ok, is_some, slice_get};
ghost use Rattle.std.specs.Result.{result_ok};
ghost use Rattle.std.specs.List.{list_all};
ghost use Rattle.numeric.specs.declared.ty.Ty.TheVariants.{I32 as Index};
ghost use Rattle.tree.specs.Term.{term_of, test_of};
ghost use Rattle.tree.specs.Typing.{type_of, is_typed, common, only_if, is_of, is_index, answer_type, operator_type};
ghost use Rattle.tree.specs.Place.{misfits, misfits_of_test, list_misfits};

use crate::expr::{Cond, Expr};
use crate::names::Names;
use crate::token::Span;
use numeric::{Op, Ty};

/// Types differ, a name is not known, a call has another number of indices or an index
/// that is no i32, or a literal is no value of its type.
#[derive(Clone, Copy, Drop)]
pub struct TypeError {
    /// The place of the smallest expression that this is so of, the first in the text.
    pub span: Span,
}

/// The type of an expression, if it has one. Else the error names the first node in the text
/// that has no type though all its parts have one.
#[cycle(typing)]
#[tactic(auto, using(crate::proofs::Places::first_in_front, crate::proofs::Places::first_in_front_of_two, crate::proofs::Places::first_in_front_of_three))]
pub fn ty_of<N: Names>(expr: &Expr, names: &N) -> Result<Ty, TypeError>
    ensures ty { result_ok result ≡ type_of (N.variables names.now) (N.functions names.now) (term_of expr.now) }
    ensures fits { IfOk result (λ t. misfits (N.variables names.now) (N.functions names.now) expr.now ≡ []) }
    ensures place { IfErr result (λ e. slice_get (misfits (N.variables names.now) (N.functions names.now) expr.now) 0 ≡ Some e.span) }
{
    match expr {
        Expr::Literal { ty, number, span } => literal(*ty, *number).ok_or(TypeError {
            span: *span,
        }),
        Expr::Variable { name, span } => {
            variable(names.var(name.as_str())).ok_or(TypeError { span: *span })
        }
        Expr::Call { name, at, span } => {
            let fit = are_indices(at, names)?;
            called(fit, names.func(name.as_str()), at.len()).ok_or(TypeError { span: *span })
        }
        Expr::Negate { value, .. } => ty_of(value, names),
        Expr::Binary {
            op,
            left,
            right,
            span,
        } => {
            let left = ty_of(left, names)?;
            operated(*op, left, ty_of(right, names)?).ok_or(TypeError { span: *span })
        }
        Expr::Clamp {
            value,
            low,
            high,
            span,
        } => {
            let value = ty_of(value, names)?;
            let low = ty_of(low, names)?;
            clamped(value, low, ty_of(high, names)?).ok_or(TypeError { span: *span })
        }
        Expr::Cast { ty, value, .. } => ty_of(value, names).and(Ok(*ty)),
        Expr::Select {
            cond,
            yes,
            no,
            span,
        } => {
            check(cond, names)?;
            common(ty_of(yes, names)?, ty_of(no, names)?).ok_or(TypeError { span: *span })
        }
    }
}

// Ok where a condition compares expressions of one type. Else the first place as in `ty_of`.
#[cycle(typing)]
#[tactic(auto, using(crate::proofs::Places::first_in_front))]
fn check<N: Names>(cond: &Cond, names: &N) -> Result<(), TypeError>
    ensures ty { is_ok result ≡ is_typed (N.variables names.now) (N.functions names.now) (test_of cond.now) }
    ensures fits { IfOk result (λ t. misfits_of_test (N.variables names.now) (N.functions names.now) cond.now ≡ []) }
    ensures place { IfErr result (λ e. slice_get (misfits_of_test (N.variables names.now) (N.functions names.now) cond.now) 0 ≡ Some e.span) }
{
    match cond {
        Cond::Compare {
            left,
            right,
            span,
            ..
        } => {
            let left = ty_of(left, names)?;
            let right = ty_of(right, names)?;
            common(left, right).ok_or(TypeError { span: *span })?;
            Ok(())
        }
        Cond::Not { cond, .. } => check(cond, names),
        Cond::All { first, second, .. } | Cond::Any { first, second, .. } => {
            check(first, names)?;
            check(second, names)
        }
    }
}

// Whether each expression can be an index, where all have types. Else the first place as in `ty_of`.
#[cycle(typing)]
fn are_indices<N: Names>(at: &[Expr], names: &N) -> Result<bool, TypeError>
    ensures typed { is_ok result ≡ list_all (λ a. is_some (type_of (N.variables names.now) (N.functions names.now) (term_of a))) at.now }
    ensures indices { IfOk result (λ b. b ≡ list_all (λ a. is_index (type_of (N.variables names.now) (N.functions names.now) (term_of a))) at.now) }
    ensures fits { IfOk result (λ t. list_misfits (N.variables names.now) (N.functions names.now) at.now ≡ []) }
    ensures place { IfErr result (λ e. slice_get (list_misfits (N.variables names.now) (N.functions names.now) at.now) 0 ≡ Some e.span) }
{
    let mut fit = true;
    for index in at {
        let ty = ty_of(index, names)?;
        fit = fit && is_index(ty);
    }
    Ok(fit)
}

// Whether an expression of the type can be an index.
fn is_index(ty: Ty) -> bool
    ensures { result ≡ is_index (Some ty) }
{
    matches!(ty, Ty::I32)
}

// The type of a literal.
fn literal(ty: Ty, number: i64) -> Option<Ty>
    ensures { result ≡ only_if (is_of ty number) (Some ty) }
{
    if ty.least() <= number && number <= ty.greatest() {
        Some(ty)
    } else {
        None
    }
}

// The type of a variable, where it is known.
fn variable(known: bool) -> Option<Ty>
    ensures { result ≡ only_if known (Some Index) }
{
    if known { Some(Ty::I32) } else { None }
}

// The type of a call, where its indices fit and it has the right number of them.
fn called(fit: bool, function: Option<(Ty, usize)>, count: usize) -> Option<Ty>
    ensures { result ≡ only_if fit (answer_type function count) }
{
    match function {
        Some((ty, indices)) if fit && indices == count => Some(ty),
        _ => None,
    }
}

// The type of both.
fn common(left: Ty, right: Ty) -> Option<Ty>
    ensures { result ≡ common (Some left) (Some right) }
{
    if left == right { Some(left) } else { None }
}

// The type of an operator's result.
fn operated(op: Op, left: Ty, right: Ty) -> Option<Ty>
    ensures { result ≡ operator_type op (common (Some left) (Some right)) }
{
    let ty = common(left, right)?;
    Some(op.result_type(ty))
}

// The type of all three.
fn clamped(value: Ty, low: Ty, high: Ty) -> Option<Ty>
    ensures { result ≡ common (Some value) (common (Some low) (Some high)) }
{
    common(value, common(low, high)?)
}
