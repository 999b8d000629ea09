//! The value of an expression.

ghost use Rattle.std.specs.Prelude.{◌≡◌, ◌≤◌, length, map, IsSome, IsTrue, Some, All};
ghost use Rattle.numeric.specs.Wrap.{IsOf};
ghost use Rattle.numeric.specs.declared.ty.Ty.TheVariants.{I32 as Index};
ghost use Rattle.tree.specs.Term.{term_of, test_of};
ghost use Rattle.tree.specs.Typing.{CanEvaluate, CanDecide, HasFewIndices, shape_type, type_of};
ghost use Rattle.tree.specs.Meaning.{value_of, holds as held, negated, clamped, typed};
ghost use Rattle.tree.specs.Names.{TakesCall, typed_answers, called_type, IsIndex};

use crate::expr::{Cond, Expr};
use crate::names::Env;
use crate::value::Value;
use numeric::{Ty, apply, cast, compare, negate};

/// The number that an expression stands for.
pub fn eval<E: Env>(expr: &Expr, env: &E) -> i64
    requires typed { IsSome (type_of (E.variables env.now) (E.functions env.now) (term_of expr.now)) }
    requires few { HasFewIndices (term_of expr.now) }
    ensures { result ≡ (value_of (E.numbers env.now) (typed_answers (E.functions env.now) (E.answers env.now)) (term_of expr.now)).number }
{
    evaluate(expr, env).number
}

// The value of an expression, with its type.
#[cycle(eval)]
fn evaluate<E: Env>(expr: &Expr, env: &E) -> Value
    requires { CanEvaluate (E.variables env.now) (E.functions env.now) (term_of expr.now) }
    ensures value { result ≡ value_of (E.numbers env.now) (typed_answers (E.functions env.now) (E.answers env.now)) (term_of expr.now) }
    ensures ty { result.ty ≡ shape_type (E.functions env.now) (term_of expr.now) }
    ensures within { IsOf result.ty result.number }
{
    match expr {
        Expr::Literal { ty, number, .. } => typed(*ty, *number),
        Expr::Variable { name, .. } => typed(Ty::I32, env.value(name.as_str())),
        Expr::Call { name, at, .. } => call(name.as_str(), at, env),
        Expr::Negate { value, .. } => negated(evaluate(value, env)),
        Expr::Binary {
            op,
            left,
            right,
            ..
        } => {
            let left = evaluate(left, env);
            let right = evaluate(right, env);
            Value {
                ty: op.result_type(left.ty),
                number: apply(*op, left.ty, left.number, right.number),
            }
        }
        Expr::Clamp {
            value,
            low,
            high,
            ..
        } => {
            let value = evaluate(value, env);
            let low = evaluate(low, env);
            let high = evaluate(high, env);
            clamped(value, low, high)
        }
        Expr::Cast { ty, value, .. } => typed(*ty, cast(*ty, evaluate(value, env).number)),
        Expr::Select { cond, yes, no, .. } => {
            if holds(cond, env) {
                evaluate(yes, env)
            } else {
                evaluate(no, env)
            }
        }
    }
}

// Whether a condition holds.
#[cycle(eval)]
fn holds<E: Env>(cond: &Cond, env: &E) -> bool
    requires { CanDecide (E.variables env.now) (E.functions env.now) (test_of cond.now) }
    ensures { result ≡ held (E.numbers env.now) (typed_answers (E.functions env.now) (E.answers env.now)) (test_of cond.now) }
{
    match cond {
        Cond::Compare {
            by,
            left,
            right,
            ..
        } => compare(*by, evaluate(left, env).number, evaluate(right, env).number),
        Cond::Not { cond, .. } => !holds(cond, env),
        Cond::All { first, second, .. } => holds(first, env) && holds(second, env),
        Cond::Any { first, second, .. } => holds(first, env) || holds(second, env),
    }
}

// What a call answers.
#[cycle(eval)]
fn call<E: Env>(name: &str, at: &[Expr], env: &E) -> Value
    requires known { TakesCall (E.functions env.now name.now) (length at.now) }
    requires few { length at.now ≤ 4 }
    requires typed { All (λ a. CanEvaluate (E.variables env.now) (E.functions env.now) (term_of a)) at.now }
    requires indices { All (λ a. shape_type (E.functions env.now) (term_of a) ≡ Index) at.now }
    ensures value { result ≡ typed_answers (E.functions env.now) (E.answers env.now) name.now (map (λ a. (value_of (E.numbers env.now) (typed_answers (E.functions env.now) (E.answers env.now)) (term_of a)).number) at.now) }
    ensures within { IsOf result.ty result.number }
    ensures ty { result.ty ≡ called_type (E.functions env.now name.now) }
{
    let mut numbers = [0; 4];
    for (i, index) in at.iter().enumerate() {
        numbers[i] = evaluate(index, env).number;
    }
    let number = env.call(name, &numbers[..at.len()]);
    let ty = match env.func(name) {
        Some((ty, _)) => ty,
        None => Ty::I32,
    };
    Value { ty, number }
}

// A number with its type.
fn typed(ty: Ty, number: i64) -> Value
    ensures { result ≡ typed ty number }
{
    Value { ty, number }
}

// The wrapped negation.
fn negated(a: Value) -> Value
    requires { IsOf a.ty a.number }
    ensures value { result ≡ negated a }
    ensures within { IsOf result.ty result.number }
{
    Value {
        ty: a.ty,
        number: negate(a.ty, a.number),
    }
}

// The first, not above the third and not below the second.
fn clamped(value: Value, low: Value, high: Value) -> Value
    requires value { IsOf value.ty value.number }
    requires low { IsOf value.ty low.number }
    requires high { IsOf value.ty high.number }
    ensures value { result ≡ clamped value low high }
    ensures within { IsOf result.ty result.number }
{
    Value {
        ty: value.ty,
        number: value.number.min(high.number).max(low.number),
    }
}
