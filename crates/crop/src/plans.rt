//! What becomes of an operator, a clamp and a comparison whose sides are moved, by numbers alone.

ghost use Rattle.std.specs.Prelude.{◌≡◌, ◌≤ℤ◌, ◌<ℤ◌, ◌*ℤ◌, pos, negsuc, neg_ℤ, Some};
ghost use Rattle.numeric.specs.declared.ty.Ty.TheVariants.{I32 as Index};
ghost use Rattle.numeric.specs.declared.op.Op.TheVariants.{Add, Sub, Mul, Div, Rem, Min, Max};
ghost use Rattle.numeric.specs.declared.op.Comparison.{Comparison};
ghost use Rattle.numeric.specs.declared.op.Op.{Op};
ghost use Rattle.numeric.specs.Wrap.{wrap as wrap_of};
ghost use Rattle.numeric.specs.Apply.{quotient};
ghost use Rattle.tree.specs.Term.{Term, Binary, Clamp};
ghost use Rattle.crop.specs.Moving.{Moving, against, both_fit, bounded, clamp_of, clamp_plain, clamp_to, compare_plain, difference_moved, greatest_moved, least_moved, literal, multiple_in, plain_moved, plus, product_moved, quotient_moved, remainder_moved, sum_moved};
ghost use Rattle.crop.specs.Plan.{IsClampPlan, IsComparePlan, number_from, operator_of, clamp_by, compare_by};

use crate::cut::Stretch;
use crate::numbers::{
    added, against, fits, multiple_in, product, small, with_difference, with_sum, wrapped,
};

/// What becomes of one side: a number is added to it, or it stays as it is, or a number stands in its place.
#[derive(Clone, Copy, Drop)]
pub(crate) enum Side {
    Moved(i32),
    Kept,
    Number(i32),
}

/// What becomes of an operator: the left side alone or the right side alone with a number added, or both sides and a number
/// behind them.
#[derive(Clone, Copy, Drop)]
pub(crate) enum Plan {
    Left(i32),
    Right(i32),
    Both { left: Side, right: Side, more: i32 },
}

/// What becomes of a clamp: the number that is added to its argument, its bounds, and the number behind it.
#[derive(Clone, Copy, Drop)]
pub(crate) struct Clamping {
    pub value: i32,
    pub low: Side,
    pub high: Side,
    pub more: i32,
}

/// What becomes of a comparison: the number that is added to its left side, and its right side.
#[derive(Clone, Copy, Drop)]
pub(crate) struct Comparing {
    pub left: i32,
    pub right: Side,
}

// Whether numbers, and all between them, stay values of i32 when a number is added.
fn both_fit(c: i64, low: i32, high: i32) -> bool
    requires small { (negsuc 4294967295 ≤ℤ c) × (c ≤ℤ pos 4294967296) }
    ensures { result ≡ both_fit c low high }
{
    let first = i64::from(low) + c;
    let second = i64::from(high) + c;
    fits(first) && fits(second)
}

// The quotient of a number by a positive one.
fn quotient(divisor: i32, number: i32) -> i64
    requires { pos 0 <ℤ divisor }
    ensures value { result ≡ quotient number divisor }
    ensures near { (negsuc 2147483647 ≤ℤ result) × (result ≤ℤ pos 2147483647) }
{
    i64::from(number).div_euclid(i64::from(divisor))
}

// Whether the argument stays an i32 where the multiple of the divisor is taken off.
fn divides_well(divisor: i32, first: i32, ends: Stretch) -> bool
    requires { pos 0 <ℤ divisor }
    ensures { result ≡ both_fit (neg_ℤ (multiple_in divisor first)) ends.low ends.high }
{
    both_fit(-multiple_in(divisor, first), ends.low, ends.high)
}

// The number, or the nearer of the ends.
fn clamp_to(low: i32, high: i32, number: i32) -> i32
    ensures { result ≡ clamp_to low high number }
{
    number.min(high).max(low)
}

// What a comparison from the lower end on has in a number's place, where nothing leaves i32.
fn number_from(number: i32, low: i32, high: i32) -> Option<i32>
    ensures { result ≡ number_from number low high }
{
    let low = i64::from(low);
    let high = i64::from(high);
    if !fits(high - low + 1) {
        return None;
    }
    small(i64::from(number).min(high + 1).max(low - 1) - low)
}

/// Both sides as they are, and a number behind the operator.
pub(crate) fn plain(c: i32) -> Plan
    ensures { (op : Op) (a b : Term) (f g : Moving) → operator_of result op a b f g ≡ plain_moved op c f g }
{
    Plan::Both {
        left: Side::Moved(0),
        right: Side::Moved(0),
        more: c,
    }
}

// Both sides less the numbers that stand in them, and a number behind the operator.
fn less(first: i32, second: i32, more: i32) -> Plan
    ensures { (op : Op) (a b : Term) (f g : Moving) → operator_of result op a b f g ≡ plus (Binary op (f (against first)) (g (against second))) more }
{
    Plan::Both {
        left: Side::Moved(against(first)),
        right: Side::Moved(against(second)),
        more,
    }
}

/// A sum: a number goes into the other side; of two other sides the numbers that stand in them go behind the sum.
pub(crate) fn sum_plan(
    c: i32,
    left: Option<i32>,
    right: Option<i32>,
    first: i32,
    second: i32,
) -> Plan
    ensures { (a b : Term) (f g : Moving) → operator_of result Add a b f g ≡ sum_moved c right left first second f g }
{
    match (right, left) {
        (Some(number), _) => Plan::Left(added(c, number)),
        (None, Some(number)) => Plan::Right(added(c, number)),
        (None, None) => less(first, second, with_sum(c, first, second)),
    }
}

/// The same of a difference.
pub(crate) fn difference_plan(
    c: i32,
    left: Option<i32>,
    right: Option<i32>,
    first: i32,
    second: i32,
) -> Plan
    ensures { (a b : Term) (f g : Moving) → operator_of result Sub a b f g ≡ difference_moved c right left first second f g }
{
    match (right, left) {
        (Some(number), _) => Plan::Left(wrapped(i64::from(c) - i64::from(number))),
        (None, Some(number)) => Plan::Both {
            left: Side::Number(with_difference(c, number, second)),
            right: Side::Moved(against(second)),
            more: 0,
        },
        (None, None) => less(first, second, with_difference(c, first, second)),
    }
}

/// A product: a literal factor goes into the number that stands in the other side.
pub(crate) fn product_plan(
    c: i32,
    left: Option<i32>,
    right: Option<i32>,
    first: i32,
    second: i32,
) -> Plan
    ensures { (a b : Term) (f g : Moving) → operator_of result Mul a b f g ≡ product_moved c right left first second a b f g }
{
    match (right, left) {
        (Some(number), _) => Plan::Both {
            left: Side::Moved(against(first)),
            right: Side::Kept,
            more: added(c, product(first, number)),
        },
        (None, Some(number)) => Plan::Both {
            left: Side::Kept,
            right: Side::Moved(against(second)),
            more: added(c, product(number, second)),
        },
        (None, None) => plain(c),
    }
}

// A quotient by a number of an argument between these ends.
fn quotient_by(c: i32, divisor: i32, ends: Stretch, first: i32) -> Plan
    ensures { (a b : Term) (f g : Moving) → operator_of result Div a b f g ≡ quotient_moved c (Some divisor) (Some ends) first b f g }
{
    if divisor <= 0 {
        return plain(c);
    }
    if !divides_well(divisor, first, ends) {
        return plain(c);
    }
    Plan::Both {
        left: Side::Moved(wrapped(-multiple_in(divisor, first))),
        right: Side::Kept,
        more: wrapped(i64::from(c) + quotient(divisor, first)),
    }
}

/// A quotient: multiples of a positive divisor come out, where the dividend stays an i32.
pub(crate) fn quotient_plan(c: i32, right: Option<i32>, ends: Option<Stretch>, first: i32) -> Plan
    ensures { (a b : Term) (f g : Moving) → operator_of result Div a b f g ≡ quotient_moved c right ends first b f g }
{
    match (right, ends) {
        (Some(number), Some(ends)) => quotient_by(c, number, ends, first),
        (Some(_), None) => plain(c),
        (None, _) => plain(c),
    }
}

// A remainder of a division by a number of an argument between these ends.
fn remainder_by(c: i32, divisor: i32, ends: Stretch, first: i32) -> Plan
    ensures { (a b : Term) (f g : Moving) → operator_of result Rem a b f g ≡ remainder_moved c (Some divisor) (Some ends) first b f g }
{
    if divisor <= 0 {
        return plain(c);
    }
    if !divides_well(divisor, first, ends) {
        return plain(c);
    }
    Plan::Both {
        left: Side::Moved(wrapped(-multiple_in(divisor, first))),
        right: Side::Kept,
        more: c,
    }
}

/// The same of a remainder.
pub(crate) fn remainder_plan(c: i32, right: Option<i32>, ends: Option<Stretch>, first: i32) -> Plan
    ensures { (a b : Term) (f g : Moving) → operator_of result Rem a b f g ≡ remainder_moved c right ends first b f g }
{
    match (right, ends) {
        (Some(number), Some(ends)) => remainder_by(c, number, ends, first),
        (Some(_), None) => plain(c),
        (None, _) => plain(c),
    }
}

// A bound, and the number behind the operator.
fn bound_behind(c: i32, bound: i32) -> Plan
    ensures { (op : Op) (a b : Term) (f g : Moving) → operator_of result op a b f g ≡ plus (Binary op (f (pos 0)) (literal bound)) c }
{
    Plan::Both {
        left: Side::Moved(0),
        right: Side::Number(bound),
        more: c,
    }
}

// The lesser or the greater of an argument between these ends and of a number.
fn bounded(c: i32, bound: i32, ends: Stretch) -> Plan
    ensures { (op : Op) (a b : Term) (f g : Moving) → operator_of result op a b f g ≡ bounded op c bound ends f }
{
    if !both_fit(i64::from(c), ends.low, ends.high) {
        return bound_behind(c, bound);
    }
    match small(i64::from(bound) + i64::from(c)) {
        Some(number) => Plan::Both {
            left: Side::Moved(c),
            right: Side::Number(number),
            more: 0,
        },
        None => bound_behind(c, bound),
    }
}

/// The lesser of two: a bound that cannot bite is moved to the argument's own end; the number goes in where nothing leaves i32.
pub(crate) fn least_plan(c: i32, right: Option<i32>, ends: Option<Stretch>) -> Plan
    ensures { (a b : Term) (f g : Moving) → operator_of result Min a b f g ≡ least_moved c right ends f g }
{
    match (right, ends) {
        (Some(number), Some(ends)) => bounded(c, number.min(ends.high), ends),
        (Some(_), None) => plain(c),
        (None, _) => plain(c),
    }
}

/// The same of the greater one.
pub(crate) fn greatest_plan(c: i32, right: Option<i32>, ends: Option<Stretch>) -> Plan
    ensures { (a b : Term) (f g : Moving) → operator_of result Max a b f g ≡ greatest_moved c right ends f g }
{
    match (right, ends) {
        (Some(number), Some(ends)) => bounded(c, number.max(ends.low), ends),
        (Some(_), None) => plain(c),
        (None, _) => plain(c),
    }
}

// A clamp as it is, and the number behind it.
fn clamp_plain(c: i32) -> Clamping
    ensures { (l h : Term) (f g k : Moving) → clamp_by result l h f g k ≡ clamp_plain c f g k }
{
    Clamping {
        value: 0,
        low: Side::Moved(0),
        high: Side::Moved(0),
        more: c,
    }
}

// A clamp between two numbers, and a number behind it.
fn clamp_behind(c: i32, low: i32, high: i32) -> Clamping
    ensures { (l h : Term) (f g k : Moving) → clamp_by result l h f g k ≡ plus (Clamp (f (pos 0)) (literal low) (literal high)) c }
{
    Clamping {
        value: 0,
        low: Side::Number(low),
        high: Side::Number(high),
        more: c,
    }
}

// A clamp between two numbers of an argument between these ends.
fn clamp_of(c: i32, low: i32, high: i32, ends: Stretch) -> Clamping
    ensures { (l h : Term) (f g k : Moving) → clamp_by result l h f g k ≡ clamp_of c low high ends f }
{
    let by = i64::from(c);
    if !both_fit(by, ends.low, ends.high) {
        return clamp_behind(c, low, high);
    }
    match small(i64::from(low) + by) {
        Some(from) => match small(i64::from(high) + by) {
            Some(to) => Clamping {
                value: c,
                low: Side::Number(from),
                high: Side::Number(to),
                more: 0,
            },
            None => clamp_behind(c, low, high),
        },
        None => clamp_behind(c, low, high),
    }
}

// A clamp between numbers of an argument between these ends.
fn clamp_between(c: i32, low: i32, high: i32, ends: Stretch) -> Clamping
    ensures { IsClampPlan c (Some low) (Some high) (Some ends) result }
{
    if low > high {
        return clamp_plain(c);
    }
    clamp_of(
        c,
        clamp_to(low, high, ends.low),
        clamp_to(low, high, ends.high),
        ends,
    )
}

/// A clamp: between numbers it has the argument's own ends where it cannot bite.
pub(crate) fn clamp_plan(
    c: i32,
    low: Option<i32>,
    high: Option<i32>,
    ends: Option<Stretch>,
) -> Clamping
    ensures { IsClampPlan c low high ends result }
{
    match (low, high, ends) {
        (Some(low), Some(high), Some(ends)) => clamp_between(c, low, high, ends),
        (Some(_), Some(_), None) => clamp_plain(c),
        (Some(_), None, _) => clamp_plain(c),
        (None, _, _) => clamp_plain(c),
    }
}

// A comparison as it is.
fn compare_plain() -> Comparing
    ensures { (by : Comparison) (b : Term) (f g : Moving) → compare_by result by b f g ≡ compare_plain by f g }
{
    Comparing {
        left: 0,
        right: Side::Moved(0),
    }
}

// A comparison with a number, from the argument's lower end on: the number is at most one outside the ends.
fn compare_from(number: i32, ends: Stretch) -> Comparing
    ensures { IsComparePlan (Some number) (Some ends) result }
{
    match number_from(number, ends.low, ends.high) {
        Some(number) => Comparing {
            left: against(ends.low),
            right: Side::Number(number),
        },
        None => compare_plain(),
    }
}

/// A comparison: with a number it is one of numbers from the argument's lower end on.
pub(crate) fn compare_plan(right: Option<i32>, ends: Option<Stretch>) -> Comparing
    ensures { IsComparePlan right ends result }
{
    match (right, ends) {
        (Some(number), Some(ends)) => compare_from(number, ends),
        (Some(_), None) => compare_plain(),
        (None, _) => compare_plain(),
    }
}
