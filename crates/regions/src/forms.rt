//! Forms with another number or factor, and numbers as a plan keeps them.

ghost use Rattle.std.specs.Prelude.{◌≡◌, [], ◌-◌, ◌<ℤ◌, pos, IfOk};
ghost use Rattle.lin.specs.Forms.{combined, number};
ghost use Rattle.regions.specs.Needs as needs;
ghost use Rattle.numeric.specs.Apply as apply;

use lin::{Lin, LinError, Multiple};
use std::alloc::{AllocError, Global};

/// The most forms that a side of a span has.
pub(crate) const MOST_FORMS: usize = 4;

// The quotient, rounded down.
fn quotient(number: i64, divisor: i64) -> i64
    requires { pos 0 <ℤ divisor }
    ensures { result ≡ apply.quotient number divisor }
{
    number.div_euclid(divisor)
}

fn is_multiple(term: &Multiple, divisor: i64) -> bool
    requires { pos 0 <ℤ divisor }
    ensures { result ≡ needs.is_multiple divisor term.now }
{
    term.factor.rem_euclid(divisor) == 0
}

// A form and a multiple of another; none outside the limits of forms.
fn combined_within(
    alloc: Global,
    form: &Lin,
    factor: i64,
    other: &Lin,
) -> Result<Option<Lin>, AllocError>
    ensures { IfOk result (λ made. made ≡ combined form.now factor other.now) }
{
    match form.plus_multiple(alloc, factor, other) {
        Ok(made) => Ok(Some(made)),
        Err(LinError::Limit) => Ok(None),
        Err(LinError::Memory) => Err(AllocError),
    }
}

/// The form and a number more; none outside the limits of forms.
pub(crate) fn raised_within(alloc: Global, form: &Lin, by: i64) -> Result<Option<Lin>, AllocError>
    ensures { IfOk result (λ made. made ≡ combined (number by) (pos 1) form.now) }
{
    combined_within(alloc, &Lin::number(alloc, by), 1, form)
}

// The form, and a term more, whose factor is divided; none outside the limits of forms.
fn plus_part(
    alloc: Global,
    form: &Lin,
    term: &Multiple,
    divisor: i64,
) -> Result<Option<Lin>, AllocError>
    requires { pos 0 <ℤ divisor }
    ensures { IfOk result (λ made. made ≡ needs.plus_part divisor form.now term.now) }
{
    let symbol = Lin::symbol(alloc, term.symbol)?;
    combined_within(alloc, form, quotient(term.factor, divisor), &symbol)
}

// The form, and terms more, whose factors are divided; none where one is no multiple of the divisor, or outside the limits of forms.
fn plus_parts(
    alloc: Global,
    form: Lin,
    terms: &[Multiple],
    divisor: i64,
) -> Result<Option<Lin>, AllocError>
    requires { pos 0 <ℤ divisor }
    ensures { IfOk result (λ made. made ≡ needs.plus_parts divisor form terms.now) }
{
    match terms {
        [] => Ok(Some(form)),
        [term, rest @ ..] => {
            if !is_multiple(term, divisor) {
                return Ok(None);
            }
            match plus_part(alloc, &form, term, divisor)? {
                Some(next) => plus_parts(alloc, next, rest, divisor),
                None => Ok(None),
            }
        }
    }
}

/// The form by a divisor, rounded down; none where a factor is no multiple of it, it is not positive, or a form is outside the limits.
pub(crate) fn divided(alloc: Global, form: &Lin, divisor: i64) -> Result<Option<Lin>, AllocError>
    ensures { IfOk result (λ made. made ≡ needs.divided divisor form.now) }
{
    if divisor <= 0 {
        return Ok(None);
    }
    let constant = quotient(form.constant(), divisor);
    plus_parts(alloc, Lin::number(alloc, constant), form.terms(), divisor)
}
