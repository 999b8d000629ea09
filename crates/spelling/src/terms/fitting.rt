//! Which expressions have a text in a plan that is read as that expression.

ghost use Rattle.std.specs.Prelude.{◌≡◌, ◌≤◌};
ghost use Rattle.std.specs.List.{list_all};
ghost use Rattle.tree.specs.Token.Spelling.{is_digit};
ghost use Rattle.tree.specs.Term.{term_of, test_of, list_terms, indices, Call};
ghost use Rattle.spelling.specs.Terms.Fitting as spec;

use crate::words::{begins, has_large_number, is_name, skip};
use numeric::Ty;
use tree::{Cond, Expr};

/// How many brackets may be open at once in the text of an expression.
pub const MAX_BRACKETS: usize = 256;

/// Whether the number is from 0 on and in its type.
fn is_literal(ty: Ty, number: i64) -> bool
    ensures { result ≡ spec.is_literal ty number }
{
    0 <= number && number <= ty.greatest()
}

fn are_digits(digits: &[u8]) -> bool
    ensures { result ≡ list_all is_digit digits.now }
{
    digits.iter().all(|digit| digit.is_ascii_digit())
}

/// Whether the bytes are digits without a leading zero, or a 0 alone.
fn is_numeral(digits: &[u8]) -> bool
    ensures { result ≡ spec.is_numeral digits.now }
{
    !digits.is_empty() && are_digits(digits) && (digits.len() == 1 || !begins(b'0', digits))
}

/// Whether the bytes are `@` and the number of a claim.
fn is_load(name: &[u8]) -> bool
    ensures { result ≡ spec.is_load name.now }
{
    begins(b'@', name) && is_numeral(skip(1, name)) && !has_large_number(name)
}

/// Whether a name can be called.
fn is_called(name: &[u8]) -> bool
    ensures { result ≡ spec.is_called name.now }
{
    is_name(name) || is_load(name)
}

/// Whether each literal, name and load can be written, and no more than so many brackets are open at once.
#[cycle(fits)]
fn fits_within(expr: &Expr, brackets: usize) -> bool
    ensures { result ≡ spec.fits_within (term_of expr.now) brackets }
{
    match expr {
        Expr::Literal { ty, number, .. } => is_literal(*ty, *number),
        Expr::Variable { name, .. } => is_name(name.as_bytes()),
        Expr::Call { name, at, .. } => fits_call(name.as_bytes(), at, brackets),
        Expr::Negate { value, .. } | Expr::Cast { value, .. } => {
            brackets > 0 && fits_within(value, brackets - 1)
        }
        Expr::Binary { left, right, .. } => {
            brackets > 0 && fits_within(left, brackets - 1) && fits_within(right, brackets - 1)
        }
        Expr::Clamp {
            value,
            low,
            high,
            ..
        } => {
            brackets > 0
                && fits_within(value, brackets - 1)
                && fits_within(low, brackets - 1)
                && fits_within(high, brackets - 1)
        }
        Expr::Select { cond, yes, no, .. } => {
            brackets > 0
                && test_fits(cond, brackets - 1)
                && fits_within(yes, brackets - 1)
                && fits_within(no, brackets - 1)
        }
    }
}

/// The same of a condition.
#[cycle(fits)]
fn test_fits(cond: &Cond, brackets: usize) -> bool
    ensures { result ≡ spec.test_fits (test_of cond.now) brackets }
{
    match cond {
        Cond::Compare { left, right, .. } => {
            fits_within(left, brackets) && fits_within(right, brackets)
        }
        Cond::Not { cond, .. } => brackets > 0 && test_fits(cond, brackets - 1),
        Cond::All { first, second, .. } | Cond::Any { first, second, .. } => {
            brackets > 0 && test_fits(first, brackets - 1) && test_fits(second, brackets - 1)
        }
    }
}

/// The same of a call.
#[cycle(fits)]
fn fits_call(name: &[u8], at: &[Expr], brackets: usize) -> bool
    ensures { result ≡ spec.fits_within (Call name.now (indices (list_terms at.now))) brackets }
{
    is_called(name) && brackets > 0 && fits_row(at, brackets - 1)
}

/// The same of the indices of a call, of which there is one at least.
#[cycle(fits)]
#[tactic(auto, using(crate::proofs::Rows::some_fit))]
fn fits_row(at: &[Expr], brackets: usize) -> bool
    ensures { result ≡ spec.fits_row (indices (list_terms at.now)) brackets }
{
    !at.is_empty() && all_fit(at, brackets)
}

/// The same of several expressions.
#[cycle(fits)]
fn all_fit(at: &[Expr], brackets: usize) -> bool
    ensures { result ≡ spec.all_fit (indices (list_terms at.now)) brackets }
{
    for index in at {
        if !fits_within(index, brackets) {
            return false;
        }
    }
    true
}

/// Whether the expression can be written and read again: each literal is from 0 on and in its type, each variable is a
/// name, each call is one of a name or of `@` and a claim's number, with one index or more, and at most 256 brackets
/// are open at once.
pub fn fits_term(expr: &Expr) -> bool
    ensures { result ≡ spec.fits_term (term_of expr.now) }
{
    fits_within(expr, MAX_BRACKETS)
}

/// How many brackets are open after a byte, of so many before it.
fn open_after(before: usize, byte: u8) -> usize
    requires { before ≤ spec.max_brackets }
    ensures { result ≡ spec.open_after before byte }
{
    match byte {
        b'(' | b'[' => before + 1,
        b')' | b']' => before.saturating_sub(1),
        _ => before,
    }
}

/// Whether more than 256 brackets are open somewhere in a line, which is more than an expression may have.
pub fn has_deep_brackets(line: &[u8]) -> bool
    ensures { result ≡ spec.has_deep_brackets line.now }
{
    let mut open = 0;
    for byte in line {
        open = open_after(open, *byte);
        if open > MAX_BRACKETS {
            return true;
        }
    }
    false
}
