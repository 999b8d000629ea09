//! Lists of terms by rising symbol.

ghost use Rattle.std.specs.Prelude.{IsTrue, ◌↔◌, MatchOption, ◌≡◌, ◌+◌, ◌<◌, ◌≤◌, ◌^◌, length, IfOk, OnOk, ◌*ℤ◌, filter, not, ◌==◌, nat_le};
ghost use Rattle.std.specs.List.{list_all};
ghost use Rattle.std.specs.Int.RustNames.{unsigned_abs};
ghost use Rattle.lin.specs.Forms.{factor_of, plus_term, plus_terms, same_terms, IsCanonical, AreWithin, IsWithin};

use crate::form::{Multiple, Sym};
use smallvec::SmallVec;
use std::alloc::{AllocError, Global};

/// Terms by rising symbol: few, as a rule.
pub(crate) type Terms = SmallVec<Multiple, 2>;

/// The largest factor within the limits.
const LARGEST_FACTOR: u64 = 1 << 20;
/// The largest multiplier of terms whose sum with others may be within the limits: one greater gives a factor above
/// 2^21 - 2^20.
const LARGEST_MULTIPLIER: u64 = 1 << 21;

/// Adds a term to terms by rising symbol.
fn add_term(terms: &mut Terms, term: Multiple) -> Result<(), AllocError>
    requires room { AreWithin (2 ^ 62) terms.old.items }
    requires small { IsWithin (2 ^ 61) term.factor }
    ensures { OnOk result (terms.new.items ≡ plus_term terms.old.items term) }
{
    let mut place = 0;
    while place < terms.len() && terms[place].symbol < term.symbol {
        place += 1;
    }
    if place < terms.len() && terms[place].symbol == term.symbol {
        let found = terms.remove(place);
        let sum = found.factor + term.factor;
        if sum != 0 {
            terms.insert(
                place,
                Multiple {
                    symbol: term.symbol,
                    factor: sum,
                },
            )?;
        }
    } else if term.factor != 0 {
        terms.insert(place, term)?;
    }
    Ok(())
}

/// Terms by rising symbol and a multiple of others.
fn plus_terms(
    alloc: Global,
    terms: &[Multiple],
    factor: i64,
    others: &[Multiple],
) -> Result<Terms, AllocError>
    requires room { AreWithin (2 ^ 20) terms.now }
    requires small { AreWithin (2 ^ 20) others.now }
    requires few { length others.now ≤ 8 }
    requires factor { IsWithin (2 ^ 21) factor }
    ensures { IfOk result (λ sum. sum.items ≡ plus_terms terms.now factor others.now) }
{
    let mut sum = SmallVec::from_slice(alloc, terms)?;
    for term in others {
        add_term(
            &mut sum,
            Multiple {
                symbol: term.symbol,
                factor: factor * term.factor,
            },
        )?;
    }
    Ok(sum)
}

/// Terms by rising symbol and a multiple of others; None only where a factor leaves the limits.
pub(crate) fn combined_terms(
    alloc: Global,
    terms: &[Multiple],
    factor: i64,
    others: &[Multiple],
) -> Result<Option<Terms>, AllocError>
    requires canonical { IsCanonical terms.now }
    requires rising { IsCanonical others.now }
    requires room { AreWithin (2 ^ 20) terms.now }
    requires small { AreWithin (2 ^ 20) others.now }
    requires few { length others.now ≤ 8 }
    ensures { let made = plus_terms terms.now factor others.now in IfOk result (λ found. MatchOption found (AreWithin (2 ^ 20) made → ⊥) (λ sum. sum.items ≡ made)) }
{
    if others.is_empty() {
        return Ok(Some(SmallVec::from_slice(alloc, terms)?));
    }
    if factor.unsigned_abs() > LARGEST_MULTIPLIER {
        return Ok(None);
    }
    Ok(Some(plus_terms(alloc, terms, factor, others)?))
}

/// The factor of a symbol, 0 where it has no term.
pub(crate) fn factor_in(terms: &[Multiple], symbol: Sym) -> i64
    requires { IsCanonical terms.now }
    ensures { result ≡ factor_of terms.now symbol }
{
    for term in terms {
        if term.symbol == symbol {
            return term.factor;
        }
    }
    0
}

/// Whether all factors are within 2^20.
pub(crate) fn have_small_factors(terms: &[Multiple]) -> bool
    ensures { result ≡ list_all (λ t. nat_le (unsigned_abs t.factor) (2 ^ 20)) terms.now }
{
    terms
        .iter()
        .all(|term| term.factor.unsigned_abs() <= LARGEST_FACTOR)
}

/// Whether two lists of terms are the same.
pub(crate) fn have_same_terms(first: &[Multiple], second: &[Multiple]) -> bool
    ensures { result ≡ same_terms first.now second.now }
{
    first == second
}

/// The terms of all symbols but one.
pub(crate) fn terms_without(
    alloc: Global,
    terms: &[Multiple],
    symbol: Sym,
) -> Result<Terms, AllocError>
    ensures { IfOk result (λ rest. rest.items ≡ filter (λ t. not (t.symbol == symbol)) terms.now) }
{
    let mut rest = SmallVec::new(alloc);
    for term in terms {
        if term.symbol != symbol {
            rest.push(*term)?;
        }
    }
    Ok(rest)
}
