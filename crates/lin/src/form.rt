//! Linear forms: a constant and terms by rising symbol.

ghost use Rattle.std.specs.Prelude.{◌≡◌, ◌≢◌, ◌++◌, All, OnErr, ◌+◌, ◌<◌, ◌≤◌, ◌^◌, length, IfOk, OnOk, ℤ, pos, ◌+ℤ◌, ◌*ℤ◌, IsOk, ◌↔◌, IsTrue, [], ◌∷◌, filter, not, ◌==◌, nat_le, MatchOption, ℕ, Some, None};
ghost use Rattle.lin.specs.Forms.{Form, number, factor_of, value_of, plus_term, plus_terms, is_within_limits, without, plus_multiple, combined, same_form, same_terms, IsCanonical, AreWithin, IsWithin};

use crate::terms::{
    Terms, combined_terms, factor_in, have_same_terms, have_small_factors, terms_without,
};
use smallvec::SmallVec;
use std::alloc::{AllocError, Global};
use std::default::MadeWith;
use std::marker::Model;

/// The number of a symbol, in the order in which symbols are bound.
pub type Sym = usize;

/// A multiple of a symbol.
#[derive(Clone, Copy, Default, PartialEq, Eq, Drop)]
pub struct Multiple {
    pub symbol: Sym,
    pub factor: i64,
}

/// A constant and terms by rising symbol, none of them with the factor 0.
#[derive(Drop)]
pub struct Lin {
    constant: i64,
    terms: Terms,
}

impl Model for Lin {
    ghost use Rattle.lin.specs.Forms.{Form, IsCanonical};

    ghost Value = { Form };

    ghost view = { λ l. record { constant = l.constant; terms = l.terms.items } };

    ghost invariant = { λ l. IsCanonical l.terms.items };
}

/// Why no form came about.
#[derive(Drop)]
pub enum LinError {
    /// X1: a form is outside the limits.
    Limit,
    /// Want of memory.
    Memory,
}

/// The most terms of a form within the limits.
const MOST_TERMS: usize = 8;
/// The largest constant within the limits.
const LARGEST_CONSTANT: u64 = 1 << 40;

impl Lin {
    /// The form that is a number.
    pub fn number(alloc: Global, constant: i64) -> Self
        ensures { result ≡ number constant }
    {
        Lin {
            constant,
            terms: SmallVec::new(alloc),
        }
    }

    /// The form that is a symbol.
    pub fn symbol(alloc: Global, symbol: Sym) -> Result<Self, AllocError>
        ensures { IfOk result (λ form. form ≡ record { constant = pos 0; terms = record { symbol = symbol; factor = pos 1 } ∷ [] }) }
    {
        let mut terms = SmallVec::new(alloc);
        terms.push(Multiple { symbol, factor: 1 })?;
        Ok(Lin { constant: 0, terms })
    }

    /// Adds a term behind the others, whatever the limits. Its symbol is above theirs, and its factor is not 0.
    pub fn push_term(&mut self, symbol: Sym, factor: i64) -> Result<(), AllocError>
        requires rises { All (λ t. t.symbol < symbol) self.old.terms }
        requires factor { factor ≢ pos 0 }
        ensures ok { OnOk result (self.new ≡ record { constant = self.old.constant; terms = self.old.terms ++ record { symbol = symbol; factor = factor } ∷ [] }) }
        ensures err { OnErr result (self.new ≡ self.old) }
    {
        self.terms.push(Multiple { symbol, factor })?;
        Ok(())
    }

    /// The form's constant.
    pub fn constant(&self) -> i64
        ensures { result ≡ self.now.constant }
    {
        self.constant
    }

    /// The form's terms, by rising symbol.
    pub fn terms(&self) -> &[Multiple]
        ensures value { result.now ≡ self.now.terms }
        ensures canonical { IsCanonical result.now }
    {
        self.terms.as_slice()
    }

    /// Whether the form has no symbol.
    pub fn is_number(&self) -> bool
        ensures { IsTrue result ↔ (self.now.terms ≡ []) }
    {
        self.terms.is_empty()
    }

    /// The factor of a symbol, 0 where it has no term.
    pub fn factor(&self, symbol: Sym) -> i64
        ensures value { result ≡ factor_of self.now.terms symbol }
        ensures small { IsTrue (is_within_limits self.now) → IsWithin (2 ^ 20) result }
    {
        factor_in(self.terms(), symbol)
    }

    /// Whether the form has at most 8 terms, factors within 2^20 and a constant within 2^40.
    pub fn is_within_limits(&self) -> bool
        ensures { result ≡ is_within_limits self.now }
    {
        self.terms.len() <= MOST_TERMS
            && have_small_factors(&self.terms)
            && self.constant.unsigned_abs() <= LARGEST_CONSTANT
    }

    /// An equal form.
    pub fn copy(&self, alloc: Global) -> Result<Self, AllocError>
        ensures { IfOk result (λ form. form ≡ self.now) }
    {
        Ok(Lin {
            constant: self.constant,
            terms: SmallVec::from_slice(alloc, &self.terms)?,
        })
    }

    /// Whether two forms are the same.
    pub fn is_same(&self, other: &Lin) -> bool
        ensures { result ≡ same_form self.now other.now }
    {
        self.constant == other.constant && have_same_terms(&self.terms, &other.terms)
    }

    /// The form less its term of a symbol.
    pub fn without(&self, alloc: Global, symbol: Sym) -> Result<Self, AllocError>
        ensures { IfOk result (λ form. form ≡ without self.now symbol) }
    {
        let terms = terms_without(alloc, &self.terms, symbol)?;
        Ok(Lin {
            constant: self.constant,
            terms,
        })
    }

    /// This form and a multiple of another. X1 where one of the three is outside the limits.
    pub fn plus_multiple(&self, alloc: Global, factor: i64, other: &Lin) -> Result<Self, LinError>
        ensures ok { IfOk result (λ sum. combined self.now factor other.now ≡ Some sum) }
        ensures limit { result ≡ Err LinError.Limit → combined self.now factor other.now ≡ None }
    {
        if !self.is_within_limits() || !other.is_within_limits() {
            return Err(LinError::Limit);
        }
        let Some(terms) = combined_terms(alloc, self.terms(), factor, other.terms())? else {
            return Err(LinError::Limit);
        };
        let Some(constant) = sum_with_product(self.constant, factor, other.constant) else {
            return Err(LinError::Limit);
        };
        let sum = Lin { constant, terms };
        if sum.is_within_limits() {
            Ok(sum)
        } else {
            Err(LinError::Limit)
        }
    }

    /// The sum of two forms. X1 where one of the three is outside the limits.
    pub fn add(&self, alloc: Global, other: &Lin) -> Result<Self, LinError>
        ensures ok { IfOk result (λ sum. combined self.now (pos 1) other.now ≡ Some sum) }
        ensures limit { result ≡ Err LinError.Limit → combined self.now (pos 1) other.now ≡ None }
        ensures value { IfOk result (λ sum. (v : ℕ → ℤ) → value_of sum v ≡ value_of self.now v +ℤ value_of other.now v) }
    {
        self.plus_multiple(alloc, 1, other)
    }

    /// A multiple of the form. X1 where one of the two is outside the limits.
    pub fn scale(&self, alloc: Global, factor: i64) -> Result<Self, LinError>
        ensures ok { IfOk result (λ form. combined (number (pos 0)) factor self.now ≡ Some form) }
        ensures limit { result ≡ Err LinError.Limit → combined (number (pos 0)) factor self.now ≡ None }
        ensures value { IfOk result (λ form. (v : ℕ → ℤ) → value_of form v ≡ factor *ℤ value_of self.now v) }
    {
        Lin::number(alloc, 0).plus_multiple(alloc, factor, self)
    }
}

/// A number and a product, where that is a 64-bit number.
fn sum_with_product(number: i64, factor: i64, other: i64) -> Option<i64>
    ensures { MatchOption result (IsWithin (2 ^ 40) number → IsWithin (2 ^ 40) (number +ℤ factor *ℤ other) → ⊥) (λ sum. sum ≡ number +ℤ factor *ℤ other) }
{
    factor.checked_mul(other)?.checked_add(number)
}

impl From<AllocError> for LinError {
    ghost use Rattle.lin.specs.declared.form.LinError.{LinError};

    ghost from_gives = { λ _ e. e ≡ LinError.Memory };

    fn from(_: AllocError) -> Self {
        LinError::Memory
    }
}

impl MadeWith<Global> for Lin {
    fn made_with(alloc: Global) -> Self {
        Lin::number(alloc, 0)
    }
}
