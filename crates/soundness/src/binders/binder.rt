//! What is bound around a line.

use lin::{Forms, Lin, Span1, Sym};
use plan::Pick;

/// A symbol with what is known of it, or a guard that was passed.
#[derive(Clone, Copy, Drop)]
pub enum Binder<'a> {
    /// A symbol of the grid, which takes so many values from 0 on.
    Grid {
        symbol: Sym,
        count: u64,
    },
    /// The symbol of a loop over a span.
    Ranged {
        symbol: Sym,
        span: &'a Span1,
    },
    /// A name for the smallest or largest of some forms.
    Picked {
        symbol: Sym,
        pick: Pick,
        forms: &'a Forms,
    },
    /// A guard: the one form is at most the other.
    Passed {
        low: &'a Lin,
        high: &'a Lin,
    },
}
