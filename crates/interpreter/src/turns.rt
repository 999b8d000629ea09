//! The turns of a loop.

ghost use Rattle.std.specs.Prelude.{◌≡◌, int_le};
ghost use Rattle.plan.specs.Symbols.{largest, smallest};
ghost use Rattle.interpreter.specs.Bindings.{symbols_of};
ghost use Rattle.interpreter.specs.Narrow.{SpanIsNarrow};

use crate::forms::{largest, smallest};
use crate::symbols::{Binding, Symbols};
use lin::{Span1, Sym};

/// A loop's symbol, and the numbers from which to which it goes.
#[derive(Clone, Copy, Drop)]
pub(crate) struct Turns {
    pub symbol: Sym,
    pub low: i64,
    pub high: i64,
}

/// The turns of a loop over a span.
pub(crate) fn turns_of(symbol: Sym, span: &Span1, symbols: &Symbols) -> Turns
    requires { SpanIsNarrow (symbols_of symbols.now) span.now }
    ensures { result ≡ record { symbol = symbol; low = largest (symbols_of symbols.now) span.now.lower; high = smallest (symbols_of symbols.now) span.now.upper } }
{
    Turns {
        symbol,
        low: largest(&span.lower, symbols),
        high: smallest(&span.upper, symbols),
    }
}

/// What the loop's symbol is in a turn.
pub(crate) fn turn(turns: Turns, value: i64) -> Binding
    ensures { result ≡ record { symbol = turns.symbol; value = value; first = int_le value turns.low } }
{
    Binding {
        symbol: turns.symbol,
        value,
        first: value <= turns.low,
    }
}
