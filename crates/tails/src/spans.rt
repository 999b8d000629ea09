//! Spans of coordinates, in their order.

ghost use Rattle.std.specs.Prelude.{◌≡◌, [], ◌∷◌, IfOk};
ghost use Rattle.std.specs.Option.{option_map};

use lin::Span1;
use std::alloc::{AllocError, Global};
use std::marker::Model;

/// The spans of coordinates, in their order.
#[derive(Drop)]
pub struct Spans {
    list: Vec<Span1>,
}

impl Model for Spans {
    ghost use Rattle.std.specs.Prelude.{List};
    ghost use Rattle.lin.specs.declared.span.Span1.{Span1};

    ghost Value = { List Span1 };

    ghost view = { λ s. s.list.items };
}

impl Spans {
    /// No span.
    pub fn new(alloc: Global) -> Self
        ensures { result ≡ [] }
    {
        Spans {
            list: Vec::new(alloc),
        }
    }

    /// The spans with one more before them.
    pub fn behind(mut self, first: Span1) -> Result<Self, AllocError>
        ensures { IfOk result (λ all. all ≡ first ∷ self) }
    {
        self.list.insert(0, first)?;
        Ok(self)
    }

    /// The spans in order.
    pub fn as_slice(&self) -> &[Span1]
        ensures { result.now ≡ self.now }
    {
        &self.list
    }
}

/// Equal spans.
pub fn copied(alloc: Global, spans: &[Span1]) -> Result<Spans, AllocError>
    ensures { IfOk result (λ all. all ≡ spans.now) }
{
    match spans {
        [] => Ok(Spans::new(alloc)),
        [first, rest @ ..] => {
            let first = first.copy(alloc)?;
            copied(alloc, rest)?.behind(first)
        }
    }
}

/// The spans with a span before them, if there are some.
pub(crate) fn before(
    alloc: Global,
    first: &Span1,
    more: Option<Spans>,
) -> Result<Option<Spans>, AllocError>
    ensures { IfOk result (λ all. all ≡ option_map (λ zs. first.now ∷ zs) more) }
{
    match more {
        Some(rest) => Ok(Some(rest.behind(first.copy(alloc)?)?)),
        None => Ok(None),
    }
}
