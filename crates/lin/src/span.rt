//! Spans of one coordinate and regions of points.

ghost use Rattle.std.specs.Prelude.{◌≡◌, [], ◌∷◌, ◌++◌, IfOk, OnOk, OnErr};

use crate::forms::Forms;
use std::alloc::{AllocError, Global};
use std::marker::Model;

/// The forms that bound a coordinate: the largest lower and the smallest upper one count. A side without forms bounds
/// nothing.
#[derive(Drop)]
pub struct Span1 {
    pub lower: Forms,
    pub upper: Forms,
}

impl Span1 {
    /// An equal span.
    pub fn copy(&self, alloc: Global) -> Result<Self, AllocError>
        ensures { IfOk result (λ copy. copy ≡ self.now) }
    {
        Ok(Span1 {
            lower: self.lower.copy(alloc)?,
            upper: self.upper.copy(alloc)?,
        })
    }
}

/// The points whose coordinates each lie in a span.
#[derive(Drop)]
pub struct Region {
    spans: Vec<Span1>,
}

impl Model for Region {
    ghost use Rattle.std.specs.Prelude.{List};
    ghost use Rattle.lin.specs.declared.span.Span1.{Span1};

    ghost Value = { List Span1 };

    ghost view = { λ r. r.spans.items };
}

impl Region {
    /// The region without coordinates.
    pub fn new(alloc: Global) -> Self
        ensures { result ≡ [] }
    {
        Region {
            spans: Vec::new(alloc),
        }
    }

    /// Adds the span of the next coordinate.
    pub fn push(&mut self, span: Span1) -> Result<(), AllocError>
        ensures ok { OnOk result (self.new ≡ self.old ++ span ∷ []) }
        ensures err { OnErr result (self.new ≡ self.old) }
    {
        self.spans.push(span)?;
        Ok(())
    }

    /// The spans of the coordinates in order.
    pub fn as_slice(&self) -> &[Span1]
        ensures { result.now ≡ self.now }
    {
        &self.spans
    }

    /// An equal region.
    pub fn copy(&self, alloc: Global) -> Result<Self, AllocError>
        ensures { IfOk result (λ copy. copy ≡ self.now) }
    {
        copy_spans(alloc, &self.spans)
    }
}

/// The region of equal spans.
fn copy_spans(alloc: Global, spans: &[Span1]) -> Result<Region, AllocError>
    ensures { IfOk result (λ copy. copy ≡ spans.now) }
{
    let mut copy = Region::new(alloc);
    for span in spans {
        copy.push(span.copy(alloc)?)?;
    }
    Ok(copy)
}
