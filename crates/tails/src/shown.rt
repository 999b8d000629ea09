//! Which forms are shown to be at most which.

ghost use Rattle.std.specs.Prelude.{◌≡◌, [], ◌∷◌, Bool, false, IfOk};
ghost use Rattle.lin.specs.Forms.{Form};

use lin::{Forms, Lin, Span1};
use soundness::binders::{Binder, Bounds};
use std::alloc::{AllocError, Global};

/// A test by which one form is shown to be at most another.
pub trait Shows {
    /// What the test says.
    ghost shows: { Self → Form → Form → Bool };

    /// Whether the one form is shown to be at most the other.
    fn is_shown(&self, alloc: Global, low: &Lin, high: &Lin) -> Result<bool, AllocError>
        ensures { IfOk result (λ yes. yes ≡ shows self.now low.now high.now) };
}

/// The test that shows nothing.
#[derive(Clone, Copy, Drop)]
pub struct Nothing;

impl Shows for Nothing {
    ghost shows = { λ t a b. false };

    fn is_shown(&self, _alloc: Global, _low: &Lin, _high: &Lin) -> Result<bool, AllocError> {
        Ok(false)
    }
}

/// The test by bounds, whatever the symbols of the binders around stand for.
#[derive(Drop)]
pub struct Within<'a, B: Bounds> {
    pub bounds: &'a B,
    /// What is bound around, from the outermost on.
    pub binders: &'a [Binder<'a>],
}

/// The span of the numbers from a form on.
fn numbers_from(alloc: Global, form: &Lin) -> Result<Span1, AllocError>
    ensures { IfOk result (λ span. span ≡ record { lower = form.now ∷ []; upper = [] }) }
{
    let mut lower = Forms::new(alloc);
    lower.push(form.copy(alloc)?)?;
    Ok(Span1 {
        lower,
        upper: Forms::new(alloc),
    })
}

impl<B: Bounds> Shows for Within<'_, B> {
    ghost use Rattle.soundness.specs.Binders.View.{binders_of};

    ghost shows = { λ t a b. (B.rules t.bounds.now).at_most (binders_of t.binders.now) a b };

    fn is_shown(&self, alloc: Global, low: &Lin, high: &Lin) -> Result<bool, AllocError> {
        let inner = numbers_from(alloc, high)?;
        let outer = numbers_from(alloc, low)?;
        self.bounds.is_within(alloc, self.binders, &inner, &outer)
    }
}
