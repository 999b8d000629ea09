//! Where tests by bounds are asked.

use soundness::binders::Binder;
use std::alloc::Global;

/// Bounds, and the binders around a line, from the outermost on.
#[derive(Drop)]
pub(crate) struct At<'a, B> {
    pub alloc: Global,
    pub bounds: &'a B,
    pub binders: &'a [Binder<'a>],
}
