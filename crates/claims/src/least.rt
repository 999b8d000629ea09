//! The first of what is told of all groups.

ghost use Rattle.std.specs.Prelude.{◌≡◌, IfOk, None, Some};
ghost use Rattle.claims.specs.First.{least_from};

use soundness::outline::refusals::{Flaw, least};
use std::alloc::AllocError;

/// The first flaw of these, if there is one.
pub(crate) fn least_of(
    told: &[Result<Option<Flaw>, AllocError>],
) -> Result<Option<Flaw>, AllocError>
    ensures { IfOk result (λ found. least_from None told.now ≡ Some found) }
{
    let mut found = None;
    for one in told {
        match one {
            Ok(flaw) => found = least(found, *flaw),
            Err(_) => return Err(AllocError),
        }
    }
    Ok(found)
}
