//! Groups by number.

ghost use Rattle.std.specs.Prelude.{◌≡◌, slice_get};
ghost use Rattle.plan.specs.Lists.{list_groups};
ghost use Rattle.validation.specs.Certificate.View.{group_held};

use plan::Group;

/// The group of a number, if there is one.
pub(crate) fn group_at(groups: &[Group], number: u64) -> Option<&Group>
    ensures { group_held result ≡ slice_get (list_groups groups.now) number }
{
    groups.get(number as usize)
}
