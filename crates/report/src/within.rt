//! Whether a checked plan makes no more stores than it may.

ghost use Rattle.std.specs.Prelude.{◌≡◌, nat_le, IfOk};
ghost use Rattle.checked_plan.specs.View.{certificate_checked, plan_checked};
ghost use Rattle.report.specs.Costs.{row_stores, up_to};
ghost use Rattle.report.specs.View.{checked_stores};

use crate::costs::{count_as_far, is_stored};
use crate::subject::Deed;
use checked_plan::Checked;
use std::alloc::{AllocError, Global};

/// How many stores the pieces make of a function, as far as is enough. Where the plan has no group and no buffer of it, none.
fn stores_as_far(
    alloc: Global,
    checked: &Checked<'_>,
    function: &str,
    enough: u64,
) -> Result<u64, AllocError>
    ensures { IfOk result (λ n. up_to enough n ≡ up_to enough (row_stores (plan_checked checked.now) (certificate_checked checked.now) function.now)) }
{
    if is_stored(&checked.plan().groups, function) {
        count_as_far(alloc, checked, function, Deed::Store, enough)
    } else {
        Ok(0)
    }
}

/// Whether the pieces of a checked plan make no more stores than `most`, of all functions together, as `Costs::stores` says
/// how many they make. So `u64::MAX` is enough for every plan.
///
/// Counting stops at the first store that is one too many. So where each turn stores something, the time grows with `most`,
/// and not with the stores that the plan makes.
///
/// # Errors
/// `AllocError` where memory runs out.
pub fn stores_within(alloc: Global, checked: &Checked<'_>, most: u64) -> Result<bool, AllocError>
    ensures { IfOk result (λ yes. yes ≡ nat_le (checked_stores checked.now) most) }
{
    if most == u64::MAX {
        return Ok(true);
    }
    let all = checked.algo().funcs();
    let mut left = most;
    for number in 0..all.len() {
        let Some((name, _)) = all.get_index(number) else {
            unreachable!();
        };
        let more = stores_as_far(alloc, checked, name.as_str(), left + 1)?;
        if left < more {
            return Ok(false);
        }
        left -= more;
    }
    Ok(true)
}
