//! Need lines by their groups.

ghost use Rattle.std.specs.Prelude.{◌≡◌, ℕ, List, ◌++◌, ◌∷◌, [], IfOk, OnOk, map};
ghost use Rattle.plan.specs.declared.certificate.cert.Need.{Need as CertNeed};
ghost use Rattle.shares.specs.Filed.{AreFiled};

use plan::certificate::Need;
use std::alloc::{AllocError, Global};

/// No need lines for any of so many groups.
fn none_filed<'a>(alloc: Global, groups: usize) -> Result<Vec<Vec<&'a Need>>, AllocError>
    ensures { IfOk result (λ lists. AreFiled [] groups (map (λ xs. map (λ n. n.now) xs.items) lists.items)) }
{
    let mut lists = Vec::new(alloc);
    for _ in 0..groups {
        lists.push(Vec::new(alloc))?;
    }
    Ok(lists)
}

/// Adds a need line to those of its group, if there is such a group.
fn file<'a>(lists: &mut Vec<Vec<&'a Need>>, need: &'a Need) -> Result<(), AllocError>
    ensures { OnOk result ((groups : ℕ) (ns : List CertNeed) → AreFiled ns groups (map (λ xs. map (λ n. n.now) xs.items) lists.old.items) → AreFiled (ns ++ need.now ∷ []) groups (map (λ xs. map (λ n. n.now) xs.items) lists.new.items)) }
{
    let group = need.group as usize;
    if group < lists.len() {
        lists[group].push(need)?;
    }
    Ok(())
}

/// The need lines of each of so many groups.
///
/// The time is linear in the lines and the groups.
pub(crate) fn filed_needs<'a>(
    alloc: Global,
    groups: usize,
    needs: &'a [Need],
) -> Result<Vec<Vec<&'a Need>>, AllocError>
    ensures { IfOk result (λ lists. AreFiled needs.now groups (map (λ xs. map (λ n. n.now) xs.items) lists.items)) }
{
    let mut lists = none_filed(alloc, groups)?;
    for need in needs {
        file(&mut lists, need)?;
    }
    Ok(lists)
}
