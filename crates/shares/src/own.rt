//! What is wrong at the own lines of groups.

ghost use Rattle.std.specs.Prelude.{◌≡◌, ℕ, ◌<◌, ◌≤◌, ◌+◌, ◌-◌, ◌^◌, ◌↔◌, ◌&&◌, None, Some, IsTrue, IsFalse, IfOk, IfNone, IfSome, MatchOption, length, map, min, slice_get};
ghost use Rattle.plan.specs.View.{plan_of};
ghost use Rattle.plan.specs.Certificate.Certificate.{certificate_of};
ghost use Rattle.plan.specs.Certificate.Cells.{cells};
ghost use Rattle.orders.specs.Claimed.{IsClaimed, IsClaimedBy};
ghost use Rattle.soundness.specs.declared.outline.refusals.code.K.TheVariants.{K11};
ghost use Rattle.shares.specs.declared.stop.Stop.TheVariants.{Memory};
ghost use Rattle.shares.specs.Layout.{IsLayout, OwnIsInside};
ghost use Rattle.shares.specs.Made.{IsPieceOf, IsUnserved, Leaves, Overlaps, need_place, owns_line};
ghost use Rattle.shares.specs.Noted.{AreNotedBy};
ghost use Rattle.shares.specs.Owned.{AreOwners, GroupIsInside, IsFirstFlaw, IsLeftAlone, IsLowestCode, IsParted, own_in};

use crate::boxes::most_points;
use crate::counts::{FetchLine, noted_groups};
use crate::fetched::fetched_of;
use crate::layout::{Layout, own_of};
use crate::owners::{Owned, claim_cells};
use crate::stands::{need_place, own_line};
use crate::stop::Stop;
use soundness::outline::refusals::{Flaw, K, least};
use std::alloc::{AllocError, Global};

/// Whether both hold.
fn both(one: bool, other: bool) -> bool
    ensures { result ≡ (one && other) }
{
    one && other
}

/// Makes a piece of a group the owner of its own cells, where none of them has one, and says whether its own region stays
/// inside; a piece of another group is passed over.
fn claim_own(
    alloc: Global,
    layout: &Layout<'_>,
    group: usize,
    piece: u32,
    owners: &mut [Option<u32>],
) -> Result<Option<bool>, AllocError>
    requires layout { IsLayout layout.now }
    requires piece { piece < length layout.now.seats.items }
    requires claimed { IsClaimed (own_in (plan_of layout.now.plan.now) (certificate_of layout.now.cert.now) group) owners.old piece 0 }
    requires count { length owners.old ≡ length (cells (plan_of layout.now.plan.now)) }
    ensures claimed { IfOk result (λ found. IfSome found (λ _. IsClaimed (own_in (plan_of layout.now.plan.now) (certificate_of layout.now.cert.now) group) owners.new (piece + 1) 0)) }
    ensures inside { IfOk result (λ found. IfSome found (λ yes. IsTrue yes → IsPieceOf (plan_of layout.now.plan.now) group piece → OwnIsInside (plan_of layout.now.plan.now) (certificate_of layout.now.cert.now) piece)) }
    ensures leaves { IfOk result (λ found. IfSome found (λ yes. IsFalse yes → Leaves (plan_of layout.now.plan.now) (certificate_of layout.now.cert.now) group)) }
    ensures overlap { IfOk result (λ found. IfNone found (Overlaps (plan_of layout.now.plan.now) (certificate_of layout.now.cert.now) group)) }
{
    if layout.seats[piece as usize].group != group {
        return Ok(Some(true));
    }
    let own = own_of(alloc, layout, piece)?;
    if !claim_cells(owners, &own.cells, piece) {
        return Ok(None);
    }
    Ok(Some(own.whole))
}

/// Makes a table of all cells that of the owners among the pieces of a group of which no two own a cell, and says whether all their
/// own regions stay inside; none where two own one.
///
/// The time is linear in the cells and the pieces.
fn owned_in(
    alloc: Global,
    layout: &Layout<'_>,
    group: usize,
    owners: &mut [Option<u32>],
) -> Result<Option<bool>, AllocError>
    requires layout { IsLayout layout.now }
    requires count { length owners.old ≡ length (cells (plan_of layout.now.plan.now)) }
    ensures claimed { IfOk result (λ found. IfSome found (λ _. IsClaimedBy (own_in (plan_of layout.now.plan.now) (certificate_of layout.now.cert.now) group) owners.new (length layout.now.seats.items))) }
    ensures inside { IfOk result (λ found. IfSome found (λ yes. IsTrue yes → GroupIsInside (plan_of layout.now.plan.now) (certificate_of layout.now.cert.now) group)) }
    ensures leaves { IfOk result (λ found. IfSome found (λ yes. IsFalse yes → Leaves (plan_of layout.now.plan.now) (certificate_of layout.now.cert.now) group)) }
    ensures overlap { IfOk result (λ found. IfNone found (Overlaps (plan_of layout.now.plan.now) (certificate_of layout.now.cert.now) group)) }
{
    owners.fill(None);
    let mut inside = true;
    for piece in 0..layout.seats.len() as u32 {
        let Some(whole) = claim_own(alloc, layout, group, piece, owners)? else {
            return Ok(None);
        };
        inside = both(inside, whole);
    }
    Ok(Some(inside))
}

/// Whether a cell is in the table and has no owner.
fn is_free(owners: &[Option<u32>], cell: u32) -> bool
    ensures { IsTrue result ↔ (slice_get owners.now cell ≡ Some None) }
{
    match owners.get(cell as usize) {
        Some(None) => true,
        _ => false,
    }
}

/// Whether some cell from the first on, of so many, has no owner.
fn has_gap(owners: &[Option<u32>], first: u32, count: u32) -> bool
    requires { first + count < 2 ^ 32 }
    ensures gap { IsTrue result → (x : ℕ) × (first ≤ x) × (x < first + count) × (slice_get owners.now x ≡ Some None) }
    ensures none { IsFalse result → (x : ℕ) → first ≤ x → x < first + count → ¬ (slice_get owners.now x ≡ Some None) }
{
    for place in 0..count {
        if is_free(owners, first + place) {
            return true;
        }
    }
    false
}

/// Yes, but for want of memory.
fn is_told(stop: Stop) -> Result<bool, AllocError>
    ensures { IfOk result (λ yes. IsTrue yes × ¬ (stop ≡ Memory)) }
{
    match stop {
        Stop::Unserved => Ok(true),
        Stop::Large => Ok(true),
        Stop::Memory => Err(AllocError),
    }
}

/// Whether a piece is one of a group that needs no pieces, and fetches a point.
fn is_left_alone(
    alloc: Global,
    layout: &Layout<'_>,
    noted: &Vec<Vec<FetchLine<'_>>>,
    group: usize,
    piece: u32,
) -> Result<bool, AllocError>
    requires layout { IsLayout layout.now }
    requires noted { AreNotedBy (plan_of layout.now.plan.now) (length layout.now.plan.now.groups.items) (map (λ v. v.items) noted.now.items) }
    requires alone { need_place (certificate_of layout.now.cert.now).needs group ≡ None }
    requires piece { piece < length layout.now.seats.items }
    ensures { IfOk result (λ found. IsTrue found ↔ IsLeftAlone (plan_of layout.now.plan.now) (certificate_of layout.now.cert.now) group piece) }
{
    if layout.seats[piece as usize].group != group {
        return Ok(false);
    }
    let stop = match fetched_of(alloc, layout, noted, piece, 0) {
        Ok(_) => return Ok(false),
        Err(stop) => stop,
    };
    is_told(stop)
}

/// Whether some piece of a group that needs no pieces fetches a point.
fn fetches_alone(alloc: Global, layout: &Layout<'_>, group: usize) -> Result<bool, AllocError>
    requires layout { IsLayout layout.now }
    requires alone { need_place (certificate_of layout.now.cert.now).needs group ≡ None }
    ensures { IfOk result (λ found. IsTrue found ↔ IsUnserved (plan_of layout.now.plan.now) (certificate_of layout.now.cert.now) group) }
{
    let noted = noted_groups(alloc, layout.plan)?;
    for piece in 0..layout.seats.len() as u32 {
        if is_left_alone(alloc, layout, &noted, group, piece)? {
            return Ok(true);
        }
    }
    Ok(false)
}

/// The lowest code of what is wrong at the own line of a group, if anything is. It writes into a table of all cells.
fn own_code(
    alloc: Global,
    layout: &Layout<'_>,
    group: usize,
    owners: &mut [Option<u32>],
) -> Result<Option<K>, AllocError>
    requires layout { IsLayout layout.now }
    requires group { group < length layout.now.grounds.items }
    requires count { length owners.old ≡ length (cells (plan_of layout.now.plan.now)) }
    ensures { IfOk result (IsLowestCode (plan_of layout.now.plan.now) (certificate_of layout.now.cert.now) group) }
{
    let Some(inside) = owned_in(alloc, layout, group, owners)? else {
        return Ok(Some(K::K9));
    };
    if !inside {
        return Ok(Some(K::K10));
    }
    let space = &layout.grounds[group].cells;
    let some = most_points(&space.sides) as u32;
    if has_gap(owners, space.first, some) {
        return Ok(Some(K::K10));
    }
    code_of_parted(alloc, layout, group)
}

/// The lowest code of what is wrong at the own line of a group of which each cell is in one own region, and these stay inside.
fn code_of_parted(alloc: Global, layout: &Layout<'_>, group: usize) -> Result<Option<K>, AllocError>
    requires layout { IsLayout layout.now }
    requires parted { IsParted (plan_of layout.now.plan.now) (certificate_of layout.now.cert.now) group }
    ensures { IfOk result (IsLowestCode (plan_of layout.now.plan.now) (certificate_of layout.now.cert.now) group) }
{
    match need_place(&layout.cert.needs, group) {
        Some(_) => Ok(None),
        None => alone_code(alloc, layout, group),
    }
}

/// Whether each cell of the plan is in one own region, and these stay inside.
fn is_parted(layout: &Layout<'_>, owned: &Result<Owned, u32>) -> bool
    requires owned { IfOk owned.now (AreOwners (plan_of layout.now.plan.now) (certificate_of layout.now.cert.now)) }
    ensures { IsTrue result → (n : ℕ) → IsParted (plan_of layout.now.plan.now) (certificate_of layout.now.cert.now) n }
{
    match owned {
        Ok(owned) => owned.inside && owned.whole,
        Err(_) => false,
    }
}

/// K11 of a group that needs no pieces, where one of its pieces fetches a point.
fn alone_code(alloc: Global, layout: &Layout<'_>, group: usize) -> Result<Option<K>, AllocError>
    requires layout { IsLayout layout.now }
    requires alone { need_place (certificate_of layout.now.cert.now).needs group ≡ None }
    ensures { IfOk result (λ code. MatchOption code (¬ IsUnserved (plan_of layout.now.plan.now) (certificate_of layout.now.cert.now) group) (λ k. (k ≡ K11) × IsUnserved (plan_of layout.now.plan.now) (certificate_of layout.now.cert.now) group)) }
{
    if fetches_alone(alloc, layout, group)? {
        Ok(Some(K::K11))
    } else {
        Ok(None)
    }
}

/// A code as the flaw of a group's own line.
fn flaw_at(layout: &Layout<'_>, group: usize, code: Option<K>) -> Option<Flaw>
    ensures { MatchOption code (result ≡ None) (λ k. (line : ℕ) × (result ≡ Some (record { code = k; line = line })) × (line ≡ min (owns_line (plan_of layout.now.plan.now) (certificate_of layout.now.cert.now) group) (2 ^ 32 - 1))) }
{
    match code {
        None => None,
        Some(code) => {
            let line = own_line(layout, group);
            Some(Flaw { code, line })
        }
    }
}

/// The first flaw at the own lines of the groups, if there is one, where the pieces part the plan's cells: K11 of a group that needs no
/// pieces.
///
/// The time is linear in the pieces for each group, and in the cells of the fetched points.
fn parted_flaw(alloc: Global, layout: &Layout<'_>) -> Result<Option<Flaw>, AllocError>
    requires layout { IsLayout layout.now }
    requires parted { (n : ℕ) → IsParted (plan_of layout.now.plan.now) (certificate_of layout.now.cert.now) n }
    ensures { IfOk result (IsFirstFlaw (plan_of layout.now.plan.now) (certificate_of layout.now.cert.now) (length (plan_of layout.now.plan.now).groups)) }
{
    let mut told: Option<Flaw> = None;
    for group in 0..layout.grounds.as_slice().len() {
        let code = code_of_parted(alloc, layout, group)?;
        told = least(told, flaw_at(layout, group, code));
    }
    Ok(told)
}

/// The first flaw at the own lines of the groups, if there is one, where the pieces may not part the plan's cells.
///
/// The time is linear in all cells and the pieces for each group, whose owners are written into one table.
fn unparted_flaw(alloc: Global, layout: &Layout<'_>, count: u32) -> Result<Option<Flaw>, AllocError>
    requires layout { IsLayout layout.now }
    requires count { count ≡ length (cells (plan_of layout.now.plan.now)) }
    ensures { IfOk result (IsFirstFlaw (plan_of layout.now.plan.now) (certificate_of layout.now.cert.now) (length (plan_of layout.now.plan.now).groups)) }
{
    let mut owners: Vec<Option<u32>> = vec![in alloc; None; count as usize]?;
    let mut found: Option<Flaw> = None;
    for group in 0..layout.grounds.as_slice().len() {
        let code = own_code(alloc, layout, group, owners.as_mut_slice())?;
        found = least(found, flaw_at(layout, group, code));
    }
    Ok(found)
}

/// The first flaw at the own lines of the groups, if there is one: K9, K10, or K11 of a group that needs no pieces.
///
/// Where the pieces part the plan's cells the time is linear in the cells, and for each group in the pieces; else in all cells and
/// the pieces for each group.
pub(crate) fn own_flaw(
    alloc: Global,
    layout: &Layout<'_>,
    count: u32,
    owned: &Result<Owned, u32>,
) -> Result<Option<Flaw>, AllocError>
    requires layout { IsLayout layout.now }
    requires count { count ≡ length (cells (plan_of layout.now.plan.now)) }
    requires owned { IfOk owned.now (AreOwners (plan_of layout.now.plan.now) (certificate_of layout.now.cert.now)) }
    ensures { IfOk result (IsFirstFlaw (plan_of layout.now.plan.now) (certificate_of layout.now.cert.now) (length (plan_of layout.now.plan.now).groups)) }
{
    if is_parted(layout, owned) {
        parted_flaw(alloc, layout)
    } else {
        unparted_flaw(alloc, layout, count)
    }
}
