//! The need lines of groups, of which those that name the same pieces at all grid points are looked at once.

ghost use Rattle.std.specs.Prelude.{◌≡◌, ◌++◌, ◌∷◌, [], ℕ, List, IfOk, OnOk, All, length, map};
ghost use Rattle.std.specs.List.{list_all};
ghost use Rattle.plan.specs.View.{plan_of};
ghost use Rattle.plan.specs.declared.certificate.cert.Need.{Need as CertNeed};
ghost use Rattle.shares.specs.Boxes.{IsSmall};
ghost use Rattle.shares.specs.Filed.{AreFiled, AreLinesOf};
ghost use Rattle.shares.specs.Gathered.{AreGathered, EachIsGathered, IsGathered, is_fixed, is_fixed_span, is_free};
ghost use Rattle.shares.specs.Layout.{IsLayout};
ghost use Rattle.shares.specs.Shared.{NeedIsShared};

use crate::layout::Layout;
use crate::needed::{need_line, settle, settle_doubled};
use crate::repeated::outer_lines;
use crate::seats::Seat;
use crate::stop::Stop;
use lin::{Lin, Span1};
use plan::certificate::Need;
use std::alloc::{AllocError, Global};

/// What the need lines of a group name.
#[derive(Drop)]
pub struct GroupNeeds<'a> {
    /// The pieces that lines name at all grid points, rising and each once.
    pub numbers: Vec<u32>,
    /// The lines that are looked at for each piece.
    pub moving: Vec<&'a Need>,
}

/// Whether a form names no symbol.
fn is_free(form: &Lin) -> bool
    ensures { result ≡ is_free form.now }
{
    form.terms().is_empty()
}

/// Whether no form names a symbol.
fn are_free(forms: &[Lin]) -> bool
    ensures { result ≡ list_all is_free forms.now }
{
    forms.iter().all(|form| is_free(form))
}

/// Whether no form of a span names a symbol.
fn is_fixed_span(span: &Span1) -> bool
    ensures { result ≡ is_fixed_span span.now }
{
    are_free(span.lower.as_slice()) && are_free(span.upper.as_slice())
}

/// Whether a region has the same points everywhere, since no form of it names a symbol.
fn is_fixed(region: &[Span1]) -> bool
    ensures { result ≡ is_fixed region.now }
{
    region.iter().all(|span| is_fixed_span(span))
}

/// Adds a need line of a group to those that were gathered: the pieces that it names, where it names the same ones at all
/// grid points, else the line itself.
fn gather<'a>(
    alloc: Global,
    layout: &Layout<'_>,
    seat: &Seat,
    need: &'a Need,
    numbers: &mut Vec<u32>,
    moving: &mut Vec<&'a Need>,
) -> Result<(), AllocError>
    requires layout { IsLayout layout.now }
    requires need { NeedIsShared (plan_of layout.now.plan.now) need.now }
    requires group { need.now.group ≡ seat.now.group }
    requires at { IsSmall seat.now.at.items }
    ensures { OnOk result ((ns : List CertNeed) → AreGathered (plan_of layout.now.plan.now) seat.now.group ns numbers.old.items (map (λ n. n.now) moving.old.items) → AreGathered (plan_of layout.now.plan.now) seat.now.group (ns ++ need.now ∷ []) numbers.new.items (map (λ n. n.now) moving.new.items)) }
{
    if !is_fixed(need.region.as_slice()) {
        moving.push(need)?;
        return Ok(());
    }
    match need_line(alloc, layout, seat, need, numbers) {
        Ok(()) => {}
        Err(Stop::Unserved) => moving.push(need)?,
        Err(_) => return Err(AllocError),
    }
    Ok(())
}

/// What the need lines of a group name.
fn group_needs<'a>(
    alloc: Global,
    layout: &Layout<'_>,
    group: usize,
    lines: &[&'a Need],
) -> Result<GroupNeeds<'a>, AllocError>
    requires layout { IsLayout layout.now }
    requires lines { AreLinesOf (plan_of layout.now.plan.now) group (map (λ n. n.now) lines.now) }
    ensures { IfOk result (λ made. IsGathered (plan_of layout.now.plan.now) group (map (λ n. n.now) lines.now) made) }
{
    let seat = Seat {
        group,
        at: Vec::new(alloc),
    };
    let mut numbers = Vec::new(alloc);
    let mut moving = Vec::new(alloc);
    let mut settled = 0;
    for need in lines {
        gather(alloc, layout, &seat, need, &mut numbers, &mut moving)?;
        settled = settle_doubled(&mut numbers, settled)?;
    }
    settle(&mut numbers)?;
    Ok(GroupNeeds { numbers, moving })
}

/// What the need lines of each group name, which are filed by their groups.
///
/// The time is about linear in the lines, and for those that name the same pieces at all grid points in these pieces.
pub(crate) fn gathered_needs<'a>(
    alloc: Global,
    layout: &Layout<'_>,
    lines: &[Need],
    filed: &[Vec<&'a Need>],
) -> Result<Vec<GroupNeeds<'a>>, AllocError>
    requires layout { IsLayout layout.now }
    requires lines { All (NeedIsShared (plan_of layout.now.plan.now)) lines.now }
    requires filed { AreFiled lines.now (length layout.now.plan.now.groups.items) (map (λ xs. map (λ n. n.now) xs.items) filed.now) }
    ensures { IfOk result (λ made. EachIsGathered (plan_of layout.now.plan.now) lines.now (length layout.now.plan.now.groups.items) made.items) }
{
    let mut made = Vec::new(alloc);
    for (group, own_lines) in filed.iter().enumerate() {
        let kept = outer_lines(alloc, own_lines)?;
        let needs = group_needs(alloc, layout, group, kept.as_slice())?;
        made.push(needs)?;
    }
    Ok(made)
}
