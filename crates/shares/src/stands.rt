//! Where refusals of shares stand.

ghost use Rattle.std.specs.Prelude.{◌≡◌, ◌-◌, ◌^◌, min};
ghost use Rattle.plan.specs.View.{plan_of};
ghost use Rattle.plan.specs.Certificate.Certificate.{certificate_of};
ghost use Rattle.shares.specs.Made.{need_place, needs_line, own_place, owns_line};

use crate::layout::Layout;
use plan::certificate::{Need, Own};

/// The place of a group's own line among the own lines.
fn own_place(all: &[Own], group: usize) -> usize
    ensures { result ≡ own_place all.now group }
{
    let mut place: usize = 0;
    for own in all {
        if own.group as usize == group {
            return place;
        }
        place += 1;
    }
    place
}

/// The place of a group's first need line among the need lines, if it has one.
pub(crate) fn need_place(all: &[Need], group: usize) -> Option<usize>
    ensures { result ≡ need_place all.now group }
{
    let mut place: usize = 0;
    for need in all {
        if need.group as usize == group {
            return Some(place);
        }
        place += 1;
    }
    None
}

/// The line of a group's own region.
pub(crate) fn own_line(layout: &Layout<'_>, group: usize) -> u32
    ensures { result ≡ min (owns_line (plan_of layout.now.plan.now) (certificate_of layout.now.cert.now) group) (2 ^ 32 - 1) }
{
    let place = own_place(&layout.cert.own, group);
    layout.cert.own_line(layout.plan.certificate_line(), place)
}

/// The line of a group's first need line, or of its own region where it has none.
pub(crate) fn needs_line(layout: &Layout<'_>, group: usize) -> u32
    ensures { result ≡ min (needs_line (plan_of layout.now.plan.now) (certificate_of layout.now.cert.now) group) (2 ^ 32 - 1) }
{
    match need_place(&layout.cert.needs, group) {
        Some(place) => layout.cert.need_line(layout.plan.certificate_line(), place),
        None => own_line(layout, group),
    }
}
