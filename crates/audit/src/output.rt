//! Whether the output's group has each point of the output.

ghost use Rattle.std.specs.Prelude.{◌≡◌, ◌≤◌, ◌↔◌, ◌-◌, ◌^◌, min, map, ℤ, List, All, IsTrue, MatchOption, true};
ghost use Rattle.std.specs.List.{AllByRecursion};
ghost use Rattle.meaning.specs.Image.Raster.{is_within};
ghost use Rattle.algo.specs.View.{algorithm_of};
ghost use Rattle.plan.specs.Lines.{certificate_line};
ghost use Rattle.plan.specs.View.{group_of, plan_of};
ghost use Rattle.plan.specs.Certificate.Cells.{is_in_region, no_symbols};
ghost use Rattle.plan.specs.Certificate.Certificate.{certificate_of};
ghost use Rattle.plan.specs.Certificate.Lines.{own_line};
ghost use Rattle.headline.specs.Numbers.{HaveEnds};
ghost use Rattle.checked_plan.specs.Ready.Ready.{IsSmallSpan};
ghost use Rattle.shares.specs.Made.{own_place};
ghost use Rattle.audit.specs.Stand.{HasExtent, IsGroupOf};

use algo::Algo;
use algo::scoping::same_name;
use checked_plan::output::{high_end, low_end};
use lin::Span1;
use plan::certificate::{Cert, Own};
use plan::{Group, Plan};

/// The name of the output.
pub(crate) fn output_name(algo: &Algo) -> &str
    ensures { result.now ≡ (algorithm_of algo.now).output }
{
    algo.output().name.as_str()
}

/// The extents of the output.
#[tactic(auto, using(crate::proofs::Extents::each_positive))]
pub(crate) fn output_extents(algo: &Algo) -> &[u32]
    ensures extents { result.now ≡ (algorithm_of algo.now).output_extents }
    ensures positive { All (λ n. 1 ≤ n) result.now }
{
    algo.output().shape.extents.as_slice()
}

/// The number of the first group of the function of a name, if there is one.
pub(crate) fn group_named(groups: &[Group], name: &str) -> Option<usize>
    ensures { MatchOption result (All (λ g. ¬ (g.function ≡ name.now)) (map group_of groups.now)) (IsGroupOf (map group_of groups.now) name.now) }
{
    for number in 0..groups.len() {
        if same_name(groups[number].function.as_str(), name) {
            return Some(number);
        }
    }
    None
}

/// Whether a span with constant ends has each number from 0 up to an extent.
fn has_extent(span: &Span1, extent: u32) -> bool
    requires { IsSmallSpan span.now }
    ensures { IsTrue result ↔ HasExtent extent span.now }
{
    let low = low_end(span);
    let high = high_end(span);
    low <= 0 && i64::from(extent) <= high + 1
}

/// Whether each point of the extents is one of a region with constant ends.
pub(crate) fn has_extents(region: &[Span1], extents: &[u32]) -> bool
    requires region { AllByRecursion IsSmallSpan region.now }
    requires ends { HaveEnds region.now }
    requires extents { All (λ n. 1 ≤ n) extents.now }
    ensures { IsTrue result ↔ ((at : List ℤ) → is_within extents.now at ≡ true → is_in_region no_symbols region.now at ≡ true) }
{
    if region.len() != extents.len() {
        return false;
    }
    for (place, extent) in extents.iter().enumerate() {
        if !has_extent(&region[place], *extent) {
            return false;
        }
    }
    true
}

/// The place of a group's own line among the own lines.
pub(crate) fn own_place(all: &[Own], group: usize) -> usize
    ensures { result ≡ own_place all.now group }
{
    let mut place: usize = 0;
    for own in all {
        if own.group as usize == group {
            return place;
        }
        place += 1;
    }
    place
}

/// The line of a group's own region. Lines past the greatest `u32` are told as that.
pub(crate) fn own_line(plan: &Plan, cert: &Cert, group: usize) -> u32
    ensures { result ≡ min (own_line (certificate_line (plan_of plan.now)) (own_place (certificate_of cert.now).own group)) (2 ^ 32 - 1) }
{
    let place = own_place(&cert.own, group);
    cert.own_line(plan.certificate_line(), place)
}
