//! The lines of a certificate.

ghost use Rattle.std.specs.Prelude.{◌≡◌};
ghost use Rattle.cert.specs.Lines as spec;
ghost use Rattle.cert.specs.Order as order;

use plan::certificate::{Claim, Need, Own, Window};

/// A line of a certificate.
#[derive(Drop)]
pub(crate) enum Line {
    Head,
    Own(Own),
    Need(Need),
    /// A claim and its number.
    Claim(u32, Claim),
    Window(Window),
    End,
}

/// What of a line decides which lines may follow it.
#[derive(Clone, Copy, PartialEq, Eq, Drop)]
pub(crate) enum Mark {
    /// There is no line yet.
    Start,
    Head,
    /// An own region, by its group.
    Own(u64),
    Need,
    /// A claim, by its number.
    Claim(u32),
    Window,
    End,
}

impl Line {
    /// What decides which lines may follow.
    pub(crate) fn mark(&self) -> Mark
        ensures { result ≡ spec.mark_of (spec.line_of self.now) }
    {
        match self {
            Line::Head => Mark::Head,
            Line::Own(own) => Mark::Own(own.group),
            Line::Need(_) => Mark::Need,
            Line::Claim(number, _) => Mark::Claim(*number),
            Line::Window(_) => Mark::Window,
            Line::End => Mark::End,
        }
    }
}

/// Whether a line behind this one may be a needed region's.
fn may_precede_need(last: Mark) -> bool
    ensures { result ≡ order.may_precede_need last }
{
    match last {
        Mark::Head | Mark::Own(_) | Mark::Need => true,
        Mark::Start | Mark::Claim(_) | Mark::Window | Mark::End => false,
    }
}

/// Whether a line behind this one may be that of the own region of the group.
fn may_precede_own(last: Mark, group: u64) -> bool
    ensures { result ≡ order.may_precede_own last group }
{
    match last {
        Mark::Head => true,
        Mark::Own(last) => last < group,
        Mark::Start | Mark::Need | Mark::Claim(_) | Mark::Window | Mark::End => false,
    }
}

/// Whether a line behind this one may be that of the claim of the number.
pub(crate) fn may_precede_claim(last: Mark, number: u32) -> bool
    ensures { result ≡ order.may_precede_claim last number }
{
    match last {
        Mark::Claim(last) => u64::from(number) == u64::from(last) + 1,
        last => number == 0 && may_precede_need(last),
    }
}

/// Whether a line may stand behind another: the line `cert` first, then the own regions by rising group, the needed
/// regions, the claims by their numbers, the windows, and `end`.
pub(crate) fn may_follow(last: Mark, next: Mark) -> bool
    ensures { result ≡ order.may_follow last next }
{
    match next {
        Mark::Start => false,
        Mark::Head => last == Mark::Start,
        Mark::Own(group) => may_precede_own(last, group),
        Mark::Need => may_precede_need(last),
        Mark::Claim(number) => may_precede_claim(last, number),
        Mark::Window | Mark::End => last != Mark::Start && last != Mark::End,
    }
}
