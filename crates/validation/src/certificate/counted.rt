//! Groups with their lines counted.

ghost use Rattle.std.specs.Prelude.{◌≡◌};
ghost use Rattle.plan.specs.Lines.{lines};
ghost use Rattle.soundness.specs.Outline.Flaws.{line_told};
ghost use Rattle.soundness.specs.Outline.View.{group_in};

use soundness::outline::Outlined;

/// A group, and how many lines its body takes. More than a `u32` holds count as the greatest `u32`.
#[derive(Drop)]
pub(crate) struct CountedOutline<'a> {
    pub outlined: Outlined<'a>,
    pub count: u32,
    pub ghost counted: { count ≡ line_told (lines (group_in outlined).body) },
}

impl<'a> CountedOutline<'a> {
    /// The group with the lines of its body counted.
    pub(crate) fn of(outlined: Outlined<'a>) -> CountedOutline<'a>
        ensures { result.outlined ≡ outlined.entry }
    {
        let count = outlined.body().line_count();
        CountedOutline { outlined, count }
    }
}
