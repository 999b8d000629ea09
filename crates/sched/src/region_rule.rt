//! The rules of schedules that ask what a function's loops run over.

ghost use Rattle.std.specs.Prelude.{◌≡◌};
ghost use Rattle.sched.specs.RegionRules.{region_number};

/// A rule of schedules that asks what a function's loops run over, told once its region is found.
#[derive(Clone, Copy, Debug, PartialEq, Eq, Drop)]
pub enum RegionRule {
    /// L6: a function that is computed at a loop is used outside of it, or in a definition that lacks it.
    OutsideUse,
    /// L8: a split with `shift` over fewer points than its factor.
    ShortShift,
    /// L9: a fold of a dimension in which the function does not slide, or to fewer places than its window has numbers.
    SmallFold,
    /// L11: a definition with calls put in passes the limits of an expression.
    TooLarge,
    /// L11 as well: the shared cells or the pieces of all root functions so far pass their limit.
    TooMuch,
    /// L12: no region within the limits is found for the function, or nothing uses it, or an index of the input or of the
    /// function itself may leave what it has.
    Unbounded,
}

impl RegionRule {
    /// The number of the rule's code.
    pub fn number(self) -> u32
        ensures { result ≡ region_number self }
    {
        match self {
            RegionRule::OutsideUse => 6,
            RegionRule::ShortShift => 8,
            RegionRule::SmallFold => 9,
            RegionRule::TooLarge | RegionRule::TooMuch => 11,
            RegionRule::Unbounded => 12,
        }
    }
}
