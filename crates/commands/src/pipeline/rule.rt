//! Rules of schedules.

ghost use Rattle.std.specs.Prelude.{◌≡◌};
ghost use Rattle.commands.specs.Pipeline.Faults.{rule_number};

use sched::{RegionRule, Rule};

/// A rule that a schedule breaks.
#[derive(Clone, Copy, Debug, Drop)]
pub enum BrokenRule {
    /// One of its directives.
    Directive(Rule),
    /// One of the regions that it asks for.
    Region(RegionRule),
}

impl BrokenRule {
    /// The number of the rule, from 1 to 12.
    pub fn number(self) -> u32
        ensures { result ≡ rule_number self }
    {
        match self {
            BrokenRule::Directive(rule) => rule.number(),
            BrokenRule::Region(rule) => rule.number(),
        }
    }
}
