//! The lines of a plan's canonical text.

ghost use Rattle.std.specs.Prelude.{◌≡◌, ◌+◌, ◌-◌, ◌^◌, ◌≤◌, min, length};
ghost use Rattle.plan.specs.Lines.{block_lines, certificate_line, group_line, groups_lines, lines};
ghost use Rattle.plan.specs.Plan.{block};
ghost use Rattle.plan.specs.View.{group_of, plan_of, statement_of};
ghost use Rattle.plan.specs.Lists.{list_groups, list_statements};

use crate::plan::{Group, Plan};
use crate::stmt::Stmt;

impl Stmt {
    /// How many lines the statement takes in a plan's text. More than a `u32` holds count as the
    /// greatest `u32`.
    #[cycle(line_count)]
    pub fn line_count(&self) -> u32
        ensures { result ≡ min (lines (statement_of self.now)) (2 ^ 32 - 1) }
    {
        match self {
            Stmt::Seq(all) => line_count_of_all(all),
            Stmt::For { body, .. } | Stmt::Guard { body, .. } => body
                .line_count()
                .saturating_add(2),
            Stmt::First { first, later, .. } => first
                .line_count()
                .saturating_add(later.line_count())
                .saturating_add(3),
            Stmt::Let { .. }
            | Stmt::Alloc { .. }
            | Stmt::Fetch { .. }
            | Stmt::Store { .. }
            | Stmt::Publish { .. } => 1,
        }
    }
}

/// The lines of a block's statements.
#[tactic(auto, using(crate::proofs::Counts::more_lines))]
#[cycle(line_count)]
fn line_count_of_all(all: &[Stmt]) -> u32
    ensures { result ≡ min (block_lines (block (list_statements all.now))) (2 ^ 32 - 1) }
{
    let mut count: u32 = 0;
    for stmt in all {
        count = count.saturating_add(stmt.line_count());
    }
    count
}

/// The lines of groups, each with its line `group`.
#[tactic(auto, using(crate::proofs::Counts::more_group_lines))]
fn line_count_of_groups(groups: &[Group]) -> u32
    ensures { result ≡ min (groups_lines (list_groups groups.now)) (2 ^ 32 - 1) }
{
    let mut count: u32 = 0;
    for group in groups {
        count = count
            .saturating_add(group.body.line_count())
            .saturating_add(1);
    }
    count
}

impl Plan {
    /// The line `group` of a group, counted from 1. Lines past the greatest `u32` count as that.
    #[tactic(auto, using(crate::proofs::Counts::take_groups))]
    pub fn group_line(&self, group: usize) -> u32
        requires { group ≤ length self.now.groups.items }
        ensures { result ≡ min (group_line (plan_of self.now) group) (2 ^ 32 - 1) }
    {
        line_count_of_groups(&self.groups[..group]).saturating_add(4)
    }

    /// The line `cert` that follows the plan's text.
    pub fn certificate_line(&self) -> u32
        ensures { result ≡ min (certificate_line (plan_of self.now)) (2 ^ 32 - 1) }
    {
        line_count_of_groups(&self.groups).saturating_add(4)
    }
}
