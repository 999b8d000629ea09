//! What is counted: the stores of a function, or the cells that are fetched of it; and whether a statement has any.

ghost use Rattle.std.specs.Prelude.{◌≡◌, map, option_map, slice_get};
ghost use Rattle.plan.specs.Lists.{list_statements};
ghost use Rattle.plan.specs.Plan.{block};
ghost use Rattle.plan.specs.View.{group_of, statement_of};
ghost use Rattle.plan.specs.Semantics.Setting.{allocated, block_allocated, function_in, group_name};
ghost use Rattle.report.specs.Subject.{counted_of, named};
ghost use Rattle.report.specs.Tally.{block_counts, some_counts};

use plan::{Group, Stmt};

/// What is counted of a function.
#[derive(Clone, Copy, Drop)]
pub(crate) enum Deed {
    /// Stores into its buffers.
    Store,
    /// Cells of it that another piece has computed.
    Fetch,
}

/// What is counted, of which function, in which group, and how many are enough: counting may stop there.
#[derive(Drop)]
pub(crate) struct Subject<'a> {
    pub deed: Deed,
    pub function: &'a str,
    pub groups: &'a [Group],
    pub body: &'a Stmt,
    pub enough: u64,
}

/// The function of the first line of a statement that allocates a buffer.
#[cycle(allocated)]
fn function_of(stmt: &Stmt, buffer: u64) -> Option<&str>
    ensures { option_map (λ name. name.now) result ≡ named (allocated (statement_of stmt.now) buffer) }
{
    match stmt {
        Stmt::Seq(all) => function_in_block(all, buffer),
        Stmt::For { body, .. } | Stmt::Guard { body, .. } => function_of(body, buffer),
        Stmt::First { first, later, .. } => match function_of(first, buffer) {
            Some(name) => Some(name),
            None => function_of(later, buffer),
        },
        Stmt::Alloc {
            buffer: allocated,
            function,
            ..
        } => {
            if *allocated == buffer {
                Some(function.as_str())
            } else {
                None
            }
        }
        Stmt::Let { .. } | Stmt::Fetch { .. } | Stmt::Store { .. } | Stmt::Publish { .. } => None,
    }
}

/// The same of a block's statements.
#[cycle(allocated)]
fn function_in_block(all: &[Stmt], buffer: u64) -> Option<&str>
    ensures { option_map (λ name. name.now) result ≡ named (block_allocated (block (list_statements all.now)) buffer) }
{
    for stmt in all {
        if let Some(name) = function_of(stmt, buffer) {
            return Some(name);
        }
    }
    None
}

/// The function of a buffer, empty where there is no such buffer.
pub(crate) fn name_of(body: &Stmt, buffer: u64) -> &str
    ensures { result.now ≡ function_in (allocated (statement_of body.now) buffer) }
{
    match function_of(body, buffer) {
        Some(name) => name,
        None => "",
    }
}

/// The name of a group's function, empty where there is no such group.
pub(crate) fn group_name(groups: &[Group], group: u64) -> &str
    ensures { result.now ≡ group_name (slice_get (map group_of groups.now) group) }
{
    match groups.get(group as usize) {
        Some(group) => group.function.as_str(),
        None => "",
    }
}

impl Subject<'_> {
    /// Whether a store into the buffer counts.
    pub(crate) fn counts_buffer(&self, buffer: u64) -> bool
        ensures { result ≡ (counted_of self.now).buffer buffer }
    {
        match self.deed {
            Deed::Store => name_of(self.body, buffer) == self.function,
            Deed::Fetch => false,
        }
    }

    /// Whether a cell that is fetched of the group counts.
    pub(crate) fn counts_group(&self, group: u64) -> bool
        ensures { result ≡ (counted_of self.now).group group }
    {
        match self.deed {
            Deed::Store => false,
            Deed::Fetch => group_name(self.groups, group) == self.function,
        }
    }
}

/// Whether some line of a statement counts.
#[tactic(auto, using(crate::proofs::Nothing::counts_later))]
#[cycle(counts)]
pub(crate) fn counts(subject: &Subject<'_>, stmt: &Stmt) -> bool
    ensures { result ≡ some_counts (counted_of subject.now) (statement_of stmt.now) }
{
    match stmt {
        Stmt::Seq(all) => block_counts(subject, all),
        Stmt::For { body, .. } | Stmt::Guard { body, .. } => counts(subject, body),
        Stmt::First { first, later, .. } => counts(subject, first) || counts(subject, later),
        Stmt::Fetch { group, .. } => subject.counts_group(*group),
        Stmt::Store { buffer, .. } => subject.counts_buffer(*buffer),
        Stmt::Let { .. } | Stmt::Alloc { .. } | Stmt::Publish { .. } => false,
    }
}

/// The same of a block's statements.
#[tactic(auto, using(crate::proofs::Nothing::counts_later))]
#[cycle(counts)]
fn block_counts(subject: &Subject<'_>, all: &[Stmt]) -> bool
    ensures { result ≡ block_counts (counted_of subject.now) (block (list_statements all.now)) }
{
    for stmt in all {
        if counts(subject, stmt) {
            return true;
        }
    }
    false
}
