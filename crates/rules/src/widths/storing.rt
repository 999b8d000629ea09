//! Where a statement stores.

ghost use Rattle.std.specs.Prelude.{◌≡◌, ℕ};
ghost use Rattle.plan.specs.Lists.{list_statements};
ghost use Rattle.plan.specs.Plan.{block};
ghost use Rattle.plan.specs.View.{statement_of};
ghost use Rattle.rules.specs.Widths.Widths.{block_store_lines, first_told, store_lines, told};

use plan::Stmt;

/// The line of the first store in a statement that begins at the line, if there is one. Lines are told up to the greatest `u32`.
#[cycle(storing)]
#[tactic(auto, using(crate::proofs::Lists::later_told))]
pub(crate) fn first_store(line: u32, stmt: &Stmt) -> Option<u32>
    ensures { (n : ℕ) → line ≡ told n → result ≡ first_told (store_lines n (statement_of stmt.now)) }
{
    match stmt {
        Stmt::Seq(all) => first_store_of_all(line, all),
        Stmt::For { body, .. } | Stmt::Guard { body, .. } => {
            first_store(line.saturating_add(1), body)
        }
        Stmt::First { first, later, .. } => {
            let found = first_store(line.saturating_add(1), first);
            if found.is_some() {
                return found;
            }
            let line = line.saturating_add(first.line_count()).saturating_add(2);
            first_store(line, later)
        }
        Stmt::Store { .. } => Some(line),
        Stmt::Let { .. } | Stmt::Alloc { .. } | Stmt::Fetch { .. } | Stmt::Publish { .. } => None,
    }
}

/// The line of the first store in a block's statements.
#[cycle(storing)]
#[tactic(auto, using(crate::proofs::Lists::later_told))]
fn first_store_of_all(line: u32, all: &[Stmt]) -> Option<u32>
    ensures { (n : ℕ) → line ≡ told n → result ≡ first_told (block_store_lines n (block (list_statements all.now))) }
{
    let mut next = line;
    for stmt in all {
        let found = first_store(next, stmt);
        if found.is_some() {
            return found;
        }
        next = next.saturating_add(stmt.line_count());
    }
    None
}
