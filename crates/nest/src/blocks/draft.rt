//! Plans while their lines are read.

ghost use Rattle.std.specs.Prelude.{◌≡◌, IfOk, MatchOption, Some, None, string_bytes};
ghost use Rattle.plan.specs.View.{declaration_of, plan_of};
ghost use Rattle.nest.specs.Blocks.View.{line_of};
ghost use Rattle.nest.specs.Blocks.Nesting as spec;
ghost use Rattle.nest.specs.Blocks.Drafts.{draft_of};

use crate::blocks::blocks::{Blocks, next_blocks, whole_groups};
use crate::blocks::line::Line;
use plan::{Declaration, Plan};
use std::alloc::{AllocError, Global};

/// A plan while its lines are read: its head, which comes first, then its groups.
#[derive(Drop)]
pub enum Draft {
    /// Before the first line.
    Nothing,
    /// After the name.
    Named {
        name: String,
    },
    /// After the input.
    Fed {
        name: String,
        input: Declaration,
    },
    /// After the output.
    Headed {
        name: String,
        input: Declaration,
        output: Declaration,
        blocks: Blocks,
    },
}

impl Draft {
    /// The draft after a line more. None where the line cannot stand there.
    pub fn next(self, alloc: Global, line: Line) -> Result<Option<Draft>, AllocError>
        ensures { IfOk result (λ r. MatchOption r (spec.next (line_of line) (draft_of self) ≡ None) (λ d. spec.next (line_of line) (draft_of self) ≡ Some (draft_of d))) }
    {
        match self {
            Draft::Nothing => Ok(named(line)),
            Draft::Named { name } => Ok(fed(name, line)),
            Draft::Fed { name, input } => Ok(headed(alloc, name, input, line)),
            Draft::Headed {
                name,
                input,
                output,
                blocks,
            } => {
                let Some(blocks) = next_blocks(alloc, blocks, line)? else {
                    return Ok(None);
                };
                Ok(Some(Draft::Headed {
                    name,
                    input,
                    output,
                    blocks,
                }))
            }
        }
    }

    /// The plan, where the head is there and no block is open.
    pub fn finished(self) -> Result<Option<Plan>, AllocError>
        ensures { IfOk result (λ r. MatchOption r (spec.finished (draft_of self) ≡ None) (λ p. spec.finished (draft_of self) ≡ Some (plan_of p))) }
    {
        match self {
            Draft::Headed {
                name,
                input,
                output,
                blocks,
            } => {
                let Blocks { groups, levels } = blocks;
                let Some(groups) = whole_groups(groups, levels)? else {
                    return Ok(None);
                };
                Ok(Some(Plan {
                    name,
                    input,
                    output,
                    groups,
                }))
            }
            _unfinished => Ok(None),
        }
    }
}

/// After the first line.
fn named(line: Line) -> Option<Draft>
    ensures { MatchOption result (spec.next (line_of line) spec.Nothing ≡ None) (λ d. spec.next (line_of line) spec.Nothing ≡ Some (draft_of d)) }
{
    match line {
        Line::Plan { name } => Some(Draft::Named { name }),
        _other => None,
    }
}

/// After the input.
fn fed(name: String, line: Line) -> Option<Draft>
    ensures { MatchOption result (spec.next (line_of line) (spec.Named (string_bytes name)) ≡ None) (λ d. spec.next (line_of line) (spec.Named (string_bytes name)) ≡ Some (draft_of d)) }
{
    match line {
        Line::Input(input) => Some(Draft::Fed { name, input }),
        _other => None,
    }
}

/// After the output.
fn headed(alloc: Global, name: String, input: Declaration, line: Line) -> Option<Draft>
    ensures { MatchOption result (spec.next (line_of line) (spec.Fed (string_bytes name) (declaration_of input)) ≡ None) (λ d. spec.next (line_of line) (spec.Fed (string_bytes name) (declaration_of input)) ≡ Some (draft_of d)) }
{
    match line {
        Line::Output(output) => Some(Draft::Headed {
            name,
            input,
            output,
            blocks: Blocks {
                groups: Vec::new(alloc),
                levels: Vec::new(alloc),
            },
        }),
        _other => None,
    }
}
