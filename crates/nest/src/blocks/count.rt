//! The numbers that a plan's lines give to groups, symbols and buffers.

ghost use Rattle.std.specs.Prelude.{◌≡◌, ◌<◌, ◌≤◌, ◌^◌, IsTrue};
ghost use Rattle.nest.specs.Blocks.View.{line_of};
ghost use Rattle.nest.specs.Blocks.Numbers as spec;
ghost use Rattle.nest.specs.Blocks.Drafts.{count_of};

use crate::blocks::line::Line;
use crate::blocks::stage::Stage;

/// The next group, the next symbol and the next buffer of the last one, and where in it the next line stands.
#[derive(Clone, Copy, Drop)]
pub struct Count {
    pub groups: usize,
    pub symbols: usize,
    pub buffers: u64,
    pub stage: Stage,
}

/// The most symbols of a group.
const MOST_SYMBOLS: usize = 256;
/// The most buffers of a group.
const MOST_BUFFERS: u64 = 256;

/// Whether the numbers of the line's symbols, or of its buffer, keep the limits.
fn has_small_number(line: &Line) -> bool
    ensures { result ≡ spec.has_small_number (line_of line.now) }
{
    match line {
        Line::Group { grid, .. } => grid.len() <= MOST_SYMBOLS,
        Line::For { symbol, .. } | Line::Let { symbol, .. } => *symbol < MOST_SYMBOLS,
        Line::Alloc { buffer, .. } => *buffer < MOST_BUFFERS,
        Line::Plan { .. }
        | Line::Input(_)
        | Line::Output(_)
        | Line::First { .. }
        | Line::Else
        | Line::Guard { .. }
        | Line::End
        | Line::Fetch { .. }
        | Line::Store { .. }
        | Line::Publish { .. } => true,
    }
}

impl Count {
    /// Before the first line.
    pub fn new() -> Self
        ensures { count_of result ≡ spec.start }
    {
        Count {
            groups: 0,
            symbols: 0,
            buffers: 0,
            stage: Stage::outside(),
        }
    }

    /// Whether the line keeps the limits of symbols, buffers and blocks in one another.
    pub fn has_room(&self, line: &Line) -> bool
        ensures { result ≡ spec.has_room (line_of line.now) (count_of self.now) }
    {
        has_small_number(line) && self.stage.has_depth_for(line)
    }

    /// Whether what the line numbers, a group, a symbol or a buffer, has the next number.
    pub fn is_next(&self, line: &Line) -> bool
        ensures { result ≡ spec.is_next (line_of line.now) (count_of self.now) }
    {
        match line {
            Line::Group { number, .. } => *number as usize == self.groups,
            Line::For { symbol, .. } | Line::Let { symbol, .. } => *symbol == self.symbols,
            Line::Alloc { buffer, .. } => *buffer == self.buffers,
            Line::Plan { .. }
            | Line::Input(_)
            | Line::Output(_)
            | Line::First { .. }
            | Line::Else
            | Line::Guard { .. }
            | Line::End
            | Line::Fetch { .. }
            | Line::Store { .. }
            | Line::Publish { .. } => true,
        }
    }

    /// What has been counted after a line that has room and the next number.
    pub fn after(self, line: &Line) -> Self
        requires room { IsTrue (spec.has_room (line_of line.now) (count_of self)) }
        requires next { IsTrue (spec.is_next (line_of line.now) (count_of self)) }
        ensures { count_of result ≡ spec.after (line_of line.now) (count_of self) }
    {
        let mut count = self;
        count.stage = self.stage.after(line);
        match line {
            Line::Group { number, grid, .. } => {
                count.groups = *number as usize + 1;
                count.symbols = grid.len();
                count.buffers = 0;
            }
            Line::For { .. } | Line::Let { .. } => count.symbols += 1,
            Line::Alloc { .. } => count.buffers += 1,
            Line::Plan { .. }
            | Line::Input(_)
            | Line::Output(_)
            | Line::First { .. }
            | Line::Else
            | Line::Guard { .. }
            | Line::End
            | Line::Fetch { .. }
            | Line::Store { .. }
            | Line::Publish { .. } => {}
        }
        count
    }
}
