//! Where in its group a line stands, and which lines may stand there.

ghost use Rattle.std.specs.Prelude.{◌≡◌, ◌<◌, ◌≤◌, ◌^◌, IsTrue};
ghost use Rattle.nest.specs.Blocks.View.{line_of};
ghost use Rattle.nest.specs.Blocks.Stages as spec;
ghost use Rattle.nest.specs.Blocks.Drafts.{stage_of};

use crate::blocks::line::Line;

/// How many blocks may stand in one another.
const MOST_BLOCKS: usize = 512;

/// How many blocks of the group are open, whether its `publish` stands, and whether a fetch may still come.
#[derive(Clone, Copy, Drop)]
pub struct Stage {
    pub depth: usize,
    pub published: bool,
    pub may_fetch: bool,
}

impl Stage {
    /// Behind a group's `publish`, or before the first group.
    pub fn outside() -> Self
        ensures { stage_of result ≡ spec.outside }
    {
        Stage {
            depth: 0,
            published: true,
            may_fetch: false,
        }
    }

    /// Whether the line may stand here, as groups have their form: a group behind the `publish` of the one before it, a
    /// fetch before the first loop, `first`, guard and store, and the one `publish` last and in no block.
    pub fn has_place_for(&self, line: &Line) -> bool
        ensures { result ≡ spec.may_stand (line_of line.now) (stage_of self.now) }
    {
        match line {
            Line::Group { .. } => self.published,
            Line::Fetch { .. } => !self.published && self.may_fetch,
            Line::Publish { .. } => !self.published && self.depth == 0,
            Line::Plan { .. } | Line::Input(_) | Line::Output(_) | Line::Else | Line::End => true,
            Line::For { .. }
            | Line::Let { .. }
            | Line::First { .. }
            | Line::Guard { .. }
            | Line::Alloc { .. }
            | Line::Store { .. } => !self.published,
        }
    }

    /// Whether a block more may be opened, where the line opens one.
    pub fn has_depth_for(&self, line: &Line) -> bool
        ensures { result ≡ spec.has_depth (line_of line.now) (stage_of self.now) }
    {
        match line {
            Line::For { .. } | Line::First { .. } | Line::Guard { .. } => self.depth < MOST_BLOCKS,
            Line::Plan { .. }
            | Line::Input(_)
            | Line::Output(_)
            | Line::Group { .. }
            | Line::Let { .. }
            | Line::Else
            | Line::End
            | Line::Alloc { .. }
            | Line::Fetch { .. }
            | Line::Store { .. }
            | Line::Publish { .. } => true,
        }
    }

    /// Behind the line, if it keeps the limit of blocks in one another.
    pub fn after(self, line: &Line) -> Self
        requires { IsTrue (spec.has_depth (line_of line.now) (stage_of self)) }
        ensures { stage_of result ≡ spec.stage_after (line_of line.now) (stage_of self) }
    {
        let mut stage = self;
        match line {
            Line::Group { .. } => {
                stage.depth = 0;
                stage.published = false;
                stage.may_fetch = true;
            }
            Line::For { .. } | Line::First { .. } | Line::Guard { .. } => {
                stage.depth += 1;
                stage.may_fetch = false;
            }
            Line::End => stage.depth = stage.depth.saturating_sub(1),
            Line::Store { .. } => stage.may_fetch = false,
            Line::Publish { .. } => {
                stage.published = true;
                stage.may_fetch = false;
            }
            Line::Plan { .. }
            | Line::Input(_)
            | Line::Output(_)
            | Line::Let { .. }
            | Line::Else
            | Line::Alloc { .. }
            | Line::Fetch { .. } => {}
        }
        stage
    }
}
