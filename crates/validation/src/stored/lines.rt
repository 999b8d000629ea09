//! The lines of a group.

ghost use Rattle.std.specs.Prelude.{◌≡◌};
ghost use Rattle.validation.specs.Stored.Stored.{has_line};

/// The lines of a group: its line `group`, and the line behind its last one. Lines past the greatest `u32` count as that.
#[derive(Clone, Copy, PartialEq, Eq, Drop)]
pub struct GroupLines {
    pub first: u32,
    pub behind: u32,
}

impl GroupLines {
    /// Whether a statement of the group ends at the line, if one does.
    pub(crate) fn has(self, line: u64) -> bool
        ensures { result ≡ has_line self line }
    {
        u64::from(self.first) < line && line < u64::from(self.behind)
    }
}
