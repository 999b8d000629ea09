//! The buffers of a group.

ghost use Rattle.std.specs.Prelude.{◌≡◌, ℕ, IfOk, OnOk, [], ◌∷◌, MatchOption, None, Some};
ghost use Rattle.plan.specs.Lists.{list_statements};
ghost use Rattle.plan.specs.Plan.{block};
ghost use Rattle.plan.specs.View.{statement_of};
ghost use Rattle.plan.specs.Semantics.Setting.{allocated, block_allocated, or_else};
ghost use Rattle.soundness.specs.Outline.Rooms.{buffer_of, first_room, AreNoted};

use plan::{Places, Stmt};
use std::alloc::{AllocError, Global};

/// The number of a buffer, and what the first line that allocates it says.
#[derive(Clone, Copy, Drop)]
pub(crate) struct Room<'a> {
    pub buffer: u64,
    pub function: &'a str,
    pub places: &'a [Places],
}

/// The room of a buffer, if one is noted.
pub(crate) fn room_in<'r, 'a>(rooms: &'r [Room<'a>], buffer: u64) -> Option<Room<'a>>
    ensures { MatchOption result (first_room rooms.now buffer ≡ None) (λ room. first_room rooms.now buffer ≡ Some (buffer_of room)) }
{
    for room in rooms {
        if room.buffer == buffer {
            return Some(*room);
        }
    }
    None
}

/// Notes a room behind those of earlier lines, unless its buffer has one.
fn note<'a>(room: Room<'a>, rooms: &mut Vec<Room<'a>>) -> Result<(), AllocError>
    ensures { OnOk result ((b : ℕ) → first_room rooms.new.items b ≡ or_else (first_room rooms.old.items b) (first_room (room.entry ∷ []) b)) }
{
    if room_in(rooms, room.buffer).is_none() {
        rooms.push(room)?;
    }
    Ok(())
}

/// Notes the rooms of the buffers that a statement allocates, behind those of earlier ones.
#[cycle(noting)]
fn note_rooms<'a>(stmt: &'a Stmt, rooms: &mut Vec<Room<'a>>) -> Result<(), AllocError>
    ensures { OnOk result ((b : ℕ) → first_room rooms.new.items b ≡ or_else (first_room rooms.old.items b) (allocated (statement_of stmt.now) b)) }
{
    match stmt {
        Stmt::Seq(all) => note_all_rooms(all, rooms),
        Stmt::For { body, .. } | Stmt::Guard { body, .. } => note_rooms(body, rooms),
        Stmt::First { first, later, .. } => {
            note_rooms(first, rooms)?;
            note_rooms(later, rooms)
        }
        Stmt::Alloc {
            buffer,
            function,
            places,
        } => {
            let room = Room {
                buffer: *buffer,
                function: function.as_str(),
                places,
            };
            note(room, rooms)
        }
        Stmt::Let { .. } | Stmt::Fetch { .. } | Stmt::Store { .. } | Stmt::Publish { .. } => Ok(()),
    }
}

/// Notes the rooms of the buffers that a block's statements allocate.
#[cycle(noting)]
fn note_all_rooms<'a>(all: &'a [Stmt], rooms: &mut Vec<Room<'a>>) -> Result<(), AllocError>
    ensures { OnOk result ((b : ℕ) → first_room rooms.new.items b ≡ or_else (first_room rooms.old.items b) (block_allocated (block (list_statements all.now)) b)) }
{
    for stmt in all {
        note_rooms(stmt, rooms)?;
    }
    Ok(())
}

/// The rooms of the buffers that a group's body allocates.
pub(crate) fn rooms_of<'a>(alloc: Global, body: &'a Stmt) -> Result<Vec<Room<'a>>, AllocError>
    ensures { IfOk result (λ rooms. AreNoted rooms.items (statement_of body.now)) }
{
    let mut rooms = Vec::new(alloc);
    note_rooms(body, &mut rooms)?;
    Ok(rooms)
}
