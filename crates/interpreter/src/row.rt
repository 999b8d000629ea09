//! Lists of numbers in memory that was taken before.

ghost use Rattle.std.specs.Prelude.{◌≡◌, ◌∷◌, ◌++◌, ◌+◌, ◌<◌, ◌≤◌, [], drop, length, take, IfOk};
ghost use Rattle.interpreter.specs.Rows.{listed};

use std::alloc::{AllocError, Global};
use std::marker::Model;

/// A list of numbers in memory that was taken before: there is room for so many.
#[derive(Drop)]
pub struct Row {
    items: Vec<i64>,
    room: usize,
}

impl Model for Row {
    ghost use Rattle.std.specs.Prelude.{◌≤◌, length, vec_capacity};
    ghost use Rattle.interpreter.specs.Rows.{Listed, listed};

    ghost Value = { Listed };

    ghost view = { λ r. listed r.items.items r.room };

    ghost invariant = { λ r. (r.room ≤ vec_capacity r.items) × (length r.items.items ≤ r.room) };
}

impl Row {
    /// No numbers, and room for so many, at 8 bytes each.
    ///
    /// # Errors
    /// `AllocError` where memory runs out.
    pub fn new(alloc: Global, room: usize) -> Result<Row, AllocError>
        ensures { IfOk result (λ row. row ≡ listed [] room) }
    {
        Ok(Row {
            items: Vec::with_capacity(alloc, room)?,
            room,
        })
    }

    /// The numbers.
    pub fn as_slice(&self) -> &[i64]
        ensures { result.now ≡ self.now.items }
    {
        self.items.as_slice()
    }

    /// How many numbers there are.
    pub fn len(&self) -> usize
        ensures { result ≡ length self.now.items }
    {
        self.items.len()
    }

    /// For how many more numbers there is room.
    pub fn free(&self) -> usize
        ensures { length self.now.items + result ≡ self.now.room }
    {
        self.room - self.items.len()
    }

    /// Forgets all numbers.
    pub fn clear(&mut self)
        ensures { self.new ≡ listed [] self.old.room }
    {
        self.items.clear();
    }

    /// Forgets all but the first so many numbers.
    pub fn truncate(&mut self, kept: usize)
        ensures { self.new ≡ listed (take kept self.old.items) self.old.room }
    {
        self.items.truncate(kept);
    }

    /// Takes one more number.
    pub fn push(&mut self, number: i64)
        requires { length self.old.items < self.old.room }
        ensures { self.new ≡ listed (self.old.items ++ number ∷ []) self.old.room }
    {
        self.items.push_reserved(number);
    }

    /// Takes more numbers, behind the others.
    pub(crate) fn append(&mut self, more: &[i64])
        requires { length self.old.items + length more.now ≤ self.old.room }
        ensures { self.new ≡ listed (self.old.items ++ more.now) self.old.room }
    {
        let Ok(()) = self.items.extend_from_slice(more) else {
            unreachable!()
        };
    }

    /// So many numbers, whatever they are.
    pub(crate) fn begin(&mut self, count: usize)
        requires { count ≤ self.old.room }
        ensures count { length self.new.items ≡ count }
        ensures room { self.new.room ≡ self.old.room }
    {
        self.items.clear();
        let Ok(()) = self.items.resize(count, 0) else {
            unreachable!()
        };
    }

    /// Puts a number in place of another. Those in front of it are not told of.
    pub(crate) fn set(&mut self, place: usize, number: i64)
        requires { place < length self.old.items }
        ensures from { drop place self.new.items ≡ number ∷ drop (place + 1) self.old.items }
        ensures count { length self.new.items ≡ length self.old.items }
        ensures room { self.new.room ≡ self.old.room }
    {
        self.items[place] = number;
    }
}
