//! What a run has come to.

ghost use Rattle.std.specs.Prelude.{◌≡◌, [], IfOk};
ghost use Rattle.interpreter.specs.Scratches.{IsMadeFor};

use crate::buffers::Buffers;
use crate::evaluation::Number;
use crate::given::Given;
use crate::needs::Needs;
use crate::placing::LISTS;
use crate::registers::{LONGEST_RUN, LONGEST_UPDATE};
use crate::row::Row;
use std::alloc::{AllocError, Global};

/// How many registers there are, for the parts of an expression.
const PARTS: usize = 16;

/// What a run has come to: what its buffers hold, and the numbers given so far. Besides, the lists that its lines fill
/// anew.
#[derive(Drop)]
pub(crate) struct State {
    pub memory: Buffers,
    pub given: Given,
    /// The numbers of a store's coordinates, as far as they are known.
    pub numbers: Row,
    /// The point that is read or written.
    pub point: Row,
    /// The indices of the calls that are under way.
    pub stack: Row,
    /// The numbers of expressions at the turns that are taken together.
    pub registers: Vec<Number>,
    /// The words of parts of expressions at these turns.
    pub words: Vec<u32>,
    /// The places of an update's points at these turns, in lists one behind the other.
    pub places: Vec<usize>,
}

/// Registers for so many turns of so many parts.
fn registers(alloc: Global, turns: usize, parts: usize) -> Result<Vec<Number>, AllocError> {
    let mut registers = Vec::new(alloc);
    registers.resize(turns.saturating_mul(parts), Number { value: 0 })?;
    Ok(registers)
}

/// Words for so many turns of so many parts.
fn words(alloc: Global, turns: usize, parts: usize) -> Result<Vec<u32>, AllocError> {
    let mut words = Vec::new(alloc);
    words.resize(turns.saturating_mul(parts), 0)?;
    Ok(words)
}

/// Places for so many turns in so many lists.
fn places(alloc: Global, turns: usize, lists: usize) -> Result<Vec<usize>, AllocError> {
    let mut places = Vec::new(alloc);
    places.resize(turns.saturating_mul(lists), 0)?;
    Ok(places)
}

impl State {
    /// A state with memory for what is needed, and for so many numbers that are given.
    pub(crate) fn new(alloc: Global, needs: &Needs, given: usize) -> Result<State, AllocError>
        ensures { IfOk result (λ state. IsMadeFor needs.now given state) }
    {
        Ok(State {
            memory: Buffers::new(alloc, &needs.limits)?,
            given: Given::new(alloc, given)?,
            numbers: Row::new(alloc, needs.coordinates)?,
            point: Row::new(alloc, needs.coordinates)?,
            stack: Row::new(alloc, needs.indices)?,
            registers: registers(alloc, LONGEST_UPDATE, PARTS)?,
            words: words(alloc, LONGEST_RUN, PARTS)?,
            places: places(alloc, LONGEST_UPDATE, LISTS)?,
        })
    }
}
