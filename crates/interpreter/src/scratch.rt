//! The memory of private runs.

ghost use Rattle.std.specs.Prelude.{◌≡◌, ◌≤◌, IfOk, OnOk, length, map, vec_capacity};
ghost use Rattle.plan.specs.View.{group_of};
ghost use Rattle.plan.specs.Certificate.Certificate.{certificate_of};
ghost use Rattle.interpreter.specs.Needs.{region_count};
ghost use Rattle.plan.specs.Certificate.Cells.{own_region};
ghost use Rattle.interpreter.specs.GivenNumbers.{given_list};
ghost use Rattle.interpreter.specs.LowBits.{low_bits};
ghost use Rattle.interpreter.specs.Scratches.{room_of, IsNotedFor, IsScratchForAll};

use crate::buffers::larger;
use crate::given::GivenBits;
use crate::line_codes::{LineCode, line_codes};
use crate::needs::{Needs, note_needs};
use crate::run::own_region;
use crate::sizes::{Size, sizes_of};
use crate::state::State;
use crate::symbols::Symbols;
use plan::Group;
use plan::certificate::{Cert, Own};
use std::alloc::{AllocError, Global};

/// The memory of private runs of the pieces of a plan, one run after another. It is taken here, before the first run, and the runs
/// take none. The buffers of all groups lie in the same places.
#[derive(Drop)]
pub struct Scratch {
    /// How many coordinates the buffers of each group have.
    pub(crate) sizes: Vec<Vec<Size>>,
    pub(crate) codes: Vec<Vec<LineCode>>,
    pub(crate) constants: Symbols,
    pub(crate) symbols: Symbols,
    pub(crate) state: State,
}

/// How many coordinates the cells have that the pieces of a group own.
fn own_count(all: &[Own], number: usize) -> usize
    ensures { result ≡ region_count (own_region all.now number) }
{
    match own_region(all, number) {
        Some(region) => region.as_slice().len(),
        None => 0,
    }
}

/// Notes what the pieces of a group of this number need.
fn note_group(
    group: &Group,
    cert: &Cert,
    number: usize,
    needs: &mut Needs,
) -> Result<(), AllocError>
    ensures { OnOk result (IsNotedFor (certificate_of cert.now) number (group_of group.now) needs.old needs.new) }
{
    needs.reach(own_count(&cert.own, number))?;
    note_needs(&group.body, needs)?;
    Ok(())
}

impl Scratch {
    /// Memory for the pieces of these groups of a plan, each of which gives at most so many numbers.
    ///
    /// It takes 2 bytes a place of the buffers as long as a buffer has held values of `u8` alone, then 6, and room of 8 that is not
    /// touched as long as all numbers fit their types, of each number as many places as the group that asks for most of them, 24 bytes a
    /// line that binds a symbol, 4 bytes a count of the largest grid, 16 bytes a coordinate of the points that the groups' pieces own and
    /// at which their lines fetch and store, 8 bytes an index of the calls in their stores, and one byte a number that a run gives,
    /// besides room of 4 that is not touched as long as all of them are of `u8` and fit it, and room of 8 that is not touched as long as
    /// all are of one type and fit it.
    ///
    /// # Errors
    /// `AllocError` where memory runs out. A scratch has no room for buffers of more than four coordinates.
    pub fn new(
        alloc: Global,
        groups: &[Group],
        cert: &Cert,
        given: usize,
    ) -> Result<Scratch, AllocError>
        ensures fits { IfOk result (λ x. IsScratchForAll x (certificate_of cert.now) (map group_of groups.now)) }
        ensures given { IfOk result (λ x. given ≤ room_of x) }
    {
        let mut needs = Needs {
            limits: Vec::new(alloc),
            symbols: 0,
            coordinates: 0,
            indices: 0,
        };
        let mut sizes = Vec::new(alloc);
        let mut codes = Vec::new(alloc);
        let mut counts = 0;
        for (number, group) in groups.iter().enumerate() {
            note_group(group, cert, number, &mut needs)?;
            counts = larger(counts, group.grid.len());
            sizes.push(sizes_of(alloc, &group.body)?)?;
            codes.push(line_codes(alloc, &group.body)?)?;
        }
        Ok(Scratch {
            sizes,
            codes,
            constants: Symbols::new(alloc, 0, 0)?,
            symbols: Symbols::new(alloc, counts, needs.symbols)?,
            state: State::new(alloc, &needs, given)?,
        })
    }

    /// How many numbers the last run gave.
    pub fn given_count(&self) -> usize
        ensures { result ≡ length self.now.state.given.items }
    {
        self.state.given.len()
    }

    /// The low bits of the numbers that the last run gave: bytes where all of them are of `u8` and fit it, and else words of 32 bits.
    pub fn given(&self) -> GivenBits<'_>
        ensures { given_list result ≡ map low_bits self.now.state.given.items }
    {
        self.state.given.bits()
    }

    /// Makes a list that of the numbers that the last run gave. It takes no memory.
    pub fn copy_given(&self, numbers: &mut Vec<i64>)
        requires { length self.now.state.given.items ≤ vec_capacity numbers.old }
        ensures items { numbers.new.items ≡ self.now.state.given.items }
        ensures room { vec_capacity numbers.new ≡ vec_capacity numbers.old }
    {
        self.state.given.copy_to(numbers);
    }
}
