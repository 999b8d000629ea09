//! Why a function is too large.

ghost use Rattle.std.specs.Prelude.{◌≡◌, IfOk, length};
ghost use Rattle.algo.specs.View.{algorithm_of};

use crate::reasons::causes::{Cause, Reason, SizeCause};
use algo::{Algo, Function, Update};
use blocks::definitions::small_formulas;
use blocks::legality::{MOST_CELLS, MOST_PIECES, cells_of, product};
use sched::Placement;
use sched::calls::{Call, with_calls};
use sched::definitions::Stored;
use sched::roots::Laid;
use std::alloc::{AllocError, Global};
use tree::token::Name;

fn number_named(placement: &Placement, name: &Name) -> Option<usize> {
    for (number, subject) in placement.subjects.iter().enumerate() {
        if subject.name.as_str() == name.as_str() {
            return Some(number);
        }
    }
    None
}

// The name of the function of this number where it is put in, and has one definition.
fn inlined_name(placement: &Placement, number: usize) -> Option<Name> {
    let subject = placement.subjects.get(number)?;
    if subject.is_stored || subject.has_updates() {
        return None;
    }
    Some(subject.name)
}

// Which functions are stored, where the one of this number is stored too.
fn flags_with(
    alloc: Global,
    algo: &Algo,
    placement: &Placement,
    also: usize,
) -> Result<Vec<bool>, AllocError>
    ensures { IfOk result (λ v. length v.items ≡ length (algorithm_of algo.now).functions) }
{
    let mut stored = Vec::new(alloc);
    for number in 0..algo.funcs().len() {
        let is_stored = match placement.subjects.get(number) {
            Some(subject) => subject.is_stored,
            None => false,
        };
        stored.push(is_stored || number == also)?;
    }
    Ok(stored)
}

// Whether the definitions of a function are within the limits where another one, or it itself, is stored too.
fn fits_with(
    alloc: Global,
    algo: &Algo,
    placement: &Placement,
    number: usize,
    also: usize,
) -> Result<bool, AllocError> {
    let stored = flags_with(alloc, algo, placement, also)?;
    let Some((_, function)) = algo.funcs().get_index(number) else {
        return Ok(false);
    };
    let formulas = small_formulas(alloc, algo, &stored, function)?;
    Ok(formulas.is_some())
}

// The last function before another one which, stored, is within the limits itself and brings that one within them.
fn enough_alone(
    alloc: Global,
    algo: &Algo,
    placement: &Placement,
    number: usize,
) -> Result<Option<Name>, AllocError> {
    for store in (0..number).rev() {
        if let Some(name) = inlined_name(placement, store) {
            if fits_with(alloc, algo, placement, number, store)?
                && fits_with(alloc, algo, placement, store, store)?
            {
                return Ok(Some(name));
            }
        }
    }
    Ok(None)
}

fn calls_in<'a>(alloc: Global, function: &'a Function) -> Result<Vec<Call<'a>>, AllocError> {
    let mut calls = with_calls(Vec::new(alloc), &function.value)?;
    for update in &function.updates {
        calls = with_update(calls, update)?;
    }
    Ok(calls)
}

// The calls so far, and those of an update.
fn with_update<'a>(known: Vec<Call<'a>>, update: &'a Update) -> Result<Vec<Call<'a>>, AllocError> {
    let mut calls = known;
    for index in &update.at {
        calls = with_calls(calls, index)?;
    }
    with_calls(calls, &update.value)
}

// Whether one of the calls is of the function of this name.
fn are_of(calls: &[Call<'_>], name: &str) -> bool {
    for call in calls {
        if call.name == name {
            return true;
        }
    }
    false
}

// The last function that is put in where the one of this number calls it.
fn last_inlined(
    alloc: Global,
    algo: &Algo,
    placement: &Placement,
    number: usize,
) -> Result<Option<(usize, Name)>, AllocError> {
    let Some((_, function)) = algo.funcs().get_index(number) else {
        return Ok(None);
    };
    let calls = calls_in(alloc, function)?;
    for other in (0..number).rev() {
        if let Some(name) = inlined_name(placement, other) {
            if are_of(&calls, name.as_str()) {
                return Ok(Some((other, name)));
            }
        }
    }
    Ok(None)
}

/// The functions that are put in on the way down from the one of this name, one in another, the last declared first.
pub(crate) fn inlined_below(
    alloc: Global,
    algo: &Algo,
    placement: &Placement,
    name: &Name,
) -> Result<Vec<Name>, AllocError> {
    let mut found = Vec::new(alloc);
    let Some(number) = number_named(placement, name) else {
        return Ok(found);
    };
    let mut at = number;
    for _step in 0..number {
        match last_inlined(alloc, algo, placement, at)? {
            Some((next, name)) => {
                found.push(name)?;
                at = next;
            }
            None => return Ok(found),
        }
    }
    Ok(found)
}

// The first on the way down that is within the limits itself.
fn first_small(
    alloc: Global,
    algo: &Algo,
    placement: &Placement,
    number: usize,
) -> Result<Option<Name>, AllocError> {
    let mut at = number;
    for _step in 0..number {
        let Some((next, name)) = last_inlined(alloc, algo, placement, at)? else {
            return Ok(None);
        };
        if fits_with(alloc, algo, placement, next, next)? {
            return Ok(Some(name));
        }
        at = next;
    }
    Ok(None)
}

fn inlined(
    alloc: Global,
    algo: &Algo,
    placement: &Placement,
    function: Name,
) -> Result<Option<Reason>, AllocError> {
    let Some(number) = number_named(placement, &function) else {
        return Ok(None);
    };
    let alone = enough_alone(alloc, algo, placement, number)?;
    let is_enough = alone.is_some();
    let found = match alone {
        Some(name) => Some(name),
        None => first_small(alloc, algo, placement, number)?,
    };
    match found {
        Some(store) => {
            let cause = SizeCause::Inlined {
                function,
                store,
                is_enough,
            };
            Ok(Some(Cause::Size(cause).alone(alloc)))
        }
        None => Ok(None),
    }
}

// ---- limits of all functions

/// What the root functions so far have together.
#[derive(Clone, Copy, Drop)]
struct Totals {
    cells: u64,
    pieces: u64,
}

fn totals_of(laid: &Laid) -> Totals {
    Totals {
        cells: cells_of(&laid.region),
        pieces: product(&laid.skeleton.grid),
    }
}

impl Totals {
    fn joined(self, other: Totals) -> Totals {
        Totals {
            cells: self.cells.saturating_add(other.cells),
            pieces: self.pieces.saturating_add(other.pieces),
        }
    }
}

// The greater of two numbers with their functions.
fn more(known: (u64, Name), next: u64, name: Name) -> (u64, Name) {
    if next > known.0 { (next, name) } else { known }
}

// Which limit the root functions up to the one of this name pass, and which of them has the most.
fn excess_of(stored: &[Stored<'_>], laid: &[Option<Laid>], name: &Name) -> Option<SizeCause> {
    let mut totals = Totals {
        cells: 0,
        pieces: 0,
    };
    let mut cells = (0, *name);
    let mut pieces = (0, *name);
    for (number, one) in stored.iter().enumerate() {
        if let Some(Some(laid)) = laid.get(number) {
            if one.subject.is_root {
                let own = totals_of(laid);
                totals = totals.joined(own);
                cells = more(cells, own.cells, one.subject.name);
                pieces = more(pieces, own.pieces, one.subject.name);
            }
        }
        if one.subject.name.as_str() == name.as_str() {
            return cause_of(totals, cells.1, pieces.1);
        }
    }
    None
}

fn cause_of(totals: Totals, widest: Name, finest: Name) -> Option<SizeCause> {
    if totals.cells > MOST_CELLS {
        return Some(SizeCause::Cells {
            count: totals.cells,
            most: widest,
        });
    }
    if totals.pieces > MOST_PIECES {
        return Some(SizeCause::Pieces {
            count: totals.pieces,
            most: finest,
        });
    }
    None
}

// ---- either

// Whether the function of this name is too large with calls put in.
fn is_inlined(stored: &[Stored<'_>], name: &Name) -> bool {
    for one in stored {
        if one.subject.name.as_str() == name.as_str() && one.formulas.is_none() {
            return true;
        }
    }
    false
}

/// Why a function is too large: with calls put in, or with the stored functions before it.
pub(crate) fn size_reason(
    alloc: Global,
    algo: &Algo,
    placement: &Placement,
    stored: &[Stored<'_>],
    laid: &[Option<Laid>],
    name: &Name,
) -> Result<Option<Reason>, AllocError> {
    if is_inlined(stored, name) {
        return inlined(alloc, algo, placement, *name);
    }
    match excess_of(stored, laid, name) {
        Some(cause) => Ok(Some(Cause::Size(cause).alone(alloc))),
        None => Ok(None),
    }
}
