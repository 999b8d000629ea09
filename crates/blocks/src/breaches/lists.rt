//! Names in a row, as texts have them.

use crate::breaches::spots::is_same;
use sched::Loop;
use std::alloc::{AllocError, Global};
use tree::token::Name;

/// The most names of a list.
const MOST_NAMES: usize = 12;

/// Writes these one behind the other.
pub(crate) fn put(said: &mut String, parts: &[&str]) -> Result<(), AllocError> {
    for part in parts {
        said.push_str(part)?;
    }
    Ok(())
}

/// Writes a name of a list, which is not written where there are too many before it.
pub(crate) fn put_listed(said: &mut String, index: usize, name: &str) -> Result<(), AllocError> {
    if index > MOST_NAMES {
        return Ok(());
    }
    if index == MOST_NAMES {
        return said.push_str(", ..");
    }
    if index > 0 {
        said.push_str(", ")?;
    }
    put(said, &["`", name, "`"])
}

/// Writes the names of loops.
pub(crate) fn put_loops(said: &mut String, loops: &[Loop]) -> Result<(), AllocError> {
    for (index, one) in loops.iter().enumerate() {
        put_listed(said, index, one.name.as_str())?;
    }
    Ok(())
}

/// Writes names.
pub(crate) fn put_names(said: &mut String, names: &[Name]) -> Result<(), AllocError> {
    for (index, name) in names.iter().enumerate() {
        put_listed(said, index, name.as_str())?;
    }
    Ok(())
}

fn put_argument(said: &mut String, index: usize, name: &Name) -> Result<(), AllocError> {
    if index > 0 {
        said.push_str(", ")?;
    }
    said.push_str(name.as_str())
}

/// Writes a `reorder` of these loops of a function, the innermost first.
pub(crate) fn put_reorder(
    said: &mut String,
    function: &Name,
    names: &[Name],
) -> Result<(), AllocError> {
    put(said, &["`", function.as_str(), ".reorder("])?;
    for (index, name) in names.iter().enumerate() {
        put_argument(said, index, name)?;
    }
    said.push_str(")`")
}

// ---- orders

// Adds the names of the loops that are parallel, or of those that are not.
fn add_some(names: &mut Vec<Name>, loops: &[Loop], are_parallel: bool) -> Result<(), AllocError> {
    for one in loops {
        if one.is_parallel() == are_parallel {
            names.push(one.name)?;
        }
    }
    Ok(())
}

/// The names of loops, those of the parallel ones last.
pub(crate) fn parallel_last(alloc: Global, loops: &[Loop]) -> Result<Vec<Name>, AllocError> {
    let mut names = Vec::new(alloc);
    add_some(&mut names, loops, false)?;
    add_some(&mut names, loops, true)?;
    Ok(names)
}

/// The name of a loop, and of those inside it in their order.
pub(crate) fn innermost_first(
    alloc: Global,
    loops: &[Loop],
    name: &Name,
) -> Result<Vec<Name>, AllocError> {
    let mut names = Vec::new(alloc);
    names.push(*name)?;
    for one in loops {
        if is_same(&one.name, name) {
            return Ok(names);
        }
        names.push(one.name)?;
    }
    Ok(names)
}
