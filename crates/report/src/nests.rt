//! The loop nest of each group of a checked plan, as indented text.

mod forms;
mod lines;

use crate::costs::point_count;
use crate::nests::forms::{put_bounds, put_region};
use crate::nests::lines::{Scene, indent, put_stmt};
use crate::subject::group_name;
use checked_plan::Checked;
use lin::Region;
use plan::certificate::Cert;
use plan::{Declaration, Group, Plan};
use spelling::sizes::{put_size, put_sizes};
use spelling::words::{put_symbol, put_type};
use std::alloc::{AllocError, Global};

/// Writes a line of the head: a word, a name, a type and extents.
fn put_declaration(
    text: &mut String,
    word: &str,
    declaration: &Declaration,
) -> Result<(), AllocError> {
    text.push_str(word)?;
    text.push_str(declaration.name.as_str())?;
    text.push_str(" ")?;
    put_type(text, declaration.ty)?;
    text.push_str(" ")?;
    put_sizes(text, &declaration.extents)?;
    text.push_str("\n")
}

/// Writes the name, the input and the output.
fn put_head(text: &mut String, plan: &Plan) -> Result<(), AllocError> {
    text.push_str("plan ")?;
    text.push_str(plan.name.as_str())?;
    text.push_str("\n")?;
    put_declaration(text, "input ", &plan.input)?;
    put_declaration(text, "output ", &plan.output)
}

/// Writes the line of a group: its number, function and region, and how many pieces it has.
fn put_group_line(text: &mut String, number: u64, group: &Group) -> Result<(), AllocError> {
    text.push_str("\ngroup ")?;
    put_size(text, number)?;
    text.push_str(" ")?;
    text.push_str(group.function.as_str())?;
    text.push_str(" ")?;
    put_region(text, &group.region)?;
    text.push_str(", pieces ")?;
    put_size(text, point_count(&group.grid))?;
    text.push_str(":\n")
}

/// Writes a loop for each symbol of a grid, the last one outermost, and answers how deep the lines inside them stand.
fn put_grid(text: &mut String, grid: &[u64]) -> Result<usize, AllocError> {
    let mut depth: usize = 1;
    for (symbol, extent) in grid.iter().enumerate().rev() {
        indent(text, depth)?;
        text.push_str("parallel ")?;
        put_symbol(text, symbol)?;
        put_bounds(text, extent.saturating_sub(1))?;
        text.push_str(":\n")?;
        depth = depth.saturating_add(1);
    }
    Ok(depth)
}

/// Writes which pieces of other groups a piece of the group waits for.
fn put_needs(
    text: &mut String,
    depth: usize,
    plan: &Plan,
    cert: &Cert,
    number: u64,
) -> Result<(), AllocError> {
    for need in &cert.needs {
        if need.group == number {
            indent(text, depth)?;
            text.push_str("wait for group ")?;
            put_size(text, need.needed)?;
            text.push_str(" ")?;
            text.push_str(group_name(&plan.groups, need.needed))?;
            text.push_str(", pieces ")?;
            put_region(text, &need.region)?;
            text.push_str("\n")?;
        }
    }
    Ok(())
}

/// The region that the certificate says that pieces of a group own.
fn own_region(cert: &Cert, number: u64) -> Option<&Region> {
    for own in &cert.own {
        if own.group == number {
            return Some(&own.region);
        }
    }
    None
}

/// Writes a group: what its pieces are, and what each of them does.
fn put_group(
    text: &mut String,
    plan: &Plan,
    cert: &Cert,
    number: u64,
    group: &Group,
) -> Result<(), AllocError> {
    put_group_line(text, number, group)?;
    let depth = put_grid(text, group.grid.as_slice())?;
    put_needs(text, depth, plan, cert, number)?;
    let scene = Scene {
        groups: &plan.groups,
        group,
        own: own_region(cert, number),
    };
    put_stmt(text, &scene, depth, &group.body)
}

/// The loop nest of each group of a checked plan, as indented text for a reader: the loops with their marks, the buffers
/// with their places, what a piece waits for, fetches, stores and publishes. A span is written by its ends, as `[0, 9]`, and
/// an expression as in the plan's text, where `@C` loads by claim C.
///
/// # Errors
/// `AllocError` where memory runs out.
pub fn text(alloc: Global, checked: &Checked<'_>) -> Result<String, AllocError> {
    let (plan, cert) = (checked.plan(), checked.cert());
    let mut text = String::new(alloc);
    put_head(&mut text, plan)?;
    for (number, group) in plan.groups.iter().enumerate() {
        put_group(&mut text, plan, cert, number as u64, group)?;
    }
    Ok(text)
}
