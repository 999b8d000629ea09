//! The table of a plan's costs.

ghost use Rattle.std.specs.Prelude.{◌≡◌, ◌++◌, decimal, string_bytes, IfOk, OnOk};
ghost use Rattle.report.specs.Table.{gap, heading, left, right, row_line, table};
ghost use Rattle.report.specs.View.{row_of, rows_of};

use crate::costs::{Costs, FunctionCost};
use itoa::Buffer;
use std::alloc::{AllocError, Global};

/// How wide the column of names is.
const NAME_WIDTH: usize = 16;
/// How wide each other column is.
const NUMBER_WIDTH: usize = 12;

/// Writes the spaces that make a text so wide.
fn put_gap(table: &mut String, width: usize, text: &str) -> Result<(), AllocError>
    ensures { OnOk result (string_bytes table.new ≡ string_bytes table.old ++ gap width text.now) }
{
    for _ in 0..width.saturating_sub(text.len()) {
        table.push_str(" ")?;
    }
    Ok(())
}

/// Writes a text at the left end of its column.
fn put_left(table: &mut String, width: usize, text: &str) -> Result<(), AllocError>
    ensures { OnOk result (string_bytes table.new ≡ string_bytes table.old ++ left width text.now) }
{
    table.push_str(text)?;
    put_gap(table, width, text)
}

/// Writes a text at the right end of its column.
fn put_right(table: &mut String, width: usize, text: &str) -> Result<(), AllocError>
    ensures { OnOk result (string_bytes table.new ≡ string_bytes table.old ++ right width text.now) }
{
    put_gap(table, width, text)?;
    table.push_str(text)
}

/// Writes a number at the right end of its column.
fn put_number(table: &mut String, number: u64) -> Result<(), AllocError>
    ensures { OnOk result (string_bytes table.new ≡ string_bytes table.old ++ right 12 (decimal number)) }
{
    put_right(table, NUMBER_WIDTH, Buffer::new().format(number))
}

/// Writes the line above the functions.
fn put_heading(table: &mut String) -> Result<(), AllocError>
    ensures { OnOk result (string_bytes table.new ≡ string_bytes table.old ++ heading) }
{
    put_left(table, NAME_WIDTH, "function")?;
    put_right(table, NUMBER_WIDTH, "stores")?;
    put_right(table, NUMBER_WIDTH, "private")?;
    put_right(table, NUMBER_WIDTH, "fetched")?;
    put_right(table, NUMBER_WIDTH, "pieces")?;
    table.push_str("\n")
}

/// Writes the line of a function.
fn put_row(table: &mut String, cost: &FunctionCost) -> Result<(), AllocError>
    ensures { OnOk result (string_bytes table.new ≡ string_bytes table.old ++ row_line (row_of cost.now)) }
{
    put_left(table, NAME_WIDTH, cost.name.as_str())?;
    put_number(table, cost.stores)?;
    put_number(table, cost.private)?;
    put_number(table, cost.fetched)?;
    put_number(table, cost.pieces)?;
    table.push_str("\n")
}

/// A line `function`, `stores`, `private`, `fetched` and `pieces`, and one line for each function: the first column stands
/// left in 16 places, the others right in 12. What is wider takes the room that it needs. A LF ends each line.
///
/// # Errors
/// `AllocError` where memory runs out.
pub fn text(alloc: Global, costs: &Costs) -> Result<String, AllocError>
    ensures { IfOk result (λ text. string_bytes text ≡ table (rows_of costs.now)) }
{
    let mut table = String::new(alloc);
    put_heading(&mut table)?;
    for cost in &costs.functions {
        put_row(&mut table, cost)?;
    }
    Ok(table)
}
