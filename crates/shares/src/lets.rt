//! The lines `let` before a fetch line, and the numbers that they come to at a grid point.

ghost use Rattle.std.specs.Prelude.{◌≡◌, ◌^◌, ◌++◌, ◌↔◌, IfOk, OnOk, IsTrue, MatchOption};
ghost use Rattle.lin.specs.Forms.{IsWithin};
ghost use Rattle.plan.specs.View.{statement_of};
ghost use Rattle.plan.specs.Certificate.Cells.{grid_symbols};
ghost use Rattle.soundness.specs.Around.{picked};
ghost use Rattle.shares.specs.Boxes.{AreLimited, IsSmall};
ghost use Rattle.shares.specs.Lets.{AreNear, AreValues, NamingsAreLimited, ValuesAreSmall, naming, namings_of, symbols_at};

use crate::forms::{Value, largest, smallest};
use lin::{Forms, Sym};
use plan::{Pick, Stmt};
use std::alloc::{AllocError, Global};

/// How far from 0 the numbers may be that the lines `let` before a fetch line come to.
const FARTHEST: u64 = 1 << 20;

/// A line `let`: its symbol, and which of the forms it is.
#[derive(Clone, Copy, Drop)]
pub(crate) struct Naming<'a> {
    pub symbol: Sym,
    pub pick: Pick,
    pub forms: &'a Forms,
}

/// The same lines once more.
pub(crate) fn copy_lets<'a>(
    alloc: Global,
    lets: &[Naming<'a>],
) -> Result<Vec<Naming<'a>>, AllocError>
    ensures { IfOk result (λ made. made.items ≡ lets.now) }
{
    let mut made = Vec::new(alloc);
    for line in lets {
        made.push(*line)?;
    }
    Ok(made)
}

/// Notes a line, if it is a line `let`.
pub(crate) fn note_let<'a>(stmt: &'a Stmt, known: &mut Vec<Naming<'a>>) -> Result<(), AllocError>
    ensures { OnOk result (namings_of known.new.items ≡ namings_of known.old.items ++ naming (statement_of stmt.now)) }
{
    match stmt {
        Stmt::Let {
            symbol,
            pick,
            forms,
        } => {
            known.push(Naming {
                symbol: *symbol,
                pick: *pick,
                forms,
            })?;
            Ok(())
        }
        Stmt::Seq(_) => Ok(()),
        Stmt::For { .. } => Ok(()),
        Stmt::First { .. } => Ok(()),
        Stmt::Guard { .. } => Ok(()),
        Stmt::Fetch { .. } | Stmt::Alloc { .. } | Stmt::Store { .. } | Stmt::Publish { .. } => {
            Ok(())
        }
    }
}

/// The number that a line comes to, where the symbols of the lines before it have these values.
fn picked_at(line: &Naming<'_>, at: &[u64], lets: &[Value]) -> i64
    requires limits { AreLimited line.now.forms.now }
    requires at { IsSmall at.now }
    requires lets { ValuesAreSmall lets.now }
    ensures { result ≡ picked line.now.pick line.now.forms.now (symbols_at at.now lets.now) }
{
    match line.pick {
        Pick::Min => smallest(line.forms, at, lets),
        Pick::Max => largest(line.forms, at, lets),
    }
}

/// Whether a number is near enough.
fn is_near(value: i64) -> bool
    ensures { IsTrue result ↔ IsWithin (2 ^ 20) value }
{
    value.unsigned_abs() <= FARTHEST
}

/// The values of the symbols of some lines at a grid point, where all of them are near enough.
///
/// The time is linear in their forms, and square in the lines.
pub(crate) fn near_values(
    alloc: Global,
    lets: &[Naming<'_>],
    at: &[u64],
) -> Result<Option<Vec<Value>>, AllocError>
    requires limits { NamingsAreLimited (namings_of lets.now) }
    requires at { IsSmall at.now }
    ensures { IfOk result (λ found. MatchOption found (¬ AreNear (namings_of lets.now) (grid_symbols at.now))
        (λ values. AreValues at.now (namings_of lets.now) values.items)) }
{
    let mut values = Vec::new(alloc);
    for line in lets {
        let value = picked_at(line, at, &values);
        if !is_near(value) {
            return Ok(None);
        }
        values.push(Value {
            symbol: line.symbol,
            value,
        })?;
    }
    Ok(Some(values))
}

/// The values of the symbols of lines that are near enough.
pub(crate) fn values_at(
    alloc: Global,
    lets: &[Naming<'_>],
    at: &[u64],
) -> Result<Vec<Value>, AllocError>
    requires limits { NamingsAreLimited (namings_of lets.now) }
    requires at { IsSmall at.now }
    requires near { AreNear (namings_of lets.now) (grid_symbols at.now) }
    ensures { IfOk result (λ values. AreValues at.now (namings_of lets.now) values.items) }
{
    match near_values(alloc, lets, at)? {
        Some(values) => Ok(values),
        None => unreachable!(),
    }
}
