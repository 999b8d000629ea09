//! The functions of the cut algorithm.

ghost use Rattle.std.specs.Prelude.{◌≡◌, ◌≤◌, IfOk, map, length, pos};
ghost use Rattle.tree.specs.Term.{term_of};
ghost use Rattle.algo.specs.Parts.{names_of, range_of, change_of, functions_of, function_of};
ghost use Rattle.algo.specs.View.{algorithm_of};
ghost use Rattle.crop.specs.Moving.{moved};
ghost use Rattle.crop.specs.Cutting.{algorithm_cut};
ghost use Rattle.crop.specs.View.{cut_of, move_of};
ghost use Rattle.crop.specs.Piece.{move_in, pure_in, change_in, function_in};

use crate::callees::{Callees, function_at};
use crate::cut::Cut;
use crate::moving::{Mover, all_moved, moved};
use crate::piece::Piece;
use crate::regions::{region_of, region_with, update_names, variable_names};
use algo::{Algo, Function, Range, Update};
use lin::Region;
use std::alloc::{AllocError, Global};
use tree::Expr;

// Copies of names.
fn names_copied(alloc: Global, names: &[String]) -> Result<Vec<String>, AllocError>
    ensures { IfOk result (λ copied. names_of copied.items ≡ names_of names.now) }
{
    let mut copied = Vec::new(alloc);
    for name in names {
        copied.push(name.clone()?)?;
    }
    Ok(copied)
}

// A copy of a reduction variable and its range.
fn range_copied(range: &Range) -> Result<Range, AllocError>
    ensures { IfOk result (λ copied. range_of copied ≡ range_of range.now) }
{
    Ok(Range {
        variable: range.variable.clone()?,
        low: range.low,
        high: range.high,
    })
}

// Copies of them.
fn ranges_copied(alloc: Global, ranges: &[Range]) -> Result<Vec<Range>, AllocError>
    ensures { IfOk result (λ copied. map range_of copied.items ≡ map range_of ranges.now) }
{
    let mut copied = Vec::new(alloc);
    for range in ranges {
        copied.push(range_copied(range)?)?;
    }
    Ok(copied)
}

// What moves a definition: how many functions it may call, the names of its coordinates and the region over which it is moved.
fn mover_of<'a, 'r>(
    piece: &Piece<'a>,
    count: usize,
    names: &'a [&'a str],
    region: &'r Region,
) -> Mover<'a, 'r>
    requires { count ≤ length (algorithm_of piece.now.algo.now).functions }
    ensures { move_of result ≡ move_in piece.now count (map (λ x. x.now) names.now) region.now }
{
    Mover {
        cut: piece.cut,
        names: Callees {
            algo: piece.algo,
            count,
            variables: names,
        },
        region,
        variables: &piece.function.variables,
        origin: &piece.kept.origin,
    }
}

// An update, moved: the reduction domain stays, each left index is less the coordinate of the origin.
fn change_cut<'a>(
    alloc: Global,
    piece: &Piece<'a>,
    update: &'a Update,
) -> Result<Update, AllocError>
    ensures { IfOk result (λ made. change_of made ≡ change_in piece.now (change_of update.now)) }
{
    let names = update_names(alloc, &piece.function.variables, &update.ranges)?;
    let region = region_with(alloc, &piece.kept.region, &update.ranges)?;
    let left = mover_of(piece, piece.number, &names, &region);
    let right = mover_of(piece, piece.number + 1, &names, &region);
    let ranges = ranges_copied(alloc, &update.ranges)?;
    let at = all_moved(alloc, &left, &piece.kept.origin, &update.at)?;
    let value = moved(alloc, &right, 0, &update.value)?;
    Ok(Update { ranges, at, value })
}

// Updates, moved.
fn changes_cut<'a>(
    alloc: Global,
    piece: &Piece<'a>,
    updates: &'a [Update],
) -> Result<Vec<Update>, AllocError>
    ensures { IfOk result (λ made. map change_of made.items ≡ map (change_in piece.now) (map change_of updates.now)) }
{
    let mut made = Vec::new(alloc);
    for update in updates {
        made.push(change_cut(alloc, piece, update)?)?;
    }
    Ok(made)
}

// The right side of the pure definition, moved.
fn value_cut(alloc: Global, piece: &Piece<'_>) -> Result<Expr, AllocError>
    ensures { IfOk result (λ made. term_of made ≡ moved (pure_in piece.now) (pos 0) (term_of piece.now.function.now.value)) }
{
    let names = variable_names(alloc, &piece.function.variables)?;
    let region = region_of(alloc, &piece.kept.region)?;
    let mover = mover_of(piece, piece.number, &names, &region);
    moved(alloc, &mover, 0, &piece.function.value)
}

// The function, moved.
fn function_cut(alloc: Global, piece: &Piece<'_>) -> Result<(String, Function), AllocError>
    ensures { IfOk result (λ made. function_of made ≡ function_in piece.now) }
{
    let name = piece.name.clone()?;
    let variables = names_copied(alloc, &piece.function.variables)?;
    let updates = changes_cut(alloc, piece, &piece.function.updates)?;
    let value = value_cut(alloc, piece)?;
    let function = Function {
        ty: piece.function.ty,
        variables,
        value,
        updates,
    };
    Ok((name, function))
}

/// The functions that are kept, in their order.
pub(crate) fn functions_cut(
    alloc: Global,
    algo: &Algo,
    cut: &Cut,
) -> Result<Vec<(String, Function)>, AllocError>
    requires { length cut.now.kept.items ≤ length (algorithm_of algo.now).functions }
    ensures { IfOk result (λ made. functions_of made.items ≡ (algorithm_cut (algorithm_of algo.now) (cut_of cut.now)).functions) }
{
    let mut made = Vec::new(alloc);
    for number in 0..cut.kept.len() {
        if let Some(kept) = &cut.kept[number] {
            let (name, function) = function_at(algo, number);
            let piece = Piece {
                algo,
                cut,
                number,
                name,
                function,
                kept,
            };
            made.push(function_cut(alloc, &piece)?)?;
        }
    }
    Ok(made)
}
