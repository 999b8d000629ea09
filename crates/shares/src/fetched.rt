//! The cells that pieces fetch.

ghost use Rattle.std.specs.Prelude.{◌≡◌, ◌<◌, ◌≤◌, ◌+◌, ◌++◌, IfOk, IfErr, OnOk, All, Err, map, length};
ghost use Rattle.plan.specs.View.{plan_of};
ghost use Rattle.plan.specs.Certificate.Cells.{grid_symbols};
ghost use Rattle.headline.specs.Numbers.{cell_number};
ghost use Rattle.shares.specs.declared.stop.Stop.TheVariants.{Unserved, Large};
ghost use Rattle.shares.specs.Boxes.{IsSmall};
ghost use Rattle.shares.specs.Read.{IsTold, line_cells, lines_cells};
ghost use Rattle.shares.specs.Noted.{AreNotedBy, line_of, lines_noted};
ghost use Rattle.shares.specs.Layout.{IsLayout, AllCells, FetchesCells, fetched_list};
ghost use Rattle.shares.specs.Stops.{FetchStops};

use crate::counts::FetchLine;
use crate::layout::Layout;
use crate::lets::values_at;
use crate::spaces::found_by;
use crate::stop::Stop;
use std::alloc::{AllocError, Global};

/// Adds numbers.
pub(crate) fn push_all(numbers: &mut Vec<u32>, more: &[u32]) -> Result<(), AllocError>
    ensures { OnOk result (numbers.new.items ≡ numbers.old.items ++ more.now) }
{
    numbers.extend_from_slice(more)?;
    Ok(())
}

/// Adds the cells that a line fetches at a grid point, where all its points are cells and there is room for them.
fn fetch(
    alloc: Global,
    layout: &Layout<'_>,
    line: &FetchLine<'_>,
    at: &[u64],
    room: u64,
    fetched: &mut Vec<u32>,
) -> Result<(), Stop>
    requires layout { IsLayout layout.now }
    requires line { IsTold (plan_of layout.now.plan.now) (grid_symbols at.now) (line_of line.now) }
    requires at { IsSmall at.now }
    requires room { length fetched.old.items ≤ room }
    ensures cells { OnOk result (fetched.new.items ≡ fetched.old.items ++ map (cell_number (plan_of layout.now.plan.now)) (line_cells (grid_symbols at.now) (line_of line.now))) }
    ensures known { OnOk result (AllCells (plan_of layout.now.plan.now) (line_cells (grid_symbols at.now) (line_of line.now))) }
    ensures few { OnOk result (length fetched.new.items ≤ room) }
    ensures unserved { result ≡ Err Unserved → ¬ AllCells (plan_of layout.now.plan.now) (line_cells (grid_symbols at.now) (line_of line.now)) }
    ensures large { result ≡ Err Large → room < length fetched.old.items + length (line_cells (grid_symbols at.now) (line_of line.now)) }
{
    let values = values_at(alloc, &line.lets, at)?;
    let ground = &layout.grounds[line.fetched as usize];
    let found = found_by(alloc, &ground.cells, line.region, at, &values)?;
    if !found.whole {
        return Err(Stop::Unserved);
    }
    if found.numbers.as_slice().len() as u64 > room - fetched.as_slice().len() as u64 {
        return Err(Stop::Large);
    }
    push_all(fetched, &found.numbers)?;
    Ok(())
}

/// Adds the cells that some lines fetch at a grid point.
fn fetch_lines(
    alloc: Global,
    layout: &Layout<'_>,
    lines: &[FetchLine<'_>],
    at: &[u64],
    room: u64,
    fetched: &mut Vec<u32>,
) -> Result<(), Stop>
    requires layout { IsLayout layout.now }
    requires lines { All (IsTold (plan_of layout.now.plan.now) (grid_symbols at.now)) (lines_noted lines.now) }
    requires at { IsSmall at.now }
    requires room { length fetched.old.items ≤ room }
    ensures cells { OnOk result (fetched.new.items ≡ fetched.old.items ++ map (cell_number (plan_of layout.now.plan.now)) (lines_cells (grid_symbols at.now) (lines_noted lines.now))) }
    ensures known { OnOk result (AllCells (plan_of layout.now.plan.now) (lines_cells (grid_symbols at.now) (lines_noted lines.now))) }
    ensures few { OnOk result (length fetched.new.items ≤ room) }
    ensures unserved { result ≡ Err Unserved → ¬ AllCells (plan_of layout.now.plan.now) (lines_cells (grid_symbols at.now) (lines_noted lines.now)) }
    ensures large { result ≡ Err Large → room < length fetched.old.items + length (lines_cells (grid_symbols at.now) (lines_noted lines.now)) }
{
    for line in lines {
        fetch(alloc, layout, line, at, room, fetched)?;
    }
    Ok(())
}

/// The cells that a piece fetches, by their numbers, where all fetched points are cells and there is room for them.
///
/// The time is linear in these cells and, for each fetch line of the piece's group, in the forms of the lines `let` before it.
pub(crate) fn fetched_of(
    alloc: Global,
    layout: &Layout<'_>,
    noted: &Vec<Vec<FetchLine<'_>>>,
    piece: u32,
    room: u64,
) -> Result<Vec<u32>, Stop>
    requires layout { IsLayout layout.now }
    requires noted { AreNotedBy (plan_of layout.now.plan.now) (length layout.now.plan.now.groups.items) (map (λ v. v.items) noted.now.items) }
    requires piece { piece < length layout.now.seats.items }
    ensures list { IfOk result (λ fetched. fetched.items ≡ fetched_list (plan_of layout.now.plan.now) piece) }
    ensures known { IfOk result (λ _. FetchesCells (plan_of layout.now.plan.now) piece) }
    ensures few { IfOk result (λ fetched. length fetched.items ≤ room) }
    ensures stop { IfErr result (FetchStops (plan_of layout.now.plan.now) piece room) }
{
    let seat = &layout.seats[piece as usize];
    let lines = &noted[seat.group];
    let mut fetched = Vec::new(alloc);
    match fetch_lines(alloc, layout, lines, &seat.at, room, &mut fetched) {
        Ok(()) => {}
        Err(stop) => return Err(stop),
    }
    Ok(fetched)
}
