//! The command that replays an order of workers' steps.

ghost use Rattle.std.specs.Prelude.{◌≡◌, IfErr, IfOk, OnOk};
ghost use Rattle.checked_plan.specs.View.{algorithm_checked};
ghost use Rattle.commands.specs.Asked.{replay_asked};
ghost use Rattle.commands.specs.Draws.{IsNoOrderFile};
ghost use Rattle.commands.specs.Files.{SameFiles};
ghost use Rattle.commands.specs.Pictures.{IsOfDevice};
ghost use Rattle.commands.specs.Replays.{IsOrderFault, IsReplayed, IsReplayRefused};
ghost use Rattle.commands.specs.Order.Order.{IsOrder};
ghost use Rattle.commands.specs.Sources.{IsFileOfOrder, IsPlayable, IsUnplayed};

use crate::device::Files;
use crate::order::{OrderError, read};
use crate::picture::{algorithm_file, image_file};
use crate::pipeline::{Fault, State, replay};
use crate::plan_command::plan_in;
use crate::request::ReplayRequest;
use crate::stream::flush;
use checked_plan::Checked;
use pnm::PnmError;
use std::alloc::Global;
use std::io::{Error, Write};
use std::str;
use std::thread::Threads;

/// Reads the text of an order.
fn order_in(alloc: Global, bytes: &[u8]) -> Result<Vec<u8>, Fault>
    ensures order { IfOk result (λ order. IsOrder bytes.now order.items) }
    ensures refused { IfErr result (IsOrderFault bytes.now) }
{
    let Ok(text) = str::from_utf8(bytes) else {
        return Err(Fault::Image(PnmError::Device));
    };
    match read(alloc, text) {
        Ok(order) => Ok(order),
        Err(OrderError::Form) => Err(Fault::Order),
        Err(OrderError::Memory) => Err(Fault::Memory),
    }
}

/// Reads an order file.
pub(crate) fn order_file<F: Files>(
    alloc: Global,
    files: &mut F,
    name: &str,
) -> Result<Vec<u8>, Fault>
    ensures same { SameFiles (F.contents files.old) (F.contents files.new) }
    ensures order { IfOk result (λ order. IsFileOfOrder (F.contents files.old) name.now order.items) }
    ensures refused { IfErr result (IsNoOrderFile (F.contents files.old) name.now) }
{
    let text = files.get(alloc, name)?;
    order_in(alloc, text.as_slice())
}

fn write_counts<W: Write>(
    out: &mut W,
    entries: usize,
    checked: &Checked<'_>,
    state: &State,
) -> Result<(), Error> {
    writeln!(out, "entries {entries}")?;
    writeln!(out, "drawn {} of {}", state.drawn(), checked.pieces())?;
    writeln!(out, "finished {} of {}", state.finished(), checked.pieces())?;
    writeln!(out, "cells {} of {}", state.set(), checked.cells())
}

/// Tells how far an order of so many entries has come.
fn tell<W: Write>(
    out: &mut W,
    entries: usize,
    checked: &Checked<'_>,
    state: &State,
) -> Result<(), Fault>
    ensures { IfErr result IsOfDevice }
{
    match write_counts(out, entries, checked, state) {
        Ok(()) => flush(out),
        Err(_) => Err(Fault::Image(PnmError::Device)),
    }
}

/// Replays the order of a file on the image of a file, by a checked plan, and tells what came of it.
fn replayed<F: Files, W: Write>(
    alloc: Global,
    files: &mut F,
    out: &mut W,
    checked: &Checked<'_>,
    request: &ReplayRequest<'_>,
) -> Result<(), Fault>
    ensures same { SameFiles (F.contents files.old) (F.contents files.new) }
    ensures done { OnOk result (IsPlayable (F.contents files.old) (replay_asked request.now) (algorithm_checked checked.now)) }
    ensures refused { IfErr result (IsUnplayed (F.contents files.old) (replay_asked request.now) (algorithm_checked checked.now)) }
{
    let inputs = image_file(alloc, files, checked.algo(), request.input)?;
    let order = order_file(alloc, files, request.order)?;
    let state = replay(alloc, checked, &inputs, order.as_slice())?;
    tell(out, order.len(), checked, &state)
}

/// Checks the plan of a file against an algorithm, replays an order of workers' steps on an image, and tells how many
/// pieces were drawn and finished, and how many cells set.
///
/// # Errors
/// The first refusal: of the algorithm's text, of the plan file, of the image, and of the order; a text that is not UTF-8
/// is one of the device.
pub fn replay_command<T: Threads + Sync, F: Files, W: Write>(
    rt: &T,
    alloc: Global,
    files: &mut F,
    out: &mut W,
    request: &ReplayRequest<'_>,
) -> Result<(), Fault>
    ensures same { SameFiles (F.contents files.old) (F.contents files.new) }
    ensures done { OnOk result (IsReplayed (F.contents files.old) (replay_asked request.now)) }
    ensures refused { IfErr result (IsReplayRefused (F.contents files.old) (replay_asked request.now)) }
{
    let algo = algorithm_file(alloc, files, request.check.algorithm)?;
    let checked = plan_in(rt, alloc, files, &algo, request.check.plan)?;
    replayed(alloc, files, out, &checked, request)
}
