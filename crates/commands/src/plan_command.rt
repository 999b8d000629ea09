//! The commands that check a plan file and tell something of the plan.

ghost use Rattle.std.specs.Prelude.{◌≡◌, IfOk, IfErr, OnOk};
ghost use Rattle.algo.specs.View.{algorithm_of};
ghost use Rattle.commands.specs.Asked.{check_asked};
ghost use Rattle.commands.specs.Checks.{IsChecked, IsCheckRefused};
ghost use Rattle.commands.specs.Files.{SameFiles};
ghost use Rattle.commands.specs.Means.{IsOfFile};
ghost use Rattle.commands.specs.Pictures.{IsOfDevice, IsPlanFault};

use crate::device::Files;
use crate::picture::algorithm_file;
use crate::pipeline::{Fault, check_plan};
use crate::request::CheckRequest;
use crate::stream::flush;
use algo::Algo;
use checked_plan::Checked;
use pnm::PnmError;
use report::{cost, nests, text};
use std::alloc::Global;
use std::io::Write;
use std::str;
use std::thread::Threads;

/// Reads a plan file and has the plan checked against its algorithm.
pub(crate) fn plan_in<'a, T: Threads + Sync, F: Files>(
    rt: &T,
    alloc: Global,
    files: &mut F,
    algo: &'a Algo,
    name: &str,
) -> Result<Checked<'a>, Fault>
    ensures same { SameFiles (F.contents files.old) (F.contents files.new) }
    ensures algo { IfOk result (λ checked. checked.algo.now ≡ algo.now) }
    ensures accepted { IfOk result (IsOfFile (F.contents files.old) name.now (algorithm_of algo.now)) }
    ensures refused { IfErr result (IsPlanFault (F.contents files.old) name.now (algorithm_of algo.now)) }
{
    let bytes = files.get(alloc, name)?;
    match str::from_utf8(bytes.as_slice()) {
        Ok(file) => check_plan(rt, alloc, algo, file),
        Err(_) => Err(Fault::Image(PnmError::Device)),
    }
}

/// What is told of a plan that was accepted.
#[derive(Clone, Copy, Drop)]
pub enum Telling {
    /// How many pieces and cells it has.
    Counts,
    /// What each stored function costs.
    Costs,
    /// The loop nest of each group, and then what each stored function costs.
    Nests,
}

/// Tells how many pieces and cells a checked plan has.
fn tell_counts<W: Write>(out: &mut W, checked: &Checked<'_>) -> Result<(), Fault>
    ensures { IfErr result IsOfDevice }
{
    match writeln!(
        out,
        "accepted {} pieces {} cells",
        checked.pieces(),
        checked.cells()
    ) {
        Ok(()) => flush(out),
        Err(_) => Err(Fault::Image(PnmError::Device)),
    }
}

/// What each stored function of a checked plan costs, as lines.
///
/// # Errors
/// `Memory` where memory runs out.
pub fn costs_told(alloc: Global, checked: &Checked<'_>) -> Result<String, Fault>
    ensures { IfErr result IsOfDevice }
{
    let costs = cost(alloc, checked)?;
    Ok(text(alloc, &costs)?)
}

/// Tells what each stored function of a checked plan costs.
fn tell_costs<W: Write>(alloc: Global, out: &mut W, checked: &Checked<'_>) -> Result<(), Fault>
    ensures { IfErr result IsOfDevice }
{
    let table = costs_told(alloc, checked)?;
    match write!(out, "{table}") {
        Ok(()) => flush(out),
        Err(_) => Err(Fault::Image(PnmError::Device)),
    }
}

/// Tells the loop nest of each group of a checked plan, and then what each stored function costs.
fn tell_nests<W: Write>(alloc: Global, out: &mut W, checked: &Checked<'_>) -> Result<(), Fault>
    ensures { IfErr result IsOfDevice }
{
    let table = costs_told(alloc, checked)?;
    let told = nests::text(alloc, checked)?;
    match write!(out, "{told}\n{table}") {
        Ok(()) => flush(out),
        Err(_) => Err(Fault::Image(PnmError::Device)),
    }
}

fn tell<W: Write>(
    alloc: Global,
    out: &mut W,
    checked: &Checked<'_>,
    telling: Telling,
) -> Result<(), Fault>
    ensures { IfErr result IsOfDevice }
{
    match telling {
        Telling::Counts => tell_counts(out, checked),
        Telling::Costs => tell_costs(alloc, out, checked),
        Telling::Nests => tell_nests(alloc, out, checked),
    }
}

/// Checks the plan of a file against an algorithm, and tells how many pieces and cells it has, or what it costs, or its loop
/// nests.
///
/// # Errors
/// The first refusal: of the algorithm's text, then of the plan file; a text that is not UTF-8 is one of the device.
pub fn plan_command<T: Threads + Sync, F: Files, W: Write>(
    rt: &T,
    alloc: Global,
    files: &mut F,
    out: &mut W,
    request: &CheckRequest<'_>,
    telling: Telling,
) -> Result<(), Fault>
    ensures same { SameFiles (F.contents files.old) (F.contents files.new) }
    ensures done { OnOk result (IsChecked (F.contents files.old) (check_asked request.now)) }
    ensures refused { IfErr result (IsCheckRefused (F.contents files.old) (check_asked request.now)) }
{
    let algo = algorithm_file(alloc, files, request.algorithm)?;
    let checked = plan_in(rt, alloc, files, &algo, request.plan)?;
    tell(alloc, out, &checked, telling)
}
