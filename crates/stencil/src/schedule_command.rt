//! The command that compiles a schedule to a plan file.

ghost use Rattle.std.specs.Prelude.{IfErr, IfOk, OnOk, string_bytes};
ghost use Rattle.algo.specs.View.{algorithm_of};
ghost use Rattle.sched.specs.View.{schedule_of};
ghost use Rattle.commands.specs.Asked.{compile_asked};
ghost use Rattle.stencil.specs.Compiles.{HasScheduleFile, IsDone, IsPlanOfFile, IsPlanPut, IsPlanUnput, IsRefused, IsScheduleFault, IsUncompiled};
ghost use Rattle.commands.specs.Files.{SameFiles};

use crate::compiling::{compile, read_schedule};
use algo::Algo;
use commands::pipeline::Fault;
use commands::{CompileRequest, Files, algorithm_file, put_file};
use pnm::PnmError;
use sched::Sched;
use std::alloc::Global;
use std::str;
use std::thread::Threads;

/// Reads a schedule's file.
pub(crate) fn schedule_in<F: Files>(
    alloc: Global,
    files: &mut F,
    name: &str,
) -> Result<Sched, Fault>
    ensures same { SameFiles (F.contents files.old) (F.contents files.new) }
    ensures said { IfOk result (λ sched. HasScheduleFile (F.contents files.old) name.now (schedule_of sched)) }
    ensures refused { IfErr result (IsScheduleFault (F.contents files.old) name.now) }
{
    let bytes = files.get(alloc, name)?;
    match str::from_utf8(bytes.as_slice()) {
        Ok(text) => read_schedule(alloc, text),
        Err(_) => Err(Fault::Image(PnmError::Device)),
    }
}

/// The plan file of the schedule of a file, which is checked against the algorithm.
fn compiled<T: Threads + Sync, F: Files>(
    rt: &T,
    alloc: Global,
    files: &mut F,
    algo: &Algo,
    name: &str,
) -> Result<String, Fault>
    ensures same { SameFiles (F.contents files.old) (F.contents files.new) }
    ensures compiled { IfOk result (λ file. IsPlanOfFile (F.contents files.old) (algorithm_of algo.now) name.now (string_bytes file)) }
    ensures refused { IfErr result (IsUncompiled (F.contents files.old) (algorithm_of algo.now) name.now) }
{
    let sched = schedule_in(alloc, files, name)?;
    compile(rt, alloc, algo, &sched)
}

/// Writes the plan file of the schedule that is asked for, after everything else has succeeded.
fn put_plan<T: Threads + Sync, F: Files>(
    rt: &T,
    alloc: Global,
    files: &mut F,
    algo: &Algo,
    request: &CompileRequest<'_>,
) -> Result<(), Fault>
    ensures done { OnOk result (IsPlanPut (F.contents files.old) (F.contents files.new) (compile_asked request.now) (algorithm_of algo.now)) }
    ensures refused { IfErr result (IsPlanUnput (F.contents files.old) (F.contents files.new) (compile_asked request.now) (algorithm_of algo.now)) }
{
    let file = compiled(rt, alloc, files, algo, request.schedule)?;
    put_file(files, request.plan, file.as_bytes())
}

/// Compiles a schedule to a plan file, which is checked against the algorithm and written last, after everything else has
/// succeeded.
///
/// # Errors
/// The first refusal: of the algorithm's text, of the schedule's, of the schedule for the algorithm, and of the plan by the
/// checker; a text that is not UTF-8 is one of the device.
pub(crate) fn compile_command<T: Threads + Sync, F: Files>(
    rt: &T,
    alloc: Global,
    files: &mut F,
    request: &CompileRequest<'_>,
) -> Result<(), Fault>
    ensures done { OnOk result (IsDone (F.contents files.old) (F.contents files.new) (compile_asked request.now)) }
    ensures refused { IfErr result (IsRefused (F.contents files.old) (F.contents files.new) (compile_asked request.now)) }
{
    let algo = algorithm_file(alloc, files, request.algorithm)?;
    put_plan(rt, alloc, files, &algo, request)
}
