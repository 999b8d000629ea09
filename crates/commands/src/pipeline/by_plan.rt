//! From an algorithm's text, a plan file and an image file to the picture, by that plan and one worker.

ghost use Rattle.std.specs.Prelude.{◌≡◌, ◌⊎◌, true, false, IfErr, IfOk, IsErrOf, OnOk};
ghost use Rattle.algo.specs.View.{algorithm_of, picture_said, samples_of, IsFor};
ghost use Rattle.checked_plan.specs.View.{algorithm_checked};
ghost use Rattle.crew.specs.Opening.Layouts.{layout_of, values_of};
ghost use Rattle.meaning.specs.Image.View.{image_of};
ghost use Rattle.pnm.specs.declared.error.PnmError.TheVariants.{Device};
ghost use Rattle.pnm.specs.Source.{IsEndless};
ghost use Rattle.commands.specs.declared.pipeline.fault.Fault.{Fault as FaultOf};
ghost use Rattle.commands.specs.declared.pipeline.fault.Fault.TheVariants.{Memory};
ghost use Rattle.commands.specs.Pipeline.Pictures.{IsDone, IsDoneByFile, IsDoneByPlan, IsRefused, IsRefusedByFile, IsRefusedByPlan};
ghost use Rattle.commands.specs.Pipeline.PlanFiles.{IsAccepted, IsFileRefused};

use crate::heap::keep_large_blocks;
use crate::pipeline::fault::Fault;
use crate::pipeline::reading::{inputs_from, read_algorithm};
use algo::{Algo, Inputs};
use audit::check;
use checked_plan::Checked;
use checked_plan::output::PlanCells;
use crew::{Gate, PreparedAlone, Run, Unwatched};
use meaning::image::Image;
use pnm::{Sink, Source, Watched, write_to};
use std::alloc::{AllocError, Global};
use std::io::{Read, Write};
use std::marker::Brand;
use std::thread::Threads;

/// Reads a plan file and has the plan checked against its algorithm. From here on the C library keeps large blocks that come
/// back, for the lists of the check and of what is done with the plan.
///
/// # Errors
/// `Form` and `Limit` with the first line that is not as it is written for any plan; `Plan` with the code and the line of
/// what the checker refuses; `Memory` where memory runs out.
pub fn check_plan<'a, T: Threads + Sync>(
    rt: &T,
    alloc: Global,
    algo: &'a Algo,
    file: &str,
) -> Result<Checked<'a>, Fault>
    ensures checked { IfOk result (λ checked. checked.algo.now ≡ algo.now) }
    ensures accepted { IfOk result (λ checked. IsAccepted (algorithm_of algo.now) file.now checked.plan checked.cert) }
    ensures refused { IfErr result (IsFileRefused (algorithm_of algo.now) file.now) }
{
    keep_large_blocks(alloc);
    let (plan, cert) = cert::file::read(alloc, file)?;
    Ok(check(rt, alloc, algo, plan, cert)?)
}

/// The picture, on a board for this checked plan and this input.
pub(crate) fn picture_on<J: Run, G: Gate>(
    alloc: Global,
    checked: &Checked<'_>,
    inputs: &Inputs,
    gate: &G,
) -> Result<Image, AllocError>
    requires layout { J.layout ≡ layout_of checked.now }
    requires values { J.values ≡ values_of checked.now inputs.now }
    requires input { IsFor checked.now.algo.now inputs.now }
    ensures { IfOk result (λ image. image_of image ≡ picture_said (algorithm_checked checked.now) (samples_of inputs.now)) }
{
    let cells = PlanCells::of(alloc, checked)?;
    let run = PreparedAlone::<J>::new(alloc, checked, inputs, &cells)?;
    Ok(run.picture(alloc, gate))
}

/// The picture that the algorithm says of an input, computed by the pieces of a checked plan, one after another. The gate hears
/// of each piece. All memory is taken before the first piece.
///
/// # Errors
/// `Memory` where memory runs out.
pub fn plan_picture<G: Gate>(
    alloc: Global,
    checked: &Checked<'_>,
    inputs: &Inputs,
    gate: &G,
) -> Result<Image, Fault>
    requires { IsFor checked.now.algo.now inputs.now }
    ensures picture { IfOk result (λ image. image_of image ≡ picture_said (algorithm_checked checked.now) (samples_of inputs.now)) }
    ensures refused { IfErr result (λ fault. fault ≡ Memory) }
{
    Ok(picture_on::<Brand, G>(alloc, checked, inputs, gate)?)
}

/// Reads the image, and writes the picture that is computed by a checked plan.
fn run_checked<S: Source, K: Sink>(
    alloc: Global,
    checked: &Checked<'_>,
    source: &mut S,
    sink: &mut K,
) -> Result<(), Fault>
    requires source { S.has_failed source.old ≡ false }
    requires sink { K.has_failed sink.old ≡ false }
    ensures done { OnOk result (IsDoneByPlan (algorithm_checked checked.now)
        (S.remaining source.old) (S.remaining source.new) (K.contents sink.old) (K.contents sink.new)) }
    ensures refused { IfErr result (IsRefusedByPlan (algorithm_checked checked.now)
        (S.remaining source.old) (S.remaining source.new) (K.contents sink.old) (K.contents sink.new)) }
    ensures failed { (S.has_failed source.new ≡ true) ⊎ (K.has_failed sink.new ≡ true) → IsErrOf result (FaultOf.Image Device) }
    ensures device { IsErrOf result (FaultOf.Image Device)
        → ((S.has_failed source.new ≡ true) ⊎ (K.has_failed sink.new ≡ true)) ⊎ IsEndless (S.remaining source.old) (S.remaining source.new) }
    ensures same_source { S.identity source.new ≡ S.identity source.old }
    ensures same_sink { K.identity sink.new ≡ K.identity sink.old }
{
    let inputs = inputs_from(alloc, checked.algo(), source)?;
    let image = plan_picture(alloc, checked, &inputs, &Unwatched)?;
    Ok(write_to(sink, &image)?)
}

/// Reads the plan file and has the plan checked, and does so by it.
fn run_file<T: Threads + Sync, S: Source, K: Sink>(
    rt: &T,
    alloc: Global,
    algo: &Algo,
    file: &str,
    source: &mut S,
    sink: &mut K,
) -> Result<(), Fault>
    requires source { S.has_failed source.old ≡ false }
    requires sink { K.has_failed sink.old ≡ false }
    ensures done { OnOk result (IsDoneByFile (algorithm_of algo.now) file.now
        (S.remaining source.old) (S.remaining source.new) (K.contents sink.old) (K.contents sink.new)) }
    ensures refused { IfErr result (IsRefusedByFile (algorithm_of algo.now) file.now
        (S.remaining source.old) (S.remaining source.new) (K.contents sink.old) (K.contents sink.new)) }
    ensures failed { (S.has_failed source.new ≡ true) ⊎ (K.has_failed sink.new ≡ true) → IsErrOf result (FaultOf.Image Device) }
    ensures device { IsErrOf result (FaultOf.Image Device)
        → ((S.has_failed source.new ≡ true) ⊎ (K.has_failed sink.new ≡ true)) ⊎ IsEndless (S.remaining source.old) (S.remaining source.new) }
    ensures same_source { S.identity source.new ≡ S.identity source.old }
    ensures same_sink { K.identity sink.new ≡ K.identity sink.old }
{
    let checked = check_plan(rt, alloc, algo, file)?;
    run_checked(alloc, &checked, source, sink)
}

/// Does what `run_over` does, between a source and a sink that tell whether they have failed: `Image(Device)` is answered
/// exactly where one of them has, but for a source that never ends.
///
/// # Errors
/// The first refusal in this order: of the text, of the plan file, of the image, and of the writer. Nothing is written
/// before all else has succeeded, and writing takes no memory.
pub fn run_between<T: Threads + Sync, S: Source, K: Sink>(
    rt: &T,
    alloc: Global,
    text: &str,
    file: &str,
    source: &mut S,
    sink: &mut K,
) -> Result<(), Fault>
    requires source { S.has_failed source.old ≡ false }
    requires sink { K.has_failed sink.old ≡ false }
    ensures done { OnOk result (IsDone text.now file.now (S.remaining source.old) (S.remaining source.new) (K.contents sink.old) (K.contents sink.new)) }
    ensures refused { IfErr result (IsRefused text.now file.now (S.remaining source.old) (S.remaining source.new) (K.contents sink.old) (K.contents sink.new)) }
    ensures failed { (S.has_failed source.new ≡ true) ⊎ (K.has_failed sink.new ≡ true) → IsErrOf result (FaultOf.Image Device) }
    ensures device { IsErrOf result (FaultOf.Image Device) → ((S.has_failed source.new ≡ true) ⊎ (K.has_failed sink.new ≡ true)) ⊎ IsEndless (S.remaining source.old) (S.remaining source.new) }
    ensures same_source { S.identity source.new ≡ S.identity source.old }
    ensures same_sink { K.identity sink.new ≡ K.identity sink.old }
{
    let algo = read_algorithm(alloc, text)?;
    run_file(rt, alloc, &algo, file, source, sink)
}

/// Reads the algorithm and the plan file, has the plan checked, reads the image, computes the pieces one after another, and
/// writes the picture. One worker computes.
///
/// # Errors
/// The first refusal in this order: of the text, of the plan file, of the image, and of the writer. Nothing is written
/// before all else has succeeded, and writing takes no memory.
pub fn run_over<T: Threads + Sync, R: Read, W: Write>(
    rt: &T,
    alloc: Global,
    text: &str,
    file: &str,
    input: &mut R,
    output: &mut W,
) -> Result<(), Fault>
    ensures done { OnOk result (IsDone text.now file.now (R.remaining input.old) (R.remaining input.new) (W.contents output.old) (W.contents output.new)) }
    ensures refused { IfErr result (IsRefused text.now file.now (R.remaining input.old) (R.remaining input.new) (W.contents output.old) (W.contents output.new)) }
{
    let mut source = Watched {
        device: input,
        failed: false,
    };
    let mut sink = Watched {
        device: output,
        failed: false,
    };
    let result = run_between(rt, alloc, text, file, &mut source, &mut sink);
    let Watched {
        device: reader,
        failed: _,
    } = source;
    let Watched {
        device: writer,
        failed: _,
    } = sink;
    // The proof reads here what the reader has left and what the writer holds.
    let _ = &*reader;
    let _ = &*writer;
    result
}
