//! The command that compares the pictures of schedules with the plain one.

ghost use Rattle.std.specs.Prelude.{◌≡◌, ◌⊎◌, ◌^◌, All, IfErr, IfOk, OnOk, false, map};
ghost use Rattle.algo.specs.View.{algorithm_of, picture_said, samples_of, IsFor};
ghost use Rattle.meaning.specs.Image.View.{image_of};
ghost use Rattle.commands.specs.declared.comparing.Comparison.{Comparison};
ghost use Rattle.commands.specs.Asked.{compare_asked};
ghost use Rattle.stencil.specs.Compares.{IsCompared, IsComparedBy, IsCompareRefused, IsCompareRefusedBy, IsLegalFile, IsRefusedAmong, IsUnplanned};
ghost use Rattle.commands.specs.Files.{SameFiles};
ghost use Rattle.commands.specs.Pipeline.Pictures.{IsBudgetSpent};

use crate::compiling::compile_checked;
use crate::schedule_command::schedule_in;
use algo::{Algo, Inputs};
use checked_plan::Checked;
use commands::comparing::{Baseline, Comparison, compare_checked, first_of};
use commands::pipeline::{BUDGET, Fault, plain_picture};
use commands::{CompareRequest, Files, algorithm_file, image_file};
use meaning::image::Image;
use std::alloc::Global;
use std::io::Write;
use std::thread::Threads;

/// The checked plan of the schedule of a file.
fn checked_in<'a, T: Threads + Sync, F: Files>(
    rt: &T,
    alloc: Global,
    files: &mut F,
    algo: &'a Algo,
    name: &str,
) -> Result<Checked<'a>, Fault>
    ensures same { SameFiles (F.contents files.old) (F.contents files.new) }
    ensures legal { OnOk result (IsLegalFile (F.contents files.old) (algorithm_of algo.now) name.now) }
    ensures checked { IfOk result (λ checked. checked.algo.now ≡ algo.now) }
    ensures refused { IfErr result (IsUnplanned (F.contents files.old) (algorithm_of algo.now) name.now) }
{
    let sched = schedule_in(alloc, files, name)?;
    compile_checked(rt, alloc, algo, &sched)
}

/// Compiles the schedule of a file, has one worker compute the picture by its plan, and tells how it compares.
fn compare_schedule<T: Threads + Sync, F: Files, W: Write>(
    rt: &T,
    alloc: Global,
    files: &mut F,
    out: &mut W,
    baseline: &Baseline<'_>,
    name: &str,
) -> Result<Comparison, Fault>
    requires inputs { IsFor baseline.now.algo.now baseline.now.inputs.now }
    requires picture { image_of baseline.now.picture.now ≡ picture_said (algorithm_of baseline.now.algo.now) (samples_of baseline.now.inputs.now) }
    ensures same { SameFiles (F.contents files.old) (F.contents files.new) }
    ensures picture { IfOk result (λ comparison. comparison ≡ Comparison.Same) }
    ensures legal { OnOk result (IsLegalFile (F.contents files.old) (algorithm_of baseline.now.algo.now) name.now) }
    ensures refused { IfErr result (IsUnplanned (F.contents files.old) (algorithm_of baseline.now.algo.now) name.now) }
{
    let checked = checked_in(rt, alloc, files, baseline.algo, name)?;
    compare_checked(alloc, files, out, baseline, &checked, name)
}

/// Does so with each schedule in order.
fn compare_schedules<T: Threads + Sync, F: Files, W: Write>(
    rt: &T,
    alloc: Global,
    files: &mut F,
    out: &mut W,
    baseline: &Baseline<'_>,
    names: &[&str],
) -> Result<(), Fault>
    requires inputs { IsFor baseline.now.algo.now baseline.now.inputs.now }
    requires picture { image_of baseline.now.picture.now ≡ picture_said (algorithm_of baseline.now.algo.now) (samples_of baseline.now.inputs.now) }
    ensures same { SameFiles (F.contents files.old) (F.contents files.new) }
    ensures legal { OnOk result (All (IsLegalFile (F.contents files.old) (algorithm_of baseline.now.algo.now)) (map (λ name. name.now) names.now)) }
    ensures refused { IfErr result (IsRefusedAmong (F.contents files.old) (algorithm_of baseline.now.algo.now) (map (λ name. name.now) names.now)) }
{
    let mut differs = false;
    for name in names {
        let comparison = compare_schedule(rt, alloc, files, out, baseline, name)?;
        differs = differs || comparison != Comparison::Same;
    }
    if differs {
        Err(Fault::Difference)
    } else {
        Ok(())
    }
}

/// The picture of the schedule of a file, computed by one worker by its checked plan, which is told to be what others are
/// compared with.
fn first_picture<T: Threads + Sync, F: Files, W: Write>(
    rt: &T,
    alloc: Global,
    files: &mut F,
    out: &mut W,
    algo: &Algo,
    inputs: &Inputs,
    name: &str,
) -> Result<Image, Fault>
    requires inputs { IsFor algo.now inputs.now }
    ensures same { SameFiles (F.contents files.old) (F.contents files.new) }
    ensures picture { IfOk result (λ image. image_of image ≡ picture_said (algorithm_of algo.now) (samples_of inputs.now)) }
    ensures legal { OnOk result (IsLegalFile (F.contents files.old) (algorithm_of algo.now) name.now) }
    ensures refused { IfErr result (IsUnplanned (F.contents files.old) (algorithm_of algo.now) name.now) }
{
    let checked = checked_in(rt, alloc, files, algo, name)?;
    first_of(alloc, files, out, &checked, inputs, name)
}

/// Compares the pictures of all schedules but the first with the first one's.
fn compare_by_first<T: Threads + Sync, F: Files, W: Write>(
    rt: &T,
    alloc: Global,
    files: &mut F,
    out: &mut W,
    algo: &Algo,
    inputs: &Inputs,
    names: &[&str],
) -> Result<(), Fault>
    requires inputs { IsFor algo.now inputs.now }
    ensures same { SameFiles (F.contents files.old) (F.contents files.new) }
    ensures legal { OnOk result (All (IsLegalFile (F.contents files.old) (algorithm_of algo.now)) (map (λ name. name.now) names.now)) }
    ensures refused { IfErr result (IsRefusedAmong (F.contents files.old) (algorithm_of algo.now) (map (λ name. name.now) names.now)) }
{
    match names.split_first() {
        None => Ok(()),
        Some((name, rest)) => {
            let picture = first_picture(rt, alloc, files, out, algo, inputs, name)?;
            let baseline = Baseline {
                algo,
                inputs,
                picture: &picture,
            };
            compare_schedules(rt, alloc, files, out, &baseline, rest)
        }
    }
}

/// Compares the pictures of all schedules with the plain one.
fn compare_by_plain<T: Threads + Sync, F: Files, W: Write>(
    rt: &T,
    alloc: Global,
    files: &mut F,
    out: &mut W,
    algo: &Algo,
    inputs: &Inputs,
    names: &[&str],
) -> Result<(), Fault>
    requires inputs { IsFor algo.now inputs.now }
    ensures same { SameFiles (F.contents files.old) (F.contents files.new) }
    ensures legal { OnOk result (All (IsLegalFile (F.contents files.old) (algorithm_of algo.now)) (map (λ name. name.now) names.now)) }
    ensures refused { IfErr result (λ fault. IsBudgetSpent (algorithm_of algo.now) (samples_of inputs.now) (2 ^ 32) fault
        ⊎ IsRefusedAmong (F.contents files.old) (algorithm_of algo.now) (map (λ name. name.now) names.now) fault) }
{
    let picture = plain_picture(rt, alloc, algo, inputs, BUDGET)?;
    let baseline = Baseline {
        algo,
        inputs,
        picture: &picture,
    };
    compare_schedules(rt, alloc, files, out, &baseline, names)
}

/// Does so by the first schedule or by the definitions.
fn compare_by<T: Threads + Sync, F: Files, W: Write>(
    rt: &T,
    alloc: Global,
    files: &mut F,
    out: &mut W,
    algo: &Algo,
    inputs: &Inputs,
    request: &CompareRequest<'_>,
) -> Result<(), Fault>
    requires inputs { IsFor algo.now inputs.now }
    ensures same { SameFiles (F.contents files.old) (F.contents files.new) }
    ensures legal { OnOk result (All (IsLegalFile (F.contents files.old) (algorithm_of algo.now)) (compare_asked request.now).schedules) }
    ensures refused { IfErr result (λ fault. ((request.now.by_first ≡ false) × IsBudgetSpent (algorithm_of algo.now) (samples_of inputs.now) (2 ^ 32) fault)
        ⊎ IsRefusedAmong (F.contents files.old) (algorithm_of algo.now) (compare_asked request.now).schedules fault) }
{
    let names = request.schedules.as_slice();
    if request.by_first {
        compare_by_first(rt, alloc, files, out, algo, inputs, names)
    } else {
        compare_by_plain(rt, alloc, files, out, algo, inputs, names)
    }
}

/// Reads the image, and compares the pictures of all schedules of an algorithm.
fn compare_of<T: Threads + Sync, F: Files, W: Write>(
    rt: &T,
    alloc: Global,
    files: &mut F,
    out: &mut W,
    algo: &Algo,
    request: &CompareRequest<'_>,
) -> Result<(), Fault>
    ensures same { SameFiles (F.contents files.old) (F.contents files.new) }
    ensures done { OnOk result (IsComparedBy (F.contents files.old) (compare_asked request.now) (algorithm_of algo.now)) }
    ensures refused { IfErr result (IsCompareRefusedBy (F.contents files.old) (compare_asked request.now) (algorithm_of algo.now)) }
{
    let inputs = image_file(alloc, files, algo, request.input)?;
    compare_by(rt, alloc, files, out, algo, &inputs, request)
}

/// Compares the picture of each schedule, computed by one worker, with the plain picture of an image, and tells for each
/// whether it is the same, and what its plan costs.
///
/// The algorithm's file is read, then the image, and the plain picture is computed; then the schedules are taken in the order
/// given. Where it is asked for, the first schedule's picture, computed by its checked plan, stands in place of the plain
/// one: the first line says so, and no pixel is computed by the definitions. What was told before a refusal stands.
///
/// # Errors
/// The first refusal in this order; a text that is not UTF-8 is one of the device. `Difference` would be that a picture
/// differs, which is never answered: each of them is what the algorithm says.
pub(crate) fn compare_command<T: Threads + Sync, F: Files, W: Write>(
    rt: &T,
    alloc: Global,
    files: &mut F,
    out: &mut W,
    request: &CompareRequest<'_>,
) -> Result<(), Fault>
    ensures same { SameFiles (F.contents files.old) (F.contents files.new) }
    ensures done { OnOk result (IsCompared (F.contents files.old) (compare_asked request.now)) }
    ensures refused { IfErr result (IsCompareRefused (F.contents files.old) (compare_asked request.now)) }
{
    let algo = algorithm_file(alloc, files, request.algorithm)?;
    compare_of(rt, alloc, files, out, &algo, request)
}
