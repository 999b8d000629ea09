//! The commands that write a picture: by the definitions of an algorithm alone, and by the plan of a file.

ghost use Rattle.std.specs.Prelude.{◌≡◌, IfOk, IfErr, OnOk};
ghost use Rattle.algo.specs.Refusal.{IsAlgorithmText};
ghost use Rattle.algo.specs.View.{algorithm_of, picture_said, samples_of, IsFor};
ghost use Rattle.plain.specs.Picture.{AllWithin};
ghost use Rattle.pnm.specs.Text.{text_of};
ghost use Rattle.commands.specs.Asked.{picture_asked, way_asked};
ghost use Rattle.commands.specs.Files.{SameFiles};
ghost use Rattle.commands.specs.Means.{AreMeans, IsAfforded, IsHalted, algo_meant, stores_checked};
ghost use Rattle.commands.specs.Pictures.{IsDone, IsRefused, IsTextFault, IsTooDear, IsUnready, IsWithin};
ghost use Rattle.commands.specs.Pipeline.Pictures.{IsBudgetSpent};
ghost use Rattle.commands.specs.Sources.{IsAlgorithmFile, IsImageFile, IsNoAlgorithmFile, IsNoImageFile, IsPictureOf, IsPicturePut, IsPictureUnput, IsUnmade};

use crate::device::{Files, put_file};
use crate::file::{file_in, room_for};
use crate::pipeline::{Fault, plain_picture, plan_file, read_algorithm, read_image};
use crate::plan_command::plan_in;
use crate::request::{PictureRequest, Way};
use algo::{Algo, Inputs};
use checked_plan::Checked;
use pnm::PnmError;
use report::stores_within;
use std::alloc::Global;
use std::str;
use std::sync::Wait;
use std::thread::Threads;

/// What a picture is computed by.
#[derive(Drop)]
enum Means<'a> {
    /// The algorithm's definitions, of which a pixel may take so many evaluations.
    Definitions {
        algo: &'a Algo,
        most: u64,
    },
    /// The plan of a file, which the checker has accepted, in the hands of so many workers.
    File {
        checked: Checked<'a>,
        workers: usize,
    },
}

/// Reads the text of an algorithm file.
pub fn algorithm_in(alloc: Global, bytes: &[u8]) -> Result<Algo, Fault>
    ensures said { IfOk result (λ algo. IsAlgorithmText bytes.now (algorithm_of algo)) }
    ensures refused { IfErr result (IsTextFault bytes.now) }
{
    match str::from_utf8(bytes) {
        Ok(text) => read_algorithm(alloc, text),
        Err(_) => Err(Fault::Image(PnmError::Device)),
    }
}

/// Reads an algorithm file.
pub fn algorithm_file<F: Files>(alloc: Global, files: &mut F, name: &str) -> Result<Algo, Fault>
    ensures same { SameFiles (F.contents files.old) (F.contents files.new) }
    ensures said { IfOk result (λ algo. IsAlgorithmFile (F.contents files.old) name.now (algorithm_of algo)) }
    ensures refused { IfErr result (IsNoAlgorithmFile (F.contents files.old) name.now) }
{
    let text = files.get(alloc, name)?;
    algorithm_in(alloc, text.as_slice())
}

/// Whether a plan makes no more stores than it may: it is counted before any piece is computed.
fn stays_within(alloc: Global, checked: &Checked<'_>, most: Option<u64>) -> Result<(), Fault>
    ensures within { OnOk result (IsWithin most (stores_checked checked.now)) }
    ensures refused { IfErr result (IsTooDear most (stores_checked checked.now)) }
{
    let Some(most) = most else {
        return Ok(());
    };
    if stores_within(alloc, checked, most)? {
        Ok(())
    } else {
        Err(Fault::Budget)
    }
}

/// What an algorithm's picture is computed by.
fn means_of<'a, T: Threads + Sync, F: Files>(
    rt: &T,
    alloc: Global,
    files: &mut F,
    way: Way<'_>,
    algo: &'a Algo,
) -> Result<Means<'a>, Fault>
    ensures same { SameFiles (F.contents files.old) (F.contents files.new) }
    ensures algo { IfOk result (λ means. algo_meant means ≡ algo.now) }
    ensures means { IfOk result (AreMeans (F.contents files.old) (way_asked way.entry) (algorithm_of algo.now)) }
    ensures refused { IfErr result (IsUnready (F.contents files.old) (way_asked way.entry) (algorithm_of algo.now)) }
{
    match way {
        Way::Plain { most } => Ok(Means::Definitions { algo, most }),
        Way::File {
            plan,
            workers,
            most,
        } => {
            let checked = plan_in(rt, alloc, files, algo, plan)?;
            stays_within(alloc, &checked, most)?;
            Ok(Means::File { checked, workers })
        }
    }
}

/// Reads an image file by its name as the input of an algorithm.
pub fn image_file<F: Files>(
    alloc: Global,
    files: &mut F,
    algo: &Algo,
    name: &str,
) -> Result<Inputs, Fault>
    ensures same { SameFiles (F.contents files.old) (F.contents files.new) }
    ensures fits { IfOk result (λ inputs. IsFor algo.now inputs) }
    ensures read { IfOk result (λ inputs. IsImageFile (F.contents files.old) name.now (algorithm_of algo.now) (samples_of inputs)) }
    ensures refused { IfErr result (IsNoImageFile (F.contents files.old) name.now (algorithm_of algo.now)) }
{
    let bytes = files.get(alloc, name)?;
    read_image(alloc, algo, bytes)
}

/// The image file of the picture that an algorithm says of an input, each pixel computed by the definitions alone. All its bytes
/// have their memory before the first pixel is computed; what a pixel's evaluations take is taken on the way.
fn plain_file<T: Threads + Sync>(
    rt: &T,
    alloc: Global,
    algo: &Algo,
    inputs: Inputs,
    most: u64,
) -> Result<Vec<u8>, Fault>
    requires { IsFor algo.now inputs }
    ensures within { OnOk result (AllWithin (algorithm_of algo.now) (samples_of inputs) most) }
    ensures written { IfOk result (λ file. file.items ≡ text_of (picture_said (algorithm_of algo.now) (samples_of inputs))) }
    ensures refused { IfErr result (IsBudgetSpent (algorithm_of algo.now) (samples_of inputs) most) }
{
    let file = room_for(alloc, algo, &inputs)?;
    let image = plain_picture(rt, alloc, algo, &inputs, most)?;
    Ok(file_in(alloc, file, inputs, &image))
}

/// The image file of the picture.
fn picture_file<T: Threads + Wait + Sync, F: Files>(
    rt: &T,
    alloc: Global,
    files: &F,
    means: &Means<'_>,
    inputs: Inputs,
) -> Result<Vec<u8>, Fault>
    requires { IsFor (algo_meant means.now) inputs }
    ensures afforded { OnOk result (IsAfforded means.now (samples_of inputs)) }
    ensures written { IfOk result (λ file. file.items ≡ text_of (picture_said (algorithm_of (algo_meant means.now)) (samples_of inputs))) }
    ensures refused { IfErr result (IsHalted means.now (samples_of inputs)) }
{
    match means {
        Means::Definitions { algo, most } => plain_file(rt, alloc, algo, inputs, *most),
        Means::File { checked, workers } => {
            let watch = files.watch(checked.pieces());
            plan_file(rt, alloc, checked, inputs, *workers, &watch)
        }
    }
}

/// The image file of the picture that an algorithm says of the image that is asked for, computed as is asked.
fn picture_of<T: Threads + Wait + Sync, F: Files>(
    rt: &T,
    alloc: Global,
    files: &mut F,
    algo: &Algo,
    request: &PictureRequest<'_>,
) -> Result<Vec<u8>, Fault>
    ensures same { SameFiles (F.contents files.old) (F.contents files.new) }
    ensures made { IfOk result (λ file. IsPictureOf (F.contents files.old) (picture_asked request.now) (algorithm_of algo.now) file.items) }
    ensures refused { IfErr result (IsUnmade (F.contents files.old) (picture_asked request.now) (algorithm_of algo.now)) }
{
    let means = means_of(rt, alloc, files, request.way, algo)?;
    let inputs = image_file(alloc, files, algo, request.input)?;
    picture_file(rt, alloc, files, &means, inputs)
}

/// Writes this picture, after everything else has succeeded.
fn put_picture<T: Threads + Wait + Sync, F: Files>(
    rt: &T,
    alloc: Global,
    files: &mut F,
    algo: &Algo,
    request: &PictureRequest<'_>,
) -> Result<(), Fault>
    ensures done { OnOk result (IsPicturePut (F.contents files.old) (F.contents files.new) (picture_asked request.now) (algorithm_of algo.now)) }
    ensures refused { IfErr result (IsPictureUnput (F.contents files.old) (F.contents files.new) (picture_asked request.now) (algorithm_of algo.now)) }
{
    let file = picture_of(rt, alloc, files, algo, request)?;
    put_file(files, request.output, file.as_slice())
}

/// Writes the picture that an algorithm says of an image: by its definitions alone, in as many threads as serve; or by the
/// plan of a file, which is checked and computed by the workers that are asked for.
///
/// The algorithm's file is read, its text and its plan are checked, the plan's stores are counted where they are bounded, the
/// image is read, and the picture is written last, after everything else has succeeded.
///
/// # Errors
/// The first refusal in this order; a text that is not UTF-8 is one of the device.
pub fn picture_command<T: Threads + Wait + Sync, F: Files>(
    rt: &T,
    alloc: Global,
    files: &mut F,
    request: &PictureRequest<'_>,
) -> Result<(), Fault>
    ensures done { OnOk result (IsDone (F.contents files.old) (F.contents files.new) (picture_asked request.now)) }
    ensures refused { IfErr result (IsRefused (F.contents files.old) (F.contents files.new) (picture_asked request.now)) }
{
    let algo = algorithm_file(alloc, files, request.algorithm)?;
    put_picture(rt, alloc, files, &algo, request)
}
