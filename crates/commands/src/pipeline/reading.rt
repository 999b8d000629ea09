//! An algorithm's text and an image file, read.

ghost use Rattle.std.specs.Prelude.{◌≡◌, ◌⊎◌, true, false, Ok, IfErr, IfOk, IsErrOf};
ghost use Rattle.algo.specs.Parts.{input_frame};
ghost use Rattle.algo.specs.Refusal.{IsAlgorithmText};
ghost use Rattle.algo.specs.View.{algorithm_of, samples_of, IsFor};
ghost use Rattle.pnm.specs.declared.error.PnmError.TheVariants.{Device};
ghost use Rattle.pnm.specs.Reading.{reading, wanted_of};
ghost use Rattle.commands.specs.Pictures.{IsImageFault};
ghost use Rattle.pnm.specs.Source.{IsEndless, ReadsFile};
ghost use Rattle.commands.specs.declared.pipeline.fault.Fault.{Fault as FaultOf};
ghost use Rattle.commands.specs.Pipeline.Texts.{IsImageRefused, IsTextRefused};

use crate::pipeline::fault::Fault;
use crate::pipeline::laws::read_images_fit;
use algo::{Algo, Inputs};
use pnm::{Source, read_from, read_whole};
use std::alloc::Global;

/// Reads an algorithm's text.
///
/// # Errors
/// `Algo` where the text is none, and `Memory` where memory runs out.
pub fn read_algorithm(alloc: Global, text: &str) -> Result<Algo, Fault>
    ensures said { IfOk result (λ algo. IsAlgorithmText text.now (algorithm_of algo)) }
    ensures refused { IfErr result (IsTextRefused text.now) }
{
    Ok(Algo::read(alloc, text)?)
}

/// Reads an image from a source as the input of an algorithm.
pub(crate) fn inputs_from<S: Source>(
    alloc: Global,
    algo: &Algo,
    source: &mut S,
) -> Result<Inputs, Fault>
    requires { S.has_failed source.old ≡ false }
    ensures fits { IfOk result (λ inputs. IsFor algo.now inputs) }
    ensures file { IfOk result (λ inputs. ReadsFile (wanted_of (input_frame (algorithm_of algo.now))) (S.remaining source.old) (S.remaining source.new) (samples_of inputs)) }
    ensures refused { IfErr result (IsImageRefused (input_frame (algorithm_of algo.now)) (S.remaining source.old) (S.remaining source.new)) }
    ensures failed { S.has_failed source.new ≡ true → IsErrOf result (FaultOf.Image Device) }
    ensures device { IsErrOf result (FaultOf.Image Device) → (S.has_failed source.new ≡ true) ⊎ IsEndless (S.remaining source.old) (S.remaining source.new) }
    ensures same { S.identity source.new ≡ S.identity source.old }
{
    read_images_fit();
    let image = read_from(alloc, source, &algo.input().shape)?;
    match Inputs::new(algo, image) {
        Ok(inputs) => Ok(inputs),
        Err(_) => unreachable!(),
    }
}

/// Reads all the bytes of an image file as the input of an algorithm, which keeps their memory where it can.
///
/// # Errors
/// `Image` with the file's first fault, and `Memory` where memory runs out.
pub fn read_image(alloc: Global, algo: &Algo, bytes: Vec<u8>) -> Result<Inputs, Fault>
    ensures fits { IfOk result (λ inputs. IsFor algo.now inputs) }
    ensures read { IfOk result (λ inputs. reading (wanted_of (input_frame (algorithm_of algo.now))) bytes.items ≡ Ok (samples_of inputs)) }
    ensures refused { IfErr result (IsImageFault (input_frame (algorithm_of algo.now)) bytes.items) }
{
    read_images_fit();
    let image = read_whole(alloc, bytes, &algo.input().shape)?;
    match Inputs::new(algo, image) {
        Ok(inputs) => Ok(inputs),
        Err(_) => unreachable!(),
    }
}
