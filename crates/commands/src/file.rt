//! Image files in memory that is taken before the picture is computed.

ghost use Rattle.std.specs.Prelude.{◌≡◌, ◌≤◌, [], IfOk, length, vec_capacity};
ghost use Rattle.algo.specs.Parts.{output_frame};
ghost use Rattle.algo.specs.View.{algorithm_of, memory_of};
ghost use Rattle.meaning.specs.Image.View.{image_of, shape_of, IsShape};
ghost use Rattle.pnm.specs.Text.{text_of};
ghost use Rattle.commands.specs.Rooms.{sample_length, HasRoom, HasRoomFor, SufficesFor};

use crate::reserved::Reserved;
use algo::{Algo, Inputs};
use meaning::image::{Image, Shape, Ty};
use std::alloc::{AllocError, Global};

// The magic, the width, the height and the greatest sample of an image file take no more bytes, with what stands behind each.
const HEADER_BYTES: usize = 32;

/// How many bytes a sample takes in an image file.
fn sample_bytes(ty: Ty) -> usize
    ensures { result ≡ sample_length ty }
{
    match ty {
        Ty::U8 => 1,
        _ => 2,
    }
}

/// How many bytes the image file of such a shape takes at most.
fn most_bytes(shape: &Shape) -> usize
    requires { IsShape (shape_of shape.now) }
    ensures { SufficesFor (shape_of shape.now) result }
{
    HEADER_BYTES + shape.sample_count() * sample_bytes(shape.ty)
}

/// An image file without bytes, for an algorithm's picture of an input: with the memory for all its bytes, or without any where the
/// memory of the input's samples suffices.
///
/// # Errors
/// `AllocError` where memory runs out.
#[tactic(auto, using(crate::proofs::Rooms::room_there, crate::proofs::Rooms::room_taken))]
pub(crate) fn room_for(alloc: Global, algo: &Algo, inputs: &Inputs) -> Result<Vec<u8>, AllocError>
    ensures none { IfOk result (λ file. file.items ≡ []) }
    ensures room { IfOk result (λ file. HasRoom (output_frame (algorithm_of algo.now)) (vec_capacity file) (memory_of inputs.now)) }
{
    let most = most_bytes(&algo.output().shape);
    let beside = if most <= inputs.memory() { 0 } else { most };
    Vec::with_capacity(alloc, beside)
}

/// The larger memory, that of a list without bytes or that of an input's samples, as a list without bytes.
fn larger(alloc: Global, file: Vec<u8>, inputs: Inputs) -> Vec<u8>
    requires { file.items ≡ [] }
    ensures none { result.items ≡ [] }
    ensures file { vec_capacity file ≤ vec_capacity result }
    ensures input { memory_of inputs ≤ vec_capacity result }
{
    if file.capacity() < inputs.memory() {
        inputs.into_memory(alloc)
    } else {
        file
    }
}

/// The image file of a picture of an input, in the larger of two memories that were taken before: that of a list without bytes, and
/// that of the input's samples, which are needed no more. It takes none, and nothing is refused.
pub fn file_in(alloc: Global, file: Vec<u8>, inputs: Inputs, image: &Image) -> Vec<u8>
    requires none { file.items ≡ [] }
    requires room { HasRoomFor (image_of image.now) (vec_capacity file) (memory_of inputs) }
    ensures { result.items ≡ text_of (image_of image.now) }
{
    file_of(larger(alloc, file, inputs), image)
}

/// The image file of a picture, in memory that was taken before. It takes none, and nothing is refused.
fn file_of(file: Vec<u8>, image: &Image) -> Vec<u8>
    requires none { file.items ≡ [] }
    requires room { length (text_of (image_of image.now)) ≤ vec_capacity file }
    ensures { result.items ≡ text_of (image_of image.now) }
{
    let mut reserved = Reserved {
        room: file.capacity(),
        bytes: file,
        failed: false,
    };
    let Ok(()) = pnm::write_to(&mut reserved, image) else {
        unreachable!()
    };
    let Reserved {
        bytes,
        room: _,
        failed: _,
    } = reserved;
    bytes
}
