//! An image as the input of an algorithm.

ghost use Rattle.meaning.specs.Image.View.{image_of};
ghost use Rattle.algo.specs.Frames.{IsWhole, IsWhole-prop};

use crate::algorithm::Algo;
use meaning::image::{Image, Samples};
use std::alloc::Global;
use thiserror::Error;

/// Why an image is no input of an algorithm.
#[derive(Clone, Copy, Debug, Error)]
pub enum InputsError {
    /// Type, extents, or the samples' number or range are not the algorithm's.
    #[error("G3")]
    OtherImage,
}

/// The input of an algorithm: an image that has the shape which the algorithm states.
#[derive(Drop)]
pub struct Inputs {
    pub(crate) image: Image,
    pub ghost whole: { IsWhole (image_of image) } by { IsWhole-prop (image_of image) },
}

impl Inputs {
    ghost use Rattle.std.specs.Prelude.{◌≡◌, ◌↔◌, ◌≤◌, [], MatchResult, IsTrue, vec_capacity};
    ghost use Rattle.numeric.specs.declared.ty.Ty.{Ty};
    ghost use Rattle.meaning.specs.Image.View.{HasShape};
    ghost use Rattle.algo.specs.Parts.{input_frame};
    ghost use Rattle.algo.specs.View.{algorithm_of, memory_of, picture_of, IsFor};

    /// Takes an image as the algorithm's input, where it has the type and the extents that the algorithm states,
    /// and as many samples as these make, each within the type. Any other image comes back.
    pub fn new(algo: &Algo, image: Image) -> Result<Inputs, (Image, InputsError)>
        ensures { MatchResult result
            (λ inputs. IsFor algo.now inputs × (picture_of inputs ≡ image_of image))
            (λ refused. (refused.0 ≡ image) × ¬ HasShape (input_frame (algorithm_of algo.now)) (image_of image)) }
    {
        if image.has_shape(&algo.input().shape) {
            Ok(Inputs { image })
        } else {
            Err((image, InputsError::OtherImage))
        }
    }

    /// The image, which has the shape that it states.
    pub fn image(&self) -> &Image
        ensures image { image_of result.now ≡ picture_of self.now }
        ensures whole { IsWhole (picture_of self.now) }
    {
        &self.image
    }

    /// How many bytes the memory of the samples holds, where they are kept in one byte each; else none.
    pub fn memory(&self) -> usize
        ensures { result ≡ memory_of self.now }
    {
        match &self.image.samples {
            Samples::Bytes(bytes) => bytes.capacity(),
            Samples::Words(_) => 0,
        }
    }

    /// The memory of the samples, where they are kept in one byte each, as a list without bytes; else such a list without memory.
    pub fn into_memory(self, alloc: Global) -> Vec<u8>
        ensures none { result.items ≡ [] }
        ensures room { memory_of self ≤ vec_capacity result }
    {
        let Inputs { image } = self;
        let Image { samples, .. } = image;
        match samples {
            Samples::Bytes(mut bytes) => {
                bytes.clear();
                bytes
            }
            Samples::Words(_) => Vec::new(alloc),
        }
    }

    /// Whether the image is one for this algorithm.
    pub fn is_for(&self, algo: &Algo) -> bool
        ensures { IsTrue result ↔ IsFor algo.now self.now }
    {
        self.image.has_shape(&algo.input().shape)
    }
}
