//! Reading a file whose bytes are all in memory.

ghost use Rattle.std.specs.Prelude.{◌≡◌, ◌≤◌, ◌-◌, [], ℕ, List, Option, Some, Ok, IfErr, IfOk, IfSome, drop, length, take};
ghost use Rattle.meaning.specs.Image.View.{numbers, shape_of, IsShape};
ghost use Rattle.pnm.specs.Reading.{in_raster, reading, walk, wanted_of, Going};
ghost use Rattle.pnm.specs.Source.{Refuses};

use crate::error::PnmError;
use crate::header::wanted;
use crate::reader::{bytes_to_come, read};
use crate::state::{State, Step, Wanted};
use crate::stepping::step;
use meaning::image::{Image, Samples, Shape};
use std::alloc::Global;

/// Where a raw raster begins in which each byte is a sample, if it ends with the file.
fn raster_at(bytes: &[u8], wanted: &Wanted) -> Option<usize>
    ensures { IfSome result (λ at. (at ≤ length bytes.now) × (reading wanted.now bytes.now ≡ Ok (drop at bytes.now))) }
{
    let mut state = State::Start;
    for at in 0..bytes.len() {
        if let Some(left) = bytes_to_come(&[], state) {
            return if left == bytes.len() - at {
                Some(at)
            } else {
                None
            };
        }
        match step(wanted, state, bytes[at]) {
            Step::Next(next) => state = next,
            Step::Sample(..) | Step::Fault(_) => return None,
        }
    }
    None
}

/// The bytes from a place on, in the memory of all.
fn from_place(mut bytes: Vec<u8>, at: usize) -> Vec<u8>
    requires { at ≤ length bytes.items }
    ensures { result.items ≡ drop at bytes.items }
{
    let left = bytes.len() - at;
    bytes.rotate_left(at);
    bytes.truncate(left);
    bytes
}

/// Reads an image of the wanted shape from all the bytes of its file. Where they end in a raw raster in which each byte is a
/// sample, the image keeps their memory, and takes none but for its extents; else the file is read as `read` does.
pub fn read_whole(alloc: Global, bytes: Vec<u8>, shape: &Shape) -> Result<Image, PnmError>
    requires { IsShape (shape_of shape.now) }
    ensures file { IfOk result (λ image. reading (wanted_of (shape_of shape.now)) bytes.items ≡ Ok (numbers image.samples)) }
    ensures like { IfOk result (λ image. (image.ty ≡ shape.now.ty) × (image.extents.items ≡ shape.now.extents.items)) }
    ensures refusal { IfErr result (λ e. (rest : Option (List ℕ)) × Refuses (wanted_of (shape_of shape.now)) (Some bytes.items) rest e) }
{
    let Some(at) = raster_at(bytes.as_slice(), &wanted(shape)) else {
        let mut rest = bytes.as_slice();
        return read(alloc, &mut rest, shape);
    };
    match shape.extents.as_slice().to_vec(alloc) {
        Ok(extents) => Ok(Image {
            ty: shape.ty,
            extents,
            samples: Samples::Bytes(from_place(bytes, at)),
        }),
        Err(_) => Err(PnmError::Memory),
    }
}
