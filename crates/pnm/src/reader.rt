//! Reading a file.

ghost use Rattle.std.specs.Prelude.{◌≡◌, ◌⊎◌, ◌↔◌, ◌<◌, ◌≤◌, ◌+◌, ◌++◌, [], ℕ, List, Option, true, false, fold, length, Ok, Err, MatchResult, IsErrOf, IfOk, IfErr, IfSome, OnErr, OnOk, vec_capacity};
ghost use Rattle.std.specs.Io.KnownBytes.{Consumes, Keeps};
ghost use Rattle.meaning.specs.Image.View.{image_of, numbers, shape_of, IsShape};
ghost use Rattle.pnm.specs.declared.state.Wanted.{Wanted as WantedImage};
ghost use Rattle.pnm.specs.Reading.{step, finish, in_raster, onward, taken, walk, with_last, Going, Stopped, wanted_of};
ghost use Rattle.pnm.specs.Source.{EndsPart, LeadsOn, ReadsFile, Refuses, IsEndless};

use crate::error::PnmError;
use crate::header::wanted;
use crate::state::{State, Step, Wanted};
use crate::stepping::{finish, step};
use crate::watched::{Source, Watched};
use meaning::image::{Image, Samples, Shape};
use std::alloc::Global;
use std::io::Read;

// Takes the next byte, and with it a sample that ends there.
fn take_byte(
    samples: &mut Vec<u16>,
    wanted: &Wanted,
    state: State,
    byte: u8,
) -> Result<State, PnmError>
    ensures { MatchResult result
        (λ next. taken (step wanted.now state byte) samples.old.items ≡ Going next samples.new.items)
        (λ e. (e ≡ PnmError.Memory) ⊎ (taken (step wanted.now state byte) samples.old.items ≡ Stopped e)) }
{
    match step(wanted, state, byte) {
        Step::Next(next) => Ok(next),
        Step::Sample(sample, next) => match samples.push(sample) {
            Ok(()) => Ok(next),
            Err(_) => Err(PnmError::Memory),
        },
        Step::Fault(fault) => Err(fault),
    }
}

// Takes the end of the file, and with it a sample that ends there.
fn take_end(samples: &mut Vec<u16>, state: State) -> Result<(), PnmError>
    ensures { MatchResult result
        (λ _. with_last samples.old.items (finish state) ≡ Ok samples.new.items)
        (λ e. (e ≡ PnmError.Memory) ⊎ (with_last samples.old.items (finish state) ≡ Err e)) }
{
    match finish(state) {
        Ok(None) => Ok(()),
        Ok(Some(sample)) => match samples.push(sample) {
            Ok(()) => Ok(()),
            Err(_) => Err(PnmError::Memory),
        },
        Err(fault) => Err(fault),
    }
}

/// How many samples are to come, where none was read before and the next byte is one of a raw raster in which each byte is a sample.
pub(crate) fn bytes_to_come(samples: &[u16], state: State) -> Option<usize>
    ensures { IfSome result (λ count. (state ≡ in_raster count) × (samples.now ≡ [])) }
{
    match state {
        State::First { max: 255, left } if left > 0 && samples.is_empty() => Some(left),
        _ => None,
    }
}

/// Takes bytes of a raw raster in which each is a sample, where so many samples are still to come and have room: how many are left.
#[tactic(auto, using(crate::proofs::InParts::bytes_taken))]
fn take_bytes(samples: &mut Vec<u8>, left: usize, bytes: &[u8]) -> usize
    requires few { length bytes.now ≤ left }
    requires room { length samples.old.items + left ≤ vec_capacity samples.old }
    ensures leads { (w : WantedImage) → fold (onward w) (Going (in_raster left) samples.old.items) bytes.now ≡ Going (in_raster result) samples.new.items }
    ensures left { result + length bytes.now ≡ left }
    ensures room { length samples.new.items + result ≤ vec_capacity samples.new }
{
    match samples.extend_from_slice(bytes) {
        Ok(()) => left - bytes.len(),
        Err(_) => unreachable!(),
    }
}

// So many bytes of a raw raster are read together.
const TOGETHER: usize = 4096;

/// Reads some samples of a raw raster in which each byte is one, by way of a list of bytes, where so many are still to come and have
/// room: how many are left.
#[tactic(auto, using(crate::proofs::InParts::leads_on, crate::proofs::InParts::fewer_left))]
fn read_part<S: Source>(
    source: &mut S,
    samples: &mut Vec<u8>,
    left: usize,
    bytes: &mut [u8],
) -> Result<usize, PnmError>
    requires some { 0 < left }
    requires bytes { 0 < length bytes.old }
    requires room { length samples.old.items + left ≤ vec_capacity samples.old }
    ensures leads { IfOk result (λ after. LeadsOn (S.remaining source.old) (S.remaining source.new) (in_raster left) samples.old.items (in_raster after) samples.new.items) }
    ensures fewer { IfOk result (λ after. after < left) }
    ensures room { IfOk result (λ after. length samples.new.items + after ≤ vec_capacity samples.new) }
    ensures ends { IfErr result (λ e. EndsPart (S.remaining source.old) (S.remaining source.new) e) }
    ensures failed { S.has_failed source.old ≡ false → S.has_failed source.new ≡ true → IsErrOf result PnmError.Device }
    ensures device { IsErrOf result PnmError.Device → S.has_failed source.new ≡ true }
    ensures same { S.identity source.new ≡ S.identity source.old }
{
    let most = left.min(bytes.len());
    let part = &mut bytes[..most];
    match source.fill(part) {
        Ok(0) => Err(PnmError::TooShort),
        Ok(count) => Ok(take_bytes(samples, left, &part[..count])),
        Err(e) => Err(e),
    }
}

/// Reads the samples of a raw raster in which each byte is one, of which so many are still to come and have room, and the end of
/// the file.
#[tactic(auto, using(crate::proofs::InParts::leads_nowhere, crate::proofs::InParts::leads_further, crate::proofs::InParts::raster_file, crate::proofs::InParts::raster_trails, crate::proofs::InParts::raster_fails, crate::proofs::InParts::raster_ends))]
fn read_reserved<S: Source>(
    source: &mut S,
    mut samples: Vec<u8>,
    mut left: usize,
) -> Result<Samples, PnmError>
    requires room { length samples.items + left ≤ vec_capacity samples }
    requires fresh { S.has_failed source.old ≡ false }
    ensures file { (w : WantedImage) (before : Option (List ℕ)) (bytes : List ℕ) → Consumes before (S.remaining source.old) bytes → walk w bytes ≡ Going (in_raster left) samples.items → IfOk result (λ all. ReadsFile w before (S.remaining source.new) (numbers all)) }
    ensures refusal { (w : WantedImage) (before : Option (List ℕ)) (bytes : List ℕ) → Consumes before (S.remaining source.old) bytes → walk w bytes ≡ Going (in_raster left) samples.items → IfErr result (λ e. Refuses w before (S.remaining source.new) e) }
    ensures failed { S.has_failed source.new ≡ true → IsErrOf result PnmError.Device }
    ensures device { IsErrOf result PnmError.Device → S.has_failed source.new ≡ true }
    ensures same { S.identity source.new ≡ S.identity source.old }
{
    let mut bytes = [0u8; TOGETHER];
    while left > 0 {
        match read_part(source, &mut samples, left, &mut bytes) {
            Ok(after) => left = after,
            Err(e) => return Err(e),
        }
    }
    match source.next_byte() {
        Ok(None) => Ok(Samples::Bytes(samples)),
        Ok(Some(_)) => Err(PnmError::Trailing),
        Err(e) => Err(e),
    }
}

/// Reads the samples of a raw raster in which each byte is one, and the end of the file. Memory is taken before the first of them.
fn read_bytes<S: Source>(alloc: Global, source: &mut S, count: usize) -> Result<Samples, PnmError>
    requires fresh { S.has_failed source.old ≡ false }
    ensures file { (w : WantedImage) (before : Option (List ℕ)) (bytes : List ℕ) → Consumes before (S.remaining source.old) bytes → walk w bytes ≡ Going (in_raster count) [] → IfOk result (λ all. ReadsFile w before (S.remaining source.new) (numbers all)) }
    ensures refusal { (w : WantedImage) (before : Option (List ℕ)) (bytes : List ℕ) → Consumes before (S.remaining source.old) bytes → walk w bytes ≡ Going (in_raster count) [] → IfErr result (λ e. Refuses w before (S.remaining source.new) e) }
    ensures failed { S.has_failed source.new ≡ true → IsErrOf result PnmError.Device }
    ensures device { IsErrOf result PnmError.Device → S.has_failed source.new ≡ true }
    ensures same { S.identity source.new ≡ S.identity source.old }
{
    match Vec::with_capacity(alloc, count) {
        Ok(samples) => read_reserved(source, samples, count),
        Err(_) => Err(PnmError::Memory),
    }
}

/// Reads the samples of a wanted image. Memory is taken once, before the first byte; for a raw raster in which each byte is a sample it
/// is given back untouched, and half as much is taken before that raster.
fn read_samples<S: Source>(
    alloc: Global,
    source: &mut S,
    wanted: &Wanted,
) -> Result<Samples, PnmError>
    requires { S.has_failed source.old ≡ false }
    ensures file { IfOk result (λ samples. ReadsFile wanted.now (S.remaining source.old) (S.remaining source.new) (numbers samples)) }
    ensures refusal { IfErr result (λ e. Refuses wanted.now (S.remaining source.old) (S.remaining source.new) e) }
    ensures failed { S.has_failed source.new ≡ true → IsErrOf result PnmError.Device }
    ensures device { IsErrOf result PnmError.Device → (S.has_failed source.new ≡ true) ⊎ IsEndless (S.remaining source.old) (S.remaining source.new) }
    ensures same { S.identity source.new ≡ S.identity source.old }
{
    let mut samples = match Vec::with_capacity(alloc, wanted.count) {
        Ok(samples) => samples,
        Err(_) => return Err(PnmError::Memory),
    };
    let mut state = State::Start;
    for turn in 0..u64::MAX {
        if let Some(count) = bytes_to_come(samples.as_slice(), state) {
            drop(samples);
            return read_bytes(alloc, source, count);
        }
        match source.next_byte() {
            Ok(Some(byte)) => match take_byte(&mut samples, wanted, state, byte) {
                Ok(next) => state = next,
                Err(e) => return Err(e),
            },
            Ok(None) => {
                return match take_end(&mut samples, state) {
                    Ok(()) => Ok(Samples::Words(samples)),
                    Err(e) => Err(e),
                };
            }
            Err(e) => return Err(e),
        }
    }
    Err(PnmError::Device)
}

/// Reads an image of the wanted shape from a source that remembers whether it has failed.
pub fn read_from<S: Source>(alloc: Global, source: &mut S, shape: &Shape) -> Result<Image, PnmError>
    requires shape { IsShape (shape_of shape.now) }
    requires fresh { S.has_failed source.old ≡ false }
    ensures file { IfOk result (λ image. ReadsFile (wanted_of (shape_of shape.now)) (S.remaining source.old) (S.remaining source.new) (numbers image.samples)) }
    ensures like { IfOk result (λ image. (image.ty ≡ shape.now.ty) × (image.extents.items ≡ shape.now.extents.items)) }
    ensures refusal { IfErr result (λ e. Refuses (wanted_of (shape_of shape.now)) (S.remaining source.old) (S.remaining source.new) e) }
    ensures failed { S.has_failed source.new ≡ true → IsErrOf result PnmError.Device }
    ensures device { IsErrOf result PnmError.Device → (S.has_failed source.new ≡ true) ⊎ IsEndless (S.remaining source.old) (S.remaining source.new) }
    ensures same { S.identity source.new ≡ S.identity source.old }
{
    let extents = match shape.extents.as_slice().to_vec(alloc) {
        Ok(extents) => extents,
        Err(_) => return Err(PnmError::Memory),
    };
    match read_samples(alloc, source, &wanted(shape)) {
        Ok(samples) => Ok(Image {
            ty: shape.ty,
            extents,
            samples,
        }),
        Err(e) => Err(e),
    }
}

/// Reads an image of the wanted shape, and the end of the file after it.
/// No byte is taken after the first fault: bytes are taken one by one, and together only where none of them can be one. A read
/// that fails is not tried again.
pub fn read<R: Read>(alloc: Global, reader: &mut R, shape: &Shape) -> Result<Image, PnmError>
    requires { IsShape (shape_of shape.now) }
    ensures file { IfOk result (λ image. ReadsFile (wanted_of (shape_of shape.now)) (R.remaining reader.old) (R.remaining reader.new) (numbers image.samples)) }
    ensures like { IfOk result (λ image. (image.ty ≡ shape.now.ty) × (image.extents.items ≡ shape.now.extents.items)) }
    ensures refusal { IfErr result (λ e. Refuses (wanted_of (shape_of shape.now)) (R.remaining reader.old) (R.remaining reader.new) e) }
{
    let mut watched = Watched {
        device: reader,
        failed: false,
    };
    let result = read_from(alloc, &mut watched, shape);
    let Watched { device, failed: _ } = watched;
    // The proof reads here what the reader has left.
    let _ = &*device;
    result
}
