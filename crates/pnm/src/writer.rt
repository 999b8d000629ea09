//! Writing a file.

ghost use Rattle.std.specs.Prelude.{◌≡◌, ◌≤◌, ◌+◌, ◌*◌, [], ◌∷◌, ◌++◌, false, true, decimal, ◌||◌, is_err, length, take};
ghost use Rattle.std.specs.List.{flat_map};
ghost use Rattle.meaning.specs.Image.View.{image_of, numbers as numbers_kept};
ghost use Rattle.pnm.specs.Source.{Sends};
ghost use Rattle.pnm.specs.Text.{magic, numbers, sample_bytes, text_of};

use crate::error::PnmError;
use crate::header::{has_colours, height_of, max_sample, width_of};
use crate::watched::{Sink, Watched};
use meaning::image::{Image, Samples, Ty};
use std::io::Write;

fn send_number<S: Sink>(sink: &mut S, number: u32, after: u8) -> Result<(), PnmError>
    ensures bytes { Sends (S.contents sink.old) (S.contents sink.new) (decimal number ++ after ∷ []) result }
    ensures failure { S.has_failed sink.new ≡ (S.has_failed sink.old || is_err result) }
    ensures same { S.identity sink.new ≡ S.identity sink.old }
{
    let mut buffer = itoa::Buffer::new();
    sink.send(buffer.format(number).as_bytes())?;
    sink.send(&[after])
}

// So many samples are sent together.
const TOGETHER: usize = 2048;

/// Puts the bytes of a sample in from a place on: the place behind them.
#[inline(always)]
fn put_sample(ty: Ty, sample: u16, out: &mut [u8], at: usize) -> usize
    requires { at + 2 ≤ length out.old }
    ensures bytes { take result out.new ≡ take at out.old ++ sample_bytes ty sample }
    ensures few { result ≤ at + 2 }
{
    let low = (sample % 256) as u8;
    let high = (sample / 256) as u8;
    match ty {
        Ty::U8 => {
            out[at] = low;
            at + 1
        }
        _ => {
            out[at] = high;
            out[at + 1] = low;
            at + 2
        }
    }
}

/// Puts the bytes of samples in, from the first place on: how many they are.
fn put_samples(ty: Ty, samples: &[u16], out: &mut [u8]) -> usize
    requires { 2 * length samples.now ≤ length out.old }
    ensures bytes { take result out.new ≡ flat_map (sample_bytes ty) samples.now }
    ensures room { result ≤ length out.new }
{
    let mut at = 0;
    for sample in samples {
        at = put_sample(ty, *sample, out, at);
    }
    at
}

/// Sends samples by way of a list that has room for their bytes.
fn send_part<S: Sink>(
    sink: &mut S,
    ty: Ty,
    samples: &[u16],
    bytes: &mut [u8],
) -> Result<(), PnmError>
    requires { 2 * length samples.now ≤ length bytes.old }
    ensures bytes { Sends (S.contents sink.old) (S.contents sink.new) (flat_map (sample_bytes ty) samples.now) result }
    ensures failure { S.has_failed sink.new ≡ (S.has_failed sink.old || is_err result) }
    ensures same { S.identity sink.new ≡ S.identity sink.old }
{
    let count = put_samples(ty, samples, bytes);
    sink.send(&bytes[..count])
}

fn magic_of(has_colours: bool) -> &'static [u8]
    ensures { result.now ≡ magic has_colours }
{
    if has_colours { b"P6\n" } else { b"P5\n" }
}

// Width, height and the type's greatest sample.
fn send_numbers<S: Sink>(sink: &mut S, ty: Ty, extents: &[u32]) -> Result<(), PnmError>
    ensures bytes { Sends (S.contents sink.old) (S.contents sink.new) (numbers ty extents.now) result }
    ensures failure { S.has_failed sink.new ≡ (S.has_failed sink.old || is_err result) }
    ensures same { S.identity sink.new ≡ S.identity sink.old }
{
    send_number(sink, width_of(extents), b' ')?;
    send_number(sink, height_of(extents), b'\n')?;
    send_number(sink, max_sample(ty), b'\n')
}

/// Sends samples that are kept in two bytes, some of them together.
#[tactic(auto, using(crate::proofs::Sending::has_sent_no_sample, crate::proofs::Sending::has_sent_part, crate::proofs::Sending::sends_samples, crate::proofs::Sending::sends_part, crate::proofs::Sending::sends_failed))]
fn send_words<S: Sink>(sink: &mut S, ty: Ty, samples: &[u16]) -> Result<(), PnmError>
    ensures bytes { Sends (S.contents sink.old) (S.contents sink.new) (flat_map (sample_bytes ty) samples.now) result }
    ensures failure { S.has_failed sink.new ≡ (S.has_failed sink.old || is_err result) }
    ensures same { S.identity sink.new ≡ S.identity sink.old }
{
    let mut bytes = [0u8; 2 * TOGETHER];
    let mut rest = samples;
    while !rest.is_empty() {
        let (part, later) = rest.split_at(rest.len().min(TOGETHER));
        send_part(sink, ty, part, &mut bytes)?;
        rest = later;
    }
    Ok(())
}

/// Sends samples that are kept in one byte, each of them in one.
fn send_narrow<S: Sink>(sink: &mut S, samples: &[u8]) -> Result<(), PnmError>
    ensures bytes { Sends (S.contents sink.old) (S.contents sink.new) (flat_map (sample_bytes Ty.U8) samples.now) result }
    ensures failure { S.has_failed sink.new ≡ (S.has_failed sink.old || is_err result) }
    ensures same { S.identity sink.new ≡ S.identity sink.old }
{
    sink.send(samples)
}

/// Sends samples that are kept in one byte, each of them in two.
#[tactic(auto, using(crate::proofs::Sending::has_sent_no_sample, crate::proofs::Sending::sends_samples))]
fn send_wide<S: Sink>(sink: &mut S, samples: &[u8]) -> Result<(), PnmError>
    ensures bytes { Sends (S.contents sink.old) (S.contents sink.new) (flat_map (sample_bytes Ty.U16) samples.now) result }
    ensures failure { S.has_failed sink.new ≡ (S.has_failed sink.old || is_err result) }
    ensures same { S.identity sink.new ≡ S.identity sink.old }
{
    for sample in samples {
        sink.send(&[0, *sample])?;
    }
    Ok(())
}

/// Sends all samples of an image.
fn send_raster<S: Sink>(sink: &mut S, ty: Ty, samples: &Samples) -> Result<(), PnmError>
    ensures bytes { Sends (S.contents sink.old) (S.contents sink.new) (flat_map (sample_bytes ty) (numbers_kept samples.now)) result }
    ensures failure { S.has_failed sink.new ≡ (S.has_failed sink.old || is_err result) }
    ensures same { S.identity sink.new ≡ S.identity sink.old }
{
    match (ty, samples) {
        (_, Samples::Words(words)) => send_words(sink, ty, words.as_slice()),
        (Ty::U8, Samples::Bytes(bytes)) => send_narrow(sink, bytes.as_slice()),
        (_, Samples::Bytes(bytes)) => send_wide(sink, bytes.as_slice()),
    }
}

/// Writes an image as a raw file to a sink that remembers whether it has failed.
pub fn write_to<S: Sink>(sink: &mut S, image: &Image) -> Result<(), PnmError>
    ensures bytes { Sends (S.contents sink.old) (S.contents sink.new) (text_of (image_of image.now)) result }
    ensures failure { S.has_failed sink.new ≡ (S.has_failed sink.old || is_err result) }
    ensures same { S.identity sink.new ≡ S.identity sink.old }
{
    let extents = image.extents.as_slice();
    sink.send(magic_of(has_colours(extents)))?;
    send_numbers(sink, image.ty, extents)?;
    send_raster(sink, image.ty, &image.samples)
}

/// Writes an image as a raw file: `P5`, or `P6` where it has colours. It takes no memory.
/// After an error a beginning of the file has gone out. A write that fails, or takes no byte, is not tried again.
pub fn write<W: Write>(writer: &mut W, image: &Image) -> Result<(), PnmError>
    ensures { Sends (W.contents writer.old) (W.contents writer.new) (text_of (image_of image.now)) result }
{
    let mut watched = Watched {
        device: writer,
        failed: false,
    };
    let result = write_to(&mut watched, image);
    let Watched { device, failed: _ } = watched;
    // The proof reads here what the writer holds.
    let _ = &*device;
    result
}
