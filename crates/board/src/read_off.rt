//! The picture read off a sheet.

ghost use Rattle.std.specs.Prelude.{◌≡◌, ◌≢◌, ℕ, ◌+◌, ◌*◌, ◌^◌, ◌<◌, ◌≤◌, length, slice_index};
ghost use Rattle.board.specs.Layout.{picture_of, samples_in, IsSound, ShowsSamples};
ghost use Rattle.board.specs.Sheets.{HasBits};
ghost use Rattle.board.specs.Shown.{Tells};

use crate::law::Run;
use crate::shown::Shown;
use crate::source::Planes;

// Writes the values of the cells that are listed.
fn listed(bits: &[u32], shown: &[u32], samples: &mut [u16])
    requires fits { length samples.old ≡ length shown.now }
    requires inside { (k : ℕ) → k < length shown.now → slice_index shown.now k < length bits.now }
    requires small { (k : ℕ) → k < length shown.now → slice_index bits.now (slice_index shown.now k) < 2 ^ 16 }
    ensures { (k : ℕ) → k < length shown.now → slice_index samples.new k ≡ slice_index bits.now (slice_index shown.now k) }
{
    for i in 0..shown.len() {
        samples[i] = bits[shown[i] as usize] as u16;
    }
}

// Writes the samples of one colour, whose cells follow each other from `start` on.
fn plane(bits: &[u32], start: usize, colour: usize, planes: Planes, samples: &mut [u16])
    requires few { length bits.now < 2 ^ 62 }
    requires colour { colour < planes.colours }
    requires fits { length samples.old ≡ planes.pixels * planes.colours }
    requires inside { (k : ℕ) → k < planes.pixels → start + k < length bits.now }
    requires small { (k : ℕ) → k < planes.pixels → slice_index bits.now (start + k) < 2 ^ 16 }
    ensures colour { (k : ℕ) → k < planes.pixels → slice_index samples.new (k * planes.colours + colour) ≡ slice_index bits.now (start + k) }
    ensures others { (k c : ℕ) → c < planes.colours → c ≢ colour → slice_index samples.new (k * planes.colours + c) ≡ slice_index samples.old (k * planes.colours + c) }
{
    for pixel in 0..planes.pixels {
        let place = pixel * planes.colours + colour;
        samples[place] = bits[start + pixel] as u16;
    }
}

// Writes the samples of all colours, whose planes follow each other.
fn all_planes(bits: &[u32], planes: Planes, samples: &mut [u16])
    requires few { length bits.now < 2 ^ 62 }
    requires fits { length samples.old ≡ planes.pixels * planes.colours }
    requires inside { (k c : ℕ) → k < planes.pixels → c < planes.colours → planes.first + c * planes.pixels + k < length bits.now }
    requires small { (k c : ℕ) → k < planes.pixels → c < planes.colours → slice_index bits.now (planes.first + c * planes.pixels + k) < 2 ^ 16 }
    ensures { (k c : ℕ) → k < planes.pixels → c < planes.colours → slice_index samples.new (k * planes.colours + c) ≡ slice_index bits.now (planes.first + c * planes.pixels + k) }
{
    for colour in 0..planes.colours {
        let start = planes.first as usize + colour * planes.pixels;
        plane(bits, start, colour, planes, samples);
    }
}

/// Writes the picture's samples, read off the bits of all cells.
pub(crate) fn read_off<J: Run>(bits: &[u32], shown: &Shown, samples: &mut [u16])
    requires layout { IsSound J.layout × ShowsSamples J.layout J.values }
    requires full { length bits.now ≡ J.layout.cells }
    requires shown { Tells J.layout shown.now }
    requires fits { length samples.old ≡ samples_in J.layout }
    requires put { (c : ℕ) → c < J.layout.cells → HasBits J.values bits.now c }
    ensures { samples.new ≡ (picture_of J.layout J.values).samples }
{
    match shown {
        Shown::InPlanes(planes) => all_planes(bits, *planes, samples),
        Shown::Listed(cells) => listed(bits, cells.as_slice(), samples),
    }
}
