//! The cells that the picture shows, and the picture read off a closed table.

ghost use Rattle.std.specs.Slots.{slots_items, slots_len, IsFull};
ghost use Rattle.std.specs.Prelude.{◌≡◌, ◌≢◌, ℕ, ◌+◌, ◌*◌, ◌^◌, ◌<◌, IfOk, length, slice_index};
ghost use Rattle.board.specs.Layout.{pieces_of, picture_of, samples_in, IsSound, ShowsSamples};
ghost use Rattle.board.specs.Shown.{HasAll, HoldsSample, Tells};
ghost use Rattle.board.specs.Words.{word_count};

use crate::law::Run;
use crate::rows::shown_cells;
use crate::source::{Planes, Source};
use atomic_table::Closed;
use std::alloc::{AllocError, Global};

/// Which cell each sample of the picture shows.
#[derive(Drop)]
pub(crate) enum Shown {
    /// They stand in planes.
    InPlanes(Planes),
    /// The cell of each sample, in raster order.
    Listed(Vec<u32>),
}

impl Shown {
    /// The cells that the source's picture shows. It takes memory only where they do not stand in planes.
    pub(crate) fn of<'a, S: Source<'a>>(alloc: Global, source: &S) -> Result<Shown, AllocError>
        ensures { IfOk result (Tells (S.layout source.now)) }
    {
        match source.planes() {
            Some(planes) => Ok(Shown::InPlanes(planes)),
            None => Ok(Shown::Listed(shown_cells(alloc, source)?)),
        }
    }
}

/// The word at a place.
pub(crate) fn word_at(closed: &Closed<u8, Global>, place: usize) -> u64
    requires { (place < slots_len closed.now.words) × IsFull closed.now.words }
    ensures { result ≡ slice_index (slots_items closed.now.words) place }
{
    closed.word(place)
}

// Writes the values of the cells that are listed, whose words begin at `base`.
fn show_listed(closed: &Closed<u8, Global>, base: usize, shown: &[u32], samples: &mut [u16])
    requires full { IsFull closed.now.words × (slots_len closed.now.words < 2 ^ 62) × (base < 2 ^ 32) }
    requires fits { length samples.old ≡ length shown.now }
    requires inside { (k : ℕ) → k < length shown.now → base + slice_index shown.now k < slots_len closed.now.words }
    requires set { (k : ℕ) → k < length shown.now → HoldsSample (slice_index (slots_items closed.now.words) (base + slice_index shown.now k)) }
    ensures { (k : ℕ) → k < length shown.now → slice_index samples.new k + 1 ≡ slice_index (slots_items closed.now.words) (base + slice_index shown.now k) }
{
    for i in 0..shown.len() {
        samples[i] = (word_at(closed, base + shown[i] as usize) - 1) as u16;
    }
}

// Writes the samples of one colour, whose words follow each other from `start` on.
fn show_plane(
    closed: &Closed<u8, Global>,
    start: usize,
    colour: usize,
    planes: Planes,
    samples: &mut [u16],
)
    requires full { IsFull closed.now.words × (slots_len closed.now.words < 2 ^ 62) }
    requires colour { colour < planes.colours }
    requires fits { length samples.old ≡ planes.pixels * planes.colours }
    requires inside { (k : ℕ) → k < planes.pixels → start + k < slots_len closed.now.words }
    requires set { (k : ℕ) → k < planes.pixels → HoldsSample (slice_index (slots_items closed.now.words) (start + k)) }
    ensures colour { (k : ℕ) → k < planes.pixels → slice_index samples.new (k * planes.colours + colour) + 1 ≡ slice_index (slots_items closed.now.words) (start + k) }
    ensures others { (k c : ℕ) → c < planes.colours → c ≢ colour → slice_index samples.new (k * planes.colours + c) ≡ slice_index samples.old (k * planes.colours + c) }
{
    for pixel in 0..planes.pixels {
        let place = pixel * planes.colours + colour;
        samples[place] = (word_at(closed, start + pixel) - 1) as u16;
    }
}

// Writes the samples of all colours, whose planes follow each other from `start` on.
fn show_planes(closed: &Closed<u8, Global>, start: usize, planes: Planes, samples: &mut [u16])
    requires full { IsFull closed.now.words × (slots_len closed.now.words < 2 ^ 62) × (start < 2 ^ 33) }
    requires fits { length samples.old ≡ planes.pixels * planes.colours }
    requires inside { (k c : ℕ) → k < planes.pixels → c < planes.colours → start + c * planes.pixels + k < slots_len closed.now.words }
    requires set { (k c : ℕ) → k < planes.pixels → c < planes.colours → HoldsSample (slice_index (slots_items closed.now.words) (start + c * planes.pixels + k)) }
    ensures { (k c : ℕ) → k < planes.pixels → c < planes.colours → slice_index samples.new (k * planes.colours + c) + 1 ≡ slice_index (slots_items closed.now.words) (start + c * planes.pixels + k) }
{
    for colour in 0..planes.colours {
        let plane = start + colour * planes.pixels;
        show_plane(closed, plane, colour, planes, samples);
    }
}

/// Writes the picture's samples, read off a closed table where each cell has its value. The cells' words begin at `base`.
pub(crate) fn show<J: Run>(
    closed: &Closed<u8, Global>,
    base: usize,
    shown: &Shown,
    samples: &mut [u16],
)
    requires layout { IsSound J.layout × ShowsSamples J.layout J.values }
    requires full { IsFull closed.now.words × (slots_len closed.now.words ≡ word_count J.layout) × (base ≡ 1 + pieces_of J.layout) }
    requires shown { Tells J.layout shown.now }
    requires fits { length samples.old ≡ samples_in J.layout }
    requires set { HasAll J.layout J.values (slots_items closed.now.words) }
    ensures { samples.new ≡ (picture_of J.layout J.values).samples }
{
    match shown {
        Shown::InPlanes(planes) => {
            let start = base + planes.first as usize;
            show_planes(closed, start, *planes, samples);
        }
        Shown::Listed(cells) => show_listed(closed, base, cells.as_slice(), samples),
    }
}
