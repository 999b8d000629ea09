//! How a sheet keeps its cells: as bits, or as the samples of the picture that shows them.

ghost use Rattle.std.specs.Prelude.{◌≡◌, ◌+◌, ◌*◌, ◌^◌, ◌<◌, ◌≤◌, IfOk, IfSome, length, slice_index};
ghost use Rattle.board.specs.Kept.{all_bits, in_planes, planes_of, sample_place, AreBytes, Keeps};
ghost use Rattle.board.specs.Layout.{samples_in};
ghost use Rattle.board.specs.Shown.{Tells};

use crate::law::Run;
use crate::shown::Shown;
use crate::source::Planes;
use numeric::Ty;
use std::alloc::{AllocError, Global};

/// How a sheet keeps the cells that the picture shows.
#[derive(Drop)]
pub(crate) enum Kept {
    /// As its samples, in a byte each: they are the last cells, and stand in planes.
    AsSamples(Planes),
    /// As bits, like all others: the samples are read off at the end, into this list.
    AsBits(Shown, Vec<u16>),
}

impl Kept {
    /// The planes of the cells that are kept as samples. They have no pixels where there are no such cells.
    #[inline(always)]
    pub(crate) fn planes(&self) -> Planes
        ensures { result ≡ planes_of self.now }
    {
        match self {
            Kept::AsSamples(planes) => *planes,
            Kept::AsBits(_, _) => Planes {
                first: 0,
                colours: 1,
                pixels: 0,
            },
        }
    }
}

/// The planes of the cells that a picture of so many samples shows, where they can be kept as these: where each is a byte, and the
/// planes stand behind all other cells.
fn planes_of_bytes<J: Run>(shown: &Shown, ty: Ty, samples: usize, cells: usize) -> Option<Planes>
    requires shown { Tells J.layout shown.now }
    requires ty { ty ≡ J.layout.frame.ty }
    requires samples { samples ≡ samples_in J.layout }
    requires cells { cells ≡ J.layout.cells }
    ensures { IfSome result (AreBytes J.layout) }
{
    let Shown::InPlanes(planes) = shown else {
        return None;
    };
    let before = planes.first as usize;
    if ty == Ty::U8 && before <= cells && cells - before == samples {
        Some(*planes)
    } else {
        None
    }
}

/// How a sheet of so many cells keeps those that a picture of so many samples shows, and how many it keeps as bits. It takes memory
/// for the samples where they are read off at the end.
pub(crate) fn kept_as<J: Run>(
    alloc: Global,
    shown: Shown,
    ty: Ty,
    samples: usize,
    cells: usize,
) -> Result<(Kept, usize), AllocError>
    requires shown { Tells J.layout shown }
    requires ty { ty ≡ J.layout.frame.ty }
    requires samples { samples ≡ samples_in J.layout }
    requires cells { cells ≡ J.layout.cells }
    ensures { IfOk result (λ k. Keeps J.layout k.0 k.1 × (k.1 ≤ cells)) }
{
    if let Some(planes) = planes_of_bytes::<J>(&shown, ty, samples, cells) {
        return Ok((Kept::AsSamples(planes), planes.first as usize));
    }
    let words = vec![in alloc; 0u16; samples]?;
    Ok((Kept::AsBits(shown, words), cells))
}

/// The pixel and the colour of a cell, told by how many cells of the planes come before it. There are few colours.
#[inline(always)]
pub(crate) fn pixel_of(planes: Planes, before: usize) -> (usize, usize)
    requires { before < in_planes planes }
    ensures pixel { result.0 < planes.pixels }
    ensures same { before ≡ result.1 * planes.pixels + result.0 }
{
    let mut pixel = before;
    let mut colour = 0;
    while pixel >= planes.pixels {
        pixel -= planes.pixels;
        colour += 1;
    }
    (pixel, colour)
}

/// The place of the sample that shows a cell, told by how many cells of the planes come before it.
#[inline(always)]
pub(crate) fn sample_place(planes: Planes, before: usize) -> usize
    requires inside { before < in_planes planes }
    requires few { in_planes planes < 2 ^ 63 }
    ensures { result ≡ sample_place planes before }
{
    let (pixel, colour) = pixel_of(planes, before);
    pixel * planes.colours + colour
}

/// The bits of a cell: 0 where its sample is not there.
#[inline(always)]
pub(crate) fn bits_of_cell(bits: &[u32], samples: &[u8], planes: Planes, cell: usize) -> u32
    requires inside { cell < length bits.now + in_planes planes }
    requires few { in_planes planes < 2 ^ 63 }
    ensures { result ≡ slice_index (all_bits planes bits.now samples.now) cell }
{
    if cell < bits.len() {
        return bits[cell];
    }
    let place = sample_place(planes, cell - bits.len());
    if place < samples.len() {
        u32::from(samples[place])
    } else {
        0
    }
}
