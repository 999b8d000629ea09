//! The cells of a run by one worker alone.

ghost use Rattle.std.specs.Prelude.{◌≡◌, ℕ, ◌+◌, ◌^◌, ◌<◌, ◌≤◌, ◌++◌, [], length, vec_capacity};
ghost use Rattle.meaning.specs.Image.View.{numbers};
ghost use Rattle.board.specs.CellBits.{bits_in};
ghost use Rattle.board.specs.Kept.{all_bits, in_planes, planes_of, Keeps};
ghost use Rattle.board.specs.Layout.{picture_of, pieces_of, IsSound, ShowsSamples};
ghost use Rattle.board.specs.Seen.{beside, seen_bits, Seen};
ghost use Rattle.board.specs.Sheets.{IsPut};

use crate::cell_bits::CellBits;
use crate::cells::SheetCells;
use crate::kept::{Kept, kept_as};
use crate::law::Run;
use crate::putting::put_bits;
use crate::read_off::read_off;
use crate::rows::Rows;
use crate::shown::Shown;
use crate::source::Source;
use meaning::image::{Image, Samples, Shape};
use std::alloc::{AllocError, Global};
use std::marker::{Model, PhantomData};
use std::mem::replace;

/// The cells of accepted work, which one worker alone sets and reads. Contracts see it as the bits of all cells.
///
/// The cells that the picture shows are kept as its samples, in a byte each, where the picture's type is `u8` and they are the last
/// and stand in planes, and else as bits, as the other cells are.
#[derive(Drop)]
pub struct Sheet<'a, J: Run> {
    bits: Vec<u32>,
    own: Rows<'a>,
    kept: Kept,
    shape: Shape,
    samples: Vec<u8>,
    run: PhantomData<J>,
}

impl<'a, J: Run> Model for Sheet<'a, J> {
    ghost use Rattle.std.specs.Prelude.{◌≡◌, ℕ, List, length};
    ghost use Rattle.meaning.specs.Image.View.{shape_of};
    ghost use Rattle.board.specs.Kept.{all_bits, in_planes, planes_of, Keeps};
    ghost use Rattle.board.specs.Layout.{IsSound, ShowsSamples};

    ghost Value = { List ℕ };

    ghost view = { λ s. all_bits (planes_of s.kept) s.bits.items s.samples.items };

    ghost invariant = { λ s. (s.own ≡ J.layout.own) × IsSound J.layout × Keeps J.layout s.kept (length s.bits.items) × (length s.samples.items ≡ in_planes (planes_of s.kept)) × (shape_of s.shape ≡ J.layout.frame) × ShowsSamples J.layout J.values };
}

impl<'a, J: Run> Sheet<'a, J> {
    ghost use Rattle.meaning.specs.Image.View.{image_of};
    ghost use Rattle.board.specs.CellBits.{bits_in};
    ghost use Rattle.board.specs.Layout.{own_of, picture_of, pieces_of, ShowsSamples};
    ghost use Rattle.board.specs.Sheets.{bits_at, IsPut};

    /// A sheet on which nothing is put.
    ///
    /// It takes 8 bytes for each piece, which are where its own cells stand, one for each cell that is kept as a sample, and 4 for
    /// each other cell. Where no cell is kept as a sample it takes 2 for each sample of the picture, and where their cells don't
    /// stand in planes it keeps these too, 4 bytes each.
    pub fn open<S: Source<'a>>(alloc: Global, source: &S) -> Result<Sheet<'a, J>, AllocError>
        requires layout { S.layout source.now ≡ J.layout }
        requires values { ShowsSamples J.layout J.values }
    {
        // No number is taken of this call. It says that the layout is sound, and so that there are few pieces.
        source.pieces();
        let own = Rows::of(alloc, source)?;
        let shown = Shown::of(alloc, source)?;
        let shape = source.shape().copy(alloc)?;
        let count = shape.sample_count();
        let cells = source.cells();
        let (kept, before) = kept_as::<J>(alloc, shown, shape.ty, count, cells)?;
        let bits = vec![in alloc; 0u32; before]?;
        let samples = vec![in alloc; 0u8; cells - before]?;
        Ok(Sheet {
            bits,
            own,
            kept,
            shape,
            samples,
            run: PhantomData,
        })
    }

    /// How many pieces there are.
    pub fn pieces(&self) -> usize
        ensures count { result ≡ pieces_of J.layout }
        ensures few { result ≤ 2 ^ 20 }
    {
        self.own.len()
    }

    /// How many cells a piece owns.
    pub fn own_count(&self, piece: u32) -> usize
        requires { piece < pieces_of J.layout }
        ensures { result ≡ length (own_of J.layout piece) }
    {
        self.own.get(piece as usize).len()
    }

    /// Its cells, as those who look at them share them.
    pub fn cells(&self) -> SheetCells<'_, 'a, J>
        ensures { seen_bits result ≡ self.now }
    {
        SheetCells {
            bits: self.bits.as_slice(),
            samples: self.samples.as_slice(),
            planes: self.kept.planes(),
            own: &self.own,
            run: PhantomData,
        }
    }

    /// The sheet without the cells that are kept as samples of the picture, and these samples. There are none where no cell is kept so.
    pub fn apart(self) -> (ApartSheet<'a, J>, Vec<u8>)
        ensures same { seen_bits (beside result.0 result.1.items) ≡ self.entry }
        ensures all { length result.1.items ≡ in_planes result.0.planes }
    {
        let Sheet {
            bits,
            own,
            kept,
            shape,
            samples,
            run: _,
        } = self;
        let apart = ApartSheet {
            bits,
            own,
            kept,
            shape,
            run: PhantomData,
        };
        (apart, samples)
    }

    /// Puts the bits of the values of all own cells of a piece. What is put stays.
    pub fn put(&mut self, piece: u32, kept: CellBits<'_>)
        requires piece { piece < pieces_of J.layout }
        requires kept { bits_in kept ≡ bits_at J.values (own_of J.layout piece) }
        ensures put { IsPut J.layout J.values self.new piece }
        ensures more { (j : ℕ) → IsPut J.layout J.values self.old j → IsPut J.layout J.values self.new j }
    {
        let planes = self.kept.planes();
        let own = self.own.get(piece as usize);
        let bits = self.bits.as_mut_slice();
        put_bits::<J>(bits, self.samples.as_mut_slice(), planes, own, kept);
    }

    /// The picture, once all pieces are put.
    pub fn close(self) -> Image
        requires { (j : ℕ) → j < pieces_of J.layout → IsPut J.layout J.values self j }
        ensures { image_of result ≡ picture_of J.layout J.values }
    {
        let Sheet {
            bits,
            own: _,
            kept,
            shape,
            samples,
            run: _,
        } = self;
        let samples = shown_samples::<J>(bits.as_slice(), kept, samples);
        let Shape { ty, extents } = shape;
        Image {
            ty,
            extents,
            samples,
        }
    }
}

/// A sheet without the cells that are kept as samples. Contracts see it as its cells, beside no samples.
#[derive(Drop)]
pub struct ApartSheet<'a, J: Run> {
    bits: Vec<u32>,
    own: Rows<'a>,
    kept: Kept,
    shape: Shape,
    run: PhantomData<J>,
}

impl<'a, J: Run> Model for ApartSheet<'a, J> {
    ghost use Rattle.std.specs.Prelude.{◌≡◌, [], length};
    ghost use Rattle.meaning.specs.Image.View.{shape_of};
    ghost use Rattle.board.specs.Kept.{planes_of, Keeps};
    ghost use Rattle.board.specs.Layout.{IsSound, ShowsSamples};
    ghost use Rattle.board.specs.Seen.{Seen};

    ghost Value = { Seen };

    ghost view = { λ s. record { planes = planes_of s.kept; bits = s.bits.items; samples = [] } };

    ghost invariant = { λ s. (s.own ≡ J.layout.own) × IsSound J.layout × Keeps J.layout s.kept (length s.bits.items) × (shape_of s.shape ≡ J.layout.frame) × ShowsSamples J.layout J.values };
}

impl<'a, J: Run> ApartSheet<'a, J> {
    /// Its cells beside these samples, as those who look at them share them.
    pub fn cells<'s>(&'s self, samples: &'s [u8]) -> SheetCells<'s, 'a, J>
        ensures { result ≡ beside self.now samples.now }
    {
        SheetCells {
            bits: self.bits.as_slice(),
            samples,
            planes: self.kept.planes(),
            own: &self.own,
            run: PhantomData,
        }
    }

    /// The sheet with these samples of the picture.
    pub fn joined(self, samples: Vec<u8>) -> Sheet<'a, J>
        requires { length samples.items ≡ in_planes self.planes }
        ensures { result ≡ seen_bits (beside self.entry samples.items) }
    {
        let ApartSheet {
            bits,
            own,
            kept,
            shape,
            run: _,
        } = self;
        Sheet {
            bits,
            own,
            kept,
            shape,
            samples,
            run: PhantomData,
        }
    }
}

// The samples of the picture, once all cells have the bits of their values.
fn shown_samples<J: Run>(bits: &[u32], kept: Kept, bytes: Vec<u8>) -> Samples
    requires layout { IsSound J.layout × ShowsSamples J.layout J.values }
    requires kept { Keeps J.layout kept (length bits.now) }
    requires fits { length bytes.items ≡ in_planes (planes_of kept) }
    requires put { (j : ℕ) → j < pieces_of J.layout → IsPut J.layout J.values (all_bits (planes_of kept) bits.now bytes.items) j }
    ensures { numbers result ≡ (picture_of J.layout J.values).samples }
{
    match kept {
        Kept::AsSamples(_) => Samples::Bytes(bytes),
        Kept::AsBits(shown, mut words) => {
            read_off::<J>(bits, &shown, words.as_mut_slice());
            Samples::Words(words)
        }
    }
}

// The list with bits added, which has room for them. It takes no memory. The list is handed over, so that its length is known to be
// nobody else's while they are added.
#[inline(never)]
fn with_bits(mut kept: Vec<u32>, bits: &[u32]) -> Vec<u32>
    requires { length kept.items + length bits.now ≤ vec_capacity kept }
    ensures items { result.items ≡ kept.items ++ bits.now }
    ensures room { vec_capacity result ≡ vec_capacity kept }
{
    for word in bits {
        kept.push_reserved(*word);
    }
    kept
}

// The same by bytes.
#[inline(never)]
fn with_bytes(mut kept: Vec<u32>, bytes: &[u8]) -> Vec<u32>
    requires { length kept.items + length bytes.now ≤ vec_capacity kept }
    ensures items { result.items ≡ kept.items ++ bytes.now }
    ensures room { vec_capacity result ≡ vec_capacity kept }
{
    for byte in bytes {
        kept.push_reserved(u32::from(*byte));
    }
    kept
}

// The same by either kind.
fn with_all(kept: Vec<u32>, bits: CellBits<'_>) -> Vec<u32>
    requires { length kept.items + length (bits_in bits) ≤ vec_capacity kept }
    ensures items { result.items ≡ kept.items ++ bits_in bits.entry }
    ensures room { vec_capacity result ≡ vec_capacity kept }
{
    match bits {
        CellBits::Bytes(bytes) => with_bytes(kept, bytes),
        CellBits::Words(words) => with_bits(kept, words),
    }
}

/// Keeps the bits of values apart from any sheet, in an empty list that has room for them, at 4 bytes each. It takes no memory.
pub fn keep_bits(bits: CellBits<'_>, kept: &mut Vec<u32>)
    requires none { kept.old.items ≡ [] }
    requires room { length (bits_in bits) ≤ vec_capacity kept.old }
    ensures { kept.new.items ≡ bits_in bits.entry }
{
    let alloc = *kept.allocator();
    let list = replace(kept, Vec::new(alloc));
    *kept = with_all(list, bits);
}
