//! The samples of an image.

ghost use Rattle.std.specs.Prelude.{◌≡◌, ◌↔◌, ◌≤◌, ℕ, All, IsTrue, length, slice_index};
ghost use Rattle.meaning.specs.Image.View.{max_sample, numbers};

use numeric::Ty;

/// The greatest of some samples, or 0 of none.
fn greatest(samples: &[u16]) -> u16
    ensures { (m : ℕ) → (result ≤ m) ↔ All (λ s. s ≤ m) samples.now }
{
    let mut most = 0;
    for sample in samples {
        if most < *sample {
            most = *sample;
        }
    }
    most
}

/// Whether some samples are at most this one.
fn are_within(samples: &[u16], most: u16) -> bool
    ensures { IsTrue result ↔ All (λ s. s ≤ most) samples.now }
{
    greatest(samples) <= most
}

// Whether some bytes are samples of a type. Each is, of every type.
fn are_of(bytes: &[u8], ty: Ty) -> bool
    ensures { IsTrue result ↔ All (λ s. s ≤ max_sample ty) bytes.now }
{
    true
}

/// The samples of an image in the order of a file's raster: rows from the top, in a row from the left, and the colours of a pixel
/// side by side. Contracts see their numbers (`numbers`).
#[derive(Drop)]
pub enum Samples {
    /// In one byte each, so that none is above 255.
    Bytes(Vec<u8>),
    /// In two bytes each, of images of either type.
    Words(Vec<u16>),
}

impl Samples {
    /// How many there are.
    pub fn len(&self) -> usize
        ensures { result ≡ length (numbers self.now) }
    {
        match self {
            Samples::Bytes(bytes) => bytes.len(),
            Samples::Words(words) => words.len(),
        }
    }

    /// The one at a place, and 0 past the last.
    pub fn at(&self, place: usize) -> u16
        ensures { result ≡ slice_index (numbers self.now) place }
    {
        match self {
            Samples::Bytes(bytes) => u16::from(bytes.get(place).copied().unwrap_or(0)),
            Samples::Words(words) => words.get(place).copied().unwrap_or(0),
        }
    }

    /// Whether each is a sample of a type.
    pub(crate) fn are_of(&self, ty: Ty) -> bool
        ensures { IsTrue result ↔ All (λ s. s ≤ max_sample ty) (numbers self.now) }
    {
        match self {
            Samples::Bytes(bytes) => are_of(bytes.as_slice(), ty),
            Samples::Words(words) => {
                let most = if ty == Ty::U8 { 255 } else { u16::MAX };
                are_within(words.as_slice(), most)
            }
        }
    }
}
