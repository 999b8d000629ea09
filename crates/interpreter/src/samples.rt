//! Samples of an image side by side, kept as the image keeps them.

ghost use Rattle.std.specs.Prelude.{◌≡◌, ◌<◌, ◌≤◌, ◌+◌, ◌*◌, ℕ, IfSome, length, drop, take, slice_get, slice_index};
ghost use Rattle.meaning.specs.Image.View.{numbers};
ghost use Rattle.interpreter.specs.Evaluation.Words.{bits_at};
ghost use Rattle.interpreter.specs.SampleRows.{sampled};

use crate::scanlines::window;
use meaning::image::Samples;

/// Samples side by side. What reads many of them takes these apart once, so that a loop is over one kind.
#[derive(Clone, Copy, Drop)]
pub(crate) enum SampleRow<'a> {
    /// In one byte each.
    Bytes(&'a [u8]),
    /// In two bytes each.
    Words(&'a [u16]),
}

/// All samples of an image.
pub(crate) fn all_samples(samples: &Samples) -> SampleRow<'_>
    ensures { sampled result ≡ numbers samples.now }
{
    match samples {
        Samples::Bytes(bytes) => SampleRow::Bytes(bytes.as_slice()),
        Samples::Words(words) => SampleRow::Words(words.as_slice()),
    }
}

/// So many samples from one on, if there are so many.
pub(crate) fn samples_among(row: SampleRow<'_>, start: usize, count: usize) -> Option<SampleRow<'_>>
    ensures count { IfSome result (λ w. length (sampled w) ≡ count) }
    ensures same { IfSome result (λ w. sampled w ≡ take count (drop start (sampled row.entry))) }
{
    match row {
        SampleRow::Bytes(bytes) => Some(SampleRow::Bytes(window(bytes, start, count)?)),
        SampleRow::Words(words) => Some(SampleRow::Words(window(words, start, count)?)),
    }
}

/// The samples, where they are kept in one byte each.
pub(crate) fn bytes_of(row: SampleRow<'_>) -> Option<&[u8]>
    ensures { IfSome result (λ bytes. bytes.now ≡ sampled row.entry) }
{
    match row {
        SampleRow::Bytes(bytes) => Some(bytes),
        SampleRow::Words(_) => None,
    }
}

/// How many samples there are.
pub(crate) fn sample_count(row: SampleRow<'_>) -> usize
    ensures { result ≡ length (sampled row.entry) }
{
    match row {
        SampleRow::Bytes(bytes) => bytes.len(),
        SampleRow::Words(words) => words.len(),
    }
}

/// The sample at a place, if there is one.
pub(crate) fn sample_of(row: SampleRow<'_>, place: usize) -> Option<u16>
    ensures { IfSome result (λ n. slice_get (sampled row.entry) place ≡ Some n) }
{
    match row {
        SampleRow::Bytes(bytes) => Some(u16::from(*bytes.get(place)?)),
        SampleRow::Words(words) => Some(*words.get(place)?),
    }
}

/// A byte as a word.
#[inline(always)]
fn byte_word(byte: u8) -> u32
    ensures { (result ≡ byte) × (result ≤ 255) }
{
    u32::from(byte)
}

/// A sample of two bytes as a word.
#[inline(always)]
fn sample_word(sample: u16) -> u32
    ensures { (result ≡ sample) × (result ≤ 65535) }
{
    u32::from(sample)
}

/// Puts bytes in as words, from a place on, each so many behind the one before.
#[inline(always)]
fn put_bytes_along(bytes: &[u8], start: usize, step: usize, out: &mut [u32])
    requires { (k : ℕ) → k < length out.old → start + k * step < length bytes.now }
    ensures { (k : ℕ) → k < length out.new → (bits_at out.new k ≡ slice_index bytes.now (start + k * step)) × (bits_at out.new k ≤ 255) }
{
    for turn in 0..out.len() {
        out[turn] = byte_word(bytes[start + turn * step]);
    }
}

/// Puts samples of two bytes in as words, from a place on, each so many behind the one before.
#[inline(always)]
fn put_words_along(words: &[u16], start: usize, step: usize, out: &mut [u32])
    requires { (k : ℕ) → k < length out.old → start + k * step < length words.now }
    ensures { (k : ℕ) → k < length out.new → (bits_at out.new k ≡ slice_index words.now (start + k * step)) × (bits_at out.new k ≤ 65535) }
{
    for turn in 0..out.len() {
        out[turn] = sample_word(words[start + turn * step]);
    }
}

/// Puts samples in as words, from a place on, each so many behind the one before: a number that none of them is above. Samples of
/// three colours, as most images of three dimensions have, take a loop of their own, of which the step is known.
pub(crate) fn put_colour(row: SampleRow<'_>, start: usize, step: usize, out: &mut [u32]) -> u32
    requires { (k : ℕ) → k < length out.old → start + k * step < length (sampled row) }
    ensures { (k : ℕ) → k < length out.new → (bits_at out.new k ≡ slice_index (sampled row.entry) (start + k * step)) × (bits_at out.new k ≤ result) }
{
    match (row, step) {
        (SampleRow::Bytes(bytes), 3) => {
            put_bytes_along(bytes, start, 3, out);
            255
        }
        (SampleRow::Bytes(bytes), _) => {
            put_bytes_along(bytes, start, step, out);
            255
        }
        (SampleRow::Words(words), 3) => {
            put_words_along(words, start, 3, out);
            65_535
        }
        (SampleRow::Words(words), _) => {
            put_words_along(words, start, step, out);
            65_535
        }
    }
}

/// Puts bytes in as words.
pub(crate) fn put_bytes(bytes: &[u8], out: &mut [u32])
    requires { length bytes.now ≡ length out.old }
    ensures { (k : ℕ) → k < length out.new → (bits_at out.new k ≡ slice_index bytes.now k) × (bits_at out.new k ≤ 255) }
{
    for turn in 0..out.len() {
        out[turn] = byte_word(bytes[turn]);
    }
}

/// Puts samples of two bytes in as words.
fn put_words(words: &[u16], out: &mut [u32])
    requires { length words.now ≡ length out.old }
    ensures { (k : ℕ) → k < length out.new → (bits_at out.new k ≡ slice_index words.now k) × (bits_at out.new k ≤ 65535) }
{
    for turn in 0..out.len() {
        out[turn] = sample_word(words[turn]);
    }
}

/// As many samples, put into a register as words: a number that none of them is above.
pub(crate) fn put_samples(row: SampleRow<'_>, out: &mut [u32]) -> u32
    requires { length (sampled row) ≡ length out.old }
    ensures { (k : ℕ) → k < length out.new → (bits_at out.new k ≡ slice_index (sampled row.entry) k) × (bits_at out.new k ≤ result) }
{
    match row {
        SampleRow::Bytes(bytes) => {
            put_bytes(bytes, out);
            255
        }
        SampleRow::Words(words) => {
            put_words(words, out);
            65_535
        }
    }
}
