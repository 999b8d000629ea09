//! What a store's expression is evaluated over at the turns of a run.

ghost use Rattle.std.specs.Prelude.{◌≡◌, ◌∷◌, ◌<◌, ◌≤◌, ℕ, ℤ, Some, IfSome, drop, length, map, pos, ◌+ℤ◌, ◌-ℤ◌, ◌*ℤ◌, string_bytes};
ghost use Rattle.tree.specs.declared.value.Value.{Value as ValueFound};
ghost use Rattle.tree.specs.Meaning.{typed};
ghost use Rattle.plan.specs.Semantics.Memory.{Memory};
ghost use Rattle.plan.specs.Semantics.Run.{look};
ghost use Rattle.meaning.specs.Names.{bound};
ghost use Rattle.interpreter.specs.Buffers.Blocks.{memory_of};
ghost use Rattle.numeric.specs.declared.ty.Ty.TheVariants.{I32};
ghost use Rattle.interpreter.specs.Evaluation.Lanes.{clamped_number, found_as, lane, lane_number, lanes_at, number_at, IsNarrowFor};
ghost use Rattle.interpreter.specs.Evaluation.Lending.{lent};
ghost use Rattle.interpreter.specs.Evaluation.Words.{bits_at, word_at};
ghost use Rattle.interpreter.specs.Pieces.{around, no_cells};
ghost use Rattle.interpreter.specs.Runs.{numbers_at, IsBut};

use crate::buffers::{Buffers, held_window};
use crate::evaluation::{
    ClampedRamp, Lanes, LentNumbers, LentRow, Number, RunReader, cast_words, clamped_number,
    number_after, step_words, type_lent, typed_number,
};
use crate::loads::{claim_of, is_named};
use crate::piece::Piece;
use crate::reading::{Reading, place_named};
use crate::samples::{SampleRow, all_samples, bytes_of, put_samples, samples_among};
use crate::scanlines::{
    Pixels, copy_words, distance, pixels_beside, put_pixels, row_type, sample_type, samples_beside,
    take_numbers, take_pixels, take_samples, type_held,
};
use numeric::Ty;
use plan::Coordinate;
use tree::Value;

/// A store's coordinates with their numbers at the first turn of a run and at the second, over what a piece finds around it
/// and its buffers hold before the run. All buffers are read but the one that the run stores to.
#[derive(Clone, Copy, Drop)]
pub(crate) struct RunReading<'a, 'm> {
    pub piece: &'a Piece<'a>,
    pub coordinates: &'a [Coordinate],
    pub memory: &'m Buffers,
    pub buffer: u64,
    pub first: &'m [i64],
    pub second: &'m [i64],
}

/// Where a name is read.
#[derive(Clone, Copy, Drop)]
pub(crate) enum Source {
    /// In the input.
    Input,
    /// In a buffer that is not stored to.
    Buffer(u64),
}

impl RunReading<'_, '_> {
    ghost use Rattle.interpreter.specs.RunReadings.{source_at, IsAside, Means};
    ghost use Rattle.interpreter.specs.SampleRows.{sampled};
    ghost use Rattle.interpreter.specs.Scanlines.{pixel_along, sample_along};
    ghost use Rattle.interpreter.specs.declared.run_reading.Source.TheVariants.{Input, Buffer};

    /// The reading at the first turn.
    fn reading(&self) -> Reading<'_, '_>
        ensures { result ≡ record { piece = self.now.piece; coordinates = self.now.coordinates; memory = self.now.memory; numbers = self.now.first } }
    {
        Reading {
            piece: self.piece,
            coordinates: self.coordinates,
            memory: self.memory,
            numbers: self.first,
        }
    }

    /// The numbers of a variable at the first turn and at the second. Each later one is as much more.
    #[inline(always)]
    fn ends(&self, name: &str) -> Option<(i64, i64)>
        ensures { IfSome result (λ p. (k : ℕ) → bound (map (λ c. string_bytes c.variable) self.now.coordinates.now) (numbers_at self.now.first.now self.now.second.now k) name.now ≡ p.0 +ℤ (p.1 -ℤ p.0) *ℤ pos k) }
    {
        let place = place_named(self.coordinates, name)?;
        let first = *self.first.get(place)?;
        let second = *self.second.get(place)?;
        Some((first, second))
    }

    /// Where a name is read. Nothing where it means nothing, or the buffer that the run stores to.
    #[inline(always)]
    fn source(&self, name: &str) -> Option<Source>
        ensures { IfSome result (Means self.now name.now) }
    {
        if is_named(name, self.piece.plan.input.name.as_str()) {
            return Some(Source::Input);
        }
        let claim = self.piece.cert.claims.get(claim_of(name)?)?;
        if claim.buffer == self.buffer {
            None
        } else {
            Some(Source::Buffer(claim.buffer))
        }
    }

    /// What a source has at a point.
    fn find(&self, source: Source, at: &[i64]) -> Option<Value>
        ensures { result ≡ source_at self.now (memory_of self.now.memory.now) source at.now }
    {
        match source {
            Source::Input => self.reading().sample(at),
            Source::Buffer(buffer) => self.memory.read(buffer, at),
        }
    }

    /// What a source has at a point of at most four coordinates.
    fn find_beside(&self, source: Source, first: Number, others: &[i64]) -> Option<Value>
        ensures { IfSome result (λ v. source_at self.now (memory_of self.now.memory.now) source (first.value ∷ others.now) ≡ Some v) }
    {
        match others {
            [] => self.find(source, &[first.value]),
            [second] => self.find(source, &[first.value, *second]),
            [second, third] => self.find(source, &[first.value, *second, *third]),
            [second, third, fourth] => self.find(source, &[first.value, *second, *third, *fourth]),
            _ => None,
        }
    }

    /// The type of what a source has at the first of some points that differ in the first coordinate.
    fn first_type(&self, source: Source, others: &[i64], numbers: &[Number]) -> Option<Ty> {
        Some(self.find_beside(source, *numbers.first()?, others)?.ty)
    }

    /// The input's samples at the points with at most one coordinate behind the first one, from the first sample on.
    fn samples(&self, others: &[i64]) -> Option<SampleRow<'_>>
        ensures { IfSome result (λ row. (z n : ℤ) → sample_along (sampled row) z ≡ Some n → (around self.now.piece.now no_cells).sample (z ∷ others.now) ≡ Some (typed self.now.piece.now.plan.now.input.ty n)) }
    {
        let image = self.piece.image;
        samples_beside(
            image.extents.as_slice(),
            all_samples(&image.samples),
            others,
        )
    }

    /// What the input has at points that differ in the first coordinate.
    fn look_samples(&self, others: &[i64], out: &mut [Number]) -> Option<Ty>
        ensures { IfSome result (λ t. (k : ℕ) → k < length out.new → source_at self.now (memory_of self.now.memory.now) Input (number_at out.old k ∷ others.now) ≡ Some (typed t (number_at out.new k))) }
    {
        match self.samples(others) {
            Some(samples) => {
                take_samples(samples, out)?;
                Some(self.piece.plan.input.ty)
            }
            None => self.look_pixels(others, out),
        }
    }

    /// The input's samples at the points with two coordinates behind the first one, from the first sample on.
    fn pixels(&self, others: &[i64]) -> Option<Pixels<'_>>
        ensures { IfSome result (λ row. (z n : ℤ) → pixel_along row.colours row.colour (sampled row.samples) z ≡ Some n → (around self.now.piece.now no_cells).sample (z ∷ others.now) ≡ Some (typed self.now.piece.now.plan.now.input.ty n)) }
    {
        let image = self.piece.image;
        pixels_beside(
            image.extents.as_slice(),
            all_samples(&image.samples),
            others,
        )
    }

    /// What an input of three dimensions has at points that differ in the first coordinate.
    fn look_pixels(&self, others: &[i64], out: &mut [Number]) -> Option<Ty>
        ensures { IfSome result (λ t. (k : ℕ) → k < length out.new → source_at self.now (memory_of self.now.memory.now) Input (number_at out.old k ∷ others.now) ≡ Some (typed t (number_at out.new k))) }
    {
        match self.pixels(others) {
            Some(pixels) => {
                take_pixels(pixels, out)?;
                Some(self.piece.plan.input.ty)
            }
            None => self.look_singly(Source::Input, others, out),
        }
    }

    /// What a buffer has at points that differ in the first coordinate.
    fn look_places(&self, buffer: u64, others: &[i64], out: &mut [Number]) -> Option<Ty>
        ensures { IfSome result (λ t. (k : ℕ) → k < length out.new → source_at self.now (memory_of self.now.memory.now) (Buffer buffer) (number_at out.old k ∷ others.now) ≡ Some (typed t (number_at out.new k))) }
    {
        match self.memory.scanline(buffer, others) {
            Some(line) => {
                let ty = self.first_type(Source::Buffer(buffer), others, out)?;
                take_numbers(line, ty, out)?;
                Some(ty)
            }
            None => self.look_singly(Source::Buffer(buffer), others, out),
        }
    }

    /// What a source has at points that differ in the first coordinate, one after another.
    fn look_singly(&self, source: Source, others: &[i64], out: &mut [Number]) -> Option<Ty>
        ensures { IfSome result (λ t. (k : ℕ) → k < length out.new → source_at self.now (memory_of self.now.memory.now) source (number_at out.old k ∷ others.now) ≡ Some (typed t (number_at out.new k))) }
    {
        let ty = self.first_type(source, others, out)?;
        for turn in 0..out.len() {
            out[turn] = self.find_number(source, ty, out[turn], others)?;
        }
        Some(ty)
    }

    /// The samples that an input of fewer dimensions has at points whose first coordinate rises by one: a number that none of them
    /// is above.
    fn put_sample_row(&self, first: i64, others: &[i64], out: &mut [u32]) -> Option<u32>
        ensures there { IfSome result (λ _. (k : ℕ) → k < length out.new → source_at self.now (memory_of self.now.memory.now) Input ((first +ℤ pos k) ∷ others.now) ≡ Some (typed self.now.piece.now.plan.now.input.ty (pos (bits_at out.new k)))) }
        ensures most { IfSome result (λ m. (k : ℕ) → k < length out.new → bits_at out.new k ≤ m) }
    {
        let samples = self.samples(others)?;
        if first < 0 {
            return None;
        }
        let row = samples_among(samples, first as usize, out.len())?;
        Some(put_samples(row, out))
    }

    /// The samples that an input of three dimensions has at points whose first coordinate rises by one: a number that none of them
    /// is above.
    fn put_pixel_row(&self, first: i64, others: &[i64], out: &mut [u32]) -> Option<u32>
        ensures there { IfSome result (λ _. (k : ℕ) → k < length out.new → source_at self.now (memory_of self.now.memory.now) Input ((first +ℤ pos k) ∷ others.now) ≡ Some (typed self.now.piece.now.plan.now.input.ty (pos (bits_at out.new k)))) }
        ensures most { IfSome result (λ m. (k : ℕ) → k < length out.new → bits_at out.new k ≤ m) }
    {
        let pixels = self.pixels(others)?;
        if first < 0 {
            return None;
        }
        put_pixels(pixels, first as usize, out)
    }

    /// The samples that the input has at points whose first coordinate rises by one: a number that none of them is above.
    fn put_input_row(&self, first: i64, others: &[i64], out: &mut [u32]) -> Option<u32>
        ensures there { IfSome result (λ _. (k : ℕ) → k < length out.new → source_at self.now (memory_of self.now.memory.now) Input ((first +ℤ pos k) ∷ others.now) ≡ Some (typed self.now.piece.now.plan.now.input.ty (pos (bits_at out.new k)))) }
        ensures most { IfSome result (λ m. (k : ℕ) → k < length out.new → bits_at out.new k ≤ m) }
    {
        if others.len() == 2 {
            self.put_pixel_row(first, others, out)
        } else {
            self.put_sample_row(first, others, out)
        }
    }

    /// What the input has at points whose first coordinate rises by one, cast to the type, if there is one.
    fn look_input_row(
        &self,
        first: i64,
        others: &[i64],
        cast: Option<Ty>,
        out: &mut [u32],
    ) -> Option<Ty>
        ensures { IfSome result (λ t. (k : ℕ) → k < length out.new → found_as cast (source_at self.now (memory_of self.now.memory.now) Input ((first +ℤ pos k) ∷ others.now)) ≡ Some (typed t (word_at t out.new k))) }
    {
        let most = self.put_input_row(first, others, out)?;
        sample_type(self.piece.plan.input.ty, cast, most, out)
    }

    /// What a buffer has at points whose first coordinate rises by one, cast to the type, if there is one.
    fn look_place_row(
        &self,
        buffer: u64,
        first: i64,
        others: &[i64],
        cast: Option<Ty>,
        out: &mut [u32],
    ) -> Option<Ty>
        ensures { IfSome result (λ t. (k : ℕ) → k < length out.new → found_as cast (source_at self.now (memory_of self.now.memory.now) (Buffer buffer) ((first +ℤ pos k) ∷ others.now)) ≡ Some (typed t (word_at t out.new k))) }
    {
        let line = self.memory.scanline(buffer, others)?;
        let start = distance(line.origin, first)?;
        let held = held_window(line.held, start, out.len())?;
        let ty = type_held(held)?;
        copy_words(held, ty, out)?;
        Some(cast_words(ty, cast, out))
    }

    /// The samples that an input of fewer dimensions has at so many points whose first coordinate rises by one, lent where they are
    /// kept in one byte each and cast to a type.
    #[inline(always)]
    fn lend_sample_row(
        &self,
        first: i64,
        others: &[i64],
        cast: Option<Ty>,
        count: usize,
    ) -> Option<LentRow<'_>>
        ensures count { IfSome result (λ row. length (lent row.numbers) ≡ count) }
        ensures value { IfSome result (λ row. (k : ℕ) → k < count → found_as cast (source_at self.now (memory_of self.now.memory.now) Input ((first +ℤ pos k) ∷ others.now)) ≡ Some (typed row.ty (word_at row.ty (lent row.numbers) k))) }
    {
        let ty = type_cast_to(cast)?;
        let samples = self.samples(others)?;
        let start = distance(0, first)?;
        let row = samples_among(samples, start, count)?;
        let bytes = bytes_of(row)?;
        Some(LentRow {
            ty,
            numbers: LentNumbers::Bytes(bytes),
        })
    }

    /// The numbers of so many of a buffer's places whose first coordinate rises by one, lent where all hold values of one type, and their
    /// low bits are as well those of the type that they are cast to, if there is one.
    #[inline(always)]
    fn lend_place_row(
        &self,
        buffer: u64,
        first: i64,
        others: &[i64],
        cast: Option<Ty>,
        count: usize,
    ) -> Option<LentRow<'_>>
        ensures count { IfSome result (λ row. length (lent row.numbers) ≡ count) }
        ensures value { IfSome result (λ row. (k : ℕ) → k < count → found_as cast (source_at self.now (memory_of self.now.memory.now) (Buffer buffer) ((first +ℤ pos k) ∷ others.now)) ≡ Some (typed row.ty (word_at row.ty (lent row.numbers) k))) }
    {
        let line = self.memory.scanline(buffer, others)?;
        let start = distance(line.origin, first)?;
        let held = held_window(line.held, start, count)?;
        let own = row_type(held.marks)?;
        let ty = type_lent(own, cast)?;
        Some(LentRow {
            ty,
            numbers: held.numbers,
        })
    }

    /// What a source has at a point, where that is of the type.
    fn find_number(&self, source: Source, ty: Ty, first: Number, others: &[i64]) -> Option<Number>
        ensures { IfSome result (λ n. source_at self.now (memory_of self.now.memory.now) source (first.value ∷ others.now) ≡ Some (typed ty n.value)) }
    {
        let found = self.find_beside(source, first, others)?;
        if found.ty == ty {
            Some(Number {
                value: found.number,
            })
        } else {
            None
        }
    }

    /// What a source has at the point of a turn, of at most four coordinates, which have registers of so many numbers.
    fn find_at(
        &self,
        source: Source,
        indices: &[Lanes],
        registers: &[u32],
        count: usize,
        turn: usize,
    ) -> Option<Value>
        ensures { IfSome result (λ v. source_at self.now (memory_of self.now.memory.now) source (lanes_at count indices.now registers.now turn) ≡ Some v) }
    {
        let seconds = registers_behind(registers, count);
        let thirds = registers_behind(seconds, count);
        let fourths = registers_behind(thirds, count);
        match indices {
            [first] => self.find(source, &[number_in(*first, registers, turn)?]),
            [first, second] => {
                let first = number_in(*first, registers, turn)?;
                let second = number_in(*second, seconds, turn)?;
                self.find(source, &[first, second])
            }
            [first, second, third] => {
                let first = number_in(*first, registers, turn)?;
                let second = number_in(*second, seconds, turn)?;
                let third = number_in(*third, thirds, turn)?;
                self.find(source, &[first, second, third])
            }
            [first, second, third, fourth] => {
                let first = number_in(*first, registers, turn)?;
                let second = number_in(*second, seconds, turn)?;
                let third = number_in(*third, thirds, turn)?;
                let fourth = number_in(*fourth, fourths, turn)?;
                self.find(source, &[first, second, third, fourth])
            }
            _ => None,
        }
    }

    /// What a source has at the point of a turn, where that is of the type.
    fn number_found(
        &self,
        source: Source,
        ty: Ty,
        indices: &[Lanes],
        registers: &[u32],
        count: usize,
        turn: usize,
    ) -> Option<Number>
        ensures { IfSome result (λ n. source_at self.now (memory_of self.now.memory.now) source (lanes_at count indices.now registers.now turn) ≡ Some (typed ty n.value)) }
    {
        let found = self.find_at(source, indices, registers, count, turn)?;
        if found.ty == ty {
            Some(Number {
                value: found.number,
            })
        } else {
            None
        }
    }

    /// What a source has at the points of the turns.
    fn gather(
        &self,
        source: Source,
        indices: &[Lanes],
        registers: &[u32],
        out: &mut [Number],
    ) -> Option<Ty>
        ensures { IfSome result (λ t. (k : ℕ) → k < length out.new → source_at self.now (memory_of self.now.memory.now) source (lanes_at (length out.new) indices.now registers.now k) ≡ Some (typed t (number_at out.new k))) }
    {
        let count = out.len();
        let ty = self.find_at(source, indices, registers, count, 0)?.ty;
        for turn in 0..count {
            out[turn] = self.number_found(source, ty, indices, registers, count, turn)?;
        }
        Some(ty)
    }
}

impl RunReader for RunReading<'_, '_> {
    ghost variables = { λ r k. bound (map (λ c. string_bytes c.variable) r.coordinates.now) (numbers_at r.first.now r.second.now k) };

    ghost look = { λ r m. look (around r.piece.now no_cells) m };

    ghost agrees = { λ r m. IsBut r.buffer (memory_of r.memory.now) m };

    fn variable(&self, name: &str, out: &mut [u32]) -> Option<Lanes> {
        let (first, second) = self.ends(name)?;
        lanes_of(first, second, out)
    }

    fn standing(&self, name: &str, _count: usize) -> Option<i64> {
        let (first, second) = self.ends(name)?;
        standing_of(first, second)
    }

    fn rising(&self, name: &str, _count: usize) -> Option<i64> {
        let (first, second) = self.ends(name)?;
        rising_of(first, second)
    }

    fn look_each(&self, name: &str, others: &[i64], out: &mut [Number]) -> Option<Ty> {
        let source = self.source(name)?;
        match source {
            Source::Input => self.look_samples(others, out),
            Source::Buffer(buffer) => self.look_places(buffer, others, out),
        }
    }

    fn look_row(
        &self,
        name: &str,
        first: i64,
        others: &[i64],
        cast: Option<Ty>,
        out: &mut [u32],
    ) -> Option<Ty> {
        let source = self.source(name)?;
        match source {
            Source::Input => self.look_input_row(first, others, cast, out),
            Source::Buffer(buffer) => self.look_place_row(buffer, first, others, cast, out),
        }
    }

    fn lend_row(
        &self,
        name: &str,
        first: i64,
        others: &[i64],
        cast: Option<Ty>,
        count: usize,
    ) -> Option<LentRow<'_>> {
        let source = self.source(name)?;
        match source {
            Source::Input => self.lend_sample_row(first, others, cast, count),
            Source::Buffer(buffer) => self.lend_place_row(buffer, first, others, cast, count),
        }
    }

    fn look_points(
        &self,
        name: &str,
        indices: &[Lanes],
        registers: &[u32],
        out: &mut [Number],
    ) -> Option<Ty> {
        let source = self.source(name)?;
        self.gather(source, indices, registers, out)
    }
}

/// The type that something is cast to.
fn type_cast_to(cast: Option<Ty>) -> Option<Ty>
    ensures { IfSome result (λ t. cast ≡ Some t) }
{
    match cast {
        Some(ty) => Some(ty),
        None => None,
    }
}

/// The registers but the first so many numbers.
pub(crate) fn registers_behind<T>(registers: &[T], count: usize) -> &[T]
    ensures { result.now ≡ drop count registers.now }
{
    if registers.len() < count {
        return &[];
    }
    let (_, behind) = registers.split_at(count);
    behind
}

/// The number of a clamped ramp at a turn, if that of the ramp is of 64 bits.
fn clamped_at(ramp: ClampedRamp, turn: usize) -> Option<Number>
    ensures { IfSome result (λ n. n.value ≡ clamped_number ramp turn) }
{
    let value = number_after(ramp.first.value, turn)?;
    let number = Number { value };
    Some(clamped_number(number, ramp.low, ramp.high))
}

/// The number of lanes at a turn, over this register.
fn number_in(lanes: Lanes, register: &[u32], turn: usize) -> Option<i64>
    ensures { IfSome result (λ z. z ≡ lane_number lanes register.now turn) }
{
    match lanes {
        Lanes::Broadcast(_, number) => Some(number.value),
        Lanes::Ramp(_, number) => number_after(number.value, turn),
        Lanes::Clamped(_, ramp) => Some(clamped_at(ramp, turn)?.value),
        Lanes::Vector(ty) => Some(typed_number(ty, *register.get(turn)?)),
    }
}

/// The number of a coordinate at all turns, by those of the first turn and of the second, where it stays.
#[inline(always)]
pub(crate) fn standing_of(first: i64, second: i64) -> Option<i64>
    ensures { IfSome result (λ z. (k : ℕ) → first +ℤ (second -ℤ first) *ℤ pos k ≡ z) }
{
    if second == first { Some(first) } else { None }
}

/// The number of a coordinate at the first turn, by that and the one of the second turn, where it rises by one from turn to turn.
#[inline(always)]
pub(crate) fn rising_of(first: i64, second: i64) -> Option<i64>
    ensures { IfSome result (λ z. (k : ℕ) → first +ℤ (second -ℤ first) *ℤ pos k ≡ z +ℤ pos k) }
{
    let step = second.checked_sub(first)?;
    if step == 1 { Some(first) } else { None }
}

/// The numbers of a coordinate at so many turns, by those of the first turn and of the second. They are put into the register
/// where they neither stay nor rise by one.
pub(crate) fn lanes_of(first: i64, second: i64, out: &mut [u32]) -> Option<Lanes>
    ensures narrow { IfSome result (IsNarrowFor (length out.new)) }
    ensures lanes { IfSome result (λ x. (k : ℕ) → k < length out.new → typed I32 (first +ℤ (second -ℤ first) *ℤ pos k) ≡ lane x out.new k) }
{
    let number = Number { value: first };
    if second == first {
        return Some(Lanes::Broadcast(Ty::I32, number));
    }
    let step = second.checked_sub(first)?;
    if out.len() < 1 << 60 && first < 1 << 60 && step == 1 {
        return Some(Lanes::Ramp(Ty::I32, number));
    }
    step_words(Ty::I32, number, Number { value: step }, out)?;
    Some(Lanes::Vector(Ty::I32))
}
