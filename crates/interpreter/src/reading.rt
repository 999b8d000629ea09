//! What a store's expressions are evaluated over.

ghost use Rattle.std.specs.Prelude.{◌≡◌, ◌∷◌, [], IfSome, List, ℤ, map, pos, slice_index_or, string_bytes};
ghost use Rattle.meaning.specs.Image.Raster.{is_within};
ghost use Rattle.meaning.specs.Names.{bound};
ghost use Rattle.interpreter.specs.Pieces.{found_in};

use crate::buffers::Buffers;
use crate::evaluation::Reader;
use crate::loads::{claim_of, is_named, is_named_byte};
use crate::piece::Piece;
use plan::Coordinate;
use tree::Value;

/// A store's coordinates and their numbers, over what a piece finds around it and its buffers hold.
#[derive(Clone, Copy, Drop)]
pub(crate) struct Reading<'a, 'm> {
    pub piece: &'a Piece<'a>,
    pub coordinates: &'a [Coordinate],
    pub memory: &'m Buffers,
    pub numbers: &'m [i64],
}

/// The number of the first coordinate of a variable's name, 0 where there is none.
pub(crate) fn number_bound(coordinates: &[Coordinate], numbers: &[i64], name: &str) -> i64
    ensures { result ≡ bound (map (λ c. string_bytes c.variable) coordinates.now) numbers.now name.now }
{
    match (coordinates, numbers) {
        ([coordinate, coordinates @ ..], [number, numbers @ ..]) => {
            if is_named(coordinate.variable.as_str(), name) {
                *number
            } else {
                number_bound(coordinates, numbers, name)
            }
        }
        _ => 0,
    }
}

/// The place of one of the first two coordinates, if it is the first of this variable's name of one byte.
#[inline(always)]
fn early_place(coordinates: &[Coordinate], byte: u8) -> Option<usize>
    ensures { IfSome result (λ i. (zs : List ℤ) → bound (map (λ c. string_bytes c.variable) coordinates.now) zs (byte ∷ []) ≡ slice_index_or zs i (pos 0)) }
{
    if coordinates.len() < 1 {
        return None;
    }
    if is_named_byte(coordinates[0].variable.as_str(), byte) {
        return Some(0);
    }
    if coordinates.len() < 2 {
        return None;
    }
    if is_named_byte(coordinates[1].variable.as_str(), byte) {
        return Some(1);
    }
    None
}

/// The place of the first coordinate of a variable's name. Names of one byte, as most variables have, are looked for without a call.
#[inline(always)]
pub(crate) fn place_named(coordinates: &[Coordinate], name: &str) -> Option<usize>
    ensures { IfSome result (λ i. (zs : List ℤ) → bound (map (λ c. string_bytes c.variable) coordinates.now) zs name.now ≡ slice_index_or zs i (pos 0)) }
{
    if let [byte] = name.as_bytes() {
        if let Some(place) = early_place(coordinates, *byte) {
            return Some(place);
        }
    }
    place_among(coordinates, name)
}

/// The same, by all coordinates one after another.
#[inline(never)]
fn place_among(coordinates: &[Coordinate], name: &str) -> Option<usize>
    ensures { IfSome result (λ i. (zs : List ℤ) → bound (map (λ c. string_bytes c.variable) coordinates.now) zs name.now ≡ slice_index_or zs i (pos 0)) }
{
    for (place, coordinate) in coordinates.iter().enumerate() {
        if is_named(coordinate.variable.as_str(), name) {
            return Some(place);
        }
    }
    None
}

/// Whether a point lies on the extents.
fn is_within(extents: &[u64], at: &[i64]) -> bool
    ensures { result ≡ is_within extents.now at.now }
{
    match (extents, at) {
        ([], []) => true,
        ([extent, extents @ ..], [coordinate, at @ ..]) => {
            0 <= *coordinate
                && i128::from(*coordinate) < i128::from(*extent)
                && is_within(extents, at)
        }
        _ => false,
    }
}

impl Reading<'_, '_> {
    ghost use Rattle.std.specs.Prelude.{length};
    ghost use Rattle.meaning.specs.Image.View.{image_of};
    ghost use Rattle.plan.specs.View.{plan_of};
    ghost use Rattle.plan.specs.Certificate.Certificate.{certificate_of};
    ghost use Rattle.plan.specs.Semantics.Memory.{read};
    ghost use Rattle.plan.specs.Semantics.Run.{claim_source, look_at};
    ghost use Rattle.plan.specs.Claimed.{claim_of as claim_meant};
    ghost use Rattle.interpreter.specs.Buffers.Blocks.{memory_of};
    ghost use Rattle.interpreter.specs.Pieces.{around, no_cells};

    /// The input's sample at a point; nothing where the point is off the extents.
    pub(crate) fn sample(&self, at: &[i64]) -> Option<Value>
        ensures { result ≡ (around self.now.piece.now no_cells).sample at.now }
    {
        let input = &self.piece.plan.input;
        if is_within(&input.extents, at) {
            Some(Value {
                ty: input.ty,
                number: self.piece.image.sample(at),
            })
        } else {
            None
        }
    }

    /// What the claim of which a name speaks finds at a point.
    fn load(&self, name: &str, at: &[i64]) -> Option<Value>
        ensures { result ≡ look_at (around self.now.piece.now no_cells) (memory_of self.now.memory.now) (claim_source (length self.now.piece.now.cert.now.claims.items) (claim_meant name.now)) at.now }
    {
        let claim = self.piece.cert.claims.get(claim_of(name)?)?;
        self.memory.read(claim.buffer, at)
    }
}

impl Reading<'_, '_> {
    ghost use Rattle.interpreter.specs.Claims.{Means};
    ghost use Rattle.interpreter.specs.Pieces.{IsReady};

    /// What a name finds at a point, where it means this claim. Names are compared only where it means none.
    pub(crate) fn look_by(&self, claim: Option<usize>, name: &str, at: &[i64]) -> Option<Value>
        requires ready { IsReady self.now.piece.now }
        requires means { Means name.now claim }
        ensures { result ≡ found_in self.now.piece.now self.now.memory.now name.now at.now }
    {
        let Some(number) = claim else {
            return self.look(name, at);
        };
        if !self.piece.is_plain {
            return self.look(name, at);
        }
        match self.piece.cert.claims.get(number) {
            Some(claim) => self.memory.read(claim.buffer, at),
            None => self.look(name, at),
        }
    }
}

impl Reader for Reading<'_, '_> {
    ghost variables = { λ r. bound (map (λ c. string_bytes c.variable) r.coordinates.now) r.numbers.now };

    ghost look = { λ r. found_in r.piece.now r.memory.now };

    fn variable(&self, name: &str) -> i64 {
        number_bound(self.coordinates, self.numbers, name)
    }

    fn look(&self, name: &str, at: &[i64]) -> Option<Value> {
        if is_named(name, self.piece.plan.input.name.as_str()) {
            self.sample(at)
        } else {
            self.load(name, at)
        }
    }
}
