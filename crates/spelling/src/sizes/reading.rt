//! Reading sizes, without a look at what stands around them.

ghost use Rattle.std.specs.Prelude.{◌≡◌, IfOk, [], length};
ghost use Rattle.spelling.specs.Words.Reading.{separated_from};
ghost use Rattle.spelling.specs.Sizes.Sizes as spec;

use crate::words::{begins, number_from, skip};
use std::alloc::{AllocError, Global};

/// The size at the front, 0 where it takes more than 63 bits, and what follows its digits.
#[tactic(auto, using(crate::proofs::Signs::size_behind_minus, crate::proofs::Signs::size_of_number, crate::proofs::Signs::rest_of_number))]
pub fn size_from(text: &[u8]) -> (u64, &[u8])
    ensures size { result.0 ≡ (spec.size_from text.now).0 }
    ensures rest { result.1.now ≡ (spec.size_from text.now).1 }
{
    if begins(b'-', text) {
        return (0, text);
    }
    let (number, rest) = number_from(text);
    (number.unsigned_abs(), rest)
}

/// Sizes as long as a comma follows, but not more than a number.
fn sizes_by_commas(alloc: Global, most: usize, text: &[u8]) -> Result<(Vec<u64>, &[u8]), AllocError>
    ensures sizes { IfOk result (λ r. r.0.items ≡ (separated_from 44 spec.size_from most [] text.now).0) }
    ensures rest { IfOk result (λ r. r.1.now ≡ (separated_from 44 spec.size_from most [] text.now).1) }
{
    let mut found = Vec::new(alloc);
    let mut rest = text;
    for _ in 0..most {
        let (size, next) = size_from(rest);
        found.push(size)?;
        if !begins(b',', next) {
            return Ok((found, next));
        }
        rest = skip(1, next);
    }
    Ok((found, rest))
}

/// The sizes at the front, in brackets, and what follows them.
#[tactic(auto, unfolding(crate::specs::Words::Reading::bracketed_from))]
pub fn sizes_from(alloc: Global, text: &[u8]) -> Result<(Vec<u64>, &[u8]), AllocError>
    ensures sizes { IfOk result (λ r. r.0.items ≡ (spec.sizes_from text.now).0) }
    ensures rest { IfOk result (λ r. r.1.now ≡ (spec.sizes_from text.now).1) }
{
    if begins(b']', skip(1, text)) {
        return Ok((Vec::new(alloc), skip(2, text)));
    }
    let (sizes, rest) = sizes_by_commas(alloc, text.len(), skip(1, text))?;
    Ok((sizes, skip(1, rest)))
}
