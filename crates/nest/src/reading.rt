//! Lines are read without a look at what stands between their parts, and then compared with what is written for the
//! line that was read.

ghost use Rattle.std.specs.Prelude.{◌≡◌, [], length, drop, map, IfOk};
ghost use Rattle.plan.specs.View.{coordinate_of, declaration_of, index_of};
ghost use Rattle.spelling.specs.Words.Reading as words;
ghost use Rattle.spelling.specs.Sizes.Sizes.{size_from};
ghost use Rattle.nest.specs.Blocks.View.{line_of};
ghost use Rattle.nest.specs.Reading as spec;

use crate::blocks::Line;
use plan::{Coordinate, Declaration, Index, Kind, Pick, Places};
use spelling::sizes::{size_from, sizes_from};
use spelling::terms::term_from;
use spelling::words::{
    begins, count_from, form_from, forms_from, name_from, region_from, skip, span_from,
    symbol_from, type_from,
};
use std::alloc::{AllocError, Global};

fn kind_of(text: &[u8]) -> Kind
    ensures { result ≡ spec.kind_of text.now }
{
    if begins(b's', text) {
        Kind::Serial
    } else if begins(b'u', text) {
        Kind::Unroll
    } else {
        Kind::Vector
    }
}

fn pick_of(text: &[u8]) -> Pick
    ensures { result ≡ spec.pick_of text.now }
{
    if begins(b'i', skip(1, text)) {
        Pick::Min
    } else {
        Pick::Max
    }
}

#[tactic(auto, unfolding(crate::specs::Reading::declaration_from))]
fn declaration_from(alloc: Global, text: &[u8]) -> Result<Declaration, AllocError>
    ensures { IfOk result (λ d. declaration_of d ≡ spec.declaration_from text.now) }
{
    let (name, rest) = name_from(alloc, text)?;
    let (ty, rest) = type_from(skip(1, rest));
    let (extents, _) = sizes_from(alloc, skip(1, rest))?;
    Ok(Declaration { name, ty, extents })
}

#[tactic(auto, unfolding(crate::specs::Reading::place_from))]
fn place_from(alloc: Global, text: &[u8]) -> Result<(Places, &[u8]), AllocError>
    ensures place { IfOk result (λ r. r.0 ≡ (spec.place_from text.now).0) }
    ensures rest { IfOk result (λ r. r.1.now ≡ (spec.place_from text.now).1) }
{
    if begins(b'%', text) {
        let (count, rest) = size_from(skip(1, text));
        return Ok((Places::Folded { count }, rest));
    }
    let (origin, rest) = form_from(alloc, text)?;
    let (count, rest) = size_from(skip(1, rest));
    Ok((Places::From { origin, count }, rest))
}

fn places_by_semicolons(alloc: Global, most: usize, text: &[u8]) -> Result<Vec<Places>, AllocError>
    ensures { IfOk result (λ r. r.items ≡ (words.separated_from 59 spec.place_from most [] text.now).0) }
{
    let mut found = Vec::new(alloc);
    let mut rest = text;
    for _ in 0..most {
        let (place, next) = place_from(alloc, rest)?;
        found.push(place)?;
        if !begins(b';', next) {
            return Ok(found);
        }
        rest = skip(1, next);
    }
    Ok(found)
}

/// The places between brackets; what follows them is not looked at.
#[tactic(auto, unfolding(crate::specs::Reading::places_from, spelling::specs::Words::Reading::bracketed_from))]
fn places_from(alloc: Global, text: &[u8]) -> Result<Vec<Places>, AllocError>
    ensures { IfOk result (λ r. r.items ≡ (spec.places_from text.now).0) }
{
    if begins(b']', skip(1, text)) {
        return Ok(Vec::new(alloc));
    }
    places_by_semicolons(alloc, text.len(), skip(1, text))
}

#[tactic(auto, unfolding(crate::specs::Reading::index_from))]
fn index_from(alloc: Global, text: &[u8]) -> Result<(Index, &[u8]), AllocError>
    ensures index { IfOk result (λ r. index_of r.0 ≡ (spec.index_from text.now).0) }
    ensures rest { IfOk result (λ r. r.1.now ≡ (spec.index_from text.now).1) }
{
    if begins(b'=', text) {
        let (form, rest) = form_from(alloc, skip(1, text))?;
        return Ok((Index::Form(form), rest));
    }
    let (term, rest) = term_from(alloc, skip(1, text))?;
    Ok((Index::Found(term), rest))
}

#[tactic(auto, unfolding(crate::specs::Reading::coordinate_from))]
fn coordinate_from(alloc: Global, text: &[u8]) -> Result<(Coordinate, &[u8]), AllocError>
    ensures coordinate { IfOk result (λ r. coordinate_of r.0 ≡ (spec.coordinate_from text.now).0) }
    ensures rest { IfOk result (λ r. r.1.now ≡ (spec.coordinate_from text.now).1) }
{
    let (variable, rest) = name_from(alloc, text)?;
    let (index, rest) = index_from(alloc, rest)?;
    Ok((Coordinate { variable, index }, rest))
}

fn has_blank(text: &[u8]) -> bool
    ensures { result ≡ spec.has_blank text.now }
{
    text.iter().any(|byte| *byte == b' ')
}

fn coordinates_from(
    alloc: Global,
    most: usize,
    text: &[u8],
) -> Result<(Vec<Coordinate>, &[u8]), AllocError>
    ensures coordinates { IfOk result (λ r. map coordinate_of r.0.items ≡ (spec.coordinates_from most [] text.now).0) }
    ensures rest { IfOk result (λ r. r.1.now ≡ (spec.coordinates_from most [] text.now).1) }
{
    let mut found = Vec::new(alloc);
    let mut rest = text;
    for _ in 0..most {
        if !has_blank(rest) {
            return Ok((found, rest));
        }
        let (coordinate, next) = coordinate_from(alloc, rest)?;
        // Where no blank follows, the line is of no plan. So what was walked for a blank is read, and no byte is walked again.
        if !begins(b' ', next) {
            return Ok((found, rest));
        }
        found.push(coordinate)?;
        rest = skip(1, next);
    }
    Ok((found, rest))
}

/// The sizes of a grid, with blanks between them.
fn grid_from(alloc: Global, text: &[u8]) -> Result<Vec<u64>, AllocError>
    ensures { IfOk result (λ r. r.items ≡ (words.separated_from 32 size_from (length text.now) [] text.now).0) }
{
    let mut found = Vec::new(alloc);
    let mut rest = text;
    for _ in 0..text.len() {
        let (count, next) = size_from(rest);
        found.push(count)?;
        if !begins(b' ', next) {
            return Ok(found);
        }
        rest = skip(1, next);
    }
    Ok(found)
}

#[tactic(auto, unfolding(crate::specs::Reading::group_from))]
fn group_from(alloc: Global, text: &[u8]) -> Result<Line, AllocError>
    ensures { IfOk result (λ line. line_of line ≡ spec.group_from text.now) }
{
    let (number, rest) = count_from(text);
    let (function, rest) = name_from(alloc, skip(1, rest))?;
    let (region, rest) = region_from(alloc, skip(1, rest))?;
    let grid = grid_from(alloc, skip(6, rest))?;
    Ok(Line::Group {
        number,
        function,
        region,
        grid,
    })
}

#[tactic(auto, unfolding(crate::specs::Reading::for_from))]
fn for_from(alloc: Global, text: &[u8]) -> Result<Line, AllocError>
    ensures { IfOk result (λ line. line_of line ≡ spec.for_from text.now) }
{
    let (symbol, rest) = symbol_from(text);
    let (span, rest) = span_from(alloc, skip(1, rest))?;
    let kind = kind_of(skip(1, rest));
    Ok(Line::For { symbol, span, kind })
}

#[tactic(auto, unfolding(crate::specs::Reading::let_from))]
fn let_from(alloc: Global, text: &[u8]) -> Result<Line, AllocError>
    ensures { IfOk result (λ line. line_of line ≡ spec.let_from text.now) }
{
    let (symbol, rest) = symbol_from(text);
    let pick = pick_of(skip(1, rest));
    let (forms, _) = forms_from(alloc, skip(5, rest))?;
    Ok(Line::Let {
        symbol,
        pick,
        forms,
    })
}

#[tactic(auto, unfolding(crate::specs::Reading::guard_from))]
fn guard_from(alloc: Global, text: &[u8]) -> Result<Line, AllocError>
    ensures { IfOk result (λ line. line_of line ≡ spec.guard_from text.now) }
{
    let (low, rest) = form_from(alloc, text)?;
    let (high, _) = form_from(alloc, skip(2, rest))?;
    Ok(Line::Guard { low, high })
}

#[tactic(auto, unfolding(crate::specs::Reading::alloc_from))]
fn alloc_from(alloc: Global, text: &[u8]) -> Result<Line, AllocError>
    ensures { IfOk result (λ line. line_of line ≡ spec.alloc_from text.now) }
{
    let (buffer, rest) = size_from(text);
    let (function, rest) = name_from(alloc, skip(1, rest))?;
    let places = places_from(alloc, skip(1, rest))?;
    Ok(Line::Alloc {
        buffer,
        function,
        places,
    })
}

#[tactic(auto, unfolding(crate::specs::Reading::fetch_from))]
fn fetch_from(alloc: Global, text: &[u8]) -> Result<Line, AllocError>
    ensures { IfOk result (λ line. line_of line ≡ spec.fetch_from text.now) }
{
    let (buffer, rest) = size_from(text);
    let (group, rest) = size_from(skip(1, rest));
    let (region, _) = region_from(alloc, skip(1, rest))?;
    Ok(Line::Fetch {
        buffer,
        group,
        region,
    })
}

#[tactic(auto, unfolding(crate::specs::Reading::store_from))]
fn store_from(alloc: Global, text: &[u8]) -> Result<Line, AllocError>
    ensures { IfOk result (λ line. line_of line ≡ spec.store_from text.now) }
{
    let (buffer, rest) = size_from(text);
    let (definition, rest) = size_from(skip(1, rest));
    let (coordinates, rest) = coordinates_from(alloc, rest.len(), skip(1, rest))?;
    let (value, _) = term_from(alloc, rest)?;
    Ok(Line::Store {
        buffer,
        definition,
        coordinates,
        value,
    })
}

/// A line that begins with `p`.
fn named_from(alloc: Global, text: &[u8]) -> Result<Line, AllocError>
    ensures { IfOk result (λ line. line_of line ≡ spec.named_from text.now) }
{
    if begins(b'l', skip(1, text)) {
        let (name, _) = name_from(alloc, skip(7, text))?;
        return Ok(Line::Plan { name });
    }
    let (claim, _) = size_from(skip(9, text));
    Ok(Line::Publish { claim })
}

/// A line that begins with `f`.
fn looped_from(alloc: Global, text: &[u8]) -> Result<Line, AllocError>
    ensures { IfOk result (λ line. line_of line ≡ spec.looped_from text.now) }
{
    if begins(b'o', skip(1, text)) {
        return for_from(alloc, skip(4, text));
    }
    if begins(b'i', skip(1, text)) {
        let (symbol, _) = symbol_from(skip(6, text));
        return Ok(Line::First { symbol });
    }
    fetch_from(alloc, skip(7, text))
}

/// Some line, and the line that is written so where there is one.
#[tactic(auto, unfolding(crate::specs::Reading::line_from))]
pub(crate) fn line_from(alloc: Global, text: &[u8]) -> Result<Line, AllocError>
    ensures { IfOk result (λ line. line_of line ≡ spec.line_from text.now) }
{
    if begins(b'f', text) {
        return looped_from(alloc, text);
    }
    if begins(b'g', text) {
        if begins(b'r', skip(1, text)) {
            return group_from(alloc, skip(6, text));
        }
        return guard_from(alloc, skip(6, text));
    }
    if begins(b'e', text) {
        if begins(b'l', skip(1, text)) {
            return Ok(Line::Else);
        }
        return Ok(Line::End);
    }
    if begins(b'p', text) {
        return named_from(alloc, text);
    }
    if begins(b's', text) {
        return store_from(alloc, skip(7, text));
    }
    if begins(b'a', text) {
        return alloc_from(alloc, skip(7, text));
    }
    if begins(b'l', text) {
        return let_from(alloc, skip(4, text));
    }
    if begins(b'i', text) {
        return Ok(Line::Input(declaration_from(alloc, skip(6, text))?));
    }
    Ok(Line::Output(declaration_from(alloc, skip(7, text))?))
}
