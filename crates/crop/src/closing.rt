//! Whether the output is kept, and whether what is kept is closed: whether all that functions need lies in what is asked for.

ghost use Rattle.std.specs.Prelude.{◌≡◌, ◌<◌, ℕ, List, IfOk, IsTrue, IsSome, Some, MatchOption, [], length, option_map, slice_get};
ghost use Rattle.meaning.specs.Algorithm.{Function as Said};
ghost use Rattle.algo.specs.View.{algorithm_of};
ghost use Rattle.bounds.specs.Spans.{ends_of};
ghost use Rattle.crop.specs.Inference.Needed.{needed, callable_through};
ghost use Rattle.crop.specs.Cutting.{Kept as SaidKept, HoldsBox, KeepsTile, kept_named, lows, HoldsSpan, HoldsSpans, IsCovered, IsClosedAt, region_named, spans_of};
ghost use Rattle.crop.specs.Rebuilt.{IsKept};
ghost use Rattle.crop.specs.View.{kept_of, cut_of};

use crate::callees::function_at;
use crate::cut::{Cut, Kept, Stretch};
use crate::inference::needed;
use crate::lookup::kept_named;
use crate::regions::region_of;
use algo::Algo;
use algo::scoping::same_name;
use bounds::{BoundsError, constant_ends};
use lin::{Region, Scope, Span1};
use std::alloc::{AllocError, Global};

// Whether a span's constant ends lie in the stretch. A yes is sure, as of all tests here.
fn holds_span(alloc: Global, stretch: Stretch, span: &Span1) -> Result<bool, AllocError>
    ensures { IfOk result (λ yes. IsTrue yes → HoldsSpan stretch (ends_of [] span.now)) }
{
    match constant_ends(alloc, &Scope::new(alloc), span)? {
        Some(ends) => {
            Ok(i64::from(stretch.low) <= ends.low && ends.high <= i64::from(stretch.high))
        }
        None => Ok(false),
    }
}

// Whether all spans do, in their order.
fn holds_spans(alloc: Global, stretches: &[Stretch], spans: &[Span1]) -> Result<bool, AllocError>
    ensures { IfOk result (λ yes. IsTrue yes → HoldsSpans stretches.now spans.now) }
{
    match stretches {
        [] => match spans {
            [] => Ok(true),
            [_, ..] => Ok(false),
        },
        [stretch, stretches @ ..] => match spans {
            [] => Ok(false),
            [span, spans @ ..] => {
                if !holds_span(alloc, *stretch, span)? {
                    return Ok(false);
                }
                holds_spans(alloc, stretches, spans)
            }
        },
    }
}

// The points that are asked for of what has the name.
fn region_named<'a>(algo: &Algo, cut: &'a Cut, name: &str) -> Option<&'a [Stretch]>
    ensures { option_map (λ x. x.now) result ≡ region_named (algorithm_of algo.now) (cut_of cut.now) name.now }
{
    if same_name(algo.input().name.as_str(), name) {
        return Some(&cut.asked);
    }
    match kept_named(algo, cut, name) {
        Some(kept) => Some(&kept.region),
        None => None,
    }
}

// Whether a region that is needed of what has the name is asked for.
fn is_covered(
    alloc: Global,
    algo: &Algo,
    cut: &Cut,
    name: &str,
    found: &Region,
) -> Result<bool, AllocError>
    ensures { IfOk result (λ yes. IsTrue yes → IsCovered (region_named (algorithm_of algo.now) (cut_of cut.now) name.now) (Some found.now)) }
{
    match found.as_slice() {
        [] => Ok(true),
        [_, ..] => match region_named(algo, cut, name) {
            Some(stretches) => holds_spans(alloc, stretches, found.as_slice()),
            None => Ok(false),
        },
    }
}

// Whether what the k-th function needs of what has the name is asked for.
fn covers(
    alloc: Global,
    algo: &Algo,
    cut: &Cut,
    number: usize,
    region: &Region,
    name: &str,
) -> Result<bool, AllocError>
    requires { number < length (algorithm_of algo.now).functions }
    ensures { IfOk result (λ yes. IsTrue yes → IsCovered (region_named (algorithm_of algo.now) (cut_of cut.now) name.now)
        (needed [] (algorithm_of algo.now) number name.now region.now)) }
{
    match needed(alloc, &Scope::new(alloc), algo, number, name, region) {
        Ok(found) => is_covered(alloc, algo, cut, name, &found),
        Err(BoundsError::Limit) => Ok(false),
        Err(BoundsError::Memory) => Err(AllocError),
    }
}

// Whether what the k-th function needs of the functions before it is asked for.
fn covers_before(
    alloc: Global,
    algo: &Algo,
    cut: &Cut,
    number: usize,
    region: &Region,
) -> Result<bool, AllocError>
    requires { number < length (algorithm_of algo.now).functions }
    ensures { IfOk result (λ yes. IsTrue yes → (k : ℕ) (f : Said) → k < number → slice_get (algorithm_of algo.now).functions k ≡ Some f
        → IsCovered (region_named (algorithm_of algo.now) (cut_of cut.now) f.name) (needed [] (algorithm_of algo.now) number f.name region.now)) }
{
    for callee in 0..number {
        let (name, _) = function_at(algo, callee);
        if !covers(alloc, algo, cut, number, region, name.as_str())? {
            return Ok(false);
        }
    }
    Ok(true)
}

// Whether what the k-th function needs of all that it may call, itself and the input included, is asked for.
fn covers_all(
    alloc: Global,
    algo: &Algo,
    cut: &Cut,
    number: usize,
    region: &Region,
) -> Result<bool, AllocError>
    requires { number < length (algorithm_of algo.now).functions }
    ensures { IfOk result (λ yes. IsTrue yes → (name : List ℕ) → IsSome (callable_through (algorithm_of algo.now) number name)
        → IsCovered (region_named (algorithm_of algo.now) (cut_of cut.now) name) (needed [] (algorithm_of algo.now) number name region.now)) }
{
    if !covers_before(alloc, algo, cut, number, region)? {
        return Ok(false);
    }
    let (own, _) = function_at(algo, number);
    if !covers(alloc, algo, cut, number, region, own.as_str())? {
        return Ok(false);
    }
    covers(alloc, algo, cut, number, region, algo.input().name.as_str())
}

// Whether it is closed at the k-th function.
fn is_closed_at(
    alloc: Global,
    algo: &Algo,
    cut: &Cut,
    number: usize,
    kept: &Kept,
) -> Result<bool, AllocError>
    requires { number < length (algorithm_of algo.now).functions }
    ensures { IfOk result (λ yes. IsTrue yes → (f : Said) → slice_get (algorithm_of algo.now).functions number ≡ Some f
        → IsClosedAt (algorithm_of algo.now) (cut_of cut.now) number f (kept_of kept.now)) }
{
    let (_, function) = function_at(algo, number);
    if kept.region.len() != function.variables.len() {
        return Ok(false);
    }
    let region = region_of(alloc, &kept.region)?;
    covers_all(alloc, algo, cut, number, &region)
}

// The same, where the function is kept.
fn is_closed_if(
    alloc: Global,
    algo: &Algo,
    cut: &Cut,
    number: usize,
    kept: &Option<Kept>,
) -> Result<bool, AllocError>
    requires { number < length (algorithm_of algo.now).functions }
    ensures { IfOk result (λ yes. IsTrue yes → (f : Said) (one : SaidKept) → slice_get (algorithm_of algo.now).functions number ≡ Some f
        → option_map kept_of kept.now ≡ Some one → IsClosedAt (algorithm_of algo.now) (cut_of cut.now) number f one) }
{
    match kept {
        Some(kept) => is_closed_at(alloc, algo, cut, number, kept),
        None => Ok(true),
    }
}

// Whether something is said of each function, and what is kept of them is closed.
fn is_closed(alloc: Global, algo: &Algo, cut: &Cut) -> Result<bool, AllocError>
    ensures each { IfOk result (λ yes. IsTrue yes → length (cut_of cut.now).kept ≡ length (algorithm_of algo.now).functions) }
    ensures closed { IfOk result (λ yes. IsTrue yes → (k : ℕ) (f : Said) (one : SaidKept) → slice_get (algorithm_of algo.now).functions k ≡ Some f
        → slice_get (cut_of cut.now).kept k ≡ Some (Some one) → IsClosedAt (algorithm_of algo.now) (cut_of cut.now) k f one) }
{
    if cut.kept.len() != algo.funcs().len() {
        return Ok(false);
    }
    for (number, kept) in cut.kept.iter().enumerate() {
        if !is_closed_if(alloc, algo, cut, number, kept)? {
            return Ok(false);
        }
    }
    Ok(true)
}

// Whether one box holds another.
fn holds_box(region: &[Stretch], tile: &[Stretch]) -> bool
    ensures { IsTrue result → HoldsBox region.now tile.now }
{
    match region {
        [] => match tile {
            [] => true,
            [_, ..] => false,
        },
        [stretch, rest @ ..] => match tile {
            [] => false,
            [inner, others @ ..] => {
                stretch.low <= inner.low && inner.high <= stretch.high && holds_box(rest, others)
            }
        },
    }
}

// Whether the origin is the box's low corner.
fn is_corner(origin: &[i32], tile: &[Stretch]) -> bool
    ensures { IsTrue result → origin.now ≡ lows tile.now }
{
    match origin {
        [] => match tile {
            [] => true,
            [_, ..] => false,
        },
        [number, rest @ ..] => match tile {
            [] => false,
            [stretch, others @ ..] => *number == stretch.low && is_corner(rest, others),
        },
    }
}

// Whether the output is kept, at the tile's corner and with all of the tile.
fn keeps_tile(algo: &Algo, cut: &Cut) -> bool
    ensures { IsTrue result → MatchOption (kept_named (algorithm_of algo.now).functions (cut_of cut.now).kept (algorithm_of algo.now).output) ⊥
        (KeepsTile (cut_of cut.now).tile) }
{
    match kept_named(algo, cut, algo.output().name.as_str()) {
        Some(kept) => is_corner(&kept.origin, &cut.tile) && holds_box(&kept.region, &cut.tile),
        None => false,
    }
}

/// Whether the output is kept and what is kept is closed. A yes is sure.
pub(crate) fn is_kept(alloc: Global, algo: &Algo, cut: &Cut) -> Result<bool, AllocError>
    ensures { IfOk result (λ yes. IsTrue yes → IsKept (algorithm_of algo.now) (cut_of cut.now)) }
{
    if !keeps_tile(algo, cut) {
        return Ok(false);
    }
    is_closed(alloc, algo, cut)
}
