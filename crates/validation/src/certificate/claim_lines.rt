//! What is wrong with the lines of claims.

ghost use Rattle.std.specs.Prelude.{◌≡◌, ◌&&◌, nat_lt, ℕ, IfOk, Some, map, string_bytes};
ghost use Rattle.meaning.specs.Conditions.{function_named};
ghost use Rattle.meaning.specs.Names.{same_name};
ghost use Rattle.plan.specs.Lines.{certificate_line};
ghost use Rattle.plan.specs.View.{plan_of};
ghost use Rattle.plan.specs.Certificate.Certificate.{certificate_of, claim_of};
ghost use Rattle.algo.specs.Parts.{function_of, functions_of};
ghost use Rattle.std.specs.declared.string.String.{String};
ghost use Rattle.std.specs.Global.{Global};
ghost use Rattle.algo.specs.View.{algorithm_of};
ghost use Rattle.soundness.specs.Outline.Forms.{spans_are_within_limits, have_ends};
ghost use Rattle.soundness.specs.Outline.Flaws.{first_of, told, line_told};
ghost use Rattle.soundness.specs.Outline.View.{buffer_in};
ghost use Rattle.validation.specs.Certificate.Lines.{line_flaws, each_line, told_at};
ghost use Rattle.validation.specs.Certificate.Certificate.{is_of_buffer, is_of_function, is_at, claim_is_known, claim_flaws};
ghost use Rattle.validation.specs.Certificate.Placing.{place_at};
ghost use Rattle.validation.specs.Certificate.Counted.{group_counted};
ghost use Rattle.validation.specs.Certificate.View.{place_of};

use crate::among::is_among;
use crate::certificate::codes::line_code;
use crate::certificate::counted::CountedOutline;
use crate::certificate::placed::{Placed, outlines_of, placed_at};
use algo::{Algo, Function};
use indexmap::IndexMap;
use plan::Plan;
use plan::certificate::{Cert, Claim};
use soundness::outline::Outlined;
use soundness::outline::forms::{have_ends, spans_are_over, spans_are_within_limits};
use soundness::outline::refusals::{Flaw, K};
use std::alloc::{AllocError, Global};

/// The most claims of a certificate.
const MOST_CLAIMS: usize = 4096;

/// Whether the names are the same.
fn same_name(left: &str, right: &str) -> bool
    ensures { result ≡ same_name left.now right.now }
{
    left == right
}

/// Whether both hold.
pub(crate) fn both(one: bool, other: bool) -> bool
    ensures { result ≡ (one && other) }
{
    one && other
}

/// Whether the function has the claim's definition and as many variables as the claim has spans.
fn has_definition(function: &Function, claim: &Claim) -> bool
    ensures { (name : String Global) → result ≡ is_of_function (Some (function_of (name, function.now))) (claim_of claim.now) }
{
    claim.definition <= function.updates.len() as u64
        && claim.region.as_slice().len() == function.variables.len()
}

/// Whether the claim's function is known, and has the claim's definition and as many variables as the claim has spans.
fn is_of_function(functions: &IndexMap<String, Function>, claim: &Claim) -> bool
    ensures { result ≡ is_of_function (function_named (functions_of functions.now.entries) (string_bytes claim.now.function)) (claim_of claim.now) }
{
    match functions.get(claim.function.as_str()) {
        None => false,
        Some(function) => has_definition(function, claim),
    }
}

/// Whether the buffer is allocated in the group, for values of the claim's function.
fn is_of_buffer(outlined: &Outlined<'_>, claim: &Claim) -> bool
    ensures { result ≡ is_of_buffer (buffer_in outlined.now claim.now.buffer) (claim_of claim.now) }
{
    match outlined.buffer_places(claim.buffer) {
        None => false,
        Some(_) => same_name(
            outlined.buffer_function(claim.buffer),
            claim.function.as_str(),
        ),
    }
}

/// Whether a claim is of a buffer of the group that is in scope at a place, in symbols that are bound there.
fn is_claim_at(placed: &Placed<'_, '_>, claim: &Claim) -> bool
    ensures { result ≡ is_at (Some (place_of placed.now)) (claim_of claim.now) }
{
    is_among(&placed.spot.buffers, claim.buffer)
        && is_of_buffer(placed.outlined, claim)
        && spans_are_over(&placed.spot.symbols, claim.region.as_slice())
}

/// Whether a statement ends at the claim's line, and the claim is of a buffer of that group that is in scope there, in symbols
/// that are bound there.
fn is_at(alloc: Global, outlines: &[CountedOutline<'_>], claim: &Claim) -> Result<bool, AllocError>
    ensures { IfOk result (λ yes. yes ≡ is_at (place_at (map group_counted outlines.now) claim.now.line) (claim_of claim.now)) }
{
    match placed_at(alloc, outlines, claim.line)? {
        None => Ok(false),
        Some(placed) => Ok(is_claim_at(&placed, claim)),
    }
}

/// What is wrong with the line of the claim of this number.
fn claim_code(
    alloc: Global,
    functions: &IndexMap<String, Function>,
    outlines: &[CountedOutline<'_>],
    number: usize,
    claim: &Claim,
) -> Result<Option<K>, AllocError>
    ensures { IfOk result (λ code. (line : ℕ) → told_at code line ≡ first_of (line_flaws (claim_is_known (functions_of functions.now.entries) (map group_counted outlines.now) (claim_of claim.now)) (spans_are_within_limits claim.now.region) (have_ends claim.now.region && nat_lt number 4096) line)) }
{
    let region = claim.region.as_slice();
    let at = is_at(alloc, outlines, claim)?;
    let known = both(is_of_function(functions, claim), at);
    let listed = both(have_ends(region), number < MOST_CLAIMS);
    Ok(line_code(known, spans_are_within_limits(region), listed))
}

/// The first flaw of the lines of claims, where the line `cert` is given.
pub(crate) fn claim_flaw(
    alloc: Global,
    algo: &Algo,
    plan: &Plan,
    cert: &Cert,
    line: u32,
) -> Result<Option<Flaw>, AllocError>
    requires { line ≡ line_told (certificate_line (plan_of plan.now)) }
    ensures { IfOk result (λ found. told found ≡ first_of (each_line (claim_flaws (algorithm_of algo.now) (plan_of plan.now) (certificate_of cert.now)) 0 (certificate_of cert.now).claims)) }
{
    let functions = algo.funcs();
    let outlines = outlines_of(alloc, plan, cert)?;
    for (index, claim) in cert.claims.iter().enumerate() {
        if let Some(code) = claim_code(alloc, functions, &outlines, index, claim)? {
            let line = cert.claim_line(line, index);
            return Ok(Some(Flaw { code, line }));
        }
    }
    Ok(None)
}
