//! Reading the lines of a certificate without a look at what stands between their words.

ghost use Rattle.std.specs.Prelude.{◌≡◌, IfOk};
ghost use Rattle.plan.specs.Certificate.Certificate.{claim_of};
ghost use Rattle.cert.specs.Lines.{line_of};
ghost use Rattle.cert.specs.Reading as spec;

use crate::line::Line;
use plan::certificate::{Claim, Need, Own, Window};
use spelling::sizes::size_from;
use spelling::words::{begins, count_from, name_from, region_from, skip, span_from, symbol_from};
use std::alloc::{AllocError, Global};

#[tactic(auto, unfolding(crate::specs::Reading::own_from))]
fn own_from(alloc: Global, text: &[u8]) -> Result<Own, AllocError>
    ensures { IfOk result (λ own. own ≡ spec.own_from text.now) }
{
    let (group, rest) = size_from(skip(4, text));
    let (region, _) = region_from(alloc, skip(1, rest))?;
    Ok(Own { group, region })
}

#[tactic(auto, unfolding(crate::specs::Reading::need_from))]
fn need_from(alloc: Global, text: &[u8]) -> Result<Need, AllocError>
    ensures { IfOk result (λ need. need ≡ spec.need_from text.now) }
{
    let (group, rest) = size_from(skip(5, text));
    let (needed, rest) = size_from(skip(1, rest));
    let (region, _) = region_from(alloc, skip(1, rest))?;
    Ok(Need {
        group,
        needed,
        region,
    })
}

/// A claim without its number.
#[tactic(auto, unfolding(crate::specs::Reading::claim_from))]
fn claim_from(alloc: Global, text: &[u8]) -> Result<Claim, AllocError>
    ensures { IfOk result (λ claim. claim_of claim ≡ spec.claim_from text.now) }
{
    let (line, rest) = size_from(skip(1, text));
    let (buffer, rest) = size_from(skip(2, rest));
    let (function, rest) = name_from(alloc, skip(1, rest))?;
    let (definition, rest) = size_from(skip(1, rest));
    let (region, _) = region_from(alloc, skip(1, rest))?;
    Ok(Claim {
        line,
        buffer,
        function,
        definition,
        region,
    })
}

#[tactic(auto, unfolding(crate::specs::Reading::window_from))]
fn window_from(alloc: Global, text: &[u8]) -> Result<Window, AllocError>
    ensures { IfOk result (λ window. window ≡ spec.window_from text.now) }
{
    let (claim, rest) = size_from(skip(7, text));
    let (symbol, rest) = symbol_from(skip(1, rest));
    let (dimension, rest) = size_from(skip(1, rest));
    let (fold, rest) = size_from(skip(1, rest));
    let (span, _) = span_from(alloc, skip(1, rest))?;
    Ok(Window {
        claim,
        symbol,
        dimension,
        fold,
        span,
    })
}

/// Some line, and the line that is written so where there is one.
pub(crate) fn line_from(alloc: Global, text: &[u8]) -> Result<Line, AllocError>
    ensures { IfOk result (λ line. line_of line ≡ spec.line_from text.now) }
{
    if begins(b'o', text) {
        Ok(Line::Own(own_from(alloc, text)?))
    } else if begins(b'n', text) {
        Ok(Line::Need(need_from(alloc, text)?))
    } else if begins(b'w', text) {
        Ok(Line::Window(window_from(alloc, text)?))
    } else if begins(b'e', text) {
        Ok(Line::End)
    } else if begins(b'l', skip(1, text)) {
        let (number, rest) = count_from(skip(6, text));
        Ok(Line::Claim(number, claim_from(alloc, rest)?))
    } else {
        Ok(Line::Head)
    }
}
