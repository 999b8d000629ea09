//! Reading certificates: each line is read without a look at what stands between its words, and then compared with what
//! is written for the line that was read.

ghost use Rattle.std.specs.Prelude.{◌≡◌, ◌↔◌, [], IsTrue, IfOk, IfErr, IfSome, IfNone, OnOk};
ghost use Rattle.cert.specs.declared.line.Mark.TheVariants.{End};
ghost use Rattle.spelling.specs.Lines.Texts.{IsTextOf, IsRefused};
ghost use Rattle.std.specs.List.{list_any};
ghost use Rattle.std.specs.Str.{bytes_eq};
ghost use Rattle.plan.specs.Certificate.Certificate.{certificate_of, claim_of};
ghost use Rattle.cert.specs.Lines as spec;
ghost use Rattle.cert.specs.Lines.{Line as AnyLine};
ghost use Rattle.cert.specs.Spelling.{line_text};
ghost use Rattle.cert.specs.Order as order;
ghost use Rattle.cert.specs.Order.{IsNext};
ghost use Rattle.cert.specs.Notation as notation;
ghost use Rattle.cert.specs.Notation.{certificate_notation, IsWrong, IsLine};

use crate::line::{Line, Mark, may_follow, may_precede_claim};
use crate::words::line_from;
use crate::writing::put_line;
use lin::{Region, Span1};
use plan::certificate::{Cert, Claim, Need, Own, Window};
use spelling::lines::{TextError, is_within, split_line};
use spelling::sizes::fits_size;
use spelling::words::{
    fits_region, fits_span, fits_symbol, has_large_number, is_name, number_from, skip,
};
use std::alloc::{AllocError, Global};

/// Claims are numbered below this.
const MOST_CLAIMS: u32 = 4096;
/// The most bounds on one side of a span.
const MOST_BOUNDS: usize = 4;

fn fits_own(own: &Own) -> bool
    ensures { result ≡ order.fits_line (spec.OwnLine own.now) }
{
    fits_size(own.group) && fits_region(&own.region)
}

fn fits_need(need: &Need) -> bool
    ensures { result ≡ order.fits_line (spec.NeedLine need.now) }
{
    fits_size(need.group) && fits_size(need.needed) && fits_region(&need.region)
}

fn fits_claim(number: u32, claim: &Claim) -> bool
    ensures { result ≡ order.fits_line (spec.ClaimLine number (claim_of claim.now)) }
{
    number < MOST_CLAIMS
        && fits_size(claim.line)
        && fits_size(claim.buffer)
        && is_name(claim.function.as_bytes())
        && fits_size(claim.definition)
        && fits_region(&claim.region)
}

fn fits_window(window: &Window) -> bool
    ensures { result ≡ order.fits_line (spec.WindowLine window.now) }
{
    fits_size(window.claim)
        && fits_symbol(window.symbol)
        && fits_size(window.dimension)
        && fits_size(window.fold)
        && fits_span(&window.span)
}

/// Whether the parts of the line have a text.
fn fits_line(line: &Line) -> bool
    ensures { result ≡ order.fits_line (spec.line_of line.now) }
{
    match line {
        Line::Head | Line::End => true,
        Line::Own(own) => fits_own(own),
        Line::Need(need) => fits_need(need),
        Line::Claim(number, claim) => fits_claim(*number, claim),
        Line::Window(window) => fits_window(window),
    }
}

/// Whether the line is written so.
fn is_written(alloc: Global, line: &Line, bytes: &[u8]) -> Result<bool, AllocError>
    ensures { IfOk result (λ yes. yes ≡ bytes_eq (line_text (spec.line_of line.now)) bytes.now) }
{
    let mut text = String::new(alloc);
    put_line(&mut text, line)?;
    Ok(text.as_bytes() == bytes)
}

/// Whether the bytes are those of the line, and it may stand behind the last.
fn is_next(alloc: Global, last: Mark, line: &Line, bytes: &[u8]) -> Result<bool, AllocError>
    ensures { IfOk result (λ yes. yes ≡ order.is_next last bytes.now (spec.line_of line.now)) }
{
    let may_stand = fits_line(line) && may_follow(last, line.mark());
    Ok(may_stand && is_written(alloc, line, bytes)?)
}

/// The line that these bytes are, if they are one that may stand behind the last.
fn next_line(alloc: Global, last: Mark, bytes: &[u8]) -> Result<Option<Line>, AllocError>
    ensures found { IfOk result (λ next. IfSome next (λ line. IsNext last bytes.now (spec.line_of line))) }
    ensures none { IfOk result (λ next. IfNone next ((line : AnyLine) → IsNext last bytes.now line → ⊥)) }
{
    let line = line_from(alloc, bytes)?;
    if is_next(alloc, last, &line, bytes)? {
        Ok(Some(line))
    } else {
        Ok(None)
    }
}

/// Whether a side of the span has more bounds than there may be.
fn has_long_side(span: &Span1) -> bool
    ensures { result ≡ notation.has_long_side span.now }
{
    span.lower.as_slice().len() > MOST_BOUNDS || span.upper.as_slice().len() > MOST_BOUNDS
}

fn any_has_long_side(region: &Region) -> bool
    ensures { result ≡ list_any notation.has_long_side region.now }
{
    region.as_slice().iter().any(|span| has_long_side(span))
}

/// Whether a list of the line has too many bounds.
fn has_long_list(line: &Line) -> bool
    ensures { result ≡ notation.has_long_list (spec.line_of line.now) }
{
    match line {
        Line::Own(own) => any_has_long_side(&own.region),
        Line::Need(need) => any_has_long_side(&need.region),
        Line::Claim(_, claim) => any_has_long_side(&claim.region),
        Line::Window(window) => has_long_side(&window.span),
        Line::Head | Line::End => false,
    }
}

/// Whether the line is that of the next claim behind the last, and there are as many before it as there may be.
fn is_one_too_many(last: Mark, line: &Line) -> bool
    ensures { result ≡ notation.is_one_too_many last (spec.line_of line.now) }
{
    match line {
        Line::Claim(number, _) => may_precede_claim(last, *number) && *number >= MOST_CLAIMS,
        Line::Head | Line::Own(_) | Line::Need(_) | Line::Window(_) | Line::End => false,
    }
}

/// Whether the bytes are spelled as a line with too many bounds, or as that of one claim too many behind the last.
fn is_past(alloc: Global, last: Mark, bytes: &[u8]) -> Result<bool, AllocError>
    ensures { IfOk result (λ yes. yes ≡ notation.is_past last bytes.now) }
{
    let line = line_from(alloc, bytes)?;
    let written = is_written(alloc, &line, bytes)?;
    Ok(written && (has_long_list(&line) || is_one_too_many(last, &line)))
}

/// N2 where a line that is not as it has to be behind the last passes a limit, else N1.
fn refusal(alloc: Global, last: Mark, number: usize, bytes: &[u8]) -> Result<TextError, AllocError>
    ensures { IfOk result (λ e. e ≡ notation.refusal last number bytes.now) }
{
    if !is_within(number, bytes) || has_large_number(bytes) || is_past(alloc, last, bytes)? {
        Ok(TextError::Limit(number))
    } else {
        Ok(TextError::Form(number))
    }
}

/// The line of that number, which may stand behind the last. N1, N2 where there is none.
fn line_at(alloc: Global, last: Mark, number: usize, bytes: &[u8]) -> Result<Line, TextError>
    ensures found { IfOk result (λ line. IsLine last number bytes.now (spec.line_of line)) }
    ensures wrong { IfErr result (IsWrong last number bytes.now) }
{
    if !is_within(number, bytes) {
        return Err(refusal(alloc, last, number, bytes)?);
    }
    match next_line(alloc, last, bytes)? {
        Some(line) => Ok(line),
        None => Err(refusal(alloc, last, number, bytes)?),
    }
}

/// Adds what the line says.
fn add(certificate: &mut Cert, line: Line) -> Result<(), AllocError>
    ensures { OnOk result (certificate_of certificate.new ≡ spec.with_line (certificate_of certificate.old) (spec.line_of line)) }
{
    match line {
        Line::Head | Line::End => {}
        Line::Own(own) => certificate.own.push(own)?,
        Line::Need(need) => certificate.needs.push(need)?,
        Line::Claim(_, claim) => certificate.claims.push(claim)?,
        Line::Window(window) => certificate.windows.push(window)?,
    }
    Ok(())
}

/// Whether the last line is `end` and nothing is left.
fn is_whole(last: Mark, rest: &[u8]) -> bool
    ensures { IsTrue result ↔ (last ≡ End) × (rest.now ≡ []) }
{
    last == Mark::End && rest.is_empty()
}

/// The certificate whose text this is, from its line `cert` on, which has that number in the file.
///
/// N1 names the first line that is not as it is written for any certificate, or that is not whole, and N2 such a line that
/// passes a limit: a file has 65,536 lines of at most 65,536 bytes, numbers take 64 bits, a list has four bounds,
/// and there are 4096 claims. A claim's number that is not the next one is N1.
pub fn read(alloc: Global, text: &str, first_line: usize) -> Result<Cert, TextError>
    ensures said { IfOk result (λ certificate. IsTextOf certificate_notation first_line text.now (certificate_of certificate)) }
    ensures refused { IfErr result (IsRefused certificate_notation first_line text.now) }
{
    let mut certificate = Cert {
        own: Vec::new(alloc),
        needs: Vec::new(alloc),
        claims: Vec::new(alloc),
        windows: Vec::new(alloc),
    };
    let mut last = Mark::Start;
    let mut number = first_line;
    let mut rest = text.as_bytes();
    while let Some((bytes, after)) = split_line(rest) {
        let line = line_at(alloc, last, number, bytes)?;
        last = line.mark();
        add(&mut certificate, line)?;
        number += 1;
        rest = after;
    }
    if is_whole(last, rest) {
        Ok(certificate)
    } else {
        Err(TextError::Form(number))
    }
}
