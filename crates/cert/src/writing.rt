//! Writing certificates and their lines.

ghost use Rattle.std.specs.Prelude.{◌≡◌, ◌∷◌, ◌++◌, IfOk, OnOk, map, string_bytes};
ghost use Rattle.spelling.specs.Lines.Lines.{lines_text};
ghost use Rattle.spelling.specs.Words.Spelling.{count_text, region_text, span_text, symbol_text};
ghost use Rattle.plan.specs.Certificate.Certificate.{certificate_of, claim_of};
ghost use Rattle.cert.specs.Lines.{OwnLine, NeedLine, WindowLine, claim_lines, line_of};
ghost use Rattle.cert.specs.Notation.{certificate_lines, text_of};
ghost use Rattle.cert.specs.Spelling as spec;

use crate::line::Line;
use itoa::Buffer;
use lin::{Region, Span1, Sym};
use plan::certificate::{Cert, Claim, Need, Own, Window};
use spelling::sizes::put_size;
use spelling::words::{put_region, put_span, put_symbol};
use std::alloc::{AllocError, Global};

/// Writes a blank and a word.
fn put_word(text: &mut String, word: &str) -> Result<(), AllocError>
    ensures { OnOk result (string_bytes text.new ≡ string_bytes text.old ++ (32 ∷ word.now)) }
{
    text.push_str(" ")?;
    text.push_str(word)
}

/// Writes a blank and a size.
fn put_size_word(text: &mut String, size: u64) -> Result<(), AllocError>
    ensures { OnOk result (string_bytes text.new ≡ string_bytes text.old ++ (32 ∷ count_text size)) }
{
    text.push_str(" ")?;
    put_size(text, size)
}

/// Writes a blank and a buffer's number.
fn put_buffer_word(text: &mut String, buffer: u64) -> Result<(), AllocError>
    ensures { OnOk result (string_bytes text.new ≡ string_bytes text.old ++ (32 ∷ 98 ∷ count_text buffer)) }
{
    text.push_str(" b")?;
    put_size(text, buffer)
}

/// Writes a blank and a symbol.
fn put_symbol_word(text: &mut String, symbol: Sym) -> Result<(), AllocError>
    ensures { OnOk result (string_bytes text.new ≡ string_bytes text.old ++ (32 ∷ symbol_text symbol)) }
{
    text.push_str(" ")?;
    put_symbol(text, symbol)
}

/// Writes a blank and a span.
fn put_span_word(text: &mut String, span: &Span1) -> Result<(), AllocError>
    ensures { OnOk result (string_bytes text.new ≡ string_bytes text.old ++ (32 ∷ span_text span.now)) }
{
    text.push_str(" ")?;
    put_span(text, span)
}

/// Writes a blank and a region.
fn put_region_word(text: &mut String, region: &Region) -> Result<(), AllocError>
    ensures { OnOk result (string_bytes text.new ≡ string_bytes text.old ++ (32 ∷ region_text region.now)) }
{
    text.push_str(" ")?;
    put_region(text, region)
}

/// Writes an own region's line.
#[tactic(auto, unfolding(crate::specs::Spelling::own_text))]
fn put_own(text: &mut String, own: &Own) -> Result<(), AllocError>
    ensures { OnOk result (string_bytes text.new ≡ string_bytes text.old ++ spec.own_text own.now) }
{
    text.push_str("own")?;
    put_size_word(text, own.group)?;
    put_region_word(text, &own.region)
}

/// Writes a needed region's line.
#[tactic(auto, unfolding(crate::specs::Spelling::need_text))]
fn put_need(text: &mut String, need: &Need) -> Result<(), AllocError>
    ensures { OnOk result (string_bytes text.new ≡ string_bytes text.old ++ spec.need_text need.now) }
{
    text.push_str("need")?;
    put_size_word(text, need.group)?;
    put_size_word(text, need.needed)?;
    put_region_word(text, &need.region)
}

/// Writes the line of the claim of that number.
#[tactic(auto, unfolding(crate::specs::Spelling::claim_text))]
fn put_claim(text: &mut String, number: usize, claim: &Claim) -> Result<(), AllocError>
    ensures { OnOk result (string_bytes text.new ≡ string_bytes text.old ++ spec.claim_text number (claim_of claim.now)) }
{
    text.push_str("claim")?;
    put_word(text, Buffer::new().format(number))?;
    put_size_word(text, claim.line)?;
    put_buffer_word(text, claim.buffer)?;
    put_word(text, &claim.function)?;
    put_size_word(text, claim.definition)?;
    put_region_word(text, &claim.region)
}

/// Writes a window's line.
#[tactic(auto, unfolding(crate::specs::Spelling::window_text))]
fn put_window(text: &mut String, window: &Window) -> Result<(), AllocError>
    ensures { OnOk result (string_bytes text.new ≡ string_bytes text.old ++ spec.window_text window.now) }
{
    text.push_str("window")?;
    put_size_word(text, window.claim)?;
    put_symbol_word(text, window.symbol)?;
    put_size_word(text, window.dimension)?;
    put_size_word(text, window.fold)?;
    put_span_word(text, &window.span)
}

/// Writes a line, without its line feed.
pub(crate) fn put_line(text: &mut String, line: &Line) -> Result<(), AllocError>
    ensures { OnOk result (string_bytes text.new ≡ string_bytes text.old ++ spec.line_text (line_of line.now)) }
{
    match line {
        Line::Head => text.push_str("cert"),
        Line::Own(own) => put_own(text, own),
        Line::Need(need) => put_need(text, need),
        Line::Claim(number, claim) => put_claim(text, *number as usize, claim),
        Line::Window(window) => put_window(text, window),
        Line::End => text.push_str("end"),
    }
}

fn put_owns(text: &mut String, owns: &[Own]) -> Result<(), AllocError>
    ensures { OnOk result (string_bytes text.new ≡ string_bytes text.old ++ text_of (map OwnLine owns.now)) }
{
    for own in owns {
        put_own(text, own)?;
        text.push_str("\n")?;
    }
    Ok(())
}

fn put_needs(text: &mut String, needs: &[Need]) -> Result<(), AllocError>
    ensures { OnOk result (string_bytes text.new ≡ string_bytes text.old ++ text_of (map NeedLine needs.now)) }
{
    for need in needs {
        put_need(text, need)?;
        text.push_str("\n")?;
    }
    Ok(())
}

fn put_claims(text: &mut String, claims: &[Claim]) -> Result<(), AllocError>
    ensures { OnOk result (string_bytes text.new ≡ string_bytes text.old ++ text_of (claim_lines 0 (map claim_of claims.now))) }
{
    for (number, claim) in claims.iter().enumerate() {
        put_claim(text, number, claim)?;
        text.push_str("\n")?;
    }
    Ok(())
}

fn put_windows(text: &mut String, windows: &[Window]) -> Result<(), AllocError>
    ensures { OnOk result (string_bytes text.new ≡ string_bytes text.old ++ text_of (map WindowLine windows.now)) }
{
    for window in windows {
        put_window(text, window)?;
        text.push_str("\n")?;
    }
    Ok(())
}

/// The text of a certificate, from its line `cert` on.
pub fn write(alloc: Global, certificate: &Cert) -> Result<String, AllocError>
    ensures { IfOk result (λ text. string_bytes text ≡ lines_text (certificate_lines (certificate_of certificate.now))) }
{
    let mut text = String::new(alloc);
    text.push_str("cert\n")?;
    put_owns(&mut text, &certificate.own)?;
    put_needs(&mut text, &certificate.needs)?;
    put_claims(&mut text, &certificate.claims)?;
    put_windows(&mut text, &certificate.windows)?;
    text.push_str("end\n")?;
    Ok(text)
}
