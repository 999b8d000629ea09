//! The commands that write an algorithm's canonical text, and tell what a code means.

ghost use Rattle.std.specs.Prelude.{IfErr, IfOk, OnOk, length, string_bytes};
ghost use Rattle.algo.specs.View.{algorithm_of};
ghost use Rattle.commands.specs.Asked.{format_asked};
ghost use Rattle.commands.specs.Formats.{IsCanonical, IsDone, IsNotSpelled, IsRefused};
ghost use Rattle.commands.specs.Pictures.{IsOfDevice};
ghost use Rattle.commands.specs.Sources.{IsFormattedText, IsUnformatted};

use crate::device::Files;
use crate::picture::algorithm_in;
use crate::pipeline::Fault;
use crate::request::{ExplainRequest, FormatRequest};
use crate::stream::flush;
use algo::{Algo, Code};
use pnm::PnmError;
use printer::{WriteError, write};
use std::alloc::Global;
use std::io::Write;
use tree::token::Span;

/// The canonical text of an algorithm that these bytes say.
fn canonical(alloc: Global, algo: &Algo, bytes: &[u8]) -> Result<String, Fault>
    ensures canonical { IfOk result (λ text. IsCanonical (algorithm_of algo.now) (string_bytes text)) }
    ensures refused { IfErr result (IsNotSpelled (algorithm_of algo.now) (length bytes.now)) }
{
    match write(alloc, algo) {
        Ok(text) => Ok(text),
        Err(WriteError::Memory) => Err(Fault::Memory),
        Err(WriteError::TooLong) => Err(Fault::Algo {
            code: Code::TooLarge,
            span: Span {
                start: 0,
                end: bytes.len(),
            },
        }),
    }
}

/// The canonical text of the algorithm that these bytes are the text of.
fn formatted(alloc: Global, bytes: &[u8]) -> Result<String, Fault>
    ensures formatted { IfOk result (λ text. IsFormattedText bytes.now (string_bytes text)) }
    ensures refused { IfErr result (IsUnformatted bytes.now) }
{
    let algo = algorithm_in(alloc, bytes)?;
    canonical(alloc, &algo, bytes)
}

/// Writes the canonical text of an algorithm, after everything else has succeeded.
///
/// # Errors
/// The first refusal: of the algorithm's text, then E4 at all bytes of that text where the canonical one has more than 65,536;
/// a text that is not UTF-8 is one of the device.
pub fn format_command<F: Files>(
    alloc: Global,
    files: &mut F,
    request: &FormatRequest<'_>,
) -> Result<(), Fault>
    ensures done { OnOk result (IsDone (F.contents files.old) (F.contents files.new) (format_asked request.now)) }
    ensures refused { IfErr result (IsRefused (F.contents files.old) (F.contents files.new) (format_asked request.now)) }
{
    let bytes = files.get(alloc, request.algorithm)?;
    let text = formatted(alloc, bytes.as_slice())?;
    files.put(request.output, text.as_bytes())?;
    Ok(())
}

/// Prints the page of a code.
pub fn explain_command<W: Write>(out: &mut W, request: &ExplainRequest<'_>) -> Result<(), Fault>
    ensures { IfErr result IsOfDevice }
{
    match write!(out, "{}", request.page) {
        Ok(()) => flush(out),
        Err(_) => Err(Fault::Image(PnmError::Device)),
    }
}
