//! Plans read line by line.

ghost use Rattle.std.specs.Prelude.{◌≡◌, true, Some, None, IfErr, IfOk, MatchOption};
ghost use Rattle.std.specs.Str.{bytes_eq};
ghost use Rattle.plan.specs.View.{plan_of};
ghost use Rattle.spelling.specs.Lines.Texts.{IsTextOf, IsRefused};
ghost use Rattle.nest.specs.Blocks.View.{line_of};
ghost use Rattle.nest.specs.Blocks.Drafts.{count_of};
ghost use Rattle.nest.specs.Notation as notation;
ghost use Rattle.nest.specs.Notation.{plan_notation};
ghost use Rattle.nest.specs.Reader as spec;
ghost use Rattle.nest.specs.Reader.{state_of};
ghost use Rattle.nest.specs.Spelling.{line_text};

use crate::blocks::{Count, Draft, Line};
use crate::fitting::fits_line;
use crate::reading::line_from;
use crate::writing::put_line;
use lin::{Forms, Span1};
use plan::Plan;
use spelling::lines::{TextError, is_within, split_line};
use spelling::terms::has_deep_brackets;
use spelling::words::has_large_number;
use std::alloc::{AllocError, Global};

/// The most bounds of a list.
const MOST_BOUNDS: usize = 4;

/// What has been put together of a plan and counted.
#[derive(Drop)]
pub(crate) struct Reader {
    pub draft: Draft,
    pub count: Count,
}

/// Whether the bytes are the line's text.
fn is_text_of(alloc: Global, bytes: &[u8], line: &Line) -> Result<bool, AllocError>
    ensures { IfOk result (λ r. r ≡ bytes_eq (line_text (line_of line.now)) bytes.now) }
{
    let mut written = String::new(alloc);
    put_line(&mut written, line)?;
    Ok(written.as_bytes() == bytes)
}

/// Whether the line has the number and keeps the limits that what was counted asks.
fn is_numbered(count: &Count, line: &Line) -> bool
    ensures { result ≡ spec.is_numbered (line_of line.now) (count_of count.now) }
{
    count.has_room(line) && count.is_next(line)
}

/// Whether the line may stand where so much was counted, and keeps what is asked there.
fn is_lawful(count: &Count, line: &Line) -> bool
    ensures { result ≡ spec.is_lawful (line_of line.now) (count_of count.now) }
{
    count.stage.has_place_for(line) && is_numbered(count, line)
}

/// Whether the line fits and the bytes are its text.
fn is_spelled(alloc: Global, bytes: &[u8], line: &Line) -> Result<bool, AllocError>
    ensures { IfOk result (λ r. r ≡ spec.is_spelled bytes.now (line_of line.now)) }
{
    let same = is_text_of(alloc, bytes, line)?;
    Ok(fits_line(line) && same)
}

/// The reader after a line that has room and the next number. None where it cannot stand there.
fn with_line(alloc: Global, reader: Reader, line: Line) -> Result<Option<Reader>, AllocError>
    requires { spec.is_lawful (line_of line) (count_of reader.count) ≡ true }
    ensures { IfOk result (λ r. MatchOption r (spec.with_line (line_of line) (state_of reader) ≡ None) (λ after. spec.with_line (line_of line) (state_of reader) ≡ Some (state_of after))) }
{
    let Reader { draft, count } = reader;
    let count = count.after(&line);
    let Some(draft) = draft.next(alloc, line)? else {
        return Ok(None);
    };
    Ok(Some(Reader { draft, count }))
}

/// The reader after the line of that number. None where the line cannot stand there.
fn advanced(
    alloc: Global,
    reader: Reader,
    number: usize,
    bytes: &[u8],
) -> Result<Option<Reader>, AllocError>
    ensures { IfOk result (λ r. MatchOption r (spec.next_state number bytes.now (state_of reader) ≡ None) (λ after. spec.next_state number bytes.now (state_of reader) ≡ Some (state_of after))) }
{
    if !is_within(number, bytes) {
        return Ok(None);
    }
    let line = line_from(alloc, bytes)?;
    let spelled = is_spelled(alloc, bytes, &line)?;
    let lawful = is_lawful(&reader.count, &line);
    if spelled && lawful {
        with_line(alloc, reader, line)
    } else {
        Ok(None)
    }
}

fn is_long(forms: &Forms) -> bool
    ensures { result ≡ notation.is_long forms.now }
{
    forms.as_slice().len() > MOST_BOUNDS
}

fn has_long_side(span: &Span1) -> bool
    ensures { result ≡ notation.has_long_side span.now }
{
    is_long(&span.lower) || is_long(&span.upper)
}

fn any_has_long_side(spans: &[Span1]) -> bool
    ensures { result ≡ notation.any_has_long_side spans.now }
{
    spans.iter().any(|span| has_long_side(span))
}

/// Whether some list of bounds has more than four.
fn has_long_list(line: &Line) -> bool
    ensures { result ≡ notation.has_long_list (line_of line.now) }
{
    match line {
        Line::Group { region, .. } | Line::Fetch { region, .. } => {
            any_has_long_side(region.as_slice())
        }
        Line::For { span, .. } => has_long_side(span),
        Line::Let { forms, .. } => is_long(forms),
        Line::Plan { .. }
        | Line::Input(_)
        | Line::Output(_)
        | Line::First { .. }
        | Line::Else
        | Line::Guard { .. }
        | Line::End
        | Line::Alloc { .. }
        | Line::Store { .. }
        | Line::Publish { .. } => false,
    }
}

/// Whether the line may stand where so much was counted, with the number that is next, but there is no room for it.
fn is_one_too_many(count: &Count, line: &Line) -> bool
    ensures { result ≡ notation.is_one_too_many (line_of line.now) (count_of count.now) }
{
    count.stage.has_place_for(line) && count.is_next(line) && !count.has_room(line)
}

/// Whether the bytes are a line's with too long a list, or one that is one too many.
fn is_past(alloc: Global, count: Count, bytes: &[u8]) -> Result<bool, AllocError>
    ensures { IfOk result (λ r. r ≡ notation.is_past (count_of count) bytes.now) }
{
    let line = line_from(alloc, bytes)?;
    let spelled = is_text_of(alloc, bytes, &line)?;
    Ok(spelled && (has_long_list(&line) || is_one_too_many(&count, &line)))
}

/// Why a line was refused: N2 where it passes a limit, else N1.
fn refusal(
    alloc: Global,
    count: Count,
    number: usize,
    bytes: &[u8],
) -> Result<TextError, AllocError>
    ensures { IfOk result (λ e. e ≡ spec.refusal (count_of count) number bytes.now) }
{
    if !is_within(number, bytes) {
        return Ok(TextError::Limit(number));
    }
    let past = is_past(alloc, count, bytes)?;
    if has_large_number(bytes) || has_deep_brackets(bytes) || past {
        Ok(TextError::Limit(number))
    } else {
        Ok(TextError::Form(number))
    }
}

/// The plan, where nothing is open and the last group has its `publish`.
fn finished(reader: Reader) -> Result<Option<Plan>, AllocError>
    ensures { IfOk result (λ r. MatchOption r (spec.finished_state (state_of reader) ≡ None) (λ p. spec.finished_state (state_of reader) ≡ Some (plan_of p))) }
{
    if reader.count.stage.published {
        reader.draft.finished()
    } else {
        Ok(None)
    }
}

/// The plan whose text the bytes are.
fn read_bytes(alloc: Global, text: &[u8]) -> Result<Plan, TextError>
    ensures said { IfOk result (λ plan. IsTextOf plan_notation 1 text.now (plan_of plan)) }
    ensures refused { IfErr result (IsRefused plan_notation 1 text.now) }
{
    let mut rest = text;
    let mut number = 1;
    let mut reader = Reader {
        draft: Draft::Nothing,
        count: Count::new(),
    };
    while let Some((line, after)) = split_line(rest) {
        let count = reader.count;
        let Some(next) = advanced(alloc, reader, number, line)? else {
            return Err(refusal(alloc, count, number, line)?);
        };
        reader = next;
        rest = after;
        number += 1;
    }
    if !rest.is_empty() {
        return Err(TextError::Form(number));
    }
    let Some(plan) = finished(reader)? else {
        return Err(TextError::Form(number));
    };
    Ok(plan)
}

/// The plan whose text it is: the lines before the first line `cert`. Lines are counted from 1.
///
/// N1 or N2 names the first line that is not as a plan has it: no plan's text goes on with it, or the text ends before it
/// is whole. A group begins with its buffers, lets and fetches, and its one `publish` is its last line. N2 where that line
/// passes a limit: its number or length, a number past 64 bits, a list of more than four bounds, the symbols, buffers or
/// open blocks of its group where the number that it gives is the next one, or brackets in brackets; else N1.
pub fn read(alloc: Global, text: &str) -> Result<Plan, TextError>
    ensures said { IfOk result (λ plan. IsTextOf plan_notation 1 text.now (plan_of plan)) }
    ensures refused { IfErr result (IsRefused plan_notation 1 text.now) }
{
    read_bytes(alloc, text.as_bytes())
}
