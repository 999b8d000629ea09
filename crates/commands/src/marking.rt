//! Places of a text, shown in their lines with marks under them.

use crate::pipeline::Fault;
use std::io::Write;
use std::str;
use tree::token::Span;

/// The most bytes of a line that are shown.
const MOST_SHOWN: usize = 200;

/// How many bytes are shown in front of a place at most, where its line is cut there.
const MOST_BEFORE: usize = 60;

/// What stands for the bytes of a line that are not shown.
const CUT: &str = "..";

/// How many bytes a character has at most behind its first one.
const MOST_BEHIND: usize = 3;

/// Where in a text something is refused.
#[derive(Clone, Copy, Drop)]
pub enum Place {
    /// Its bytes, the last one excluded.
    Bytes { start: usize, end: usize },
    /// Its line, counted from 1.
    Line(usize),
}

/// A line of a text, or a part of it: the line's number, counted from 1, and its bytes, the last one excluded.
#[derive(Clone, Copy, PartialEq, Eq, Drop)]
struct Line {
    number: usize,
    start: usize,
    end: usize,
}

/// The line in which a place begins; the last one where the place is behind the text.
fn line_at(text: &[u8], place: Place) -> Line {
    let mut line = Line {
        number: 1,
        start: 0,
        end: text.len(),
    };
    for (index, byte) in text.iter().enumerate() {
        if *byte == b'\n' {
            let is_found = match place {
                Place::Bytes { start, .. } => start <= index,
                Place::Line(number) => number <= line.number,
            };
            if is_found {
                line.end = index;
                return line;
            }
            line.number = line.number.saturating_add(1);
            line.start = index.saturating_add(1);
        }
    }
    line
}

/// A place of these bytes.
pub fn bytes_of(span: &Span) -> Place {
    Place::Bytes {
        start: span.start,
        end: span.end,
    }
}

/// Where in its file a refusal is.
pub fn place_of(fault: &Fault) -> Option<Place> {
    match fault {
        Fault::Algo { span, .. } | Fault::Schedule { span, .. } => Some(bytes_of(span)),
        Fault::Plan { line, .. } | Fault::Form { line } | Fault::Limit { line } => {
            Some(Place::Line(*line))
        }
        _ => None,
    }
}

/// Whether a byte stands behind the first one of its character.
fn is_behind(byte: u8) -> bool {
    byte & 0xC0 == 0x80
}

/// Where the character of a byte begins.
fn character_at(text: &[u8], index: usize) -> usize {
    let mut start = index;
    for _ in 0..MOST_BEHIND {
        match text.get(start) {
            Some(byte) if is_behind(*byte) => start = start.saturating_sub(1),
            _ => return start,
        }
    }
    start
}

/// What is shown of a line: all of it where it is short, else what stands around these bytes of it.
fn part_around(text: &[u8], line: Line, start: usize, end: usize) -> Line {
    let last = line.end.saturating_sub(MOST_SHOWN);
    if last <= line.start {
        return line;
    }
    let first = if end <= line.start.saturating_add(MOST_SHOWN) {
        line.start
    } else {
        start.saturating_sub(MOST_BEFORE).min(last).max(line.start)
    };
    Line {
        number: line.number,
        start: character_at(text, first),
        end: character_at(text, first.saturating_add(MOST_SHOWN)),
    }
}

/// How many columns a byte takes where its line is shown: a control byte is shown as its escape.
fn columns_of(byte: u8) -> usize {
    match byte {
        b'\t' | b'\r' => 2,
        _ if byte.is_ascii_control() => 4,
        _ => 1,
    }
}

/// How many columns the bytes of a text from one to another take, as far as these are there.
fn columns(text: &[u8], start: usize, end: usize) -> usize {
    let Some(bytes) = text.get(start..end) else {
        return 0;
    };
    let mut columns: usize = 0;
    for byte in bytes {
        columns = columns.saturating_add(columns_of(*byte));
    }
    columns
}

/// What stands for the bytes of a line that are not shown, where there are some.
fn cut_for(is_cut: bool) -> &'static str {
    if is_cut { CUT } else { "" }
}

/// How many columns stand before a place in what is shown of its line.
fn columns_before(text: &[u8], line: Line, part: Line, start: usize) -> usize {
    cut_for(part.start > line.start)
        .len()
        .saturating_add(columns(text, part.start, start))
}

/// How many marks stand under a place, as far as it is shown: one at least.
fn marks_under(text: &[u8], part: Line, start: usize, end: usize) -> usize {
    columns(text, start, end.min(part.end)).max(1)
}

/// Puts the number of a line and what is shown of it. The answer is whether that is text.
fn put_line<E: Write>(name: &str, text: &[u8], line: Line, part: Line, err: &mut E) -> bool {
    let Some(bytes) = text.get(part.start..part.end) else {
        return false;
    };
    let Ok(said) = str::from_utf8(bytes) else {
        return false;
    };
    let before = cut_for(part.start > line.start);
    let behind = cut_for(part.end < line.end);
    let _ = writeln!(err, "{name}, line {}:", line.number);
    let _ = writeln!(err, "{before}{said}{behind}");
    true
}

/// Shows the line of a text in which something is refused, with marks under the bytes; of a long line what stands around them.
pub fn show<E: Write>(name: &str, text: &[u8], place: Place, err: &mut E) {
    let line = line_at(text, place);
    match place {
        Place::Line(_) => {
            let part = part_around(text, line, line.start, line.start);
            let _ = put_line(name, text, line, part, err);
        }
        Place::Bytes { start, end } => {
            let part = part_around(text, line, start, end.min(line.end));
            if put_line(name, text, line, part, err) {
                let before = columns_before(text, line, part, start);
                let marked = marks_under(text, part, start, end);
                let _ = writeln!(err, "{:before$}{:^<marked$}", "", "");
            }
        }
    }
}

/// Shows a part of a line with marks under two places, of which the first ends before the second begins.
fn show_pair<E: Write>(
    name: &str,
    text: &[u8],
    line: Line,
    part: Line,
    first: &Span,
    second: &Span,
    err: &mut E,
) {
    if put_line(name, text, line, part, err) {
        let before = columns_before(text, line, part, first.start);
        let left = marks_under(text, part, first.start, first.end);
        let between = columns(text, first.end, second.start);
        let right = marks_under(text, part, second.start, second.end);
        let _ = writeln!(
            err,
            "{:before$}{:^<left$}{:between$}{:^<right$}",
            "", "", "", ""
        );
    }
}

/// Shows the line of two places, of which the first ends before the second begins: once where a part that is shown has both.
fn show_in_order<E: Write>(name: &str, text: &[u8], first: &Span, second: &Span, err: &mut E) {
    let line = line_at(text, bytes_of(first));
    let end = second.end.min(line.end);
    let part = part_around(text, line, first.start, end);
    if end <= part.end {
        show_pair(name, text, line, part, first, second, err);
    } else {
        show(name, text, bytes_of(first), err);
        show(name, text, bytes_of(second), err);
    }
}

/// Shows the lines of two places: once where both are of one line, with marks under both.
fn show_two<E: Write>(name: &str, text: &[u8], first: &Span, second: &Span, err: &mut E) {
    let line = line_at(text, bytes_of(first));
    let is_one = line_at(text, bytes_of(second)) == line;
    if is_one && first.end <= second.start {
        show_in_order(name, text, first, second, err);
    } else if is_one && second.end <= first.start {
        show_in_order(name, text, second, first, err);
    } else {
        show(name, text, bytes_of(first), err);
        if !is_one {
            show(name, text, bytes_of(second), err);
        }
    }
}

/// Shows the lines of the first two places at most.
pub fn show_places<E: Write>(name: &str, text: &[u8], places: &[Span], err: &mut E) {
    match places {
        [] => {}
        [only] => show(name, text, bytes_of(only), err),
        [first, second, ..] => show_two(name, text, first, second, err),
    }
}
