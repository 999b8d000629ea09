//! Words that no directive and no tail has.

use tree::token::Span;

const DIRECTIVES: &str = "\
No directive is called so.
There are `compute_root`, `compute_at`, `store_at`, `fold`, `split`, `tile`, `reorder`, `unroll`, `vectorize` and `parallel`.
";

const TAILS: &str = "\
No tail is called so.
There are `guard`, `roundup` and `shift`.
";

fn is_letter(byte: u8) -> bool {
    byte.is_ascii_alphabetic() || byte == b'_'
}

fn is_blank(byte: u8) -> bool {
    matches!(byte, b' ' | b'\t' | b'\r' | b'\n')
}

// The last of these bytes that is no blank.
fn last_sign(bytes: &[u8]) -> Option<u8> {
    for byte in bytes.iter().rev() {
        if !is_blank(*byte) {
            return Some(*byte);
        }
    }
    None
}

// The bytes from the last bracket that is opened on, and those before it.
fn opened(bytes: &[u8]) -> Option<(&[u8], &[u8])> {
    let mut last = None;
    for (index, byte) in bytes.iter().enumerate() {
        if *byte == b'(' {
            last = Some(index);
        }
    }
    let index = last?;
    Some((bytes.get(index..)?, bytes.get(..index)?))
}

fn ends_with(bytes: &[u8], end: &[u8]) -> bool {
    let Some(start) = bytes.len().checked_sub(end.len()) else {
        return false;
    };
    match bytes.get(start..) {
        Some(rest) => rest == end,
        None => false,
    }
}

fn commas(bytes: &[u8]) -> usize {
    let mut count: usize = 0;
    for byte in bytes {
        if *byte == b',' {
            count = count.saturating_add(1);
        }
    }
    count
}

// Whether the argument behind these bytes is the tail of a split or of a tile.
fn is_tail_behind(before: &[u8]) -> bool {
    match opened(before) {
        Some((arguments, word)) => {
            let count = commas(arguments);
            (count == 4 && ends_with(word, b"split")) || (count == 8 && ends_with(word, b"tile"))
        }
        None => false,
    }
}

/// What is told of a schedule's text whose tokens do not go on as the grammar says at this place, where the word of a directive
/// or of a tail should stand there and another word does.
pub fn unknown_word(text: &[u8], place: &Span) -> Option<&'static str> {
    let first = text.get(place.start)?;
    if !is_letter(*first) {
        return None;
    }
    let before = text.get(..place.start)?;
    if last_sign(before) == Some(b'.') {
        return Some(DIRECTIVES);
    }
    if is_tail_behind(before) {
        return Some(TAILS);
    }
    None
}
