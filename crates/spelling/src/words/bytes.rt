//! The front of a text.

ghost use Rattle.std.specs.Prelude.{◌≡◌, drop, slice_index};
ghost use Rattle.tree.specs.Token.Spelling.{is_word_byte};
ghost use Rattle.spelling.specs.Words.Reading as spec;

/// The text less so many bytes at the front, and empty where there are not so many.
pub fn skip(count: usize, text: &[u8]) -> &[u8]
    ensures { result.now ≡ drop count text.now }
{
    if count <= text.len() {
        let (_, rest) = text.split_at(count);
        rest
    } else {
        &[]
    }
}

/// The first byte, 0 of an empty text.
pub(crate) fn first(text: &[u8]) -> u8
    ensures { result ≡ slice_index text.now 0 }
{
    if text.is_empty() { 0 } else { text[0] }
}

/// Whether the byte stands at the front.
pub fn begins(byte: u8, text: &[u8]) -> bool
    ensures { result ≡ spec.begins byte text.now }
{
    first(text) == byte
}

/// Whether the byte is a letter, a digit or `_`.
pub(crate) fn is_word_byte(byte: u8) -> bool
    ensures { result ≡ is_word_byte byte }
{
    byte.is_ascii_alphanumeric() || byte == b'_'
}
