//! What is printed for readers.

ghost use Rattle.std.specs.Prelude.{◌≤◌, length};

use std::io::{self, Write};

/// A writer for readers: a control byte but a line feed goes out as its escape, as `\x1b`, so that a name, or a line of a file,
/// that is echoed does nothing to a terminal.
#[derive(Drop)]
pub struct Escaped<W> {
    /// Where it goes.
    pub out: W,
}

/// How many bytes stand in front of the first one that is escaped.
fn plain_len(bytes: &[u8]) -> usize
    ensures { result ≤ length bytes.now }
{
    for (place, byte) in bytes.iter().enumerate() {
        if byte.is_ascii_control() && *byte != b'\n' {
            return place;
        }
    }
    bytes.len()
}

impl<W: Write> Write for Escaped<W> {
    fn write(&mut self, buf: &[u8]) -> io::Result<usize> {
        let plain = plain_len(buf);
        if plain > 0 || buf.is_empty() {
            return self.out.write(&buf[..plain]);
        }
        write!(self.out, "{}", buf[..1].escape_ascii())?;
        Ok(1)
    }

    fn flush(&mut self) -> io::Result<()> {
        self.out.flush()
    }
}
