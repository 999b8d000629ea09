//! Readers and writers that remember whether they have failed.

ghost use Rattle.std.specs.Prelude.{◌≡◌, ◌≤◌, List, ℕ, Option, Bool, ◌||◌, is_err, length, IfOk};
ghost use Rattle.pnm.specs.Source.{Fills, LooksOnce, Sends};

use crate::error::PnmError;
use std::io::{Read, Write};

/// Bytes that come one by one or several together, from a reader that remembers whether it has failed.
pub trait Source {
    /// The bytes that are still to come, where they are known.
    ghost remaining: { Self → Option (List ℕ) };

    /// Whether a read has failed.
    ghost has_failed: { Self → Bool };

    /// Which reader it is.
    ghost identity: { Self → ℕ };

    /// The next byte, or nothing at the end. A read that fails is not tried again.
    fn next_byte(&mut self) -> Result<Option<u8>, PnmError>
        ensures bytes { LooksOnce (remaining self.old) (remaining self.new) result }
        ensures failure { has_failed self.new ≡ (has_failed self.old || is_err result) }
        ensures same { identity self.new ≡ identity self.old };

    /// Puts the next bytes into the beginning of `out`: how many they are, none only at the end or where `out` has no place.
    /// A read that fails is not tried again.
    fn fill(&mut self, out: &mut [u8]) -> Result<usize, PnmError>
        ensures bytes { Fills (remaining self.old) (remaining self.new) out.new result }
        ensures count { IfOk result (λ n. n ≤ length out.new) }
        ensures failure { has_failed self.new ≡ (has_failed self.old || is_err result) }
        ensures same { identity self.new ≡ identity self.old };
}

/// A taker of bytes that remembers whether it has failed.
pub trait Sink {
    /// The bytes that were taken, where they are known.
    ghost contents: { Self → Option (List ℕ) };

    /// Whether a write has failed.
    ghost has_failed: { Self → Bool };

    /// Which writer it is.
    ghost identity: { Self → ℕ };

    /// Writes all the bytes. A write that fails, or takes no byte, is not tried again.
    fn send(&mut self, bytes: &[u8]) -> Result<(), PnmError>
        ensures bytes { Sends (contents self.old) (contents self.new) bytes.now result }
        ensures failure { has_failed self.new ≡ (has_failed self.old || is_err result) }
        ensures same { identity self.new ≡ identity self.old };
}

/// A reader or a writer, and whether a call of it has failed.
#[derive(Drop)]
pub struct Watched<'a, D> {
    pub device: &'a mut D,
    pub failed: bool,
}

impl<R: Read> Source for Watched<'_, R> {
    ghost remaining = { λ w. R.remaining w.device.now };

    ghost has_failed = { λ w. w.failed };

    ghost identity = { λ w. w.device.ghost_name };

    fn next_byte(&mut self) -> Result<Option<u8>, PnmError> {
        let mut bytes = [0u8; 1];
        match self.device.read(&mut bytes) {
            Ok(0) => Ok(None),
            Ok(_) => Ok(Some(bytes[0])),
            Err(_) => {
                self.failed = true;
                Err(PnmError::Device)
            }
        }
    }

    fn fill(&mut self, out: &mut [u8]) -> Result<usize, PnmError> {
        let Ok(count) = self.device.read(out) else {
            self.failed = true;
            return Err(PnmError::Device);
        };
        Ok(count)
    }
}

impl<W: Write> Sink for Watched<'_, W> {
    ghost contents = { λ w. W.contents w.device.now };

    ghost has_failed = { λ w. w.failed };

    ghost identity = { λ w. w.device.ghost_name };

    fn send(&mut self, bytes: &[u8]) -> Result<(), PnmError> {
        let mut rest = bytes;
        while !rest.is_empty() {
            match self.device.write(rest) {
                Ok(0) | Err(_) => {
                    self.failed = true;
                    return Err(PnmError::Device);
                }
                Ok(count) => rest = &rest[count..],
            }
        }
        Ok(())
    }
}
