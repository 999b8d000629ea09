//! A taker of bytes that never grows.

ghost use Rattle.std.specs.Prelude.{◌≡◌, ◌≤◌, true, length, vec_capacity};

use pnm::{PnmError, Sink};

/// Bytes in memory that was taken before. So many are taken together as there is room for, and after the first that finds none it
/// has failed.
#[derive(Drop)]
pub(crate) struct Reserved {
    pub(crate) bytes: Vec<u8>,
    /// How many bytes it takes at most.
    pub(crate) room: usize,
    pub(crate) failed: bool,
    ghost held: { length bytes.items ≤ room },
    ghost taken: { room ≤ vec_capacity bytes },
    ghost full: { failed ≡ true → room ≤ length bytes.items },
}

impl Sink for Reserved {
    ghost use Rattle.std.specs.Prelude.{Some};

    ghost contents = { λ r. Some r.bytes.items };

    ghost has_failed = { λ r. r.failed };

    ghost identity = { λ r. r.room };

    fn send(&mut self, bytes: &[u8]) -> Result<(), PnmError> {
        let fits = bytes.len().min(self.room - self.bytes.len());
        let Ok(()) = self.bytes.extend_from_slice(&bytes[..fits]) else {
            unreachable!()
        };
        if fits < bytes.len() {
            self.failed = true;
            return Err(PnmError::Device);
        }
        Ok(())
    }
}
