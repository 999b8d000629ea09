//! Streams that are written.

ghost use Rattle.std.specs.Prelude.{◌≡◌, IfErr};
ghost use Rattle.std.specs.Io.KnownBytes.{Keeps};
ghost use Rattle.commands.specs.declared.pipeline.fault.Fault.{Fault};
ghost use Rattle.pnm.specs.declared.error.PnmError.{PnmError};

use crate::pipeline::Fault;
use pnm::PnmError;
use std::io::Write;

/// Hands on what a writer holds back.
///
/// # Errors
/// The device's, where it takes no more.
pub fn flush<W: Write>(out: &mut W) -> Result<(), Fault>
    ensures bytes { Keeps (W.contents out.old) (W.contents out.new) }
    ensures device { IfErr result (λ fault. fault ≡ Fault.Image PnmError.Device) }
{
    match out.flush() {
        Ok(()) => Ok(()),
        Err(_) => Err(Fault::Image(PnmError::Device)),
    }
}
