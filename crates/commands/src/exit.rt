//! Exit statuses, and what is told with them.

ghost use Rattle.std.specs.Prelude.{◌≡◌, ◌≢◌, ◌⊎◌, IfErr};
ghost use Rattle.clap.specs.Words.{kind_of};
ghost use Rattle.commands.specs.declared.pipeline.fault.Fault.{Fault};
ghost use Rattle.commands.specs.Status.{status_after, status_of};
ghost use Rattle.pnm.specs.declared.error.PnmError.{PnmError};

use crate::pipeline::Fault;
use crate::stream::flush;
use clap::Error;
use clap::error::ErrorKind;
use pnm::PnmError;
use std::io::Write;

/// The status of a fault of the command line.
pub(crate) const MISUSED: u8 = 2;

/// The exit status after a refusal: 1 where the checker refuses or pictures differ, 3 where an input or a schedule is refused or a pixel takes
/// too many evaluations, 4 where memory runs out, 5 where a file or a stream can't be opened, read or written, and 6 where
/// workers left a piece unfinished. After none it is 0, and 2 after a fault of the command line.
pub fn status(fault: &Fault) -> u8
    ensures { result ≡ status_of fault.now }
{
    match fault {
        Fault::Plan { .. } | Fault::Difference => 1,
        Fault::Algo { .. } | Fault::Budget => 3,
        Fault::Schedule { .. } | Fault::Rule { .. } | Fault::Names => 3,
        Fault::Form { .. } | Fault::Limit { .. } | Fault::Order => 3,
        Fault::Outside | Fault::Uncut { .. } => 3,
        Fault::Memory | Fault::Image(PnmError::Memory) => 4,
        Fault::Image(PnmError::Device) => 5,
        Fault::Image(_) => 3,
        Fault::Unfinished { .. } => 6,
    }
}

/// Prints a text about the program: help, or the version.
fn print_text<W: Write>(text: &Error, out: &mut W) -> Result<(), Fault>
    ensures { IfErr result (λ fault. fault ≡ Fault.Image PnmError.Device) }
{
    match write!(out, "{text}") {
        Ok(()) => flush(out),
        Err(_) => Err(Fault::Image(PnmError::Device)),
    }
}

/// The status of what came of a command. A refusal is told in one line; where that can't be written the status stays.
pub fn answer<E: Write>(outcome: &Result<(), Fault>, err: &mut E) -> u8
    ensures { result ≡ status_after outcome.now }
{
    match outcome {
        Ok(()) => 0,
        Err(fault) => {
            let _ = writeln!(err, "stencil: {fault}");
            status(fault)
        }
    }
}

/// The status of words that ask for no command: help or the version is printed, and a fault told.
pub fn answer_words<W: Write, E: Write>(error: &Error, out: &mut W, err: &mut E) -> u8
    ensures memory { kind_of error.now ≡ ErrorKind.OutOfMemory → result ≡ 4 }
    ensures help { kind_of error.now ≡ ErrorKind.DisplayHelp → (result ≡ 0) ⊎ (result ≡ 5) }
    ensures version { kind_of error.now ≡ ErrorKind.DisplayVersion → (result ≡ 0) ⊎ (result ≡ 5) }
    ensures misuse { kind_of error.now ≢ ErrorKind.OutOfMemory → kind_of error.now ≢ ErrorKind.DisplayHelp → kind_of error.now ≢ ErrorKind.DisplayVersion → result ≡ 2 }
{
    match error.kind() {
        ErrorKind::OutOfMemory => answer(&Err(Fault::Memory), err),
        ErrorKind::DisplayHelp | ErrorKind::DisplayVersion => answer(&print_text(error, out), err),
        _ => {
            let _ = write!(err, "{error}");
            MISUSED
        }
    }
}
