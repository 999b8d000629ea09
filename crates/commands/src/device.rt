//! Files by their names.

ghost use Rattle.std.specs.Prelude.{◌≡◌, ℕ, List, Option, None, IfErr, IfOk, OnErr, OnOk};
ghost use Rattle.commands.specs.declared.pipeline.fault.Fault.{Fault};
ghost use Rattle.commands.specs.Files.{Holds, Puts, SameFiles, SameOthers};
ghost use Rattle.commands.specs.Pictures.{IsOfDevice};
ghost use Rattle.commands.specs.Status.{fault_of};

use crate::pipeline::Fault;
use crew::Gate;
use pnm::PnmError;
use std::alloc::Global;

/// Why a file is not read or written.
#[derive(Clone, Copy, Drop)]
pub enum FileError {
    /// It can't be opened, read or written.
    Device,
    /// Memory ran out.
    Memory,
}

impl From<FileError> for Fault {
    ghost from_gives = { λ e fault. fault ≡ fault_of e };

    fn from(error: FileError) -> Fault {
        match error {
            FileError::Device => Fault::Image(PnmError::Device),
            FileError::Memory => Fault::Memory,
        }
    }
}

/// Files by their names, and who is told how far a picture has come.
pub trait Files {
    /// What hears of each piece of a picture.
    type Watch: Gate + Drop;

    /// The bytes of each file that there is, by its name, where they are known.
    ghost contents: { Self → Option (List ℕ → Option (List ℕ)) } = { λ _. None };

    /// What hears of the pieces of a picture that is to be computed, of so many pieces. It tells nothing of them to the files.
    fn watch(&self, pieces: usize) -> Self::Watch;

    /// The bytes of a file. No file changes.
    fn get(&mut self, alloc: Global, name: &str) -> Result<Vec<u8>, FileError>
        ensures bytes { IfOk result (λ bytes. Holds (contents self.old) name.now bytes.items) }
        ensures same { SameFiles (contents self.old) (contents self.new) };

    /// The bytes of a file that was read before, where reading it once more gives them again; none of what gives them once, as
    /// a pipe, or where they can't be read. No file changes.
    fn again(&mut self, alloc: Global, name: &str) -> Option<Vec<u8>>
        ensures { SameFiles (contents self.old) (contents self.new) };

    /// What is told of the file that could not be read or written last: its name and why. None where there was none, or where
    /// memory ran out.
    fn failure(&self) -> Option<&str>;

    /// Makes these the bytes of a file, which is made where there is none. No other file changes. What an error leaves of
    /// this one is not said.
    fn put(&mut self, name: &str, bytes: &[u8]) -> Result<(), FileError>
        ensures put { OnOk result (Puts (contents self.old) (contents self.new) name.now bytes.now) }
        ensures others { OnErr result (SameOthers (contents self.old) (contents self.new) name.now) };
}

/// Makes these the bytes of a file, as `Files::put` does, and answers a refusal of the program.
pub fn put_file<F: Files>(files: &mut F, name: &str, bytes: &[u8]) -> Result<(), Fault>
    ensures put { OnOk result (Puts (F.contents files.old) (F.contents files.new) name.now bytes.now) }
    ensures kept { IfErr result (λ fault. IsOfDevice fault × SameOthers (F.contents files.old) (F.contents files.new) name.now) }
{
    files.put(name, bytes)?;
    Ok(())
}
