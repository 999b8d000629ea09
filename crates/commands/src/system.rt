//! The files and streams of the system, and the words that it hands over.

mod escaped;
mod given;
mod progress;

use crate::device::{FileError, Files};
use crate::system::progress::Progress;
pub use escaped::Escaped;
pub use given::{answer_unread, words_given};
use std::fs;
use std::fs::{OpenOptions, TryLockError};
use std::io::{self, Error, ErrorKind, Read, Write};
use std::os::unix::fs::MetadataExt;

// The name that stands for standard input where a file is read, and for standard output where one is written.
const STREAM: &str = "-";

// How many names beside a file are tried, where others have come there.
const NAMES: u32 = 64;

// The name of a file that is being written is that of its place, or the beginning of it, and no more than so many bytes.
const ENDING: usize = 32;

// How many bytes of a place's last name the name of a file that is being written begins with at most: systems take 255.
const BEGINNING: usize = 255 - ENDING;

// How many bytes a letter has at most.
const LETTER: usize = 4;

// The room for a file of so many bytes is not taken before they come.
const MOST_AT_ONCE: u64 = 1 << 26;

/// The files of the system, by their paths; `-` is standard input where a file is read, and standard output where one is
/// written.
#[derive(Drop)]
pub struct SystemFiles<'a> {
    rt: &'a HostRuntime,
    /// Room for the name of a file that is being written.
    part: String,
    /// What is told of the file that could not be read or written last; nothing where there was none.
    failure: String,
}

impl<'a> SystemFiles<'a> {
    /// The files, with all memory that writing one takes whose name is one of these words and no link.
    ///
    /// # Errors
    /// Of the kind `OutOfMemory` where memory runs out.
    pub fn new(rt: &'a HostRuntime, words: &[&str]) -> io::Result<SystemFiles<'a>> {
        let longest = words.iter().map(|word| word.len()).max().unwrap_or(0);
        let part = String::with_capacity(rt.alloc(), longest.saturating_add(ENDING))?;
        let failure = String::new(rt.alloc());
        Ok(SystemFiles { rt, part, failure })
    }

    /// Writes a file or standard output.
    fn write(&mut self, name: &str, bytes: &[u8]) -> io::Result<()> {
        if name == STREAM {
            return write_stream(self.rt, bytes);
        }
        match place_of(self.rt, name)? {
            Place::Named(place) => replace(self.rt, place, &mut self.part, bytes),
            Place::Linked(place) => replace(self.rt, place.as_str(), &mut self.part, bytes),
            Place::Other => fs::write(self.rt, name, bytes),
        }
    }
}

/// What a file that is read is called.
fn read_name(name: &str) -> &str {
    if name == STREAM {
        "standard input"
    } else {
        name
    }
}

/// What a file that is written is called.
fn written_name(name: &str) -> &str {
    if name == STREAM {
        "standard output"
    } else {
        name
    }
}

/// What is told of a file that could not be read or written; nothing where memory runs out.
fn failure(rt: &HostRuntime, name: &str, act: &str, error: &Error) -> String {
    let mut told = String::new(rt.alloc());
    if write!(told, "{name} can't be {act}: {error}").is_err() {
        told.clear();
    }
    told
}

fn file_error(error: &Error) -> FileError {
    match error.kind() {
        ErrorKind::OutOfMemory => FileError::Memory,
        _ => FileError::Device,
    }
}

/// For how many bytes more than a file has there is room. By one of them its end is found. With the others the memory of an image
/// file that was read serves for the picture's file too, where that has as many samples and a longer header.
const SPARE: usize = 64;

/// Room for the bytes that a file says it has, and some more. Where there is no such room, or the file says nothing, its bytes are
/// read all the same: the list then grows as they come.
fn make_room(bytes: &mut Vec<u8>, file: &fs::File) {
    if let Ok(found) = file.metadata() {
        if found.len() < MOST_AT_ONCE {
            let _ = bytes.reserve(found.len() as usize + SPARE);
        }
    }
}

/// The bytes of a file or of standard input.
fn read(rt: &HostRuntime, name: &str) -> io::Result<Vec<u8>> {
    let mut bytes = Vec::new(rt.alloc());
    if name == STREAM {
        rt.reader().read_to_end(&mut bytes)?;
    } else {
        let mut file = fs::open(rt, name)?;
        make_room(&mut bytes, &file);
        file.read_to_end(&mut bytes)?;
    }
    Ok(bytes)
}

/// Where a file's bytes are to stand at last.
#[derive(Drop)]
enum Place<'a> {
    /// At that name, where a regular file stands, or nothing.
    Named(&'a str),
    /// At the end of a link, where a regular file stands.
    Linked(String),
    /// Where something else stands, which is written as it is.
    Other,
}

/// Where a link leads.
fn linked(rt: &HostRuntime, name: &str) -> io::Result<Place<'static>> {
    if !fs::exists(rt, name)? || !fs::metadata(rt, name)?.is_file() {
        return Ok(Place::Other);
    }
    let path = fs::canonicalize(rt, name)?;
    Ok(Place::Linked(path.as_path().as_str().to_string(rt.alloc())?))
}

/// Where the bytes of a file of that name are to stand. Without a link this takes no memory.
fn place_of<'a>(rt: &HostRuntime, name: &'a str) -> io::Result<Place<'a>> {
    let Ok(found) = fs::symlink_metadata(rt, name) else {
        return Ok(Place::Named(name));
    };
    if found.is_symlink() {
        return linked(rt, name);
    }
    Ok(if found.is_file() {
        Place::Named(name)
    } else {
        Place::Other
    })
}

/// Whether a name is still that of an open file, and of no other one since.
fn is_of(rt: &HostRuntime, name: &str, file: &fs::File) -> io::Result<bool> {
    let there = fs::symlink_metadata(rt, name)?;
    let opened = file.metadata()?;
    Ok(there.dev() == opened.dev() && there.ino() == opened.ino())
}

/// Takes a new file for this run, so that no other run takes it for left over. The answer is whether its name is still its own: not
/// where a run that came between took it for left over and removed it. It is where the system locks no files, or can't tell.
fn take(rt: &HostRuntime, name: &str, file: &fs::File) -> bool {
    match file.try_lock() {
        Ok(()) => match is_of(rt, name, file) {
            Ok(is_own) => is_own,
            Err(error) => error.kind() != ErrorKind::NotFound,
        },
        Err(TryLockError::WouldBlock) => false,
        Err(TryLockError::Error(_)) => true,
    }
}

/// Removes a file that a run left which was ended, if that is what stands there: a regular file that no run has taken.
fn clear(rt: &HostRuntime, name: &str) -> io::Result<()> {
    if !fs::symlink_metadata(rt, name)?.is_file() {
        return Ok(());
    }
    let file = fs::open(rt, name)?;
    if file.try_lock().is_ok() && is_of(rt, name, &file)? {
        fs::remove_file(rt, name)?;
    }
    Ok(())
}

/// A new file of that name that this run has taken. None where another run has the name.
fn new_part(rt: &HostRuntime, name: &str) -> io::Result<Option<fs::File>> {
    let mut how = OpenOptions::new();
    how.write(true);
    how.create_new(true);
    let file = match how.open(rt, name) {
        Ok(file) => file,
        Err(error) if error.kind() == ErrorKind::AlreadyExists => return Ok(None),
        Err(error) => return Err(error),
    };
    Ok(if take(rt, name, &file) {
        Some(file)
    } else {
        None
    })
}

/// A place, without what its last name has behind so many bytes.
fn beginning(place: &str) -> &str {
    let start = match place.rfind('/') {
        Some(slash) => slash.saturating_add(1),
        None => 0,
    };
    let longest = start.saturating_add(BEGINNING);
    if place.len() <= longest {
        return place;
    }
    for back in 0..LETTER {
        if let Some(begun) = place.get(..longest.saturating_sub(back)) {
            return begun;
        }
    }
    place
}

/// Makes the text the name of a file beside another one.
fn put_name(name: &mut String, place: &str, number: u32) -> io::Result<()> {
    name.clear();
    let begun = beginning(place);
    match write!(name, "{begun}.{number}.stencil-part") {
        Ok(()) => Ok(()),
        Err(_) => Err(Error::from(ErrorKind::OutOfMemory)),
    }
}

/// A new file beside another one; its name is put. What an ended run left of that name is cleared away.
fn beside(rt: &HostRuntime, place: &str, name: &mut String) -> io::Result<fs::File> {
    for number in 0..NAMES {
        put_name(name, place, number)?;
        // What can't be cleared away stays, and the next name is taken.
        let _ = clear(rt, name.as_str());
        if let Some(file) = new_part(rt, name.as_str())? {
            return Ok(file);
        }
    }
    Err(Error::from(ErrorKind::AlreadyExists))
}

/// Makes these the bytes of a new file, with the permissions of the one whose place it is to take, and waits until the device
/// has them.
fn fill(rt: &HostRuntime, file: &mut fs::File, place: &str, bytes: &[u8]) -> io::Result<()> {
    if let Ok(old) = fs::metadata(rt, place) {
        file.set_permissions(old.permissions())?;
    }
    file.write_all(bytes)?;
    file.sync_all()
}

/// Puts a regular file at its place when it is whole; what fails before leaves the old one as it was. The file stays taken until
/// it has its place.
fn replace(rt: &HostRuntime, place: &str, name: &mut String, bytes: &[u8]) -> io::Result<()> {
    let mut file = beside(rt, place, name)?;
    let done = match fill(rt, &mut file, place, bytes) {
        Ok(()) => fs::rename(rt, name.as_str(), place),
        Err(error) => Err(error),
    };
    if done.is_err() {
        let _ = fs::remove_file(rt, name.as_str());
    }
    done
}

/// Writes standard output.
fn write_stream(rt: &HostRuntime, bytes: &[u8]) -> io::Result<()> {
    let mut out = rt.stdout();
    out.write_all(bytes)?;
    out.flush()
}

impl<'a> Files for SystemFiles<'a> {
    type Watch = Progress<'a>;

    fn watch(&self, pieces: usize) -> Progress<'a> {
        Progress::new(self.rt, pieces)
    }

    fn get(&mut self, _alloc: std::alloc::Global, name: &str) -> Result<Vec<u8>, FileError> {
        let outcome = read(self.rt, name);
        if let Err(error) = &outcome {
            self.failure = failure(self.rt, read_name(name), "read", error);
        }
        outcome.map_err(|error| file_error(&error))
    }

    /// A regular file is read again; a stream, a pipe or a device is not.
    fn again(&mut self, _alloc: std::alloc::Global, name: &str) -> Option<Vec<u8>> {
        let is_again = name != STREAM && fs::metadata(self.rt, name).ok()?.is_file();
        if is_again {
            read(self.rt, name).ok()
        } else {
            None
        }
    }

    /// A regular file is written beside its place and renamed when it is whole, so that a failure leaves the old one.
    fn put(&mut self, name: &str, bytes: &[u8]) -> Result<(), FileError> {
        let outcome = self.write(name, bytes);
        if let Err(error) = &outcome {
            self.failure = failure(self.rt, written_name(name), "written", error);
        }
        outcome.map_err(|error| file_error(&error))
    }

    fn failure(&self) -> Option<&str> {
        if self.failure.is_empty() {
            None
        } else {
            Some(self.failure.as_str())
        }
    }
}
