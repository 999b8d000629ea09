//! The words that the system hands over.

use crate::exit::{MISUSED, status};
use crate::pipeline::Fault;
use std::env::Env;
use std::io::{self, Error, ErrorKind};
use std::{env, str};

// The system hands over no longer word.
const LONGEST_WORD: usize = 131_072;

/// The words after the program's name.
///
/// # Errors
/// Of the kind `OutOfMemory` where memory runs out, and of another where a word is not UTF-8.
pub fn words_given(rt: &HostRuntime) -> io::Result<Vec<String>> {
    Ok(env::args(rt)?.skip(1).collect(rt.alloc())?)
}

/// Tells the first word that is not UTF-8. The answer is whether there is one.
fn tell_word(rt: &HostRuntime) -> io::Result<bool> {
    let mut bytes = vec![in rt.alloc(); 0u8; LONGEST_WORD]?;
    for number in 1..usize::MAX {
        let Ok(length) = rt.arg(number, bytes.as_mut_slice()) else {
            return Ok(false);
        };
        let word = &bytes.as_slice()[..length];
        if str::from_utf8(word).is_err() {
            eprintln!(rt;
                "error: word {number} is not UTF-8: '{}'",
                word.escape_ascii()
            )?;
            return Ok(true);
        }
    }
    Ok(false)
}

/// The status where the words can't be read, which is told: a fault of the command line, or want of memory.
pub fn answer_unread(rt: &HostRuntime, error: &Error) -> u8 {
    if error.kind() == ErrorKind::OutOfMemory {
        let fault = Fault::Memory;
        let _ = eprintln!(rt; "stencil: {fault}");
        return status(&fault);
    }
    if !matches!(tell_word(rt), Ok(true)) {
        let _ = eprintln!(rt; "error: {error}");
    }
    MISUSED
}
