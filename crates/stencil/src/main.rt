//! The program over the real files and streams. Without words it runs one algorithm from standard input to standard output.
#![tactic(auto)]

mod compare;
mod compiling;
mod explaining;
mod origins;
mod program;
mod schedule_command;

use crate::program::tool;
use commands::Files;
use commands::system::{Escaped, SystemFiles, answer_unread, words_given};
use std::io::{self, BufReader, BufWriter};
use std::process::ExitCode;
use std::sync::Wait;
use std::thread::Threads;

/// Runs the program on words, over any files and the system's streams.
fn run_over<T: Threads + Wait + Sync, F: Files>(
    rt: &HostRuntime,
    threads: &T,
    words: &[&str],
    files: &mut F,
) -> io::Result<u8> {
    let alloc = rt.alloc();
    let mut input = BufReader::new(alloc, rt.reader())?;
    let mut out = BufWriter::new(alloc, rt.stdout())?;
    let mut err = Escaped { out: rt.stderr() };
    Ok(tool(threads, alloc, words, files, &mut input, &mut out, &mut err))
}

/// Runs the program on words, over the system's files and streams. The second handle is the same one, as the right to start
/// threads and to wait for them.
fn run_words<T: Threads + Wait + Sync>(
    rt: &HostRuntime,
    threads: &T,
    words: &[&str],
) -> io::Result<u8> {
    let mut files = SystemFiles::new(rt, words)?;
    run_over(rt, threads, words, &mut files)
}

/// Runs the program on the words after its name.
fn run<T: Threads + Wait + Sync>(rt: &HostRuntime, threads: &T) -> io::Result<u8> {
    let given = words_given(rt)?;
    let words: Vec<&str> = given.iter().map(|word| word.as_str()).collect(rt.alloc())?;
    run_words(rt, threads, words.as_slice())
}

fn main(rt: HostRuntime) -> ExitCode {
    match run(&rt, &rt) {
        Ok(status) => ExitCode::from(status),
        Err(error) => ExitCode::from(answer_unread(&rt, &error)),
    }
}
