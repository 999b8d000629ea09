//! What is told of a value of the command line that is no number or code as it is wanted.

ghost use Rattle.std.specs.Prelude.{◌≡◌, IfOk};
ghost use Rattle.clap.specs.Words.{kind_of};

use crate::limit::{limit_spelled, side_spelled};
use crate::words::codes::page_spelled;
use crate::words::described::{called_command, command_line};
use crate::words::names::{
    AT_MOST, CODE, HEIGHT, LEFT, TILE_HEIGHT, TILE_WIDTH, TOP, WIDTH, WORKERS,
};
use crate::workers::workers_spelled;
use clap::error::ErrorKind;
use clap::{ArgMatches, Command, Error};
use std::alloc::{AllocError, Global};

/// What a value is.
#[derive(Clone, Copy, Drop)]
enum Kind {
    /// A number of workers.
    Workers,
    /// How many stores or evaluations there may be.
    Limit,
    /// A number of samples.
    Side,
    /// The code of a refusal.
    Code,
}

/// Where a value stands among the words.
#[derive(Clone, Copy, Drop)]
struct Slot {
    /// What it is found by.
    name: &'static str,
    /// How help has it.
    shown: &'static str,
    kind: Kind,
}

/// All values that are numbers or codes, in the order in which they are read.
const SLOTS: [Slot; 9] = [
    Slot {
        name: WORKERS,
        shown: "--workers <N>",
        kind: Kind::Workers,
    },
    Slot {
        name: AT_MOST,
        shown: "--at-most <N>",
        kind: Kind::Limit,
    },
    Slot {
        name: LEFT,
        shown: "<X>",
        kind: Kind::Side,
    },
    Slot {
        name: TOP,
        shown: "<Y>",
        kind: Kind::Side,
    },
    Slot {
        name: WIDTH,
        shown: "<W>",
        kind: Kind::Side,
    },
    Slot {
        name: HEIGHT,
        shown: "<H>",
        kind: Kind::Side,
    },
    Slot {
        name: TILE_WIDTH,
        shown: "<TW>",
        kind: Kind::Side,
    },
    Slot {
        name: TILE_HEIGHT,
        shown: "<TH>",
        kind: Kind::Side,
    },
    Slot {
        name: CODE,
        shown: "<CODE>",
        kind: Kind::Code,
    },
];

/// Whether a text spells such a value.
fn is_spelled(kind: Kind, text: &str) -> bool {
    match kind {
        Kind::Workers => workers_spelled(text).is_some(),
        Kind::Limit => limit_spelled(text).is_some(),
        Kind::Side => side_spelled(text).is_some(),
        Kind::Code => page_spelled(text).is_some(),
    }
}

/// What is wanted of such a value.
fn wanted(kind: Kind) -> &'static str {
    match kind {
        Kind::Workers => "a decimal number from 1 to 64",
        Kind::Limit => "a decimal number below 2^64",
        Kind::Side => "a decimal number below 2^32",
        Kind::Code => "the code of a refusal, as K5",
    }
}

/// The first value of these words that is not as it is wanted.
fn first_unfit<'a>(words: &ArgMatches<'a>) -> Option<(Slot, &'a str)> {
    for slot in SLOTS.iter() {
        if let Some(text) = words.get_str(slot.name) {
            if !is_spelled(slot.kind, text) {
                return Some((*slot, text));
            }
        }
    }
    None
}

/// What is told of these words, of which a value is not as it is wanted.
fn told_of(alloc: Global, words: &ArgMatches<'_>) -> Result<String, AllocError> {
    match first_unfit(words) {
        Some((slot, text)) => format!(in alloc;
            "invalid value '{text}' for '{}': it takes {}",
            slot.shown,
            wanted(slot.kind)
        ),
        None => String::from_str(alloc, "a value is not as it is wanted"),
    }
}

/// What is told where the words are as they are wanted, but for a value that is no number or code.
fn unfit_told(alloc: Global, matches: &ArgMatches<'_>) -> Result<String, AllocError> {
    match matches.subcommand() {
        Some((_, words)) => told_of(alloc, words),
        None => String::from_str(alloc, "a command is wanted"),
    }
}

/// The command that the words name.
fn named_command<'a>(alloc: Global, matches: &ArgMatches<'_>) -> Result<Command<'a>, AllocError> {
    match matches.subcommand() {
        Some((name, _)) => called_command(alloc, name),
        None => command_line(alloc),
    }
}

/// The fault of words that are as they are wanted, but for a value that is no number or code, with the usage of their command.
pub(super) fn unfit(alloc: Global, matches: &ArgMatches<'_>) -> Result<Error, AllocError>
    ensures { IfOk result (λ error. kind_of error ≡ ErrorKind.ValueValidation) }
{
    let told = unfit_told(alloc, matches)?;
    let mut command = named_command(alloc, matches)?;
    command.error(ErrorKind::ValueValidation, told.as_str())
}
