//! The command line: which words each command takes, and its help.

ghost use Rattle.std.specs.Prelude.{map, IfOk};
ghost use Rattle.clap.specs.Words.{App, Rule, new_app, with_rule, with_subcommand};
ghost use Rattle.commands.specs.Described.{IsDescribed, IsRule, with_needed};
ghost use Rattle.commands.specs.Line.{by_first_rule, compare_line, compile_line, crop_line, draw_line, explain_line, format_line, line, needed};
ghost use Rattle.commands.specs.Line.{plain_line, plan_line, program, replay_line, run_line, cut, scheduled, several, tiles_line, valued};

use crate::help;
use crate::words::names::{
    ALGORITHM, AT_MOST, BY_FIRST, CHECK, CODE, COMPARE, COMPILE, COST, CROP, DRAW, EXPLAIN, FOLDER,
    FORMAT, HEIGHT, INPUT, LEFT, ORDER, ORDER_OPTION, OUTPUT, PLAIN, PLAN, REPLAY, RUN, SCHEDULE,
    SHOW, TILE_HEIGHT, TILE_WIDTH, TILES, TOP, WIDTH, WORKERS,
};
use clap::{Arg, ArgAction, Command};
use std::alloc::{AllocError, Global};

// The program's name.
const PROGRAM: &str = "stencil";

// What `--version` prints behind the program's name: its own version, and the toolchain's line.
const VERSION: &str = "0.1.0 (rattle-kit-13f logic dac8208d650f15bf)";

/// A word that has to be there.
fn word<'a>(alloc: Global, name: &'a str, help: &'a str) -> Arg<'a>
    ensures { IsRule (needed name.entry.now) result }
{
    Arg::new(alloc, name).required(true).help(help)
}

/// Words of which there has to be one.
fn several_words<'a>(alloc: Global, name: &'a str, help: &'a str) -> Arg<'a>
    ensures { IsRule (several name.entry.now) result }
{
    word(alloc, name, help).num_args(1..)
}

/// A word with a value of that name, which may be left out.
fn valued_word<'a>(alloc: Global, name: &'a str, value: &'a str, help: &'a str) -> Arg<'a>
    ensures { IsRule (valued name.entry.now) result }
{
    Arg::new(alloc, name)
        .long(name)
        .value_name(value)
        .help(help)
}

/// Whether schedules are compared with the first of them, which may be left out.
fn by_first_described<'a>(alloc: Global) -> Arg<'a>
    ensures { IsRule by_first_rule result }
{
    Arg::new(alloc, BY_FIRST)
        .long(BY_FIRST)
        .action(ArgAction::SetTrue)
        .help("Compare with the first schedule's picture; with the plain one if left out")
}

/// A command with what its help begins and ends with, and the words that have to be there: each with what help says of it.
fn described<'a>(
    alloc: Global,
    name: &'a str,
    about: &'a str,
    after: &'a str,
    words: &[(&'a str, &'a str)],
) -> Result<Command<'a>, AllocError>
    ensures { IfOk result (IsDescribed (with_needed (new_app name.entry.now) (map (λ word. word.0.now) words.now))) }
{
    let mut command = Command::new(alloc, name).about(about).after_help(after);
    for told in words {
        command = command.arg(word(alloc, told.0, told.1))?;
    }
    Ok(command)
}

/// A command with one word more.
fn with_word<'a>(
    command: Result<Command<'a>, AllocError>,
    word: Arg<'a>,
) -> Result<Command<'a>, AllocError>
    ensures { (a : App) (r : Rule) → IfOk command.entry (IsDescribed a) → IsRule r word.entry → IfOk result (IsDescribed (with_rule a r)) }
{
    command?.arg(word)
}

/// The program's line with one command more.
fn with_command<'a>(
    line: Result<Command<'a>, AllocError>,
    command: Result<Command<'a>, AllocError>,
) -> Result<Command<'a>, AllocError>
    ensures { (a b : App) → IfOk line.entry (IsDescribed a) → IfOk command.entry (IsDescribed b)
        → IfOk result (IsDescribed (with_subcommand a b.top)) }
{
    line?.subcommand(command?)
}

fn plain_described<'a>(alloc: Global) -> Result<Command<'a>, AllocError>
    ensures { IfOk result (IsDescribed plain_line) }
{
    let command = described(
        alloc,
        PLAIN,
        "Write the picture, computed by the definitions alone",
        help::PLAIN,
        &[
            (ALGORITHM, "The algorithm's text"),
            (INPUT, "The image, a PGM or PPM file"),
            (OUTPUT, "Where the picture is written"),
        ],
    );
    let most = "How many evaluations a pixel may take; 4294967296 if left out";
    with_word(command, valued_word(alloc, AT_MOST, "N", most))
}

fn format_described<'a>(alloc: Global) -> Result<Command<'a>, AllocError>
    ensures { IfOk result (IsDescribed format_line) }
{
    described(
        alloc,
        FORMAT,
        "Write an algorithm in its canonical text",
        help::FORMAT,
        &[
            (ALGORITHM, "The algorithm's text"),
            (OUTPUT, "Where the canonical text is written"),
        ],
    )
}

fn explain_described<'a>(alloc: Global) -> Result<Command<'a>, AllocError>
    ensures { IfOk result (IsDescribed explain_line) }
{
    described(
        alloc,
        EXPLAIN,
        "Tell what the code of a refusal means, with an example and what mends it",
        help::EXPLAIN,
        &[(CODE, "The code, as K5")],
    )
}

fn compile_described<'a>(alloc: Global) -> Result<Command<'a>, AllocError>
    ensures { IfOk result (IsDescribed compile_line) }
{
    described(
        alloc,
        COMPILE,
        "Compile a schedule to a plan file",
        help::COMPILE,
        &[
            (ALGORITHM, "The algorithm's text"),
            (SCHEDULE, "The schedule's text"),
            (PLAN, "Where the plan file is written"),
        ],
    )
}

fn compare_described<'a>(alloc: Global) -> Result<Command<'a>, AllocError>
    ensures { IfOk result (IsDescribed compare_line) }
{
    let command = described(
        alloc,
        COMPARE,
        "Compare the pictures of schedules with the plain one, and tell what they cost",
        help::COMPARE,
        &[
            (ALGORITHM, "The algorithm's text"),
            (INPUT, "The image, a PGM or PPM file"),
        ],
    );
    let command = with_word(
        command,
        several_words(alloc, SCHEDULE, "The schedules' texts"),
    );
    with_word(command, by_first_described(alloc))
}

/// A command with a plan file, and the files that each of them names.
fn plan_described<'a>(
    alloc: Global,
    name: &'a str,
    about: &'a str,
    after: &'a str,
) -> Result<Command<'a>, AllocError>
    ensures { IfOk result (IsDescribed (plan_line name.entry.now)) }
{
    described(
        alloc,
        name,
        about,
        after,
        &[(ALGORITHM, "The algorithm's text"), (PLAN, "The plan file")],
    )
}

fn run_described<'a>(alloc: Global) -> Result<Command<'a>, AllocError>
    ensures { IfOk result (IsDescribed run_line) }
{
    let command = described(
        alloc,
        RUN,
        "Check a plan file and write the picture, computed by the plan",
        help::RUN,
        &[
            (ALGORITHM, "The algorithm's text"),
            (PLAN, "The plan file"),
            (INPUT, "The image, a PGM or PPM file"),
            (OUTPUT, "Where the picture is written"),
        ],
    );
    let workers = "How many workers compute, from 1 to 64; 1 if left out";
    let command = with_word(command, valued_word(alloc, WORKERS, "N", workers));
    let most = "How many stores the plan may make; any number if left out";
    with_word(command, valued_word(alloc, AT_MOST, "N", most))
}

fn draw_described<'a>(alloc: Global) -> Result<Command<'a>, AllocError>
    ensures { IfOk result (IsDescribed draw_line) }
{
    let command = described(
        alloc,
        DRAW,
        "Check a plan file and draw which piece owns each pixel",
        help::DRAW,
        &[
            (ALGORITHM, "The algorithm's text"),
            (PLAN, "The plan file"),
            (OUTPUT, "Where the drawing is written, a PPM file"),
        ],
    );
    let order = "An order of steps: a pixel that it has not set is grey";
    with_word(command, valued_word(alloc, ORDER_OPTION, "ORDER", order))
}

fn replay_described<'a>(alloc: Global) -> Result<Command<'a>, AllocError>
    ensures { IfOk result (IsDescribed replay_line) }
{
    described(
        alloc,
        REPLAY,
        "Check a plan file and replay an order of workers' steps",
        help::REPLAY,
        &[
            (ALGORITHM, "The algorithm's text"),
            (PLAN, "The plan file"),
            (INPUT, "The image, a PGM or PPM file"),
            (
                ORDER,
                "The order: a worker's number from 0 to 63 for each step",
            ),
        ],
    )
}

fn crop_described<'a>(alloc: Global) -> Result<Command<'a>, AllocError>
    ensures { IfOk result (IsDescribed crop_line) }
{
    described(
        alloc,
        CROP,
        "Write the algorithm of a tile, and tell which part of the input it reads",
        help::CROP,
        &[
            (ALGORITHM, "The algorithm's text"),
            (LEFT, "How many samples lie left of the tile"),
            (TOP, "How many samples lie above it"),
            (WIDTH, "How many samples wide the tile is"),
            (HEIGHT, "How many samples high it is"),
            (OUTPUT, "Where the tile's algorithm is written"),
        ],
    )
}

fn tiles_described<'a>(alloc: Global) -> Result<Command<'a>, AllocError>
    ensures { IfOk result (IsDescribed tiles_line) }
{
    described(
        alloc,
        TILES,
        "Cut an algorithm into the algorithms of tiles, and list them",
        help::TILES,
        &[
            (ALGORITHM, "The algorithm's text"),
            (TILE_WIDTH, "How many samples wide a tile is"),
            (TILE_HEIGHT, "How many samples high it is"),
            (FOLDER, "The folder of the tiles' texts and their list"),
        ],
    )
}

/// The program's line without its commands. Usage lines of its commands begin with its name.
fn program_described<'a>(alloc: Global) -> Result<Command<'a>, AllocError>
    ensures { IfOk result (IsDescribed program) }
{
    Command::new(alloc, PROGRAM)
        .about("Compile, check and run integer image pipelines")
        .after_help(help::PROGRAM)
        .version(VERSION)
        .no_binary_name(true)
        .subcommand_required(true)
        .bin_name(PROGRAM)
}

/// With it the commands that need no plan file.
fn planless_described<'a>(alloc: Global) -> Result<Command<'a>, AllocError>
    ensures { IfOk result (IsDescribed (with_subcommand scheduled explain_line.top)) }
{
    let line = with_command(program_described(alloc), plain_described(alloc));
    let line = with_command(line, format_described(alloc));
    let line = with_command(line, compile_described(alloc));
    let line = with_command(line, compare_described(alloc));
    with_command(line, explain_described(alloc))
}

/// With them the commands that tell something of a plan file, and those that cut an algorithm into tiles.
fn cut_described<'a>(alloc: Global) -> Result<Command<'a>, AllocError>
    ensures { IfOk result (IsDescribed cut) }
{
    let check = plan_described(alloc, CHECK, "Check a plan file", help::CHECK);
    let cost_told = "Check a plan file and tell what it costs";
    let cost = plan_described(alloc, COST, cost_told, help::COST);
    let show_told = "Check a plan file and show its loop nests";
    let show = plan_described(alloc, SHOW, show_told, help::SHOW);
    let line = with_command(planless_described(alloc), check);
    let line = with_command(line, cost);
    let line = with_command(line, show);
    let line = with_command(line, crop_described(alloc));
    with_command(line, tiles_described(alloc))
}

/// The program's line.
pub(super) fn command_line<'a>(alloc: Global) -> Result<Command<'a>, AllocError>
    ensures { IfOk result (IsDescribed line) }
{
    let line = with_command(cut_described(alloc), run_described(alloc));
    let line = with_command(line, replay_described(alloc));
    with_command(line, draw_described(alloc))
}

/// The commands that take a number or a code, each by itself; the program's line for any other name.
fn valued_described<'a>(alloc: Global, name: &str) -> Result<Command<'a>, AllocError> {
    if name == PLAIN {
        plain_described(alloc)
    } else if name == EXPLAIN {
        explain_described(alloc)
    } else if name == RUN {
        run_described(alloc)
    } else if name == CROP {
        crop_described(alloc)
    } else if name == TILES {
        tiles_described(alloc)
    } else {
        command_line(alloc)
    }
}

/// The command of this name by itself, called as the program's user calls it: what its usage is told of.
pub(super) fn called_command<'a>(alloc: Global, name: &str) -> Result<Command<'a>, AllocError> {
    let called = format!(in alloc; "{PROGRAM} {name}")?;
    valued_described(alloc, name)?.bin_name(called.as_str())
}
