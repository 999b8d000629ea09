//! The words of the command line.

ghost use Rattle.std.specs.Prelude.{◌≡◌, ◌⊎◌, None, Some, map, option_and_then, option_map, IfOk, MatchResult};
ghost use Rattle.clap.specs.Words.{FailsBy, fault_of, first_value, found_of, kind_of, rows_of, subcommand_of, subcommand_rows_of};
ghost use Rattle.clap.specs.declared.error.kind.ErrorKind.TheVariants.{OutOfMemory, ValueValidation};
ghost use Rattle.commands.specs.Asked.{asked_by, check_asked, way_asked};
ghost use Rattle.commands.specs.Line.{asked_of_check, asked_of_cut, asked_of_order, crop_in, rect_in, side_in, tiles_in};
ghost use Rattle.commands.specs.Line.{AsksFor, FailsFor, asked_of_command, asked_of_one, asked_of_plan, check_in, compare_in, compile_in, draw_in, evaluations_in, explain_in, format_in};
ghost use Rattle.commands.specs.Line.{is_set, line, picture_in, plain_in, replay_in, run_in, stores_in, to_compare, workers_in};

mod codes;
mod described;
mod names;
mod stated;
mod values;

use crate::limit::{limit_spelled, side_spelled};
use crate::pipeline::BUDGET;
use crate::request::{
    CheckRequest, CompareRequest, CompileRequest, CropRequest, DrawRequest, ExplainRequest,
    FormatRequest, PictureRequest, ReplayRequest, Request, TilesRequest, Way,
};
use crate::words::codes::page_spelled;
use crate::words::described::command_line;
use crate::words::names::{
    ALGORITHM, AT_MOST, BY_FIRST, CHECK, CODE, COMPARE, COMPILE, COST, CROP, DRAW, EXPLAIN, FOLDER,
    FORMAT, HEIGHT, INPUT, LEFT, ORDER, ORDER_OPTION, OUTPUT, PLAIN, PLAN, REPLAY, RUN, SCHEDULE,
    SHOW, TILE_HEIGHT, TILE_WIDTH, TILES, TOP, WIDTH, WORKERS,
};
use crate::words::values::unfit;
use crate::workers::workers_spelled;
use clap::{ArgMatches, Error};
use crop::Rect;
pub use stated::stated_words;
use std::alloc::{AllocError, Global};

// The value that a word without one gives where it stands.
const SET: &str = "true";

/// The picture that a command's words ask for.
fn picture_found<'a>(way: Way<'a>, matches: &ArgMatches<'a>) -> Option<Request<'a>>
    ensures { option_map asked_by result ≡ picture_in (way_asked way.entry) (rows_of (found_of matches.now)) }
{
    let algorithm = matches.get_str(ALGORITHM)?;
    let input = matches.get_str(INPUT)?;
    let output = matches.get_str(OUTPUT)?;
    Some(Request::Picture(PictureRequest {
        way,
        algorithm,
        input,
        output,
    }))
}

/// How many workers the words ask for: one, where they say nothing.
fn workers_found(matches: &ArgMatches<'_>) -> Option<usize>
    ensures { result ≡ workers_in (first_value (found_of matches.now) WORKERS.now) }
{
    match matches.get_str(WORKERS) {
        None => Some(1),
        Some(text) => workers_spelled(text),
    }
}

/// How many evaluations a pixel may take by the words.
fn evaluations_found(matches: &ArgMatches<'_>) -> Option<u64>
    ensures { result ≡ evaluations_in (first_value (found_of matches.now) AT_MOST.now) }
{
    match matches.get_str(AT_MOST) {
        None => Some(BUDGET),
        Some(text) => limit_spelled(text),
    }
}

/// How many stores a plan may make by the words: any number, where they say nothing.
fn stores_found(matches: &ArgMatches<'_>) -> Option<Option<u64>>
    ensures { result ≡ stores_in (first_value (found_of matches.now) AT_MOST.now) }
{
    match matches.get_str(AT_MOST) {
        None => Some(None),
        Some(text) => Some(Some(limit_spelled(text)?)),
    }
}

fn plain_found<'a>(matches: &ArgMatches<'a>) -> Option<Request<'a>>
    ensures { option_map asked_by result ≡ plain_in (rows_of (found_of matches.now)) }
{
    let most = evaluations_found(matches)?;
    picture_found(Way::Plain { most }, matches)
}

fn format_found<'a>(matches: &ArgMatches<'a>) -> Option<Request<'a>>
    ensures { option_map asked_by result ≡ format_in (rows_of (found_of matches.now)) }
{
    let algorithm = matches.get_str(ALGORITHM)?;
    let output = matches.get_str(OUTPUT)?;
    Some(Request::Format(FormatRequest { algorithm, output }))
}

fn explain_found<'a>(matches: &ArgMatches<'a>) -> Option<Request<'a>>
    ensures { option_map asked_by result ≡ explain_in (rows_of (found_of matches.now)) }
{
    let code = matches.get_str(CODE)?;
    let page = page_spelled(code)?;
    Some(Request::Explain(ExplainRequest { code, page }))
}

fn compile_found<'a>(matches: &ArgMatches<'a>) -> Option<Request<'a>>
    ensures { option_map asked_by result ≡ compile_in (rows_of (found_of matches.now)) }
{
    let algorithm = matches.get_str(ALGORITHM)?;
    let schedule = matches.get_str(SCHEDULE)?;
    let plan = matches.get_str(PLAN)?;
    Some(Request::Compile(CompileRequest {
        algorithm,
        schedule,
        plan,
    }))
}

fn run_found<'a>(matches: &ArgMatches<'a>) -> Option<Request<'a>>
    ensures { option_map asked_by result ≡ run_in (rows_of (found_of matches.now)) }
{
    let plan = matches.get_str(PLAN)?;
    let workers = workers_found(matches)?;
    let most = stores_found(matches)?;
    picture_found(
        Way::File {
            plan,
            workers,
            most,
        },
        matches,
    )
}

fn check_found<'a>(matches: &ArgMatches<'a>) -> Option<CheckRequest<'a>>
    ensures { option_map check_asked result ≡ check_in (rows_of (found_of matches.now)) }
{
    let algorithm = matches.get_str(ALGORITHM)?;
    let plan = matches.get_str(PLAN)?;
    Some(CheckRequest { algorithm, plan })
}

fn replay_found<'a>(matches: &ArgMatches<'a>) -> Option<Request<'a>>
    ensures { option_map asked_by result ≡ replay_in (rows_of (found_of matches.now)) }
{
    let check = check_found(matches)?;
    let input = matches.get_str(INPUT)?;
    let order = matches.get_str(ORDER)?;
    Some(Request::Replay(ReplayRequest {
        check,
        input,
        order,
    }))
}

fn draw_found<'a>(matches: &ArgMatches<'a>) -> Option<Request<'a>>
    ensures { option_map asked_by result ≡ draw_in (rows_of (found_of matches.now)) }
{
    let check = check_found(matches)?;
    let output = matches.get_str(OUTPUT)?;
    let order = matches.get_str(ORDER_OPTION);
    Some(Request::Draw(DrawRequest {
        check,
        output,
        order,
    }))
}

/// Whether the words say that the first schedule's picture stands in place of the plain one.
fn is_by_first(matches: &ArgMatches<'_>) -> bool
    ensures { result ≡ is_set (first_value (found_of matches.now) BY_FIRST.now) }
{
    match matches.get_str(BY_FIRST) {
        None => false,
        Some(text) => text == SET,
    }
}

/// Schedules to be compared, of these names.
fn comparison_found<'a>(matches: &ArgMatches<'a>, schedules: Vec<&'a str>) -> Option<Request<'a>>
    ensures { option_map asked_by result ≡ to_compare (is_set (first_value (found_of matches.now) BY_FIRST.now)) (first_value (found_of matches.now) ALGORITHM.now)
        (first_value (found_of matches.now) INPUT.now) (Some (map (λ name. name.now) schedules.entry.items)) }
{
    let algorithm = matches.get_str(ALGORITHM)?;
    let input = matches.get_str(INPUT)?;
    let by_first = is_by_first(matches);
    Some(Request::Compare(CompareRequest {
        algorithm,
        input,
        schedules,
        by_first,
    }))
}

fn compare_found<'a>(
    alloc: Global,
    matches: &ArgMatches<'a>,
) -> Result<Option<Request<'a>>, AllocError>
    ensures { IfOk result (λ found. option_map asked_by found ≡ compare_in (rows_of (found_of matches.now))) }
{
    match matches.get_strs(SCHEDULE) {
        None => Ok(None),
        Some(names) => {
            let schedules = Vec::from_slice(alloc, names)?;
            Ok(comparison_found(matches, schedules))
        }
    }
}

/// The number of samples that a word spells.
fn side_found(matches: &ArgMatches<'_>, name: &str) -> Option<u32>
    ensures { result ≡ side_in (first_value (found_of matches.now) name.now) }
{
    side_spelled(matches.get_str(name)?)
}

/// The rectangle that the words ask for.
fn rect_found(matches: &ArgMatches<'_>) -> Option<Rect>
    ensures { result ≡ rect_in (rows_of (found_of matches.now)) }
{
    let x = side_found(matches, LEFT)?;
    let y = side_found(matches, TOP)?;
    let width = side_found(matches, WIDTH)?;
    let height = side_found(matches, HEIGHT)?;
    Some(Rect {
        x,
        y,
        width,
        height,
    })
}

fn crop_found<'a>(matches: &ArgMatches<'a>) -> Option<Request<'a>>
    ensures { option_map asked_by result ≡ crop_in (rows_of (found_of matches.now)) }
{
    let rect = rect_found(matches)?;
    let algorithm = matches.get_str(ALGORITHM)?;
    let output = matches.get_str(OUTPUT)?;
    Some(Request::Crop(CropRequest {
        algorithm,
        rect,
        output,
    }))
}

fn tiles_found<'a>(matches: &ArgMatches<'a>) -> Option<Request<'a>>
    ensures { option_map asked_by result ≡ tiles_in (rows_of (found_of matches.now)) }
{
    let width = side_found(matches, TILE_WIDTH)?;
    let height = side_found(matches, TILE_HEIGHT)?;
    let algorithm = matches.get_str(ALGORITHM)?;
    let folder = matches.get_str(FOLDER)?;
    Some(Request::Tiles(TilesRequest {
        algorithm,
        width,
        height,
        folder,
    }))
}

/// What the command of this name asks for with its words, where it cuts an algorithm.
fn cut_named<'a>(name: &str, matches: &ArgMatches<'a>) -> Option<Request<'a>>
    ensures { option_map asked_by result ≡ asked_of_cut (name.now, rows_of (found_of matches.now)) }
{
    if name == CROP {
        crop_found(matches)
    } else if name == TILES {
        tiles_found(matches)
    } else {
        None
    }
}

/// The same of commands that take an order.
fn ordered_named<'a>(name: &str, matches: &ArgMatches<'a>) -> Option<Request<'a>>
    ensures { option_map asked_by result ≡ asked_of_order (name.now, rows_of (found_of matches.now)) }
{
    if name == DRAW {
        draw_found(matches)
    } else if name == REPLAY {
        replay_found(matches)
    } else {
        cut_named(name, matches)
    }
}

/// The same of commands that tell something of a plan file.
fn told_named<'a>(name: &str, matches: &ArgMatches<'a>) -> Option<Request<'a>>
    ensures { option_map asked_by result ≡ asked_of_check (name.now, rows_of (found_of matches.now)) }
{
    if name == CHECK {
        Some(Request::Check(check_found(matches)?))
    } else if name == COST {
        Some(Request::Cost(check_found(matches)?))
    } else if name == SHOW {
        Some(Request::Show(check_found(matches)?))
    } else {
        ordered_named(name, matches)
    }
}

/// What the command of this name asks for with its words, where it takes a plan file.
fn planned_named<'a>(name: &str, matches: &ArgMatches<'a>) -> Option<Request<'a>>
    ensures { option_map asked_by result ≡ asked_of_plan (name.now, rows_of (found_of matches.now)) }
{
    if name == RUN {
        run_found(matches)
    } else {
        told_named(name, matches)
    }
}

/// The same of all commands that take so many words.
fn request_named<'a>(name: &str, matches: &ArgMatches<'a>) -> Option<Request<'a>>
    ensures { option_map asked_by result ≡ asked_of_one (name.now, rows_of (found_of matches.now)) }
{
    if name == PLAIN {
        plain_found(matches)
    } else if name == FORMAT {
        format_found(matches)
    } else if name == EXPLAIN {
        explain_found(matches)
    } else if name == COMPILE {
        compile_found(matches)
    } else {
        planned_named(name, matches)
    }
}

/// What the command of this name asks for with its words.
fn request_of<'a>(
    alloc: Global,
    name: &str,
    matches: &ArgMatches<'a>,
) -> Result<Option<Request<'a>>, AllocError>
    ensures { IfOk result (λ found. option_map asked_by found ≡ asked_of_command (name.now, rows_of (found_of matches.now))) }
{
    if name == COMPARE {
        compare_found(alloc, matches)
    } else {
        Ok(request_named(name, matches))
    }
}

fn request_found<'a>(
    alloc: Global,
    matches: &ArgMatches<'a>,
) -> Result<Option<Request<'a>>, AllocError>
    ensures { IfOk result (λ found. option_map asked_by found ≡ option_and_then asked_of_command (subcommand_rows_of matches.now)) }
{
    match matches.subcommand() {
        None => Ok(None),
        Some((name, found)) => request_of(alloc, name, found),
    }
}

/// What is found of the words, where they are as they are wanted.
fn matches_in<'a>(alloc: Global, words: &'a [&'a str]) -> Result<ArgMatches<'a>, Error>
    ensures fails { FailsBy (fault_of line (map (λ word. word.now) words.entry.now)) result }
    ensures found { IfOk result (λ matches. subcommand_rows_of matches ≡ subcommand_of line (map (λ word. word.now) words.entry.now)) }
{
    let mut command = command_line(alloc)?;
    command.try_get_matches_from_mut(words)
}

/// What words ask for that are as they are wanted, or the fault of a value that is no number or code.
fn request_in<'a>(alloc: Global, matches: &ArgMatches<'a>) -> Result<Request<'a>, Error>
    ensures { MatchResult result
        (λ request. option_and_then asked_of_command (subcommand_rows_of matches.now) ≡ Some (asked_by request))
        (λ error. (kind_of error ≡ OutOfMemory) ⊎ ((kind_of error ≡ ValueValidation) × (option_and_then asked_of_command (subcommand_rows_of matches.now) ≡ None))) }
{
    match request_found(alloc, matches)? {
        Some(request) => Ok(request),
        None => Err(unfit(alloc, matches)?),
    }
}

/// What the words ask for. The words are those after the program's name.
///
/// # Errors
/// A fault of the words, a text of help that they ask for, or want of memory.
pub fn read_words<'a>(alloc: Global, words: &'a [&'a str]) -> Result<Request<'a>, Error>
    ensures { MatchResult result
        (λ request. AsksFor (map (λ word. word.now) words.entry.now) (asked_by request))
        (FailsFor (map (λ word. word.now) words.entry.now)) }
{
    let matches = matches_in(alloc, words)?;
    request_in(alloc, &matches)
}
