//! Which files a request names, and which of them a refusal is of that has no place in its file.

ghost use Rattle.commands.specs.Files.{SameFiles};

use crate::device::Files;
use crate::picture::algorithm_in;
use crate::pipeline::Fault;
use crate::request::{Request, Way};
use algo::Algo;
use pnm::PnmError;
use std::alloc::Global;
use std::io::Write;
use std::{slice, str};

/// The name that stands for standard input where a file is read.
const STREAM: &str = "-";

/// The algorithm's file.
pub fn algorithm_of<'a>(request: &Request<'a>) -> Option<&'a str> {
    match request {
        Request::Picture(asked) => Some(asked.algorithm),
        Request::Format(asked) => Some(asked.algorithm),
        Request::Compile(asked) => Some(asked.algorithm),
        Request::Check(asked) | Request::Cost(asked) | Request::Show(asked) => {
            Some(asked.algorithm)
        }
        Request::Draw(asked) => Some(asked.check.algorithm),
        Request::Replay(asked) => Some(asked.check.algorithm),
        Request::Compare(asked) => Some(asked.algorithm),
        Request::Crop(asked) => Some(asked.algorithm),
        Request::Tiles(asked) => Some(asked.algorithm),
        Request::Explain(_) => None,
    }
}

/// The schedules' files, in the order in which they are taken.
pub fn schedules_of<'b, 'a>(request: &'b Request<'a>) -> &'b [&'a str] {
    match request {
        Request::Compile(asked) => slice::from_ref(&asked.schedule),
        Request::Compare(asked) => asked.schedules.as_slice(),
        _ => &[],
    }
}

/// The plan file that is read.
pub fn plan_of<'a>(request: &Request<'a>) -> Option<&'a str> {
    match request {
        Request::Picture(asked) => match asked.way {
            Way::File { plan, .. } => Some(plan),
            Way::Plain { .. } => None,
        },
        Request::Check(asked) | Request::Cost(asked) | Request::Show(asked) => Some(asked.plan),
        Request::Draw(asked) => Some(asked.check.plan),
        Request::Replay(asked) => Some(asked.check.plan),
        _ => None,
    }
}

/// The image that is read.
fn input_of<'a>(request: &Request<'a>) -> Option<&'a str> {
    match request {
        Request::Picture(asked) => Some(asked.input),
        Request::Replay(asked) => Some(asked.input),
        Request::Compare(asked) => Some(asked.input),
        _ => None,
    }
}

/// The order that is read.
fn order_of<'a>(request: &Request<'a>) -> Option<&'a str> {
    match request {
        Request::Replay(asked) => Some(asked.order),
        Request::Draw(asked) => asked.order,
        _ => None,
    }
}

/// A file that is read once more: its name and its bytes; none where that can't be.
pub fn file_again<'a, F: Files>(
    alloc: Global,
    files: &mut F,
    name: &'a str,
) -> Option<(&'a str, Vec<u8>)>
    ensures { SameFiles (F.contents files.old) (F.contents files.new) }
{
    let bytes = files.again(alloc, name)?;
    Some((name, bytes))
}

/// An algorithm as its file is read once more; none where that can't be.
pub fn algorithm_again<F: Files>(alloc: Global, files: &mut F, name: &str) -> Option<Algo>
    ensures { SameFiles (F.contents files.old) (F.contents files.new) }
{
    let Some(bytes) = files.again(alloc, name) else {
        return None;
    };
    algorithm_in(alloc, bytes.as_slice()).ok()
}

/// Whether a file, read once more, is no text.
fn is_no_text<F: Files>(alloc: Global, files: &mut F, name: &str) -> bool
    ensures { SameFiles (F.contents files.old) (F.contents files.new) }
{
    match files.again(alloc, name) {
        Some(bytes) => str::from_utf8(bytes.as_slice()).is_err(),
        None => false,
    }
}

/// The first of these files that is no text, of those that can be read again.
#[tactic(auto, using(crate::proofs::Kept::same_then))]
fn first_no_text<'a, F: Files>(alloc: Global, files: &mut F, names: &[&'a str]) -> Option<&'a str>
    ensures { SameFiles (F.contents files.old) (F.contents files.new) }
{
    for name in names {
        if is_no_text(alloc, files, name) {
            return Some(*name);
        }
    }
    None
}

/// A text of that name, where there is one, that is none, if it can be read again.
fn no_text_named<'a, F: Files>(
    alloc: Global,
    files: &mut F,
    name: Option<&'a str>,
) -> Option<&'a str>
    ensures { SameFiles (F.contents files.old) (F.contents files.new) }
{
    let Some(name) = name else {
        return None;
    };
    if is_no_text(alloc, files, name) {
        Some(name)
    } else {
        None
    }
}

/// The first text behind the schedules that was read and is none, of those that can be read again.
#[tactic(auto, using(crate::proofs::Kept::same_then))]
fn no_plan_text<'a, F: Files>(
    alloc: Global,
    files: &mut F,
    request: &Request<'a>,
) -> Option<&'a str>
    ensures { SameFiles (F.contents files.old) (F.contents files.new) }
{
    let plan = no_text_named(alloc, files, plan_of(request));
    if plan.is_some() {
        return plan;
    }
    no_text_named(alloc, files, order_of(request))
}

/// The first text behind the algorithm that was read and is none, of those that can be read again.
#[tactic(auto, using(crate::proofs::Kept::same_then))]
fn no_later_text<'a, F: Files>(
    alloc: Global,
    files: &mut F,
    request: &Request<'a>,
) -> Option<&'a str>
    ensures { SameFiles (F.contents files.old) (F.contents files.new) }
{
    let schedule = first_no_text(alloc, files, schedules_of(request));
    if schedule.is_some() {
        return schedule;
    }
    no_plan_text(alloc, files, request)
}

/// The first text that was read and is none, of those that can be read again.
#[tactic(auto, using(crate::proofs::Kept::same_then))]
fn no_text_of<'a, F: Files>(alloc: Global, files: &mut F, request: &Request<'a>) -> Option<&'a str>
    ensures { SameFiles (F.contents files.old) (F.contents files.new) }
{
    let algorithm = no_text_named(alloc, files, algorithm_of(request));
    if algorithm.is_some() {
        return algorithm;
    }
    no_later_text(alloc, files, request)
}

/// Tells of the file that could not be read or written. The answer is whether there was one.
fn tell_failure<F: Files, E: Write>(files: &F, err: &mut E) -> bool {
    match files.failure() {
        Some(failure) => {
            let _ = writeln!(err, "{failure}.");
            true
        }
        None => false,
    }
}

/// Tells which file could not be read or written, or is no text.
fn tell_device<F: Files, E: Write>(alloc: Global, files: &mut F, request: &Request<'_>, err: &mut E)
    ensures { SameFiles (F.contents files.old) (F.contents files.new) }
{
    if tell_failure(files, err) {
        return;
    }
    if let Some(name) = no_text_of(alloc, files, request) {
        let _ = writeln!(err, "{name} is not UTF-8.");
    }
}

/// Names a file that was read.
fn tell_name<E: Write>(name: Option<&str>, err: &mut E) {
    match name {
        Some(STREAM) => {
            let _ = writeln!(err, "standard input:");
        }
        Some(name) => {
            let _ = writeln!(err, "{name}:");
        }
        None => {}
    }
}

/// Tells which file a refusal is of that has no place in it.
pub fn tell_file<F: Files, E: Write>(
    alloc: Global,
    files: &mut F,
    request: &Request<'_>,
    fault: &Fault,
    err: &mut E,
)
    ensures { SameFiles (F.contents files.old) (F.contents files.new) }
{
    match fault {
        Fault::Image(PnmError::Device) => tell_device(alloc, files, request, err),
        Fault::Image(_) => tell_name(input_of(request), err),
        Fault::Order => tell_name(order_of(request), err),
        _ => {}
    }
}

/// Names the schedule that is refused where there are several.
pub fn tell_schedule<E: Write>(request: &Request<'_>, name: &str, err: &mut E) {
    if schedules_of(request).len() > 1 {
        let _ = writeln!(err, "{name} is refused:");
    }
}
