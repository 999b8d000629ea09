//! What is told of a refusal behind its line, where it is asked for.

ghost use Rattle.std.specs.Prelude.{◌≡◌, OnOk};
ghost use Rattle.commands.specs.Files.{SameFiles};

use crate::origins::{breach_again, plan_again, reason_again, refused_among, schedule_refused};
use algo::Code;
use blocks::{Breach, unknown_word};
use commands::asked_files::{
    algorithm_of, file_again, plan_of, schedules_of, tell_file, tell_schedule,
};
use commands::marking::{Place, bytes_of, place_of, show, show_places};
use commands::pipeline::Fault;
use commands::{Files, Request, tell_code};
use lower::Reason;
use std::alloc::Global;
use std::io::Write;
use std::thread::Threads;

/// What a plan is called that was compiled and is in no file.
const COMPILED: &str = "the compiled plan";

/// How much is told of a refusal.
#[derive(Clone, Copy, PartialEq, Eq, Drop)]
pub(crate) enum Detail {
    /// Its line.
    Line,
    /// Where it stands in its file, what its code means and what usually mends it, too.
    Explained,
}

/// Which file a refusal is of and what its bytes are, where that is known and it can be read again: not of a stream or a pipe.
fn file_of<'a, F: Files>(
    alloc: Global,
    files: &mut F,
    request: &Request<'a>,
    fault: &Fault,
) -> Option<(&'a str, Vec<u8>)>
    ensures { SameFiles (F.contents files.old) (F.contents files.new) }
{
    match fault {
        Fault::Schedule { .. } => refused_among(alloc, files, schedules_of(request)),
        Fault::Algo { .. } => file_again(alloc, files, algorithm_of(request)?),
        _ => file_again(alloc, files, plan_of(request)?),
    }
}

/// What more is told of what stands there than what its code means.
fn advice_of(fault: &Fault, text: &[u8]) -> Option<&'static str> {
    match fault {
        Fault::Schedule {
            code: Code::BadForm,
            span,
        } => unknown_word(text, span),
        _ => None,
    }
}

/// Shows where in its file something is refused, where that can be read again. The answer is what is told of what stands there, if
/// it is more than what its code means.
fn show_place<F: Files, E: Write>(
    alloc: Global,
    files: &mut F,
    request: &Request<'_>,
    fault: &Fault,
    err: &mut E,
) -> Option<&'static str>
    ensures { SameFiles (F.contents files.old) (F.contents files.new) }
{
    let Some(place) = place_of(fault) else {
        return None;
    };
    let Some((name, text)) = file_of(alloc, files, request, fault) else {
        return None;
    };
    show(name, text.as_slice(), place, err);
    advice_of(fault, text.as_slice())
}

/// Which schedule is refused, where that is found.
fn schedule_of<'a, T: Threads + Sync, F: Files>(
    rt: &T,
    alloc: Global,
    files: &mut F,
    request: &Request<'a>,
) -> Option<&'a str>
    ensures { SameFiles (F.contents files.old) (F.contents files.new) }
{
    let Some(algorithm) = algorithm_of(request) else {
        return None;
    };
    schedule_refused(rt, alloc, files, algorithm, schedules_of(request))
}

/// Shows a line of the plan that is made of a schedule; no file holds that plan.
fn show_planned<F: Files, E: Write>(
    alloc: Global,
    files: &mut F,
    request: &Request<'_>,
    schedule: &str,
    line: usize,
    err: &mut E,
)
    ensures { SameFiles (F.contents files.old) (F.contents files.new) }
{
    let Some(algorithm) = algorithm_of(request) else {
        return;
    };
    if let Some(text) = plan_again(alloc, files, algorithm, schedule) {
        show(COMPILED, text.as_bytes(), Place::Line(line), err);
    }
}

/// Shows the line of a compiled plan that the checker refuses.
#[tactic(auto, using(commands::proofs::Kept::same_then))]
fn show_compiled<T: Threads + Sync, F: Files, E: Write>(
    rt: &T,
    alloc: Global,
    files: &mut F,
    request: &Request<'_>,
    fault: &Fault,
    err: &mut E,
)
    ensures { SameFiles (F.contents files.old) (F.contents files.new) }
{
    let Fault::Plan { line, .. } = fault else {
        return;
    };
    if let Some(name) = schedule_of(rt, alloc, files, request) {
        tell_schedule(request, name, err);
        show_planned(alloc, files, request, name, *line, err);
    }
}

/// Shows what made a schedule break a rule, and tells it.
fn put_reason<E: Write>(name: &str, text: &[u8], reason: &Reason, err: &mut E) {
    show_places(name, text, reason.places.as_slice(), err);
    let _ = write!(err, "{reason}");
}

/// Tells what made this schedule break a rule, where that is found again. The answer is whether it was told.
fn tell_reason<F: Files, E: Write>(
    alloc: Global,
    files: &mut F,
    request: &Request<'_>,
    schedule: &str,
    err: &mut E,
) -> bool
    ensures { SameFiles (F.contents files.old) (F.contents files.new) }
{
    let Some(name) = algorithm_of(request) else {
        return false;
    };
    match reason_again(alloc, files, name, schedule) {
        Some((text, reason)) => {
            put_reason(name, text.as_slice(), &reason, err);
            true
        }
        None => false,
    }
}

/// Shows the word of a schedule that breaks a rule, and tells what is wrong with it.
fn put_breach<E: Write>(name: &str, text: &[u8], breach: &Breach, err: &mut E) {
    if let Some(place) = &breach.place {
        show(name, text, bytes_of(place), err);
    }
    let _ = write!(err, "{}", breach.said);
}

/// Tells which directive of this schedule breaks a rule, where that is found again. The answer is whether it was told.
fn tell_breach<F: Files, E: Write>(
    alloc: Global,
    files: &mut F,
    request: &Request<'_>,
    fault: &Fault,
    schedule: &str,
    err: &mut E,
) -> bool
    ensures { SameFiles (F.contents files.old) (F.contents files.new) }
{
    let Fault::Rule { rule, function } = fault else {
        return false;
    };
    let Some(name) = algorithm_of(request) else {
        return false;
    };
    match breach_again(alloc, files, name, schedule, *rule, function) {
        Some((text, breach)) => {
            put_breach(schedule, text.as_slice(), &breach, err);
            true
        }
        None => false,
    }
}

/// Tells which directive of this schedule breaks a rule, or else what made it do so, where one of these is found again. The
/// answer is whether it was told.
#[tactic(auto, using(commands::proofs::Kept::same_then))]
fn tell_cause<F: Files, E: Write>(
    alloc: Global,
    files: &mut F,
    request: &Request<'_>,
    fault: &Fault,
    schedule: &str,
    err: &mut E,
) -> bool
    ensures { SameFiles (F.contents files.old) (F.contents files.new) }
{
    if tell_breach(alloc, files, request, fault, schedule, err) {
        return true;
    }
    tell_reason(alloc, files, request, schedule, err)
}

/// Tells which schedule breaks a rule and what made it do so, where that is found. The answer is whether it was told what did.
#[tactic(auto, using(commands::proofs::Kept::same_then))]
fn tell_broken<T: Threads + Sync, F: Files, E: Write>(
    rt: &T,
    alloc: Global,
    files: &mut F,
    request: &Request<'_>,
    fault: &Fault,
    err: &mut E,
) -> bool
    ensures { SameFiles (F.contents files.old) (F.contents files.new) }
{
    match schedule_of(rt, alloc, files, request) {
        Some(name) => {
            tell_schedule(request, name, err);
            tell_cause(alloc, files, request, fault, name, err)
        }
        None => false,
    }
}

/// Tells of a refusal where in a file it stands, in a plan that was compiled too, and what its code means, or what more is known.
#[tactic(auto, using(commands::proofs::Kept::same_then))]
fn tell_where<T: Threads + Sync, F: Files, E: Write>(
    rt: &T,
    alloc: Global,
    files: &mut F,
    request: &Request<'_>,
    fault: &Fault,
    err: &mut E,
)
    ensures { SameFiles (F.contents files.old) (F.contents files.new) }
{
    if let Some(advice) = show_place(alloc, files, request, fault, err) {
        let _ = write!(err, "{advice}");
        return;
    }
    show_compiled(rt, alloc, files, request, fault, err);
    tell_code(alloc, fault, err);
}

/// Tells of a refusal where it stands, or what made a schedule break a rule; where no more is known, what its code means.
fn tell_fault<T: Threads + Sync, F: Files, E: Write>(
    rt: &T,
    alloc: Global,
    files: &mut F,
    request: &Request<'_>,
    fault: &Fault,
    err: &mut E,
)
    ensures { SameFiles (F.contents files.old) (F.contents files.new) }
{
    match fault {
        Fault::Rule { .. } => {
            if !tell_broken(rt, alloc, files, request, fault, err) {
                tell_code(alloc, fault, err);
            }
        }
        Fault::Image(_) | Fault::Order => {
            tell_file(alloc, files, request, fault, err);
            tell_code(alloc, fault, err);
        }
        _ => tell_where(rt, alloc, files, request, fault, err),
    }
}

/// Tells of a refusal where in its file it stands, or which file it is of, what its code means, and what usually mends it, where
/// that is asked for. Of a schedule that breaks a rule it tells what made it do so, where that is found.
pub(crate) fn explain<T: Threads + Sync, F: Files, E: Write>(
    rt: &T,
    alloc: Global,
    files: &mut F,
    request: &Request<'_>,
    outcome: &Result<(), Fault>,
    detail: Detail,
    err: &mut E,
)
    ensures same { SameFiles (F.contents files.old) (F.contents files.new) }
    ensures done { OnOk outcome.now (files.new ≡ files.old) }
{
    if let (Err(fault), Detail::Explained) = (outcome, detail) {
        tell_fault(rt, alloc, files, request, fault, err);
    }
}
