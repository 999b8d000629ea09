//! Where a refusal comes from: which file it is of, and what made a schedule break a rule, found again of the files.

ghost use Rattle.commands.specs.Files.{SameFiles};

use crate::compiling::{compile_checked, plan_text, read_schedule};
use algo::Algo;
use blocks::{Breach, find_breach, find_region_breach};
use commands::asked_files::algorithm_again;
use commands::pipeline::{BrokenRule, Fault};
use commands::{Files, algorithm_in};
use lower::{LowerError, Reason, lower, reason};
use sched::Sched;
use std::alloc::Global;
use std::str;
use std::thread::Threads;
use tree::token::Name;

/// What made the schedule break the rule that it is refused for, where that is found and memory is there to tell it.
fn reason_of(alloc: Global, algo: &Algo, sched: &Sched, error: &LowerError) -> Option<Reason> {
    match reason(alloc, algo, sched, error) {
        Ok(found) => found,
        Err(_) => None,
    }
}

/// What made a schedule break a rule, where it breaks one.
fn broken_by(alloc: Global, algo: &Algo, sched: &Sched) -> Option<Reason> {
    let Err(error) = lower(alloc, algo, sched) else {
        return None;
    };
    reason_of(alloc, algo, sched, &error)
}

/// Whether a plan comes of a schedule that the checker accepts; none where memory runs out.
fn is_taken<T: Threads + Sync>(rt: &T, alloc: Global, algo: &Algo, sched: &Sched) -> Option<bool> {
    let outcome = compile_checked(rt, alloc, algo, sched);
    match &outcome {
        Ok(_) => Some(true),
        Err(Fault::Memory) => None,
        Err(_) => Some(false),
    }
}

/// The schedule of a file's bytes; none where they are no text, or one that is refused.
fn schedule_of(alloc: Global, bytes: &[u8]) -> Option<Sched> {
    match str::from_utf8(bytes) {
        Ok(text) => read_schedule(alloc, text).ok(),
        Err(_) => None,
    }
}

/// A schedule as its file is read once more; none where that can't be.
fn schedule_again<F: Files>(alloc: Global, files: &mut F, name: &str) -> Option<Sched>
    ensures { SameFiles (F.contents files.old) (F.contents files.new) }
{
    let Some(bytes) = files.again(alloc, name) else {
        return None;
    };
    schedule_of(alloc, bytes.as_slice())
}

/// Whether a text is a schedule's; none where memory runs out.
fn is_schedule(alloc: Global, text: &str) -> Option<bool> {
    match read_schedule(alloc, text) {
        Ok(_) => Some(true),
        Err(Fault::Schedule { .. }) => Some(false),
        Err(_) => None,
    }
}

/// The same of a file's bytes; none, too, where they are no text.
fn are_schedule(alloc: Global, bytes: &[u8]) -> Option<bool> {
    match str::from_utf8(bytes) {
        Ok(text) => is_schedule(alloc, text),
        Err(_) => None,
    }
}

/// The first of these schedules whose text is refused, with its bytes, where one is; none where one before it can't be read
/// again. Of names that are alike and stand together the first alone is read.
#[tactic(auto, using(commands::proofs::Kept::same_then))]
pub(crate) fn refused_among<'a, F: Files>(
    alloc: Global,
    files: &mut F,
    names: &[&'a str],
) -> Option<(&'a str, Vec<u8>)>
    ensures { SameFiles (F.contents files.old) (F.contents files.new) }
{
    let mut taken = None;
    for name in names {
        if taken == Some(*name) {
            continue;
        }
        let Some(bytes) = files.again(alloc, name) else {
            return None;
        };
        match are_schedule(alloc, bytes.as_slice()) {
            Some(true) => taken = Some(*name),
            Some(false) => return Some((*name, bytes)),
            None => return None,
        }
    }
    None
}

/// Whether a plan comes of a schedule, as its file is read once more, that the checker accepts; none where that can't be told.
fn is_taken_again<T: Threads + Sync, F: Files>(
    rt: &T,
    alloc: Global,
    files: &mut F,
    algo: &Algo,
    name: &str,
) -> Option<bool>
    ensures { SameFiles (F.contents files.old) (F.contents files.new) }
{
    let Some(sched) = schedule_again(alloc, files, name) else {
        return None;
    };
    is_taken(rt, alloc, algo, &sched)
}

/// The first of these schedules that no accepted plan comes of, and `last` where there is none; none where one can't be read
/// again. Of names that are alike and stand together the first alone is read.
#[tactic(auto, using(commands::proofs::Kept::same_then))]
fn first_untaken<'a, T: Threads + Sync, F: Files>(
    rt: &T,
    alloc: Global,
    files: &mut F,
    algo: &Algo,
    names: &[&'a str],
    last: &'a str,
) -> Option<&'a str>
    ensures { SameFiles (F.contents files.old) (F.contents files.new) }
{
    let mut taken = None;
    for name in names {
        if taken == Some(*name) {
            continue;
        }
        match is_taken_again(rt, alloc, files, algo, name) {
            Some(true) => taken = Some(*name),
            Some(false) => return Some(*name),
            None => return None,
        }
    }
    Some(last)
}

/// The same of schedules of an algorithm whose file is read once more.
#[tactic(auto, using(commands::proofs::Kept::same_then))]
fn untaken_again<'a, T: Threads + Sync, F: Files>(
    rt: &T,
    alloc: Global,
    files: &mut F,
    algorithm: &str,
    names: &[&'a str],
    last: &'a str,
) -> Option<&'a str>
    ensures { SameFiles (F.contents files.old) (F.contents files.new) }
{
    let Some(algo) = algorithm_again(alloc, files, algorithm) else {
        return None;
    };
    first_untaken(rt, alloc, files, &algo, names, last)
}

/// Which of these schedules it was that no plan came of, or none that the checker accepts; none where that can't be told. Of one
/// schedule nothing is read.
pub(crate) fn schedule_refused<'a, T: Threads + Sync, F: Files>(
    rt: &T,
    alloc: Global,
    files: &mut F,
    algorithm: &str,
    names: &[&'a str],
) -> Option<&'a str>
    ensures { SameFiles (F.contents files.old) (F.contents files.new) }
{
    let Some((last, before)) = names.split_last() else {
        return None;
    };
    if before.is_empty() {
        return Some(*last);
    }
    untaken_again(rt, alloc, files, algorithm, before, last)
}

/// The text of the plan that is made of a schedule as its file is read once more.
fn plan_of_file<F: Files>(
    alloc: Global,
    files: &mut F,
    algo: &Algo,
    schedule: &str,
) -> Option<String>
    ensures { SameFiles (F.contents files.old) (F.contents files.new) }
{
    let Some(sched) = schedule_again(alloc, files, schedule) else {
        return None;
    };
    plan_text(alloc, algo, &sched).ok()
}

/// The text of the plan that is made of a schedule of an algorithm, where both can be read again.
#[tactic(auto, using(commands::proofs::Kept::same_then))]
pub(crate) fn plan_again<F: Files>(
    alloc: Global,
    files: &mut F,
    algorithm: &str,
    schedule: &str,
) -> Option<String>
    ensures { SameFiles (F.contents files.old) (F.contents files.new) }
{
    let Some(algo) = algorithm_again(alloc, files, algorithm) else {
        return None;
    };
    plan_of_file(alloc, files, &algo, schedule)
}

/// What made a schedule break a rule, as its file is read once more.
fn reason_of_file<F: Files>(
    alloc: Global,
    files: &mut F,
    algo: &Algo,
    schedule: &str,
) -> Option<Reason>
    ensures { SameFiles (F.contents files.old) (F.contents files.new) }
{
    let Some(sched) = schedule_again(alloc, files, schedule) else {
        return None;
    };
    broken_by(alloc, algo, &sched)
}

/// The same of an algorithm's text.
fn reason_in<F: Files>(alloc: Global, files: &mut F, text: &[u8], schedule: &str) -> Option<Reason>
    ensures { SameFiles (F.contents files.old) (F.contents files.new) }
{
    let Ok(algo) = algorithm_in(alloc, text) else {
        return None;
    };
    reason_of_file(alloc, files, &algo, schedule)
}

/// What made a schedule of an algorithm break a rule, with the algorithm's text, where both can be read again.
#[tactic(auto, using(commands::proofs::Kept::same_then))]
pub(crate) fn reason_again<F: Files>(
    alloc: Global,
    files: &mut F,
    algorithm: &str,
    schedule: &str,
) -> Option<(Vec<u8>, Reason)>
    ensures { SameFiles (F.contents files.old) (F.contents files.new) }
{
    let Some(text) = files.again(alloc, algorithm) else {
        return None;
    };
    match reason_in(alloc, files, text.as_slice(), schedule) {
        Some(reason) => Some((text, reason)),
        None => None,
    }
}

/// What in a schedule's text makes a function break a rule, where that is found and memory is there to tell it.
fn breach_of_text(
    alloc: Global,
    algo: &Algo,
    text: &str,
    rule: BrokenRule,
    function: &Name,
) -> Option<Breach> {
    let found = match rule {
        BrokenRule::Directive(rule) => find_breach(alloc, algo, text, rule, function),
        BrokenRule::Region(rule) => find_region_breach(alloc, algo, text, rule, function),
    };
    match found {
        Ok(breach) => breach,
        Err(_) => None,
    }
}

/// The same of its bytes.
fn breach_in(
    alloc: Global,
    algo: &Algo,
    bytes: &[u8],
    rule: BrokenRule,
    function: &Name,
) -> Option<Breach> {
    match str::from_utf8(bytes) {
        Ok(text) => breach_of_text(alloc, algo, text, rule, function),
        Err(_) => None,
    }
}

/// The same of a schedule as its file is read once more, with its bytes.
fn breach_of_file<F: Files>(
    alloc: Global,
    files: &mut F,
    algo: &Algo,
    schedule: &str,
    rule: BrokenRule,
    function: &Name,
) -> Option<(Vec<u8>, Breach)>
    ensures { SameFiles (F.contents files.old) (F.contents files.new) }
{
    let Some(bytes) = files.again(alloc, schedule) else {
        return None;
    };
    match breach_in(alloc, algo, bytes.as_slice(), rule, function) {
        Some(breach) => Some((bytes, breach)),
        None => None,
    }
}

/// What in a schedule makes a function of an algorithm break a rule, with the schedule's bytes, where both can be read again.
#[tactic(auto, using(commands::proofs::Kept::same_then))]
pub(crate) fn breach_again<F: Files>(
    alloc: Global,
    files: &mut F,
    algorithm: &str,
    schedule: &str,
    rule: BrokenRule,
    function: &Name,
) -> Option<(Vec<u8>, Breach)>
    ensures { SameFiles (F.contents files.old) (F.contents files.new) }
{
    let Some(algo) = algorithm_again(alloc, files, algorithm) else {
        return None;
    };
    breach_of_file(alloc, files, &algo, schedule, rule, function)
}
