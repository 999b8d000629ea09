//! What breaks a rule of schedules in a text.

use crate::breaches::ends::tell_end;
use crate::breaches::regions::tell_region;
use crate::breaches::slips::tell_slip;
use crate::breaches::spots::{Spot, place_of};
use algo::Algo;
use sched::parser::file;
use sched::{Placement, RegionRule, Rule, Sched, SchedError, followed};
use std::alloc::{AllocError, Global};
use tree::token::{Lexeme, Name, Span, TokenError, tokens};

/// What breaks a rule in a schedule's text.
#[derive(Drop)]
pub struct Breach {
    /// What is wrong, and what mends it, in whole lines.
    pub said: String,
    /// The word of the text that is told of.
    pub place: Option<Span>,
}

/// A rule that a schedule breaks.
#[derive(Clone, Copy, Drop)]
enum Broken {
    Directive(Rule),
    Region(RegionRule),
}

// Tells what makes this function break the rule behind the last directive.
fn told_behind(
    alloc: Global,
    algo: &Algo,
    sched: &Sched,
    placement: &Placement,
    broken: Broken,
    function: &Name,
    said: &mut String,
) -> Result<Option<Spot>, AllocError> {
    match broken {
        Broken::Directive(rule) => tell_end(alloc, sched, placement, rule, function, said),
        Broken::Region(rule) => { tell_region(alloc, algo, sched, placement, rule, function, said) }
    }
}

// Tells which directive breaks the rule, as they are taken in their order.
fn told_before(
    alloc: Global,
    algo: &Algo,
    sched: &Sched,
    broken: Broken,
    function: &Name,
    said: &mut String,
) -> Result<Option<Spot>, AllocError> {
    match broken {
        Broken::Directive(_) => tell_slip(alloc, algo, sched, function, said),
        Broken::Region(_) => Ok(None),
    }
}

// Tells what makes this function break the rule. Nothing is said of a rule that is told elsewhere.
fn told(
    alloc: Global,
    algo: &Algo,
    sched: &Sched,
    broken: Broken,
    function: &Name,
    said: &mut String,
) -> Result<Option<Spot>, AllocError> {
    match followed(alloc, algo, sched) {
        Ok(placement) => told_behind(alloc, algo, sched, &placement, broken, function, said),
        Err(SchedError::Memory) => Err(AllocError),
        Err(_) => told_before(alloc, algo, sched, broken, function, said),
    }
}

// What is said, and where it stands; none where nothing is.
fn breach_of(said: String, lexemes: &[Lexeme], spot: Option<Spot>) -> Option<Breach> {
    if said.is_empty() {
        return None;
    }
    let place = place_of(lexemes, spot);
    Some(Breach { said, place })
}

fn breach_in(
    alloc: Global,
    algo: &Algo,
    sched: &Sched,
    lexemes: &[Lexeme],
    broken: Broken,
    function: &Name,
) -> Result<Option<Breach>, AllocError> {
    let mut said = String::new(alloc);
    let spot = told(alloc, algo, sched, broken, function, &mut said)?;
    Ok(breach_of(said, lexemes, spot))
}

fn breach_among(
    alloc: Global,
    algo: &Algo,
    lexemes: &[Lexeme],
    broken: Broken,
    function: &Name,
) -> Result<Option<Breach>, AllocError> {
    match file(alloc, lexemes) {
        Ok(sched) => breach_in(alloc, algo, &sched, lexemes, broken, function),
        Err(_) => Ok(None),
    }
}

fn breach_of_text(
    alloc: Global,
    algo: &Algo,
    text: &str,
    broken: Broken,
    function: &Name,
) -> Result<Option<Breach>, AllocError> {
    match tokens(alloc, text) {
        Ok(lexemes) => breach_among(alloc, algo, &lexemes, broken, function),
        Err(TokenError::Memory) => Err(AllocError),
        Err(_) => Ok(None),
    }
}

/// What in a schedule's text makes this function break this rule of directives, L1 to L8, where it is found; none of another
/// rule.
///
/// # Errors
/// `AllocError` where memory runs out.
pub fn find_breach(
    alloc: Global,
    algo: &Algo,
    text: &str,
    rule: Rule,
    function: &Name,
) -> Result<Option<Breach>, AllocError> {
    breach_of_text(alloc, algo, text, Broken::Directive(rule), function)
}

/// The same of this rule of regions, L6 or L8. It is taken from the caller that the function breaks it.
///
/// # Errors
/// `AllocError` where memory runs out.
pub fn find_region_breach(
    alloc: Global,
    algo: &Algo,
    text: &str,
    rule: RegionRule,
    function: &Name,
) -> Result<Option<Breach>, AllocError> {
    breach_of_text(alloc, algo, text, Broken::Region(rule), function)
}
