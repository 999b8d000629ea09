//! Where the words of directives stand in a schedule's text.

use sched::{Directive, Sched, Tail};
use tree::token::{Lexeme, Name, Span, Symbol, Token};

/// A word of a schedule's text. Statements, directives and arguments are counted from 0, directives over the whole text.
#[derive(Clone, Copy, Drop)]
pub(crate) enum Spot {
    /// The name with which this statement begins.
    Statement(usize),
    /// The word of this directive.
    Word(usize),
    /// The argument of this number of this directive.
    Argument(usize, usize),
}

/// Which directives are looked for.
#[derive(Clone, Copy, Drop)]
pub(crate) enum Wanted {
    ComputeAt,
    StoreAt,
    Vectorize(Name),
    Parallel(Name),
}

fn is_symbol(lexeme: &Lexeme, symbol: Symbol) -> bool {
    match lexeme.token {
        Token::Symbol(found) => found == symbol,
        _ => false,
    }
}

// The number of the token behind the sign of this number.
fn behind(lexemes: &[Lexeme], symbol: Symbol, number: usize) -> Option<usize> {
    let mut left = number;
    for (index, lexeme) in lexemes.iter().enumerate() {
        if is_symbol(lexeme, symbol) {
            if left == 0 {
                return Some(index.saturating_add(1));
            }
            left = left.saturating_sub(1);
        }
    }
    None
}

// The token with which a statement begins.
fn statement(lexemes: &[Lexeme], number: usize) -> Option<usize> {
    match number.checked_sub(1) {
        Some(before) => behind(lexemes, Symbol::Semicolon, before),
        None => Some(0),
    }
}

fn token_of(lexemes: &[Lexeme], spot: Spot) -> Option<usize> {
    match spot {
        Spot::Statement(number) => statement(lexemes, number),
        Spot::Word(directive) => behind(lexemes, Symbol::Dot, directive),
        Spot::Argument(directive, argument) => {
            let word = behind(lexemes, Symbol::Dot, directive)?;
            Some(
                word.saturating_add(2)
                    .saturating_add(argument.saturating_mul(2)),
            )
        }
    }
}

/// The bytes of a word.
pub(crate) fn place_of(lexemes: &[Lexeme], spot: Option<Spot>) -> Option<Span> {
    let number = token_of(lexemes, spot?)?;
    let lexeme = lexemes.get(number)?;
    Some(lexeme.span)
}

// ---- directives

pub(crate) fn is_same(one: &Name, other: &Name) -> bool {
    one.as_str() == other.as_str()
}

fn is_wanted(directive: &Directive, wanted: &Wanted) -> bool {
    match (directive, wanted) {
        (Directive::ComputeAt(_), Wanted::ComputeAt) => true,
        (Directive::StoreAt(_), Wanted::StoreAt) => true,
        (Directive::Vectorize(name), Wanted::Vectorize(other)) => is_same(name, other),
        (Directive::Parallel(name), Wanted::Parallel(other)) => is_same(name, other),
        _ => false,
    }
}

// The number of such a directive among these, with so many before it left out.
fn wanted_among(directives: &[Directive], wanted: &Wanted, before: &mut usize) -> Option<usize> {
    for (index, directive) in directives.iter().enumerate() {
        if is_wanted(directive, wanted) {
            if *before == 0 {
                return Some(index);
            }
            *before = before.saturating_sub(1);
        }
    }
    None
}

/// The number of such a directive of a function, with so many before it left out.
pub(crate) fn number_of(
    sched: &Sched,
    function: &Name,
    wanted: &Wanted,
    before: usize,
) -> Option<usize> {
    let mut before = before;
    let mut first: usize = 0;
    for scheduled in &sched.functions {
        if is_same(&scheduled.function, function) {
            if let Some(index) = wanted_among(&scheduled.directives, wanted, &mut before) {
                return Some(first.saturating_add(index));
            }
        }
        first = first.saturating_add(scheduled.directives.len());
    }
    None
}

/// The word of such a directive.
pub(crate) fn word_of(
    sched: &Sched,
    function: &Name,
    wanted: &Wanted,
    before: usize,
) -> Option<Spot> {
    let number = number_of(sched, function, wanted, before)?;
    Some(Spot::Word(number))
}

/// An argument of the first such directive.
pub(crate) fn argument_of(
    sched: &Sched,
    function: &Name,
    wanted: &Wanted,
    argument: usize,
) -> Option<Spot> {
    let number = number_of(sched, function, wanted, 0)?;
    Some(Spot::Argument(number, argument))
}

// ---- tails

// Which argument of a directive is the tail `shift`, where one is.
fn shift_in(directive: &Directive) -> Option<usize> {
    match directive {
        Directive::Split(split) if split.tail == Tail::Shift => Some(4),
        Directive::Tile(tile) if tile.tail == Tail::Shift => Some(8),
        _ => None,
    }
}

fn shift_among(directives: &[Directive], first: usize) -> Option<Spot> {
    for (index, directive) in directives.iter().enumerate() {
        if let Some(argument) = shift_in(directive) {
            return Some(Spot::Argument(first.saturating_add(index), argument));
        }
    }
    None
}

/// The first tail `shift` of a function.
pub(crate) fn shift_of(sched: &Sched, function: &Name) -> Option<Spot> {
    let mut first: usize = 0;
    for scheduled in &sched.functions {
        if is_same(&scheduled.function, function) {
            if let Some(spot) = shift_among(&scheduled.directives, first) {
                return Some(spot);
            }
        }
        first = first.saturating_add(scheduled.directives.len());
    }
    None
}

fn shifts_among(directives: &[Directive]) -> usize {
    let mut count: usize = 0;
    for directive in directives {
        if shift_in(directive).is_some() {
            count = count.saturating_add(1);
        }
    }
    count
}

/// How many directives of a function have the tail `shift`.
pub(crate) fn shifts_of(sched: &Sched, function: &Name) -> usize {
    let mut count: usize = 0;
    for scheduled in &sched.functions {
        if is_same(&scheduled.function, function) {
            count = count.saturating_add(shifts_among(&scheduled.directives));
        }
    }
    count
}
