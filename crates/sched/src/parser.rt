//! From tokens to schedules, by one function a rule of the grammar.

ghost use Rattle.std.specs.Prelude.{◌≡◌, [], length, map};
ghost use Rattle.tree.specs.Token.Cursor.{kinds};
ghost use Rattle.sched.specs.View as view;
ghost use Rattle.sched.specs.Reading as spec;
ghost use Rattle.sched.specs.Reading.{Gives, Takes, Leaves};
ghost use Rattle.tree.specs.declared.token.token.Symbol.TheVariants.{Comma, Dot};

use crate::error::{Refusal, Stop};
use crate::keyword::{Keyword, tail_named};
use crate::schedule::{Directive, Fold, Home, Sched, Scheduled, Split, Tail, Tile};
use std::alloc::Global;
use tree::token::{Lexeme, Name, Symbol, Token, after};

// The symbol, which must come first.
#[tactic(auto, unfolding(crate::specs::Reading::expect))]
fn expect(symbol: Symbol, tokens: &mut &[Lexeme]) -> Result<(), Stop>
    ensures { Leaves result tokens.new.now (spec.expect symbol (kinds tokens.old.now)) }
{
    match after(symbol, tokens) {
        Some(rest) => {
            *tokens = rest;
            Ok(())
        }
        None => Err(Stop::Refused(Refusal::BadForm(tokens.len()))),
    }
}

fn name(tokens: &mut &[Lexeme]) -> Result<Name, Stop>
    ensures { Takes (λ x. x) result tokens.new.now (spec.name (kinds tokens.old.now)) }
{
    match *tokens {
        [
            Lexeme {
                token: Token::Name(name),
                ..
            },
            rest @ ..,
        ] => {
            *tokens = rest;
            Ok(*name)
        }
        [
            Lexeme {
                token: Token::LongName,
                ..
            },
            ..
        ] => Err(Stop::Refused(Refusal::LongName(tokens.len()))),
        _ => Err(Stop::Refused(Refusal::BadForm(tokens.len()))),
    }
}

// A number without a type.
fn number(tokens: &mut &[Lexeme]) -> Result<u32, Stop>
    ensures { Takes (λ n. n) result tokens.new.now (spec.number (kinds tokens.old.now)) }
{
    match *tokens {
        [
            Lexeme {
                token: Token::Number(literal),
                ..
            },
            rest @ ..,
        ] => match literal.ty {
            None => {
                *tokens = rest;
                Ok(literal.value)
            }
            Some(_) => Err(Stop::Refused(Refusal::BadForm(tokens.len()))),
        },
        _ => Err(Stop::Refused(Refusal::BadForm(tokens.len()))),
    }
}

// The word of a directive that the compiler has.
#[tactic(auto, unfolding(crate::specs::Reading::keyword))]
fn keyword(tokens: &mut &[Lexeme]) -> Result<Keyword, Stop>
    ensures { Takes (λ k. k) result tokens.new.now (spec.keyword (kinds tokens.old.now)) }
{
    let left = tokens.len();
    let word = name(tokens)?;
    match Keyword::named(word.as_bytes()) {
        Some(keyword) => Ok(keyword),
        None => Err(Stop::Refused(Refusal::BadForm(left))),
    }
}

#[tactic(auto, unfolding(crate::specs::Reading::tail))]
fn tail(tokens: &mut &[Lexeme]) -> Result<Tail, Stop>
    ensures { Takes (λ t. t) result tokens.new.now (spec.tail (kinds tokens.old.now)) }
{
    let left = tokens.len();
    let word = name(tokens)?;
    match tail_named(word.as_bytes()) {
        Some(tail) => Ok(tail),
        None => Err(Stop::Refused(Refusal::BadForm(left))),
    }
}

// A name, and a comma behind it.
#[tactic(auto, unfolding(crate::specs::Reading::name_comma))]
fn name_comma(tokens: &mut &[Lexeme]) -> Result<Name, Stop>
    ensures { Takes (λ x. x) result tokens.new.now (spec.name_comma (kinds tokens.old.now)) }
{
    let name = name(tokens)?;
    expect(Symbol::Comma, tokens)?;
    Ok(name)
}

// A number, and a comma behind it.
#[tactic(auto, unfolding(crate::specs::Reading::number_comma))]
fn number_comma(tokens: &mut &[Lexeme]) -> Result<u32, Stop>
    ensures { Takes (λ n. n) result tokens.new.now (spec.number_comma (kinds tokens.old.now)) }
{
    let number = number(tokens)?;
    expect(Symbol::Comma, tokens)?;
    Ok(number)
}

#[tactic(auto, unfolding(crate::specs::Reading::home))]
fn home(tokens: &mut &[Lexeme]) -> Result<Home, Stop>
    ensures { Takes (λ h. h) result tokens.new.now (spec.home (kinds tokens.old.now)) }
{
    let function = name_comma(tokens)?;
    let turn = name(tokens)?;
    Ok(Home { function, turn })
}

#[tactic(auto, unfolding(crate::specs::Reading::fold))]
fn fold(tokens: &mut &[Lexeme]) -> Result<Fold, Stop>
    ensures { Takes (λ f. f) result tokens.new.now (spec.fold (kinds tokens.old.now)) }
{
    let dimension = name_comma(tokens)?;
    let factor = number(tokens)?;
    Ok(Fold { dimension, factor })
}

#[tactic(auto, unfolding(crate::specs::Reading::split))]
fn split(tokens: &mut &[Lexeme]) -> Result<Split, Stop>
    ensures { Takes (λ s. s) result tokens.new.now (spec.split (kinds tokens.old.now)) }
{
    let whole = name_comma(tokens)?;
    let outer = name_comma(tokens)?;
    let inner = name_comma(tokens)?;
    let factor = number_comma(tokens)?;
    let tail = tail(tokens)?;
    Ok(Split {
        whole,
        outer,
        inner,
        factor,
        tail,
    })
}

#[tactic(auto, unfolding(crate::specs::Reading::tile))]
fn tile(tokens: &mut &[Lexeme]) -> Result<Tile, Stop>
    ensures { Takes (λ t. t) result tokens.new.now (spec.tile (kinds tokens.old.now)) }
{
    let x = name_comma(tokens)?;
    let y = name_comma(tokens)?;
    let x_outer = name_comma(tokens)?;
    let y_outer = name_comma(tokens)?;
    let x_inner = name_comma(tokens)?;
    let y_inner = name_comma(tokens)?;
    let x_factor = number_comma(tokens)?;
    let y_factor = number_comma(tokens)?;
    let tail = tail(tokens)?;
    Ok(Tile {
        x,
        y,
        x_outer,
        y_outer,
        x_inner,
        y_inner,
        x_factor,
        y_factor,
        tail,
    })
}

// Further names, each behind a comma.
fn more_names(mut found: Vec<Name>, tokens: &mut &[Lexeme]) -> Result<Vec<Name>, Stop>
    ensures { Takes (λ v. v.items) result tokens.new.now (spec.more_of Comma spec.name (length tokens.old.now) found.items (kinds tokens.old.now)) }
{
    for _ in 0..tokens.len() {
        let Some(next) = after(Symbol::Comma, tokens) else {
            return Ok(found);
        };
        *tokens = next;
        let item = name(tokens)?;
        found.push(item)?;
    }
    Ok(found)
}

// One or more names with commas between them.
#[tactic(auto, unfolding(crate::specs::Reading::names))]
fn names(alloc: Global, tokens: &mut &[Lexeme]) -> Result<Vec<Name>, Stop>
    ensures { Takes (λ v. v.items) result tokens.new.now (spec.names (kinds tokens.old.now)) }
{
    let first = name(tokens)?;
    let mut found = Vec::new(alloc);
    found.push(first)?;
    more_names(found, tokens)
}

// What stands in the brackets of the directive.
#[tactic(auto, unfolding(crate::specs::Reading::arguments))]
fn arguments(alloc: Global, keyword: Keyword, tokens: &mut &[Lexeme]) -> Result<Directive, Stop>
    ensures { Takes view.directive_of result tokens.new.now (spec.arguments keyword (kinds tokens.old.now)) }
{
    match keyword {
        Keyword::ComputeRoot => Ok(Directive::ComputeRoot),
        Keyword::ComputeAt => {
            let home = home(tokens)?;
            Ok(Directive::ComputeAt(home))
        }
        Keyword::StoreAt => {
            let home = home(tokens)?;
            Ok(Directive::StoreAt(home))
        }
        Keyword::Fold => {
            let fold = fold(tokens)?;
            Ok(Directive::Fold(fold))
        }
        Keyword::Split => {
            let split = split(tokens)?;
            Ok(Directive::Split(split))
        }
        Keyword::Tile => {
            let tile = tile(tokens)?;
            Ok(Directive::Tile(tile))
        }
        Keyword::Reorder => {
            let loops = names(alloc, tokens)?;
            Ok(Directive::Reorder(loops))
        }
        Keyword::Unroll => {
            let name = name(tokens)?;
            Ok(Directive::Unroll(name))
        }
        Keyword::Vectorize => {
            let name = name(tokens)?;
            Ok(Directive::Vectorize(name))
        }
        Keyword::Parallel => {
            let name = name(tokens)?;
            Ok(Directive::Parallel(name))
        }
    }
}

// A directive, behind its dot.
#[tactic(auto, unfolding(crate::specs::Reading::directive))]
fn directive(alloc: Global, tokens: &mut &[Lexeme]) -> Result<Directive, Stop>
    ensures { Takes view.directive_of result tokens.new.now (spec.directive (kinds tokens.old.now)) }
{
    let keyword = keyword(tokens)?;
    expect(Symbol::LeftParen, tokens)?;
    let directive = arguments(alloc, keyword, tokens)?;
    expect(Symbol::RightParen, tokens)?;
    Ok(directive)
}

// Directives, each behind a dot.
fn directives(alloc: Global, tokens: &mut &[Lexeme]) -> Result<Vec<Directive>, Stop>
    ensures { Takes (λ v. map view.directive_of v.items) result tokens.new.now (spec.more_of Dot spec.directive (length tokens.old.now) [] (kinds tokens.old.now)) }
{
    let mut found = Vec::new(alloc);
    for _ in 0..tokens.len() {
        let Some(next) = after(Symbol::Dot, tokens) else {
            return Ok(found);
        };
        *tokens = next;
        let item = directive(alloc, tokens)?;
        found.push(item)?;
    }
    Ok(found)
}

// A function's name, what is said of it, and the semicolon.
#[tactic(auto, unfolding(crate::specs::Reading::scheduled))]
fn scheduled(alloc: Global, tokens: &mut &[Lexeme]) -> Result<Scheduled, Stop>
    ensures { Takes view.scheduled_of result tokens.new.now (spec.scheduled (kinds tokens.old.now)) }
{
    let function = name(tokens)?;
    let directives = directives(alloc, tokens)?;
    expect(Symbol::Semicolon, tokens)?;
    Ok(Scheduled {
        function,
        directives,
    })
}

fn is_done(tokens: &[Lexeme]) -> bool
    ensures { result ≡ spec.is_done (kinds tokens.now) }
{
    match tokens {
        [] => true,
        [_, ..] => false,
    }
}

// The functions, if no token is left.
fn ended(functions: Vec<Scheduled>, tokens: &[Lexeme]) -> Result<Sched, Stop>
    ensures { Gives view.schedule_of result (spec.ended (map view.scheduled_of functions.items) (kinds tokens.now)) }
{
    match tokens {
        [] => Ok(Sched { functions }),
        [_, ..] => Err(Stop::Refused(Refusal::BadForm(tokens.len()))),
    }
}

/// Reads a whole schedule from its tokens.
///
/// # Errors
/// `Refused(BadForm)` at the token, or the end, where the tokens do not go on as the grammar says, or at the word of a
/// directive that the compiler has not, and `Refused(LongName)` at a name of more than 16 bytes, whichever is met first;
/// `Memory`.
#[tactic(auto, unfolding(crate::specs::Reading::file))]
pub fn file(alloc: Global, tokens: &[Lexeme]) -> Result<Sched, Stop>
    ensures { Gives view.schedule_of result (spec.file (kinds tokens.now)) }
{
    let mut found = Vec::new(alloc);
    let mut rest = tokens;
    for _ in 0..tokens.len() {
        if is_done(rest) {
            return ended(found, rest);
        }
        let item = scheduled(alloc, &mut rest)?;
        found.push(item)?;
    }
    ended(found, rest)
}
