//! From tokens to an expression, by one function a rule of the grammar.

ghost use Rattle.std.specs.Prelude.{List, IfSome, take, ◌≡◌, ◌≤◌, ◌<◌, ℕ, suc, ◌+◌, ◌*◌, ◌++◌, ◌∷◌, [], length, Ok, Err, Some, None, MatchOption, IfOk};
ghost use Rattle.std.specs.List.{prefix_len};
ghost use Rattle.tree.specs.Term.{term_of, test_of, list_terms};
ghost use Rattle.tree.specs.Token.Cursor.{kinds};
ghost use Rattle.expr.specs.Parsing as spec;
ghost use Rattle.expr.specs.Parsing.{Gives};
ghost use Rattle.expr.specs.Brackets.{is_opening, all_closed};
ghost use Rattle.tree.specs.declared.token.token.Lexeme.{Lexeme as AnyLexeme};
ghost use Rattle.tree.specs.declared.token.token.Token.TheVariants as token;
ghost use Rattle.tree.specs.declared.token.token.Symbol.TheVariants as symbol;
ghost use Rattle.tree.specs.declared.token.token.Word.TheVariants as word;
ghost use Rattle.tree.specs.Token.Cursor.{place as first_place};
ghost use Rattle.expr.specs.Grammar.{sign};
ghost use Rattle.expr.specs.Places.{One, OperatorOf, ComparisonOf, ExtremeOf, Part, Stands, TestStands, AllStand, AreOpening, Front, FrontAt, joint_word};

use crate::error::{Refusal, Stop};
use crate::measured::{self, Indices, Joint, Measured, MeasuredCond};
use numeric::{Comparison, Op, Ty};
use std::alloc::Global;
use tree::Expr;
use tree::token::{Lexeme, Name, Span, Symbol, Token, Word, after, place};

/// How many levels an expression has at most.
pub const MAX_LEVELS: u8 = 64;

/// The levels of the grammar, of which each next one binds tighter.
#[derive(Clone, Copy, Drop)]
pub enum Level {
    Sum,
    Product,
    Unary,
}

// What the operators of the level stand between.
fn operand_level(level: Level) -> Level
    ensures { result ≡ spec.operand_level level }
{
    match level {
        Level::Sum => Level::Product,
        Level::Product | Level::Unary => Level::Unary,
    }
}

// The symbol's place and the tokens after it, which must come first.
#[tactic(auto, unfolding(crate::specs::Parsing::expect))]
fn expect(symbol: Symbol, tokens: &[Lexeme]) -> Result<(Span, &[Lexeme]), Stop>
    ensures read { Gives (λ r. kinds r.1.now) result (spec.expect symbol (kinds tokens.now)) }
    ensures placed { IfOk result (λ r. FrontAt (One (sign symbol)) r.0 tokens.now r.1.now) }
{
    match after(symbol, tokens) {
        Some(rest) => Ok((place(tokens, 0), rest)),
        None => Err(Stop::Refused(Refusal::BadForm(tokens.len()))),
    }
}

fn operator(level: Level, symbol: Symbol) -> Option<Op>
    ensures { result ≡ spec.operator level symbol }
{
    match (level, symbol) {
        (Level::Sum, Symbol::Plus) => Some(Op::Add),
        (Level::Sum, Symbol::Minus) => Some(Op::Sub),
        (Level::Product, Symbol::Star) => Some(Op::Mul),
        (Level::Product, Symbol::Slash) => Some(Op::Div),
        (Level::Product, Symbol::Percent) => Some(Op::Rem),
        _ => None,
    }
}

// An operator of the level, and the tokens after it.
fn operator_at(level: Level, tokens: &[Lexeme]) -> Option<(Op, &[Lexeme])>
    ensures read { MatchOption result (spec.operator_at level (kinds tokens.now) ≡ None) (λ p. spec.operator_at level (kinds tokens.now) ≡ Some (p.0, kinds p.1.now)) }
    ensures placed { IfSome result (λ p. FrontAt (OperatorOf p.0) (first_place tokens.now 0) tokens.now p.1.now) }
{
    let [first, rest @ ..] = tokens else {
        return None;
    };
    match first.token {
        Token::Symbol(symbol) => {
            let op = operator(level, symbol)?;
            Some((op, rest))
        }
        _ => None,
    }
}

fn comparison(symbol: Symbol) -> Option<Comparison>
    ensures { result ≡ spec.comparison symbol }
{
    match symbol {
        Symbol::Less => Some(Comparison::Less),
        Symbol::LessEquals => Some(Comparison::AtMost),
        Symbol::Greater => Some(Comparison::Greater),
        Symbol::GreaterEquals => Some(Comparison::AtLeast),
        Symbol::EqualsEquals => Some(Comparison::Equal),
        Symbol::NotEquals => Some(Comparison::Different),
        _ => None,
    }
}

// A comparison, which must come first, and the tokens after it.
fn comparison_at(tokens: &[Lexeme]) -> Result<(Comparison, &[Lexeme]), Stop>
    ensures read { Gives (λ r. (r.0, kinds r.1.now)) result (spec.comparison_at (kinds tokens.now)) }
    ensures placed { IfOk result (λ r. FrontAt (ComparisonOf r.0) (first_place tokens.now 0) tokens.now r.1.now) }
{
    let [first, rest @ ..] = tokens else {
        return Err(Stop::Refused(Refusal::BadForm(0)));
    };
    match first.token {
        Token::Symbol(symbol) => match comparison(symbol) {
            Some(by) => Ok((by, rest)),
            None => Err(Stop::Refused(Refusal::BadForm(tokens.len()))),
        },
        _ => Err(Stop::Refused(Refusal::BadForm(tokens.len()))),
    }
}

fn is_opening(token: Token) -> bool
    ensures { result ≡ is_opening token }
{
    matches!(token, Token::Symbol(Symbol::LeftParen))
}

// How many opening brackets come first.
fn opening(tokens: &[Lexeme]) -> usize
    ensures count { result ≡ prefix_len (λ l. is_opening l.token) tokens.now }
    ensures within { result ≤ length tokens.now }
{
    for (i, lexeme) in tokens.iter().enumerate() {
        if !is_opening(lexeme.token) {
            return i;
        }
    }
    tokens.len()
}

// From the first of the one place to the last of the other.
fn through(first: Span, last: Span) -> Span
    ensures { result ≡ record { start = first.start; end = last.end } }
{
    Span {
        start: first.start,
        end: last.end,
    }
}

// A part of the level, with so many levels at most.
#[cycle(expression)]
fn part<'a>(
    alloc: Global,
    level: Level,
    levels: u8,
    tokens: &'a [Lexeme],
) -> Result<(Measured, &'a [Lexeme]), Stop>
    ensures read { Gives (λ r. (term_of r.0.expr, kinds r.1.now)) result (spec.part level (spec.within 512 levels) (kinds tokens.now)) }
    ensures placed { IfOk result (λ r. FrontAt (Part (Stands r.0.expr)) r.0.extent tokens.now r.1.now) }
{
    if levels == 0 {
        return Err(Stop::Refused(Refusal::TooLarge));
    }
    match level {
        Level::Sum => sum(alloc, levels - 1, tokens),
        Level::Product => product(alloc, levels - 1, tokens),
        Level::Unary => unary(alloc, levels - 1, tokens),
    }
}

// A condition with so many levels at most.
#[cycle(expression)]
fn condition<'a>(
    alloc: Global,
    levels: u8,
    tokens: &'a [Lexeme],
) -> Result<(MeasuredCond, &'a [Lexeme]), Stop>
    ensures read { Gives (λ r. (test_of r.0.cond, kinds r.1.now)) result ((spec.within 512 levels).condition (kinds tokens.now)) }
    ensures placed { IfOk result (λ r. Front (TestStands r.0.cond) tokens.now r.1.now) }
{
    if levels == 0 {
        return Err(Stop::Refused(Refusal::TooLarge));
    }
    test(alloc, levels - 1, tokens)
}

#[cycle(expression)]
#[tactic(auto, unfolding(crate::specs::Parsing::sum))]
fn sum<'a>(alloc: Global, below: u8, tokens: &'a [Lexeme]) -> Result<(Measured, &'a [Lexeme]), Stop>
    ensures read { Gives (λ r. (term_of r.0.expr, kinds r.1.now)) result (spec.sum 512 below (spec.within 512 below) (kinds tokens.now)) }
    ensures placed { IfOk result (λ r. FrontAt (Part (Stands r.0.expr)) r.0.extent tokens.now r.1.now) }
{
    let (first, rest) = product(alloc, below, tokens)?;
    join(alloc, Level::Sum, below, first, rest)
}

#[cycle(expression)]
#[tactic(auto, unfolding(crate::specs::Parsing::product))]
fn product<'a>(
    alloc: Global,
    below: u8,
    tokens: &'a [Lexeme],
) -> Result<(Measured, &'a [Lexeme]), Stop>
    ensures read { Gives (λ r. (term_of r.0.expr, kinds r.1.now)) result (spec.product 512 below (spec.within 512 below) (kinds tokens.now)) }
    ensures placed { IfOk result (λ r. FrontAt (Part (Stands r.0.expr)) r.0.extent tokens.now r.1.now) }
{
    let (first, rest) = unary(alloc, below, tokens)?;
    join(alloc, Level::Product, below, first, rest)
}

// The operators of a level behind a first part, joined from the left.
#[cycle(expression)]
fn join<'a>(
    alloc: Global,
    level: Level,
    below: u8,
    first: Measured,
    tokens: &'a [Lexeme],
) -> Result<(Measured, &'a [Lexeme]), Stop>
    ensures read { Gives (λ r. (term_of r.0.expr, kinds r.1.now)) result (spec.chained 512 below (spec.within 512 below) level (term_of first.expr) (kinds tokens.now)) }
    ensures placed { IfOk result (λ r. (ls : List AnyLexeme) → FrontAt (Part (Stands first.expr)) first.extent ls tokens.now → FrontAt (Part (Stands r.0.expr)) r.0.extent ls r.1.now) }
{
    let mut left = first;
    let mut rest = tokens;
    for _ in 0..below {
        let Some((op, next)) = operator_at(level, rest) else {
            return Ok((left, rest));
        };
        let (right, next) = part(alloc, operand_level(level), below, next)?;
        let span = through(left.extent, right.extent);
        left = measured::binary(alloc, op, left, right, span, below)?;
        rest = next;
    }
    match operator_at(level, rest) {
        None => Ok((left, rest)),
        Some(_) => Err(Stop::Refused(Refusal::TooLarge)),
    }
}

// A part with brackets and signs round it. The brackets are counted first and closed one by one, so that
// they take no room on the stack.
#[cycle(expression)]
fn unary<'a>(
    alloc: Global,
    below: u8,
    tokens: &'a [Lexeme],
) -> Result<(Measured, &'a [Lexeme]), Stop>
    ensures read { Gives (λ r. (term_of r.0.expr, kinds r.1.now)) result (spec.unary 512 below (spec.within 512 below) (kinds tokens.now)) }
    ensures placed { IfOk result (λ r. FrontAt (Part (Stands r.0.expr)) r.0.extent tokens.now r.1.now) }
{
    let (brackets, rest) = tokens.split_at(opening(tokens));
    let (first, rest) = bare(alloc, below, rest)?;
    close(alloc, below, brackets, first, rest)
}

// What follows the first part within the opening brackets, up to the last bracket that closes.
#[cycle(expression)]
fn close<'a>(
    alloc: Global,
    below: u8,
    brackets: &[Lexeme],
    first: Measured,
    tokens: &'a [Lexeme],
) -> Result<(Measured, &'a [Lexeme]), Stop>
    ensures read { Gives (λ r. (term_of r.0.expr, kinds r.1.now)) result (all_closed 512 below (spec.within 512 below) (length brackets.now) (term_of first.expr) (kinds tokens.now)) }
    ensures placed { IfOk result (λ r. (ls : List AnyLexeme) → AreOpening brackets.now → FrontAt (Part (Stands first.expr)) first.extent ls tokens.now → FrontAt (Part (Stands r.0.expr)) r.0.extent (brackets.now ++ ls) r.1.now) }
{
    let mut value = first;
    let mut rest = tokens;
    for i in 0..brackets.len() {
        let start = brackets[brackets.len() - 1 - i].span;
        let (next, after) = enclosed(alloc, below, start, value, rest)?;
        value = next;
        rest = after;
    }
    Ok((value, rest))
}

// What follows the first part up to the bracket that closes round it, which was opened at the place.
#[cycle(expression)]
#[tactic(auto, unfolding(crate::specs::Parsing::closed))]
fn enclosed<'a>(
    alloc: Global,
    below: u8,
    start: Span,
    first: Measured,
    tokens: &'a [Lexeme],
) -> Result<(Measured, &'a [Lexeme]), Stop>
    ensures read { Gives (λ r. (term_of r.0.expr, kinds r.1.now)) result (spec.closed 512 below (spec.within 512 below) (term_of first.expr) (kinds tokens.now)) }
    ensures placed { IfOk result (λ r. (ls vs : List AnyLexeme) → FrontAt (One (sign symbol.LeftParen)) start vs ls → FrontAt (Part (Stands first.expr)) first.extent ls tokens.now → FrontAt (Part (Stands r.0.expr)) r.0.extent vs r.1.now) }
{
    let (product, rest) = join(alloc, Level::Product, below, first, tokens)?;
    let (sum, rest) = join(alloc, Level::Sum, below, product, rest)?;
    let (end, rest) = expect(Symbol::RightParen, rest)?;
    let mut value = sum;
    value.extent = through(start, end);
    Ok((value, rest))
}

// A part without brackets round it.
#[cycle(expression)]
#[tactic(auto, unfolding(crate::specs::Parsing::made))]
fn bare<'a>(
    alloc: Global,
    below: u8,
    tokens: &'a [Lexeme],
) -> Result<(Measured, &'a [Lexeme]), Stop>
    ensures read { Gives (λ r. (term_of r.0.expr, kinds r.1.now)) result (spec.bare 512 below (spec.within 512 below) (kinds tokens.now)) }
    ensures placed { IfOk result (λ r. FrontAt (Part (Stands r.0.expr)) r.0.extent tokens.now r.1.now) }
{
    let [first, rest @ ..] = tokens else {
        return Err(Stop::Refused(Refusal::BadForm(0)));
    };
    let start = first.span;
    match first.token {
        Token::Symbol(Symbol::Minus) => negation(alloc, below, start, rest),
        Token::Number(literal) => Ok((measured::number(literal, start, below)?, rest)),
        Token::Name(name) => named(alloc, below, start, name, rest),
        Token::LongName => Err(Stop::Refused(Refusal::LongName(tokens.len()))),
        Token::Type(ty) => cast(alloc, below, start, ty, rest),
        Token::Word(Word::Min) => pair(alloc, below, start, Op::Min, rest),
        Token::Word(Word::Max) => pair(alloc, below, start, Op::Max, rest),
        Token::Word(Word::Clamp) => clamp(alloc, below, start, rest),
        Token::Word(Word::Select) => select(alloc, below, start, rest),
        _ => Err(Stop::Refused(Refusal::BadForm(tokens.len()))),
    }
}

#[cycle(expression)]
#[tactic(auto, unfolding(crate::specs::Parsing::negation, crate::specs::Parsing::made))]
fn negation<'a>(
    alloc: Global,
    below: u8,
    start: Span,
    tokens: &'a [Lexeme],
) -> Result<(Measured, &'a [Lexeme]), Stop>
    ensures read { Gives (λ r. (term_of r.0.expr, kinds r.1.now)) result (spec.negation 512 below (spec.within 512 below) (kinds tokens.now)) }
    ensures placed { IfOk result (λ r. (ls : List AnyLexeme) → FrontAt (One (sign symbol.Minus)) start ls tokens.now → FrontAt (Part (Stands r.0.expr)) r.0.extent ls r.1.now) }
{
    let (value, rest) = part(alloc, Level::Unary, below, tokens)?;
    let span = through(start, value.extent);
    Ok((measured::negate(alloc, value, span, below)?, rest))
}

#[cycle(expression)]
#[tactic(auto, unfolding(crate::specs::Parsing::made, crate::specs::Parsing::named))]
fn named<'a>(
    alloc: Global,
    below: u8,
    start: Span,
    name: Name,
    tokens: &'a [Lexeme],
) -> Result<(Measured, &'a [Lexeme]), Stop>
    ensures read { Gives (λ r. (term_of r.0.expr, kinds r.1.now)) result (spec.named 512 below (spec.within 512 below) name (kinds tokens.now)) }
    ensures placed { IfOk result (λ r. (ls : List AnyLexeme) → FrontAt (One (token.Name name)) start ls tokens.now → FrontAt (Part (Stands r.0.expr)) r.0.extent ls r.1.now) }
{
    match after(Symbol::LeftBracket, tokens) {
        None => Ok((measured::variable(alloc, name, start, below)?, tokens)),
        Some(rest) => {
            let (found, end, rest) = indices(alloc, below, rest)?;
            let call = measured::call(alloc, name, found, through(start, end), below)?;
            Ok((call, rest))
        }
    }
}

// The indices up to the closing bracket, and that bracket's place.
#[cycle(expression)]
fn indices<'a>(
    alloc: Global,
    below: u8,
    tokens: &'a [Lexeme],
) -> Result<(Indices, Span, &'a [Lexeme]), Stop>
    ensures read { Gives (λ r. (list_terms r.0.items.items, kinds r.2.now)) result (spec.indices (spec.within 512 below).sum 512 [] (kinds tokens.now)) }
    ensures few { IfOk result (λ r. length r.0.items.items ≤ 512) }
    ensures placed { IfOk result (λ r. FrontAt (AllStand r.0.items.items) (record { start = (first_place tokens.now 0).start; end = r.1.end }) tokens.now r.2.now) }
{
    let mut found = Indices::new(alloc);
    let mut rest = tokens;
    for _ in 0..measured::MAX_NODES {
        let (index, next) = part(alloc, Level::Sum, below, rest)?;
        found = found.with(index)?;
        let Some(next) = after(Symbol::Comma, next) else {
            let (end, next) = expect(Symbol::RightBracket, next)?;
            return Ok((found, end, next));
        };
        rest = next;
    }
    Err(Stop::Refused(Refusal::TooLarge))
}

#[cycle(expression)]
#[tactic(auto, unfolding(crate::specs::Parsing::cast, crate::specs::Parsing::made))]
fn cast<'a>(
    alloc: Global,
    below: u8,
    start: Span,
    ty: Ty,
    tokens: &'a [Lexeme],
) -> Result<(Measured, &'a [Lexeme]), Stop>
    ensures read { Gives (λ r. (term_of r.0.expr, kinds r.1.now)) result (spec.cast 512 below (spec.within 512 below) ty (kinds tokens.now)) }
    ensures placed { IfOk result (λ r. (ls : List AnyLexeme) → FrontAt (One (token.Type ty)) start ls tokens.now → FrontAt (Part (Stands r.0.expr)) r.0.extent ls r.1.now) }
{
    let (_, rest) = expect(Symbol::LeftParen, tokens)?;
    let (value, rest) = part(alloc, Level::Sum, below, rest)?;
    let (end, rest) = expect(Symbol::RightParen, rest)?;
    let cast = measured::cast(alloc, ty, value, through(start, end), below)?;
    Ok((cast, rest))
}

// The arguments of `min` or `max`.
#[cycle(expression)]
#[tactic(auto, unfolding(crate::specs::Parsing::pair, crate::specs::Parsing::made))]
fn pair<'a>(
    alloc: Global,
    below: u8,
    start: Span,
    op: Op,
    tokens: &'a [Lexeme],
) -> Result<(Measured, &'a [Lexeme]), Stop>
    ensures read { Gives (λ r. (term_of r.0.expr, kinds r.1.now)) result (spec.pair 512 below (spec.within 512 below) op (kinds tokens.now)) }
    ensures placed { IfOk result (λ r. (ls : List AnyLexeme) → FrontAt (ExtremeOf op) start ls tokens.now → FrontAt (Part (Stands r.0.expr)) r.0.extent ls r.1.now) }
{
    let (_, rest) = expect(Symbol::LeftParen, tokens)?;
    let (left, rest) = part(alloc, Level::Sum, below, rest)?;
    let (_, rest) = expect(Symbol::Comma, rest)?;
    let (right, rest) = part(alloc, Level::Sum, below, rest)?;
    let (end, rest) = expect(Symbol::RightParen, rest)?;
    let both = measured::binary(alloc, op, left, right, through(start, end), below)?;
    Ok((both, rest))
}

#[cycle(expression)]
#[tactic(auto, unfolding(crate::specs::Parsing::clamp, crate::specs::Parsing::made))]
fn clamp<'a>(
    alloc: Global,
    below: u8,
    start: Span,
    tokens: &'a [Lexeme],
) -> Result<(Measured, &'a [Lexeme]), Stop>
    ensures read { Gives (λ r. (term_of r.0.expr, kinds r.1.now)) result (spec.clamp 512 below (spec.within 512 below) (kinds tokens.now)) }
    ensures placed { IfOk result (λ r. (ls : List AnyLexeme) → FrontAt (One (token.Word word.Clamp)) start ls tokens.now → FrontAt (Part (Stands r.0.expr)) r.0.extent ls r.1.now) }
{
    let (_, rest) = expect(Symbol::LeftParen, tokens)?;
    let (value, rest) = part(alloc, Level::Sum, below, rest)?;
    let (_, rest) = expect(Symbol::Comma, rest)?;
    let (low, rest) = part(alloc, Level::Sum, below, rest)?;
    let (_, rest) = expect(Symbol::Comma, rest)?;
    let (high, rest) = part(alloc, Level::Sum, below, rest)?;
    let (end, rest) = expect(Symbol::RightParen, rest)?;
    let clamped = measured::clamp(alloc, value, low, high, through(start, end), below)?;
    Ok((clamped, rest))
}

#[cycle(expression)]
#[tactic(auto, unfolding(crate::specs::Parsing::select, crate::specs::Parsing::made))]
fn select<'a>(
    alloc: Global,
    below: u8,
    start: Span,
    tokens: &'a [Lexeme],
) -> Result<(Measured, &'a [Lexeme]), Stop>
    ensures read { Gives (λ r. (term_of r.0.expr, kinds r.1.now)) result (spec.select 512 below (spec.within 512 below) (kinds tokens.now)) }
    ensures placed { IfOk result (λ r. (ls : List AnyLexeme) → FrontAt (One (token.Word word.Select)) start ls tokens.now → FrontAt (Part (Stands r.0.expr)) r.0.extent ls r.1.now) }
{
    let (_, rest) = expect(Symbol::LeftParen, tokens)?;
    let (cond, rest) = condition(alloc, below, rest)?;
    let (_, rest) = expect(Symbol::Comma, rest)?;
    let (yes, rest) = part(alloc, Level::Sum, below, rest)?;
    let (_, rest) = expect(Symbol::Comma, rest)?;
    let (no, rest) = part(alloc, Level::Sum, below, rest)?;
    let (end, rest) = expect(Symbol::RightParen, rest)?;
    let choice = measured::select(alloc, cond, yes, no, through(start, end), below)?;
    Ok((choice, rest))
}

#[cycle(expression)]
fn test<'a>(
    alloc: Global,
    below: u8,
    tokens: &'a [Lexeme],
) -> Result<(MeasuredCond, &'a [Lexeme]), Stop>
    ensures read { Gives (λ r. (test_of r.0.cond, kinds r.1.now)) result (spec.condition 512 below (spec.within 512 below) (kinds tokens.now)) }
    ensures placed { IfOk result (λ r. Front (TestStands r.0.cond) tokens.now r.1.now) }
{
    let [first, rest @ ..] = tokens else {
        return compared(alloc, below, tokens);
    };
    let start = first.span;
    match first.token {
        Token::Word(Word::Not) => denied(alloc, below, start, rest),
        Token::Word(Word::All) => combined(alloc, below, start, Joint::All, rest),
        Token::Word(Word::Any) => combined(alloc, below, start, Joint::Any, rest),
        _ => compared(alloc, below, tokens),
    }
}

#[cycle(expression)]
#[tactic(auto, unfolding(crate::specs::Parsing::compared, crate::specs::Parsing::cond_made))]
fn compared<'a>(
    alloc: Global,
    below: u8,
    tokens: &'a [Lexeme],
) -> Result<(MeasuredCond, &'a [Lexeme]), Stop>
    ensures read { Gives (λ r. (test_of r.0.cond, kinds r.1.now)) result (spec.compared 512 below (spec.within 512 below) (kinds tokens.now)) }
    ensures placed { IfOk result (λ r. Front (TestStands r.0.cond) tokens.now r.1.now) }
{
    let (left, rest) = part(alloc, Level::Sum, below, tokens)?;
    let (by, rest) = comparison_at(rest)?;
    let (right, rest) = part(alloc, Level::Sum, below, rest)?;
    Ok((measured::compare(by, left, right, below)?, rest))
}

#[cycle(expression)]
#[tactic(auto, unfolding(crate::specs::Parsing::denied, crate::specs::Parsing::cond_made))]
fn denied<'a>(
    alloc: Global,
    below: u8,
    start: Span,
    tokens: &'a [Lexeme],
) -> Result<(MeasuredCond, &'a [Lexeme]), Stop>
    ensures read { Gives (λ r. (test_of r.0.cond, kinds r.1.now)) result (spec.denied 512 below (spec.within 512 below) (kinds tokens.now)) }
    ensures placed { IfOk result (λ r. (ls : List AnyLexeme) → FrontAt (One (token.Word word.Not)) start ls tokens.now → Front (TestStands r.0.cond) ls r.1.now) }
{
    let (_, rest) = expect(Symbol::LeftParen, tokens)?;
    let (cond, rest) = condition(alloc, below, rest)?;
    let (end, rest) = expect(Symbol::RightParen, rest)?;
    let denied = measured::deny(alloc, cond, through(start, end), below)?;
    Ok((denied, rest))
}

#[cycle(expression)]
#[tactic(auto, unfolding(crate::specs::Parsing::combined, crate::specs::Parsing::cond_made))]
fn combined<'a>(
    alloc: Global,
    below: u8,
    start: Span,
    joint: Joint,
    tokens: &'a [Lexeme],
) -> Result<(MeasuredCond, &'a [Lexeme]), Stop>
    ensures read { Gives (λ r. (test_of r.0.cond, kinds r.1.now)) result (spec.combined 512 below (spec.within 512 below) joint (kinds tokens.now)) }
    ensures placed { IfOk result (λ r. (ls : List AnyLexeme) → FrontAt (One (joint_word joint)) start ls tokens.now → Front (TestStands r.0.cond) ls r.1.now) }
{
    let (_, rest) = expect(Symbol::LeftParen, tokens)?;
    let (first, rest) = condition(alloc, below, rest)?;
    let (_, rest) = expect(Symbol::Comma, rest)?;
    let (second, rest) = condition(alloc, below, rest)?;
    let (end, rest) = expect(Symbol::RightParen, rest)?;
    let both = measured::combine(alloc, joint, first, second, through(start, end), below)?;
    Ok((both, rest))
}

/// Reads the expression at the front of the tokens, as long a one as stands there, and hands back the tokens after it.
///
/// # Errors
/// `Refused(BadForm)` where the tokens do not go on as the grammar says, `Refused(LongName)` at a name of more than
/// 16 bytes, `Refused(TooLarge)` where the expression has more than 512 nodes or 64 levels, whichever is met first;
/// `Memory`.
pub fn expression<'a>(alloc: Global, tokens: &'a [Lexeme]) -> Result<(Expr, &'a [Lexeme]), Stop>
    ensures read { Gives (λ r. (term_of r.0, kinds r.1.now)) result (spec.expression (kinds tokens.now)) }
    ensures placed { IfOk result (λ r. Front (Part (Stands r.0)) tokens.now r.1.now) }
{
    let (found, rest) = part(alloc, Level::Sum, MAX_LEVELS, tokens)?;
    Ok((found.expr, rest))
}

/// Reads an expression, with nothing after it.
///
/// # Errors
/// Those of [`expression`], and `Refused(BadForm)` at the first token after the expression.
#[tactic(auto, unfolding(crate::specs::Parsing::whole))]
pub fn whole(alloc: Global, tokens: &[Lexeme]) -> Result<Expr, Stop>
    ensures read { Gives (λ e. term_of e) result (spec.whole (kinds tokens.now)) }
    ensures placed { IfOk result (λ e. Part (Stands e) tokens.now) }
{
    let (found, rest) = expression(alloc, tokens)?;
    if !rest.is_empty() {
        return Err(Stop::Refused(Refusal::BadForm(rest.len())));
    }
    Ok(found)
}
