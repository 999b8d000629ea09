//! From tokens to statements, by one function a rule of the grammar.

ghost use Rattle.std.specs.Prelude.{◌≡◌, ℕ, List, All, ◌++◌, ◌∷◌, [], length, map, Ok, Err, Some, None, IfOk, IfErr, MatchOption, IfSome, option_map, drop};
ghost use Rattle.tree.specs.Term.{term_of};
ghost use Rattle.std.specs.List.{flat_map};
ghost use Rattle.tree.specs.Token.Cursor.{kinds, place as first_place};
ghost use Rattle.tree.specs.declared.token.token.Lexeme.{Lexeme};
ghost use Rattle.expr.specs.declared.statements.error.Stop.TheVariants.{Refused};
ghost use Rattle.expr.specs.declared.statements.error.Refusal.TheVariants.{BadForm};
ghost use Rattle.expr.specs.Statements.View as view;
ghost use Rattle.expr.specs.Statements.Reading as spec;
ghost use Rattle.expr.specs.Statements.Reading.{Gives};
ghost use Rattle.expr.specs.Statements.Standing.{AreOf, StandsAt, DomainStands, StatementStands, NamesStand};
ghost use Rattle.expr.specs.Statements.Marks.{AreMarked, StandIn, bound_marks, domain_marks, expression_marks, extent_marks, file_marks, found_marks, function_marks, input_marks, named_marks, output_marks, statement_marks, type_marks, update_marks};

use crate::statements::error::{Refusal, Stop};
use crate::statements::statement::{
    Bound, Domain, Extent, File, FunctionStatement, InputStatement, Named, OutputStatement,
    Statement, UpdateStatement,
};
use crate::{Refusal as ExprRefusal, Stop as ExprStop};
use numeric::Ty;
use std::alloc::Global;
use tree::Expr;
use tree::token::{Lexeme, Span, Symbol, Token, Word, after, after_word, place};

// The tokens after the symbol, which must come first.
#[tactic(auto, unfolding(crate::specs::Statements::Reading::expect))]
fn expect(symbol: Symbol, tokens: &[Lexeme]) -> Result<&[Lexeme], Stop>
    ensures read { Gives (λ rest. kinds rest.now) result (spec.expect symbol (kinds tokens.now)) }
    ensures kept { IfOk result (λ rest. (text : List ℕ) → AreOf text tokens.now → AreOf text rest.now) }
    ensures placed { IfOk result (λ rest. StandIn [] tokens.now rest.now) }
{
    match after(symbol, tokens) {
        Some(rest) => Ok(rest),
        None => Err(Stop::Refused(Refusal::BadForm(tokens.len()))),
    }
}

// The tokens after the word, which must come first.
#[tactic(auto, unfolding(crate::specs::Statements::Reading::expect_word))]
fn expect_word(word: Word, tokens: &[Lexeme]) -> Result<&[Lexeme], Stop>
    ensures read { Gives (λ rest. kinds rest.now) result (spec.expect_word word (kinds tokens.now)) }
    ensures kept { IfOk result (λ rest. (text : List ℕ) → AreOf text tokens.now → AreOf text rest.now) }
    ensures refused { IfErr result (λ s. s ≡ Refused (BadForm (length tokens.now))) }
    ensures placed { IfOk result (λ rest. StandIn [] tokens.now rest.now) }
{
    match after_word(word, tokens) {
        Some(rest) => Ok(rest),
        None => Err(Stop::Refused(Refusal::BadForm(tokens.len()))),
    }
}

fn name(alloc: Global, tokens: &[Lexeme]) -> Result<(Named, &[Lexeme]), Stop>
    ensures read { Gives (λ r. (view.named_text r.0, kinds r.1.now)) result (spec.name (kinds tokens.now)) }
    ensures stands { IfOk result (λ r. (text : List ℕ) → AreOf text tokens.now → AreOf text r.1.now × StandsAt text r.0) }
    ensures at { IfOk result (λ r. r.0.span ≡ first_place tokens.now 0) }
    ensures rest { IfOk result (λ r. r.1.now ≡ drop 1 tokens.now) }
{
    match tokens {
        [
            Lexeme {
                token: Token::Name(name),
                span,
            },
            rest @ ..,
        ] => {
            let name = String::from_str(alloc, name.as_str())?;
            Ok((Named { name, span: *span }, rest))
        }
        [
            Lexeme {
                token: Token::LongName,
                ..
            },
            ..
        ] => Err(Stop::Refused(Refusal::LongName(tokens.len()))),
        _ => Err(Stop::Refused(Refusal::BadForm(tokens.len()))),
    }
}

// A type, and where it stands.
fn type_name(tokens: &[Lexeme]) -> Result<((Ty, Span), &[Lexeme]), Stop>
    ensures read { Gives (λ r. (r.0.0, kinds r.1.now)) result (spec.type_name (kinds tokens.now)) }
    ensures kept { IfOk result (λ r. (text : List ℕ) → AreOf text tokens.now → AreOf text r.1.now) }
    ensures at { IfOk result (λ r. r.0.1 ≡ first_place tokens.now 0) }
    ensures rest { IfOk result (λ r. r.1.now ≡ drop 1 tokens.now) }
{
    match tokens {
        [
            Lexeme {
                token: Token::Type(ty),
                span,
            },
            rest @ ..,
        ] => Ok(((*ty, *span), rest)),
        _ => Err(Stop::Refused(Refusal::BadForm(tokens.len()))),
    }
}

// A number without a type.
fn number(tokens: &[Lexeme]) -> Result<(Extent, &[Lexeme]), Stop>
    ensures read { Gives (λ r. (view.extent_text r.0, kinds r.1.now)) result (spec.number (kinds tokens.now)) }
    ensures kept { IfOk result (λ r. (text : List ℕ) → AreOf text tokens.now → AreOf text r.1.now) }
    ensures at { IfOk result (λ r. r.0.span ≡ first_place tokens.now 0) }
    ensures rest { IfOk result (λ r. r.1.now ≡ drop 1 tokens.now) }
{
    match tokens {
        [
            Lexeme {
                token: Token::Number(literal),
                span,
            },
            rest @ ..,
        ] => match literal.ty {
            None => Ok((
                Extent {
                    number: literal.value,
                    span: *span,
                },
                rest,
            )),
            Some(_) => Err(Stop::Refused(Refusal::BadForm(tokens.len()))),
        },
        _ => Err(Stop::Refused(Refusal::BadForm(tokens.len()))),
    }
}

// A too large expression stands where it begins.
#[tactic(auto, unfolding(crate::specs::Statements::Reading::expression))]
fn expression(alloc: Global, tokens: &[Lexeme]) -> Result<(Expr, &[Lexeme]), Stop>
    ensures read { Gives (λ r. (term_of r.0, kinds r.1.now)) result (spec.expression (kinds tokens.now)) }
    ensures kept { IfOk result (λ r. (text : List ℕ) → AreOf text tokens.now → AreOf text r.1.now) }
    ensures placed { IfOk result (λ r. StandIn (expression_marks r.0) tokens.now r.1.now) }
{
    match crate::expression(alloc, tokens) {
        Ok((found, rest)) => Ok((found, rest)),
        Err(ExprStop::Memory) => Err(Stop::Memory),
        Err(ExprStop::Refused(ExprRefusal::BadForm(at))) => {
            Err(Stop::Refused(Refusal::BadForm(at)))
        }
        Err(ExprStop::Refused(ExprRefusal::LongName(at))) => {
            Err(Stop::Refused(Refusal::LongName(at)))
        }
        Err(ExprStop::Refused(ExprRefusal::TooLarge)) => {
            Err(Stop::Refused(Refusal::TooLarge(tokens.len())))
        }
    }
}

// Further names, each behind a comma.
fn more_names<'a>(
    alloc: Global,
    mut found: Vec<Named>,
    tokens: &'a [Lexeme],
) -> Result<(Vec<Named>, &'a [Lexeme]), Stop>
    ensures read { Gives (λ r. (map view.named_text r.0.items, kinds r.1.now)) result (spec.more_of spec.name (length tokens.now) (map view.named_text found.items) (kinds tokens.now)) }
    ensures stands { IfOk result (λ r. (text : List ℕ) → AreOf text tokens.now → All (StandsAt text) found.items → AreOf text r.1.now × All (StandsAt text) r.0.items) }
    ensures placed { IfOk result (λ r. (before : List Lexeme) → StandIn (flat_map named_marks found.items) before tokens.now → StandIn (flat_map named_marks r.0.items) before r.1.now) }
{
    let mut rest = tokens;
    for _ in 0..tokens.len() {
        let Some(next) = after(Symbol::Comma, rest) else {
            return Ok((found, rest));
        };
        let (item, left) = name(alloc, next)?;
        found.push(item)?;
        rest = left;
    }
    Ok((found, rest))
}

// One or more names with commas between them.
#[tactic(auto, unfolding(crate::specs::Statements::Reading::names, crate::specs::Statements::Reading::separated))]
fn names(alloc: Global, tokens: &[Lexeme]) -> Result<(Vec<Named>, &[Lexeme]), Stop>
    ensures read { Gives (λ r. (map view.named_text r.0.items, kinds r.1.now)) result (spec.names (kinds tokens.now)) }
    ensures stands { IfOk result (λ r. (text : List ℕ) → AreOf text tokens.now → AreOf text r.1.now × All (StandsAt text) r.0.items) }
    ensures placed { IfOk result (λ r. StandIn (flat_map named_marks r.0.items) tokens.now r.1.now) }
{
    let (first, rest) = name(alloc, tokens)?;
    let mut found = Vec::new(alloc);
    found.push(first)?;
    more_names(alloc, found, rest)
}

// Further numbers, each behind a comma.
fn more_numbers(mut found: Vec<Extent>, tokens: &[Lexeme]) -> Result<(Vec<Extent>, &[Lexeme]), Stop>
    ensures read { Gives (λ r. (map view.extent_text r.0.items, kinds r.1.now)) result (spec.more_of spec.number (length tokens.now) (map view.extent_text found.items) (kinds tokens.now)) }
    ensures kept { IfOk result (λ r. (text : List ℕ) → AreOf text tokens.now → AreOf text r.1.now) }
    ensures placed { IfOk result (λ r. (before : List Lexeme) → StandIn (flat_map extent_marks found.items) before tokens.now → StandIn (flat_map extent_marks r.0.items) before r.1.now) }
{
    let mut rest = tokens;
    for _ in 0..tokens.len() {
        let Some(next) = after(Symbol::Comma, rest) else {
            return Ok((found, rest));
        };
        let (item, left) = number(next)?;
        found.push(item)?;
        rest = left;
    }
    Ok((found, rest))
}

// One or more numbers with commas between them.
#[tactic(auto, unfolding(crate::specs::Statements::Reading::numbers, crate::specs::Statements::Reading::separated))]
fn numbers(alloc: Global, tokens: &[Lexeme]) -> Result<(Vec<Extent>, &[Lexeme]), Stop>
    ensures read { Gives (λ r. (map view.extent_text r.0.items, kinds r.1.now)) result (spec.numbers (kinds tokens.now)) }
    ensures kept { IfOk result (λ r. (text : List ℕ) → AreOf text tokens.now → AreOf text r.1.now) }
    ensures placed { IfOk result (λ r. StandIn (flat_map extent_marks r.0.items) tokens.now r.1.now) }
{
    let (first, rest) = number(tokens)?;
    let mut found = Vec::new(alloc);
    found.push(first)?;
    more_numbers(found, rest)
}

// Further expressions, each behind a comma.
fn more_expressions<'a>(
    alloc: Global,
    mut found: Vec<Expr>,
    tokens: &'a [Lexeme],
) -> Result<(Vec<Expr>, &'a [Lexeme]), Stop>
    ensures read { Gives (λ r. (map term_of r.0.items, kinds r.1.now)) result (spec.more_of spec.expression (length tokens.now) (map term_of found.items) (kinds tokens.now)) }
    ensures kept { IfOk result (λ r. (text : List ℕ) → AreOf text tokens.now → AreOf text r.1.now) }
    ensures placed { IfOk result (λ r. (before : List Lexeme) → StandIn (flat_map expression_marks found.items) before tokens.now → StandIn (flat_map expression_marks r.0.items) before r.1.now) }
{
    let mut rest = tokens;
    for _ in 0..tokens.len() {
        let Some(next) = after(Symbol::Comma, rest) else {
            return Ok((found, rest));
        };
        let (item, left) = expression(alloc, next)?;
        found.push(item)?;
        rest = left;
    }
    Ok((found, rest))
}

// One or more expressions with commas between them.
#[tactic(auto, unfolding(crate::specs::Statements::Reading::expressions, crate::specs::Statements::Reading::separated))]
fn expressions(alloc: Global, tokens: &[Lexeme]) -> Result<(Vec<Expr>, &[Lexeme]), Stop>
    ensures read { Gives (λ r. (map term_of r.0.items, kinds r.1.now)) result (spec.expressions (kinds tokens.now)) }
    ensures kept { IfOk result (λ r. (text : List ℕ) → AreOf text tokens.now → AreOf text r.1.now) }
    ensures placed { IfOk result (λ r. StandIn (flat_map expression_marks r.0.items) tokens.now r.1.now) }
{
    let (first, rest) = expression(alloc, tokens)?;
    let mut found = Vec::new(alloc);
    found.push(first)?;
    more_expressions(alloc, found, rest)
}

// A number that may have a sign.
#[tactic(auto, unfolding(crate::specs::Statements::Reading::bound))]
fn bound(tokens: &[Lexeme]) -> Result<(Bound, &[Lexeme]), Stop>
    ensures read { Gives (λ r. (view.bound_text r.0, kinds r.1.now)) result (spec.bound (kinds tokens.now)) }
    ensures kept { IfOk result (λ r. (text : List ℕ) → AreOf text tokens.now → AreOf text r.1.now) }
    ensures placed { IfOk result (λ r. StandIn (bound_marks r.0) tokens.now r.1.now) }
{
    match after(Symbol::Minus, tokens) {
        None => {
            let (found, rest) = number(tokens)?;
            let bound = Bound {
                negative: false,
                number: found.number,
                span: found.span,
            };
            Ok((bound, rest))
        }
        Some(next) => {
            let (found, rest) = number(next)?;
            let bound = Bound {
                negative: true,
                number: found.number,
                span: Span {
                    start: place(tokens, 0).start,
                    end: found.span.end,
                },
            };
            Ok((bound, rest))
        }
    }
}

// A reduction variable and its range.
#[tactic(auto, unfolding(crate::specs::Statements::Reading::domain))]
fn domain(alloc: Global, tokens: &[Lexeme]) -> Result<(Domain, &[Lexeme]), Stop>
    ensures read { Gives (λ r. (view.domain_text r.0, kinds r.1.now)) result (spec.domain (kinds tokens.now)) }
    ensures stands { IfOk result (λ r. (text : List ℕ) → AreOf text tokens.now → AreOf text r.1.now × DomainStands text r.0) }
    ensures placed { IfOk result (λ r. StandIn (domain_marks r.0) tokens.now r.1.now) }
{
    let (variable, rest) = name(alloc, tokens)?;
    let (low, rest) = bound(rest)?;
    let rest = expect(Symbol::DotDot, rest)?;
    let (high, rest) = bound(rest)?;
    Ok((
        Domain {
            variable,
            low,
            high,
        },
        rest,
    ))
}

// Further ranges, each behind a comma.
fn more_domains<'a>(
    alloc: Global,
    mut found: Vec<Domain>,
    tokens: &'a [Lexeme],
) -> Result<(Vec<Domain>, &'a [Lexeme]), Stop>
    ensures read { Gives (λ r. (map view.domain_text r.0.items, kinds r.1.now)) result (spec.more_of spec.domain (length tokens.now) (map view.domain_text found.items) (kinds tokens.now)) }
    ensures stands { IfOk result (λ r. (text : List ℕ) → AreOf text tokens.now → All (DomainStands text) found.items → AreOf text r.1.now × All (DomainStands text) r.0.items) }
    ensures placed { IfOk result (λ r. (before : List Lexeme) → StandIn (flat_map domain_marks found.items) before tokens.now → StandIn (flat_map domain_marks r.0.items) before r.1.now) }
{
    let mut rest = tokens;
    for _ in 0..tokens.len() {
        let Some(next) = after(Symbol::Comma, rest) else {
            return Ok((found, rest));
        };
        let (item, left) = domain(alloc, next)?;
        found.push(item)?;
        rest = left;
    }
    Ok((found, rest))
}

// One or more ranges with commas between them.
#[tactic(auto, unfolding(crate::specs::Statements::Reading::domains, crate::specs::Statements::Reading::separated))]
fn domains(alloc: Global, tokens: &[Lexeme]) -> Result<(Vec<Domain>, &[Lexeme]), Stop>
    ensures read { Gives (λ r. (map view.domain_text r.0.items, kinds r.1.now)) result (spec.domains (kinds tokens.now)) }
    ensures stands { IfOk result (λ r. (text : List ℕ) → AreOf text tokens.now → AreOf text r.1.now × All (DomainStands text) r.0.items) }
    ensures placed { IfOk result (λ r. StandIn (flat_map domain_marks r.0.items) tokens.now r.1.now) }
{
    let (first, rest) = domain(alloc, tokens)?;
    let mut found = Vec::new(alloc);
    found.push(first)?;
    more_domains(alloc, found, rest)
}

// Numbers in brackets.
#[tactic(auto, unfolding(crate::specs::Statements::Reading::size))]
fn size(alloc: Global, tokens: &[Lexeme]) -> Result<(Vec<Extent>, &[Lexeme]), Stop>
    ensures read { Gives (λ r. (map view.extent_text r.0.items, kinds r.1.now)) result (spec.size (kinds tokens.now)) }
    ensures kept { IfOk result (λ r. (text : List ℕ) → AreOf text tokens.now → AreOf text r.1.now) }
    ensures placed { IfOk result (λ r. StandIn (flat_map extent_marks r.0.items) tokens.now r.1.now) }
{
    let rest = expect(Symbol::LeftBracket, tokens)?;
    let (found, rest) = numbers(alloc, rest)?;
    let rest = expect(Symbol::RightBracket, rest)?;
    Ok((found, rest))
}

// The domain of an update, which may be left out.
#[tactic(auto, unfolding(crate::specs::Statements::Reading::over))]
fn over(alloc: Global, tokens: &[Lexeme]) -> Result<(Vec<Domain>, &[Lexeme]), Stop>
    ensures read { Gives (λ r. (map view.domain_text r.0.items, kinds r.1.now)) result (spec.over (kinds tokens.now)) }
    ensures stands { IfOk result (λ r. (text : List ℕ) → AreOf text tokens.now → AreOf text r.1.now × All (DomainStands text) r.0.items) }
    ensures placed { IfOk result (λ r. StandIn (flat_map domain_marks r.0.items) tokens.now r.1.now) }
{
    match after_word(Word::Over, tokens) {
        None => Ok((Vec::new(alloc), tokens)),
        Some(rest) => {
            let rest = expect(Symbol::LeftParen, rest)?;
            let (found, rest) = domains(alloc, rest)?;
            let rest = expect(Symbol::RightParen, rest)?;
            Ok((found, rest))
        }
    }
}

// The right side of a statement.
#[tactic(auto, unfolding(crate::specs::Statements::Reading::right_side))]
fn right_side(alloc: Global, tokens: &[Lexeme]) -> Result<(Expr, &[Lexeme]), Stop>
    ensures read { Gives (λ r. (term_of r.0, kinds r.1.now)) result (spec.right_side (kinds tokens.now)) }
    ensures kept { IfOk result (λ r. (text : List ℕ) → AreOf text tokens.now → AreOf text r.1.now) }
    ensures placed { IfOk result (λ r. StandIn (expression_marks r.0) tokens.now r.1.now) }
{
    let rest = expect(Symbol::Equals, tokens)?;
    let (value, rest) = expression(alloc, rest)?;
    let rest = expect(Symbol::Semicolon, rest)?;
    Ok((value, rest))
}

#[tactic(auto, unfolding(crate::specs::Statements::Reading::input))]
fn input(alloc: Global, tokens: &[Lexeme]) -> Result<(InputStatement, &[Lexeme]), Stop>
    ensures read { Gives (λ r. (view.input_text r.0, kinds r.1.now)) result (spec.input (kinds tokens.now)) }
    ensures stands { IfOk result (λ r. (text : List ℕ) → AreOf text tokens.now → AreOf text r.1.now × StandsAt text r.0.name) }
    ensures placed { IfOk result (λ r. StandIn (input_marks r.0) tokens.now r.1.now) }
{
    let rest = expect_word(Word::Input, tokens)?;
    let (name, rest) = name(alloc, rest)?;
    let ((ty, ty_span), rest) = type_name(rest)?;
    let (extents, rest) = size(alloc, rest)?;
    let rest = expect(Symbol::Semicolon, rest)?;
    Ok((
        InputStatement {
            name,
            ty,
            ty_span,
            extents,
        },
        rest,
    ))
}

// A function, behind its word.
#[tactic(auto, unfolding(crate::specs::Statements::Reading::function))]
fn function(alloc: Global, tokens: &[Lexeme]) -> Result<(FunctionStatement, &[Lexeme]), Stop>
    ensures read { Gives (λ r. (view.function_text r.0, kinds r.1.now)) result (spec.function (kinds tokens.now)) }
    ensures stands { IfOk result (λ r. (text : List ℕ) → AreOf text tokens.now → AreOf text r.1.now × (StandsAt text r.0.name × All (StandsAt text) r.0.variables.items)) }
    ensures placed { IfOk result (λ r. StandIn (function_marks r.0) tokens.now r.1.now) }
{
    let (name, rest) = name(alloc, tokens)?;
    let ((ty, ty_span), rest) = type_name(rest)?;
    let rest = expect(Symbol::LeftParen, rest)?;
    let (variables, rest) = names(alloc, rest)?;
    let rest = expect(Symbol::RightParen, rest)?;
    let (value, rest) = right_side(alloc, rest)?;
    Ok((
        FunctionStatement {
            name,
            ty,
            ty_span,
            variables,
            value,
        },
        rest,
    ))
}

// An update, behind its word, which stands at the place given.
#[tactic(auto, unfolding(crate::specs::Statements::Reading::update))]
fn update(
    alloc: Global,
    word: Span,
    tokens: &[Lexeme],
) -> Result<(UpdateStatement, &[Lexeme]), Stop>
    ensures read { Gives (λ r. (view.update_text r.0, kinds r.1.now)) result (spec.update (kinds tokens.now)) }
    ensures stands { IfOk result (λ r. (text : List ℕ) → AreOf text tokens.now → AreOf text r.1.now × (StandsAt text r.0.name × All (DomainStands text) r.0.domains.items)) }
    ensures word { IfOk result (λ r. r.0.word ≡ word) }
    ensures placed { IfOk result (λ r. StandIn (update_marks r.0) tokens.now r.1.now) }
{
    let (name, rest) = name(alloc, tokens)?;
    let (domains, rest) = over(alloc, rest)?;
    let rest = expect(Symbol::LeftBracket, rest)?;
    let (at, rest) = expressions(alloc, rest)?;
    let rest = expect(Symbol::RightBracket, rest)?;
    let (value, rest) = right_side(alloc, rest)?;
    Ok((
        UpdateStatement {
            word,
            name,
            domains,
            at,
            value,
        },
        rest,
    ))
}

#[tactic(auto, unfolding(crate::specs::Statements::Reading::output))]
fn output(alloc: Global, tokens: &[Lexeme]) -> Result<(OutputStatement, &[Lexeme]), Stop>
    ensures read { Gives (λ r. (view.output_text r.0, kinds r.1.now)) result (spec.output (kinds tokens.now)) }
    ensures stands { IfOk result (λ r. (text : List ℕ) → AreOf text tokens.now → AreOf text r.1.now × StandsAt text r.0.name) }
    ensures placed { IfOk result (λ r. StandIn (output_marks r.0) tokens.now r.1.now) }
{
    let rest = expect_word(Word::Output, tokens)?;
    let (name, rest) = name(alloc, rest)?;
    let (extents, rest) = size(alloc, rest)?;
    let rest = expect(Symbol::Semicolon, rest)?;
    Ok((OutputStatement { name, extents }, rest))
}

// The function or update that begins here, if one does.
#[tactic(auto, unfolding(crate::specs::Statements::Reading::statement))]
fn statement(alloc: Global, tokens: &[Lexeme]) -> Result<(Option<Statement>, &[Lexeme]), Stop>
    ensures read { Gives (λ r. (option_map view.statement_text r.0, kinds r.1.now)) result (spec.statement (kinds tokens.now)) }
    ensures stands { IfOk result (λ r. (text : List ℕ) → AreOf text tokens.now → AreOf text r.1.now × IfSome r.0 (StatementStands text)) }
    ensures placed { IfOk result (λ r. StandIn (found_marks r.0) tokens.now r.1.now) }
{
    if let Some(rest) = after_word(Word::Func, tokens) {
        let (found, rest) = function(alloc, rest)?;
        return Ok((Some(Statement::Function(found)), rest));
    }
    if let Some(rest) = after_word(Word::Update, tokens) {
        let (found, rest) = update(alloc, place(tokens, 0), rest)?;
        return Ok((Some(Statement::Update(found)), rest));
    }
    Ok((None, tokens))
}

// The same tokens, where no update begins here: one stands behind a function.
#[tactic(auto, unfolding(crate::specs::Statements::Reading::led))]
fn led(tokens: &[Lexeme]) -> Result<&[Lexeme], Stop>
    ensures read { Gives (λ r. kinds r.now) result (spec.led (kinds tokens.now)) }
    ensures same { IfOk result (λ r. r.now ≡ tokens.now) }
{
    match after_word(Word::Update, tokens) {
        Some(_) => Err(Stop::Refused(Refusal::BadForm(tokens.len()))),
        None => Ok(tokens),
    }
}

// Functions and updates as long as they follow.
fn statements(alloc: Global, tokens: &[Lexeme]) -> Result<(Vec<Statement>, &[Lexeme]), Stop>
    ensures read { Gives (λ r. (map view.statement_text r.0.items, kinds r.1.now)) result (spec.statements (length tokens.now) [] (kinds tokens.now)) }
    ensures stands { IfOk result (λ r. (text : List ℕ) → AreOf text tokens.now → AreOf text r.1.now × All (StatementStands text) r.0.items) }
    ensures placed { IfOk result (λ r. StandIn (flat_map statement_marks r.0.items) tokens.now r.1.now) }
{
    let mut found = Vec::new(alloc);
    let mut rest = tokens;
    for _ in 0..tokens.len() {
        let (item, left) = statement(alloc, rest)?;
        let Some(next) = item else {
            return Ok((found, left));
        };
        found.push(next)?;
        rest = left;
    }
    Ok((found, rest))
}

// The file, if nothing stands behind it.
fn ended(found: File, tokens: &[Lexeme]) -> Result<File, Stop>
    ensures read { Gives (λ f. view.file_text f) result (spec.ended (view.file_text found) (kinds tokens.now)) }
    ensures found { IfOk result (λ f. f ≡ found) }
{
    match tokens {
        [] => Ok(found),
        [_, ..] => Err(Stop::Refused(Refusal::BadForm(tokens.len()))),
    }
}

/// Reads the statements of a whole text from its tokens.
///
/// # Errors
/// `Refused(BadForm)` at the token, or the end, where the tokens do not go on as the grammar says,
/// `Refused(LongName)` at a name of more than 16 bytes, `Refused(TooLarge)` at the first token of an expression of more
/// than 512 nodes or 64 levels, whichever is met first; `Memory`.
#[tactic(auto, unfolding(crate::specs::Statements::Reading::file))]
pub fn file(alloc: Global, tokens: &[Lexeme]) -> Result<File, Stop>
    ensures read { Gives (λ f. view.file_text f) result (spec.file (kinds tokens.now)) }
    ensures stands { IfOk result (λ f. (text : List ℕ) → AreOf text tokens.now → NamesStand text f) }
    ensures memory { IfErr result (λ s. spec.WantsMemory (kinds tokens.now) s) }
    ensures placed { IfOk result (λ f. AreMarked (file_marks f) tokens.now) }
{
    let rest = expect_word(Word::Pipeline, tokens)?;
    let (name, rest) = name(alloc, rest)?;
    let rest = expect(Symbol::Semicolon, rest)?;
    let (input, rest) = input(alloc, rest)?;
    let rest = led(rest)?;
    let (statements, rest) = statements(alloc, rest)?;
    let (output, rest) = output(alloc, rest)?;
    let found = File {
        name,
        input,
        statements,
        output,
    };
    ended(found, rest)
}
