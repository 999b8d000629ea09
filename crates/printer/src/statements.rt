//! The tokens of statements.

ghost use Rattle.std.specs.Prelude.{◌≡◌, ◌++◌, ◌∷◌, [], map, OnOk, IfOk, string_bytes};
ghost use Rattle.std.specs.List.{flat_map};
ghost use Rattle.algo.specs.Parts.{names_of, range_of, change_of, function_of, functions_of};
ghost use Rattle.algo.specs.View.{algorithm_of};
ghost use Rattle.tree.specs.Term.{term_of, list_terms};
ghost use Rattle.printer.specs.Tokens as spec;

use crate::expressions::{name_token, put_row, put_symbol, put_term};
use algo::{Algo, Function, Port, Range, Update};
use indexmap::IndexMap;
use numeric::Ty;
use std::alloc::{AllocError, Global};
use tree::Expr;
use tree::token::{Literal, Symbol, Token, Word};

fn number_token(number: u32) -> Token
    ensures { result ≡ spec.number_token number }
{
    Token::Number(Literal {
        value: number,
        ty: None,
    })
}

#[tactic(auto, using(crate::proofs::Lists::more))]
fn put_other_names(tokens: &mut Vec<Token>, names: &[String]) -> Result<(), AllocError>
    ensures { OnOk result (tokens.new.items ≡ tokens.old.items ++ flat_map (spec.behind_comma spec.one_name) (names_of names.now)) }
{
    for name in names {
        put_symbol(tokens, Symbol::Comma)?;
        tokens.push(name_token(name.as_str()))?;
    }
    Ok(())
}

/// Names with a comma between one and the next.
fn put_names(tokens: &mut Vec<Token>, names: &[String]) -> Result<(), AllocError>
    ensures { OnOk result (tokens.new.items ≡ tokens.old.items ++ spec.listed spec.one_name (names_of names.now)) }
{
    match names {
        [] => Ok(()),
        [first, others @ ..] => {
            tokens.push(name_token(first.as_str()))?;
            put_other_names(tokens, others)
        }
    }
}

#[tactic(auto, using(crate::proofs::Lists::more))]
fn put_other_numbers(tokens: &mut Vec<Token>, numbers: &[u32]) -> Result<(), AllocError>
    ensures { OnOk result (tokens.new.items ≡ tokens.old.items ++ flat_map (spec.behind_comma spec.one_number) numbers.now) }
{
    for number in numbers {
        put_symbol(tokens, Symbol::Comma)?;
        tokens.push(number_token(*number))?;
    }
    Ok(())
}

/// Numbers with a comma between one and the next.
fn put_numbers(tokens: &mut Vec<Token>, numbers: &[u32]) -> Result<(), AllocError>
    ensures { OnOk result (tokens.new.items ≡ tokens.old.items ++ spec.listed spec.one_number numbers.now) }
{
    match numbers {
        [] => Ok(()),
        [first, others @ ..] => {
            tokens.push(number_token(*first))?;
            put_other_numbers(tokens, others)
        }
    }
}

/// An end of a range.
fn put_bound(tokens: &mut Vec<Token>, bound: i32) -> Result<(), AllocError>
    ensures { OnOk result (tokens.new.items ≡ tokens.old.items ++ spec.bound_tokens bound) }
{
    if bound < 0 {
        put_symbol(tokens, Symbol::Minus)?;
    }
    tokens.push(number_token(bound.unsigned_abs()))?;
    Ok(())
}

fn put_name(tokens: &mut Vec<Token>, name: &str) -> Result<(), AllocError>
    ensures { OnOk result (tokens.new.items ≡ tokens.old.items ++ spec.one_name name.now) }
{
    tokens.push(name_token(name))?;
    Ok(())
}

/// Both ends of a range.
fn put_bounds(tokens: &mut Vec<Token>, low: i32, high: i32) -> Result<(), AllocError>
    ensures { OnOk result (tokens.new.items ≡ tokens.old.items ++ spec.bounds_tokens low high) }
{
    put_bound(tokens, low)?;
    put_symbol(tokens, Symbol::DotDot)?;
    put_bound(tokens, high)
}

fn put_range(tokens: &mut Vec<Token>, range: &Range) -> Result<(), AllocError>
    ensures { OnOk result (tokens.new.items ≡ tokens.old.items ++ spec.range_tokens (range_of range.now)) }
{
    put_name(tokens, range.variable.as_str())?;
    put_bounds(tokens, range.low, range.high)
}

#[tactic(auto, using(crate::proofs::Lists::more))]
fn put_other_ranges(tokens: &mut Vec<Token>, ranges: &[Range]) -> Result<(), AllocError>
    ensures { OnOk result (tokens.new.items ≡ tokens.old.items ++ flat_map (spec.behind_comma spec.range_tokens) (map range_of ranges.now)) }
{
    for range in ranges {
        put_symbol(tokens, Symbol::Comma)?;
        put_range(tokens, range)?;
    }
    Ok(())
}

/// Ranges with a comma between one and the next.
fn put_ranges(tokens: &mut Vec<Token>, ranges: &[Range]) -> Result<(), AllocError>
    ensures { OnOk result (tokens.new.items ≡ tokens.old.items ++ spec.listed spec.range_tokens (map range_of ranges.now)) }
{
    match ranges {
        [] => Ok(()),
        [first, others @ ..] => {
            put_range(tokens, first)?;
            put_other_ranges(tokens, others)
        }
    }
}

/// Extents in brackets, and the end of the statement.
fn put_size(tokens: &mut Vec<Token>, extents: &[u32]) -> Result<(), AllocError>
    ensures { OnOk result (tokens.new.items ≡ tokens.old.items ++ (spec.size_tokens extents.now ++ spec.ended)) }
{
    put_symbol(tokens, Symbol::LeftBracket)?;
    put_numbers(tokens, extents)?;
    put_symbol(tokens, Symbol::RightBracket)?;
    put_symbol(tokens, Symbol::Semicolon)
}

/// A word of the grammar and a name.
fn put_declared(tokens: &mut Vec<Token>, word: Word, name: &str) -> Result<(), AllocError>
    ensures { OnOk result (tokens.new.items ≡ tokens.old.items ++ spec.declared word name.now) }
{
    tokens.push(Token::Word(word))?;
    tokens.push(name_token(name))?;
    Ok(())
}

/// `= expr ;`
fn put_right_side(tokens: &mut Vec<Token>, value: &Expr) -> Result<(), AllocError>
    ensures { OnOk result (tokens.new.items ≡ tokens.old.items ++ spec.right_side_tokens (term_of value.now)) }
{
    put_symbol(tokens, Symbol::Equals)?;
    put_term(tokens, value)?;
    put_symbol(tokens, Symbol::Semicolon)
}

fn put_input(tokens: &mut Vec<Token>, input: &Port) -> Result<(), AllocError>
    ensures { OnOk result (tokens.new.items ≡ tokens.old.items ++ spec.input_tokens (string_bytes input.now.name) input.now.shape.ty input.now.shape.extents.items) }
{
    put_declared(tokens, Word::Input, input.name.as_str())?;
    tokens.push(Token::Type(input.shape.ty))?;
    put_size(tokens, &input.shape.extents)
}

fn put_output(tokens: &mut Vec<Token>, output: &Port) -> Result<(), AllocError>
    ensures { OnOk result (tokens.new.items ≡ tokens.old.items ++ spec.output_tokens (string_bytes output.now.name) output.now.shape.extents.items) }
{
    put_declared(tokens, Word::Output, output.name.as_str())?;
    put_size(tokens, &output.shape.extents)
}

/// The pure definition of a function.
fn put_pure(tokens: &mut Vec<Token>, name: &str, function: &Function) -> Result<(), AllocError>
    ensures { OnOk result (tokens.new.items ≡ tokens.old.items
        ++ spec.pure_tokens name.now function.now.ty (names_of function.now.variables.items) (term_of function.now.value)) }
{
    put_declared(tokens, Word::Func, name)?;
    tokens.push(Token::Type(function.ty))?;
    put_symbol(tokens, Symbol::LeftParen)?;
    put_names(tokens, &function.variables)?;
    put_symbol(tokens, Symbol::RightParen)?;
    put_right_side(tokens, &function.value)
}

/// The domain of an update.
fn put_over(tokens: &mut Vec<Token>, ranges: &[Range]) -> Result<(), AllocError>
    ensures { OnOk result (tokens.new.items ≡ tokens.old.items ++ spec.over_tokens (map range_of ranges.now)) }
{
    tokens.push(Token::Word(Word::Over))?;
    put_symbol(tokens, Symbol::LeftParen)?;
    put_ranges(tokens, ranges)?;
    put_symbol(tokens, Symbol::RightParen)
}

/// The left side of an update, behind its domain.
fn put_left_side(tokens: &mut Vec<Token>, at: &[Expr]) -> Result<(), AllocError>
    ensures { OnOk result (tokens.new.items ≡ tokens.old.items ++ spec.left_tokens (list_terms at.now)) }
{
    put_symbol(tokens, Symbol::LeftBracket)?;
    put_row(tokens, at)?;
    put_symbol(tokens, Symbol::RightBracket)
}

/// An update of the function of this name.
fn put_update(tokens: &mut Vec<Token>, name: &str, update: &Update) -> Result<(), AllocError>
    ensures { OnOk result (tokens.new.items ≡ tokens.old.items ++ spec.change_tokens name.now (change_of update.now)) }
{
    put_declared(tokens, Word::Update, name)?;
    put_over(tokens, &update.ranges)?;
    put_left_side(tokens, &update.at)?;
    put_right_side(tokens, &update.value)
}

#[tactic(auto, using(crate::proofs::Lists::more))]
fn put_updates(tokens: &mut Vec<Token>, name: &str, updates: &[Update]) -> Result<(), AllocError>
    ensures { OnOk result (tokens.new.items ≡ tokens.old.items ++ flat_map (spec.change_tokens name.now) (map change_of updates.now)) }
{
    for update in updates {
        put_update(tokens, name, update)?;
    }
    Ok(())
}

fn put_function(
    tokens: &mut Vec<Token>,
    name: &String,
    function: &Function,
) -> Result<(), AllocError>
    ensures { OnOk result (tokens.new.items ≡ tokens.old.items ++ spec.function_tokens (function_of (name.now, function.now))) }
{
    put_pure(tokens, name.as_str(), function)?;
    put_updates(tokens, name.as_str(), &function.updates)
}

#[tactic(auto, using(crate::proofs::Lists::more_got))]
fn put_functions(
    tokens: &mut Vec<Token>,
    functions: &IndexMap<String, Function>,
) -> Result<(), AllocError>
    ensures { OnOk result (tokens.new.items ≡ tokens.old.items ++ flat_map spec.function_tokens (functions_of functions.now.entries)) }
{
    for number in 0..functions.len() {
        match functions.get_index(number) {
            Some((name, function)) => put_function(tokens, name, function)?,
            None => unreachable!(),
        }
    }
    Ok(())
}

/// The tokens of an algorithm's canonical text.
pub(crate) fn algorithm_tokens(alloc: Global, algo: &Algo) -> Result<Vec<Token>, AllocError>
    ensures { IfOk result (λ tokens. tokens.items ≡ spec.algorithm_tokens (algorithm_of algo.now)) }
{
    let mut tokens = Vec::new(alloc);
    put_declared(&mut tokens, Word::Pipeline, algo.name())?;
    put_symbol(&mut tokens, Symbol::Semicolon)?;
    put_input(&mut tokens, algo.input())?;
    put_functions(&mut tokens, algo.funcs())?;
    put_output(&mut tokens, algo.output())?;
    Ok(tokens)
}
