//! Reading expressions, without a look at what stands between their parts: the first byte of a part tells what it is,
//! and a byte that should be a sign or a bracket is skipped.

ghost use Rattle.std.specs.Prelude.{◌≡◌, ◌≤◌, [], IfOk, length, slice_index, string_bytes};
ghost use Rattle.std.specs.List.{AllPass, prefix_len};
ghost use Rattle.tree.specs.Token.Lexical as lexical;
ghost use Rattle.tree.specs.Term.{term_of, test_of, list_terms, indices};
ghost use Rattle.tree.specs.Term.{Number, Name, Call, Minus, Binary, Clamp, Cast, Choice};
ghost use Rattle.tree.specs.Term.{Compares, Fails, Both, Either};
ghost use Rattle.spelling.specs.Terms.Reading as spec;

use crate::terms::fitting::MAX_BRACKETS;
use crate::terms::writing::comparison_text;
use crate::words::{begins, number_from, skip};
use numeric::{Comparison, Op, Ty};
use std::alloc::{AllocError, Global};
use tree::token::{Span, Word, type_text};
use tree::{Cond, Expr};

/// The first byte, 0 of an empty text.
fn first(text: &[u8]) -> u8
    ensures { result ≡ slice_index text.now 0 }
{
    if text.is_empty() { 0 } else { text[0] }
}

/// Whether the byte is a letter, a digit, `_` or `@`.
fn is_name_byte(byte: u8) -> bool
    ensures { result ≡ spec.is_name_byte byte }
{
    byte.is_ascii_alphanumeric() || byte == b'_' || byte == b'@'
}

/// How many such bytes stand at the front.
fn word_len(text: &[u8]) -> usize
    ensures len { result ≡ prefix_len spec.is_name_byte text.now }
    ensures within { result ≤ length text.now }
{
    for (i, byte) in text.iter().enumerate() {
        if !is_name_byte(*byte) {
            return i;
        }
    }
    text.len()
}

/// The longest run of letters, digits, `_` and `@`, and what follows it.
#[tactic(auto, using(tree::proofs::Fronts::front_passes))]
fn split_word(text: &[u8]) -> (&[u8], &[u8])
    ensures passes { AllPass spec.is_name_byte result.0.now }
    ensures word { result.0.now ≡ spec.word_of text.now }
    ensures rest { result.1.now ≡ spec.after_word text.now }
{
    text.split_at(word_len(text))
}

const TYPES: [Ty; 6] = [Ty::U8, Ty::U16, Ty::U32, Ty::I8, Ty::I16, Ty::I32];

/// The type that is spelled so.
#[tactic(auto, unfolding(tree::specs::Token::Lexical::type_named))]
fn type_named(word: &[u8]) -> Option<Ty>
    ensures { result ≡ lexical.type_named word.now }
{
    TYPES
        .iter()
        .copied()
        .find(|ty| type_text(*ty).as_bytes() == word)
}

const HEADS: [Word; 7] = [
    Word::Min,
    Word::Max,
    Word::Clamp,
    Word::Select,
    Word::Not,
    Word::All,
    Word::Any,
];

/// The word of the grammar that is spelled so and begins an expression or a condition.
#[tactic(auto, unfolding(crate::specs::Terms::Reading::head_named))]
fn head_named(word: &[u8]) -> Option<Word>
    ensures { result ≡ spec.head_named word.now }
{
    HEADS
        .iter()
        .copied()
        .find(|head| head.text().as_bytes() == word)
}

/// A number, and the type behind it, or an i32 where none stands there.
#[tactic(auto, unfolding(crate::specs::Terms::Reading::literal_at))]
fn literal(text: &[u8]) -> (Expr, &[u8])
    ensures term { term_of result.0 ≡ (spec.literal_at text.now).0 }
    ensures rest { result.1.now ≡ (spec.literal_at text.now).1 }
{
    let (number, rest) = number_from(text);
    let (suffix, rest) = split_word(rest);
    let ty = type_named(suffix).unwrap_or(Ty::I32);
    (new_number(ty, number), rest)
}

/// The operator that the byte is.
fn operator_of(byte: u8) -> Op
    ensures { result ≡ spec.operator_of byte }
{
    match byte {
        b'+' => Op::Add,
        b'-' => Op::Sub,
        b'*' => Op::Mul,
        b'/' => Op::Div,
        _ => Op::Rem,
    }
}

/// The comparison that the two first bytes are.
fn comparison_of(text: &[u8]) -> Comparison
    ensures { result ≡ spec.comparison_of text.now }
{
    let or_equal = begins(b'=', skip(1, text));
    if begins(b'<', text) {
        if or_equal {
            Comparison::AtMost
        } else {
            Comparison::Less
        }
    } else if begins(b'>', text) {
        if or_equal {
            Comparison::AtLeast
        } else {
            Comparison::Greater
        }
    } else if begins(b'=', text) {
        Comparison::Equal
    } else {
        Comparison::Different
    }
}

/// The place of each node: that of what was read tells nothing.
const NOWHERE: Span = Span { start: 0, end: 0 };

fn new_number(ty: Ty, number: i64) -> Expr
    ensures { term_of result ≡ Number ty number }
{
    Expr::Literal {
        ty,
        number,
        span: NOWHERE,
    }
}

fn new_variable(name: String) -> Expr
    ensures { term_of result ≡ Name (string_bytes name) }
{
    Expr::Variable {
        name,
        span: NOWHERE,
    }
}

fn new_call(name: String, at: Vec<Expr>) -> Expr
    ensures { term_of result ≡ Call (string_bytes name) (indices (list_terms at.items)) }
{
    Expr::Call {
        name,
        at,
        span: NOWHERE,
    }
}

fn new_negation(alloc: Global, value: Expr) -> Result<Expr, AllocError>
    ensures { IfOk result (λ e. term_of e ≡ Minus (term_of value)) }
{
    Ok(Expr::Negate {
        value: Box::new(alloc, value)?,
        span: NOWHERE,
    })
}

fn new_binary(alloc: Global, op: Op, left: Expr, right: Expr) -> Result<Expr, AllocError>
    ensures { IfOk result (λ e. term_of e ≡ Binary op (term_of left) (term_of right)) }
{
    Ok(Expr::Binary {
        op,
        left: Box::new(alloc, left)?,
        right: Box::new(alloc, right)?,
        span: NOWHERE,
    })
}

fn new_clamp(alloc: Global, value: Expr, low: Expr, high: Expr) -> Result<Expr, AllocError>
    ensures { IfOk result (λ e. term_of e ≡ Clamp (term_of value) (term_of low) (term_of high)) }
{
    Ok(Expr::Clamp {
        value: Box::new(alloc, value)?,
        low: Box::new(alloc, low)?,
        high: Box::new(alloc, high)?,
        span: NOWHERE,
    })
}

fn new_cast(alloc: Global, ty: Ty, value: Expr) -> Result<Expr, AllocError>
    ensures { IfOk result (λ e. term_of e ≡ Cast ty (term_of value)) }
{
    Ok(Expr::Cast {
        ty,
        value: Box::new(alloc, value)?,
        span: NOWHERE,
    })
}

fn new_select(alloc: Global, cond: Cond, yes: Expr, no: Expr) -> Result<Expr, AllocError>
    ensures { IfOk result (λ e. term_of e ≡ Choice (test_of cond) (term_of yes) (term_of no)) }
{
    Ok(Expr::Select {
        cond: Box::new(alloc, cond)?,
        yes: Box::new(alloc, yes)?,
        no: Box::new(alloc, no)?,
        span: NOWHERE,
    })
}

fn new_comparison(by: Comparison, left: Expr, right: Expr) -> Cond
    ensures { test_of result ≡ Compares by (term_of left) (term_of right) }
{
    Cond::Compare {
        by,
        left,
        right,
        span: NOWHERE,
    }
}

fn new_not(alloc: Global, cond: Cond) -> Result<Cond, AllocError>
    ensures { IfOk result (λ c. test_of c ≡ Fails (test_of cond)) }
{
    Ok(Cond::Not {
        cond: Box::new(alloc, cond)?,
        span: NOWHERE,
    })
}

fn new_all(alloc: Global, first: Cond, second: Cond) -> Result<Cond, AllocError>
    ensures { IfOk result (λ c. test_of c ≡ Both (test_of first) (test_of second)) }
{
    Ok(Cond::All {
        first: Box::new(alloc, first)?,
        second: Box::new(alloc, second)?,
        span: NOWHERE,
    })
}

fn new_any(alloc: Global, first: Cond, second: Cond) -> Result<Cond, AllocError>
    ensures { IfOk result (λ c. test_of c ≡ Either (test_of first) (test_of second)) }
{
    Ok(Cond::Any {
        first: Box::new(alloc, first)?,
        second: Box::new(alloc, second)?,
        span: NOWHERE,
    })
}

/// What stands in brackets, where so many may be open in it.
#[cycle(read)]
fn part<'a>(alloc: Global, brackets: usize, text: &'a [u8]) -> Result<(Expr, &'a [u8]), AllocError>
    ensures term { IfOk result (λ r. term_of r.0 ≡ ((spec.within brackets).term text.now).0) }
    ensures rest { IfOk result (λ r. r.1.now ≡ ((spec.within brackets).term text.now).1) }
{
    if brackets == 0 {
        return Ok((new_number(Ty::I32, 0), text));
    }
    node(alloc, brackets - 1, text)
}

/// An expression, where so many brackets may be open in its own.
#[cycle(read)]
#[tactic(auto, unfolding(crate::specs::Terms::Reading::term_at))]
fn node<'a>(alloc: Global, below: usize, text: &'a [u8]) -> Result<(Expr, &'a [u8]), AllocError>
    ensures term { IfOk result (λ r. term_of r.0 ≡ (spec.term_at (spec.within below) text.now).0) }
    ensures rest { IfOk result (λ r. r.1.now ≡ (spec.term_at (spec.within below) text.now).1) }
{
    if begins(b'(', text) {
        bracketed(alloc, below, skip(1, text))
    } else if first(text).is_ascii_digit() {
        Ok(literal(text))
    } else {
        word(alloc, below, text)
    }
}

/// A negation or an operator, after its opening bracket.
#[cycle(read)]
#[tactic(auto, unfolding(crate::specs::Terms::Reading::brackets_at))]
fn bracketed<'a>(
    alloc: Global,
    below: usize,
    text: &'a [u8],
) -> Result<(Expr, &'a [u8]), AllocError>
    ensures term { IfOk result (λ r. term_of r.0 ≡ (spec.brackets_at (spec.within below) text.now).0) }
    ensures rest { IfOk result (λ r. r.1.now ≡ (spec.brackets_at (spec.within below) text.now).1) }
{
    if begins(b'-', text) {
        let (value, rest) = part(alloc, below, skip(1, text))?;
        return Ok((new_negation(alloc, value)?, skip(1, rest)));
    }
    let (left, sign) = part(alloc, below, text)?;
    let (right, rest) = part(alloc, below, skip(1, sign))?;
    let binary = new_binary(alloc, operator_of(first(sign)), left, right)?;
    Ok((binary, skip(1, rest)))
}

/// What a word begins.
#[cycle(read)]
#[tactic(auto, unfolding(crate::specs::Terms::Reading::word_at))]
fn word<'a>(alloc: Global, below: usize, text: &'a [u8]) -> Result<(Expr, &'a [u8]), AllocError>
    ensures term { IfOk result (λ r. term_of r.0 ≡ (spec.word_at (spec.within below) text.now).0) }
    ensures rest { IfOk result (λ r. r.1.now ≡ (spec.word_at (spec.within below) text.now).1) }
{
    let (name, rest) = split_word(text);
    if let Some(ty) = type_named(name) {
        return cast(alloc, below, ty, rest);
    }
    match head_named(name) {
        Some(Word::Min) => extreme(alloc, below, Op::Min, rest),
        Some(Word::Max) => extreme(alloc, below, Op::Max, rest),
        Some(Word::Clamp) => clamp(alloc, below, rest),
        Some(Word::Select) => select(alloc, below, rest),
        _ => named(alloc, below, name, rest),
    }
}

/// A cast, after its type.
#[cycle(read)]
#[tactic(auto, unfolding(crate::specs::Terms::Reading::cast_at))]
fn cast<'a>(
    alloc: Global,
    below: usize,
    ty: Ty,
    text: &'a [u8],
) -> Result<(Expr, &'a [u8]), AllocError>
    ensures term { IfOk result (λ r. term_of r.0 ≡ (spec.cast_at (spec.within below) ty text.now).0) }
    ensures rest { IfOk result (λ r. r.1.now ≡ (spec.cast_at (spec.within below) ty text.now).1) }
{
    let (value, rest) = part(alloc, below, skip(1, text))?;
    Ok((new_cast(alloc, ty, value)?, skip(1, rest)))
}

/// A smaller or greater of two, after its word.
#[cycle(read)]
#[tactic(auto, unfolding(crate::specs::Terms::Reading::extreme_at))]
fn extreme<'a>(
    alloc: Global,
    below: usize,
    op: Op,
    text: &'a [u8],
) -> Result<(Expr, &'a [u8]), AllocError>
    ensures term { IfOk result (λ r. term_of r.0 ≡ (spec.extreme_at (spec.within below) op text.now).0) }
    ensures rest { IfOk result (λ r. r.1.now ≡ (spec.extreme_at (spec.within below) op text.now).1) }
{
    let (left, rest) = part(alloc, below, skip(1, text))?;
    let (right, rest) = part(alloc, below, skip(1, rest))?;
    Ok((new_binary(alloc, op, left, right)?, skip(1, rest)))
}

/// A clamp, after its word.
#[cycle(read)]
#[tactic(auto, unfolding(crate::specs::Terms::Reading::clamp_at))]
fn clamp<'a>(alloc: Global, below: usize, text: &'a [u8]) -> Result<(Expr, &'a [u8]), AllocError>
    ensures term { IfOk result (λ r. term_of r.0 ≡ (spec.clamp_at (spec.within below) text.now).0) }
    ensures rest { IfOk result (λ r. r.1.now ≡ (spec.clamp_at (spec.within below) text.now).1) }
{
    let (value, rest) = part(alloc, below, skip(1, text))?;
    let (low, rest) = part(alloc, below, skip(1, rest))?;
    let (high, rest) = part(alloc, below, skip(1, rest))?;
    Ok((new_clamp(alloc, value, low, high)?, skip(1, rest)))
}

/// A choice, after its word.
#[cycle(read)]
#[tactic(auto, unfolding(crate::specs::Terms::Reading::choice_at))]
fn select<'a>(alloc: Global, below: usize, text: &'a [u8]) -> Result<(Expr, &'a [u8]), AllocError>
    ensures term { IfOk result (λ r. term_of r.0 ≡ (spec.choice_at (spec.within below) text.now).0) }
    ensures rest { IfOk result (λ r. r.1.now ≡ (spec.choice_at (spec.within below) text.now).1) }
{
    let (cond, rest) = condition(alloc, below, skip(1, text))?;
    let (yes, rest) = part(alloc, below, skip(1, rest))?;
    let (no, rest) = part(alloc, below, skip(1, rest))?;
    Ok((new_select(alloc, cond, yes, no)?, skip(1, rest)))
}

/// A name, or a call where an opening bracket follows.
#[cycle(read)]
#[tactic(auto, unfolding(crate::specs::Terms::Reading::named_at))]
fn named<'a>(
    alloc: Global,
    below: usize,
    name: &[u8],
    text: &'a [u8],
) -> Result<(Expr, &'a [u8]), AllocError>
    requires { AllPass spec.is_name_byte name.now }
    ensures term { IfOk result (λ r. term_of r.0 ≡ (spec.named_at (spec.within below) name.now text.now).0) }
    ensures rest { IfOk result (λ r. r.1.now ≡ (spec.named_at (spec.within below) name.now text.now).1) }
{
    let name = owned(alloc, name)?;
    if begins(b'[', text) {
        let (at, rest) = indices(alloc, below, skip(1, text))?;
        Ok((new_call(name, at), skip(1, rest)))
    } else {
        Ok((new_variable(name), text))
    }
}

/// A name in memory of its own.
#[tactic(auto, using(crate::proofs::Names::name_is_utf8))]
fn owned(alloc: Global, name: &[u8]) -> Result<String, AllocError>
    requires { AllPass spec.is_name_byte name.now }
    ensures { IfOk result (λ s. string_bytes s ≡ name.now) }
{
    String::from_utf8_lossy(alloc, name)
}

/// The indices of a call, after its opening bracket.
#[cycle(read)]
#[tactic(auto, unfolding(crate::specs::Terms::Reading::indices_at))]
fn indices<'a>(
    alloc: Global,
    below: usize,
    text: &'a [u8],
) -> Result<(Vec<Expr>, &'a [u8]), AllocError>
    ensures terms { IfOk result (λ r. list_terms r.0.items ≡ (spec.indices_at (spec.within below) text.now).0) }
    ensures rest { IfOk result (λ r. r.1.now ≡ (spec.indices_at (spec.within below) text.now).1) }
{
    let mut found = Vec::new(alloc);
    let mut rest = text;
    for _ in 0..text.len() {
        let (index, next) = part(alloc, below, rest)?;
        found.push(index)?;
        if !begins(b',', next) {
            return Ok((found, next));
        }
        rest = skip(1, next);
    }
    Ok((found, rest))
}

/// A condition that stands in brackets, where so many may be open in it.
#[cycle(read)]
fn condition<'a>(
    alloc: Global,
    brackets: usize,
    text: &'a [u8],
) -> Result<(Cond, &'a [u8]), AllocError>
    ensures test { IfOk result (λ r. test_of r.0 ≡ ((spec.within brackets).test text.now).0) }
    ensures rest { IfOk result (λ r. r.1.now ≡ ((spec.within brackets).test text.now).1) }
{
    if brackets == 0 {
        let left = new_number(Ty::I32, 0);
        let right = new_number(Ty::I32, 0);
        return Ok((new_comparison(Comparison::Less, left, right), text));
    }
    test(alloc, brackets - 1, text)
}

/// A condition, where so many brackets may be open in its own.
#[cycle(read)]
#[tactic(auto, unfolding(crate::specs::Terms::Reading::test_at))]
fn test<'a>(alloc: Global, below: usize, text: &'a [u8]) -> Result<(Cond, &'a [u8]), AllocError>
    ensures test { IfOk result (λ r. test_of r.0 ≡ (spec.test_at (spec.within below) text.now).0) }
    ensures rest { IfOk result (λ r. r.1.now ≡ (spec.test_at (spec.within below) text.now).1) }
{
    let (name, rest) = split_word(text);
    match head_named(name) {
        Some(Word::Not) => denied(alloc, below, rest),
        Some(Word::All) => {
            let (first, second, rest) = both(alloc, below, rest)?;
            Ok((new_all(alloc, first, second)?, rest))
        }
        Some(Word::Any) => {
            let (first, second, rest) = both(alloc, below, rest)?;
            Ok((new_any(alloc, first, second)?, rest))
        }
        _ => compared(alloc, below, text),
    }
}

/// A comparison.
#[cycle(read)]
#[tactic(auto, unfolding(crate::specs::Terms::Reading::compared_at))]
fn compared<'a>(alloc: Global, below: usize, text: &'a [u8]) -> Result<(Cond, &'a [u8]), AllocError>
    ensures test { IfOk result (λ r. test_of r.0 ≡ (spec.compared_at (spec.within below) text.now).0) }
    ensures rest { IfOk result (λ r. r.1.now ≡ (spec.compared_at (spec.within below) text.now).1) }
{
    let (left, rest) = node(alloc, below, text)?;
    let by = comparison_of(rest);
    let (right, rest) = node(alloc, below, skip(comparison_text(by).len(), rest))?;
    Ok((new_comparison(by, left, right), rest))
}

/// What a `not` denies, after that word.
#[cycle(read)]
#[tactic(auto, unfolding(crate::specs::Terms::Reading::denied_at))]
fn denied<'a>(alloc: Global, below: usize, text: &'a [u8]) -> Result<(Cond, &'a [u8]), AllocError>
    ensures test { IfOk result (λ r. test_of r.0 ≡ (spec.denied_at (spec.within below) text.now).0) }
    ensures rest { IfOk result (λ r. r.1.now ≡ (spec.denied_at (spec.within below) text.now).1) }
{
    let (cond, rest) = condition(alloc, below, skip(1, text))?;
    Ok((new_not(alloc, cond)?, skip(1, rest)))
}

/// Two conditions, after the word before their brackets.
#[cycle(read)]
#[tactic(auto, unfolding(crate::specs::Terms::Reading::both_at))]
fn both<'a>(
    alloc: Global,
    below: usize,
    text: &'a [u8],
) -> Result<(Cond, Cond, &'a [u8]), AllocError>
    ensures first { IfOk result (λ r. test_of r.0 ≡ (spec.both_at (spec.within below) text.now).0.0) }
    ensures second { IfOk result (λ r. test_of r.1 ≡ (spec.both_at (spec.within below) text.now).0.1) }
    ensures rest { IfOk result (λ r. r.2.now ≡ (spec.both_at (spec.within below) text.now).1) }
{
    let (first, rest) = condition(alloc, below, skip(1, text))?;
    let (second, rest) = condition(alloc, below, skip(1, rest))?;
    Ok((first, second, skip(1, rest)))
}

/// Some expression at the front of a text, and what follows it. The text of an expression that fits is read as that
/// expression, where no letter, digit, `_`, `@` or `[` follows it; any other text is read as anything. Its nodes have
/// the place 0..0. Of brackets within brackets at most 256 are followed.
#[tactic(auto, unfolding(crate::specs::Terms::Reading::term_from))]
pub fn term_from<'a>(alloc: Global, text: &'a [u8]) -> Result<(Expr, &'a [u8]), AllocError>
    ensures term { IfOk result (λ r. term_of r.0 ≡ (spec.term_from text.now).0) }
    ensures rest { IfOk result (λ r. r.1.now ≡ (spec.term_from text.now).1) }
{
    node(alloc, MAX_BRACKETS, text)
}
