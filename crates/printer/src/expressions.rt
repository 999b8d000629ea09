//! The tokens of expressions.

ghost use Rattle.std.specs.Prelude.{◌≡◌, ◌++◌, ◌∷◌, [], OnOk};
ghost use Rattle.tree.specs.Term.{term_of, test_of, list_terms, indices, Call};
ghost use Rattle.expr.specs.Grammar.{sign, comparison_symbol as symbol_of};
ghost use Rattle.printer.specs.Tokens as spec;

use numeric::{Comparison, Op, Ty};
use spelling::words::is_name;
use std::alloc::AllocError;
use tree::token::{Literal, Name, Symbol, Token, Word};
use tree::{Cond, Expr};

/// The token of a name; one that has no text where the bytes are no name.
#[tactic(auto, using(crate::proofs::Rows::name_is_ascii))]
pub(crate) fn name_token(name: &str) -> Token
    ensures { result ≡ spec.name_token name.now }
{
    let bytes = name.as_bytes();
    if is_name(bytes) {
        match Name::new(bytes) {
            Some(name) => Token::Name(name),
            None => unreachable!(),
        }
    } else {
        Token::LongName
    }
}

/// The type behind a literal, which an i32 leaves out.
fn suffix(ty: Ty) -> Option<Ty>
    ensures { result ≡ spec.suffix ty }
{
    match ty {
        Ty::I32 => None,
        _ => Some(ty),
    }
}

/// The token of a literal; one that has no text where the number is below 0 or takes more than 32 bits.
fn literal_token(ty: Ty, number: i64) -> Token
    ensures { result ≡ spec.literal_token ty number }
{
    if 0 <= number && number < 4_294_967_296 {
        Token::Number(Literal {
            value: number as u32,
            ty: suffix(ty),
        })
    } else {
        Token::LongName
    }
}

/// How strongly an operator binds: 0 a sum, 1 a product, 2 what stands alone.
fn op_rank(op: Op) -> u8
    ensures { result ≡ spec.op_rank op }
{
    match op {
        Op::Add | Op::Sub => 0,
        Op::Mul | Op::Div | Op::Rem => 1,
        Op::Min | Op::Max => 2,
    }
}

/// How strongly an expression binds.
fn rank(expr: &Expr) -> u8
    ensures { result ≡ spec.rank (term_of expr.now) }
{
    match expr {
        Expr::Binary { op, .. } => op_rank(*op),
        _ => 2,
    }
}

fn op_symbol(op: Op) -> Symbol
    ensures { result ≡ spec.op_symbol op }
{
    match op {
        Op::Add => Symbol::Plus,
        Op::Sub => Symbol::Minus,
        Op::Mul => Symbol::Star,
        Op::Div => Symbol::Slash,
        Op::Rem => Symbol::Percent,
        Op::Min | Op::Max => Symbol::Comma,
    }
}

/// How strongly an operator's left operand has to bind.
fn op_left(op: Op) -> u8
    ensures { result ≡ spec.op_left op }
{
    match op {
        Op::Mul | Op::Div | Op::Rem => 1,
        _ => 0,
    }
}

/// How strongly its right operand has to bind.
fn op_right(op: Op) -> u8
    ensures { result ≡ spec.op_right op }
{
    match op {
        Op::Add | Op::Sub => 1,
        Op::Mul | Op::Div | Op::Rem => 2,
        _ => 0,
    }
}

fn comparison_symbol(by: Comparison) -> Symbol
    ensures { result ≡ symbol_of by }
{
    match by {
        Comparison::Less => Symbol::Less,
        Comparison::AtMost => Symbol::LessEquals,
        Comparison::Greater => Symbol::Greater,
        Comparison::AtLeast => Symbol::GreaterEquals,
        Comparison::Equal => Symbol::EqualsEquals,
        Comparison::Different => Symbol::NotEquals,
    }
}

pub(crate) fn put_symbol(tokens: &mut Vec<Token>, symbol: Symbol) -> Result<(), AllocError>
    ensures { OnOk result (tokens.new.items ≡ tokens.old.items ++ sign symbol ∷ []) }
{
    tokens.push(Token::Symbol(symbol))?;
    Ok(())
}

/// A word of the grammar and the bracket behind it.
fn put_head(tokens: &mut Vec<Token>, word: Token) -> Result<(), AllocError>
    ensures { OnOk result (tokens.new.items ≡ tokens.old.items ++ word ∷ spec.opened) }
{
    tokens.push(word)?;
    put_symbol(tokens, Symbol::LeftParen)
}

/// What stands before an operator's left operand.
fn put_op_head(tokens: &mut Vec<Token>, op: Op) -> Result<(), AllocError>
    ensures { OnOk result (tokens.new.items ≡ tokens.old.items ++ spec.op_head op) }
{
    match op {
        Op::Min => put_head(tokens, Token::Word(Word::Min)),
        Op::Max => put_head(tokens, Token::Word(Word::Max)),
        _ => Ok(()),
    }
}

/// What stands behind its right operand.
fn put_op_tail(tokens: &mut Vec<Token>, op: Op) -> Result<(), AllocError>
    ensures { OnOk result (tokens.new.items ≡ tokens.old.items ++ spec.op_tail op) }
{
    match op {
        Op::Min | Op::Max => put_symbol(tokens, Symbol::RightParen),
        _ => Ok(()),
    }
}

/// What stands before an item of a list.
fn put_comma(tokens: &mut Vec<Token>, place: usize) -> Result<(), AllocError>
    ensures { OnOk result (tokens.new.items ≡ tokens.old.items ++ spec.comma_before place) }
{
    if place == 0 {
        Ok(())
    } else {
        put_symbol(tokens, Symbol::Comma)
    }
}

/// Adds the tokens of an expression, with brackets only where the grammar wants them.
#[cycle(put)]
pub(crate) fn put_term(tokens: &mut Vec<Token>, expr: &Expr) -> Result<(), AllocError>
    ensures { OnOk result (tokens.new.items ≡ tokens.old.items ++ spec.term_tokens (term_of expr.now)) }
{
    match expr {
        Expr::Literal { ty, number, .. } => {
            tokens.push(literal_token(*ty, *number))?;
            Ok(())
        }
        Expr::Variable { name, .. } => {
            tokens.push(name_token(name.as_str()))?;
            Ok(())
        }
        Expr::Call { name, at, .. } => put_call(tokens, name.as_str(), at),
        Expr::Negate { value, .. } => {
            put_symbol(tokens, Symbol::Minus)?;
            put_placed(tokens, 2, value)
        }
        Expr::Binary {
            op,
            left,
            right,
            ..
        } => {
            put_op_head(tokens, *op)?;
            put_placed(tokens, op_left(*op), left)?;
            put_symbol(tokens, op_symbol(*op))?;
            put_placed(tokens, op_right(*op), right)?;
            put_op_tail(tokens, *op)
        }
        Expr::Clamp {
            value,
            low,
            high,
            ..
        } => {
            put_head(tokens, Token::Word(Word::Clamp))?;
            put_behind(tokens, value, Symbol::Comma)?;
            put_behind(tokens, low, Symbol::Comma)?;
            put_behind(tokens, high, Symbol::RightParen)
        }
        Expr::Cast { ty, value, .. } => {
            put_head(tokens, Token::Type(*ty))?;
            put_behind(tokens, value, Symbol::RightParen)
        }
        Expr::Select { cond, yes, no, .. } => {
            put_head(tokens, Token::Word(Word::Select))?;
            put_test_behind(tokens, cond, Symbol::Comma)?;
            put_behind(tokens, yes, Symbol::Comma)?;
            put_behind(tokens, no, Symbol::RightParen)
        }
    }
}

/// An expression before a symbol.
#[cycle(put)]
fn put_behind(tokens: &mut Vec<Token>, expr: &Expr, symbol: Symbol) -> Result<(), AllocError>
    ensures { OnOk result (tokens.new.items ≡ tokens.old.items ++ (spec.term_tokens (term_of expr.now) ++ sign symbol ∷ [])) }
{
    put_term(tokens, expr)?;
    put_symbol(tokens, symbol)
}

/// An expression, in brackets where it binds less than is wanted.
#[cycle(put)]
fn put_placed(tokens: &mut Vec<Token>, wanted: u8, expr: &Expr) -> Result<(), AllocError>
    ensures { OnOk result (tokens.new.items ≡ tokens.old.items ++ spec.placed wanted (spec.rank (term_of expr.now)) (spec.term_tokens (term_of expr.now))) }
{
    if rank(expr) < wanted {
        put_symbol(tokens, Symbol::LeftParen)?;
        put_behind(tokens, expr, Symbol::RightParen)
    } else {
        put_term(tokens, expr)
    }
}

/// The token of what is called; one that has no text where there is no index.
#[tactic(auto, using(crate::proofs::Rows::called_some, crate::proofs::Rows::called_none))]
fn called_token(name: &str, at: &[Expr]) -> Token
    ensures { result ≡ spec.called_token name.now (indices (list_terms at.now)) }
{
    if at.is_empty() {
        Token::LongName
    } else {
        name_token(name)
    }
}

/// A call: the name, and in brackets the indices.
#[cycle(put)]
fn put_call(tokens: &mut Vec<Token>, name: &str, at: &[Expr]) -> Result<(), AllocError>
    ensures { OnOk result (tokens.new.items ≡ tokens.old.items ++ spec.term_tokens (Call name.now (indices (list_terms at.now)))) }
{
    tokens.push(called_token(name, at))?;
    put_symbol(tokens, Symbol::LeftBracket)?;
    put_row(tokens, at)?;
    put_symbol(tokens, Symbol::RightBracket)
}

/// Expressions with a comma between one and the next.
#[cycle(put)]
pub(crate) fn put_row(tokens: &mut Vec<Token>, at: &[Expr]) -> Result<(), AllocError>
    ensures { OnOk result (tokens.new.items ≡ tokens.old.items ++ spec.row_tokens (indices (list_terms at.now))) }
{
    for (i, index) in at.iter().enumerate() {
        put_comma(tokens, i)?;
        put_term(tokens, index)?;
    }
    Ok(())
}

/// A condition.
#[cycle(put)]
fn put_test(tokens: &mut Vec<Token>, cond: &Cond) -> Result<(), AllocError>
    ensures { OnOk result (tokens.new.items ≡ tokens.old.items ++ spec.test_tokens (test_of cond.now)) }
{
    match cond {
        Cond::Compare {
            by,
            left,
            right,
            ..
        } => {
            put_behind(tokens, left, comparison_symbol(*by))?;
            put_term(tokens, right)
        }
        Cond::Not { cond, .. } => {
            put_head(tokens, Token::Word(Word::Not))?;
            put_test_behind(tokens, cond, Symbol::RightParen)
        }
        Cond::All { first, second, .. } => {
            put_head(tokens, Token::Word(Word::All))?;
            put_test_behind(tokens, first, Symbol::Comma)?;
            put_test_behind(tokens, second, Symbol::RightParen)
        }
        Cond::Any { first, second, .. } => {
            put_head(tokens, Token::Word(Word::Any))?;
            put_test_behind(tokens, first, Symbol::Comma)?;
            put_test_behind(tokens, second, Symbol::RightParen)
        }
    }
}

/// A condition before a symbol.
#[cycle(put)]
fn put_test_behind(tokens: &mut Vec<Token>, cond: &Cond, symbol: Symbol) -> Result<(), AllocError>
    ensures { OnOk result (tokens.new.items ≡ tokens.old.items ++ (spec.test_tokens (test_of cond.now) ++ sign symbol ∷ [])) }
{
    put_test(tokens, cond)?;
    put_symbol(tokens, symbol)
}
