//! A text of the cut algorithm, to be read again: no blank is counted, and brackets stand where the grammar may want them.

use algo::{Algo, Function, Range, Update};
use numeric::{Comparison, Op, Ty};
use std::alloc::{AllocError, Global};
use tree::{Cond, Expr};

fn put(text: &mut String, word: &str) -> Result<(), AllocError> {
    text.push_str(word)?;
    Ok(())
}

fn put_number(alloc: Global, text: &mut String, number: i64) -> Result<(), AllocError> {
    let word = format!(in alloc; "{number}")?;
    put(text, word.as_str())
}

fn type_word(ty: Ty) -> &'static str {
    match ty {
        Ty::U8 => "u8",
        Ty::U16 => "u16",
        Ty::U32 => "u32",
        Ty::I8 => "i8",
        Ty::I16 => "i16",
        Ty::I32 => "i32",
    }
}

// What stands before an operator's left side, between its sides, and behind its right side.
fn head_of(op: Op) -> &'static str {
    match op {
        Op::Min => "min(",
        Op::Max => "max(",
        _ => "",
    }
}

fn sign(op: Op) -> &'static str {
    match op {
        Op::Add => " + ",
        Op::Sub => " - ",
        Op::Mul => " * ",
        Op::Div => " / ",
        Op::Rem => " % ",
        Op::Min | Op::Max => ", ",
    }
}

fn tail_of(op: Op) -> &'static str {
    match op {
        Op::Min | Op::Max => ")",
        _ => "",
    }
}

fn comparison(by: Comparison) -> &'static str {
    match by {
        Comparison::Less => " < ",
        Comparison::AtMost => " <= ",
        Comparison::Greater => " > ",
        Comparison::AtLeast => " >= ",
        Comparison::Equal => " == ",
        Comparison::Different => " != ",
    }
}

// Whether the expression stands in brackets as an operand.
fn wants_brackets(expr: &Expr) -> bool {
    match expr {
        Expr::Binary { op, .. } => !matches!(op, Op::Min | Op::Max),
        Expr::Negate { .. } => true,
        _ => false,
    }
}

// An expression before a word.
#[cycle(put)]
fn put_behind(alloc: Global, text: &mut String, expr: &Expr, word: &str) -> Result<(), AllocError> {
    put_expr(alloc, text, expr)?;
    put(text, word)
}

#[cycle(put)]
fn put_operand(alloc: Global, text: &mut String, expr: &Expr) -> Result<(), AllocError> {
    if wants_brackets(expr) {
        put(text, "(")?;
        put_behind(alloc, text, expr, ")")
    } else {
        put_expr(alloc, text, expr)
    }
}

#[cycle(put)]
fn put_row(alloc: Global, text: &mut String, row: &[Expr]) -> Result<(), AllocError> {
    for (place, expr) in row.iter().enumerate() {
        if place > 0 {
            put(text, ", ")?;
        }
        put_expr(alloc, text, expr)?;
    }
    Ok(())
}

fn put_literal(alloc: Global, text: &mut String, ty: Ty, number: i64) -> Result<(), AllocError> {
    put_number(alloc, text, number)?;
    if ty == Ty::I32 {
        Ok(())
    } else {
        put(text, type_word(ty))
    }
}

#[cycle(put)]
fn put_expr(alloc: Global, text: &mut String, expr: &Expr) -> Result<(), AllocError> {
    match expr {
        Expr::Literal { ty, number, .. } => put_literal(alloc, text, *ty, *number),
        Expr::Variable { name, .. } => put(text, name.as_str()),
        Expr::Call { name, at, .. } => {
            put(text, name.as_str())?;
            put(text, "[")?;
            put_row(alloc, text, at)?;
            put(text, "]")
        }
        Expr::Negate { value, .. } => {
            put(text, "-")?;
            put_operand(alloc, text, value)
        }
        Expr::Binary {
            op,
            left,
            right,
            ..
        } => {
            put(text, head_of(*op))?;
            put_operand(alloc, text, left)?;
            put(text, sign(*op))?;
            put_operand(alloc, text, right)?;
            put(text, tail_of(*op))
        }
        Expr::Clamp {
            value,
            low,
            high,
            ..
        } => {
            put(text, "clamp(")?;
            put_behind(alloc, text, value, ", ")?;
            put_behind(alloc, text, low, ", ")?;
            put_behind(alloc, text, high, ")")
        }
        Expr::Cast { ty, value, .. } => {
            put(text, type_word(*ty))?;
            put(text, "(")?;
            put_behind(alloc, text, value, ")")
        }
        Expr::Select { cond, yes, no, .. } => {
            put(text, "select(")?;
            put_cond_behind(alloc, text, cond, ", ")?;
            put_behind(alloc, text, yes, ", ")?;
            put_behind(alloc, text, no, ")")
        }
    }
}

// A condition before a word.
#[cycle(put)]
fn put_cond_behind(
    alloc: Global,
    text: &mut String,
    cond: &Cond,
    word: &str,
) -> Result<(), AllocError> {
    put_cond(alloc, text, cond)?;
    put(text, word)
}

#[cycle(put)]
fn put_cond(alloc: Global, text: &mut String, cond: &Cond) -> Result<(), AllocError> {
    match cond {
        Cond::Compare {
            by,
            left,
            right,
            ..
        } => {
            put_behind(alloc, text, left, comparison(*by))?;
            put_expr(alloc, text, right)
        }
        Cond::Not { cond, .. } => {
            put(text, "not(")?;
            put_cond_behind(alloc, text, cond, ")")
        }
        Cond::All { first, second, .. } => {
            put(text, "all(")?;
            put_cond_behind(alloc, text, first, ", ")?;
            put_cond_behind(alloc, text, second, ")")
        }
        Cond::Any { first, second, .. } => {
            put(text, "any(")?;
            put_cond_behind(alloc, text, first, ", ")?;
            put_cond_behind(alloc, text, second, ")")
        }
    }
}

fn put_names(text: &mut String, names: &[String]) -> Result<(), AllocError> {
    for (place, name) in names.iter().enumerate() {
        if place > 0 {
            put(text, ", ")?;
        }
        put(text, name.as_str())?;
    }
    Ok(())
}

fn put_ranges(alloc: Global, text: &mut String, ranges: &[Range]) -> Result<(), AllocError> {
    for (place, range) in ranges.iter().enumerate() {
        if place > 0 {
            put(text, ", ")?;
        }
        put(text, range.variable.as_str())?;
        put(text, " ")?;
        put_number(alloc, text, i64::from(range.low))?;
        put(text, "..")?;
        put_number(alloc, text, i64::from(range.high))?;
    }
    Ok(())
}

fn put_update(
    alloc: Global,
    text: &mut String,
    name: &str,
    update: &Update,
) -> Result<(), AllocError> {
    put(text, "update ")?;
    put(text, name)?;
    put(text, " over (")?;
    put_ranges(alloc, text, &update.ranges)?;
    put(text, ") [")?;
    put_row(alloc, text, &update.at)?;
    put(text, "] = ")?;
    put_expr(alloc, text, &update.value)?;
    put(text, ";\n")
}

fn put_function(
    alloc: Global,
    text: &mut String,
    name: &str,
    function: &Function,
) -> Result<(), AllocError> {
    put(text, "func ")?;
    put(text, name)?;
    put(text, " ")?;
    put(text, type_word(function.ty))?;
    put(text, " (")?;
    put_names(text, &function.variables)?;
    put(text, ") = ")?;
    put_expr(alloc, text, &function.value)?;
    put(text, ";\n")?;
    for update in &function.updates {
        put_update(alloc, text, name, update)?;
    }
    Ok(())
}

fn put_extents(alloc: Global, text: &mut String, extents: &[u32]) -> Result<(), AllocError> {
    put(text, " [")?;
    for (place, extent) in extents.iter().enumerate() {
        if place > 0 {
            put(text, ", ")?;
        }
        put_number(alloc, text, i64::from(*extent))?;
    }
    put(text, "];\n")
}

fn put_head(
    alloc: Global,
    text: &mut String,
    algo: &Algo,
    extents: &[u32],
) -> Result<(), AllocError> {
    put(text, "pipeline ")?;
    put(text, algo.name())?;
    put(text, ";\ninput ")?;
    put(text, algo.input().name.as_str())?;
    put(text, " ")?;
    put(text, type_word(algo.input().shape.ty))?;
    put_extents(alloc, text, extents)
}

/// A text of an algorithm, and where the statement of its input and those of each of its functions end.
#[derive(Drop)]
pub(crate) struct Written {
    pub text: String,
    pub ends: Vec<usize>,
}

/// A text of the algorithm with these functions and extents in place of its own. Nothing is promised of it: what is read from
/// it is compared.
pub(crate) fn text_of(
    alloc: Global,
    algo: &Algo,
    input_extents: &[u32],
    functions: &[(String, Function)],
    output_extents: &[u32],
) -> Result<Written, AllocError> {
    let mut text = String::new(alloc);
    let mut ends = Vec::new(alloc);
    put_head(alloc, &mut text, algo, input_extents)?;
    ends.push(text.len())?;
    for (name, function) in functions {
        put_function(alloc, &mut text, name.as_str(), function)?;
        ends.push(text.len())?;
    }
    put(&mut text, "output ")?;
    put(&mut text, algo.output().name.as_str())?;
    put_extents(alloc, &mut text, output_extents)?;
    Ok(Written { text, ends })
}
