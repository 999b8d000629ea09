//! Nodes of a tree, each made only where it is within the limits.

ghost use Rattle.std.specs.Prelude.{◌≡◌, ◌≤◌, ◌<◌, ℕ, ◌+◌, ◌*◌, ◌++◌, ◌∷◌, [], List, length, IfOk, ◌⊎◌, string_bytes};
ghost use Rattle.tree.specs.Term as term;
ghost use Rattle.tree.specs.Term.{term_of, test_of, list_terms, indices};
ghost use Rattle.tree.specs.Tree.{node_count, cond_count, node_counts, depth as levels_of, test_depth, depths};
ghost use Rattle.expr.specs.Parsing as spec;
ghost use Rattle.expr.specs.Parsing.{Gives};
ghost use Rattle.tree.specs.declared.token.token.Lexeme.{Lexeme};
ghost use Rattle.tree.specs.declared.token.token.Token.TheVariants as token;
ghost use Rattle.tree.specs.declared.token.token.Word.TheVariants as word;
ghost use Rattle.expr.specs.Places.{Covers, One, NumberOf, ExtremeOf, Part, Stands, TestStands, AllStand, signed, operated, compared, called, of_one, of_two, of_three, joint_word};

use crate::error::{Refusal, Stop};
use numeric::{Comparison, Op, Ty};
use std::alloc::{AllocError, Global};
use tree::token::{Literal, Name, Span};
use tree::{Cond, Expr};

/// How many nodes an expression has at most.
pub const MAX_NODES: u32 = 512;

/// An expression within the limits, how large it is, and what part of the text it was read from, with the
/// brackets round it.
#[derive(Drop)]
pub(crate) struct Measured {
    pub(crate) expr: Expr,
    pub(crate) extent: Span,
    pub(crate) nodes: u32,
    pub(crate) depth: u32,
    pub ghost counted: { nodes ≡ node_count (term_of expr) },
    pub ghost sounded: { depth ≡ levels_of (term_of expr) },
    pub ghost few: { nodes ≤ 512 },
    pub ghost shallow: { depth ≤ 256 },
}

/// A condition within the limits, and how large it is.
#[derive(Drop)]
pub(crate) struct MeasuredCond {
    pub(crate) cond: Cond,
    pub(crate) nodes: u32,
    pub(crate) depth: u32,
    pub ghost counted: { nodes ≡ cond_count (test_of cond) },
    pub ghost sounded: { depth ≡ test_depth (test_of cond) },
    pub ghost few: { nodes ≤ 512 },
    pub ghost shallow: { depth ≤ 256 },
}

/// The indices of a call, and how large they are together.
#[derive(Drop)]
pub(crate) struct Indices {
    pub(crate) items: Vec<Expr>,
    pub(crate) nodes: u32,
    pub(crate) depth: u32,
    pub ghost counted: { nodes ≡ node_counts (indices (list_terms items.items)) },
    pub ghost sounded: { depth ≡ depths (indices (list_terms items.items)) },
    pub ghost few: { nodes ≤ 512 * length items.items },
    pub ghost shallow: { depth ≤ 256 },
}

// The expression, if it is within the limits: at most `below` levels below its top.
#[tactic(auto, unfolding(crate::specs::Parsing::fitted))]
fn fitted(expr: Expr, extent: Span, nodes: u32, depth: u32, below: u8) -> Result<Measured, Stop>
    requires counted { nodes ≡ node_count (term_of expr) }
    requires sounded { depth ≡ levels_of (term_of expr) }
    ensures read { Gives (λ m. term_of m.expr) result (spec.fitted 512 below (term_of expr)) }
    ensures kept { IfOk result (λ m. (m.expr ≡ expr) × (m.extent ≡ extent)) }
{
    if nodes > MAX_NODES || depth > u32::from(below) + 1 {
        return Err(Stop::Refused(Refusal::TooLarge));
    }
    Ok(Measured {
        expr,
        extent,
        nodes,
        depth,
    })
}

// The same of a condition.
#[tactic(auto, unfolding(crate::specs::Parsing::cond_fitted))]
fn cond_fitted(cond: Cond, nodes: u32, depth: u32, below: u8) -> Result<MeasuredCond, Stop>
    requires counted { nodes ≡ cond_count (test_of cond) }
    requires sounded { depth ≡ test_depth (test_of cond) }
    ensures read { Gives (λ m. test_of m.cond) result (spec.cond_fitted 512 below (test_of cond)) }
    ensures kept { IfOk result (λ m. m.cond ≡ cond) }
{
    if nodes > MAX_NODES || depth > u32::from(below) + 1 {
        return Err(Stop::Refused(Refusal::TooLarge));
    }
    Ok(MeasuredCond { cond, nodes, depth })
}

pub(crate) fn number(literal: Literal, span: Span, below: u8) -> Result<Measured, Stop>
    ensures read { Gives (λ m. term_of m.expr) result (spec.fitted 512 below (spec.literal literal)) }
    ensures at { IfOk result (λ m. m.extent ≡ span) }
    ensures stands { IfOk result (λ m. (ls : List Lexeme) → Covers ls span → One (token.Number literal) ls → Stands m.expr ls) }
{
    let expr = Expr::Literal {
        ty: literal.ty.unwrap_or(Ty::I32),
        number: i64::from(literal.value),
        span,
    };
    fitted(expr, span, 1, 1, below)
}

pub(crate) fn variable(alloc: Global, name: Name, span: Span, below: u8) -> Result<Measured, Stop>
    ensures read { Gives (λ m. term_of m.expr) result (spec.fitted 512 below (term.Name name)) }
    ensures at { IfOk result (λ m. m.extent ≡ span) }
    ensures stands { IfOk result (λ m. (ls : List Lexeme) → Covers ls span → One (token.Name name) ls → Stands m.expr ls) }
{
    let name = String::from_str(alloc, name.as_str())?;
    fitted(Expr::Variable { name, span }, span, 1, 1, below)
}

pub(crate) fn call(
    alloc: Global,
    name: Name,
    at: Indices,
    span: Span,
    below: u8,
) -> Result<Measured, Stop>
    requires { length at.items.items ≤ 512 }
    ensures read { Gives (λ m. term_of m.expr) result (spec.fitted 512 below (term.Call name (indices (list_terms at.items.items)))) }
    ensures at { IfOk result (λ m. m.extent ≡ span) }
    ensures stands { IfOk result (λ m. (ls : List Lexeme) → Covers ls span → called name (AllStand at.items.items) ls → Stands m.expr ls) }
{
    let nodes = 1 + at.nodes;
    let depth = 1 + at.depth;
    let name = String::from_str(alloc, name.as_str())?;
    let expr = Expr::Call {
        name,
        at: at.items,
        span,
    };
    fitted(expr, span, nodes, depth, below)
}

pub(crate) fn negate(
    alloc: Global,
    value: Measured,
    span: Span,
    below: u8,
) -> Result<Measured, Stop>
    ensures read { Gives (λ m. term_of m.expr) result (spec.fitted 512 below (term.Minus (term_of value.expr))) }
    ensures at { IfOk result (λ m. m.extent ≡ span) }
    ensures stands { IfOk result (λ m. (ls : List Lexeme) → Covers ls span → signed (Stands value.expr) ls → Stands m.expr ls) }
{
    let nodes = 1 + value.nodes;
    let depth = 1 + value.depth;
    let expr = Expr::Negate {
        value: Box::new(alloc, value.expr)?,
        span,
    };
    fitted(expr, span, nodes, depth, below)
}

pub(crate) fn binary(
    alloc: Global,
    op: Op,
    left: Measured,
    right: Measured,
    span: Span,
    below: u8,
) -> Result<Measured, Stop>
    ensures read { Gives (λ m. term_of m.expr) result (spec.fitted 512 below (term.Binary op (term_of left.expr) (term_of right.expr))) }
    ensures at { IfOk result (λ m. m.extent ≡ span) }
    ensures stands { IfOk result (λ m. (ls : List Lexeme) → Covers ls span → operated op (Stands left.expr) (Stands right.expr) ls ⊎ of_two (ExtremeOf op) (Part (Stands left.expr)) (Part (Stands right.expr)) ls → Stands m.expr ls) }
{
    let nodes = 1 + left.nodes + right.nodes;
    let depth = 1 + left.depth.max(right.depth);
    let expr = Expr::Binary {
        op,
        left: Box::new(alloc, left.expr)?,
        right: Box::new(alloc, right.expr)?,
        span,
    };
    fitted(expr, span, nodes, depth, below)
}

pub(crate) fn clamp(
    alloc: Global,
    value: Measured,
    low: Measured,
    high: Measured,
    span: Span,
    below: u8,
) -> Result<Measured, Stop>
    ensures read { Gives (λ m. term_of m.expr) result (spec.fitted 512 below (term.Clamp (term_of value.expr) (term_of low.expr) (term_of high.expr))) }
    ensures at { IfOk result (λ m. m.extent ≡ span) }
    ensures stands { IfOk result (λ m. (ls : List Lexeme) → Covers ls span → of_three (One (token.Word word.Clamp)) (Part (Stands value.expr)) (Part (Stands low.expr)) (Part (Stands high.expr)) ls → Stands m.expr ls) }
{
    let nodes = 1 + value.nodes + low.nodes + high.nodes;
    let depth = 1 + value.depth.max(low.depth.max(high.depth));
    let expr = Expr::Clamp {
        value: Box::new(alloc, value.expr)?,
        low: Box::new(alloc, low.expr)?,
        high: Box::new(alloc, high.expr)?,
        span,
    };
    fitted(expr, span, nodes, depth, below)
}

pub(crate) fn cast(
    alloc: Global,
    ty: Ty,
    value: Measured,
    span: Span,
    below: u8,
) -> Result<Measured, Stop>
    ensures read { Gives (λ m. term_of m.expr) result (spec.fitted 512 below (term.Cast ty (term_of value.expr))) }
    ensures at { IfOk result (λ m. m.extent ≡ span) }
    ensures stands { IfOk result (λ m. (ls : List Lexeme) → Covers ls span → of_one (One (token.Type ty)) (Part (Stands value.expr)) ls → Stands m.expr ls) }
{
    let nodes = 1 + value.nodes;
    let depth = 1 + value.depth;
    let expr = Expr::Cast {
        ty,
        value: Box::new(alloc, value.expr)?,
        span,
    };
    fitted(expr, span, nodes, depth, below)
}

pub(crate) fn select(
    alloc: Global,
    cond: MeasuredCond,
    yes: Measured,
    no: Measured,
    span: Span,
    below: u8,
) -> Result<Measured, Stop>
    ensures read { Gives (λ m. term_of m.expr) result (spec.fitted 512 below (term.Choice (test_of cond.cond) (term_of yes.expr) (term_of no.expr))) }
    ensures at { IfOk result (λ m. m.extent ≡ span) }
    ensures stands { IfOk result (λ m. (ls : List Lexeme) → Covers ls span → of_three (One (token.Word word.Select)) (TestStands cond.cond) (Part (Stands yes.expr)) (Part (Stands no.expr)) ls → Stands m.expr ls) }
{
    let nodes = 1 + cond.nodes + yes.nodes + no.nodes;
    let depth = 1 + cond.depth.max(yes.depth.max(no.depth));
    let expr = Expr::Select {
        cond: Box::new(alloc, cond.cond)?,
        yes: Box::new(alloc, yes.expr)?,
        no: Box::new(alloc, no.expr)?,
        span,
    };
    fitted(expr, span, nodes, depth, below)
}

pub(crate) fn compare(
    by: Comparison,
    left: Measured,
    right: Measured,
    below: u8,
) -> Result<MeasuredCond, Stop>
    ensures read { Gives (λ m. test_of m.cond) result (spec.cond_fitted 512 below (term.Compares by (term_of left.expr) (term_of right.expr))) }
    ensures stands { IfOk result (λ m. (ls : List Lexeme) → Covers ls (record { start = left.extent.start; end = right.extent.end }) → compared by (Stands left.expr) (Stands right.expr) ls → TestStands m.cond ls) }
{
    let span = Span {
        start: left.extent.start,
        end: right.extent.end,
    };
    let nodes = 1 + left.nodes + right.nodes;
    let depth = 1 + left.depth.max(right.depth);
    let cond = Cond::Compare {
        by,
        left: left.expr,
        right: right.expr,
        span,
    };
    cond_fitted(cond, nodes, depth, below)
}

pub(crate) fn deny(
    alloc: Global,
    cond: MeasuredCond,
    span: Span,
    below: u8,
) -> Result<MeasuredCond, Stop>
    ensures read { Gives (λ m. test_of m.cond) result (spec.cond_fitted 512 below (term.Fails (test_of cond.cond))) }
    ensures stands { IfOk result (λ m. (ls : List Lexeme) → Covers ls span → of_one (One (token.Word word.Not)) (TestStands cond.cond) ls → TestStands m.cond ls) }
{
    let nodes = 1 + cond.nodes;
    let depth = 1 + cond.depth;
    let cond = Cond::Not {
        cond: Box::new(alloc, cond.cond)?,
        span,
    };
    cond_fitted(cond, nodes, depth, below)
}

/// How two conditions are combined.
#[derive(Clone, Copy, Drop)]
pub enum Joint {
    All,
    Any,
}

pub(crate) fn combine(
    alloc: Global,
    joint: Joint,
    first: MeasuredCond,
    second: MeasuredCond,
    span: Span,
    below: u8,
) -> Result<MeasuredCond, Stop>
    ensures read { Gives (λ m. test_of m.cond) result (spec.cond_fitted 512 below (spec.joint_test joint (test_of first.cond) (test_of second.cond))) }
    ensures stands { IfOk result (λ m. (ls : List Lexeme) → Covers ls span → of_two (One (joint_word joint)) (TestStands first.cond) (TestStands second.cond) ls → TestStands m.cond ls) }
{
    let nodes = 1 + first.nodes + second.nodes;
    let depth = 1 + first.depth.max(second.depth);
    let first = Box::new(alloc, first.cond)?;
    let second = Box::new(alloc, second.cond)?;
    let cond = match joint {
        Joint::All => Cond::All {
            first,
            second,
            span,
        },
        Joint::Any => Cond::Any {
            first,
            second,
            span,
        },
    };
    cond_fitted(cond, nodes, depth, below)
}

impl Indices {
    pub(crate) fn new(alloc: Global) -> Indices
        ensures read { list_terms result.items.items ≡ [] }
        ensures items { result.items.items ≡ [] }
    {
        Indices {
            items: Vec::new(alloc),
            nodes: 0,
            depth: 0,
        }
    }

    pub(crate) fn with(self, index: Measured) -> Result<Indices, AllocError>
        requires { length self.items.items < 512 }
        ensures read { IfOk result (λ more. list_terms more.items.items ≡ list_terms self.items.items ++ term_of index.expr ∷ []) }
        ensures items { IfOk result (λ more. more.items.items ≡ self.items.items ++ index.expr ∷ []) }
    {
        let nodes = self.nodes + index.nodes;
        let depth = self.depth.max(index.depth);
        let mut items = self.items;
        items.push(index.expr)?;
        Ok(Indices {
            items,
            nodes,
            depth,
        })
    }
}
