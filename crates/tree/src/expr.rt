//! The tree of an expression.

ghost use Rattle.std.specs.Prelude.{◌≡◌};
ghost use Rattle.tree.specs.Place.{span_of, test_span};

use crate::token::Span;
use numeric::{Comparison, Op, Ty};

/// An expression. Each node has the part of the text that it was read from,
/// without brackets round it.
#[cycle(tree)]
#[derive(Drop)]
pub enum Expr {
    /// A number with its type.
    Literal {
        ty: Ty,
        number: i64,
        span: Span,
    },
    /// A coordinate or a reduction variable, which is an i32.
    Variable {
        name: String,
        span: Span,
    },
    /// A call of a function or of the input, at its indices.
    Call {
        name: String,
        at: Vec<Expr>,
        span: Span,
    },
    /// The wrapped negation.
    Negate {
        value: Box<Expr>,
        span: Span,
    },
    /// An operator on two expressions of one type.
    Binary {
        op: Op,
        left: Box<Expr>,
        right: Box<Expr>,
        span: Span,
    },
    /// The value, not above `high`, then not below `low`.
    Clamp {
        value: Box<Expr>,
        low: Box<Expr>,
        high: Box<Expr>,
        span: Span,
    },
    /// The value wrapped to another type.
    Cast {
        ty: Ty,
        value: Box<Expr>,
        span: Span,
    },
    /// `yes` where the condition holds, else `no`.
    Select {
        cond: Box<Cond>,
        yes: Box<Expr>,
        no: Box<Expr>,
        span: Span,
    },
}

/// A condition, which a `select` tests.
#[cycle(tree)]
#[derive(Drop)]
pub enum Cond {
    /// A comparison of two expressions of one type.
    Compare {
        by: Comparison,
        left: Expr,
        right: Expr,
        span: Span,
    },
    /// The condition does not hold.
    Not {
        cond: Box<Cond>,
        span: Span,
    },
    /// Both conditions hold.
    All {
        first: Box<Cond>,
        second: Box<Cond>,
        span: Span,
    },
    /// One of the conditions holds, or both.
    Any {
        first: Box<Cond>,
        second: Box<Cond>,
        span: Span,
    },
}

impl Expr {
    /// The part of the text that the expression was read from.
    pub fn span(&self) -> Span
        ensures { result ≡ span_of self.now }
    {
        match self {
            Expr::Literal { span, .. }
            | Expr::Variable { span, .. }
            | Expr::Call { span, .. }
            | Expr::Negate { span, .. }
            | Expr::Binary { span, .. }
            | Expr::Clamp { span, .. }
            | Expr::Cast { span, .. }
            | Expr::Select { span, .. } => *span,
        }
    }
}

impl Cond {
    /// The part of the text that the condition was read from.
    pub fn span(&self) -> Span
        ensures { result ≡ test_span self.now }
    {
        match self {
            Cond::Compare { span, .. }
            | Cond::Not { span, .. }
            | Cond::All { span, .. }
            | Cond::Any { span, .. } => *span,
        }
    }
}
