//! The statements of an algorithm text, each part with its place.

use numeric::Ty;
use tree::Expr;
use tree::token::Span;

/// A name, and where it stands.
#[derive(Drop)]
pub struct Named {
    pub name: String,
    pub span: Span,
}

/// A number of a size, and where it stands.
#[derive(Clone, Copy, Drop)]
pub struct Extent {
    pub number: u32,
    pub span: Span,
}

/// An end of a range: the number, which is negative behind a sign, and the place of both.
#[derive(Clone, Copy, Drop)]
pub struct Bound {
    pub negative: bool,
    pub number: u32,
    pub span: Span,
}

/// A reduction variable and its range, to which both bounds belong.
#[derive(Drop)]
pub struct Domain {
    pub variable: Named,
    pub low: Bound,
    pub high: Bound,
}

/// `input name type size;`
#[derive(Drop)]
pub struct InputStatement {
    pub name: Named,
    pub ty: Ty,
    /// Where the type stands.
    pub ty_span: Span,
    pub extents: Vec<Extent>,
}

/// `func name type (name, ..) = expr;`
#[derive(Drop)]
pub struct FunctionStatement {
    pub name: Named,
    pub ty: Ty,
    /// Where the type stands.
    pub ty_span: Span,
    pub variables: Vec<Named>,
    pub value: Expr,
}

/// `update name over (dom, ..) [expr, ..] = expr;`
#[derive(Drop)]
pub struct UpdateStatement {
    /// Where the word `update` stands.
    pub word: Span,
    pub name: Named,
    /// None where there is no `over`.
    pub domains: Vec<Domain>,
    pub at: Vec<Expr>,
    pub value: Expr,
}

/// A statement between the input and the output.
#[derive(Drop)]
pub enum Statement {
    Function(FunctionStatement),
    Update(UpdateStatement),
}

/// `output name size;`
#[derive(Drop)]
pub struct OutputStatement {
    pub name: Named,
    pub extents: Vec<Extent>,
}

/// The statements of a whole text, in its order.
#[derive(Drop)]
pub struct File {
    pub name: Named,
    pub input: InputStatement,
    pub statements: Vec<Statement>,
    pub output: OutputStatement,
}
