//! The statements of a plan.

use lin::{Forms, Lin, Region, Span1, Sym};
use tree::Expr;

/// How the turns of a loop are run.
#[derive(Clone, Copy, Drop)]
pub enum Kind {
    /// One turn after another.
    Serial,
    /// The same, written out turn by turn.
    Unroll,
    /// All turns at once, a lane each.
    Vector,
}

/// Which of its forms a named number is.
#[derive(Clone, Copy, Drop)]
pub enum Pick {
    /// The smallest.
    Min,
    /// The largest.
    Max,
}

/// The places that a buffer has for one coordinate.
#[derive(Drop)]
pub enum Places {
    /// So many places, the first for the coordinate `origin`.
    From { origin: Lin, count: u64 },
    /// So many places, where coordinate x has the place of its remainder by `count`.
    Folded { count: u64 },
}

/// Where a store writes at one place, or for which value of a reduction variable.
#[derive(Drop)]
pub enum Index {
    /// A form over the symbols.
    Form(Lin),
    /// What an expression comes to, for an update's left side.
    Found(Expr),
}

/// A variable of a stored definition and what it stands for.
#[derive(Drop)]
pub struct Coordinate {
    pub variable: String,
    pub index: Index,
}

/// A statement of a plan. Symbols, buffers, groups and claims are named by number.
#[derive(Drop)]
pub enum Stmt {
    /// A block: statements in order.
    Seq(Vec<Stmt>),
    /// The body once for each whole number of the span, rising.
    For {
        symbol: Sym,
        span: Span1,
        kind: Kind,
        body: Box<Stmt>,
    },
    /// A name for the smallest or largest of some forms, to the end of the block.
    Let {
        symbol: Sym,
        pick: Pick,
        forms: Forms,
    },
    /// `first` in the first turn of the symbol's loop, `later` in any other.
    First {
        symbol: Sym,
        first: Box<Stmt>,
        later: Box<Stmt>,
    },
    /// The body where `low` is at most `high`.
    Guard {
        low: Lin,
        high: Lin,
        body: Box<Stmt>,
    },
    /// A buffer of unset places for cells of a function, to the end of the block.
    Alloc {
        buffer: u64,
        function: String,
        places: Vec<Places>,
    },
    /// All cells of a region of another group are set in the buffer.
    Fetch {
        buffer: u64,
        group: u64,
        region: Region,
    },
    /// One place gets the value of a definition of the buffer's function, 0 the pure one. The
    /// coordinates are the function's variables, then the definition's reduction variables. A load
    /// by claim C is a call of the name `@C`.
    Store {
        buffer: u64,
        definition: u64,
        coordinates: Vec<Coordinate>,
        value: Expr,
    },
    /// The piece's own cells have the values of which the claim speaks.
    Publish {
        claim: u64,
    },
}
