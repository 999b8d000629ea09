//! The lines of a plan's text.

use lin::{Forms, Lin, Region, Span1, Sym};
use plan::{Coordinate, Declaration, Kind, Pick, Places};
use tree::Expr;

/// A line of a plan's text, by what it says.
#[derive(Drop)]
pub enum Line {
    /// The plan's name.
    Plan {
        name: String,
    },
    Input(Declaration),
    Output(Declaration),
    /// The first line of a group.
    Group {
        number: u32,
        function: String,
        region: Region,
        grid: Vec<u64>,
    },
    /// The first line of a loop.
    For {
        symbol: Sym,
        span: Span1,
        kind: Kind,
    },
    Let {
        symbol: Sym,
        pick: Pick,
        forms: Forms,
    },
    /// The first line of two arms.
    First {
        symbol: Sym,
    },
    /// The line between them.
    Else,
    /// The first line of a guarded block.
    Guard {
        low: Lin,
        high: Lin,
    },
    /// The last line of a block.
    End,
    Alloc {
        buffer: u64,
        function: String,
        places: Vec<Places>,
    },
    Fetch {
        buffer: u64,
        group: u64,
        region: Region,
    },
    Store {
        buffer: u64,
        definition: u64,
        coordinates: Vec<Coordinate>,
        value: Expr,
    },
    Publish {
        claim: u64,
    },
}
