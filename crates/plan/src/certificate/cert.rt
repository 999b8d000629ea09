//! What a certificate says.

use lin::{Region, Span1, Sym};

/// The region that each piece of a group owns, in the grid's symbols.
#[derive(Drop)]
pub struct Own {
    pub group: u64,
    pub region: Region,
}

/// The pieces of another group that each piece of a group needs: a region of that group's grid.
#[derive(Drop)]
pub struct Need {
    pub group: u64,
    pub needed: u64,
    pub region: Region,
}

/// After the statement that ends at a line of the plan, a buffer holds a definition of a function
/// at every point of a region.
#[derive(Drop)]
pub struct Claim {
    pub line: u64,
    pub buffer: u64,
    pub function: String,
    /// 0 is the pure definition.
    pub definition: u64,
    pub region: Region,
}

/// A claim that lives on from turn to turn of a loop, in which its region moves on along one
/// dimension.
#[derive(Drop)]
pub struct Window {
    pub claim: u64,
    pub symbol: Sym,
    pub dimension: u64,
    /// The fold factor of that dimension, 0 where it has none.
    pub fold: u64,
    pub span: Span1,
}

/// A certificate of a plan.
#[derive(Drop)]
pub struct Cert {
    pub own: Vec<Own>,
    pub needs: Vec<Need>,
    pub claims: Vec<Claim>,
    pub windows: Vec<Window>,
}
