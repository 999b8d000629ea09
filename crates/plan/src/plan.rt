//! Plans and their groups.

use crate::stmt::Stmt;
use lin::Region;
use numeric::Ty;

/// The name, type and extents of an input or output.
#[derive(Drop)]
pub struct Declaration {
    pub name: String,
    pub ty: Ty,
    pub extents: Vec<u64>,
}

/// The pieces of one root function: one for each point of the grid.
#[derive(Drop)]
pub struct Group {
    pub function: String,
    /// The function's region, in constants.
    pub region: Region,
    /// How many values the grid's symbols take, each from 0 on. They are the first symbols.
    pub grid: Vec<u64>,
    /// What a piece does.
    pub body: Stmt,
}

/// A plan for an algorithm.
#[derive(Drop)]
pub struct Plan {
    pub name: String,
    pub input: Declaration,
    pub output: Declaration,
    pub groups: Vec<Group>,
}
