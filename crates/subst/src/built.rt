//! Expressions within the limits, with their sizes.

ghost use Rattle.std.specs.Prelude.{◌≡◌, ◌≤◌};
ghost use Rattle.tree.specs.Term.{term_of, test_of, list_terms, indices};
ghost use Rattle.tree.specs.Tree.{node_count, cond_count, node_counts, depth, test_depth, depths};

use tree::{Cond, Expr};

/// An expression within the limits, with its nodes and the nodes on its longest way down.
#[derive(Drop)]
pub struct Built {
    pub expr: Expr,
    pub nodes: usize,
    pub levels: usize,
    pub ghost counted: { nodes ≡ node_count (term_of expr) },
    pub ghost deep: { levels ≡ depth (term_of expr) },
    pub ghost few: { nodes ≤ 4096 },
    pub ghost flat: { levels ≤ 256 },
}

/// A condition within the limits, with the same.
#[derive(Drop)]
pub struct BuiltCond {
    pub cond: Box<Cond>,
    pub nodes: usize,
    pub levels: usize,
    pub ghost counted: { nodes ≡ cond_count (test_of cond.value) },
    pub ghost deep: { levels ≡ test_depth (test_of cond.value) },
    pub ghost few: { nodes ≤ 4096 },
    pub ghost flat: { levels ≤ 256 },
}

/// The indices of a call, together within the limits.
#[derive(Drop)]
pub struct Row {
    pub at: Vec<Expr>,
    pub nodes: usize,
    pub levels: usize,
    pub ghost counted: { nodes ≡ node_counts (indices (list_terms at.items)) },
    pub ghost deep: { levels ≡ depths (indices (list_terms at.items)) },
    pub ghost few: { nodes ≤ 4096 },
    pub ghost flat: { levels ≤ 256 },
}
