//! How large an expression is.

ghost use Rattle.std.specs.Prelude.{◌≡◌, ◌+◌, ◌&&◌, nat_le, max};
ghost use Rattle.tree.specs.Term.{term_of, test_of, list_terms, indices};
ghost use Rattle.tree.specs.Tree.{node_count, cond_count, node_counts, depth, test_depth, depths};
ghost use Rattle.validation.specs.Stored.Sizes.{counted, is_small};

use tree::{Cond, Expr};

/// The most nodes of the stored expression.
const MOST_NODES: usize = 4096;
/// The most nodes on a way down in it.
const MOST_LEVELS: usize = 256;

/// How many nodes there are, and how many on the longest way down. More than a `usize` holds count as the greatest `usize`.
#[derive(Clone, Copy, Drop)]
struct Size {
    nodes: usize,
    levels: usize,
}

/// Both sizes side by side.
fn beside(left: Size, right: Size) -> Size
    ensures nodes { result.nodes ≡ counted (left.nodes + right.nodes) }
    ensures levels { result.levels ≡ max left.levels right.levels }
{
    Size {
        nodes: left.nodes.saturating_add(right.nodes),
        levels: left.levels.max(right.levels),
    }
}

/// The size with one node above.
fn below(inner: Size) -> Size
    ensures nodes { result.nodes ≡ counted (inner.nodes + 1) }
    ensures levels { result.levels ≡ counted (inner.levels + 1) }
{
    Size {
        nodes: inner.nodes.saturating_add(1),
        levels: inner.levels.saturating_add(1),
    }
}

/// The size of an expression.
#[cycle(sizes)]
fn size_of(expr: &Expr) -> Size
    ensures nodes { result.nodes ≡ counted (node_count (term_of expr.now)) }
    ensures levels { result.levels ≡ counted (depth (term_of expr.now)) }
{
    match expr {
        Expr::Literal { .. } | Expr::Variable { .. } => Size {
            nodes: 1,
            levels: 1,
        },
        Expr::Call { at, .. } => below(size_of_all(at)),
        Expr::Negate { value, .. } | Expr::Cast { value, .. } => below(size_of(value)),
        Expr::Binary { left, right, .. } => below(beside(size_of(left), size_of(right))),
        Expr::Clamp {
            value,
            low,
            high,
            ..
        } => below(beside(size_of(value), beside(size_of(low), size_of(high)))),
        Expr::Select { cond, yes, no, .. } => {
            below(beside(size_of_cond(cond), beside(size_of(yes), size_of(no))))
        }
    }
}

/// The size of a condition.
#[cycle(sizes)]
fn size_of_cond(cond: &Cond) -> Size
    ensures nodes { result.nodes ≡ counted (cond_count (test_of cond.now)) }
    ensures levels { result.levels ≡ counted (test_depth (test_of cond.now)) }
{
    match cond {
        Cond::Compare { left, right, .. } => below(beside(size_of(left), size_of(right))),
        Cond::Not { cond, .. } => below(size_of_cond(cond)),
        Cond::All { first, second, .. } | Cond::Any { first, second, .. } => {
            below(beside(size_of_cond(first), size_of_cond(second)))
        }
    }
}

/// The size of several expressions side by side.
#[cycle(sizes)]
fn size_of_all(at: &[Expr]) -> Size
    ensures nodes { result.nodes ≡ counted (node_counts (indices (list_terms at.now))) }
    ensures levels { result.levels ≡ counted (depths (indices (list_terms at.now))) }
{
    let mut total = Size {
        nodes: 0,
        levels: 0,
    };
    for index in at {
        total = beside(total, size_of(index));
    }
    total
}

/// Whether the size is within the limits.
fn is_within(size: Size) -> bool
    ensures { result ≡ (nat_le size.nodes 4096 && nat_le size.levels 256) }
{
    size.nodes <= MOST_NODES && size.levels <= MOST_LEVELS
}

/// Whether an expression has at most 4096 nodes, at most 256 of them on a way down.
pub fn is_small(expr: &Expr) -> bool
    ensures { result ≡ is_small (term_of expr.now) }
{
    is_within(size_of(expr))
}
