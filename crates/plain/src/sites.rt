//! The calls that stand in an expression.

ghost use Rattle.std.specs.Prelude.{◌≡◌, ◌++◌, map, OnOk};
ghost use Rattle.tree.specs.Term.{term_of, test_of, indices, list_terms};
ghost use Rattle.plain.specs.Sites.{site_of, sites, sites_of_test, sites_of_all, own_site};

use algo::scoping::same_name;
use std::alloc::AllocError;
use tree::{Cond, Expr};

/// A call as it stands in an expression: what it calls, and the expressions of its indices.
#[derive(Clone, Copy, Drop)]
pub(crate) struct Site<'a> {
    pub name: &'a str,
    pub at: &'a [Expr],
}

/// Adds the calls of an expression, those of the input left out: in the order of the text, a call after those in its indices.
#[cycle(sites)]
pub(crate) fn add_sites<'a>(
    input: &str,
    expr: &'a Expr,
    found: &mut Vec<Site<'a>>,
) -> Result<(), AllocError>
    ensures { OnOk result (map site_of found.new.items ≡ map site_of found.old.items ++ sites input.now (term_of expr.now)) }
{
    match expr {
        Expr::Literal { .. } | Expr::Variable { .. } => Ok(()),
        Expr::Call { name, at, .. } => {
            add_all(input, at, found)?;
            add_own(input, name.as_str(), at, found)
        }
        Expr::Negate { value, .. } | Expr::Cast { value, .. } => add_sites(input, value, found),
        Expr::Binary { left, right, .. } => {
            add_sites(input, left, found)?;
            add_sites(input, right, found)
        }
        Expr::Clamp {
            value,
            low,
            high,
            ..
        } => {
            add_sites(input, value, found)?;
            add_sites(input, low, found)?;
            add_sites(input, high, found)
        }
        Expr::Select { cond, yes, no, .. } => {
            add_cond(input, cond, found)?;
            add_sites(input, yes, found)?;
            add_sites(input, no, found)
        }
    }
}

// The same of a condition.
#[cycle(sites)]
fn add_cond<'a>(input: &str, cond: &'a Cond, found: &mut Vec<Site<'a>>) -> Result<(), AllocError>
    ensures { OnOk result (map site_of found.new.items ≡ map site_of found.old.items ++ sites_of_test input.now (test_of cond.now)) }
{
    match cond {
        Cond::Compare { left, right, .. } => {
            add_sites(input, left, found)?;
            add_sites(input, right, found)
        }
        Cond::Not { cond, .. } => add_cond(input, cond, found),
        Cond::All { first, second, .. } | Cond::Any { first, second, .. } => {
            add_cond(input, first, found)?;
            add_cond(input, second, found)
        }
    }
}

/// The same of several expressions.
#[cycle(sites)]
pub(crate) fn add_all<'a>(
    input: &str,
    at: &'a [Expr],
    found: &mut Vec<Site<'a>>,
) -> Result<(), AllocError>
    ensures { OnOk result (map site_of found.new.items ≡ map site_of found.old.items ++ sites_of_all input.now (indices (list_terms at.now))) }
{
    for expr in at {
        add_sites(input, expr, found)?;
    }
    Ok(())
}

// Adds the call itself, where it is none of the input.
fn add_own<'a>(
    input: &str,
    name: &'a str,
    at: &'a [Expr],
    found: &mut Vec<Site<'a>>,
) -> Result<(), AllocError>
    ensures { OnOk result (map site_of found.new.items ≡ map site_of found.old.items ++ own_site input.now (record { name = name.now; at = indices (list_terms at.now) })) }
{
    if !same_name(input, name) {
        found.push(Site { name, at })?;
    }
    Ok(())
}
