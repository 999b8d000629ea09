//! Expressions of an algorithm with the calls of functions that are not stored put in.
#![tactic(auto)]

ghost use Rattle.std.specs.Prelude.{◌≡◌, length};
ghost use Rattle.tree.specs.Term.{term_of};
ghost use Rattle.algo.specs.View.{algorithm_of};
ghost use Rattle.subst.specs.PutIn.{PutsIn};

mod bodies;
mod built;
mod error;
mod filling;
mod nodes;
mod putting;
mod updates;

use algo::Algo;
use bodies::bodies_of;
pub use error::SubstError;
use putting::put;
use std::alloc::Global;
use tree::Expr;
use updates::calls_updates;

/// An expression of the algorithm with each call of a function that is not stored replaced by its pure definition,
/// the indices put in for its variables; `stored` has one entry a function. Parts have the places that they came from.
///
/// The calls are put in function by function, in the order of declaration, so each function's definition is made once,
/// whatever the number of its calls. What passes the limits is given up where it is found, and an index or a definition given
/// up makes what uses it too large in its turn: nothing is built from parts that pass the limits, and chains of functions
/// whose definitions would double at each step cost no more than others.
///
/// # Errors
/// `Updates` where a call, also of what is put in, is of a function that has updates and is not stored. `TooLarge` where
/// none is and the result has more than 4096 nodes or more than 256 on a way down. `Memory` where memory runs out.
pub fn put_in(alloc: Global, algo: &Algo, expr: &Expr, stored: &[bool]) -> Result<Expr, SubstError>
    requires { length stored.now ≡ length (algorithm_of algo.now).functions }
    ensures { PutsIn (algorithm_of algo.now) stored.now (term_of expr.now) result }
{
    let bodies = bodies_of(alloc, algo.funcs(), stored)?;
    if calls_updates(&bodies, expr) {
        return Err(SubstError::Updates);
    }
    Ok(put(alloc, &bodies, expr)?.expr)
}
