//! The parts of an algorithm.

ghost use Rattle.std.specs.Prelude.{◌≤◌, map, vec_len};

use meaning::image::Shape;
use numeric::Ty;
use tree::Expr;

/// The name and the shape (type and extents) of the input or of the output.
#[derive(Drop)]
pub struct Port {
    pub name: String,
    pub shape: Shape,
}

/// A reduction variable and its range, both ends included.
#[derive(Drop)]
pub struct Range {
    pub variable: String,
    pub low: i32,
    pub high: i32,
}

/// An update: the reduction domain that it walks, the place that it sets at each point, and what it sets there.
#[derive(Drop)]
pub struct Update {
    pub ranges: Vec<Range>,
    /// One index a variable of the function.
    pub at: Vec<Expr>,
    pub value: Expr,
}

/// A function: its pure definition over its variables, and the updates that follow it.
#[derive(Drop)]
pub struct Function {
    pub ty: Ty,
    pub variables: Vec<String>,
    pub value: Expr,
    pub updates: Vec<Update>,
}

/// One definition of a function.
pub enum Definition<'a> {
    /// The right side of the pure definition.
    Pure(&'a Expr),
    Update(&'a Update),
}

impl Function {
    ghost use Rattle.tree.specs.Term.{term_of};
    ghost use Rattle.algo.specs.Parts.{change_of};
    ghost use Rattle.algo.specs.Definitions.{IsDefinition};

    /// One of the function's definitions: number 0 is the pure one, and the updates follow from 1 on.
    pub fn definition(&self, number: usize) -> Definition<'_>
        requires { number ≤ vec_len self.now.updates }
        ensures { IsDefinition (term_of self.now.value) (map change_of self.now.updates.items) number result }
    {
        match number.checked_sub(1) {
            None => Definition::Pure(&self.value),
            Some(update) => Definition::Update(&self.updates[update]),
        }
    }
}
