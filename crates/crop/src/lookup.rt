//! What is told of names: types, variables' origins, and the origins of what is called.

ghost use Rattle.std.specs.Prelude.{◌≡◌, IfOk, option_map};
ghost use Rattle.tree.specs.Term.{term_of};
ghost use Rattle.tree.specs.Typing.{shape_type, same_type};
ghost use Rattle.numeric.specs.declared.ty.Ty.TheVariants.{I32 as Index};
ghost use Rattle.meaning.specs.Names.{bound};
ghost use Rattle.algo.specs.Parts.{names_of};
ghost use Rattle.algo.specs.View.{algorithm_of};
ghost use Rattle.crop.specs.Cutting.{lows, kept_named, origin_named};
ghost use Rattle.crop.specs.View.{called_by, cut_of, kept_of, is_named_at};

use crate::callees::Callees;
use crate::cut::{Cut, Kept, Stretch};
use algo::Algo;
use algo::scoping::same_name;
use numeric::Ty;
use std::alloc::{AllocError, Global};
use tree::{Expr, Names};

/// The type of an expression by its shape.
fn shape_type(names: &Callees<'_>, expr: &Expr) -> Ty
    ensures { result ≡ shape_type (called_by names.now) (term_of expr.now) }
{
    match expr {
        Expr::Literal { ty, .. } | Expr::Cast { ty, .. } => *ty,
        Expr::Variable { .. } => Ty::I32,
        Expr::Call { name, .. } => match names.func(name.as_str()) {
            Some((ty, _)) => ty,
            None => Ty::I32,
        },
        Expr::Negate { value, .. } | Expr::Clamp { value, .. } => shape_type(names, value),
        Expr::Binary { op, left, .. } => op.result_type(shape_type(names, left)),
        Expr::Select { yes, .. } => shape_type(names, yes),
    }
}

/// Whether it is i32.
pub(crate) fn is_i32(names: &Callees<'_>, expr: &Expr) -> bool
    ensures { result ≡ same_type (shape_type (called_by names.now) (term_of expr.now)) Index }
{
    matches!(shape_type(names, expr), Ty::I32)
}

/// By how much a variable is moved: 0 for a name of no variable.
pub(crate) fn variable_origin(variables: &[String], origin: &[i32], name: &str) -> i32
    ensures { result ≡ bound (names_of variables.now) origin.now name.now }
{
    match variables {
        [] => 0,
        [variable, others @ ..] => match origin {
            [] => 0,
            [number, rest @ ..] => {
                if same_name(variable.as_str(), name) {
                    *number
                } else {
                    variable_origin(others, rest, name)
                }
            }
        },
    }
}

/// The low ends of a box.
pub(crate) fn lows(alloc: Global, stretches: &[Stretch]) -> Result<Vec<i32>, AllocError>
    ensures { IfOk result (λ found. found.items ≡ lows stretches.now) }
{
    stretches.iter().map(|stretch| stretch.low).collect(alloc)
}

/// A copy of an origin.
fn copied(alloc: Global, origin: &[i32]) -> Result<Vec<i32>, AllocError>
    ensures { IfOk result (λ found. found.items ≡ origin.now) }
{
    origin.iter().map(|number| *number).collect(alloc)
}

/// Whether the function of a number has a name.
fn is_named(algo: &Algo, number: usize, name: &str) -> bool
    ensures { result ≡ is_named_at (algorithm_of algo.now).functions number name.now }
{
    match algo.funcs().get_index(number) {
        Some((known, _)) => same_name(known.as_str(), name),
        None => false,
    }
}

/// What is kept of the function of a name.
pub(crate) fn kept_named<'a>(algo: &Algo, cut: &'a Cut, name: &str) -> Option<&'a Kept>
    ensures { option_map (λ kept. kept_of kept.now) result ≡ kept_named (algorithm_of algo.now).functions (cut_of cut.now).kept name.now }
{
    for number in 0..cut.kept.len() {
        if is_named(algo, number, name) {
            return cut.kept[number].as_ref();
        }
    }
    None
}

/// The origin of what is called by a name: none for an unknown name.
pub(crate) fn origin_named(
    alloc: Global,
    algo: &Algo,
    cut: &Cut,
    name: &str,
) -> Result<Vec<i32>, AllocError>
    ensures { IfOk result (λ found. found.items ≡ origin_named (algorithm_of algo.now) (cut_of cut.now) name.now) }
{
    if same_name(algo.input().name.as_str(), name) {
        return lows(alloc, &cut.part);
    }
    match kept_named(algo, cut, name) {
        Some(kept) => copied(alloc, &kept.origin),
        None => Ok(Vec::new(alloc)),
    }
}
