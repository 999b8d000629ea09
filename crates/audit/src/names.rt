//! Whether the names, types and extents of a plan's head are those of the algorithm.

ghost use Rattle.std.specs.Prelude.{◌≡◌, ◌↔◌, IsTrue, IsFalse, All, string_bytes};
ghost use Rattle.std.specs.List.{list_any};
ghost use Rattle.plan.specs.View.{declaration_of, plan_of};
ghost use Rattle.meaning.specs.Names.{same_name};
ghost use Rattle.meaning.specs.Algorithm.{Algorithm};
ghost use Rattle.headline.specs.Head.{SameInput, SameOutput};
ghost use Rattle.audit.specs.Head.{IsOutput};

use numeric::Ty;
use plan::{Declaration, Group, Plan};

/// Whether the plan has the algorithm's name.
pub(crate) fn name_is_same(plan: &Plan, name: &str) -> bool
    ensures { IsTrue result ↔ ((plan_of plan.now).name ≡ name.now) }
{
    plan.name.as_str() == name
}

/// Whether the extents of a plan are the lengths that an algorithm gives.
fn are_lengths(extents: &[u64], lengths: &[u32]) -> bool
    ensures { IsTrue result ↔ (extents.now ≡ lengths.now) }
{
    if extents.len() != lengths.len() {
        return false;
    }
    for (index, extent) in extents.iter().enumerate() {
        if *extent != u64::from(lengths[index]) {
            return false;
        }
    }
    true
}

/// Whether a declaration is that of the algorithm's input.
pub(crate) fn input_is_same(declaration: &Declaration, input: &str, ty: Ty, extents: &[u32]) -> bool
    ensures { (a : Algorithm) → a.input ≡ input.now → a.input_ty ≡ ty → a.input_extents ≡ extents.now → (IsTrue result ↔ SameInput a (declaration_of declaration.now)) }
{
    declaration.name.as_str() == input
        && declaration.ty == ty
        && are_lengths(declaration.extents.as_slice(), extents)
}

/// Whether a declaration is that of the algorithm's output, where the output function has this type.
pub(crate) fn output_is_same(
    declaration: &Declaration,
    output: &str,
    ty: Ty,
    extents: &[u32],
) -> bool
    ensures { (a : Algorithm) → IsOutput a output.now ty extents.now → (IsTrue result ↔ SameOutput a (declaration_of declaration.now)) }
{
    declaration.name.as_str() == output
        && declaration.ty == ty
        && are_lengths(declaration.extents.as_slice(), extents)
}

/// Whether one of these groups is that of a function.
fn is_among(groups: &[Group], function: &str) -> bool
    ensures { result ≡ list_any (λ g. same_name (string_bytes g.function) function.now) groups.now }
{
    groups
        .iter()
        .any(|group| group.function.as_str() == function)
}

/// Whether a group of the plan is that of the output function.
pub(crate) fn some_group_is_of(plan: &Plan, output: &str) -> bool
    ensures none { IsFalse result → All (λ g. ¬ (g.function ≡ output.now)) (plan_of plan.now).groups }
    ensures some { IsTrue result → ¬ All (λ g. ¬ (g.function ≡ output.now)) (plan_of plan.now).groups }
{
    is_among(plan.groups.as_slice(), output)
}
