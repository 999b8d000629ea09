//! Whether the first three lines of a plan are the algorithm's.

ghost use Rattle.std.specs.Prelude.{◌≡◌, IsNone, MatchOption};
ghost use Rattle.algo.specs.View.{algorithm_of};
ghost use Rattle.plan.specs.View.{plan_of};
ghost use Rattle.headline.specs.Head.{FailsHead, output_function};
ghost use Rattle.audit.specs.Verdict.Shown.Wide.{HasHead};
ghost use Rattle.audit.specs.Head.{HasOutputGroup};

use crate::names::{input_is_same, name_is_same, output_is_same, some_group_is_of};
use crate::output::{output_extents, output_name};
use algo::Algo;
use numeric::Ty;
use plan::Plan;

/// The name of the input.
fn input_name(algo: &Algo) -> &str
    ensures { result.now ≡ (algorithm_of algo.now).input }
{
    algo.input().name.as_str()
}

/// The type of the input's samples.
fn input_type(algo: &Algo) -> Ty
    ensures { result ≡ (algorithm_of algo.now).input_ty }
{
    algo.input().shape.ty
}

/// The extents of the input.
fn input_extents(algo: &Algo) -> &[u32]
    ensures { result.now ≡ (algorithm_of algo.now).input_extents }
{
    algo.input().shape.extents.as_slice()
}

/// The type of the output, which is that of its function.
fn output_type(algo: &Algo) -> Ty
    ensures { MatchOption (output_function (algorithm_of algo.now)) ⊥ (λ f. f.ty ≡ result) }
{
    algo.is_well_formed();
    algo.output().shape.ty
}

/// The line of a plan's head at which its name (line 1), its input (line 2) or its output (line 3) is not the algorithm's, the
/// first of these; else line 3 where no group is the output's. `None` where all three are and some group is.
///
/// It allocates nothing, and the time is linear in the groups.
pub(crate) fn head_fault(algo: &Algo, plan: &Plan) -> Option<u32>
    ensures head { MatchOption result (HasHead (algorithm_of algo.now) (plan_of plan.now)) (FailsHead (algorithm_of algo.now) (plan_of plan.now)) }
    ensures group { IsNone result → HasOutputGroup (algorithm_of algo.now) (plan_of plan.now) }
{
    let output = output_name(algo);
    let extents = output_extents(algo);
    if !name_is_same(plan, algo.name()) {
        Some(1)
    } else if !input_is_same(
        &plan.input,
        input_name(algo),
        input_type(algo),
        input_extents(algo),
    ) {
        Some(2)
    } else if !output_is_same(&plan.output, output, output_type(algo), extents) {
        Some(3)
    } else if !some_group_is_of(plan, output) {
        Some(3)
    } else {
        None
    }
}
