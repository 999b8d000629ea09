//! The checker.

ghost use Rattle.std.specs.Prelude.{◌≡◌, IfOk, IfErr};
ghost use Rattle.algo.specs.View.{algorithm_of};
ghost use Rattle.plan.specs.View.{plan_of};
ghost use Rattle.plan.specs.Certificate.Certificate.{certificate_of};
ghost use Rattle.headline.specs.Headline.{Headline};
ghost use Rattle.audit.specs.Verdict.Accepted.{IsAccepted};
ghost use Rattle.audit.specs.Refused.{IsRefused};

use crate::answer::shares_where_accepted;
use crate::head::head_fault;
use crate::output::{group_named, output_name};
use crate::refusal::CheckError;
use crate::verdict::laws::{accepted_is_ready, accepted_is_right, faults_are_refusals};
use algo::Algo;
use checked_plan::Checked;
use plan::Plan;
use plan::certificate::Cert;
use shares::SharesError;
use soundness::outline::refusals::K;
use std::alloc::Global;
use std::thread::Threads;

/// Whether a plan with its certificate is right for an algorithm, by what its author wrote alone.
///
/// A yes promises: on every input of the algorithm and in every order of the steps of any workers, no step is a fault (no
/// access leaves its buffer or the input, nothing is read before it is written or written twice), what is set is right, and
/// some order finishes; and each point of the output has a cell whose right value is what the algorithm, read without any
/// schedule, says.
///
/// The time is about linear in the lines of the plan and its certificate, the cells, the fetched cells and the needed pieces;
/// bounds of forms are searched for within the limits of that search. What the lines and what the claims of each group owe
/// is looked at side by side, in as many threads as there are processors.
///
/// # Errors
/// `Refused` with a code and the line of the text at which it holds, `Memory` where memory runs out. Where the head is wrong,
/// that is told: `K1` at line 1, 2 or 3. Else of all that is wrong the first is told, in the order of the lines, and at one
/// line the lowest code:
/// - at the lines of groups: names, limits and stored expressions (`K2`, `K3`, `K12`, `K14`), what loops, stores, fetches
///   and `publish` owe (`K2`, `K4`, `K5`, `K7`, `K12`), and in each group the first number not shown to be small (`K14`);
/// - at the lines of own and needed regions: names and limits (`K2`, `K3`, `K14`, and `K10` at `cert`), how the pieces share
///   the cells (`K9`, `K10`, `K11`, `K14`), and whether the output's group has each point of the output (`K10`);
/// - at the lines of claims and windows: names and limits (`K2`, `K3`, `K14`, `K8`), claims that their statements are not
///   shown to make (`K6`), and windows that are not shown to hold (`K8`).
///
/// How the pieces share the cells, and whether the output's group has each point, is asked only where no line of a group has a flaw
/// of names, limits or stored expressions; flaws of claims and windows hide nothing of it. Where a line of own and needed regions
/// has such a flaw, what is wrong at own lines before it and at fetch lines is told, and that the output's group lacks a point; what
/// stands at need lines (`K11`, `K14`) is not. At one line a number not shown to be small is told before what the line owes, which is shown where numbers are small;
/// but where a store of a pure definition is not shown to stay in a buffer whose places are near 0, that (`K4`) is told.
/// Where a group has no own region (`K10` at `cert`), that is told in place of a `K5` at that group's last line, its `publish`,
/// which would be the first; and a symbol that stands twice (`K2`) is told at the claim that names it where it is not bound.
pub fn check<'a, R: Threads + Sync>(
    rt: &R,
    alloc: Global,
    algo: &'a Algo,
    plan: Plan,
    cert: Cert,
) -> Result<Checked<'a>, CheckError>
    ensures accepted { IfOk result (λ _. IsAccepted (algorithm_of algo.now) (plan_of plan) (certificate_of cert)) }
    ensures headline { IfOk result (λ _. Headline (algorithm_of algo.now) (plan_of plan) (certificate_of cert)) }
    ensures holds { IfOk result (λ checked. (checked.algo.now ≡ algo.now) × (checked.plan ≡ plan) × (checked.cert ≡ cert)) }
    ensures refused { IfErr result (IsRefused (algorithm_of algo.now) (plan_of plan) (certificate_of cert)) }
{
    accepted_is_ready();
    accepted_is_right();
    faults_are_refusals();
    algo.is_well_formed();
    if let Some(line) = head_fault(algo, &plan) {
        return Err(CheckError::Refused(K::K1, line));
    }
    let Some(number) = group_named(&plan.groups, output_name(algo)) else {
        unreachable!();
    };
    match shares_where_accepted(rt, alloc, algo, &plan, &cert, number) {
        Ok(shares) => Ok(Checked::of(algo, plan, cert, shares.pieces, shares.cells)),
        Err(SharesError::Memory) => Err(CheckError::Memory),
        Err(SharesError::Flaw(flaw)) => Err(CheckError::Refused(flaw.code, flaw.line)),
    }
}
