//! From a schedule's text to the text of a plan file that the checker accepts.

ghost use Rattle.std.specs.Prelude.{◌≡◌, IfErr, IfOk, OnOk, string_bytes};
ghost use Rattle.algo.specs.View.{algorithm_of};
ghost use Rattle.sched.specs.Legal.{IsLegal};
ghost use Rattle.sched.specs.View.{schedule_of};
ghost use Rattle.plan.specs.View.{plan_of};
ghost use Rattle.plan.specs.Certificate.Certificate.{certificate_of};
ghost use Rattle.completeness.specs.OfPlans.{file_text};
ghost use Rattle.stencil.specs.Compiling.{IsCompiledPlan, IsLowered, IsNotCompiled, IsNotLowered, IsPlanText, IsScheduleRefused, IsScheduleText, IsUnaccepted, IsUnwritten};
ghost use Rattle.stencil.specs.Faults.{limit_fault, lower_fault};
ghost use Rattle.commands.specs.Pipeline.PlanFiles.{HasPlan, IsAccepted};

use algo::Algo;
use checked_plan::Checked;
use commands::pipeline::{BrokenRule, Fault, check_plan};
use completeness::laws::{own_lines_stand, whole_plans_are_shared};
use completeness::said::{files_are_of_plans, stores_are_small};
use completeness::told::faults_are_limits;
use lower::{LowerError, Lowered, lower};
use sched::Sched;
use soundness::outline::refusals::K;
use std::alloc::{AllocError, Global};
use std::thread::Threads;

/// Reads a schedule's text.
///
/// # Errors
/// `Schedule` where the text is none, and `Memory` where memory runs out.
pub fn read_schedule(alloc: Global, text: &str) -> Result<Sched, Fault>
    ensures said { IfOk result (λ sched. IsScheduleText text.now (schedule_of sched)) }
    ensures refused { IfErr result (IsScheduleRefused text.now) }
{
    Ok(Sched::read(alloc, text)?)
}

/// The refusal of a schedule for its algorithm, as the program tells it.
fn refused(error: LowerError) -> Fault
    ensures { result ≡ lower_fault error }
{
    match error {
        LowerError::Memory => Fault::Memory,
        LowerError::Schedule(error) => Fault::from(error),
        LowerError::Broken(rule, function) => Fault::Rule {
            rule: BrokenRule::Region(rule),
            function,
        },
    }
}

/// The plan of a schedule with its certificate, which nobody has checked.
fn lowered(alloc: Global, algo: &Algo, sched: &Sched) -> Result<Lowered, Fault>
    ensures legal { IfOk result (λ _. IsLegal (algorithm_of algo.now) (schedule_of sched.now)) }
    ensures made { IfOk result (IsLowered (algorithm_of algo.now) (schedule_of sched.now)) }
    ensures refused { IfErr result (IsNotLowered (algorithm_of algo.now) (schedule_of sched.now)) }
{
    algo.is_well_formed();
    algo.is_read();
    own_lines_stand();
    whole_plans_are_shared();
    faults_are_limits();
    files_are_of_plans();
    stores_are_small();
    match lower(alloc, algo, sched) {
        Ok(lowered) => Ok(lowered),
        Err(error) => Err(refused(error)),
    }
}

/// The plan file of a plan and its certificate.
fn written(alloc: Global, lowered: &Lowered) -> Result<String, AllocError>
    ensures { IfOk result (λ file. string_bytes file ≡ file_text (plan_of lowered.now.plan) (certificate_of lowered.now.certificate)) }
{
    let mut file = nest::write(alloc, &lowered.plan)?;
    let certificate = cert::write(alloc, &lowered.certificate)?;
    file.push_str(certificate.as_str())?;
    Ok(file)
}

/// The text of the plan that is made of a schedule, which nobody has checked.
pub(crate) fn plan_text(alloc: Global, algo: &Algo, sched: &Sched) -> Result<String, Fault>
    ensures legal { OnOk result (IsLegal (algorithm_of algo.now) (schedule_of sched.now)) }
    ensures made { IfOk result (λ file. IsPlanText (algorithm_of algo.now) (schedule_of sched.now) (string_bytes file)) }
    ensures refused { IfErr result (IsUnwritten (algorithm_of algo.now) (schedule_of sched.now)) }
{
    let plan = lowered(alloc, algo, sched)?;
    Ok(written(alloc, &plan)?)
}

/// A refusal of a text that was made here: where it is not read, it passes a limit of plan files.
fn with_limit(fault: Fault) -> Fault
    ensures { result ≡ limit_fault fault }
{
    match fault {
        Fault::Form { line } => Fault::Plan { code: K::K14, line },
        Fault::Limit { line } => Fault::Plan { code: K::K14, line },
        _ => fault,
    }
}

/// Has a compiled plan's file read and checked.
fn accept<'a, T: Threads + Sync>(
    rt: &T,
    alloc: Global,
    algo: &'a Algo,
    file: &str,
) -> Result<Checked<'a>, Fault>
    ensures checked { IfOk result (λ checked. checked.algo.now ≡ algo.now) }
    ensures accepted { OnOk result (HasPlan (algorithm_of algo.now) file.now) }
    ensures read { IfOk result (λ checked. IsAccepted (algorithm_of algo.now) file.now checked.plan checked.cert) }
    ensures refused { IfErr result (IsUnaccepted (algorithm_of algo.now) file.now) }
{
    match check_plan(rt, alloc, algo, file) {
        Ok(checked) => Ok(checked),
        Err(fault) => Err(with_limit(fault)),
    }
}

/// Compiles a schedule to a checked plan: that of the text which `compile` writes, as it was read and accepted.
///
/// # Errors
/// Those of `compile`.
pub fn compile_checked<'a, T: Threads + Sync>(
    rt: &T,
    alloc: Global,
    algo: &'a Algo,
    sched: &Sched,
) -> Result<Checked<'a>, Fault>
    ensures legal { OnOk result (IsLegal (algorithm_of algo.now) (schedule_of sched.now)) }
    ensures checked { IfOk result (λ checked. checked.algo.now ≡ algo.now) }
    ensures of_schedule { IfOk result (λ checked. IsCompiledPlan (algorithm_of algo.now) (schedule_of sched.now) checked.plan checked.cert) }
    ensures refused { IfErr result (IsNotCompiled (algorithm_of algo.now) (schedule_of sched.now)) }
{
    let file = plan_text(alloc, algo, sched)?;
    accept(rt, alloc, algo, file.as_str())
}

/// Compiles a schedule to a plan file: the text of the plan that `lower` makes of it, which is read and checked against the
/// algorithm as any other.
///
/// # Errors
/// `Rule` with the rule that the schedule breaks; `Plan` with the code and the line of what the checker refuses, K14 where
/// the line passes a limit of plan files; `Memory` where memory runs out.
pub fn compile<T: Threads + Sync>(
    rt: &T,
    alloc: Global,
    algo: &Algo,
    sched: &Sched,
) -> Result<String, Fault>
    ensures of_schedule { IfOk result (λ file. IsPlanText (algorithm_of algo.now) (schedule_of sched.now) (string_bytes file)) }
    ensures accepted { IfOk result (λ file. HasPlan (algorithm_of algo.now) (string_bytes file)) }
    ensures refused { IfErr result (IsNotCompiled (algorithm_of algo.now) (schedule_of sched.now)) }
{
    let file = plan_text(alloc, algo, sched)?;
    drop(accept(rt, alloc, algo, file.as_str())?);
    Ok(file)
}
