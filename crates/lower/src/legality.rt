//! The first function that breaks a rule by its regions.

ghost use Rattle.std.specs.Prelude.{◌≡◌, IfOk, false, map, take};
ghost use Rattle.std.specs.Option.{option_map};
ghost use Rattle.algo.specs.View.{algorithm_of};
ghost use Rattle.sched.specs.Stored.{formula_of, stored_of};
ghost use Rattle.blocks.specs.Large.{IsByRegion};
ghost use Rattle.lower.specs.Large.{IsFault, Finds};
ghost use Rattle.sched.specs.Calls.{call_of};
ghost use Rattle.sched.specs.Regions.{laid_of};
ghost use Rattle.lower.specs.Broken as broken;
ghost use Rattle.lower.specs.Faults as faults;
ghost use Rattle.lower.specs.Groups.{inside_at};
ghost use Rattle.lower.specs.Uses.{FindsUse, is_use};
ghost use Rattle.regions.specs.Uses.{is_used_outside};

use crate::parties::{Party, fault_inside};
use algo::Algo;
use blocks::legality::{Totals, fault_within, first_laid, other_laid, totals_with, unless_left};
use regions::lacking::calls_left;
use regions::uses::has_outside_use;
use sched::calls::Call;
use sched::definitions::{Formula, Stored};
use sched::roots::{Laid, Root};
use sched::{RegionRule, Rule};
use std::alloc::{AllocError, Global};
use tree::token::Name;

// The rule of the lowest number that a function of this region breaks: a root function over that, another one wherever it is computed.
fn fault_of_kind(
    alloc: Global,
    algo: &Algo,
    root: &Root<'_>,
    parties: &[Party<'_>],
    totals: Totals,
) -> Result<Option<RegionRule>, AllocError>
    ensures kind { IfOk result IsByRegion }
    ensures rule { IfOk result (λ rule. rule ≡ broken.fault_of_kind (algorithm_of algo.now) (map inside_at parties.now) totals
        (stored_of root.now.stored.now) (map formula_of root.now.formulas.now) (laid_of root.now.laid.now)) }
{
    if root.stored.subject.is_root {
        fault_within(alloc, algo, root, totals.joined(root.laid))
    } else {
        fault_inside(alloc, algo, root.stored.subject.name.as_str(), parties)
    }
}

// The rule that a function of these definitions breaks. Where one of these calls leaves it without a region, none is missed.
fn fault_by_region(
    alloc: Global,
    algo: &Algo,
    stored: &Stored<'_>,
    formulas: &[Formula],
    laid: Option<&Laid>,
    parties: &[Party<'_>],
    left: &[Call<'_>],
    totals: Totals,
) -> Result<Option<RegionRule>, AllocError>
    ensures kind { IfOk result IsByRegion }
    ensures rule { IfOk result (λ rule. rule ≡ broken.fault_over (algorithm_of algo.now) (map inside_at parties.now) (map call_of left.now) totals
        (stored_of stored.now) (map formula_of formulas.now) (option_map (λ l. laid_of l.now) laid.entry)) }
{
    let Some(laid) = laid else {
        return Ok(unless_left(stored, left));
    };
    let root = Root {
        stored,
        formulas,
        laid,
    };
    fault_of_kind(alloc, algo, &root, parties, totals)
}

// The rule that a function breaks.
#[tactic(auto, using(crate::proofs::Sizes::fault_of_small, regions::proofs::Sizes::small_at, regions::proofs::Sizes::large_at, crate::proofs::Breaking::fault_found, crate::proofs::Breaking::fault_large, crate::proofs::Outsides::by_region))]
fn fault_of(
    alloc: Global,
    algo: &Algo,
    stored: &Stored<'_>,
    laid: Option<&Laid>,
    parties: &[Party<'_>],
    left: &[Call<'_>],
    totals: Totals,
) -> Result<Option<RegionRule>, AllocError>
    ensures kind { IfOk result (IsFault (stored_of stored.now)) }
    ensures rule { IfOk result (λ rule. rule ≡ broken.fault_of (algorithm_of algo.now) (map inside_at parties.now) (map call_of left.now) totals
        (stored_of stored.now) (option_map (λ l. laid_of l.now) laid.entry)) }
    ensures other { IfOk result (λ rule. is_use rule ≡ false) }
{
    match &stored.formulas {
        None => Ok(Some(RegionRule::TooLarge)),
        Some(formulas) => {
            fault_by_region(alloc, algo, stored, formulas, laid, parties, left, totals)
        }
    }
}

// The rule that one of all functions breaks: a use outside of its loop, or one by its region.
#[tactic(auto, using(crate::proofs::Outsides::no_use_told, crate::proofs::Breaking::used_outside, crate::proofs::Breaking::not_used))]
fn rule_broken<'a>(
    alloc: Global,
    algo: &Algo,
    all: &[Stored<'a>],
    stored: &Stored<'a>,
    laid: Option<&Laid>,
    parties: &[Party<'_>],
    left: &[Call<'_>],
    totals: Totals,
) -> Result<Option<RegionRule>, AllocError>
    ensures kind { IfOk result (IsFault (stored_of stored.now)) }
    ensures rule { IfOk result (λ rule. rule ≡ broken.rule_of (algorithm_of algo.now) (map stored_of all.now) (map inside_at parties.now)
        (map call_of left.now) totals (stored_of stored.now) (option_map (λ l. laid_of l.now) laid.entry)) }
    ensures uses { IfOk result (λ rule. is_use rule ≡ is_used_outside (map stored_of all.now) (stored_of stored.now)) }
{
    if has_outside_use(alloc, all, stored)? {
        return Ok(Some(RegionRule::OutsideUse));
    }
    fault_of(alloc, algo, stored, laid, parties, left, totals)
}

// The first of so many functions that breaks a rule, among all stored ones, behind others that have these totals.
#[tactic(auto, using(crate::proofs::Sizes::found_later, crate::proofs::Sizes::told_here, crate::proofs::Sizes::none_asked, crate::proofs::Sizes::none_there, crate::proofs::Breaking::none_asked, crate::proofs::Breaking::none_there, crate::proofs::Outsides::none_asked, crate::proofs::Outsides::none_there))]
fn fault_from<'a>(
    alloc: Global,
    algo: &Algo,
    all: &[Stored<'a>],
    parties: &[Party<'_>],
    count: usize,
    left: &[Call<'_>],
    totals: Totals,
    stored: &[Stored<'a>],
    laid: &[Option<Laid>],
) -> Result<Option<(RegionRule, Name)>, AllocError>
    ensures sizes { IfOk result (Finds (map stored_of stored.now) count) }
    ensures first { IfOk result (λ found. found ≡ broken.first_from (algorithm_of algo.now) (map stored_of all.now) (map inside_at parties.now)
        (map call_of left.now) totals (take count (map stored_of stored.now)) (map (option_map laid_of) laid.now)) }
    ensures uses { IfOk result (FindsUse (map stored_of all.now) (map stored_of stored.now) count) }
{
    let Some(fewer) = count.checked_sub(1) else {
        return Ok(None);
    };
    match stored {
        [] => Ok(None),
        [one, others @ ..] => {
            let first = first_laid(laid);
            match rule_broken(alloc, algo, all, one, first, parties, left, totals)? {
                Some(rule) => Ok(Some((rule, one.subject.name))),
                None => {
                    let totals = totals_with(totals, one, first);
                    let rest = other_laid(laid);
                    fault_from(alloc, algo, all, parties, fewer, left, totals, others, rest)
                }
            }
        }
    }
}

/// The first of so many functions, in the order of declaration, that breaks a rule, with the rule of the lowest number; behind
/// them one may break a rule of its placing. A function that is broken may leave others without regions, of which that is not told.
pub(crate) fn first_fault(
    alloc: Global,
    algo: &Algo,
    stored: &[Stored<'_>],
    laid: &[Option<Laid>],
    parties: &[Party<'_>],
    count: usize,
    fault: Option<(Rule, Name)>,
) -> Result<Option<(RegionRule, Name)>, AllocError>
    ensures sizes { IfOk result (Finds (map stored_of stored.now) count) }
    ensures first { IfOk result (λ found. found ≡ broken.first_from (algorithm_of algo.now) (map stored_of stored.now) (map inside_at parties.now)
        (broken.calls_left (algorithm_of algo.now) (map stored_of stored.now) fault) faults.no_totals
        (take count (map stored_of stored.now)) (map (option_map laid_of) laid.now)) }
    ensures uses { IfOk result (FindsUse (map stored_of stored.now) (map stored_of stored.now) count) }
{
    let left = calls_left(alloc, &*algo, &*stored, &fault, &*stored)?;
    let totals = Totals {
        cells: 0,
        pieces: 0,
    };
    fault_from(
        alloc, algo, stored, parties, count, &left, totals, stored, laid,
    )
}
