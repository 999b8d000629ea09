//! From an algorithm and a schedule to a plan and its certificate.

ghost use Rattle.std.specs.Prelude.{◌≡◌, [], ◌∷◌, IfOk, IfErr, Some, None, true, false, length, map, string_bytes};
ghost use Rattle.std.specs.Option.{option_map};
ghost use Rattle.meaning.specs.Image.View.{shape_of};
ghost use Rattle.algo.specs.View.{algorithm_of};
ghost use Rattle.sched.specs.View.{schedule_of};
ghost use Rattle.sched.specs.Placing.{subject_of, placed_of};
ghost use Rattle.sched.specs.Legal.{IsLegal};
ghost use Rattle.lower.specs.declared.error.LowerError.TheVariants.{Broken};
ghost use Rattle.sched.specs.Stored.{stored_of};
ghost use Rattle.blocks.specs.Stored.{stored_of_all};
ghost use Rattle.sched.specs.Regions.{laid_of};
ghost use Rattle.regions.specs.Regions.{laid_functions};
ghost use Rattle.lower.specs.Broken as broken;
ghost use Rattle.regions.specs.Faults.{are_whole};
ghost use Rattle.lower.specs.Heads.{IsDeclared, IsHeadOf};
ghost use Rattle.lower.specs.Making.{GroupMade};
ghost use Rattle.lower.specs.Groups.{AreAlone, AreBodies, AreGroupsMade, AreMade, BodiesMade, IsAlone, IsOwnOver, IsPlanOf, party_of, rooted, AreBodiesBy, AreFoundOf, AreKnown, AreOverRegions};
ghost use Rattle.lower.specs.Groups.{GroupBy, GroupsBy, IsKeptPlan, IsKnown, all_rooted, inside_at, placed_of as inners_of, rounds};
ghost use Rattle.blocks.specs.Groups.{IsOver};
ghost use Rattle.sched.specs.Groups.{root_of};
ghost use Rattle.lower.specs.Homes.{AreAllAtHome};
ghost use Rattle.lower.specs.Planned.{TellsOf, first_unplanned, unplanned_at, unplanned_over};
ghost use Rattle.lower.specs.Refused.{Answers, AnswersBy, AnswersFrom, AreSmall, AreRegionsKept, AreUsesInside, IsFirstOver, IsNoneOver, IsRefused};

use crate::error::LowerError;
use crate::grouping::group_of;
use crate::legality::first_fault;
use crate::parties::{Party, asked_regions, laid_by_turns, parties_of, roots_of, unlaid};
use algo::scoping::same_name;
use algo::{Algo, Port};
use blocks::definitions::stored_functions;
use blocks::group::{Beginning, Made};
use plan::certificate::{Cert, Own};
use plan::{Declaration, Group, Plan};
use regions::regions::laid_functions;
use regions::uses::are_whole;
use sched::definitions::Stored;
use sched::forms::widened;
use sched::roots::{Laid, Root};
use sched::stop::Stop;
use sched::{Placement, RegionRule, Rule, Sched, SchedError, Subject, followed};
use std::alloc::{AllocError, Global};
use tree::token::Name;

/// The line of the first group of a plan.
const FIRST_GROUP: u64 = 4;

/// A plan and its certificate.
#[derive(Drop)]
pub struct Lowered {
    pub plan: Plan,
    pub certificate: Cert,
}

fn declaration(alloc: Global, port: &Port) -> Result<Declaration, AllocError>
    ensures { IfOk result (IsDeclared (string_bytes port.now.name) (shape_of port.now.shape)) }
{
    Ok(Declaration {
        name: port.name.clone()?,
        ty: port.shape.ty,
        extents: widened(alloc, &port.shape.extents)?,
    })
}

fn empty_certificate(alloc: Global) -> Cert
    ensures claims { result.claims.items ≡ [] }
    ensures needs { result.needs.items ≡ [] }
    ensures windows { result.windows.items ≡ [] }
{
    Cert {
        own: Vec::new(alloc),
        needs: Vec::new(alloc),
        claims: Vec::new(alloc),
        windows: Vec::new(alloc),
    }
}

// The group of a root function; without bounds it breaks L12. What needs, claims and windows a certificate has of it is added.
#[tactic(auto, using(crate::proofs::Rooted::alone_at, crate::proofs::Rooted::alone_known, crate::proofs::Grouped::of_party, crate::proofs::Grouped::is_known, crate::proofs::Unplanned::planned_there, crate::proofs::Unplanned::unplanned_there, crate::proofs::Unplanned::missing_there))]
fn group_at<'a>(
    alloc: Global,
    algo: &Algo,
    roots: &[Root<'a>],
    party: &Party<'a>,
    beginning: Beginning,
    certificate: &mut Cert,
) -> Result<Made, LowerError>
    ensures over { IfOk result (λ made. IsOver (party_of party.now) made.group) }
    ensures own { IfOk result (λ made. IsOwnOver (party_of party.now) beginning.number made.own) }
    ensures does { IfOk result (λ made. IsAlone party.now → GroupMade (algorithm_of algo.now) (map root_of roots.now) beginning.number
        beginning.claim beginning.line
        made.line (party_of party.now) certificate.old.claims.items certificate.new.claims.items certificate.old.needs.items
        certificate.new.needs.items made.group) }
    ensures windows { IfOk result (λ made. IsAlone party.now → certificate.new.windows.items ≡ certificate.old.windows.items) }
    ensures told { TellsOf result (unplanned_at (algorithm_of algo.now) (map root_of roots.now) beginning.number (inside_at party.now) (party_of party.now)) }
    ensures by { IfOk result (λ made. GroupBy (algorithm_of algo.now) (map root_of roots.now) beginning.number beginning.claim beginning.line made.line
        (inners_of party.now) (party_of party.now) made.group certificate.old certificate.new) }
    ensures known { IfOk result (λ _. IsKnown party.now.inners) }
{
    let inners = match &party.inners {
        Ok(inners) => inners,
        Err(name) => return Err(LowerError::Broken(RegionRule::Unbounded, *name)),
    };
    match group_of(
        alloc,
        algo,
        roots,
        &party.root,
        inners,
        beginning,
        certificate,
    ) {
        Ok(made) => Ok(made),
        Err(Stop::Memory) => Err(LowerError::Memory),
        Err(Stop::Limit) => {
            let name = party.root.stored.subject.name;
            Err(LowerError::Broken(RegionRule::Unbounded, name))
        }
    }
}

// A group and its line before others.
fn put_first(
    group: Group,
    own: Own,
    others: (Vec<Group>, Vec<Own>),
) -> Result<(Vec<Group>, Vec<Own>), AllocError>
    ensures groups { IfOk result (λ v. v.0.items ≡ group ∷ others.0.items) }
    ensures owned { IfOk result (λ v. v.1.items ≡ own ∷ others.1.items) }
{
    let (mut groups, mut owned) = others;
    groups.insert(0, group)?;
    owned.insert(0, own)?;
    Ok((groups, owned))
}

// The groups of these root functions, of which the first begins so, and what their pieces own; the rest that the certificate says of
// them is added to it.
#[tactic(auto, using(crate::proofs::Made::made_first, crate::proofs::Claimed::bodies_none, crate::proofs::Grouped::groups_none))]
fn groups_from<'a>(
    alloc: Global,
    algo: &Algo,
    roots: &[Root<'a>],
    parties: &[Party<'a>],
    beginning: Beginning,
    certificate: &mut Cert,
) -> Result<(Vec<Group>, Vec<Own>), LowerError>
    requires { length certificate.old.claims.items ≡ beginning.claim }
    ensures made { IfOk result (λ v. AreMade (map party_of parties.now) beginning.number v.0.items v.1.items) }
    ensures bodies { IfOk result (λ v. AreAlone parties.now → BodiesMade (algorithm_of algo.now) (map root_of roots.now) beginning.number
        beginning.claim beginning.line
        (map party_of parties.now) v.0.items certificate.old.claims.items certificate.new.claims.items
        certificate.old.needs.items certificate.new.needs.items) }
    ensures windows { IfOk result (λ v. AreAlone parties.now → certificate.new.windows.items ≡ certificate.old.windows.items) }
    ensures told { TellsOf result (first_unplanned (algorithm_of algo.now) (map root_of roots.now) beginning.number (map inside_at parties.now)
        (map party_of parties.now)) }
    ensures by { IfOk result (λ v. GroupsBy (algorithm_of algo.now) (map root_of roots.now) beginning.number beginning.claim beginning.line
        (map inners_of parties.now) (map party_of parties.now) v.0.items certificate.old certificate.new) }
    ensures known { IfOk result (λ _. AreKnown parties.now) }
{
    let [party, rest @ ..] = parties else {
        return Ok((Vec::new(alloc), Vec::new(alloc)));
    };
    let Some(number) = beginning.number.checked_add(1) else {
        return Err(LowerError::Memory);
    };
    let Made { group, own, line } = group_at(alloc, algo, roots, party, beginning, certificate)?;
    let next = Beginning {
        number,
        line,
        claim: certificate.claims.len() as u64,
    };
    let others = groups_from(alloc, algo, roots, rest, next, certificate)?;
    Ok(put_first(group, own, others)?)
}

// The groups of all root functions, in the order of declaration, and the certificate.
#[tactic(auto, using(crate::proofs::Claimed::bodies_all, crate::proofs::Grouped::groups_all))]
fn groups_of<'a>(
    alloc: Global,
    algo: &Algo,
    roots: &[Root<'a>],
    parties: &[Party<'a>],
) -> Result<(Vec<Group>, Cert), LowerError>
    ensures made { IfOk result (λ v. AreMade (map party_of parties.now) 0 v.0.items v.1.own.items) }
    ensures bodies { IfOk result (λ v. AreAlone parties.now → AreBodies (algorithm_of algo.now) (map root_of roots.now) 0 0 4
        (map party_of parties.now) v.0.items
        v.1.claims.items v.1.needs.items) }
    ensures windows { IfOk result (λ v. AreAlone parties.now → v.1.windows.items ≡ []) }
    ensures told { TellsOf result (first_unplanned (algorithm_of algo.now) (map root_of roots.now) 0 (map inside_at parties.now) (map party_of parties.now)) }
    ensures by { IfOk result (λ v. AreBodiesBy (algorithm_of algo.now) (map root_of roots.now) 0 0 4 (map inners_of parties.now)
        (map party_of parties.now) v.0.items
        v.1.claims.items v.1.needs.items v.1.windows.items) }
    ensures known { IfOk result (λ _. AreKnown parties.now) }
{
    let mut certificate = empty_certificate(alloc);
    let beginning = Beginning {
        number: 0,
        line: FIRST_GROUP,
        claim: 0,
    };
    let (groups, owned) = groups_from(alloc, algo, roots, parties, beginning, &mut certificate)?;
    certificate.own = owned;
    Ok((groups, certificate))
}

// One more, where the function is stored.
fn with_stored(subject: &Subject, others: usize) -> Result<usize, AllocError>
    ensures { IfOk result (λ count. count ≡ broken.with_stored (subject_of subject.now) others) }
{
    if !subject.is_stored {
        return Ok(others);
    }
    let Some(count) = others.checked_add(1) else {
        return Err(AllocError);
    };
    Ok(count)
}

// How many stored functions there are up to the one of this name, in the order of declaration.
fn stored_up_to(subjects: &[Subject], name: &Name) -> Result<usize, AllocError>
    ensures { IfOk result (λ count. count ≡ broken.stored_up_to (map subject_of subjects.now) name.now) }
{
    match subjects {
        [] => Ok(0),
        [subject, rest @ ..] => {
            if same_name(subject.name.as_str(), name.as_str()) {
                with_stored(subject, 0)
            } else {
                with_stored(subject, stored_up_to(rest, name)?)
            }
        }
    }
}

// How many stored functions are asked what they break: those up to the first that breaks a rule which asks for no region.
fn asked_count(placement: &Placement, stored: usize) -> Result<usize, AllocError>
    ensures { IfOk result (λ count. count ≡ broken.asked_count (map subject_of placement.now.subjects.items) stored placement.now.fault) }
{
    match &placement.fault {
        Some((_, name)) => stored_up_to(&placement.subjects, name),
        None => Ok(stored),
    }
}

// The plan of these groups.
fn plan_of(alloc: Global, algo: &Algo, groups: Vec<Group>) -> Result<Plan, AllocError>
    ensures groups { IfOk result (λ plan. plan.groups ≡ groups) }
    ensures head { IfOk result (IsHeadOf (algorithm_of algo.now)) }
{
    Ok(Plan {
        name: String::from_str(alloc, algo.name())?,
        input: declaration(alloc, algo.input())?,
        output: declaration(alloc, algo.output())?,
        groups,
    })
}

// The plan of functions that break no rule. Without a region one would break L12.
#[tactic(auto, using(crate::proofs::Made::plan_made))]
fn planned<'a>(
    alloc: Global,
    algo: &Algo,
    stored: &'a [Stored<'a>],
    laid: &'a [Option<Laid>],
    parties: &[Party<'a>],
) -> Result<Lowered, LowerError>
    requires roots { map party_of parties.now ≡ rooted true (map stored_of stored.now) (map (option_map laid_of) laid.now) }
    requires over { AreOverRegions (map stored_of stored.now) (map (option_map laid_of) laid.now) }
    requires alone { rooted false (map stored_of stored.now) (map (option_map laid_of) laid.now) ≡ [] → AreAlone parties.now }
    requires homes { AreAllAtHome (map party_of parties.now) (rooted false (map stored_of stored.now) (map (option_map laid_of) laid.now))
        (map inners_of parties.now) }
    requires found { AreFoundOf (algorithm_of algo.now) (length (rooted false (map stored_of stored.now) (map (option_map laid_of) laid.now)))
        (rooted false (map stored_of stored.now) (map (option_map laid_of) laid.now)) parties.now }
    ensures made { IfOk result (IsPlanOf (algorithm_of algo.now) (map stored_of stored.now) (map (option_map laid_of) laid.now) parties.now) }
    ensures told { TellsOf result (unplanned_over (algorithm_of algo.now) (map stored_of stored.now) (map (option_map laid_of) laid.now)
        (map inside_at parties.now)) }
{
    if let Some(name) = unlaid(stored, laid) {
        return Err(LowerError::Broken(RegionRule::Unbounded, name));
    }
    let roots = roots_of(alloc, stored, laid, true)?;
    let (groups, certificate) = groups_of(alloc, algo, &roots, parties)?;
    let plan = plan_of(alloc, algo, groups)?;
    Ok(Lowered { plan, certificate })
}

// The regions as the turns of loops ask for them, after so many rounds at most.
fn laid_by_rounds(
    alloc: Global,
    algo: &Algo,
    stored: &[Stored<'_>],
    laid: Vec<Option<Laid>>,
    rounds: usize,
) -> Result<Vec<Option<Laid>>, AllocError>
    requires { AreOverRegions (map stored_of stored.now) (map (option_map laid_of) laid.items) }
    ensures { IfOk result (λ v. AreOverRegions (map stored_of stored.now) (map (option_map laid_of) v.items)) }
{
    let Some(left) = rounds.checked_sub(1) else {
        return Ok(laid);
    };
    match laid_by_turns(alloc, algo, stored, &laid)? {
        Some(made) => Ok(laid_by_rounds(alloc, algo, stored, made, left)?),
        None => Ok(laid),
    }
}

// The same where functions are computed inside loops.
fn laid_by_loops(
    alloc: Global,
    algo: &Algo,
    stored: &[Stored<'_>],
    first: Vec<Option<Laid>>,
) -> Result<Vec<Option<Laid>>, AllocError>
    requires { AreOverRegions (map stored_of stored.now) (map (option_map laid_of) first.items) }
    ensures { IfOk result (λ v. AreOverRegions (map stored_of stored.now) (map (option_map laid_of) v.items)) }
{
    if stored.iter().all(|one| one.subject.is_root) {
        return Ok(first);
    }
    Ok(laid_by_rounds(alloc, algo, stored, first, stored.len())?)
}

/// The region of each stored function with the loops over it, in the order of declaration, as the turns of the loops ask for them;
/// none where no region within the limits is found.
#[tactic(auto, using(crate::proofs::Laying::needed_over))]
pub fn laid_all(
    alloc: Global,
    algo: &Algo,
    stored: &[Stored<'_>],
) -> Result<Vec<Option<Laid>>, AllocError>
    ensures laid { IfOk result (λ v. are_whole (map stored_of stored.now) ≡ true →
        map (option_map laid_of) v.items ≡ laid_functions (algorithm_of algo.now) (map stored_of stored.now)) }
    ensures over { IfOk result (λ v. AreOverRegions (map stored_of stored.now) (map (option_map laid_of) v.items)) }
{
    let laid = laid_functions(alloc, algo, stored)?;
    if are_whole(stored) {
        return Ok(laid);
    }
    Ok(laid_by_loops(alloc, algo, stored, laid)?)
}

// What a function breaks by its region, unless a rule of no higher number that asks for no region is broken by the same one.
fn unless_behind(
    fault: &Option<(Rule, Name)>,
    found: &Option<(RegionRule, Name)>,
) -> Option<(RegionRule, Name)>
    ensures { result ≡ broken.unless_behind fault.now found.now }
{
    let Some((rule, name)) = found else {
        return None;
    };
    let Some((first, owner)) = fault else {
        return Some((*rule, *name));
    };
    if same_name(owner.as_str(), name.as_str()) && first.number() <= rule.number() {
        return None;
    }
    Some((*rule, *name))
}

// What is told of a function that breaks a rule by its region.
fn refusal(found: (RegionRule, Name)) -> LowerError
    ensures { result ≡ Broken found.0 found.1 }
{
    LowerError::Broken(found.0, found.1)
}

// The plan of the stored functions over their regions, unless one breaks a rule: the first, in the order of declaration, is told.
#[tactic(auto, using(crate::proofs::Told::fault_told, crate::proofs::Told::placed_told, crate::proofs::Told::unplanned_told))]
fn plan_laid<'a>(
    alloc: Global,
    algo: &Algo,
    placement: &Placement,
    stored: &'a [Stored<'a>],
    laid: &'a [Option<Laid>],
    parties: &[Party<'a>],
) -> Result<Lowered, LowerError>
    requires laid { are_whole (map stored_of stored.now) ≡ true →
        map (option_map laid_of) laid.now ≡ laid_functions (algorithm_of algo.now) (map stored_of stored.now) }
    requires over { AreOverRegions (map stored_of stored.now) (map (option_map laid_of) laid.now) }
    requires roots { map party_of parties.now ≡ rooted true (map stored_of stored.now) (map (option_map laid_of) laid.now) }
    requires alone { rooted false (map stored_of stored.now) (map (option_map laid_of) laid.now) ≡ [] → AreAlone parties.now }
    requires homes { AreAllAtHome (map party_of parties.now) (rooted false (map stored_of stored.now) (map (option_map laid_of) laid.now))
        (map inners_of parties.now) }
    requires found { AreFoundOf (algorithm_of algo.now) (length (rooted false (map stored_of stored.now) (map (option_map laid_of) laid.now)))
        (rooted false (map stored_of stored.now) (map (option_map laid_of) laid.now)) parties.now }
    ensures { AnswersBy (algorithm_of algo.now) (map stored_of stored.now)
        (IsKeptPlan (algorithm_of algo.now) (map stored_of stored.now) (map (option_map laid_of) laid.now) parties.now)
        (IsFirstOver (algorithm_of algo.now) (map subject_of placement.now.subjects.items) (map stored_of stored.now) placement.now.fault
        (map (option_map laid_of) laid.now) (map inside_at parties.now))
        (IsNoneOver (algorithm_of algo.now) (map subject_of placement.now.subjects.items) (map stored_of stored.now) placement.now.fault
        (map (option_map laid_of) laid.now) (map inside_at parties.now))
        placement.now.fault result }
{
    let count = asked_count(placement, stored.len())?;
    let fault = placement.fault;
    let first = first_fault(alloc, algo, stored, laid, parties, count, fault)?;
    if let Some(found) = unless_behind(&placement.fault, &first) {
        return Err(refusal(found));
    }
    if let Some((rule, name)) = placement.fault {
        return Err(LowerError::Schedule(SchedError::Broken(rule, name)));
    }
    planned(alloc, algo, stored, laid, parties)
}

// The same over these regions, or over those for which the turns of loops ask in their place, asked at most so many times.
#[tactic(auto, using(crate::proofs::Asking::no_more, crate::proofs::Asking::no_others, crate::proofs::Asking::one_more))]
fn plan_by_turns(
    alloc: Global,
    algo: &Algo,
    placement: &Placement,
    stored: &[Stored<'_>],
    laid: &[Option<Laid>],
    rounds: usize,
) -> Result<Lowered, LowerError>
    requires laid { are_whole (map stored_of stored.now) ≡ true →
        map (option_map laid_of) laid.now ≡ laid_functions (algorithm_of algo.now) (map stored_of stored.now) }
    requires once { are_whole (map stored_of stored.now) ≡ true → rounds ≡ 0 }
    requires over { AreOverRegions (map stored_of stored.now) (map (option_map laid_of) laid.now) }
    ensures { AnswersFrom (algorithm_of algo.now) (map subject_of placement.now.subjects.items) (map stored_of stored.now) rounds
        (map (option_map laid_of) laid.now) placement.now.fault result }
{
    let parties = parties_of(alloc, algo, &*stored, &*laid)?;
    let Some(left) = rounds.checked_sub(1) else {
        return plan_laid(alloc, algo, placement, &*stored, &*laid, &parties);
    };
    match asked_regions(alloc, algo, &*stored, &*laid, &parties)? {
        Some(others) => plan_by_turns(alloc, algo, placement, &*stored, &others, left),
        None => plan_laid(alloc, algo, placement, &*stored, &*laid, &parties),
    }
}

// Whether each is a root function.
fn are_rooted(stored: &[Stored<'_>]) -> bool
    ensures { result ≡ all_rooted (map stored_of stored.now) }
{
    match stored {
        [] => true,
        [one, rest @ ..] => one.subject.is_root && are_rooted(rest),
    }
}

// How many times the turns of loops may be asked.
#[tactic(auto, using(crate::proofs::Asking::no_rounds, crate::proofs::Asking::as_many_rounds))]
fn rounds_of(stored: &[Stored<'_>]) -> usize
    ensures { result ≡ rounds (map stored_of stored.now) }
{
    if are_rooted(stored) { 0 } else { stored.len() }
}

// The plan of the stored functions.
#[tactic(auto, using(crate::proofs::Laying::needed_over, crate::proofs::Asking::whole_once, crate::proofs::Asking::from_needed))]
fn plan_stored(
    alloc: Global,
    algo: &Algo,
    placement: &Placement,
    stored: &[Stored<'_>],
) -> Result<Lowered, LowerError>
    ensures { Answers (algorithm_of algo.now) (map subject_of placement.now.subjects.items) (map stored_of stored.now) placement.now.fault result }
{
    let laid = laid_functions(alloc, algo, stored)?;
    plan_by_turns(alloc, algo, placement, stored, &laid, rounds_of(stored))
}

// The plan of a placement.
fn plan_placed(alloc: Global, algo: &Algo, placement: &Placement) -> Result<Lowered, LowerError>
    requires { length placement.now.subjects.items ≡ length (algorithm_of algo.now).functions }
    ensures { Answers (algorithm_of algo.now) (map subject_of placement.now.subjects.items)
        (stored_of_all (algorithm_of algo.now) (map subject_of placement.now.subjects.items) (map placed_of placement.now.functions.items))
        placement.now.fault result }
{
    let stored = stored_functions(alloc, algo, placement)?;
    plan_stored(alloc, algo, placement, &stored)
}

/// The plan that a schedule makes of an algorithm, and its certificate: one group for each root function in the order of
/// declaration, whose pieces are the turns of its parallel loops. The plan is not checked here.
///
/// # Errors
/// `Schedule` with the first directive that breaks one of L1 to L5, as `sched::followed` tells it. Then, function by function
/// in the order of declaration, the lowest rule that the function breaks: `Schedule` with L4, L5, L8 or L10, `Broken` with L8
/// over fewer points than the factor, L9 of a fold, L11 or L12. `Memory`.
#[tactic(auto, using(crate::proofs::Told::unfollowed_told))]
pub fn lower(alloc: Global, algo: &Algo, sched: &Sched) -> Result<Lowered, LowerError>
    ensures legal { IfOk result (λ _. IsLegal (algorithm_of algo.now) (schedule_of sched.now)) }

    // L11: of no stored function a definition, with the calls put in, passes the limits of an expression.
    ensures small { IfOk result (λ _. AreSmall (algorithm_of algo.now) (schedule_of sched.now)) }

    // Where each stored function is a root function, none breaks L8, L11 or L12 by its region, and forms tell the lines of its group.
    ensures regions { IfOk result (λ _. AreRegionsKept (algorithm_of algo.now) (schedule_of sched.now)) }

    // L6: no stored function is used outside of the loop at which it is computed, or in a definition that lacks it.
    ensures uses { IfOk result (λ _. AreUsesInside (algorithm_of algo.now) (schedule_of sched.now)) }

    // One group for each stored root function, over its region, with a piece for each turn of its parallel loops.
    ensures groups { IfOk result (AreGroupsMade (algorithm_of algo.now) (schedule_of sched.now)) }
    ensures refused { IfErr result (IsRefused (algorithm_of algo.now) (schedule_of sched.now)) }
{
    let placement = followed(alloc, algo, sched)?;
    plan_placed(alloc, algo, &placement)
}
