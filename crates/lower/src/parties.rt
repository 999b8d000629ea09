//! Root functions with those that are computed inside their loops: the rules that these break, and the regions that all of
//! them ask for.

ghost use Rattle.std.specs.Prelude.{◌≡◌, [], IfOk, IfSome, true, false, None, Some, length, map};
ghost use Rattle.std.specs.List.{list_any};
ghost use Rattle.std.specs.Option.{option_map};
ghost use Rattle.algo.specs.View.{algorithm_of};
ghost use Rattle.lower.specs.Asked as asked;
ghost use Rattle.regions.specs.Asked as regions;
ghost use Rattle.lower.specs.Broken as broken;
ghost use Rattle.lower.specs.Computed as computed;
ghost use Rattle.blocks.specs.Large.{IsByRegion};
ghost use Rattle.sched.specs.Stored.{formula_of, stored_of};
ghost use Rattle.sched.specs.Limited.{Gives, Tells};
ghost use Rattle.sched.specs.Placed.{inner_seen, later_seen};
ghost use Rattle.sched.specs.Regions.{laid_of};
ghost use Rattle.sched.specs.Taken.{site_of};
ghost use Rattle.lower.specs.Groups as spec;
ghost use Rattle.sched.specs.Groups as sched;
ghost use Rattle.lower.specs.Homes as homes;
ghost use Rattle.lower.specs.Planned as planned;

use crate::inner::inners_of;
use algo::Algo;
use blocks::legality::is_bounded;
use lin::{Region, Scope, Span1};
use regions::fetching::sites_of;
use regions::regions::{Ends, add_extents, closed, ends_of, is_same, unreached, widen};
use regions::turns::has_short_turn;
use sched::RegionRule;
use sched::definitions::{Formula, Stored};
use sched::hosts::{Inner, Later};
use sched::roots::{Laid, Root, Site};
use sched::stop::Stop;
use std::alloc::{AllocError, Global};
use tree::token::Name;

/// A root function, and those that are computed inside its loops.
#[derive(Drop)]
pub struct Party<'a> {
    pub root: Root<'a>,
    /// Or the name of one of which a bound is missing.
    pub inners: Result<Vec<Inner<'a>>, Name>,
}

// ---- root functions

fn is_of_kind(one: &Stored<'_>, is_root: bool) -> bool
    ensures { result ≡ spec.is_same (stored_of one.now).subject.is_root is_root }
{
    if is_root {
        one.subject.is_root
    } else {
        !one.subject.is_root
    }
}

// A stored function before others, where it has definitions and a region, and is a root function or is none.
#[tactic(auto, using(crate::proofs::Rooted::not_defined, crate::proofs::Rooted::not_laid, crate::proofs::Rooted::of_kind, crate::proofs::Rooted::of_other))]
fn before_roots<'a>(
    is_root: bool,
    stored: &'a Stored<'a>,
    laid: &'a Option<Laid>,
    roots: Vec<Root<'a>>,
) -> Result<Vec<Root<'a>>, AllocError>
    ensures { IfOk result (λ v. map sched.root_of v.items ≡ spec.rooted_by is_root (stored_of stored.now) (stored_of stored.now).formulas
        (option_map laid_of laid.entry.now) (map sched.root_of roots.entry.items)) }
{
    let Some(formulas) = &stored.formulas else {
        return Ok(roots);
    };
    let Some(laid) = laid else {
        return Ok(roots);
    };
    if !is_of_kind(stored, is_root) {
        return Ok(roots);
    }
    let mut roots = roots;
    let root = Root {
        stored,
        formulas,
        laid,
    };
    roots.insert(0, root)?;
    Ok(roots)
}

/// The stored functions that have a region and definitions: those that are root, or those that are computed inside loops.
pub fn roots_of<'a>(
    alloc: Global,
    stored: &'a [Stored<'a>],
    laid: &'a [Option<Laid>],
    is_root: bool,
) -> Result<Vec<Root<'a>>, AllocError>
    ensures { IfOk result (λ v. map sched.root_of v.items ≡ spec.rooted is_root (map stored_of stored.now) (map (option_map laid_of) laid.now)) }
{
    match stored {
        [] => Ok(Vec::new(alloc)),
        [one, others @ ..] => match laid {
            [] => Ok(Vec::new(alloc)),
            [first, rest @ ..] => {
                let roots = roots_of(alloc, others, rest, is_root)?;
                before_roots(is_root, one, first, roots)
            }
        },
    }
}

// Those of some functions that are computed inside the loops of a root function, or the name of one of which a bound is missing.
#[tactic(auto, using(crate::proofs::Along::found_without))]
fn inside_of<'a>(
    alloc: Global,
    algo: &Algo,
    functions: &[Root<'a>],
    root: &Root<'a>,
) -> Result<Result<Vec<Inner<'a>>, Name>, AllocError>
    ensures none { IfOk result (λ inners. functions.now ≡ [] → spec.HasNone inners) }
    ensures homes { IfOk result (λ inners. homes.AreAtHome (sched.root_of root.now) (map sched.root_of functions.now) (spec.inners_of inners)) }
    ensures found { IfOk result (computed.AreFoundIf (algorithm_of algo.now) (sched.root_of root.now) (map sched.root_of functions.now) (length functions.now) []) }
{
    if functions.is_empty() {
        return Ok(Ok(Vec::new(alloc)));
    }
    inners_of(alloc, algo, root, functions)
}

// A root function with those that are computed inside its loops.
fn party_of<'a>(
    alloc: Global,
    algo: &Algo,
    functions: &[Root<'a>],
    root: &Root<'a>,
) -> Result<Party<'a>, AllocError>
    ensures root { IfOk result (λ party. party.root ≡ root.now) }
    ensures alone { IfOk result (λ party. functions.now ≡ [] → spec.IsAlone party) }
    ensures homes { IfOk result (λ party. homes.AreAtHome (spec.party_of party) (map sched.root_of functions.now) (spec.placed_of party)) }
    ensures found { IfOk result (λ party. computed.AreFoundIf (algorithm_of algo.now) (spec.party_of party) (map sched.root_of functions.now)
        (length functions.now) [] party.inners) }
{
    Ok(Party {
        root: *root,
        inners: inside_of(alloc, algo, functions, root)?,
    })
}

// Each of these root functions with those of the functions that are computed inside its loops.
#[tactic(auto, using(crate::proofs::Grouped::first_at_home, crate::proofs::Grouped::first_found))]
fn parties_from<'a>(
    alloc: Global,
    algo: &Algo,
    functions: &[Root<'a>],
    roots: &[Root<'a>],
) -> Result<Vec<Party<'a>>, AllocError>
    ensures roots { IfOk result (λ v. map spec.party_of v.items ≡ map sched.root_of roots.now) }
    ensures alone { IfOk result (λ v. functions.now ≡ [] → spec.AreAlone v.items) }
    ensures homes { IfOk result (λ v. homes.AreAllAtHome (map spec.party_of v.items) (map sched.root_of functions.now) (map spec.placed_of v.items)) }
    ensures found { IfOk result (λ v. spec.AreFoundOf (algorithm_of algo.now) (length functions.now) (map sched.root_of functions.now) v.items) }
{
    match roots {
        [] => Ok(Vec::new(alloc)),
        [root, rest @ ..] => {
            let first = party_of(alloc, algo, functions, root)?;
            let mut parties = parties_from(alloc, algo, functions, rest)?;
            parties.insert(0, first)?;
            Ok(parties)
        }
    }
}

/// Each root function with those that are computed inside its loops, in the order of declaration.
#[tactic(auto, using(crate::proofs::Rooted::no_entries, crate::proofs::Grouped::at_home_among, crate::proofs::Grouped::found_among))]
pub fn parties_of<'a>(
    alloc: Global,
    algo: &Algo,
    stored: &'a [Stored<'a>],
    laid: &'a [Option<Laid>],
) -> Result<Vec<Party<'a>>, AllocError>
    ensures roots { IfOk result (λ v. map spec.party_of v.items ≡ spec.rooted true (map stored_of stored.now) (map (option_map laid_of) laid.now)) }
    ensures alone { IfOk result (λ v. spec.rooted false (map stored_of stored.now) (map (option_map laid_of) laid.now) ≡ [] → spec.AreAlone v.items) }
    ensures homes { IfOk result (λ v. homes.AreAllAtHome (map spec.party_of v.items)
        (spec.rooted false (map stored_of stored.now) (map (option_map laid_of) laid.now)) (map spec.placed_of v.items)) }
    ensures found { IfOk result (λ v. spec.AreFoundOf (algorithm_of algo.now)
        (length (spec.rooted false (map stored_of stored.now) (map (option_map laid_of) laid.now)))
        (spec.rooted false (map stored_of stored.now) (map (option_map laid_of) laid.now)) v.items) }
{
    let functions = roots_of(alloc, stored, laid, false)?;
    let roots = roots_of(alloc, stored, laid, true)?;
    parties_from(alloc, algo, &functions, &roots)
}

// Whether a function has definitions and a region, where it is a root function.
#[tactic(auto, using(crate::proofs::Rooted::has_both, crate::proofs::Rooted::is_no_root))]
fn is_laid(one: &Stored<'_>, laid: &Option<Laid>) -> bool
    ensures laid { result ≡ true → (stored_of one.now).subject.is_root ≡ true → spec.has_region (stored_of one.now).formulas (option_map laid_of laid.now) ≡ true }
    ensures is { result ≡ planned.is_laid (stored_of one.now) (option_map laid_of laid.now) }
{
    if !one.subject.is_root {
        return true;
    }
    match (&one.formulas, laid) {
        (Some(_), Some(_)) => true,
        _ => false,
    }
}

/// The first root function that lacks definitions or a region.
pub(crate) fn unlaid(stored: &[Stored<'_>], laid: &[Option<Laid>]) -> Option<Name>
    ensures laid { result ≡ None → spec.AreLaid (map stored_of stored.now) (map (option_map laid_of) laid.now) }
    ensures first { result ≡ planned.first_unlaid (map stored_of stored.now) (map (option_map laid_of) laid.now) }
{
    match stored {
        [] => None,
        [one, others @ ..] => match laid {
            [] => Some(one.subject.name),
            [first, rest @ ..] => {
                if is_laid(one, first) {
                    unlaid(others, rest)
                } else {
                    Some(one.subject.name)
                }
            }
        },
    }
}

// ---- rules

// Whether in some turn after the first one a loop that is split with `shift` has fewer numbers than a block.
fn is_later_short(alloc: Global, root: &Root<'_>, later: &Option<Later>) -> Result<bool, Stop>
    ensures { Gives result (λ yes. yes) (broken.is_later_short (stored_of root.now.stored.now) (option_map later_seen later.now)) }
{
    match later {
        Some(later) => has_short_turn(alloc, root, &later.scope, &later.region),
        None => Ok(false),
    }
}

// The same in any turn.
fn is_short(alloc: Global, inner: &Inner<'_>) -> Result<bool, Stop>
    ensures { Gives result (λ yes. yes) (broken.is_short (inner_seen inner.now)) }
{
    if has_short_turn(alloc, &inner.root, &inner.scope, &inner.region)? {
        return Ok(true);
    }
    is_later_short(alloc, &inner.root, &inner.later)
}

// Whether each index of the input and of the function itself is shown to lie where it may, in the turns after the first one.
fn is_later_bounded(alloc: Global, algo: &Algo, inner: &Inner<'_>) -> Result<bool, Stop>
    ensures { Gives result (λ yes. yes) (broken.is_later_bounded (algorithm_of algo.now) (inner_seen inner.now) (option_map later_seen inner.now.later)) }
{
    match &inner.later {
        Some(later) => is_bounded(
            alloc,
            algo,
            &inner.root,
            &later.scope,
            &later.nests,
            &inner.region,
        ),
        None => Ok(true),
    }
}

// The same in any turn.
fn are_nests_bounded(alloc: Global, algo: &Algo, inner: &Inner<'_>) -> Result<bool, Stop>
    ensures { Gives result (λ yes. yes) (broken.are_nests_bounded (algorithm_of algo.now) (inner_seen inner.now)) }
{
    let Inner {
        root,
        scope,
        nests,
        region,
        ..
    } = inner;
    if is_bounded(alloc, algo, root, scope, nests, region)? {
        is_later_bounded(alloc, algo, inner)
    } else {
        Ok(false)
    }
}

// The same where no turn needs too many numbers.
fn is_inner_bounded(alloc: Global, algo: &Algo, inner: &Inner<'_>) -> Result<bool, Stop>
    ensures { Gives result (λ yes. yes) (broken.is_inner_bounded (algorithm_of algo.now) (inner_seen inner.now)) }
{
    if inner.is_small {
        are_nests_bounded(alloc, algo, inner)
    } else {
        Ok(false)
    }
}

// The rule of the lowest number that a function breaks where it is computed.
fn broken_by(alloc: Global, algo: &Algo, inner: &Inner<'_>) -> Result<Option<RegionRule>, Stop>
    ensures kind { IfOk result IsByRegion }
    ensures rule { Gives result (λ rule. rule) (broken.broken_by (algorithm_of algo.now) (inner_seen inner.now)) }
{
    if is_short(alloc, inner)? {
        return Ok(Some(RegionRule::ShortShift));
    }
    if !inner.fits {
        return Ok(Some(RegionRule::SmallFold));
    }
    if is_inner_bounded(alloc, algo, inner)? {
        Ok(None)
    } else {
        Ok(Some(RegionRule::Unbounded))
    }
}

fn lower_of(first: Option<RegionRule>, second: Option<RegionRule>) -> Option<RegionRule>
    requires first { IsByRegion first }
    requires second { IsByRegion second }
    ensures kind { IsByRegion result }
    ensures rule { result ≡ broken.lower_of first second }
{
    match (first, second) {
        (Some(one), Some(other)) => {
            if other.number() < one.number() {
                Some(other)
            } else {
                Some(one)
            }
        }
        (None, other) => other,
        (one, None) => one,
    }
}

// The same where bounds are missing, which is L12.
fn fault_at(alloc: Global, algo: &Algo, inner: &Inner<'_>) -> Result<Option<RegionRule>, AllocError>
    ensures kind { IfOk result IsByRegion }
    ensures rule { IfOk result (λ rule. rule ≡ broken.fault_at (algorithm_of algo.now) (inner_seen inner.now)) }
{
    match broken_by(alloc, algo, inner) {
        Ok(rule) => Ok(rule),
        Err(Stop::Limit) => Ok(Some(RegionRule::Unbounded)),
        Err(Stop::Memory) => Err(AllocError),
    }
}

// With the rule that the function of this name breaks here, if it is this one.
fn with_fault(
    alloc: Global,
    algo: &Algo,
    name: &str,
    inner: &Inner<'_>,
    known: Option<RegionRule>,
) -> Result<Option<RegionRule>, AllocError>
    requires { IsByRegion known }
    ensures kind { IfOk result IsByRegion }
    ensures rule { IfOk result (λ rule. rule ≡ broken.with_fault (algorithm_of algo.now) name.now (inner_seen inner.now) known) }
{
    if inner.root.stored.subject.name.as_str() == name {
        Ok(lower_of(known, fault_at(alloc, algo, inner)?))
    } else {
        Ok(known)
    }
}

// With those that it breaks where it is computed among these.
fn with_faults(
    alloc: Global,
    algo: &Algo,
    name: &str,
    inners: &[Inner<'_>],
    known: Option<RegionRule>,
) -> Result<Option<RegionRule>, AllocError>
    requires { IsByRegion known }
    ensures kind { IfOk result IsByRegion }
    ensures rule { IfOk result (λ rule. rule ≡ broken.with_faults (algorithm_of algo.now) name.now (map inner_seen inners.now) known) }
{
    match inners {
        [] => Ok(known),
        [inner, rest @ ..] => {
            let found = with_fault(alloc, algo, name, inner, known)?;
            with_faults(alloc, algo, name, rest, found)
        }
    }
}

// The rule of the lowest number that a function breaks inside the loops of a root function: L12 where a bound of it is missing there.
fn fault_among(
    alloc: Global,
    algo: &Algo,
    name: &str,
    inside: &Result<Vec<Inner<'_>>, Name>,
    known: Option<RegionRule>,
) -> Result<Option<RegionRule>, AllocError>
    requires { IsByRegion known }
    ensures kind { IfOk result IsByRegion }
    ensures rule { IfOk result (λ rule. rule ≡ broken.fault_among (algorithm_of algo.now) name.now (spec.inside_of inside.now) known) }
{
    match inside {
        Ok(inners) => with_faults(alloc, algo, name, inners, known),
        Err(missing) => {
            if missing.as_str() == name {
                Ok(lower_of(known, Some(RegionRule::Unbounded)))
            } else {
                Ok(known)
            }
        }
    }
}

// The same inside the loops of these.
fn faults_among(
    alloc: Global,
    algo: &Algo,
    name: &str,
    parties: &[Party<'_>],
    known: Option<RegionRule>,
) -> Result<Option<RegionRule>, AllocError>
    requires { IsByRegion known }
    ensures kind { IfOk result IsByRegion }
    ensures rule { IfOk result (λ rule. rule ≡ broken.faults_among (algorithm_of algo.now) name.now (map spec.inside_at parties.now) known) }
{
    match parties {
        [] => Ok(known),
        [party, rest @ ..] => {
            let found = fault_among(alloc, algo, name, &party.inners, known)?;
            faults_among(alloc, algo, name, rest, found)
        }
    }
}

/// The rule of the lowest number that a function breaks wherever it is computed inside loops.
pub(crate) fn fault_inside(
    alloc: Global,
    algo: &Algo,
    name: &str,
    parties: &[Party<'_>],
) -> Result<Option<RegionRule>, AllocError>
    ensures kind { IfOk result IsByRegion }
    ensures rule { IfOk result (λ rule. rule ≡ broken.fault_inside (algorithm_of algo.now) name.now (map spec.inside_at parties.now)) }
{
    faults_among(alloc, algo, name, parties, None)
}

// ---- regions

// The ends of what a call stays within, from a place on.
fn add_ends(
    alloc: Global,
    scope: &Scope,
    place: usize,
    spans: &[Span1],
    reach: &mut Vec<Option<Ends>>,
) -> Result<(), Stop>
    ensures { Tells result reach.new.items (regions.add_ends scope.now place spans.now reach.old.items) }
{
    match spans {
        [] => Ok(()),
        [span, rest @ ..] => {
            let Some(next) = place.checked_add(1) else {
                return Err(Stop::Memory);
            };
            let ends = ends_of(alloc, scope, span)?;
            widen(reach, place, ends);
            add_ends(alloc, scope, next, rest, reach)
        }
    }
}

fn add_calls(
    alloc: Global,
    scope: &Scope,
    calls: &[Region],
    reach: &mut Vec<Option<Ends>>,
) -> Result<(), Stop>
    ensures { Tells result reach.new.items (regions.add_calls scope.now calls.now reach.old.items) }
{
    match calls {
        [] => Ok(()),
        [call, rest @ ..] => {
            add_ends(alloc, scope, 0, call.as_slice(), reach)?;
            add_calls(alloc, scope, rest, reach)
        }
    }
}

fn add_sites(alloc: Global, sites: &[Site], reach: &mut Vec<Option<Ends>>) -> Result<(), Stop>
    ensures { Tells result reach.new.items (regions.add_sites (map site_of sites.now) reach.old.items) }
{
    match sites {
        [] => Ok(()),
        [site, rest @ ..] => {
            add_calls(alloc, &site.scope, &site.calls, reach)?;
            add_sites(alloc, rest, reach)
        }
    }
}

// The functions that are computed inside the loops of a root function; none where a bound is missing.
fn inners_among<'b, 'a>(party: &'b Party<'a>) -> &'b [Inner<'a>]
    ensures { map inner_seen result.now ≡ spec.placed_of party.now }
{
    match &party.inners {
        Ok(inners) => inners,
        Err(_) => &[],
    }
}

// Adds the points that a root function and those inside its loops call, but for what the function calls of itself.
fn add_party(
    alloc: Global,
    algo: &Algo,
    name: &str,
    party: &Party<'_>,
    reach: &mut Vec<Option<Ends>>,
) -> Result<(), Stop>
    ensures { Tells result reach.new.items (regions.add_group (algorithm_of algo.now) name.now (spec.party_of party.now) (spec.placed_of party.now)
        reach.old.items) }
{
    let sites = sites_of(alloc, algo, &party.root, inners_among(party), name)?;
    add_sites(alloc, &sites, reach)
}

// Those of each of them.
fn add_parties(
    alloc: Global,
    algo: &Algo,
    name: &str,
    parties: &[Party<'_>],
    reach: &mut Vec<Option<Ends>>,
) -> Result<(), Stop>
    ensures { Tells result reach.new.items (regions.add_groups (algorithm_of algo.now) name.now (map spec.party_of parties.now)
        (map spec.placed_of parties.now) reach.old.items) }
{
    match parties {
        [] => Ok(()),
        [party, rest @ ..] => {
            add_party(alloc, algo, name, party, reach)?;
            add_parties(alloc, algo, name, rest, reach)
        }
    }
}

// The points of a function that all turns of the others ask for, and those of the output.
fn reach_in(
    alloc: Global,
    algo: &Algo,
    stored: &Stored<'_>,
    parties: &[Party<'_>],
) -> Result<Vec<Option<Ends>>, Stop>
    ensures { Gives result (λ v. v.items) (asked.reach_in (algorithm_of algo.now) (map spec.party_of parties.now) (map spec.placed_of parties.now)
        (stored_of stored.now)) }
{
    let mut reach = unreached(alloc, stored.subject.variables.len())?;
    let name = stored.subject.name.as_str();
    add_parties(alloc, algo, name, parties, &mut reach)?;
    if stored.subject.is_output {
        add_extents(algo, &mut reach)?;
    }
    Ok(reach)
}

// The region of a function that all turns of the others ask for, with what its own updates need, and the loops over it.
fn laid_again(
    alloc: Global,
    algo: &Algo,
    stored: &Stored<'_>,
    formulas: &[Formula],
    parties: &[Party<'_>],
) -> Result<Laid, Stop>
    ensures { Gives result laid_of (asked.laid_again (algorithm_of algo.now) (map spec.party_of parties.now) (map spec.placed_of parties.now)
        (stored_of stored.now) (map formula_of formulas.now)) }
{
    let reach = reach_in(alloc, algo, stored, parties)?;
    closed(alloc, algo, stored, formulas, reach)
}

// None where there is no region within the limits.
fn laid_or_none(
    alloc: Global,
    algo: &Algo,
    stored: &Stored<'_>,
    formulas: &[Formula],
    parties: &[Party<'_>],
) -> Result<Option<Laid>, AllocError>
    ensures { IfOk result (λ found. option_map laid_of found ≡ asked.laid_again (algorithm_of algo.now) (map spec.party_of parties.now)
        (map spec.placed_of parties.now) (stored_of stored.now) (map formula_of formulas.now)) }
{
    match laid_again(alloc, algo, stored, formulas, parties) {
        Ok(laid) => Ok(Some(laid)),
        Err(Stop::Limit) => Ok(None),
        Err(Stop::Memory) => Err(AllocError),
    }
}

// The same of a function that has definitions and had a region; of another one none.
#[tactic(auto, using(crate::proofs::Asking::not_defined, crate::proofs::Asking::not_laid, crate::proofs::Asking::laid_so))]
fn laid_anew(
    alloc: Global,
    algo: &Algo,
    stored: &Stored<'_>,
    laid: &Option<Laid>,
    parties: &[Party<'_>],
) -> Result<Option<Laid>, AllocError>
    ensures { IfOk result (λ found. option_map laid_of found ≡ asked.laid_anew (algorithm_of algo.now) (map spec.party_of parties.now)
        (map spec.placed_of parties.now) (stored_of stored.now) (stored_of stored.now).formulas (option_map laid_of laid.now)) }
{
    let Some(formulas) = &stored.formulas else {
        return Ok(None);
    };
    match laid {
        Some(_known) => laid_or_none(alloc, algo, stored, formulas, parties),
        None => Ok(None),
    }
}

// The same of each of some functions.
fn laid_each(
    alloc: Global,
    algo: &Algo,
    stored: &[Stored<'_>],
    laid: &[Option<Laid>],
    parties: &[Party<'_>],
) -> Result<Vec<Option<Laid>>, AllocError>
    ensures { IfOk result (λ v. map (option_map laid_of) v.items ≡ asked.laid_each (algorithm_of algo.now) (map spec.party_of parties.now)
        (map spec.placed_of parties.now) (map stored_of stored.now) (map (option_map laid_of) laid.now)) }
{
    match stored {
        [] => Ok(Vec::new(alloc)),
        [one, others @ ..] => match laid {
            [] => Ok(Vec::new(alloc)),
            [known, rest @ ..] => {
                let first = laid_anew(alloc, algo, one, known, parties)?;
                let mut made = laid_each(alloc, algo, others, rest, parties)?;
                made.insert(0, first)?;
                Ok(made)
            }
        },
    }
}

fn same_laid(one: &Option<Laid>, other: &Option<Laid>) -> bool
    ensures { result ≡ asked.same_laid (option_map laid_of one.now) (option_map laid_of other.now) }
{
    match (one, other) {
        (Some(first), Some(second)) => is_same(&first.region, &second.region),
        (None, None) => true,
        _ => false,
    }
}

fn are_same(first: &[Option<Laid>], second: &[Option<Laid>]) -> bool
    ensures { result ≡ asked.are_same (map (option_map laid_of) first.now) (map (option_map laid_of) second.now) }
{
    match first {
        [] => true,
        [one, ones @ ..] => match second {
            [] => true,
            [other, others @ ..] => same_laid(one, other) && are_same(ones, others),
        },
    }
}

// Whether a bound is missing of a function that is computed inside loops.
fn are_unknown(parties: &[Party<'_>]) -> bool
    ensures { result ≡ list_any spec.is_missing (map spec.inside_at parties.now) }
{
    match parties {
        [] => false,
        [party, rest @ ..] => party.inners.is_err() || are_unknown(rest),
    }
}

/// The regions that all turns ask for, where these functions are computed inside loops over these regions; none where they are the
/// same, or where bounds are missing.
#[tactic(auto, using(crate::proofs::Asking::no_bounds, crate::proofs::Asking::asked_same, crate::proofs::Asking::asked_others, crate::proofs::Asking::over_asked))]
pub(crate) fn asked_regions(
    alloc: Global,
    algo: &Algo,
    stored: &[Stored<'_>],
    laid: &[Option<Laid>],
    parties: &[Party<'_>],
) -> Result<Option<Vec<Option<Laid>>>, AllocError>
    requires { map spec.party_of parties.now ≡ spec.rooted true (map stored_of stored.now) (map (option_map laid_of) laid.now) }
    ensures asked { IfOk result (λ found. option_map spec.all_laid found ≡ asked.unless (list_any spec.is_missing (map spec.inside_at parties.now))
        (spec.asked (algorithm_of algo.now) (map stored_of stored.now) (map (option_map laid_of) laid.now)
        (map spec.placed_in (map spec.inside_at parties.now)))) }
    ensures over { IfOk result (λ found. IfSome found (λ v. spec.AreOverRegions (map stored_of stored.now) (map (option_map laid_of) v.items))) }
{
    if are_unknown(parties) {
        return Ok(None);
    }
    let made = laid_each(alloc, algo, stored, laid, parties)?;
    if are_same(laid, &made) {
        return Ok(None);
    }
    Ok(Some(made))
}

/// The same, where the functions inside loops are looked for over these regions.
pub fn laid_by_turns(
    alloc: Global,
    algo: &Algo,
    stored: &[Stored<'_>],
    laid: &[Option<Laid>],
) -> Result<Option<Vec<Option<Laid>>>, AllocError>
    ensures { IfOk result (λ found. IfSome found (λ v. spec.AreOverRegions (map stored_of stored.now) (map (option_map laid_of) v.items))) }
{
    let parties = parties_of(alloc, algo, stored, laid)?;
    asked_regions(alloc, algo, stored, laid, &parties)
}
