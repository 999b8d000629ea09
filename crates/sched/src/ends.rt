//! The ends of the loops of a function over what one turn needs of it: how many numbers they have, and which blocks run past the end.

ghost use Rattle.std.specs.Prelude.{◌≡◌, ◌&&◌, Some, []};
ghost use Rattle.std.specs.List.{list_any};
ghost use Rattle.sched.specs.Demanded as demanded;
ghost use Rattle.sched.specs.Stored.{stored_of};
ghost use Rattle.std.specs.Option.{option_copied};
ghost use Rattle.sched.specs.Standing as standing;
ghost use Rattle.lin.specs.Forms.{combined};
ghost use Rattle.sched.specs.Limited.{Gives, Tells};
ghost use Rattle.sched.specs.Numbers.{numbers_named};
ghost use Rattle.sched.specs.Parted as parted;
ghost use Rattle.sched.specs.Settled as settled;
ghost use Rattle.sched.specs.Taken as taken;

use crate::roots::Root;
use crate::stop::Stop;
use crate::windows::shortest;
use crate::{Extent, Known, Numbers, Split, Tail};
use lin::{Forms, Lin, Region, Scope, Span1};
use plan::Kind;
use std::alloc::Global;
use tree::token::Name;

/// Whether the split is one of the variable's loop with `roundup`, of more than one number or with halves that are split again.
pub fn is_rounding(cuts: &[Split], cut: &Split, variable: &Name) -> bool
    ensures { result ≡ demanded.is_rounding cuts.now variable.now cut.now }
{
    match cut.tail {
        Tail::Roundup => cut.whole.as_str() == variable.as_str() && !is_alone(cuts, cut),
        Tail::Guard | Tail::Shift => false,
    }
}

fn has_rounding(cuts: &[Split], variable: &Name) -> bool
    ensures { result ≡ list_any (demanded.is_rounding cuts.now variable.now) cuts.now }
{
    cuts.iter().any(|cut| is_rounding(cuts, cut, variable))
}

/// Whether the dimension's loop is split with `roundup`.
#[tactic(auto, using(crate::proofs::Along::rounded_in, crate::proofs::Along::no_variable))]
pub fn is_rounded(root: &Root<'_>, dimension: usize) -> bool
    ensures { result ≡ demanded.is_rounded (stored_of root.now.stored.now) dimension }
{
    match root.stored.subject.variables.get(dimension) {
        Some(variable) => has_rounding(&root.stored.placed.cuts, variable),
        None => false,
    }
}

/// The form of the first of this name.
pub fn form_named<'a>(known: &'a [Known], name: &Name) -> Option<&'a Lin>
    ensures { option_copied result ≡ standing.form_named known.now name.now }
{
    match known {
        [] => None,
        [one, rest @ ..] => {
            if one.name.as_str() == name.as_str() {
                Some(&one.form)
            } else {
                form_named(rest, name)
            }
        }
    }
}

/// Whether a loop that the split makes is split again.
pub fn has_split_half(cuts: &[Split], cut: &Split) -> bool
    ensures { result ≡ demanded.has_split_half cuts.now cut.now }
{
    cuts.iter().any(|other| is_half(cut, &other.whole))
}

/// Whether its blocks have one number, and its halves are not split again.
pub fn is_alone(cuts: &[Split], cut: &Split) -> bool
    ensures { result ≡ demanded.is_alone cuts.now cut.now }
{
    cut.factor == 1 && !has_split_half(cuts, cut)
}

/// A loop, and what it runs over.
#[derive(Drop)]
pub struct Run {
    pub name: Name,
    pub span: Span1,
    pub kind: Kind,
}

// ---- forms

/// A form and a multiple of another.
#[tactic(auto, using(crate::proofs::Stops::form_gives))]
pub fn summed(alloc: Global, form: &Lin, factor: i64, other: &Lin) -> Result<Lin, Stop>
    ensures { Gives result (λ made. made) (combined form.now factor other.now) }
{
    match form.plus_multiple(alloc, factor, other) {
        Ok(made) => Ok(made),
        Err(error) => Err(Stop::from(error)),
    }
}

/// The numbers of a loop that is split.
#[derive(Drop)]
pub struct Reach {
    pub name: Name,
    pub low: Lin,
    pub last: Lin,
    /// Whether there are not in each turn as many numbers as there are at most.
    pub varies: bool,
    /// Whether its blocks run past the end, and each turn is shown to have as many of them as there are at most.
    pub is_even: bool,
    /// Whether the last number is shown to be at least the first one that is kept.
    pub is_told: bool,
}

/// What the nests of a function over a region have to know of it.
#[derive(Drop)]
pub struct Frame {
    /// The most numbers of each loop, also of those that are split.
    pub numbers: Vec<Numbers>,
    /// What the splits' loops run over.
    pub reaches: Vec<Reach>,
    /// The loops over blocks of which one turn has more than another.
    pub counted: Vec<Counted>,
}

/// A loop, and further upper forms of it.
#[derive(Drop)]
pub struct Counted {
    pub name: Name,
    pub further: Forms,
}

/// How many numbers the loop of this name has.
pub fn number_named(numbers: &[Numbers], name: &Name) -> u32
    ensures { result ≡ (numbers_named numbers.now name.now).count }
{
    match numbers {
        [] => 0,
        [one, rest @ ..] => {
            if one.name.as_str() == name.as_str() {
                return one.count;
            }
            number_named(rest, name)
        }
    }
}

/// What the loop of this name runs over, which is split.
pub fn reach_named<'a>(reaches: &'a [Reach], name: &Name) -> Option<&'a Reach>
    ensures { option_copied result ≡ settled.reach_named reaches.now name.now }
{
    match reaches {
        [] => None,
        [one, rest @ ..] => {
            if one.name.as_str() == name.as_str() {
                return Some(one);
            }
            reach_named(rest, name)
        }
    }
}

/// Whether of so many numbers the last block of the split is not full.
pub fn has_rest(cut: &Split, count: u32) -> bool
    ensures { result ≡ standing.has_rest cut.now count }
{
    cut.factor == 0 || count % cut.factor != 0
}

/// Whether the split makes the loop of this name.
pub(crate) fn is_half(cut: &Split, name: &Name) -> bool
    ensures { result ≡ standing.is_half cut.now name.now }
{
    cut.outer.as_str() == name.as_str() || cut.inner.as_str() == name.as_str()
}

// Whether the blocks of the split run past the last number of its loop.
fn overruns(numbers: &[Numbers], cut: &Split) -> bool
    ensures { result ≡ standing.overruns numbers.now cut.now }
{
    match cut.tail {
        Tail::Roundup => has_rest(cut, number_named(numbers, &cut.whole)),
        Tail::Guard | Tail::Shift => false,
    }
}

/// Whether a loop that the split makes is split again, by blocks that run past its last number.
pub fn is_overrun(numbers: &[Numbers], cuts: &[Split], cut: &Split) -> bool
    ensures { result ≡ standing.is_overrun numbers.now cuts.now cut.now }
{
    cuts.iter().any(|other| is_half(cut, &other.whole) && overruns(numbers, other))
}

/// The most numbers that a dimension has in one turn.
pub fn most_of(alloc: Global, scope: &Scope, span: &Span1) -> Result<i64, Stop>
    ensures { Gives result (λ most. most) (parted.most_of (taken.shortest scope.now span.now)) }
{
    match shortest(alloc, scope, span)? {
        Some((_, count)) => Ok(count),
        None => Err(Stop::Limit),
    }
}

// How many numbers those are, where so many can be counted.
fn count_of(most: i64) -> u32
    ensures { result ≡ parted.count_of most }
{
    u32::try_from(most).unwrap_or(1)
}

// The most numbers of these dimensions, from 0 on, behind others.
fn add_extents(
    alloc: Global,
    scope: &Scope,
    spans: &[Span1],
    extents: &mut Vec<Extent>,
) -> Result<(), Stop>
    ensures { Tells result extents.new.items (parted.add_extents scope.now spans.now extents.old.items) }
{
    match spans {
        [] => Ok(()),
        [span, rest @ ..] => {
            let most = most_of(alloc, scope, span)?;
            extents.push(Extent {
                low: 0,
                count: count_of(most),
            })?;
            add_extents(alloc, scope, rest, extents)
        }
    }
}

/// The most numbers of each dimension, from 0 on.
pub fn extents_of(alloc: Global, scope: &Scope, region: &Region) -> Result<Vec<Extent>, Stop>
    ensures { Gives result (λ v. v.items) (parted.add_extents scope.now region.now []) }
{
    let mut extents = Vec::new(alloc);
    add_extents(alloc, scope, region.as_slice(), &mut extents)?;
    Ok(extents)
}
