//! What a piece owns, claims and has places for, dimension by dimension.

ghost use Rattle.std.specs.Prelude.{◌≡◌, ◌∷◌, ◌&&◌, pos, IfOk};
ghost use Rattle.std.specs.List.{list_any};
ghost use Rattle.std.specs.Option.{option_copied};
ghost use Rattle.lin.specs.Forms.{combined};
ghost use Rattle.meaning.specs.Names.{same_name};
ghost use Rattle.sched.specs.Placing as placing;
ghost use Rattle.sched.specs.Numbers as counts;
ghost use Rattle.sched.specs.Skeleton.{skeleton_seen};
ghost use Rattle.sched.specs.Standing as standing;
ghost use Rattle.sched.specs.Stored.{stored_of};
ghost use Rattle.blocks.specs.Blocks as spec;
ghost use Rattle.sched.specs.Blocks as sched;
ghost use Rattle.blocks.specs.Blocks.{block_seen, lay_seen, part_seen};
ghost use Rattle.sched.specs.Limited.{Gives, Tells};
ghost use Rattle.blocks.specs.Planned as told;

use lin::{Forms, Lin, Region, Span1};
use plan::Places;
use sched::definitions::Stored;
use sched::ends::form_named;
use sched::forms::{between, multiple_from, one_form, raised};
use sched::roots::Laid;
use sched::stop::Stop;
use sched::{Known, Loop, Numbers, Split, Tail, loop_numbers};
use std::alloc::{AllocError, Global};
use tree::token::Name;

/// One dimension of a piece.
#[derive(Drop)]
pub struct Dimension {
    /// The numbers that the piece owns.
    pub own: Span1,
    /// The numbers of which its claims speak.
    pub claim: Span1,
    pub places: Places,
}

/// The loops of a function over its region, and what stands over its grid.
#[derive(Clone, Copy, Drop)]
struct Lay<'a> {
    numbers: &'a [Numbers],
    loops: &'a [Loop],
    known: &'a [Known],
    starts: &'a [Known],
}

/// A run of numbers that the grid fixes.
#[derive(Drop)]
struct Block {
    start: Lin,
    /// How many numbers the block has.
    length: i64,
    /// Further upper ends of what a piece owns.
    own_limits: Vec<Lin>,
    /// Further upper ends of what its claims speak of.
    claim_limits: Vec<Lin>,
    /// The first number that a piece visits; none where no form over the grid tells it.
    origin: Option<Lin>,
    /// How many numbers from there on it visits.
    reach: i64,
}

/// What of a loop's numbers belongs to a piece.
#[derive(Drop)]
enum Part {
    /// All of them: no loop in it is parallel.
    Whole,
    /// A block.
    Block(Block),
    /// Numbers that are no block.
    Scattered,
}

fn numbers_found(numbers: &[Numbers], name: &Name) -> Option<Numbers>
    ensures { result ≡ counts.numbers_found numbers.now name.now }
{
    numbers
        .iter()
        .copied()
        .find(|one| one.name.as_str() == name.as_str())
}

fn numbers_named(numbers: &[Numbers], name: &Name) -> Numbers
    ensures { result ≡ counts.numbers_named numbers.now name.now }
{
    match numbers_found(numbers, name) {
        Some(one) => one,
        None => Numbers {
            name: *name,
            low: 0,
            count: 0,
        },
    }
}

fn is_parallel(loops: &[Loop], name: &Name) -> bool
    ensures { result ≡ list_any (λ one. placing.is_parallel one && same_name one.name name.now) loops.now }
{
    loops.iter().any(|one| one.is_parallel() && one.name.as_str() == name.as_str())
}

fn low_of(numbers: &Numbers) -> i64
    ensures { result ≡ numbers.now.low }
{
    i64::from(numbers.low)
}

fn last_of(numbers: &Numbers) -> i64
    ensures { result ≡ counts.last_number numbers.now }
{
    i64::from(numbers.low) + i64::from(numbers.count) - 1
}

fn factor_of(cut: &Split) -> i64
    ensures { result ≡ sched.factor_of cut.now }
{
    i64::from(cut.factor)
}

// Whether the last block has fewer numbers than the others.
fn is_uneven(numbers: &Numbers, cut: &Split) -> bool
    ensures { result ≡ standing.has_rest cut.now numbers.now.count }
{
    cut.factor == 0 || numbers.count % cut.factor != 0
}

// A number and so many times another.
fn stepped(low: i64, factor: i64, count: i64) -> i64
    ensures { result ≡ spec.stepped low factor count }
{
    low.saturating_add(factor.saturating_mul(count))
}

// How far the last number of a block is from its first.
fn full(cut: &Split) -> i64
    ensures { result ≡ sched.difference (sched.factor_of cut.now) (pos 1) }
{
    factor_of(cut).saturating_sub(1)
}

// The last number of a block from this one on.
fn block_end(low: i64, cut: &Split) -> i64
    ensures { result ≡ spec.block_end low cut.now }
{
    low.saturating_add(full(cut))
}

// The last number that is visited of a split loop, where these are those of its outer and its inner loop.
#[tactic(auto, unfolding(crate::specs::Blocks::split_end))]
fn split_end(cut: &Split, own: &Numbers, outer: i64, inner: i64) -> i64
    ensures { result ≡ spec.split_end cut.now own.now outer inner }
{
    match cut.tail {
        Tail::Guard => last_of(own),
        Tail::Roundup => stepped(low_of(own), factor_of(cut), outer).saturating_add(inner),
        Tail::Shift => last_of(own).saturating_sub(full(cut)).saturating_add(inner),
    }
}

// The last number of which claims of all of a split loop speak.
#[tactic(auto, unfolding(crate::specs::Blocks::split_claim_end))]
fn split_claim_end(cut: &Split, own: &Numbers, outer: i64) -> i64
    ensures { result ≡ spec.split_claim_end cut.now own.now outer }
{
    match cut.tail {
        Tail::Guard | Tail::Shift => last_of(own),
        Tail::Roundup => stepped(low_of(own), factor_of(cut), outer).saturating_add(full(cut)),
    }
}

// The last number that is visited of a loop.
fn end_of(numbers: &[Numbers], name: &Name, cuts: &[Split]) -> i64
    ensures { result ≡ spec.end_of numbers.now name.now cuts.now }
{
    let own = numbers_named(numbers, name);
    match cuts {
        [] => last_of(&own),
        [cut, rest @ ..] => {
            if cut.whole.as_str() == name.as_str() {
                let outer = end_of(numbers, &cut.outer, rest);
                let inner = end_of(numbers, &cut.inner, rest);
                split_end(cut, &own, outer, inner)
            } else {
                end_of(numbers, name, rest)
            }
        }
    }
}

// The last number of which a claim of the whole loop speaks.
fn claim_end_of(numbers: &[Numbers], name: &Name, cuts: &[Split]) -> i64
    ensures { result ≡ spec.claim_end_of numbers.now name.now cuts.now }
{
    let own = numbers_named(numbers, name);
    match cuts {
        [] => last_of(&own),
        [cut, rest @ ..] => {
            if cut.whole.as_str() == name.as_str() {
                let outer = claim_end_of(numbers, &cut.outer, rest);
                split_claim_end(cut, &own, outer)
            } else {
                claim_end_of(numbers, name, rest)
            }
        }
    }
}

// Adds each form so many times, and a number more.
fn add_stepped(
    alloc: Global,
    low: i64,
    factor: i64,
    forms: &[Lin],
    made: &mut Vec<Lin>,
) -> Result<(), Stop>
    ensures { Tells result made.new.items (told.add_stepped low factor forms.now made.old.items) }
{
    match forms {
        [] => Ok(()),
        [form, rest @ ..] => {
            let one = multiple_from(alloc, low, factor, form)?;
            made.push(one)?;
            add_stepped(alloc, low, factor, rest, made)
        }
    }
}

// A form and another one more.
#[tactic(auto, using(sched::proofs::Stops::form_gives))]
fn moved(alloc: Global, by: &Lin, form: &Lin) -> Result<Lin, Stop>
    ensures { Gives result (λ made. made) (combined by.now (pos 1) form.now) }
{
    match by.plus_multiple(alloc, 1, form) {
        Ok(made) => Ok(made),
        Err(error) => Err(Stop::from(error)),
    }
}

// Adds each form, and another one more.
fn add_moved(alloc: Global, by: &Lin, forms: &[Lin], made: &mut Vec<Lin>) -> Result<(), Stop>
    ensures { Tells result made.new.items (told.add_moved by.now forms.now made.old.items) }
{
    match forms {
        [] => Ok(()),
        [form, rest @ ..] => {
            let one = moved(alloc, by, form)?;
            made.push(one)?;
            add_moved(alloc, by, rest, made)
        }
    }
}

// The last number, where it cuts what a piece owns.
fn own_last(own: &Numbers, cut: &Split) -> Option<i64>
    ensures { result ≡ spec.own_last cut.now own.now }
{
    if is_uneven(own, cut) {
        Some(last_of(own))
    } else {
        None
    }
}

// The last number, where it cuts what claims speak of: not where blocks are computed past the end.
fn claim_last(own: &Numbers, cut: &Split) -> Option<i64>
    ensures { result ≡ spec.claim_last cut.now own.now }
{
    match cut.tail {
        Tail::Guard | Tail::Shift => own_last(own, cut),
        Tail::Roundup => None,
    }
}

// With the last number of a loop, where that counts.
fn with_last(alloc: Global, limits: Vec<Lin>, last: Option<i64>) -> Result<Vec<Lin>, AllocError>
    ensures { IfOk result (λ v. v.items ≡ spec.with_last limits.items last) }
{
    let mut limits = limits;
    if let Some(last) = last {
        limits.push(Lin::number(alloc, last))?;
    }
    Ok(limits)
}

fn copied(alloc: Global, form: Option<&Lin>) -> Result<Option<Lin>, AllocError>
    ensures { IfOk result (λ copy. copy ≡ option_copied form.entry) }
{
    match form {
        Some(form) => Ok(Some(form.copy(alloc)?)),
        None => Ok(None),
    }
}

// A form, if there is one, so many times, and a number more.
fn maybe_stepped(
    alloc: Global,
    low: i64,
    factor: i64,
    form: &Option<Lin>,
) -> Result<Option<Lin>, Stop>
    ensures { Gives result (λ o. o) (told.maybe_stepped low factor form.now) }
{
    match form {
        Some(form) => {
            let made = multiple_from(alloc, low, factor, form)?;
            Ok(Some(made))
        }
        None => Ok(None),
    }
}

// Where the one block of a piece begins that is moved back to the loop's end.
fn shifted_origin(
    alloc: Global,
    lay: &Lay<'_>,
    cut: &Split,
    outer: &Block,
) -> Result<Option<Lin>, AllocError>
    ensures { IfOk result (λ o. o ≡ told.shifted_origin (lay_seen lay.now) cut.now (block_seen outer.now)) }
{
    if outer.length != 1 {
        return Ok(None);
    }
    copied(alloc, form_named(lay.starts, &cut.whole))
}

// Where a piece begins to visit the numbers of a split loop of which whole blocks belong to it.
fn origin_over(
    alloc: Global,
    lay: &Lay<'_>,
    cut: &Split,
    own: &Numbers,
    outer: &Block,
) -> Result<Option<Lin>, Stop>
    ensures { Gives result (λ o. o) (told.told_origin (lay_seen lay.now) cut.now own.now (block_seen outer.now)) }
{
    match cut.tail {
        Tail::Shift => Ok(shifted_origin(alloc, lay, cut, outer)?),
        Tail::Guard | Tail::Roundup => {
            maybe_stepped(alloc, low_of(own), factor_of(cut), &outer.origin)
        }
    }
}

// How many numbers it visits of them.
fn reach_over(cut: &Split, outer: &Block, inner_end: i64) -> i64
    ensures { result ≡ spec.reach_over cut.now (block_seen outer.now) inner_end }
{
    match cut.tail {
        Tail::Shift => inner_end.saturating_add(1),
        Tail::Guard | Tail::Roundup => {
            let blocks = outer.reach.saturating_sub(1);
            stepped(inner_end, factor_of(cut), blocks).saturating_add(1)
        }
    }
}

// Where a block of a split loop begins, by the form of the outer loop.
fn begun_at(alloc: Global, cut: &Split, own: &Numbers, form: &Lin) -> Result<Lin, Stop>
    ensures { Gives result (λ made. made) (told.told_start cut.now own.now form.now) }
{
    multiple_from(alloc, low_of(own), factor_of(cut), form)
}

// The ends of the blocks that these forms count.
fn all_ends(alloc: Global, cut: &Split, own: &Numbers, forms: &[Lin]) -> Result<Vec<Lin>, Stop>
    ensures { Gives result (λ v. v.items) (told.told_ends cut.now own.now forms.now) }
{
    let low = block_end(low_of(own), cut);
    let mut ends = Vec::new(alloc);
    add_stepped(alloc, low, factor_of(cut), forms, &mut ends)?;
    Ok(ends)
}

// The further upper ends of whole blocks of a split loop, by those of the outer loop, with the last number where it counts.
fn limits_over(
    alloc: Global,
    cut: &Split,
    own: &Numbers,
    last: Option<i64>,
    outer: &[Lin],
) -> Result<Vec<Lin>, Stop>
    ensures { Gives result (λ v. v.items) (told.told_limits cut.now own.now last outer.now) }
{
    let ends = all_ends(alloc, cut, own, outer)?;
    Ok(with_last(alloc, ends, last)?)
}

fn length_over(cut: &Split, outer: &Block) -> i64
    ensures { result ≡ spec.product (sched.factor_of cut.now) outer.now.length }
{
    factor_of(cut).saturating_mul(outer.length)
}

// How many numbers a piece visits of a split loop, of which it has whole blocks.
fn reach_of(lay: &Lay<'_>, cut: &Split, rest: &[Split], outer: &Block) -> i64
    ensures { result ≡ spec.reach_over cut.now (block_seen outer.now) (spec.end_of lay.now.numbers.now cut.now.inner rest.now) }
{
    reach_over(cut, outer, end_of(lay.numbers, &cut.inner, rest))
}

// Whole blocks of a split loop with these numbers.
#[tactic(auto, using(crate::proofs::Unplanned::blocks_told))]
fn blocks_of(
    alloc: Global,
    lay: &Lay<'_>,
    cut: &Split,
    rest: &[Split],
    own: &Numbers,
    outer: &Block,
) -> Result<Part, Stop>
    ensures { Gives result part_seen (told.told_blocks (lay_seen lay.now) cut.now rest.now own.now (block_seen outer.now)) }
{
    let start = begun_at(alloc, cut, own, &outer.start)?;
    let own_limits = limits_over(alloc, cut, own, own_last(own, cut), &outer.own_limits)?;
    let claim_limits = limits_over(alloc, cut, own, claim_last(own, cut), &outer.claim_limits)?;
    let origin = origin_over(alloc, lay, cut, own, outer)?;
    Ok(Part::Block(Block {
        start,
        length: length_over(cut, outer),
        own_limits,
        claim_limits,
        origin,
        reach: reach_of(lay, cut, rest, outer),
    }))
}

// Whether more numbers are visited of a loop than it has.
fn overruns(lay: &Lay<'_>, name: &Name, cuts: &[Split]) -> bool
    ensures { result ≡ spec.overruns (lay_seen lay.now) name.now cuts.now }
{
    end_of(lay.numbers, name, cuts) > last_of(&numbers_named(lay.numbers, name))
}

// Whether a guard keeps the numbers of a split loop within it.
fn is_guarded(lay: &Lay<'_>, cut: &Split, rest: &[Split], own: &Numbers) -> bool
    ensures { result ≡ spec.is_guarded (lay_seen lay.now) cut.now rest.now own.now }
{
    match cut.tail {
        Tail::Guard => {
            is_uneven(own, cut)
                || overruns(lay, &cut.outer, rest)
                || overruns(lay, &cut.inner, rest)
        }
        Tail::Roundup | Tail::Shift => false,
    }
}

// The sum of two forms, if there are both.
fn maybe_moved(alloc: Global, by: &Option<Lin>, form: &Option<Lin>) -> Result<Option<Lin>, Stop>
    ensures { Gives result (λ o. o) (told.maybe_moved by.now form.now) }
{
    match (by, form) {
        (Some(by), Some(form)) => {
            let made = moved(alloc, by, form)?;
            Ok(Some(made))
        }
        _ => Ok(None),
    }
}

// Where a piece begins to visit a part of one block. A guard over the grid alone has a let behind it, which no form tells.
fn origin_within(
    alloc: Global,
    lay: &Lay<'_>,
    cut: &Split,
    rest: &[Split],
    own: &Numbers,
    outer: &Block,
    inner: &Block,
) -> Result<Option<Lin>, Stop>
    ensures { Gives result (λ o. o) (told.told_inner_origin (lay_seen lay.now) cut.now rest.now own.now (block_seen outer.now) (block_seen inner.now)) }
{
    if is_guarded(lay, cut, rest, own) {
        return Ok(None);
    }
    let begun = origin_over(alloc, lay, cut, own, outer)?;
    maybe_moved(alloc, &begun, &inner.origin)
}

// The further upper ends of a part of one block that begins here: those of the part, those of the blocks, and the last number where
// that counts.
fn limits_within(
    alloc: Global,
    cut: &Split,
    own: &Numbers,
    base: &Lin,
    last: Option<i64>,
    inner: &[Lin],
    outer: &[Lin],
) -> Result<Vec<Lin>, Stop>
    ensures { Gives result (λ v. v.items) (told.told_inner_limits cut.now own.now base.now last inner.now outer.now) }
{
    let mut blocks = all_ends(alloc, cut, own, outer)?;
    let mut limits = Vec::new(alloc);
    add_moved(alloc, base, inner, &mut limits)?;
    limits.append(&mut blocks)?;
    Ok(with_last(alloc, limits, last)?)
}

// A part of one block of a split loop with these numbers.
#[tactic(auto, using(crate::proofs::Unplanned::within_told))]
fn block_within(
    alloc: Global,
    lay: &Lay<'_>,
    cut: &Split,
    rest: &[Split],
    own: &Numbers,
    outer: &Block,
    inner: &Block,
) -> Result<Part, Stop>
    ensures { Gives result part_seen (told.told_within (lay_seen lay.now) cut.now rest.now own.now (block_seen outer.now) (block_seen inner.now)) }
{
    let base = begun_at(alloc, cut, own, &outer.start)?;
    let start = moved(alloc, &base, &inner.start)?;
    let owned = own_last(own, cut);
    let own_limits = limits_within(
        alloc,
        cut,
        own,
        &base,
        owned,
        &inner.own_limits,
        &outer.own_limits,
    )?;
    let claimed = claim_last(own, cut);
    let claim_limits = limits_within(
        alloc,
        cut,
        own,
        &base,
        claimed,
        &inner.claim_limits,
        &outer.claim_limits,
    )?;
    let origin = origin_within(alloc, lay, cut, rest, own, outer, inner)?;
    Ok(Part::Block(Block {
        start,
        length: inner.length,
        own_limits,
        claim_limits,
        origin,
        reach: inner.reach,
    }))
}

// What of a split loop belongs to a piece.
fn joined(
    alloc: Global,
    lay: &Lay<'_>,
    cut: &Split,
    rest: &[Split],
    outer: &Part,
    inner: &Part,
) -> Result<Part, Stop>
    ensures { Gives result part_seen (told.told_joined (lay_seen lay.now) cut.now rest.now (part_seen outer.now) (part_seen inner.now)) }
{
    let own = numbers_named(lay.numbers, &cut.whole);
    match (outer, inner) {
        (Part::Whole, Part::Whole) => Ok(Part::Whole),
        (Part::Block(outer), Part::Whole) => blocks_of(alloc, lay, cut, rest, &own, outer),
        (Part::Block(outer), Part::Block(inner)) => {
            if outer.length == 1 {
                block_within(alloc, lay, cut, rest, &own, outer, inner)
            } else {
                Ok(Part::Scattered)
            }
        }
        _ => Ok(Part::Scattered),
    }
}

// What of a loop that is not split belongs to a piece.
fn uncut(alloc: Global, lay: &Lay<'_>, name: &Name) -> Result<Part, AllocError>
    ensures { IfOk result (λ part. part_seen part ≡ spec.uncut (lay_seen lay.now) name.now) }
{
    if !is_parallel(lay.loops, name) {
        return Ok(Part::Whole);
    }
    let Some(form) = form_named(lay.known, name) else {
        return Ok(Part::Scattered);
    };
    Ok(Part::Block(Block {
        start: form.copy(alloc)?,
        length: 1,
        own_limits: Vec::new(alloc),
        claim_limits: Vec::new(alloc),
        origin: Some(form.copy(alloc)?),
        reach: 1,
    }))
}

// What of a loop's numbers belongs to a piece.
fn part_of(alloc: Global, lay: &Lay<'_>, name: &Name, cuts: &[Split]) -> Result<Part, Stop>
    ensures { Gives result part_seen (told.told_part (lay_seen lay.now) name.now cuts.now) }
{
    match cuts {
        [] => Ok(uncut(alloc, lay, name)?),
        [cut, rest @ ..] => {
            if cut.whole.as_str() == name.as_str() {
                let outer = part_of(alloc, lay, &cut.outer, rest)?;
                let inner = part_of(alloc, lay, &cut.inner, rest)?;
                joined(alloc, lay, cut, rest, &outer, &inner)
            } else {
                part_of(alloc, lay, name, rest)
            }
        }
    }
}

// A form and the limits.
fn with_limits(alloc: Global, last: &Lin, limits: &[Lin]) -> Result<Forms, AllocError>
    ensures { IfOk result (λ upper. upper ≡ last.now ∷ limits.now) }
{
    let mut upper = one_form(alloc, last.copy(alloc)?)?;
    for limit in limits {
        let copy = limit.copy(alloc)?;
        upper.push(copy)?;
    }
    Ok(upper)
}

// From a form on so many numbers, and at most each of the limits.
fn block_span(alloc: Global, start: &Lin, length: i64, limits: &[Lin]) -> Result<Span1, Stop>
    ensures { Gives result (λ span. span) (told.told_span start.now length limits.now) }
{
    let last = raised(alloc, start, length.saturating_sub(1))?;
    let lower = one_form(alloc, start.copy(alloc)?)?;
    let upper = with_limits(alloc, &last, limits)?;
    Ok(Span1 { lower, upper })
}

// So many places from a form on.
fn places_from(origin: Lin, reach: i64) -> Places
    ensures { result ≡ spec.places_from origin reach }
{
    Places::From {
        origin,
        count: u64::try_from(reach).unwrap_or(0),
    }
}

// Places for all numbers that are visited of a loop.
fn whole_places(alloc: Global, lay: &Lay<'_>, name: &Name, cuts: &[Split]) -> Places
    ensures { result ≡ spec.whole_places (lay_seen lay.now) name.now cuts.now }
{
    let low = low_of(&numbers_named(lay.numbers, name));
    let end = end_of(lay.numbers, name, cuts);
    places_from(
        Lin::number(alloc, low),
        end.saturating_sub(low).saturating_add(1),
    )
}

fn whole_dimension(
    alloc: Global,
    lay: &Lay<'_>,
    name: &Name,
    cuts: &[Split],
) -> Result<Dimension, AllocError>
    ensures { IfOk result (λ one. one ≡ spec.whole_dimension (lay_seen lay.now) name.now cuts.now) }
{
    let own = numbers_named(lay.numbers, name);
    let end = claim_end_of(lay.numbers, name, cuts);
    Ok(Dimension {
        own: between(alloc, low_of(&own), last_of(&own))?,
        claim: between(alloc, low_of(&own), end)?,
        places: whole_places(alloc, lay, name, cuts),
    })
}

// The places of a dimension of which a piece has a block.
fn block_places(
    alloc: Global,
    lay: &Lay<'_>,
    name: &Name,
    cuts: &[Split],
    block: &Block,
) -> Result<Places, AllocError>
    ensures { IfOk result (λ places. places ≡ spec.places_by (lay_seen lay.now) name.now cuts.now block.now.reach block.now.origin) }
{
    match &block.origin {
        Some(origin) => Ok(places_from(origin.copy(alloc)?, block.reach)),
        None => Ok(whole_places(alloc, lay, name, cuts)),
    }
}

fn block_dimension(
    alloc: Global,
    lay: &Lay<'_>,
    name: &Name,
    cuts: &[Split],
    block: &Block,
) -> Result<Dimension, Stop>
    ensures { Gives result (λ one. one) (told.told_block (lay_seen lay.now) name.now cuts.now (block_seen block.now)) }
{
    let own = block_span(alloc, &block.start, block.length, &block.own_limits)?;
    let claim = block_span(alloc, &block.start, block.length, &block.claim_limits)?;
    let places = block_places(alloc, lay, name, cuts, block)?;
    Ok(Dimension { own, claim, places })
}

fn dimension_by(
    alloc: Global,
    lay: &Lay<'_>,
    name: &Name,
    cuts: &[Split],
    part: &Part,
) -> Result<Dimension, Stop>
    ensures { Gives result (λ one. one) (told.told_by (lay_seen lay.now) name.now cuts.now (part_seen part.now)) }
{
    match part {
        Part::Block(block) => block_dimension(alloc, lay, name, cuts, block),
        Part::Whole | Part::Scattered => Ok(whole_dimension(alloc, lay, name, cuts)?),
    }
}

fn dimension_of(
    alloc: Global,
    lay: &Lay<'_>,
    name: &Name,
    cuts: &[Split],
) -> Result<Dimension, Stop>
    ensures { Gives result (λ one. one) (told.told_dimension (lay_seen lay.now) cuts.now name.now) }
{
    let part = part_of(alloc, lay, name, cuts)?;
    dimension_by(alloc, lay, name, cuts, &part)
}

fn add_dimensions(
    alloc: Global,
    lay: &Lay<'_>,
    cuts: &[Split],
    variables: &[Name],
    found: &mut Vec<Dimension>,
) -> Result<(), Stop>
    ensures { Tells result found.new.items (told.add_dimensions (lay_seen lay.now) cuts.now variables.now found.old.items) }
{
    match variables {
        [] => Ok(()),
        [variable, rest @ ..] => {
            let one = dimension_of(alloc, lay, variable, cuts)?;
            found.push(one)?;
            add_dimensions(alloc, lay, cuts, rest, found)
        }
    }
}

// Each dimension of a piece, where forms tell it.
fn told_dimensions(alloc: Global, stored: &Stored<'_>, laid: &Laid) -> Result<Vec<Dimension>, Stop>
    ensures { Gives result (λ v. v.items) (told.told_dimensions (stored_of stored.now) laid.now.region.items (skeleton_seen laid.now.skeleton)) }
{
    let cuts = &stored.placed.cuts;
    let variables = &stored.subject.variables;
    let numbers = loop_numbers(alloc, variables, cuts, &laid.region)?;
    let lay = Lay {
        numbers: &numbers,
        loops: &stored.placed.loops,
        known: &laid.skeleton.known,
        starts: &laid.skeleton.starts,
    };
    let mut found = Vec::new(alloc);
    add_dimensions(alloc, &lay, cuts, variables, &mut found)?;
    Ok(found)
}

/// What a piece of a stored function owns, claims and has places for, one entry a dimension. A piece of a split loop owns its
/// unshifted block, cut to the region.
#[tactic(auto, using(crate::proofs::Planned::dimensions_given))]
pub fn dimensions(alloc: Global, stored: &Stored<'_>, laid: &Laid) -> Result<Vec<Dimension>, Stop>
    ensures are { IfOk result (λ v. v.items ≡ spec.dimensions_of (stored_of stored.now) laid.now.region.items (skeleton_seen laid.now.skeleton)) }
    ensures gives { Gives result (λ v. v.items) (told.told_dimensions (stored_of stored.now) laid.now.region.items (skeleton_seen laid.now.skeleton)) }
{
    told_dimensions(alloc, stored, laid)
}

// The places in memory of their own.
fn copied_places(alloc: Global, places: &Places) -> Result<Places, AllocError>
    ensures { IfOk result (λ copy. copy ≡ places.now) }
{
    match places {
        Places::From { origin, count } => Ok(Places::From {
            origin: origin.copy(alloc)?,
            count: *count,
        }),
        Places::Folded { count } => Ok(Places::Folded { count: *count }),
    }
}

/// The region that a piece owns.
pub(crate) fn owned_region(alloc: Global, dimensions: &[Dimension]) -> Result<Region, AllocError>
    ensures { IfOk result (λ region. region ≡ spec.owned_region dimensions.now) }
{
    let mut region = Region::new(alloc);
    for one in dimensions {
        region.push(one.own.copy(alloc)?)?;
    }
    Ok(region)
}

/// The region of which its claims speak.
pub fn claimed_region(alloc: Global, dimensions: &[Dimension]) -> Result<Region, AllocError>
    ensures { IfOk result (λ region. region ≡ spec.claimed_region dimensions.now) }
{
    let mut region = Region::new(alloc);
    for one in dimensions {
        region.push(one.claim.copy(alloc)?)?;
    }
    Ok(region)
}

/// The places of its buffer.
pub fn own_places(alloc: Global, dimensions: &[Dimension]) -> Result<Vec<Places>, AllocError>
    ensures { IfOk result (λ v. v.items ≡ spec.own_places dimensions.now) }
{
    let mut places = Vec::new(alloc);
    for one in dimensions {
        let copy = copied_places(alloc, &one.places)?;
        places.push(copy)?;
    }
    Ok(places)
}
