//! The loops of a root function over its region, as a plan has them.

ghost use Rattle.std.specs.Prelude.{◌≡◌, ◌^◌, IfOk, pos, negsuc, ◌≤ℤ◌};
ghost use Rattle.std.specs.Option.{option_copied};
ghost use Rattle.sched.specs.declared.skeleton.SkeletonError.TheVariants.{Memory};
ghost use Rattle.sched.specs.Numbers.{last_number};
ghost use Rattle.sched.specs.Standing as spec;

use crate::numbers::{Numbers, numbers_named};
use crate::schedule::{Split, Tail};
use lin::{Forms, Lin, LinError, Multiple, Span1, Sym};
use plan::{Kind, Pick};
use std::alloc::{AllocError, AllocFailed, Global};
use tree::token::Name;

/// A step down to a store: a loop, a name for the smaller or larger of some forms, or a guard.
#[derive(Drop)]
pub enum Step {
    /// The turns of a loop over a span.
    Turns {
        symbol: Sym,
        span: Span1,
        kind: Kind,
    },
    /// A symbol for the smallest or largest of some forms.
    Named {
        symbol: Sym,
        pick: Pick,
        forms: Forms,
    },
    /// A guard: the one form is at most the other.
    Tested {
        low: Lin,
        high: Lin,
    },
}

/// What loops, lets and guards stand in.
#[derive(Clone, Copy, Drop)]
pub(crate) enum Within {
    /// The grid alone.
    Grid,
    /// A nest.
    Nest,
    /// A vectorised loop of a nest: no let stands in it.
    Lanes,
}

/// The form that a loop's number is.
#[derive(Drop)]
pub struct Known {
    pub name: Name,
    pub form: Lin,
}

/// What stands at a place of a nest.
#[derive(Drop)]
pub struct Standing {
    /// The forms of loops, also of those that were split.
    pub known: Vec<Known>,
    /// The forms of the first numbers of blocks, under the name of the loop that was split.
    pub starts: Vec<Known>,
    /// The symbols of the nest's loops.
    pub bound: Vec<Sym>,
    pub next: Sym,
    /// The steps so far.
    pub steps: Vec<Step>,
    /// Further upper forms of the innermost loop.
    pub limits: Vec<Lin>,
}

/// Why loops have no forms.
#[derive(Clone, Copy, Drop)]
pub enum SkeletonError {
    /// Memory ran out.
    Memory,
    /// A form leaves the limits of forms.
    Limit,
}

impl From<AllocError> for SkeletonError {
    ghost from_gives = { λ _ e. e ≡ Memory };

    fn from(_e: AllocError) -> SkeletonError {
        SkeletonError::Memory
    }
}

impl<T: Drop> From<AllocFailed<T>> for SkeletonError {
    ghost from_gives = { λ _ e. e ≡ Memory };

    fn from(_e: AllocFailed<T>) -> SkeletonError {
        SkeletonError::Memory
    }
}

impl From<LinError> for SkeletonError {
    ghost use Rattle.sched.specs.Standing.{form_refusal};

    ghost from_gives = { λ l e. e ≡ form_refusal l };

    fn from(error: LinError) -> SkeletonError {
        match error {
            LinError::Memory => SkeletonError::Memory,
            LinError::Limit => SkeletonError::Limit,
        }
    }
}

#[tactic(auto, using(crate::proofs::Skeletons::form_next, crate::proofs::Skeletons::form_not))]
fn form_named<'a>(known: &'a [Known], name: &Name) -> Option<&'a Lin>
    ensures { option_copied result ≡ spec.form_named known.now name.now }
{
    for one in known {
        if one.name.as_str() == name.as_str() {
            return Some(&one.form);
        }
    }
    None
}

// The form in memory of its own.
pub(crate) fn form_of(
    alloc: Global,
    known: &[Known],
    name: &Name,
) -> Result<Option<Lin>, AllocError>
    ensures { IfOk result (λ form. form ≡ spec.form_named known.now name.now) }
{
    match form_named(known, name) {
        Some(form) => {
            let copy = form.copy(alloc)?;
            Ok(Some(copy))
        }
        None => Ok(None),
    }
}

// A number and a symbol.
pub(crate) fn counted_from(alloc: Global, low: i64, symbol: Sym) -> Result<Lin, AllocError>
    ensures { IfOk result (λ form. form ≡ spec.counted_from low symbol) }
{
    let mut form = Lin::number(alloc, low);
    form.push_term(symbol, 1)?;
    Ok(form)
}

fn is_bound(bound: &[Sym], symbol: Sym) -> bool
    ensures { result ≡ spec.is_bound bound.now symbol }
{
    bound.iter().any(|one| *one == symbol)
}

// The symbol of the term, where it is that of a loop of the nest and counts once.
fn counted_once(bound: &[Sym], term: &Multiple) -> Option<Sym>
    ensures { result ≡ spec.counted_once bound.now term.now }
{
    if is_bound(bound, term.symbol) && term.factor == 1 {
        Some(term.symbol)
    } else {
        None
    }
}

// The last symbol of the form, where it is that of a loop of the nest and counts once.
fn innermost(bound: &[Sym], form: &Lin) -> Option<Sym>
    ensures { result ≡ spec.innermost bound.now form.now }
{
    match form.terms().last() {
        Some(term) => counted_once(bound, term),
        None => None,
    }
}

// Whether of so many numbers the last block of the split is not full.
fn has_rest(cut: &Split, count: u32) -> bool
    ensures { result ≡ spec.has_rest cut.now count }
{
    cut.factor == 0 || count % cut.factor != 0
}

// Whether the blocks of the split run past the last number of its loop.
fn overruns(numbers: &[Numbers], cut: &Split) -> bool
    ensures { result ≡ spec.overruns numbers.now cut.now }
{
    match cut.tail {
        Tail::Roundup => has_rest(cut, numbers_named(numbers, &cut.whole).count),
        Tail::Guard | Tail::Shift => false,
    }
}

fn is_half(cut: &Split, name: &Name) -> bool
    ensures { result ≡ spec.is_half cut.now name.now }
{
    cut.outer.as_str() == name.as_str() || cut.inner.as_str() == name.as_str()
}

// Whether a loop that the split makes is split again, by blocks that run past its last number.
fn is_overrun(numbers: &[Numbers], cuts: &[Split], cut: &Split) -> bool
    ensures { result ≡ spec.is_overrun numbers.now cuts.now cut.now }
{
    cuts.iter().any(|other| is_half(cut, &other.whole) && overruns(numbers, other))
}

// Whether of these splits it is a guarded one whose blocks, as its loops run, go past the last number.
pub(crate) fn is_guarded(numbers: &[Numbers], cuts: &[Split], cut: &Split) -> bool
    ensures { result ≡ spec.is_guarded numbers.now cuts.now cut.now }
{
    match cut.tail {
        Tail::Guard => {
            has_rest(cut, numbers_named(numbers, &cut.whole).count)
                || is_overrun(numbers, cuts, cut)
        }
        Tail::Roundup | Tail::Shift => false,
    }
}

impl Numbers {
    pub(crate) fn last(&self) -> i64
        ensures value { result ≡ last_number self.now }
        ensures above { negsuc (2 ^ 31) ≤ℤ result }
        ensures below { result ≤ℤ pos (2 ^ 33) }
    {
        i64::from(self.low) + i64::from(self.count) - 1
    }

    // The last number at which a full block begins.
    fn room(&self, factor: u32) -> i64
        ensures { result ≡ spec.room self.now factor }
    {
        self.last() - i64::from(factor) + 1
    }
}

impl Standing {
    pub(crate) fn learn(&mut self, name: Name, form: Lin) -> Result<(), AllocError>
        ensures { IfOk result (λ _. spec.standing_of self.new ≡ spec.is_now name form (spec.standing_of self.old)) }
    {
        self.known.push(Known { name, form })?;
        Ok(())
    }

    fn start(&mut self, name: Name, form: Lin) -> Result<(), AllocError>
        ensures { IfOk result (λ _. spec.standing_of self.new ≡ spec.starts_at name form (spec.standing_of self.old)) }
    {
        self.starts.push(Known { name, form })?;
        Ok(())
    }

    // A symbol for the smaller of the form and the number.
    fn name_smaller(&mut self, alloc: Global, form: Lin, limit: i64) -> Result<Sym, AllocError>
        ensures symbol { IfOk result (λ symbol. symbol ≡ self.old.next) }
        ensures named { IfOk result (λ _. spec.standing_of self.new ≡ spec.name_smaller form limit (spec.standing_of self.old)) }
    {
        let symbol = self.next;
        let Some(next) = symbol.checked_add(1) else {
            return Err(AllocError);
        };
        let mut forms = Forms::new(alloc);
        forms.push(form)?;
        forms.push(Lin::number(alloc, limit))?;
        self.next = next;
        self.steps.push(Step::Named {
            symbol,
            pick: Pick::Min,
            forms,
        })?;
        Ok(symbol)
    }

    fn test(&mut self, alloc: Global, form: Lin, limit: i64) -> Result<(), AllocError>
        ensures { IfOk result (λ _. spec.standing_of self.new ≡ spec.test form limit (spec.standing_of self.old)) }
    {
        self.steps.push(Step::Tested {
            low: form,
            high: Lin::number(alloc, limit),
        })?;
        Ok(())
    }

    // Under `shift` the block begins no later than it has room.
    fn begin_at(
        &mut self,
        alloc: Global,
        cut: &Split,
        form: Lin,
        room: i64,
    ) -> Result<(), AllocError>
        ensures { IfOk result (λ _. spec.standing_of self.new ≡ spec.begin_at cut.now.tail cut.now.whole form room (spec.standing_of self.old)) }
    {
        match cut.tail {
            Tail::Shift => {
                let symbol = self.name_smaller(alloc, form, room)?;
                let start = counted_from(alloc, 0, symbol)?;
                self.start(cut.whole, start)
            }
            Tail::Guard | Tail::Roundup => self.start(cut.whole, form),
        }
    }

    // The first number of a block stands as soon as the outer loop does.
    pub(crate) fn begin(
        &mut self,
        alloc: Global,
        cut: &Split,
        numbers: &Numbers,
    ) -> Result<(), SkeletonError>
        ensures { spec.Builds result (spec.standing_of self.new) (spec.begin cut.now numbers.now (spec.standing_of self.old)) }
    {
        if form_named(&self.starts, &cut.whole).is_some() {
            return Ok(());
        }
        match form_of(alloc, &self.known, &cut.outer)? {
            Some(outer) => {
                let low = Lin::number(alloc, i64::from(numbers.low));
                let form = low.plus_multiple(alloc, i64::from(cut.factor), &outer)?;
                self.begin_at(alloc, cut, form, numbers.room(cut.factor))?;
                Ok(())
            }
            None => Ok(()),
        }
    }

    // By a further upper form of the innermost loop.
    fn keep_by_loop(
        &mut self,
        alloc: Global,
        name: Name,
        form: Lin,
        last: i64,
        symbol: Sym,
    ) -> Result<(), SkeletonError>
        ensures { spec.Builds result (spec.standing_of self.new) (spec.keep_by_loop name form last symbol (spec.standing_of self.old)) }
    {
        let rest = form.without(alloc, symbol)?;
        let limit = Lin::number(alloc, last).plus_multiple(alloc, -1, &rest)?;
        self.limits.push(limit)?;
        self.learn(name, form)?;
        Ok(())
    }

    // By a guard and a let behind it.
    fn keep_by_guard(
        &mut self,
        alloc: Global,
        name: Name,
        form: Lin,
        last: i64,
    ) -> Result<(), AllocError>
        ensures { IfOk result (λ _. spec.standing_of self.new ≡ spec.keep_by_guard name form last (spec.standing_of self.old)) }
    {
        let tested = form.copy(alloc)?;
        self.test(alloc, tested, last)?;
        let symbol = self.name_smaller(alloc, form, last)?;
        let within = counted_from(alloc, 0, symbol)?;
        self.learn(name, within)
    }

    // By a guard alone.
    fn keep_by_test(
        &mut self,
        alloc: Global,
        name: Name,
        form: Lin,
        last: i64,
    ) -> Result<(), AllocError>
        ensures { IfOk result (λ _. spec.standing_of self.new ≡ spec.keep_by_test name form last (spec.standing_of self.old)) }
    {
        let tested = form.copy(alloc)?;
        self.test(alloc, tested, last)?;
        self.learn(name, form)
    }

    // A number within the loop that was split.
    fn keep_within(
        &mut self,
        alloc: Global,
        within: Within,
        name: Name,
        form: Lin,
        last: i64,
    ) -> Result<(), SkeletonError>
        ensures { spec.Builds result (spec.standing_of self.new)
            (spec.keep_within within name form last (spec.standing_of self.old) (spec.innermost self.old.bound.items form)) }
    {
        match within {
            Within::Grid => Ok(()),
            Within::Nest => match innermost(&self.bound, &form) {
                Some(symbol) => self.keep_by_loop(alloc, name, form, last, symbol),
                None => {
                    self.keep_by_guard(alloc, name, form, last)?;
                    Ok(())
                }
            },
            Within::Lanes => match innermost(&self.bound, &form) {
                Some(symbol) => self.keep_by_loop(alloc, name, form, last, symbol),
                None => {
                    self.keep_by_test(alloc, name, form, last)?;
                    Ok(())
                }
            },
        }
    }

    // The position in the loop that was split.
    fn put_together(
        &mut self,
        alloc: Global,
        within: Within,
        guarded: bool,
        cut: &Split,
        numbers: &Numbers,
        form: Lin,
    ) -> Result<(), SkeletonError>
        ensures { spec.Builds result (spec.standing_of self.new) (spec.put_together within guarded cut.now numbers.now form (spec.standing_of self.old)) }
    {
        if !guarded {
            self.learn(cut.whole, form)?;
            return Ok(());
        }
        self.keep_within(alloc, within, cut.whole, form, numbers.last())
    }

    // The position stands as soon as the block's first number and the inner loop do.
    pub(crate) fn join(
        &mut self,
        alloc: Global,
        within: Within,
        guarded: bool,
        cut: &Split,
        numbers: &Numbers,
    ) -> Result<(), SkeletonError>
        ensures { spec.Builds result (spec.standing_of self.new) (spec.join within guarded cut.now numbers.now (spec.standing_of self.old)) }
    {
        if form_named(&self.known, &cut.whole).is_some() {
            return Ok(());
        }
        let Some(start) = form_of(alloc, &self.starts, &cut.whole)? else {
            return Ok(());
        };
        let Some(inner) = form_of(alloc, &self.known, &cut.inner)? else {
            return Ok(());
        };
        let form = start.plus_multiple(alloc, 1, &inner)?;
        self.put_together(alloc, within, guarded, cut, numbers, form)
    }
}
