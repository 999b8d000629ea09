//! What stands at a place of a nest: loops, the lets and guards that splits put behind them, and the positions that these tell.

ghost use Rattle.std.specs.Prelude.{◌≡◌, ◌+◌, ◌++◌, IfOk, OnOk, map};
ghost use Rattle.sched.specs.Standing as standing;
ghost use Rattle.sched.specs.Limited.{Tells};
ghost use Rattle.regions.specs.Settled as spec;
ghost use Rattle.sched.specs.Settled as sched;

use lin::{Lin, Multiple, Span1, Sym};
use plan::{Kind, Pick};
use sched::ends::{
    Frame, Reach, Run, form_named, has_rest, is_overrun, number_named, reach_named, summed,
};
use sched::forms::{raised, two_forms};
use sched::stop::Stop;
use sched::{Known, Numbers, Split, Step, Tail};
use std::alloc::{AllocError, Global};
use tree::token::Name;

/// What stands at a place of a nest.
#[derive(Drop)]
pub(crate) struct Standing {
    /// The forms of loops, also of those that are split.
    pub known: Vec<Known>,
    /// The forms of the first numbers of blocks, under the name of the loop that is split.
    pub starts: Vec<Known>,
    /// The symbols of the nest's loops.
    pub bound: Vec<Sym>,
    pub next: Sym,
    pub steps: Vec<Step>,
}

// ---- steps

// What the loop of the step runs over, with a further upper form where it is that of the symbol.
fn limited_span(
    alloc: Global,
    span: &Span1,
    is_limited: bool,
    limit: &Lin,
) -> Result<Span1, AllocError>
    ensures { IfOk result (λ made. made ≡ sched.limited_span is_limited limit.now span.now) }
{
    let mut span = span.copy(alloc)?;
    if is_limited {
        span.upper.push(limit.copy(alloc)?)?;
    }
    Ok(span)
}

// The step, with a further upper form where it is the loop of the symbol.
fn limited(alloc: Global, step: &Step, of: Sym, limit: &Lin) -> Result<Step, AllocError>
    ensures { IfOk result (λ made. made ≡ sched.limited of limit.now step.now) }
{
    match step {
        Step::Turns { symbol, span, kind } => Ok(Step::Turns {
            symbol: *symbol,
            span: limited_span(alloc, span, *symbol == of, limit)?,
            kind: *kind,
        }),
        Step::Named {
            symbol,
            pick,
            forms,
        } => Ok(Step::Named {
            symbol: *symbol,
            pick: *pick,
            forms: forms.copy(alloc)?,
        }),
        Step::Tested { low, high } => Ok(Step::Tested {
            low: low.copy(alloc)?,
            high: high.copy(alloc)?,
        }),
    }
}

// The same steps behind others.
fn add_limited(
    alloc: Global,
    steps: &[Step],
    of: Sym,
    limit: &Lin,
    made: &mut Vec<Step>,
) -> Result<(), AllocError>
    ensures { OnOk result (made.new.items ≡ made.old.items ++ map (sched.limited of limit.now) steps.now) }
{
    match steps {
        [] => Ok(()),
        [step, rest @ ..] => {
            made.push(limited(alloc, step, of, limit)?)?;
            add_limited(alloc, rest, of, limit, made)
        }
    }
}

/// The steps, of which the loop of the symbol has a further upper form.
pub(crate) fn all_limited(
    alloc: Global,
    steps: &[Step],
    of: Sym,
    limit: &Lin,
) -> Result<Vec<Step>, AllocError>
    ensures { IfOk result (λ made. made.items ≡ map (sched.limited of limit.now) steps.now) }
{
    let mut made = Vec::new(alloc);
    add_limited(alloc, steps, of, limit, &mut made)?;
    Ok(made)
}

// The form in memory of its own.
fn form_of(alloc: Global, known: &[Known], name: &Name) -> Result<Option<Lin>, AllocError>
    ensures { IfOk result (λ form. form ≡ standing.form_named known.now name.now) }
{
    match form_named(known, name) {
        Some(form) => Ok(Some(form.copy(alloc)?)),
        None => Ok(None),
    }
}

fn is_known(known: &[Known], name: &Name) -> bool
    ensures { result ≡ sched.is_known known.now name.now }
{
    match form_named(known, name) {
        Some(_form) => true,
        None => false,
    }
}

fn is_bound(bound: &[Sym], symbol: Sym) -> bool
    ensures { result ≡ standing.is_bound bound.now symbol }
{
    bound.iter().any(|one| *one == symbol)
}

// The symbol of the term, where it is that of a loop of the nest and counts once.
fn counted_once(bound: &[Sym], term: &Multiple) -> Option<Sym>
    ensures { result ≡ standing.counted_once bound.now term.now }
{
    if is_bound(bound, term.symbol) && term.factor == 1 {
        Some(term.symbol)
    } else {
        None
    }
}

// The last symbol of the form, where it is that of a loop of the nest and counts once.
fn innermost(bound: &[Sym], form: &Lin) -> Option<Sym>
    ensures { result ≡ standing.innermost bound.now form.now }
{
    match form.terms().last() {
        Some(term) => counted_once(bound, term),
        None => None,
    }
}

// The position in a loop that is split; in one of several blocks of one number that is where the block begins.
fn told_form(
    alloc: Global,
    cut: &Split,
    blocks: u32,
    start: &Lin,
    form: &Lin,
) -> Result<Lin, AllocError>
    ensures { IfOk result (λ told. told ≡ sched.told_form cut.now blocks start.now form.now) }
{
    if cut.factor == 1 && blocks > 1 {
        start.copy(alloc)
    } else {
        form.copy(alloc)
    }
}

// ---- splits

fn is_guard(tail: Tail) -> bool
    ensures { result ≡ sched.is_guard tail }
{
    match tail {
        Tail::Guard => true,
        Tail::Roundup | Tail::Shift => false,
    }
}

// Whether it is a guarded split whose blocks may go past the last number.
fn is_guarded(numbers: &[Numbers], cuts: &[Split], cut: &Split, own: &Reach) -> bool
    ensures { result ≡ sched.is_guarded numbers.now cuts.now cut.now own.now }
{
    if !is_guard(cut.tail) {
        return false;
    }
    own.varies || has_rest(cut, number_named(numbers, &cut.whole)) || is_overrun(numbers, cuts, cut)
}

fn is_lanes(kind: Kind) -> bool
    ensures { result ≡ sched.is_lanes kind }
{
    match kind {
        Kind::Vector => true,
        Kind::Serial | Kind::Unroll => false,
    }
}

impl Standing {
    fn learn(&mut self, name: Name, form: Lin) -> Result<(), AllocError>
        ensures { IfOk result (λ _. spec.standing_seen self.new ≡ standing.is_now name form (spec.standing_seen self.old)) }
    {
        self.known.push(Known { name, form })?;
        Ok(())
    }

    fn start(&mut self, name: Name, form: Lin) -> Result<(), AllocError>
        ensures { IfOk result (λ _. spec.standing_seen self.new ≡ standing.starts_at name form (spec.standing_seen self.old)) }
    {
        self.starts.push(Known { name, form })?;
        Ok(())
    }

    fn test(&mut self, alloc: Global, low: &Lin, high: &Lin) -> Result<(), AllocError>
        ensures { IfOk result (λ _. spec.standing_seen self.new ≡ sched.tests low.now high.now (spec.standing_seen self.old)) }
    {
        self.steps.push(Step::Tested {
            low: low.copy(alloc)?,
            high: high.copy(alloc)?,
        })?;
        Ok(())
    }

    // A symbol for the smaller or the greater of two forms.
    fn picked(
        &mut self,
        alloc: Global,
        pick: Pick,
        first: Lin,
        second: Lin,
    ) -> Result<Lin, AllocError>
        ensures form { IfOk result (λ form. form ≡ standing.alone self.old.next) }
        ensures named { IfOk result (λ _. spec.standing_seen self.new ≡ sched.picks pick first second (spec.standing_seen self.old)) }
    {
        let symbol = self.next;
        let Some(next) = symbol.checked_add(1) else {
            return Err(AllocError);
        };
        let forms = two_forms(alloc, first, second)?;
        self.next = next;
        self.steps.push(Step::Named {
            symbol,
            pick,
            forms,
        })?;
        Lin::symbol(alloc, symbol)
    }

    // Whether it is tested that a block begins no later than at the last number: where the inner loop stands outside, a guarded
    // position tells it.
    fn is_asked(&self, cut: &Split, own: &Reach) -> bool
        ensures { result ≡ sched.is_asked cut.now own.now (spec.standing_seen self.now) }
    {
        own.varies && !own.is_even && !(is_guard(cut.tail) && is_known(&self.known, &cut.inner))
    }

    fn test_if(
        &mut self,
        alloc: Global,
        is_asked: bool,
        low: &Lin,
        high: &Lin,
    ) -> Result<(), AllocError>
        ensures { IfOk result (λ _. spec.standing_seen self.new ≡ sched.tests_if is_asked low.now high.now (spec.standing_seen self.old)) }
    {
        if is_asked {
            self.test(alloc, low, high)?;
        }
        Ok(())
    }

    // A block that is shifted begins no later than it has room.
    fn begin_at(&mut self, alloc: Global, cut: &Split, last: &Lin, form: Lin) -> Result<(), Stop>
        ensures { Tells result (spec.standing_seen self.new)
            (sched.begin_at cut.now.tail cut.now.whole cut.now.factor last.now form (spec.standing_seen self.old)) }
    {
        match cut.tail {
            Tail::Shift => {
                let room = raised(alloc, last, 1 - i64::from(cut.factor))?;
                let start = self.picked(alloc, Pick::Min, form, room)?;
                self.start(cut.whole, start)?;
                Ok(())
            }
            Tail::Guard | Tail::Roundup => {
                self.start(cut.whole, form)?;
                Ok(())
            }
        }
    }

    fn begin_over(
        &mut self,
        alloc: Global,
        cut: &Split,
        own: &Reach,
        outer: Option<Lin>,
    ) -> Result<(), Stop>
        ensures { Tells result (spec.standing_seen self.new) (sched.begin_over cut.now own.now outer (spec.standing_seen self.old)) }
    {
        let Some(outer) = outer else {
            return Ok(());
        };
        let form = summed(alloc, &own.low, i64::from(cut.factor), &outer)?;
        let is_asked = self.is_asked(cut, own);
        self.test_if(alloc, is_asked, &form, &own.last)?;
        self.begin_at(alloc, cut, &own.last, form)
    }

    // The first number of a block stands as soon as the outer loop does. No block begins behind the last number.
    fn begin(&mut self, alloc: Global, cut: &Split, own: &Reach) -> Result<(), Stop>
        ensures { Tells result (spec.standing_seen self.new) (sched.begin cut.now own.now (spec.standing_seen self.old)) }
    {
        if is_known(&self.starts, &cut.whole) {
            return Ok(());
        }
        let outer = form_of(alloc, &self.known, &cut.outer)?;
        self.begin_over(alloc, cut, own, outer)
    }

    // By a further upper form of the loop of this symbol. The form is told once more without what is 0 in it.
    pub(crate) fn keep_by_loop(
        &mut self,
        alloc: Global,
        name: Name,
        own: &Reach,
        form: Lin,
        told: &Lin,
        symbol: Sym,
    ) -> Result<(), Stop>
        ensures { Tells result (spec.standing_seen self.new)
            (sched.keep_by_loop name own.now form told.now symbol (spec.standing_seen self.old)) }
    {
        let rest = told.without(alloc, symbol)?;
        let limit = summed(alloc, &own.last, -1, &rest)?;
        self.steps = all_limited(alloc, &self.steps, symbol, &limit)?;
        self.learn(name, form)?;
        Ok(())
    }

    // A let tells that a number is at most the last one. Where the last number is not shown to be at least the first one, a let
    // tells that this number is: bounds read no guards.
    pub(crate) fn keep_by_let(
        &mut self,
        alloc: Global,
        name: Name,
        own: &Reach,
        form: Lin,
    ) -> Result<(), AllocError>
        ensures { IfOk result (λ _. spec.standing_seen self.new ≡ sched.keep_by_let name own.now form (spec.standing_seen self.old)) }
    {
        let kept = self.picked(alloc, Pick::Min, form, own.last.copy(alloc)?)?;
        if own.is_told {
            return self.learn(name, kept);
        }
        let told = self.picked(alloc, Pick::Max, kept, own.low.copy(alloc)?)?;
        self.learn(name, told)
    }

    // By a guard, and a let behind it, which no vectorised loop has.
    fn keep_by_guard(
        &mut self,
        alloc: Global,
        is_lane: bool,
        name: Name,
        own: &Reach,
        form: Lin,
    ) -> Result<(), AllocError>
        ensures { IfOk result (λ _. spec.standing_seen self.new ≡ sched.keep_by_guard is_lane name own.now form (spec.standing_seen self.old)) }
    {
        self.test(alloc, &form, &own.last)?;
        if is_lane {
            self.learn(name, form)
        } else {
            self.keep_by_let(alloc, name, own, form)
        }
    }

    // A number within the loop that is split.
    pub(crate) fn keep(
        &mut self,
        alloc: Global,
        is_lane: bool,
        name: Name,
        own: &Reach,
        form: Lin,
        told: &Lin,
    ) -> Result<(), Stop>
        ensures { Tells result (spec.standing_seen self.new)
            (sched.keep is_lane name own.now form told.now (spec.standing_seen self.old)) }
    {
        match innermost(&self.bound, &form) {
            Some(symbol) => self.keep_by_loop(alloc, name, own, form, told, symbol),
            None => {
                self.keep_by_guard(alloc, is_lane, name, own, form)?;
                Ok(())
            }
        }
    }

    fn put_together(
        &mut self,
        alloc: Global,
        is_lane: bool,
        is_guarded: bool,
        cut: &Split,
        blocks: u32,
        own: &Reach,
        start: &Lin,
        form: Lin,
    ) -> Result<(), Stop>
        ensures { Tells result (spec.standing_seen self.new)
            (sched.put_together is_lane is_guarded cut.now blocks own.now start.now form (spec.standing_seen self.old)) }
    {
        if !is_guarded {
            self.learn(cut.whole, form)?;
            return Ok(());
        }
        let told = told_form(alloc, cut, blocks, start, &form)?;
        self.keep(alloc, is_lane, cut.whole, own, form, &told)
    }

    fn join_over(
        &mut self,
        alloc: Global,
        is_lane: bool,
        is_guarded: bool,
        cut: &Split,
        blocks: u32,
        own: &Reach,
        start: Option<Lin>,
        inner: Option<Lin>,
    ) -> Result<(), Stop>
        ensures { Tells result (spec.standing_seen self.new)
            (sched.join_over is_lane is_guarded cut.now blocks own.now start inner (spec.standing_seen self.old)) }
    {
        let Some(start) = start else {
            return Ok(());
        };
        let Some(inner) = inner else {
            return Ok(());
        };
        let form = summed(alloc, &start, 1, &inner)?;
        self.put_together(alloc, is_lane, is_guarded, cut, blocks, own, &start, form)
    }

    // The position stands as soon as the block's first number and the inner loop do.
    fn join(
        &mut self,
        alloc: Global,
        is_lane: bool,
        is_guarded: bool,
        cut: &Split,
        blocks: u32,
        own: &Reach,
    ) -> Result<(), Stop>
        ensures { Tells result (spec.standing_seen self.new)
            (sched.join is_lane is_guarded cut.now blocks own.now (spec.standing_seen self.old)) }
    {
        if is_known(&self.known, &cut.whole) {
            return Ok(());
        }
        let start = form_of(alloc, &self.starts, &cut.whole)?;
        let inner = form_of(alloc, &self.known, &cut.inner)?;
        self.join_over(alloc, is_lane, is_guarded, cut, blocks, own, start, inner)
    }

    fn settle_by(
        &mut self,
        alloc: Global,
        is_lane: bool,
        numbers: &[Numbers],
        cuts: &[Split],
        cut: &Split,
        own: &Reach,
    ) -> Result<(), Stop>
        ensures { Tells result (spec.standing_seen self.new)
            (sched.settle_by numbers.now cuts.now is_lane cut.now own.now (spec.standing_seen self.old)) }
    {
        self.begin(alloc, cut, own)?;
        let is_guarded = is_guarded(numbers, cuts, cut, own);
        let blocks = number_named(numbers, &cut.outer);
        self.join(alloc, is_lane, is_guarded, cut, blocks, own)
    }

    fn settle_one(
        &mut self,
        alloc: Global,
        is_lane: bool,
        frame: &Frame,
        cuts: &[Split],
        cut: &Split,
    ) -> Result<(), Stop>
        ensures { Tells result (spec.standing_seen self.new)
            (sched.settle_one frame.now.numbers.items frame.now.reaches.items cuts.now is_lane cut.now (spec.standing_seen self.old)) }
    {
        match reach_named(&frame.reaches, &cut.whole) {
            Some(own) => self.settle_by(alloc, is_lane, &frame.numbers, cuts, cut, own),
            None => Err(Stop::Limit),
        }
    }

    // Whatever stands now by some of the splits is named, guarded and put together.
    fn settle(
        &mut self,
        alloc: Global,
        is_lane: bool,
        frame: &Frame,
        cuts: &[Split],
        some: &[Split],
    ) -> Result<(), Stop>
        ensures { Tells result (spec.standing_seen self.new)
            (sched.settle frame.now.numbers.items frame.now.reaches.items cuts.now is_lane some.now (spec.standing_seen self.old)) }
    {
        match some {
            [] => Ok(()),
            [cut, rest @ ..] => {
                self.settle_one(alloc, is_lane, frame, cuts, cut)?;
                self.settle(alloc, is_lane, frame, cuts, rest)
            }
        }
    }

    fn enter(&mut self, alloc: Global, run: &Run) -> Result<(), AllocError>
        ensures { IfOk result (λ _. spec.standing_seen self.new ≡ sched.enter run.now (spec.standing_seen self.old)) }
    {
        let symbol = self.next;
        let Some(next) = symbol.checked_add(1) else {
            return Err(AllocError);
        };
        self.next = next;
        self.steps.push(Step::Turns {
            symbol,
            span: run.span.copy(alloc)?,
            kind: run.kind,
        })?;
        self.bound.push(symbol)?;
        let form = Lin::symbol(alloc, symbol)?;
        self.learn(run.name, form)
    }

    /// A loop, and whatever stands with it.
    fn turn(&mut self, alloc: Global, frame: &Frame, cuts: &[Split], run: &Run) -> Result<(), Stop>
        ensures { Tells result (spec.standing_seen self.new)
            (sched.turn frame.now.numbers.items frame.now.reaches.items cuts.now run.now (spec.standing_seen self.old)) }
    {
        self.enter(alloc, run)?;
        let is_lane = is_lanes(run.kind);
        self.settle(alloc, is_lane, frame, cuts, cuts)
    }

    /// Loops, each inside the one before, and whatever stands with them.
    pub(crate) fn turn_all(
        &mut self,
        alloc: Global,
        frame: &Frame,
        cuts: &[Split],
        runs: &[Run],
    ) -> Result<(), Stop>
        ensures { Tells result (spec.standing_seen self.new)
            (sched.turn_all frame.now.numbers.items frame.now.reaches.items cuts.now runs.now (spec.standing_seen self.old)) }
    {
        match runs {
            [] => Ok(()),
            [run, rest @ ..] => {
                self.turn(alloc, frame, cuts, run)?;
                self.turn_all(alloc, frame, cuts, rest)
            }
        }
    }
}
