//! What directives make of the loops of a function.

ghost use Rattle.std.specs.Prelude.{◌≡◌, ◌&&◌, ◌==◌, not, IfOk, map, position};
ghost use Rattle.std.specs.List.{flat_map, list_any};
ghost use Rattle.sched.specs.declared.placing.Halt.TheVariants.{Memory};
ghost use Rattle.sched.specs.View.{directive_of, scheduled_of, schedule_of};
ghost use Rattle.meaning.specs.Names.{is_among, same_name};
ghost use Rattle.sched.specs.Placing as spec;

use crate::error::{Rule, SchedError};
use crate::schedule::{Directive, Fold, Home, Sched, Scheduled, Split, Tail, Tile};
use std::alloc::{AllocError, AllocFailed, Global};
use tree::token::Name;

/// How the turns of a loop are done, where they are not done one after another.
#[derive(Clone, Copy, Drop)]
pub enum Mark {
    Unrolled,
    Vectorized,
    Parallel,
}

/// A loop of a function.
#[derive(Clone, Copy, Drop)]
pub struct Loop {
    pub name: Name,
    /// The dimension that it walks, counted from 0.
    pub dimension: usize,
    /// The factor of the split whose inner loop it is, if it is one.
    pub within: Option<u32>,
    pub mark: Option<Mark>,
}

/// What a schedule has to know of a function.
#[derive(Drop)]
pub struct Subject {
    /// The names of all functions.
    pub functions: Vec<Name>,
    pub name: Name,
    pub variables: Vec<Name>,
    /// The reduction variables of its updates.
    pub reductions: Vec<Name>,
    /// The dimensions for which some update has no pure variable.
    pub scattered: Vec<usize>,
    /// How many updates it has.
    pub updates: usize,
    pub is_output: bool,
    /// The output, or a function with a `compute_root` somewhere in the text (`has_root`).
    pub is_root: bool,
    /// A root function, or one that is computed at a loop.
    pub is_stored: bool,
}

impl Subject {
    /// Whether a pure definition is not all that it has.
    pub fn has_updates(&self) -> bool
        ensures { result ≡ spec.has_updates (spec.subject_of self.now) }
    {
        self.updates > 0
    }
}

/// What directives have made of a function.
#[derive(Drop)]
pub struct Placed {
    /// The innermost first.
    pub loops: Vec<Loop>,
    /// In the order of the text.
    pub cuts: Vec<Split>,
    /// The names that no split may give to a loop any more.
    pub used: Vec<Name>,
    /// The loops at which it is computed, in the order of the text.
    pub homes: Vec<Home>,
    /// The loops at which it is stored, in the order of the text.
    pub stores: Vec<Home>,
    /// What its storage is folded to, in the order of the text.
    pub folds: Vec<Fold>,
}

/// Why directives were not applied.
#[derive(Clone, Copy, Drop)]
pub enum Halt {
    /// Memory ran out.
    Memory,
    /// The first directive that breaks a rule breaks this one.
    Broken(Rule),
}

impl From<AllocError> for Halt {
    ghost from_gives = { λ _ h. h ≡ Memory };

    fn from(_e: AllocError) -> Halt {
        Halt::Memory
    }
}

impl<T: Drop> From<AllocFailed<T>> for Halt {
    ghost from_gives = { λ _ h. h ≡ Memory };

    fn from(_e: AllocFailed<T>) -> Halt {
        Halt::Memory
    }
}

/// The greatest factor of a split.
pub const MAX_FACTOR: u32 = 1024;

/// The greatest factor of a split whose inner loop may be unrolled or vectorised.
pub const MAX_LANES: u32 = 64;

fn is_among(names: &[Name], name: &Name) -> bool
    ensures { result ≡ is_among names.now name.now }
{
    names.iter().any(|other| other.as_str() == name.as_str())
}

fn has_loop(loops: &[Loop], name: &Name) -> bool
    ensures { result ≡ spec.has_loop loops.now name.now }
{
    loops.iter().any(|one| one.name.as_str() == name.as_str())
}

// Whether the name is that of a loop or of a reduction variable.
fn is_known(subject: &Subject, loops: &[Loop], name: &Name) -> bool
    ensures { result ≡ spec.is_known (spec.subject_of subject.now) loops.now name.now }
{
    has_loop(loops, name) || is_among(&subject.reductions, name)
}

// A reduction variable, a name that is used already, or a factor out of 1 to 1024.
fn breaks_split(subject: &Subject, placed: &Placed, split: &Split) -> bool
    ensures { result ≡ spec.breaks_split (spec.subject_of subject.now) (spec.placed_of placed.now) split.now }
{
    is_among(&subject.reductions, &split.whole)
        || is_among(&placed.used, &split.outer)
        || is_among(&placed.used, &split.inner)
        || split.outer.as_str() == split.inner.as_str()
        || split.factor == 0
        || split.factor > MAX_FACTOR
}

// The loops after a split: the inner loop in the place of the loop, and the outer one directly outside it.
fn cut_loops(alloc: Global, split: &Split, loops: &[Loop]) -> Result<Vec<Loop>, AllocError>
    ensures { IfOk result (λ v. v.items ≡ flat_map (spec.cut_loop split.now) loops.now) }
{
    let mut cut = Vec::new(alloc);
    for one in loops {
        if one.name.as_str() == split.whole.as_str() {
            cut.push(Loop {
                name: split.inner,
                dimension: one.dimension,
                within: Some(split.factor),
                mark: None,
            })?;
            cut.push(Loop {
                name: split.outer,
                dimension: one.dimension,
                within: None,
                mark: None,
            })?;
        } else {
            cut.push(*one)?;
        }
    }
    Ok(cut)
}

// Whether some name stands twice.
fn has_double(names: &[Name]) -> bool
    ensures { result ≡ spec.has_double names.now }
{
    match names {
        [] => false,
        [first, rest @ ..] => is_among(rest, first) || has_double(rest),
    }
}

fn loop_named(loops: &[Loop], name: &Name) -> Option<Loop>
    ensures { result ≡ spec.loop_named loops.now name.now }
{
    loops
        .iter()
        .copied()
        .find(|one| one.name.as_str() == name.as_str())
}

// The loops of these names, in their order.
#[tactic(auto, using(crate::proofs::Placings::named_next, crate::proofs::Placings::named_none))]
fn loops_named(alloc: Global, loops: &[Loop], names: &[Name]) -> Result<Vec<Loop>, AllocError>
    ensures { IfOk result (λ v. v.items ≡ spec.loops_named loops.now names.now) }
{
    let mut found = Vec::new(alloc);
    for name in names {
        match loop_named(loops, name) {
            Some(one) => found.push(one)?,
            None => {}
        }
    }
    Ok(found)
}

// The places of the loops of these names, filled by the next ones in turn.
#[tactic(auto, using(crate::proofs::Placings::filled_takes, crate::proofs::Placings::filled_keeps, crate::proofs::Placings::filled_ends))]
fn filled(
    alloc: Global,
    names: &[Name],
    queue: &[Loop],
    loops: &[Loop],
) -> Result<Vec<Loop>, AllocError>
    ensures { IfOk result (λ v. v.items ≡ spec.filled names.now queue.now loops.now) }
{
    let mut found = Vec::new(alloc);
    let mut next = queue;
    for one in loops {
        match next {
            [first, others @ ..] => {
                if is_among(names, &one.name) {
                    found.push(*first)?;
                    next = others;
                } else {
                    found.push(*one)?;
                }
            }
            [] => found.push(*one)?,
        }
    }
    Ok(found)
}

// Whether some loop of this name is marked, or is not the inner loop of a split with factor at most 64.
fn breaks_mark(loops: &[Loop], name: &Name) -> bool
    ensures { result ≡ spec.breaks_mark loops.now name.now }
{
    loops.iter().any(|one| one.name.as_str() == name.as_str()
        && (one.mark.is_some() || !one.is_short()))
}

// Whether some loop of this name is marked, or walks a dimension for which some update has no pure variable.
fn breaks_parallel(subject: &Subject, loops: &[Loop], name: &Name) -> bool
    ensures { result ≡ spec.breaks_parallel (spec.subject_of subject.now) loops.now name.now }
{
    loops.iter().any(|one| one.name.as_str() == name.as_str()
        && (one.mark.is_some() || is_scattered(subject, one)))
}

// Whether some update has no pure variable for the loop's dimension.
fn is_scattered(subject: &Subject, one: &Loop) -> bool
    ensures { result ≡ spec.is_scattered (spec.subject_of subject.now) one.now }
{
    subject
        .scattered
        .iter()
        .any(|dimension| *dimension == one.dimension)
}

impl Loop {
    // Whether it is the inner loop of a split with factor at most 64.
    fn is_short(&self) -> bool
        ensures { result ≡ spec.is_short self.now }
    {
        match self.within {
            Some(factor) => factor <= MAX_LANES,
            None => false,
        }
    }

    // Whether it is unrolled or vectorised.
    fn is_flat(&self) -> bool
        ensures { result ≡ spec.is_flat self.now }
    {
        matches!(self.mark, Some(Mark::Unrolled | Mark::Vectorized))
    }

    /// Whether its turns are the lanes of vectors.
    pub fn is_vectorized(&self) -> bool
        ensures { result ≡ spec.is_vectorized self.now }
    {
        matches!(self.mark, Some(Mark::Vectorized))
    }

    /// Whether each of its turns is a piece of its own.
    pub fn is_parallel(&self) -> bool
        ensures { result ≡ spec.is_parallel self.now }
    {
        matches!(self.mark, Some(Mark::Parallel))
    }
}

// Whether some loop outside of a parallel one is not parallel.
fn has_parallel_inside(loops: &[Loop]) -> bool
    ensures { result ≡ spec.has_parallel_inside loops.now }
{
    match loops {
        [] => false,
        [first, rest @ ..] => {
            first.is_parallel() && !rest.iter().all(|one| one.is_parallel())
                || has_parallel_inside(rest)
        }
    }
}

impl Placed {
    fn cut(&mut self, alloc: Global, split: &Split) -> Result<(), AllocError>
        ensures { IfOk result (λ _. spec.placed_of self.new ≡ spec.cut split.now (spec.placed_of self.old)) }
    {
        self.loops = cut_loops(alloc, split, &self.loops)?;
        self.cuts.push(*split)?;
        self.used.push(split.outer)?;
        self.used.push(split.inner)?;
        Ok(())
    }

    fn split(&mut self, alloc: Global, subject: &Subject, split: &Split) -> Result<(), Halt>
        ensures { spec.Places result (spec.placed_of self.new) (spec.split_in (spec.subject_of subject.now) split.now (spec.placed_of self.old)) }
    {
        if !is_known(subject, &self.loops, &split.whole) {
            return Err(Halt::Broken(Rule::UnknownName));
        }
        if breaks_split(subject, self, split) {
            return Err(Halt::Broken(Rule::BadSplit));
        }
        self.cut(alloc, split)?;
        Ok(())
    }

    fn reorder(&mut self, alloc: Global, subject: &Subject, names: &[Name]) -> Result<(), Halt>
        ensures { spec.Places result (spec.placed_of self.new) (spec.reorder_in (spec.subject_of subject.now) names.now (spec.placed_of self.old)) }
    {
        if !all_known(subject, &self.loops, names) {
            return Err(Halt::Broken(Rule::UnknownName));
        }
        if any_reduction(subject, names) || has_double(names) {
            return Err(Halt::Broken(Rule::BadReorder));
        }
        let next = loops_named(alloc, &self.loops, names)?;
        self.loops = filled(alloc, names, &next, &self.loops)?;
        Ok(())
    }

    fn tile(&mut self, alloc: Global, subject: &Subject, tile: &Tile) -> Result<(), Halt>
        ensures { spec.Places result (spec.placed_of self.new) (spec.tile_in (spec.subject_of subject.now) tile.now (spec.placed_of self.old)) }
    {
        let x = Split {
            whole: tile.x,
            outer: tile.x_outer,
            inner: tile.x_inner,
            factor: tile.x_factor,
            tail: tile.tail,
        };
        self.split(alloc, subject, &x)?;
        let y = Split {
            whole: tile.y,
            outer: tile.y_outer,
            inner: tile.y_inner,
            factor: tile.y_factor,
            tail: tile.tail,
        };
        self.split(alloc, subject, &y)?;
        let order = [tile.x_inner, tile.y_inner, tile.x_outer, tile.y_outer];
        self.reorder(alloc, subject, &order)
    }

    fn set_mark(&mut self, alloc: Global, mark: Mark, name: &Name) -> Result<(), AllocError>
        ensures { IfOk result (λ _. spec.placed_of self.new ≡ spec.marked mark name.now (spec.placed_of self.old)) }
    {
        self.loops = marked_loops(alloc, mark, name, &self.loops)?;
        Ok(())
    }

    // Unrolls or vectorises a loop.
    fn mark(
        &mut self,
        alloc: Global,
        subject: &Subject,
        mark: Mark,
        name: &Name,
    ) -> Result<(), Halt>
        ensures { spec.Places result (spec.placed_of self.new) (spec.mark_in (spec.subject_of subject.now) mark name.now (spec.placed_of self.old)) }
    {
        if !is_known(subject, &self.loops, name) {
            return Err(Halt::Broken(Rule::UnknownName));
        }
        if is_among(&subject.reductions, name) || breaks_mark(&self.loops, name) {
            return Err(Halt::Broken(Rule::BadMark));
        }
        self.set_mark(alloc, mark, name)?;
        Ok(())
    }

    fn parallel(&mut self, alloc: Global, subject: &Subject, name: &Name) -> Result<(), Halt>
        ensures { spec.Places result (spec.placed_of self.new) (spec.parallel_in (spec.subject_of subject.now) name.now (spec.placed_of self.old)) }
    {
        if !is_known(subject, &self.loops, name) {
            return Err(Halt::Broken(Rule::UnknownName));
        }
        if is_among(&subject.reductions, name)
            || !subject.is_root
            || breaks_parallel(subject, &self.loops, name)
        {
            return Err(Halt::Broken(Rule::BadParallel));
        }
        self.set_mark(alloc, Mark::Parallel, name)?;
        Ok(())
    }

    // A turn of the loop computes what it needs of the function. The loop must be one of a function; which one is asked of the
    // whole text.
    fn compute_at(&mut self, subject: &Subject, home: &Home) -> Result<(), Halt>
        ensures { spec.Places result (spec.placed_of self.new) (spec.home_in (spec.subject_of subject.now) home.now (spec.placed_of self.old)) }
    {
        if !is_among(&subject.functions, &home.function) {
            return Err(Halt::Broken(Rule::UnknownName));
        }
        self.homes.push(*home)?;
        Ok(())
    }

    // A turn of the loop owns the function's storage.
    fn store_at(&mut self, subject: &Subject, home: &Home) -> Result<(), Halt>
        ensures { spec.Places result (spec.placed_of self.new) (spec.store_in (spec.subject_of subject.now) home.now (spec.placed_of self.old)) }
    {
        if !is_among(&subject.functions, &home.function) {
            return Err(Halt::Broken(Rule::UnknownName));
        }
        self.stores.push(*home)?;
        Ok(())
    }

    // The dimension of a fold must be one of the function.
    fn fold(&mut self, subject: &Subject, fold: &Fold) -> Result<(), Halt>
        ensures { spec.Places result (spec.placed_of self.new) (spec.fold_in (spec.subject_of subject.now) fold.now (spec.placed_of self.old)) }
    {
        if !is_among(&subject.variables, &fold.dimension) {
            return Err(Halt::Broken(Rule::UnknownName));
        }
        self.folds.push(*fold)?;
        Ok(())
    }

    // Where a function is computed and stored changes none of its loops.
    fn apply(&mut self, alloc: Global, subject: &Subject, directive: &Directive) -> Result<(), Halt>
        ensures { spec.Places result (spec.placed_of self.new) (spec.applied (spec.subject_of subject.now) (directive_of directive.now) (spec.placed_of self.old)) }
    {
        match directive {
            Directive::ComputeRoot => Ok(()),
            Directive::ComputeAt(home) => self.compute_at(subject, home),
            Directive::StoreAt(home) => self.store_at(subject, home),
            Directive::Fold(fold) => self.fold(subject, fold),
            Directive::Split(split) => self.split(alloc, subject, split),
            Directive::Tile(tile) => self.tile(alloc, subject, tile),
            Directive::Reorder(names) => self.reorder(alloc, subject, names),
            Directive::Unroll(name) => self.mark(alloc, subject, Mark::Unrolled, name),
            Directive::Vectorize(name) => self.mark(alloc, subject, Mark::Vectorized, name),
            Directive::Parallel(name) => self.parallel(alloc, subject, name),
        }
    }
}

// Whether some vectorised loop is not the innermost.
fn has_vectorized_outside(loops: &[Loop]) -> bool
    ensures { result ≡ spec.has_vectorized_outside loops.now }
{
    match loops {
        [] => false,
        [_, outer @ ..] => any_vectorized(outer),
    }
}

fn any_vectorized(loops: &[Loop]) -> bool
    ensures { result ≡ list_any spec.is_vectorized loops.now }
{
    loops.iter().any(|one| one.is_vectorized())
}

pub(crate) fn is_shifted(split: &Split) -> bool
    ensures { result ≡ spec.is_shifted split.now }
{
    match split.tail {
        Tail::Shift => true,
        Tail::Guard | Tail::Roundup => false,
    }
}

fn has_shift(cuts: &[Split]) -> bool
    ensures { result ≡ list_any spec.is_shifted cuts.now }
{
    cuts.iter().any(|split| is_shifted(split))
}

// Whether the turns of the loop of this name are done one after another, or are pieces of their own.
fn is_open(one: &Loop, name: &Name) -> bool
    ensures { result ≡ spec.is_open name.now one.now }
{
    one.name.as_str() == name.as_str() && !one.is_flat()
}

// Whether such a loop is among these, and none inside it is parallel.
fn stands_open(loops: &[Loop], name: &Name) -> bool
    ensures { result ≡ spec.stands_open name.now loops.now }
{
    match loops {
        [] => false,
        [first, rest @ ..] => {
            is_open(first, name) || (!first.is_parallel() && stands_open(rest, name))
        }
    }
}

// Whether a loop of this name is among these, and none inside it is parallel.
fn stands_clear(loops: &[Loop], name: &Name) -> bool
    ensures { result ≡ spec.stands_clear name.now loops.now }
{
    match loops {
        [] => false,
        [first, rest @ ..] => {
            first.name.as_str() == name.as_str()
                || (!first.is_parallel() && stands_clear(rest, name))
        }
    }
}

// The same of the outer name, outside a loop of the inner one.
fn stands_outside(loops: &[Loop], inner: &Name, outer: &Name) -> bool
    ensures { result ≡ spec.stands_outside inner.now outer.now loops.now }
{
    match loops {
        [] => false,
        [first, rest @ ..] => {
            !first.is_parallel()
                && ((first.name.as_str() == inner.as_str() && stands_clear(rest, outer))
                    || stands_outside(rest, inner, outer))
        }
    }
}

// Whether the function of this subject is stored, another one than the own, and has the loop.
fn is_home(own: &Subject, home: &Home, subject: &Subject, placed: &Placed) -> bool
    ensures { result ≡ spec.is_home (spec.subject_of own.now) home.now (spec.subject_of subject.now) (spec.placed_of placed.now) }
{
    (subject.name.as_str() == home.function.as_str() && subject.is_stored)
        && (subject.name.as_str() != own.name.as_str() && stands_open(&placed.loops, &home.turn))
}

// Whether some function is so.
fn has_home_in(own: &Subject, home: &Home, subjects: &[Subject], placed: &[Placed]) -> bool
    ensures { result ≡ spec.has_home_in (spec.subject_of own.now) home.now (map spec.subject_of subjects.now) (map spec.placed_of placed.now) }
{
    let [subject, others @ ..] = subjects else {
        return false;
    };
    let [first, rest @ ..] = placed else {
        return false;
    };
    is_home(own, home, subject, first) || has_home_in(own, home, others, rest)
}

fn some_homeless(own: &Subject, homes: &[Home], subjects: &[Subject], placed: &[Placed]) -> bool
    ensures { result ≡ list_any (λ h. not (spec.has_home_in (spec.subject_of own.now) h (map spec.subject_of subjects.now) (map spec.placed_of placed.now))) homes.now }
{
    homes
        .iter()
        .any(|home| !has_home_in(own, home, subjects, placed))
}

fn breaks_home(subjects: &[Subject], placed: &[Placed], subject: &Subject, own: &Placed) -> bool
    ensures { result ≡ spec.breaks_home (map spec.subject_of subjects.now) (map spec.placed_of placed.now) (spec.subject_of subject.now) (spec.placed_of own.now) }
{
    (subject.is_root && own.homes.len() > 0)
        || (own.homes.len() > 1 || some_homeless(subject, &own.homes, subjects, placed))
}

// Whether the function of this subject has the loop at which one is stored outside the one at which it is computed.
fn is_outside(home: &Home, store: &Home, subject: &Subject, placed: &Placed) -> bool
    ensures { result ≡ spec.is_outside home.now store.now (spec.subject_of subject.now) (spec.placed_of placed.now) }
{
    subject.name.as_str() == home.function.as_str()
        && stands_outside(&placed.loops, &home.turn, &store.turn)
}

// Whether some function has.
fn has_outside(home: &Home, store: &Home, subjects: &[Subject], placed: &[Placed]) -> bool
    ensures { result ≡ spec.has_outside home.now store.now (map spec.subject_of subjects.now) (map spec.placed_of placed.now) }
{
    let [subject, others @ ..] = subjects else {
        return false;
    };
    let [first, rest @ ..] = placed else {
        return false;
    };
    is_outside(home, store, subject, first) || has_outside(home, store, others, rest)
}

// Whether it is computed at a loop of these that stands inside the one at which it is stored.
fn some_inside(subjects: &[Subject], placed: &[Placed], homes: &[Home], store: &Home) -> bool
    ensures { result ≡ list_any (λ h. same_name store.now.function h.function && spec.has_outside h store.now (map spec.subject_of subjects.now) (map spec.placed_of placed.now)) homes.now }
{
    homes.iter().any(|home| store.function.as_str() == home.function.as_str()
        && has_outside(home, store, subjects, placed))
}

// Whether the function is computed inside the loop at which it is stored.
fn has_storage(subjects: &[Subject], placed: &[Placed], own: &Placed, store: &Home) -> bool
    ensures { result ≡ spec.has_storage (map spec.subject_of subjects.now) (map spec.placed_of placed.now) (spec.placed_of own.now) store.now }
{
    some_inside(subjects, placed, &own.homes, store)
}

fn some_unstored(subjects: &[Subject], placed: &[Placed], own: &Placed) -> bool
    ensures { result ≡ list_any (λ w. not (spec.has_storage (map spec.subject_of subjects.now) (map spec.placed_of placed.now) (spec.placed_of own.now) w)) own.now.stores.items }
{
    own.stores
        .iter()
        .any(|store| !has_storage(subjects, placed, own, store))
}

fn breaks_storage(subjects: &[Subject], placed: &[Placed], own: &Placed) -> bool
    ensures { result ≡ spec.breaks_storage (map spec.subject_of subjects.now) (map spec.placed_of placed.now) (spec.placed_of own.now) }
{
    own.stores.len() > 1 || some_unstored(subjects, placed, own)
}

fn some_empty(folds: &[Fold]) -> bool
    ensures { result ≡ list_any (λ d. d.factor == 0) folds.now }
{
    folds.iter().any(|fold| fold.factor == 0)
}

fn breaks_fold(own: &Placed) -> bool
    ensures { result ≡ spec.breaks_fold (spec.placed_of own.now) }
{
    (own.folds.len() > 0 && own.stores.len() == 0) || some_empty(&own.folds)
}

/// The rule of the lowest number that a function of these breaks behind the last directive: L4 where a vectorised loop is not
/// the innermost, L5 where some loop outside of a parallel one is not parallel, L6 and L7 where it is computed or stored at no
/// fitting loop, L8 where it has updates and a split with `shift`, L9 where it is folded and stored at no loop, L10 where it
/// has updates and is not stored.
pub fn end_fault(
    subjects: &[Subject],
    functions: &[Placed],
    subject: &Subject,
    placed: &Placed,
) -> Option<Rule>
    ensures { result ≡ spec.end_fault (map spec.subject_of subjects.now) (map spec.placed_of functions.now) (spec.subject_of subject.now) (spec.placed_of placed.now) }
{
    if has_vectorized_outside(&placed.loops) {
        Some(Rule::BadMark)
    } else if has_parallel_inside(&placed.loops) {
        Some(Rule::BadParallel)
    } else if breaks_home(subjects, functions, subject, placed) {
        Some(Rule::BadHome)
    } else if breaks_storage(subjects, functions, placed) {
        Some(Rule::BadStorage)
    } else if subject.has_updates() && has_shift(&placed.cuts) {
        Some(Rule::BadShift)
    } else if breaks_fold(placed) {
        Some(Rule::BadFold)
    } else if subject.has_updates() && !subject.is_stored {
        Some(Rule::InlineUpdates)
    } else {
        None
    }
}

// The loops, of which that of this name is marked.
fn marked_loops(
    alloc: Global,
    mark: Mark,
    name: &Name,
    loops: &[Loop],
) -> Result<Vec<Loop>, AllocError>
    ensures { IfOk result (λ v. v.items ≡ map (spec.mark_loop mark name.now) loops.now) }
{
    let mut marked = Vec::new(alloc);
    for one in loops {
        if one.name.as_str() == name.as_str() {
            marked.push(Loop {
                name: one.name,
                dimension: one.dimension,
                within: one.within,
                mark: Some(mark),
            })?;
        } else {
            marked.push(*one)?;
        }
    }
    Ok(marked)
}

// Whether each name is that of a loop or of a reduction variable.
fn all_known(subject: &Subject, loops: &[Loop], names: &[Name]) -> bool
    ensures { result ≡ spec.all_known (spec.subject_of subject.now) loops.now names.now }
{
    names.iter().all(|name| is_known(subject, loops, name))
}

fn any_reduction(subject: &Subject, names: &[Name]) -> bool
    ensures { result ≡ spec.any_reduction (spec.subject_of subject.now) names.now }
{
    names.iter().any(|name| is_among(&subject.reductions, name))
}

/// The loops of a function before its first directive: its variables, the first innermost.
pub fn start(alloc: Global, subject: &Subject) -> Result<Placed, AllocError>
    ensures { IfOk result (λ p. spec.placed_of p ≡ spec.start (spec.subject_of subject.now)) }
{
    let mut loops = Vec::new(alloc);
    let mut used = Vec::new(alloc);
    for (dimension, name) in subject.variables.iter().enumerate() {
        loops.push(Loop {
            name: *name,
            dimension,
            within: None,
            mark: None,
        })?;
        used.push(*name)?;
    }
    for name in &subject.reductions {
        used.push(*name)?;
    }
    Ok(Placed {
        loops,
        cuts: Vec::new(alloc),
        used,
        homes: Vec::new(alloc),
        stores: Vec::new(alloc),
        folds: Vec::new(alloc),
    })
}

/// Applies the directives of one function in their order.
///
/// # Errors
/// `Broken` with the rule that the first directive breaks that breaks one (of several the lowest), and `Memory`. Then
/// the loops say nothing.
#[tactic(auto, using(crate::proofs::Placings::all_next))]
pub fn apply_all(
    alloc: Global,
    subject: &Subject,
    placed: &mut Placed,
    directives: &[Directive],
) -> Result<(), Halt>
    ensures { spec.Places result (spec.placed_of placed.new) (spec.all_in (spec.subject_of subject.now) (map directive_of directives.now) (spec.placed_of placed.old)) }
{
    for directive in directives {
        placed.apply(alloc, subject, directive)?;
    }
    Ok(())
}

// The number of the function of this name, counted from 0.
fn number_of(subjects: &[Subject], name: &Name) -> Option<usize>
    ensures { result ≡ position (λ f. same_name f.name name.now) (map spec.subject_of subjects.now) }
{
    subjects
        .iter()
        .position(|subject| subject.name.as_str() == name.as_str())
}

// The directives are those of the function of this name.
#[tactic(auto, using(crate::proofs::Placings::none_subject, crate::proofs::Placings::none_placed))]
fn apply_to(
    alloc: Global,
    subjects: &[Subject],
    placed: &mut [Placed],
    scheduled: &Scheduled,
) -> Result<(), SchedError>
    ensures { spec.Arranges result (map spec.placed_of placed.new) (spec.scheduled_in (map spec.subject_of subjects.now) (scheduled_of scheduled.now) (map spec.placed_of placed.old)) }
{
    let Some(number) = number_of(subjects, &scheduled.function) else {
        return Err(SchedError::Broken(Rule::UnknownName, scheduled.function));
    };
    if number >= subjects.len() {
        return Err(SchedError::Broken(Rule::UnknownName, scheduled.function));
    }
    if number >= placed.len() {
        return Err(SchedError::Broken(Rule::UnknownName, scheduled.function));
    }
    match apply_all(
        alloc,
        &subjects[number],
        &mut placed[number],
        &scheduled.directives,
    ) {
        Ok(()) => Ok(()),
        Err(Halt::Memory) => Err(SchedError::Memory),
        Err(Halt::Broken(rule)) => Err(SchedError::Broken(rule, scheduled.function)),
    }
}

// In the order of the text, up to the first directive that breaks a rule.
#[tactic(auto, using(crate::proofs::Placings::schedule_next))]
fn apply_schedule(
    alloc: Global,
    subjects: &[Subject],
    placed: &mut [Placed],
    functions: &[Scheduled],
) -> Result<(), SchedError>
    ensures { spec.Arranges result (map spec.placed_of placed.new) (spec.schedule_in (map spec.subject_of subjects.now) (map scheduled_of functions.now) (map spec.placed_of placed.old)) }
{
    for scheduled in functions {
        apply_to(alloc, subjects, placed, scheduled)?;
    }
    Ok(())
}

// The first of these, which are some of all functions, of which the whole breaks a rule of `end_fault`, with that rule.
fn fault_among(
    subjects: &[Subject],
    functions: &[Placed],
    some: &[Subject],
    placed: &[Placed],
) -> Option<(Rule, Name)>
    ensures { result ≡ spec.fault_among (map spec.subject_of subjects.now) (map spec.placed_of functions.now) (map spec.subject_of some.now) (map spec.placed_of placed.now) }
{
    let [subject, others @ ..] = some else {
        return None;
    };
    let [first, rest @ ..] = placed else {
        return None;
    };
    match end_fault(subjects, functions, subject, first) {
        Some(rule) => Some((rule, subject.name)),
        None => fault_among(subjects, functions, others, rest),
    }
}

/// The first function, in the order of declaration, of which the whole breaks a rule of `end_fault`, with that rule.
pub fn first_fault(subjects: &[Subject], placed: &[Placed]) -> Option<(Rule, Name)>
    ensures { result ≡ spec.first_fault (map spec.subject_of subjects.now) (map spec.placed_of placed.now) }
{
    fault_among(subjects, placed, subjects, placed)
}

fn starts(alloc: Global, subjects: &[Subject]) -> Result<Vec<Placed>, AllocError>
    ensures { IfOk result (λ v. map spec.placed_of v.items ≡ map spec.start (map spec.subject_of subjects.now)) }
{
    let mut placed = Vec::new(alloc);
    for subject in subjects {
        let one = start(alloc, subject)?;
        placed.push(one)?;
    }
    Ok(placed)
}

/// Whether the text has a `compute_root` of the function of this name, before or behind its other directives.
pub fn has_root(sched: &Sched, name: &Name) -> bool
    ensures { result ≡ spec.has_root (schedule_of sched.now) name.now }
{
    any_root(&sched.functions, name)
}

fn any_root(functions: &[Scheduled], name: &Name) -> bool
    ensures { result ≡ list_any (λ s. same_name s.function name.now && list_any (λ d. spec.is_root_directive (directive_of d)) s.directives.items) functions.now }
{
    functions.iter().any(|scheduled| scheduled.function.as_str() == name.as_str()
        && has_root_directive(&scheduled.directives))
}

fn has_root_directive(directives: &[Directive]) -> bool
    ensures { result ≡ list_any (λ d. spec.is_root_directive (directive_of d)) directives.now }
{
    directives
        .iter()
        .any(|directive| is_root_directive(directive))
}

// Whether it says that the function is computed wholly before the functions that use it.
fn is_root_directive(directive: &Directive) -> bool
    ensures { result ≡ spec.is_root_directive (directive_of directive.now) }
{
    matches!(directive, Directive::ComputeRoot)
}

/// What the directives of a schedule make of the loops of these functions, which stand in the order of their declaration.
///
/// # Errors
/// `Broken` with the function's name: the first directive of the text that breaks one of L1 to L5 (of several the lowest; a
/// name of no function is L1 with that name). `Memory`.
pub fn follow(alloc: Global, subjects: &[Subject], sched: &Sched) -> Result<Vec<Placed>, SchedError>
    ensures { spec.Arranged result (spec.following (map spec.subject_of subjects.now) (schedule_of sched.now)) }
{
    let mut placed = starts(alloc, subjects)?;
    apply_schedule(alloc, subjects, &mut placed, &sched.functions)?;
    Ok(placed)
}

/// The same where the whole breaks no rule either.
///
/// # Errors
/// `Broken` with the function's name: first as `follow` answers, and then, function by function, L4 to L10 by
/// `end_fault`. `Memory`.
pub fn place(alloc: Global, subjects: &[Subject], sched: &Sched) -> Result<Vec<Placed>, SchedError>
    ensures { spec.Arranged result (spec.placing (map spec.subject_of subjects.now) (schedule_of sched.now)) }
{
    let placed = follow(alloc, subjects, sched)?;
    match first_fault(subjects, &placed) {
        Some((rule, function)) => Err(SchedError::Broken(rule, function)),
        None => Ok(placed),
    }
}
