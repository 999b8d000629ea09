//! Lets that count the blocks of a dimension of which one turn needs more than another.

ghost use Rattle.std.specs.Prelude.{◌≡◌, IfOk};
ghost use Rattle.std.specs.Option.{option_copied};
ghost use Rattle.lin.specs.Search.{is_empty};
ghost use Rattle.sched.specs.Limited.{Gives, Tells};
ghost use Rattle.blocks.specs.Parted.{counted_at as counted_blocks};
ghost use Rattle.blocks.specs.Rounded as spec;

use lin::{Binding, Forms, Lin, Scope};
use plan::Pick;
use sched::Step;
use sched::ends::summed;
use sched::forms::{one_form, raised, two_forms};
use sched::stop::Stop;
use std::alloc::{AllocError, Global};

/// The blocks of a dimension of which one turn needs more than another.
#[derive(Drop)]
pub struct Blocks {
    /// The numbers of which the least, and that of any turn, is the last block's.
    pub further: Forms,
    /// The numbers of which the least is the last one that the blocks make.
    pub ends: Forms,
}

/// The blocks of a dimension, where they are counted.
pub(crate) fn counted_at(blocks: &[Option<Blocks>], dimension: usize) -> Option<&Blocks>
    ensures { option_copied result ≡ counted_blocks blocks.now dimension }
{
    match blocks.get(dimension) {
        Some(Some(blocks)) => Some(blocks),
        _ => None,
    }
}

/// Lets, and what they are bound to.
#[derive(Drop)]
pub(crate) struct Names {
    pub scope: Scope,
    pub lets: Vec<Step>,
}

/// How many numbers are left behind the first block, and behind each of some others, the last apart.
#[derive(Drop)]
pub(crate) struct Rests {
    pub firsts: Vec<Lin>,
    pub last: Lin,
}

// ---- names

impl Names {
    /// A symbol for the smallest or largest of some forms.
    pub fn name(&mut self, alloc: Global, pick: Pick, forms: Forms) -> Result<Lin, AllocError>
        ensures form { IfOk result (λ form. form ≡ spec.next_name (spec.names_seen self.old)) }
        ensures named { IfOk result (λ _. spec.names_seen self.new ≡ spec.name pick forms (spec.names_seen self.old)) }
    {
        let symbol = self.scope.len();
        let bound = forms.copy(alloc)?;
        self.lets.push(Step::Named {
            symbol,
            pick,
            forms,
        })?;
        self.scope.push(bound_to(pick, bound))?;
        Lin::symbol(alloc, symbol)
    }

    fn name_of_two(
        &mut self,
        alloc: Global,
        pick: Pick,
        first: Lin,
        second: Lin,
    ) -> Result<Lin, AllocError>
        ensures form { IfOk result (λ form. form ≡ spec.next_name (spec.names_seen self.old)) }
        ensures named { IfOk result (λ _. spec.names_seen self.new ≡ spec.name_of_two pick first second (spec.names_seen self.old)) }
    {
        let forms = two_forms(alloc, first, second)?;
        self.name(alloc, pick, forms)
    }

    // How many numbers are left, never below 0.
    fn none_below(&mut self, alloc: Global, left: Lin) -> Result<Lin, AllocError>
        ensures form { IfOk result (λ form. form ≡ spec.next_name (spec.names_seen self.old)) }
        ensures named { IfOk result (λ _. spec.names_seen self.new ≡ spec.none_below left (spec.names_seen self.old)) }
    {
        self.name_of_two(alloc, Pick::Max, Lin::number(alloc, 0), left)
    }

    // How many numbers are left behind the first block, and behind each of so many others; the last apart.
    #[tactic(auto, using(crate::proofs::Naming::rests_last, crate::proofs::Naming::rests_more, crate::proofs::Naming::rests_none, crate::proofs::Naming::rests_stop))]
    fn rests(
        &mut self,
        alloc: Global,
        left: Lin,
        factor: i64,
        count: u32,
        firsts: Vec<Lin>,
    ) -> Result<Rests, Stop>
        ensures { Gives result (λ rests. spec.rests_seen rests (spec.names_seen self.new))
            (spec.rests_from factor count left firsts.items (spec.names_seen self.old)) }
    {
        let rest = self.none_below(alloc, left)?;
        let Some(further) = count.checked_sub(1) else {
            return Ok(Rests { firsts, last: rest });
        };
        let left = raised(alloc, &rest, factor.saturating_neg())?;
        let mut firsts = firsts;
        firsts.push(rest)?;
        let rests = self.rests(alloc, left, factor, further, firsts)?;
        Ok(rests)
    }

    // A sum and these, each at most so much.
    fn add_parts(
        &mut self,
        alloc: Global,
        most: i64,
        parts: &[Lin],
        total: Lin,
    ) -> Result<Lin, Stop>
        ensures { Gives result (λ made. (made, spec.names_seen self.new)) (spec.add_parts most parts.now total (spec.names_seen self.old)) }
    {
        match parts {
            [] => Ok(total),
            [part, rest @ ..] => {
                let limit = Lin::number(alloc, most);
                let part = self.name_of_two(alloc, Pick::Min, part.copy(alloc)?, limit)?;
                let total = summed(alloc, &total, 1, &part)?;
                self.add_parts(alloc, most, rest, total)
            }
        }
    }

    // The end of blocks: behind the first one's end so many numbers are needed, and so many more blocks stand.
    fn end_of(
        &mut self,
        alloc: Global,
        first_end: &Lin,
        needed: &Lin,
        further: &Lin,
        factor: i64,
    ) -> Result<Lin, Stop>
        ensures form { IfOk result (λ form. form ≡ spec.next_name (spec.names_seen self.old)) }
        ensures named { Tells result (spec.names_seen self.new)
            (spec.end_of first_end.now needed.now further.now factor (spec.names_seen self.old)) }
    {
        let needed_end = summed(alloc, first_end, 1, needed)?;
        let made_end = summed(alloc, first_end, factor, further)?;
        Ok(self.name_of_two(alloc, Pick::Max, needed_end, made_end)?)
    }

    // Counts the blocks that take these rests.
    fn count_rests(
        &mut self,
        alloc: Global,
        first_end: &Lin,
        rests: &Rests,
        factor: i64,
        blocks: &mut Blocks,
    ) -> Result<(), Stop>
        ensures { Tells result (blocks.new, spec.names_seen self.new)
            (spec.count_rests first_end.now factor (spec.rests_seen rests.now (spec.names_seen self.old)) blocks.old) }
    {
        let firsts = rests.firsts.as_slice();
        let needed = self.add_parts(alloc, factor, firsts, rests.last.copy(alloc)?)?;
        let further = self.add_parts(alloc, 1, firsts, rests.last.copy(alloc)?)?;
        let end = self.end_of(alloc, first_end, &needed, &further, factor)?;
        blocks.further.push(further)?;
        blocks.ends.push(end)?;
        Ok(())
    }

    // The same where so many numbers are needed behind the first block's end; not where that is known.
    fn count_past(
        &mut self,
        alloc: Global,
        first_end: &Lin,
        past: Lin,
        factor: i64,
        count: u32,
        blocks: &mut Blocks,
    ) -> Result<(), Stop>
        ensures { Tells result (blocks.new, spec.names_seen self.new)
            (spec.count_past first_end.now past factor count blocks.old (spec.names_seen self.old)) }
    {
        if is_number(&past) {
            return Ok(());
        }
        let rests = self.rests(alloc, past, factor, count, Vec::new(alloc))?;
        self.count_rests(alloc, first_end, &rests, factor, blocks)
    }

    // Counts the blocks from a number up to the one that has the last number; of more than so many behind the first one it counts
    // too many. The end is named by both that all numbers are up to it, and that the blocks make all up to it.
    fn count(
        &mut self,
        alloc: Global,
        low: &Lin,
        last: &Lin,
        factor: i64,
        count: u32,
        blocks: &mut Blocks,
    ) -> Result<(), Stop>
        ensures { Tells result (blocks.new, spec.names_seen self.new)
            (spec.count low.now factor count last.now blocks.old (spec.names_seen self.old)) }
    {
        let first_end = raised(alloc, low, factor.saturating_sub(1))?;
        let past = summed(alloc, last, -1, &first_end)?;
        self.count_past(alloc, &first_end, past, factor, count, blocks)
    }

    // The same up to each of these.
    fn count_all(
        &mut self,
        alloc: Global,
        low: &Lin,
        upper: &[Lin],
        factor: i64,
        count: u32,
        blocks: &mut Blocks,
    ) -> Result<(), Stop>
        ensures { Tells result (blocks.new, spec.names_seen self.new)
            (spec.count_all low.now factor count upper.now blocks.old (spec.names_seen self.old)) }
    {
        match upper {
            [] => Ok(()),
            [last, rest @ ..] => {
                self.count(alloc, low, last, factor, count, blocks)?;
                self.count_all(alloc, low, rest, factor, count, blocks)
            }
        }
    }

    /// The blocks of a span from its one lower form on, of which so many may stand behind the first one.
    pub(crate) fn counted(
        &mut self,
        alloc: Global,
        low: &Lin,
        upper: &[Lin],
        factor: i64,
        count: u32,
    ) -> Result<Blocks, Stop>
        ensures { Gives result (λ blocks. (blocks, spec.names_seen self.new))
            (spec.counted low.now factor count upper.now (spec.names_seen self.old)) }
    {
        let made = factor.saturating_mul(i64::from(count).saturating_add(1));
        let end = raised(alloc, low, made.saturating_sub(1))?;
        let mut blocks = Blocks {
            further: Forms::new(alloc),
            ends: one_form(alloc, end)?,
        };
        self.count_all(alloc, low, upper, factor, count, &mut blocks)?;
        Ok(blocks)
    }
}

fn is_number(form: &Lin) -> bool
    ensures { result ≡ is_empty form.now.terms }
{
    match form.terms() {
        [] => true,
        [_first, ..] => false,
    }
}

// What a let is bound to.
fn bound_to(pick: Pick, forms: Forms) -> Binding
    ensures { result ≡ spec.bound_to pick forms }
{
    match pick {
        Pick::Min => Binding::LetMin(forms),
        Pick::Max => Binding::LetMax(forms),
    }
}
