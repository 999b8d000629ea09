//! The body of the group of a root function.

ghost use Rattle.std.specs.Prelude.{◌≡◌, ◌+◌, ◌-◌, [], ◌∷◌, ◌++◌, IfOk, OnOk, Some, map};
ghost use Rattle.std.specs.Option.{option_map};
ghost use Rattle.lin.specs.Regions.{IsInside};
ghost use Rattle.plan.specs.Lists.{list_statements};
ghost use Rattle.plan.specs.View.{statement_of};
ghost use Rattle.sched.specs.Skeleton.{nest_seen, skeleton_seen};
ghost use Rattle.sched.specs.Around.{grid_scope as grid_scope_of};
ghost use Rattle.sched.specs.Bounded.{whole as whole_of};
ghost use Rattle.blocks.specs.Loading.{load_of};
ghost use Rattle.sched.specs.Stored.{formula_of, stored_of};
ghost use Rattle.blocks.specs.Blocks as blocks;
ghost use Rattle.blocks.specs.Bodies.{body, step_lines};
ghost use Rattle.blocks.specs.Fetches.{fetch_seen, last_number};
ghost use Rattle.sched.specs.Limited.{Gives, TellsIf};
ghost use Rattle.blocks.specs.Placed as placed;
ghost use Rattle.sched.specs.Placed as sched;
ghost use Rattle.blocks.specs.Planned as planned;
ghost use Rattle.blocks.specs.Making.{AddsClaim, NestsMade, with_first};
ghost use Rattle.blocks.specs.Groups.{IsOver, grid_over as counts_over};
ghost use Rattle.sched.specs.Groups.{root_of};

use crate::blocks::{Dimension, owned_region};
use crate::legality::add_whole;
use crate::loading::Load;
use crate::mixed::mixed_nests;
use crate::parts::Seat;
use crate::whole::{Fetch, block_of, line_behind, line_count, nest_of};
use lin::{Region, Sym};
use plan::certificate::{Cert, Claim, Need, Own, Window};
use plan::{Group, Stmt};
use sched::forms::widened;
use sched::hosts::Inner;
use sched::roots::Root;
use sched::scopes::grid_scope;
use sched::stop::Stop;
use sched::{Nest, loop_numbers, piece_counts};
use std::alloc::{AllocError, Global};

/// A group, and what its pieces own.
#[derive(Drop)]
pub struct Made {
    pub group: Group,
    pub own: Own,
    /// The line behind the group's last one.
    pub line: u64,
}

/// What a piece does so far, and the claims of it.
#[derive(Drop)]
pub struct Body<'a> {
    /// What it does, once that is known.
    pub statements: Vec<Stmt>,
    /// The line of the next statement.
    pub line: u64,
    pub needs: Vec<Need>,
    pub claims: Vec<Claim>,
    pub windows: Vec<Window>,
    /// By which claims functions are loaded.
    pub loads: Vec<Load<'a>>,
    /// The number of the next claim.
    pub next_claim: u64,
    /// The number of the next buffer.
    pub next_buffer: u64,
    /// The next symbol.
    pub next_symbol: Sym,
    /// The buffers of the functions that are computed inside.
    pub seats: Vec<Seat>,
}

/// How many lines a buffer and what is fetched into it make.
pub const FETCH_LINES: u64 = 2;

/// Where a group begins: its number among the groups, its line, and the number of its first claim.
#[derive(Clone, Copy, Drop)]
pub struct Beginning {
    pub number: usize,
    pub line: u64,
    pub claim: u64,
}

impl<'a> Body<'a> {
    /// Claims what the statements so far have made of a buffer.
    #[tactic(auto, using(crate::proofs::Claimed::claim_added))]
    pub fn claim(
        &mut self,
        alloc: Global,
        buffer: u64,
        function: &str,
        definition: u64,
        region: Region,
    ) -> Result<u64, AllocError>
        ensures numbered { IfOk result (λ number. number ≡ self.old.next_claim) }
        ensures next { OnOk result (self.new.next_claim ≡ self.old.next_claim + 1) }
        ensures claimed { OnOk result (AddsClaim (self.old.line - 1) buffer function.now definition region self.old.claims.items self.new.claims.items) }
        ensures loads { OnOk result (self.new.loads ≡ self.old.loads) }
        ensures needs { OnOk result (self.new.needs.items ≡ self.old.needs.items) }
        ensures windows { OnOk result (self.new.windows ≡ self.old.windows) }
        ensures line { OnOk result (self.new.line ≡ self.old.line) }
        ensures symbols { OnOk result (self.new.next_symbol ≡ self.old.next_symbol) }
        ensures seats { OnOk result (self.new.seats.items ≡ self.old.seats.items) }
    {
        let number = self.next_claim;
        let Some(next) = number.checked_add(1) else {
            return Err(AllocError);
        };
        let function = String::from_str(alloc, function)?;
        self.claims.push(Claim {
            line: self.line.saturating_sub(1),
            buffer,
            function,
            definition,
            region,
        })?;
        self.next_claim = next;
        Ok(number)
    }
}

// ---- regions

fn group_region(alloc: Global, root: &Root<'_>) -> Result<Region, AllocError>
    ensures { IfOk result (λ region. region ≡ map whole_of root.now.laid.now.region.items) }
{
    let mut region = Region::new(alloc);
    add_whole(alloc, &root.laid.region, &mut region)?;
    Ok(region)
}

// ---- fetches

/// How many definitions the function has behind the pure one: the number of the last.
pub fn last_definition(root: &Root<'_>) -> u64
    ensures { result ≡ last_number (map formula_of root.now.formulas.now) }
{
    root.formulas.len().saturating_sub(1) as u64
}

/// One fetch, where there is one, and then others.
pub fn put_before<'a>(
    fetch: Option<Fetch<'a>>,
    others: Vec<Fetch<'a>>,
) -> Result<Vec<Fetch<'a>>, AllocError>
    ensures { IfOk result (λ v. map fetch_seen v.items ≡ with_first (option_map fetch_seen fetch.entry) (map fetch_seen others.entry.items)) }
{
    let mut fetches = others;
    if let Some(fetch) = fetch {
        fetches.insert(0, fetch)?;
    }
    Ok(fetches)
}

// ---- nests

/// A group's function, and those that are computed inside its loops.
#[derive(Clone, Copy, Drop)]
pub struct Cast<'b, 'a> {
    pub root: &'b Root<'a>,
    pub inners: &'b [Inner<'a>],
    pub claimed: &'b Region,
}

impl<'a> Body<'a> {
    // The claim of a definition of the group's own function behind its nest, in whose loops nothing is computed: the function is
    // loaded by it.
    #[tactic(auto, using(crate::proofs::Wholes::load_more))]
    fn claim_whole(
        &mut self,
        alloc: Global,
        cast: Cast<'_, 'a>,
        definition: usize,
        nest: &Nest,
    ) -> Result<u64, AllocError>
        ensures loaded { IfOk result (λ claim. map load_of self.new.loads.items ≡ map load_of self.old.loads.items
            ++ ((stored_of cast.entry.root.now.stored.now).subject.name, claim) ∷ []) }
        ensures numbered { IfOk result (λ claim. claim ≡ self.old.next_claim) }
        ensures next { OnOk result (self.new.next_claim ≡ self.old.next_claim + 1) }
        ensures claimed { OnOk result (AddsClaim (self.new.line - 1) 0 (stored_of cast.entry.root.now.stored.now).subject.name definition
            cast.entry.claimed.now self.old.claims.items self.new.claims.items) }
        ensures line { OnOk result (self.new.line ≡ self.old.line + (step_lines nest.now.steps.items + 1)) }
        ensures needs { OnOk result (self.new.needs.items ≡ self.old.needs.items) }
        ensures windows { OnOk result (self.new.windows.items ≡ self.old.windows.items) }
    {
        let count = line_behind(line_count(&nest.steps)?, 1)?;
        let line = line_behind(self.line, count)?;
        self.line = line;
        let region = cast.claimed.copy(alloc)?;
        let function = cast.root.stored.subject.name.as_str();
        let claim = self.claim(alloc, 0, function, definition as u64, region)?;
        self.loads.push(Load { function, claim })?;
        Ok(claim)
    }

    /// The nests of the definitions from this number on, in whose loops nothing is computed, each with its claim.
    #[tactic(auto, using(crate::proofs::Claimed::nests_none, crate::proofs::Unplanned::stored_none))]
    pub fn whole_nests(
        &mut self,
        alloc: Global,
        cast: Cast<'_, 'a>,
        definition: usize,
        nests: &[Nest],
    ) -> Result<Vec<Stmt>, Stop>
        ensures made { IfOk result (λ v. NestsMade (stored_of cast.entry.root.now.stored.now) (map formula_of cast.entry.root.now.formulas.now)
            cast.entry.claimed.now definition (map nest_seen nests.now) (list_statements v.items) self.old self.new) }
        ensures told { TellsIf result (planned.are_stored (stored_of cast.entry.root.now.stored.now)
            (map formula_of cast.entry.root.now.formulas.now) definition (map nest_seen nests.now)) }
    {
        match nests {
            [] => Ok(Vec::new(alloc)),
            [nest, rest @ ..] => {
                let Some(next) = definition.checked_add(1) else {
                    return Err(Stop::Memory);
                };
                let mut first = nest_of(alloc, cast.root, definition, nest, &self.loads)?;
                self.claim_whole(alloc, cast, definition, nest)?;
                let mut others = self.whole_nests(alloc, cast, next, rest)?;
                first.append(&mut others)?;
                Ok(first)
            }
        }
    }

    /// The nests of a group, with their claims.
    pub fn nests_of(&mut self, alloc: Global, cast: Cast<'_, 'a>) -> Result<Vec<Stmt>, Stop>
        ensures made { IfOk result (λ v. cast.entry.inners.now ≡ [] → NestsMade (stored_of cast.entry.root.now.stored.now)
            (map formula_of cast.entry.root.now.formulas.now) cast.entry.claimed.now 0 (map nest_seen cast.entry.root.now.laid.now.skeleton.nests.items)
            (list_statements v.items) self.old self.new) }
        ensures told { cast.entry.inners.now ≡ [] → TellsIf result (planned.are_stored (stored_of cast.entry.root.now.stored.now)
            (map formula_of cast.entry.root.now.formulas.now) 0 (map nest_seen cast.entry.root.now.laid.now.skeleton.nests.items)) }
        ensures mixed { placed.HasSome (map sched.inner_seen cast.entry.inners.now) → Gives result (λ v. (list_statements v.items, placed.so_far self.new))
            (placed.nests_over_grid (map sched.inner_seen cast.entry.inners.now)
            (placed.group_owner (root_of cast.entry.root.now) cast.entry.claimed.now) (skeleton_seen cast.entry.root.now.laid.now.skeleton)
            (placed.so_far self.old)) }
    {
        match cast.inners {
            [] => self.whole_nests(alloc, cast, 0, &cast.root.laid.skeleton.nests),
            [_first, _rest @ ..] => mixed_nests(alloc, self, cast.inners, cast.root, cast.claimed),
        }
    }

    /// What the certificate says of it is added.
    pub fn certify(&mut self, certificate: &mut Cert) -> Result<(), AllocError>
        ensures claims { OnOk result (certificate.new.claims.items ≡ certificate.old.claims.items ++ self.old.claims.items) }
        ensures needs { OnOk result (certificate.new.needs.items ≡ certificate.old.needs.items ++ self.old.needs.items) }
        ensures windows { OnOk result (certificate.new.windows.items ≡ certificate.old.windows.items ++ self.old.windows.items) }
        ensures line { OnOk result (self.new.line ≡ self.old.line) }
    {
        certificate.needs.append(&mut self.needs)?;
        certificate.claims.append(&mut self.claims)?;
        certificate.windows.append(&mut self.windows)?;
        Ok(())
    }

    /// This is what the piece does.
    pub fn finish(&mut self, statements: Vec<Stmt>)
        ensures statements { self.new.statements ≡ statements }
        ensures line { self.new.line ≡ self.old.line }
    {
        self.statements = statements;
    }
}

// How many turns each parallel loop of a root function has over its region.
fn grid_over(alloc: Global, root: &Root<'_>) -> Result<Vec<u32>, AllocError>
    ensures { IfOk result (λ grid. grid.items ≡ counts_over (stored_of root.now.stored.now) root.now.laid.now.region.items) }
{
    let variables = &root.stored.subject.variables;
    let placed = root.stored.placed;
    let numbers = loop_numbers(alloc, variables, &placed.cuts, &root.laid.region)?;
    piece_counts(alloc, &numbers, &placed.loops)
}

/// What a piece owns, where forms show it to lie in the region.
pub fn own_region(alloc: Global, root: &Root<'_>, dimensions: &[Dimension]) -> Result<Region, Stop>
    ensures owned { IfOk result (λ own. own ≡ blocks.owned_region dimensions.now) }
    ensures inside { IfOk result (λ own. IsInside (grid_scope_of (counts_over (stored_of root.now.stored.now) root.now.laid.now.region.items)) own
        (map whole_of root.now.laid.now.region.items)) }
    ensures told { TellsIf result (planned.is_inside (stored_of root.now.stored.now) root.now.laid.now.region.items dimensions.now) }
{
    let own = owned_region(alloc, dimensions)?;
    let region = group_region(alloc, root)?;
    let counts = grid_over(alloc, root)?;
    let scope = grid_scope(alloc, &counts)?;
    if scope.inside(alloc, &own, &region)? {
        Ok(own)
    } else {
        Err(Stop::Limit)
    }
}

/// The group of a root function, whose pieces do this.
pub fn group_with(
    alloc: Global,
    root: &Root<'_>,
    statements: Vec<Stmt>,
) -> Result<Group, AllocError>
    ensures over { IfOk result (IsOver (root_of root.now)) }
    ensures does { IfOk result (λ group. statement_of group.body ≡ body (list_statements statements.items)) }
{
    let function = String::from_str(alloc, root.stored.subject.name.as_str())?;
    let region = group_region(alloc, root)?;
    let counts = grid_over(alloc, root)?;
    let grid = widened(alloc, &counts)?;
    Ok(Group {
        function,
        region,
        grid,
        body: block_of(statements),
    })
}
