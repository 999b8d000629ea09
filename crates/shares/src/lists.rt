//! The lists of all pieces.

ghost use Rattle.std.specs.Prelude.{◌≡◌, ℕ, ◌<◌, ◌≤◌, Some, IfOk, IfErr, length, map, slice_get, slice_set};
ghost use Rattle.plan.specs.View.{plan_of};
ghost use Rattle.plan.specs.Certificate.Certificate.{certificate_of};
ghost use Rattle.shares.specs.Layout.{IsLayout};
ghost use Rattle.shares.specs.Has.{AreFew};
ghost use Rattle.shares.specs.Blocks.{StandFor};
ghost use Rattle.shares.specs.Gathered.{EachIsGathered};
ghost use Rattle.shares.specs.Stops.{StopMeans};
ghost use Rattle.shares.specs.Noted.{AreNotedBy};
ghost use Rattle.shares.specs.Made.{AreLooks, AreMade, HaveOwn, TroubleMeans, trouble_of};
ghost use Rattle.orders.specs.declared.lists.Piece.{Piece};

use crate::blocks::{new_walk, step_to};
use crate::counts::{FetchLine, noted_groups};
use crate::fetched::fetched_of;
use crate::gathered::{GroupNeeds, gathered_needs};
use crate::layout::Layout;
use crate::limits::MOST_NEEDED;
use crate::needed::needs_of;
use crate::stop::Stop;
use orders::Piece;
use plan::certificate::Need;
use std::alloc::{AllocError, Global};

/// The most cells that the pieces of a plan fetch.
const MOST_FETCHED: u64 = 1 << 26;

/// Why the lists were not made.
#[derive(Drop)]
pub(crate) enum Trouble {
    /// A point that this piece fetches is no cell, or a grid point that it needs is no piece.
    Unserved(u32),
    /// With this piece more is fetched or needed than there is room for.
    Large(u32),
    /// Want of memory.
    Memory,
}

/// The trouble of a piece whose lists were not made.
fn trouble_of(piece: u32, stop: Stop) -> Trouble
    ensures { result ≡ trouble_of piece stop }
{
    match stop {
        Stop::Unserved => Trouble::Unserved(piece),
        Stop::Large => Trouble::Large(piece),
        Stop::Memory => Trouble::Memory,
    }
}

/// What a piece looks at: the cells that it fetches, and the pieces that it needs.
#[derive(Drop)]
pub(crate) struct Looks {
    pub fetched: Vec<u32>,
    pub needs: Vec<u32>,
}

/// What a piece looks at, where there is room for so many cells and pieces.
fn looks_at(
    alloc: Global,
    layout: &Layout<'_>,
    noted: &Vec<Vec<FetchLine<'_>>>,
    gathered: &Vec<GroupNeeds<'_>>,
    moving: &[&Need],
    piece: u32,
    cells: u64,
    pieces: u64,
) -> Result<Looks, Stop>
    requires layout { IsLayout layout.now }
    requires noted { AreNotedBy (plan_of layout.now.plan.now) (length layout.now.plan.now.groups.items) (map (λ v. v.items) noted.now.items) }
    requires gathered { EachIsGathered (plan_of layout.now.plan.now) layout.now.cert.now.needs.items (length layout.now.plan.now.groups.items) gathered.now.items }
    requires moving { StandFor layout.now.seats.items gathered.now.items piece (map (λ n. n.now) moving.now) }
    requires piece { piece < length layout.now.seats.items }
    ensures looks { IfOk result (λ made. AreLooks (plan_of layout.now.plan.now) (certificate_of layout.now.cert.now) piece made) }
    ensures cells { IfOk result (λ made. length made.fetched.items ≤ cells) }
    ensures pieces { IfOk result (λ made. length made.needs.items ≤ pieces) }
    ensures stop { IfErr result (StopMeans (plan_of layout.now.plan.now) (certificate_of layout.now.cert.now) piece cells pieces) }
{
    let fetched = match fetched_of(alloc, layout, noted, piece, cells) {
        Ok(fetched) => fetched,
        Err(stop) => return Err(stop),
    };
    let needs = match needs_of(alloc, layout, gathered, moving, piece, pieces) {
        Ok(needs) => needs,
        Err(stop) => return Err(stop),
    };
    Ok(Looks { fetched, needs })
}

/// Puts what a piece looks at beside its own cells.
fn put_looks(lists: &mut Vec<Piece>, piece: u32, looks: Looks)
    requires { piece < length lists.old.items }
    ensures { (old : Piece) → slice_get lists.old.items piece ≡ Some old → lists.new.items ≡ slice_set lists.old.items piece (record { own = old.own; fetched = looks.fetched; needs = looks.needs }) }
{
    let made = &mut lists[piece as usize];
    made.fetched = looks.fetched;
    made.needs = looks.needs;
}

/// The lists of all pieces, of which these have their own cells, where all that is fetched or needed is a cell or piece and there is
/// room.
pub(crate) fn lists_of(
    alloc: Global,
    layout: &Layout<'_>,
    owned: Vec<Piece>,
) -> Result<Vec<Piece>, Trouble>
    requires layout { IsLayout layout.now }
    requires own { HaveOwn (plan_of layout.now.plan.now) (certificate_of layout.now.cert.now) owned.items }
    ensures count { IfOk result (λ made. length made.items ≡ length layout.now.seats.items) }
    ensures trouble { IfErr result (TroubleMeans (plan_of layout.now.plan.now) (certificate_of layout.now.cert.now) (length layout.now.seats.items)) }
    ensures few { IfOk result (λ _. AreFew (plan_of layout.now.plan.now) (certificate_of layout.now.cert.now)) }
    ensures made { IfOk result (λ made. AreMade (plan_of layout.now.plan.now) (certificate_of layout.now.cert.now) made.items) }
{
    let noted = noted_groups(alloc, layout.plan)?;
    let gathered = gathered_needs(alloc, layout, &layout.cert.needs, &layout.needs)?;
    let mut walk = new_walk(alloc);
    let mut lists = owned;
    let mut cells = MOST_FETCHED;
    let mut pieces = MOST_NEEDED;
    for piece in 0..layout.seats.len() as u32 {
        step_to(alloc, layout, &gathered, &mut walk, piece)?;
        let moving = &walk.small.moving;
        let looks = match looks_at(
            alloc, layout, &noted, &gathered, moving, piece, cells, pieces,
        ) {
            Ok(looks) => looks,
            Err(stop) => return Err(trouble_of(piece, stop)),
        };
        cells -= looks.fetched.as_slice().len() as u64;
        pieces -= looks.needs.as_slice().len() as u64;
        put_looks(&mut lists, piece, looks);
    }
    Ok(lists)
}

impl From<AllocError> for Trouble {
    ghost use Rattle.shares.specs.declared.lists.Trouble.{Trouble};

    ghost from_gives = { λ _ e. e ≡ Trouble.Memory };

    fn from(_: AllocError) -> Self {
        Trouble::Memory
    }
}
