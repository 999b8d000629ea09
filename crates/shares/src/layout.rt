//! A plan with its certificate, and the pieces and groups that it has.

ghost use Rattle.std.specs.Prelude.{◌≡◌, ◌<◌, ◌↔◌, IsTrue, IfOk, IfErr, All, length};
ghost use Rattle.plan.specs.View.{plan_of};
ghost use Rattle.plan.specs.Certificate.Certificate.{certificate_of};
ghost use Rattle.plan.specs.Certificate.Cells.{cells};
ghost use Rattle.shares.specs.Shared.{AreShared};
ghost use Rattle.shares.specs.Counts.{FetchIsRefused};
ghost use Rattle.shares.specs.Layout.{IsLayout, OwnIsInside, own_list};

use crate::far::refused_line;
use crate::filed::filed_needs;
use crate::grounds::{Ground, grounds_of};
use crate::seats::{Seat, seats_of};
use crate::spaces::{FoundRuns, runs_in};
use plan::Plan;
use plan::certificate::{Cert, Need};
use std::alloc::{AllocError, Global};

/// A plan and its certificate, with what is known of its groups, and its pieces.
#[derive(Drop)]
pub struct Layout<'a> {
    pub plan: &'a Plan,
    pub cert: &'a Cert,
    pub grounds: Vec<Ground<'a>>,
    pub seats: Vec<Seat>,
    /// The need lines of each group.
    pub needs: Vec<Vec<&'a Need>>,
}

/// The groups and pieces of a plan; or, where before some fetch line a line `let` comes to no near number in some piece of its
/// group, the first fetch line at which something is wrong: that, or that with it more than 2^26 cells are fetched.
pub(crate) fn layout_of<'a>(
    alloc: Global,
    plan: &'a Plan,
    cert: &'a Cert,
) -> Result<Result<Layout<'a>, u32>, AllocError>
    requires { AreShared (plan_of plan.now) (certificate_of cert.now) }
    ensures layout { IfOk result (λ made. IfOk made (λ x. IsLayout x)) }
    ensures plan { IfOk result (λ made. IfOk made (λ x. (x.plan.now ≡ plan.now) × (x.cert.now ≡ cert.now))) }
    ensures refused { IfOk result (λ made. IfErr made (FetchIsRefused (plan_of plan.now) (certificate_of cert.now))) }
{
    let grounds = grounds_of(alloc, plan, cert)?;
    let seats = seats_of(alloc, plan, &grounds)?;
    if let Some(line) = refused_line(alloc, plan, &seats)? {
        return Ok(Err(line));
    }
    let needs = filed_needs(alloc, plan.groups.len(), &cert.needs)?;
    Ok(Ok(Layout {
        plan,
        cert,
        grounds,
        seats,
        needs,
    }))
}

/// The own cells of a piece, by their numbers, and whether its own region stays inside its group's.
///
/// The time is linear in the rows of these cells.
pub(crate) fn own_of(
    alloc: Global,
    layout: &Layout<'_>,
    piece: u32,
) -> Result<FoundRuns, AllocError>
    requires layout { IsLayout layout.now }
    requires piece { piece < length layout.now.seats.items }
    ensures numbers { IfOk result (λ found. found.cells ≡ own_list (plan_of layout.now.plan.now) (certificate_of layout.now.cert.now) piece) }
    ensures within { IfOk result (λ found. All (λ n. n < length (cells (plan_of layout.now.plan.now))) found.cells) }
    ensures whole { IfOk result (λ found. IsTrue found.whole ↔ OwnIsInside (plan_of layout.now.plan.now) (certificate_of layout.now.cert.now) piece) }
{
    let seat = &layout.seats[piece as usize];
    let ground = &layout.grounds[seat.group];
    runs_in(alloc, &ground.cells, ground.own, &seat.at)
}
