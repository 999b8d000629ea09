//! The shares of a plan's pieces.

ghost use Rattle.std.specs.Prelude.{◌≡◌, ℕ, ◌<◌, ◌≤◌, ◌+◌, ◌^◌, List, IfOk, IfErr, MatchOption, length};
ghost use Rattle.meaning.specs.Algorithm.{Algorithm};
ghost use Rattle.plan.specs.View.{plan_of};
ghost use Rattle.plan.specs.Certificate.Certificate.{certificate_of};
ghost use Rattle.plan.specs.Certificate.Cells.{cells, pieces};
ghost use Rattle.orders.specs.Lists.{AreSound};
ghost use Rattle.headline.specs.Work.{work_of};
ghost use Rattle.shares.specs.Shared.{AreShared};
ghost use Rattle.shares.specs.Layout.{IsLayout, FetchesCells, OwnIsInside};
ghost use Rattle.soundness.specs.declared.outline.refusals.code.K.TheVariants.{K9, K11, K14};
ghost use Rattle.shares.specs.Owned.{AreOwners};
ghost use Rattle.shares.specs.Has.{HasShares, fetched_before, needed_before};
ghost use Rattle.shares.specs.Made.{AreListsOf, CodeMeans, ErrorMeans, Holds, IsPieceOf, LineMeans, LinesStand, TroubleMeans};

use crate::boxes::most_points;
use crate::counts::fetch_flaw;
use crate::layout::{Layout, layout_of};
use crate::limits::need_past;
use crate::lists::{Trouble, lists_of};
use crate::own::own_flaw;
use crate::owners::{Owned, owners_of};
use crate::served::first_unserved;
use crate::stands::{needs_line, own_line};
use orders::Piece;
use plan::Plan;
use plan::certificate::Cert;
use soundness::outline::refusals::{Flaw, K, least};
use std::alloc::{AllocError, Global};

/// The lists of a plan's pieces, and how many cells it has.
#[derive(Drop)]
pub struct Shares {
    pub pieces: Vec<Piece>,
    pub cells: u32,
}

/// Why a plan has no shares.
#[derive(Drop)]
pub enum SharesError {
    /// K9, K10, K11 or K14 at a line of the certificate.
    Flaw(Flaw),
    /// Want of memory.
    Memory,
}

impl From<AllocError> for SharesError {
    ghost use Rattle.shares.specs.declared.answer.SharesError.{SharesError};

    ghost from_gives = { λ _ e. e ≡ SharesError.Memory };

    fn from(_: AllocError) -> Self {
        SharesError::Memory
    }
}

/// How many cells a plan has.
pub(crate) fn cell_count(layout: &Layout<'_>) -> u32
    requires { IsLayout layout.now }
    ensures { result ≡ length (cells (plan_of layout.now.plan.now)) }
{
    let groups = layout.grounds.as_slice().len();
    if groups == 0 {
        return 0;
    }
    let ground = &layout.grounds[groups - 1];
    ground.cells.first + most_points(&ground.cells.sides) as u32
}

/// The group of a piece.
fn group_of(layout: &Layout<'_>, piece: u32) -> usize
    requires layout { IsLayout layout.now }
    requires piece { piece < length layout.now.seats.items }
    ensures { IsPieceOf (plan_of layout.now.plan.now) result piece }
{
    layout.seats[piece as usize].group
}

/// K9 of a group, at its own line.
fn overlap(layout: &Layout<'_>, group: usize) -> SharesError
    ensures { CodeMeans (plan_of layout.now.plan.now) (certificate_of layout.now.cert.now) group K9 → Holds (plan_of layout.now.plan.now) (certificate_of layout.now.cert.now) result }
{
    let line = own_line(layout, group);
    SharesError::Flaw(Flaw { code: K::K9, line })
}

/// K11 of a group, at its first need line, or its own line where it has none.
fn unserved(layout: &Layout<'_>, group: usize) -> SharesError
    ensures { CodeMeans (plan_of layout.now.plan.now) (certificate_of layout.now.cert.now) group K11 → Holds (plan_of layout.now.plan.now) (certificate_of layout.now.cert.now) result }
{
    let line = needs_line(layout, group);
    SharesError::Flaw(Flaw { code: K::K11, line })
}

/// K14 at the need line with which too many pieces are needed, where they are.
fn too_many_needed(alloc: Global, layout: &Layout<'_>) -> SharesError
    requires layout { IsLayout layout.now }
    requires many { ¬ (needed_before (plan_of layout.now.plan.now) (certificate_of layout.now.cert.now) (length (pieces (plan_of layout.now.plan.now))) ≤ 2 ^ 24) }
    ensures { Holds (plan_of layout.now.plan.now) (certificate_of layout.now.cert.now) result }
{
    match need_past(alloc, layout) {
        Ok(Ok(place)) => {
            let line = layout.cert.need_line(layout.plan.certificate_line(), place);
            SharesError::Flaw(Flaw { code: K::K14, line })
        }
        Ok(Err(piece)) => unserved(layout, group_of(layout, piece)),
        Err(_) => SharesError::Memory,
    }
}

/// What is wrong where the lists of the pieces are not made, though not too many cells are fetched.
fn error_of(alloc: Global, layout: &Layout<'_>, trouble: Trouble) -> SharesError
    requires layout { IsLayout layout.now }
    requires trouble { TroubleMeans (plan_of layout.now.plan.now) (certificate_of layout.now.cert.now) (length layout.now.seats.items) trouble }
    requires fetched { fetched_before (plan_of layout.now.plan.now) (length (pieces (plan_of layout.now.plan.now))) ≤ 2 ^ 26 }
    ensures { Holds (plan_of layout.now.plan.now) (certificate_of layout.now.cert.now) result }
{
    match trouble {
        Trouble::Unserved(piece) => unserved(layout, group_of(layout, piece)),
        Trouble::Large(_) => too_many_needed(alloc, layout),
        Trouble::Memory => SharesError::Memory,
    }
}

/// The first of what is wrong at fetch lines and at own lines, if anything is.
pub(crate) fn line_flaw(
    alloc: Global,
    layout: &Layout<'_>,
    count: u32,
    owned: &Result<Owned, u32>,
) -> Result<Option<Flaw>, AllocError>
    requires layout { IsLayout layout.now }
    requires count { count ≡ length (cells (plan_of layout.now.plan.now)) }
    requires owned { IfOk owned.now (AreOwners (plan_of layout.now.plan.now) (certificate_of layout.now.cert.now)) }
    ensures { IfOk result (λ found. MatchOption found (LinesStand (plan_of layout.now.plan.now) (certificate_of layout.now.cert.now)) (LineMeans (plan_of layout.now.plan.now) (certificate_of layout.now.cert.now))) }
{
    let fetched = fetch_flaw(alloc, layout)?;
    let own = own_flaw(alloc, layout, count, owned)?;
    Ok(least(fetched, own))
}

/// Which cells each piece of a plan owns and fetches, and which pieces it needs, where the pieces part the cells among
/// them and look only at what they need.
///
/// K9: a cell is in the own regions of two pieces. K10: an own region leaves its group's region, or a cell is in no own
/// region. K11: a piece fetches a point that no piece that it needs owns, or needs a grid point that is no earlier piece.
/// K14: more than 2^26 cells are fetched or 2^24 pieces needed in all, or some line `let` before a fetch line comes in some piece
/// of its group to a number that is farther than 2^20 from 0. K9 and K10 stand at the own line of the group, K11 at
/// its first need line, or its own line if there is none, K14 at the fetch line or need line with which the limit is passed, and
/// at the first fetch line behind such a `let`.
/// Of all that is wrong at fetch lines the first line is told, and of it and what is wrong at own lines the first, at one line the
/// lowest code.
///
/// The time is about linear in the pieces, the cells, the fetch lines for each piece, the fetched cells, the need lines for each
/// block of 2^14 pieces of their group, those of them that may name a point in such a block for each block of 2^7 pieces in it,
/// those that may in the small block for each of its pieces, and the points named.
pub fn shares_of(alloc: Global, plan: &Plan, cert: &Cert) -> Result<Shares, SharesError>
    requires { AreShared (plan_of plan.now) (certificate_of cert.now) }
    ensures lists { (a : Algorithm) (samples : List ℕ) → IfOk result (λ made. AreListsOf (work_of a (plan_of plan.now) (certificate_of cert.now) samples) made.pieces.items) }
    ensures cells { IfOk result (λ made. made.cells ≡ length (cells (plan_of plan.now))) }
    ensures sound { IfOk result (λ made. AreSound made.cells made.pieces.items) }
    ensures known { IfOk result (λ _. (n : ℕ) → FetchesCells (plan_of plan.now) n) }
    ensures inside { IfOk result (λ _. (n : ℕ) → OwnIsInside (plan_of plan.now) (certificate_of cert.now) n) }
    ensures shares { IfOk result (λ _. HasShares (plan_of plan.now) (certificate_of cert.now)) }
    ensures flaw { IfErr result (ErrorMeans (plan_of plan.now) (certificate_of cert.now)) }
{
    match layout_of(alloc, plan, cert)? {
        Ok(layout) => made_of(alloc, &layout),
        Err(line) => Err(refused(line)),
    }
}

/// K14 at a fetch line.
fn refused(line: u32) -> SharesError
    ensures { result ≡ SharesError.Flaw (record { code = K14; line = line }) }
{
    let code = K::K14;
    SharesError::Flaw(Flaw { code, line })
}

/// The shares of the pieces of a layout.
fn made_of(alloc: Global, layout: &Layout<'_>) -> Result<Shares, SharesError>
    requires { IsLayout layout.now }
    ensures lists { (a : Algorithm) (samples : List ℕ) → IfOk result (λ made. AreListsOf (work_of a (plan_of layout.now.plan.now) (certificate_of layout.now.cert.now) samples) made.pieces.items) }
    ensures cells { IfOk result (λ made. made.cells ≡ length (cells (plan_of layout.now.plan.now))) }
    ensures sound { IfOk result (λ made. AreSound made.cells made.pieces.items) }
    ensures known { IfOk result (λ _. (n : ℕ) → FetchesCells (plan_of layout.now.plan.now) n) }
    ensures inside { IfOk result (λ _. (n : ℕ) → OwnIsInside (plan_of layout.now.plan.now) (certificate_of layout.now.cert.now) n) }
    ensures shares { IfOk result (λ _. HasShares (plan_of layout.now.plan.now) (certificate_of layout.now.cert.now)) }
    ensures flaw { IfErr result (ErrorMeans (plan_of layout.now.plan.now) (certificate_of layout.now.cert.now)) }
{
    let cells = cell_count(layout);
    let owned = owners_of(alloc, layout, cells)?;
    if let Some(flaw) = line_flaw(alloc, layout, cells, &owned)? {
        return Err(SharesError::Flaw(flaw));
    }
    let own = match owned {
        Ok(owned) => owned.pieces,
        Err(piece) => return Err(overlap(layout, group_of(layout, piece))),
    };
    let pieces = match lists_of(alloc, layout, own) {
        Ok(pieces) => pieces,
        Err(trouble) => return Err(error_of(alloc, layout, trouble)),
    };
    if let Some(piece) = first_unserved(alloc, cells, &pieces)? {
        return Err(unserved(layout, group_of(layout, piece)));
    }
    Ok(Shares { pieces, cells })
}
