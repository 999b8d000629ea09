//! The group and the grid point of a piece.

ghost use Rattle.std.specs.Prelude.{◌≡◌, ◌<◌, ◌-◌, ◌^◌, min, length};
ghost use Rattle.plan.specs.Certificate.Cells.{piece_count, pieces};
ghost use Rattle.plan.specs.View.{plan_of};
ghost use Rattle.piece.specs.Places.Places.{IsPlaceOf};

use plan::Plan;

/// Where a piece stands: the number of its group, and how many pieces of that group come before it.
#[derive(Clone, Copy, PartialEq, Eq, Drop)]
pub struct Place {
    pub group: usize,
    pub rank: u32,
}

/// How many points a grid has. More than a `u64` holds count as the greatest `u64`.
fn point_count(grid: &[u64]) -> u64
    ensures { result ≡ min (piece_count grid.now) (2 ^ 64 - 1) }
{
    let mut count: u64 = 1;
    for extent in grid {
        count = count.saturating_mul(*extent);
    }
    count
}

/// Where the piece of a number stands, in time linear in the groups. Pieces are numbered group by group.
pub fn place_of(plan: &Plan, piece: u32) -> Place
    requires { piece < length (pieces (plan_of plan.now)) }
    ensures { IsPlaceOf (plan_of plan.now).groups piece result.group result.rank }
{
    let mut rank = piece;
    for (group, of) in plan.groups.iter().enumerate() {
        let count = point_count(of.grid.as_slice());
        if u64::from(rank) < count {
            return Place { group, rank };
        }
        rank -= count as u32;
    }
    unreachable!()
}
