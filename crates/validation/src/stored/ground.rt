//! What the lines of a group are tested against.

ghost use Rattle.std.specs.Prelude.{◌≡◌, length};
ghost use Rattle.algo.specs.View.{algorithm_of};
ghost use Rattle.soundness.specs.Outline.Forms.{grid_symbols};
ghost use Rattle.soundness.specs.Outline.View.{group_in, plan_in};
ghost use Rattle.validation.specs.Stored.Definitions.{stored_in};

use crate::stored::lines::GroupLines;
use algo::Algo;
use lin::Sym;
use soundness::outline::Outlined;

/// The algorithm, the group, its lines, which functions are stored, and the symbols of the group's grid.
#[derive(Clone, Copy, Drop)]
pub struct Ground<'a, 'o> {
    pub algo: &'a Algo,
    pub outlined: &'o Outlined<'a>,
    pub lines: GroupLines,
    pub stored: &'o [bool],
    pub grid: &'o [Sym],
    pub ghost marked: { stored.now ≡ stored_in (algorithm_of algo.now) (plan_in outlined.now) },
    pub ghost ranged: { grid.now ≡ grid_symbols (length (group_in outlined.now).grid) },
}
