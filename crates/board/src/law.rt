//! The rule of the table, as the table takes it.

use crate::view::View;
use atomic_table::{Join, Play, Split, TableRule};
use std::marker::{Brand, PhantomData};

/// Which layout a board is for, and the values of its cells. Each run picks them.
pub trait Run {
    ghost use Rattle.std.specs.Prelude.{ℤ, List};
    ghost use Rattle.board.specs.Layout.{Layout};

    ghost layout: { Layout };

    ghost values: { List ℤ };
}

impl Run for Brand {
    ghost use Rattle.std.specs.Prelude.{[]};
    ghost use Rattle.numeric.specs.declared.ty.Ty.TheVariants.{U8};

    ghost layout = { record { own = []; cells = 0; frame = record { ty = U8; extents = [] }; cell_of = λ _. 0 } };

    ghost values = { [] };
}

/// The rule of a board's table.
pub struct Law<J> {
    run: PhantomData<J>,
}

impl<J: Run> TableRule<u8, View, ()> for Law<J> {
    ghost use Rattle.board.specs.Views.{first_view};
    ghost use Rattle.board.specs.Rule.{Kept};

    ghost holds = { λ _ s. Kept J.layout J.values s.words s.views };

    ghost first = { λ _. first_view };
}

/// The step of `draw`.
pub struct Draw<J> {
    run: PhantomData<J>,
}

impl<J: Run> Play<u8, View> for Draw<J> {
    ghost use Rattle.board.specs.Steps.{Draws};

    ghost then = { Draws J.layout J.values };
}

/// The step of `ask`.
pub struct Ask<J> {
    run: PhantomData<J>,
}

impl<J: Run> Play<u8, View> for Ask<J> {
    ghost use Rattle.board.specs.Steps.{Asks};

    ghost then = { Asks J.layout J.values };
}

/// The step of `look`.
pub struct Look<J> {
    run: PhantomData<J>,
}

impl<J: Run> Play<u8, View> for Look<J> {
    ghost use Rattle.board.specs.Steps.{Looks};

    ghost then = { Looks J.layout J.values };
}

/// The step of `put`.
pub struct Put<J> {
    run: PhantomData<J>,
}

impl<J: Run> Play<u8, View> for Put<J> {
    ghost use Rattle.board.specs.Steps.{Puts};

    ghost then = { Puts J.layout J.values };
}

/// The step of `finish`.
pub struct Finish;

impl Play<u8, View> for Finish {
    ghost use Rattle.board.specs.Steps.{Finishes};

    ghost then = { Finishes };
}

/// How a seat is split off.
pub struct Hire;

impl Split<View> for Hire {
    ghost use Rattle.board.specs.Views.{splitter, split_off};

    ghost left = { splitter };

    ghost right = { split_off };
}

/// How one seat takes in another.
pub struct Merge;

impl Join<View> for Merge {
    ghost use Rattle.board.specs.Views.{joined, spent_view};

    ghost both = { joined };

    ghost spent = { spent_view };
}
