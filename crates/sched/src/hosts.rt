//! Functions that are computed inside loops, and the places in the nests of a group at which they are.

ghost use Rattle.std.specs.Prelude.{◌≡◌, ◌-◌, Some, None};
ghost use Rattle.sched.specs.Demanded as demanded;
ghost use Rattle.sched.specs.Placed as spec;

use crate::roots::Root;
use crate::{Nest, Step};
use lin::{Forms, Region, Scope, Sym};
use plan::{Pick, Places};

/// A function that is computed inside loops.
#[derive(Drop)]
pub struct Inner<'a> {
    pub root: Root<'a>,
    /// Where it is computed.
    pub home: Spot,
    /// Where its buffer stands.
    pub store: Spot,
    /// What stands around its nests, their lets last.
    pub scope: Scope,
    /// What is needed of it there; where it slides, what it holds in each turn.
    pub region: Region,
    /// Of what its claims speak: of what updates set past the end too.
    pub claimed: Region,
    /// The lets before all nests, for the beginnings of blocks of which the claims speak.
    pub lets: Vec<Step>,
    pub nests: Vec<Nest>,
    pub places: Vec<Places>,
    /// The turns after the first one, where these make what is new alone.
    pub later: Option<Later>,
    /// Whether each of its folds is of the dimension in which it slides, with places for its window.
    pub fits: bool,
    /// Whether one turn needs no more numbers of a dimension than a function may have, nor do all for which its buffer stands.
    pub is_small: bool,
}

/// Whose nests: those of the group's own function, of one that is computed inside by its number, or of that one over what is
/// new where it slides.
#[derive(Clone, Copy, Drop)]
pub enum Host {
    Own,
    Inner(usize),
    Later(usize),
}

impl Host {
    /// The number among those that are computed inside.
    pub fn number(self) -> Option<usize>
        ensures { result ≡ demanded.number_of self }
    {
        match self {
            Host::Own => None,
            Host::Inner(number) | Host::Later(number) => Some(number),
        }
    }
}

/// A place in the nests of a function.
#[derive(Clone, Copy, Drop)]
pub struct Spot {
    pub host: Host,
    /// The definition in whose nest the place is; none where it is before all nests, over the grid alone.
    pub definition: Option<usize>,
    /// How many steps of that nest stand around it.
    pub depth: usize,
}

// ---- places

/// Whether the nests are those of the same function, over the same of what is needed.
pub fn is_same_host(first: Host, second: Host) -> bool
    ensures { result ≡ spec.same_host first second }
{
    match first {
        Host::Own => matches!(second, Host::Own),
        Host::Inner(number) => match second {
            Host::Inner(other) => number == other,
            Host::Own | Host::Later(_) => false,
        },
        Host::Later(number) => match second {
            Host::Later(other) => number == other,
            Host::Own | Host::Inner(_) => false,
        },
    }
}

/// Whether both are the same loop, or both none.
pub fn is_same_number(first: Option<usize>, second: Option<usize>) -> bool
    ensures { result ≡ spec.same_number first second }
{
    match first {
        None => second.is_none(),
        Some(number) => match second {
            Some(other) => number == other,
            None => false,
        },
    }
}

/// The nests of the turns after the first one, over what is new.
#[derive(Drop)]
pub struct Later {
    /// The loop along which the function slides.
    pub symbol: Sym,
    pub dimension: usize,
    /// The forms of which the least is the first new number.
    pub first_new: Forms,
    /// What stands around the nests: the last symbol stands for the first new number.
    pub scope: Scope,
    pub region: Region,
    pub nests: Vec<Nest>,
}
