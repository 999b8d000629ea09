//! A function that is cut.

ghost use Rattle.std.specs.Prelude.{◌<◌, length};
ghost use Rattle.algo.specs.View.{algorithm_of};

use crate::cut::{Cut, Kept};
use algo::{Algo, Function};

/// A function that is cut: its number in the order of declaration, its name, what it is, and what is kept of it.
#[derive(Clone, Copy, Drop)]
pub(crate) struct Piece<'a> {
    pub algo: &'a Algo,
    pub cut: &'a Cut,
    pub number: usize,
    pub name: &'a String,
    pub function: &'a Function,
    pub kept: &'a Kept,
    pub ghost known: { number < length (algorithm_of algo.now).functions },
}
