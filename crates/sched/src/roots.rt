//! Root functions with their regions and loops, and what stands around the calls of their definitions.

use crate::definitions::{Formula, Stored};
use crate::{Extent, Skeleton};
use lin::{Region, Scope};

/// A region within the limits, and the loops over it.
#[derive(Drop)]
pub struct Laid {
    pub region: Vec<Extent>,
    pub skeleton: Skeleton,
}

/// A stored function with its definitions and its region.
#[derive(Clone, Copy, Drop)]
pub struct Root<'a> {
    pub stored: &'a Stored<'a>,
    pub formulas: &'a [Formula],
    pub laid: &'a Laid,
}

/// The calls of a function in one definition, with what is known around them.
#[derive(Drop)]
pub struct Site {
    pub scope: Scope,
    pub calls: Vec<Region>,
}
