//! What an expression comes to at the turns of a run.

use numeric::Ty;

/// A number of a register, which has one for each turn of a run.
#[derive(Clone, Copy, Drop)]
pub struct Number {
    pub value: i64,
}

/// A number at the first turn of a run and one more at each turn after it, none of them above one number and then none below another.
#[derive(Clone, Copy, Drop)]
pub struct ClampedRamp {
    pub first: Number,
    pub low: Number,
    pub high: Number,
}

/// What an expression comes to at the turns of a run, which are taken together. All its values are of one type.
#[derive(Clone, Copy, Drop)]
pub enum Lanes {
    /// One value at all turns.
    Broadcast(Ty, Number),
    /// This value at the first turn, and one more at each turn after it.
    Ramp(Ty, Number),
    /// The numbers of a clamped ramp.
    Clamped(Ty, ClampedRamp),
    /// The numbers that a register holds.
    Vector(Ty),
}
