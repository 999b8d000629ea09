//! Forms of plans whose loops' symbols are shown to be narrow are small: a run of a piece comes to 64-bit
//! numbers alone.

ghost use Rattle.audit.specs.Verdict.Bounded.Near.{NearIsNarrow};

/// Where each form of a group's lines is within the limits and over symbols in scope, and each loop's
/// symbol is shown to be at most 2^39 from 0, the value of each form that a piece comes to is a 64-bit number.
pub fn near_is_narrow()
    ensures { NearIsNarrow }
{}
