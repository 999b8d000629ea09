//! Plans that are accepted, of the folder `examples` and others, and what is wrong with them where a line is altered.

ghost use Rattle.audit.specs.Verdict.Examples.Blocks.{BlocksAreAccepted};
ghost use Rattle.audit.specs.Verdict.Examples.Hist.{HistIsAccepted};
ghost use Rattle.audit.specs.Verdict.Examples.Inc.{IncIsAccepted};
ghost use Rattle.audit.specs.Verdict.Examples.Near.{NearIsAccepted};
ghost use Rattle.audit.specs.Verdict.Examples.Scan.{ScanIsAccepted};
ghost use Rattle.audit.specs.Verdict.Examples.Slide.{SlideIsAccepted};

/// The plan of one more than each pixel, in pieces of three and seven rows, is accepted by the checker's own rules.
/// Where a row is owned twice or by none, another value is stored, or a piece owns what it does not claim, it has that
/// fault.
pub fn inc_is_accepted()
    ensures { IncIsAccepted }
{}

/// The plan whose pieces read their neighbours is accepted by the checker's own rules. Where a piece does not need
/// the one to its left, another value is stored, or less is claimed than is read, it has that fault.
pub fn near_is_accepted()
    ensures { NearIsAccepted }
{}

/// The plan of a running sum is accepted by the checker's own rules. Where its update loads by a claim that is still
/// to be made, claims more than it stores, leaves a step out or stores another value, it has that fault.
pub fn scan_is_accepted()
    ensures { ScanIsAccepted }
{}

/// The plan of a histogram is accepted by the checker's own rules. Where it has a place too few, takes the pixels
/// column by column or stores another value, it has that fault.
pub fn hist_is_accepted()
    ensures { HistIsAccepted }
{}

/// Plans with lines `let` and `guard` and an unrolled loop are accepted by the checker's own rules: ten points in
/// blocks of four, of which the last one is moved back or cut off. Where a point is left out, one past the end is read
/// or 65 turns are unrolled, they have that fault.
pub fn blocks_are_accepted()
    ensures { BlocksAreAccepted }
{}

/// The plan of a mean of three rows, whose buffer slides along the loop over the rows, is accepted by the checker's own
/// rules, with as many places for rows as are read and with more. Where it has a place too few, the window's fold is not the
/// buffer's, a row is left out, or the claim has no window or two, it has that fault.
pub fn slide_is_accepted()
    ensures { SlideIsAccepted }
{}
