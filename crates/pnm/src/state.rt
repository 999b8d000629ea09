//! How far a file has been read.

use crate::error::PnmError;

/// How a raster is written.
#[derive(Clone, Copy, Debug, PartialEq, Eq, Drop)]
pub enum Form {
    /// One or two bytes a sample.
    Raw,
    /// Decimal numbers between white space.
    Plain,
}

/// The number of the header that comes next, with those that stand before it.
#[derive(Clone, Copy, Debug, PartialEq, Eq, Drop)]
pub enum Field {
    Width,
    Height { width: u32 },
    Max { width: u32, height: u32 },
}

/// What the file of a wanted image says, and how many samples it has.
#[derive(Clone, Copy, Debug, PartialEq, Eq, Drop)]
pub struct Wanted {
    pub has_colours: bool,
    pub width: u32,
    pub height: u32,
    pub max_sample: u32,
    pub count: usize,
}

/// What stands before the next byte. Of a raster, `max` is the greatest sample that the header states,
/// and `left` is the number of samples that are still to come, the one that is being read included.
#[derive(Clone, Copy, Debug, PartialEq, Eq, Drop)]
pub enum State {
    /// Nothing.
    Start,
    /// The magic's first byte.
    Letter,
    /// The magic.
    Magic {
        form: Form,
    },
    /// At least one item of the gap before a number of the header.
    Gap {
        form: Form,
        field: Field,
    },
    /// A comment that is not over.
    Comment {
        form: Form,
        field: Field,
    },
    /// Digits of a number of the header.
    Number {
        form: Form,
        field: Field,
        value: u32,
    },
    /// A whole number of samples of a raw raster.
    First {
        max: u16,
        left: usize,
    },
    /// The more significant byte of a sample.
    Second {
        max: u16,
        left: usize,
        high: u8,
    },
    /// White space of a plain raster.
    Between {
        max: u16,
        left: usize,
    },
    /// Digits of a sample.
    Digits {
        max: u16,
        left: usize,
        value: u32,
    },
    /// The last sample.
    Done {
        form: Form,
    },
}

/// What a byte does.
#[derive(Clone, Copy, Debug, PartialEq, Eq, Drop)]
pub enum Step {
    /// It leads on.
    Next(State),
    /// It ends a sample.
    Sample(u16, State),
    /// It is the file's first fault.
    Fault(PnmError),
}
