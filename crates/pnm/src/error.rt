//! Why a file is no image of the wanted shape, or could not be read or written.

use thiserror::Error;

/// A refusal. Those of a file are found in the order in which its bytes are read.
#[derive(Clone, Copy, Debug, PartialEq, Eq, Error)]
pub enum PnmError {
    /// The first two bytes are not the magic of a file of the wanted shape, or are missing.
    #[error("G1")]
    Magic,
    /// A byte does not fit, or the greatest sample is not from 1 to 65535.
    #[error("G2")]
    Malformed,
    /// Width or height are not the wanted ones, or the greatest sample is above the wanted type's.
    #[error("G3")]
    OtherImage,
    /// A sample is above the greatest sample that the header states.
    #[error("G4")]
    AboveMax,
    /// The file ends before the last sample.
    #[error("G5")]
    TooShort,
    /// Something follows the last sample.
    #[error("G6")]
    Trailing,
    /// The reader or the writer failed.
    #[error("G7")]
    Device,
    /// There is no memory for the image.
    #[error("M0")]
    Memory,
}
