//! Certificates: why a plan is right.

pub mod cert;
pub mod copying;
pub mod lines;

pub use cert::{Cert, Claim, Need, Own, Window};
pub use copying::copy;
