//! Certificates as text: one text for each certificate, and one certificate for each text.
#![tactic(auto)]

pub mod file;
pub mod laws;
mod line;
mod reading;
mod words;
mod writing;

pub use plan::certificate::Cert;
pub use reading::read;
pub use spelling::lines::TextError;
pub use writing::write;
