//! Why a plan is refused.

use soundness::outline::refusals::K;

/// Why a check gives no answer but a refusal.
#[derive(Clone, Copy, PartialEq, Eq, Drop)]
pub enum CheckError {
    /// The code, and the line of the plan's text at which it holds.
    Refused(K, u32),
    /// Want of memory.
    Memory,
}
