//! What obligations refer to besides bounds.

ghost use Rattle.std.specs.Prelude.{◌≡◌, ◌==◌, ◌-◌, ◌^◌, min};

use lin::Span1;
use soundness::binders::Bounds;

/// Bounds, and the other facts of the rules that decide.
pub trait Facts: Bounds {
    /// The input's extents as spans.
    fn extents(&self) -> &[Span1]
        ensures { result.now ≡ (Self.rules self.now).extents };

    /// The region that the pieces own.
    fn own(&self) -> &[Span1]
        ensures { result.now ≡ (Self.rules self.now).own };

    /// Whether the definition is the last of the function.
    fn is_last(&self, function: &str, definition: u64) -> bool
        ensures { result ≡ (definition == (Self.rules self.now).last function.now) };

    /// The line of a claim. Lines past the greatest `u32` count as that.
    fn claim_line(&self, claim: u64) -> u32
        ensures { result ≡ min ((Self.rules self.now).claim_line claim) (2 ^ 32 - 1) };

    /// The line of the first window of a claim. Lines past the greatest `u32` count as that.
    fn window_line(&self, claim: u64) -> u32
        ensures { result ≡ min ((Self.rules self.now).window_line claim) (2 ^ 32 - 1) };
}
