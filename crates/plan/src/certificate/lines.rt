//! The lines of a certificate's canonical text, where its line `cert` is given.

ghost use Rattle.std.specs.Prelude.{◌≡◌, ◌+◌, ◌-◌, ◌^◌, length, min};
ghost use Rattle.plan.specs.Certificate.Certificate.{certificate_of};
ghost use Rattle.plan.specs.Certificate.Lines.{claim_line, need_line, own_line, window_line};

use crate::certificate::cert::Cert;

/// The line after so many more. Lines past the greatest `u32` count as that.
fn line_after(line: u32, more: usize) -> u32
    ensures { result ≡ min (line + 1 + more) (2 ^ 32 - 1) }
{
    let more = u32::try_from(more).unwrap_or(u32::MAX);
    line.saturating_add(1).saturating_add(more)
}

impl Cert {
    /// How many lines stand between the line `cert` and the first claim.
    fn before_claims(&self) -> usize
        ensures { result ≡ min (length self.now.own.items + length self.now.needs.items) (2 ^ 64 - 1) }
    {
        self.own.len().saturating_add(self.needs.len())
    }

    /// The line of an own region.
    pub fn own_line(&self, certificate_line: u32, index: usize) -> u32
        ensures { result ≡ min (own_line certificate_line index) (2 ^ 32 - 1) }
    {
        line_after(certificate_line, index)
    }

    /// The line of a needed region.
    pub fn need_line(&self, certificate_line: u32, index: usize) -> u32
        ensures { result ≡ min (need_line (certificate_of self.now) certificate_line index) (2 ^ 32 - 1) }
    {
        line_after(certificate_line, self.own.len().saturating_add(index))
    }

    /// The line of a claim.
    pub fn claim_line(&self, certificate_line: u32, index: usize) -> u32
        ensures { result ≡ min (claim_line (certificate_of self.now) certificate_line index) (2 ^ 32 - 1) }
    {
        line_after(certificate_line, self.before_claims().saturating_add(index))
    }

    /// The line of a window.
    #[tactic(auto, using(crate::proofs::CertificateCounts::claims_counted))]
    pub fn window_line(&self, certificate_line: u32, index: usize) -> u32
        ensures { result ≡ min (window_line (certificate_of self.now) certificate_line index) (2 ^ 32 - 1) }
    {
        let before = self.before_claims().saturating_add(self.claims.len());
        line_after(certificate_line, before.saturating_add(index))
    }
}
