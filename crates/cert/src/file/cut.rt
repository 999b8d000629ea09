//! The cut between a plan and its certificate.

ghost use Rattle.cert.specs.File.Cut.{IsCut};

/// The line with which a certificate begins.
const HEAD: &str = "cert\n";

/// The same behind another line.
const BEHIND: &str = "\ncert\n";

/// The text before the first line `cert`, and the rest from that line on.
pub(crate) fn cut(text: &str) -> (&str, &str)
    ensures { IsCut text.now result.0.now result.1.now }
{
    if text.starts_with(HEAD) {
        return ("", text);
    }
    match text.find(BEHIND) {
        Some(at) => text.split_at(at + 1),
        None => (text, ""),
    }
}
