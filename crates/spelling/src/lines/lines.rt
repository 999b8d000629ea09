//! The first line of a text.

ghost use Rattle.std.specs.Prelude.{◌≡◌, true, ◌++◌, ◌∷◌, IfNone, IfSome};
ghost use Rattle.std.specs.List.{position};
ghost use Rattle.spelling.specs.Lines.Lines as spec;

/// The most lines of a file, and the most bytes of a line.
const LIMIT: usize = 65_536;

/// Where the first line feed stands.
fn feed_at(text: &[u8]) -> Option<usize>
    ensures { result ≡ position spec.is_line_feed text.now }
{
    text.iter().position(|byte| *byte == b'\n')
}

/// The first line, without its line feed, and what follows that. None where there is no line feed.
#[tactic(auto, using(crate::proofs::Splits::splits))]
pub fn split_line(text: &[u8]) -> Option<(&[u8], &[u8])>
    ensures spelled { IfSome result (λ split. text.now ≡ split.0.now ++ 10 ∷ split.1.now) }
    ensures line { IfSome result (λ split. spec.is_line split.0.now ≡ true) }
    ensures none { IfNone result (spec.is_line text.now ≡ true) }
{
    let at = feed_at(text)?;
    let (line, feed) = text.split_at(at);
    let (_, rest) = feed.split_at(1);
    Some((line, rest))
}

/// Whether a line of that number may stand in a file: the number and the line's bytes are at most 65,536.
pub fn is_within(number: usize, line: &[u8]) -> bool
    ensures { result ≡ spec.is_within number line.now }
{
    number <= LIMIT && line.len() <= LIMIT
}
