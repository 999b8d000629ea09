//! What is wrong with a line that has a region.

ghost use Rattle.std.specs.Prelude.{◌≡◌, ℕ};
ghost use Rattle.soundness.specs.Outline.Flaws.{first_of};
ghost use Rattle.validation.specs.Certificate.Lines.{line_flaws, window_line_flaws, told_at};

use soundness::outline::refusals::K;

/// The code of what is wrong with a line: whether what it names is known, its forms are within the limits, and each side of
/// its spans has one to four forms.
pub(crate) fn line_code(known: bool, small: bool, listed: bool) -> Option<K>
    ensures { (line : ℕ) → told_at result line ≡ first_of (line_flaws known small listed line) }
{
    window_code(known, small, true, listed)
}

/// The same of the line of a window, which has to be used too.
pub(crate) fn window_code(known: bool, small: bool, used: bool, listed: bool) -> Option<K>
    ensures { (line : ℕ) → told_at result line ≡ first_of (window_line_flaws known small used listed line) }
{
    if !known {
        Some(K::K2)
    } else if !small {
        Some(K::K3)
    } else if !used {
        Some(K::K8)
    } else if !listed {
        Some(K::K14)
    } else {
        None
    }
}
