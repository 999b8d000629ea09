//! The number of points of a reduction domain.

ghost use Rattle.std.specs.Prelude.{◌≡◌, ◌+◌, ◌*◌, ◌≤◌, ◌↔◌, map, IsTrue, Some};
ghost use Rattle.meaning.specs.Reduction.{size, width};
ghost use Rattle.algo.specs.Scoping.Ranges.{unnamed};

/// Whether the ranges, each by its least and its greatest value, have at most `limit` points.
pub fn size_within(ranges: &[(i32, i32)], limit: u64) -> bool
    ensures { IsTrue result ↔ (size (map unnamed ranges.now) ≤ limit) }
{
    let mut points: u64 = 1;
    for range in ranges {
        match points.checked_mul(width(*range)) {
            Some(more) => points = more,
            None => return false,
        }
    }
    points <= limit
}

// How many values a range has.
fn width(range: (i32, i32)) -> u64
    ensures { result ≡ width (unnamed range) }
{
    range.1.abs_diff(range.0) as u64 + 1
}
