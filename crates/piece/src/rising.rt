//! Values by the numbers of their cells, where the list of the numbers rises.

ghost use Rattle.std.specs.Prelude.{◌≡◌, ◌+◌, ◌≤◌, ℕ, drop, length, slice_get, take, IfSome, Some};
ghost use Rattle.std.specs.Bool.{OnTrue};
ghost use Rattle.std.specs.List.Sorted.{IsStrictlyIncreasing};
ghost use Rattle.piece.specs.Found.{first_found, number_or_zero};

/// Whether each number is less than the next. All are looked at, so that several are at once.
pub(crate) fn is_rising(numbers: &[u32]) -> bool
    ensures { OnTrue result (IsStrictlyIncreasing numbers.now) }
{
    let mut all = true;
    for next in 1..numbers.len() {
        let one = numbers[next - 1] < numbers[next];
        all = all & one;
    }
    all
}

/// The value at a place, none behind the last.
fn value_at(looked: &[i64], place: usize) -> Option<i64>
    ensures { result ≡ slice_get looked.now place }
{
    looked.get(place).copied()
}

/// The value at a number's place in a rising list, 0 where the number has no place or its place no value.
pub(crate) fn value_among(numbers: &[u32], looked: &[i64], number: u32) -> i64
    requires { IsStrictlyIncreasing numbers.now }
    ensures { result ≡ number_or_zero (first_found number numbers.now looked.now) }
{
    let Ok(place) = numbers.binary_search(&number) else {
        return 0;
    };
    match value_at(looked, place) {
        Some(value) => value,
        None => 0,
    }
}

/// So many values from one on, if there are so many.
fn window(looked: &[i64], start: usize, count: usize) -> Option<&[i64]>
    ensures count { IfSome result (λ values. length values.now ≡ count) }
    ensures same { IfSome result (λ values. values.now ≡ take count (drop start looked.now)) }
{
    if looked.len() < start {
        return None;
    }
    let (_, later) = looked.split_at(start);
    if later.len() < count {
        return None;
    }
    let (values, _) = later.split_at(count);
    Some(values)
}

/// The number at a place so many behind another.
fn number_behind(numbers: &[u32], place: usize, more: usize) -> Option<u32>
    ensures { IfSome result (λ number. slice_get numbers.now (place + more) ≡ Some number) }
{
    numbers.get(place.checked_add(more)?).copied()
}

/// The values of the numbers from the first to the last, where these stand side by side in a rising list and have values.
pub(crate) fn values_between<'a>(
    numbers: &[u32],
    looked: &'a [i64],
    first: u32,
    last: u32,
) -> Option<&'a [i64]>
    requires { IsStrictlyIncreasing numbers.now }
    ensures count { IfSome result (λ values. first + length values.now ≡ last + 1) }
    ensures values { IfSome result (λ values. (k : ℕ) → first + k ≤ last → first_found (first + k) numbers.now looked.now ≡ slice_get values.now k) }
{
    let Ok(place) = numbers.binary_search(&first) else {
        return None;
    };
    let more = last.checked_sub(first)? as usize;
    if number_behind(numbers, place, more)? != last {
        return None;
    }
    window(looked, place, more + 1)
}
