//! An operator on whole vectors of values, and the loop that takes as many as there are.

ghost use Rattle.std.specs.Prelude.{◌≡◌, ◌+◌, ◌≤◌, ◌<◌, length};
ghost use Rattle.lanes.specs.Applied.{Applies, AppliesBelow};

use crate::operator::{Operator, finish};

// An operator on the N values from a place on at once.
pub(crate) trait Vectors<T: Copy, const N: usize>: Operator<T> {
    fn whole(a: &[T], b: &[T], out: &mut [T], at: usize)
        requires left { at + N ≤ length a.now }
        requires right { at + N ≤ length b.now }
        requires room { at + N ≤ length out.old }
        ensures { AppliesBelow at Self.value Self.op a.now b.now out.old → AppliesBelow (at + N) Self.value Self.op a.now b.now out.new };
}

// Applies the operator at each place, to whole vectors first and to what is left one by one.
pub(crate) fn by_vectors<T: Copy, O: Vectors<T, N>, const N: usize>(a: &[T], b: &[T], out: &mut [T])
    requires some { 0 < N }
    requires left { length a.now ≡ length out.old }
    requires right { length b.now ≡ length out.old }
    ensures { Applies O.value O.op a.now b.now out.new }
{
    let from = whole_vectors::<T, O, N>(a, b, out);
    finish::<T, O>(a, b, out, from)
}

// Applies the operator to as many whole vectors as there are, and says where it stopped.
fn whole_vectors<T: Copy, O: Vectors<T, N>, const N: usize>(
    a: &[T],
    b: &[T],
    out: &mut [T],
) -> usize
    requires some { 0 < N }
    requires left { length a.now ≡ length out.old }
    requires right { length b.now ≡ length out.old }
    ensures room { result ≤ length out.new }
    ensures done { AppliesBelow result O.value O.op a.now b.now out.new }
{
    let mut at = 0;
    while out.len() - at >= N {
        O::whole(a, b, out, at);
        at += N;
    }
    at
}
