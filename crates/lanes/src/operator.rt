//! An operator on values of one type, and the loop that applies it at each place.

ghost use Rattle.std.specs.Prelude.{◌≡◌, ◌≤◌, ℕ, ℤ, length};
ghost use Rattle.lanes.specs.Applied.{Applies, AppliesBelow};

// An operator on two values of the type.
pub(crate) trait Operator<T: Copy> {
    // the number that a value is
    ghost value: { T → ℤ };

    // the operator on numbers
    ghost op: { ℤ → ℤ → ℤ };

    fn one(left: T, right: T) -> T
        ensures { value result ≡ op (value left) (value right) };
}

// Applies the operator at each place.
pub(crate) fn one_by_one<T: Copy, O: Operator<T>>(a: &[T], b: &[T], out: &mut [T])
    requires left { length a.now ≡ length out.old }
    requires right { length b.now ≡ length out.old }
    ensures { Applies O.value O.op a.now b.now out.new }
{
    finish::<T, O>(a, b, out, 0)
}

// Applies the operator at each place from `from` on, where it was applied at those below.
pub(crate) fn finish<T: Copy, O: Operator<T>>(a: &[T], b: &[T], out: &mut [T], from: usize)
    requires left { length a.now ≡ length out.old }
    requires right { length b.now ≡ length out.old }
    requires room { from ≤ length out.old }
    requires done { AppliesBelow from O.value O.op a.now b.now out.old }
    ensures { Applies O.value O.op a.now b.now out.new }
{
    for i in from..out.len() {
        out[i] = O::one(a[i], b[i]);
    }
}
