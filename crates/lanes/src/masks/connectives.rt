//! What a condition's connectives make of masks.

ghost use Rattle.std.specs.Prelude.{◌≡◌, ◌&&◌, ◌||◌, not, length};
ghost use Rattle.lanes.specs.Masks.Places.{Connects, Turns};

/// Puts whether both `a[i]` and `b[i]` hold at each place `i` of `out`.
pub fn and(a: &[bool], b: &[bool], out: &mut [bool])
    requires left { length a.now ≡ length out.old }
    requires right { length b.now ≡ length out.old }
    ensures { Connects (λ x y. x && y) a.now b.now out.new }
{
    for i in 0..out.len() {
        out[i] = a[i] && b[i];
    }
}

/// Puts whether `a[i]` or `b[i]` holds, or both at each place `i` of `out`.
pub fn or(a: &[bool], b: &[bool], out: &mut [bool])
    requires left { length a.now ≡ length out.old }
    requires right { length b.now ≡ length out.old }
    ensures { Connects (λ x y. x || y) a.now b.now out.new }
{
    for i in 0..out.len() {
        out[i] = a[i] || b[i];
    }
}

/// Puts whether `a[i]` does not hold at each place `i` of `out`.
pub fn not(a: &[bool], out: &mut [bool])
    requires { length a.now ≡ length out.old }
    ensures { Turns a.now out.new }
{
    for i in 0..out.len() {
        out[i] = !a[i];
    }
}
