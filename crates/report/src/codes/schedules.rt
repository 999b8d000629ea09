//! Codes of schedules.

ghost use Rattle.std.specs.Prelude.{◌≡◌};
ghost use Rattle.std.specs.Option.{is_some};
ghost use Rattle.report.specs.Codes.Codes.{is_among, of_schedules};

const L1: &str =
    "A name of no function, or of no loop that the function has now; a directive on the input.

```console
$ printf 'out.unroll(y);' > a.sched
$ stencil compile examples/tri.alg a.sched a.plan
stencil: L1 out
```

A loop that was split has gone: name its outer or its inner loop.
";

const L2: &str =
    "A split of a reduction variable, a name that the function has had, a factor out of 1 to 1024.

```console
$ printf 'out.split(x, x, xi, 4, guard);' > a.sched
$ stencil compile examples/tri.alg a.sched a.plan
stencil: L2 out
```

Take new names for both loops.
";

const L3: &str = "`reorder` of a reduction variable, or of a loop twice.

```console
$ printf 'out.reorder(x, x);' > a.sched
$ stencil compile examples/tri.alg a.sched a.plan
stencil: L3 out
```

Name each loop once.
";

const L4: &str =
    "`unroll` or `vectorize` of a loop that is marked, or that is not the inner loop of a split by at most 64; a vectorised loop that is not the innermost.

```console
$ printf 'out.unroll(x);' > a.sched
$ stencil compile examples/tri.alg a.sched a.plan
stencil: L4 out
```

Split the loop first, and make the vectorised one the innermost by `reorder`.
";

const L5: &str =
    "`parallel` of a reduction variable, of a marked loop, of a function that is not stored, of a dimension in which an update has no variable; or a loop outside of it is not parallel.

```console
$ printf 'out.split(x, xo, xi, 4, guard).parallel(xi);' > a.sched
$ stencil compile examples/tri.alg a.sched a.plan
stencil: L5 out
```

Make the outermost loops parallel, the outermost first.
";

const L6: &str =
    "`compute_at` of a function that is a root too, or the output, or has two of them; in a function that is computed nowhere itself; at a loop that is not there, is unrolled or vectorised, or has a parallel loop inside it; or something reads the function outside of that loop, or in a definition of the other function that lacks the loop, as an update whose left index is not its variable.

```console
$ printf 'pipeline slide; input in u8 [4, 8]; func f u8 (x, y) = in[x, y] + 1u8; func out u8 (x, y) = f[x, y] + f[x, clamp(y + 1, 0, 7)]; output out [4, 8];' > a.alg
$ printf 'f.compute_at(out, yi);' > a.sched
$ stencil compile a.alg a.sched a.plan
stencil: L6 f
```

Name a loop that the consumer has when all its directives are done, or split it first; a reduction's variable is no such loop. Where something outside of that loop, or a definition that lacks it, reads the function too, name a loop with all its readers inside, or store it by `compute_root`.
";

const L7: &str =
    "`store_at` without `compute_at`, twice, in another function, at a loop that is not outside of the one where the function is computed, or at one with a parallel loop inside it.

```console
$ printf 'pipeline slide; input in u8 [4, 8]; func f u8 (x, y) = in[x, y] + 1u8; func out u8 (x, y) = f[x, y] + f[x, clamp(y + 1, 0, 7)]; output out [4, 8];' > a.alg
$ printf 'f.compute_at(out, x).store_at(out, x);' > a.sched
$ stencil compile a.alg a.sched a.plan
stencil: L7 f
```

Name a loop of the same function that stands outside of the one where it is computed.
";

const L8: &str = "`shift` of a function with updates, or over fewer points than the factor.

```console
$ printf 'out.split(x, xo, xi, 16, shift);' > a.sched
$ stencil compile examples/tri.alg a.sched a.plan
stencil: L8 out
```

Take `guard`, or a smaller factor.
";

const L9: &str =
    "`fold` of a function without `store_at`, of a dimension in which it does not slide, or to fewer places than its window has numbers.

```console
$ printf 'pipeline slide; input in u8 [4, 8]; func f u8 (x, y) = in[x, y] + 1u8; func out u8 (x, y) = f[x, y] + f[x, clamp(y + 1, 0, 7)]; output out [4, 8];' > a.alg
$ printf 'f.compute_at(out, x).fold(y, 3);' > a.sched
$ stencil compile a.alg a.sched a.plan
stencil: L9 f
```

Leave it out, or add a `store_at`; fold the dimension that moves with the loop, to as many places as a turn needs ([SCHEDULES.md](SCHEDULES.md), Sliding).
";

const L10: &str = "A function with updates that is not stored.

```console
$ printf 'pipeline p; input in u8 [4]; func s u8 (x) = in[x]; update s over (r 1..3) [r] = s[r] + s[r - 1]; func out u8 (x) = s[x]; output out [4];' > a.alg
$ printf '' > a.sched
$ stencil compile a.alg a.sched a.plan
stencil: L10 s
```

Add `s.compute_root();`.
";

const L11: &str =
    "With all calls put in an expression has more than 4096 nodes or 256 levels; or the stored functions have more than 2^24 cells or 2^20 pieces.

```console
$ printf 'pipeline p; input in u8 [8192, 2049]; func out u8 (x, y) = in[x, y]; output out [8192, 2049];' > a.alg
$ printf '' > a.sched
$ stencil compile a.alg a.sched a.plan
stencil: L11 out
```

Store functions on the way by `compute_root()`; make larger blocks; cut the picture.
";

const L12: &str =
    "No region within 8192 points a side is found for a stored function, nothing uses it, or an index may leave the input or what the function has.

```console
$ printf 'pipeline p; input in u8 [4]; func out u8 (x) = in[x + 1]; output out [4];' > a.alg
$ printf '' > a.sched
$ stencil compile a.alg a.sched a.plan
stencil: L12 out
```

Clamp the index, as in `in[clamp(x + 1, 0, 3)]`. Both arms of a `select` are evaluated, so a `select` does not help.
Where the index is such a clamp, clamps stand one inside another (docs/SCHEDULES.md, `What the bounds can't see`): `--explain` names a function to store.
";

/// The page of a code of schedules.
pub(crate) fn page(code: &str) -> Option<&'static str>
    ensures { is_some result ≡ is_among of_schedules code.now }
{
    match code {
        "L1" => Some(L1),
        "L2" => Some(L2),
        "L3" => Some(L3),
        "L4" => Some(L4),
        "L5" => Some(L5),
        "L6" => Some(L6),
        "L7" => Some(L7),
        "L8" => Some(L8),
        "L9" => Some(L9),
        "L10" => Some(L10),
        "L11" => Some(L11),
        "L12" => Some(L12),
        _ => None,
    }
}
