//! Codes of plan files.

ghost use Rattle.std.specs.Prelude.{◌≡◌};
ghost use Rattle.std.specs.Option.{is_some};
ghost use Rattle.report.specs.Codes.Codes.{is_among, of_plans};

const N1: &str = "The line is not written just so, or the file ends early.

```console
$ sed '1s/ / /2;1s/plan/plan /' examples/inc.plan > a.plan
$ stencil check examples/inc.alg a.plan
stencil: N1 line 1
```

One blank between words, no indentation, numbers without leading zeros, LF at each end; symbols, buffers and claims are numbered in the order of their lines.
";

const N2: &str =
    "A limit of the text: 65,536 lines of 65,536 bytes, numbers of 64 bits, 256 symbols and buffers a group, 1 to 4 forms.

```console
$ sed '5s/#2/#99999999999999999999/' examples/inc.plan > a.plan
$ stencil check examples/inc.alg a.plan
stencil: N2 line 5
```

Shorten the line, or split the plan into smaller groups.
";

const K1: &str =
    "The name, the input or the output is not the algorithm's, or no group is the output's.

```console
$ sed '1s/inc/dec/' examples/inc.plan > a.plan
$ stencil check examples/inc.alg a.plan
stencil: K1 line 1
```

Copy the head from the algorithm; add the output's group.
";

const K2: &str =
    "A symbol, buffer, claim, function, definition or group is unknown there, or belongs elsewhere.

```console
$ sed '8s/s2/s7/' examples/inc.plan > a.plan
$ stencil check examples/inc.alg a.plan
stencil: K2 line 8
```

A symbol lasts to the end of its loop, a buffer and a `let` to the end of their block; a claim belongs to the group at whose lines its statement ends.
";

const K3: &str = "A form has more than 8 terms, a factor past 2^20 or a constant past 2^40.

```console
$ sed '5s/0+3/1099511627777+3/' examples/inc.plan > a.plan
$ stencil check examples/inc.alg a.plan
stencil: K3 line 5
```

Use shorter forms, over nearer symbols.
";

const K4: &str = "An index is not shown to stay in its buffer or in the input.

```console
$ sed '5s/0#2/0#1/' examples/inc.plan > a.plan
$ stencil check examples/inc.alg a.plan
stencil: K4 line 8
```

Give the buffer more places or another origin; clamp the index.
";

const K5: &str = "What is loaded or published is not covered by a claim that is in force.

```console
$ sed '13s/2+7/3+7/' examples/inc.plan > a.plan
$ stencil check examples/inc.alg a.plan
stencil: K5 line 11
```

Widen what the claim covers; load by the claim of the function's last definition; make the claim before the load.
";

const K6: &str = "The statement that ends at the claim's line is not shown to make it.

```console
$ sed '7s/0:1/0:0/' examples/inc.plan > a.plan
$ stencil check examples/inc.alg a.plan
stencil: K6 line 14
```

Let each loop of the nest stand in one coordinate, leave no gap between blocks, and give as region what the coordinates reach.
";

const K7: &str = "An update's nest does not take the points of its domain in order, each once.

```console
$ sed '9s/1:3/1:2/' examples/scan.plan > a.plan
$ stencil check examples/scan.alg a.plan
stencil: K7 line 10
```

Let each reduction loop run over its whole range, the loop of the last variable outermost.
";

const K8: &str =
    "The buffer of a window does not hold the rows that are needed of it, or no loop keeps the window.

```console
$ sed 's/%3/%2/; s/^window 0 s1 1 3/window 0 s1 1 2/' examples/slide.plan > a.plan
$ stencil check examples/slide.alg a.plan
stencil: K8 line 31
```

Give the buffer as many places as the span has rows, and the window the same number; the ends of the span must not fall from turn to turn. The claim's statement stands alone in the body of the window's loop.
";

const K9: &str = "Two pieces own one cell.

```console
$ sed 's/0+3\\*s0:2+7/0+4*s0:4+5/;5s/3\\*/4*/' examples/inc.plan > a.plan
$ stencil check examples/inc.alg a.plan
stencil: K9 line 13
```

Let a piece's own region begin where the one before it ends.
";

const K10: &str = "A cell has no owner, or an own region leaves its group's region.

```console
$ sed '13s/0:1;/0:0;/' examples/inc.plan > a.plan
$ stencil check examples/inc.alg a.plan
stencil: K10 line 13
```

Let own regions meet, and cut the last one by a second upper form.
";

const K11: &str =
    "A piece fetches a cell that no piece which it needs owns, or needs a piece that is not earlier.

```console
$ sed 's/^need 1 0 .*/need 1 0 [0:0]/' examples/two.plan > a.plan
$ stencil check examples/two.alg a.plan
stencil: K11 line 21
```

Widen the region of `need`, which is over pieces; put the group behind the one that it reads.
";

const K12: &str = "The stored expression is not the function's definition.

```console
$ sed '8s/+1u8/+2u8/' examples/inc.plan > a.plan
$ stencil check examples/inc.alg a.plan
stencil: K12 line 8
```

Copy the definition; put calls of functions that are not stored in, and change nothing else.
";

const K13: &str = "A loop marked `vector` whose turns can't be lanes.

```console
$ sed '6s/serial/vector/' examples/inc.plan > a.plan
$ stencil check examples/inc.alg a.plan
stencil: K13 line 6
```

Mark the innermost loop, around one store; mark no loop of a reduction.
";

const K14: &str = "A limit other than those of forms (K3).

```console
$ sed '5s/0#2/0#5000000/' examples/inc.plan > a.plan
$ stencil check examples/inc.alg a.plan
stencil: K14 line 5
```

[PLANS.md](PLANS.md) lists the limits. A `let` before a `fetch` has to come to a number within 2^20 of 0 in each piece.
";

/// The page of a code of plan files.
pub(crate) fn page(code: &str) -> Option<&'static str>
    ensures { is_some result ≡ is_among of_plans code.now }
{
    match code {
        "N1" => Some(N1),
        "N2" => Some(N2),
        "K1" => Some(K1),
        "K2" => Some(K2),
        "K3" => Some(K3),
        "K4" => Some(K4),
        "K5" => Some(K5),
        "K6" => Some(K6),
        "K7" => Some(K7),
        "K8" => Some(K8),
        "K9" => Some(K9),
        "K10" => Some(K10),
        "K11" => Some(K11),
        "K12" => Some(K12),
        "K13" => Some(K13),
        "K14" => Some(K14),
        _ => None,
    }
}
