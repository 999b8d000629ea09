//! Codes of tiles.

ghost use Rattle.std.specs.Prelude.{◌≡◌};
ghost use Rattle.std.specs.Option.{is_some};
ghost use Rattle.report.specs.Codes.Codes.{is_among, of_tiles};

const C1: &str = "The tile is empty or leaves the output.

```console
$ stencil crop examples/inc.alg 0 0 3 10 tile.alg
stencil: C1
```

Take a rectangle within the extents of the output, and sides of a tile from 1 to those of the output. An output of one dimension has `Y` 0 and `H` 1.
";

const C2: &str =
    "The algorithm of a tile passes a limit of an algorithm's text, as E4 and A6 have them. The name is the input's, where the part of it is larger than a text may say; a function's, where an expression or a reduction of it is; else the output's.

```console
$ printf 'pipeline p; input in u8 [9]; func out u8 (x) = u8(x%s); output out [9];' \"$(printf '*x%.0s' $(seq 62))\" > a.alg
$ stencil crop a.alg 1 0 4 1 tile.alg
stencil: C2 out
```

Numbers are added to what depends on the place: each `x` is `x + 1` here, and the expression one level deeper. Give parts of a large expression names of their own, as functions; take smaller tiles where a part is too large.
";

pub(crate) fn page(code: &str) -> Option<&'static str>
    ensures { is_some result ≡ is_among of_tiles code.now }
{
    match code {
        "C1" => Some(C1),
        "C2" => Some(C2),
        _ => None,
    }
}
