//! Codes of algorithms.

ghost use Rattle.std.specs.Prelude.{◌≡◌};
ghost use Rattle.std.specs.Option.{is_some};
ghost use Rattle.report.specs.Codes.Codes.{is_among, of_algorithms};

const E1: &str = "No token begins there.

```console
$ printf 'pipeline p; input in u8 [4]; func out u8 (x) = in[x] & 1u8; output out [4];' > a.alg
$ stencil plain a.alg examples/tri.pgm out.pgm
stencil: E1 bytes 53..54
```

Write one of the words, names, numbers and symbols of the grammar. A number has its type behind it, without a blank, and lies in that type.
";

const E2: &str = "The token does not fit.

```console
$ printf 'pipeline p; input in u8 [4]; func out u8 (x) = in[x] + ; output out [4];' > a.alg
$ stencil plain a.alg examples/tri.pgm out.pgm
stencil: E2 bytes 55..56
```

Look at what stands before it: an operand, a bracket or a semicolon is missing, or one is too many.
";

const E3: &str = "The types of two parts differ.

```console
$ printf 'pipeline p; input in u8 [4]; func out u8 (x) = in[x] + 1; output out [4];' > a.alg
$ stencil plain a.alg examples/tri.pgm out.pgm
stencil: E3 bytes 47..56
```

Write the literal with its type (`1u8`), or a cast as in `u16(in[x])`. A literal without a type is an `i32`.
";

const E4: &str =
    "Too large: a text of more than 65,536 bytes, a name of more than 16, an expression of more than 512 nodes or 64 levels.

```console
$ printf 'pipeline p; input in u8 [4]; func a_name_that_is_long u8 (x) = in[x]; output out [4];' > a.alg
$ stencil plain a.alg examples/tri.pgm out.pgm
stencil: E4 bytes 34..53
```

Where the canonical text of an algorithm has more than 65,536 bytes, `format` names all bytes of its text.

Take a shorter name; give parts of a large expression names of their own, as functions.
";

const A1: &str = "A name is unknown, or stands twice.

```console
$ printf 'pipeline p; input in u8 [4]; func out u8 (x) = in[y]; output out [4];' > a.alg
$ stencil plain a.alg examples/tri.pgm out.pgm
stencil: A1 bytes 50..51
```

Declare it, or take another name. An update stands right behind its function.
";

const A2: &str = "A call of a later function, or of the function itself in its pure definition.

```console
$ printf 'pipeline p; input in u8 [4]; func out u8 (x) = f[x]; func f u8 (x) = in[x]; output out [4];' > a.alg
$ stencil plain a.alg examples/tri.pgm out.pgm
stencil: A2 bytes 47..48
```

Move the function that is called before the one that calls it; what calls itself is an update.
";

const A3: &str = "Another number of indices than the function has variables.

```console
$ printf 'pipeline p; input in u8 [4]; func out u8 (x) = in[x, 0]; output out [4];' > a.alg
$ stencil plain a.alg examples/tri.pgm out.pgm
stencil: A3 bytes 47..55
```

Give one index for each dimension.
";

const A4: &str = "In an update, a pure variable that is out of its place.

```console
$ printf 'pipeline p; input in u8 [4, 4]; func out u8 (x, y) = 0u8; update out over (r 0..3) [y, x] = out[x, y]; output out [4, 4];' > a.alg
$ stencil plain a.alg examples/tri.pgm out.pgm
stencil: A4 bytes 84..85
```

On the left side a variable of the function stands alone and in its own place; where it does, calls of the function to itself have it there too.
";

const A5: &str = "An update without its domain.

```console
$ printf 'pipeline p; input in u8 [4]; func out u8 (x) = 0u8; update out [x] = in[x]; output out [4];' > a.alg
$ stencil plain a.alg examples/tri.pgm out.pgm
stencil: A5 bytes 52..58
```

Add `over (r 0..3)`; a domain of one point is lawful.
";

const A6: &str = "A limit: extents, dimensions, ranges, the number of functions or updates.

```console
$ printf 'pipeline p; input in u8 [9000]; func out u8 (x) = in[x]; output out [4];' > a.alg
$ stencil plain a.alg examples/tri.pgm out.pgm
stencil: A6 bytes 25..29
```

Extents are 1 to 8192, dimensions 1 to 3, bounds of domains within -8192 and 8192; a lower bound is not above its upper one.
";

const A7: &str = "An input or output of another type than u8 and u16.

```console
$ printf 'pipeline p; input in u8 [4]; func out i32 (x) = i32(in[x]); output out [4];' > a.alg
$ stencil plain a.alg examples/tri.pgm out.pgm
stencil: A7 bytes 67..70
```

Cast in the last function.
";

const P1: &str =
    "A pixel takes more evaluations than it may: 2^32, or as many as `--at-most` says. Of `run`, the plan makes more stores than `--at-most` says.

```console
$ stencil run examples/inc.alg examples/inc.plan examples/inc.pgm out.pgm --at-most 19
stencil: P1
```

`plain` remembers nothing, so a chain of functions that each call the one before twice takes twice as many evaluations with each. Compile a schedule that stores some of them, and `run` its plan. `stencil cost` tells how many stores a plan makes.
";

/// The page of a code of algorithms.
pub(crate) fn page(code: &str) -> Option<&'static str>
    ensures { is_some result ≡ is_among of_algorithms code.now }
{
    match code {
        "E1" => Some(E1),
        "E2" => Some(E2),
        "E3" => Some(E3),
        "E4" => Some(E4),
        "A1" => Some(A1),
        "A2" => Some(A2),
        "A3" => Some(A3),
        "A4" => Some(A4),
        "A5" => Some(A5),
        "A6" => Some(A6),
        "A7" => Some(A7),
        "P1" => Some(P1),
        _ => None,
    }
}
