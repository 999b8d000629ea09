//! Codes of images and orders, and of the run.

ghost use Rattle.std.specs.Prelude.{◌≡◌};
ghost use Rattle.std.specs.Option.{is_some};
ghost use Rattle.report.specs.Codes.Codes.{is_among, of_images};

const G1: &str =
    "The file does not begin as it should: `P5` or `P2` for one or two dimensions, `P6` or `P3` for three.

```console
$ printf 'P6 10 1 255\\n0123456789' > in.pgm
$ stencil plain examples/tri.alg in.pgm out.pgm
stencil: G1
```

Convert it, as by Netpbm's `ppmtopgm`.
";

const G2: &str = "The header, or a plain sample, is no number, or the maxval is not 1 to 65535.

```console
$ printf 'P5 ten 1 255\\n0123456789' > in.pgm
$ stencil plain examples/tri.alg in.pgm out.pgm
stencil: G2
```

Look at the first line of the file: comments stand before the maxval, from `#` to the end of a line.
";

const G3: &str = "Width, height or maxval are not those that the algorithm asks for.

```console
$ printf 'P5 9 1 255\\n012345678' > in.pgm
$ stencil plain examples/tri.alg in.pgm out.pgm
stencil: G3
```

Cut or scale the image, or declare the input as large as it is.
";

const G4: &str = "A sample is above the maxval.

```console
$ printf 'P5 10 1 50\\n0123456789' > in.pgm
$ stencil plain examples/tri.alg in.pgm out.pgm
stencil: G4
```

The file is damaged, or its maxval is wrong.
";

const G5: &str = "The file ends before the last sample.

```console
$ printf 'P5 10 1 255\\n012345678' > in.pgm
$ stencil plain examples/tri.alg in.pgm out.pgm
stencil: G5
```

The file is cut off.
";

const G6: &str = "Something follows the last sample.

```console
$ printf 'P5 10 1 255\\n0123456789+' > in.pgm
$ stencil plain examples/tri.alg in.pgm out.pgm
stencil: G6
```

One image a file; take the first, as by Netpbm's `pamsplit`.
";

const G7: &str = "A file or a stream can't be opened, read or written, or a text is not UTF-8.

```console
$ stencil plain examples/tri.alg nothing.pgm out.pgm
stencil: G7
```

Look at the name, the rights and the room on the disk.
";

const O1: &str =
    "The text of an order is not workers' numbers from 0 to 63 between white space, at most 2^24 of them.

```console
$ printf '0 64' > a.order
$ stencil replay examples/two.alg examples/two.plan examples/two.pgm a.order
stencil: O1
```

Write the numbers in decimals, without signs and leading zeros.
";

const M0: &str = "Memory ran out: an allocation was really refused. It ends with status 4.

Take a smaller image or fewer workers, or a machine with more memory. `stencil cost` tells how many places and cells a plan has.
";

const U1: &str = "Workers left a piece unfinished. It ends with status 6, and names the piece.

No run gives it: workers leave no piece of a checked plan unfinished, whatever the order of their steps. The code and the status are those that the rules of the program name.
";

/// The page of a code of images and orders, and of the run.
pub(crate) fn page(code: &str) -> Option<&'static str>
    ensures { is_some result ≡ is_among of_images code.now }
{
    match code {
        "G1" => Some(G1),
        "G2" => Some(G2),
        "G3" => Some(G3),
        "G4" => Some(G4),
        "G5" => Some(G5),
        "G6" => Some(G6),
        "G7" => Some(G7),
        "O1" => Some(O1),
        "M0" => Some(M0),
        "U1" => Some(U1),
        _ => None,
    }
}
