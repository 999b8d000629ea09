//! What the help of each command ends with: what it reads and writes, an example, and its statuses.

pub(crate) const PROGRAM: &str = "\
Example:
  stencil check examples/inc.alg examples/inc.plan
  stencil run examples/inc.alg examples/inc.plan examples/inc.pgm out.pgm

A '-' is standard input in the place of a file that is read, and standard output in that of OUT.
A word '--explain' tells more of a refusal than its line. Without words the program adds one to
each pixel of 2 by 10, from standard input to standard output.

Statuses:
  0  done
  1  the checker refuses a plan, or a picture differs
  2  the words
  3  an algorithm, a schedule, a plan's text, an image or an order is refused, or a limit is passed
  4  memory ran out
  5  a file can't be read or written
  6  workers left a piece unfinished";

pub(crate) const PLAIN: &str = "\
Reads ALG and IN, and writes OUT last, whole or not at all.

Example:
  stencil plain examples/inc.alg examples/inc.pgm out.pgm

A word '--explain' tells more of a refusal than its line.

Statuses:
  0  OUT is written
  2  the words
  3  ALG or IN is refused, or a pixel takes more than N evaluations (P1)
  4  memory ran out
  5  a file can't be read or written";

pub(crate) const FORMAT: &str = "\
Reads ALG and writes OUT, whole or not at all. Comments are left out.

Example:
  stencil format examples/inc.alg canonical.alg

A word '--explain' tells more of a refusal than its line.

Statuses:
  0  OUT is written
  2  the words
  3  ALG is refused
  4  memory ran out
  5  a file can't be read or written";

pub(crate) const EXPLAIN: &str = "\
Prints a page of docs/CODES.md.

Example:
  stencil explain K5

Statuses:
  0  the page is printed
  2  the words, or no such code
  5  standard output can't be written";

pub(crate) const COMPILE: &str = "\
Reads ALG and SCHED, has the plan checked, and writes PLAN last, whole or not at all.

Example:
  stencil compile examples/blur3.alg examples/blur3-rows.sched rows.plan

A word '--explain' tells more of a refusal than its line.

Statuses:
  0  PLAN is written
  1  the checker refuses the plan; the line is that of the plan that would have been written
  2  the words
  3  ALG or SCHED is refused
  4  memory ran out
  5  a file can't be read or written";

pub(crate) const COMPARE: &str = "\
Reads ALG, IN and each SCHED, and prints for each whether its picture is the plain one, and what
it costs. With '--by-first' the first SCHED's picture stands in place of the plain one, and the
first line says so.

Example:
  stencil compare examples/blur3.alg examples/shapes.pgm examples/blur3-rows.sched

A word '--explain' tells more of a refusal than its line.

Statuses:
  0  all pictures are the same
  1  the checker refuses a plan, or a picture differs
  2  the words
  3  ALG, IN or a SCHED is refused, or a pixel takes more than 2^32 evaluations (P1)
  4  memory ran out
  5  a file can't be read or written";

pub(crate) const CHECK: &str = "\
Reads ALG and PLAN, and prints 'accepted P pieces C cells'.

Example:
  stencil check examples/inc.alg examples/inc.plan

A word '--explain' tells more of a refusal than its line.

Statuses:
  0  the plan is accepted
  1  it is refused
  2  the words
  3  ALG or the text of PLAN is refused
  4  memory ran out
  5  a file can't be read or written";

pub(crate) const COST: &str = "\
Reads ALG and PLAN, and prints a table: for each stored function the stores, the private places, the
cells that are fetched, and the pieces.

Example:
  stencil cost examples/inc.alg examples/inc.plan

A word '--explain' tells more of a refusal than its line.

Statuses:
  0  the plan is accepted
  1  it is refused
  2  the words
  3  ALG or the text of PLAN is refused
  4  memory ran out
  5  a file can't be read or written";

pub(crate) const SHOW: &str = "\
Reads ALG and PLAN, and prints the loops, buffers, fetches and stores of each group, and what they
cost.

Example:
  stencil show examples/inc.alg examples/inc.plan

A word '--explain' tells more of a refusal than its line.

Statuses:
  0  the plan is accepted
  1  it is refused
  2  the words
  3  ALG or the text of PLAN is refused
  4  memory ran out
  5  a file can't be read or written";

pub(crate) const RUN: &str = "\
Reads ALG and PLAN, has the plan checked, reads IN, and writes OUT last, whole or not at all.

Example:
  stencil run examples/inc.alg examples/inc.plan examples/inc.pgm out.pgm --workers 2

A word '--explain' tells more of a refusal than its line.

Statuses:
  0  OUT is written
  1  the checker refuses the plan
  2  the words
  3  ALG, the text of PLAN or IN is refused, or the plan makes more than N stores (P1)
  4  memory ran out
  5  a file can't be read or written
  6  workers left a piece unfinished";

pub(crate) const REPLAY: &str = "\
Reads ALG and PLAN, has the plan checked, reads IN and ORDER, and prints how many pieces are drawn
and finished, and how many cells are set.

Example:
  stencil replay examples/two.alg examples/two.plan examples/two.pgm examples/two.order

A word '--explain' tells more of a refusal than its line.

Statuses:
  0  the order is replayed
  1  the checker refuses the plan
  2  the words
  3  ALG, the text of PLAN, IN or ORDER is refused
  4  memory ran out
  5  a file can't be read or written";

pub(crate) const DRAW: &str = "\
Reads ALG and PLAN, has the plan checked, reads ORDER if it is asked for, and writes OUT last, whole
or not at all. Pieces that touch have different colours.

Example:
  stencil draw examples/tile.alg examples/tile-guard.plan pieces.ppm

A word '--explain' tells more of a refusal than its line.

Statuses:
  0  OUT is written
  1  the checker refuses the plan
  2  the words
  3  ALG, the text of PLAN or ORDER is refused
  4  memory ran out
  5  a file can't be read or written";

pub(crate) const CROP: &str = "\
Reads ALG, prints 'NAME X Y W H', the part of the input NAME that the tile reads, and writes OUT
last, whole or not at all: an algorithm whose picture of that part is the tile. Where OUT is '-' the
line goes to standard error.

Example:
  stencil crop examples/blur3.alg 0 0 8 8 corner.alg

A word '--explain' tells more of a refusal than its line.

Statuses:
  0  OUT is written
  2  the words
  3  ALG is refused, the tile is empty or leaves the output (C1), or it passes a limit (C2)
  4  memory ran out
  5  a file can't be read or written";

pub(crate) const TILES: &str = "\
Reads ALG, and writes the algorithms of its tiles to the folder DIR, which there has to be: 0.alg,
1.alg and so on, equal texts once, and last of all list, a line 'X Y W H X Y W H K' a tile: the tile,
the part of the input that it reads, and the number of its text. Prints 'T tiles K kinds, largest
part P of N samples'.

Example:
  stencil tiles examples/blur3.alg 16 16 tiles

A word '--explain' tells more of a refusal than its line.

Statuses:
  0  DIR/list is written
  2  the words
  3  ALG is refused, TW or TH is 0 or above the output's side (C1), or a tile passes a limit (C2)
  4  memory ran out
  5  a file can't be read or written";
