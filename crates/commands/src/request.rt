//! What the program is asked for.

use crop::Rect;

/// How a picture is computed.
#[derive(Clone, Copy, Drop)]
pub enum Way<'a> {
    /// By the algorithm's definitions alone.
    Plain {
        /// How many evaluations a pixel may take.
        most: u64,
    },
    /// By the plan of a file, in the hands of so many workers.
    File {
        /// The plan file.
        plan: &'a str,
        /// How many workers there are, from 1 to 64.
        workers: usize,
        /// How many stores the plan may make, where that is bounded.
        most: Option<u64>,
    },
}

/// A picture that is asked for: how it is computed, and the names of three files.
#[derive(Clone, Copy, Drop)]
pub struct PictureRequest<'a> {
    /// How the picture is computed.
    pub way: Way<'a>,
    /// The algorithm's text.
    pub algorithm: &'a str,
    /// The image.
    pub input: &'a str,
    /// Where the picture is written.
    pub output: &'a str,
}

/// An algorithm that is to be written in its canonical text: the names of two files.
#[derive(Clone, Copy, Drop)]
pub struct FormatRequest<'a> {
    /// The algorithm's text.
    pub algorithm: &'a str,
    /// Where the canonical text is written.
    pub output: &'a str,
}

/// A schedule that is to be compiled: the names of three files.
#[derive(Clone, Copy, Drop)]
pub struct CompileRequest<'a> {
    /// The algorithm's text.
    pub algorithm: &'a str,
    /// The schedule's text.
    pub schedule: &'a str,
    /// Where the plan file is written.
    pub plan: &'a str,
}

/// A plan that is to be checked: the names of two files.
#[derive(Clone, Copy, Drop)]
pub struct CheckRequest<'a> {
    /// The algorithm's text.
    pub algorithm: &'a str,
    /// The plan file.
    pub plan: &'a str,
}

/// A plan whose steps are to be replayed: the names of four files.
#[derive(Clone, Copy, Drop)]
pub struct ReplayRequest<'a> {
    /// The plan that is checked first.
    pub check: CheckRequest<'a>,
    /// The image.
    pub input: &'a str,
    /// The order of the workers' steps.
    pub order: &'a str,
}

/// A plan whose pieces are to be drawn: the names of three or four files.
#[derive(Clone, Copy, Drop)]
pub struct DrawRequest<'a> {
    /// The plan that is checked first.
    pub check: CheckRequest<'a>,
    /// Where the drawing is written.
    pub output: &'a str,
    /// The order of the workers' steps after which it is drawn; without one all pieces are done.
    pub order: Option<&'a str>,
}

/// Schedules whose pictures are compared with the plain one, or with that of the first of them.
#[derive(Drop)]
pub struct CompareRequest<'a> {
    /// The algorithm's text.
    pub algorithm: &'a str,
    /// The image.
    pub input: &'a str,
    /// The schedules' texts, in the order in which they are taken.
    pub schedules: Vec<&'a str>,
    /// Whether the first schedule's picture stands in place of the plain one.
    pub by_first: bool,
}

/// A tile whose algorithm is to be written: its rectangle, and the names of two files.
#[derive(Clone, Copy, Drop)]
pub struct CropRequest<'a> {
    /// The algorithm's text.
    pub algorithm: &'a str,
    /// The rectangle of the output, in samples.
    pub rect: Rect,
    /// Where the canonical text of the tile's algorithm is written.
    pub output: &'a str,
}

/// An algorithm that is to be cut into tiles.
#[derive(Clone, Copy, Drop)]
pub struct TilesRequest<'a> {
    /// The algorithm's text.
    pub algorithm: &'a str,
    /// How many samples wide a tile is.
    pub width: u32,
    /// How many samples high it is.
    pub height: u32,
    /// The folder in which the tiles' texts and their list are written.
    pub folder: &'a str,
}

/// A code that is to be explained.
#[derive(Clone, Copy, Drop)]
pub struct ExplainRequest<'a> {
    /// The code of a refusal.
    pub code: &'a str,
    /// Its page.
    pub page: &'static str,
}

/// What the words ask for.
#[derive(Drop)]
pub enum Request<'a> {
    /// A picture.
    Picture(PictureRequest<'a>),
    /// The canonical text of an algorithm.
    Format(FormatRequest<'a>),
    /// What the code of a refusal means.
    Explain(ExplainRequest<'a>),
    /// The plan file of a schedule.
    Compile(CompileRequest<'a>),
    /// What the checker says of a plan.
    Check(CheckRequest<'a>),
    /// What a plan costs, where the checker accepts it.
    Cost(CheckRequest<'a>),
    /// The loop nests of a plan, where the checker accepts it.
    Show(CheckRequest<'a>),
    /// Which piece owns each pixel.
    Draw(DrawRequest<'a>),
    /// What comes of an order of steps.
    Replay(ReplayRequest<'a>),
    /// How the pictures of schedules compare with the plain one or with each other, and what they cost.
    Compare(CompareRequest<'a>),
    /// The algorithm of a tile.
    Crop(CropRequest<'a>),
    /// The algorithms of all tiles.
    Tiles(TilesRequest<'a>),
}
