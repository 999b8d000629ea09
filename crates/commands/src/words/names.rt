//! The words of the command line that have a name.

pub(super) const PLAIN: &str = "plain";

pub(super) const FORMAT: &str = "format";

pub(super) const EXPLAIN: &str = "explain";

pub(super) const COMPILE: &str = "compile";

pub(super) const COMPARE: &str = "compare";

pub(super) const CHECK: &str = "check";

pub(super) const COST: &str = "cost";

pub(super) const SHOW: &str = "show";

pub(super) const DRAW: &str = "draw";

pub(super) const CROP: &str = "crop";

pub(super) const TILES: &str = "tiles";

pub(super) const RUN: &str = "run";

pub(super) const REPLAY: &str = "replay";

pub(super) const ALGORITHM: &str = "ALG";

pub(super) const SCHEDULE: &str = "SCHED";

pub(super) const PLAN: &str = "PLAN";

pub(super) const INPUT: &str = "IN";

pub(super) const OUTPUT: &str = "OUT";

pub(super) const ORDER: &str = "ORDER";

pub(super) const CODE: &str = "CODE";

pub(super) const LEFT: &str = "X";

pub(super) const TOP: &str = "Y";

pub(super) const WIDTH: &str = "W";

pub(super) const HEIGHT: &str = "H";

pub(super) const TILE_WIDTH: &str = "TW";

pub(super) const TILE_HEIGHT: &str = "TH";

pub(super) const FOLDER: &str = "DIR";

pub(super) const WORKERS: &str = "workers";

pub(super) const AT_MOST: &str = "at-most";

pub(super) const ORDER_OPTION: &str = "order";

pub(super) const BY_FIRST: &str = "by-first";
