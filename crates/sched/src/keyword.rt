//! The words that schedules have for directives and tails.

ghost use Rattle.std.specs.Prelude.{◌≡◌};
ghost use Rattle.sched.specs.Words as spec;

use crate::schedule::Tail;

/// The word that a directive begins with.
#[derive(Clone, Copy, Drop)]
pub enum Keyword {
    ComputeRoot,
    ComputeAt,
    StoreAt,
    Fold,
    Split,
    Tile,
    Reorder,
    Unroll,
    Vectorize,
    Parallel,
}

const TAILS: [Tail; 3] = [Tail::Guard, Tail::Roundup, Tail::Shift];

impl Keyword {
    const ALL: [Keyword; 10] = [
        Keyword::ComputeRoot,
        Keyword::ComputeAt,
        Keyword::StoreAt,
        Keyword::Fold,
        Keyword::Split,
        Keyword::Tile,
        Keyword::Reorder,
        Keyword::Unroll,
        Keyword::Vectorize,
        Keyword::Parallel,
    ];

    /// How the word is written.
    pub fn text(self) -> &'static str
        ensures { result.now ≡ spec.keyword_text self }
    {
        match self {
            Keyword::ComputeRoot => "compute_root",
            Keyword::ComputeAt => "compute_at",
            Keyword::StoreAt => "store_at",
            Keyword::Fold => "fold",
            Keyword::Split => "split",
            Keyword::Tile => "tile",
            Keyword::Reorder => "reorder",
            Keyword::Unroll => "unroll",
            Keyword::Vectorize => "vectorize",
            Keyword::Parallel => "parallel",
        }
    }

    /// Whether the compiler has the directive yet. A text that has one that it has not is refused at this word.
    pub fn is_offered(self) -> bool
        ensures { result ≡ spec.is_offered self }
    {
        match self {
            Keyword::ComputeRoot
            | Keyword::ComputeAt
            | Keyword::StoreAt
            | Keyword::Fold
            | Keyword::Split
            | Keyword::Tile
            | Keyword::Reorder
            | Keyword::Unroll
            | Keyword::Vectorize
            | Keyword::Parallel => true,
        }
    }

    #[tactic(auto, unfolding(crate::specs::Words::keyword_named))]
    pub(crate) fn named(text: &[u8]) -> Option<Keyword>
        ensures { result ≡ spec.keyword_named text.now }
    {
        Keyword::ALL
            .iter()
            .copied()
            .find(|word| word.is_offered() && word.text().as_bytes() == text)
    }
}

/// How a tail is written.
pub fn tail_text(tail: Tail) -> &'static str
    ensures { result.now ≡ spec.tail_text tail }
{
    match tail {
        Tail::Guard => "guard",
        Tail::Roundup => "roundup",
        Tail::Shift => "shift",
    }
}

#[tactic(auto, unfolding(crate::specs::Words::tail_named))]
pub(crate) fn tail_named(text: &[u8]) -> Option<Tail>
    ensures { result ≡ spec.tail_named text.now }
{
    TAILS
        .iter()
        .copied()
        .find(|tail| tail_text(*tail).as_bytes() == text)
}
