//! The codes of refusals, and where they stand.

ghost use Rattle.std.specs.Prelude.{◌≡◌};
ghost use Rattle.soundness.specs.Outline.Refusals.Codes.{is_before, least, lesser, number_of};

/// The code of a refusal.
#[derive(Clone, Copy, Debug, PartialEq, Eq, Drop)]
pub enum K {
    /// The name, the input or the output is not the algorithm's, or no group is the output's.
    K1,
    /// A symbol, buffer, claim, function, definition, group or variable is unknown or out of scope.
    K2,
    /// A linear form is out of its limits.
    K3,
    /// An index may leave its buffer or the input.
    K4,
    /// A load, or the own region at `publish`, has no claim in force.
    K5,
    /// A statement does not make its claim.
    K6,
    /// An update's nest does not take each point through its reduction points in order.
    K7,
    /// A window does not hold its span.
    K8,
    /// A cell is in the own regions of two pieces.
    K9,
    /// A cell is in no own region, or an own region leaves the group's region, or the output's region lacks a point.
    K10,
    /// A piece fetches what no piece that it needs owns, or needs a piece that is not earlier.
    K11,
    /// A stored expression is not the definition.
    K12,
    /// A vector loop is not one that lanes can run.
    K13,
    /// Another limit is passed.
    K14,
}

impl K {
    /// The number of the code: 1 for K1, and so on.
    pub fn number(self) -> u32
        ensures { result ≡ number_of self }
    {
        match self {
            K::K1 => 1,
            K::K2 => 2,
            K::K3 => 3,
            K::K4 => 4,
            K::K5 => 5,
            K::K6 => 6,
            K::K7 => 7,
            K::K8 => 8,
            K::K9 => 9,
            K::K10 => 10,
            K::K11 => 11,
            K::K12 => 12,
            K::K13 => 13,
            K::K14 => 14,
        }
    }
}

/// What is wrong with a plan or its certificate, and the line of their text at which it stands. Lines past the greatest
/// `u32` are told as that.
#[derive(Clone, Copy, PartialEq, Eq, Drop)]
pub struct Flaw {
    pub code: K,
    pub line: u32,
}

impl Flaw {
    /// Whether it is told before another: it stands at an earlier line, or at the same line with a lower code.
    pub fn is_before(self, other: Flaw) -> bool
        ensures { result ≡ is_before self other }
    {
        self.line < other.line
            || self.line == other.line && self.code.number() < other.code.number()
    }
}

/// The one of two flaws that is told first.
pub fn lesser(left: Flaw, right: Flaw) -> Flaw
    ensures { result ≡ lesser left right }
{
    if right.is_before(left) { right } else { left }
}

/// The one of two flaws that is told first, where there may be none.
pub fn least(left: Option<Flaw>, right: Option<Flaw>) -> Option<Flaw>
    ensures { result ≡ least left right }
{
    match left {
        None => right,
        Some(one) => match right {
            None => left,
            Some(other) => Some(lesser(one, other)),
        },
    }
}
