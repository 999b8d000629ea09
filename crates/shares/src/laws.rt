//! What a refusal means, and a plan whose pieces have shares.

ghost use Rattle.shares.specs.Laws.{FaultsHaveNoShares, WrongFetchesHaveNoShares};
ghost use Rattle.shares.specs.Worked.{SharesAreWorked};

/// Where K9, K10, K11 or K14 is told, the pieces have no shares.
pub fn faults_have_no_shares()
    ensures { FaultsHaveNoShares }
{}

/// Where at a fetch line too many cells are fetched, or a line `let` before it comes to no near number, the pieces have no shares,
/// whatever the lines behind it and the certificate say.
pub fn wrong_fetches_have_no_shares()
    ensures { WrongFetchesHaveNoShares }
{}

/// The pieces of a plan of two groups have shares; with a cell owned twice, a cell without an owner and a needed piece left out
/// they have K9, K10 and K11 at the own and the need line.
pub fn worked_shares()
    ensures { SharesAreWorked }
{}
