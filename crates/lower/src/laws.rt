//! Laws of the definitions that the contracts are written with.

ghost use Rattle.lower.specs.Counted.{LinesAreCounted};
ghost use Rattle.lower.specs.Held.{ArrivalsFit, FetchesHavePlaces, FetchesHoldCalls, InputHoldsCalls, NeedsHoldCalls, OutputHoldsExtents, RegionsHoldCalls, RegionsHoldOwnCalls};
ghost use Rattle.lower.specs.Owning.{BlocksMakeUpRegions, NeedsNameOwners};
ghost use Rattle.lower.specs.Visited.{GuardedPositionsAreKept, ToldNestsComeToAll, ToldNumbersAreKept};

/// The region that is needed of a stored function holds each point that a function which is declared later calls of it: by any of
/// its definitions, at any store that its loops over its own region come to.
pub fn regions_hold_calls()
    ensures { RegionsHoldCalls }
{}

/// What a piece fetches of another function holds each point that the piece's function calls of it: by any of its definitions, at
/// any store that the piece's loops come to.
pub fn fetches_hold_calls()
    ensures { FetchesHoldCalls }
{}

/// The buffer for what a piece fetches of another function has a place for each point that the piece's function calls of it.
pub fn fetches_have_places()
    ensures { FetchesHavePlaces }
{}

/// The region that is needed of the output holds each point of its extents.
pub fn output_holds_extents()
    ensures { OutputHoldsExtents }
{}

/// Where no function breaks a rule by its region, each point of the input that a definition calls, at any store that its loops come
/// to, is one of the input's extents.
pub fn input_holds_calls()
    ensures { InputHoldsCalls }
{}

/// The same of calls of the definition's own function: at each place where the left index is not the variable, the index is a number
/// of the function's region.
pub fn regions_hold_own_calls()
    ensures { RegionsHoldOwnCalls }
{}

/// The blocks that pieces own make up their group's region, whatever directives were applied to the function: what a piece owns are
/// points of the region, and each point of it is owned by some piece; where each piece has a block, by one alone.
pub fn blocks_make_up_regions()
    ensures { BlocksMakeUpRegions }
{}

/// A piece that owns a point of what another piece fetches is one of those that the other's need line names at its grid point, where
/// each piece has a block.
pub fn needs_name_owners()
    ensures { NeedsNameOwners }
{}

/// Whenever some piece comes to the store of a definition, by turns of its loops, past its lets and guards, the symbols are numbers
/// that fit what is known around the store. So what the laws here say of numbers that fit is so of each store of a run.
pub fn arrivals_fit()
    ensures { ArrivalsFit }
{}

/// Where functions are computed inside a group's loops, and only lets stand before the nests of each, the next group begins behind the
/// lines of the body, as a plan's lines are counted. So the line of each claim is that of the statement behind which it is made.
pub fn placed_lines_are_counted()
    ensures { LinesAreCounted }
{}

/// What is needed of a function at a place inside loops holds each point that is called of it there, or further inside, whatever the
/// turns of the loops inside of the place: as bounds tell it of the calls.
pub fn needs_hold_calls()
    ensures { NeedsHoldCalls }
{}

/// The nest of a function in which positions are told to be at most the last numbers of the loops that are split with `guard` comes
/// to all points to which the nest itself comes with such positions.
pub fn told_nests_come_to_all()
    ensures { ToldNestsComeToAll }
{}

/// Wherever that nest comes, each of these positions is at most the last number, where each loop of the nest has one.
pub fn told_numbers_are_kept()
    ensures { ToldNumbersAreKept }
{}

/// Wherever the loops, lets and guards come of a nest whose loops are split, the position in a loop that is split with `guard`, so that
/// its blocks may go past the last number, is at most that number, where the first one is.
pub fn guarded_positions_are_kept()
    ensures { GuardedPositionsAreKept }
{}
