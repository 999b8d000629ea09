//! Laws that join what the lines of a plan owe the checker with what `lower` makes.

ghost use Rattle.completeness.specs.Owed.{
  AllocLinesOweShown,
  FetchClaimsOweShown,
  FetchLinesOweShown,
  PublishLinesOweShown,
  StatementsOweTheirOwn,
  StepsOweShown,
  StoreNamesAreShown,
  StoresAndNestsAreLeft,
};

/// Of a schedule under which each stored function is a root function that is computed at no loop, whatever the loops, what each line `alloc` of the plan
/// that `lower` makes owes is shown by the checker's rules (no K2): its buffer is not in scope there.
pub fn alloc_lines_owe_shown()
    ensures { AllocLinesOweShown }
{}

/// So is what each line `fetch` owes (no K4): each number of its region is shown to have a place in its buffer. It is asked that no grid has more symbols
/// than the checker takes of a group.
pub fn fetch_lines_owe_shown()
    ensures { FetchLinesOweShown }
{}

/// And what each line `publish` owes (no K5): its claim is in force there and of its function's last definition, and what the pieces own lies in its region.
/// It is asked that the forms of the claims' regions are within the limits of forms, and their numbers within half of theirs.
pub fn publish_lines_owe_shown()
    ensures { PublishLinesOweShown }
{}

/// And what each claim of a line `fetch` owes (no K6): it is made there. It is asked what is of lines `fetch` and of lines `publish`.
pub fn fetch_claims_owe_shown()
    ensures { FetchClaimsOweShown }
{}

/// And what each loop and each let owes by itself (no K2): that its symbol is not in scope, is that of no loop, let or grid around it, and stands in no form of
/// these, in no place of a buffer in scope, and in no region of a claim in force.
pub fn steps_owe_shown()
    ensures { StepsOweShown }
{}

/// Of every statement, whatever the outline, the rules and the tests of nests: what it owes is what its loops and lines owe by themselves, and what the claims
/// do that its last lines name. Where that is shown, all is.
pub fn statements_owe_their_own()
    ensures { StatementsOweTheirOwn }
{}

/// So, of the schedules of `alloc_lines_owe_shown`, all that the lines of a group owe is shown where that of its stores is, and that of the claims of its
/// nests. It is asked what is of the claims of lines `fetch`.
pub fn stores_and_nests_are_left()
    ensures { StoresAndNestsAreLeft }
{}

/// Of what each line `store` owes, the tests of names alone say yes: its buffer and those of what it loads are in scope (no K4 for that), the claims by which
/// it loads are in force and of their functions' last definitions, and an update stands in the nest of its claim and loads its own function by the claim of
/// the definition before (no K5 for that). It is asked that no name of the algorithm reads as a load, and that all lines can be told.
pub fn store_names_are_shown()
    ensures { StoreNamesAreShown }
{}
