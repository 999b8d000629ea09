//! Laws that join what `lower` makes with what the checker asks.

ghost use Rattle.completeness.specs.Laws.{AllocFormsAreWithin, AllocLinesAreKnown, DefinitionsAreStored, FetchFormsAreWithin, FetchLinesAreKnown};
ghost use Rattle.completeness.specs.Laws.{FormsAreWithin, GroupFormsAreWithin, GroupLinesAreKnown, GroupsNameKnown, HeadsDoNotFail, NestFormsAreWithin};
ghost use Rattle.completeness.specs.Laws.{OnlyLimitsAreTold, OnlyLimitsAreToldOfGroups, OnlyLimitsAreToldOfLines, OwnLinesStand, PublishLinesAreKnown};
ghost use Rattle.completeness.specs.Laws.{StepLinesAreKnown, StoreLinesAreKnown, VectorsFit, WholePlansAreShared};

/// Of a schedule under which each stored function is a root function that is computed at no loop, and no inner loop of a split is
/// parallel or split again, the plan that `lower` makes has the algorithm's head and its shares: each cell is one piece's own, what a piece fetches are cells
/// that the pieces it needs own, these are pieces and come before it, and the output's group has each point of the output.
pub fn whole_plans_are_shared()
    ensures { WholePlansAreShared }
{}

/// Where that is so of a plan, what is told of the pieces' shares is a limit (K14), and neither K9, K10 nor K11.
pub fn only_limits_are_told()
    ensures { OnlyLimitsAreTold }
{}

/// What is told of the certificate's lines by themselves is a limit, too (K3, K14): what they name is known and in scope (no K2), each group has its own region
/// (no K10), and there are no windows (no K8).
pub fn only_limits_are_told_of_lines()
    ensures { OnlyLimitsAreToldOfLines }
{}

/// Nor is a fault told of its head (K1).
pub fn heads_do_not_fail()
    ensures { HeadsDoNotFail }
{}

/// Of whatever schedule a plan is made, each of its groups has a line of what its pieces own: the certificate lacks none (K10 at the line `cert`).
pub fn own_lines_stand()
    ensures { OwnLinesStand }
{}

/// Of a schedule under which each stored function is a root function that is computed at no loop, no line of the plan that `lower` makes stores something
/// else than the algorithm's definition with the calls of unstored functions put in (no K12), where no name of the algorithm reads as a load.
pub fn definitions_are_stored()
    ensures { DefinitionsAreStored }
{}

/// Nor does a line `group` of such a plan name what is unknown (no K2): each is of a function of its own, with a span of numbers for each of its variables.
pub fn group_lines_are_known()
    ensures { GroupLinesAreKnown }
{}

/// Nor does a line `for`, `let`, `first` or `guard` inside a group of such a plan (no K2): what it binds is not in scope, and what its forms name is.
pub fn step_lines_are_known()
    ensures { StepLinesAreKnown }
{}

/// Nor does a line `fetch` (no K2): its buffer is in scope and of the function of the group that it fetches of, which is one of the plan, and its region has
/// a span for each variable of that function, over symbols of the grid.
pub fn fetch_lines_are_known()
    ensures { FetchLinesAreKnown }
{}

/// Nor does a line `alloc` (no K2): its function is known, and it has places for each variable of that, from origins that are told by symbols in scope.
pub fn alloc_lines_are_known()
    ensures { AllocLinesAreKnown }
{}

/// Nor does a line `publish` (no K2), where no line of the plan is past the greatest number by which one is told: its claim is known, stands at a line of the
/// group, and is of the group's function.
pub fn publish_lines_are_known()
    ensures { PublishLinesAreKnown }
{}

/// Nor does a line `store` (no K2), where besides no name of the algorithm reads as a load: its buffer is in scope, and has places for each variable of its
/// function; the definition is known, and each of its variables has a coordinate, by a form over symbols in scope or an index; and its expressions have those
/// variables alone, and call the input, or load by a claim that stands in the group, with as many indices as that takes.
pub fn store_lines_are_known()
    ensures { StoreLinesAreKnown }
{}

/// So no line of a group names what is unknown or out of scope, and none binds what is in scope: K2 is told of none of them, where no name of the algorithm
/// reads as a load, and no line of the plan is past the greatest number by which one is told.
pub fn groups_name_known()
    ensures { GroupsNameKnown }
{}

/// Of a schedule under which each stored function is a root function that is computed at no loop, and no loop that a split makes is split again, no loop of
/// the plan that `lower` makes is marked as a vector and is none (no K13): each such loop stands around its store alone, or around one guard around that,
/// which its lanes pass in order, and no reduction variable goes by it.
pub fn vectors_fit()
    ensures { VectorsFit }
{}

/// Of a schedule under which each stored function is a root function that is computed at no loop, no form of a line `group` of the plan that `lower` makes is
/// out of the limits of forms (no K3).
pub fn group_forms_are_within()
    ensures { GroupFormsAreWithin }
{}

/// Nor is a form of a line `for`, `let`, `first`, `guard` or `store` inside a group (no K3).
pub fn nest_forms_are_within()
    ensures { NestFormsAreWithin }
{}

/// Nor is a form of a line `fetch` (no K3).
pub fn fetch_forms_are_within()
    ensures { FetchFormsAreWithin }
{}

/// Nor is the origin of a line `alloc` (no K3).
pub fn alloc_forms_are_within()
    ensures { AllocFormsAreWithin }
{}

/// So no form of a line of a group of such a plan is, neither of its line `group` nor of one inside (no K3).
pub fn forms_are_within()
    ensures { FormsAreWithin }
{}

/// So of the lines of groups of such a plan what the checker tells first is a limit of numbers (K14), neither K2, K3, K12 nor K13, where no name of the
/// algorithm reads as a load, no line is past the greatest number by which one is told, and no loop that a split makes is split again.
pub fn only_limits_are_told_of_groups()
    ensures { OnlyLimitsAreToldOfGroups }
{}
