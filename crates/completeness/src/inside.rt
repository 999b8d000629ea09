//! Laws of the plans that `lower` makes of whatever schedule: functions may be computed inside loops, whatever is split, and have updates.

ghost use Rattle.completeness.specs.Inside.{AllDefinitionsAreStored, AllGroupLinesAreKnown, BindingLinesAreKnown, ChoiceLinesAreKnown, HeadsStand, LastLinesAreKnown};

/// Of whatever schedule a plan is made, its head is the algorithm's (no K1): its name, its input and its output are, and some group is of the output's function.
pub fn heads_stand()
    ensures { HeadsStand }
{}

/// Nor does a line of it store something else than the algorithm's definition with the calls of unstored functions put in (no K12), in a group's own nests and
/// in those of functions that are computed inside its loops, sliding ones as well: where each function that the schedule stores is stored in the plan, by a
/// group or a line `alloc`, no name of the algorithm reads as a load, and there are fewer than 2^64 claims.
pub fn definitions_are_stored()
    ensures { AllDefinitionsAreStored }
{}

/// Nor does a line `for`, `let` or `guard` of it bind a symbol that is in scope, or name one that is not (no K2), inside a group, in the nests of functions that
/// are computed inside loops and in both parts of a choice as well: unless it binds a symbol that its own forms name.
pub fn binding_lines_are_known()
    ensures { BindingLinesAreKnown }
{}

/// Nor does a line `publish` of it name what is unknown (no K2), where no line of the plan is past the greatest number by which one is told: its claim is known,
/// stands at a line of the group, and is of the group's function.
pub fn publish_lines_are_known()
    ensures { LastLinesAreKnown }
{}

/// Nor does a line `first` of it (no K2): its symbol is that of a loop around it, the one along which the function slides whose lines it chooses.
pub fn choice_lines_are_known()
    ensures { ChoiceLinesAreKnown }
{}

/// Nor does a line `group` of it (no K2): each is of a function of its own, with a span of numbers for each of that's variables.
pub fn group_lines_are_known()
    ensures { AllGroupLinesAreKnown }
{}
