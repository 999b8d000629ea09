//! What follows where the lines of a plan's groups have no flaw.

ghost use Rattle.validation.specs.Groups.Laws.{BodiesAreCovered, GroupsArePublished, LimitsAreTold, OtherDefinitionsAreTold, StoresAreDefinitions, StoresAreFree, UnknownNamesAreTold, WideFormsAreTold};

/// Each group's region has ends, its last line publishes its own cells by a claim of its function, and no other line
/// publishes.
pub fn groups_are_published()
    ensures { GroupsArePublished }
{}

/// Each store of a pure definition has a form for each coordinate, and no reduction variable.
pub fn bodies_are_covered()
    ensures { BodiesAreCovered }
{}

/// Each store is of a definition of the algorithm: with each load read as a call of its claim's function, it is the
/// definition with the calls of unstored functions put in.
pub fn stores_are_definitions()
    ensures { StoresAreDefinitions }
{}

/// No definition that a line stores comes to a function that has updates and is not stored.
pub fn stores_are_free()
    ensures { StoresAreFree }
{}

/// Where the first flaw of the lines of groups is K12, something else than the definition is stored at its line; and where that
/// is so at a line, a flaw is told there or at an earlier line, and at that line K12 or a lower code.
pub fn other_definitions_are_told()
    ensures { OtherDefinitionsAreTold }
{}

/// Where the first flaw of the lines of groups is K3, a form of its line is out of the limits of linear forms; and where that is
/// so at a line, a flaw is told there or at an earlier line, and at that line K3 or a lower code.
pub fn wide_forms_are_told()
    ensures { WideFormsAreTold }
{}

/// Where the first flaw of the lines of groups is K14, its line passes a limit; and where a line does, a flaw is told there or at
/// an earlier line.
pub fn limits_are_told()
    ensures { LimitsAreTold }
{}

/// Where the first flaw of the lines of groups is K2, its line names what is unknown or out of scope; and where a line does, K2 is
/// told there, or a flaw at an earlier line.
pub fn unknown_names_are_told()
    ensures { UnknownNamesAreTold }
{}
