//! Laws of what plans name and store.

ghost use Rattle.completeness.specs.Said.{NamesAreNoLoads, PlansAreSaid};
ghost use Rattle.completeness.specs.SaidLines.{PlansFitByNumbers};
ghost use Rattle.completeness.specs.SaidCertificates.{CertificatesFitByNumbers};
ghost use Rattle.completeness.specs.SaidFiles.{FilesFit};
ghost use Rattle.completeness.specs.OfPlans.{FilesAreOfPlans, StoresAreSmall};

/// Where the names of an algorithm are those of a text, as they are of one that was read, none of them reads as a load by a claim.
pub fn names_are_no_loads()
    ensures { NamesAreNoLoads }
{}

/// Of an algorithm whose names and expressions are those of a text, and of a schedule under which each stored function is a root function that is computed at
/// no loop: all that the plan that `lower` makes names is a name of a text, and each expression that it stores has literals from 0 on that are in their
/// types, such names, loads by its claims, an index at least in each call, and at most 256 levels.
pub fn plans_are_said()
    ensures { PlansAreSaid }
{}

/// A plan of the shape that `fitting` tells, whose names and expressions a text can say, fits its text, where the numbers in its lines do.
pub fn plans_fit_by_numbers()
    ensures { PlansFitByNumbers }
{}

/// Of an algorithm whose names are those of a text, and of a schedule under which each stored function is a root function that is computed at no loop: the
/// certificate that `lower` makes fits its text, where the numbers in its lines do: its lines stand in order, and the functions of its claims have names.
pub fn certificates_fit_by_numbers()
    ensures { CertificatesFitByNumbers }
{}

/// Where a plan and a certificate fit their texts, and the lines are within the limits of files, the plan's lines with the certificate's behind them are a plan
/// file, and it is read as these two.
pub fn files_fit()
    ensures { FilesFit }
{}

/// Of an algorithm whose names and expressions are those of a text, and of a schedule under which each stored function is a root function that is computed at
/// no loop, whose loops are split once at most, no inner one parallel, by whatever tails and in whatever order: the lines of the plan that `lower` makes,
/// with its certificate's behind them, are a plan file of these two and of no other plan. Where none of them has more than 65,536 bytes, they are read as
/// these two; else the text is refused as past that limit; and it is never refused for its form. None has more where the expressions of each store have at
/// most 3,500 nodes together.
pub fn files_are_of_plans()
    ensures { FilesAreOfPlans }
{}

/// Of a schedule under which each stored function is a root function that is computed at no loop, whatever the loops: where the expressions of each
/// definition of a stored function, with the calls of functions that are not stored put in, have at most 3,500 nodes together, its left indices and its
/// value, so have those of each store of the plan that `lower` makes; then `files_are_of_plans` says that no line is too long for files.
pub fn stores_are_small()
    ensures { StoresAreSmall }
{}
