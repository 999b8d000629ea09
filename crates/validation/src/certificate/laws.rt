//! What the answer that there is no flaw means, and where lines lie.

ghost use Rattle.std.specs.Prelude.{◌≡◌, ◌+◌, ◌<◌, ℕ, [], None, Some, slice_get};
ghost use Rattle.meaning.specs.Algorithm.{Algorithm};
ghost use Rattle.plan.specs.Lines.{group_line, group_lines};
ghost use Rattle.plan.specs.Plan.{Group, Plan};
ghost use Rattle.plan.specs.Certificate.Certificate.{Certificate};
ghost use Rattle.soundness.specs.Outline.Flaws.{first_of};
ghost use Rattle.validation.specs.Certificate.Certificate.{flaws_of_certificate, flaws_of_regions};
ghost use Rattle.validation.specs.Certificate.Clear.{HasRegions, IsClear};
ghost use Rattle.validation.specs.Certificate.Laws.{LimitsAreTold, UnknownNamesAreTold, WideFormsAreTold};
ghost use Rattle.validation.specs.Certificate.Placing.{group_spot_at, place_at, place_with};

/// Where a certificate's lines have no flaw, each group has one own region, own and needed regions are regions of their
/// groups, and claims and windows are of what is known.
pub fn no_flaw_is_clear()
    ensures { (a : Algorithm) (p : Plan) (c : Certificate) → None ≡ first_of (flaws_of_certificate a p c) → IsClear a p c }
{}

/// Where the lines of own and needed regions have no flaw, and no group lacks an own region, these are regions of their
/// groups, whatever the claims behind them.
pub fn no_region_flaw_is_shared()
    ensures { (p : Plan) (c : Certificate) → flaws_of_regions p c ≡ [] → HasRegions p c }
{}

/// A statement that ends at a line so many lines behind a group's line `group`, and before the next group, is one of that
/// group.
pub fn lines_lie_in_their_groups()
    ensures { (p : Plan) (n k : ℕ) (g : Group) → slice_get p.groups n ≡ Some g → k < group_lines g → place_at p.groups (group_line p n + k) ≡ place_with g (group_spot_at g k) }
{}

/// Where the first flaw of a certificate's lines is K2, its line names what is unknown or out of scope; and where a line does, K2 is
/// told there, or a flaw at an earlier line.
pub fn unknown_names_are_told()
    ensures { UnknownNamesAreTold }
{}

/// Where the first flaw of a certificate's lines is K3, a form of its line is out of the limits of linear forms; and where that is
/// so at a line, a flaw is told there or at an earlier line, and at that line K3 or a lower code.
pub fn wide_forms_are_told()
    ensures { WideFormsAreTold }
{}

/// Where the first flaw of a certificate's lines is K14, its line passes a limit; and where a line does, a flaw is told there or at
/// an earlier line.
pub fn limits_are_told()
    ensures { LimitsAreTold }
{}
