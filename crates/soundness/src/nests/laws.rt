//! What is proved of the tests of nests.

ghost use Rattle.soundness.specs.Nests.Laws.{DomainsAreCounted, PlainNestsAreRight};
ghost use Rattle.soundness.specs.Nests.Plain.{FormsAreAtMostThemselves, PlainNestsAreAccepted};

/// A nest that the tests say yes to makes its claim, or does the steps of its update in their order,
/// whatever the symbols around it stand for.
pub fn plain_nests_are_right()
    ensures { PlainNestsAreRight }
{}

/// The updates of a well-formed algorithm count a step for each point of their reduction domains, in
/// the domains' order.
pub fn domains_are_counted()
    ensures { DomainsAreCounted }
{}

/// The tests say yes to nests and fetches in plain form: each index is the symbol of one loop and each
/// loop that of one index, the claim's region is the loops' spans or the fetched region, and an
/// update's loops are the pure ones round those of its reduction, over the whole domain in its order.
pub fn plain_nests_are_accepted()
    ensures { PlainNestsAreAccepted }
{}

/// A form within the limits of forms is shown to be at most itself, whatever the scope.
pub fn forms_are_at_most_themselves()
    ensures { FormsAreAtMostThemselves }
{}
