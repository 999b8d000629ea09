//! What is proved of the rules by bounds.

ghost use Rattle.rules.specs.Bounding.Laws.{RulesAreSuited, RulesSaySame};

use soundness::nests::laws::forms_are_at_most_themselves;

/// What is shown by the rules is so: a form that is shown to be at most another is so for all values of the symbols that are
/// bound around a line, and an expression's value lies in its bounds, whatever the samples of the input are.
pub fn rules_are_suited()
    ensures { RulesAreSuited }
{}

/// A form within the limits of forms is shown to be at most itself.
pub fn rules_say_same()
    ensures { RulesSaySame }
{
    forms_are_at_most_themselves();
}
