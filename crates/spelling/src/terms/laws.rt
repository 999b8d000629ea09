//! Laws of the spelling, each the contract of a function that does nothing.

ghost use Rattle.spelling.specs.Terms.Laws.{TermIsReadAgain, TermIsPlain};
ghost use Rattle.spelling.specs.Terms.Worked.{PlusOne, ClampedLoad, Chosen, Misfits};

/// The text of an expression that fits is read as that expression, where no letter, digit, `_`, `@` or `[` follows it.
pub fn term_is_read_again()
    ensures { TermIsReadAgain }
{}

/// The text of an expression that fits is ASCII, with no blank and no line feed.
pub fn term_is_plain()
    ensures { TermIsPlain }
{}

/// Worked examples of the definitions.
pub fn worked_examples()
    ensures plus_one { PlusOne }
    ensures clamped_load { ClampedLoad }
    ensures chosen { Chosen }
    ensures misfits { Misfits }
{}
