//! Laws, each the contract of a function that does nothing.

ghost use Rattle.printer.specs.Written.{TextsSayOne};

/// A text is read as one algorithm alone, so what is read from an algorithm's text is that algorithm.
pub fn texts_say_one()
    ensures { TextsSayOne }
{}
