//! Laws of the texts of certificates, each the contract of a function that does nothing.

ghost use Rattle.spelling.specs.Lines.Texts.{OneValue, NeverBad};
ghost use Rattle.cert.specs.File.File.{OneFile};
ghost use Rattle.cert.specs.Notation.{certificate_notation};

/// A text is that of one certificate at most, and no line of a certificate's text is refused.
pub fn texts_are_one()
    ensures one { OneValue certificate_notation }
    ensures never_bad { NeverBad certificate_notation }
{}

/// A text is the file of one plan with one certificate at most.
pub fn files_are_one()
    ensures { OneFile }
{}
