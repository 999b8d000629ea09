//! Laws, each the contract of a function that does nothing.

ghost use Rattle.commands.specs.Pipeline.Images.{ReadImagesFit};

/// What is read as the file of an image has as many samples as its shape makes, each within the type.
pub(crate) fn read_images_fit()
    ensures { ReadImagesFit }
{}
