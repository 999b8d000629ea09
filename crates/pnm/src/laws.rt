//! Laws of image files, each the contract of a function that does nothing.

ghost use Rattle.pnm.specs.Laws.{FilesAreRead, ReadFilesAreFiles, TextsAreFiles, WrittenIsRead};

/// Each file of the grammar, raw or plain, is read as its image, and what is read as an image is a file of it.
pub fn files_are_read()
    ensures read { FilesAreRead }
    ensures file { ReadFilesAreFiles }
{}

/// What is written of an image is a file of it, and is read as that image.
pub fn written_is_read()
    ensures file { TextsAreFiles }
    ensures read { WrittenIsRead }
{}
