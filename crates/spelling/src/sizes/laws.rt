//! Laws of the spellings of sizes, each the contract of a function that does nothing.

ghost use Rattle.tree.specs.Token.Spelling.{is_digit};
ghost use Rattle.spelling.specs.Words.Laws.{ReadsAgain, IsFeedless};
ghost use Rattle.spelling.specs.Words.Reading.{no_byte};
ghost use Rattle.spelling.specs.Words.Spelling as spelling;
ghost use Rattle.spelling.specs.Sizes.Sizes as spec;

/// The text of a size that fits is read as that size, before a byte that is no digit.
pub fn sizes_are_read_again()
    ensures sizes { ReadsAgain spec.fits_size is_digit spelling.count_text spec.size_from }
    ensures lists_of_sizes { ReadsAgain spec.fits_sizes no_byte spelling.counts_text spec.sizes_from }
{}

/// The text of a size that fits has no line feed.
pub fn sizes_have_no_line_feed()
    ensures sizes { IsFeedless spec.fits_size spelling.count_text }
    ensures lists_of_sizes { IsFeedless spec.fits_sizes spelling.counts_text }
{}
