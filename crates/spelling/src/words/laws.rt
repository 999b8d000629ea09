//! Laws of the spellings, each the contract of a function that does nothing.

ghost use Rattle.std.specs.Prelude.{true};
ghost use Rattle.tree.specs.Token.Spelling.{is_digit, is_word_byte, type_text};
ghost use Rattle.spelling.specs.Words.Spelling as spelling;
ghost use Rattle.spelling.specs.Words.Fitting as fitting;
ghost use Rattle.spelling.specs.Words.Reading as reading;
ghost use Rattle.spelling.specs.Words.Laws.{ReadsAgain, IsFeedless};

/// The text of a value that fits is read as that value, before a byte that does not go on with it.
pub fn texts_are_read_again()
    ensures counts { ReadsAgain fitting.fits_count is_digit spelling.count_text reading.count_from }
    ensures numbers { ReadsAgain fitting.fits_number is_digit spelling.number_text reading.number_from }
    ensures symbols { ReadsAgain fitting.fits_symbol is_digit spelling.symbol_text reading.symbol_from }
    ensures forms { ReadsAgain fitting.fits_form reading.is_form_byte spelling.form_text reading.form_from }
    ensures lists_of_forms { ReadsAgain fitting.fits_forms reading.is_forms_byte spelling.forms_text reading.forms_from }
    ensures spans { ReadsAgain fitting.fits_span reading.is_forms_byte spelling.span_text reading.span_from }
    ensures regions { ReadsAgain fitting.fits_region reading.no_byte spelling.region_text reading.region_from }
    ensures names { ReadsAgain fitting.is_name is_word_byte (λ name. name) reading.name_from }
    ensures types { ReadsAgain (λ ty. true) is_word_byte type_text reading.type_from }
{}

/// The text of a value that fits has no line feed.
pub fn texts_have_no_line_feed()
    ensures counts { IsFeedless fitting.fits_count spelling.count_text }
    ensures numbers { IsFeedless fitting.fits_number spelling.number_text }
    ensures symbols { IsFeedless fitting.fits_symbol spelling.symbol_text }
    ensures forms { IsFeedless fitting.fits_form spelling.form_text }
    ensures lists_of_forms { IsFeedless fitting.fits_forms spelling.forms_text }
    ensures spans { IsFeedless fitting.fits_span spelling.span_text }
    ensures regions { IsFeedless fitting.fits_region spelling.region_text }
    ensures names { IsFeedless fitting.is_name (λ name. name) }
    ensures types { IsFeedless (λ ty. true) type_text }
{}
