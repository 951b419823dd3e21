//! Laws about the definitions of the contracts. The functions do nothing; their contracts are proved.

ghost use Rattle.segment_lang.specs.Laws.{LongLinesAreCut, NumbersAreDecimals, PrintedKindsAreRead};
ghost use Rattle.segment_lang.specs.Laws.{PrintedNamesAreRead, PrintedTextsAreRead, TextsAreSpelled, WholesAreDecimals};
ghost use Rattle.segment_lang.specs.Laws.{TokensFollow, TokensFitLine};

/// States that a word has a number exactly if it is the number's decimal text, and the number is below 2 ^ 64.
pub fn numbers_are_decimals()
    ensures { NumbersAreDecimals }
{}

/// States that a word has a whole number exactly if it is the number's decimal text, from -9223372036854775808 to
/// 18446744073709551615.
pub fn wholes_are_decimals()
    ensures { WholesAreDecimals }
{}

/// States that a text is read exactly if items spell it, a quote closes it, and the word ends after the quote.
pub fn texts_are_spelled()
    ensures { TextsAreSpelled }
{}

/// States that a text that is printed is read as the bytes that it was printed for.
pub fn printed_texts_are_read()
    ensures { PrintedTextsAreRead }
{}

/// States that a kind of the language that is printed is read as the kind.
pub fn printed_kinds_are_read()
    ensures { PrintedKindsAreRead }
{}

/// States that a name that is printed is read as the key of the name.
pub fn printed_names_are_read()
    ensures { PrintedNamesAreRead }
{}

/// States that the words of a line are the words that repeated reading of the next word finds.
pub fn tokens_follow()
    ensures { TokensFollow }
{}

/// States that words stand for no more bytes than they are spelled by, one byte after each counted.
pub fn tokens_fit_line()
    ensures { TokensFitLine }
{}

/// States that the first 4098 bytes of a line that is too long show that it is: the other bytes can be dropped.
pub fn long_lines_are_cut()
    ensures { LongLinesAreCut }
{}
