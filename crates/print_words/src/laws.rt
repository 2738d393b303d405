//! Laws of printed protocols, as contracts of calls that do nothing.

ghost use Rattle.print_words.specs.ReadBack.{WordsStandApart, WordsAreRead, NothingElseIsRead};

/// The lexer reads the text of a protocol as its words.
pub fn printed_words_are_read()
    ensures apart { WordsStandApart }
    ensures read { WordsAreRead }
    ensures alone { NothingElseIsRead }
{}
