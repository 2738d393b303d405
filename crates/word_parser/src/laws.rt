//! What the command line takes and finds.

ghost use Rattle.word_parser.specs.Found.{AcceptedWordsAreTaken, AcceptedWordsAreFound};

/// Words that ask for a command are taken by the command line.
pub fn accepted_words_are_taken()
    ensures { AcceptedWordsAreTaken }
{}

/// What the command line finds in them is that command.
pub fn accepted_words_are_found()
    ensures { AcceptedWordsAreFound }
{}
