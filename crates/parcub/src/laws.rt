//! What holds of the answers to all words. The function is a law: it does nothing, and its contract is proved.

ghost use Rattle.parcub.specs.Laws.{OneAnswer};

/// Where the shelf tells the bytes of the files, words have one answer at most. So the words and the bytes determine the status
/// and the text of every run that lacks no memory and in which no count of faults rises.
pub fn one_answer()
    ensures { OneAnswer }
{}
