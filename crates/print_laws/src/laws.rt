//! Laws of printed protocols, as contracts of calls that do nothing.

ghost use Rattle.print_laws.specs.Sentences.{WordsAreSentence, NoOtherTree, NoFaultAmong};

/// The words of a printed protocol are a sentence of the grammar, with the tree of the protocol and with no other. So the
/// parser answers this tree, want of memory aside.
pub fn printed_words_are_a_sentence()
    ensures sentence { WordsAreSentence }
    ensures alone { NoOtherTree }
    ensures lawful { NoFaultAmong }
{}
