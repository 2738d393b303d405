//! Laws of printed protocols, as contracts of calls that do nothing.

ghost use Rattle.print_reads.specs.ReadsBack.{TreeIsRead, TextIsRead, NothingElseIsRead, EachStageReadsBack};

use cub_types::one_protocol;
use print_formulas::printed_bodies_are_read;
use print_laws::printed_words_are_a_sentence;
use print_names::printed_declarations_are_read;
use print_transitions::printed_guards_are_read;
use print_updates::printed_transitions_are_read;
use print_words::printed_words_are_read;

/// The text of a protocol of normal form reads as this protocol, and as nothing else. This stands on the laws of its parts.
pub fn printed_text_reads_as_its_protocol()
    ensures tree { TreeIsRead }
    ensures text { TextIsRead }
    ensures alone { NothingElseIsRead }
    ensures stages { EachStageReadsBack }
{
    printed_words_are_read();
    printed_words_are_a_sentence();
    printed_declarations_are_read();
    printed_bodies_are_read();
    printed_guards_are_read();
    printed_transitions_are_read();
    one_protocol();
}
