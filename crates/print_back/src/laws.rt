//! Laws of protocols that texts read as and that are printed, as contracts of calls that do nothing.

ghost use Rattle.print_back.specs.ReadBack.{TextsAreNormal, PrintedTextReads, NothingElseReads, OneTextEach};

use print_premises::premises_are_met;
use print_reads::printed_text_reads_as_its_protocol;
use update_premises::update_premises_are_met;

/// The printed text of each protocol that some text reads as reads as this protocol, and as nothing else; so two of them with
/// one printed text are one protocol. This stands on the laws of reading what was printed, and on those of what texts read as.
pub fn printed_text_is_read_back()
    ensures normal { TextsAreNormal }
    ensures reads { PrintedTextReads }
    ensures alone { NothingElseReads }
    ensures one { OneTextEach }
{
    printed_text_reads_as_its_protocol();
    premises_are_met();
    update_premises_are_met();
}
