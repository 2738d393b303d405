//! Laws of the text of the sample protocol, as contracts of calls that do nothing.

ghost use Rattle.sample_text.specs.ReadBack.{SamplesAreNormal, SampleTextReads, NothingElseReads};

use print_reads::printed_text_reads_as_its_protocol;

/// The sample protocol is of normal form, whatever its number of levels; so its printed text reads as it, and as nothing else.
/// This stands on the laws of reading what was printed.
pub fn sample_is_what_its_text_reads_as()
    ensures normal { SamplesAreNormal }
    ensures reads { SampleTextReads }
    ensures alone { NothingElseReads }
{
    printed_text_reads_as_its_protocol();
}
