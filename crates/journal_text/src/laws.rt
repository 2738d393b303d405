//! What holds of all texts of journals. Each function is a law: it does nothing, and its contract is proved.

ghost use Rattle.cub_proto.specs.declared.protocol.Protocol.{Protocol};
ghost use Rattle.journal_text.specs.Laws.{OneReading, OneFault, ReadsItsText, ReadsBack, HasNoAcceptedFront};

use log_form::PreImages;

/// A text has one reading: at most one log, and else one place where it stops.
pub fn one_reading<M: PreImages>()
    ensures { (p : Protocol) → OneReading M.pieces p }
{}

/// A text has at most one fault.
pub fn one_fault<M: PreImages>()
    ensures { (p : Protocol) → OneFault M.pieces p }
{}

/// A text that reads as the journal of a log is the journal of that log, which is legal and has the verdict UNKNOWN.
pub fn reads_its_text<M: PreImages>()
    ensures { (p : Protocol) → ReadsItsText M.pieces p }
{}

/// What was written of a legal log with the verdict UNKNOWN is read back as that log.
pub fn reads_back<M: PreImages>()
    ensures { (p : Protocol) → ReadsBack M.pieces p }
{}

/// No front of an accepted text is accepted.
pub fn has_no_accepted_front<M: PreImages>()
    ensures { (p : Protocol) → HasNoAcceptedFront M.pieces p }
{}
