//! What holds of all texts of traces. Each function is a law: it does nothing, and its contract is proved.

ghost use Rattle.cub_proto.specs.declared.protocol.Protocol.{Protocol};
ghost use Rattle.trace_text.specs.Laws.{OneReading, ReadsItsText, ReadsBack, HasNoAcceptedFront};

/// A text has one reading: at most one trace, and else one fault.
pub fn one_reading()
    ensures { (p : Protocol) → OneReading p }
{}

/// A text that reads as a trace is the text of that trace.
pub fn reads_its_text()
    ensures { (p : Protocol) → ReadsItsText p }
{}

/// What was written of a trace that may be replayed is read back as that trace.
pub fn reads_back()
    ensures { (p : Protocol) → ReadsBack p }
{}

/// No front of an accepted text is accepted.
pub fn has_no_accepted_front()
    ensures { (p : Protocol) → HasNoAcceptedFront p }
{}
