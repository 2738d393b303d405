//! What holds of all texts of certificates. Each function is a law: it does nothing, and its contract is proved.

ghost use Rattle.cub_proto.specs.declared.protocol.Protocol.{Protocol};
ghost use Rattle.cert_text.specs.Laws.{OneReading, ReadsItsText, ReadsBack, HasNoAcceptedFront};

/// A text has one reading: at most one certificate, and else one fault.
pub fn one_reading()
    ensures { (p : Protocol) → OneReading p }
{}

/// A text that reads as a certificate is the text of that certificate.
pub fn reads_its_text()
    ensures { (p : Protocol) → ReadsItsText p }
{}

/// What was written of a certificate that may be written is read back as that certificate.
pub fn reads_back()
    ensures { (p : Protocol) → ReadsBack p }
{}

/// No front of an accepted text is accepted.
pub fn has_no_accepted_front()
    ensures { (p : Protocol) → HasNoAcceptedFront p }
{}
