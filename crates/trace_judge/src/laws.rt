//! What holds of the judgement of every trace. Each function is a law: it does nothing, and its contract is proved.

ghost use Rattle.cub_proto.specs.declared.protocol.Protocol.{Protocol};
ghost use Rattle.trace_judge.specs.Laws.{OneReason, NoReason};

/// A trace is refused for one reason at most.
pub fn one_reason()
    ensures { (p : Protocol) → OneReason p }
{}

/// An accepted trace has no reason to be refused.
pub fn no_reason()
    ensures { (p : Protocol) → NoReason p }
{}
