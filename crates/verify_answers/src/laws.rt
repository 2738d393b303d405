//! A law, as the contract of a call that does nothing.

ghost use Rattle.std.specs.Prelude.{◌≡◌, ℕ, List};
ghost use Rattle.cub_proto.specs.declared.protocol.Protocol.{Protocol};
ghost use Rattle.verify_answers.specs.Verified.{AnswersCertificate};

/// For a protocol, bytes have one answer at most.
pub fn one_certificate_answer()
    ensures { (p : Protocol) (bytes : List ℕ) (status other : ℕ) (text another : List ℕ) → AnswersCertificate p bytes status text
        → AnswersCertificate p bytes other another → (status ≡ other) × (text ≡ another) }
{}
