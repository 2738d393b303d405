//! Laws of normal forms, each the contract of a function that does nothing.

ghost use Rattle.std.specs.Prelude.{◌≡◌, ◌<◌, ℕ, Bool, true, false, not, List, length, All, IsTrue};
ghost use Rattle.cub_proto.specs.declared.literal.Lit.{Lit};
ghost use Rattle.cub_proto.specs.declared.protocol.Protocol.{Protocol};
ghost use Rattle.cub_proto.specs.Configuration.{Configuration, process_count};
ghost use Rattle.cub_proto.specs.Signature.{Signature};
ghost use Rattle.cub_proto.specs.Fits.{literal_fits, is_bounded, greatest_bound};
ghost use Rattle.cub_proto.specs.StateOf.{IsStateOf, signature_of};
ghost use Rattle.cub_proto.specs.Truth.{any_true};
ghost use Rattle.cub_dnf.specs.declared.formula.Formula.{Formula};
ghost use Rattle.cub_dnf.specs.Lists.{list_of};
ghost use Rattle.cub_dnf.specs.Fits.{fits, has_text_bounds};
ghost use Rattle.cub_dnf.specs.Meaning.{formula_is_true};

/// At each state of the protocol, the list of a formula is true where the formula is, and the list of its negation where
/// it is not.
pub fn normal_forms_keep_the_truth()
    ensures own { (p : Protocol) (s : Configuration) (places : List ℕ) (f : Formula) → IsStateOf p s → All (λ i. i < process_count s) places
        → IsTrue (fits (signature_of p) (length places) f)
        → any_true s places (list_of (signature_of p) true f) ≡ formula_is_true s places f }
    ensures opposite { (p : Protocol) (s : Configuration) (places : List ℕ) (f : Formula) → IsStateOf p s → All (λ i. i < process_count s) places
        → IsTrue (fits (signature_of p) (length places) f)
        → any_true s places (list_of (signature_of p) false f) ≡ not (formula_is_true s places f) }
{}

/// The literals of both lists are of the signature where those of the formula are, and have the bounds of a protocol
/// where the formula has those of a text.
pub fn normal_forms_fit()
    ensures literals { (sig : Signature) (width : ℕ) (holds : Bool) (f : Formula) → IsTrue (fits sig width f)
        → All (All (λ l. IsTrue (literal_fits sig width l))) (list_of sig holds f) }
    ensures bounds { (sig : Signature) (holds : Bool) (f : Formula) → IsTrue (has_text_bounds f)
        → All (All (λ l. IsTrue (is_bounded greatest_bound l))) (list_of sig holds f) }
{}
