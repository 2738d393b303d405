//! Laws of the meaning of protocols, each the contract of a function that does nothing.

ghost use Rattle.std.specs.Prelude.{◌≡◌, ◌<◌, ℕ, List, length, not, All, IsTrue};
ghost use Rattle.cub_proto.specs.declared.literal.Lit.{Lit};
ghost use Rattle.cub_proto.specs.declared.event.Event.{Event};
ghost use Rattle.cub_proto.specs.declared.protocol.Protocol.{Protocol};
ghost use Rattle.cub_proto.specs.Configuration.{Configuration, process_count};
ghost use Rattle.cub_proto.specs.Fits.{literal_fits};
ghost use Rattle.cub_proto.specs.Truth.{is_true};
ghost use Rattle.cub_proto.specs.StateOf.{IsStateOf, signature_of};
ghost use Rattle.cub_proto.specs.Negation.{negated};
ghost use Rattle.cub_proto.specs.Legal.{IsLegal, after};

/// A legal event leads from a state of the protocol to a state of it.
pub fn legal_events_keep_states()
    ensures { (p : Protocol) (s : Configuration) (event : Event) → IsStateOf p s → IsLegal p s event → IsStateOf p (after p s event) }
{}

/// At each state of the protocol, the negation of a literal is true where the literal is false.
pub fn negation_is_opposite()
    ensures { (p : Protocol) (s : Configuration) (places : List ℕ) (lit : Lit) → IsStateOf p s → All (λ i. i < process_count s) places
        → IsTrue (literal_fits (signature_of p) (length places) lit) → is_true s places (negated (signature_of p) lit) ≡ not (is_true s places lit) }
{}
