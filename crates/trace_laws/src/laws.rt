//! Laws of chains, as contracts of calls that do nothing.

ghost use Rattle.std.specs.Prelude.{ℕ, ◌+◌, ◌≤◌, List, All, length, Contains};
ghost use Rattle.cub_proto.specs.declared.event.Event.{Event};
ghost use Rattle.cub_proto.specs.declared.protocol.Protocol.{Protocol};
ghost use Rattle.cub_proto.specs.Configuration.{Configuration, process_count};
ghost use Rattle.cub_proto.specs.Legal.{IsStart};
ghost use Rattle.cub_proto.specs.StateOf.{IsStateOf};
ghost use Rattle.log_form.specs.Pieces.{IsFit, widest, greatest_expanded};
ghost use Rattle.replay.specs.FitsEvent.{FitsEvent};
ghost use Rattle.trace_judge.specs.Judge.{IsAccepted};
ghost use Rattle.trace_laws.specs.declared.chain.Link.{Link};
ghost use Rattle.trace_laws.specs.Blocked.{with_crashes};
ghost use Rattle.trace_laws.specs.Chain.{IsChain};
ghost use Rattle.trace_laws.specs.Along.{StepsAlong};
ghost use Rattle.trace_laws.specs.Leads.{SatisfyFirst, LeadsTo, first_blocked};

/// The cubes of a chain fit the protocol, with at most eleven places and bounds that may be asked about.
pub fn cubes_of_chains_fit()
    ensures { (p : Protocol) (chain : List Link) (link : Link) → IsChain p chain → Contains chain link → IsFit p widest greatest_expanded link.cube }
{}

/// From a state whose processes satisfy the first cube, the steps along the chain lead to its unsafe conjunction: each is
/// legal once the processes at which its universal guard is false have crashed.
pub fn chains_lead_to_goals()
    ensures { (p : Protocol) (s : Configuration) (chain : List Link) (processes : List ℕ) (steps : List Event) (goal : ℕ) (places : List ℕ) → IsChain p chain
        → IsStateOf p s → SatisfyFirst s chain processes → StepsAlong p s chain processes steps goal places → LeadsTo p s steps goal places }
{}

/// From a start state such steps are a trace that is accepted: before each the processes crash at which its universal guard
/// is then false, and the trace tells the first of these, if there is one. No process crashes twice.
pub fn steps_make_traces()
    ensures accepted { (p : Protocol) (s : Configuration) (steps : List Event) (goal : ℕ) (places : List ℕ) → IsStart p s → LeadsTo p s steps goal places
        → IsAccepted p s (with_crashes p s steps) goal places (first_blocked p s steps 0) }
    ensures few { (p : Protocol) (s : Configuration) (steps : List Event) (goal : ℕ) (places : List ℕ) → LeadsTo p s steps goal places
        → length (with_crashes p s steps) ≤ length steps + process_count s }
    ensures fit { (p : Protocol) (s : Configuration) (steps : List Event) (goal : ℕ) (places : List ℕ) → LeadsTo p s steps goal places
        → All (FitsEvent p (process_count s)) (with_crashes p s steps) }
{}
