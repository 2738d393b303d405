//! Laws of consistency, entailment and chosen states, each the contract of a call that does nothing.
//!
//! A conjunction falls into three parts without common terms. What makes it consistent is that solutions of the parts can
//! be put together: the values stand in one state, whose processes with the numbers of the places stand at the places,
//! and which has as many further processes as the process globals name. This is the combination of disjoint theories of
//! Nelson and Oppen, made simple since no term has two sorts.

ghost use Rattle.std.specs.Prelude.{◌≡◌, ◌↔◌, ℕ, List, [], ◌∷◌, ◌++◌, true, IsTrue};
ghost use Rattle.cub_proto.specs.declared.literal.Lit.{Lit};
ghost use Rattle.cub_proto.specs.declared.protocol.Protocol.{Protocol};
ghost use Rattle.cub_proto.specs.Configuration.{Configuration};
ghost use Rattle.cub_proto.specs.StateOf.{signature_of};
ghost use Rattle.cub_proto.specs.Legal.{IsStart};
ghost use Rattle.cub_proto.specs.Meets.{Satisfies, Meets};
ghost use Rattle.cub_proto.specs.Negation.{negated};
ghost use Rattle.cub_proto.specs.Fits.{literal_fits};
ghost use Rattle.cub_cube.specs.Meaning.{IsConsistent};
ghost use Rattle.theory_laws.specs.Fitting.{AreFitting};
ghost use Rattle.theory_laws.specs.Built.{Values, built, own_places};
ghost use Rattle.theory_laws.specs.Solved.{AreValues, Solve, PartsHaveSolutions, Fulfils};
ghost use Rattle.theory_laws.specs.Entailed.{Entails};
ghost use Rattle.theory_laws.specs.Chosen.{IsChosenState};
ghost use Rattle.cub_cube.specs.Starts.{MeetsStart};
ghost use Rattle.theory_laws.specs.Start.{has_start, start_width, with_start_literals, IsConsistentWithStart};

/// Values that solve the three parts make a state of the protocol that satisfies the conjunction, with all processes
/// alive and the first ones at the places.
pub fn solutions_make_a_state()
    ensures { (p : Protocol) (width n : ℕ) (lits : List Lit) (v : Values) → AreFitting p width lits → AreValues p width n v
        → Solve p width lits v → Fulfils p width lits (built p width n v) }
{}

/// Some state of the protocol meets a conjunction exactly where each of its three parts has a solution.
pub fn consistent_where_parts_are_solved()
    ensures { (p : Protocol) (width : ℕ) (lits : List Lit) → AreFitting p width lits
        → IsConsistent p width lits ↔ PartsHaveSolutions p width lits }
{}

/// A literal is entailed exactly where its negation can't be added.
pub fn entailed_where_negation_fails()
    ensures { (p : Protocol) (width : ℕ) (lits : List Lit) (lit : Lit) → IsTrue (literal_fits (signature_of p) width lit)
        → Entails p width lits lit ↔ (IsConsistent p width (lits ++ negated (signature_of p) lit ∷ []) → ⊥) }
{}

/// The chosen state is one of the protocol, all its processes are alive, and the first ones satisfy the conjunction.
pub fn chosen_states_satisfy()
    ensures { (p : Protocol) (width : ℕ) (lits : List Lit) (s : Configuration) → AreFitting p width lits
        → IsChosenState p width lits s → Fulfils p width lits s }
{}

/// What fits a width fits it together with the start literals at its places.
pub fn start_literals_fit()
    ensures { (p : Protocol) (width : ℕ) (lits : List Lit) → AreFitting p width lits
        → AreFitting p (start_width width) (with_start_literals p width lits) }
{}

/// Some start state meets a conjunction exactly where the start formula has a conjunction whose literals at the places
/// are consistent with it.
pub fn start_states_meet()
    ensures { (p : Protocol) (width : ℕ) (lits : List Lit) → AreFitting p width lits
        → MeetsStart p width lits ↔ IsConsistentWithStart p width lits }
{}

/// The chosen state of a conjunction with the start literals is a start state that meets it, also at the processes
/// beyond the places.
pub fn chosen_start_states_start()
    ensures { (p : Protocol) (width : ℕ) (lits : List Lit) (s : Configuration) → AreFitting p width lits
        → has_start p.start ≡ true → IsChosenState p (start_width width) (with_start_literals p width lits) s
        → IsStart p s × Meets s width lits × Satisfies s (own_places (start_width width)) (start_width width) lits }
{}
