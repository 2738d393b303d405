//! Laws of steps and crashes on which pre-images rest, as contracts of calls that do nothing.

ghost use Rattle.std.specs.Prelude.{◌≡◌, ℕ, Bool, All, Option, List, ◌↔◌, IsTrue};
ghost use Rattle.std.specs.List.{list_all};
ghost use Rattle.cub_proto.specs.declared.literal.Lit.{Lit};
ghost use Rattle.cub_proto.specs.declared.literal.Term.{Term};
ghost use Rattle.cub_proto.specs.declared.transition.Update.{Update};
ghost use Rattle.cub_proto.specs.declared.state.Slot.{Slot};
ghost use Rattle.cub_proto.specs.declared.state.Val.{Val};
ghost use Rattle.cub_proto.specs.declared.protocol.Protocol.{Protocol};
ghost use Rattle.cub_proto.specs.Configuration.{Configuration, process_count, IsAlive};
ghost use Rattle.cub_proto.specs.Truth.{all_true, term_value, HasTerm};
ghost use Rattle.cub_proto.specs.Effect.{fired};
ghost use Rattle.cub_proto.specs.Legal.{AreDistinctAlive, AreLegal, after_all};
ghost use Rattle.cub_proto.specs.Meets.{Satisfies};
ghost use Rattle.cub_cube.specs.Rename.{is_within, Agree};
ghost use Rattle.cub_cube.specs.Step.{value_after};
ghost use Rattle.cub_cube.specs.Crashes.{crashes, spare, IsCrashed};

/// After a step a term at alive processes has the value of its update, read in the state before.
pub fn fired_updates_terms()
    ensures { (s : Configuration) (params : List ℕ) (updates : List Update) (pick : Slot → Option Val) (places : List ℕ) (t : Term)
        → HasTerm s places t → AreDistinctAlive s places
        → term_value (fired s params updates pick) places t ≡ value_after s params updates pick places t }
{}

/// Places that agree below the width make a conjunction of that width true alike.
pub fn agreeing_places_are_alike()
    ensures { (s : Configuration) (width : ℕ) (places others : List ℕ) (lits : List Lit) → IsTrue (list_all (is_within width) lits)
        → Agree width places others → all_true s places lits ≡ all_true s others lits }
{}

/// Crashes change no value: after the crashes of any processes the state is the same but for who is alive, and who
/// satisfies a conjunction then did so before.
pub fn crashes_change_no_value()
    ensures crashed { (p : Protocol) (s : Configuration) (processes : List ℕ) → IsCrashed s (after_all p s (crashes processes)) }
    ensures before { (s after : Configuration) (places : List ℕ) (width : ℕ) (lits : List Lit) → IsCrashed s after
        → Satisfies after places width lits → Satisfies s places width lits }
    ensures behind { (s after : Configuration) (places : List ℕ) (width : ℕ) (lits : List Lit) → IsCrashed s after → All (IsAlive after) places
        → Satisfies s places width lits → Satisfies after places width lits }
{}

/// All processes but those that are kept can crash, one after another; those that are kept stay alive.
pub fn all_others_can_crash()
    ensures legal { (p : Protocol) (s : Configuration) (keep : ℕ → Bool) → AreLegal p s (crashes (spare keep s (process_count s))) }
    ensures left { (p : Protocol) (s : Configuration) (keep : ℕ → Bool) (i : ℕ)
        → IsAlive (after_all p s (crashes (spare keep s (process_count s)))) i ↔ (IsAlive s i × IsTrue (keep i)) }
{}
