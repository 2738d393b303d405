//! Laws of ways and of literals before a step, as contracts of calls that do nothing.

ghost use Rattle.std.specs.Prelude.{◌≡◌, ◌≤◌, ◌<◌, ◌↔◌, ℕ, List, Option, length, All, IsTrue, Contains};
ghost use Rattle.std.specs.List.{list_all};
ghost use Rattle.cub_proto.specs.declared.literal.Lit.{Lit};
ghost use Rattle.cub_proto.specs.declared.transition.Branch.{Branch};
ghost use Rattle.cub_proto.specs.declared.transition.Update.{Update};
ghost use Rattle.cub_proto.specs.declared.state.Slot.{Slot};
ghost use Rattle.cub_proto.specs.declared.state.Val.{Val};
ghost use Rattle.cub_proto.specs.declared.protocol.Protocol.{Protocol};
ghost use Rattle.cub_proto.specs.Configuration.{Configuration, process_count};
ghost use Rattle.cub_proto.specs.StateOf.{IsStateOf, signature_of};
ghost use Rattle.cub_proto.specs.Fits.{literal_fits, update_fits};
ghost use Rattle.cub_proto.specs.Truth.{is_true, all_true};
ghost use Rattle.cub_proto.specs.Effect.{counting, fired};
ghost use Rattle.cub_proto.specs.Legal.{AreDistinctAlive};
ghost use Rattle.cub_cube.specs.Rename.{along, Agree};
ghost use Rattle.cub_cube.specs.Mentions.{terms_of};
ghost use Rattle.updates.specs.declared.choice.Choice.{Choice};
ghost use Rattle.updates.specs.Ways.{Way, ways, way_lits, way_value};
ghost use Rattle.updates.specs.Allowed.{choice_fits};
ghost use Rattle.updates.specs.Through.{branch_lits, through_answer, PickAgrees, has_choice, answer_true};

/// At a state of the protocol, where the literals of a way are true its value is the one that counts, be it `?` or not;
/// and there is always a way whose literals are true.
pub fn ways_are_exact()
    ensures counts { (p : Protocol) (s : Configuration) (places : List ℕ) (u : Update) (w : Way) → IsStateOf p s → All (λ i. i < process_count s) places
        → IsTrue (list_all (λ b. list_all (literal_fits (signature_of p) (length places)) b.cond) u.branches) → Contains (ways u.branches) w
        → IsTrue (all_true s places (way_lits (signature_of p) u.branches w)) → counting s places u ≡ way_value u w.branch }
    ensures found { (p : Protocol) (s : Configuration) (places : List ℕ) (u : Update) → IsStateOf p s → All (λ i. i < process_count s) places
        → IsTrue (list_all (λ b. list_all (literal_fits (signature_of p) (length places)) b.cond) u.branches)
        → (w : Way) × Contains (ways u.branches) w × IsTrue (all_true s places (way_lits (signature_of p) u.branches w)) }
{}

/// What `through` answers is true before a step, exactly where the chosen ways are the ones that count and the literal is
/// true after the step. The parameters of the transition are the processes at the places `params`.
pub fn through_is_exact()
    ensures { (p : Protocol) (updates : List Update) (params : List ℕ) (s : Configuration) (places : List ℕ) (pick : Slot → Option Val) (choices : List Choice) (width : ℕ) (lit : Lit)
        → IsTrue (list_all (update_fits (signature_of p) (length params)) updates) → IsStateOf p s → AreDistinctAlive s places
        → All (λ q. q < length places) params → width ≤ length places → IsTrue (literal_fits (signature_of p) width lit)
        → IsTrue (list_all (choice_fits (signature_of p) (length places) updates params) choices) → IsTrue (list_all (has_choice choices) (terms_of lit))
        → ((c : Choice) → Contains choices c → PickAgrees s places updates params pick c) → (others : List ℕ) → Agree width others places
        → IsTrue (answer_true s places (through_answer (signature_of p) updates params choices lit))
        ↔ (IsTrue (all_true s places (branch_lits (signature_of p) updates params choices lit)) × IsTrue (is_true (fired s (along params places) updates pick) others lit)) }
{}
