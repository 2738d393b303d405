//! Laws of steps, as contracts of calls that do nothing.

ghost use Rattle.std.specs.Prelude.{◌≡◌, ◌∷◌, [], ℕ, List, Some, slice_get, IsTrue, Contains};
ghost use Rattle.std.specs.List.{list_all};
ghost use Rattle.cub_proto.specs.declared.transition.Transition.{Transition};
ghost use Rattle.cub_proto.specs.declared.protocol.Protocol.{Protocol};
ghost use Rattle.cub_proto.specs.StateOf.{signature_of};
ghost use Rattle.cub_proto.specs.Fits.{literal_fits};
ghost use Rattle.cub_cube.specs.declared.cube.Cube.{Cube};
ghost use Rattle.cub_cube.specs.Mentions.{terms_in};
ghost use Rattle.cub_cube.specs.Meaning.{IsConsistent};
ghost use Rattle.cub_cube.specs.Kept.{Keeps};
ghost use Rattle.piece_choices.specs.Pieces.{candidates_by, IsPossible};
ghost use Rattle.piece_steps.specs.Steps.{Draft, Step, extend, run, steps_of, first_draft, by_steps};
ghost use Rattle.piece_steps.specs.DraftFits.{DraftFits};

/// The steps of a transition give for a cube what its selections give, in their order.
pub fn steps_give_candidates()
    ensures { (p : Protocol) (c : Cube) (number : ℕ) (t : Transition) → by_steps p c number t ≡ candidates_by p c number t }
{}

/// The first draft fits, and each step leads from drafts that fit to drafts that fit.
pub fn drafts_fit()
    ensures first { (p : Protocol) (c : Cube) (t : Transition) → IsTrue (list_all (literal_fits (signature_of p) c.width) c.lits)
        → DraftFits p c t (steps_of t c.width (terms_in c.lits)) (first_draft c.width (terms_in c.lits)) }
    ensures next { (p : Protocol) (c : Cube) (number : ℕ) (t : Transition) (step : Step) (steps : List Step) (d e : Draft) → slice_get p.transitions number ≡ Some t
        → DraftFits p c t (step ∷ steps) d → Contains (extend (signature_of p) t c.width step d) e → DraftFits p c t steps e }
{}

/// Nothing is kept behind a draft that fits and that no state meets.
pub fn nothing_is_kept_behind()
    ensures { (p : Protocol) (c : Cube) (number : ℕ) (t : Transition) (steps : List Step) (d : Draft) → slice_get p.transitions number ≡ Some t
        → DraftFits p c t steps d → (IsConsistent p d.width d.lits → ⊥) → Keeps (IsPossible p) (run (signature_of p) number t c.width c.lits steps d) [] }
{}
