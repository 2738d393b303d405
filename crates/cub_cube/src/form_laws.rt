//! Laws of the normal form, of renaming, of replacement and of mentioned terms. Each is the contract of a call that does
//! nothing, and holds of all protocols, states and literals.

ghost use Rattle.std.specs.Prelude.{◌+◌, ◌*◌, ◌≡◌, ◌≤◌, ◌<◌, ℕ, All, List, length, ◌↔◌, IsTrue, Contains};
ghost use Rattle.std.specs.List.{list_all};
ghost use Rattle.cub_proto.specs.declared.literal.Lit.{Lit};
ghost use Rattle.cub_proto.specs.declared.literal.Term.{Term};
ghost use Rattle.cub_proto.specs.declared.literal.Value.{Value};
ghost use Rattle.cub_proto.specs.declared.state.Val.{Val};
ghost use Rattle.cub_proto.specs.declared.protocol.Protocol.{Protocol};
ghost use Rattle.cub_proto.specs.Configuration.{Configuration};
ghost use Rattle.cub_proto.specs.Signature.{Signature};
ghost use Rattle.cub_proto.specs.Fits.{literal_fits, is_bounded, greatest_constant};
ghost use Rattle.cub_proto.specs.Truth.{is_true, all_true};
ghost use Rattle.cub_proto.specs.Effect.{meaning_of};
ghost use Rattle.cub_proto.specs.StateOf.{IsStateOf, signature_of};
ghost use Rattle.cub_proto.specs.Legal.{AreDistinctAlive};
ghost use Rattle.cub_proto.specs.Meets.{Satisfies, Meets};
ghost use Rattle.cub_cube.specs.Normal.{normal_form, is_normal};
ghost use Rattle.cub_cube.specs.Rename.{renamed_all, renamed_value, along, is_within, value_within, IsInjection, Agree};
ghost use Rattle.cub_cube.specs.Meaning.{AreAtPlaces, SameMeaning};
ghost use Rattle.cub_cube.specs.Replace.{replaced, can_replace_all, TakesValues};
ghost use Rattle.cub_cube.specs.Mentions.{terms_in, terms_rise, Mentions};

/// The normal form of fitting literals has their meaning.
pub fn normal_form_keeps_meaning()
    ensures { (p : Protocol) (width : ℕ) (lits : List Lit) → IsTrue (list_all (literal_fits (signature_of p) width) lits)
        → SameMeaning p width (normal_form (signature_of p) lits) lits }
{}

/// The states of the protocol that meet one of two conjunctions of the same meaning meet the other.
pub fn same_meaning_is_met()
    ensures { (p : Protocol) (width : ℕ) (lits others : List Lit) → SameMeaning p width lits others → (s : Configuration) → IsStateOf p s
        → Meets s width lits ↔ Meets s width others }
{}

/// The normal form of fitting literals is one.
pub fn normal_form_is_normal()
    ensures { (sig : Signature) (width : ℕ) (lits : List Lit) → IsTrue (list_all (literal_fits sig width) lits)
        → IsTrue (is_normal sig (normal_form sig lits)) }
{}

/// A normal form is its own normal form, so each cube has one spelling.
pub fn normal_form_stays()
    ensures { (sig : Signature) (lits : List Lit) → IsTrue (is_normal sig lits) → normal_form sig lits ≡ lits }
{}

/// The literals of a normal form fit where the given ones do, and no bound grows.
pub fn normal_form_fits()
    ensures fits { (sig : Signature) (width : ℕ) (lits : List Lit) → IsTrue (list_all (literal_fits sig width) lits)
        → IsTrue (list_all (literal_fits sig width) (normal_form sig lits)) }
    ensures bounded { (sig : Signature) (limit : ℕ) (lits : List Lit) → IsTrue (list_all (is_bounded limit) lits)
        → IsTrue (list_all (is_bounded limit) (normal_form sig lits)) }
{}

/// A renamed conjunction is true at places exactly where the given one is at the composed places. Item p of a renaming
/// is the place of the big thing for place p of the small one.
pub fn renamed_is_at_composed_places()
    ensures { (s : Configuration) (r places : List ℕ) (lits : List Lit) → IsTrue (list_all (is_within (length r)) lits)
        → all_true s places (renamed_all r lits) ≡ all_true s (along r places) lits }
{}

/// A renamed value gives at places what the given one gives at the composed places.
pub fn renamed_value_is_at_composed_places()
    ensures { (s : Configuration) (r places : List ℕ) (v : Value) (old : Val) → IsTrue (value_within (length r) v)
        → meaning_of s places (renamed_value r v) old ≡ meaning_of s (along r places) v old }
{}

/// A renamed cube is satisfied exactly at the composed places.
pub fn renamed_cube_is_at_composed_places()
    ensures { (p : Protocol) (width : ℕ) (r : List ℕ) (lits : List Lit) → All (λ q. q < width) r
        → IsTrue (list_all (literal_fits (signature_of p) (length r)) lits) → (s : Configuration) (places : List ℕ) → AreAtPlaces p s places width
        → all_true s places (normal_form (signature_of p) (renamed_all r lits)) ≡ all_true s (along r places) lits }
{}

/// Distinct alive processes satisfy a conjunction at the places that an injection takes where it is true there.
pub fn composed_places_satisfy()
    ensures { (s : Configuration) (places r : List ℕ) (width : ℕ) (lits : List Lit) → IsInjection width (length places) r
        → AreDistinctAlive s places → IsTrue (all_true s (along r places) lits) → Satisfies s (along r places) width lits }
{}

/// What fits has its places below the width, and what is renamed fits the width of the big thing.
pub fn renamed_fits()
    ensures within { (sig : Signature) (width : ℕ) (lits : List Lit) → IsTrue (list_all (literal_fits sig width) lits)
        → IsTrue (list_all (is_within width) lits) }
    ensures fits { (sig : Signature) (width : ℕ) (r : List ℕ) (lits : List Lit) → All (λ p. p < width) r
        → IsTrue (list_all (literal_fits sig (length r)) lits) → IsTrue (list_all (literal_fits sig width) (renamed_all r lits)) }
{}

/// At a state of the protocol the replaced literal is true exactly where the literal is true of the values that its
/// terms take. Where it stands for a state before a step, `after` and `others` are the state behind it and its places.
pub fn replaced_is_true_of_values()
    ensures { (p : Protocol) (s : Configuration) (places : List ℕ) (after : Configuration) (others : List ℕ) (width : ℕ) (value : Term → Value) (lit : Lit)
        → IsStateOf p s → AreDistinctAlive s places → IsTrue (literal_fits (signature_of p) width lit)
        → IsTrue (can_replace_all (signature_of p) (length places) value lit) → Agree width others places
        → TakesValues s places after others value lit
        → is_true s places (replaced (signature_of p) value lit) ≡ is_true after others lit }
{}

/// A replaced literal fits the places of its values, and its bound grows by at most two constants.
pub fn replaced_fits()
    ensures fits { (p : Protocol) (width wide : ℕ) (value : Term → Value) (lit : Lit) → width ≤ wide → IsTrue (literal_fits (signature_of p) width lit)
        → IsTrue (can_replace_all (signature_of p) wide value lit) → IsTrue (literal_fits (signature_of p) wide (replaced (signature_of p) value lit)) }
    ensures bounded { (p : Protocol) (width wide limit : ℕ) (value : Term → Value) (lit : Lit) → IsTrue (literal_fits (signature_of p) width lit)
        → IsTrue (can_replace_all (signature_of p) wide value lit) → IsTrue (is_bounded limit lit)
        → IsTrue (is_bounded (limit + 2 * greatest_constant) (replaced (signature_of p) value lit)) }
{}

/// The terms in a conjunction rise, and are exactly those that its literals mention.
pub fn terms_in_are_mentioned()
    ensures order { (lits : List Lit) → IsTrue (terms_rise (terms_in lits)) }
    ensures members { (lits : List Lit) (t : Term) → Contains (terms_in lits) t ↔ Mentions lits t }
{}
