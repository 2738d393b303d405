//! Laws of covering, of consistent cubes and of inductive lists, as contracts of calls that do nothing.

ghost use Rattle.std.specs.Prelude.{◌≡◌, ℕ, List, Contains};
ghost use Rattle.cub_proto.specs.declared.literal.Lit.{Lit};
ghost use Rattle.cub_proto.specs.declared.protocol.Protocol.{Protocol};
ghost use Rattle.cub_proto.specs.Configuration.{Configuration};
ghost use Rattle.cub_proto.specs.StateOf.{IsStateOf};
ghost use Rattle.cub_proto.specs.Meets.{Satisfies, Meets, IsSafe};
ghost use Rattle.cub_cube.specs.Rename.{along, IsInjection};
ghost use Rattle.cub_cube.specs.Meaning.{IsConsistent, SameMeaningAlong};
ghost use Rattle.cub_cube.specs.Kept.{Keeps};
ghost use Rattle.cub_cube.specs.Cover.{Covers, DoesCover, CoversLeast};
ghost use Rattle.cub_cube.specs.Inductive.{IsInductive};
ghost use Rattle.cub_cube.specs.declared.cube.Cube.{Cube};

/// Each cube covers itself.
pub fn covering_is_reflexive()
    ensures { (p : Protocol) (c : Cube) → DoesCover p c c }
{}

/// Covering is transitive, by the composed injection.
pub fn covering_is_transitive()
    ensures { (p : Protocol) (d c b : Cube) (q r : List ℕ) → Covers p d c q → Covers p c b r → Covers p d b (along q r) }
{}

/// A state that meets the covered cube meets the covering one, at the composed places.
pub fn covered_states_meet()
    ensures satisfies { (p : Protocol) (d c : Cube) (r : List ℕ) → Covers p d c r → (s : Configuration) (places : List ℕ) → IsStateOf p s
        → Satisfies s places c.width c.lits → Satisfies s (along r places) d.width d.lits }
    ensures meets { (p : Protocol) (d c : Cube) → DoesCover p d c → (s : Configuration) → IsStateOf p s
        → Meets s c.width c.lits → Meets s d.width d.lits }
{}

/// There is one least covering injection at most.
pub fn least_cover_is_one()
    ensures { (p : Protocol) (d c : Cube) (q r : List ℕ) → CoversLeast p d c q → CoversLeast p d c r → q ≡ r }
{}

/// What covers one of two conjunctions of the same meaning covers the other, where one is the other renamed.
pub fn covering_goes_along()
    ensures renamed { (p : Protocol) (width : ℕ) (r : List ℕ) (small big : List Lit) → IsInjection width width r
        → SameMeaningAlong p width r small big → (d : Cube)
        → DoesCover p d (record { width = width; lits = small }) → DoesCover p d (record { width = width; lits = big }) }
    ensures back { (p : Protocol) (width : ℕ) (r : List ℕ) (small big : List Lit) → IsInjection width width r
        → SameMeaningAlong p width r small big → (d : Cube)
        → DoesCover p d (record { width = width; lits = big }) → DoesCover p d (record { width = width; lits = small }) }
{}

/// The consistent ones of a list of cubes, in order: there is one such list, and its cubes are exactly those of the
/// list that some state meets.
pub fn consistent_cubes_are_one_list()
    ensures one { (p : Protocol) (cubes xs ys : List Cube) → Keeps (λ c. IsConsistent p c.width c.lits) cubes xs
        → Keeps (λ c. IsConsistent p c.width c.lits) cubes ys → xs ≡ ys }
    ensures inside { (p : Protocol) (cubes kept : List Cube) (c : Cube) → Keeps (λ d. IsConsistent p d.width d.lits) cubes kept
        → Contains kept c → Contains cubes c × IsConsistent p c.width c.lits }
    ensures all { (p : Protocol) (cubes kept : List Cube) (c : Cube) → Keeps (λ d. IsConsistent p d.width d.lits) cubes kept
        → Contains cubes c → IsConsistent p c.width c.lits → Contains kept c }
{}

/// A protocol with an inductive list of cubes is safe.
pub fn inductive_is_safe()
    ensures { (p : Protocol) (cubes : List Cube) → IsInductive p cubes → IsSafe p }
{}
