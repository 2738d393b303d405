//! Laws of forms, each the contract of a call that does nothing.

ghost use Rattle.std.specs.Prelude.{◌≡◌, ℕ, List, Contains, IsTrue};
ghost use Rattle.cub_proto.specs.declared.literal.Lit.{Lit};
ghost use Rattle.cub_proto.specs.declared.protocol.Protocol.{Protocol};
ghost use Rattle.cub_cube.specs.declared.cube.Cube.{Cube};
ghost use Rattle.cub_cube.specs.Meaning.{SameMeaning};
ghost use Rattle.log_form.specs.Pieces.{IsFit};
ghost use Rattle.log_form.specs.Forms.{IsForm};
ghost use Rattle.cube_form.specs.Simple.{IsSimplified};
ghost use Rattle.cube_form.specs.Name.{IsNamed};
ghost use Rattle.cube_form.specs.Form.{IsGivenForm};

/// A cube has one simplified cube. It has the cube's meaning, its literals are some of the cube's, and it fits where
/// the cube does, in normal form and with the same limits.
pub fn simplified_cubes_keep_meaning()
    ensures one { (p : Protocol) (c a b : Cube) → IsSimplified p c a → IsSimplified p c b → a ≡ b }
    ensures meaning { (p : Protocol) (c simple : Cube) → IsSimplified p c simple → SameMeaning p c.width simple.lits c.lits }
    ensures some { (p : Protocol) (c simple : Cube) (l : Lit) → IsSimplified p c simple → Contains simple.lits l → Contains c.lits l }
    ensures fit { (p : Protocol) (widest limit : ℕ) (c simple : Cube) → IsSimplified p c simple → IsFit p widest limit c → IsFit p widest limit simple }
{}

/// A cube has one named cube and one renaming to it.
pub fn named_cubes_are_one()
    ensures places { (p : Protocol) (c a b : Cube) (q r : List ℕ) → IsNamed p c q a → IsNamed p c r b → q ≡ r }
    ensures cube { (p : Protocol) (c a b : Cube) (q r : List ℕ) → IsNamed p c q a → IsNamed p c r b → a ≡ b }
{}

/// A cube that fits has one given form, and a log admits it: a cube in normal form with the cube's meaning up to the
/// renaming, whose literals are, renamed, some of the cube's.
pub fn given_forms_are_admitted()
    ensures admitted { (p : Protocol) (widest limit : ℕ) (c given : Cube) (places : List ℕ) → IsFit p widest limit c → IsGivenForm p c places given → IsForm p c places given }
    ensures one_renaming { (p : Protocol) (c a b : Cube) (q r : List ℕ) → IsGivenForm p c q a → IsGivenForm p c r b → q ≡ r }
    ensures one_cube { (p : Protocol) (c a b : Cube) (q r : List ℕ) → IsGivenForm p c q a → IsGivenForm p c r b → a ≡ b }
{}
