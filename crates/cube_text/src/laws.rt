//! What holds of all texts of cubes. Each function is a law: it does nothing, and its contract is proved.

ghost use Rattle.std.specs.Prelude.{◌≡◌, ◌≤◌, ℕ, List, Ok};
ghost use Rattle.cub_proto.specs.declared.protocol.Protocol.{Protocol};
ghost use Rattle.cub_cube.specs.declared.cube.Cube.{Cube};
ghost use Rattle.cube_text.specs.Text.{cube_text};
ghost use Rattle.cube_text.specs.Reading.{reading, IsLawful};

/// What reads as a cube is the text of that cube, which fits the protocol and the limits in normal form.
pub fn has_one_spelling()
    ensures text { (p : Protocol) (widest : ℕ) (text : List ℕ) (c : Cube) → reading p widest text ≡ Ok c → text ≡ cube_text p c }
    ensures lawful { (p : Protocol) (widest : ℕ) (text : List ℕ) (c : Cube) → reading p widest text ≡ Ok c → IsLawful p widest c }
{}

/// What was written of a cube that fits the protocol and the limits, in normal form, is read back as that cube.
pub fn reads_back()
    ensures { (p : Protocol) (widest : ℕ) (c : Cube) → widest ≤ 255 → IsLawful p widest c → reading p widest (cube_text p c) ≡ Ok c }
{}
