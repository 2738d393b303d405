//! Laws of lists of pieces, as contracts of calls that do nothing.

ghost use Rattle.std.specs.Prelude.{◌≡◌, ◌≤◌, ◌+◌, ◌*◌, ◌↔◌, ℕ, List, IsTrue, Contains};
ghost use Rattle.std.specs.List.{list_all};
ghost use Rattle.cub_proto.specs.declared.protocol.Protocol.{Protocol};
ghost use Rattle.cub_proto.specs.StateOf.{signature_of};
ghost use Rattle.cub_proto.specs.Fits.{literal_fits, is_bounded, greatest_bound, greatest_constant};
ghost use Rattle.cub_cube.specs.declared.cube.Cube.{Cube};
ghost use Rattle.piece_choices.specs.declared.piece.Piece.{Piece};
ghost use Rattle.piece_choices.specs.Pieces.{candidates, IsPossible, ArePieces};

/// There is one list of pieces at most, and it has exactly those of what the choices give that some state meets.
pub fn pieces_are_one_list()
    ensures one { (p : Protocol) (c : Cube) (xs ys : List Piece) → ArePieces p c xs → ArePieces p c ys → xs ≡ ys }
    ensures inside { (p : Protocol) (c : Cube) (pieces : List Piece) (x : Piece) → ArePieces p c pieces → Contains pieces x ↔ (Contains (candidates p c) x × IsPossible p x) }
{}

/// The literals of pieces fit; a piece has at most three places more than the cube; its bounds are at most
/// 2,000,000,000 greater, or those of the protocol.
pub fn pieces_fit()
    ensures fit { (p : Protocol) (c : Cube) (pieces : List Piece) (x : Piece) → IsTrue (list_all (literal_fits (signature_of p) c.width) c.lits) → ArePieces p c pieces → Contains pieces x
        → IsTrue (list_all (literal_fits (signature_of p) x.cube.width) x.cube.lits) }
    ensures wider { (p : Protocol) (c : Cube) (pieces : List Piece) (x : Piece) → IsTrue (list_all (literal_fits (signature_of p) c.width) c.lits) → ArePieces p c pieces → Contains pieces x
        → (c.width ≤ x.cube.width) × (x.cube.width ≤ c.width + 3) }
    ensures bounded { (p : Protocol) (c : Cube) (pieces : List Piece) (x : Piece) (limit : ℕ) → IsTrue (list_all (literal_fits (signature_of p) c.width) c.lits)
        → IsTrue (list_all (is_bounded limit) c.lits) → greatest_bound ≤ limit → ArePieces p c pieces → Contains pieces x
        → IsTrue (list_all (is_bounded (limit + 2 * greatest_constant)) x.cube.lits) }
{}
