//! Laws of pre-images and of the test of certificates, as contracts of calls that do nothing.

ghost use Rattle.std.specs.Prelude.{◌↔◌, ℕ, List, take, IsTrue, Contains};
ghost use Rattle.std.specs.List.{list_all};
ghost use Rattle.cub_proto.specs.declared.cover.CoverLine.{CoverLine};
ghost use Rattle.cub_proto.specs.declared.protocol.Protocol.{Protocol};
ghost use Rattle.cub_proto.specs.Configuration.{Configuration};
ghost use Rattle.cub_proto.specs.StateOf.{IsStateOf, signature_of};
ghost use Rattle.cub_proto.specs.Fits.{literal_fits};
ghost use Rattle.cub_proto.specs.Legal.{AreLegal, after_all};
ghost use Rattle.cub_proto.specs.Meets.{Satisfies};
ghost use Rattle.cub_cube.specs.declared.cube.Cube.{Cube};
ghost use Rattle.cub_cube.specs.Inductive.{IsInductive};
ghost use Rattle.piece_choices.specs.declared.piece.Piece.{Piece};
ghost use Rattle.piece_choices.specs.Pieces.{ArePieces};
ghost use Rattle.piece_laws.specs.Leads.{LeadsInto, MeetsPiece};
ghost use Rattle.piece_laws.specs.Event.{events_by};
ghost use Rattle.piece_laws.specs.Test.{PassesTest, PassesLines};

/// Crashes, perhaps none, and then one event of a transition lead from a state into a cube exactly where the state meets a
/// piece of that transition.
pub fn pieces_are_predecessors()
    ensures { (p : Protocol) (c : Cube) (number : ℕ) (pieces : List Piece) (s : Configuration) → IsTrue (list_all (literal_fits (signature_of p) c.width) c.lits)
        → ArePieces p c pieces → IsStateOf p s → LeadsInto p c number s ↔ MeetsPiece pieces number s }
{}

/// From processes that satisfy a piece, the crashes of all others and then the event of the label are legal, and the
/// processes at the places of the cube satisfy it afterwards.
pub fn labels_name_events()
    ensures legal { (p : Protocol) (c : Cube) (pieces : List Piece) (x : Piece) (s : Configuration) (places : List ℕ) → IsTrue (list_all (literal_fits (signature_of p) c.width) c.lits)
        → ArePieces p c pieces → Contains pieces x → IsStateOf p s → Satisfies s places x.cube.width x.cube.lits → AreLegal p s (events_by s x.label places) }
    ensures meets { (p : Protocol) (c : Cube) (pieces : List Piece) (x : Piece) (s : Configuration) (places : List ℕ) → IsTrue (list_all (literal_fits (signature_of p) c.width) c.lits)
        → ArePieces p c pieces → Contains pieces x → IsStateOf p s → Satisfies s places x.cube.width x.cube.lits
        → Satisfies (after_all p s (events_by s x.label places)) (take c.width places) c.width c.lits }
{}

/// A list of cubes that passes the test of a certificate is inductive.
pub fn certificate_is_inductive()
    ensures { (p : Protocol) (cubes : List Cube) → ((c : Cube) → Contains cubes c → IsTrue (list_all (literal_fits (signature_of p) c.width) c.lits))
        → PassesTest p cubes → IsInductive p cubes }
{}

/// The test with cover lines implies the test without.
pub fn cover_lines_imply_test()
    ensures { (p : Protocol) (cubes : List Cube) (lines : List CoverLine) → PassesLines p cubes lines → PassesTest p cubes }
{}
