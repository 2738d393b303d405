//! Who takes the pieces that a search hands on, one by one.

ghost use Rattle.std.specs.Prelude.{◌≤◌, length, OnOk};
ghost use Rattle.pieces.specs.Handed.{piece_of};

use crate::work::Work;
use cub_base::Memory;
use cub_cube::Cube;

/// A receiver of pieces. `takes` says what taking a piece does to it.
pub trait Receiver {
    ghost use Rattle.piece_choices.specs.declared.piece.Piece.{Piece};

    ghost takes: { Self → Piece → Self → Type 0 };

    /// Takes a piece: its cube, the number of its transition, and the work record that has its label. Whoever needs no label
    /// makes none.
    fn take(&mut self, transition: u16, work: &Work, cube: Cube) -> Result<(), Memory>
        requires few { length work.now.others ≤ 12 }
        ensures taken { OnOk result (takes self.old (piece_of transition work.now cube) self.new) };
}
