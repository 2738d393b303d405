//! A receiver that keeps the pieces, with their labels, in a list.

ghost use Rattle.std.specs.Prelude.{◌≡◌, [], ◌∷◌, ◌++◌, OnOk};

use crate::receiver::Receiver;
use crate::work::Work;
use cub_base::Memory;
use cub_cube::Cube;
use piece_choices::{Piece, Pieces};
use std::alloc::AllocError;

fn push(pieces: &mut Pieces, piece: Piece) -> Result<(), AllocError>
    ensures { OnOk result (pieces.new ≡ pieces.old ++ piece ∷ []) }
{
    pieces.push(piece)?;
    Ok(())
}

impl Receiver for Pieces {
    ghost takes = { λ old x new. new ≡ old ++ x ∷ [] };

    fn take(&mut self, transition: u16, work: &Work, cube: Cube) -> Result<(), Memory> {
        let label = work.label(transition)?;
        push(self, Piece { label, cube })?;
        Ok(())
    }
}
