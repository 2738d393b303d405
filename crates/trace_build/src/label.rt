//! The label of one piece. The pieces are handed on one by one, and only the label of the one that is sought is kept.

ghost use Rattle.std.specs.Prelude.{◌≡◌, List, option_map, slice_get, IfOk};
ghost use Rattle.cub_proto.specs.declared.protocol.Protocol.{Protocol};
ghost use Rattle.piece_choices.specs.declared.piece.Piece.{Piece};
ghost use Rattle.piece_choices.specs.Pieces.{ArePieces};
ghost use Rattle.pieces.specs.Jobs.{IsExpandable};
ghost use Rattle.theory.specs.Made.{IsFor, IsKept};

use cub_base::Memory;
use cub_cube::Cube;
use cub_proto::Protocol;
use piece_choices::Label;
use pieces::{Receiver, Work, each_piece};
use theory::Scratch;

// How many pieces come before the one that is sought, and its label once it was there.
#[derive(Debug, Drop)]
struct Sought {
    before: u64,
    found: Option<Label>,
}

impl Receiver for Sought {
    ghost use Rattle.trace_build.specs.Sought.{sought_after};

    ghost takes = { λ old x new. new ≡ sought_after old x };

    fn take(&mut self, transition: u16, work: &Work, _cube: Cube) -> Result<(), Memory> {
        if self.found.is_some() {
            return Ok(());
        }
        if self.before == 0 {
            self.found = Some(work.label(transition)?);
        } else {
            self.before -= 1;
        }
        Ok(())
    }
}

/// The label of the piece of the cube with that number, if there is one.
pub fn label_at(
    scratch: &mut Scratch,
    protocol: &Protocol,
    cube: &Cube,
    number: u64,
) -> Result<Option<Label>, Memory>
    requires made { IsFor protocol.now scratch.old }
    requires fit { IsExpandable protocol.now cube.now }
    ensures kept { IsKept scratch.old scratch.new }
    ensures made { IsFor protocol.now scratch.new }
    ensures value { IfOk result (λ found. (list : List Piece) × ArePieces protocol.now cube.now list × (found ≡ option_map (λ x. x.label) (slice_get list number))) }
{
    let mut sought = Sought {
        before: number,
        found: None,
    };
    each_piece(scratch, protocol, cube, &mut sought)?;
    Ok(sought.found)
}
