//! Which cubes have their pieces listed.

ghost use Rattle.std.specs.Prelude.{◌↔◌, ◌≡◌, IsTrue};
ghost use Rattle.std.specs.List.{list_all};
ghost use Rattle.cub_proto.specs.StateOf.{signature_of};
ghost use Rattle.cub_proto.specs.Fits.{literal_fits, is_bounded};
ghost use Rattle.pieces.specs.Jobs.{IsExpandable, greatest_expanded};

use cub_cube::Cube;
use cub_proto::{Declared, Lit, Protocol};

/// The greatest size of a bound in a cube whose pieces are listed.
pub const GREATEST_EXPANDED: u64 = 140_000_000_000_000;

/// The greatest width of such a cube.
pub const WIDEST_EXPANDED: u8 = 8;

fn all_fit(declared: &Declared, width: u16, lits: &[Lit]) -> bool
    ensures { result ≡ list_all (literal_fits declared.now width) lits.now }
{
    lits.iter()
        .all(|lit| cub_proto::literal_fits(declared, width, lit))
}

fn all_bounded(lits: &[Lit]) -> bool
    ensures { result ≡ list_all (is_bounded greatest_expanded) lits.now }
{
    lits.iter()
        .all(|lit| cub_proto::is_bounded(GREATEST_EXPANDED, lit))
}

/// Whether the pieces of the cube can be listed: its literals fit the protocol, it has at most 8 places, and its bounds
/// are at most 140,000,000,000,000 in size.
pub fn is_expandable(protocol: &Protocol, cube: &Cube) -> bool
    ensures { IsTrue result ↔ IsExpandable protocol.now cube.now }
{
    cube.width <= WIDEST_EXPANDED
        && all_fit(
            &protocol.declared(),
            u16::from(cube.width),
            cube.lits.as_slice(),
        )
        && all_bounded(cube.lits.as_slice())
}
