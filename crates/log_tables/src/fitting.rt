//! Whether what a row names may be handed to a call. It is tested when the program runs, so that nothing has to be proved
//! of how a row was read, or of what a log has.

ghost use Rattle.std.specs.Prelude.{◌≡◌, IsTrue};
ghost use Rattle.std.specs.List.{list_all};
ghost use Rattle.cub_proto.specs.StateOf.{signature_of};
ghost use Rattle.cub_proto.specs.Fits.{literal_fits, is_bounded};
ghost use Rattle.log_form.specs.Pieces.{IsExpandable};
ghost use Rattle.log_steps.specs.Readable.{IsReadable};

use cub_cube::{Cube, is_normal};
use cub_proto::{Lit, Protocol};

const WIDEST: u8 = 11;

const WIDEST_EXPANDED: u8 = 8;

const GREATEST_ASKED: u64 = 281474976710655;

const GREATEST_EXPANDED: u64 = 140000000000000;

fn all_fit(protocol: &Protocol, width: u8, lits: &[Lit]) -> bool
    ensures { result ≡ list_all (literal_fits (signature_of protocol.now) width) lits.now }
{
    lits.iter().all(|lit| cub_proto::literal_fits(&protocol.declared(), u16::from(width), lit))
}

fn are_bounded(limit: u64, lits: &[Lit]) -> bool
    ensures { result ≡ list_all (is_bounded limit) lits.now }
{
    lits.iter().all(|lit| cub_proto::is_bounded(limit, lit))
}

/// Whether the cube may stand in a given event.
pub fn is_readable(protocol: &Protocol, cube: &Cube) -> bool
    ensures { IsTrue result → IsReadable protocol.now cube.now }
{
    cube.width <= WIDEST
        && all_fit(protocol, cube.width, cube.lits.as_slice())
        && are_bounded(GREATEST_ASKED, cube.lits.as_slice())
}

/// Whether the cube may be judged.
pub fn is_expandable(protocol: &Protocol, cube: &Cube) -> bool
    ensures { IsTrue result → IsExpandable protocol.now cube.now }
{
    cube.width <= WIDEST_EXPANDED
        && all_fit(protocol, cube.width, cube.lits.as_slice())
        && is_normal(protocol, cube.lits.as_slice())
        && are_bounded(GREATEST_EXPANDED, cube.lits.as_slice())
}
