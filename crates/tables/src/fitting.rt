//! Whether what a row names may be handed to a call. It is tested when the program runs, so that nothing has to be proved
//! of how a row was read.

ghost use Rattle.std.specs.Prelude.{◌≡◌, IsTrue};
ghost use Rattle.std.specs.List.{list_all};
ghost use Rattle.cub_proto.specs.StateOf.{signature_of};
ghost use Rattle.cub_proto.specs.Fits.{literal_fits, is_bounded};
ghost use Rattle.theory_laws.specs.Fitting.{AreFitting, greatest_size};
ghost use Rattle.log_form.specs.Pieces.{IsAskable};

use cub_cube::{Cube, is_normal};
use cub_proto::{Lit, Protocol};

const WIDEST: u8 = 11;

const GREATEST_SIZE: u64 = 281474976710655;

/// Whether the literal fits.
pub fn fits(protocol: &Protocol, width: u8, lit: &Lit) -> bool
    ensures { result ≡ literal_fits (signature_of protocol.now) width lit.now }
{
    cub_proto::literal_fits(&protocol.declared(), u16::from(width), lit)
}

fn all_fit(protocol: &Protocol, width: u8, lits: &[Lit]) -> bool
    ensures { result ≡ list_all (literal_fits (signature_of protocol.now) width) lits.now }
{
    lits.iter().all(|lit| fits(protocol, width, lit))
}

fn are_bounded(lits: &[Lit]) -> bool
    ensures { result ≡ list_all (is_bounded greatest_size) lits.now }
{
    lits.iter()
        .all(|lit| cub_proto::is_bounded(GREATEST_SIZE, lit))
}

/// Whether the cube may be decided.
pub fn is_fitting(protocol: &Protocol, cube: &Cube) -> bool
    ensures { IsTrue result → AreFitting protocol.now cube.now.width cube.now.lits }
{
    cube.width <= WIDEST
        && all_fit(protocol, cube.width, cube.lits.as_slice())
        && are_bounded(cube.lits.as_slice())
}

/// Whether the cube may stand in a list of cubes.
pub fn is_askable(protocol: &Protocol, cube: &Cube) -> bool
    ensures { IsTrue result → IsAskable protocol.now cube.now }
{
    cube.width <= WIDEST
        && all_fit(protocol, cube.width, cube.lits.as_slice())
        && is_normal(protocol, cube.lits.as_slice())
        && are_bounded(cube.lits.as_slice())
}
