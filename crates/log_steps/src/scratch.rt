//! The theory's scratch decides what the log asks of cubes. A given cube need not be in normal form, as the test of forms
//! asks, so that is looked at first; no other cube is a form.

ghost use Rattle.std.specs.Prelude.{◌≡◌, ◌↔◌, IsTrue, IfOk};
ghost use Rattle.cub_cube.specs.Meaning.{IsConsistent};
ghost use Rattle.cub_cube.specs.Cover.{DoesCover};
ghost use Rattle.cub_cube.specs.Starts.{IsStartCube};
ghost use Rattle.log_form.specs.Pieces.{IsAskable};
ghost use Rattle.log_form.specs.Forms.{IsForm};
ghost use Rattle.log_steps.specs.Readable.{IsReadable};

use crate::deciding::Decisions;
use cub_base::{Memory, Places};
use cub_cube::{Cube, is_normal};
use cub_proto::Protocol;
use theory::Scratch;

impl Decisions for Scratch {
    ghost use Rattle.cube_form.specs.Form.{IsGivenForm};

    ghost chosen = { IsGivenForm };

    fn consistent(&mut self, protocol: &Protocol, cube: &Cube) -> bool {
        theory::consistent(self, protocol, cube)
    }

    fn meets_start(&mut self, protocol: &Protocol, cube: &Cube) -> bool {
        start_check::meets_start(self, protocol, cube)
    }

    fn covers(&mut self, protocol: &Protocol, big: &Cube, small: &Cube) -> bool {
        subsume::covers(self, protocol, big, small).is_some()
    }

    fn form(&mut self, protocol: &Protocol, cube: Cube) -> Result<(Cube, Places), Memory> {
        cube_form::form(self, protocol, cube)
    }

    fn is_form(&mut self, protocol: &Protocol, piece: &Cube, places: &Places, cube: &Cube) -> bool {
        if !is_normal(protocol, cube.lits.as_slice()) {
            return false;
        }
        cube_form::is_form(self, protocol, piece, places, cube)
    }
}
