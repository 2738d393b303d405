//! The relation between a cube and its pieces.

use log_form::PreImages;

/// The pieces that choices on the way back through a step give, where some state meets them, in the order of the choices.
#[derive(Debug)]
pub struct Predecessors;

impl PreImages for Predecessors {
    ghost use Rattle.predecessors.specs.Predecessors.{ArePieceCubes};
    ghost use Rattle.predecessors.specs.Facts.{are_one, are_possible, stay_fit};

    ghost pieces = { ArePieceCubes };

    ghost one_list = { are_one };

    ghost possible = { are_possible };

    ghost fit = { stay_fit };
}
