//! A pre-image of a cube consists of pieces, one for each consistent way of choosing.

use cub_base::{Items, Places};
use cub_cube::Cube;
use updates::Choices;

/// The choices that a piece was made by, each by its number. `params` has the place of each parameter. `others` has
/// the alternative of the universal guard for each place of the cube and of the parameters that is no parameter, in
/// order, and then for each new place of a pick. `choices` has what is chosen for each term of the cube.
#[derive(Debug, Drop)]
pub struct Label {
    pub transition: u16,
    pub params: Places,
    pub guard: u8,
    pub others: Places,
    pub choices: Choices,
}

/// A consistent conjunction from whose states a step leads into the cube, with its choices.
#[derive(Debug, Drop)]
pub struct Piece {
    pub label: Label,
    pub cube: Cube,
}

/// Pieces in the order of their choices.
pub type Pieces = Items<Piece>;
