//! Cubes with numbers, as an event treats them.

use cub_base::Items;
use cub_cube::Cube;

/// A piece with its place in the list of pieces, or a consistent unsafe conjunction with its number among all.
#[derive(Debug, Drop)]
pub struct Numbered {
    pub number: u64,
    pub cube: Cube,
}

pub type NumberedList = Items<Numbered>;
