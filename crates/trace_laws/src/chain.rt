//! Chains of cubes.

use cub_base::{Items, Places};
use cub_cube::Cube;
use log_form::Origin;

/// A cube, the number of the unsafe conjunction or of the piece of the next cube that it was made from, and the renaming
/// to that: item `p` of `places` is its place for place `p` of `cube`. The number of a node in the origin is not read.
#[derive(Debug, Drop)]
pub struct Link {
    pub cube: Cube,
    pub origin: Origin,
    pub places: Places,
}

/// Cubes from one that a start state meets to a form of an unsafe conjunction.
pub type Chain = Items<Link>;
