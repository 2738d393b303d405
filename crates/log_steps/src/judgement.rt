//! Judgements of nodes, made on the first nodes of a log.

use cub_base::{Items, Places};
use cub_cube::Cube;

/// A cube of the list that a pick covers. Item `p` of `places` is the place of that cube for place `p` of the pick.
#[derive(Debug, Drop)]
pub struct Under {
    pub node: u32,
    pub places: Places,
}

pub type Links = Items<Under>;

/// A form of a piece that is to be added: the piece's number, whether a start state meets it, and the cubes of the list
/// that it covers, rising by number. Item `p` of `places` is the piece's place for place `p` of `cube`.
#[derive(Debug, Drop)]
pub struct Pick {
    pub piece: u64,
    pub places: Places,
    pub cube: Cube,
    pub starts: bool,
    pub under: Links,
}

pub type Picks = Items<Pick>;

/// What an expansion of the node would add to a log of `seen` nodes.
#[derive(Debug, Drop)]
pub struct Verdict {
    pub node: u32,
    pub seen: u32,
    pub picks: Picks,
}
