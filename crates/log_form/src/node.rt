//! Nodes of a log: cubes with where they come from and what became of them.

ghost use Rattle.std.specs.Prelude.{◌≡◌};
ghost use Rattle.log_form.specs.Fates.{is_live, is_waiting};

use cub_base::{Items, Places};
use cub_cube::Cube;

/// What a node's cube was made from: an unsafe conjunction by its number, or the piece with that number of an earlier
/// node.
#[derive(Clone, Copy, Debug, PartialEq, Eq)]
pub enum Origin {
    Root { goal: u32 },
    Piece { node: u32, piece: u64 },
}

/// What became of a node. Item `p` of `places` is the place of the node's cube for place `p` of the covering one.
#[derive(Debug, Drop)]
pub enum Fate {
    Waiting,
    Done,
    Covered { by: u32, places: Places },
}

/// A node. Item `p` of `places` is the place of the origin's cube for place `p` of `cube`.
#[derive(Debug, Drop)]
pub struct Node {
    pub cube: Cube,
    pub origin: Origin,
    pub places: Places,
    pub fate: Fate,
}

pub type Nodes = Items<Node>;

impl Fate {
    /// An equal fate. It takes no memory.
    pub fn copy(&self) -> Fate
        ensures { result ≡ self.now }
    {
        match self {
            Fate::Waiting => Fate::Waiting,
            Fate::Done => Fate::Done,
            Fate::Covered { by, places } => {
                let places = places.copy();
                Fate::Covered { by: *by, places }
            }
        }
    }

    /// Whether the node is live: no link leads from it.
    pub fn is_live(&self) -> bool
        ensures { result ≡ is_live self.now }
    {
        match self {
            Fate::Waiting => true,
            Fate::Done => true,
            Fate::Covered { .. } => false,
        }
    }

    /// Whether the node is neither expanded nor covered.
    pub fn is_waiting(&self) -> bool
        ensures { result ≡ is_waiting self.now }
    {
        match self {
            Fate::Waiting => true,
            Fate::Done => false,
            Fate::Covered { .. } => false,
        }
    }
}
