//! Events of a log, and its mark.

ghost use Rattle.std.specs.Prelude.{◌≡◌, IfOk};

use cub_base::{Items, Memory, Places};
use cub_cube::Cube;
use std::alloc::Global;

/// Whether the log may go on: it may, or a node meets a start state, or the cube budget does not suffice for `needed`
/// further cubes of an expansion (of the roots, where `node` is none).
#[derive(Clone, Copy, Debug, PartialEq, Eq)]
pub enum Mark {
    Going,
    Bad { node: u32 },
    Full { node: Option<u32>, needed: u64 },
}

/// A cube that an event adds, and the number of the piece that it was made from; for the roots, of the unsafe
/// conjunction. Item `p` of `places` is the piece's place for place `p` of the cube.
#[derive(Debug, Drop)]
pub struct Added {
    pub piece: u64,
    pub places: Places,
    pub cube: Cube,
}

pub type AddedList = Items<Added>;

/// The expansion of a node, or of the roots where `node` is none. `needed` is 0 unless the event marks the log full, and
/// then nothing is added.
#[derive(Debug, Drop)]
pub struct LogEvent {
    pub node: Option<u32>,
    pub added: AddedList,
    pub needed: u64,
}

pub type LogEvents = Items<LogEvent>;

impl Added {
    /// An equal value.
    pub fn copy(&self) -> Result<Added, Memory>
        ensures { IfOk result (λ a. a ≡ self.now) }
    {
        let cube = self.cube.copy()?;
        let places = self.places.copy();
        Ok(Added {
            piece: self.piece,
            places,
            cube,
        })
    }
}

impl LogEvent {
    /// An equal value.
    pub fn copy(&self) -> Result<LogEvent, Memory>
        ensures { IfOk result (λ e. e ≡ self.now) }
    {
        let added = copied(self.added.allocator(), self.added.as_slice())?;
        Ok(LogEvent {
            node: self.node,
            added,
            needed: self.needed,
        })
    }
}

fn copied(alloc: Global, list: &[Added]) -> Result<AddedList, Memory>
    ensures { IfOk result (λ copies. copies ≡ list.now) }
{
    let mut copies = Items::with_room(alloc, list.len())?;
    for added in list {
        let copy = added.copy()?;
        if copies.push(copy).is_err() {
            return Err(Memory);
        }
    }
    Ok(copies)
}
