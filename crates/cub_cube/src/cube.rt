//! The type of cubes.

ghost use Rattle.std.specs.Prelude.{◌≡◌, length, IsTrue, IfOk};
ghost use Rattle.std.specs.List.{list_all};
ghost use Rattle.cub_proto.specs.StateOf.{signature_of};
ghost use Rattle.cub_cube.specs.Normal.{normal_form};
ghost use Rattle.cub_cube.specs.Rename.{is_within, renamed_all};

use crate::normal;
use cub_base::{Items, Memory};
use cub_proto::{Lit, Lits, Protocol};
use std::alloc::Global;

/// A conjunction over the places 0 to `width - 1`. A place that no literal mentions asks for an alive process too.
#[derive(Debug, Drop)]
pub struct Cube {
    pub width: u8,
    pub lits: Lits,
}

pub type Cubes = Items<Cube>;

impl Cube {
    /// The cube of these literals, in normal form. Where they fit the protocol and the width, it has their meaning.
    pub fn of(alloc: Global, protocol: &Protocol, width: u8, lits: &[Lit]) -> Result<Cube, Memory>
        ensures { IfOk result (λ c. c ≡ record { width = width; lits = normal_form (signature_of protocol.now) lits.now }) }
    {
        let lits = normal::normal_form(alloc, protocol, lits)?;
        Ok(Cube { width, lits })
    }

    /// An equal cube.
    pub fn copy(&self) -> Result<Cube, Memory>
        ensures { IfOk result (λ c. c ≡ self.now) }
    {
        let lits = self.lits.copy()?;
        let width = self.width;
        Ok(Cube { width, lits })
    }
    /// The cube at the places of a renaming, as one of that width and in normal form. Item `p` of `places` is the new
    /// place for place `p`.
    pub fn renamed(&self, protocol: &Protocol, width: u8, places: &[u8]) -> Result<Cube, Memory>
        requires { IsTrue (list_all (is_within (length places.now)) self.now.lits) }
        ensures { IfOk result (λ c. c ≡ record { width = width; lits = normal_form (signature_of protocol.now) (renamed_all places.now self.now.lits) }) }
    {
        let lits = normal::renamed_form(
            self.lits.allocator(),
            protocol,
            places,
            self.lits.as_slice(),
        )?;
        Ok(Cube { width, lits })
    }
}
