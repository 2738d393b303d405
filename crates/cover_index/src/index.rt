//! The list of cubes that is searched by summaries.

ghost use Rattle.std.specs.Prelude.{◌≡◌, ◌∷◌, ◌++◌, ◌↔◌, ◌-◌, ◌^◌, ◌*◌, ◌<◌, ◌≤◌, [], length, take, IsTrue, OnOk, OnErr, IfOk, IfErr};
ghost use Rattle.cub_cube.specs.Cover.{DoesCover, IsCovered};
ghost use Rattle.log_form.specs.Pieces.{IsAskable};
ghost use Rattle.log_form.specs.Links.{cube_at, IsFirstCover, IsFirstUnder};
ghost use Rattle.theory.specs.Made.{IsFor};
ghost use Rattle.cover_index.specs.Counted.{RisesForCovers, RisesForUnder};
ghost use Rattle.cover_index.specs.Indexed.{IsServing};

use crate::list_above::{first_cover, some_cover};
use crate::list_below::{count_met, first_under};
use crate::noting::{groups_of, note, revive};
use crate::parts::{GROUP, LARGER};
use crate::recent::Recent;
use crate::store::Store;
use cub_base::{Memory, Places};
use cub_cube::Cube;
use cub_proto::Protocol;
use std::alloc::Global;
use std::marker::Model;
use subsume::{Finder, Summary};
use theory::Scratch;

/// A list of cubes with a summary of each, of each 64 and of each 4096. A search tests candidates alone. The cubes lie in
/// segments of 64 that several lists can share.
#[derive(Drop)]
pub struct Index {
    store: Store,
    // by which later cube each is retired; 0 where by none
    retired: Vec<u32>,
    groups: Vec<Summary>,
    larger: Vec<Summary>,
    // how many of the first cubes are known to be met by some state
    met: u32,
    // where the last searches found a cover; a hint, of which nothing is asked
    recent: Recent,
}

impl Model for Index {
    ghost use Rattle.std.specs.Prelude.{◌≡◌, ◌<◌, ◌≤◌, ◌^◌, ◌*◌, length};
    ghost use Rattle.cover_index.specs.Indexed.{Indexed};

    ghost Value = { Indexed };

    ghost view = { λ s. record { cubes = s.store.cubes; retired = s.retired.items; summaries = s.store.summaries; groups = s.groups.items; larger = s.larger.items; met = s.met } };

    ghost invariant = { λ s. (length s.retired.items ≡ length s.store.cubes) × (length s.store.summaries ≡ length s.store.cubes) × (length s.store.cubes < 2 ^ 32) × (length s.store.cubes ≤ 64 * length s.groups.items) × (length s.store.cubes ≤ 4096 * length s.larger.items) × (s.met ≤ length s.store.cubes) };
}

impl Index {
    /// No cubes. It takes no memory.
    pub fn new(alloc: Global) -> Index
        ensures { result ≡ record { cubes = []; retired = []; summaries = []; groups = []; larger = []; met = 0 } }
    {
        Index {
            store: Store::new(alloc),
            retired: Vec::new(alloc),
            groups: Vec::new(alloc),
            larger: Vec::new(alloc),
            met: 0,
            recent: Recent::new(),
        }
    }

    /// An equal list that shares the segments. What one of the two gains or loses afterwards, the other does not.
    pub fn share(&self) -> Result<Index, Memory>
        ensures { IfOk result (λ list. list ≡ self.now) }
    {
        let alloc = *self.retired.allocator();
        let store = self.store.share()?;
        let retired = Vec::from_slice(alloc, self.retired.as_slice())?;
        let groups = Vec::from_slice(alloc, self.groups.as_slice())?;
        let larger = Vec::from_slice(alloc, self.larger.as_slice())?;
        Ok(Index {
            store,
            retired,
            groups,
            larger,
            met: self.met,
            recent: self.recent.copy(),
        })
    }
}

impl Finder<Scratch> for Index {
    ghost use Rattle.cover_index.specs.Indexed.{IsServing, nothing_serves};

    ghost list = { λ s. s.cubes };

    ghost serves = { λ s p. IsServing p s };

    fn push(&mut self, protocol: &Protocol, cube: Cube) -> Result<u32, (Cube, Memory)> {
        let number = self.store.count();
        let own = Summary::of(protocol, &cube);
        match note(
            &mut self.retired,
            &mut self.groups,
            &mut self.larger,
            number,
            &own,
        ) {
            Ok(()) => {}
            Err(_) => return Err((cube, Memory)),
        }
        match self.store.push(cube, &own) {
            Ok(()) => Ok(number),
            Err(refused) => {
                self.retired.truncate(number as usize);
                Err(refused)
            }
        }
    }

    fn find(
        &mut self,
        scratch: &mut Scratch,
        protocol: &Protocol,
        start: u32,
        cube: &Cube,
    ) -> Option<(u32, Places)>
        requires serves { IsServing protocol.now self.old }
        requires made { IsFor protocol.now scratch.old }
        requires fit { IsAskable protocol.now cube.now }
        ensures first { IsFirstCover protocol.now self.old.cubes start (length self.old.cubes) cube.now result }
        ensures same { self.new.cubes ≡ self.old.cubes }
        ensures serves { IsServing protocol.now self.new }
        ensures made { IsFor protocol.now scratch.new }
        ensures tests { RisesForCovers protocol.now self.old.cubes start (length self.old.cubes) cube.now scratch.old.tests scratch.new.tests }
    {
        first_cover(
            scratch,
            protocol,
            &self.store,
            self.groups.as_slice(),
            self.larger.as_slice(),
            start,
            cube,
        )
    }

    fn under(
        &mut self,
        scratch: &mut Scratch,
        protocol: &Protocol,
        start: u32,
        cube: &Cube,
    ) -> Option<(u32, Places)>
        requires serves { IsServing protocol.now self.old }
        requires made { IsFor protocol.now scratch.old }
        requires fit { IsAskable protocol.now cube.now }
        ensures first { IsFirstUnder protocol.now self.old.cubes start (length self.old.cubes) cube.now result }
        ensures same { self.new.cubes ≡ self.old.cubes }
        ensures serves { IsServing protocol.now self.new }
        ensures made { IsFor protocol.now scratch.new }
        ensures tests { RisesForUnder protocol.now self.old.cubes start (length self.old.cubes) cube.now scratch.old.tests scratch.new.tests }
    {
        self.met = count_met(scratch, protocol, &self.store, self.met);
        first_under(
            scratch,
            protocol,
            &self.store,
            self.groups.as_slice(),
            self.larger.as_slice(),
            self.met,
            start,
            cube,
        )
    }

    fn is_covered(&mut self, scratch: &mut Scratch, protocol: &Protocol, cube: &Cube) -> bool
        requires serves { IsServing protocol.now self.old }
        requires made { IsFor protocol.now scratch.old }
        requires fit { IsAskable protocol.now cube.now }
        ensures value { IsTrue result ↔ IsCovered protocol.now self.old.cubes cube.now }
        ensures same { self.new.cubes ≡ self.old.cubes }
        ensures serves { IsServing protocol.now self.new }
        ensures made { IsFor protocol.now scratch.new }
        ensures tests { RisesForCovers protocol.now self.old.cubes 0 (length self.old.cubes) cube.now scratch.old.tests scratch.new.tests }
    {
        match some_cover(
            scratch,
            protocol,
            &self.store,
            self.groups.as_slice(),
            self.larger.as_slice(),
            self.retired.as_slice(),
            &self.recent,
            cube,
        ) {
            Some(near) => {
                self.recent.note(near);
                true
            }
            None => false,
        }
    }

    fn count(&self) -> u32 {
        self.store.count()
    }

    fn cube(&self, number: u32) -> &Cube {
        self.store.cube(number)
    }

    fn retire(&mut self, _protocol: &Protocol, number: u32, by: u32) {
        self.retired[number as usize] = by;
    }

    fn cut(&mut self, count: u32) {
        let kept = count as usize;
        self.store.cut(count);
        self.groups.truncate(groups_of(kept, GROUP));
        self.larger.truncate(groups_of(kept, LARGER));
        self.retired.truncate(kept);
        revive(&mut self.retired, count);
        self.met = self.met.min(count);
    }

    ghost empty_serves = { nothing_serves };
}
