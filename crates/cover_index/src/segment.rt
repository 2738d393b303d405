//! A few cubes that no longer change.

ghost use Rattle.std.specs.Prelude.{◌≡◌, ◌∷◌, ◌++◌, ◌^◌, ◌<◌, ◌≤◌, ℕ, [], length, take, All, IfOk, IfErr, OnOk, OnErr};
ghost use Rattle.log_form.specs.Pieces.{IsAskable};
ghost use Rattle.log_form.specs.Links.{IsFirstCover, IsFirstUnder};
ghost use Rattle.theory.specs.Made.{IsFor};
ghost use Rattle.cover_index.specs.Counted.{RisesForCovers, RisesForUnder};
ghost use Rattle.cover_index.specs.Asked.{summary_at, AreSummed, AreMet, Joins};
ghost use Rattle.cover_index.specs.Sealed.{IsSealedFor, no_segment};

use crate::candidates::passes_over;
use crate::summaries::{Summaries, lacking, needing};
use crate::{above, below};
use cub_base::{Items, Memory, Places};
use cub_cube::{Cube, Cubes};
use cub_proto::Protocol;
use std::alloc::Global;
use std::marker::Model;
use subsume::{Summary, load_small};
use theory::Scratch;

/// Up to 64 cubes with a summary of each and of all, sealed for one protocol. Its searches change nothing, so it can be
/// shared. Numbers are those of its own list.
#[derive(Drop)]
pub struct Segment {
    cubes: Cubes,
    summaries: Summaries,
    all: Summary,
    // how many of the first cubes are known to be met by some state
    met: u32,
}

impl Model for Segment {
    ghost use Rattle.std.specs.Prelude.{◌≡◌, ◌≤◌, length};
    ghost use Rattle.cover_index.specs.Sealed.{Sealed};

    ghost Value = { Sealed };

    ghost view = { λ s. record { cubes = s.cubes; summaries = s.summaries; all = s.all; met = s.met } };

    ghost invariant = { λ s. (length s.summaries ≡ length s.cubes) × (length s.cubes ≤ 64) × (s.met ≤ length s.cubes) };
}

// The summary of each cube.
fn summaries_of(alloc: Global, protocol: &Protocol, cubes: &[Cube]) -> Result<Summaries, Memory>
    requires askable { All (IsAskable protocol.now) cubes.now }
    requires few { length cubes.now ≤ 64 }
    ensures { IfOk result (λ summaries. AreSummed protocol.now cubes.now summaries) }
{
    let mut summaries = Summaries::new(alloc);
    for i in 0..cubes.len() {
        match summaries.push(&Summary::of(protocol, &cubes[i])) {
            Ok(()) => {}
            Err(_) => return Err(Memory),
        }
    }
    Ok(summaries)
}

// The summary of the cubes of all.
fn joined(summaries: &[Summary]) -> Summary
    ensures { (i : ℕ) → i < length summaries.now → Joins (summary_at summaries.now i) result }
{
    let mut all = Summary::nothing();
    for i in 0..summaries.len() {
        all = all.join(&summaries[i]);
    }
    all
}

// How many of the first cubes are met by some state, up to the first that is not.
fn first_met(alloc: Global, protocol: &Protocol, cubes: &[Cube]) -> Result<u32, Memory>
    requires askable { All (IsAskable protocol.now) cubes.now }
    requires few { length cubes.now < 2 ^ 32 }
    ensures within { IfOk result (λ met. met ≤ length cubes.now) }
    ensures known { IfOk result (λ met. AreMet protocol.now cubes.now met) }
{
    let mut scratch = Scratch::new(alloc, protocol)?;
    Ok(below::count_met(&mut scratch, protocol, cubes, 0))
}

impl Segment {
    ghost use Rattle.std.specs.Prelude.{◌≡◌, ◌∷◌, ◌++◌, ◌<◌, ◌≤◌, [], length, take, IfOk, IfErr, OnOk, OnErr};
    ghost use Rattle.cover_index.specs.Sealed.{IsSealedFor, no_segment};

    /// Seals the cubes for the protocol. Refused, it hands them back.
    pub fn seal(protocol: &Protocol, cubes: Cubes) -> Result<Segment, (Cubes, Memory)>
        requires few { length cubes ≤ 64 }
        requires fit { All (IsAskable protocol.now) cubes }
        ensures ok { IfOk result (λ s. s.cubes ≡ cubes) }
        ensures serves { IfOk result (λ s. IsSealedFor protocol.now s) }
        ensures back { IfErr result (λ e. e.0 ≡ cubes) }
    {
        let summaries = match summaries_of(cubes.allocator(), protocol, cubes.as_slice()) {
            Ok(summaries) => summaries,
            Err(_) => return Err((cubes, Memory)),
        };
        match first_met(cubes.allocator(), protocol, cubes.as_slice()) {
            Ok(met) => Ok(Segment {
                all: joined(summaries.as_slice()),
                cubes,
                summaries,
                met,
            }),
            Err(_) => Err((cubes, Memory)),
        }
    }

    /// No cubes. It takes no memory.
    pub(crate) fn empty(alloc: Global) -> Segment
        ensures { result ≡ no_segment }
    {
        Segment {
            cubes: Items::new(alloc),
            summaries: Summaries::new(alloc),
            all: Summary::nothing(),
            met: 0,
        }
    }

    /// Appends a cube with its summary. Refused, it hands the cube back.
    pub(crate) fn push(&mut self, cube: Cube, own: &Summary) -> Result<(), (Cube, Memory)>
        requires { length self.old.cubes < 64 }
        ensures one_each { length self.old.summaries ≡ length self.old.cubes }
        ensures cubes { OnOk result (self.new.cubes ≡ self.old.cubes ++ cube ∷ []) }
        ensures summaries { OnOk result (self.new.summaries ≡ self.old.summaries ++ own.now ∷ []) }
        ensures err { OnErr result (self.new ≡ self.old) }
        ensures back { IfErr result (λ e. e.0 ≡ cube) }
    {
        let count = self.cubes.len();
        match self.summaries.push(own) {
            Ok(()) => {}
            Err(_) => return Err((cube, Memory)),
        }
        match self.cubes.push(cube) {
            Ok(()) => {
                self.all = self.all.join(own);
                Ok(())
            }
            Err(failed) => {
                self.summaries.truncate(count);
                Err((failed.value, Memory))
            }
        }
    }

    /// Keeps the first `count` cubes.
    pub(crate) fn truncate(&mut self, count: usize)
        ensures cubes { self.new.cubes ≡ take count self.old.cubes }
        ensures summaries { self.new.summaries ≡ take count self.old.summaries }
    {
        self.cubes.truncate(count);
        self.summaries.truncate(count);
        self.met = self.met.min(self.cubes.len() as u32);
    }

    /// A segment of its own with the first `count` cubes.
    pub(crate) fn copy_first(&self, count: usize) -> Result<Segment, Memory>
        requires { count ≤ length self.now.cubes }
        ensures cubes { IfOk result (λ s. s.cubes ≡ take count self.now.cubes) }
        ensures summaries { IfOk result (λ s. s.summaries ≡ take count self.now.summaries) }
    {
        let cubes = self.cubes.as_slice();
        let summaries = self.summaries.as_slice();
        let mut copy = Segment::empty(self.cubes.allocator());
        for i in 0..count {
            match copy.push(cubes[i].copy()?, &summaries[i]) {
                Ok(()) => {}
                Err((_cube, memory)) => return Err(memory),
            }
        }
        Ok(copy)
    }

    /// Where the cubes lie.
    pub(crate) fn allocator(&self) -> Global {
        self.cubes.allocator()
    }

    /// The summaries of the cubes.
    pub(crate) fn summaries(&self) -> &Summaries
        ensures value { result.now ≡ self.now.summaries }
        ensures one_each { length self.now.summaries ≡ length self.now.cubes }
    {
        &self.summaries
    }

    /// The number of cubes.
    pub fn count(&self) -> u32
        ensures { result ≡ length self.now.cubes }
    {
        self.cubes.len() as u32
    }

    /// The cubes.
    pub fn cubes(&self) -> &[Cube]
        ensures { result.now ≡ self.now.cubes }
    {
        self.cubes.as_slice()
    }

    /// The first cube from the number `start` on that covers the given one, with the least places.
    pub fn find(
        &self,
        scratch: &mut Scratch,
        protocol: &Protocol,
        start: u32,
        cube: &Cube,
    ) -> Option<(u32, Places)>
        requires serves { IsSealedFor protocol.now self.now }
        requires made { IsFor protocol.now scratch.old }
        requires fit { IsAskable protocol.now cube.now }
        ensures first { IsFirstCover protocol.now self.now.cubes start (length self.now.cubes) cube.now result }
        ensures made { IsFor protocol.now scratch.new }
        ensures tests { RisesForCovers protocol.now self.now.cubes start (length self.now.cubes) cube.now scratch.old.tests scratch.new.tests }
    {
        let own = Summary::of(protocol, cube);
        let consistent = load_small(scratch, protocol, cube);
        if passes_over(consistent, &self.all, &own) {
            return None;
        }
        let cubes = self.cubes.as_slice();
        let upto = cubes.len() as u32;
        above::first_among(
            scratch,
            protocol,
            cubes,
            &self.summaries,
            start,
            upto,
            cube,
            &own,
            &lacking(&own),
            consistent,
        )
    }

    /// The first cube from the number `start` on that the given one covers, with the least places.
    pub fn under(
        &self,
        scratch: &mut Scratch,
        protocol: &Protocol,
        start: u32,
        cube: &Cube,
    ) -> Option<(u32, Places)>
        requires serves { IsSealedFor protocol.now self.now }
        requires made { IsFor protocol.now scratch.old }
        requires fit { IsAskable protocol.now cube.now }
        ensures first { IsFirstUnder protocol.now self.now.cubes start (length self.now.cubes) cube.now result }
        ensures made { IsFor protocol.now scratch.new }
        ensures tests { RisesForUnder protocol.now self.now.cubes start (length self.now.cubes) cube.now scratch.old.tests scratch.new.tests }
    {
        let own = Summary::of(protocol, cube);
        let cubes = self.cubes.as_slice();
        let upto = cubes.len() as u32;
        if passes_over(upto <= self.met, &own, &self.all) {
            return None;
        }
        below::first_among(
            scratch,
            protocol,
            cubes,
            &self.summaries,
            start,
            upto,
            cube,
            &own,
            &needing(&own),
            self.met,
        )
    }
}
