//! The plain list of cubes, searched from one end to the other. Other finders are measured by it.

ghost use Rattle.std.specs.Prelude.{◌≡◌, ◌∷◌, ◌++◌, ◌↔◌, ◌-◌, ◌^◌, ◌<◌, ◌≤◌, ℕ, [], length, map, take, nat_lt, if◌then◌else◌, slice_index, All, IsTrue, false, OnOk, OnErr, IfOk, IfErr, IsSome};
ghost use Rattle.cub_cube.specs.Cover.{DoesCover, IsCovered};
ghost use Rattle.log_form.specs.Pieces.{IsAskable};
ghost use Rattle.log_form.specs.Links.{cube_at, IsFirstCover, IsFirstUnder};
ghost use Rattle.theory.specs.Made.{IsFor};
ghost use Rattle.subsume.specs.Ready.{IsReady};
ghost use Rattle.subsume.specs.Scanned.{AreRetired};

use crate::covering::{covers, covers_loaded, load_small};
use crate::finder::{Finder, MadeFor};
use cub_base::{Items, Memory, Places};
use cub_cube::{Cube, Cubes};
use cub_proto::Protocol;
use std::alloc::Global;
use std::marker::Model;
use theory::Scratch;

impl MadeFor for Scratch {
    ghost use Rattle.theory.specs.Made.{IsFor};

    ghost made_for = { λ scratch p. IsFor p scratch };
}

/// A list of cubes. A search goes over all of them.
#[derive(Drop)]
pub struct Scan {
    cubes: Cubes,
    // by which later cube each is retired; 0 where by none
    retired: Vec<u32>,
}

impl Model for Scan {
    ghost use Rattle.std.specs.Prelude.{◌≡◌, ◌<◌, ◌^◌, length};
    ghost use Rattle.subsume.specs.Scanned.{Scanned};

    ghost Value = { Scanned };

    ghost view = { λ s. record { cubes = s.cubes; retired = s.retired.items } };

    ghost invariant = { λ s. (length s.retired.items ≡ length s.cubes) × (length s.cubes < 2 ^ 32) };
}

impl Scan {
    /// No cubes. It takes no memory.
    pub fn new(alloc: Global) -> Scan
        ensures { result ≡ record { cubes = []; retired = [] } }
    {
        Scan {
            cubes: Items::new(alloc),
            retired: Vec::new(alloc),
        }
    }
}

// The first cube from `start` on that covers the given one.
fn first_cover(
    scratch: &mut Scratch,
    protocol: &Protocol,
    cubes: &[Cube],
    start: u32,
    cube: &Cube,
) -> Option<(u32, Places)>
    requires made { IsFor protocol.now scratch.old }
    requires askable { All (IsAskable protocol.now) cubes.now }
    requires fit { IsAskable protocol.now cube.now }
    requires few { length cubes.now < 2 ^ 32 }
    ensures made { IsFor protocol.now scratch.new }
    ensures first { IsFirstCover protocol.now cubes.now start (length cubes.now) cube.now result }
{
    let consistent = load_small(scratch, protocol, cube);
    for i in start..cubes.len() as u32 {
        match covers_loaded(scratch, protocol, cube, consistent, &cubes[i as usize]) {
            Some(places) => return Some((i, places)),
            None => {}
        }
    }
    None
}

// The first cube from `start` on that the given one covers.
fn first_under(
    scratch: &mut Scratch,
    protocol: &Protocol,
    cubes: &[Cube],
    start: u32,
    cube: &Cube,
) -> Option<(u32, Places)>
    requires made { IsFor protocol.now scratch.old }
    requires askable { All (IsAskable protocol.now) cubes.now }
    requires fit { IsAskable protocol.now cube.now }
    requires few { length cubes.now < 2 ^ 32 }
    ensures made { IsFor protocol.now scratch.new }
    ensures first { IsFirstUnder protocol.now cubes.now start (length cubes.now) cube.now result }
{
    for number in start..cubes.len() as u32 {
        match covers(scratch, protocol, cube, &cubes[number as usize]) {
            Some(places) => return Some((number, places)),
            None => {}
        }
    }
    None
}

// Whether the cube, if none has retired it, covers the loaded one.
fn is_cover(
    scratch: &mut Scratch,
    protocol: &Protocol,
    cube: &Cube,
    consistent: bool,
    retired: u32,
    big: &Cube,
) -> bool
    requires ready { IsReady protocol.now cube.now consistent scratch.old }
    requires fit { IsAskable protocol.now big.now }
    ensures ready { IsReady protocol.now cube.now consistent scratch.new }
    ensures does { IsTrue result → DoesCover protocol.now big.now cube.now }
    ensures none { result ≡ false → retired ≡ 0 → DoesCover protocol.now big.now cube.now → ⊥ }
{
    if retired != 0 {
        return false;
    }
    match covers_loaded(scratch, protocol, cube, consistent, big) {
        Some(_) => true,
        None => false,
    }
}

// Whether some cube covers the given one. Retired cubes are passed over: what covers them comes later.
fn some_cover(
    scratch: &mut Scratch,
    protocol: &Protocol,
    cubes: &[Cube],
    retired: &[u32],
    cube: &Cube,
) -> bool
    requires made { IsFor protocol.now scratch.old }
    requires askable { All (IsAskable protocol.now) cubes.now }
    requires covered { AreRetired protocol.now cubes.now retired.now }
    requires one_each { length retired.now ≡ length cubes.now }
    requires fit { IsAskable protocol.now cube.now }
    ensures made { IsFor protocol.now scratch.new }
    ensures value { IsTrue result ↔ IsCovered protocol.now cubes.now cube.now }
{
    let consistent = load_small(scratch, protocol, cube);
    for i in 0..cubes.len() {
        if is_cover(scratch, protocol, cube, consistent, retired[i], &cubes[i]) {
            return true;
        }
    }
    false
}

// The cube that retired another, if it is one of the first.
fn kept_by(by: u32, count: u32) -> u32
    ensures { result ≡ (if nat_lt by count then by else 0) }
{
    if by < count { by } else { 0 }
}

// Takes back what cubes from `count` on have retired.
fn revive(retired: &mut [u32], count: u32)
    ensures { retired.new ≡ map (λ by. if nat_lt by count then by else 0) retired.old }
{
    for by in retired.iter_mut() {
        *by = kept_by(*by, count);
    }
}

impl Finder<Scratch> for Scan {
    ghost use Rattle.subsume.specs.Scanned.{IsServing, nothing_serves};

    ghost list = { λ s. s.cubes };

    ghost serves = { λ s p. IsServing p s };

    fn push(&mut self, _protocol: &Protocol, cube: Cube) -> Result<u32, (Cube, Memory)> {
        let number = self.cubes.len() as u32;
        match self.retired.push(0) {
            Ok(()) => {}
            Err(_) => return Err((cube, Memory)),
        }
        match self.cubes.push(cube) {
            Ok(()) => Ok(number),
            Err(failed) => {
                self.retired.truncate(number as usize);
                Err((failed.value, Memory))
            }
        }
    }

    fn find(
        &mut self,
        scratch: &mut Scratch,
        protocol: &Protocol,
        start: u32,
        cube: &Cube,
    ) -> Option<(u32, Places)> {
        first_cover(scratch, protocol, self.cubes.as_slice(), start, cube)
    }

    fn under(
        &mut self,
        scratch: &mut Scratch,
        protocol: &Protocol,
        start: u32,
        cube: &Cube,
    ) -> Option<(u32, Places)> {
        first_under(scratch, protocol, self.cubes.as_slice(), start, cube)
    }

    fn is_covered(&mut self, scratch: &mut Scratch, protocol: &Protocol, cube: &Cube) -> bool {
        some_cover(
            scratch,
            protocol,
            self.cubes.as_slice(),
            self.retired.as_slice(),
            cube,
        )
    }

    fn count(&self) -> u32 {
        self.cubes.len() as u32
    }

    fn cube(&self, number: u32) -> &Cube {
        &self.cubes.as_slice()[number as usize]
    }

    fn retire(&mut self, _protocol: &Protocol, number: u32, by: u32) {
        self.retired[number as usize] = by;
    }

    fn cut(&mut self, count: u32) {
        self.cubes.truncate(count as usize);
        self.retired.truncate(count as usize);
        revive(&mut self.retired, count);
    }

    ghost empty_serves = { nothing_serves };
}
