//! The cubes of a list with their summaries, in segments of 64 that other lists may share. The last segment may have more
//! cubes than the list shows: those that were cut stay for the other owners.

ghost use Rattle.std.specs.Prelude.{◌≡◌, ◌∷◌, ◌++◌, ◌*◌, ◌/◌, ◌%◌, ◌-◌, ◌^◌, ◌<◌, ◌≤◌, ℕ, [], length, take, IfOk, IfErr, OnOk, OnErr};
ghost use Rattle.log_form.specs.Links.{cube_at};
ghost use Rattle.cover_index.specs.Stored.{Shows, IsStillShown, HoldsShown, segment_at};

use crate::noting::groups_of;
use crate::parts::GROUP;
use crate::segment::Segment;
use crate::shared::Shared;
use cub_base::Memory;
use cub_cube::Cube;
use std::alloc::Global;
use std::marker::Model;
use subsume::Summary;

/// The first cubes of the segments, `count` of them.
#[derive(Drop)]
pub(crate) struct Store {
    segments: Vec<Shared>,
    count: u32,
}

impl Model for Store {
    ghost use Rattle.std.specs.Prelude.{◌≤◌, ◌*◌, length};
    ghost use Rattle.cover_index.specs.Stored.{Stored, shown, HoldsShown};

    ghost Value = { Stored };

    ghost view = { λ s. shown s.segments.items s.count };

    ghost invariant = { λ s. (s.count ≤ 64 * length s.segments.items) × HoldsShown s.segments.items s.count };
}

// Makes the segment in which the next cube comes one that no other list has, with the shown cubes alone.
fn make_room(alloc: Global, segments: &mut Vec<Shared>, count: u32) -> Result<(), Memory>
    requires enough { count ≤ 64 * length segments.old.items }
    requires holds { HoldsShown segments.old.items count }
    ensures shown { IsStillShown segments.old.items segments.new.items count }
    ensures there { OnOk result (count / 64 < length segments.new.items) }
    ensures room { OnOk result (length (segment_at segments.new.items (count / 64)).cubes ≡ count % 64) }
{
    let at = (count / GROUP) as usize;
    if at < segments.len() {
        return segments[at].keep_alone((count % GROUP) as usize);
    }
    match segments.push(Shared::empty(alloc)?) {
        Ok(()) => Ok(()),
        Err(_) => Err(Memory),
    }
}

// Segments with one more owner each.
fn share_all(alloc: Global, segments: &[Shared]) -> Result<Vec<Shared>, Memory>
    ensures { IfOk result (λ list. list.items ≡ segments.now) }
{
    let mut list = Vec::new(alloc);
    for segment in segments {
        match list.push(segment.share()?) {
            Ok(()) => {}
            Err(_) => return Err(Memory),
        }
    }
    Ok(list)
}

impl Store {
    ghost use Rattle.std.specs.Prelude.{◌≡◌, ◌∷◌, ◌++◌, ◌%◌, ◌-◌, ◌^◌, ◌<◌, ◌≤◌, [], length, take, IfOk, IfErr, OnOk, OnErr};
    ghost use Rattle.log_form.specs.Links.{cube_at};
    ghost use Rattle.cover_index.specs.Stored.{Shows};

    /// No cubes. It takes no memory.
    pub(crate) fn new(alloc: Global) -> Store
        ensures { result ≡ record { cubes = []; summaries = [] } }
    {
        Store {
            segments: Vec::new(alloc),
            count: 0,
        }
    }

    /// The number of cubes.
    pub(crate) fn count(&self) -> u32
        ensures value { result ≡ length self.now.cubes }
        ensures one_each { length self.now.summaries ≡ length self.now.cubes }
    {
        self.count
    }

    /// The cube with that number.
    pub(crate) fn cube(&self, number: u32) -> &Cube
        requires { number < length self.now.cubes }
        ensures { result.now ≡ cube_at self.now.cubes number }
    {
        let segment = self.segments[(number / GROUP) as usize].get();
        &segment.cubes()[(number % GROUP) as usize]
    }

    /// The segment of the cube with that number.
    pub(crate) fn segment(&self, number: u32) -> &Segment
        requires { number < length self.now.cubes }
        ensures { Shows self.now (number - number % 64) result.now }
    {
        self.segments[(number / GROUP) as usize].get()
    }

    /// Appends a cube with its summary. Refused, it hands the cube back.
    pub(crate) fn push(&mut self, cube: Cube, own: &Summary) -> Result<(), (Cube, Memory)>
        requires { length self.old.cubes < 2 ^ 32 - 1 }
        ensures ok { OnOk result (self.new ≡ record { cubes = self.old.cubes ++ cube ∷ []; summaries = self.old.summaries ++ own.now ∷ [] }) }
        ensures err { OnErr result (self.new ≡ self.old) }
        ensures back { IfErr result (λ e. e.0 ≡ cube) }
    {
        let alloc = *self.segments.allocator();
        match make_room(alloc, &mut self.segments, self.count) {
            Ok(()) => {}
            Err(memory) => return Err((cube, memory)),
        }
        match self.segments[(self.count / GROUP) as usize].push(cube, own) {
            Ok(()) => {
                self.count += 1;
                Ok(())
            }
            Err(refused) => Err(refused),
        }
    }

    /// Keeps the first `count` cubes.
    pub(crate) fn cut(&mut self, count: u32)
        requires { count ≤ length self.old.cubes }
        ensures { self.new ≡ record { cubes = take count self.old.cubes; summaries = take count self.old.summaries } }
    {
        self.segments.truncate(groups_of(count as usize, GROUP));
        self.count = count;
    }

    /// An equal list that shares the segments.
    pub(crate) fn share(&self) -> Result<Store, Memory>
        ensures { IfOk result (λ s. s ≡ self.now) }
    {
        let segments = share_all(*self.segments.allocator(), self.segments.as_slice())?;
        Ok(Store {
            segments,
            count: self.count,
        })
    }
}
