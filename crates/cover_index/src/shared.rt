//! Segments with several owners.

ghost use Rattle.std.specs.Prelude.{◌≡◌, ◌∷◌, ◌++◌, ◌<◌, ◌≤◌, [], length, take, IsTrue, IsFalse, IfOk, IfErr, OnOk, OnErr};
ghost use Rattle.cover_index.specs.Sealed.{no_segment};

use crate::segment::Segment;
use cub_base::Memory;
use cub_cube::Cube;
use std::alloc::Global;
use std::marker::Model;
use std::sync::Arc;
use subsume::Summary;

/// A segment that several lists may own. It changes for none of the others.
#[derive(Drop)]
pub(crate) struct Shared {
    inner: Arc<Segment>,
}

impl Model for Shared {
    ghost use Rattle.std.specs.Arc.{arc_value};
    ghost use Rattle.cover_index.specs.Sealed.{Sealed};

    ghost Value = { Sealed };

    ghost view = { λ s. arc_value s.inner };
}

impl Shared {
    ghost use Rattle.std.specs.Prelude.{◌≡◌, ◌∷◌, ◌++◌, ◌<◌, ◌≤◌, [], length, take, IsTrue, IsFalse, IfOk, IfErr, OnOk, OnErr};
    ghost use Rattle.cover_index.specs.Sealed.{no_segment};

    /// A segment without cubes.
    pub(crate) fn empty(alloc: Global) -> Result<Shared, Memory>
        ensures { IfOk result (λ s. s ≡ no_segment) }
    {
        match Arc::new(alloc, Segment::empty(alloc)) {
            Ok(inner) => Ok(Shared { inner }),
            Err(_) => Err(Memory),
        }
    }

    /// The segment.
    pub(crate) fn get(&self) -> &Segment
        ensures { result.now ≡ self.now }
    {
        &self.inner
    }

    /// The segment with one more owner.
    pub(crate) fn share(&self) -> Result<Shared, Memory>
        ensures { IfOk result (λ s. s ≡ self.now) }
    {
        match Arc::try_clone(&self.inner) {
            Ok(inner) => Ok(Shared { inner }),
            Err(_) => Err(Memory),
        }
    }

    // Keeps the first `count` cubes, where there is no other owner.
    fn truncate_alone(&mut self, count: usize) -> bool
        ensures cubes { IsTrue result → self.new.cubes ≡ take count self.old.cubes }
        ensures summaries { IsTrue result → self.new.summaries ≡ take count self.old.summaries }
        ensures same { IsFalse result → self.new ≡ self.old }
    {
        match Arc::get_mut(&mut self.inner) {
            Some(segment) => {
                segment.truncate(count);
                true
            }
            None => false,
        }
    }

    /// Keeps the first `count` cubes, as the one owner. Where there are others, they keep what they have, and those cubes
    /// are copied.
    pub(crate) fn keep_alone(&mut self, count: usize) -> Result<(), Memory>
        requires { count ≤ length self.old.cubes }
        ensures cubes { OnOk result (self.new.cubes ≡ take count self.old.cubes) }
        ensures summaries { OnOk result (self.new.summaries ≡ take count self.old.summaries) }
        ensures err { OnErr result (self.new ≡ self.old) }
    {
        if self.truncate_alone(count) {
            return Ok(());
        }
        let segment = self.inner.copy_first(count)?;
        match Arc::new(segment.allocator(), segment) {
            Ok(inner) => {
                self.inner = inner;
                Ok(())
            }
            Err(_) => Err(Memory),
        }
    }

    /// Appends a cube with its summary, as the one owner; where there are others, that is refused. Refused, it hands the cube
    /// back.
    pub(crate) fn push(&mut self, cube: Cube, own: &Summary) -> Result<(), (Cube, Memory)>
        requires { length self.old.cubes < 64 }
        ensures one_each { OnOk result (length self.old.summaries ≡ length self.old.cubes) }
        ensures cubes { OnOk result (self.new.cubes ≡ self.old.cubes ++ cube ∷ []) }
        ensures summaries { OnOk result (self.new.summaries ≡ self.old.summaries ++ own.now ∷ []) }
        ensures err { OnErr result (self.new ≡ self.old) }
        ensures back { IfErr result (λ e. e.0 ≡ cube) }
    {
        match Arc::get_mut(&mut self.inner) {
            Some(segment) => segment.push(cube, own),
            None => Err((cube, Memory)),
        }
    }
}
