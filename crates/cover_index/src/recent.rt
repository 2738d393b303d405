//! The groups of a list in which covers were found of late. Pieces that are asked about one after the other are often covered
//! by cubes of the same few groups. Four of them are remembered: they are looked at in each search, also where nothing covers,
//! so they have to be few.

use crate::parts::GROUP;
use std::marker::Model;

/// Up to four distinct groups, by their numbers, the most recent first. They are a hint alone: a group may be past the end of
/// the list.
#[derive(Drop)]
pub(crate) struct Recent {
    groups: [u32; 4],
    count: usize,
}

impl Model for Recent {
    ghost use Rattle.std.specs.Prelude.{◌≢◌, ◌≤◌, ℕ, List, take, AllPairs};

    ghost Value = { List ℕ };

    ghost view = { λ s. take s.count s.groups };

    ghost invariant = { λ s. (s.count ≤ 4) × AllPairs (λ x y. x ≢ y) (take s.count s.groups) };
}

impl Recent {
    ghost use Rattle.std.specs.Prelude.{◌≡◌, ◌≢◌, ◌/◌, ◌≤◌, ◌↔◌, [], length, AllPairs, Contains, IsTrue};
    ghost use Rattle.cover_index.specs.Noted.{in_front};

    /// No groups.
    pub(crate) fn new() -> Recent
        ensures { result ≡ [] }
    {
        Recent {
            groups: [0; 4],
            count: 0,
        }
    }

    /// The groups.
    pub(crate) fn as_slice(&self) -> &[u32]
        ensures value { result.now ≡ self.now }
        ensures few { length self.now ≤ 4 }
        ensures distinct { AllPairs (λ x y. x ≢ y) self.now }
    {
        &self.groups[..self.count]
    }

    /// Whether the group is one of them.
    pub(crate) fn has(&self, group: u32) -> bool
        ensures { IsTrue result ↔ Contains self.now group }
    {
        self.as_slice().contains(&group)
    }

    /// Puts the group of the cube with that number in front; of more than four the oldest goes.
    pub(crate) fn note(&mut self, number: u32)
        ensures { self.new ≡ in_front self.old (number / 64) }
    {
        let group = number / GROUP;
        let mut groups = [group; 4];
        let mut count = 1;
        for other in self.as_slice() {
            if *other != group && count < groups.len() {
                groups[count] = *other;
                count += 1;
            }
        }
        *self = Recent { groups, count };
    }

    /// The same groups.
    pub(crate) fn copy(&self) -> Recent
        ensures { result ≡ self.now }
    {
        Recent {
            groups: self.groups,
            count: self.count,
        }
    }
}
