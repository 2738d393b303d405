//! The summaries of up to 64 cubes. Of each, one word of what it needs and one of what it offers is kept apart too, turned round
//! with those of the others: most pairs of cubes are told apart by the memberships in one constructor or by the values of
//! integer terms, and a search finds in a few operations which cubes of a segment are left.

ghost use Rattle.std.specs.Prelude.{◌≡◌, ◌∷◌, ◌++◌, ◌<◌, ◌≤◌, ℕ, [], length, take, not, OnOk, OnErr};
ghost use Rattle.cub_proto.specs.Truth.{has_bit};
ghost use Rattle.subsume.specs.declared.summary.Summary.{Summary};
ghost use Rattle.cover_index.specs.Asked.{needs_key, offers_key};
ghost use Rattle.cover_index.specs.Columns.{AreFilled, lacks, needs};

use crate::columns::{beyond, filled, make, put};
use cub_base::Memory;
use std::alloc::Global;
use std::marker::Model;
use subsume::Summary;

/// Summaries, with their words.
#[derive(Drop)]
pub(crate) struct Summaries {
    all: Vec<Summary>,
    // what they need, and what they do not offer
    needs: Vec<u64>,
    lacks: Vec<u64>,
}

impl Model for Summaries {
    ghost use Rattle.std.specs.Prelude.{◌≤◌, List, length};
    ghost use Rattle.subsume.specs.declared.summary.Summary.{Summary};
    ghost use Rattle.cover_index.specs.Columns.{AreColumns, needs_mark, lacks_mark};

    ghost Value = { List Summary };

    ghost view = { λ s. s.all.items };

    ghost invariant = { λ s. (length s.needs.items ≤ 64) × (length s.lacks.items ≤ 64) × AreColumns s.needs.items (length s.all.items) (needs_mark s.all.items) × AreColumns s.lacks.items (length s.all.items) (lacks_mark s.all.items) };
}

// The word of what the cubes need that is kept apart.
fn needs_key(summary: &Summary) -> u64
    ensures { result ≡ needs_key summary.now }
{
    summary.needs.constructors | summary.needs.values
}

// The word of what they offer.
fn offers_key(summary: &Summary) -> u64
    ensures { result ≡ offers_key summary.now }
{
    summary.offers.constructors | summary.offers.values
}

// The word of what they do not offer.
fn lacks_key(summary: &Summary) -> u64
    ensures { (b : ℕ) → b < 64 → has_bit result b ≡ not (has_bit (offers_key summary.now) b) }
{
    beyond(u64::MAX, offers_key(summary))
}

/// A word for each mark, filled where the cube does not offer it.
pub(crate) fn lacking(own: &Summary) -> [u64; 64]
    ensures { AreFilled result (lacks own.now) }
{
    filled(lacks_key(own))
}

/// A word for each mark, filled where the cube needs it.
pub(crate) fn needing(own: &Summary) -> [u64; 64]
    ensures { AreFilled result (needs own.now) }
{
    filled(needs_key(own))
}

impl Summaries {
    ghost use Rattle.std.specs.Prelude.{◌≡◌, ◌∷◌, ◌++◌, ◌<◌, ◌≤◌, [], length, take, OnOk, OnErr};
    ghost use Rattle.cover_index.specs.Columns.{AreColumns, needs_mark, lacks_mark};

    /// No summaries.
    pub(crate) fn new(alloc: Global) -> Summaries
        ensures { result ≡ [] }
    {
        Summaries {
            all: Vec::new(alloc),
            needs: Vec::new(alloc),
            lacks: Vec::new(alloc),
        }
    }

    /// The summaries.
    pub(crate) fn as_slice(&self) -> &[Summary]
        ensures { result.now ≡ self.now }
    {
        self.all.as_slice()
    }

    /// What the cubes need, by the words that are kept apart.
    pub(crate) fn needs(&self) -> &[u64]
        ensures few { length result.now ≤ 64 }
        ensures turned { AreColumns result.now (length self.now) (needs_mark self.now) }
    {
        self.needs.as_slice()
    }

    /// What the cubes do not offer, by the words that are kept apart.
    pub(crate) fn lacks(&self) -> &[u64]
        ensures few { length result.now ≤ 64 }
        ensures turned { AreColumns result.now (length self.now) (lacks_mark self.now) }
    {
        self.lacks.as_slice()
    }

    /// Appends a summary.
    pub(crate) fn push(&mut self, own: &Summary) -> Result<(), Memory>
        requires { length self.old < 64 }
        ensures ok { OnOk result (self.new ≡ self.old ++ own.now ∷ []) }
        ensures err { OnErr result (self.new ≡ self.old) }
    {
        make(&mut self.needs)?;
        make(&mut self.lacks)?;
        let at = self.all.len() as u32;
        match self.all.push(*own) {
            Ok(()) => {
                put(&mut self.needs, at, needs_key(own));
                put(&mut self.lacks, at, lacks_key(own));
                Ok(())
            }
            Err(_) => Err(Memory),
        }
    }

    /// Keeps the first `len` summaries.
    pub(crate) fn truncate(&mut self, len: usize)
        ensures { self.new ≡ take len self.old }
    {
        self.all.truncate(len);
    }
}
