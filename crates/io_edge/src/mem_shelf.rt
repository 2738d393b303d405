//! A shelf in memory, for tests and for callers that hold their texts. It tells everything that a shelf can tell, and
//! it can be made to fail at given loads.

ghost use Rattle.std.specs.Prelude.{◌≡◌, ◌≢◌, ◌≤◌, ◌++◌, [], ◌∷◌, length, Some, Ok, Err, IfSome, IfOk, IfErr, OnOk, OnErr, IsErrOf, IsTrue};
ghost use Rattle.io_edge.specs.Faults.{Rose};
ghost use Rattle.io_edge.specs.Shelf.{AddsName, IsOver};
ghost use Rattle.io_edge.specs.Files.{content_of};
ghost use Rattle.io_edge.specs.MemoryShelf.{outcome_of};

use crate::calls::is_among;
use crate::{Calls, Files, LoadFault, Shelf};
use cub_base::{Items, Text};
use std::alloc::{AllocError, Global};
use std::marker::Model;

/// Gives the files that it was made with. A name that it does not hold is a fault.
#[derive(Drop)]
pub struct MemShelf {
    files: Files,
    fails: Calls,
    asked: Items<Text>,
    taken: u64,
    faults: u64,
}

impl Model for MemShelf {
    ghost use Rattle.io_edge.specs.MemoryShelf.{MemoryShelf};

    ghost Value = { MemoryShelf };

    ghost view = { λ shelf. record {
      files = shelf.files;
      fails = shelf.fails;
      asked = shelf.asked;
      taken = shelf.taken;
      faults = shelf.faults;
    } };
}

impl MemShelf {
    /// A shelf with these files, which fails at the loads of `fails`.
    pub fn new(alloc: Global, files: Files, fails: Calls) -> MemShelf
        ensures { result ≡ record { files = files; fails = fails; asked = []; taken = 0; faults = 0 } }
    {
        MemShelf {
            files,
            fails,
            asked: Items::new(alloc),
            taken: 0,
            faults: 0,
        }
    }

    /// The names asked for, the first one first.
    pub fn asked(&self) -> &Items<Text>
        ensures { result.now ≡ self.now.asked }
    {
        &self.asked
    }

    /// How often it failed. The count stays at the greatest u64.
    pub fn faults(&self) -> u64
        ensures { result ≡ self.now.faults }
    {
        self.faults
    }
}

impl Shelf for MemShelf {
    ghost use Rattle.std.specs.Prelude.{ℕ, List};
    ghost use Rattle.io_edge.specs.Faults.{one_higher};
    ghost use Rattle.io_edge.specs.MemoryShelf.{is_sure_of, load_of};

    ghost faults = { λ shelf. shelf.faults };

    ghost taken = { λ shelf. shelf.taken };

    ghost bytes_of = { λ shelf name. content_of shelf.files name };

    ghost asked = { λ shelf. Some shelf.asked };

    ghost is_sure = { is_sure_of };

    fn load(&mut self, alloc: Global, name: &str, limit: u64) -> Result<Vec<u8>, LoadFault>
        // What every shelf says.
        ensures within { IfOk result (λ given. length given.items ≤ limit) }
        ensures told { IfSome (content_of self.old.files name.now) (λ bytes. IfOk result (λ given. given.items ≡ bytes)) }
        ensures too_long { IsErrOf result LoadFault.TooLong → IsOver (content_of self.old.files name.now) self.new.taken limit }
        ensures failed { IsErrOf result LoadFault.Failed → Rose self.old.faults self.new.faults }
        ensures never_falls { self.old.faults ≤ self.new.faults }
        ensures sure { IsTrue (is_sure_of self.old name.now) → self.new.faults ≡ self.old.faults }
        ensures asked { AddsName (Some self.old.asked) (Some self.new.asked) name.now result }
        ensures same { (other : List ℕ) → content_of self.new.files other ≡ content_of self.old.files other }
        ensures stays_sure { (other : List ℕ) → IsTrue (is_sure_of self.old other) → IsTrue (is_sure_of self.new other) }

        // What this one says.
        ensures given { IfOk result (λ given. load_of self.old name.now limit ≡ Ok given.items) }
        ensures fault { IfErr result (λ fault. fault ≢ LoadFault.Memory → load_of self.old name.now limit ≡ Err fault) }
        ensures one_fault { IsErrOf result LoadFault.Failed → self.new.faults ≡ one_higher self.old.faults }
        ensures no_fault { ¬ (IsErrOf result LoadFault.Failed) → self.new.faults ≡ self.old.faults }
        ensures taken { IfOk result (λ given. self.new.taken ≡ length given.items) }
        ensures not_taken { OnErr result (self.new.taken ≡ 0) }
        ensures files { self.new.files ≡ self.old.files }
        ensures fails { self.new.fails ≡ self.old.fails }
    {
        self.taken = 0;
        let fails = is_among(&self.fails, self.asked.len() as u64);
        ask(&mut self.asked, name)?;
        match give(alloc, &self.files, fails, name, limit) {
            Ok(bytes) => {
                self.taken = bytes.len() as u64;
                Ok(bytes)
            }
            Err(LoadFault::Failed) => {
                self.faults = self.faults.saturating_add(1);
                Err(LoadFault::Failed)
            }
            Err(LoadFault::TooLong) => Err(LoadFault::TooLong),
            Err(LoadFault::Memory) => Err(LoadFault::Memory),
        }
    }
}

// Adds the name to those asked for.
fn ask(asked: &mut Items<Text>, name: &str) -> Result<(), AllocError>
    ensures ok { OnOk result (asked.new ≡ asked.old ++ name.now ∷ []) }
    ensures err { OnErr result (asked.new ≡ asked.old) }
{
    let name = Items::from_slice(asked.allocator(), name.as_bytes())?;
    asked.push(name)?;
    Ok(())
}

// What the files give within the limit, if this load is not to fail.
fn give(
    alloc: Global,
    files: &Files,
    fails: bool,
    name: &str,
    limit: u64,
) -> Result<Vec<u8>, LoadFault>
    ensures given { IfOk result (λ given. outcome_of files.now fails name.now limit ≡ Ok given.items) }
    ensures fault { IfErr result (λ fault. fault ≢ LoadFault.Memory → outcome_of files.now fails name.now limit ≡ Err fault) }
{
    if fails {
        return Err(LoadFault::Failed);
    }
    let Some(bytes) = files.bytes_of(name) else {
        return Err(LoadFault::Failed);
    };
    if bytes.len() as u64 > limit {
        return Err(LoadFault::TooLong);
    }
    Ok(Vec::from_slice(alloc, bytes)?)
}
