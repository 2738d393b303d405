//! Files in memory: a list of names with their bytes, no name twice.

ghost use Rattle.std.specs.Prelude.{◌≡◌, [], ◌∷◌, ◌++◌, false, option_map, OnOk, OnErr};
ghost use Rattle.io_edge.specs.Files.{content_of, has_file};

use cub_base::{Items, Memory, Text};
use std::alloc::{AllocError, Global};
use std::marker::Model;

/// A name and its bytes.
#[derive(Debug, Drop)]
pub struct File {
    pub name: Text,
    pub bytes: Text,
}

/// Distinct names with their bytes.
#[derive(Debug, Drop)]
pub struct Files {
    list: Items<File>,
}

impl Model for Files {
    ghost use Rattle.std.specs.Prelude.{◌≡◌, List, true};
    ghost use Rattle.io_edge.specs.declared.files.File.{File};
    ghost use Rattle.io_edge.specs.Files.{are_distinct};

    ghost Value = { List File };

    ghost view = { λ files. files.list };

    ghost invariant = { λ files. are_distinct files.list ≡ true };
}

impl Files {
    /// No files.
    pub fn new(alloc: Global) -> Files
        ensures { result ≡ [] }
    {
        Files {
            list: Items::new(alloc),
        }
    }

    /// Whether there is a file with that name.
    pub fn has(&self, name: &str) -> bool
        ensures { result ≡ has_file self.now name.now }
    {
        self.bytes_of(name).is_some()
    }

    /// The bytes of the file with that name, if there is one.
    pub fn bytes_of(&self, name: &str) -> Option<&[u8]>
        ensures { option_map (λ bytes. bytes.now) result ≡ content_of self.now name.now }
    {
        let name = name.as_bytes();
        let file = self
            .list
            .as_slice()
            .iter()
            .find(|file| file.name.as_slice() == name)?;
        Some(file.bytes.as_slice())
    }

    /// Adds a file with a name that none has yet.
    pub fn add(&mut self, name: &str, bytes: &[u8]) -> Result<(), Memory>
        requires { has_file self.old name.now ≡ false }
        ensures ok { OnOk result (self.new ≡ self.old ++ record { name = name.now; bytes = bytes.now } ∷ []) }
        ensures err { OnErr result (self.new ≡ self.old) }
    {
        append(&mut self.list, name, bytes)?;
        Ok(())
    }
}

fn append(files: &mut Items<File>, name: &str, bytes: &[u8]) -> Result<(), AllocError>
    ensures ok { OnOk result (files.new ≡ files.old ++ record { name = name.now; bytes = bytes.now } ∷ []) }
    ensures err { OnErr result (files.new ≡ files.old) }
{
    let name = Items::from_slice(files.allocator(), name.as_bytes())?;
    let bytes = Items::from_slice(files.allocator(), bytes)?;
    files.push(File { name, bytes })?;
    Ok(())
}
