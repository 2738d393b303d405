//! Files as a shelf. No clause says what a file holds, so the shelf tells no bytes and no names; what is proved is
//! that it answers a failure only where it counted one, and `TooLong` only where it took more than the limit.

ghost use Rattle.std.specs.Prelude.{◌≡◌, vec_len};

use crate::{LoadFault, Shelf};
use std::alloc::Global;
use std::io::{ErrorKind, Read};
use std::marker::Model;
use std::rt::Files;
use std::{fs, io};

/// Reads the files of the runtime.
#[derive(Drop)]
pub struct FileShelf<R: Files> {
    files: R,
    taken: u64,
    faults: u64,
}

// Of a shelf over files a contract sees what the last load took and the count of faults.
impl<R: Files> Model for FileShelf<R> {
    ghost use Rattle.io_edge.specs.FileCounts.{FileCounts};

    ghost Value = { FileCounts };

    ghost view = { λ shelf. record { taken = shelf.taken; faults = shelf.faults } };
}

impl<R: Files> FileShelf<R> {
    /// A shelf over the files, which did not fail yet.
    pub fn new(files: R) -> FileShelf<R>
        ensures { result ≡ record { taken = 0; faults = 0 } }
    {
        FileShelf {
            files,
            taken: 0,
            faults: 0,
        }
    }

    /// How many bytes the last load took.
    pub fn taken(&self) -> u64
        ensures { result ≡ self.now.taken }
    {
        self.taken
    }

    /// How often it failed. The count stays at the greatest u64.
    pub fn faults(&self) -> u64
        ensures { result ≡ self.now.faults }
    {
        self.faults
    }
}

impl<R: Files> Shelf for FileShelf<R> {
    ghost use Rattle.std.specs.Prelude.{◌<◌, ◌≤◌, length, None, IfOk, IsErrOf};
    ghost use Rattle.io_edge.specs.Faults.{Rose, one_higher};

    ghost faults = { λ shelf. shelf.faults };

    ghost taken = { λ shelf. shelf.taken };

    ghost bytes_of = { λ _ _. None };

    ghost asked = { λ _. None };

    /// It takes at most one byte more than `limit`. A name that cannot be opened is a fault.
    fn load(&mut self, alloc: Global, name: &str, limit: u64) -> Result<Vec<u8>, LoadFault>
        ensures within { IfOk result (λ given. length given.items ≤ limit) }
        ensures taken { IfOk result (λ given. self.new.taken ≡ length given.items) }
        ensures too_long { IsErrOf result LoadFault.TooLong → limit < self.new.taken }
        ensures failed { IsErrOf result LoadFault.Failed → Rose self.old.faults self.new.faults }
        ensures never_falls { self.old.faults ≤ self.new.faults }
        ensures one_fault { IsErrOf result LoadFault.Failed → self.new.faults ≡ one_higher self.old.faults }
        ensures no_fault { ¬ (IsErrOf result LoadFault.Failed) → self.new.faults ≡ self.old.faults }
    {
        let mut bytes = Vec::new(alloc);
        let read = read_file(&self.files, name, limit.saturating_add(1), &mut bytes);
        self.taken = bytes.len() as u64;
        match read {
            Ok(()) => {
                if self.taken <= limit {
                    Ok(bytes)
                } else {
                    Err(LoadFault::TooLong)
                }
            }
            Err(ReadFault::Memory) => Err(LoadFault::Memory),
            Err(ReadFault::Failed) => {
                self.faults = self.faults.saturating_add(1);
                Err(LoadFault::Failed)
            }
        }
    }
}

// Why a file was not read to its end.
enum ReadFault {
    Failed,
    Memory,
}

// Appends the file's bytes, at most `most` of them.
fn read_file<R: Files>(
    files: &R,
    name: &str,
    most: u64,
    bytes: &mut Vec<u8>,
) -> Result<(), ReadFault> {
    let file = fs::open(files, name).map_err(|_| ReadFault::Failed)?;
    match file.take(most).read_to_end(bytes) {
        Ok(_) => Ok(()),
        Err(error) => match error.kind() {
            ErrorKind::OutOfMemory => Err(ReadFault::Memory),
            _ => Err(ReadFault::Failed),
        },
    }
}
