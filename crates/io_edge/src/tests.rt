ghost use Rattle.std.specs.Prelude.{◌<◌};

use super::*;
use crate::write_back::write_back;
use cub_base::Items;
use std::alloc::Global;
use std::fmt::Display;
use std::test::Fail;
use std::{env, fs, io, process};

fn calls(alloc: Global, numbers: &[u64]) -> Result<Calls, Fail> {
    Ok(Items::from_slice(alloc, numbers)?)
}

fn files(alloc: Global) -> Result<Files, Fail> {
    let mut files = Files::new(alloc);
    files.add("pair", b"abcdef")?;
    if !files.has("empty") {
        files.add("empty", b"")?;
    }
    Ok(files)
}

fn sink(alloc: Global, room: usize, most: usize, fails: &[u64]) -> Result<MemSink, Fail>
    requires { 0 < most }
{
    Ok(MemSink::new(alloc, room, most, calls(alloc, fails)?)?)
}

#[test]
fn a_shelf_in_memory_gives_its_files(rt: HostRuntime) -> Result<(), Fail> {
    let alloc = rt.alloc();
    let mut shelf = MemShelf::new(alloc, files(alloc)?, calls(alloc, &[3])?);
    let given = shelf.load(alloc, "pair", 6)?;
    assert_eq!(rt; given.as_slice(), b"abcdef".as_slice());
    assert_eq!(rt; shelf.load(alloc, "empty", 0)?.len(), 0);
    assert!(rt; matches!(shelf.load(alloc, "pair", 5), Err(LoadFault::TooLong)));
    assert_eq!(rt; shelf.faults(), 0);
    assert!(rt; matches!(shelf.load(alloc, "pair", 6), Err(LoadFault::Failed)));
    assert!(rt; matches!(shelf.load(alloc, "other", 6), Err(LoadFault::Failed)));
    assert_eq!(rt; shelf.faults(), 2);
    assert_eq!(rt; shelf.asked().len(), 5);
    Ok(())
}

#[test]
fn a_text_is_written_in_pieces(rt: HostRuntime) -> Result<(), Fail> {
    let alloc = rt.alloc();
    for most in 1..8 {
        let mut out = sink(alloc, 6, most, &[])?;
        put_all(&mut out, b"abcdef")?;
        assert_eq!(rt; out.bytes(), b"abcdef".as_slice());
        assert_eq!(rt; out.faults(), 0);
    }
    // The second call fails, then the room does not suffice.
    for (room, fails) in [(6, [1].as_slice()), (4, [].as_slice())] {
        let mut out = sink(alloc, room, 4, fails)?;
        assert_eq!(rt; put_all(&mut out, b"abcdef"), Err(Failed));
        assert_eq!(rt; out.bytes(), b"abcd".as_slice());
        assert_eq!(rt; out.faults(), 1);
    }
    Ok(())
}

#[test]
fn a_caller_ends_with_the_cause(rt: HostRuntime) -> Result<(), Fail> {
    let alloc = rt.alloc();
    let cases = [
        (
            "pair",
            6,
            [].as_slice(),
            [].as_slice(),
            0,
            b"abcdef".as_slice(),
        ),
        ("pair", 5, [].as_slice(), [].as_slice(), 4, b"".as_slice()),
        ("other", 6, [].as_slice(), [].as_slice(), 6, b"".as_slice()),
        ("pair", 6, [0].as_slice(), [].as_slice(), 6, b"".as_slice()),
        (
            "pair",
            6,
            [].as_slice(),
            [1].as_slice(),
            7,
            b"abcd".as_slice(),
        ),
    ];
    for (name, limit, loads, puts, status, written) in cases {
        let mut shelf = MemShelf::new(alloc, files(alloc)?, calls(alloc, loads)?);
        let mut out = sink(alloc, 6, 4, puts)?;
        assert_eq!(rt;
            write_back(alloc, name, limit, &mut shelf, &mut out),
            status
        );
        assert_eq!(rt; out.bytes(), written);
    }
    Ok(())
}

#[test]
fn files_are_read_up_to_the_limit(rt: HostRuntime) -> Result<(), Fail> {
    let alloc = rt.alloc();
    let id = process::id(rt.process());
    let name = format!(in alloc; "{}/io_edge_{id}", env::temp_dir(&rt)?.display())?;
    fs::write(&rt, name.as_str(), b"abcdef")?;
    let mut shelf = FileShelf::new(&rt);
    assert_eq!(rt;
        shelf.load(alloc, name.as_str(), 6)?.as_slice(),
        b"abcdef".as_slice()
    );
    assert!(rt; matches!(shelf.load(alloc, name.as_str(), 5), Err(LoadFault::TooLong)));
    assert_eq!(rt; shelf.taken(), 6);
    assert!(rt; matches!(shelf.load(alloc, name.as_str(), 3), Err(LoadFault::TooLong)));
    assert_eq!(rt; shelf.taken(), 4);
    assert_eq!(rt; shelf.faults(), 0);
    fs::remove_file(&rt, name.as_str())?;
    assert!(rt; matches!(shelf.load(alloc, name.as_str(), 6), Err(LoadFault::Failed)));
    assert_eq!(rt; shelf.faults(), 1);
    Ok(())
}

#[test]
fn standard_output_takes_a_text(rt: HostRuntime) -> Result<(), Fail> {
    let mut out = OutSink::new(&rt);
    put_all(&mut out, b"abcdef\n")?;
    assert_eq!(rt; out.faults(), 0);
    Ok(())
}

// An output that takes at most so many bytes a call.
#[derive(Drop)]
struct Narrow(usize);

impl Print for Narrow {
    fn print<D: Display + Drop>(&self, _value: D) -> io::Result<()> {
        Ok(())
    }

    fn println<D: Display + Drop>(&self, _value: D) -> io::Result<()> {
        Ok(())
    }

    fn write_all(&self, _bytes: &[u8]) -> io::Result<()> {
        Ok(())
    }

    fn write_some(&self, bytes: &[u8]) -> io::Result<usize> {
        Ok(bytes.len().min(self.0))
    }
}

#[test]
fn an_output_that_takes_nothing_fails(rt: HostRuntime) -> Result<(), Fail> {
    let (narrow, stuck) = (Narrow(4), Narrow(0));
    let mut out = OutSink::new(&narrow);
    assert_eq!(rt; out.put(b"abcdef"), Ok(4));
    assert_eq!(rt; out.faults(), 0);
    let mut out = OutSink::new(&stuck);
    assert_eq!(rt; put_all(&mut out, b"abcdef"), Err(Failed));
    assert_eq!(rt; out.faults(), 1);
    Ok(())
}

fn pass_shared<G: Gate + Sync>(gate: &G) {
    gate.pass(1, 1);
}

#[test]
fn an_open_gate_is_shared() {
    pass_shared(&OpenGate);
}
