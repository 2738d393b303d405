//! What the tables ask of the top call: the words are one line, `p` is a protocol, `t` is another text.

use crate::top::run_plain;
use cub_base::Items;
use io_edge::{Files, MemShelf, MemSink};
use std::alloc::Global;
use std::process::Abort;
use std::test::Fail;

// The loads and the puts that fail, by their numbers.
pub(crate) type Failing<'a> = (&'a [u64], &'a [u64]);

// Compares the status and what is written for these words.
pub(crate) fn is_answered(
    rt: &impl Abort,
    alloc: Global,
    words: &str,
    texts: (&str, &str),
    failing: Failing,
    status: u8,
    written: &str,
) -> Result<(), Fail> {
    let (protocol, other) = texts;
    let (loads, puts) = failing;
    let mut files = Files::new(alloc);
    files.add("p", protocol.as_bytes())?;
    if !files.has("t") {
        files.add("t", other.as_bytes())?;
    }
    let mut shelf = MemShelf::new(alloc, files, Items::from_slice(alloc, loads)?);
    let mut out = MemSink::new(alloc, 16384, 64, Items::from_slice(alloc, puts)?)?;
    let words: Vec<&str> = words.split(" ").collect(alloc)?;
    let answer = run_plain(alloc, words.as_slice(), &mut shelf, &mut out);
    assert_eq!(rt; out.bytes(), written.as_bytes());
    assert_eq!(rt; answer, status);
    Ok(())
}
