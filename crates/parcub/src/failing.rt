//! Shelves and sinks that fail. A sink that fails at one of its calls has got the pieces before that call; one that is not
//! called so often has the whole text. A shelf that fails has nothing written.

ghost use Rattle.std.specs.Prelude.{◌<◌};

use crate::top::run_plain;
use cub_base::Items;
use io_edge::{Files, MemShelf, MemSink};
use std::alloc::Global;
use std::process::Abort;
use std::test::Fail;

// Words, the texts of `p` and `t`, and the status and the text of their answer.
type Row = (&'static str, &'static str, &'static str, u8, &'static str);

const LOCK: &str = "type t = Idle | Crit
array A[proc] : t
init (z) { A[z] = Idle }
unsafe (x y) { A[x] = Crit && A[y] = Crit }
transition enter (i) requires { A[i] = Idle } { A[i] := Crit }
";

const TRACE: &str = "UNSAFE
trace 1
processes 2
A[#1] = Idle
A[#2] = Idle
step enter(#2)
step enter(#1)
unsafe 1 (#1 #2)
end
";

const STILL: &str = "type t = P | Q
array A[proc] : t
init (z) { A[z] = P }
unsafe (x) { A[x] = Q }
transition stay (i) requires { A[i] = Q } { A[i] := Q }
";

const CERTIFICATE: &str = "SAFE
certificate 1
cubes 1
cube 1: A[#1] = Q
end
";

const ROWS: [Row; 5] = [
    ("replay p t", LOCK, TRACE, 0, "REPLAYS steps 2 crashes 0\n"),
    ("check p", LOCK, "", 1, TRACE),
    ("verify p t", STILL, CERTIFICATE, 0, "ACCEPTED cubes 1\n"),
    ("check p", STILL, "", 0, CERTIFICATE),
    ("check p --cubes 0", LOCK, "", 5, "WORDS U7 at 4\n"),
];

// The answer through a shelf that fails at these loads, and a sink that takes `most` bytes a call and fails at these puts.
fn is_answered(
    rt: &impl Abort,
    alloc: Global,
    row: &Row,
    failing: (&[u64], &[u64]),
    most: usize,
    status: u8,
    written: &[u8],
) -> Result<(), Fail>
    requires { 0 < most }
{
    let (words, protocol, other, _, _) = *row;
    let (loads, puts) = failing;
    let mut files = Files::new(alloc);
    files.add("p", protocol.as_bytes())?;
    if !files.has("t") {
        files.add("t", other.as_bytes())?;
    }
    let mut shelf = MemShelf::new(alloc, files, Items::from_slice(alloc, loads)?);
    let mut out = MemSink::new(alloc, 1024, most, Items::from_slice(alloc, puts)?)?;
    let words: Vec<&str> = words.split(" ").collect(alloc)?;
    let answer = run_plain(alloc, words.as_slice(), &mut shelf, &mut out);
    assert_eq!(rt; out.bytes(), written);
    assert_eq!(rt; answer, status);
    Ok(())
}

// The same where the sink fails at one call.
fn is_cut(rt: &impl Abort, alloc: Global, row: &Row, most: usize, call: u64) -> Result<(), Fail>
    requires { 0 < most }
{
    let (_, _, _, status, written) = *row;
    let whole = written.as_bytes();
    let kept = whole.len().min((call as usize).saturating_mul(most));
    let status = if kept < whole.len() { 7 } else { status };
    is_answered(
        rt,
        alloc,
        row,
        ([].as_slice(), [call].as_slice()),
        most,
        status,
        &whole[..kept],
    )
}

// A sink that fails at each of its first twenty calls in turn.
fn are_cut(rt: &impl Abort, alloc: Global, row: &Row, most: usize) -> Result<(), Fail>
    requires { 0 < most }
{
    for call in 0..20 {
        is_cut(rt, alloc, row, most, call)?;
    }
    Ok(())
}

#[test]
fn sinks_that_fail(rt: HostRuntime) -> Result<(), Fail> {
    let alloc = rt.alloc();
    for row in &ROWS {
        are_cut(&rt, alloc, row, 1)?;
        are_cut(&rt, alloc, row, 4)?;
        are_cut(&rt, alloc, row, 1024)?;
    }
    Ok(())
}

#[test]
fn shelves_that_fail(rt: HostRuntime) -> Result<(), Fail> {
    let alloc = rt.alloc();
    let first = ([0].as_slice(), [].as_slice());
    let second = ([1].as_slice(), [].as_slice());
    is_answered(&rt, alloc, &ROWS[0], first, 64, 6, &[])?;
    is_answered(&rt, alloc, &ROWS[0], second, 64, 6, &[])?;
    is_answered(&rt, alloc, &ROWS[2], first, 64, 6, &[])?;
    is_answered(&rt, alloc, &ROWS[2], second, 64, 6, &[])?;
    is_answered(&rt, alloc, &ROWS[3], first, 64, 6, &[])?;
    let whole = ROWS[3].4.as_bytes();
    is_answered(&rt, alloc, &ROWS[3], second, 64, 0, whole)
}

// A text of blanks, of so many bytes.
fn blanks_are_answered(
    rt: &impl Abort,
    alloc: Global,
    count: usize,
    written: &str,
) -> Result<(), Fail> {
    let text = vec![in alloc; b' '; count]?;
    let mut files = Files::new(alloc);
    files.add("p", text.as_slice())?;
    let mut shelf = MemShelf::new(alloc, files, Items::new(alloc));
    let mut out = MemSink::new(alloc, 64, 64, Items::new(alloc))?;
    let words = ["print", "p"];
    let answer = run_plain(alloc, words.as_slice(), &mut shelf, &mut out);
    assert_eq!(rt; out.bytes(), written.as_bytes());
    assert_eq!(rt; answer, 4);
    Ok(())
}

#[test]
fn texts_at_their_limit(rt: HostRuntime) -> Result<(), Fail> {
    let alloc = rt.alloc();
    blanks_are_answered(&rt, alloc, 1_048_576, "REFUSED P1 at 1:1048577\n")?;
    blanks_are_answered(&rt, alloc, 1_048_577, "REFUSED L0 at 1:1\n")
}
