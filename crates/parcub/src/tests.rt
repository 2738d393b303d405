//! The top call over texts in memory.

use crate::top::run_plain;
use cub_base::Items;
use io_edge::{Files, MemShelf, MemSink};
use std::alloc::Global;
use std::process::Abort;
use std::test::Fail;

const PROTOCOL: &str = "type t = Idle | Crit
array A[proc] : t
init (z) { A[z] = Idle }
unsafe (x y) { A[x] = Crit && A[y] = Crit }
transition enter (i) requires { A[i] = Idle } { A[i] := Crit }
";

// A status with what is written for these words, where `p` is the protocol, `t` is a trace with these last lines, and the
// shelf and the sink fail at these calls.
fn answer_is(
    rt: &impl Abort,
    alloc: Global,
    words: &[&str],
    lines: &str,
    failing: (&[u64], &[u64]),
    status: u8,
    written: &str,
) -> Result<(), Fail> {
    let trace = format!(in alloc;
        "UNSAFE\ntrace 1\nprocesses 2\nA[#1] = Idle\nA[#2] = Idle\nstep enter(#2)\n{lines}end\n"
    )?;
    let mut files = Files::new(alloc);
    files.add("p", PROTOCOL.as_bytes())?;
    if !files.has("t") {
        files.add("t", trace.as_str().as_bytes())?;
    }
    let (loads, puts) = failing;
    let mut shelf = MemShelf::new(alloc, files, Items::from_slice(alloc, loads)?);
    let mut out = MemSink::new(alloc, 512, 64, Items::from_slice(alloc, puts)?)?;
    assert_eq!(rt; run_plain(alloc, words, &mut shelf, &mut out), status);
    assert_eq!(rt; out.bytes(), written.as_bytes());
    Ok(())
}

const REPLAY: [&str; 3] = ["replay", "p", "t"];

#[test]
fn a_trace_of_two_steps(rt: HostRuntime) -> Result<(), Fail> {
    let alloc = rt.alloc();
    let none = ([].as_slice(), [].as_slice());
    let whole = "step enter(#1)\nunsafe 1 (#1 #2)\n";
    let words = REPLAY.as_slice();
    answer_is(
        &rt,
        alloc,
        words,
        whole,
        none,
        0,
        "REPLAYS steps 2 crashes 0\n",
    )?;
    let again = "step enter(#2)\nunsafe 1 (#1 #2)\n";
    answer_is(
        &rt,
        alloc,
        words,
        again,
        none,
        9,
        "REFUSED event 2: guard\n",
    )?;
    let same = "step enter(#1)\nunsafe 1 (#1 #1)\n";
    answer_is(&rt, alloc, words, same, none, 9, "REFUSED unsafe\n")?;
    answer_is(
        &rt,
        alloc,
        words,
        whole,
        ([0].as_slice(), [].as_slice()),
        6,
        "",
    )?;
    answer_is(
        &rt,
        alloc,
        words,
        whole,
        ([].as_slice(), [0].as_slice()),
        7,
        "",
    )
}

#[test]
fn words(rt: HostRuntime) -> Result<(), Fail> {
    let alloc = rt.alloc();
    let none = ([].as_slice(), [].as_slice());
    answer_is(&rt, alloc, [].as_slice(), "", none, 5, "WORDS U1 at 1\n")?;
    answer_is(
        &rt,
        alloc,
        ["verify", "p"].as_slice(),
        "",
        none,
        5,
        "WORDS U3 at 3\n",
    )?;
    answer_is(
        &rt,
        alloc,
        ["print", "p", "q"].as_slice(),
        "",
        none,
        5,
        "WORDS U4 at 3\n",
    )
}

const PRINTED: &str = "type t = Idle | Crit
array A[proc] : t
init (_1) { A[_1] = Idle }
unsafe (_1 _2) { A[_1] = Crit && A[_2] = Crit }
transition enter (_1) requires { A[_1] = Idle } { A[_0] := case | _1 = _0 : Crit | _ : A[_0]; }
";

#[test]
fn a_canonical_text(rt: HostRuntime) -> Result<(), Fail> {
    let alloc = rt.alloc();
    let none = ([].as_slice(), [].as_slice());
    answer_is(&rt, alloc, ["print", "p"].as_slice(), "", none, 0, PRINTED)?;
    answer_is(
        &rt,
        alloc,
        ["print", "t"].as_slice(),
        "",
        none,
        4,
        "REFUSED L1 at 4:3\n",
    )
}
