//! Accepted rows of words: `clap` gives the command that the reading gives.

use crate::parse;
use cub_words::read;
use std::alloc::Global;

// Whether the words are accepted, and both read them alike.
fn agrees<'a>(alloc: Global, words: &'a [&'a str]) -> bool {
    match read(words) {
        Ok(command) => parse(alloc, words) == Ok(command),
        Err(_) => false,
    }
}

#[test]
fn names(rt: HostRuntime) {
    let alloc = rt.alloc();
    assert!(rt; agrees(alloc, &["check", "f"]));
    assert!(rt; agrees(alloc, &["verify", "f", "c"]));
    assert!(rt; agrees(alloc, &["replay", "f", "t"]));
    assert!(rt; agrees(alloc, &["print", "p"]));
    assert!(rt; agrees(alloc, &["sample", "63"]));
    assert!(rt; agrees(alloc, &["sample", "002"]));
    assert!(rt; agrees(alloc, &["print", "print"]));
    assert!(rt; agrees(alloc, &["print", "a=b --x"]));
    assert!(rt; agrees(alloc, &["verify", "workers", "help"]));
}

#[test]
fn options(rt: HostRuntime) {
    let alloc = rt.alloc();
    assert!(rt;
        agrees(
            alloc,
            &[
                "check",
                "--width=8",
                "f",
                "--format=2",
                "--cubes",
                "65536",
                "--workers",
                "01"
            ]
        )
    );
    assert!(rt; agrees(alloc, &["check", "f", "--workers", "2"]));
    assert!(rt; agrees(alloc, &["check", "--workers=16", "--cubes=000000001", "f"]));
    assert!(rt; agrees(alloc, &["check", "--format", "1", "--width", "1", "f"]));
    assert!(rt;
        agrees(
            alloc,
            &["sample", "--cubes", "7", "10", "--workers=3", "--width=5"]
        )
    );
    assert!(rt; agrees(alloc, &["sample", "10", "--workers", "01"]));
}
