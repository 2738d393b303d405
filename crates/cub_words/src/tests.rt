//! Rows of words: the kind of a fault and the number of its word, or the command.

use crate::{Command, WordsFault, WordsKind, read, waits};
use cub_proto::Budget;

fn is_refused(words: &[&str], kind: WordsKind, word: usize) -> bool {
    read(words) == Err(WordsFault { word, kind })
}

fn is_read(words: &[&str], command: Command) -> bool {
    read(words) == Ok(command)
}

const USUAL: Budget = Budget {
    cubes: 4096,
    width: 6,
};

#[test]
fn names(rt: HostRuntime) {
    assert!(rt; is_refused(&[], WordsKind::U1, 1));
    assert!(rt; is_refused(&["--help"], WordsKind::U2, 1));
    assert!(rt; is_refused(&["check"], WordsKind::U3, 2));
    assert!(rt; is_refused(&["check", "--workers", "2"], WordsKind::U3, 4));
    assert!(rt; is_refused(&["check", "f", "g"], WordsKind::U4, 3));
    assert!(rt; is_refused(&["check", ""], WordsKind::U5, 2));
    assert!(rt; is_refused(&["sample", "-3"], WordsKind::U5, 2));
    assert!(rt; is_refused(&["sample", "64"], WordsKind::U7, 2));
}

#[test]
fn options(rt: HostRuntime) {
    assert!(rt; is_refused(&["check", "f", "--=2"], WordsKind::U5, 3));
    assert!(rt; is_refused(&["check", "f", "--workersx=2"], WordsKind::U5, 3));
    assert!(rt; is_refused(&["check", "f", "--cubes"], WordsKind::U6, 3));
    assert!(rt;
        is_refused(
            &["check", "f", "--cubes", "9", "--cubes", "9"],
            WordsKind::U8,
            5
        )
    );
    assert!(rt; is_refused(&["print", "f", "--width=2"], WordsKind::U9, 3));
    assert!(rt; is_refused(&["sample", "9", "--format=2"], WordsKind::U9, 3));
}

#[test]
fn values(rt: HostRuntime) {
    assert!(rt; is_refused(&["check", "f", "--workers", "0"], WordsKind::U7, 4));
    assert!(rt; is_refused(&["check", "f", "--workers", "17"], WordsKind::U7, 4));
    assert!(rt; is_refused(&["check", "f", "--workers", "-5"], WordsKind::U7, 4));
    assert!(rt; is_refused(&["check", "f", "--workers", ""], WordsKind::U7, 4));
    assert!(rt; is_refused(&["check", "f", "--workers", "--cubes"], WordsKind::U7, 4));
    assert!(rt; is_refused(&["check", "f", "--workers="], WordsKind::U7, 3));
    assert!(rt;
        is_refused(
            &["check", "f", "--cubes", "0000000009", "g"],
            WordsKind::U7,
            4
        )
    );
}

#[test]
fn commands(rt: HostRuntime) {
    let check = Command::Check {
        file: "f",
        budget: USUAL,
        workers: 1,
        format: 1,
    };
    assert!(rt; is_read(&["check", "f"], check));
    let wide = Budget {
        cubes: 65536,
        width: 8,
    };
    let check = Command::Check {
        file: "f",
        budget: wide,
        workers: 1,
        format: 2,
    };
    assert!(rt;
        is_read(
            &[
                "check",
                "--width=8",
                "f",
                "--format=2",
                "--cubes",
                "65536",
                "--workers",
                "01"
            ],
            check
        )
    );
    assert!(rt;
        is_read(
            &["verify", "f", "c"],
            Command::Verify {
                file: "f",
                cert: "c"
            }
        )
    );
    assert!(rt;
        is_read(
            &["replay", "f", "t"],
            Command::Replay {
                file: "f",
                trace: "t"
            }
        )
    );
    assert!(rt; is_read(&["print", "p"], Command::Print { file: "p" }));
    assert!(rt;
        is_read(
            &["sample", "63"],
            Command::Sample {
                levels: 63,
                budget: USUAL,
                workers: 1
            }
        )
    );
}

#[test]
fn waiting(rt: HostRuntime) {
    assert!(rt; waits(&["check", "f", "--workers", "2"]));
    assert!(rt; !waits(&["check", "f"]));
    assert!(rt; !waits(&["replay", "f", "t"]));
}
