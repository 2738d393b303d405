//! The measures by name.

ghost use Rattle.std.specs.Prelude.{◌≤◌, IfOk};

use crate::closing::{close, solve};
use crate::covering::covers;
use crate::deciding::{consistent, entails};
use crate::drawing::draw_alone;
use crate::failed::Failed;
use crate::listing::{Question, search};
use crate::literals::Kind;
use crate::searching::{expand, list_pieces, test_covers};
use cover_index::Index;
use std::alloc::Global;
use subsume::Scan;

/// What is measured. Each has a size: a number of terms, places, cubes or levels.
#[derive(Clone, Copy, Debug, PartialEq, Eq)]
pub enum Measure {
    Close,
    Solve(Kind),
    Consistent(Kind),
    Entails(Kind),
    Covers,
    Draw,
    Scan(Question),
    Index(Question),
    Pieces,
    Expand,
    Tests,
}

/// Each measure with its name.
pub const NAMED: [(&str, Measure); 20] = [
    ("close", Measure::Close),
    ("solve-masks", Measure::Solve(Kind::Masks)),
    ("solve-disequalities", Measure::Solve(Kind::Disequalities)),
    ("consistent-masks", Measure::Consistent(Kind::Masks)),
    ("consistent-integers", Measure::Consistent(Kind::Integers)),
    (
        "consistent-disequalities",
        Measure::Consistent(Kind::Disequalities),
    ),
    ("entails-masks", Measure::Entails(Kind::Masks)),
    ("entails-integers", Measure::Entails(Kind::Integers)),
    (
        "entails-disequalities",
        Measure::Entails(Kind::Disequalities),
    ),
    ("covers", Measure::Covers),
    ("draw", Measure::Draw),
    ("find-scan", Measure::Scan(Question::Find)),
    ("find-index", Measure::Index(Question::Find)),
    ("is-covered-scan", Measure::Scan(Question::IsCovered)),
    ("is-covered-index", Measure::Index(Question::IsCovered)),
    ("under-scan", Measure::Scan(Question::Under)),
    ("under-index", Measure::Index(Question::Under)),
    ("pieces", Measure::Pieces),
    ("expand", Measure::Expand),
    ("tests", Measure::Tests),
];

/// What is measured where no word is given: a name and a size.
pub const ROWS: [(&str, u32); 48] = [
    ("close", 8),
    ("close", 32),
    ("close", 104),
    ("solve-masks", 8),
    ("solve-masks", 40),
    ("solve-disequalities", 8),
    ("solve-disequalities", 40),
    ("consistent-masks", 2),
    ("consistent-masks", 5),
    ("consistent-masks", 8),
    ("consistent-masks", 11),
    ("consistent-integers", 2),
    ("consistent-integers", 5),
    ("consistent-integers", 8),
    ("consistent-integers", 11),
    ("consistent-disequalities", 2),
    ("consistent-disequalities", 5),
    ("consistent-disequalities", 8),
    ("consistent-disequalities", 11),
    ("entails-masks", 2),
    ("entails-masks", 5),
    ("entails-masks", 8),
    ("entails-masks", 11),
    ("entails-integers", 2),
    ("entails-integers", 5),
    ("entails-integers", 8),
    ("entails-integers", 11),
    ("entails-disequalities", 2),
    ("entails-disequalities", 5),
    ("entails-disequalities", 8),
    ("entails-disequalities", 11),
    ("covers", 2),
    ("covers", 4),
    ("covers", 6),
    ("covers", 8),
    ("draw", 4),
    ("find-scan", 1000),
    ("find-index", 1000),
    ("find-index", 10000),
    ("find-index", 30000),
    ("is-covered-scan", 1000),
    ("is-covered-index", 1000),
    ("is-covered-index", 10000),
    ("under-scan", 1000),
    ("under-index", 1000),
    ("pieces", 20),
    ("pieces", 63),
    ("expand", 8),
];

/// The measure with that name.
pub fn named(word: &str) -> Option<Measure> {
    for (name, measure) in NAMED {
        if name == word {
            return Some(measure);
        }
    }
    None
}

// The size, if it is in the range.
fn between(size: u32, least: u8, greatest: u8) -> Result<u8, Failed>
    ensures least { IfOk result (λ n. least ≤ n) }
    ensures greatest { IfOk result (λ n. n ≤ greatest) }
{
    if size < u32::from(least) {
        return Err(Failed::Size);
    }
    if size > u32::from(greatest) {
        return Err(Failed::Size);
    }
    Ok(size as u8)
}

/// Measures, and answers a count of the results.
pub fn run(alloc: Global, measure: Measure, size: u32, times: u32) -> Result<u64, Failed> {
    match measure {
        Measure::Close => close(alloc, between(size, 2, 104)?, times),
        Measure::Solve(kind) => solve(alloc, kind, between(size, 2, 44)?, times),
        Measure::Consistent(kind) => consistent(alloc, kind, between(size, 2, 11)?, times),
        Measure::Entails(kind) => entails(alloc, kind, between(size, 2, 11)?, times),
        Measure::Covers => covers(alloc, between(size, 1, 11)?, times),
        Measure::Draw => draw_alone(alloc, times),
        Measure::Scan(question) => {
            let mut scan = Scan::new(alloc);
            search(alloc, &mut scan, size, question, times)
        }
        Measure::Index(question) => {
            let mut index = Index::new(alloc);
            search(alloc, &mut index, size, question, times)
        }
        Measure::Pieces => list_pieces(alloc, between(size, 2, 63)?, times),
        Measure::Expand => expand(alloc, between(size, 2, 63)?, times),
        Measure::Tests => test_covers(alloc, between(size, 2, 63)?, times),
    }
}
