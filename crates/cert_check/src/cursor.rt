//! Going through the cover lines beside the obligations. Both rise, so each line is looked at once: at an obligation the
//! lines that come before it are passed over, and are about none; the next one may be about it. The first line that was
//! passed over is kept, since it is told only where all obligations hold.

ghost use Rattle.std.specs.Prelude.{◌≡◌, ◌↔◌, ◌≤◌, ℕ, List, Some, length, MatchOption, slice_get, IsTrue, false};
ghost use Rattle.std.specs.Option.{option_or};
ghost use Rattle.cub_proto.specs.declared.cover.CoverLine.{CoverLine};
ghost use Rattle.cub_proto.specs.declared.protocol.Protocol.{Protocol};
ghost use Rattle.cub_cube.specs.declared.cube.Cube.{Cube};
ghost use Rattle.cert_check.specs.Keys.{key_of, is_before, lines_rise};
ghost use Rattle.cert_check.specs.First.{IsFirstWithout};
ghost use Rattle.cert_check.specs.Obligations.{IsOwed, LineNeeded};
ghost use Rattle.cert_check.specs.Walked.{IsPast, HasCome, HasTaken, HasEnded};

use crate::keys::{Key, is_before, key_of};
use cub_proto::CoverLine;

/// How many lines were gone through, and the first of them that is about no obligation.
#[derive(Clone, Copy)]
pub struct Cursor {
    pub at: usize,
    pub extra: Option<usize>,
}

// The first extra line, with one more at `at`.
fn first_extra(extra: Option<usize>, at: usize) -> Option<usize>
    ensures { result ≡ option_or extra (Some at) }
{
    match extra {
        Some(line) => Some(line),
        None => Some(at),
    }
}

// Whether there is a line at `at` that comes before the key.
fn is_passed(lines: &[CoverLine], at: usize, key: Key) -> bool
    ensures { IsTrue result ↔ ((line : CoverLine) × (slice_get lines.now at ≡ Some line) × IsTrue (is_before (key_of line) key)) }
{
    match lines.get(at) {
        Some(line) => is_before(key_of(line), key),
        None => false,
    }
}

// Whether there is a line at `at` that does not come after the key.
fn is_reached(lines: &[CoverLine], at: usize, key: Key) -> bool
    ensures { IsTrue result ↔ ((line : CoverLine) × (slice_get lines.now at ≡ Some line) × (is_before key (key_of line) ≡ false)) }
{
    match lines.get(at) {
        Some(line) => !is_before(key, key_of(line)),
        None => false,
    }
}

// Passes over the lines that come before the key.
fn pass_over(lines: &[CoverLine], cursor: &mut Cursor, key: Key)
    requires past { IsPast lines.now key cursor.old }
    ensures past { IsPast lines.now key cursor.new }
    ensures come { (p : Protocol) (cubes : List Cube) → HasCome (IsOwed p cubes) lines.now key cursor.old → HasCome (IsOwed p cubes) lines.now key cursor.new }
    ensures stops { (line : CoverLine) → slice_get lines.now cursor.new.at ≡ Some line → is_before (key_of line) key ≡ false }
{
    while is_passed(lines, cursor.at, key) {
        cursor.extra = first_extra(cursor.extra, cursor.at);
        cursor.at += 1;
    }
}

/// Goes on to the key, and takes the line that is about it, if there is one.
pub fn take(lines: &[CoverLine], cursor: &mut Cursor, key: Key) -> Option<usize>
    requires rise { IsTrue (lines_rise lines.now) }
    requires past { IsPast lines.now key cursor.old }
    ensures taken { (p : Protocol) (cubes : List Cube) → HasCome (IsOwed p cubes) lines.now key cursor.old → IsOwed p cubes key → HasTaken (IsOwed p cubes) lines.now key cursor.new }
    ensures line { MatchOption result ((l : ℕ) (line : CoverLine) → slice_get lines.now l ≡ Some line → key_of line ≡ key → ⊥)
        (λ l. (line : CoverLine) × (slice_get lines.now l ≡ Some line) × (key_of line ≡ key)) }
{
    pass_over(lines, cursor, key);
    if !is_reached(lines, cursor.at, key) {
        return None;
    }
    let found = cursor.at;
    cursor.at += 1;
    Some(found)
}

/// The first line that is about no obligation, where all of them were gone through.
pub fn extra_line(lines: &[CoverLine], cursor: &Cursor) -> Option<usize>
    requires inside { cursor.now.at ≤ length lines.now }
    ensures { (p : Protocol) (cubes : List Cube) → HasEnded (IsOwed p cubes) lines.now cursor.now
        → MatchOption result ((l : ℕ) → LineNeeded p cubes lines.now l) (λ l. IsFirstWithout (LineNeeded p cubes lines.now) l) }
{
    match cursor.extra {
        Some(line) => Some(line),
        None => {
            if cursor.at < lines.len() {
                Some(cursor.at)
            } else {
                None
            }
        }
    }
}
