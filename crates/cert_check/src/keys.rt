//! What a cover line is about, and which line comes first.

ghost use Rattle.std.specs.Prelude.{◌≡◌};
ghost use Rattle.cert_check.specs.Keys.{key_of, is_before};

use cub_proto::CoverLine;

/// A goal, or a piece of a cube, by number.
#[derive(Clone, Copy)]
pub enum Key {
    Goal { goal: u32 },
    Piece { cube: u32, piece: u64 },
}

/// What the line is about.
pub fn key_of(line: &CoverLine) -> Key
    ensures { result ≡ key_of line.now }
{
    match line {
        CoverLine::Unsafe { goal, .. } => Key::Goal { goal: *goal },
        CoverLine::Piece { cube, piece, .. } => Key::Piece {
            cube: *cube,
            piece: *piece,
        },
    }
}

/// Whether lines about the one come before lines about the other.
pub fn is_before(key: Key, other: Key) -> bool
    ensures { result ≡ is_before key other }
{
    match (key, other) {
        (Key::Goal { goal: n }, Key::Goal { goal: m }) => n < m,
        (Key::Goal { .. }, Key::Piece { .. }) => true,
        (Key::Piece { .. }, Key::Goal { .. }) => false,
        (Key::Piece { cube: j, piece: n }, Key::Piece { cube: k, piece: m }) => {
            j < k || (j == k && n < m)
        }
    }
}
