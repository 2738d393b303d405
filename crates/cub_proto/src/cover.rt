//! Cover lines, by which a certificate names the covering cube of each of its obligations.

use cub_base::{Items, Places};

/// That cube `by` covers an unsafe conjunction, or a piece of a cube. Item `p` of `places` is the place of the
/// conjunction or piece for place `p` of that cube.
#[derive(Debug, Drop)]
pub enum CoverLine {
    Unsafe {
        goal: u32,
        by: u32,
        places: Places,
    },
    Piece {
        cube: u32,
        piece: u64,
        by: u32,
        places: Places,
    },
}

pub type CoverLines = Items<CoverLine>;
