//! The type of certificates.

use cub_cube::Cubes;
use cub_proto::CoverLines;

/// The cubes of a certificate, and in version 2 its cover lines.
#[derive(Debug, Drop)]
pub struct Certificate {
    pub cubes: Cubes,
    pub lines: Option<CoverLines>,
}
