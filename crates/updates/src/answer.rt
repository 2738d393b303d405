//! What a literal after a step is before it.

use cub_proto::Lits;

/// The literals of the chosen branches and the literal before the step, or `Never` where that literal is false by
/// itself.
#[derive(Debug, Drop)]
pub enum Through {
    Lits(Lits),
    Never,
}
