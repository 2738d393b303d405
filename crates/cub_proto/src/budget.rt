//! How much a search may spend.

ghost use Rattle.std.specs.Prelude.{◌<◌, ◌≤◌};

/// The greatest cube budget.
pub const MOST_CUBES: u32 = 65_536;
/// The greatest width budget.
pub const MOST_WIDTH: u8 = 8;

/// A budget: the greatest number of nodes, 1 to 65,536, and the greatest width of a cube that is expanded, 1 to 8.
#[derive(Clone, Copy, Debug, PartialEq, Eq)]
pub struct Budget {
    pub cubes: u32,
    pub width: u8,
    pub ghost some_cubes: { 1 ≤ cubes },
    pub ghost few_cubes: { cubes ≤ 65536 },
    pub ghost some_width: { 1 ≤ width },
    pub ghost narrow: { width ≤ 8 },
}
