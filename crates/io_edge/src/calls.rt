//! The calls that a form in memory is told to fail.

ghost use Rattle.std.specs.Prelude.{◌≡◌};
ghost use Rattle.io_edge.specs.Calls.{is_among};

use cub_base::Items;

/// Numbers of calls, counted from 0.
pub type Calls = Items<u64>;

// Whether the call with that number is to fail.
pub(crate) fn is_among(fails: &Calls, call: u64) -> bool
    ensures { result ≡ is_among fails.now call }
{
    fails.as_slice().iter().any(|fail| *fail == call)
}
