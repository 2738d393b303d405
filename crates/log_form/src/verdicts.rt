//! What a log says of its protocol.

ghost use Rattle.std.specs.Prelude.{◌≡◌};
ghost use Rattle.std.specs.List.{list_any};
ghost use Rattle.log_form.specs.Verdict.{is_open, is_live_wide, verdict_by};

use crate::event::Mark;
use crate::node::Node;
use cub_proto::Budget;

/// The verdict of a log that has one.
#[derive(Clone, Copy, Debug, PartialEq, Eq)]
pub enum LogVerdict {
    /// A node meets a start state.
    Unsafe,
    /// The cube budget is spent.
    UnknownCubes,
    /// Nothing is left to expand, but live cubes are wider than the width budget.
    UnknownWidth,
    /// Nothing is left to expand.
    Safe,
}

fn is_open(budget: Budget, node: &Node) -> bool
    ensures { result ≡ is_open budget node.now }
{
    node.fate.is_waiting() && node.cube.width <= budget.width
}

fn is_live_wide(budget: Budget, node: &Node) -> bool
    ensures { result ≡ is_live_wide budget node.now }
{
    node.fate.is_live() && budget.width < node.cube.width
}

fn some_open(budget: Budget, nodes: &[Node]) -> bool
    ensures { result ≡ list_any (is_open budget) nodes.now }
{
    nodes.iter().any(|node| is_open(budget, node))
}

fn some_live_wide(budget: Budget, nodes: &[Node]) -> bool
    ensures { result ≡ list_any (is_live_wide budget) nodes.now }
{
    nodes.iter().any(|node| is_live_wide(budget, node))
}

/// The verdict of a log with this mark, budget and nodes; none where the log may and should go on.
pub fn verdict(mark: Mark, budget: Budget, nodes: &[Node]) -> Option<LogVerdict>
    ensures { result ≡ verdict_by mark budget nodes.now }
{
    match mark {
        Mark::Bad { .. } => Some(LogVerdict::Unsafe),
        Mark::Full { .. } => Some(LogVerdict::UnknownCubes),
        Mark::Going => {
            if some_open(budget, nodes) {
                None
            } else if some_live_wide(budget, nodes) {
                Some(LogVerdict::UnknownWidth)
            } else {
                Some(LogVerdict::Safe)
            }
        }
    }
}
