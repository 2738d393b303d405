//! The least node that may be expanded. The log keeps a number before which there is none, so that each node is passed
//! once in all.

ghost use Rattle.std.specs.Prelude.{◌≡◌, ◌≤◌, length};
ghost use Rattle.log_form.specs.Verdict.{is_open};
ghost use Rattle.cube_core.specs.Waiting.{NoneOpenBefore, IsLeastOpen};

use cub_proto::Budget;
use log_form::Node;

fn is_open(budget: Budget, node: &Node) -> bool
    ensures { result ≡ is_open budget node.now }
{
    node.fate.is_waiting() && node.cube.width <= budget.width
}

/// The least node that waits within the width, where none before `start` does.
pub fn least_open(budget: Budget, nodes: &[Node], start: usize) -> Option<usize>
    requires { NoneOpenBefore budget nodes.now start }
    ensures { IsLeastOpen budget nodes.now result }
{
    for number in start..nodes.len() {
        if is_open(budget, &nodes[number]) {
            return Some(number);
        }
    }
    None
}

/// A number before which no node waits within the width: that of the least one, or the number of nodes.
pub fn next_from(budget: Budget, nodes: &[Node], start: usize) -> usize
    requires { NoneOpenBefore budget nodes.now start }
    ensures before { NoneOpenBefore budget nodes.now result }
    ensures inside { result ≤ length nodes.now }
{
    match least_open(budget, nodes, start) {
        Some(number) => number,
        None => nodes.len(),
    }
}
