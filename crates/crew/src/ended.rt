//! What a search ends with: the log, told apart by its verdict.

ghost use Rattle.std.specs.Prelude.{◌≡◌, ◌≢◌, ◌≤◌, None, length, MatchOption};
ghost use Rattle.log_form.specs.Verdict.{is_live_wide, verdict_of};
ghost use Rattle.crew.specs.Ends.{log_of, TellsVerdict, IsLeastWide, NoneWide};

use crate::SearchLog;
use cube_core::{Budget, Mark, Node};

/// A log that has a verdict.
#[derive(Drop)]
pub enum Ended {
    /// Nothing is left to expand.
    Safe(SearchLog),
    /// A start state meets the node with that number.
    Bad(SearchLog, u32),
    /// The cube budget is spent.
    Full(SearchLog),
    /// Nothing is left to expand, but live cubes are wider than the width budget; the number is that of the first one.
    Wide(SearchLog, u32),
}

impl Ended {
    /// The log.
    pub fn log(&self) -> &SearchLog
        ensures { result.now ≡ log_of self.now }
    {
        match self {
            Ended::Safe(log) => log,
            Ended::Bad(log, _number) => log,
            Ended::Full(log) => log,
            Ended::Wide(log, _number) => log,
        }
    }

    /// The log, given away.
    pub fn into_log(self) -> SearchLog
        ensures { result ≡ log_of self }
    {
        match self {
            Ended::Safe(log) => log,
            Ended::Bad(log, _number) => log,
            Ended::Full(log) => log,
            Ended::Wide(log, _number) => log,
        }
    }
}

fn is_live_wide(budget: Budget, node: &Node) -> bool
    ensures { result ≡ is_live_wide budget node.now }
{
    node.fate.is_live() && budget.width < node.cube.width
}

// The first live node that is wider than the width budget.
fn least_wide(budget: Budget, nodes: &[Node]) -> Option<u32>
    requires { length nodes.now ≤ 65536 }
    ensures { MatchOption result (NoneWide budget nodes.now (length nodes.now)) (IsLeastWide budget nodes.now) }
{
    for number in 0..nodes.len() as u32 {
        if is_live_wide(budget, &nodes[number as usize]) {
            return Some(number);
        }
    }
    None
}

/// The log as one that has ended.
pub fn end_of(log: SearchLog) -> Ended
    requires { verdict_of log ≢ None }
    ensures same { log_of result ≡ log }
    ensures verdict { TellsVerdict result }
{
    match log.mark() {
        Mark::Bad { node } => Ended::Bad(log, node),
        Mark::Full { .. } => Ended::Full(log),
        Mark::Going => match least_wide(log.budget(), log.nodes()) {
            Some(number) => Ended::Wide(log, number),
            None => Ended::Safe(log),
        },
    }
}
