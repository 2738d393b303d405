//! Why a node is not expanded, and what an event came to.

ghost use Rattle.std.specs.Prelude.{◌≡◌, ◌<◌, ◌≤◌, ◌-◌, ℕ, Some, None, length, IfSome, IfNone};
ghost use Rattle.log_form.specs.Log.{node_at};
ghost use Rattle.cube_core.specs.Refusal.{refusal, outcome_by};

use crate::outcome::Outcome;
use cub_proto::Budget;
use log_form::{Fate, Mark, Node};

/// The outcome where the node is not expanded; none where it may be.
pub fn refused(budget: Budget, nodes: &[Node], mark: Mark, number: u32) -> Option<Outcome>
    requires { number < length nodes.now }
    ensures { result ≡ refusal mark budget (node_at nodes.now number) }
{
    match mark {
        Mark::Going => {}
        Mark::Bad { .. } => return Some(Outcome::Stopped { why: mark }),
        Mark::Full { .. } => return Some(Outcome::Stopped { why: mark }),
    }
    let node = &nodes[number as usize];
    match &node.fate {
        Fate::Covered { by, .. } => Some(Outcome::WasCovered { by: *by }),
        Fate::Done => Some(Outcome::WasDone),
        Fate::Waiting => {
            if budget.width < node.cube.width {
                Some(Outcome::Wide)
            } else {
                None
            }
        }
    }
}

/// The outcome of an event that left this mark and made so many links, where there were `first` nodes before it and
/// are `count` after it.
pub fn outcome_of(mark: Mark, links: u32, first: u32, count: u32) -> Outcome
    requires { first ≤ count }
    ensures { result ≡ outcome_by mark links first count }
{
    match mark {
        Mark::Going => Outcome::Done {
            first,
            added: count - first,
            links,
        },
        Mark::Bad { node } => Outcome::Bad { node },
        Mark::Full { needed, .. } => Outcome::Full { needed },
    }
}

/// The node of a given event, where it may be expanded.
pub fn treated(budget: Budget, nodes: &[Node], mark: Mark, node: Option<u32>) -> Option<u32>
    ensures some { IfSome result (λ number. (node ≡ Some number) × (number < length nodes.now) × (refusal mark budget (node_at nodes.now number) ≡ None)) }
    ensures none { IfNone result ((number : ℕ) → node ≡ Some number → number < length nodes.now → refusal mark budget (node_at nodes.now number) ≡ None → ⊥) }
{
    let Some(number) = node else {
        return None;
    };
    if number as usize >= nodes.len() {
        return None;
    }
    match refused(budget, nodes, mark, number) {
        Some(_outcome) => None,
        None => Some(number),
    }
}
