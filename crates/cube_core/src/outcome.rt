//! What an expansion came to.

use log_form::Mark;

/// The answer of an expansion, or of a verdict that is applied. The first that holds is answered, in this order.
#[derive(Clone, Copy, Debug, PartialEq, Eq)]
pub enum Outcome {
    /// The log is bad or full; it stays.
    Stopped { why: Mark },
    /// The node has a link; the log stays.
    WasCovered { by: u32 },
    /// The node was expanded before; the log stays.
    WasDone,
    /// The node is wider than the width budget; the log stays.
    Wide,
    /// The cube budget does not suffice for `needed` further nodes; the log is full.
    Full { needed: u64 },
    /// A start state meets the node with that number, the last one added; the log is bad.
    Bad { node: u32 },
    /// `added` nodes were added, from the number `first` on, and `links` nodes got a link.
    Done { first: u32, added: u32, links: u32 },
}
