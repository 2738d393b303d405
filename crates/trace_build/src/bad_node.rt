//! The trace of the bad node of a log.

ghost use Rattle.std.specs.Prelude.{IfOk};
ghost use Rattle.trace_build.specs.Origins.{IsBadNode, IsTraceOfNode};

use crate::building::build_chain;
use crate::origins::chain_of;
use cub_base::Memory;
use cub_proto::{Protocol, Trace};
use log_form::Node;
use std::alloc::Global;

/// The trace of the bad node: that of the chain of its origins. The nodes are those of a log of the protocol whose mark is
/// bad with this node.
pub fn build(alloc: Global, protocol: &Protocol, nodes: &[Node], node: u32) -> Result<Trace, Memory>
    requires { IsBadNode protocol.now nodes.now node }
    ensures { IfOk result (IsTraceOfNode protocol.now nodes.now node) }
{
    let chain = chain_of(alloc, nodes, node)?;
    build_chain(alloc, protocol, &chain)
}
