//! Equal copies of nodes and events.

ghost use Rattle.std.specs.Prelude.{◌≡◌, IfOk};

use cub_base::Memory;
use log_form::{LogEvent, Node};
use std::alloc::Global;

fn copied_node(node: &Node) -> Result<Node, Memory>
    ensures { IfOk result (λ copy. copy ≡ node.now) }
{
    let cube = node.cube.copy()?;
    let places = node.places.copy();
    let fate = node.fate.copy();
    Ok(Node {
        cube,
        origin: node.origin,
        places,
        fate,
    })
}

/// Equal nodes.
pub fn copied_nodes(alloc: Global, nodes: &[Node]) -> Result<Vec<Node>, Memory>
    ensures { IfOk result (λ copies. copies.items ≡ nodes.now) }
{
    let mut copies = Vec::with_capacity(alloc, nodes.len())?;
    for node in nodes {
        let copy = copied_node(node)?;
        if let Err(_failed) = copies.push(copy) {
            return Err(Memory);
        }
    }
    Ok(copies)
}

/// Equal events.
pub fn copied_events(alloc: Global, events: &[LogEvent]) -> Result<Vec<LogEvent>, Memory>
    ensures { IfOk result (λ copies. copies.items ≡ events.now) }
{
    let mut copies = Vec::with_capacity(alloc, events.len())?;
    for event in events {
        let copy = event.copy()?;
        if let Err(_failed) = copies.push(copy) {
            return Err(Memory);
        }
    }
    Ok(copies)
}
