//! The chain of a node: its origins, from the node to the root.

ghost use Rattle.std.specs.Prelude.{◌≡◌, ◌<◌, ◌++◌, ◌∷◌, [], ℕ, length, IfOk, OnOk};
ghost use Rattle.log_form.specs.Log.{node_at};
ghost use Rattle.trace_build.specs.Origins.{link_of, AreOrigins, LeadsBack};

use cub_base::{Items, Memory};
use log_form::{Node, Origin};
use std::alloc::{AllocError, Global};
use trace_laws::{Chain, Link};

fn link_of(node: &Node) -> Result<Link, Memory>
    ensures { IfOk result (λ link. link ≡ link_of node.now) }
{
    let cube = node.cube.copy()?;
    let places = node.places.copy();
    Ok(Link {
        cube,
        origin: node.origin,
        places,
    })
}

fn push(chain: &mut Chain, link: Link) -> Result<(), AllocError>
    ensures { OnOk result (chain.new ≡ chain.old ++ link ∷ []) }
{
    chain.push(link)?;
    Ok(())
}

fn push_node(chain: &mut Chain, node: &Node) -> Result<(), Memory>
    ensures { OnOk result (chain.new ≡ chain.old ++ link_of node.now ∷ []) }
{
    let link = link_of(node)?;
    push(chain, link)?;
    Ok(())
}

/// The chain from the node with that number. Each origin names an earlier node.
pub fn chain_of(alloc: Global, nodes: &[Node], number: u32) -> Result<Chain, Memory>
    requires inside { number < length nodes.now }
    requires back { (i : ℕ) → i < length nodes.now → LeadsBack i (node_at nodes.now i).origin }
    ensures { IfOk result (AreOrigins nodes.now number) }
{
    let mut chain = Items::new(alloc);
    let mut at = number as usize;
    while let Origin::Piece { node, .. } = nodes[at].origin {
        push_node(&mut chain, &nodes[at])?;
        at = node as usize;
    }
    push_node(&mut chain, &nodes[at])?;
    Ok(chain)
}
