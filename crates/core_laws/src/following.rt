//! Where the links of a log lead. A link leads to a greater number, so there are at most as many steps as nodes.

ghost use Rattle.std.specs.Prelude.{◌<◌, ◌≤◌, length, IsTrue};
ghost use Rattle.cub_cube.specs.Cover.{DoesCover};
ghost use Rattle.log_form.specs.Fates.{is_live};
ghost use Rattle.log_form.specs.Log.{node_at};
ghost use Rattle.core_laws.specs.Following.{LeadsTo};

use cube_core::{Fate, Log, PreImages};

/// The live node at the end of the links that begin at the node, which is the node itself where it is live.
pub fn live_cover<M: PreImages>(log: &Log<M>, node: u32) -> u32
    requires { node < length log.now.nodes }
    ensures end { LeadsTo log.now.nodes node result }
    ensures live { IsTrue (is_live (node_at log.now.nodes result).fate) }
    ensures later { node ≤ result }
    ensures inside { result < length log.now.nodes }
    ensures covers { DoesCover log.now.protocol (node_at log.now.nodes result).cube (node_at log.now.nodes node).cube }
{
    let nodes = log.nodes();
    let mut at = node;
    while let Fate::Covered { by, .. } = &nodes[at as usize].fate {
        at = *by;
    }
    at
}
