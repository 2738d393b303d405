//! Linking: each live node that an added cube covers gets a link to the first later added cube that covers it. The added
//! cubes are gone through in order, and for each the nodes that it covers, so that the first link that a node gets is the
//! right one and no other is looked at. Which of the first nodes a pick covers was found out when it was judged, so only
//! those that the log gained since are searched.

ghost use Rattle.std.specs.Prelude.{◌≡◌, ◌⊎◌, ℕ, ◌+◌, ◌<◌, ◌≤◌, ◌^◌, All, Some, length, take, slice_set, slice_index, slice_index_or, if◌then◌else◌};
ghost use Rattle.cub_cube.specs.Cover.{DoesCover};
ghost use Rattle.log_form.specs.Links.{cube_at};
ghost use Rattle.log_form.specs.Fates.{is_live};
ghost use Rattle.log_form.specs.Pieces.{IsAskable};
ghost use Rattle.log_form.specs.Log.{node_at, cubes_of};
ghost use Rattle.log_steps.specs.Judged.{AreUnder};
ghost use Rattle.log_steps.specs.Commits.{linked_to, AreLinked, AreMade, IsLinkedBy, IsLinkedUpTo, StandAt};

use crate::judgement::Pick;
use cub_base::Places;
use cub_cube::Cube;
use cub_proto::Protocol;
use log_form::{Fate, Node};
use subsume::{Finder, MadeFor};

// The node gets the link where it is live; tells whether it was.
fn link_one(nodes: &mut [Node], number: u32, by: u32, places: Places) -> bool
    requires { number < length nodes.old }
    ensures live { result ≡ is_live (node_at nodes.old number).fate }
    ensures linked { nodes.new ≡ slice_set nodes.old number (linked_to by places (node_at nodes.old number)) }
{
    let node = &mut nodes[number as usize];
    if node.fate.is_live() {
        node.fate = Fate::Covered { by, places };
        true
    } else {
        false
    }
}

// The same, and the finder hears of it. Tells how many links were made.
fn link_found<S: MadeFor, F: Finder<S>>(
    protocol: &Protocol,
    finder: &mut F,
    nodes: &mut [Node],
    number: u32,
    by: u32,
    places: Places,
) -> u32
    requires serves { F.serves finder.old protocol.now }
    requires later { number < by }
    requires inside { number < length nodes.old }
    requires within { by < length (F.list finder.old) }
    requires covers { DoesCover protocol.now (cube_at (F.list finder.old) by) (cube_at (F.list finder.old) number) }
    ensures linked { nodes.new ≡ slice_set nodes.old number (linked_to by places (node_at nodes.old number)) }
    ensures made { AreMade nodes.old nodes.new result }
    ensures same { F.list finder.new ≡ F.list finder.old }
    ensures serves { F.serves finder.new protocol.now }
{
    if link_one(nodes, number, by, places) {
        finder.retire(protocol, number, by);
        1
    } else {
        0
    }
}

// Links the nodes that the pick is known to cover.
fn link_known<S: MadeFor, F: Finder<S>>(
    protocol: &Protocol,
    finder: &mut F,
    nodes: &mut [Node],
    by: u32,
    pick: &Pick,
    seen: u32,
) -> u32
    requires serves { F.serves finder.old protocol.now }
    requires few { length nodes.old < 2 ^ 32 }
    requires inside { by < length nodes.old }
    requires seen { seen ≤ by }
    requires cubes { F.list finder.old ≡ cubes_of nodes.old }
    requires its { pick.now.cube ≡ (node_at nodes.old by).cube }
    requires under { AreUnder protocol.now (take seen (F.list finder.old)) 0 pick.now.cube pick.now.under }
    ensures linked { AreLinked protocol.now pick.now.cube by 0 seen nodes.old nodes.new }
    ensures made { AreMade nodes.old nodes.new result }
    ensures same { F.list finder.new ≡ F.list finder.old }
    ensures serves { F.serves finder.new protocol.now }
{
    let mut links = 0;
    for link in pick.under.as_slice() {
        links += link_found(protocol, finder, nodes, link.node, by, link.places.copy());
    }
    links
}

// Links the nodes from the number `start` on, and before the added cube with the number `by`, that it covers.
fn link_by<S: MadeFor, F: Finder<S>>(
    scratch: &mut S,
    protocol: &Protocol,
    finder: &mut F,
    nodes: &mut [Node],
    by: u32,
    cube: &Cube,
    start: u32,
) -> u32
    requires made { S.made_for scratch.old protocol.now }
    requires serves { F.serves finder.old protocol.now }
    requires fit { IsAskable protocol.now cube.now }
    requires few { length nodes.old < 2 ^ 32 }
    requires inside { by < length nodes.old }
    requires start { start ≤ by }
    requires cubes { F.list finder.old ≡ cubes_of nodes.old }
    requires its { cube.now ≡ (node_at nodes.old by).cube }
    ensures linked { AreLinked protocol.now cube.now by start (length nodes.old) nodes.old nodes.new }
    ensures made { AreMade nodes.old nodes.new result }
    ensures same { F.list finder.new ≡ F.list finder.old }
    ensures serves { F.serves finder.new protocol.now }
    ensures scratch { S.made_for scratch.new protocol.now }
{
    let mut links = 0;
    let mut at = start;
    while let Some(link) = finder.under(scratch, protocol, at, cube) {
        let (number, places) = link;
        if number >= by {
            break;
        }
        links += link_found(protocol, finder, nodes, number, by, places);
        at = number + 1;
    }
    links
}

// Links all nodes before the pick that it covers; the pick is the cube with the number `by`.
fn link_pick<S: MadeFor, F: Finder<S>>(
    scratch: &mut S,
    protocol: &Protocol,
    finder: &mut F,
    nodes: &mut [Node],
    by: u32,
    pick: &Pick,
    seen: u32,
) -> u32
    requires made { S.made_for scratch.old protocol.now }
    requires serves { F.serves finder.old protocol.now }
    requires fit { IsAskable protocol.now pick.now.cube }
    requires few { length nodes.old < 2 ^ 32 }
    requires inside { by < length nodes.old }
    requires seen { seen ≤ by }
    requires cubes { F.list finder.old ≡ cubes_of nodes.old }
    requires its { pick.now.cube ≡ (node_at nodes.old by).cube }
    requires under { AreUnder protocol.now (take seen (F.list finder.old)) 0 pick.now.cube pick.now.under }
    ensures linked { (i : ℕ) → i < length nodes.old → IsLinkedBy protocol.now pick.now.cube by i (node_at nodes.old i) (node_at nodes.new i) }
    ensures made { AreMade nodes.old nodes.new result }
    ensures same { F.list finder.new ≡ F.list finder.old }
    ensures serves { F.serves finder.new protocol.now }
    ensures scratch { S.made_for scratch.new protocol.now }
{
    let known = link_known(protocol, finder, nodes, by, pick, seen);
    let found = link_by(scratch, protocol, finder, nodes, by, &pick.cube, seen);
    known + found
}

/// Links all nodes to the first later one of the picks with these numbers that covers them. These picks stand among the
/// nodes from the number `first` on, and were judged on the first `seen` nodes. Tells how many links were made.
pub fn link_all<S: MadeFor, F: Finder<S>>(
    scratch: &mut S,
    protocol: &Protocol,
    finder: &mut F,
    nodes: &mut [Node],
    first: u32,
    picks: &[Pick],
    which: &[usize],
    seen: u32,
) -> u32
    requires made { S.made_for scratch.old protocol.now }
    requires serves { F.serves finder.old protocol.now }
    requires fit { All (λ k. IsAskable protocol.now k.cube) picks.now }
    requires numbers { All (λ k. k < length picks.now) which.now }
    requires few { length nodes.old < 2 ^ 32 }
    requires count { length nodes.old ≡ first + length which.now }
    requires seen { seen ≤ first }
    requires cubes { F.list finder.old ≡ cubes_of nodes.old }
    requires stand { StandAt first picks.now which.now nodes.old }
    requires under { All (λ k. AreUnder protocol.now (take seen (F.list finder.old)) 0 k.cube k.under) picks.now }
    ensures linked { (i : ℕ) → i < length nodes.old → IsLinkedUpTo protocol.now (cubes_of nodes.old) first (length nodes.old) i (node_at nodes.old i) (node_at nodes.new i) }
    ensures made { AreMade nodes.old nodes.new result }
    ensures same { F.list finder.new ≡ F.list finder.old }
    ensures serves { F.serves finder.new protocol.now }
    ensures scratch { S.made_for scratch.new protocol.now }
{
    let mut links = 0;
    let mut by = first;
    for number in which {
        let pick = &picks[*number];
        links += link_pick(scratch, protocol, finder, nodes, by, pick, seen);
        by += 1;
    }
    links
}
