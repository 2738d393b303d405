//! Committing: the kept picks become nodes and one event, links are made, and the mark is set. All memory is taken first,
//! all or nothing; what follows takes none, so after want of memory nodes, events and finder are as before.

ghost use Rattle.std.specs.Prelude.{◌≡◌, ◌⊎◌, ◌↔◌, ℕ, ◌+◌, ◌-◌, ◌<◌, ◌≤◌, ◌^◌, ◌++◌, ◌∷◌, [], ◌&&◌, All, None, Some, length, take, map, slice_set, IsTrue, IfOk, OnOk, OnErr, IfSome};
ghost use Rattle.log_form.specs.Pieces.{IsAskable};
ghost use Rattle.cub_proto.specs.declared.protocol.Protocol.{Protocol};
ghost use Rattle.log_form.specs.declared.event.Mark.{Mark};
ghost use Rattle.log_form.specs.Log.{node_at, cubes_of, added_cubes, origin_of, new_node, new_nodes};
ghost use Rattle.log_form.specs.Legal.{EndsBad};
ghost use Rattle.log_steps.specs.Commits.{kept_of, settled, StandAt, TellStarts, MayCommit, IsLinkedUp, going_log, AreCommitted};

use crate::judgement::Pick;
use crate::judging::push;
use crate::keeping::kept;
use crate::linking::link_all;
use cub_base::{Items, Memory};
use cub_proto::{Budget, Protocol};
use log_form::{Added, AddedList, Fate, LogEvent, Mark, Node, Origin};
use std::alloc::Global;
use subsume::{Finder, MadeFor};

/// The mark after a commit, and the number of nodes that it linked.
#[derive(Clone, Copy, Debug)]
pub struct Committed {
    pub mark: Mark,
    pub links: u32,
}

// The picks with these numbers, as an event lists them.
fn added_of(alloc: Global, picks: &[Pick], which: &[usize]) -> Result<AddedList, Memory>
    requires { All (λ k. k < length picks.now) which.now }
    ensures { IfOk result (λ list. list ≡ kept_of picks.now which.now) }
{
    let mut list = Items::with_room(alloc, which.len())?;
    for number in which {
        let pick = &picks[*number];
        let cube = pick.cube.copy()?;
        let places = pick.places.copy();
        push(
            &mut list,
            Added {
                piece: pick.piece,
                places,
                cube,
            },
        )?;
    }
    Ok(list)
}

// Where a node comes from.
fn origin(node: Option<u32>, piece: u64) -> Origin
    requires { node ≡ None → piece < 2 ^ 32 }
    ensures { result ≡ origin_of node piece }
{
    match node {
        None => Origin::Root { goal: piece as u32 },
        Some(node) => Origin::Piece { node, piece },
    }
}

// Appends the added cube as a node.
fn push_node(nodes: &mut Vec<Node>, node: Option<u32>, one: &Added) -> Result<(), Memory>
    requires { node ≡ None → one.now.piece < 2 ^ 32 }
    ensures ok { OnOk result (nodes.new.items ≡ nodes.old.items ++ new_node node one.now ∷ []) }
    ensures err { OnErr result (nodes.new.items ≡ nodes.old.items) }
{
    let cube = one.cube.copy()?;
    let origin = origin(node, one.piece);
    let places = one.places.copy();
    let fate = Fate::Waiting;
    match nodes.push(Node {
        cube,
        origin,
        places,
        fate,
    }) {
        Ok(()) => Ok(()),
        Err(_failed) => Err(Memory),
    }
}

// Appends the added cubes as nodes, all or none.
fn push_nodes(nodes: &mut Vec<Node>, node: Option<u32>, added: &[Added]) -> Result<(), Memory>
    requires { node ≡ None → All (λ a. a.piece < 2 ^ 32) added.now }
    ensures ok { OnOk result (nodes.new.items ≡ nodes.old.items ++ new_nodes node added.now) }
    ensures err { OnErr result (nodes.new.items ≡ nodes.old.items) }
{
    let count = nodes.len();
    for one in added {
        if let Err(error) = push_node(nodes, node, one) {
            nodes.truncate(count);
            return Err(error);
        }
    }
    Ok(())
}

// Appends the added cube to the finder's.
fn push_cube<S: MadeFor, F: Finder<S>>(
    protocol: &Protocol,
    finder: &mut F,
    one: &Added,
) -> Result<(), Memory>
    requires serves { F.serves finder.old protocol.now }
    requires fit { IsAskable protocol.now one.now.cube }
    requires few { length (F.list finder.old) < 2 ^ 32 - 1 }
    ensures ok { OnOk result (F.list finder.new ≡ F.list finder.old ++ one.now.cube ∷ []) }
    ensures err { OnErr result (F.list finder.new ≡ F.list finder.old) }
    ensures serves { F.serves finder.new protocol.now }
{
    let cube = one.cube.copy()?;
    match finder.push(protocol, cube) {
        Ok(_number) => Ok(()),
        Err(_failed) => Err(Memory),
    }
}

// Appends the added cubes to the finder's, all or none.
fn push_cubes<S: MadeFor, F: Finder<S>>(
    protocol: &Protocol,
    finder: &mut F,
    added: &[Added],
) -> Result<(), Memory>
    requires serves { F.serves finder.old protocol.now }
    requires fit { All (λ a. IsAskable protocol.now a.cube) added.now }
    requires few { length (F.list finder.old) + length added.now < 2 ^ 32 - 1 }
    ensures ok { OnOk result (F.list finder.new ≡ F.list finder.old ++ added_cubes added.now) }
    ensures err { OnErr result (F.list finder.new ≡ F.list finder.old) }
    ensures serves { F.serves finder.new protocol.now }
{
    let count = finder.count();
    for one in added {
        if let Err(error) = push_cube(protocol, finder, one) {
            finder.cut(count);
            return Err(error);
        }
    }
    Ok(())
}

// Appends the kept picks as nodes, to the finder's cubes, and as one event, all or none.
fn append<S: MadeFor, F: Finder<S>>(
    alloc: Global,
    protocol: &Protocol,
    finder: &mut F,
    nodes: &mut Vec<Node>,
    events: &mut Vec<LogEvent>,
    node: Option<u32>,
    picks: &[Pick],
    which: &[usize],
) -> Result<(), Memory>
    requires serves { F.serves finder.old protocol.now }
    requires numbers { All (λ k. k < length picks.now) which.now }
    requires fit { All (λ a. IsAskable protocol.now a.cube) (kept_of picks.now which.now) }
    requires goals { node ≡ None → All (λ a. a.piece < 2 ^ 32) (kept_of picks.now which.now) }
    requires few { length (F.list finder.old) + length which.now < 2 ^ 32 - 1 }
    ensures nodes { OnOk result (nodes.new.items ≡ nodes.old.items ++ new_nodes node (kept_of picks.now which.now)) }
    ensures events { OnOk result (events.new.items ≡ events.old.items ++ record { node = node; added = kept_of picks.now which.now; needed = 0 } ∷ []) }
    ensures cubes { OnOk result (F.list finder.new ≡ F.list finder.old ++ added_cubes (kept_of picks.now which.now)) }
    ensures same_nodes { OnErr result (nodes.new.items ≡ nodes.old.items) }
    ensures same_events { OnErr result (events.new.items ≡ events.old.items) }
    ensures same_cubes { OnErr result (F.list finder.new ≡ F.list finder.old) }
    ensures serves { F.serves finder.new protocol.now }
{
    let added = added_of(alloc, picks, which)?;
    events.reserve(1)?;
    let count = nodes.len();
    push_nodes(nodes, node, added.as_slice())?;
    if let Err(error) = push_cubes(protocol, finder, added.as_slice()) {
        nodes.truncate(count);
        return Err(error);
    }
    events.push_reserved(LogEvent {
        node,
        added,
        needed: 0,
    });
    Ok(())
}

// Whether a start state meets the last of the kept picks.
fn ends_bad(picks: &[Pick], which: &[usize]) -> bool
    requires { All (λ k. k < length picks.now) which.now }
    ensures { (p : Protocol) → TellStarts p picks.now → IsTrue result ↔ EndsBad p (kept_of picks.now which.now) }
{
    let count = which.len();
    if count == 0 {
        return false;
    }
    picks[which[count - 1]].starts
}

// The expanded node is done, unless it has a link.
fn settle(nodes: &mut [Node], number: u32)
    requires { number < length nodes.old }
    ensures { nodes.new ≡ slice_set nodes.old number (settled (node_at nodes.old number)) }
{
    let node = &mut nodes[number as usize];
    if node.fate.is_waiting() {
        node.fate = Fate::Done;
    }
}

// Links are made, the mark is set, and the expanded node is done where the log goes on.
fn link_up<S: MadeFor, F: Finder<S>>(
    scratch: &mut S,
    protocol: &Protocol,
    finder: &mut F,
    nodes: &mut [Node],
    node: Option<u32>,
    first: u32,
    picks: &[Pick],
    which: &[usize],
    seen: u32,
) -> Committed
    requires made { S.made_for scratch.old protocol.now }
    requires serves { F.serves finder.old protocol.now }
    requires may { MayCommit protocol.now (F.list finder.old) node picks.now seen }
    requires numbers { All (λ k. k < length picks.now) which.now }
    requires few { length nodes.old < 2 ^ 32 }
    requires inside { IfSome node (λ n. n < length nodes.old) }
    requires count { length nodes.old ≡ first + length which.now }
    requires seen { seen ≤ first }
    requires cubes { F.list finder.old ≡ cubes_of nodes.old }
    requires stand { StandAt first picks.now which.now nodes.old }
    ensures linked { IsLinkedUp protocol.now first node (kept_of picks.now which.now) nodes.old nodes.new result.mark result.links }
    ensures same { F.list finder.new ≡ F.list finder.old }
    ensures serves { F.serves finder.new protocol.now }
    ensures scratch { S.made_for scratch.new protocol.now }
{
    let links = link_all(scratch, protocol, finder, nodes, first, picks, which, seen);
    if ends_bad(picks, which) {
        let node = (nodes.len() - 1) as u32;
        let mark = Mark::Bad { node };
        return Committed { mark, links };
    }
    if let Some(number) = node {
        settle(nodes, number);
    }
    let mark = Mark::Going;
    Committed { mark, links }
}

// The kept picks become nodes and an event.
fn grow<S: MadeFor, F: Finder<S>>(
    alloc: Global,
    scratch: &mut S,
    protocol: &Protocol,
    finder: &mut F,
    nodes: &mut Vec<Node>,
    events: &mut Vec<LogEvent>,
    node: Option<u32>,
    picks: &[Pick],
    which: &[usize],
    seen: u32,
) -> Result<Committed, Memory>
    requires made { S.made_for scratch.old protocol.now }
    requires serves { F.serves finder.old protocol.now }
    requires may { MayCommit protocol.now (F.list finder.old) node picks.now seen }
    requires numbers { All (λ k. k < length picks.now) which.now }
    requires few { length nodes.old.items + length which.now ≤ 65536 }
    requires inside { IfSome node (λ n. n < length nodes.old.items) }
    requires seen { seen ≤ length nodes.old.items }
    requires cubes { F.list finder.old ≡ cubes_of nodes.old.items }
    ensures grown { IfOk result (λ c. IsLinkedUp protocol.now (length nodes.old.items) node (kept_of picks.now which.now) (nodes.old.items ++ new_nodes node (kept_of picks.now which.now)) nodes.new.items c.mark c.links) }
    ensures events { OnOk result (events.new.items ≡ events.old.items ++ record { node = node; added = kept_of picks.now which.now; needed = 0 } ∷ []) }
    ensures cubes { OnOk result (F.list finder.new ≡ cubes_of nodes.new.items) }
    ensures same_nodes { OnErr result (nodes.new.items ≡ nodes.old.items) }
    ensures same_events { OnErr result (events.new.items ≡ events.old.items) }
    ensures same_cubes { OnErr result (F.list finder.new ≡ F.list finder.old) }
    ensures serves { F.serves finder.new protocol.now }
    ensures scratch { S.made_for scratch.new protocol.now }
{
    let first = finder.count();
    append(alloc, protocol, finder, nodes, events, node, picks, which)?;
    let committed = link_up(
        scratch,
        protocol,
        finder,
        nodes.as_mut_slice(),
        node,
        first,
        picks,
        which,
        seen,
    );
    Ok(committed)
}

// The log is full.
fn fill(
    alloc: Global,
    events: &mut Vec<LogEvent>,
    node: Option<u32>,
    needed: u64,
) -> Result<Committed, Memory>
    ensures value { IfOk result (λ c. c ≡ record { mark = Mark.Full node needed; links = 0 }) }
    ensures ok { OnOk result (events.new.items ≡ events.old.items ++ record { node = node; added = []; needed = needed } ∷ []) }
    ensures err { OnErr result (events.new.items ≡ events.old.items) }
{
    let added = Items::new(alloc);
    match events.push(LogEvent {
        node,
        added,
        needed,
    }) {
        Ok(()) => Ok(Committed {
            mark: Mark::Full { node, needed },
            links: 0,
        }),
        Err(_failed) => Err(Memory),
    }
}

/// Commits picks that were judged on the first `seen` nodes: those that no node gained since covers become one event of
/// the node, or of the roots where `node` is none. After want of memory nodes, events and finder are as before.
pub fn commit<S: MadeFor, F: Finder<S>>(
    alloc: Global,
    scratch: &mut S,
    protocol: &Protocol,
    finder: &mut F,
    budget: Budget,
    nodes: &mut Vec<Node>,
    events: &mut Vec<LogEvent>,
    node: Option<u32>,
    picks: &[Pick],
    seen: u32,
) -> Result<Committed, Memory>
    requires made { S.made_for scratch.old protocol.now }
    requires serves { F.serves finder.old protocol.now }
    requires may { MayCommit protocol.now (F.list finder.old) node picks.now seen }
    requires few { length nodes.old.items ≤ budget.cubes }
    requires inside { IfSome node (λ n. n < length nodes.old.items) }
    requires seen { seen ≤ length nodes.old.items }
    requires cubes { F.list finder.old ≡ cubes_of nodes.old.items }
    ensures committed { IfOk result (λ c. AreCommitted (going_log protocol.now budget nodes.old.items events.old.items) seen node picks.now c.links
        (record { protocol = protocol.now; budget = budget; nodes = nodes.new.items; events = events.new.items; mark = c.mark })) }
    ensures cubes { OnOk result (F.list finder.new ≡ cubes_of nodes.new.items) }
    ensures same_nodes { OnErr result (nodes.new.items ≡ nodes.old.items) }
    ensures same_events { OnErr result (events.new.items ≡ events.old.items) }
    ensures same_cubes { OnErr result (F.list finder.new ≡ F.list finder.old) }
    ensures serves { F.serves finder.new protocol.now }
    ensures scratch { S.made_for scratch.new protocol.now }
{
    let which = kept(alloc, scratch, protocol, finder, picks, seen)?;
    let room = budget.cubes as usize - nodes.len();
    if room < which.len() {
        let full = fill(alloc, events, node, which.len() as u64)?;
        return Ok(full);
    }
    let grown = grow(
        alloc,
        scratch,
        protocol,
        finder,
        nodes,
        events,
        node,
        picks,
        which.as_slice(),
        seen,
    )?;
    Ok(grown)
}
