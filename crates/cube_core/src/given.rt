//! Comparing a given event with what the log's node would give.

ghost use Rattle.std.specs.Prelude.{◌≡◌, ◌≢◌, ◌↔◌, ◌<◌, [], All, IsTrue, IfOk, IfErr};
ghost use Rattle.log_form.specs.Pieces.{IsAskable, IsExpandable};
ghost use Rattle.log_steps.specs.Readable.{IsReadable};
ghost use Rattle.cube_core.specs.Given.{IsGiven, IsNotGiven, IsGivenOf, IsNotGivenOf};

use crate::fault::AdmitFault;
use cub_cube::Cube;
use cub_proto::Protocol;
use log_form::{LogEvent, Numbered, PreImages};
use log_steps::{Decisions, Expands, ListFault, Picks, admit_list, judge_list, pieces_of};
use std::alloc::Global;
use subsume::Finder;

// Whether the event says that the log is full for want of room for so many.
fn is_full(event: &LogEvent, count: usize, room: u32) -> bool
    ensures { IsTrue result ↔ ((room < count) × (event.now.added ≡ []) × (event.now.needed ≡ count)) }
{
    if !event.added.is_empty() {
        return false;
    }
    if count <= room as usize {
        return false;
    }
    event.needed == count as u64
}

// The picks of an event that says that the log is full.
fn given_full<S: Decisions, F: Finder<S>>(
    alloc: Global,
    scratch: &mut S,
    protocol: &Protocol,
    finder: &mut F,
    list: &[Numbered],
    event: &LogEvent,
    room: u32,
) -> Result<Picks, AdmitFault>
    requires made { S.made_for scratch.old protocol.now }
    requires serves { F.serves finder.old protocol.now }
    requires fit { All (λ x. IsAskable protocol.now x.cube) list.now }
    requires needed { event.now.needed ≢ 0 }
    ensures given { IfOk result (λ picks. IsGiven protocol.now (F.list finder.old) list.now event.now room picks) }
    ensures fault { IfErr result (IsNotGiven protocol.now (F.list finder.old) list.now event.now room) }
    ensures same { F.list finder.new ≡ F.list finder.old }
    ensures serves { F.serves finder.new protocol.now }
    ensures made { S.made_for scratch.new protocol.now }
{
    let picks = judge_list(alloc, scratch, protocol, finder, list)?;
    if is_full(event, picks.len(), room) {
        Ok(picks)
    } else {
        Err(AdmitFault::Not { added: None })
    }
}

// The picks of an event that adds what it lists.
fn given_list<S: Decisions, F: Finder<S>>(
    alloc: Global,
    scratch: &mut S,
    protocol: &Protocol,
    finder: &mut F,
    list: &[Numbered],
    event: &LogEvent,
    room: u32,
) -> Result<Picks, AdmitFault>
    requires made { S.made_for scratch.old protocol.now }
    requires serves { F.serves finder.old protocol.now }
    requires fit { All (λ x. IsAskable protocol.now x.cube) list.now }
    requires readable { All (λ a. IsReadable protocol.now a.cube) event.now.added }
    requires needed { event.now.needed ≡ 0 }
    ensures given { IfOk result (λ picks. IsGiven protocol.now (F.list finder.old) list.now event.now room picks) }
    ensures fault { IfErr result (IsNotGiven protocol.now (F.list finder.old) list.now event.now room) }
    ensures same { F.list finder.new ≡ F.list finder.old }
    ensures serves { F.serves finder.new protocol.now }
    ensures made { S.made_for scratch.new protocol.now }
{
    match admit_list(
        alloc,
        scratch,
        protocol,
        finder,
        list,
        event.added.as_slice(),
        room,
    ) {
        Ok(picks) => Ok(picks),
        Err(ListFault::Not { added }) => Err(AdmitFault::Not { added: Some(added) }),
        Err(ListFault::Memory) => Err(AdmitFault::Memory),
    }
}

/// The picks that make the event, where `list` is what it treats and there is room for `room` further nodes.
pub fn given<S: Decisions, F: Finder<S>>(
    alloc: Global,
    scratch: &mut S,
    protocol: &Protocol,
    finder: &mut F,
    list: &[Numbered],
    event: &LogEvent,
    room: u32,
) -> Result<Picks, AdmitFault>
    requires made { S.made_for scratch.old protocol.now }
    requires serves { F.serves finder.old protocol.now }
    requires fit { All (λ x. IsAskable protocol.now x.cube) list.now }
    requires readable { All (λ a. IsReadable protocol.now a.cube) event.now.added }
    ensures given { IfOk result (λ picks. IsGiven protocol.now (F.list finder.old) list.now event.now room picks) }
    ensures fault { IfErr result (IsNotGiven protocol.now (F.list finder.old) list.now event.now room) }
    ensures same { F.list finder.new ≡ F.list finder.old }
    ensures serves { F.serves finder.new protocol.now }
    ensures made { S.made_for scratch.new protocol.now }
{
    if event.needed == 0 {
        given_list(alloc, scratch, protocol, finder, list, event, room)
    } else {
        given_full(alloc, scratch, protocol, finder, list, event, room)
    }
}

/// The picks that make the event of a node with that cube.
pub fn given_of_node<M: PreImages, S: Expands<M>, F: Finder<S>>(
    alloc: Global,
    scratch: &mut S,
    protocol: &Protocol,
    finder: &mut F,
    cube: &Cube,
    event: &LogEvent,
    room: u32,
) -> Result<Picks, AdmitFault>
    requires made { S.made_for scratch.old protocol.now }
    requires serves { F.serves finder.old protocol.now }
    requires fit { IsExpandable protocol.now cube.now }
    requires readable { All (λ a. IsReadable protocol.now a.cube) event.now.added }
    ensures given { IfOk result (λ picks. IsGivenOf M.pieces protocol.now (F.list finder.old) cube.now event.now room picks) }
    ensures fault { IfErr result (IsNotGivenOf M.pieces protocol.now (F.list finder.old) cube.now event.now room) }
    ensures same { F.list finder.new ≡ F.list finder.old }
    ensures serves { F.serves finder.new protocol.now }
    ensures made { S.made_for scratch.new protocol.now }
{
    let list = pieces_of(alloc, scratch, protocol, cube)?;
    let shown = list.as_slice();
    match given(alloc, scratch, protocol, finder, shown, event, room) {
        Ok(picks) => Ok(picks),
        Err(fault) => Err(fault),
    }
}
