//! The fault of a text that stops behind cubes of an event, by what stands there.

ghost use Rattle.std.specs.Prelude.{◌≡◌, ◌⊎◌, ◌+◌, ◌<◌, ◌≤◌, ◌^◌};
ghost use Rattle.journal_text.specs.Form.{look_of};
ghost use Rattle.journal_text.specs.Ready.{whole_kind, is_nothing, lacking_kind};
ghost use Rattle.journal_text.specs.Place.{IsAt};

use crate::fault::JournalFault;
use crate::form::look_of;
use crate::look::Look;
use cub_proto::Protocol;
use std::alloc::Global;

fn whole_kind(look: Look) -> u8
    ensures { result ≡ whole_kind look }
{
    match look {
        Look::Formless => 2,
        Look::Faulty => 3,
        Look::Item => 4,
        Look::Expand => 4,
        Look::Roots => 5,
        Look::Closing => 5,
    }
}

fn is_nothing(node: Option<u32>, count: u32) -> bool
    ensures { result ≡ is_nothing node count }
{
    match node {
        None => count == 0,
        Some(_) => false,
    }
}

fn lacking_kind(nothing: bool, look: Look) -> u8
    ensures { result ≡ lacking_kind nothing look }
{
    match look {
        Look::Formless => 2,
        Look::Faulty => 3,
        Look::Item => 4,
        Look::Expand => 4,
        Look::Roots => { if nothing { 5 } else { 4 } }
        Look::Closing => 4,
    }
}

/// The fault behind a whole event of the node, or of the roots.
pub fn whole_fault(
    alloc: Global,
    protocol: &Protocol,
    node: Option<u32>,
    line: u32,
    text: &[u8],
) -> JournalFault
    ensures { IsAt result line (whole_kind (look_of protocol.now node text.now)) }
{
    match look_of(alloc, protocol, node, text) {
        Ok(look) => JournalFault::Fault {
            line,
            kind: whole_kind(look),
        },
        Err(fault) => fault,
    }
}

// The fault behind an event that lacks a piece.
fn lacking_fault(
    alloc: Global,
    protocol: &Protocol,
    node: Option<u32>,
    count: u32,
    line: u32,
    text: &[u8],
) -> JournalFault
    ensures { IsAt result line (lacking_kind (is_nothing node count) (look_of protocol.now node text.now)) }
{
    match look_of(alloc, protocol, node, text) {
        Ok(look) => JournalFault::Fault {
            line,
            kind: lacking_kind(is_nothing(node, count), look),
        },
        Err(fault) => fault,
    }
}

/// The fault of an event with so many cubes, the first of them on this line and the text behind them, of which that one may
/// not be added; where all may be added, a piece is lacking.
pub fn event_fault(
    alloc: Global,
    protocol: &Protocol,
    node: Option<u32>,
    count: u32,
    added: u32,
    line: u32,
    text: &[u8],
) -> JournalFault
    requires { line + count < 2 ^ 32 }
    ensures early { added < count → IsAt result (line + added) 4 }
    ensures late { count ≤ added → IsAt result (line + count) (lacking_kind (is_nothing node count) (look_of protocol.now node text.now)) }
{
    if added < count {
        return JournalFault::Fault {
            line: line + added,
            kind: 4,
        };
    }
    lacking_fault(alloc, protocol, node, count, line + count, text)
}
