//! How nodes, events, marks, verdicts and outcomes are written.

use crate::answers::{push_count, push_named, push_places};
use cub_proto::Protocol;
use cube_core::{
    Added, Fate, LogEvent, LogVerdict, Mark, Node, Origin, Outcome, Pick, Under, Verdict,
};
use cube_text::push_cube;
use std::alloc::AllocError;
use text_lines::push;

fn push_origin(out: &mut Vec<u8>, origin: Origin) -> Result<(), AllocError> {
    match origin {
        Origin::Root { goal } => push_named(out, b"goal", u64::from(goal)),
        Origin::Piece { node, piece } => {
            push_named(out, b"piece", piece)?;
            push_named(out, b" of", u64::from(node))
        }
    }
}

fn push_link(out: &mut Vec<u8>, by: u32, places: &[u8]) -> Result<(), AllocError> {
    push_count(out, u64::from(by))?;
    push(out, b" ")?;
    push_places(out, places)
}

fn push_fate(out: &mut Vec<u8>, fate: &Fate) -> Result<(), AllocError> {
    match fate {
        Fate::Waiting => push(out, b"waiting"),
        Fate::Done => push(out, b"done"),
        Fate::Covered { by, places } => {
            push(out, b"covered by ")?;
            push_link(out, *by, places.as_slice())
        }
    }
}

/// Appends what the node comes from, with the renaming, its cube, and what became of it.
pub fn push_node(out: &mut Vec<u8>, protocol: &Protocol, node: &Node) -> Result<(), AllocError> {
    push_origin(out, node.origin)?;
    push(out, b" ")?;
    push_places(out, node.places.as_slice())?;
    push(out, b" ")?;
    push_cube(out, protocol, &node.cube)?;
    push(out, b"; ")?;
    push_fate(out, &node.fate)
}

fn push_added(out: &mut Vec<u8>, protocol: &Protocol, item: &Added) -> Result<(), AllocError> {
    push(out, b"\n    ")?;
    push_count(out, item.piece)?;
    push(out, b" ")?;
    push_places(out, item.places.as_slice())?;
    push(out, b" ")?;
    push_cube(out, protocol, &item.cube)
}

fn push_treated(out: &mut Vec<u8>, node: Option<u32>) -> Result<(), AllocError> {
    match node {
        Some(node) => push_count(out, u64::from(node)),
        None => push(out, b"roots"),
    }
}

/// Appends the node of the event and what it needed, and its items, a line for each.
pub fn push_event(
    out: &mut Vec<u8>,
    protocol: &Protocol,
    event: &LogEvent,
) -> Result<(), AllocError> {
    push_treated(out, event.node)?;
    push(out, b" ")?;
    push_count(out, event.needed)?;
    for item in event.added.as_slice() {
        push_added(out, protocol, item)?;
    }
    Ok(())
}

/// Appends the mark.
pub fn push_mark(out: &mut Vec<u8>, mark: Mark) -> Result<(), AllocError> {
    match mark {
        Mark::Going => push(out, b"going"),
        Mark::Bad { node } => push_named(out, b"bad", u64::from(node)),
        Mark::Full { node, needed } => {
            push(out, b"full ")?;
            push_treated(out, node)?;
            push_named(out, b" needs", needed)
        }
    }
}

/// Appends the verdict of a log, or `none`.
pub fn push_log_verdict(out: &mut Vec<u8>, verdict: Option<LogVerdict>) -> Result<(), AllocError> {
    match verdict {
        Some(LogVerdict::Unsafe) => push(out, b"unsafe"),
        Some(LogVerdict::UnknownCubes) => push(out, b"unknown cubes"),
        Some(LogVerdict::UnknownWidth) => push(out, b"unknown width"),
        Some(LogVerdict::Safe) => push(out, b"safe"),
        None => push(out, b"none"),
    }
}

/// Appends what an expansion came to.
pub fn push_outcome(out: &mut Vec<u8>, outcome: Outcome) -> Result<(), AllocError> {
    match outcome {
        Outcome::Stopped { why } => {
            push(out, b"stopped ")?;
            push_mark(out, why)
        }
        Outcome::WasCovered { by } => push_named(out, b"was covered by", u64::from(by)),
        Outcome::WasDone => push(out, b"was done"),
        Outcome::Wide => push(out, b"wide"),
        Outcome::Full { needed } => push_named(out, b"full needs", needed),
        Outcome::Bad { node } => push_named(out, b"bad", u64::from(node)),
        Outcome::Done {
            first,
            added,
            links,
        } => {
            push_named(out, b"added", u64::from(added))?;
            push_named(out, b" from", u64::from(first))?;
            push_named(out, b" links", u64::from(links))
        }
    }
}

fn push_under(out: &mut Vec<u8>, under: &Under) -> Result<(), AllocError> {
    push(out, b"; covers ")?;
    push_link(out, under.node, under.places.as_slice())
}

fn push_pick(out: &mut Vec<u8>, protocol: &Protocol, pick: &Pick) -> Result<(), AllocError> {
    push(out, b"\n  ")?;
    push_count(out, pick.piece)?;
    push(out, b" ")?;
    push_places(out, pick.places.as_slice())?;
    push(out, b" ")?;
    push_cube(out, protocol, &pick.cube)?;
    if pick.starts {
        push(out, b"; starts")?;
    }
    for under in pick.under.as_slice() {
        push_under(out, under)?;
    }
    Ok(())
}

/// Appends how many nodes a judgement has seen, and its picks, a line for each.
pub fn push_verdict(
    out: &mut Vec<u8>,
    protocol: &Protocol,
    verdict: &Verdict,
) -> Result<(), AllocError> {
    push_named(out, b"seen", u64::from(verdict.seen))?;
    for pick in verdict.picks.as_slice() {
        push_pick(out, protocol, pick)?;
    }
    Ok(())
}
