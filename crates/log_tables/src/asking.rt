//! Rows that leave the log as it is.

ghost use Rattle.std.specs.Prelude.{◌≡◌, IsTrue};
ghost use Rattle.journal_text.specs.Lawful.{IsUnknown};

use crate::answers::push_count;
use crate::failed::Failed;
use crate::making::SearchLog;
use crate::telling::{push_event, push_log_verdict, push_mark, push_node};
use crate::texts::push_in_line;
use crate::words::number;
use cub_proto::Protocol;
use cube_core::LogVerdict;
use std::alloc::{AllocError, Global};
use text_lines::push;

/// What is asked of a log.
#[derive(Clone, Copy)]
pub enum Asking {
    Node,
    Nodes,
    Events,
    Mark,
    Count,
    Budget,
    Waiting,
    Verdict,
    Written,
}

// `node NUMBER`
fn show_node(
    protocol: &Protocol,
    log: &SearchLog,
    text: &[u8],
    out: &mut Vec<u8>,
) -> Result<(), Failed> {
    let number = number(text)?;
    if number >= log.count() {
        return Err(Failed::Unfit);
    }
    push_node(out, protocol, log.node(number))?;
    Ok(())
}

// `nodes`
fn show_nodes(protocol: &Protocol, log: &SearchLog, out: &mut Vec<u8>) -> Result<(), AllocError> {
    push_count(out, log.nodes().len() as u64)?;
    for node in log.nodes() {
        push(out, b"\n  ")?;
        push_node(out, protocol, node)?;
    }
    Ok(())
}

// `events`
fn show_events(protocol: &Protocol, log: &SearchLog, out: &mut Vec<u8>) -> Result<(), AllocError> {
    push_count(out, log.events().len() as u64)?;
    for event in log.events() {
        push(out, b"\n  ")?;
        push_event(out, protocol, event)?;
    }
    Ok(())
}

// `budget`
fn show_budget(log: &SearchLog, out: &mut Vec<u8>) -> Result<(), AllocError> {
    push_count(out, u64::from(log.budget().cubes))?;
    push(out, b" ")?;
    push_count(out, u64::from(log.budget().width))
}

// `waiting`
fn show_waiting(log: &SearchLog, out: &mut Vec<u8>) -> Result<(), AllocError> {
    match log.next_waiting() {
        Some(number) => push_count(out, u64::from(number)),
        None => push(out, b"none"),
    }
}

// Whether the verdict is UNKNOWN.
fn is_unknown(log: &SearchLog) -> bool
    ensures { IsTrue result → IsUnknown log.now }
{
    match log.verdict() {
        Some(LogVerdict::UnknownCubes) => true,
        Some(LogVerdict::UnknownWidth) => true,
        _ => false,
    }
}

// `written`: the journal of the log, where it has one.
fn show_journal(
    alloc: Global,
    protocol: &Protocol,
    log: &SearchLog,
    out: &mut Vec<u8>,
) -> Result<(), Failed>
    requires { protocol.now ≡ log.now.protocol }
{
    if !is_unknown(log) {
        return Err(Failed::Unfit);
    }
    let text = journal_text::write(alloc, protocol, log)?;
    push_in_line(out, text.as_slice())?;
    Ok(())
}

/// Asks the log, and appends the answer.
pub fn ask_by(
    alloc: Global,
    ask: Asking,
    protocol: &Protocol,
    log: &SearchLog,
    text: &[u8],
    out: &mut Vec<u8>,
) -> Result<(), Failed>
    requires { protocol.now ≡ log.now.protocol }
{
    match ask {
        Asking::Node => return show_node(protocol, log, text, out),
        Asking::Written => return show_journal(alloc, protocol, log, out),
        Asking::Nodes => show_nodes(protocol, log, out)?,
        Asking::Events => show_events(protocol, log, out)?,
        Asking::Mark => push_mark(out, log.mark())?,
        Asking::Count => push_count(out, u64::from(log.count()))?,
        Asking::Budget => show_budget(log, out)?,
        Asking::Waiting => show_waiting(log, out)?,
        Asking::Verdict => push_log_verdict(out, log.verdict())?,
    }
    Ok(())
}
