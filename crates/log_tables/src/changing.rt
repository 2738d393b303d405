//! Rows that change the log: `expand NODE`, `run TIMES`, `admit EVENT`, `copy`.

ghost use Rattle.std.specs.Prelude.{◌≡◌, ◌<◌, length};
ghost use Rattle.theory.specs.Made.{IsFor};
ghost use Rattle.log_tables.specs.Kept.{IsAtHand, StaysJudged};

use crate::answers::{push_count, push_refused};
use crate::events::event;
use crate::failed::Failed;
use crate::making::SearchLog;
use crate::telling::{push_log_verdict, push_mark, push_outcome};
use crate::words::number;
use cub_proto::Protocol;
use cube_core::{Mark, Outcome};
use std::alloc::Global;
use subsume::Finder;
use text_lines::push;
use theory::Scratch;

/// How a log is changed.
#[derive(Clone, Copy)]
pub enum Changing {
    Expand,
    Run,
    Admit,
    Copy,
}

// Expands the node.
fn expand<F: Finder<Scratch>>(
    protocol: &Protocol,
    scratch: &mut Scratch,
    finder: &mut F,
    log: &mut SearchLog,
    node: u32,
) -> Result<Outcome, Failed>
    requires made { IsFor protocol.now scratch.old }
    requires hand { IsAtHand protocol.now (F.list finder.old) (F.serves finder.old protocol.now) log.old }
    requires inside { node < length log.old.nodes }
    ensures made { IsFor protocol.now scratch.new }
    ensures hand { IsAtHand protocol.now (F.list finder.new) (F.serves finder.new protocol.now) log.new }
    ensures stays { StaysJudged log.old log.new }
{
    // its nodes are looked at for what they show: that the log is legal here, and legal again behind the change
    let _before = log.nodes().len();
    let answer = log.expand(scratch, protocol, finder, node);
    let _behind = log.nodes().len();
    let outcome = answer?;
    Ok(outcome)
}

// `expand NODE`
fn expand_one<F: Finder<Scratch>>(
    protocol: &Protocol,
    scratch: &mut Scratch,
    finder: &mut F,
    log: &mut SearchLog,
    text: &[u8],
    out: &mut Vec<u8>,
) -> Result<(), Failed>
    requires made { IsFor protocol.now scratch.old }
    requires hand { IsAtHand protocol.now (F.list finder.old) (F.serves finder.old protocol.now) log.old }
    ensures made { IsFor protocol.now scratch.new }
    ensures hand { IsAtHand protocol.now (F.list finder.new) (F.serves finder.new protocol.now) log.new }
    ensures stays { StaysJudged log.old log.new }
{
    let node = number(text)?;
    if node >= log.count() {
        return Err(Failed::Unfit);
    }
    let outcome = expand(protocol, scratch, finder, log, node)?;
    push_outcome(out, outcome)?;
    Ok(())
}

// The node that is expanded next.
fn next_node(log: &SearchLog) -> Option<u32> {
    match log.mark() {
        Mark::Going => log.next_waiting(),
        _ => None,
    }
}

// Expands the least waiting node so many times, or until none waits; answers how often.
fn expand_least<F: Finder<Scratch>>(
    protocol: &Protocol,
    scratch: &mut Scratch,
    finder: &mut F,
    log: &mut SearchLog,
    times: u32,
) -> Result<u32, Failed>
    requires made { IsFor protocol.now scratch.old }
    requires hand { IsAtHand protocol.now (F.list finder.old) (F.serves finder.old protocol.now) log.old }
    ensures made { IsFor protocol.now scratch.new }
    ensures hand { IsAtHand protocol.now (F.list finder.new) (F.serves finder.new protocol.now) log.new }
    ensures stays { StaysJudged log.old log.new }
{
    for done in 0..times {
        let node = match next_node(log) {
            Some(node) => node,
            None => return Ok(done),
        };
        if node >= log.count() {
            return Err(Failed::Unfit);
        }
        expand(protocol, scratch, finder, log, node)?;
    }
    Ok(times)
}

// `run TIMES`
fn run<F: Finder<Scratch>>(
    protocol: &Protocol,
    scratch: &mut Scratch,
    finder: &mut F,
    log: &mut SearchLog,
    text: &[u8],
    out: &mut Vec<u8>,
) -> Result<(), Failed>
    requires made { IsFor protocol.now scratch.old }
    requires hand { IsAtHand protocol.now (F.list finder.old) (F.serves finder.old protocol.now) log.old }
    ensures made { IsFor protocol.now scratch.new }
    ensures hand { IsAtHand protocol.now (F.list finder.new) (F.serves finder.new protocol.now) log.new }
    ensures stays { StaysJudged log.old log.new }
{
    let times = number(text)?;
    let done = expand_least(protocol, scratch, finder, log, times)?;
    push_count(out, u64::from(done))?;
    push(out, b" ")?;
    push_log_verdict(out, log.verdict())?;
    Ok(())
}

// `admit EVENT`
fn admit<F: Finder<Scratch>>(
    alloc: Global,
    protocol: &Protocol,
    scratch: &mut Scratch,
    finder: &mut F,
    log: &mut SearchLog,
    text: &[u8],
    out: &mut Vec<u8>,
) -> Result<(), Failed>
    requires made { IsFor protocol.now scratch.old }
    requires hand { IsAtHand protocol.now (F.list finder.old) (F.serves finder.old protocol.now) log.old }
    ensures made { IsFor protocol.now scratch.new }
    ensures hand { IsAtHand protocol.now (F.list finder.new) (F.serves finder.new protocol.now) log.new }
    ensures stays { StaysJudged log.old log.new }
{
    let event = event(alloc, protocol, text)?;
    // its nodes are looked at for what they show: that the log is legal here, and legal again behind the change
    let _before = log.nodes().len();
    match log.admit(scratch, protocol, finder, &event) {
        Ok(()) => {
            let _behind = log.nodes().len();
            push(out, b"admitted ")?;
            push_mark(out, log.mark())?;
            Ok(())
        }
        Err(fault) => push_refused(out, fault),
    }
}

// `copy`: the section goes on with an equal log.
fn copy(log: &mut SearchLog, out: &mut Vec<u8>) -> Result<(), Failed>
    ensures { log.new ≡ log.old }
{
    let equal = log.copy()?;
    *log = equal;
    push(out, b"done")?;
    Ok(())
}

/// Changes the log, and appends what came of it.
pub fn change_by<F: Finder<Scratch>>(
    alloc: Global,
    change: Changing,
    protocol: &Protocol,
    scratch: &mut Scratch,
    finder: &mut F,
    log: &mut SearchLog,
    text: &[u8],
    out: &mut Vec<u8>,
) -> Result<(), Failed>
    requires made { IsFor protocol.now scratch.old }
    requires hand { IsAtHand protocol.now (F.list finder.old) (F.serves finder.old protocol.now) log.old }
    ensures made { IsFor protocol.now scratch.new }
    ensures hand { IsAtHand protocol.now (F.list finder.new) (F.serves finder.new protocol.now) log.new }
    ensures stays { StaysJudged log.old log.new }
{
    match change {
        Changing::Expand => expand_one(protocol, scratch, finder, log, text, out),
        Changing::Run => run(protocol, scratch, finder, log, text, out),
        Changing::Admit => admit(alloc, protocol, scratch, finder, log, text, out),
        Changing::Copy => copy(log, out),
    }
}
