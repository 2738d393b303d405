//! Reading a journal: line by line, up to the end or the first line that may not stand where it stands. The events are
//! admitted one by one, so reading takes the work of the log, and each line is looked at a few times.

ghost use Rattle.std.specs.Prelude.{◌≡◌, ℕ, ◌+◌, ◌<◌, ◌≤◌, ◌^◌, length, Bool, List, [], Some, None, Ok, IfOk, IfErr, IfSome, IfNone, OnOk};
ghost use Rattle.log_form.specs.Log.{no_log, cubes_of};
ghost use Rattle.journal_text.specs.declared.fault.JournalFault.TheVariants.{Memory};
ghost use Rattle.journal_text.specs.Items.{IsNoExpand};
ghost use Rattle.journal_text.specs.Text.{expand_text, text_of_log};
ghost use Rattle.journal_text.specs.Lawful.{IsUnknown};
ghost use Rattle.journal_text.specs.Place.{Heading, Adding, JournalReads, IsFaultOf};
ghost use Rattle.journal_text.specs.Ready.{HasNoRoots, IsReady, KeepsReady, FailsReady};
ghost use Rattle.text_lines.specs.Line.{line_at};

use crate::closing::{filled_by_roots, read_closing};
use crate::fault::JournalFault;
use crate::head::{next_line, read_budget, read_end, read_heading, read_version};
use crate::items::read_items;
use crate::kinds::{event_fault, whole_fault};
use crate::lines::expand_of;
use cub_proto::{Budget, Protocol};
use cube_core::{AdmitFault, Expands, Log};
use log_form::{LogEvent, PreImages};
use std::alloc::Global;
use subsume::Finder;

// The log after the roots, whose cubes stand from line 4 on, and where the reading goes on.
fn read_roots<'a, M: PreImages, S: Expands<M>, F: Finder<S>>(
    alloc: Global,
    scratch: &mut S,
    protocol: &Protocol,
    finder: &mut F,
    budget: Budget,
    text: &'a [u8],
) -> Result<(Log<M>, u32, &'a [u8]), JournalFault>
    requires made { S.made_for scratch.old protocol.now }
    requires empty { F.list finder.old ≡ [] }
    requires room { 4 + length text.now < 2 ^ 32 }
    ensures ok { IfOk result (λ x. (full : Bool) → HasNoRoots M.pieces full (no_log protocol.now budget) None [] text.now
        → IsReady M.pieces protocol.now (Adding full (no_log protocol.now budget) None []) 4 text.now full None x.0 x.1 x.2.now) }
    ensures protocol { IfOk result (λ x. x.0.protocol ≡ protocol.now) }
    ensures room { IfOk result (λ x. x.1 + length x.2.now ≤ 4 + length text.now) }
    ensures err { IfErr result (λ f. (full : Bool) → HasNoRoots M.pieces full (no_log protocol.now budget) None [] text.now
        → IsFaultOf M.pieces protocol.now (Adding full (no_log protocol.now budget) None []) 4 text.now f) }
    ensures cubes { IfOk result (λ x. F.list finder.new ≡ cubes_of x.0.nodes) }
    ensures serves { OnOk result (F.serves finder.new protocol.now) }
    ensures made { S.made_for scratch.new protocol.now }
{
    let (items, line, rest) = read_items(alloc, protocol, None, 4, text)?;
    let event = LogEvent {
        node: None,
        added: items,
        needed: 0,
    };
    match Log::admit_roots(alloc, scratch, protocol, finder, budget, &event) {
        Ok(log) => Ok((log, line, rest)),
        Err(AdmitFault::Memory) => Err(JournalFault::Memory),
        Err(AdmitFault::Not { added: None }) => {
            Err(event_fault(alloc, protocol, None, line - 4, 0, 4, rest))
        }
        Err(AdmitFault::Not { added: Some(added) }) => {
            Err(event_fault(alloc, protocol, None, line - 4, added, 4, rest))
        }
    }
}

// The node whose expansion begins with the next line, and the text behind that line.
fn next_expand(alloc: Global, text: &[u8]) -> Result<Option<(u32, &[u8])>, JournalFault>
    ensures found { IfOk result (λ o. IfSome o (λ x. line_at text.now ≡ Some (expand_text x.0, x.1.now))) }
    ensures small { IfOk result (λ o. IfSome o (λ x. x.0 < 2 ^ 32)) }
    ensures room { IfOk result (λ o. IfSome o (λ x. length x.1.now < length text.now)) }
    ensures none { IfOk result (λ o. IfNone o (IsNoExpand text.now)) }
    ensures err { IfErr result (λ f. f ≡ Memory) }
{
    let Some(cut) = next_line(text) else {
        return Ok(None);
    };
    let Some(node) = expand_of(alloc, cut.bytes)? else {
        return Ok(None);
    };
    Ok(Some((node, cut.rest)))
}

// The expansion of a node, where it stands next behind a whole event: its node, and where the reading goes on.
fn read_expansion<'a, M: PreImages, S: Expands<M>, F: Finder<S>>(
    alloc: Global,
    scratch: &mut S,
    protocol: &Protocol,
    finder: &mut F,
    log: &mut Log<M>,
    before: Option<u32>,
    line: u32,
    text: &'a [u8],
) -> Result<Option<(u32, u32, &'a [u8])>, JournalFault>
    requires made { S.made_for scratch.old protocol.now }
    requires serves { F.serves finder.old protocol.now }
    requires protocol { protocol.now ≡ log.old.protocol }
    requires cubes { F.list finder.old ≡ cubes_of log.old.nodes }
    requires room { line + length text.now < 2 ^ 32 }
    ensures found { IfOk result (λ o. IfSome o (λ x. KeepsReady M.pieces protocol.now before log.old line text.now (Some x.0) log.new x.1 x.2.now)) }
    ensures room { IfOk result (λ o. IfSome o (λ x. x.1 + length x.2.now ≤ line + length text.now)) }
    ensures less { IfOk result (λ o. IfSome o (λ x. length x.2.now < length text.now)) }
    ensures none { IfOk result (λ o. IfNone o (IsNoExpand text.now)) }
    ensures same { IfOk result (λ o. IfNone o (log.new ≡ log.old)) }
    ensures err { IfErr result (FailsReady M.pieces protocol.now before log.old line text.now) }
    ensures protocol { protocol.now ≡ log.new.protocol }
    ensures cubes { F.list finder.new ≡ cubes_of log.new.nodes }
    ensures serves { F.serves finder.new protocol.now }
    ensures made { S.made_for scratch.new protocol.now }
{
    let Some((node, behind)) = next_expand(alloc, text)? else {
        return Ok(None);
    };
    let first = line + 1;
    let (items, at, rest) = read_items(alloc, protocol, Some(node), first, behind)?;
    let event = LogEvent {
        node: Some(node),
        added: items,
        needed: 0,
    };
    match log.admit(scratch, protocol, finder, &event) {
        Ok(()) => Ok(Some((node, at, rest))),
        Err(AdmitFault::Memory) => Err(JournalFault::Memory),
        Err(AdmitFault::Not { added: None }) => {
            Err(whole_fault(alloc, protocol, before, line, text))
        }
        Err(AdmitFault::Not { added: Some(added) }) => {
            let count = at - first;
            Err(event_fault(alloc, protocol, Some(node), count, added, first, rest))
        }
    }
}

// All expansions that stand next behind the roots: the last node, and where the reading goes on.
fn read_expansions<'a, M: PreImages, S: Expands<M>, F: Finder<S>>(
    alloc: Global,
    scratch: &mut S,
    protocol: &Protocol,
    finder: &mut F,
    log: &mut Log<M>,
    line: u32,
    text: &'a [u8],
) -> Result<(Option<u32>, u32, &'a [u8]), JournalFault>
    requires made { S.made_for scratch.old protocol.now }
    requires serves { F.serves finder.old protocol.now }
    requires protocol { protocol.now ≡ log.old.protocol }
    requires cubes { F.list finder.old ≡ cubes_of log.old.nodes }
    requires room { line + length text.now < 2 ^ 32 }
    ensures ok { IfOk result (λ x. KeepsReady M.pieces protocol.now None log.old line text.now x.0 log.new x.1 x.2.now) }
    ensures room { IfOk result (λ x. x.1 + length x.2.now ≤ line + length text.now) }
    ensures no_expand { IfOk result (λ x. IsNoExpand x.2.now) }
    ensures err { IfErr result (FailsReady M.pieces protocol.now None log.old line text.now) }
    ensures protocol { protocol.now ≡ log.new.protocol }
    ensures cubes { F.list finder.new ≡ cubes_of log.new.nodes }
    ensures serves { F.serves finder.new protocol.now }
    ensures made { S.made_for scratch.new protocol.now }
{
    let mut node = None;
    let mut at = line;
    let mut rest = text;
    while let Some((expanded, next, behind)) = read_expansion(
        alloc, scratch, protocol, finder, log, node, at, rest,
    )? {
        node = Some(expanded);
        at = next;
        rest = behind;
    }
    Ok((node, at, rest))
}

// The log whose events begin on line 4.
fn read_events<M: PreImages, S: Expands<M>, F: Finder<S>>(
    alloc: Global,
    scratch: &mut S,
    protocol: &Protocol,
    finder: &mut F,
    full: bool,
    budget: Budget,
    text: &[u8],
) -> Result<Log<M>, JournalFault>
    requires made { S.made_for scratch.old protocol.now }
    requires empty { F.list finder.old ≡ [] }
    requires room { 4 + length text.now < 2 ^ 32 }
    ensures ok { IfOk result (λ log. JournalReads M.pieces protocol.now (Adding full (no_log protocol.now budget) None []) 4 text.now (Ok log)) }
    ensures err { IfErr result (IsFaultOf M.pieces protocol.now (Adding full (no_log protocol.now budget) None []) 4 text.now) }
    ensures cubes { IfOk result (λ log. F.list finder.new ≡ cubes_of log.nodes) }
    ensures serves { OnOk result (F.serves finder.new protocol.now) }
    ensures made { S.made_for scratch.new protocol.now }
{
    if let Some((log, rest)) = filled_by_roots(
        alloc, scratch, protocol, finder, full, budget, text,
    )? {
        read_end::<M>(5, rest)?;
        return Ok(log);
    }
    let (mut log, line, rest) = read_roots(alloc, scratch, protocol, finder, budget, text)?;
    let (node, line, rest) = read_expansions(
        alloc, scratch, protocol, finder, &mut log, line, rest,
    )?;
    let rest = read_closing(
        alloc, scratch, protocol, finder, &mut log, full, node, line, rest,
    )?;
    read_end::<M>(line + 1, rest)?;
    Ok(log)
}

/// The log that the text is the journal of, or the first fault of the text. The finder must be empty; after a fault it is to
/// be dropped.
pub fn read<M: PreImages, S: Expands<M>, F: Finder<S>>(
    alloc: Global,
    scratch: &mut S,
    protocol: &Protocol,
    finder: &mut F,
    text: &[u8],
) -> Result<Log<M>, JournalFault>
    requires made { S.made_for scratch.old protocol.now }
    requires empty { F.list finder.old ≡ [] }
    requires room { length text.now + 1 < 2 ^ 32 }
    // The answer is the one reading of the text.
    ensures log { IfOk result (λ log. JournalReads M.pieces protocol.now Heading 1 text.now (Ok log)) }
    ensures fault { IfErr result (IsFaultOf M.pieces protocol.now Heading 1 text.now) }
    // The verdict of the log is UNKNOWN, and the text is its journal.
    ensures unknown { IfOk result IsUnknown }
    ensures text { IfOk result (λ log. text.now ≡ text_of_log log) }
    ensures protocol { IfOk result (λ log. log.protocol ≡ protocol.now) }
    ensures cubes { IfOk result (λ log. F.list finder.new ≡ cubes_of log.nodes) }
    ensures serves { OnOk result (F.serves finder.new protocol.now) }
    ensures made { S.made_for scratch.new protocol.now }
{
    let (full, rest) = read_heading::<M>(text)?;
    let rest = read_version::<M>(rest)?;
    let (budget, rest) = read_budget::<M>(alloc, rest)?;
    let log = read_events(alloc, scratch, protocol, finder, full, budget, rest)?;
    Ok(log)
}
