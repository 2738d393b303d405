//! Reading the line that closes a log.

ghost use Rattle.std.specs.Prelude.{◌≡◌, ◌+◌, ◌<◌, ◌^◌, false, true, length, ℕ, List, IsTrue, [], None, Some, IfOk, IfErr, IfSome, IfNone};
ghost use Rattle.log_form.specs.Log.{LogValue, no_log, cubes_of};
ghost use Rattle.log_form.specs.Legal.{IsLegalLog};
ghost use Rattle.journal_text.specs.declared.fault.JournalFault.TheVariants.{Memory};
ghost use Rattle.journal_text.specs.Items.{IsNoExpand};
ghost use Rattle.journal_text.specs.Place.{Place, Ending, TakesWide, Closes, GoesOn, IsFaultOf};
ghost use Rattle.journal_text.specs.Ready.{HasNoRoots, IsReady, IsClosed, IsNoClosing, IsFilled, FillsBy};

use crate::fault::JournalFault;
use crate::head::next_line;
use crate::kinds::whole_fault;
use crate::lines::{full_of, is_wide};
use cub_base::Items;
use cub_proto::{Budget, Protocol};
use cube_core::{AdmitFault, Expands, Log};
use log_form::{LogEvent, LogVerdict, PreImages};
use std::alloc::Global;
use subsume::Finder;

/// The log that the roots fill, where the next line says so.
pub fn filled_by_roots<'a, M: PreImages, S: Expands<M>, F: Finder<S>>(
    alloc: Global,
    scratch: &mut S,
    protocol: &Protocol,
    finder: &mut F,
    full: bool,
    budget: Budget,
    text: &'a [u8],
) -> Result<Option<(Log<M>, &'a [u8])>, JournalFault>
    requires made { S.made_for scratch.old protocol.now }
    requires empty { F.list finder.old ≡ [] }
    ensures found { IfOk result (λ o. IfSome o (λ x. IsFilled M.pieces full (no_log protocol.now budget) text.now x.0 x.1.now)) }
    ensures cubes { IfOk result (λ o. IfSome o (λ x. F.list finder.new ≡ cubes_of x.0.nodes)) }
    ensures room { IfOk result (λ o. IfSome o (λ x. length x.1.now < length text.now)) }
    ensures none { IfOk result (λ o. IfNone o (HasNoRoots M.pieces full (no_log protocol.now budget) None [] text.now)) }
    ensures empty { IfOk result (λ o. IfNone o (F.list finder.new ≡ [])) }
    ensures err { IfErr result (λ f. f ≡ Memory) }
    ensures serves { F.serves finder.new protocol.now }
    ensures made { S.made_for scratch.new protocol.now }
{
    if !full {
        return Ok(None);
    }
    let Some(cut) = next_line(text) else {
        return Ok(None);
    };
    let Some(told) = full_of(alloc, cut.bytes)? else {
        return Ok(None);
    };
    if told.node.is_some() || told.needed == 0 {
        return Ok(None);
    }
    let event = LogEvent {
        node: None,
        added: Items::new(alloc),
        needed: told.needed,
    };
    match Log::admit_roots(alloc, scratch, protocol, finder, budget, &event) {
        Ok(log) => Ok(Some((log, cut.rest))),
        Err(AdmitFault::Memory) => Err(JournalFault::Memory),
        Err(AdmitFault::Not { .. }) => Ok(None),
    }
}

// Whether the line says that the expansion of a node fills the log. Then the log is full.
fn is_filled<M: PreImages, S: Expands<M>, F: Finder<S>>(
    alloc: Global,
    scratch: &mut S,
    protocol: &Protocol,
    finder: &mut F,
    log: &mut Log<M>,
    line: &[u8],
) -> Result<bool, JournalFault>
    requires made { S.made_for scratch.old protocol.now }
    requires serves { F.serves finder.old protocol.now }
    requires protocol { protocol.now ≡ log.old.protocol }
    requires cubes { F.list finder.old ≡ cubes_of log.old.nodes }
    ensures yes { IfOk result (λ b. IsTrue b → IsLegalLog M.pieces log.old → FillsBy M.pieces true log.old line.now log.new) }
    ensures no { IfOk result (λ b. b ≡ false → IsLegalLog M.pieces log.old → (last : LogValue) → FillsBy M.pieces true log.old line.now last → ⊥) }
    ensures err { IfErr result (λ f. f ≡ Memory) }
    ensures cubes { F.list finder.new ≡ cubes_of log.new.nodes }
    ensures serves { F.serves finder.new protocol.now }
    ensures made { S.made_for scratch.new protocol.now }
{
    let Some(told) = full_of(alloc, line)? else {
        return Ok(false);
    };
    if told.node.is_none() || told.needed == 0 {
        return Ok(false);
    }
    let event = LogEvent {
        node: told.node,
        added: Items::new(alloc),
        needed: told.needed,
    };
    match log.admit(scratch, protocol, finder, &event) {
        Ok(()) => Ok(true),
        Err(AdmitFault::Memory) => Err(JournalFault::Memory),
        Err(AdmitFault::Not { .. }) => Ok(false),
    }
}

// Whether the log is finished with wide nodes, and the line says so.
fn is_finished<M: PreImages>(alloc: Global, log: &Log<M>, line: &[u8]) -> Result<bool, JournalFault>
    ensures yes { IfOk result (λ b. IsTrue b → TakesWide false log.now line.now) }
    ensures no { IfOk result (λ b. b ≡ false → TakesWide false log.now line.now → ⊥) }
    ensures err { IfErr result (λ f. f ≡ Memory) }
{
    match log.verdict() {
        Some(LogVerdict::UnknownWidth) => { Ok(is_wide(alloc, log.budget(), log.nodes(), line)?) }
        _ => Ok(false),
    }
}

// Whether the line closes the log.
fn closes<M: PreImages, S: Expands<M>, F: Finder<S>>(
    alloc: Global,
    scratch: &mut S,
    protocol: &Protocol,
    finder: &mut F,
    log: &mut Log<M>,
    full: bool,
    line: &[u8],
) -> Result<bool, JournalFault>
    requires made { S.made_for scratch.old protocol.now }
    requires serves { F.serves finder.old protocol.now }
    requires protocol { protocol.now ≡ log.old.protocol }
    requires cubes { F.list finder.old ≡ cubes_of log.old.nodes }
    ensures yes { IfOk result (λ b. IsTrue b → IsLegalLog M.pieces log.old → Closes M.pieces full log.old line.now log.new) }
    ensures no { IfOk result (λ b. b ≡ false → IsLegalLog M.pieces log.old → (last : LogValue) → Closes M.pieces full log.old line.now last → ⊥) }
    ensures err { IfErr result (λ f. f ≡ Memory) }
    ensures cubes { F.list finder.new ≡ cubes_of log.new.nodes }
    ensures serves { F.serves finder.new protocol.now }
    ensures made { S.made_for scratch.new protocol.now }
{
    if full {
        let yes = is_filled(alloc, scratch, protocol, finder, log, line)?;
        return Ok(yes);
    }
    let yes = is_finished(alloc, log, line)?;
    Ok(yes)
}

// The text behind the line that closes the log, where such a line stands next.
fn closed<'a, M: PreImages, S: Expands<M>, F: Finder<S>>(
    alloc: Global,
    scratch: &mut S,
    protocol: &Protocol,
    finder: &mut F,
    log: &mut Log<M>,
    full: bool,
    text: &'a [u8],
) -> Result<Option<&'a [u8]>, JournalFault>
    requires made { S.made_for scratch.old protocol.now }
    requires serves { F.serves finder.old protocol.now }
    requires protocol { protocol.now ≡ log.old.protocol }
    requires cubes { F.list finder.old ≡ cubes_of log.old.nodes }
    ensures found { IfOk result (λ o. IfSome o (λ rest. IsLegalLog M.pieces log.old → IsClosed M.pieces full log.old text.now log.new rest.now)) }
    ensures room { IfOk result (λ o. IfSome o (λ rest. length rest.now < length text.now)) }
    ensures none { IfOk result (λ o. IfNone o (IsLegalLog M.pieces log.old → IsNoClosing M.pieces full log.old text.now)) }
    ensures err { IfErr result (λ f. f ≡ Memory) }
    ensures cubes { F.list finder.new ≡ cubes_of log.new.nodes }
    ensures serves { F.serves finder.new protocol.now }
    ensures made { S.made_for scratch.new protocol.now }
{
    let Some(cut) = next_line(text) else {
        return Ok(None);
    };
    if !closes(alloc, scratch, protocol, finder, log, full, cut.bytes)? {
        return Ok(None);
    }
    Ok(Some(cut.rest))
}

/// Closes the log by the next line, behind a whole event of the node, or of the roots.
pub fn read_closing<'a, M: PreImages, S: Expands<M>, F: Finder<S>>(
    alloc: Global,
    scratch: &mut S,
    protocol: &Protocol,
    finder: &mut F,
    log: &mut Log<M>,
    full: bool,
    node: Option<u32>,
    line: u32,
    text: &'a [u8],
) -> Result<&'a [u8], JournalFault>
    requires made { S.made_for scratch.old protocol.now }
    requires serves { F.serves finder.old protocol.now }
    requires protocol { protocol.now ≡ log.old.protocol }
    requires cubes { F.list finder.old ≡ cubes_of log.old.nodes }
    requires no_expand { IsNoExpand text.now }
    ensures ok { IfOk result (λ rest. (place : Place) (n : ℕ) (whole : List ℕ) → IsReady M.pieces protocol.now place n whole full node log.old line text.now
        → GoesOn M.pieces protocol.now (Ending log.new) (line + 1) rest.now place n whole) }
    ensures room { IfOk result (λ rest. length rest.now < length text.now) }
    ensures err { IfErr result (λ f. (place : Place) (n : ℕ) (whole : List ℕ) → IsReady M.pieces protocol.now place n whole full node log.old line text.now
        → IsFaultOf M.pieces protocol.now place n whole f) }
    ensures cubes { F.list finder.new ≡ cubes_of log.new.nodes }
    ensures serves { F.serves finder.new protocol.now }
    ensures made { S.made_for scratch.new protocol.now }
{
    let Some(rest) = closed(alloc, scratch, protocol, finder, log, full, text)? else {
        return Err(whole_fault(alloc, protocol, node, line, text));
    };
    Ok(rest)
}
