//! Reading the first three lines, and the last.

ghost use Rattle.std.specs.Prelude.{◌≡◌, ◌+◌, ◌<◌, ◌^◌, length, Bool, [], Some, None, Ok, IfOk, IfErr, OnOk, IfSome, IfNone};
ghost use Rattle.cub_proto.specs.declared.protocol.Protocol.{Protocol};
ghost use Rattle.log_form.specs.Log.{LogValue, no_log};
ghost use Rattle.text_lines.specs.Line.{line_at};
ghost use Rattle.journal_text.specs.Place.{Heading, Version, BudgetLine, Adding, Ending, Done, JournalReads, GoesOn, IsFaultOf};

use crate::fault::JournalFault;
use crate::lines::{budget_of, heading_of};
use cub_proto::Budget;
use log_form::PreImages;
use std::alloc::Global;
use text_lines::{cut_line, is_word};

/// A line without its line feed, and the text behind it.
#[derive(Clone, Copy, Debug)]
pub struct Cut<'a> {
    pub bytes: &'a [u8],
    pub rest: &'a [u8],
}

/// The next line.
pub fn next_line(text: &[u8]) -> Option<Cut<'_>>
    ensures some { IfSome result (λ cut. line_at text.now ≡ Some (cut.bytes.now, cut.rest.now)) }
    ensures none { IfNone result (line_at text.now ≡ None) }
    ensures room { IfSome result (λ cut. length cut.rest.now < length text.now) }
{
    match cut_line(text) {
        Some((bytes, rest)) => Some(Cut { bytes, rest }),
        None => None,
    }
}

/// Whether the heading says that the cube budget is spent.
pub fn read_heading<M: PreImages>(text: &[u8]) -> Result<(bool, &[u8]), JournalFault>
    ensures room { IfOk result (λ x. length x.1.now < length text.now) }
    ensures ok { IfOk result (λ x. (p : Protocol) → GoesOn M.pieces p (Version x.0) 2 x.1.now Heading 1 text.now) }
    ensures err { IfErr result (λ f. (p : Protocol) → IsFaultOf M.pieces p Heading 1 text.now f) }
{
    let Some(cut) = next_line(text) else {
        return Err(JournalFault::Fault { line: 1, kind: 1 });
    };
    let Some(full) = heading_of(cut.bytes) else {
        return Err(JournalFault::Fault { line: 1, kind: 1 });
    };
    Ok((full, cut.rest))
}

/// The text behind the line of the version.
pub fn read_version<M: PreImages>(text: &[u8]) -> Result<&[u8], JournalFault>
    ensures room { IfOk result (λ rest. length rest.now < length text.now) }
    ensures ok { IfOk result (λ rest. (p : Protocol) (full : Bool) → GoesOn M.pieces p (BudgetLine full) 3 rest.now (Version full) 2 text.now) }
    ensures err { IfErr result (λ f. (p : Protocol) (full : Bool) → IsFaultOf M.pieces p (Version full) 2 text.now f) }
{
    let Some(cut) = next_line(text) else {
        return Err(JournalFault::Fault { line: 2, kind: 1 });
    };
    if !is_word(cut.bytes, b"journal 1") {
        return Err(JournalFault::Fault { line: 2, kind: 1 });
    }
    Ok(cut.rest)
}

/// The budget.
pub fn read_budget<M: PreImages>(
    alloc: Global,
    text: &[u8],
) -> Result<(Budget, &[u8]), JournalFault>
    ensures room { IfOk result (λ x. length x.1.now < length text.now) }
    ensures ok { IfOk result (λ x. (p : Protocol) (full : Bool) → GoesOn M.pieces p (Adding full (no_log p x.0) None []) 4 x.1.now (BudgetLine full) 3 text.now) }
    ensures err { IfErr result (λ f. (p : Protocol) (full : Bool) → IsFaultOf M.pieces p (BudgetLine full) 3 text.now f) }
{
    let Some(cut) = next_line(text) else {
        return Err(JournalFault::Fault { line: 3, kind: 1 });
    };
    let Some(budget) = budget_of(alloc, cut.bytes)? else {
        return Err(JournalFault::Fault { line: 3, kind: 1 });
    };
    Ok((budget, cut.rest))
}

fn read_nothing<M: PreImages>(line: u32, text: &[u8]) -> Result<(), JournalFault>
    ensures ok { OnOk result ((p : Protocol) (log : LogValue) → JournalReads M.pieces p (Done log) line text.now (Ok log)) }
    ensures err { IfErr result (λ f. (p : Protocol) (log : LogValue) → IsFaultOf M.pieces p (Done log) line text.now f) }
{
    if text.is_empty() {
        Ok(())
    } else {
        Err(JournalFault::Fault { line, kind: 5 })
    }
}

/// The line `end`, with nothing behind it.
pub fn read_end<M: PreImages>(line: u32, text: &[u8]) -> Result<(), JournalFault>
    requires { line + length text.now < 2 ^ 32 }
    ensures ok { OnOk result ((p : Protocol) (log : LogValue) → JournalReads M.pieces p (Ending log) line text.now (Ok log)) }
    ensures err { IfErr result (λ f. (p : Protocol) (log : LogValue) → IsFaultOf M.pieces p (Ending log) line text.now f) }
{
    let Some(cut) = next_line(text) else {
        return Err(JournalFault::Fault { line, kind: 5 });
    };
    if !is_word(cut.bytes, b"end") {
        return Err(JournalFault::Fault { line, kind: 5 });
    }
    read_nothing::<M>(line + 1, cut.rest)?;
    Ok(())
}
