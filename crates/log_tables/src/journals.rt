//! Rows on journals: `journal TEXT`.

ghost use Rattle.std.specs.Prelude.{◌≡◌};
ghost use Rattle.theory.specs.Made.{IsFor};
ghost use Rattle.journal_text.specs.Lawful.{IsUnknown};

use crate::answers::{push_count, push_fault};
use crate::failed::Failed;
use crate::making::SearchLog;
use crate::texts::ended;
use cover_index::Index;
use cub_proto::Protocol;
use journal_text::JournalFault;
use predecessors::Predecessors;
use std::alloc::Global;
use text_lines::{is_word, push};
use theory::Scratch;

// The most bytes of a journal.
const LIMIT: usize = 1_048_576;

// Appends how many nodes and events the log has, and whether it is written as it was read.
fn accept(
    alloc: Global,
    protocol: &Protocol,
    log: &SearchLog,
    text: &[u8],
    out: &mut Vec<u8>,
) -> Result<(), Failed>
    requires protocol { protocol.now ≡ log.now.protocol }
    requires unknown { IsUnknown log.now }
{
    push(out, b"accepted nodes ")?;
    push_count(out, u64::from(log.count()))?;
    push(out, b" events ")?;
    push_count(out, log.events().len() as u64)?;
    let written = journal_text::write(alloc, protocol, log)?;
    if !is_word(written.as_slice(), text) {
        push(out, b" written otherwise")?;
    }
    Ok(())
}

/// Reads the journal, and appends that it is accepted, or its first fault.
pub fn journal(
    alloc: Global,
    protocol: &Protocol,
    scratch: &mut Scratch,
    row: &[u8],
    out: &mut Vec<u8>,
) -> Result<(), Failed>
    requires { IsFor protocol.now scratch.old }
    ensures { IsFor protocol.now scratch.new }
{
    let text = ended(alloc, row)?;
    if text.len() > LIMIT {
        return Err(Failed::Unfit);
    }
    let mut finder = Index::new(alloc);
    let read = journal_text::read::<Predecessors, Scratch, Index>(
        alloc,
        scratch,
        protocol,
        &mut finder,
        text.as_slice(),
    );
    match read {
        Ok(log) => accept(alloc, protocol, &log, text.as_slice(), out),
        Err(JournalFault::Fault { line, kind }) => {
            push_fault(out, b"J", kind, line)?;
            Ok(())
        }
        Err(JournalFault::Memory) => Err(Failed::Memory),
    }
}
