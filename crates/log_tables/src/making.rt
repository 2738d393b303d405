//! Rows that make a log: `new CUBES WIDTH`, and `admit_roots CUBES WIDTH EVENT` from a given first event. What was judged
//! before is forgotten, and where no log comes, the section has none from there on.

ghost use Rattle.std.specs.Prelude.{◌≡◌, [], IfOk};
ghost use Rattle.theory.specs.Made.{IsFor};
ghost use Rattle.log_tables.specs.Kept.{IsKept};

use crate::answers::push_refused;
use crate::events::event;
use crate::failed::Failed;
use crate::judging::Verdicts;
use crate::telling::push_mark;
use crate::words::{budget, first_word};
use cub_proto::{Budget, Protocol};
use cube_core::Log;
use predecessors::Predecessors;
use std::alloc::Global;
use subsume::Finder;
use text_lines::push;
use theory::Scratch;

/// The log of a search by pieces.
pub type SearchLog = Log<Predecessors>;

/// How a log is made.
#[derive(Clone, Copy)]
pub enum Making {
    New,
    Roots,
}

// The log after the roots.
fn new_log<F: Finder<Scratch>>(
    alloc: Global,
    protocol: &Protocol,
    scratch: &mut Scratch,
    finder: &mut F,
    budget: Budget,
    out: &mut Vec<u8>,
) -> Result<Option<SearchLog>, Failed>
    requires made { IsFor protocol.now scratch.old }
    requires empty { F.list finder.old ≡ [] }
    ensures kept { IfOk result (λ o. IsKept protocol.now (F.list finder.new) (F.serves finder.new protocol.now) [] o) }
    ensures made { IsFor protocol.now scratch.new }
{
    let log = Log::new(alloc, scratch, protocol, finder, budget)?;
    push_mark(out, log.mark())?;
    Ok(Some(log))
}

// The log after a given first event; none where it is refused.
fn admitted<F: Finder<Scratch>>(
    alloc: Global,
    protocol: &Protocol,
    scratch: &mut Scratch,
    finder: &mut F,
    budget: Budget,
    text: &[u8],
    out: &mut Vec<u8>,
) -> Result<Option<SearchLog>, Failed>
    requires made { IsFor protocol.now scratch.old }
    requires empty { F.list finder.old ≡ [] }
    ensures kept { IfOk result (λ o. IsKept protocol.now (F.list finder.new) (F.serves finder.new protocol.now) [] o) }
    ensures made { IsFor protocol.now scratch.new }
{
    let event = event(alloc, protocol, text)?;
    match Log::admit_roots(alloc, scratch, protocol, finder, budget, &event) {
        Ok(log) => {
            push(out, b"admitted ")?;
            push_mark(out, log.mark())?;
            Ok(Some(log))
        }
        Err(fault) => {
            push_refused(out, fault)?;
            Ok(None)
        }
    }
}

// The log that the row makes.
fn made<F: Finder<Scratch>>(
    alloc: Global,
    make: Making,
    protocol: &Protocol,
    scratch: &mut Scratch,
    finder: &mut F,
    text: &[u8],
    out: &mut Vec<u8>,
) -> Result<Option<SearchLog>, Failed>
    requires made { IsFor protocol.now scratch.old }
    requires empty { F.list finder.old ≡ [] }
    ensures kept { IfOk result (λ o. IsKept protocol.now (F.list finder.new) (F.serves finder.new protocol.now) [] o) }
    ensures made { IsFor protocol.now scratch.new }
{
    let (cubes, rest) = first_word(text);
    let (width, rest) = first_word(rest);
    let budget = budget(cubes, width)?;
    match make {
        Making::New => new_log(alloc, protocol, scratch, finder, budget, out),
        Making::Roots => admitted(alloc, protocol, scratch, finder, budget, rest, out),
    }
}

/// Makes a log, and appends what came of it.
pub fn make_by<F: Finder<Scratch>>(
    alloc: Global,
    make: Making,
    protocol: &Protocol,
    scratch: &mut Scratch,
    finder: &mut F,
    log: &mut Option<SearchLog>,
    verdicts: &mut Verdicts,
    text: &[u8],
    out: &mut Vec<u8>,
) -> Result<(), Failed>
    requires made { IsFor protocol.now scratch.old }
    ensures made { IsFor protocol.now scratch.new }
    ensures kept { IsKept protocol.now (F.list finder.new) (F.serves finder.new protocol.now) verdicts.new.items log.new }
{
    *log = None;
    verdicts.clear();
    finder.cut(0);
    *log = made(alloc, make, protocol, scratch, finder, text, out)?;
    Ok(())
}
