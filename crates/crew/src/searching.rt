//! One worker. The node of least number that waits within the width is expanded, until none is left or the log stops. So
//! nodes are expanded in the order in which they were found, breadth first, as is usual for backward reachability: cubes
//! of small depth come first and cover most of what comes later. An expansion moves the least waiting node to a greater
//! number, and a log has no more nodes than its budget says, so a search ends.

ghost use Rattle.std.specs.Prelude.{◌≡◌, ◌≢◌, ◌≤◌, [], Some, None, All, length, OnOk, IfOk, IfErr, IfSome, IfNone, MatchResult};
ghost use Rattle.theory.specs.Made.{IsFor};
ghost use Rattle.log_form.specs.declared.event.Mark.{Mark};
ghost use Rattle.log_form.specs.Pieces.{IsAskable};
ghost use Rattle.log_form.specs.Log.{cubes_of};
ghost use Rattle.log_form.specs.Verdict.{verdict_of};
ghost use Rattle.log_form.specs.Legal.{IsLegalLog};
ghost use Rattle.log_form.specs.Later.{GoesOn};
ghost use Rattle.cube_core.specs.Waiting.{IsLeastOpen};
ghost use Rattle.predecessors.specs.Predecessors.{ArePieceCubes};
ghost use Rattle.crew.specs.Search.{LeastFirst, IsSearch};
ghost use Rattle.crew.specs.Ends.{log_of, TellsVerdict};

use crate::SearchLog;
use crate::ended::{Ended, end_of};
use cover_index::Index;
use cub_base::Memory;
use cub_proto::Protocol;
use cube_core::{Budget, Log, Mark, Node};
use std::alloc::Global;
use subsume::Finder;
use theory::Scratch;

// The node that is expanded next; none where the log stopped or no node waits within the width.
fn next_node(log: &SearchLog) -> Option<u32>
    ensures some { IfSome result (λ number. (log.now.mark ≡ Mark.Going) × IsLeastOpen log.now.budget log.now.nodes (Some number)) }
    ensures none { IfNone result (verdict_of log.now ≢ None) }
{
    match log.mark() {
        Mark::Going => log.next_waiting(),
        Mark::Bad { .. } => None,
        Mark::Full { .. } => None,
    }
}

// Expands the least node until the log has a verdict.
fn expand_all<F: Finder<Scratch>>(
    scratch: &mut Scratch,
    protocol: &Protocol,
    finder: &mut F,
    log: &mut SearchLog,
) -> Result<(), Memory>
    requires made { IsFor protocol.now scratch.old }
    requires serves { F.serves finder.old protocol.now }
    requires protocol { protocol.now ≡ log.old.protocol }
    requires cubes { F.list finder.old ≡ cubes_of log.old.nodes }
    requires legal { IsLegalLog ArePieceCubes log.old }
    ensures least { LeastFirst log.old log.new }
    ensures later { GoesOn log.old log.new }
    ensures ended { OnOk result (verdict_of log.new ≢ None) }
{
    while let Some(node) = next_node(log) {
        log.expand(scratch, protocol, finder, node)?;
    }
    Ok(())
}

// Fills an empty finder with the cubes of the nodes.
fn fill<F: Finder<Scratch>>(
    protocol: &Protocol,
    finder: &mut F,
    nodes: &[Node],
) -> Result<(), Memory>
    requires empty { F.list finder.old ≡ [] }
    requires fit { All (λ n. IsAskable protocol.now n.cube) nodes.now }
    requires few { length nodes.now ≤ 65536 }
    ensures cubes { OnOk result (F.list finder.new ≡ cubes_of nodes.now) }
    ensures serves { F.serves finder.new protocol.now }
{
    for node in nodes {
        let cube = node.cube.copy()?;
        match finder.push(protocol, cube) {
            Ok(_number) => {}
            Err((_cube, memory)) => return Err(memory),
        }
    }
    Ok(())
}

// Goes on with the log, over a finder of its own.
fn search_on(alloc: Global, protocol: &Protocol, log: &mut SearchLog) -> Result<(), Memory>
    requires { protocol.now ≡ log.old.protocol }
    ensures least { LeastFirst log.old log.new }
    ensures later { GoesOn log.old log.new }
    ensures ended { OnOk result (verdict_of log.new ≢ None) }
{
    let mut scratch = Scratch::new(alloc, protocol)?;
    let mut finder = Index::new(alloc);
    fill(protocol, &mut finder, log.nodes())?;
    expand_all(&mut scratch, protocol, &mut finder, log)
}

/// Goes on with a log until it has a verdict. The protocol is the log's. Where memory is wanting, the log is handed back as
/// far as it came.
pub fn go_on(
    alloc: Global,
    protocol: &Protocol,
    log: SearchLog,
) -> Result<Ended, (SearchLog, Memory)>
    requires { protocol.now ≡ log.protocol }
    ensures search { MatchResult result (λ e. LeastFirst log (log_of e)) (λ e. LeastFirst log e.0) }
    ensures later { MatchResult result (λ e. GoesOn log (log_of e)) (λ e. GoesOn log e.0) }
    ensures verdict { IfOk result TellsVerdict }
{
    let mut log = log;
    match search_on(alloc, protocol, &mut log) {
        Ok(()) => Ok(end_of(log)),
        Err(memory) => Err((log, memory)),
    }
}

/// Searches by one worker, from the roots until the log has a verdict. The log is a function of the protocol and the
/// budget.
pub fn check_one(alloc: Global, protocol: &Protocol, budget: Budget) -> Result<Ended, Memory>
    ensures search { IfOk result (λ e. IsSearch protocol.now budget (log_of e)) }
    ensures protocol { IfOk result (λ e. (log_of e).protocol ≡ protocol.now) }
    ensures budget { IfOk result (λ e. (log_of e).budget ≡ budget) }
    ensures verdict { IfOk result TellsVerdict }
{
    let mut scratch = Scratch::new(alloc, protocol)?;
    let mut finder = Index::new(alloc);
    let mut log = Log::new(alloc, &mut scratch, protocol, &mut finder, budget)?;
    expand_all(&mut scratch, protocol, &mut finder, &mut log)?;
    Ok(end_of(log))
}
