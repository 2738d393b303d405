//! Rows on judgements: `judge NODE` keeps what it finds under the next number, and `apply NUMBER` commits it, once, to the
//! log as it then stands.

ghost use Rattle.std.specs.Prelude.{◌≡◌, IfSome};
ghost use Rattle.theory.specs.Made.{IsFor};
ghost use Rattle.log_form.specs.Log.{LogValue};
ghost use Rattle.cube_form.specs.Form.{IsGivenForm};
ghost use Rattle.cube_core.specs.Judgements.{IsJudgement};
ghost use Rattle.predecessors.specs.Predecessors.{ArePieceCubes};
ghost use Rattle.log_tables.specs.Kept.{IsAtHand, AreJudgements, StaysJudged};

use crate::answers::push_count;
use crate::failed::Failed;
use crate::fitting::is_expandable;
use crate::making::SearchLog;
use crate::telling::{push_outcome, push_verdict};
use crate::words::number;
use cub_proto::Protocol;
use cube_core::{Outcome, Verdict};
use predecessors::Predecessors;
use std::alloc::Global;
use subsume::Finder;
use text_lines::push;
use theory::Scratch;

/// What was judged, by number; none where it was applied.
pub type Verdicts = Vec<Option<Verdict>>;

/// Whether a node is judged, or a judgement applied.
#[derive(Clone, Copy)]
pub enum Judging {
    Judge,
    Apply,
}

// `judge NODE`
fn judge<F: Finder<Scratch>>(
    alloc: Global,
    protocol: &Protocol,
    scratch: &mut Scratch,
    finder: &mut F,
    log: &SearchLog,
    verdicts: &mut Verdicts,
    text: &[u8],
    out: &mut Vec<u8>,
) -> Result<(), Failed>
    requires made { IsFor protocol.now scratch.old }
    requires hand { IsAtHand protocol.now (F.list finder.old) (F.serves finder.old protocol.now) log.now }
    requires judged { AreJudgements log.now verdicts.old.items }
    ensures made { IsFor protocol.now scratch.new }
    ensures hand { IsAtHand protocol.now (F.list finder.new) (F.serves finder.new protocol.now) log.now }
    ensures judged { AreJudgements log.now verdicts.new.items }
{
    let node = number(text)?;
    if node >= log.count() {
        return Err(Failed::Unfit);
    }
    let cube = &log.node(node).cube;
    if !is_expandable(protocol, cube) {
        return Err(Failed::Unfit);
    }
    let verdict = cube_core::judge::<Predecessors, Scratch, F>(
        alloc, scratch, protocol, finder, node, cube,
    )?;
    push_count(out, verdicts.len() as u64)?;
    push(out, b" ")?;
    push_verdict(out, protocol, &verdict)?;
    verdicts.push(Some(verdict))?;
    Ok(())
}

// The judgement with that number, which is then no longer kept.
fn taken(verdicts: &mut Verdicts, number: usize) -> Option<Verdict>
    ensures { (log : LogValue) → AreJudgements log verdicts.old.items
        → IfSome result (IsJudgement IsGivenForm ArePieceCubes log) × AreJudgements log verdicts.new.items }
{
    if number >= verdicts.len() {
        return None;
    }
    verdicts[number].take()
}

// Commits the judgement.
fn commit<F: Finder<Scratch>>(
    protocol: &Protocol,
    scratch: &mut Scratch,
    finder: &mut F,
    log: &mut SearchLog,
    verdict: Verdict,
) -> Result<Outcome, Failed>
    requires made { IsFor protocol.now scratch.old }
    requires hand { IsAtHand protocol.now (F.list finder.old) (F.serves finder.old protocol.now) log.old }
    requires judged { IsJudgement IsGivenForm ArePieceCubes log.old verdict }
    ensures made { IsFor protocol.now scratch.new }
    ensures hand { IsAtHand protocol.now (F.list finder.new) (F.serves finder.new protocol.now) log.new }
    ensures stays { StaysJudged log.old log.new }
{
    // its nodes are looked at for what they show: that the log is legal here, and legal again behind the change
    let _before = log.nodes().len();
    let answer = log.apply(scratch, protocol, finder, verdict);
    let _behind = log.nodes().len();
    match answer {
        Ok(outcome) => Ok(outcome),
        Err((_verdict, _memory)) => Err(Failed::Memory),
    }
}

// `apply NUMBER`
fn apply<F: Finder<Scratch>>(
    protocol: &Protocol,
    scratch: &mut Scratch,
    finder: &mut F,
    log: &mut SearchLog,
    verdicts: &mut Verdicts,
    text: &[u8],
    out: &mut Vec<u8>,
) -> Result<(), Failed>
    requires made { IsFor protocol.now scratch.old }
    requires hand { IsAtHand protocol.now (F.list finder.old) (F.serves finder.old protocol.now) log.old }
    requires judged { AreJudgements log.old verdicts.old.items }
    ensures made { IsFor protocol.now scratch.new }
    ensures hand { IsAtHand protocol.now (F.list finder.new) (F.serves finder.new protocol.now) log.new }
    ensures judged { AreJudgements log.new verdicts.new.items }
{
    let number = number(text)?;
    match taken(verdicts, number as usize) {
        Some(verdict) => {
            let outcome = commit(protocol, scratch, finder, log, verdict)?;
            push_outcome(out, outcome)?;
            Ok(())
        }
        None => Err(Failed::Unfit),
    }
}

/// Judges or applies, and appends what came of it.
pub fn judge_by<F: Finder<Scratch>>(
    alloc: Global,
    judging: Judging,
    protocol: &Protocol,
    scratch: &mut Scratch,
    finder: &mut F,
    log: &mut SearchLog,
    verdicts: &mut Verdicts,
    text: &[u8],
    out: &mut Vec<u8>,
) -> Result<(), Failed>
    requires made { IsFor protocol.now scratch.old }
    requires hand { IsAtHand protocol.now (F.list finder.old) (F.serves finder.old protocol.now) log.old }
    requires judged { AreJudgements log.old verdicts.old.items }
    ensures made { IsFor protocol.now scratch.new }
    ensures hand { IsAtHand protocol.now (F.list finder.new) (F.serves finder.new protocol.now) log.new }
    ensures judged { AreJudgements log.new verdicts.new.items }
{
    match judging {
        Judging::Judge => judge(alloc, protocol, scratch, finder, log, verdicts, text, out),
        Judging::Apply => apply(protocol, scratch, finder, log, verdicts, text, out),
    }
}
