//! The search in the sample protocol. The sample protocol is safe, so no search in it finds a run to an unsafe state; the
//! trace of such a run, if there were a bad node, is what shows it.

ghost use Rattle.std.specs.Prelude.{◌≡◌, ◌≤◌, ◌++◌, codes, length, IfOk, OnOk};
ghost use Rattle.std.specs.Fmt.{decimal};
ghost use Rattle.cub_proto.specs.Meets.{IsSafe};
ghost use Rattle.log_form.specs.declared.event.Mark.{Mark};
ghost use Rattle.log_form.specs.declared.verdicts.LogVerdict.{LogVerdict};
ghost use Rattle.log_form.specs.Log.{live_cubes};
ghost use Rattle.crew.specs.Ends.{log_of, TellsVerdict as TellsEnd};
ghost use Rattle.check_answers.specs.Sampled.{AnswersSample, TellsLine, TellsVerdict, sample_line};

use answer_lines::Answer;
use core_laws::cubes_of;
use crew::{Ended, SearchLog, check_one};
use cub_base::{Items, Memory, Text};
use cub_proto::{Budget, Protocol};
use sample_gen::sample;
use std::alloc::Global;

// Appends the number.
fn put_number(text: &mut Text, number: u64) -> Result<(), Memory>
    ensures { OnOk result (text.new ≡ text.old ++ decimal number) }
{
    let digits = number.to_string(text.allocator())?;
    text.extend(digits.as_str().as_bytes())?;
    Ok(())
}

// The line with these words.
fn line(alloc: Global, levels: u8, words: &[u8]) -> Result<Text, Memory>
    ensures { IfOk result (λ text. text ≡ sample_line levels words.now) }
{
    let mut text = Items::from_slice(alloc, b"sample ")?;
    put_number(&mut text, levels as u64)?;
    text.extend(b": ")?;
    text.extend(words)?;
    text.extend(b"\n")?;
    Ok(text)
}

fn safe_line(alloc: Global, levels: u8, live: usize) -> Result<Text, Memory>
    ensures { IfOk result (λ text. text ≡ sample_line levels (codes "SAFE, cubes " ++ decimal live)) }
{
    let mut words = Items::from_slice(alloc, b"SAFE, cubes ")?;
    put_number(&mut words, live as u64)?;
    line(alloc, levels, words.as_slice())
}

fn safe_answer(alloc: Global, levels: u8, log: &SearchLog) -> Result<Answer, Memory>
    ensures { IfOk result (λ a. TellsVerdict levels (length (live_cubes log.now.nodes)) LogVerdict.Safe a.status a.text) }
{
    let live = cubes_of(log)?;
    let text = safe_line(alloc, levels, live.len())?;
    Ok(Answer { status: 0, text })
}

fn unknown_answer(alloc: Global, levels: u8, words: &[u8]) -> Result<Answer, Memory>
    ensures { IfOk result (λ a. (a.status ≡ 3) × (a.text ≡ sample_line levels words.now)) }
{
    let text = line(alloc, levels, words)?;
    Ok(Answer { status: 3, text })
}

// No log of a safe protocol has a bad node.
fn never_bad(
    alloc: Global,
    protocol: &Protocol,
    log: &SearchLog,
    node: u32,
) -> Result<Answer, Memory>
    requires protocol { protocol.now ≡ log.now.protocol }
    requires bad { log.now.mark ≡ Mark.Bad node }
    requires safe { IsSafe protocol.now }
    ensures { IfOk result (λ _. ⊥) }
{
    let _trace = trace_build::build(alloc, protocol, log.nodes(), node)?;
    unreachable!()
}

// The line of a search that has ended.
fn told(alloc: Global, protocol: &Protocol, levels: u8, ended: &Ended) -> Result<Answer, Memory>
    requires protocol { protocol.now ≡ (log_of ended.now).protocol }
    requires verdict { TellsEnd ended.now }
    requires safe { IsSafe protocol.now }
    ensures { IfOk result (λ a. TellsLine levels (log_of ended.now) a.status a.text) }
{
    match ended {
        Ended::Safe(log) => safe_answer(alloc, levels, log),
        Ended::Bad(log, node) => never_bad(alloc, protocol, log, *node),
        Ended::Full(_log) => unknown_answer(alloc, levels, b"UNKNOWN cubes"),
        Ended::Wide(_log, _number) => unknown_answer(alloc, levels, b"UNKNOWN width"),
    }
}

/// Searches by one worker in the sample protocol of so many levels above the lowest, 2 to 63, and answers its verdict in one
/// line, with the number of live cubes where it is safe.
pub fn sample_answer(alloc: Global, levels: u8, budget: Budget) -> Result<Answer, Memory>
    requires low { 2 ≤ levels }
    requires high { levels ≤ 63 }
    ensures { IfOk result (λ a. AnswersSample levels budget a.status a.text) }
{
    let protocol = sample(alloc, levels)?;
    let ended = check_one(alloc, &protocol, budget)?;
    told(alloc, &protocol, levels, &ended)
}
