//! The top call: words, a shelf and a sink in, a status out. It loads the files of the words in their order, makes its
//! whole answer, and then writes it, so want of memory and a failure of the shelf leave nothing written.

ghost use Rattle.std.specs.Prelude.{◌≡◌, ◌≢◌, ◌⊎◌, ℕ, List, map, true, is_ok, IfOk, IsErrOf};
ghost use Rattle.io_edge.specs.Faults.{Rose};
ghost use Rattle.io_edge.specs.Shelf.{AsksFor};
ghost use Rattle.io_edge.specs.Sink.{with_bytes, WritesPart};
ghost use Rattle.cub_words.specs.Reading.{reading};
ghost use Rattle.cub_words.specs.Asked.{asked_by, HasLevels};
ghost use Rattle.parcub.specs.Answer.{AnswersRequest, IsAnswer, HaveLevels, files_named, files_of};
ghost use Rattle.parcub.specs.declared.files.Stop.TheVariants as Stop;

use crate::checks::{checked_answer, sampled_answer};
use crate::files::Stop;
use crate::prints::print_answer;
use crate::replays::replay_answer;
use crate::verifies::verify_answer;
use answer_lines::{Answer, at_words_fault};
use cub_words::{Command, read};
use io_edge::{Shelf, Sink, put_all};
use std::alloc::Global;
use word_parser::parse;

// The answer to a command.
fn command_answer<S: Shelf>(alloc: Global, command: Command, shelf: &mut S) -> Result<Answer, Stop>
    requires levels { HasLevels command }
    ensures asked { AsksFor (S.asked shelf.old) (S.asked shelf.new) (files_named (asked_by command.entry)) }
    ensures answer { IfOk result (λ answer. AnswersRequest (S.bytes_of shelf.old) (S.taken shelf.new) (asked_by command.entry) answer.status answer.text) }
    ensures failed { IsErrOf result Stop.Failed → Rose (S.faults shelf.old) (S.faults shelf.new) }
{
    match command {
        Command::Print { file } => print_answer(alloc, file, shelf),
        Command::Replay { file, trace } => replay_answer(alloc, file, trace, shelf),
        Command::Check {
            file,
            budget,
            format,
            ..
        } => checked_answer(alloc, file, budget, format, shelf),
        Command::Verify { file, cert } => verify_answer(alloc, file, cert, shelf),
        Command::Sample { levels, budget, .. } => Ok(sampled_answer(alloc, levels, budget)?),
    }
}

// The answer to words that ask for a command. A general parser of command lines reads them once more; it names the same
// command, by its contract.
fn accepted_answer<S: Shelf>(alloc: Global, words: &[&str], shelf: &mut S) -> Result<Answer, Stop>
    requires accepted { is_ok (reading (map (λ word. word.now) words.now)) ≡ true }
    requires levels { HaveLevels (reading (map (λ word. word.now) words.now)) }
    ensures asked { AsksFor (S.asked shelf.old) (S.asked shelf.new) (files_of (map (λ word. word.now) words.now)) }
    ensures answer { IfOk result (λ answer. IsAnswer (S.bytes_of shelf.old) (S.taken shelf.new) (map (λ word. word.now) words.now) answer.status answer.text) }
    ensures failed { IsErrOf result Stop.Failed → Rose (S.faults shelf.old) (S.faults shelf.new) }
{
    let command = parse(alloc, words)?;
    command_answer(alloc, command, shelf)
}

// The answer to the words.
fn answered<S: Shelf>(alloc: Global, words: &[&str], shelf: &mut S) -> Result<Answer, Stop>
    ensures asked { AsksFor (S.asked shelf.old) (S.asked shelf.new) (files_of (map (λ word. word.now) words.now)) }
    ensures answer { IfOk result (λ answer. IsAnswer (S.bytes_of shelf.old) (S.taken shelf.new) (map (λ word. word.now) words.now) answer.status answer.text) }
    ensures failed { IsErrOf result Stop.Failed → Rose (S.faults shelf.old) (S.faults shelf.new) }
{
    match read(words) {
        Ok(_command) => accepted_answer(alloc, words, shelf),
        Err(fault) => Ok(at_words_fault(alloc, fault)?),
    }
}

/// Answers the words, which stand without the program's own name, and gives the status: 0 where the search proves the
/// protocol safe, a protocol is printed, a certificate or a trace accepted, 1 where it finds a run to an unsafe state, 2 where
/// the run has crashes, 3 where it ends for want of budget, 4 where the protocol's text is refused, 5 where the words are,
/// 6 where the shelf fails, 7 where the sink does, 8 where memory runs out, and 9 where the certificate or trace is refused.
pub fn run_plain<S: Shelf, K: Sink>(alloc: Global, words: &[&str], shelf: &mut S, out: &mut K) -> u8
    // The files of the words alone are asked for, in their order, each at most once.
    ensures asked { AsksFor (S.asked shelf.old) (S.asked shelf.new) (files_of (map (λ word. word.now) words.now)) }

    // What is written.
    ensures answered { result ≢ 6 → result ≢ 7 → result ≢ 8 →
        (text : List ℕ) × IsAnswer (S.bytes_of shelf.old) (S.taken shelf.new) (map (λ word. word.now) words.now) result text
        × (K.written out.new ≡ with_bytes (K.written out.old) text) }
    ensures part { result ≡ 7 →
        (status : ℕ) × ((text : List ℕ) × IsAnswer (S.bytes_of shelf.old) (S.taken shelf.new) (map (λ word. word.now) words.now) status text
        × WritesPart (K.written out.old) (K.written out.new) text) }
    ensures nothing { (result ≡ 6) ⊎ (result ≡ 8) → K.written out.new ≡ K.written out.old }

    // A failure has its cause.
    ensures not_read { result ≡ 6 → Rose (S.faults shelf.old) (S.faults shelf.new) }
    ensures not_written { result ≡ 7 → Rose (K.faults out.old) (K.faults out.new) }
{
    match answered(alloc, words, shelf) {
        Ok(answer) => match put_all(out, answer.text.as_slice()) {
            Ok(()) => answer.status,
            Err(_) => 7,
        },
        Err(Stop::Failed) => 6,
        Err(Stop::Memory) => 8,
    }
}
