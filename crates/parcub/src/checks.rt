//! `check`: a protocol is searched; `sample`: the search in the sample protocol.

ghost use Rattle.std.specs.Prelude.{◌≡◌, ◌≤◌, ◌⊎◌, ◌∷◌, [], length, IfOk, IsErrOf};
ghost use Rattle.io_edge.specs.Faults.{Rose};
ghost use Rattle.io_edge.specs.Shelf.{AsksFor};
ghost use Rattle.parcub.specs.Files.{IsTextFault, IsRead, AnswersFile};
ghost use Rattle.parcub.specs.Checks.{AnswersCheckBy, AnswersSampleBy};
ghost use Rattle.parcub.specs.declared.files.Stop.TheVariants as Stop;

use crate::files::Stop;
use answer_lines::{Answer, at_long_protocol, at_protocol_fault};
use check_answers::{check_answer, sample_answer};
use cub_base::Memory;
use cub_proto::Budget;
use io_edge::{LoadFault, Shelf};
use protocol_text::{PROTOCOL_LIMIT, TextFault, read_protocol};
use std::alloc::Global;

// The answer to the bytes of a protocol.
fn bytes_answer(alloc: Global, bytes: &[u8], budget: Budget, format: u8) -> Result<Answer, Memory>
    requires { length bytes.now ≤ 1048576 }
    ensures { IfOk result (λ answer. IsTextFault bytes.now answer.status answer.text ⊎ IsRead bytes.now (AnswersCheckBy budget.cubes budget.width format) answer.status answer.text) }
{
    match read_protocol(alloc, bytes) {
        Ok(protocol) => check_answer(alloc, &protocol, budget, format),
        Err(TextFault::Fault { code, line, column }) => at_protocol_fault(
            alloc, code, line, column,
        ),
        Err(TextFault::Memory) => Err(Memory),
    }
}

/// The answer to the name of a protocol.
pub fn checked_answer<S: Shelf>(
    alloc: Global,
    file: &str,
    budget: Budget,
    format: u8,
    shelf: &mut S,
) -> Result<Answer, Stop>
    ensures asked { AsksFor (S.asked shelf.old) (S.asked shelf.new) (file.now ∷ []) }
    ensures answer { IfOk result (λ answer. AnswersFile (S.bytes_of shelf.old) (S.taken shelf.new) file.now (AnswersCheckBy budget.cubes budget.width format) answer.status answer.text) }
    ensures failed { IsErrOf result Stop.Failed → Rose (S.faults shelf.old) (S.faults shelf.new) }
{
    match shelf.load(alloc, file, PROTOCOL_LIMIT) {
        Ok(bytes) => Ok(bytes_answer(alloc, bytes.as_slice(), budget, format)?),
        Err(LoadFault::TooLong) => Ok(at_long_protocol(alloc)?),
        Err(LoadFault::Failed) => Err(Stop::Failed),
        Err(LoadFault::Memory) => Err(Stop::Memory),
    }
}

/// The answer to a number of levels.
pub fn sampled_answer(alloc: Global, levels: u8, budget: Budget) -> Result<Answer, Memory>
    requires low { 2 ≤ levels }
    requires high { levels ≤ 63 }
    ensures { IfOk result (λ answer. AnswersSampleBy levels budget.cubes budget.width answer.status answer.text) }
{
    sample_answer(alloc, levels, budget)
}
