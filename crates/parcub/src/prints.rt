//! `print`: the canonical text of a protocol.

ghost use Rattle.std.specs.Prelude.{◌≡◌, ◌≤◌, ◌⊎◌, ◌∷◌, [], length, IfOk, IsErrOf};
ghost use Rattle.io_edge.specs.Faults.{Rose};
ghost use Rattle.io_edge.specs.Shelf.{AsksFor};
ghost use Rattle.parcub.specs.Files.{IsTextFault, IsRead, AnswersFile};
ghost use Rattle.parcub.specs.Answer.{AnswersPrint};
ghost use Rattle.parcub.specs.declared.files.Stop.TheVariants as Stop;

use crate::files::Stop;
use answer_lines::{Answer, at_long_protocol, at_protocol_fault};
use cub_base::{Items, Memory};
use cub_print::print;
use cub_proto::Protocol;
use io_edge::{LoadFault, Shelf};
use protocol_text::{PROTOCOL_LIMIT, TextFault, read_protocol};
use std::alloc::Global;

// The answer to a protocol.
fn printed(protocol: &Protocol) -> Result<Answer, Memory>
    ensures { IfOk result (λ answer. AnswersPrint protocol.now answer.status answer.text) }
{
    let text = print(protocol)?;
    Ok(Answer {
        status: 0,
        text: Items::from_vec(text),
    })
}

// The answer to the bytes of a protocol.
fn bytes_answer(alloc: Global, bytes: &[u8]) -> Result<Answer, Memory>
    requires { length bytes.now ≤ 1048576 }
    ensures { IfOk result (λ answer. IsTextFault bytes.now answer.status answer.text ⊎ IsRead bytes.now AnswersPrint answer.status answer.text) }
{
    match read_protocol(alloc, bytes) {
        Ok(protocol) => printed(&protocol),
        Err(TextFault::Fault { code, line, column }) => at_protocol_fault(
            alloc, code, line, column,
        ),
        Err(TextFault::Memory) => Err(Memory),
    }
}

/// The answer to the name of a protocol.
pub fn print_answer<S: Shelf>(alloc: Global, file: &str, shelf: &mut S) -> Result<Answer, Stop>
    ensures asked { AsksFor (S.asked shelf.old) (S.asked shelf.new) (file.now ∷ []) }
    ensures answer { IfOk result (λ answer. AnswersFile (S.bytes_of shelf.old) (S.taken shelf.new) file.now AnswersPrint answer.status answer.text) }
    ensures failed { IsErrOf result Stop.Failed → Rose (S.faults shelf.old) (S.faults shelf.new) }
{
    match shelf.load(alloc, file, PROTOCOL_LIMIT) {
        Ok(bytes) => Ok(bytes_answer(alloc, bytes.as_slice())?),
        Err(LoadFault::TooLong) => Ok(at_long_protocol(alloc)?),
        Err(LoadFault::Failed) => Err(Stop::Failed),
        Err(LoadFault::Memory) => Err(Stop::Memory),
    }
}
