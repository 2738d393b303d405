//! `replay`: a trace is read and judged.

ghost use Rattle.std.specs.Prelude.{◌≡◌, ◌≤◌, ◌⊎◌, ◌∷◌, [], length, IfOk, IsErrOf};
ghost use Rattle.io_edge.specs.Faults.{Rose};
ghost use Rattle.io_edge.specs.Shelf.{AsksFor};
ghost use Rattle.trace_judge.specs.Trace.{MayReplay};
ghost use Rattle.parcub.specs.Files.{AnswersFile};
ghost use Rattle.answer_laws.specs.Replays as of_bytes;
ghost use Rattle.parcub.specs.Replays.{AnswersTrace};
ghost use Rattle.parcub.specs.declared.files.Stop.TheVariants as Stop;

use crate::files::{RESULT_LIMIT, Stop};
use answer_lines::{
    Answer, at_accepted, at_long_protocol, at_long_trace, at_protocol_fault, at_refusal,
    at_trace_fault,
};
use cub_base::Memory;
use cub_proto::{Protocol, Trace};
use io_edge::{LoadFault, Shelf};
use protocol_text::{PROTOCOL_LIMIT, TextFault, read_protocol};
use std::alloc::Global;
use trace_judge::{Refusal, replayed};
use trace_text::{TraceFault, read};

// The answer to a trace.
fn judged(alloc: Global, protocol: &Protocol, trace: Trace) -> Result<Answer, Memory>
    requires { MayReplay protocol.now trace.start trace.events }
    ensures { IfOk result (λ answer. of_bytes.Accepts protocol.now trace answer.status answer.text ⊎ of_bytes.Refuses protocol.now trace answer.status answer.text) }
{
    let accepted = at_accepted(alloc, trace.events.as_slice())?;
    match replayed(protocol, trace) {
        Ok(()) => Ok(accepted),
        Err(Refusal::Memory) => Err(Memory),
        Err(refusal) => at_refusal(alloc, protocol, refusal),
    }
}

// The answer to the bytes of a trace.
fn bytes_answer(alloc: Global, protocol: &Protocol, bytes: &[u8]) -> Result<Answer, Memory>
    requires { length bytes.now ≤ 268435456 }
    ensures { IfOk result (λ answer. of_bytes.AnswersTrace protocol.now bytes.now answer.status answer.text) }
{
    match read(protocol, bytes) {
        Ok(trace) => judged(alloc, protocol, trace),
        Err(TraceFault::Fault { line, kind }) => at_trace_fault(alloc, kind, line),
        Err(TraceFault::Memory) => Err(Memory),
    }
}

/// The answer to a protocol and the name of a trace.
pub fn trace_answer<S: Shelf>(
    alloc: Global,
    protocol: &Protocol,
    name: &str,
    shelf: &mut S,
) -> Result<Answer, Stop>
    ensures asked { AsksFor (S.asked shelf.old) (S.asked shelf.new) (name.now ∷ []) }
    ensures answer { IfOk result (λ answer. AnswersTrace (S.bytes_of shelf.old) (S.taken shelf.new) name.now protocol.now answer.status answer.text) }
    ensures failed { IsErrOf result Stop.Failed → Rose (S.faults shelf.old) (S.faults shelf.new) }
{
    match shelf.load(alloc, name, RESULT_LIMIT) {
        Ok(bytes) => Ok(bytes_answer(alloc, protocol, bytes.as_slice())?),
        Err(LoadFault::TooLong) => Ok(at_long_trace(alloc)?),
        Err(LoadFault::Failed) => Err(Stop::Failed),
        Err(LoadFault::Memory) => Err(Stop::Memory),
    }
}

/// The answer to the names of a protocol and of a trace.
pub fn replay_answer<S: Shelf>(
    alloc: Global,
    file: &str,
    trace: &str,
    shelf: &mut S,
) -> Result<Answer, Stop>
    ensures asked { AsksFor (S.asked shelf.old) (S.asked shelf.new) (file.now ∷ trace.now ∷ []) }
    ensures answer { IfOk result (λ answer. AnswersFile (S.bytes_of shelf.old) (S.taken shelf.new) file.now (AnswersTrace (S.bytes_of shelf.old) (S.taken shelf.new) trace.now) answer.status answer.text) }
    ensures failed { IsErrOf result Stop.Failed → Rose (S.faults shelf.old) (S.faults shelf.new) }
{
    match shelf.load(alloc, file, PROTOCOL_LIMIT) {
        Ok(bytes) => match read_protocol(alloc, bytes.as_slice()) {
            Ok(protocol) => trace_answer(alloc, &protocol, trace, shelf),
            Err(TextFault::Fault { code, line, column }) => {
                Ok(at_protocol_fault(alloc, code, line, column)?)
            }
            Err(TextFault::Memory) => Err(Stop::Memory),
        },
        Err(LoadFault::TooLong) => Ok(at_long_protocol(alloc)?),
        Err(LoadFault::Failed) => Err(Stop::Failed),
        Err(LoadFault::Memory) => Err(Stop::Memory),
    }
}
