//! `verify`: a certificate is read and tested.

ghost use Rattle.std.specs.Prelude.{◌≡◌, ◌∷◌, [], IfOk, IsErrOf};
ghost use Rattle.io_edge.specs.Faults.{Rose};
ghost use Rattle.io_edge.specs.Shelf.{AsksFor};
ghost use Rattle.parcub.specs.Files.{AnswersFile};
ghost use Rattle.parcub.specs.Verifies.{AnswersNamed};
ghost use Rattle.parcub.specs.declared.files.Stop.TheVariants as Stop;

use crate::files::{RESULT_LIMIT, Stop};
use answer_lines::{Answer, at_long_protocol, at_protocol_fault};
use cub_proto::Protocol;
use io_edge::{LoadFault, Shelf};
use protocol_text::{PROTOCOL_LIMIT, TextFault, read_protocol};
use std::alloc::Global;
use verify_answers::{at_long_certificate, certificate_answer};

/// The answer to a protocol and the name of a certificate.
pub fn named_answer<S: Shelf>(
    alloc: Global,
    protocol: &Protocol,
    name: &str,
    shelf: &mut S,
) -> Result<Answer, Stop>
    ensures asked { AsksFor (S.asked shelf.old) (S.asked shelf.new) (name.now ∷ []) }
    ensures answer { IfOk result (λ answer. AnswersNamed (S.bytes_of shelf.old) (S.taken shelf.new) name.now protocol.now answer.status answer.text) }
    ensures failed { IsErrOf result Stop.Failed → Rose (S.faults shelf.old) (S.faults shelf.new) }
{
    match shelf.load(alloc, name, RESULT_LIMIT) {
        Ok(bytes) => Ok(certificate_answer(alloc, protocol, bytes.as_slice())?),
        Err(LoadFault::TooLong) => Ok(at_long_certificate(alloc)?),
        Err(LoadFault::Failed) => Err(Stop::Failed),
        Err(LoadFault::Memory) => Err(Stop::Memory),
    }
}

/// The answer to the names of a protocol and of a certificate.
pub fn verify_answer<S: Shelf>(
    alloc: Global,
    file: &str,
    cert: &str,
    shelf: &mut S,
) -> Result<Answer, Stop>
    ensures asked { AsksFor (S.asked shelf.old) (S.asked shelf.new) (file.now ∷ cert.now ∷ []) }
    ensures answer { IfOk result (λ answer. AnswersFile (S.bytes_of shelf.old) (S.taken shelf.new) file.now (AnswersNamed (S.bytes_of shelf.old) (S.taken shelf.new) cert.now) answer.status answer.text) }
    ensures failed { IsErrOf result Stop.Failed → Rose (S.faults shelf.old) (S.faults shelf.new) }
{
    match shelf.load(alloc, file, PROTOCOL_LIMIT) {
        Ok(bytes) => match read_protocol(alloc, bytes.as_slice()) {
            Ok(protocol) => named_answer(alloc, &protocol, cert, shelf),
            Err(TextFault::Fault { code, line, column }) => {
                Ok(at_protocol_fault(alloc, code, line, column)?)
            }
            Err(TextFault::Memory) => Err(Stop::Memory),
        },
        Err(LoadFault::TooLong) => Ok(at_long_protocol(alloc)?),
        Err(LoadFault::Failed) => Err(Stop::Failed),
        Err(LoadFault::Memory) => Err(Stop::Memory),
    }
}
