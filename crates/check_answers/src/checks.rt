//! The search and its result.

ghost use Rattle.std.specs.Prelude.{◌≡◌, IfOk};
ghost use Rattle.check_answers.specs.Checked.{AnswersCheck, TellsLog};
ghost use Rattle.crew.specs.Ends.{log_of, TellsVerdict};

use crate::results::{open_answer, safe_answer, unsafe_answer};
use answer_lines::Answer;
use crew::{Ended, check_one};
use cub_base::Memory;
use cub_proto::{Budget, Protocol};
use std::alloc::Global;

// The result of a search that has ended.
fn told(alloc: Global, protocol: &Protocol, ended: &Ended, format: u8) -> Result<Answer, Memory>
    requires protocol { protocol.now ≡ (log_of ended.now).protocol }
    requires verdict { TellsVerdict ended.now }
    ensures { IfOk result (λ answer. TellsLog format (log_of ended.now) answer.status answer.text) }
{
    match ended {
        Ended::Safe(log) => safe_answer(alloc, protocol, log, format),
        Ended::Bad(log, node) => unsafe_answer(alloc, protocol, log, *node),
        Ended::Full(log) => open_answer(alloc, protocol, log),
        Ended::Wide(log, _number) => open_answer(alloc, protocol, log),
    }
}

/// Searches by one worker and answers its result: SAFE with a certificate, in version 2 where the format is 2, UNSAFE with a
/// trace, or UNKNOWN with a journal.
pub fn check_answer(
    alloc: Global,
    protocol: &Protocol,
    budget: Budget,
    format: u8,
) -> Result<Answer, Memory>
    ensures { IfOk result (λ answer. AnswersCheck budget format protocol.now answer.status answer.text) }
{
    let ended = check_one(alloc, protocol, budget)?;
    told(alloc, protocol, &ended, format)
}
