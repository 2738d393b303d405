//! The text of a log that has a verdict: the certificate of its live cubes, the trace of its bad node, or its journal.

ghost use Rattle.std.specs.Prelude.{◌≡◌, Some, IfOk};
ghost use Rattle.log_form.specs.declared.event.Mark.{Mark};
ghost use Rattle.log_form.specs.declared.verdicts.LogVerdict.{LogVerdict};
ghost use Rattle.log_form.specs.Log.{live_cubes};
ghost use Rattle.log_form.specs.Verdict.{verdict_of};
ghost use Rattle.journal_text.specs.Lawful.{IsUnknown};
ghost use Rattle.check_answers.specs.Certified.{IsSafe, IsLinedText, IsCertificateText};
ghost use Rattle.check_answers.specs.Checked.{IsUnsafe, IsOpen, unsafe_status};

use answer_lines::Answer;
use core_laws::cubes_of;
use cover_lines::cover_lines;
use crew::SearchLog;
use cub_base::{Items, Memory, Text};
use cub_cube::Cube;
use cub_proto::{Protocol, Trace};
use std::alloc::Global;
use theory::Scratch;

// The text of the certificate in version 2.
fn lined_text(
    alloc: Global,
    protocol: &Protocol,
    log: &SearchLog,
    cubes: &[Cube],
) -> Result<Text, Memory>
    requires protocol { protocol.now ≡ log.now.protocol }
    requires safe { verdict_of log.now ≡ Some LogVerdict.Safe }
    requires cubes { cubes.now ≡ live_cubes log.now.nodes }
    ensures { IfOk result (IsLinedText protocol.now cubes.now) }
{
    let mut scratch = Scratch::new(alloc, protocol)?;
    let lines = cover_lines(alloc, &mut scratch, protocol, log)?;
    let text = cert_text::write2(protocol, cubes, lines.as_slice())?;
    Ok(Items::from_vec(text))
}

// The text of the certificate in the version that is asked for.
fn certificate(
    alloc: Global,
    protocol: &Protocol,
    log: &SearchLog,
    cubes: &[Cube],
    format: u8,
) -> Result<Text, Memory>
    requires protocol { protocol.now ≡ log.now.protocol }
    requires safe { verdict_of log.now ≡ Some LogVerdict.Safe }
    requires cubes { cubes.now ≡ live_cubes log.now.nodes }
    ensures { IfOk result (IsCertificateText protocol.now cubes.now format) }
{
    if format == 2 {
        return lined_text(alloc, protocol, log, cubes);
    }
    let text = cert_text::write(protocol, cubes)?;
    Ok(Items::from_vec(text))
}

/// Status 0 and the certificate.
pub fn safe_answer(
    alloc: Global,
    protocol: &Protocol,
    log: &SearchLog,
    format: u8,
) -> Result<Answer, Memory>
    requires protocol { protocol.now ≡ log.now.protocol }
    requires safe { verdict_of log.now ≡ Some LogVerdict.Safe }
    ensures { IfOk result (λ answer. IsSafe format log.now answer.status answer.text) }
{
    let cubes = cubes_of(log)?;
    let text = certificate(alloc, protocol, log, cubes.as_slice(), format)?;
    Ok(Answer { status: 0, text })
}

// 1 where the steps alone reach an unsafe state, 2 where processes crash on the way.
fn status_of(trace: &Trace) -> u8
    ensures { result ≡ unsafe_status trace.now.plain }
{
    if trace.plain.is_some() { 2 } else { 1 }
}

/// Status 1 or 2 and the trace.
pub fn unsafe_answer(
    alloc: Global,
    protocol: &Protocol,
    log: &SearchLog,
    node: u32,
) -> Result<Answer, Memory>
    requires protocol { protocol.now ≡ log.now.protocol }
    requires bad { log.now.mark ≡ Mark.Bad node }
    ensures { IfOk result (λ answer. IsUnsafe log.now answer.status answer.text) }
{
    let trace = trace_build::build(alloc, protocol, log.nodes(), node)?;
    let text = trace_text::write(protocol, &trace)?;
    let status = status_of(&trace);
    Ok(Answer {
        status,
        text: Items::from_vec(text),
    })
}

/// Status 3 and the journal.
pub fn open_answer(alloc: Global, protocol: &Protocol, log: &SearchLog) -> Result<Answer, Memory>
    requires protocol { protocol.now ≡ log.now.protocol }
    requires unknown { IsUnknown log.now }
    ensures { IfOk result (λ answer. IsOpen log.now answer.status answer.text) }
{
    let text = journal_text::write(alloc, protocol, log)?;
    Ok(Answer {
        status: 3,
        text: Items::from_vec(text),
    })
}
