//! A certificate is read and tested.

ghost use Rattle.std.specs.Prelude.{◌≡◌, ◌<◌, ◌≤◌, ◌^◌, ◌⊎◌, length, All, IsTrue, None, Some, IfOk};
ghost use Rattle.pieces.specs.Jobs.{IsExpandable};
ghost use Rattle.cert_text.specs.Lawful.{IsLawfulCertificate};
ghost use Rattle.cert_check.specs.Keys.{lines_rise};
ghost use Rattle.verify_answers.specs.Verified.{Accepts, Refuses, AnswersCertificate};

use crate::lines::{at_accepted, at_cert_fault, at_refused};
use answer_lines::Answer;
use cert_check::{Refused, check, check2};
use cert_text::{CertFault, Certificate, read};
use cub_base::Memory;
use cub_cube::Cube;
use cub_proto::{CoverLine, Protocol};
use std::alloc::Global;

// The answer to cubes without lines.
fn plain_answer(alloc: Global, protocol: &Protocol, cubes: &[Cube]) -> Result<Answer, Memory>
    requires fit { All (IsExpandable protocol.now) cubes.now }
    requires few { length cubes.now < 2 ^ 32 }
    ensures { IfOk result (λ a. Accepts protocol.now cubes.now None a.status a.text ⊎ Refuses protocol.now cubes.now None a.status a.text) }
{
    match check(alloc, protocol, cubes) {
        Ok(()) => at_accepted(alloc, cubes),
        Err(Refused::Memory) => Err(Memory),
        Err(refused) => at_refused(alloc, refused),
    }
}

// The answer to cubes with lines.
fn lined_answer(
    alloc: Global,
    protocol: &Protocol,
    cubes: &[Cube],
    lines: &[CoverLine],
) -> Result<Answer, Memory>
    requires fit { All (IsExpandable protocol.now) cubes.now }
    requires few { length cubes.now < 2 ^ 32 }
    requires rise { IsTrue (lines_rise lines.now) }
    ensures { IfOk result (λ a. Accepts protocol.now cubes.now (Some lines.now) a.status a.text ⊎ Refuses protocol.now cubes.now (Some lines.now) a.status a.text) }
{
    match check2(alloc, protocol, cubes, lines) {
        Ok(()) => at_accepted(alloc, cubes),
        Err(Refused::Memory) => Err(Memory),
        Err(refused) => at_refused(alloc, refused),
    }
}

// The answer to a certificate, by its version.
fn tested(alloc: Global, protocol: &Protocol, certificate: &Certificate) -> Result<Answer, Memory>
    requires { IsLawfulCertificate protocol.now certificate.now.cubes certificate.now.lines }
    ensures { IfOk result (λ a. Accepts protocol.now certificate.now.cubes certificate.now.lines a.status a.text
        ⊎ Refuses protocol.now certificate.now.cubes certificate.now.lines a.status a.text) }
{
    let cubes = certificate.cubes.as_slice();
    match &certificate.lines {
        None => plain_answer(alloc, protocol, cubes),
        Some(lines) => lined_answer(alloc, protocol, cubes, lines.as_slice()),
    }
}

/// Reads the bytes as a certificate and tests it: in version 2 by its cover lines, in version 1 by a search for each covering.
/// Numbers of cubes, unsafe conjunctions, pieces and cover lines count from 1 in the text.
pub fn certificate_answer(
    alloc: Global,
    protocol: &Protocol,
    bytes: &[u8],
) -> Result<Answer, Memory>
    requires { length bytes.now ≤ 268435456 }
    ensures { IfOk result (λ a. AnswersCertificate protocol.now bytes.now a.status a.text) }
{
    match read(protocol, bytes) {
        Ok(certificate) => tested(alloc, protocol, &certificate),
        Err(CertFault::Fault { line, kind }) => at_cert_fault(alloc, kind, line),
        Err(CertFault::Memory) => Err(Memory),
    }
}
