//! Rows on certificates: `certificate TEXT`, which is read and then tested.

ghost use Rattle.std.specs.Prelude.{◌<◌, ◌^◌, length, All, IsTrue};
ghost use Rattle.pieces.specs.Jobs.{IsExpandable};
ghost use Rattle.cert_text.specs.Lawful.{IsLawfulCertificate};
ghost use Rattle.cert_check.specs.Keys.{lines_rise};

use crate::answers::{push_fault, push_named};
use crate::failed::Failed;
use crate::texts::ended;
use cert_check::{Refused, check, check2};
use cert_text::{CertFault, Certificate, read};
use cub_cube::Cube;
use cub_proto::{CoverLine, Protocol};
use std::alloc::Global;
use text_lines::push;

// The most bytes of a certificate.
const LIMIT: usize = 1_048_576;

// Appends that the cubes pass, or the first obligation that fails.
fn push_tested(out: &mut Vec<u8>, tested: Result<(), Refused>) -> Result<(), Failed> {
    match tested {
        Ok(()) => push(out, b"accepted")?,
        Err(Refused::Start { cube }) => push_named(out, b"start", u64::from(cube))?,
        Err(Refused::Unsafe { goal }) => push_named(out, b"unsafe", u64::from(goal))?,
        Err(Refused::Piece { cube, piece }) => {
            push_named(out, b"piece", piece)?;
            push_named(out, b" of", u64::from(cube))?
        }
        Err(Refused::Extra { line }) => push_named(out, b"extra", line)?,
        Err(Refused::Memory) => return Err(Failed::Memory),
    }
    Ok(())
}

// Tests the cubes without lines.
fn test_plain(
    alloc: Global,
    protocol: &Protocol,
    cubes: &[Cube],
    out: &mut Vec<u8>,
) -> Result<(), Failed>
    requires fit { All (IsExpandable protocol.now) cubes.now }
    requires few { length cubes.now < 2 ^ 32 }
{
    push_tested(out, check(alloc, protocol, cubes))
}

// Tests the cubes by the lines.
fn test_lined(
    alloc: Global,
    protocol: &Protocol,
    cubes: &[Cube],
    lines: &[CoverLine],
    out: &mut Vec<u8>,
) -> Result<(), Failed>
    requires fit { All (IsExpandable protocol.now) cubes.now }
    requires few { length cubes.now < 2 ^ 32 }
    requires rise { IsTrue (lines_rise lines.now) }
{
    push_tested(out, check2(alloc, protocol, cubes, lines))
}

// Tests the certificate by its version.
fn test(
    alloc: Global,
    protocol: &Protocol,
    certificate: &Certificate,
    out: &mut Vec<u8>,
) -> Result<(), Failed>
    requires { IsLawfulCertificate protocol.now certificate.now.cubes certificate.now.lines }
{
    let cubes = certificate.cubes.as_slice();
    match &certificate.lines {
        None => test_plain(alloc, protocol, cubes, out),
        Some(lines) => test_lined(alloc, protocol, cubes, lines.as_slice(), out),
    }
}

/// Reads and tests the certificate, and appends that it is accepted, the first fault of its text, or the first obligation
/// that fails.
pub fn certificate(
    alloc: Global,
    protocol: &Protocol,
    row: &[u8],
    out: &mut Vec<u8>,
) -> Result<(), Failed> {
    let text = ended(alloc, row)?;
    if text.len() > LIMIT {
        return Err(Failed::Unfit);
    }
    match read(protocol, text.as_slice()) {
        Ok(certificate) => test(alloc, protocol, &certificate, out),
        Err(CertFault::Fault { line, kind }) => {
            push_fault(out, b"C", kind, line)?;
            Ok(())
        }
        Err(CertFault::Memory) => Err(Failed::Memory),
    }
}
