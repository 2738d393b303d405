//! Reading a certificate: line by line, up to the end or the first line that may not stand where it stands.

ghost use Rattle.std.specs.Prelude.{◌≡◌, ℕ, ◌+◌, ◌<◌, ◌≤◌, ◌^◌, [], ◌∷◌, ◌++◌, length, Bool, true, false, List, IsTrue, All, bytes_eq, codes, Option, Some, None, Result, Ok, Err, IfOk, IfErr, OnOk, IfSome, IfNone};
ghost use Rattle.cub_proto.specs.declared.protocol.Protocol.{Protocol};
ghost use Rattle.cub_cube.specs.declared.cube.Cube.{Cube};
ghost use Rattle.text_lines.specs.Line.{line_at};
ghost use Rattle.cert_text.specs.declared.certificate.Certificate.{Certificate};
ghost use Rattle.cub_proto.specs.declared.cover.CoverLine.{CoverLine};
ghost use Rattle.cube_text.specs.Form.{is_number};
ghost use Rattle.cube_text.specs.Reading.{IsLawful};
ghost use Rattle.cert_text.specs.Text.{version_text, count_text, certificate_text};
ghost use Rattle.cert_text.specs.Lawful.{widest, is_lawful_line, comes_after, are_lawful_lines, are_lawful_covers, IsLawfulCertificate};
ghost use Rattle.cert_text.specs.Cover.{begins_cover, begins_cube};
ghost use Rattle.cert_text.specs.Place.{Heading, Version, Count, Cubes, Ending, Covers, Done, is_reached, behind_cubes, at_tail, last_of, certificate_of, cube_fault, line_fault, CertificateReads, GoesOn, IsFaultOf};

use crate::certificate::Certificate;
use crate::covers::cover_of;
use crate::fault::CertFault;
use crate::form::{begins_cover, begins_cube, cover_fault};
use crate::numbers::number;
use crate::writer::version_text;
use cub_base::Items;
use cub_cube::{Cube, Cubes};
use cub_proto::{CoverLine, CoverLines, Protocol};
use cube_text::{CubeFault, is_number, read_cube};
use std::alloc::Global;
use text_lines::{cut_line, is_word};

const WIDEST: u8 = 8;

/// A line without its line feed, and the text behind it.
#[derive(Clone, Copy, Debug)]
struct Cut<'a> {
    bytes: &'a [u8],
    rest: &'a [u8],
}

fn next_line(text: &[u8]) -> Option<Cut<'_>>
    ensures some { IfSome result (λ cut. line_at text.now ≡ Some (cut.bytes.now, cut.rest.now)) }
    ensures none { IfNone result (line_at text.now ≡ None) }
    ensures room { IfSome result (λ cut. length cut.rest.now < length text.now) }
{
    match cut_line(text) {
        Some((bytes, rest)) => Some(Cut { bytes, rest }),
        None => None,
    }
}

fn read_heading(text: &[u8]) -> Result<&[u8], CertFault>
    ensures room { IfOk result (λ rest. length rest.now < length text.now) }
    ensures ok { IfOk result (λ rest. (p : Protocol) → GoesOn p Version 2 rest.now Heading 1 text.now) }
    ensures err { IfErr result (λ f. (p : Protocol) → IsFaultOf p Heading 1 text.now f) }
{
    let Some(cut) = next_line(text) else {
        return Err(CertFault::Fault { line: 1, kind: 1 });
    };
    if !is_word(cut.bytes, b"SAFE") {
        return Err(CertFault::Fault { line: 1, kind: 1 });
    }
    Ok(cut.rest)
}

fn version_of(line: &[u8]) -> Option<bool>
    ensures found { IfSome result (λ two. line.now ≡ version_text two) }
    ensures none { IfNone result ((two : Bool) → line.now ≡ version_text two → ⊥) }
{
    if is_word(line, version_text(false)) {
        return Some(false);
    }
    if is_word(line, version_text(true)) {
        return Some(true);
    }
    None
}

fn read_version(text: &[u8]) -> Result<(bool, &[u8]), CertFault>
    ensures room { IfOk result (λ x. length x.1.now < length text.now) }
    ensures ok { IfOk result (λ x. (p : Protocol) → GoesOn p (Count x.0) 3 x.1.now Version 2 text.now) }
    ensures err { IfErr result (λ f. (p : Protocol) → IsFaultOf p Version 2 text.now f) }
{
    let Some(cut) = next_line(text) else {
        return Err(CertFault::Fault { line: 2, kind: 1 });
    };
    let Some(two) = version_of(cut.bytes) else {
        return Err(CertFault::Fault { line: 2, kind: 1 });
    };
    Ok((two, cut.rest))
}

// The digits of the number of cubes.
fn digits_of(line: &[u8]) -> Option<&[u8]>
    ensures found { IfSome result (λ digits. IsTrue (is_number digits.now) × (line.now ≡ count_text digits.now)) }
    ensures none { IfNone result ((digits : List ℕ) → IsTrue (is_number digits) → line.now ≡ count_text digits → ⊥) }
{
    let (front, digits) = line.split_at(line.len().min(6));
    if !is_word(front, b"cubes ") {
        return None;
    }
    if !is_number(digits) {
        return None;
    }
    Some(digits)
}

// How many cube lines are wanted; none where no text has so many.
fn read_count(text: &[u8]) -> Result<(Option<u128>, &[u8]), CertFault>
    ensures room { IfOk result (λ x. length x.1.now < length text.now) }
    ensures ok { IfOk result (λ x. (p : Protocol) (two : Bool) → GoesOn p (behind_cubes two x.0 []) 4 x.1.now (Count two) 3 text.now) }
    ensures err { IfErr result (λ f. (p : Protocol) (two : Bool) → IsFaultOf p (Count two) 3 text.now f) }
{
    let Some(cut) = next_line(text) else {
        return Err(CertFault::Fault { line: 3, kind: 2 });
    };
    let Some(digits) = digits_of(cut.bytes) else {
        return Err(CertFault::Fault { line: 3, kind: 2 });
    };
    Ok((number(digits), cut.rest))
}

fn is_reached(count: usize, wanted: Option<u128>) -> bool
    ensures { result ≡ is_reached count wanted }
{
    match wanted {
        None => false,
        Some(wanted) => count as u128 == wanted,
    }
}

fn cube_fault(line: u32, fault: CubeFault) -> CertFault
    ensures { result ≡ cube_fault line fault }
{
    match fault {
        CubeFault::Form => CertFault::Fault { line, kind: 3 },
        CubeFault::Unknown => CertFault::Fault { line, kind: 4 },
        CubeFault::Order => CertFault::Fault { line, kind: 5 },
        CubeFault::Memory => CertFault::Memory,
    }
}

// The fault of a line with that fault as a cube, where it is told whether the line begins as one.
fn line_fault(line: u32, begins: bool, fault: CubeFault) -> CertFault
    ensures { result ≡ line_fault line begins fault }
{
    if begins {
        cube_fault(line, fault)
    } else {
        CertFault::Fault { line, kind: 6 }
    }
}

fn read_cube_line<'a>(
    protocol: &Protocol,
    line: u32,
    text: &'a [u8],
) -> Result<(Cube, &'a [u8]), CertFault>
    ensures lawful { IfOk result (λ x. IsLawful protocol.now widest x.0) }
    ensures room { IfOk result (λ x. length x.1.now < length text.now) }
    ensures ok { IfOk result (λ x. (two : Bool) (wanted : Option ℕ) (read : List Cube)
        → GoesOn protocol.now (behind_cubes two wanted (read ++ x.0 ∷ [])) (line + 1) x.1.now (Cubes two wanted read) line text.now) }
    ensures err { IfErr result (λ f. (two : Bool) (wanted : Option ℕ) (read : List Cube) → IsFaultOf protocol.now (Cubes two wanted read) line text.now f) }
{
    let begins = begins_cube(text);
    let Some(cut) = next_line(text) else {
        return Err(line_fault(line, begins, CubeFault::Form));
    };
    match read_cube(protocol, cut.bytes, WIDEST) {
        Ok(cube) => Ok((cube, cut.rest)),
        Err(fault) => Err(line_fault(line, begins, fault)),
    }
}

// The cubes, as many as are wanted, the first on line 4.
fn read_cubes<'a>(
    alloc: Global,
    protocol: &Protocol,
    wanted: Option<u128>,
    text: &'a [u8],
) -> Result<(Cubes, u32, &'a [u8]), CertFault>
    requires { 4 + length text.now < 2 ^ 32 }
    ensures few { IfOk result (λ x. length x.0 < 2 ^ 32) }
    ensures lawful { IfOk result (λ x. All (IsLawful protocol.now widest) x.0) }
    ensures room { IfOk result (λ x. x.1 + length x.2.now ≤ 4 + length text.now) }
    ensures ok { IfOk result (λ x. (two : Bool) → GoesOn protocol.now (at_tail two x.0) x.1 x.2.now (behind_cubes two wanted []) 4 text.now) }
    ensures err { IfErr result (λ f. (two : Bool) → IsFaultOf protocol.now (behind_cubes two wanted []) 4 text.now f) }
{
    let mut cubes = Items::new(alloc);
    let mut at: u32 = 4;
    let mut rest = text;
    while !is_reached(cubes.len(), wanted) {
        let (cube, behind) = read_cube_line(protocol, at, rest)?;
        cubes.push(cube)?;
        at += 1;
        rest = behind;
    }
    Ok((cubes, at, rest))
}

// The fault of a line that is not the line `end` of version 1.
fn ending_fault(
    protocol: &Protocol,
    line: u32,
    begins: bool,
    text: &[u8],
    cut: Cut<'_>,
) -> CertFault
    requires begins { begins ≡ begins_cube text.now }
    requires cut { line_at text.now ≡ Some (cut.bytes.now, cut.rest.now) }
    requires other { bytes_eq cut.bytes.now (codes "end") ≡ false }
    ensures { (cubes : List Cube) → IsFaultOf protocol.now (Ending cubes) line text.now result }
{
    match read_cube(protocol, cut.bytes, WIDEST) {
        Ok(_) => line_fault(line, false, CubeFault::Form),
        Err(fault) => line_fault(line, begins, fault),
    }
}

fn read_ending<'a>(protocol: &Protocol, line: u32, text: &'a [u8]) -> Result<&'a [u8], CertFault>
    ensures room { IfOk result (λ rest. length rest.now < length text.now) }
    ensures ok { IfOk result (λ rest. (cubes : List Cube) → GoesOn protocol.now (Done (certificate_of cubes None)) (line + 1) rest.now (Ending cubes) line text.now) }
    ensures err { IfErr result (λ f. (cubes : List Cube) → IsFaultOf protocol.now (Ending cubes) line text.now f) }
{
    let begins = begins_cube(text);
    let Some(cut) = next_line(text) else {
        return Err(line_fault(line, begins, CubeFault::Form));
    };
    if !is_word(cut.bytes, b"end") {
        return Err(ending_fault(protocol, line, begins, text, cut));
    }
    Ok(cut.rest)
}

fn read_cover<'a>(
    alloc: Global,
    protocol: &Protocol,
    cubes: &[Cube],
    lines: &CoverLines,
    line: u32,
    text: &'a [u8],
) -> Result<(CoverLine, &'a [u8]), CertFault>
    requires few { length cubes.now < 2 ^ 32 }
    requires narrow { All (λ c. c.width ≤ 8) cubes.now }
    requires begins { begins_cover text.now ≡ true }
    ensures lawful { IfOk result (λ x. IsTrue (is_lawful_line protocol.now cubes.now x.0)) }
    ensures rises { IfOk result (λ x. IsTrue (comes_after (last_of lines.now) x.0)) }
    ensures room { IfOk result (λ x. length x.1.now < length text.now) }
    ensures ok { IfOk result (λ x. GoesOn protocol.now (Covers cubes.now (lines.now ++ x.0 ∷ [])) (line + 1) x.1.now (Covers cubes.now lines.now) line text.now) }
    ensures err { IfErr result (IsFaultOf protocol.now (Covers cubes.now lines.now) line text.now) }
{
    let Some(cut) = next_line(text) else {
        return Err(CertFault::Fault { line, kind: 7 });
    };
    let Some(cover) = cover_of(alloc, protocol, cubes, lines, cut.bytes)? else {
        let kind = cover_fault(alloc, lines, cut.bytes)?;
        return Err(CertFault::Fault { line, kind });
    };
    Ok((cover, cut.rest))
}

// The cover lines up to the line that begins as none.
fn read_covers<'a>(
    alloc: Global,
    protocol: &Protocol,
    cubes: &[Cube],
    line: u32,
    text: &'a [u8],
) -> Result<(CoverLines, u32, &'a [u8]), CertFault>
    requires few { length cubes.now < 2 ^ 32 }
    requires narrow { All (λ c. c.width ≤ 8) cubes.now }
    requires room { line + length text.now < 2 ^ 32 }
    ensures lawful { IfOk result (λ x. IsTrue (are_lawful_lines protocol.now cubes.now x.0)) }
    ensures end { IfOk result (λ x. begins_cover x.2.now ≡ false) }
    ensures room { IfOk result (λ x. x.1 + length x.2.now ≤ line + length text.now) }
    ensures ok { IfOk result (λ x. GoesOn protocol.now (Covers cubes.now x.0) x.1 x.2.now (Covers cubes.now []) line text.now) }
    ensures err { IfErr result (IsFaultOf protocol.now (Covers cubes.now []) line text.now) }
{
    let mut lines = Items::new(alloc);
    let mut at = line;
    let mut rest = text;
    while begins_cover(rest) {
        let (cover, behind) = read_cover(alloc, protocol, cubes, &lines, at, rest)?;
        lines.push(cover)?;
        at += 1;
        rest = behind;
    }
    Ok((lines, at, rest))
}

// The line `end` of version 2.
fn read_end(line: u32, text: &[u8]) -> Result<&[u8], CertFault>
    requires { begins_cover text.now ≡ false }
    ensures room { IfOk result (λ rest. length rest.now < length text.now) }
    ensures ok { IfOk result (λ rest. (p : Protocol) (cubes : List Cube) (lines : List CoverLine)
        → GoesOn p (Done (certificate_of cubes (Some lines))) (line + 1) rest.now (Covers cubes lines) line text.now) }
    ensures err { IfErr result (λ f. (p : Protocol) (cubes : List Cube) (lines : List CoverLine) → IsFaultOf p (Covers cubes lines) line text.now f) }
{
    let Some(cut) = next_line(text) else {
        return Err(CertFault::Fault { line, kind: 6 });
    };
    if !is_word(cut.bytes, b"end") {
        return Err(CertFault::Fault { line, kind: 6 });
    }
    Ok(cut.rest)
}

// What stands behind the cubes, up to the line `end`.
fn read_tail<'a>(
    alloc: Global,
    protocol: &Protocol,
    two: bool,
    cubes: &[Cube],
    line: u32,
    text: &'a [u8],
) -> Result<(Option<CoverLines>, u32, &'a [u8]), CertFault>
    requires few { length cubes.now < 2 ^ 32 }
    requires narrow { All (λ c. c.width ≤ 8) cubes.now }
    requires room { line + length text.now < 2 ^ 32 }
    ensures lawful { IfOk result (λ x. IsTrue (are_lawful_covers protocol.now cubes.now x.0)) }
    ensures room { IfOk result (λ x. x.1 + length x.2.now ≤ line + length text.now) }
    ensures ok { IfOk result (λ x. GoesOn protocol.now (Done (certificate_of cubes.now x.0)) x.1 x.2.now (at_tail two cubes.now) line text.now) }
    ensures err { IfErr result (IsFaultOf protocol.now (at_tail two cubes.now) line text.now) }
{
    if !two {
        let rest = read_ending(protocol, line, text)?;
        return Ok((None, line + 1, rest));
    }
    let (lines, at, rest) = read_covers(alloc, protocol, cubes, line, text)?;
    let rest = read_end(at, rest)?;
    Ok((Some(lines), at + 1, rest))
}

fn read_nothing(line: u32, text: &[u8]) -> Result<(), CertFault>
    ensures ok { OnOk result ((p : Protocol) (c : Certificate) → CertificateReads p (Done c) line text.now (Ok c)) }
    ensures err { IfErr result (λ f. (p : Protocol) (c : Certificate) → IsFaultOf p (Done c) line text.now f) }
{
    if text.is_empty() {
        Ok(())
    } else {
        Err(CertFault::Fault { line, kind: 6 })
    }
}

/// The certificate that the text is the text of, or its first fault.
/// The certificate stands in the memory that the protocol stands in.
pub fn read(protocol: &Protocol, text: &[u8]) -> Result<Certificate, CertFault>
    requires { length text.now + 1 < 2 ^ 32 }
    // The answer is the one reading of the text.
    ensures certificate { IfOk result (λ c. CertificateReads protocol.now Heading 1 text.now (Ok c)) }
    ensures fault { IfErr result (IsFaultOf protocol.now Heading 1 text.now) }
    // The certificate may be written, and the text is its text.
    ensures lawful { IfOk result (λ c. IsLawfulCertificate protocol.now c.cubes c.lines) }
    ensures text { IfOk result (λ c. text.now ≡ certificate_text protocol.now c.cubes c.lines) }
{
    let alloc = protocol.sorts.allocator();
    let rest = read_heading(text)?;
    let (two, rest) = read_version(rest)?;
    let (wanted, rest) = read_count(rest)?;
    let (cubes, line, rest) = read_cubes(alloc, protocol, wanted, rest)?;
    let (lines, line, rest) = read_tail(alloc, protocol, two, cubes.as_slice(), line, rest)?;
    read_nothing(line, rest)?;
    Ok(Certificate { cubes, lines })
}
