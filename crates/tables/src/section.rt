//! Sections: the text of a protocol, and rows that are asked of it one after the other.

ghost use Rattle.std.specs.Prelude.{◌≤◌, length};
ghost use Rattle.theory.specs.Made.{IsFor};
ghost use Rattle.subsume.specs.Scanned.{IsServing};

use crate::command::{Command, named};
use crate::covering::cover_by;
use crate::deciding::decide;
use crate::failed::Failed;
use crate::forming::form_by;
use crate::listing::list_by;
use crate::spelling::read;
use crate::stepping::list_pieces;
use crate::typing;
use crate::words::first_word;
use cub_proto::Protocol;
use protocol_text::{PROTOCOL_LIMIT, TextFault, read_protocol};
use std::alloc::Global;
use subsume::Scan;
use text_lines::{cut_line, is_word, push};
use theory::Scratch;

// Makes the call of a row, and appends its answer.
fn call(
    alloc: Global,
    protocol: &Protocol,
    scratch: &mut Scratch,
    scan: &mut Scan,
    row: &[u8],
    out: &mut Vec<u8>,
) -> Result<(), Failed>
    requires made { IsFor protocol.now scratch.old }
    requires scan { IsServing protocol.now scan.old }
    ensures made { IsFor protocol.now scratch.new }
    ensures scan { IsServing protocol.now scan.new }
{
    let (word, text) = first_word(row);
    match named(word) {
        Some(Command::Decide(ask)) => decide(alloc, ask, protocol, scratch, text, out),
        Some(Command::Form(ask)) => form_by(alloc, ask, protocol, scratch, text, out),
        Some(Command::Read) => read(protocol, text, out),
        Some(Command::Cover(ask)) => cover_by(ask, protocol, scratch, text, out),
        Some(Command::List(ask)) => { list_by(alloc, ask, protocol, scratch, scan, text, out) }
        Some(Command::Pieces) => list_pieces(protocol, scratch, text, out),
        Some(Command::Text) => typing::text(alloc, text, out),
        None => Err(Failed::Row),
    }
}

// Appends why a row has no answer, or ends the program.
fn push_failure(out: &mut Vec<u8>, failed: Failed) -> Result<(), Failed> {
    match failed {
        Failed::Row => push(out, b"no row")?,
        Failed::Unfit => push(out, b"unfit")?,
        other => return Err(other),
    }
    Ok(())
}

// Appends the row and its answer.
fn answer(
    alloc: Global,
    protocol: &Protocol,
    scratch: &mut Scratch,
    scan: &mut Scan,
    row: &[u8],
    out: &mut Vec<u8>,
) -> Result<(), Failed>
    requires made { IsFor protocol.now scratch.old }
    requires scan { IsServing protocol.now scan.old }
    ensures made { IsFor protocol.now scratch.new }
    ensures scan { IsServing protocol.now scan.new }
{
    push(out, row)?;
    push(out, b" => ")?;
    match call(alloc, protocol, scratch, scan, row, out) {
        Ok(()) => {}
        Err(failed) => push_failure(out, failed)?,
    }
    push(out, b"\n")?;
    Ok(())
}

// Whether the line is a remark.
fn is_remark(line: &[u8]) -> bool {
    match line {
        [] => true,
        [first, ..] => *first == b'%',
    }
}

// Whether the line is the heading of a section.
fn is_heading(line: &[u8]) -> bool {
    match line {
        [b'=', b'=', b' ', ..] => true,
        _ => false,
    }
}

// How many lines stand before the next heading.
fn section_len(lines: &[&[u8]]) -> usize
    ensures { result ≤ length lines.now }
{
    for (at, line) in lines.iter().enumerate() {
        if is_heading(line) {
            return at;
        }
    }
    lines.len()
}

// How many lines stand before the one that ends the text of the protocol.
fn text_len(lines: &[&[u8]]) -> usize
    ensures { result ≤ length lines.now }
{
    for (at, line) in lines.iter().enumerate() {
        if is_word(line, b"--") {
            return at;
        }
    }
    lines.len()
}

// The text of the lines.
fn joined(alloc: Global, lines: &[&[u8]]) -> Result<Vec<u8>, Failed> {
    let mut text = Vec::new(alloc);
    for line in lines {
        push(&mut text, line)?;
        push(&mut text, b"\n")?;
    }
    Ok(text)
}

// The protocol that the lines read as.
fn protocol(alloc: Global, lines: &[&[u8]]) -> Result<Protocol, Failed> {
    let text = joined(alloc, lines)?;
    if text.len() as u64 > PROTOCOL_LIMIT {
        return Err(Failed::Row);
    }
    match read_protocol(alloc, text.as_slice()) {
        Ok(protocol) => Ok(protocol),
        Err(TextFault::Memory) => Err(Failed::Memory),
        Err(_) => Err(Failed::Row),
    }
}

// Answers the row, or copies it where it is a remark.
fn answer_line(
    alloc: Global,
    protocol: &Protocol,
    scratch: &mut Scratch,
    scan: &mut Scan,
    row: &[u8],
    out: &mut Vec<u8>,
) -> Result<(), Failed>
    requires made { IsFor protocol.now scratch.old }
    requires scan { IsServing protocol.now scan.old }
    ensures made { IsFor protocol.now scratch.new }
    ensures scan { IsServing protocol.now scan.new }
{
    if !is_remark(row) {
        return answer(alloc, protocol, scratch, scan, row, out);
    }
    push(out, row)?;
    push(out, b"\n")?;
    Ok(())
}

// Answers the rows, and copies the remarks.
fn answer_all(
    alloc: Global,
    protocol: &Protocol,
    rows: &[&[u8]],
    out: &mut Vec<u8>,
) -> Result<(), Failed> {
    let mut scratch = Scratch::new(alloc, protocol)?;
    let mut scan = Scan::new(alloc);
    for row in rows {
        answer_line(alloc, protocol, &mut scratch, &mut scan, row, out)?;
    }
    Ok(())
}

// Answers the rows of the section whose lines behind the heading are given.
fn run_section(alloc: Global, lines: &[&[u8]], out: &mut Vec<u8>) -> Result<(), Failed> {
    let (front, back) = lines.split_at(text_len(lines));
    let protocol = protocol(alloc, front)?;
    match back {
        [] => Ok(()),
        [_, rows @ ..] => answer_all(alloc, &protocol, rows, out),
    }
}

// Answers the rows of the sections; a heading begins each.
fn run_lines(alloc: Global, lines: &[&[u8]], out: &mut Vec<u8>) -> Result<(), Failed> {
    for (at, line) in lines.iter().enumerate() {
        if is_heading(line) {
            push(out, line)?;
            push(out, b"\n")?;
            let (_, behind) = lines.split_at(at + 1);
            let (own, _) = behind.split_at(section_len(behind));
            run_section(alloc, own, out)?;
        }
    }
    Ok(())
}

// The lines of the text. What stands behind the last line feed is none.
fn lines(alloc: Global, text: &[u8]) -> Result<Vec<&[u8]>, Failed> {
    let mut list = Vec::new(alloc);
    let mut rest = text;
    for _turn in 0..text.len() {
        match cut_line(rest) {
            Some((line, behind)) => {
                list.push(line)?;
                rest = behind;
            }
            None => return Ok(list),
        }
    }
    Ok(list)
}

/// Answers the rows of a file.
pub fn run(alloc: Global, text: &[u8], out: &mut Vec<u8>) -> Result<(), Failed> {
    let lines = lines(alloc, text)?;
    run_lines(alloc, lines.as_slice(), out)
}
