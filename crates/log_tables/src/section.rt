//! Sections: the text of a protocol, and rows that are asked of it one after the other, over the plain list of cubes and
//! over the one with summaries.

ghost use Rattle.std.specs.Prelude.{◌≡◌, ◌≤◌, length, IfSome};
ghost use Rattle.theory.specs.Made.{IsFor};
ghost use Rattle.log_tables.specs.Kept.{IsKept};

use crate::asking::{Asking, ask_by};
use crate::certificates::certificate;
use crate::changing::{Changing, change_by};
use crate::command::{Command, named};
use crate::failed::Failed;
use crate::journals::journal;
use crate::judging::{Judging, Verdicts, judge_by};
use crate::making::{SearchLog, make_by};
use crate::words::first_word;
use cover_index::Index;
use cub_proto::Protocol;
use protocol_text::{PROTOCOL_LIMIT, TextFault, read_protocol};
use std::alloc::Global;
use subsume::{Finder, Scan};
use text_lines::{cut_line, is_word, push};
use theory::Scratch;

// Asks the log, where there is one.
fn ask_log(
    alloc: Global,
    ask: Asking,
    protocol: &Protocol,
    log: &Option<SearchLog>,
    text: &[u8],
    out: &mut Vec<u8>,
) -> Result<(), Failed>
    requires { IfSome log.now (λ l. protocol.now ≡ l.protocol) }
{
    match log {
        Some(log) => ask_by(alloc, ask, protocol, log, text, out),
        None => Err(Failed::Unfit),
    }
}

// Changes the log, where there is one.
fn change_log<F: Finder<Scratch>>(
    alloc: Global,
    change: Changing,
    protocol: &Protocol,
    scratch: &mut Scratch,
    finder: &mut F,
    log: &mut Option<SearchLog>,
    verdicts: &Verdicts,
    text: &[u8],
    out: &mut Vec<u8>,
) -> Result<(), Failed>
    requires made { IsFor protocol.now scratch.old }
    requires kept { IsKept protocol.now (F.list finder.old) (F.serves finder.old protocol.now) verdicts.now.items log.old }
    ensures made { IsFor protocol.now scratch.new }
    ensures kept { IsKept protocol.now (F.list finder.new) (F.serves finder.new protocol.now) verdicts.now.items log.new }
{
    let _verdicts = verdicts;
    match log {
        Some(log) => change_by(alloc, change, protocol, scratch, finder, log, text, out),
        None => Err(Failed::Unfit),
    }
}

// Judges a node of the log or applies a judgement, where there is a log.
fn judge_log<F: Finder<Scratch>>(
    alloc: Global,
    judging: Judging,
    protocol: &Protocol,
    scratch: &mut Scratch,
    finder: &mut F,
    log: &mut Option<SearchLog>,
    verdicts: &mut Verdicts,
    text: &[u8],
    out: &mut Vec<u8>,
) -> Result<(), Failed>
    requires made { IsFor protocol.now scratch.old }
    requires kept { IsKept protocol.now (F.list finder.old) (F.serves finder.old protocol.now) verdicts.old.items log.old }
    ensures made { IsFor protocol.now scratch.new }
    ensures kept { IsKept protocol.now (F.list finder.new) (F.serves finder.new protocol.now) verdicts.new.items log.new }
{
    match log {
        Some(log) => judge_by(
            alloc, judging, protocol, scratch, finder, log, verdicts, text, out,
        ),
        None => Err(Failed::Unfit),
    }
}

// Makes the call of a row, and appends its answer.
fn call<F: Finder<Scratch>>(
    alloc: Global,
    protocol: &Protocol,
    scratch: &mut Scratch,
    finder: &mut F,
    log: &mut Option<SearchLog>,
    verdicts: &mut Verdicts,
    row: &[u8],
    out: &mut Vec<u8>,
) -> Result<(), Failed>
    requires made { IsFor protocol.now scratch.old }
    requires kept { IsKept protocol.now (F.list finder.old) (F.serves finder.old protocol.now) verdicts.old.items log.old }
    ensures made { IsFor protocol.now scratch.new }
    ensures kept { IsKept protocol.now (F.list finder.new) (F.serves finder.new protocol.now) verdicts.new.items log.new }
{
    let (word, text) = first_word(row);
    match named(word) {
        Some(Command::Make(make)) => make_by(
            alloc, make, protocol, scratch, finder, log, verdicts, text, out,
        ),
        Some(Command::Ask(ask)) => ask_log(alloc, ask, protocol, log, text, out),
        Some(Command::Change(change)) => change_log(
            alloc, change, protocol, scratch, finder, log, verdicts, text, out,
        ),
        Some(Command::Judge(judging)) => judge_log(
            alloc, judging, protocol, scratch, finder, log, verdicts, text, out,
        ),
        Some(Command::Journal) => journal(alloc, protocol, scratch, text, out),
        Some(Command::Certificate) => certificate(alloc, protocol, text, out),
        None => Err(Failed::Row),
    }
}

// Appends why a row has no answer, or ends the program.
fn push_failure(out: &mut Vec<u8>, failed: Failed) -> Result<(), Failed> {
    match failed {
        Failed::Row => push(out, b"no row")?,
        Failed::Unfit => push(out, b"unfit")?,
        other => return Err(other),
    }
    Ok(())
}

// Appends the row and its answer.
fn answer<F: Finder<Scratch>>(
    alloc: Global,
    protocol: &Protocol,
    scratch: &mut Scratch,
    finder: &mut F,
    log: &mut Option<SearchLog>,
    verdicts: &mut Verdicts,
    row: &[u8],
    out: &mut Vec<u8>,
) -> Result<(), Failed>
    requires made { IsFor protocol.now scratch.old }
    requires kept { IsKept protocol.now (F.list finder.old) (F.serves finder.old protocol.now) verdicts.old.items log.old }
    ensures made { IsFor protocol.now scratch.new }
    ensures kept { IsKept protocol.now (F.list finder.new) (F.serves finder.new protocol.now) verdicts.new.items log.new }
{
    push(out, row)?;
    push(out, b" => ")?;
    match call(alloc, protocol, scratch, finder, log, verdicts, row, out) {
        Ok(()) => {}
        Err(failed) => push_failure(out, failed)?,
    }
    push(out, b"\n")?;
    Ok(())
}

// Whether the line is a remark.
fn is_remark(line: &[u8]) -> bool {
    match line {
        [] => true,
        [first, ..] => *first == b'%',
    }
}

// Whether the line is the heading of a section.
fn is_heading(line: &[u8]) -> bool {
    match line {
        [b'=', b'=', b' ', ..] => true,
        _ => false,
    }
}

// How many lines stand before the next heading.
fn section_len(lines: &[&[u8]]) -> usize
    ensures { result ≤ length lines.now }
{
    for (at, line) in lines.iter().enumerate() {
        if is_heading(line) {
            return at;
        }
    }
    lines.len()
}

// How many lines stand before the one that ends the text of the protocol.
fn text_len(lines: &[&[u8]]) -> usize
    ensures { result ≤ length lines.now }
{
    for (at, line) in lines.iter().enumerate() {
        if is_word(line, b"--") {
            return at;
        }
    }
    lines.len()
}

// The text of the lines.
fn joined(alloc: Global, lines: &[&[u8]]) -> Result<Vec<u8>, Failed> {
    let mut text = Vec::new(alloc);
    for line in lines {
        push(&mut text, line)?;
        push(&mut text, b"\n")?;
    }
    Ok(text)
}

// The protocol that the lines read as.
fn protocol(alloc: Global, lines: &[&[u8]]) -> Result<Protocol, Failed> {
    let text = joined(alloc, lines)?;
    if text.len() as u64 > PROTOCOL_LIMIT {
        return Err(Failed::Row);
    }
    match read_protocol(alloc, text.as_slice()) {
        Ok(protocol) => Ok(protocol),
        Err(TextFault::Memory) => Err(Failed::Memory),
        Err(_) => Err(Failed::Row),
    }
}

// Answers the row, or copies it where it is a remark.
fn answer_line<F: Finder<Scratch>>(
    alloc: Global,
    protocol: &Protocol,
    scratch: &mut Scratch,
    finder: &mut F,
    log: &mut Option<SearchLog>,
    verdicts: &mut Verdicts,
    row: &[u8],
    out: &mut Vec<u8>,
) -> Result<(), Failed>
    requires made { IsFor protocol.now scratch.old }
    requires kept { IsKept protocol.now (F.list finder.old) (F.serves finder.old protocol.now) verdicts.old.items log.old }
    ensures made { IsFor protocol.now scratch.new }
    ensures kept { IsKept protocol.now (F.list finder.new) (F.serves finder.new protocol.now) verdicts.new.items log.new }
{
    if !is_remark(row) {
        return answer(alloc, protocol, scratch, finder, log, verdicts, row, out);
    }
    push(out, row)?;
    push(out, b"\n")?;
    Ok(())
}

// Answers the rows, and copies the remarks.
fn answer_all<F: Finder<Scratch>>(
    alloc: Global,
    protocol: &Protocol,
    finder: &mut F,
    rows: &[&[u8]],
    out: &mut Vec<u8>,
) -> Result<(), Failed> {
    let mut scratch = Scratch::new(alloc, protocol)?;
    let mut log = None;
    let mut verdicts = Vec::new(alloc);
    for row in rows {
        answer_line(
            alloc,
            protocol,
            &mut scratch,
            finder,
            &mut log,
            &mut verdicts,
            row,
            out,
        )?;
    }
    Ok(())
}

// Answers the rows over both lists of cubes. Where the answers differ, both are printed.
fn answer_twice(
    alloc: Global,
    protocol: &Protocol,
    rows: &[&[u8]],
    out: &mut Vec<u8>,
) -> Result<(), Failed> {
    let mut plain = Vec::new(alloc);
    answer_all(alloc, protocol, &mut Scan::new(alloc), rows, &mut plain)?;
    let mut indexed = Vec::new(alloc);
    answer_all(alloc, protocol, &mut Index::new(alloc), rows, &mut indexed)?;
    push(out, plain.as_slice())?;
    if !is_word(plain.as_slice(), indexed.as_slice()) {
        push(out, b"== otherwise over the index\n")?;
        push(out, indexed.as_slice())?;
    }
    Ok(())
}

// Answers the rows of the section whose lines behind the heading are given.
fn run_section(alloc: Global, lines: &[&[u8]], out: &mut Vec<u8>) -> Result<(), Failed> {
    let (front, back) = lines.split_at(text_len(lines));
    let protocol = protocol(alloc, front)?;
    match back {
        [] => Ok(()),
        [_, rows @ ..] => answer_twice(alloc, &protocol, rows, out),
    }
}

// Answers the rows of the sections; a heading begins each.
fn run_lines(alloc: Global, lines: &[&[u8]], out: &mut Vec<u8>) -> Result<(), Failed> {
    for (at, line) in lines.iter().enumerate() {
        if is_heading(line) {
            push(out, line)?;
            push(out, b"\n")?;
            let (_, behind) = lines.split_at(at + 1);
            let (own, _) = behind.split_at(section_len(behind));
            run_section(alloc, own, out)?;
        }
    }
    Ok(())
}

// The lines of the text. What stands behind the last line feed is none.
fn lines(alloc: Global, text: &[u8]) -> Result<Vec<&[u8]>, Failed> {
    let mut list = Vec::new(alloc);
    let mut rest = text;
    for _turn in 0..text.len() {
        match cut_line(rest) {
            Some((line, behind)) => {
                list.push(line)?;
                rest = behind;
            }
            None => return Ok(list),
        }
    }
    Ok(list)
}

/// Answers the rows of a file.
pub fn run(alloc: Global, text: &[u8], out: &mut Vec<u8>) -> Result<(), Failed> {
    let lines = lines(alloc, text)?;
    run_lines(alloc, lines.as_slice(), out)
}
