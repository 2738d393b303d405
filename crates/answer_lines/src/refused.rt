//! Lines of what is not read: words, a protocol, a trace.

ghost use Rattle.std.specs.Prelude.{◌≡◌, ◌++◌, codes, IfOk, OnOk};
ghost use Rattle.std.specs.Fmt.{decimal};
ghost use Rattle.answer_lines.specs.Codes.{words_code, text_code, trace_code};
ghost use Rattle.answer_lines.specs.Lines.{words_line, place_line, form_line};

use crate::answer::{Answer, begun, put, put_number};
use crate::kinds::{text_code, words_code};
use cub_base::{Memory, Text};
use cub_words::WordsFault;
use protocol_text::TextCode;
use std::alloc::Global;

/// Status 5, at the first fault of the words.
pub fn at_words_fault(alloc: Global, fault: WordsFault) -> Result<Answer, Memory>
    ensures { IfOk result (λ answer. (answer.status ≡ 5) × (answer.text ≡ words_line (words_code fault.kind) fault.word)) }
{
    let mut text = begun(alloc, b"WORDS ")?;
    put(&mut text, words_code(fault.kind))?;
    put(&mut text, b" at ")?;
    put_number(&mut text, fault.word as u64)?;
    put(&mut text, b"\n")?;
    Ok(Answer { status: 5, text })
}

fn place_line(alloc: Global, code: &[u8], line: u32, column: u32) -> Result<Text, Memory>
    ensures { IfOk result (λ text. text ≡ place_line code.now line column) }
{
    let mut text = begun(alloc, b"REFUSED ")?;
    put(&mut text, code)?;
    put(&mut text, b" at ")?;
    put_number(&mut text, u64::from(line))?;
    put(&mut text, b":")?;
    put_number(&mut text, u64::from(column))?;
    put(&mut text, b"\n")?;
    Ok(text)
}

/// Status 4, at the first fault of a protocol's text.
pub fn at_protocol_fault(
    alloc: Global,
    code: TextCode,
    line: u32,
    column: u32,
) -> Result<Answer, Memory>
    ensures { IfOk result (λ answer. (answer.status ≡ 4) × (answer.text ≡ place_line (text_code code) line column)) }
{
    let text = place_line(alloc, text_code(code), line, column)?;
    Ok(Answer { status: 4, text })
}

/// Status 4, at a protocol's text above its limit.
pub fn at_long_protocol(alloc: Global) -> Result<Answer, Memory>
    ensures { IfOk result (λ answer. (answer.status ≡ 4) × (answer.text ≡ place_line (codes "L0") 1 1)) }
{
    let text = place_line(alloc, b"L0", 1, 1)?;
    Ok(Answer { status: 4, text })
}

fn put_line(text: &mut Text, line: u32) -> Result<(), Memory>
    ensures { OnOk result (text.new ≡ text.old ++ codes " at line " ++ decimal line ++ codes "\n") }
{
    put(text, b" at line ")?;
    put_number(text, u64::from(line))?;
    put(text, b"\n")
}

/// Status 9, at a faulty line of a trace. The kind is 1 to 6, or 0 for a text above its limit.
pub fn at_trace_fault(alloc: Global, kind: u8, line: u32) -> Result<Answer, Memory>
    ensures { IfOk result (λ answer. (answer.status ≡ 9) × (answer.text ≡ form_line (trace_code kind) line)) }
{
    let mut text = begun(alloc, b"REFUSED S")?;
    put_number(&mut text, u64::from(kind))?;
    put_line(&mut text, line)?;
    Ok(Answer { status: 9, text })
}

/// Status 9, at a trace above its limit.
pub fn at_long_trace(alloc: Global) -> Result<Answer, Memory>
    ensures { IfOk result (λ answer. (answer.status ≡ 9) × (answer.text ≡ form_line (trace_code 0) 1)) }
{
    at_trace_fault(alloc, 0, 1)
}
