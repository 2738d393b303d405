//! Lines of what is answered to the text of a certificate.

ghost use Rattle.std.specs.Prelude.{◌≡◌, ◌+◌, ◌++◌, codes, IfOk, OnOk};
ghost use Rattle.std.specs.Fmt.{decimal};
ghost use Rattle.answer_lines.specs.Lines.{form_line};
ghost use Rattle.verify_answers.specs.Lines.{cert_code, refused_words, refused_line, accepted_line};

use answer_lines::Answer;
use cert_check::Refused;
use cub_base::{Items, Memory, Text};
use cub_cube::Cube;
use itoa::Buffer;
use std::alloc::Global;

// Appends the number.
fn put_number(text: &mut Text, number: u64) -> Result<(), Memory>
    ensures { OnOk result (text.new ≡ text.old ++ decimal number) }
{
    text.extend(Buffer::new().format(number).as_bytes())?;
    Ok(())
}

// Appends the number that comes after it.
fn put_next(text: &mut Text, number: u64) -> Result<(), Memory>
    ensures { OnOk result (text.new ≡ text.old ++ decimal (number + 1)) }
{
    text.extend(Buffer::new().format(u128::from(number) + 1).as_bytes())?;
    Ok(())
}

fn put_refused(text: &mut Text, refused: Refused) -> Result<(), Memory>
    ensures { OnOk result (text.new ≡ text.old ++ refused_words refused) }
{
    match refused {
        Refused::Start { cube } => {
            text.extend(b"start ")?;
            put_next(text, u64::from(cube))
        }
        Refused::Unsafe { goal } => {
            text.extend(b"unsafe ")?;
            put_next(text, u64::from(goal))
        }
        Refused::Piece { cube, piece } => {
            text.extend(b"piece ")?;
            put_next(text, piece)?;
            text.extend(b" of cube ")?;
            put_next(text, u64::from(cube))
        }
        Refused::Extra { line } => {
            text.extend(b"extra ")?;
            put_next(text, line)
        }
        Refused::Memory => Ok(()),
    }
}

/// Status 9, where the test fails.
pub fn at_refused(alloc: Global, refused: Refused) -> Result<Answer, Memory>
    ensures { IfOk result (λ answer. (answer.status ≡ 9) × (answer.text ≡ refused_line refused)) }
{
    let mut text = Items::from_slice(alloc, b"REFUSED ")?;
    put_refused(&mut text, refused)?;
    text.extend(b"\n")?;
    Ok(Answer { status: 9, text })
}

/// Status 0, where these cubes pass.
pub fn at_accepted(alloc: Global, cubes: &[Cube]) -> Result<Answer, Memory>
    ensures { IfOk result (λ answer. (answer.status ≡ 0) × (answer.text ≡ accepted_line cubes.now)) }
{
    let mut text = Items::from_slice(alloc, b"ACCEPTED cubes ")?;
    put_number(&mut text, cubes.len() as u64)?;
    text.extend(b"\n")?;
    Ok(Answer { status: 0, text })
}

/// Status 9, at a faulty line. The kind is 1 to 8, or 0 for a text above its limit.
pub fn at_cert_fault(alloc: Global, kind: u8, line: u32) -> Result<Answer, Memory>
    ensures { IfOk result (λ answer. (answer.status ≡ 9) × (answer.text ≡ form_line (cert_code kind) line)) }
{
    let mut text = Items::from_slice(alloc, b"REFUSED C")?;
    put_number(&mut text, u64::from(kind))?;
    text.extend(b" at line ")?;
    put_number(&mut text, u64::from(line))?;
    text.extend(b"\n")?;
    Ok(Answer { status: 9, text })
}

/// Status 9, at a certificate above its limit.
pub fn at_long_certificate(alloc: Global) -> Result<Answer, Memory>
    ensures { IfOk result (λ answer. (answer.status ≡ 9) × (answer.text ≡ form_line (cert_code 0) 1)) }
{
    at_cert_fault(alloc, 0, 1)
}
