//! The reading of a text, a step for each blank, comment or token. A step looks at the bytes in front of it alone, takes
//! the longest token, and never goes back, so the whole reading is linear in the text.

ghost use Rattle.std.specs.Prelude.{◌≡◌, ◌+◌, ◌^◌, ◌<◌, ◌≤◌, true, false, length, slice_index, IfOk, IfErr, Ok};
ghost use Rattle.std.specs.Char.{is_ascii_digit};
ghost use Rattle.cub_base.specs.Name.{is_name_start};
ghost use Rattle.cub_lexer.specs.Comment.{opens, starts_blank};
ghost use Rattle.cub_lexer.specs.Reading.{Reads, IsBetweenGaps, IsFaultOf, OneReading};
ghost use Rattle.cub_lexer.specs.Spans.{AreSpans};
ghost use Rattle.cub_lexer.specs.declared.fault.LexFault.TheVariants.{Fault};
ghost use Rattle.cub_lexer.specs.NextStep.{IsNextStep, NoPair};

use crate::comments::{comment_len, is_blank, is_opening};
use crate::fault::{LexFault, LexKind};
use crate::numbers::{digit_bytes, number_value};
use crate::signs::{one_byte, two_bytes};
use crate::token::{Token, TokenKind};
use crate::words::{name_bytes, word_kind};
use cub_base::is_name_start;
use std::alloc::Global;

const NAME_LIMIT: usize = 64;

/// What stands at the front of the bytes, and how many bytes it takes.
#[derive(Clone, Copy, Debug)]
pub enum Step {
    Gap(usize),
    Token(TokenKind, usize),
    Fault(LexKind),
}

fn opens(bytes: &[u8]) -> bool
    ensures { result ≡ opens bytes.now }
{
    match bytes {
        [byte, next, ..] => is_opening(*byte, *next),
        _ => false,
    }
}

fn starts_blank(bytes: &[u8]) -> bool
    ensures { result ≡ starts_blank bytes.now }
{
    match bytes {
        [byte, ..] => is_blank(*byte),
        [] => false,
    }
}

fn word_step(bytes: &[u8]) -> Step
    requires some { 0 < length bytes.now }
    requires between { IsBetweenGaps bytes.now }
    requires begins { is_name_start (slice_index bytes.now 0) ≡ true }
    ensures { IsNextStep bytes.now result }
{
    let len = name_bytes(bytes);
    let (word, _) = bytes.split_at(len);
    let kind = word_kind(word);
    if kind == TokenKind::Name && len > NAME_LIMIT {
        return Step::Fault(LexKind::L4);
    }
    Step::Token(kind, len)
}

fn number_step(bytes: &[u8]) -> Step
    requires some { 0 < length bytes.now }
    requires between { IsBetweenGaps bytes.now }
    requires no_word { is_name_start (slice_index bytes.now 0) ≡ false }
    requires begins { is_ascii_digit (slice_index bytes.now 0) ≡ true }
    ensures { IsNextStep bytes.now result }
{
    let len = digit_bytes(bytes);
    let (digits, _) = bytes.split_at(len);
    match number_value(digits) {
        None => Step::Fault(LexKind::L3),
        Some(_) => Step::Token(TokenKind::Number, len),
    }
}

fn short_sign_step(bytes: &[u8]) -> Step
    requires some { 0 < length bytes.now }
    requires between { IsBetweenGaps bytes.now }
    requires no_word { is_name_start (slice_index bytes.now 0) ≡ false }
    requires no_number { is_ascii_digit (slice_index bytes.now 0) ≡ false }
    requires no_pair { NoPair bytes.now }
    ensures { IsNextStep bytes.now result }
{
    match one_byte(bytes[0]) {
        Some(kind) => Step::Token(kind, 1),
        None => Step::Fault(LexKind::L1),
    }
}

fn sign_step(bytes: &[u8]) -> Step
    requires some { 0 < length bytes.now }
    requires between { IsBetweenGaps bytes.now }
    requires no_word { is_name_start (slice_index bytes.now 0) ≡ false }
    requires no_number { is_ascii_digit (slice_index bytes.now 0) ≡ false }
    ensures { IsNextStep bytes.now result }
{
    if bytes.len() >= 2 {
        if let Some(kind) = two_bytes(bytes[0], bytes[1]) {
            return Step::Token(kind, 2);
        }
    }
    short_sign_step(bytes)
}

fn next_step(bytes: &[u8]) -> Step
    requires { 0 < length bytes.now }
    ensures { IsNextStep bytes.now result }
{
    if starts_blank(bytes) {
        return Step::Gap(1);
    }
    if opens(bytes) {
        return match comment_len(bytes) {
            Some(len) => Step::Gap(len),
            None => Step::Fault(LexKind::L2),
        };
    }
    let first = bytes[0];
    if is_name_start(first) {
        word_step(bytes)
    } else if first.is_ascii_digit() {
        number_step(bytes)
    } else {
        sign_step(bytes)
    }
}

fn fault_at(at: usize, kind: LexKind) -> LexFault
    requires { at < 2 ^ 32 }
    ensures { result ≡ Fault at kind }
{
    let at = at as u32;
    LexFault::Fault { at, kind }
}

/// The tokens of the text, or its first fault.
pub fn lex(alloc: Global, text: &[u8]) -> Result<Vec<Token>, LexFault>
    requires { length text.now < 2 ^ 32 }
    // The answer is the one reading of the text.
    ensures tokens { IfOk result (λ tokens. Reads 0 text.now (Ok tokens.items)) }
    ensures fault { IfErr result (λ fault. IsFaultOf text.now fault) }
    // The tokens stand in order in the text, each spelled as its kind is.
    ensures spans { IfOk result (λ tokens. AreSpans text.now 0 tokens.items) }
{
    let mut tokens = Vec::new(alloc);
    let mut at: usize = 0;
    while at < text.len() {
        let (_, rest) = text.split_at(at);
        match next_step(rest) {
            Step::Gap(len) => at += len,
            Step::Token(kind, len) => {
                tokens.push(Token {
                    kind,
                    at: at as u32,
                    len: len as u32,
                })?;
                at += len;
            }
            Step::Fault(kind) => return Err(fault_at(at, kind)),
        }
    }
    Ok(tokens)
}

/// A text has one reading, so the tokens are these and no others, and the fault is this one.
pub fn one_reading()
    ensures { OneReading }
{}
