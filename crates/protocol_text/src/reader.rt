//! Reading goes by stages: tokens, tree, protocol. Each stage looks at the whole of the one before it, so the fault that is
//! answered is that of the first stage that has one.

ghost use Rattle.std.specs.Prelude.{◌≡◌, ◌<◌, ◌≤◌, length, IfOk, IfErr};
ghost use Rattle.cub_lexer.specs.Place.{line_at, column_at};
ghost use Rattle.protocol_text.specs.Meaning.{start_of, IsLexed, IsParsed, IsProtocolOf, IsFaultOf};
ghost use Rattle.protocol_text.specs.declared.fault.TextFault.TheVariants.{Fault};

use crate::fault::{TextCode, TextFault};
use cub_lexer::{LexFault, Token, lex, place};
use cub_parse::{ParseFault, Syntax, parse};
use cub_proto::Protocol;
use cub_types::{TypeFault, resolve};
use std::alloc::Global;

/// The most bytes of a text.
pub const PROTOCOL_LIMIT: u64 = 1_048_576;

// The fault with its place as line and column.
fn fault_at(text: &[u8], code: TextCode, at: u32) -> TextFault
    requires within { at ≤ length text.now }
    requires short { length text.now ≤ 1048576 }
    ensures { result ≡ Fault code (line_at text.now at) (column_at text.now at) }
{
    let (line, column) = place(text, at);
    TextFault::Fault { code, line, column }
}

// Where a token stands; the end of the text for the number behind the last.
fn start_of(text: &[u8], tokens: &[Token], number: u32) -> u32
    requires short { length text.now ≤ 1048576 }
    ensures value { result ≡ start_of text.now tokens.now number }
    ensures within { result ≤ length text.now }
{
    let end = text.len() as u32;
    match tokens.get(number as usize) {
        Some(token) => token.at.min(end),
        None => end,
    }
}

fn typed(alloc: Global, text: &[u8], tokens: &[Token], tree: &Syntax) -> Result<Protocol, TextFault>
    requires short { length text.now ≤ 1048576 }
    requires tokens { IsLexed text.now tokens.now }
    requires tree { IsParsed tokens.now tree.now }
    ensures ok { IfOk result (IsProtocolOf text.now) }
    ensures fault { IfErr result (IsFaultOf text.now) }
{
    match resolve(alloc, text, tree) {
        Ok(protocol) => Ok(protocol),
        Err(TypeFault::Fault { token, kind }) => {
            let at = start_of(text, tokens, token);
            Err(fault_at(text, TextCode::Typing(kind), at))
        }
        Err(TypeFault::Memory) => Err(TextFault::Memory),
    }
}

fn parsed(alloc: Global, text: &[u8], tokens: &[Token]) -> Result<Protocol, TextFault>
    requires short { length text.now ≤ 1048576 }
    requires tokens { IsLexed text.now tokens.now }
    ensures ok { IfOk result (IsProtocolOf text.now) }
    ensures fault { IfErr result (IsFaultOf text.now) }
{
    match parse(alloc, tokens) {
        Ok(tree) => typed(alloc, text, tokens, &tree),
        Err(ParseFault::Fault { token, kind }) => {
            let at = start_of(text, tokens, token);
            Err(fault_at(text, TextCode::Grammar(kind), at))
        }
        Err(ParseFault::Memory) => Err(TextFault::Memory),
    }
}

/// The protocol that the text reads as, or its first fault.
pub fn read_protocol(alloc: Global, text: &[u8]) -> Result<Protocol, TextFault>
    requires { length text.now ≤ 1048576 }
    ensures ok { IfOk result (IsProtocolOf text.now) }
    ensures fault { IfErr result (IsFaultOf text.now) }
{
    match lex(alloc, text) {
        Ok(tokens) => parsed(alloc, text, tokens.as_slice()),
        Err(LexFault::Fault { at, kind }) => Err(fault_at(text, TextCode::Lexical(kind), at)),
        Err(LexFault::Memory) => Err(TextFault::Memory),
    }
}
