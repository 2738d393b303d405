//! The parser: the tree of a text's tokens, or the first token that no sentence has there.

ghost use Rattle.std.specs.Prelude.{◌≡◌, ◌^◌, ◌<◌, length, IfOk, IfErr};
ghost use Rattle.cub_parse.specs.declared.fault.ParseFault.TheVariants.{Fault};
ghost use Rattle.cub_parse.specs.Sentence.{Sentence, IsFaultAmong, numbered, max_levels, OneTree, OneFault, NoFault};

use crate::fault::{ParseFault, ParseKind, Stop};
use crate::files::file;
use crate::tree::{Leaf, Syntax};
use cub_lexer::Token;
use std::alloc::{AllocError, Global};

/// `(`, `not` and `forall_other` nest at most so many levels deep.
const MAX_LEVELS: u8 = 64;

fn number_all(alloc: Global, tokens: &[Token]) -> Result<Vec<Leaf>, AllocError>
    requires { length tokens.now < 2 ^ 32 }
    ensures { IfOk result (λ leaves. leaves.items ≡ numbered 0 tokens.now) }
{
    let mut leaves = Vec::with_capacity(alloc, tokens.len())?;
    for (at, token) in tokens.iter().enumerate() {
        let number = at as u32;
        let token = *token;
        leaves.push(Leaf { number, token })?;
    }
    Ok(leaves)
}

fn fault_at(token: usize, kind: ParseKind) -> ParseFault
    requires { token < 2 ^ 32 }
    ensures { result ≡ Fault token kind }
{
    let token = token as u32;
    ParseFault::Fault { token, kind }
}

fn read_all(alloc: Global, leaves: &[Leaf]) -> Result<Syntax, ParseFault>
    requires { length leaves.now < 2 ^ 32 }
    ensures tree { IfOk result (λ tree. Sentence max_levels leaves.now tree) }
    ensures fault { IfErr result (λ fault. IsFaultAmong leaves.now fault) }
{
    let stop = match file(alloc, MAX_LEVELS, leaves) {
        Ok((tree, rest)) => {
            if rest.is_empty() {
                return Ok(tree);
            }
            return Err(fault_at(leaves.len() - rest.len(), ParseKind::P1));
        }
        Err(stop) => stop,
    };
    match stop {
        Stop::At(kind, left) => Err(fault_at(leaves.len() - left, kind)),
        Stop::Memory => Err(ParseFault::Memory),
    }
}

/// The tree of a text's tokens, or the first fault.
pub fn parse(alloc: Global, tokens: &[Token]) -> Result<Syntax, ParseFault>
    requires { length tokens.now < 2 ^ 32 }
    ensures tree { IfOk result (λ tree. Sentence max_levels (numbered 0 tokens.now) tree) }
    ensures fault { IfErr result (λ fault. IsFaultAmong (numbered 0 tokens.now) fault) }
{
    match number_all(alloc, tokens) {
        Err(_) => Err(ParseFault::Memory),
        Ok(leaves) => read_all(alloc, leaves.as_slice()),
    }
}

/// Tokens have one tree at most.
pub fn one_tree()
    ensures { OneTree }
{}

/// Tokens have one fault at most, of one kind.
pub fn one_fault()
    ensures { OneFault }
{}

/// A sentence has no fault.
pub fn no_fault()
    ensures { NoFault }
{}
