//! Words to the command, by `clap`.

ghost use Rattle.std.specs.Prelude.{◌≡◌, true, map, is_ok, Ok, IfOk, IfErr};
ghost use Rattle.clap.specs.Words.{found_of, rows_of, matches_of, kind_of};
ghost use Rattle.cub_words.specs.Reading.{reading};
ghost use Rattle.cub_words.specs.Asked.{asked_by};
ghost use Rattle.word_parser.specs.Line.{line};

use crate::found::{command_named, name_found, request_with};
use crate::line::line;
use clap::error::ErrorKind;
use clap::{ArgMatches, Error};
use cub_base::Memory;
use cub_words::Command;
use std::alloc::Global;

/// What `clap` finds in words that ask for a command. It refuses none of them: an error is want of memory.
pub fn matched<'a>(alloc: Global, words: &'a [&'a str]) -> Result<ArgMatches<'a>, Error>
    requires { is_ok (reading (map (λ word. word.now) words.now)) ≡ true }
    ensures found { IfOk result (λ matches. rows_of (found_of matches) ≡ matches_of line (map (λ word. word.now) words.entry.now)) }
    ensures refused { IfErr result (λ e. kind_of e ≡ ErrorKind.OutOfMemory) }
{
    line(alloc)?.try_get_matches_from(words)
}

// An error that is want of memory.
fn memory(error: Error) -> Memory
    requires { kind_of error ≡ ErrorKind.OutOfMemory }
{
    let _kind = error.kind();
    Memory
}

/// The command that the words ask for, read by `clap`.
pub fn parse<'a>(alloc: Global, words: &'a [&'a str]) -> Result<Command<'a>, Memory>
    requires { is_ok (reading (map (λ word. word.now) words.now)) ≡ true }
    ensures { IfOk result (λ command. reading (map (λ word. word.now) words.entry.now) ≡ Ok (asked_by command)) }
{
    match matched(alloc, words) {
        Ok(matches) => {
            let command = command_named(name_found(&matches, "command"));
            Ok(request_with(command, &matches))
        }
        Err(error) => Err(memory(error)),
    }
}
