//! The command line as `clap` is told of it: the command and up to two names by their places, the options by their names,
//! each at most once. Which command has which names and options is settled before, by the reading of the words.

ghost use Rattle.std.specs.Prelude.{◌≡◌, false, IfOk};
ghost use Rattle.clap.specs.Words.{app_of, rule_of};
ghost use Rattle.word_parser.specs.Line.{line, name_rule, option_rule};

use clap::{Arg, Command};
use std::alloc::{AllocError, Global};

fn name_arg<'a>(alloc: Global, name: &'a str) -> Arg<'a>
    ensures rule { rule_of result ≡ name_rule name.entry.now }
    ensures local { result.global ≡ false }
{
    Arg::new(alloc, name)
}

fn option_arg<'a>(alloc: Global, name: &'a str) -> Arg<'a>
    ensures rule { rule_of result ≡ option_rule name.entry.now }
    ensures local { result.global ≡ false }
{
    Arg::new(alloc, name).long(name)
}

/// All that the words may have.
pub fn line<'a>(alloc: Global) -> Result<Command<'a>, AllocError>
    ensures { IfOk result (λ command. app_of command ≡ line) }
{
    Command::new(alloc, "parcub")
        .no_binary_name(true)
        .disable_help_flag(true)
        .arg(name_arg(alloc, "command"))?
        .arg(name_arg(alloc, "first"))?
        .arg(name_arg(alloc, "second"))?
        .arg(option_arg(alloc, "workers"))?
        .arg(option_arg(alloc, "cubes"))?
        .arg(option_arg(alloc, "width"))?
        .arg(option_arg(alloc, "format"))
}
