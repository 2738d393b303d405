//! The values that `clap` found.

ghost use Rattle.std.specs.Prelude.{◌≡◌, ◌≤◌, Some, option_map, codes, is_some, true};
ghost use Rattle.clap.specs.Words.{found_of, rows_of, first_of};
ghost use Rattle.cub_words.specs.Table.{command_named};
ghost use Rattle.cub_words.specs.Asked.{asked_by};
ghost use Rattle.cub_words.specs.declared.table.OptionName.TheVariants as OptionName;
ghost use Rattle.word_parser.specs.Found.{number_or, text_or_empty, name_of, name_found, value_found, request_with};

use clap::ArgMatches;
use cub_proto::Budget;
use cub_words::{Command, CommandName, number_within};

// The number that a text is within the range, or the usual one.
fn number_or(least: u32, greatest: u32, usual: u32, text: Option<&str>) -> u32
    requires greatest { greatest ≤ 1000000000 }
    requires usual { usual ≤ greatest }
    ensures value { result ≡ number_or least greatest usual (option_map (λ word. word.now) text.entry) }
    ensures within { result ≤ greatest }
{
    match text {
        Some(word) => number_within(least, greatest, word.as_bytes()).unwrap_or(usual),
        None => usual,
    }
}

// What was found by a name.
fn text_found<'a>(matches: &ArgMatches<'a>, name: &str) -> Option<&'a str>
    ensures { option_map (λ text. text.now) result ≡ first_of name.now (rows_of (found_of matches.now)) }
{
    matches.get_str(name)
}

/// A name that was found.
pub fn name_found<'a>(matches: &ArgMatches<'a>, name: &str) -> &'a str
    ensures { result.now ≡ name_found name.now (rows_of (found_of matches.now)) }
{
    match text_found(matches, name) {
        Some(text) => text,
        None => "",
    }
}

fn workers_found(matches: &ArgMatches) -> u8
    ensures { result ≡ value_found OptionName.Workers (rows_of (found_of matches.now)) }
{
    number_or(1, 16, 1, text_found(matches, "workers")) as u8
}

fn budget_found(matches: &ArgMatches) -> Budget
    ensures cubes { result.cubes ≡ value_found OptionName.Cubes (rows_of (found_of matches.now)) }
    ensures width { result.width ≡ value_found OptionName.Width (rows_of (found_of matches.now)) }
{
    Budget {
        cubes: number_or(1, 65_536, 4096, text_found(matches, "cubes")),
        width: number_or(1, 8, 6, text_found(matches, "width")) as u8,
    }
}

fn format_found(matches: &ArgMatches) -> u8
    ensures { result ≡ value_found OptionName.Format (rows_of (found_of matches.now)) }
{
    number_or(1, 2, 1, text_found(matches, "format")) as u8
}

fn levels_found(matches: &ArgMatches) -> u8
    ensures { result ≡ number_or 2 63 2 (first_of (codes "first") (rows_of (found_of matches.now))) }
{
    number_or(2, 63, 2, text_found(matches, "first")) as u8
}

/// The command with that name, which is one.
pub fn command_named(word: &str) -> CommandName
    requires { is_some (command_named word.now) ≡ true }
    ensures { command_named word.now ≡ Some result }
{
    if word == "check" {
        CommandName::Check
    } else if word == "verify" {
        CommandName::Verify
    } else if word == "replay" {
        CommandName::Replay
    } else if word == "print" {
        CommandName::Print
    } else {
        CommandName::Sample
    }
}

/// The command with the values that were found.
pub fn request_with<'a>(command: CommandName, matches: &ArgMatches<'a>) -> Command<'a>
    ensures { asked_by result ≡ request_with command (rows_of (found_of matches.now)) }
{
    match command {
        CommandName::Check => Command::Check {
            file: name_found(matches, "first"),
            budget: budget_found(matches),
            workers: workers_found(matches),
            format: format_found(matches),
        },
        CommandName::Verify => Command::Verify {
            file: name_found(matches, "first"),
            cert: name_found(matches, "second"),
        },
        CommandName::Replay => Command::Replay {
            file: name_found(matches, "first"),
            trace: name_found(matches, "second"),
        },
        CommandName::Print => Command::Print {
            file: name_found(matches, "first"),
        },
        CommandName::Sample => Command::Sample {
            levels: levels_found(matches),
            budget: budget_found(matches),
            workers: workers_found(matches),
        },
    }
}
