//! Words are read once, from left to right, and the first fault ends the reading. What each word means depends on the
//! command, on what was given so far, and on whether the word before it was an option that awaits its value.

ghost use Rattle.std.specs.Prelude.{◌≡◌, ◌≤◌, ℕ, List, [], ◌∷◌, Option, Some, None, Result, Ok, Err, codes, map, length, option_map, unwrap_or, IfOk, IsTrue};
ghost use Rattle.cub_words.specs.Words.{is_marked, sign_at, name_part, value_part};
ghost use Rattle.cub_words.specs.Given.{IsLawful, nothing_given};
ghost use Rattle.cub_words.specs.Reading.{fault, valued, with_option, with_marked, with_name, step, ended, read_from, reading, request_of, word_at, value_of, Request, does_wait};
ghost use Rattle.cub_words.specs.Asked.{asked_by, asked, HasLevels};
ghost use Rattle.cub_words.specs.declared.table.OptionName.TheVariants as OptionName;
ghost use Rattle.cub_words.specs.declared.request.WordsKind.TheVariants.{U1, U2, U3, U4, U5, U6, U7, U8, U9};

use crate::given::{Given, is_full, nothing_given, value_given, with_file, with_value};
use crate::numbers::number_within;
use crate::request::{Command, WordsFault, WordsKind};
use crate::table::{
    CommandName, OptionName, command_named, greatest_of, has_option, least_of, option_named,
};
use cub_proto::Budget;

// The value of an option.
fn valued(option: OptionName, number: usize, word: &[u8], given: Given) -> Result<Given, WordsFault>
    requires { IsLawful given }
    ensures value { result ≡ valued option number word.now given }
    ensures lawful { IfOk result IsLawful }
{
    match number_within(least_of(option), greatest_of(option), word) {
        Some(value) => Ok(with_value(option, value, given)),
        None => Err(WordsFault {
            word: number,
            kind: WordsKind::U7,
        }),
    }
}

// Where the first equals sign of a word stands.
fn sign_at(word: &[u8]) -> Option<usize>
    ensures { result ≡ sign_at word.now }
{
    word.iter().position(|byte| *byte == b'=')
}

// What stands before the first equals sign of a word, or all of it.
fn name_part(word: &[u8]) -> &[u8]
    ensures { result.now ≡ name_part word.now }
{
    match sign_at(word) {
        Some(at) => {
            let (name, _) = word.split_at(at.min(word.len()));
            name
        }
        None => word,
    }
}

// What stands behind the first equals sign of a word, if there is one.
fn value_part(word: &[u8]) -> Option<&[u8]>
    ensures { option_map (λ value. value.now) result ≡ value_part word.now }
{
    match sign_at(word) {
        Some(at) => {
            let (_, value) = word.split_at(at.saturating_add(1).min(word.len()));
            Some(value)
        }
        None => None,
    }
}

// An option of the table, with its value where the word has one.
fn with_option(
    command: CommandName,
    option: OptionName,
    number: usize,
    value: Option<&[u8]>,
    given: Given,
) -> Result<Given, WordsFault>
    requires { IsLawful given }
    ensures value { result ≡ with_option command option number (option_map (λ text. text.now) value.entry) given }
    ensures lawful { IfOk result IsLawful }
{
    if !has_option(command, option) {
        return Err(WordsFault {
            word: number,
            kind: WordsKind::U9,
        });
    }
    if value_given(option, &given).is_some() {
        return Err(WordsFault {
            word: number,
            kind: WordsKind::U8,
        });
    }
    match value {
        Some(text) => valued(option, number, text, given),
        None => Ok(Given {
            waiting: Some(option),
            ..given
        }),
    }
}

// A word that is empty or begins with a dash.
fn with_marked(
    command: CommandName,
    number: usize,
    word: &[u8],
    given: Given,
) -> Result<Given, WordsFault>
    requires { IsLawful given }
    ensures value { result ≡ with_marked command number word.now given }
    ensures lawful { IfOk result IsLawful }
{
    match option_named(name_part(word)) {
        Some(option) => with_option(command, option, number, value_part(word), given),
        None => Err(WordsFault {
            word: number,
            kind: WordsKind::U5,
        }),
    }
}

// A name: a file, or the number of levels.
fn with_name(
    command: CommandName,
    number: usize,
    word: &[u8],
    given: Given,
) -> Result<Given, WordsFault>
    requires { IsLawful given }
    ensures value { result ≡ with_name command number word.now given }
    ensures lawful { IfOk result IsLawful }
{
    if is_full(command, &given) {
        return Err(WordsFault {
            word: number,
            kind: WordsKind::U4,
        });
    }
    if command != CommandName::Sample {
        return Ok(with_file(number, given));
    }
    match number_within(2, 63, word) {
        Some(levels) => Ok(Given {
            levels: Some(levels),
            ..given
        }),
        None => Err(WordsFault {
            word: number,
            kind: WordsKind::U7,
        }),
    }
}

fn is_marked(word: &[u8]) -> bool
    ensures { result ≡ is_marked word.now }
{
    match word {
        [] => true,
        [byte, ..] => *byte == b'-',
    }
}

// One more word.
fn step(command: CommandName, number: usize, word: &[u8], given: Given) -> Result<Given, WordsFault>
    requires { IsLawful given }
    ensures value { result ≡ step command number word.now given }
    ensures lawful { IfOk result IsLawful }
{
    match given.waiting {
        Some(option) => valued(option, number, word, given),
        None if is_marked(word) => with_marked(command, number, word, given),
        None => with_name(command, number, word, given),
    }
}

// The end of the words, before the word with that number.
fn ended(command: CommandName, number: usize, given: Given) -> Result<Given, WordsFault>
    requires lawful { IsLawful given }
    requires number { 1 ≤ number }
    ensures value { result ≡ ended command number given }
    ensures lawful { IfOk result IsLawful }
{
    if given.waiting.is_some() {
        Err(WordsFault {
            word: number - 1,
            kind: WordsKind::U6,
        })
    } else if is_full(command, &given) {
        Ok(given)
    } else {
        Err(WordsFault {
            word: number,
            kind: WordsKind::U3,
        })
    }
}

// The words behind the command.
fn read_rest(command: CommandName, rest: &[&str]) -> Result<Given, WordsFault>
    ensures value { result ≡ read_from command 2 (map (λ word. word.now) rest.now) nothing_given }
    ensures lawful { IfOk result IsLawful }
{
    let mut given = nothing_given();
    let mut number = 2;
    for word in rest {
        given = step(command, number, word.as_bytes(), given)?;
        number += 1;
    }
    ended(command, number, given)
}

// The word that is a name.
fn word_at<'a>(words: &[&'a str], name: Option<usize>) -> &'a str
    ensures { result.now ≡ word_at (map (λ word. word.now) words.now) name }
{
    match name {
        Some(number) => match words.get(number.saturating_sub(1)) {
            Some(word) => *word,
            None => "",
        },
        None => "",
    }
}

fn budget_of(given: &Given) -> Budget
    requires { IsLawful given.now }
    ensures cubes { result.cubes ≡ value_of OptionName.Cubes given.now }
    ensures width { result.width ≡ value_of OptionName.Width given.now }
{
    Budget {
        cubes: given.cubes.unwrap_or(4096),
        width: given.width.unwrap_or(6) as u8,
    }
}

fn workers_of(given: &Given) -> u8
    requires { IsLawful given.now }
    ensures { result ≡ value_of OptionName.Workers given.now }
{
    given.workers.unwrap_or(1) as u8
}

fn format_of(given: &Given) -> u8
    requires { IsLawful given.now }
    ensures { result ≡ value_of OptionName.Format given.now }
{
    given.format.unwrap_or(1) as u8
}

fn levels_of(given: &Given) -> u8
    requires { IsLawful given.now }
    ensures value { result ≡ unwrap_or given.now.levels 2 }
    ensures least { 2 ≤ result }
    ensures greatest { result ≤ 63 }
{
    given.levels.unwrap_or(2) as u8
}

// The command with what was given.
fn request_of<'a>(command: CommandName, words: &[&'a str], given: &Given) -> Command<'a>
    requires { IsLawful given.now }
    ensures value { asked_by result ≡ request_of command (map (λ word. word.now) words.now) given.now }
    ensures levels { HasLevels result }
{
    let first = word_at(words, given.first);
    let second = word_at(words, given.second);
    match command {
        CommandName::Check => Command::Check {
            file: first,
            budget: budget_of(given),
            workers: workers_of(given),
            format: format_of(given),
        },
        CommandName::Verify => Command::Verify {
            file: first,
            cert: second,
        },
        CommandName::Replay => Command::Replay {
            file: first,
            trace: second,
        },
        CommandName::Print => Command::Print { file: first },
        CommandName::Sample => Command::Sample {
            levels: levels_of(given),
            budget: budget_of(given),
            workers: workers_of(given),
        },
    }
}

/// The command that the words ask for. The words stand without the program's own name. The first fault from left to right
/// is answered; for one option the order is: no option of any command, not of this command, given before, no value, no
/// lawful value.
pub fn read<'a>(words: &[&'a str]) -> Result<Command<'a>, WordsFault>
    ensures value { asked result ≡ reading (map (λ word. word.now) words.now) }
    ensures levels { IfOk result HasLevels }
{
    let [name, rest @ ..] = words else {
        return Err(WordsFault {
            word: 1,
            kind: WordsKind::U1,
        });
    };
    match command_named(name) {
        Some(command) => {
            let given = read_rest(command, rest)?;
            Ok(request_of(command, words, &given))
        }
        None => Err(WordsFault {
            word: 1,
            kind: WordsKind::U2,
        }),
    }
}

/// Whether the words ask for a search with more than one worker, whose threads may wait for one another.
pub fn waits(words: &[&str]) -> bool
    ensures { result ≡ does_wait (map (λ word. word.now) words.now) }
{
    match read(words) {
        Ok(Command::Check { workers, .. }) => workers > 1,
        Ok(Command::Sample { workers, .. }) => workers > 1,
        _ => false,
    }
}
