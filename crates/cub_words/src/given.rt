//! What the words so far have given. A name is kept as the number of its word, so nothing is copied while words are read.

ghost use Rattle.std.specs.Prelude.{◌≡◌, ◌≤◌, IfSome, is_some};
ghost use Rattle.cub_words.specs.Given.{IsLawful, nothing_given, is_full, value_given, with_value, with_file};

use crate::table::{CommandName, OptionName};

/// What was given: names, the number of levels, values of options, and the option whose value is to come.
#[derive(Clone, Copy, Debug, PartialEq, Eq)]
pub struct Given {
    pub first: Option<usize>,
    pub second: Option<usize>,
    pub levels: Option<u32>,
    pub workers: Option<u32>,
    pub cubes: Option<u32>,
    pub width: Option<u32>,
    pub format: Option<u32>,
    pub waiting: Option<OptionName>,
}

/// Before any word.
pub fn nothing_given() -> Given
    ensures value { result ≡ nothing_given }
    ensures lawful { IsLawful result }
{
    Given {
        first: None,
        second: None,
        levels: None,
        workers: None,
        cubes: None,
        width: None,
        format: None,
        waiting: None,
    }
}

/// Whether the command has all its names.
pub fn is_full(command: CommandName, given: &Given) -> bool
    ensures { result ≡ is_full command given.now }
{
    match command {
        CommandName::Check | CommandName::Print => given.first.is_some(),
        CommandName::Verify | CommandName::Replay => given.second.is_some(),
        CommandName::Sample => given.levels.is_some(),
    }
}

/// The value of the option, if it was given.
pub fn value_given(option: OptionName, given: &Given) -> Option<u32>
    ensures { result ≡ value_given option given.now }
{
    match option {
        OptionName::Workers => given.workers,
        OptionName::Cubes => given.cubes,
        OptionName::Width => given.width,
        OptionName::Format => given.format,
    }
}

/// One more value of an option, which is awaited no longer.
pub fn with_value(option: OptionName, value: u32, given: Given) -> Given
    ensures { result ≡ with_value option value given }
{
    let settled = Given {
        waiting: None,
        ..given
    };
    match option {
        OptionName::Workers => Given {
            workers: Some(value),
            ..settled
        },
        OptionName::Cubes => Given {
            cubes: Some(value),
            ..settled
        },
        OptionName::Width => Given {
            width: Some(value),
            ..settled
        },
        OptionName::Format => Given {
            format: Some(value),
            ..settled
        },
    }
}

/// One more file, the word with that number.
pub fn with_file(number: usize, given: Given) -> Given
    ensures { result ≡ with_file number given }
{
    if given.first.is_some() {
        Given {
            second: Some(number),
            ..given
        }
    } else {
        Given {
            first: Some(number),
            ..given
        }
    }
}
