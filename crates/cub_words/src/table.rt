//! The table of commands: how many names each needs, which options it has, and what a value may be. A command is added
//! by one more row.

ghost use Rattle.std.specs.Prelude.{◌≡◌, ◌≤◌};
ghost use Rattle.cub_words.specs.Table.{command_named, option_named, has_option, least_of, greatest_of};

/// A command.
#[derive(Clone, Copy, Debug, PartialEq, Eq)]
pub enum CommandName {
    Check,
    Verify,
    Replay,
    Print,
    Sample,
}

/// An option, written `--workers 2` or `--workers=2`.
#[derive(Clone, Copy, Debug, PartialEq, Eq)]
pub enum OptionName {
    Workers,
    Cubes,
    Width,
    Format,
}

/// The command with that name.
pub fn command_named(word: &str) -> Option<CommandName>
    ensures { result ≡ command_named word.now }
{
    if word == "check" {
        Some(CommandName::Check)
    } else if word == "verify" {
        Some(CommandName::Verify)
    } else if word == "replay" {
        Some(CommandName::Replay)
    } else if word == "print" {
        Some(CommandName::Print)
    } else if word == "sample" {
        Some(CommandName::Sample)
    } else {
        None
    }
}

/// The option with that name, the two dashes included.
pub fn option_named(word: &[u8]) -> Option<OptionName>
    ensures { result ≡ option_named word.now }
{
    if word == b"--workers".as_slice() {
        Some(OptionName::Workers)
    } else if word == b"--cubes".as_slice() {
        Some(OptionName::Cubes)
    } else if word == b"--width".as_slice() {
        Some(OptionName::Width)
    } else if word == b"--format".as_slice() {
        Some(OptionName::Format)
    } else {
        None
    }
}

/// Whether the command has the option.
pub fn has_option(command: CommandName, option: OptionName) -> bool
    ensures { result ≡ has_option command option }
{
    match command {
        CommandName::Check => true,
        CommandName::Sample => option != OptionName::Format,
        _ => false,
    }
}

/// The least value of the option.
pub fn least_of(option: OptionName) -> u32
    ensures { result ≡ least_of option }
{
    match option {
        OptionName::Workers | OptionName::Cubes | OptionName::Width | OptionName::Format => 1,
    }
}

/// The greatest value of the option.
pub fn greatest_of(option: OptionName) -> u32
    ensures value { result ≡ greatest_of option }
    ensures small { result ≤ 65536 }
{
    match option {
        OptionName::Workers => 16,
        OptionName::Cubes => 65_536,
        OptionName::Width => 8,
        OptionName::Format => 2,
    }
}
