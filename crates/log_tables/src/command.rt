//! The commands of rows by name.

use crate::asking::Asking;
use crate::changing::Changing;
use crate::judging::Judging;
use crate::making::Making;

/// What a row asks.
#[derive(Clone, Copy)]
pub enum Command {
    Make(Making),
    Ask(Asking),
    Change(Changing),
    Judge(Judging),
    Journal,
    Certificate,
}

const NAMED: [(&str, Command); 19] = [
    ("new", Command::Make(Making::New)),
    ("admit_roots", Command::Make(Making::Roots)),
    ("node", Command::Ask(Asking::Node)),
    ("nodes", Command::Ask(Asking::Nodes)),
    ("events", Command::Ask(Asking::Events)),
    ("mark", Command::Ask(Asking::Mark)),
    ("count", Command::Ask(Asking::Count)),
    ("budget", Command::Ask(Asking::Budget)),
    ("waiting", Command::Ask(Asking::Waiting)),
    ("verdict", Command::Ask(Asking::Verdict)),
    ("written", Command::Ask(Asking::Written)),
    ("expand", Command::Change(Changing::Expand)),
    ("run", Command::Change(Changing::Run)),
    ("admit", Command::Change(Changing::Admit)),
    ("copy", Command::Change(Changing::Copy)),
    ("judge", Command::Judge(Judging::Judge)),
    ("apply", Command::Judge(Judging::Apply)),
    ("journal", Command::Journal),
    ("certificate", Command::Certificate),
];

/// The command with that name.
pub fn named(word: &[u8]) -> Option<Command> {
    for (name, command) in NAMED {
        if name.as_bytes() == word {
            return Some(command);
        }
    }
    None
}
