//! The commands of rows by name.

use crate::covering::Covering;
use crate::deciding::Deciding;
use crate::forming::Forming;
use crate::listing::Listing;

/// What a row asks.
#[derive(Clone, Copy)]
pub enum Command {
    Decide(Deciding),
    Form(Forming),
    Read,
    Cover(Covering),
    List(Listing),
    Pieces,
    Text,
}

const NAMED: [(&str, Command); 25] = [
    ("consistent", Command::Decide(Deciding::Consistent)),
    ("entails", Command::Decide(Deciding::Entails)),
    ("state", Command::Decide(Deciding::State)),
    ("with_start", Command::Decide(Deciding::WithStart)),
    ("meets_start", Command::Decide(Deciding::MeetsStart)),
    ("start_state", Command::Decide(Deciding::StartState)),
    ("normal", Command::Form(Forming::Normal)),
    ("simplify", Command::Form(Forming::Simplify)),
    ("normal_name", Command::Form(Forming::NormalName)),
    ("form", Command::Form(Forming::Form)),
    ("is_form", Command::Form(Forming::IsForm)),
    ("read", Command::Read),
    ("covers", Command::Cover(Covering::Covers)),
    ("filtered", Command::Cover(Covering::Filtered)),
    ("tests", Command::Cover(Covering::Tests)),
    ("push", Command::List(Listing::Push)),
    ("find", Command::List(Listing::Find)),
    ("under", Command::List(Listing::Under)),
    ("is_covered", Command::List(Listing::IsCovered)),
    ("retire", Command::List(Listing::Retire)),
    ("cut", Command::List(Listing::Cut)),
    ("count", Command::List(Listing::Count)),
    ("cube", Command::List(Listing::Cube)),
    ("pieces", Command::Pieces),
    ("text", Command::Text),
];

/// The command with that name.
pub fn named(word: &[u8]) -> Option<Command> {
    for (name, command) in NAMED {
        if name.as_bytes() == word {
            return Some(command);
        }
    }
    None
}
