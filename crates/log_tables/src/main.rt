//! Makes calls of the libraries of logs, journals and certificates over rows of data, and prints an answer for each, so that
//! they can be compared with what others say. The words are names of files of rows.
#![tactic(auto)]

// Why a row has no answer.
mod failed;

// What rows name, and whether it may be handed to a call.
mod events;
mod fitting;
mod words;

// How answers are written.
mod answers;
mod telling;

// The calls on logs: what makes one, what leaves it, what changes it.
mod asking;
mod changing;
mod judging;
mod making;

// The calls on texts.
mod certificates;
mod journals;
mod texts;

// Rows by name, and sections of rows.
mod command;
mod section;

use failed::Failed;
use io_edge::{FileShelf, OutSink, Shelf, put_all};
use std::env;

// The most bytes of a file of rows.
const LIMIT: u64 = 1_048_576;

// Answers the rows of the file, and prints.
fn show(rt: &HostRuntime, name: &str) -> Result<(), Failed> {
    let alloc = rt.alloc();
    let text = FileShelf::new(rt).load(alloc, name, LIMIT)?;
    let mut lines = Vec::new(alloc);
    section::run(alloc, text.as_slice(), &mut lines)?;
    put_all(&mut OutSink::new(rt), lines.as_slice())?;
    Ok(())
}

fn main(rt: HostRuntime) -> Result<(), Failed> {
    let names: Vec<String> = env::args(&rt)?.skip(1).collect(rt.alloc())?;
    for name in names.iter() {
        show(&rt, name.as_str())?;
    }
    Ok(())
}
