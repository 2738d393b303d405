//! The program: it answers the words that it is given from the files that they name.
#![tactic(auto)]

// The top call.
mod top;

// Laws of the answers.
mod laws;

// Its parts: the texts of protocols, `check` and `sample`, `print`, `replay`, `verify`.
mod checks;
#[cfg(test)]
mod failing;
mod files;
mod prints;
mod replays;
#[cfg(test)]
mod rows;
#[cfg(test)]
mod rows_of_certificates;
#[cfg(test)]
mod rows_of_logs;
#[cfg(test)]
mod rows_of_traces;
#[cfg(test)]
mod tabled;
#[cfg(test)]
mod tests;
mod verifies;

use io_edge::{FileShelf, OutSink};
use std::process::ExitCode;
use std::{env, io};

// The status of the run on the words behind the program's own name.
fn status(rt: &HostRuntime) -> io::Result<u8> {
    let alloc = rt.alloc();
    let args: Vec<String> = env::args(rt)?.skip(1).collect(alloc)?;
    let words: Vec<&str> = args.iter().map(|arg| arg.as_str()).collect(alloc)?;
    let mut shelf = FileShelf::new(rt);
    let mut out = OutSink::new(rt);
    Ok(top::run_plain(alloc, words.as_slice(), &mut shelf, &mut out))
}

// What is left to fail outside of the top call is want of memory for the words.
fn main(rt: HostRuntime) -> ExitCode {
    match status(&rt) {
        Ok(status) => ExitCode::from(status),
        Err(_) => ExitCode::from(8),
    }
}
