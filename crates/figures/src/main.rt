//! Runs calls of the libraries many times over, so that their cost can be measured from outside; no command of the
//! program shows them alone. The words are a measure, a size and a number of repetitions; without words each measure runs
//! once. A line tells the words and a count of the results, and no time, so that it is the same in each run.
#![tactic(auto)]

// What ends the program early.
mod failed;

// What is built to be measured.
mod drawing;
mod fitting;
mod literals;
mod parts;

// The calls.
mod closing;
mod covering;
mod deciding;
mod listing;
mod searching;

// The measures by name.
mod measure;

use failed::Failed;
use measure::{ROWS, named, run};
use std::env;

// Measures and prints the line.
fn show(rt: &HostRuntime, word: &str, size: u32, times: u32) -> Result<(), Failed> {
    let measure = match named(word) {
        Some(measure) => measure,
        None => return Err(Failed::Words),
    };
    let count = run(rt.alloc(), measure, size, times)?;
    println!(rt; "{word} {size} {times} {count}")?;
    Ok(())
}

// The number that the word is.
fn number(word: &str) -> Result<u32, Failed> {
    match word.parse::<u32>() {
        Ok(number) => Ok(number),
        Err(_) => Err(Failed::Words),
    }
}

// Measures each.
fn show_all(rt: &HostRuntime) -> Result<(), Failed> {
    for (word, size) in ROWS {
        show(rt, word, size, 1)?;
    }
    Ok(())
}

fn main(rt: HostRuntime) -> Result<(), Failed> {
    let alloc = rt.alloc();
    let args: Vec<String> = env::args(&rt)?.skip(1).collect(alloc)?;
    let words: Vec<&str> = args.iter().map(|arg| arg.as_str()).collect(alloc)?;
    match words.as_slice() {
        [] => show_all(&rt),
        [word, size, times] => show(&rt, word, number(size)?, number(times)?),
        _ => Err(Failed::Words),
    }
}
