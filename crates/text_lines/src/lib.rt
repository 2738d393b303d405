//! What every text of results needs, line by line: lines, words, numbers, names, and how slots and values are written.
#![tactic(auto)]

// Lines and their words.
mod lines;
mod words;

pub use lines::cut_line;
pub use words::{is_separator, is_word, next_word};

// Numbers.
mod numbers;

pub use numbers::{counted, integer, natural};

// Names.
mod names;

pub use names::{constructor_number, decl_number, transition_number};

// What stands in a line, read loosely.
mod loose;

pub use loose::{behind_words, entry_value, processes_in, slot_in, slot_words, value_in};

// Writing.
mod spelling;

pub use spelling::{
    push, push_entry, push_integer, push_number, push_process, push_processes, push_slot,
    push_value, slot_sort,
};

#[cfg(test)]
mod tests;
