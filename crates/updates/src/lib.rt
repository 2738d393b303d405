//! What a step does to one literal: the ways through the branches of an update, the values that the terms of a cube
//! take, and the literal before the step that stands for one after it.
#![tactic(auto)]

// What is chosen for a term.
mod choice;

pub use choice::{Choice, Choices, Fails};

// Ways through the branches of an update.
mod ways;

pub use ways::{condition, push_failing, push_renamed, push_way, update_of, way_value};

// What a choice says.
mod chosen;

pub use chosen::{chosen_value, push_choice, reading_places, taken_value};

// Values of terms, and a literal with its terms replaced.
mod values;

pub use values::{replaced, value_in};

// The answer of `through`.
mod answer;

pub use answer::Through;

// A literal back through a step.
mod step;

pub use step::{is_false_alone, mentions, through};

// Laws: ways and what counts, literals before and after a step.
mod laws;

pub use laws::{through_is_exact, ways_are_exact};

#[cfg(test)]
mod tests;
