//! The forms that the search gives its cubes: without the literals that the others entail, and with places in an order
//! that depends on the literals alone; and the test whether a cube is such a form of another, or any that a log admits.
#![tactic(auto)]

// Literals that the others entail.
mod simplification;

pub use simplification::simplify;

// The order of places.
mod naming;

pub use naming::normal_name;

// Forms: the one that is given, and the test whether one is admitted.
mod forms;

pub use forms::{form, is_form};

// Laws.
mod laws;

pub use laws::{given_forms_are_admitted, named_cubes_are_one, simplified_cubes_keep_meaning};

#[cfg(test)]
mod tests;
