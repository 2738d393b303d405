//! Normal forms of formulas: the list of conjunctions that a formula stands for, and that of its negation, exactly.
#![tactic(auto)]

// Formulas.
mod formula;

pub use formula::{Formula, Formulas, GREATEST_FORMULA_BOUND, fits};

// Why a formula has no normal form.
mod fault;

pub use fault::DnfFault;

// Normal forms and their lengths.
mod conjunctions;
mod length;
mod measured;

pub use conjunctions::normal;
pub use length::{MOST_COUNTED, count};

// Laws: what holds of every formula.
mod laws;

pub use laws::{normal_forms_fit, normal_forms_keep_the_truth};

#[cfg(test)]
mod tests;
