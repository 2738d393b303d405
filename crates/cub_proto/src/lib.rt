//! Protocols, their states and what events do to them. Array-based systems after Ghilardi and Ranise, in the
//! language of Cubicle: globals, arrays indexed by processes, a start formula, unsafe conjunctions, transitions.
#![tactic(auto)]

// Literals and values over globals, arrays and places.
mod literal;

pub use literal::{Conjs, ISide, Lit, Lits, PSide, Sort, Term, Value};

// Transitions.
mod transition;

pub use transition::{Branch, Branches, Target, Transition, Transitions, Update, Updates};

// Protocols.
mod protocol;

pub use protocol::{Cons, Decl, Decls, Goal, Goals, NotProtocol, Protocol, SortDecl, SortDecls};

mod copies;

// What is declared, and what fits it.
mod declared;

pub use declared::Declared;

mod fits;

pub use fits::{
    GREATEST_BOUND, GREATEST_CONSTANT, branch_fits, conjunction_fits, formula_fits,
    integer_side_fits, is_bounded, is_finite, is_sort, literal_fits, place_fits, process_side_fits,
    same_finite, same_sort, term_fits, update_fits, update_width, value_fits,
};

mod distinct;
mod parts;

pub use parts::{picks_process, takes_any, target_before};

// The order of literals.
mod order;

pub use order::{
    compare_integer_sides, compare_lits, compare_process_sides, compare_slots, compare_terms,
};

// Negations.
mod negation;

pub use negation::{full_mask, negated};

// States.
mod state;

pub use state::{Cells, Slot, State, Val};

// The truth of literals at a state.
mod truth;

pub use truth::{all_hold, any_holds, has_bit, holds, integer_at, process_at, term_value};

// Events, runs and traces.
mod event;

pub use event::{Chosen, Event, Events, Picked, Plain, Processes, Trace};

// Budgets of a search, and what a certificate says of its cubes.
mod budget;

pub use budget::{Budget, MOST_CUBES, MOST_WIDTH};

mod cover;

pub use cover::{CoverLine, CoverLines};

// Laws: what holds of every protocol, state and event.
mod laws;

pub use laws::{legal_events_keep_states, negation_is_opposite};

#[cfg(test)]
mod tests;
