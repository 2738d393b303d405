//! Cubes: conjunctions of literals over places, in a normal form, with their meaning. A cube stands for the states in
//! which distinct alive processes, put for its places, make every literal true.
#![tactic(auto)]

// Cubes.
mod cube;

pub use cube::{Cube, Cubes};

// The normal form.
mod normal;

pub use normal::{
    compare_subjects, is_normal, is_true_alone, joined, normal_form, ordered, renamed_form,
};

// Renaming by places.
mod renaming;

pub use renaming::{renamed, renamed_term, renamed_value};

// The terms that are mentioned.
mod mentions;

pub use mentions::terms_in;

// Laws of the normal form, of renaming, of replacement and of mentioned terms.
mod form_laws;

pub use form_laws::{
    composed_places_satisfy, normal_form_fits, normal_form_is_normal, normal_form_keeps_meaning,
    normal_form_stays, renamed_cube_is_at_composed_places, renamed_fits,
    renamed_is_at_composed_places, renamed_value_is_at_composed_places, replaced_fits,
    replaced_is_true_of_values, same_meaning_is_met, terms_in_are_mentioned,
};

// Laws of covering, of consistent cubes and of inductive lists.
mod cover_laws;

pub use cover_laws::{
    consistent_cubes_are_one_list, covered_states_meet, covering_goes_along, covering_is_reflexive,
    covering_is_transitive, inductive_is_safe, least_cover_is_one,
};

// Laws of steps and crashes, for pre-images.
mod step_laws;

pub use step_laws::{
    agreeing_places_are_alike, all_others_can_crash, crashes_change_no_value, fired_updates_terms,
};

#[cfg(test)]
mod tests;
