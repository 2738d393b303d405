//! The log of the search: what it is, when an event is legal, what a finished log says. Definitions and laws, and the
//! types that every crate of the search shares.
#![tactic(auto)]

// Nodes.
mod node;

pub use node::{Fate, Node, Nodes, Origin};

// Events and the mark.
mod event;

pub use event::{Added, AddedList, LogEvent, LogEvents, Mark};

// What an event treats.
mod numbered;

pub use numbered::{Numbered, NumberedList};

// Verdicts.
mod verdicts;

pub use verdicts::{LogVerdict, verdict};

// What the log takes from pre-images.
mod pre_images;

pub use pre_images::PreImages;

// Laws of the nodes of a legal log.
mod node_laws;

pub use node_laws::{
    cubes_of_nodes_fit, depths_are_below_numbers, links_are_first_covers,
    links_lead_to_greater_numbers, live_nodes_cover_all, live_nodes_stay_apart,
    logs_keep_the_budget, nodes_come_from_origins, start_states_meet_the_bad_node,
};

// Laws of events.
mod event_laws;

pub use event_laws::{
    events_determine_logs, legal_events_make_legal_logs, lists_have_one_length, nodes_stay,
    stale_lists_are_mended,
};

// Laws of verdicts.
mod verdict_laws;

pub use verdict_laws::{live_nodes_cover_as_all_do, safe_logs_pass_the_test};

#[cfg(test)]
mod tests;
