//! Lists of cubes that are searched for covering by way of summaries.
#![tactic(auto)]

// Words turned round.
mod columns;

// Summaries of lists.
mod summaries;

// Single tests.
mod candidates;

// Parts that are passed over.
mod parts;

// Cubes among a few that cover a given one.
mod above;

// Cubes among a few that a given one covers.
mod below;

// Cubes that no longer change.
mod segment;

pub use segment::Segment;

// Segments with several owners.
mod shared;

// What is kept beside the cubes.
mod noting;

// The cubes of a list.
mod store;

// Groups in which covers were found of late.
mod recent;

// Cubes of a list that cover a given one.
mod list_above;

// Cubes of a list that a given one covers.
mod list_below;

// The list.
mod index;

pub use index::Index;

#[cfg(test)]
mod tests;
