//! Covering of cubes, and lists of cubes that are searched for it.
#![tactic(auto)]

// What the small cube entails.
mod implied;

// Places that can stand somewhere by themselves.
mod standing;

// Injections of places.
mod injections;

// Covering.
mod covering;

pub use covering::{covers, covers_loaded, load_small};

// Marks of cubes.
mod marks;
mod ties;

pub use marks::Marks;

// Summaries of cubes.
mod summary;

pub use summary::{Summary, may_cover};

// Lists of cubes with searches.
mod finder;

pub use finder::{Finder, MadeFor};

// The plain list.
mod scan;

pub use scan::Scan;
