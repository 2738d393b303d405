//! What every crate of the workspace stands on: lists, renamings, names and the one value for want of memory.
#![tactic(auto)]

// Lists.
mod items;

pub use items::Items;

/// Bytes that name something.
pub type Name = Items<u8>;
/// Bytes of a text.
pub type Text = Items<u8>;

// Values of types that hold themselves.
mod boxed;

pub use boxed::Boxed;

// Up to twelve places of a cube, inline.
mod places;

pub use places::Places;

// What may be a name.
mod names;

pub use names::{is_declarable, is_name, is_name_byte, is_name_start, is_reserved};

// Want of memory.
mod memory;

pub use memory::Memory;
