//! Laws of printed protocols, as contracts of calls that do nothing.

ghost use Rattle.print_names.specs.Declaring.{DeclarationsAreRead};

/// The declarations of a printed protocol declare what the protocol does, without a fault.
pub fn printed_declarations_are_read()
    ensures { DeclarationsAreRead }
{}
