//! Laws of printed protocols, as contracts of calls that do nothing.

ghost use Rattle.print_updates.specs.TransitionsAreRead.{TransitionsAreRead};

/// Printed transitions are read as those of the protocol, in order, without a fault.
pub fn printed_transitions_are_read()
    ensures { TransitionsAreRead }
{}
