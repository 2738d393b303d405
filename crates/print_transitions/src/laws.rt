//! Laws of printed protocols, as contracts of calls that do nothing.

ghost use Rattle.print_transitions.specs.HeadsAreRead.{HeadsAreRead};

/// The names, the parameters and the guards of printed transitions are read as those of the transitions, without a fault.
pub fn printed_guards_are_read()
    ensures { HeadsAreRead }
{}
