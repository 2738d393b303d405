//! Laws of printed protocols, as contracts of calls that do nothing.

ghost use Rattle.print_formulas.specs.BodiesAreRead.{BodiesAreRead};

/// The start formula and the goals of a printed protocol are read as those of the protocol, without a fault.
pub fn printed_bodies_are_read()
    ensures { BodiesAreRead }
{}
