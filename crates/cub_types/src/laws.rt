//! Laws of typing, each the contract of a function that does nothing.

ghost use Rattle.cub_names.specs.Checked.{FirstIsLeast};
ghost use Rattle.cub_types.specs.Laws.{OneProtocol, OneFault, NoFault, NothingLost, Complete, Decided};

/// The fault that is kept is among those that stand, and none of them is before it.
pub fn kept_fault_is_first()
    ensures { FirstIsLeast }
{}

/// A tree reads as one protocol at most: two of them have the same parts.
pub fn one_protocol()
    ensures { OneProtocol }
{}

/// A tree has one fault at most.
pub fn one_fault()
    ensures { OneFault }
{}

/// A tree that reads as a protocol has no fault.
pub fn no_fault()
    ensures { NoFault }
{}

/// Where no fault stands, no part of a tree is refused: there is no value only with a fault.
pub fn nothing_is_lost()
    ensures { NothingLost }
{}

/// A tree in which no fault stands reads as a protocol: typing tests all that a protocol asks for.
pub fn no_fault_is_a_protocol()
    ensures { Complete }
{}

/// Every tree reads as a protocol or has a fault.
pub fn a_protocol_or_a_fault()
    ensures { Decided }
{}
