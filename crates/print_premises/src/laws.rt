//! Laws of the protocols that texts read as, as contracts of calls that do nothing.

ghost use Rattle.print_premises.specs.Met.{NamesArePlain, BodiesAreNormal};

/// Every protocol that some text reads as declares plain names, and its start formula and goals have the literals of normal forms.
pub fn premises_are_met()
    ensures names { NamesArePlain }
    ensures bodies { BodiesAreNormal }
{}
