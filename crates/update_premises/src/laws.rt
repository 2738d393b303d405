//! Laws of the protocols that texts read as, as contracts of calls that do nothing.

ghost use Rattle.update_premises.specs.Met.{LiteralsAreWritable, GuardsAreNormal, ConditionsAreNormal, TransitionNamesArePlain};

/// Every protocol that some text reads as can be written, has the literals of normal forms in its guards and in the conditions of
/// its updates, and has transitions with plain names.
pub fn update_premises_are_met()
    ensures writable { LiteralsAreWritable }
    ensures guards { GuardsAreNormal }
    ensures conditions { ConditionsAreNormal }
    ensures names { TransitionNamesArePlain }
{}
