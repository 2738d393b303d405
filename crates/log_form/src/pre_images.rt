//! What the log takes from pre-images: which list of cubes is that of the pieces of a cube, and three facts of it.
//! Whoever computes pieces gives the relation and proves the facts; the log needs nothing else of them. The remaining
//! notions (covering, start states, added cubes) are those of cubes and states, so they are no part of this.

/// Which lists are the pieces of a cube, in order.
pub trait PreImages {
    ghost use Rattle.log_form.specs.Pieces.{PieceRelation, AreOne, ArePossible, StayFit};

    ghost pieces: { PieceRelation };

    ghost one_list: { AreOne pieces };

    ghost possible: { ArePossible pieces };

    ghost fit: { StayFit pieces };
}
