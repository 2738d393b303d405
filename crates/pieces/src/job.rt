//! What a search for the pieces by one transition has fixed.

use crate::step::Step;
use cub_cube::Cube;
use cub_proto::{Protocol, Term, Transition};
use std::marker::Model;

/// A protocol, a cube, one of the transitions with its number, the terms of the cube, and the steps for both, lent.
#[derive(Drop)]
pub(crate) struct Job<'a> {
    pub(crate) protocol: &'a Protocol,
    pub(crate) cube: &'a Cube,
    pub(crate) number: u16,
    pub(crate) transition: &'a Transition,
    pub(crate) terms: &'a [Term],
    pub(crate) steps: &'a [Step],
}

impl<'a> Model for Job<'a> {
    ghost use Rattle.std.specs.Prelude.{map};
    ghost use Rattle.pieces.specs.Jobs.{Search, as_step};

    ghost Value = { Search };

    ghost view = { λ j. record { protocol = j.protocol.now; cube = j.cube.now; number = j.number; transition = j.transition.now; terms = j.terms.now; steps = map as_step j.steps.now } };
}
