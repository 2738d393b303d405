//! The literals of two lists as constraints over nodes, made while they are read. A literal that is no integer literal
//! stands for one that says nothing, so that the numbers are those of the literals.

ghost use Rattle.std.specs.Prelude.{◌≡◌, ◌++◌, map};
ghost use Rattle.diff_close.specs.Names.{constraint_of};

use crate::names::node;
use cub_proto::{Lit, Term};
use diff_core::{Constraint, Constraints};

// The constraint of a literal.
fn constraint(terms: &[Term], literal: &Lit) -> Constraint
    ensures { result ≡ constraint_of terms.now literal.now }
{
    match literal {
        Lit::Diff { a, b, bound } => Constraint {
            left: node(terms, a),
            right: node(terms, b),
            bound: *bound,
        },
        Lit::FinIn { .. }
        | Lit::FinEq { .. }
        | Lit::FinNe { .. }
        | Lit::ProcEq { .. }
        | Lit::ProcNe { .. } => Constraint {
            left: 0,
            right: 0,
            bound: 0,
        },
    }
}

// The literals of two lists, over numbered terms.
#[derive(Drop)]
pub(crate) struct Literals<'a> {
    pub terms: &'a [Term],
    pub lits: &'a [Lit],
    pub more: &'a [Lit],
}

impl<'a> Constraints for Literals<'a> {
    ghost list = { λ s. map (constraint_of s.terms.now) (s.lits.now ++ s.more.now) };

    fn count(&self) -> usize {
        self.lits.len() + self.more.len()
    }

    fn get(&self, number: usize) -> Constraint {
        if number < self.lits.len() {
            return constraint(self.terms, &self.lits[number]);
        }
        constraint(self.terms, &self.more[number - self.lits.len()])
    }
}
