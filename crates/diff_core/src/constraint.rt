//! Difference constraints between numbered nodes, and lists of them.

ghost use Rattle.std.specs.Prelude.{◌≡◌, ◌<◌, List, length, IsTrue, false};
ghost use Rattle.diff_core.specs.declared.constraint.Constraint.{Constraint};
ghost use Rattle.diff_core.specs.Constraints.{constraint_at, IsInRange, AreInRange};

/// The greatest size of a bound, 2^48.
pub const BOUND: i64 = 281474976710656;

/// The constraint `left - right <= bound` between two nodes.
#[derive(Clone, Copy, Debug, PartialEq, Eq)]
pub struct Constraint {
    pub left: usize,
    pub right: usize,
    pub bound: i64,
}

/// A list of constraints that is made while it is read, so that nobody has to store it.
pub trait Constraints {
    /// The whole list.
    ghost list: { Self → List Constraint };

    fn count(&self) -> usize
        ensures { result ≡ length (list self.now) };

    fn get(&self, number: usize) -> Constraint
        requires { number < length (list self.now) }
        ensures { result ≡ constraint_at (list self.now) number };
}

/// A list that is stored.
#[derive(Drop)]
pub struct Stored<'a>(pub &'a [Constraint]);

impl<'a> Constraints for Stored<'a> {
    ghost list = { λ s. s.0.now };

    fn count(&self) -> usize {
        self.0.len()
    }

    fn get(&self, number: usize) -> Constraint {
        self.0[number]
    }
}

/// Whether each constraint is between the first nodes, with a bound of at most 2^48 in size.
pub fn is_in_range(constraints: &[Constraint], nodes: usize) -> bool
    ensures yes { IsTrue result → AreInRange nodes constraints.now }
    ensures no { result ≡ false → AreInRange nodes constraints.now → ⊥ }
{
    for con in constraints {
        if !con.is_in_range(nodes) {
            return false;
        }
    }
    true
}

impl Constraint {
    /// Whether it is between the first nodes, with a bound of at most 2^48 in size.
    pub fn is_in_range(&self, nodes: usize) -> bool
        ensures yes { IsTrue result → IsInRange nodes self.now }
        ensures no { result ≡ false → IsInRange nodes self.now → ⊥ }
    {
        if self.left >= nodes {
            return false;
        }
        if self.right >= nodes {
            return false;
        }
        if self.bound < -BOUND {
            return false;
        }
        self.bound <= BOUND
    }
}
