//! Formulas, as a reader of texts builds them: joins of literals. Only the equation of two integers is no literal.

ghost use Rattle.std.specs.Prelude.{◌≡◌, ◌&&◌, nat_le, unsigned_abs};
ghost use Rattle.std.specs.List.{list_all};
ghost use Rattle.cub_proto.specs.Fits.{integer_side_fits, literal_fits, is_bounded};
ghost use Rattle.cub_dnf.specs.Fits.{fits, greatest_formula_bound};

use cub_base::{Boxed, Items};
use cub_proto::{Declared, ISide, Lit, integer_side_fits, is_bounded, literal_fits};

/// The greatest size of a bound in a formula.
pub const GREATEST_FORMULA_BOUND: u64 = (1 << 48) - 1;

/// A formula over literals. `IntEq` says `a - b = bound`. `All` of no parts is true, `Any` of none is false.
#[derive(Debug, Drop)]
pub enum Formula {
    Const(bool),
    One(Lit),
    IntEq { a: ISide, b: ISide, bound: i64 },
    Not(Boxed<Formula>),
    All(Formulas),
    Any(Formulas),
}

/// The parts of a formula.
pub type Formulas = Items<Formula>;

fn equation_fits(declared: &Declared, width: u16, a: ISide, b: ISide, bound: i64) -> bool
    ensures { result ≡ (integer_side_fits declared.now width a && integer_side_fits declared.now width b && nat_le (unsigned_abs bound) greatest_formula_bound) }
{
    integer_side_fits(declared, width, a)
        && integer_side_fits(declared, width, b)
        && bound.unsigned_abs() <= GREATEST_FORMULA_BOUND
}

fn one_fits(declared: &Declared, width: u16, lit: &Lit) -> bool
    ensures { result ≡ (literal_fits declared.now width lit.now && is_bounded greatest_formula_bound lit.now) }
{
    literal_fits(declared, width, lit) && is_bounded(GREATEST_FORMULA_BOUND, lit)
}

/// Whether each literal is of what is declared, over places below the width, and each bound is within the limit.
#[cycle(fits)]
pub fn fits(declared: &Declared, width: u16, formula: &Formula) -> bool
    ensures { result ≡ fits declared.now width formula.now }
{
    match formula {
        Formula::Const(_) => true,
        Formula::One(lit) => one_fits(declared, width, lit),
        Formula::IntEq { a, b, bound } => equation_fits(declared, width, *a, *b, *bound),
        Formula::Not(part) => fits(declared, width, part.get()),
        Formula::All(parts) => all_fit(declared, width, parts.as_slice()),
        Formula::Any(parts) => all_fit(declared, width, parts.as_slice()),
    }
}

#[cycle(fits)]
fn all_fit(declared: &Declared, width: u16, parts: &[Formula]) -> bool
    ensures { result ≡ list_all (fits declared.now width) parts.now }
{
    for part in parts {
        if !fits(declared, width, part) {
            return false;
        }
    }
    true
}
