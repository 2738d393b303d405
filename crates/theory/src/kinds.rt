//! Kinds of literals. Each part of a conjunction is decided by its own closure, so a part without literals is passed over.

ghost use Rattle.std.specs.Prelude.{◌≡◌, ◌||◌};
ghost use Rattle.std.specs.List.{list_any};
ghost use Rattle.fin_dom.specs.Solution.{same_term};
ghost use Rattle.theory_laws.specs.Kinds.{is_finite_literal, is_process_literal, is_integer_literal, is_link, links};

use cub_proto::{Lit, Term};

fn is_finite_literal(lit: &Lit) -> bool
    ensures { result ≡ is_finite_literal lit.now }
{
    match lit {
        Lit::FinIn { .. } | Lit::FinEq { .. } | Lit::FinNe { .. } => true,
        Lit::ProcEq { .. } | Lit::ProcNe { .. } | Lit::Diff { .. } => false,
    }
}

fn is_process_literal(lit: &Lit) -> bool
    ensures { result ≡ is_process_literal lit.now }
{
    match lit {
        Lit::ProcEq { .. } | Lit::ProcNe { .. } => true,
        Lit::FinIn { .. } | Lit::FinEq { .. } | Lit::FinNe { .. } | Lit::Diff { .. } => false,
    }
}

fn is_integer_literal(lit: &Lit) -> bool
    ensures { result ≡ is_integer_literal lit.now }
{
    match lit {
        Lit::Diff { .. } => true,
        Lit::FinIn { .. }
        | Lit::FinEq { .. }
        | Lit::FinNe { .. }
        | Lit::ProcEq { .. }
        | Lit::ProcNe { .. } => false,
    }
}

// Whether the list has memberships, equalities or disequalities of finite terms.
pub(crate) fn has_finite(lits: &[Lit]) -> bool
    ensures { result ≡ list_any is_finite_literal lits.now }
{
    lits.iter().any(is_finite_literal)
}

// Whether it has equalities or disequalities of processes.
pub(crate) fn has_process(lits: &[Lit]) -> bool
    ensures { result ≡ list_any is_process_literal lits.now }
{
    lits.iter().any(is_process_literal)
}

// Whether it has differences of integers.
pub(crate) fn has_integer(lits: &[Lit]) -> bool
    ensures { result ≡ list_any is_integer_literal lits.now }
{
    lits.iter().any(is_integer_literal)
}

pub(crate) fn is_same_term(a: &Term, b: &Term) -> bool
    ensures { result ≡ same_term a.now b.now }
{
    *a == *b
}

// Whether the literal joins the term with another, or with itself.
fn links(term: &Term, lit: &Lit) -> bool
    ensures { result ≡ links term.now lit.now }
{
    match lit {
        Lit::FinEq { a, b } | Lit::FinNe { a, b } => is_same_term(a, term) || is_same_term(b, term),
        Lit::FinIn { .. } | Lit::ProcEq { .. } | Lit::ProcNe { .. } | Lit::Diff { .. } => false,
    }
}

// Whether some literal of the list does.
pub(crate) fn has_links(term: &Term, lits: &[Lit]) -> bool
    ensures { result ≡ list_any (links term.now) lits.now }
{
    lits.iter().any(|lit| links(term, lit))
}

fn is_link(lit: &Lit) -> bool
    ensures { result ≡ is_link lit.now }
{
    match lit {
        Lit::FinEq { .. } | Lit::FinNe { .. } => true,
        Lit::FinIn { .. } | Lit::ProcEq { .. } | Lit::ProcNe { .. } | Lit::Diff { .. } => false,
    }
}

// Whether the list has equalities or disequalities of finite terms.
pub(crate) fn has_link(lits: &[Lit]) -> bool
    ensures { result ≡ list_any is_link lits.now }
{
    lits.iter().any(is_link)
}
