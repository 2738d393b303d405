//! The numbers of the terms that integer literals mention: zero is node 0, and the terms follow in the order in which
//! they are first met. A conjunction mentions few integer terms, mostly less than ten, so they are found by looking
//! through them.

ghost use Rattle.std.specs.Prelude.{◌≡◌, ◌<◌, ◌≤◌, suc, List, length, All, Contains, vec_len, vec_capacity};
ghost use Rattle.cub_proto.specs.declared.literal.Term.{Term};
ghost use Rattle.diff_close.specs.Literals.{IsAmong, MentionsOnly};
ghost use Rattle.diff_close.specs.Names.{term_eq, side_eq, index_of, node_of};
ghost use Rattle.diff_close.specs.AreNames.{AreNames};

use cub_proto::{ISide, Lit, Term};

// Whether two terms are one.
fn is_same(a: &Term, b: &Term) -> bool
    ensures { result ≡ term_eq a.now b.now }
{
    *a == *b
}

// The place of the term, or the length where it does not stand there.
pub(crate) fn place(terms: &[Term], term: &Term) -> usize
    ensures { result ≡ index_of terms.now term.now }
{
    for (i, x) in terms.iter().enumerate() {
        if is_same(x, term) {
            return i;
        }
    }
    terms.len()
}

// The node of a side; one past all nodes for a term without a number.
pub(crate) fn node(terms: &[Term], side: &ISide) -> usize
    ensures { result ≡ node_of terms.now side.now }
{
    match side {
        ISide::Zero => 0,
        ISide::At(term) => place(terms, term) + 1,
    }
}

// Gives the term of the side a number, unless it has one. There has to be room for all terms that are mentioned.
fn name_side(names: &mut Vec<Term>, side: &ISide)
    requires room { (all : List Term) × (length all ≤ vec_capacity names.old) × AreNames all names.old.items × IsAmong all side.now }
    ensures kept { (all : List Term) → AreNames all names.old.items → IsAmong all side.now → AreNames all names.new.items }
    ensures named { IsAmong names.new.items side.now }
    ensures grows { (t : Term) → Contains names.old.items t → Contains names.new.items t }
    ensures capacity { vec_capacity names.old ≤ vec_capacity names.new }
{
    if let ISide::At(term) = side {
        if place(names, term) == names.len() {
            let _ = names.push(*term);
        }
    }
}

// Gives each term of the integer literals a number. There has to be room for all of them.
pub(crate) fn name_all(names: &mut Vec<Term>, lits: &[Lit])
    requires room { (all : List Term) × (length all ≤ vec_capacity names.old) × AreNames all names.old.items × All (MentionsOnly all) lits.now }
    ensures kept { (all : List Term) → AreNames all names.old.items → All (MentionsOnly all) lits.now → AreNames all names.new.items }
    ensures named { All (MentionsOnly names.new.items) lits.now }
    ensures grows { (t : Term) → Contains names.old.items t → Contains names.new.items t }
    ensures capacity { vec_capacity names.old ≤ vec_capacity names.new }
{
    for literal in lits {
        name_literal(names, literal);
    }
}

// The same for one literal.
fn name_literal(names: &mut Vec<Term>, literal: &Lit)
    requires room { (all : List Term) × (length all ≤ vec_capacity names.old) × AreNames all names.old.items × MentionsOnly all literal.now }
    ensures kept { (all : List Term) → AreNames all names.old.items → MentionsOnly all literal.now → AreNames all names.new.items }
    ensures named { MentionsOnly names.new.items literal.now }
    ensures grows { (t : Term) → Contains names.old.items t → Contains names.new.items t }
    ensures capacity { vec_capacity names.old ≤ vec_capacity names.new }
{
    if let Lit::Diff { a, b, .. } = literal {
        name_side(names, a);
        name_side(names, b);
    }
}

// Whether two sides are one.
pub(crate) fn is_same_side(a: &ISide, b: &ISide) -> bool
    ensures { result ≡ side_eq a.now b.now }
{
    *a == *b
}
