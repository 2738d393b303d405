//! Terms by number: global `g` is `g`, the cell of array `a` at place `p` is `64 + 16 a + p`. This is the order of terms,
//! so a table by number needs no sorting and no search for a term.

ghost use Rattle.std.specs.Prelude.{◌≡◌};
ghost use Rattle.fin_dom.specs.Table.{number_of, is_numbered, has_entry};

use cub_proto::Term;

/// The number of a term.
pub fn number(term: Term) -> usize
    ensures { result ≡ number_of term }
{
    match term {
        Term::Global(global) => global as usize,
        Term::Cell(array, place) => 64 + 16 * array as usize + place as usize,
    }
}

fn is_numbered(term: Term) -> bool
    ensures { result ≡ is_numbered term }
{
    match term {
        Term::Global(global) => global < 64,
        Term::Cell(_, place) => place < 16,
    }
}

/// Whether a table of so many numbers has an entry for the term.
pub fn has_entry(terms: usize, term: Term) -> bool
    ensures { result ≡ has_entry terms term }
{
    is_numbered(term) && number(term) < terms
}
