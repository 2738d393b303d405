//! Which places a literal mentions. A literal has two at most, so it is decided where its last place is put: by that place
//! alone, or by it and one that was put before.

ghost use Rattle.std.specs.Prelude.{◌≡◌, ◌+◌, ◌<◌};
ghost use Rattle.cub_proto.specs.Fits.{place_fits};
ghost use Rattle.cub_cube.specs.Rename.{is_within, process_side_within, integer_side_within};
ghost use Rattle.cert_check.specs.Stand.{term_stands, process_side_stands, integer_side_stands, stands, ends_at, is_alone, is_joint};

use cub_proto::{ISide, Lit, PSide, Term};

fn term_within(width: u8, term: Term) -> bool
    ensures { result ≡ place_fits width term }
{
    match term {
        Term::Global(_) => true,
        Term::Cell(_, place) => place < width,
    }
}

fn process_side_within(width: u8, side: PSide) -> bool
    ensures { result ≡ process_side_within width side }
{
    match side {
        PSide::Global(_) => true,
        PSide::Place(place) => place < width,
    }
}

fn integer_side_within(width: u8, side: ISide) -> bool
    ensures { result ≡ integer_side_within width side }
{
    match side {
        ISide::Zero => true,
        ISide::At(term) => term_within(width, term),
    }
}

/// Whether all places of the literal are below the width.
pub fn is_within(width: u8, lit: &Lit) -> bool
    ensures { result ≡ is_within width lit.now }
{
    match lit {
        Lit::FinIn { term, .. } => term_within(width, *term),
        Lit::FinEq { a, b } | Lit::FinNe { a, b } => {
            term_within(width, *a) && term_within(width, *b)
        }
        Lit::ProcEq { a, b } | Lit::ProcNe { a, b } => {
            process_side_within(width, *a) && process_side_within(width, *b)
        }
        Lit::Diff { a, b, .. } => integer_side_within(width, *a) && integer_side_within(width, *b),
    }
}

fn term_stands(k: u8, term: Term) -> bool
    ensures { result ≡ term_stands k term }
{
    match term {
        Term::Global(_) => true,
        Term::Cell(_, place) => place == k,
    }
}

fn process_side_stands(k: u8, side: PSide) -> bool
    ensures { result ≡ process_side_stands k side }
{
    match side {
        PSide::Global(_) => true,
        PSide::Place(place) => place == k,
    }
}

fn integer_side_stands(k: u8, side: ISide) -> bool
    ensures { result ≡ integer_side_stands k side }
{
    match side {
        ISide::Zero => true,
        ISide::At(term) => term_stands(k, term),
    }
}

// Whether no place but that one is mentioned.
fn stands(k: u8, lit: &Lit) -> bool
    ensures { result ≡ stands k lit.now }
{
    match lit {
        Lit::FinIn { term, .. } => term_stands(k, *term),
        Lit::FinEq { a, b } | Lit::FinNe { a, b } => term_stands(k, *a) && term_stands(k, *b),
        Lit::ProcEq { a, b } | Lit::ProcNe { a, b } => {
            process_side_stands(k, *a) && process_side_stands(k, *b)
        }
        Lit::Diff { a, b, .. } => integer_side_stands(k, *a) && integer_side_stands(k, *b),
    }
}

// Whether that place is the last one that is mentioned.
fn ends_at(k: u8, lit: &Lit) -> bool
    requires { k < 255 }
    ensures { result ≡ ends_at k lit.now }
{
    is_within(k + 1, lit) && !is_within(k, lit)
}

/// Whether that place is the only one.
pub fn is_alone(k: u8, lit: &Lit) -> bool
    requires { k < 255 }
    ensures { result ≡ is_alone k lit.now }
{
    ends_at(k, lit) && stands(k, lit)
}

/// Whether that place is the last of two.
pub fn is_joint(k: u8, lit: &Lit) -> bool
    requires { k < 255 }
    ensures { result ≡ is_joint k lit.now }
{
    ends_at(k, lit) && !stands(k, lit)
}
