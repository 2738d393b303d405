//! Writing, to the end of a text.

ghost use Rattle.std.specs.Prelude.{◌≡◌, ◌+◌, ◌<◌, ◌≤◌, [], ◌∷◌, ◌++◌, length, map, flat_map, OnOk, IfOk, codes, decimal, if◌then◌else◌};
ghost use Rattle.std.specs.List.{join_by};
ghost use Rattle.cub_proto.specs.Truth.{has_bit};
ghost use Rattle.cub_proto.specs.StateOf.{signature_of};
ghost use Rattle.cub_proto.specs.Signature.{sort_of};
ghost use Rattle.text_lines.specs.Spelling.{name_of};
ghost use Rattle.cube_text.specs.Text.{term_slot, term_text, process_side_text, integer_side_text, names_of_sort, marked, among_text, lit_text, lits_text, cube_text};

use cub_base::{Memory, Name};
use cub_cube::Cube;
use cub_proto::{ISide, Lit, PSide, Protocol, Slot, Sort, Term, has_bit};
use itoa::Buffer;
use std::alloc::AllocError;
use text_lines::{push, push_integer, push_process, push_slot};

fn term_slot(term: Term) -> Slot
    ensures { result ≡ term_slot term }
{
    match term {
        Term::Global(global) => Slot::Global(global),
        Term::Cell(array, place) => Slot::Cell(array, u32::from(place)),
    }
}

fn push_term(out: &mut Vec<u8>, protocol: &Protocol, term: Term) -> Result<(), AllocError>
    ensures { OnOk result (out.new.items ≡ out.old.items ++ term_text protocol.now term) }
{
    push_slot(out, protocol, term_slot(term))
}

fn push_process_side(out: &mut Vec<u8>, protocol: &Protocol, side: PSide) -> Result<(), AllocError>
    ensures { OnOk result (out.new.items ≡ out.old.items ++ process_side_text protocol.now side) }
{
    match side {
        PSide::Global(global) => push_slot(out, protocol, Slot::Global(global)),
        PSide::Place(place) => push_process(out, u32::from(place)),
    }
}

fn push_integer_side(out: &mut Vec<u8>, protocol: &Protocol, side: ISide) -> Result<(), AllocError>
    ensures { OnOk result (out.new.items ≡ out.old.items ++ integer_side_text protocol.now side) }
{
    match side {
        ISide::Zero => push(out, b"0"),
        ISide::At(term) => push_term(out, protocol, term),
    }
}

/// The names of the constructors of a sort; at most 64.
pub fn names_of_sort(protocol: &Protocol, sort: Option<Sort>) -> &[Name]
    ensures names { result.now ≡ names_of_sort protocol.now sort }
    ensures few { length result.now ≤ 64 }
{
    let Some(Sort::Fin(number)) = sort else {
        return &[];
    };
    match protocol.sorts.get(number as usize) {
        Some(decl) => decl.cons.as_slice(),
        None => &[],
    }
}

// How many of the names the mask has.
fn count_marked(names: &[Name], mask: u64) -> usize
    requires { length names.now ≤ 64 }
    ensures { result ≡ length (marked mask 0 names.now) }
{
    let mut count = 0;
    for number in 0..names.len() {
        if has_bit(mask, number as u8) {
            count += 1;
        }
    }
    count
}

// A comma, where some name stands already, and the name.
fn push_next(out: &mut Vec<u8>, some: bool, name: &[u8]) -> Result<(), AllocError>
    ensures { OnOk result (out.new.items ≡ out.old.items ++ (if some then codes "," else []) ++ name.now) }
{
    if some {
        push(out, b",")?;
    }
    push(out, name)
}

fn push_marked(out: &mut Vec<u8>, names: &[Name], mask: u64) -> Result<(), AllocError>
    requires { length names.now ≤ 64 }
    ensures { OnOk result (out.new.items ≡ out.old.items ++ join_by (λ n. n) (codes ",") (marked mask 0 names.now)) }
{
    let mut some = false;
    for (number, name) in names.iter().enumerate() {
        if has_bit(mask, number as u8) {
            push_next(out, some, name.as_slice())?;
            some = true;
        }
    }
    Ok(())
}

fn push_among(out: &mut Vec<u8>, names: &[Name], mask: u64) -> Result<(), AllocError>
    requires { length names.now ≤ 64 }
    ensures { OnOk result (out.new.items ≡ out.old.items ++ among_text (marked mask 0 names.now)) }
{
    if count_marked(names, mask) == 1 {
        push(out, b" = ")?;
        push_marked(out, names, mask)
    } else {
        push(out, b" in {")?;
        push_marked(out, names, mask)?;
        push(out, b"}")
    }
}

fn push_member(
    out: &mut Vec<u8>,
    protocol: &Protocol,
    term: Term,
    mask: u64,
) -> Result<(), AllocError>
    ensures { OnOk result (out.new.items ≡ out.old.items ++ lit_text protocol.now (Lit.FinIn term mask)) }
{
    push_term(out, protocol, term)?;
    let names = names_of_sort(protocol, protocol.declared().sort_of(term));
    push_among(out, names, mask)
}

fn push_terms(
    out: &mut Vec<u8>,
    protocol: &Protocol,
    a: Term,
    sign: &[u8],
    b: Term,
) -> Result<(), AllocError>
    ensures { OnOk result (out.new.items ≡ out.old.items ++ (term_text protocol.now a ++ sign.now ++ term_text protocol.now b)) }
{
    push_term(out, protocol, a)?;
    push(out, sign)?;
    push_term(out, protocol, b)
}

fn push_processes(
    out: &mut Vec<u8>,
    protocol: &Protocol,
    a: PSide,
    sign: &[u8],
    b: PSide,
) -> Result<(), AllocError>
    ensures { OnOk result (out.new.items ≡ out.old.items ++ (process_side_text protocol.now a ++ sign.now ++ process_side_text protocol.now b)) }
{
    push_process_side(out, protocol, a)?;
    push(out, sign)?;
    push_process_side(out, protocol, b)
}

fn push_difference(
    out: &mut Vec<u8>,
    protocol: &Protocol,
    a: ISide,
    b: ISide,
    bound: i64,
) -> Result<(), AllocError>
    ensures { OnOk result (out.new.items ≡ out.old.items ++ lit_text protocol.now (Lit.Diff a b bound)) }
{
    push_integer_side(out, protocol, a)?;
    push(out, b" - ")?;
    push_integer_side(out, protocol, b)?;
    push(out, b" <= ")?;
    push_integer(out, bound)
}

fn push_lit(out: &mut Vec<u8>, protocol: &Protocol, lit: &Lit) -> Result<(), AllocError>
    ensures { OnOk result (out.new.items ≡ out.old.items ++ lit_text protocol.now lit.now) }
{
    match *lit {
        Lit::FinIn { term, mask } => push_member(out, protocol, term, mask),
        Lit::FinEq { a, b } => push_terms(out, protocol, a, b" = ", b),
        Lit::FinNe { a, b } => push_terms(out, protocol, a, b" <> ", b),
        Lit::ProcEq { a, b } => push_processes(out, protocol, a, b" = ", b),
        Lit::ProcNe { a, b } => push_processes(out, protocol, a, b" <> ", b),
        Lit::Diff { a, b, bound } => push_difference(out, protocol, a, b, bound),
    }
}

fn push_other_lits(out: &mut Vec<u8>, protocol: &Protocol, lits: &[Lit]) -> Result<(), AllocError>
    ensures { OnOk result (out.new.items ≡ out.old.items ++ flat_map (λ l. codes " && " ++ lit_text protocol.now l) lits.now) }
{
    for lit in lits {
        push(out, b" && ")?;
        push_lit(out, protocol, lit)?;
    }
    Ok(())
}

fn push_lits(out: &mut Vec<u8>, protocol: &Protocol, lits: &[Lit]) -> Result<(), AllocError>
    ensures { OnOk result (out.new.items ≡ out.old.items ++ lits_text protocol.now lits.now) }
{
    match lits {
        [] => push(out, b"true"),
        [first, rest @ ..] => {
            push_lit(out, protocol, first)?;
            push_other_lits(out, protocol, rest)
        }
    }
}

/// Appends the text of the cube, without the end of a line. What doesn't fit the protocol is written without its names.
pub fn push_cube(out: &mut Vec<u8>, protocol: &Protocol, cube: &Cube) -> Result<(), AllocError>
    ensures { OnOk result (out.new.items ≡ out.old.items ++ cube_text protocol.now cube.now) }
{
    push(out, b"cube ")?;
    push(out, Buffer::new().format(cube.width).as_bytes())?;
    push(out, b": ")?;
    push_lits(out, protocol, cube.lits.as_slice())
}

/// The text of the cube.
pub fn print_cube(protocol: &Protocol, cube: &Cube) -> Result<Vec<u8>, Memory>
    ensures { IfOk result (λ text. text.items ≡ cube_text protocol.now cube.now) }
{
    let mut out = Vec::new(protocol.sorts.allocator());
    push_cube(&mut out, protocol, cube)?;
    Ok(out)
}
