//! Literals and normal forms. A difference is printed with constants that a text may have, whatever its bound.

ghost use Rattle.std.specs.Prelude.{◌≡◌, ◌++◌, OnOk, flat_map};
ghost use Rattle.cub_print.specs.Mark.{spelled};
ghost use Rattle.cub_print.specs.Terms.{mask_marks, difference_marks, literal_marks, at_most_marks, less_marks, integer_marks};
ghost use Rattle.cub_print.specs.Printed.{conjunction_marks, formula_marks, and_marks, or_marks};

use crate::terms::{put_constructor_of, put_integer, put_process, put_term};
use cub_base::Text;
use cub_proto::{ISide, Lit, Lits, Protocol, Term};
use std::alloc::AllocError;

/// The greatest constant of a text.
const GREATEST: i64 = 1_000_000_000;

fn put_mask(
    out: &mut Text,
    protocol: &Protocol,
    params: u8,
    term: Term,
    mask: u64,
) -> Result<(), AllocError>
    ensures { OnOk result (out.new ≡ out.old ++ spelled (mask_marks protocol.now params term mask)) }
{
    put_term(out, protocol, params, term)?;
    if mask.count_ones() == 1 {
        out.extend(b" = ")?;
        put_constructor_of(out, protocol, term, mask.trailing_zeros())
    } else {
        out.extend(b" <> ")?;
        put_constructor_of(out, protocol, term, mask.trailing_ones())
    }
}

fn put_at_most(
    out: &mut Text,
    protocol: &Protocol,
    params: u8,
    left: (ISide, i64),
    right: (ISide, i64),
) -> Result<(), AllocError>
    ensures { OnOk result (out.new ≡ out.old ++ spelled (at_most_marks (integer_marks protocol.now params left.0 left.1) (integer_marks protocol.now params right.0 right.1))) }
{
    put_integer(out, protocol, params, left.0, left.1)?;
    out.extend(b" <= ")?;
    put_integer(out, protocol, params, right.0, right.1)
}

fn put_less(
    out: &mut Text,
    protocol: &Protocol,
    params: u8,
    left: (ISide, i64),
    right: (ISide, i64),
) -> Result<(), AllocError>
    ensures { OnOk result (out.new ≡ out.old ++ spelled (less_marks (integer_marks protocol.now params left.0 left.1) (integer_marks protocol.now params right.0 right.1))) }
{
    put_integer(out, protocol, params, left.0, left.1)?;
    out.extend(b" < ")?;
    put_integer(out, protocol, params, right.0, right.1)
}

fn put_difference(
    out: &mut Text,
    protocol: &Protocol,
    params: u8,
    a: ISide,
    b: ISide,
    bound: i64,
) -> Result<(), AllocError>
    ensures { OnOk result (out.new ≡ out.old ++ spelled (difference_marks protocol.now params a b bound)) }
{
    if GREATEST < bound {
        put_at_most(out, protocol, params, (a, GREATEST - bound), (b, GREATEST))
    } else if bound < -GREATEST {
        put_less(
            out,
            protocol,
            params,
            (a, -GREATEST - 1 - bound),
            (b, -GREATEST),
        )
    } else {
        put_at_most(out, protocol, params, (a, 0), (b, bound))
    }
}

fn put_literal(out: &mut Text, protocol: &Protocol, params: u8, lit: &Lit) -> Result<(), AllocError>
    ensures { OnOk result (out.new ≡ out.old ++ spelled (literal_marks protocol.now params lit.now)) }
{
    match *lit {
        Lit::FinIn { term, mask } => put_mask(out, protocol, params, term, mask),
        Lit::FinEq { a, b } => {
            put_term(out, protocol, params, a)?;
            out.extend(b" = ")?;
            put_term(out, protocol, params, b)
        }
        Lit::FinNe { a, b } => {
            put_term(out, protocol, params, a)?;
            out.extend(b" <> ")?;
            put_term(out, protocol, params, b)
        }
        Lit::ProcEq { a, b } => {
            put_process(out, protocol, params, a)?;
            out.extend(b" = ")?;
            put_process(out, protocol, params, b)
        }
        Lit::ProcNe { a, b } => {
            put_process(out, protocol, params, a)?;
            out.extend(b" <> ")?;
            put_process(out, protocol, params, b)
        }
        Lit::Diff { a, b, bound } => put_difference(out, protocol, params, a, b, bound),
    }
}

fn put_next_literal(
    out: &mut Text,
    protocol: &Protocol,
    params: u8,
    lit: &Lit,
) -> Result<(), AllocError>
    ensures { OnOk result (out.new ≡ out.old ++ spelled (and_marks ++ literal_marks protocol.now params lit.now)) }
{
    out.extend(b" && ")?;
    put_literal(out, protocol, params, lit)
}

fn put_further_literals(
    out: &mut Text,
    protocol: &Protocol,
    params: u8,
    lits: &[Lit],
) -> Result<(), AllocError>
    ensures { OnOk result (out.new ≡ out.old ++ spelled (flat_map (λ l. and_marks ++ literal_marks protocol.now params l) lits.now)) }
{
    for lit in lits {
        put_next_literal(out, protocol, params, lit)?;
    }
    Ok(())
}

/// The literals joined by `&&`.
pub fn put_conjunction(
    out: &mut Text,
    protocol: &Protocol,
    params: u8,
    lits: &[Lit],
) -> Result<(), AllocError>
    ensures { OnOk result (out.new ≡ out.old ++ spelled (conjunction_marks protocol.now params lits.now)) }
{
    match lits {
        [] => out.extend(b"True"),
        [first, others @ ..] => {
            put_literal(out, protocol, params, first)?;
            put_further_literals(out, protocol, params, others)
        }
    }
}

fn put_next_conjunction(
    out: &mut Text,
    protocol: &Protocol,
    params: u8,
    lits: &Lits,
) -> Result<(), AllocError>
    ensures { OnOk result (out.new ≡ out.old ++ spelled (or_marks ++ conjunction_marks protocol.now params lits.now)) }
{
    out.extend(b" || ")?;
    put_conjunction(out, protocol, params, lits.as_slice())
}

fn put_further_conjunctions(
    out: &mut Text,
    protocol: &Protocol,
    params: u8,
    conjs: &[Lits],
) -> Result<(), AllocError>
    ensures { OnOk result (out.new ≡ out.old ++ spelled (flat_map (λ c. or_marks ++ conjunction_marks protocol.now params c) conjs.now)) }
{
    for lits in conjs {
        put_next_conjunction(out, protocol, params, lits)?;
    }
    Ok(())
}

/// The conjunctions joined by `||`.
pub fn put_formula(
    out: &mut Text,
    protocol: &Protocol,
    params: u8,
    conjs: &[Lits],
) -> Result<(), AllocError>
    ensures { OnOk result (out.new ≡ out.old ++ spelled (formula_marks protocol.now params conjs.now)) }
{
    match conjs {
        [] => out.extend(b"False"),
        [first, others @ ..] => {
            put_conjunction(out, protocol, params, first.as_slice())?;
            put_further_conjunctions(out, protocol, params, others)
        }
    }
}
