//! Names, numbers, terms and sides. A place is printed by its number, but for the one behind the parameters, which is `_0`.

ghost use Rattle.std.specs.Prelude.{◌≡◌, ◌+◌, ◌==◌, ◌++◌, OnOk, if◌then◌else◌};
ghost use Rattle.std.specs.Fmt.{decimal};
ghost use Rattle.cub_print.specs.Mark.{spelled, bytes_of};
ghost use Rattle.cub_print.specs.Printed.{sort_mark};
ghost use Rattle.cub_print.specs.Terms.{decl_name, constructor_in, constructor_name, place_name, term_marks, process_marks, constant_marks, added_marks, integer_marks};

use cub_base::Text;
use cub_proto::{Decl, ISide, PSide, Protocol, Sort, Term};
use itoa::Buffer;
use std::alloc::AllocError;

pub fn put_number(out: &mut Text, number: u64) -> Result<(), AllocError>
    ensures { OnOk result (out.new ≡ out.old ++ decimal number) }
{
    let mut buffer = Buffer::new();
    out.extend(buffer.format(number).as_bytes())
}

pub fn put_decl(out: &mut Text, decls: &[Decl], number: u16) -> Result<(), AllocError>
    ensures { OnOk result (out.new ≡ out.old ++ decl_name decls.now number) }
{
    match decls.get(number as usize) {
        Some(decl) => out.extend(decl.name.as_slice()),
        None => out.extend(&[]),
    }
}

pub fn put_constructor(
    out: &mut Text,
    protocol: &Protocol,
    sort: Sort,
    constructor: u32,
) -> Result<(), AllocError>
    ensures { OnOk result (out.new ≡ out.old ++ constructor_in protocol.now.sorts sort constructor) }
{
    match sort {
        Sort::Fin(number) => match protocol.sorts.get(number as usize) {
            Some(decl) => match decl.cons.get(constructor as usize) {
                Some(name) => out.extend(name.as_slice()),
                None => out.extend(&[]),
            },
            None => out.extend(&[]),
        },
        Sort::Proc | Sort::Int => out.extend(&[]),
    }
}

pub fn put_constructor_of(
    out: &mut Text,
    protocol: &Protocol,
    term: Term,
    constructor: u32,
) -> Result<(), AllocError>
    ensures { OnOk result (out.new ≡ out.old ++ constructor_name protocol.now term constructor) }
{
    match protocol.declared().sort_of(term) {
        Some(sort) => put_constructor(out, protocol, sort, constructor),
        None => out.extend(&[]),
    }
}

fn place_number(params: u8, place: u8) -> u64
    ensures { result ≡ (if place == params then 0 else place + 1) }
{
    if place == params {
        0
    } else {
        u64::from(place) + 1
    }
}

pub fn put_place(out: &mut Text, params: u8, place: u8) -> Result<(), AllocError>
    ensures { OnOk result (out.new ≡ out.old ++ place_name params place) }
{
    out.extend(b"_")?;
    put_number(out, place_number(params, place))
}

pub fn put_term(
    out: &mut Text,
    protocol: &Protocol,
    params: u8,
    term: Term,
) -> Result<(), AllocError>
    ensures { OnOk result (out.new ≡ out.old ++ spelled (term_marks protocol.now params term)) }
{
    match term {
        Term::Global(global) => put_decl(out, protocol.globals.as_slice(), global),
        Term::Cell(array, place) => {
            put_decl(out, protocol.arrays.as_slice(), array)?;
            out.extend(b"[")?;
            put_place(out, params, place)?;
            out.extend(b"]")
        }
    }
}

pub fn put_process(
    out: &mut Text,
    protocol: &Protocol,
    params: u8,
    side: PSide,
) -> Result<(), AllocError>
    ensures { OnOk result (out.new ≡ out.old ++ spelled (process_marks protocol.now params side)) }
{
    match side {
        PSide::Global(global) => put_decl(out, protocol.globals.as_slice(), global),
        PSide::Place(place) => put_place(out, params, place),
    }
}

/// `bool`, `int`, `proc`, or the name of a declared sort.
pub fn put_sort(out: &mut Text, protocol: &Protocol, sort: Sort) -> Result<(), AllocError>
    ensures { OnOk result (out.new ≡ out.old ++ bytes_of (sort_mark protocol.now sort)) }
{
    match sort {
        Sort::Fin(0) => out.extend(b"bool"),
        Sort::Fin(number) => match protocol.sorts.get(number as usize) {
            Some(decl) => out.extend(decl.name.as_slice()),
            None => out.extend(&[]),
        },
        Sort::Proc => out.extend(b"proc"),
        Sort::Int => out.extend(b"int"),
    }
}

fn put_constant(out: &mut Text, constant: i64) -> Result<(), AllocError>
    ensures { OnOk result (out.new ≡ out.old ++ spelled (constant_marks constant)) }
{
    if constant < 0 {
        out.extend(b"-")?;
    }
    put_number(out, constant.unsigned_abs())
}

fn put_added(out: &mut Text, constant: i64) -> Result<(), AllocError>
    ensures { OnOk result (out.new ≡ out.old ++ spelled (added_marks constant)) }
{
    if constant == 0 {
        return Ok(());
    }
    if constant < 0 {
        out.extend(b" - ")?;
    } else {
        out.extend(b" + ")?;
    }
    put_number(out, constant.unsigned_abs())
}

pub fn put_integer(
    out: &mut Text,
    protocol: &Protocol,
    params: u8,
    side: ISide,
    add: i64,
) -> Result<(), AllocError>
    ensures { OnOk result (out.new ≡ out.old ++ spelled (integer_marks protocol.now params side add)) }
{
    match side {
        ISide::Zero => put_constant(out, add),
        ISide::At(term) => {
            put_term(out, protocol, params, term)?;
            put_added(out, add)
        }
    }
}
