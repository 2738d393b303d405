//! Writing, to the end of a text.

ghost use Rattle.std.specs.Prelude.{◌≡◌, ◌+◌, [], ◌∷◌, ◌++◌, flat_map, OnOk, decimal};
ghost use Rattle.std.specs.Fmt.{signed_decimal};
ghost use Rattle.std.specs.List.{join_by};
ghost use Rattle.cub_proto.specs.Signature.{declared_sort};
ghost use Rattle.text_lines.specs.Spelling.{process_text, processes_text, name_of, slot_text, constructor_of_sort, value_text, slot_sort, entry_text};

use cub_proto::{Decl, Protocol, Slot, Sort, Val};
use itoa::Buffer;
use std::alloc::AllocError;

/// Appends the bytes.
pub fn push(out: &mut Vec<u8>, bytes: &[u8]) -> Result<(), AllocError>
    ensures { OnOk result (out.new.items ≡ out.old.items ++ bytes.now) }
{
    out.extend_from_slice(bytes)
}

/// Appends the number, written from 1 where it is counted from 0.
pub fn push_number(out: &mut Vec<u8>, number: u32) -> Result<(), AllocError>
    ensures { OnOk result (out.new.items ≡ out.old.items ++ decimal (number + 1)) }
{
    push(out, Buffer::new().format(u64::from(number) + 1).as_bytes())
}

/// Appends the integer.
pub fn push_integer(out: &mut Vec<u8>, integer: i64) -> Result<(), AllocError>
    ensures { OnOk result (out.new.items ≡ out.old.items ++ signed_decimal integer) }
{
    push(out, Buffer::new().format(integer).as_bytes())
}

/// Appends the process, as `#1`.
pub fn push_process(out: &mut Vec<u8>, process: u32) -> Result<(), AllocError>
    ensures { OnOk result (out.new.items ≡ out.old.items ++ process_text process) }
{
    push(out, b"#")?;
    push_number(out, process)
}

fn push_others(out: &mut Vec<u8>, processes: &[u32]) -> Result<(), AllocError>
    ensures { OnOk result (out.new.items ≡ out.old.items ++ flat_map (λ i. (32 ∷ []) ++ process_text i) processes.now) }
{
    for process in processes {
        push(out, b" ")?;
        push_process(out, *process)?;
    }
    Ok(())
}

fn push_joined(out: &mut Vec<u8>, processes: &[u32]) -> Result<(), AllocError>
    ensures { OnOk result (out.new.items ≡ out.old.items ++ join_by process_text (32 ∷ []) processes.now) }
{
    match processes {
        [] => Ok(()),
        [first, rest @ ..] => {
            push_process(out, *first)?;
            push_others(out, rest)
        }
    }
}

/// Appends the processes, as `(#1 #2)`.
pub fn push_processes(out: &mut Vec<u8>, processes: &[u32]) -> Result<(), AllocError>
    ensures { OnOk result (out.new.items ≡ out.old.items ++ processes_text processes.now) }
{
    push(out, b"(")?;
    push_joined(out, processes)?;
    push(out, b")")
}

fn name_of(decls: &[Decl], number: u16) -> &[u8]
    ensures { result.now ≡ name_of decls.now number }
{
    match decls.get(number as usize) {
        Some(decl) => decl.name.as_slice(),
        None => b"",
    }
}

/// Appends the slot, as `X` or `A[#1]`.
pub fn push_slot(out: &mut Vec<u8>, protocol: &Protocol, slot: Slot) -> Result<(), AllocError>
    ensures { OnOk result (out.new.items ≡ out.old.items ++ slot_text protocol.now slot) }
{
    match slot {
        Slot::Global(global) => push(out, name_of(protocol.globals.as_slice(), global)),
        Slot::Cell(array, process) => {
            push(out, name_of(protocol.arrays.as_slice(), array))?;
            push(out, b"[")?;
            push_process(out, process)?;
            push(out, b"]")
        }
    }
}

fn constructor_name(protocol: &Protocol, sort: Option<Sort>, constructor: u8) -> &[u8]
    ensures { result.now ≡ constructor_of_sort protocol.now sort constructor }
{
    let Some(Sort::Fin(number)) = sort else {
        return b"";
    };
    let Some(decl) = protocol.sorts.get(number as usize) else {
        return b"";
    };
    match decl.cons.get(constructor as usize) {
        Some(name) => name.as_slice(),
        None => b"",
    }
}

/// Appends the value: a constructor of the sort, `#1` or an integer.
pub fn push_value(
    out: &mut Vec<u8>,
    protocol: &Protocol,
    sort: Option<Sort>,
    val: Val,
) -> Result<(), AllocError>
    ensures { OnOk result (out.new.items ≡ out.old.items ++ value_text protocol.now sort val) }
{
    match val {
        Val::Con(constructor) => push(out, constructor_name(protocol, sort, constructor)),
        Val::Proc(process) => push_process(out, process),
        Val::Int(integer) => push_integer(out, integer),
    }
}

fn declared_sort(decls: &[Decl], number: u16) -> Option<Sort>
    ensures { result ≡ declared_sort decls.now number }
{
    match decls.get(number as usize) {
        Some(decl) => Some(decl.sort),
        None => None,
    }
}

/// The sort that the values of the slot have, if it is there.
pub fn slot_sort(protocol: &Protocol, slot: Slot) -> Option<Sort>
    ensures { result ≡ slot_sort protocol.now slot }
{
    match slot {
        Slot::Global(global) => declared_sort(protocol.globals.as_slice(), global),
        Slot::Cell(array, _) => declared_sort(protocol.arrays.as_slice(), array),
    }
}

/// Appends the slot and its value, as `X = VALUE`.
pub fn push_entry(
    out: &mut Vec<u8>,
    protocol: &Protocol,
    slot: Slot,
    val: Val,
) -> Result<(), AllocError>
    ensures { OnOk result (out.new.items ≡ out.old.items ++ entry_text protocol.now slot val) }
{
    push_slot(out, protocol, slot)?;
    push(out, b" = ")?;
    push_value(out, protocol, slot_sort(protocol, slot), val)
}
