//! Slots, values and processes from the words of a line.

ghost use Rattle.std.specs.Prelude.{◌≡◌, ◌++◌, IfOk};
ghost use Rattle.cub_proto.specs.declared.literal.Sort.{Sort};
ghost use Rattle.text_lines.specs.Spelling.{slot_sort};
ghost use Rattle.text_lines.specs.Loose.{processes_in, behind_words, constructor_in, value_in, opens_bracket, slot_in, slot_words, entry_value};

use crate::names::{constructor_number, decl_number};
use crate::numbers::{counted, integer};
use crate::spelling::slot_sort;
use crate::words::next_word;
use cub_base::Items;
use cub_proto::{Processes, Protocol, Slot, Sort, SortDecl, Val};
use std::alloc::{AllocError, Global};

/// So many processes, from the words in order.
pub fn processes_in(alloc: Global, count: usize, bytes: &[u8]) -> Result<Processes, AllocError>
    ensures { IfOk result (λ processes. processes ≡ processes_in count bytes.now) }
{
    let mut processes = Items::new(alloc);
    let mut rest = bytes;
    for _ in 0..count {
        let (word, behind) = next_word(rest);
        processes.push(counted(word))?;
        rest = behind;
    }
    Ok(processes)
}

/// The bytes behind so many words.
pub fn behind_words(count: usize, bytes: &[u8]) -> &[u8]
    ensures { result.now ≡ behind_words count bytes.now }
{
    let mut rest = bytes;
    for _ in 0..count {
        let (_, behind) = next_word(rest);
        rest = behind;
    }
    rest
}

/// The value of the sort that the word names; some value where it names none.
pub fn value_in(protocol: &Protocol, sort: Option<Sort>, name: &[u8]) -> Val
    ensures { result ≡ value_in protocol.now sort name.now }
{
    match sort {
        None => Val::Con(0),
        Some(Sort::Fin(number)) => match protocol.sorts.get(number as usize) {
            None => Val::Con(0),
            Some(decl) => {
                Val::Con(constructor_number(decl.cons.as_slice(), name).min(255) as u8)
            }
        },
        Some(Sort::Proc) => Val::Proc(counted(name)),
        Some(Sort::Int) => Val::Int(integer(name).unwrap_or(0)),
    }
}

fn opens_bracket(bytes: &[u8]) -> bool
    ensures { result ≡ opens_bracket bytes.now }
{
    match bytes {
        [] => false,
        [first, ..] => *first == b'[',
    }
}

/// The slot that is written at the front; some slot where none is.
pub fn slot_in(protocol: &Protocol, bytes: &[u8]) -> Slot
    ensures { result ≡ slot_in protocol.now bytes.now }
{
    let (name, rest) = next_word(bytes);
    if opens_bracket(rest) {
        let (process, _) = next_word(rest);
        Slot::Cell(
            decl_number(protocol.arrays.as_slice(), name),
            counted(process),
        )
    } else {
        Slot::Global(decl_number(protocol.globals.as_slice(), name))
    }
}

/// How many words a slot takes.
pub fn slot_words(slot: Slot) -> usize
    ensures { result ≡ slot_words slot }
{
    match slot {
        Slot::Global(_) => 1,
        Slot::Cell(_, _) => 2,
    }
}

/// The value behind the slot and its `=`; some value where none is written.
pub fn entry_value(protocol: &Protocol, slot: Slot, bytes: &[u8]) -> Val
    ensures { result ≡ entry_value protocol.now slot bytes.now }
{
    let (word, _) = next_word(behind_words(slot_words(slot) + 1, bytes));
    value_in(protocol, slot_sort(protocol, slot), word)
}
