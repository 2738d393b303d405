//! Whether names are distinct, by a set of those seen, so that thousands of names take no time to speak of.

ghost use Rattle.std.specs.Prelude.{◌≡◌, ◌++◌, ℕ, List, map, flat_map, not, true, bytes_eq, if◌then◌else◌, IfOk, OnOk};
ghost use Rattle.cub_proto.specs.Seen.{has_name};
ghost use Rattle.cub_proto.specs.Fits.{are_distinct, value_names, names_are_distinct};

use crate::protocol::{Decl, SortDecl};
use crate::transition::Transition;
use std::alloc::{AllocError, Global};
use std::collections::HashSet;

/// Adds the name to those seen, and tells whether it is new.
fn insert_name<'a>(seen: &mut HashSet<&'a [u8]>, name: &'a [u8]) -> Result<bool, AllocError>
    ensures added { IfOk result (λ new. new ≡ not (has_name seen.old name.now)) }
    ensures after { OnOk result ((q : List ℕ) → has_name seen.new q ≡ (if bytes_eq name.now q then true else has_name seen.old q)) }
{
    Ok(seen.insert(name)?)
}

/// Whether no name stands twice.
pub fn are_distinct(alloc: Global, names: &[&[u8]]) -> Result<bool, AllocError>
    ensures { IfOk result (λ yes. yes ≡ are_distinct (map (λ name. name.now) names.now)) }
{
    let mut seen: HashSet<&[u8]> = HashSet::new(alloc);
    for name in names {
        if !insert_name(&mut seen, *name)? {
            return Ok(false);
        }
    }
    Ok(true)
}

fn sort_names<'a>(alloc: Global, sorts: &'a [SortDecl]) -> Result<Vec<&'a [u8]>, AllocError>
    ensures { IfOk result (λ names. map (λ name. name.now) names.items ≡ map (λ d. d.name) sorts.now) }
{
    let mut names = Vec::with_capacity(alloc, sorts.len())?;
    for sort in sorts {
        names.push(sort.name.as_slice())?;
    }
    Ok(names)
}

fn transition_names<'a>(
    alloc: Global,
    transitions: &'a [Transition],
) -> Result<Vec<&'a [u8]>, AllocError>
    ensures { IfOk result (λ names. map (λ name. name.now) names.items ≡ map (λ t. t.name) transitions.now) }
{
    let mut names = Vec::with_capacity(alloc, transitions.len())?;
    for transition in transitions {
        names.push(transition.name.as_slice())?;
    }
    Ok(names)
}

fn push_cons<'a>(names: &mut Vec<&'a [u8]>, sort: &'a SortDecl) -> Result<(), AllocError>
    ensures { OnOk result (map (λ name. name.now) names.new.items ≡ map (λ name. name.now) names.old.items ++ sort.now.cons) }
{
    for name in sort.cons.as_slice() {
        names.push(name.as_slice())?;
    }
    Ok(())
}

fn push_decls<'a>(names: &mut Vec<&'a [u8]>, decls: &'a [Decl]) -> Result<(), AllocError>
    ensures { OnOk result (map (λ name. name.now) names.new.items ≡ map (λ name. name.now) names.old.items ++ map (λ d. d.name) decls.now) }
{
    for decl in decls {
        names.push(decl.name.as_slice())?;
    }
    Ok(())
}

fn all_cons<'a>(alloc: Global, sorts: &'a [SortDecl]) -> Result<Vec<&'a [u8]>, AllocError>
    ensures { IfOk result (λ names. map (λ name. name.now) names.items ≡ flat_map (λ d. d.cons) sorts.now) }
{
    let mut names = Vec::new(alloc);
    for sort in sorts {
        push_cons(&mut names, sort)?;
    }
    Ok(names)
}

fn value_names<'a>(
    alloc: Global,
    sorts: &'a [SortDecl],
    globals: &'a [Decl],
    arrays: &'a [Decl],
) -> Result<Vec<&'a [u8]>, AllocError>
    ensures { IfOk result (λ names. map (λ name. name.now) names.items ≡ value_names sorts.now globals.now arrays.now) }
{
    let mut names = all_cons(alloc, sorts)?;
    push_decls(&mut names, globals)?;
    push_decls(&mut names, arrays)?;
    Ok(names)
}

/// Whether the names of each of the three spaces are distinct: types; constructors, globals and arrays; transitions.
pub fn names_are_distinct(
    alloc: Global,
    sorts: &[SortDecl],
    globals: &[Decl],
    arrays: &[Decl],
    transitions: &[Transition],
) -> Result<bool, AllocError>
    ensures { IfOk result (λ yes. yes ≡ names_are_distinct sorts.now globals.now arrays.now transitions.now) }
{
    let types = sort_names(alloc, sorts)?;
    let types_distinct = are_distinct(alloc, types.as_slice())?;
    let values = value_names(alloc, sorts, globals, arrays)?;
    let values_distinct = are_distinct(alloc, values.as_slice())?;
    let events = transition_names(alloc, transitions)?;
    let events_distinct = are_distinct(alloc, events.as_slice())?;
    Ok(types_distinct && values_distinct && events_distinct)
}
