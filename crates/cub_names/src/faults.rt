//! The faults of the declarations, a list of leaves for each test. Types are looked at whole before the rest, since a name
//! may be used before its declaration.

ghost use Rattle.std.specs.Prelude.{◌≡◌, ◌++◌, IfOk, OnOk, filter, not, map, drop, is_none, if◌then◌else◌, [], ◌∷◌, codes};
ghost use Rattle.std.specs.List.{flat_map};
ghost use Rattle.cub_names.specs.Checked.{first_of_all};
ghost use Rattle.cub_names.specs.Words.{word_of, may_declare};
ghost use Rattle.cub_names.specs.Declarations.{at_each, forbidden, uncounted, unknown_sorts, process_sorts, integer_names, typed_name, type_faults, value_faults, typed_faults, global_faults, array_faults, faults_among};

use crate::fault::{Fault, TypeKind};
use crate::first::tell_each;
use crate::lists::{Typed, arrays_of, behind, globals_of, types_of, values_of};
use crate::repeats::repeated;
use crate::types::{TypeNames, is_int, is_proc, is_unknown};
use crate::words::{may_declare, word};
use cub_parse::{DeclNode, Leaf};
use std::alloc::{AllocError, Global};

/// The leaves whose word no declaration may introduce.
pub fn forbidden(alloc: Global, text: &[u8], leaves: &[Leaf]) -> Result<Vec<Leaf>, AllocError>
    ensures { IfOk result (λ found. found.items ≡ forbidden text.now leaves.now) }
{
    let mut found = Vec::new(alloc);
    for leaf in leaves {
        if !may_declare(word(text, leaf)) {
            found.push(*leaf)?;
        }
    }
    Ok(found)
}

fn uncounted(alloc: Global, decls: &[DeclNode]) -> Result<Vec<Leaf>, AllocError>
    ensures { IfOk result (λ found. found.items ≡ flat_map uncounted decls.now) }
{
    let mut found = Vec::new(alloc);
    for decl in decls {
        match decl {
            DeclNode::Enumeration { name, cons } => {
                if cons.is_empty() {
                    found.push(*name)?;
                } else {
                    found.extend_from_slice(behind(64, cons.as_slice()))?;
                }
            }
            DeclNode::Var { .. } | DeclNode::Array { .. } => {}
        }
    }
    Ok(found)
}

fn unknown_sorts(
    alloc: Global,
    text: &[u8],
    types: &TypeNames,
    ds: &[Typed],
) -> Result<Vec<Leaf>, AllocError>
    ensures { IfOk result (λ found. found.items ≡ unknown_sorts text.now types.now ds.now) }
{
    let mut found = Vec::new(alloc);
    for typed in ds {
        if is_unknown(text, types, &typed.sort) {
            found.push(typed.sort)?;
        }
    }
    Ok(found)
}

fn process_sorts(
    alloc: Global,
    text: &[u8],
    types: &TypeNames,
    ds: &[Typed],
) -> Result<Vec<Leaf>, AllocError>
    ensures { IfOk result (λ found. found.items ≡ process_sorts text.now types.now ds.now) }
{
    let mut found = Vec::new(alloc);
    for typed in ds {
        if is_proc(text, types, &typed.sort) {
            found.push(typed.sort)?;
        }
    }
    Ok(found)
}

fn integer_names(
    alloc: Global,
    text: &[u8],
    types: &TypeNames,
    ds: &[Typed],
) -> Result<Vec<Leaf>, AllocError>
    ensures { IfOk result (λ found. found.items ≡ integer_names text.now types.now ds.now) }
{
    let mut found = Vec::new(alloc);
    for typed in ds {
        if is_int(text, types, &typed.sort) {
            found.push(typed.name)?;
        }
    }
    Ok(found)
}

fn typed_names(alloc: Global, limit: usize, ds: &[Typed]) -> Result<Vec<Leaf>, AllocError>
    ensures { IfOk result (λ found. found.items ≡ map typed_name (drop limit ds.now)) }
{
    let (_, rest) = ds.split_at(limit.min(ds.len()));
    let mut found = Vec::new(alloc);
    for typed in rest {
        found.push(typed.name)?;
    }
    Ok(found)
}

fn type_faults(
    alloc: Global,
    text: &[u8],
    decls: &[DeclNode],
    first: &mut Option<Fault>,
) -> Result<(), AllocError>
    ensures { OnOk result (first.new ≡ first_of_all first.old (type_faults text.now decls.now)) }
{
    let types = types_of(alloc, decls)?;
    let names = types.as_slice();
    tell_each(
        first,
        TypeKind::T18,
        forbidden(alloc, text, names)?.as_slice(),
    );
    tell_each(first, TypeKind::T16, behind(256, names));
    let taken: [&[u8]; 1] = [b"bool"];
    tell_each(
        first,
        TypeKind::T02,
        repeated(alloc, text, &taken, names)?.as_slice(),
    );
    tell_each(first, TypeKind::T16, uncounted(alloc, decls)?.as_slice());
    Ok(())
}

fn value_faults(
    alloc: Global,
    text: &[u8],
    decls: &[DeclNode],
    first: &mut Option<Fault>,
) -> Result<(), AllocError>
    ensures { OnOk result (first.new ≡ first_of_all first.old (value_faults text.now decls.now)) }
{
    let values = values_of(alloc, decls)?;
    let names = values.as_slice();
    tell_each(
        first,
        TypeKind::T18,
        forbidden(alloc, text, names)?.as_slice(),
    );
    let taken: [&[u8]; 2] = [b"False", b"True"];
    tell_each(
        first,
        TypeKind::T02,
        repeated(alloc, text, &taken, names)?.as_slice(),
    );
    Ok(())
}

fn typed_faults(
    alloc: Global,
    text: &[u8],
    types: &TypeNames,
    limit: usize,
    integers: usize,
    ds: &[Typed],
    first: &mut Option<Fault>,
) -> Result<(), AllocError>
    ensures { OnOk result (first.new ≡ first_of_all first.old (typed_faults text.now types.now limit integers ds.now)) }
{
    tell_each(
        first,
        TypeKind::T01,
        unknown_sorts(alloc, text, types, ds)?.as_slice(),
    );
    tell_each(
        first,
        TypeKind::T16,
        typed_names(alloc, limit, ds)?.as_slice(),
    );
    let names = integer_names(alloc, text, types, ds)?;
    tell_each(first, TypeKind::T16, behind(integers, names.as_slice()));
    Ok(())
}

fn global_faults(
    alloc: Global,
    text: &[u8],
    decls: &[DeclNode],
    types: &TypeNames,
    first: &mut Option<Fault>,
) -> Result<(), AllocError>
    ensures { OnOk result (first.new ≡ first_of_all first.old (global_faults text.now types.now decls.now)) }
{
    let globals = globals_of(alloc, decls)?;
    typed_faults(alloc, text, types, 64, 16, globals.as_slice(), first)
}

fn array_faults(
    alloc: Global,
    text: &[u8],
    decls: &[DeclNode],
    types: &TypeNames,
    first: &mut Option<Fault>,
) -> Result<(), AllocError>
    ensures { OnOk result (first.new ≡ first_of_all first.old (array_faults text.now types.now decls.now)) }
{
    let arrays = arrays_of(alloc, decls)?;
    typed_faults(alloc, text, types, 32, 8, arrays.as_slice(), first)?;
    let processes = process_sorts(alloc, text, types, arrays.as_slice())?;
    tell_each(first, TypeKind::T12, processes.as_slice());
    Ok(())
}

/// Tells the faults of the declarations.
pub fn declared_faults(
    alloc: Global,
    text: &[u8],
    decls: &[DeclNode],
    types: &TypeNames,
    first: &mut Option<Fault>,
) -> Result<(), AllocError>
    ensures { OnOk result (first.new ≡ first_of_all first.old (faults_among text.now types.now decls.now)) }
{
    type_faults(alloc, text, decls, first)?;
    value_faults(alloc, text, decls, first)?;
    global_faults(alloc, text, decls, types, first)?;
    array_faults(alloc, text, decls, types, first)
}
