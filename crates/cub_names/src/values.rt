//! What declarations without a fault declare: the sorts, the globals and the arrays of a protocol.

ghost use Rattle.std.specs.Prelude.{◌≡◌, ◌≤◌, ◌++◌, [], ◌∷◌, length, map, IfOk, OnOk, codes};
ghost use Rattle.std.specs.List.{flat_map};
ghost use Rattle.cub_proto.specs.Parts.{AreParts};
ghost use Rattle.cub_proto.specs.Signature.{signature};
ghost use Rattle.cub_proto.specs.StateOf.{signature_of};
ghost use Rattle.cub_names.specs.Words.{word_of};
ghost use Rattle.cub_names.specs.Declarations.{declared, declared_faults, declared_as, sort_of_node, bool_sort, words_of, types_of, globals_of, arrays_of};

use crate::lists::{Typed, arrays_of, globals_of};
use crate::types::{TypeNames, sort_at};
use crate::words::word;
use cub_base::{Items, Memory, Name};
use cub_parse::{DeclNode, Leaf};
use cub_proto::{Cons, Decl, Decls, NotProtocol, Protocol, Sort, SortDecl, SortDecls};
use std::alloc::{AllocError, Global};

fn cons_of(alloc: Global, text: &[u8], leaves: &[Leaf]) -> Result<Cons, AllocError>
    ensures { IfOk result (λ cons. cons ≡ words_of text.now leaves.now) }
{
    let mut cons = Items::with_room(alloc, leaves.len())?;
    for leaf in leaves {
        cons.push(Name::from_slice(alloc, word(text, leaf))?)?;
    }
    Ok(cons)
}

fn bool_sort(alloc: Global) -> Result<SortDecl, AllocError>
    ensures { IfOk result (λ sort. sort ≡ bool_sort) }
{
    let mut cons = Items::new(alloc);
    cons.push(Name::from_slice(alloc, b"False")?)?;
    cons.push(Name::from_slice(alloc, b"True")?)?;
    let name = Name::from_slice(alloc, b"bool")?;
    Ok(SortDecl { name, cons })
}

fn sort_of(alloc: Global, text: &[u8], name: &Leaf, leaves: &[Leaf]) -> Result<SortDecl, AllocError>
    ensures { IfOk result (λ sort. sort ≡ record { name = word_of text.now name.now; cons = words_of text.now leaves.now }) }
{
    let cons = cons_of(alloc, text, leaves)?;
    let name = Name::from_slice(alloc, word(text, name))?;
    Ok(SortDecl { name, cons })
}

fn sorts_of(alloc: Global, text: &[u8], decls: &[DeclNode]) -> Result<SortDecls, AllocError>
    ensures { IfOk result (λ sorts. sorts ≡ bool_sort ∷ flat_map (sort_of_node text.now) decls.now) }
{
    let mut sorts = Items::new(alloc);
    sorts.push(bool_sort(alloc)?)?;
    for decl in decls {
        match decl {
            DeclNode::Enumeration { name, cons } => {
                sorts.push(sort_of(alloc, text, name, cons.as_slice())?)?
            }
            DeclNode::Var { .. } | DeclNode::Array { .. } => {}
        }
    }
    Ok(sorts)
}

fn decls_of(
    alloc: Global,
    text: &[u8],
    types: &TypeNames,
    ds: &[Typed],
) -> Result<Decls, AllocError>
    requires { length types.now ≤ 256 }
    ensures { IfOk result (λ decls. decls ≡ map (declared_as text.now types.now) ds.now) }
{
    let mut decls = Items::with_room(alloc, ds.len())?;
    for typed in ds {
        let name = Name::from_slice(alloc, word(text, &typed.name))?;
        let sort = sort_at(text, types, &typed.sort).unwrap_or(Sort::Proc);
        decls.push(Decl { name, sort })?;
    }
    Ok(decls)
}

/// The protocol of declarations that make one.
fn protocol_of(
    alloc: Global,
    sorts: SortDecls,
    globals: Decls,
    arrays: Decls,
) -> Result<Protocol, Memory>
    requires { AreParts sorts globals arrays [] [] [] }
    ensures { IfOk result (λ base. signature_of base ≡ signature sorts globals arrays) }
{
    let start = Items::new(alloc);
    let goals = Items::new(alloc);
    let transitions = Items::new(alloc);
    match Protocol::try_new(alloc, sorts, globals, arrays, start, goals, transitions) {
        Ok(base) => Ok(base),
        Err(NotProtocol::Memory) => Err(Memory),
        Err(NotProtocol::Unfit) => unreachable!(),
    }
}

/// The protocol that the declarations declare, without a start formula, goals and transitions.
pub fn base_of(
    alloc: Global,
    text: &[u8],
    types: &TypeNames,
    decls: &[DeclNode],
) -> Result<Protocol, Memory>
    requires types { types.now ≡ words_of text.now (types_of decls.now) }
    requires none { declared_faults text.now decls.now ≡ [] }
    ensures { IfOk result (λ base. signature_of base ≡ declared text.now decls.now) }
{
    let sorts = sorts_of(alloc, text, decls)?;
    let named = globals_of(alloc, decls)?;
    let globals = decls_of(alloc, text, types, named.as_slice())?;
    let celled = arrays_of(alloc, decls)?;
    let arrays = decls_of(alloc, text, types, celled.as_slice())?;
    protocol_of(alloc, sorts, globals, arrays)
}
