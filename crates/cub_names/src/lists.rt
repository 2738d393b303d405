//! The declarations of a text, by what they declare: one pass each, so that each limit is a limit on a list.

ghost use Rattle.std.specs.Prelude.{◌≡◌, IfOk, OnOk, ◌++◌, map, drop, take};
ghost use Rattle.cub_names.specs.Lists.{type_name, global_of, array_of, value_names};
ghost use Rattle.cub_names.specs.Declarations.{types_of, globals_of, arrays_of, values_of, words_of, typed_name};

use crate::words::word;
use cub_base::Name;
use cub_parse::{DeclNode, Leaf};
use std::alloc::{AllocError, Global};

/// A global or an array: its name and the leaf of its sort.
#[derive(Clone, Copy, Debug)]
pub struct Typed {
    pub name: Leaf,
    pub sort: Leaf,
}

/// The names of the declared types.
pub fn types_of(alloc: Global, decls: &[DeclNode]) -> Result<Vec<Leaf>, AllocError>
    ensures { IfOk result (λ found. found.items ≡ types_of decls.now) }
{
    let mut found = Vec::new(alloc);
    for decl in decls {
        match decl {
            DeclNode::Enumeration { name, cons: _ } => found.push(*name)?,
            DeclNode::Var { .. } | DeclNode::Array { .. } => {}
        }
    }
    Ok(found)
}

/// The declared globals.
pub fn globals_of(alloc: Global, decls: &[DeclNode]) -> Result<Vec<Typed>, AllocError>
    ensures { IfOk result (λ found. found.items ≡ globals_of decls.now) }
{
    let mut found = Vec::new(alloc);
    for decl in decls {
        match decl {
            DeclNode::Var { name, sort } => found.push(Typed {
                name: *name,
                sort: *sort,
            })?,
            DeclNode::Enumeration { .. } | DeclNode::Array { .. } => {}
        }
    }
    Ok(found)
}

/// The declared arrays.
pub fn arrays_of(alloc: Global, decls: &[DeclNode]) -> Result<Vec<Typed>, AllocError>
    ensures { IfOk result (λ found. found.items ≡ arrays_of decls.now) }
{
    let mut found = Vec::new(alloc);
    for decl in decls {
        match decl {
            DeclNode::Array { name, sort } => found.push(Typed {
                name: *name,
                sort: *sort,
            })?,
            DeclNode::Enumeration { .. } | DeclNode::Var { .. } => {}
        }
    }
    Ok(found)
}

/// The names of constructors, globals and arrays, in the order of the text.
pub fn values_of(alloc: Global, decls: &[DeclNode]) -> Result<Vec<Leaf>, AllocError>
    ensures { IfOk result (λ found. found.items ≡ values_of decls.now) }
{
    let mut found = Vec::new(alloc);
    for decl in decls {
        match decl {
            DeclNode::Enumeration { name: _, cons } => found.extend_from_slice(cons.as_slice())?,
            DeclNode::Var { name, .. } | DeclNode::Array { name, .. } => found.push(*name)?,
        }
    }
    Ok(found)
}

/// The words of the leaves.
pub fn words_of(alloc: Global, text: &[u8], leaves: &[Leaf]) -> Result<Vec<Name>, AllocError>
    ensures { IfOk result (λ words. words.items ≡ words_of text.now leaves.now) }
{
    let mut words = Vec::with_capacity(alloc, leaves.len())?;
    for leaf in leaves {
        words.push(Name::from_slice(alloc, word(text, leaf))?)?;
    }
    Ok(words)
}

/// The leaves behind the first ones, so many.
pub fn behind(limit: usize, leaves: &[Leaf]) -> &[Leaf]
    ensures { result.now ≡ drop limit leaves.now }
{
    let (_, rest) = leaves.split_at(limit.min(leaves.len()));
    rest
}

/// The first leaves, so many.
pub fn front(limit: usize, leaves: &[Leaf]) -> &[Leaf]
    ensures { result.now ≡ take limit leaves.now }
{
    let (first, _) = leaves.split_at(limit.min(leaves.len()));
    first
}
