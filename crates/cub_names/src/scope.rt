//! Process variables. A scope has a handful of them, so that it is looked through from the front.

ghost use Rattle.std.specs.Prelude.{◌≡◌, ◌+◌, ◌<◌, ◌≤◌, ◌||◌, [], ◌∷◌, ◌++◌, length, map, take, drop, bytes_eq, IfOk, OnOk, IfSome, IsTrue, if◌then◌else◌};
ghost use Rattle.std.specs.List.{list_any};
ghost use Rattle.cub_names.specs.Checked.{first_of_all};
ghost use Rattle.cub_names.specs.Words.{word_of};
ghost use Rattle.cub_names.specs.Scope.{place_of, is_value, taken_from, variable_faults, locals, locals_from, scope_fits};

use crate::fault::{Fault, TypeKind};
use crate::first::tell_each;
use crate::lists::{behind, front};
use crate::names::Names;
use crate::words::word;
use cub_base::Items;
use cub_parse::Leaf;
use std::alloc::{AllocError, Global};

/// A process variable and its place.
#[derive(Clone, Copy, Debug)]
pub struct Local {
    pub name: Leaf,
    pub place: u8,
}

/// The process variables that are known, the first one of a name before the others.
pub type Scope = Items<Local>;

/// The place of the variable with that name.
pub fn place_of(text: &[u8], scope: &[Local], name: &[u8]) -> Option<u8>
    ensures { result ≡ place_of text.now scope.now name.now }
{
    for local in scope {
        if word(text, &local.name) == name {
            return Some(local.place);
        }
    }
    None
}

/// Whether the leaf names a constructor, a global or an array.
pub fn is_value(names: &Names, leaf: &Leaf) -> bool
    ensures { result ≡ is_value names.now leaf.now }
{
    names.stands_for(names.word(leaf)).is_some()
}

fn has_word(text: &[u8], leaves: &[Leaf], word_looked_for: &[u8]) -> bool
    ensures { result ≡ list_any (bytes_eq word_looked_for.now) (map (word_of text.now) leaves.now) }
{
    for leaf in leaves {
        if word_looked_for == word(text, leaf) {
            return true;
        }
    }
    false
}

fn is_taken(names: &Names, before: &[Leaf], leaf: &Leaf) -> bool
    ensures { result ≡ (is_value names.now leaf.now || list_any (bytes_eq (word_of names.now.text leaf.now)) (map (word_of names.now.text) before.now)) }
{
    is_value(names, leaf) || has_word(names.text(), before, names.word(leaf))
}

fn note_taken(
    names: &Names,
    found: &mut Vec<Leaf>,
    before: &[Leaf],
    leaf: &Leaf,
) -> Result<(), AllocError>
    ensures { OnOk result (found.new.items ≡ found.old.items ++ (if is_value names.now leaf.now || list_any (bytes_eq (word_of names.now.text leaf.now)) (map (word_of names.now.text) before.now) then leaf.now ∷ [] else [])) }
{
    if is_taken(names, before, leaf) {
        found.push(*leaf)?;
    }
    Ok(())
}

fn taken(alloc: Global, names: &Names, leaves: &[Leaf]) -> Result<Vec<Leaf>, AllocError>
    ensures { IfOk result (λ found. found.items ≡ taken_from names.now [] leaves.now) }
{
    let mut found = Vec::new(alloc);
    for at in 0..leaves.len() {
        let (before, _) = leaves.split_at(at);
        note_taken(names, &mut found, before, &leaves[at])?;
    }
    Ok(found)
}

/// Tells the faults of the variables that a declaration introduces.
pub fn variable_faults(
    alloc: Global,
    names: &Names,
    limit: u8,
    leaves: &[Leaf],
    first: &mut Option<Fault>,
) -> Result<(), AllocError>
    ensures { OnOk result (first.new ≡ first_of_all first.old (variable_faults names.now limit leaves.now)) }
{
    let limit = usize::from(limit);
    let few = taken(alloc, names, front(limit + 1, leaves))?;
    tell_each(first, TypeKind::T02, few.as_slice());
    tell_each(first, TypeKind::T16, front(1, behind(limit, leaves)));
    Ok(())
}

/// The variables that a declaration introduces.
pub fn locals(alloc: Global, limit: u8, leaves: &[Leaf]) -> Result<Scope, AllocError>
    ensures value { IfOk result (λ scope. scope ≡ locals limit leaves.now) }
    ensures fits { IfOk result (λ scope. IsTrue (scope_fits (length (take limit leaves.now)) scope)) }
{
    let few = front(usize::from(limit), leaves);
    let mut scope = Items::with_room(alloc, few.len())?;
    for (place, leaf) in few.iter().enumerate() {
        scope.push(Local {
            name: *leaf,
            place: place as u8,
        })?;
    }
    Ok(scope)
}
