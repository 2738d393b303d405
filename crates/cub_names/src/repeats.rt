//! Second declarations of a name, by a set of the names seen, so that many names take no time to speak of.

ghost use Rattle.std.specs.Prelude.{◌≡◌, ◌++◌, ℕ, List, not, true, bytes_eq, if◌then◌else◌, IfOk, OnOk, map, [], ◌∷◌};
ghost use Rattle.std.specs.List.{list_any};
ghost use Rattle.cub_names.specs.Seen.{has_name};
ghost use Rattle.cub_names.specs.Words.{word_of};
ghost use Rattle.cub_names.specs.Lists.{repeated};

use crate::words::word;
use cub_parse::Leaf;
use std::alloc::{AllocError, Global};
use std::collections::HashSet;

/// Adds the name to those seen, and tells whether it is new.
fn insert_name<'a>(seen: &mut HashSet<&'a [u8]>, name: &'a [u8]) -> Result<bool, AllocError>
    ensures added { IfOk result (λ new. new ≡ not (has_name seen.old name.now)) }
    ensures after { OnOk result ((q : List ℕ) → has_name seen.new q ≡ (if bytes_eq name.now q then true else has_name seen.old q)) }
{
    Ok(seen.insert(name)?)
}

fn seen_at_first<'a>(alloc: Global, taken: &[&'a [u8]]) -> Result<HashSet<&'a [u8]>, AllocError>
    ensures { IfOk result (λ seen. (q : List ℕ) → has_name seen q ≡ list_any (bytes_eq q) (map (λ name. name.now) taken.now)) }
{
    let mut seen: HashSet<&[u8]> = HashSet::new(alloc);
    for name in taken {
        insert_name(&mut seen, *name)?;
    }
    Ok(seen)
}

/// Notes the leaf where its word was seen, and its word as seen.
fn see<'a>(
    seen: &mut HashSet<&'a [u8]>,
    found: &mut Vec<Leaf>,
    text: &'a [u8],
    leaf: &Leaf,
) -> Result<(), AllocError>
    ensures found { OnOk result (found.new.items ≡ found.old.items ++ (if has_name seen.old (word_of text.now leaf.now) then leaf.now ∷ [] else [])) }
    ensures after { OnOk result ((q : List ℕ) → has_name seen.new q ≡ (if bytes_eq (word_of text.now leaf.now) q then true else has_name seen.old q)) }
{
    if insert_name(seen, word(text, leaf))? {
        return Ok(());
    }
    found.push(*leaf)?;
    Ok(())
}

/// The leaves whose word stands among those before, or is taken from the beginning.
pub fn repeated<'a>(
    alloc: Global,
    text: &'a [u8],
    taken: &[&'a [u8]],
    leaves: &[Leaf],
) -> Result<Vec<Leaf>, AllocError>
    ensures { IfOk result (λ found. found.items ≡ repeated text.now (map (λ name. name.now) taken.now) leaves.now) }
{
    let mut seen = seen_at_first(alloc, taken)?;
    let mut found = Vec::new(alloc);
    for leaf in leaves {
        see(&mut seen, &mut found, text, leaf)?;
    }
    Ok(found)
}
