//! The cubes of the live nodes of a log. Where the log has the verdict SAFE they are a certificate: a list of cubes from which
//! the safety of the protocol can be checked without the search.

ghost use Rattle.std.specs.Prelude.{◌≡◌, ◌≤◌, ◌++◌, ◌∷◌, [], Some, All, length, IfOk, OnOk};
ghost use Rattle.cub_cube.specs.Meaning.{IsConsistent};
ghost use Rattle.cub_cube.specs.Inductive.{IsInductive};
ghost use Rattle.piece_laws.specs.Test.{PassesTest};
ghost use Rattle.log_form.specs.declared.verdicts.LogVerdict.{LogVerdict};
ghost use Rattle.log_form.specs.Pieces.{IsFit, widest, greatest_expanded};
ghost use Rattle.log_form.specs.Log.{live_cubes};
ghost use Rattle.log_form.specs.Verdict.{verdict_of};
ghost use Rattle.core_laws.specs.Apart.{AreApart};

use cub_base::{Items, Memory};
use cub_cube::Cubes;
use cube_core::{Log, Node};
use predecessors::Predecessors;
use std::alloc::Global;

// Appends the cube of the node, if it is live.
fn push_live(cubes: &mut Cubes, node: &Node) -> Result<(), Memory>
    ensures { OnOk result (cubes.new ≡ cubes.old ++ live_cubes (node.now ∷ [])) }
{
    if node.fate.is_live() {
        let cube = node.cube.copy()?;
        if let Err(_failed) = cubes.push(cube) {
            return Err(Memory);
        }
    }
    Ok(())
}

fn live_copies(alloc: Global, nodes: &[Node]) -> Result<Cubes, Memory>
    ensures { IfOk result (λ cubes. cubes ≡ live_cubes nodes.now) }
{
    let mut cubes = Items::new(alloc);
    for node in nodes {
        push_live(&mut cubes, node)?;
    }
    Ok(cubes)
}

/// The cubes of the live nodes, in the order of their numbers.
pub fn cubes_of(log: &Log<Predecessors>) -> Result<Cubes, Memory>
    ensures value { IfOk result (λ cubes. cubes ≡ live_cubes log.now.nodes) }
    ensures fit { IfOk result (All (IsFit log.now.protocol widest greatest_expanded)) }
    ensures possible { IfOk result (All (λ c. IsConsistent log.now.protocol c.width c.lits)) }
    ensures apart { IfOk result (AreApart log.now.protocol) }
    ensures few { IfOk result (λ cubes. length cubes ≤ log.now.budget.cubes) }
    ensures narrow { verdict_of log.now ≡ Some LogVerdict.Safe → IfOk result (All (λ c. c.width ≤ log.now.budget.width)) }
    ensures passes { verdict_of log.now ≡ Some LogVerdict.Safe → IfOk result (PassesTest log.now.protocol) }
    ensures inductive { verdict_of log.now ≡ Some LogVerdict.Safe → IfOk result (IsInductive log.now.protocol) }
{
    let nodes = log.nodes();
    let cubes = live_copies(log.protocol().sorts.allocator(), nodes)?;
    Ok(cubes)
}
