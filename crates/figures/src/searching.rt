//! The search on the sample protocol: the pieces of one cube, and whole searches over the plain list and over the index.

ghost use Rattle.std.specs.Prelude.{◌≤◌, ◌≡◌, []};
ghost use Rattle.theory.specs.Made.{IsFor};
ghost use Rattle.log_form.specs.Log.{cubes_of};

use crate::failed::Failed;
use cover_index::Index;
use cub_cube::Cube;
use cub_proto::{Budget, Lit, Protocol, Term};
use cube_core::{Log, Mark};
use pieces::{is_expandable, pieces};
use predecessors::Predecessors;
use sample_gen::sample;
use std::alloc::Global;
use subsume::{Finder, Scan};
use theory::Scratch;

fn is_on(place: u8, level: u8) -> Lit {
    Lit::FinIn {
        term: Term::Cell(0, place),
        mask: 1u64 << (level % 64),
    }
}

/// Lists the pieces of the cube with one process on the highest level and one on the level in the middle; counts them.
pub fn list_pieces(alloc: Global, levels: u8, times: u32) -> Result<u64, Failed>
    requires low { 2 ≤ levels }
    requires high { levels ≤ 63 }
{
    let protocol = sample(alloc, levels)?;
    let lits = [is_on(0, levels), is_on(1, levels / 2)];
    let cube = Cube::of(alloc, &protocol, 2, &lits)?;
    if !is_expandable(&protocol, &cube) {
        return Err(Failed::Size);
    }
    let mut scratch = Scratch::new(alloc, &protocol)?;
    let mut count = 0u64;
    for _done in 0..times {
        let list = pieces(&mut scratch, &protocol, &cube)?;
        count = count.wrapping_add(list.len() as u64);
    }
    Ok(count)
}

// The node that is expanded next.
fn next_node(log: &Log<Predecessors>) -> Option<u32> {
    match log.mark() {
        Mark::Going => log.next_waiting(),
        _ => None,
    }
}

// Expands the least waiting node until none waits, or a node for each cube of the greatest budget was.
fn expand_all<F: Finder<Scratch>>(
    scratch: &mut Scratch,
    protocol: &Protocol,
    finder: &mut F,
    log: &mut Log<Predecessors>,
) -> Result<(), Failed>
    requires made { IsFor protocol.now scratch.old }
    requires serves { F.serves finder.old protocol.now }
    requires protocol { protocol.now ≡ log.old.protocol }
    requires cubes { F.list finder.old ≡ cubes_of log.old.nodes }
{
    for _done in 0..65536u32 {
        let node = match next_node(log) {
            Some(node) => node,
            None => return Ok(()),
        };
        if node >= log.count() {
            return Err(Failed::Size);
        }
        log.expand(scratch, protocol, finder, node)?;
    }
    Ok(())
}

// One whole search over an empty list; the numbers of its events and of its covering tests.
fn search<F: Finder<Scratch>>(
    alloc: Global,
    protocol: &Protocol,
    finder: &mut F,
) -> Result<(u64, u64), Failed>
    requires { F.list finder.old ≡ [] }
{
    let budget = Budget {
        cubes: 65536,
        width: 8,
    };
    let mut scratch = Scratch::new(alloc, protocol)?;
    let mut log = Log::new(alloc, &mut scratch, protocol, finder, budget)?;
    expand_all(&mut scratch, protocol, finder, &mut log)?;
    Ok((log.events().len() as u64, scratch.tests()))
}

/// Searches the sample protocol anew each time, over the plain list; counts the events, one for each expansion and one for
/// the roots.
pub fn expand(alloc: Global, levels: u8, times: u32) -> Result<u64, Failed>
    requires low { 2 ≤ levels }
    requires high { levels ≤ 63 }
{
    let protocol = sample(alloc, levels)?;
    let mut count = 0u64;
    for _done in 0..times {
        let mut finder = Scan::new(alloc);
        let (events, _) = search(alloc, &protocol, &mut finder)?;
        count = count.wrapping_add(events);
    }
    Ok(count)
}

/// Does so over the index; counts the covering tests.
pub fn test_covers(alloc: Global, levels: u8, times: u32) -> Result<u64, Failed>
    requires low { 2 ≤ levels }
    requires high { levels ≤ 63 }
{
    let protocol = sample(alloc, levels)?;
    let mut count = 0u64;
    for _done in 0..times {
        let mut finder = Index::new(alloc);
        let (_, tests) = search(alloc, &protocol, &mut finder)?;
        count = count.wrapping_add(tests);
    }
    Ok(count)
}
