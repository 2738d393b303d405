//! Searches of a whole list for cubes that a given one covers.

ghost use Rattle.std.specs.Prelude.{◌≡◌, ◌*◌, ◌+◌, ◌-◌, ◌%◌, ◌^◌, ◌<◌, ◌≤◌, length, All};
ghost use Rattle.log_form.specs.Pieces.{IsAskable};
ghost use Rattle.log_form.specs.Links.{IsFirstUnder};
ghost use Rattle.theory.specs.Made.{IsFor};
ghost use Rattle.subsume.specs.Summary.{IsSummary};
ghost use Rattle.cover_index.specs.Counted.{RisesForUnder};
ghost use Rattle.cover_index.specs.Asked.{AreSummed, AreGrouped, AreMet};
ghost use Rattle.cover_index.specs.Columns.{AreFilled, needs};

use crate::below::first_among;
use crate::parts::{GROUP, next_below};
use crate::store::Store;
use crate::summaries::needing;
use cub_base::Places;
use cub_cube::Cube;
use cub_proto::Protocol;
use subsume::{Summary, load_small};
use theory::Scratch;

/// How many of the first cubes are each met by some state: all, or those before the first that is not. Of the first `met`
/// it is known.
pub(crate) fn count_met(scratch: &mut Scratch, protocol: &Protocol, store: &Store, met: u32) -> u32
    requires made { IsFor protocol.now scratch.old }
    requires askable { All (IsAskable protocol.now) store.now.cubes }
    requires within { met ≤ length store.now.cubes }
    requires known { AreMet protocol.now store.now.cubes met }
    ensures made { IsFor protocol.now scratch.new }
    ensures tests { scratch.new.tests ≡ scratch.old.tests }
    ensures within { result ≤ length store.now.cubes }
    ensures known { AreMet protocol.now store.now.cubes result }
{
    let count = store.count();
    for i in met..count {
        if !load_small(scratch, protocol, store.cube(i)) {
            return i;
        }
    }
    count
}

// The first cube from one number up to another, all of one segment, that the given one covers. Of the first `met` cubes it
// is known that some state meets each.
fn first_in(
    scratch: &mut Scratch,
    protocol: &Protocol,
    store: &Store,
    from: u32,
    upto: u32,
    cube: &Cube,
    own: &Summary,
    needing: &[u64],
    met: u32,
) -> Option<(u32, Places)>
    requires made { IsFor protocol.now scratch.old }
    requires fit { IsAskable protocol.now cube.now }
    requires own { IsSummary protocol.now cube.now own.now }
    requires needing { AreFilled needing.now (needs own.now) }
    requires summed { AreSummed protocol.now store.now.cubes store.now.summaries }
    requires order { from ≤ upto }
    requires within { upto ≤ length store.now.cubes }
    requires near { upto ≤ from + (64 - from % 64) }
    requires met { AreMet protocol.now store.now.cubes met }
    ensures made { IsFor protocol.now scratch.new }
    ensures first { IsFirstUnder protocol.now store.now.cubes from upto cube.now result }
    ensures tests { RisesForUnder protocol.now store.now.cubes from upto cube.now scratch.old.tests scratch.new.tests }
{
    if from == upto {
        return None;
    }
    let low = from % GROUP;
    let base = from - low;
    let known = met.max(base).min(upto) - base;
    let segment = store.segment(from);
    match first_among(
        scratch,
        protocol,
        segment.cubes(),
        segment.summaries(),
        low,
        upto - base,
        cube,
        own,
        needing,
        known,
    ) {
        Some((i, places)) => Some((base + i, places)),
        None => None,
    }
}

/// The first cube from `start` on that the given one covers. Of the first `met` cubes it is known that some state meets
/// each.
pub(crate) fn first_under(
    scratch: &mut Scratch,
    protocol: &Protocol,
    store: &Store,
    groups: &[Summary],
    larger: &[Summary],
    met: u32,
    start: u32,
    cube: &Cube,
) -> Option<(u32, Places)>
    requires made { IsFor protocol.now scratch.old }
    requires fit { IsAskable protocol.now cube.now }
    requires summed { AreSummed protocol.now store.now.cubes store.now.summaries }
    requires groups { AreGrouped protocol.now 64 store.now.cubes groups.now }
    requires larger { AreGrouped protocol.now 4096 store.now.cubes larger.now }
    requires met { AreMet protocol.now store.now.cubes met }
    requires groups_room { length store.now.cubes ≤ 64 * length groups.now }
    requires larger_room { length store.now.cubes ≤ 4096 * length larger.now }
    ensures made { IsFor protocol.now scratch.new }
    ensures first { IsFirstUnder protocol.now store.now.cubes start (length store.now.cubes) cube.now result }
    ensures tests { RisesForUnder protocol.now store.now.cubes start (length store.now.cubes) cube.now scratch.old.tests scratch.new.tests }
{
    let own = Summary::of(protocol, cube);
    let needing = needing(&own);
    let upto = store.count();
    let mut at = start;
    while at < upto {
        let (from, end) = next_below(groups, larger, at, upto, &own, met);
        match first_in(
            scratch, protocol, store, from, end, cube, &own, &needing, met,
        ) {
            Some(found) => return Some(found),
            None => {}
        }
        at = end;
    }
    None
}
