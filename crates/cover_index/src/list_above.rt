//! Searches of a whole list for cubes that cover a given one. It is closed once a search.

ghost use Rattle.std.specs.Prelude.{◌≡◌, ◌*◌, ◌+◌, ◌-◌, ◌/◌, ◌%◌, ◌^◌, ◌<◌, ◌≤◌, ℕ, false, length, slice_index, IsTrue, IfSome, IfNone};
ghost use Rattle.cub_cube.specs.Cover.{DoesCover, IsCovered};
ghost use Rattle.log_form.specs.Pieces.{IsAskable};
ghost use Rattle.log_form.specs.Links.{cube_at, IsFirstCover};
ghost use Rattle.theory.specs.Made.{IsFor};
ghost use Rattle.subsume.specs.Scanned.{AreRetired};
ghost use Rattle.subsume.specs.Summary.{IsOf};
ghost use Rattle.cover_index.specs.Counted.{RisesForCovers};
ghost use Rattle.cover_index.specs.Noted.{IsNoted, RisesForNoted, RisesForOthers};
ghost use Rattle.cover_index.specs.Asked.{IsAsked, AreSummed, AreGrouped};
ghost use Rattle.cover_index.specs.Columns.{AreFilled, lacks};

use crate::above::{first_among, some_among};
use crate::candidates::passes_over;
use crate::parts::{GROUP, next_above};
use crate::recent::Recent;
use crate::store::Store;
use crate::summaries::lacking;
use cub_base::Places;
use cub_cube::Cube;
use cub_proto::Protocol;
use subsume::{Summary, load_small};
use theory::Scratch;

// The first cube from one number up to another, all of one segment, that covers the loaded one.
fn first_in(
    scratch: &mut Scratch,
    protocol: &Protocol,
    store: &Store,
    from: u32,
    upto: u32,
    cube: &Cube,
    own: &Summary,
    lacking: &[u64],
    consistent: bool,
) -> Option<(u32, Places)>
    requires asked { IsAsked protocol.now cube.now own.now consistent scratch.old }
    requires lacking { AreFilled lacking.now (lacks own.now) }
    requires summed { AreSummed protocol.now store.now.cubes store.now.summaries }
    requires order { from ≤ upto }
    requires within { upto ≤ length store.now.cubes }
    requires near { upto ≤ from + (64 - from % 64) }
    ensures asked { IsAsked protocol.now cube.now own.now consistent scratch.new }
    ensures first { IsFirstCover protocol.now store.now.cubes from upto cube.now result }
    ensures tests { RisesForCovers protocol.now store.now.cubes from upto cube.now scratch.old.tests scratch.new.tests }
{
    if from == upto {
        return None;
    }
    let low = from % GROUP;
    let base = from - low;
    let segment = store.segment(from);
    match first_among(
        scratch,
        protocol,
        segment.cubes(),
        segment.summaries(),
        low,
        upto - base,
        cube,
        own,
        lacking,
        consistent,
    ) {
        Some((i, places)) => Some((base + i, places)),
        None => None,
    }
}

/// The first cube from `start` on that covers the given one.
pub(crate) fn first_cover(
    scratch: &mut Scratch,
    protocol: &Protocol,
    store: &Store,
    groups: &[Summary],
    larger: &[Summary],
    start: u32,
    cube: &Cube,
) -> Option<(u32, Places)>
    requires made { IsFor protocol.now scratch.old }
    requires fit { IsAskable protocol.now cube.now }
    requires summed { AreSummed protocol.now store.now.cubes store.now.summaries }
    requires groups { AreGrouped protocol.now 64 store.now.cubes groups.now }
    requires larger { AreGrouped protocol.now 4096 store.now.cubes larger.now }
    requires groups_room { length store.now.cubes ≤ 64 * length groups.now }
    requires larger_room { length store.now.cubes ≤ 4096 * length larger.now }
    ensures made { IsFor protocol.now scratch.new }
    ensures first { IsFirstCover protocol.now store.now.cubes start (length store.now.cubes) cube.now result }
    ensures tests { RisesForCovers protocol.now store.now.cubes start (length store.now.cubes) cube.now scratch.old.tests scratch.new.tests }
{
    let own = Summary::of(protocol, cube);
    let lacking = lacking(&own);
    let consistent = load_small(scratch, protocol, cube);
    let upto = store.count();
    let mut at = start;
    while at < upto {
        let (from, end) = next_above(groups, larger, at, upto, &own, consistent);
        match first_in(
            scratch, protocol, store, from, end, cube, &own, &lacking, consistent,
        ) {
            Some(found) => return Some(found),
            None => {}
        }
        at = end;
    }
    None
}

// Whether a cube from one number up to another, all of one segment, that none has retired covers the loaded one.
fn some_in(
    scratch: &mut Scratch,
    protocol: &Protocol,
    store: &Store,
    retired: &[u32],
    from: u32,
    upto: u32,
    cube: &Cube,
    own: &Summary,
    lacking: &[u64],
    consistent: bool,
) -> bool
    requires asked { IsAsked protocol.now cube.now own.now consistent scratch.old }
    requires lacking { AreFilled lacking.now (lacks own.now) }
    requires summed { AreSummed protocol.now store.now.cubes store.now.summaries }
    requires one_each { length retired.now ≡ length store.now.cubes }
    requires order { from ≤ upto }
    requires within { upto ≤ length store.now.cubes }
    requires near { upto ≤ from + (64 - from % 64) }
    ensures asked { IsAsked protocol.now cube.now own.now consistent scratch.new }
    ensures some { IsTrue result → IsCovered protocol.now store.now.cubes cube.now }
    ensures none { result ≡ false → (i : ℕ) → from ≤ i → i < upto → slice_index retired.now i ≡ 0 → DoesCover protocol.now (cube_at store.now.cubes i) cube.now → ⊥ }
    ensures tests { RisesForCovers protocol.now store.now.cubes from upto cube.now scratch.old.tests scratch.new.tests }
{
    if from == upto {
        return false;
    }
    let low = from % GROUP;
    let base = from - low;
    let segment = store.segment(from);
    some_among(
        scratch,
        protocol,
        segment.cubes(),
        segment.summaries(),
        retired,
        base,
        low,
        upto - base,
        cube,
        own,
        lacking,
        consistent,
    )
}

// The group with that number, cut at the end of the list; nothing where it is past that.
fn part_of(group: u32, upto: u32) -> (u32, u32)
    ensures order { result.0 ≤ result.1 }
    ensures within { result.1 ≤ upto }
    ensures near { result.1 ≤ result.0 + (64 - result.0 % 64) }
    ensures inside { (i : ℕ) → result.0 ≤ i → i < result.1 → i / 64 ≡ group }
    ensures all { (i : ℕ) → i < upto → i / 64 ≡ group → (result.0 ≤ i) × (i < result.1) }
{
    if group > upto / GROUP {
        return (upto, upto);
    }
    let from = group * GROUP;
    if upto - from <= GROUP {
        (from, upto)
    } else {
        (from, from + GROUP)
    }
}

// As `some_in`, for cubes of one group. They are passed over where its summary allows no cover.
fn some_in_group(
    scratch: &mut Scratch,
    protocol: &Protocol,
    store: &Store,
    groups: &[Summary],
    retired: &[u32],
    from: u32,
    upto: u32,
    cube: &Cube,
    own: &Summary,
    lacking: &[u64],
    consistent: bool,
) -> bool
    requires asked { IsAsked protocol.now cube.now own.now consistent scratch.old }
    requires lacking { AreFilled lacking.now (lacks own.now) }
    requires own { IsOf protocol.now cube.now own.now }
    requires summed { AreSummed protocol.now store.now.cubes store.now.summaries }
    requires groups { AreGrouped protocol.now 64 store.now.cubes groups.now }
    requires one_each { length retired.now ≡ length store.now.cubes }
    requires groups_room { length store.now.cubes ≤ 64 * length groups.now }
    requires order { from ≤ upto }
    requires within { upto ≤ length store.now.cubes }
    requires near { upto ≤ from + (64 - from % 64) }
    ensures asked { IsAsked protocol.now cube.now own.now consistent scratch.new }
    ensures some { IsTrue result → IsCovered protocol.now store.now.cubes cube.now }
    ensures none { result ≡ false → (i : ℕ) → from ≤ i → i < upto → slice_index retired.now i ≡ 0 → DoesCover protocol.now (cube_at store.now.cubes i) cube.now → ⊥ }
    ensures tests { RisesForCovers protocol.now store.now.cubes from upto cube.now scratch.old.tests scratch.new.tests }
{
    if from == upto {
        return false;
    }
    if passes_over(consistent, &groups[(from / GROUP) as usize], own) {
        return false;
    }
    some_in(
        scratch, protocol, store, retired, from, upto, cube, own, lacking, consistent,
    )
}

// The first cube of a noted group in which a cube that none has retired covers the loaded one, if there is one.
fn noted_with_cover(
    scratch: &mut Scratch,
    protocol: &Protocol,
    store: &Store,
    groups: &[Summary],
    retired: &[u32],
    recent: &Recent,
    cube: &Cube,
    own: &Summary,
    lacking: &[u64],
    consistent: bool,
) -> Option<u32>
    requires asked { IsAsked protocol.now cube.now own.now consistent scratch.old }
    requires lacking { AreFilled lacking.now (lacks own.now) }
    requires own { IsOf protocol.now cube.now own.now }
    requires summed { AreSummed protocol.now store.now.cubes store.now.summaries }
    requires groups { AreGrouped protocol.now 64 store.now.cubes groups.now }
    requires one_each { length retired.now ≡ length store.now.cubes }
    requires groups_room { length store.now.cubes ≤ 64 * length groups.now }
    ensures asked { IsAsked protocol.now cube.now own.now consistent scratch.new }
    ensures some { IfSome result (λ n. IsCovered protocol.now store.now.cubes cube.now) }
    ensures none { IfNone result ((i : ℕ) → i < length store.now.cubes → IsNoted recent.now i → slice_index retired.now i ≡ 0 → DoesCover protocol.now (cube_at store.now.cubes i) cube.now → ⊥) }
    ensures tests { RisesForNoted protocol.now store.now.cubes recent.now 0 (length store.now.cubes) cube.now scratch.old.tests scratch.new.tests }
{
    let upto = store.count();
    for group in recent.as_slice() {
        let (from, end) = part_of(*group, upto);
        if some_in_group(
            scratch, protocol, store, groups, retired, from, end, cube, own, lacking, consistent,
        ) {
            return Some(from);
        }
    }
    None
}

// As `some_in`, but a noted group is not looked at again.
fn some_other_in(
    scratch: &mut Scratch,
    protocol: &Protocol,
    store: &Store,
    retired: &[u32],
    recent: &Recent,
    from: u32,
    upto: u32,
    cube: &Cube,
    own: &Summary,
    lacking: &[u64],
    consistent: bool,
) -> bool
    requires asked { IsAsked protocol.now cube.now own.now consistent scratch.old }
    requires lacking { AreFilled lacking.now (lacks own.now) }
    requires summed { AreSummed protocol.now store.now.cubes store.now.summaries }
    requires one_each { length retired.now ≡ length store.now.cubes }
    requires order { from ≤ upto }
    requires within { upto ≤ length store.now.cubes }
    requires near { upto ≤ from + (64 - from % 64) }
    ensures asked { IsAsked protocol.now cube.now own.now consistent scratch.new }
    ensures some { IsTrue result → IsCovered protocol.now store.now.cubes cube.now }
    ensures none { result ≡ false → (i : ℕ) → from ≤ i → i < upto → (IsNoted recent.now i → ⊥) → slice_index retired.now i ≡ 0 → DoesCover protocol.now (cube_at store.now.cubes i) cube.now → ⊥ }
    ensures tests { RisesForOthers protocol.now store.now.cubes recent.now from upto cube.now scratch.old.tests scratch.new.tests }
{
    if from == upto {
        return false;
    }
    if recent.has(from / GROUP) {
        return false;
    }
    some_in(
        scratch, protocol, store, retired, from, upto, cube, own, lacking, consistent,
    )
}

// The first cube of a part in which a cube of no noted group that none has retired covers the loaded one, if there is one.
fn other_with_cover(
    scratch: &mut Scratch,
    protocol: &Protocol,
    store: &Store,
    groups: &[Summary],
    larger: &[Summary],
    retired: &[u32],
    recent: &Recent,
    cube: &Cube,
    own: &Summary,
    lacking: &[u64],
    consistent: bool,
) -> Option<u32>
    requires asked { IsAsked protocol.now cube.now own.now consistent scratch.old }
    requires lacking { AreFilled lacking.now (lacks own.now) }
    requires own { IsOf protocol.now cube.now own.now }
    requires summed { AreSummed protocol.now store.now.cubes store.now.summaries }
    requires groups { AreGrouped protocol.now 64 store.now.cubes groups.now }
    requires larger { AreGrouped protocol.now 4096 store.now.cubes larger.now }
    requires one_each { length retired.now ≡ length store.now.cubes }
    requires groups_room { length store.now.cubes ≤ 64 * length groups.now }
    requires larger_room { length store.now.cubes ≤ 4096 * length larger.now }
    ensures asked { IsAsked protocol.now cube.now own.now consistent scratch.new }
    ensures some { IfSome result (λ n. IsCovered protocol.now store.now.cubes cube.now) }
    ensures none { IfNone result ((i : ℕ) → i < length store.now.cubes → (IsNoted recent.now i → ⊥) → slice_index retired.now i ≡ 0 → DoesCover protocol.now (cube_at store.now.cubes i) cube.now → ⊥) }
    ensures tests { RisesForOthers protocol.now store.now.cubes recent.now 0 (length store.now.cubes) cube.now scratch.old.tests scratch.new.tests }
{
    let upto = store.count();
    let mut at = 0;
    while at < upto {
        let (from, end) = next_above(groups, larger, at, upto, own, consistent);
        if some_other_in(
            scratch, protocol, store, retired, recent, from, end, cube, own, lacking, consistent,
        ) {
            return Some(from);
        }
        at = end;
    }
    None
}

/// A number in the group of a cube that covers the given one, if some cube does. Retired cubes are passed over: what covers
/// them comes later. The noted groups are looked at first, then all others from the beginning on, so no cube is tested twice.
pub(crate) fn some_cover(
    scratch: &mut Scratch,
    protocol: &Protocol,
    store: &Store,
    groups: &[Summary],
    larger: &[Summary],
    retired: &[u32],
    recent: &Recent,
    cube: &Cube,
) -> Option<u32>
    requires made { IsFor protocol.now scratch.old }
    requires fit { IsAskable protocol.now cube.now }
    requires summed { AreSummed protocol.now store.now.cubes store.now.summaries }
    requires groups { AreGrouped protocol.now 64 store.now.cubes groups.now }
    requires larger { AreGrouped protocol.now 4096 store.now.cubes larger.now }
    requires covered { AreRetired protocol.now store.now.cubes retired.now }
    requires one_each { length retired.now ≡ length store.now.cubes }
    requires groups_room { length store.now.cubes ≤ 64 * length groups.now }
    requires larger_room { length store.now.cubes ≤ 4096 * length larger.now }
    ensures made { IsFor protocol.now scratch.new }
    ensures some { IfSome result (λ n. IsCovered protocol.now store.now.cubes cube.now) }
    ensures none { IfNone result (IsCovered protocol.now store.now.cubes cube.now → ⊥) }
    ensures tests { RisesForCovers protocol.now store.now.cubes 0 (length store.now.cubes) cube.now scratch.old.tests scratch.new.tests }
{
    let own = Summary::of(protocol, cube);
    let lacking = lacking(&own);
    let consistent = load_small(scratch, protocol, cube);
    match noted_with_cover(
        scratch, protocol, store, groups, retired, recent, cube, &own, &lacking, consistent,
    ) {
        Some(near) => return Some(near),
        None => {}
    }
    other_with_cover(
        scratch, protocol, store, groups, larger, retired, recent, cube, &own, &lacking, consistent,
    )
}
