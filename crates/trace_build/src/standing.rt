//! Which process stands at which place of a piece.

ghost use Rattle.std.specs.Prelude.{◌≡◌, ◌≤◌, length, slice_index};
ghost use Rattle.trace_laws.specs.Standing.{position, standing};

use arrayvec::ArrayVec;

/// Processes at the places of a cube: at most twelve.
pub type Standing = ArrayVec<u32, 12>;

/// The process at the place, and process 0 where there is none.
pub fn process_at(processes: &[u32], place: u8) -> u32
    ensures { result ≡ slice_index processes.now place }
{
    process_numbered(processes, place as usize)
}

fn process_numbered(processes: &[u32], at: usize) -> u32
    ensures { result ≡ slice_index processes.now at }
{
    if at < processes.len() {
        processes[at]
    } else {
        0
    }
}

fn position(places: &[u8], q: u8) -> usize
    ensures { result ≡ position places.now q }
{
    for at in 0..places.len() {
        if places[at] == q {
            return at;
        }
    }
    places.len()
}

/// The process at each place of a piece, where item `p` of `places` is the piece's place for place `p` of a cube and the
/// processes are those at the places of the cube.
pub fn standing(places: &[u8], processes: &[u32]) -> Standing
    requires { length places.now ≤ 12 }
    ensures { result.items ≡ standing places.now processes.now }
{
    let mut list = ArrayVec::new();
    for q in 0..places.len() {
        list.push(process_numbered(processes, position(places, q as u8)));
    }
    list
}
