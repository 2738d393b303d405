//! Covering, decided. A big cube covers a small one where an injection of its places into those of the small one makes
//! each of its literals one that the small cube entails, over all states of the protocol and all numbers of processes.
//! The small cube is closed once, and may then be tested against any number of big ones; each test that looks for
//! injections is counted. A small cube that no state meets entails every literal.

ghost use Rattle.std.specs.Prelude.{◌≡◌, ◌↔◌, ◌+◌, ◌-◌, ◌^◌, ◌≤◌, min, length, take, MatchOption, IsTrue};
ghost use Rattle.std.specs.List.{list_all};
ghost use Rattle.cub_proto.specs.StateOf.{signature_of};
ghost use Rattle.cub_proto.specs.Fits.{literal_fits};
ghost use Rattle.cub_cube.specs.Cover.{DoesCover, CoversLeast};
ghost use Rattle.cub_cube.specs.Meaning.{IsConsistent};
ghost use Rattle.theory_laws.specs.Fitting.{AreFitting};
ghost use Rattle.theory.specs.Made.{IsFor};
ghost use Rattle.subsume.specs.Ready.{IsReady};

use crate::injections::least_injection;
use cub_base::Places;
use cub_cube::Cube;
use cub_proto::Protocol;
use std::alloc::Global;
use theory::{Scratch, load};

/// Closes the cube, so that it can be tested against big ones. True where some state meets it. The scratch answers for
/// it until the next call of the theory that closes or solves something else.
pub fn load_small(scratch: &mut Scratch, protocol: &Protocol, small: &Cube) -> bool
    requires made { IsFor protocol.now scratch.old }
    requires fitting { AreFitting protocol.now small.now.width small.now.lits }
    ensures ready { IsReady protocol.now small.now result scratch.new }
    ensures count { scratch.new.tests ≡ scratch.old.tests }
    ensures exact { IsTrue result ↔ IsConsistent protocol.now small.now.width small.now.lits }
{
    load(scratch, protocol, small.width, small.lits.as_slice())
}

// The places as a list of their own.
fn listed(alloc: Global, places: &[u8]) -> Places
    requires { length places.now ≤ 12 }
    ensures { result ≡ places.now }
{
    let mut list = Places::new(alloc);
    for place in places {
        list.push(*place);
    }
    list
}

/// The least injection by which the big cube covers the loaded one, if it does. `consistent` is what `load_small`
/// answered. The test is counted, and the cube stays loaded.
pub fn covers_loaded(
    scratch: &mut Scratch,
    protocol: &Protocol,
    small: &Cube,
    consistent: bool,
    big: &Cube,
) -> Option<Places>
    requires ready { IsReady protocol.now small.now consistent scratch.old }
    requires fits { IsTrue (list_all (literal_fits (signature_of protocol.now) big.now.width) big.now.lits) }
    ensures ready { IsReady protocol.now small.now consistent scratch.new }
    ensures count { scratch.new.tests ≡ min (scratch.old.tests + 1) (2 ^ 64 - 1) }
    ensures exact { MatchOption result (DoesCover protocol.now big.now small.now → ⊥) (λ r. CoversLeast protocol.now big.now small.now r) }
{
    scratch.tick();
    if big.width > small.width {
        return None;
    }
    let mut places = [0u8; 12];
    if !least_injection(scratch, protocol, small, consistent, big, &mut places) {
        return None;
    }
    Some(listed(small.lits.allocator(), &places[..big.width as usize]))
}

/// The least injection by which the big cube covers the small one, if it does. The test is counted.
pub fn covers(
    scratch: &mut Scratch,
    protocol: &Protocol,
    big: &Cube,
    small: &Cube,
) -> Option<Places>
    requires made { IsFor protocol.now scratch.old }
    requires fits { IsTrue (list_all (literal_fits (signature_of protocol.now) big.now.width) big.now.lits) }
    requires fitting { AreFitting protocol.now small.now.width small.now.lits }
    ensures made { IsFor protocol.now scratch.new }
    ensures count { scratch.new.tests ≡ min (scratch.old.tests + 1) (2 ^ 64 - 1) }
    ensures exact { MatchOption result (DoesCover protocol.now big.now small.now → ⊥) (λ r. CoversLeast protocol.now big.now small.now r) }
{
    let consistent = load_small(scratch, protocol, small);
    covers_loaded(scratch, protocol, small, consistent, big)
}
