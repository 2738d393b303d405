//! Mending a judgement that was made on the first nodes of a log: the picks that a node gained since covers are dropped.

ghost use Rattle.std.specs.Prelude.{◌≡◌, ◌↔◌, ◌<◌, All, IfOk, IsTrue, drop, length, map};
ghost use Rattle.cub_cube.specs.Cover.{IsCovered};
ghost use Rattle.log_form.specs.Pieces.{IsAskable};
ghost use Rattle.log_form.specs.Stale.{KeepsUncovered};
ghost use Rattle.log_steps.specs.Judged.{added_of};
ghost use Rattle.log_steps.specs.Commits.{kept_of};

use crate::judgement::Pick;
use crate::judging::push;
use cub_base::{Items, Memory};
use cub_cube::Cube;
use cub_proto::Protocol;
use std::alloc::Global;
use subsume::{Finder, MadeFor};

// Whether a cube from the number `seen` on covers the cube.
fn is_covered_since<S: MadeFor, F: Finder<S>>(
    scratch: &mut S,
    protocol: &Protocol,
    finder: &mut F,
    seen: u32,
    cube: &Cube,
) -> bool
    requires made { S.made_for scratch.old protocol.now }
    requires serves { F.serves finder.old protocol.now }
    requires fit { IsAskable protocol.now cube.now }
    ensures value { IsTrue result ↔ IsCovered protocol.now (drop seen (F.list finder.old)) cube.now }
    ensures same { F.list finder.new ≡ F.list finder.old }
    ensures serves { F.serves finder.new protocol.now }
    ensures made { S.made_for scratch.new protocol.now }
{
    match finder.find(scratch, protocol, seen, cube) {
        Some(_link) => true,
        None => false,
    }
}

/// The numbers of the picks, rising, that no cube of the list from the number `seen` on covers.
pub fn kept<S: MadeFor, F: Finder<S>>(
    alloc: Global,
    scratch: &mut S,
    protocol: &Protocol,
    finder: &mut F,
    picks: &[Pick],
    seen: u32,
) -> Result<Items<usize>, Memory>
    requires made { S.made_for scratch.old protocol.now }
    requires serves { F.serves finder.old protocol.now }
    requires fit { All (λ k. IsAskable protocol.now k.cube) picks.now }
    ensures kept { IfOk result (λ which. KeepsUncovered protocol.now (drop seen (F.list finder.old)) (map added_of picks.now) (kept_of picks.now which)) }
    ensures inside { IfOk result (λ which. All (λ k. k < length picks.now) which) }
    ensures same { F.list finder.new ≡ F.list finder.old }
    ensures serves { F.serves finder.new protocol.now }
    ensures made { S.made_for scratch.new protocol.now }
{
    let mut which = Items::new(alloc);
    let mut number = 0;
    for pick in picks {
        if !is_covered_since(scratch, protocol, finder, seen, &pick.cube) {
            push(&mut which, number)?;
        }
        number += 1;
    }
    Ok(which)
}
