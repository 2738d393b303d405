//! Rows on subsume: coverings of one cube by another, with and without the summaries in front, and how many were tested.

ghost use Rattle.theory.specs.Made.{IsFor};
ghost use Rattle.log_form.specs.Pieces.{IsAskable};

use crate::answers::{push_count, push_cover};
use crate::failed::Failed;
use crate::words::{askable_cube, sides};
use cub_base::Places;
use cub_cube::Cube;
use cub_proto::Protocol;
use subsume::{Summary, may_cover};
use theory::Scratch;

/// What is asked.
#[derive(Clone, Copy)]
pub enum Covering {
    Covers,
    Filtered,
    Tests,
}

// The least injection, where the summaries let the pair through. They say nothing of a small cube that no state meets.
fn filtered(protocol: &Protocol, scratch: &mut Scratch, big: &Cube, small: &Cube) -> Option<Places>
    requires made { IsFor protocol.now scratch.old }
    requires big { IsAskable protocol.now big.now }
    requires small { IsAskable protocol.now small.now }
    ensures { IsFor protocol.now scratch.new }
{
    let may = may_cover(&Summary::of(protocol, big), &Summary::of(protocol, small));
    if !may && theory::consistent(scratch, protocol, small) {
        return None;
    }
    subsume::covers(scratch, protocol, big, small)
}

// `covers BIG ; SMALL` and `filtered BIG ; SMALL`
fn cover(
    ask: Covering,
    protocol: &Protocol,
    scratch: &mut Scratch,
    text: &[u8],
    out: &mut Vec<u8>,
) -> Result<(), Failed>
    requires { IsFor protocol.now scratch.old }
    ensures { IsFor protocol.now scratch.new }
{
    let (front, back) = sides(text)?;
    let big = askable_cube(protocol, front)?;
    let small = askable_cube(protocol, back)?;
    let found = match ask {
        Covering::Filtered => filtered(protocol, scratch, &big, &small),
        _ => subsume::covers(scratch, protocol, &big, &small),
    };
    push_cover(out, &found)?;
    Ok(())
}

/// Asks, and appends the answer; `tests` is how many coverings were tested so far.
pub fn cover_by(
    ask: Covering,
    protocol: &Protocol,
    scratch: &mut Scratch,
    text: &[u8],
    out: &mut Vec<u8>,
) -> Result<(), Failed>
    requires { IsFor protocol.now scratch.old }
    ensures { IsFor protocol.now scratch.new }
{
    match ask {
        Covering::Tests => {
            push_count(out, scratch.tests())?;
            Ok(())
        }
        _ => cover(ask, protocol, scratch, text, out),
    }
}
