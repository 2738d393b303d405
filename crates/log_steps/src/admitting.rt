//! Admitting a list of added cubes that is given, as a journal gives one: it is gone through beside the pieces, and the
//! first item that an event may not add is named. A piece that is covered is passed over; for any other one the next item
//! has to be a form of it. Any form will do, so what another program chose is admitted too.

ghost use Rattle.std.specs.Prelude.{◌≡◌, ◌⊎◌, ◌↔◌, ◌+◌, ◌<◌, ◌≤◌, ◌++◌, ◌∷◌, [], ℕ, List, All, length, map, take, false, true, IsTrue, IfOk, IfErr, slice_index_or};
ghost use Rattle.cub_cube.specs.Cover.{IsCovered};
ghost use Rattle.log_form.specs.declared.numbered.Numbered.{Numbered};
ghost use Rattle.log_form.specs.Pieces.{IsAskable};
ghost use Rattle.log_form.specs.Forms.{IsForm};
ghost use Rattle.log_steps.specs.Readable.{IsReadable};
ghost use Rattle.log_steps.specs.Judged.{added_of, pick_cubes, IsExact};
ghost use Rattle.log_steps.specs.Admitted.{AreAllAdmitted, NamesUnfit, AdmitsPiece};

use crate::deciding::Decisions;
use crate::judgement::{Pick, Picks};
use crate::judging::{is_covered, links, push};
use cub_base::{Items, Memory};
use cub_proto::Protocol;
use log_form::{Added, Numbered};
use std::alloc::Global;
use subsume::Finder;

/// Why a list of added cubes is not admitted: `added` is the number of the first item that an event may not add; where a
/// piece is lacking, it is the number of items.
#[derive(Clone, Copy, Debug, PartialEq, Eq)]
pub enum ListFault {
    Not { added: u32 },
    Memory,
}

/// Whether the pieces go on, and then whether a start state meets the last item.
#[derive(Clone, Copy, Debug, PartialEq, Eq)]
pub enum Step {
    Goes { ended: bool },
    Stops,
}

// Whether the item is a form of the piece, with its number.
fn is_of<S: Decisions>(scratch: &mut S, protocol: &Protocol, piece: &Numbered, item: &Added) -> bool
    requires made { S.made_for scratch.old protocol.now }
    requires fit { IsAskable protocol.now piece.now.cube }
    requires readable { IsReadable protocol.now item.now.cube }
    ensures value { IsTrue result ↔ ((item.now.piece ≡ piece.now.number) × IsForm protocol.now piece.now.cube item.now.places item.now.cube) }
    ensures made { S.made_for scratch.new protocol.now }
{
    if item.piece != piece.number {
        return false;
    }
    scratch.is_form(protocol, &piece.cube, &item.places, &item.cube)
}

// The item as a pick.
fn pick_of<S: Decisions, F: Finder<S>>(
    alloc: Global,
    scratch: &mut S,
    protocol: &Protocol,
    finder: &mut F,
    item: &Added,
) -> Result<Pick, Memory>
    requires made { S.made_for scratch.old protocol.now }
    requires serves { F.serves finder.old protocol.now }
    requires fit { IsAskable protocol.now item.now.cube }
    ensures is { IfOk result (λ k. added_of k ≡ item.now) }
    ensures exact { IfOk result (λ k. IsExact protocol.now (F.list finder.old) k) }
    ensures same { F.list finder.new ≡ F.list finder.old }
    ensures serves { F.serves finder.new protocol.now }
    ensures made { S.made_for scratch.new protocol.now }
{
    let starts = scratch.meets_start(protocol, &item.cube);
    let under = links(alloc, scratch, protocol, finder, &item.cube)?;
    let cube = item.cube.copy()?;
    let places = item.places.copy();
    Ok(Pick {
        piece: item.piece,
        places,
        cube,
        starts,
        under,
    })
}

// Goes on with one more piece: the next item is added for it, unless it is covered.
fn admit_piece<S: Decisions, F: Finder<S>>(
    alloc: Global,
    scratch: &mut S,
    protocol: &Protocol,
    finder: &mut F,
    picks: &mut Picks,
    ended: bool,
    piece: &Numbered,
    items: &[Added],
    room: usize,
) -> Result<Step, Memory>
    requires made { S.made_for scratch.old protocol.now }
    requires serves { F.serves finder.old protocol.now }
    requires picks { All (λ k. IsAskable protocol.now k.cube) picks.old }
    requires fit { IsAskable protocol.now piece.now.cube }
    requires readable { All (λ a. IsReadable protocol.now a.cube) items.now }
    ensures value { IfOk result (λ step. AdmitsPiece protocol.now (F.list finder.old) items.now room picks.old ended piece.now step picks.new) }
    ensures same { F.list finder.new ≡ F.list finder.old }
    ensures serves { F.serves finder.new protocol.now }
    ensures made { S.made_for scratch.new protocol.now }
{
    if ended {
        return Ok(Step::Goes { ended });
    }
    if is_covered(scratch, protocol, finder, picks.as_slice(), &piece.cube) {
        return Ok(Step::Goes { ended });
    }
    let count = picks.len();
    if count >= items.len() || count >= room {
        return Ok(Step::Stops);
    }
    let item = &items[count];
    if !is_of(scratch, protocol, piece, item) {
        return Ok(Step::Stops);
    }
    let pick = pick_of(alloc, scratch, protocol, finder, item)?;
    let ended = pick.starts;
    push(picks, pick)?;
    Ok(Step::Goes { ended })
}

/// The items as picks where an event may add them to a log with the finder's cubes for these pieces, and there is room.
pub fn admit_list<S: Decisions, F: Finder<S>>(
    alloc: Global,
    scratch: &mut S,
    protocol: &Protocol,
    finder: &mut F,
    list: &[Numbered],
    items: &[Added],
    room: u32,
) -> Result<Picks, ListFault>
    requires made { S.made_for scratch.old protocol.now }
    requires serves { F.serves finder.old protocol.now }
    requires fit { All (λ x. IsAskable protocol.now x.cube) list.now }
    requires readable { All (λ a. IsReadable protocol.now a.cube) items.now }
    ensures all { IfOk result (λ picks. AreAllAdmitted protocol.now (F.list finder.old) list.now items.now picks) }
    ensures room { IfOk result (λ picks. length picks ≤ room) }
    ensures fault { IfErr result (NamesUnfit protocol.now (F.list finder.old) list.now items.now room) }
    ensures same { F.list finder.new ≡ F.list finder.old }
    ensures serves { F.serves finder.new protocol.now }
    ensures made { S.made_for scratch.new protocol.now }
{
    let mut picks = Items::new(alloc);
    let mut ended = false;
    for piece in list {
        match admit_piece(
            alloc,
            scratch,
            protocol,
            finder,
            &mut picks,
            ended,
            piece,
            items,
            room as usize,
        ) {
            Ok(Step::Goes { ended: last }) => ended = last,
            Ok(Step::Stops) => {
                return Err(ListFault::Not {
                    added: picks.len() as u32,
                });
            }
            Err(_error) => return Err(ListFault::Memory),
        }
    }
    if picks.len() < items.len() {
        return Err(ListFault::Not {
            added: picks.len() as u32,
        });
    }
    Ok(picks)
}
