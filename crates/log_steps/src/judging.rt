//! Judging: which pieces of a cube no cube of a list covers, in order, up to the first that meets a start state. The
//! list is only searched, so a judgement can be made on a copy while the log goes on; the commit then looks at what the
//! log gained since. Once a start state meets a pick the rest of the pieces is gone through all the same, and not looked
//! at: it happens once in a search, and then it is known that what was judged is a list of pieces.

ghost use Rattle.std.specs.Prelude.{◌≡◌, ◌↔◌, ℕ, ◌+◌, ◌++◌, ◌<◌, List, length, map, IsTrue, IfOk, OnOk, OnErr, All, [], ◌∷◌};
ghost use Rattle.cub_cube.specs.Cover.{IsCovered};
ghost use Rattle.log_form.specs.declared.numbered.Numbered.{Numbered};
ghost use Rattle.log_form.specs.Pieces.{IsAskable, IsExpandable};
ghost use Rattle.log_form.specs.Forms.{IsForm};
ghost use Rattle.log_steps.specs.Chosen.{IsChosen};
ghost use Rattle.log_steps.specs.Judged.{added_of, pick_cubes, AreUnder, IsExact, ArePicks, AreJudged, ArePicksSoFar};

use crate::deciding::{Decisions, Expands};
use crate::judgement::{Links, Pick, Picks, Under, Verdict};
use crate::walking::next_number;
use cub_base::{Items, Memory};
use cub_cube::Cube;
use cub_proto::Protocol;
use log_form::{Numbered, PreImages};
use std::alloc::Global;
use subsume::Finder;

// Appends the item, or wants memory.
pub fn push<T: Drop>(list: &mut Items<T>, item: T) -> Result<(), Memory>
    ensures ok { OnOk result (list.new ≡ list.old ++ item ∷ []) }
    ensures err { OnErr result (list.new ≡ list.old) }
{
    match list.push(item) {
        Ok(()) => Ok(()),
        Err(_failed) => Err(Memory),
    }
}

// Whether a pick covers the cube.
fn picks_cover<S: Decisions>(
    scratch: &mut S,
    protocol: &Protocol,
    picks: &[Pick],
    cube: &Cube,
) -> bool
    requires made { S.made_for scratch.old protocol.now }
    requires picks { All (λ k. IsAskable protocol.now k.cube) picks.now }
    requires fit { IsAskable protocol.now cube.now }
    ensures value { IsTrue result ↔ IsCovered protocol.now (pick_cubes picks.now) cube.now }
    ensures made { S.made_for scratch.new protocol.now }
{
    for pick in picks {
        if scratch.covers(protocol, &pick.cube, cube) {
            return true;
        }
    }
    false
}

// Whether a cube of the list or a pick covers the cube.
pub fn is_covered<S: Decisions, F: Finder<S>>(
    scratch: &mut S,
    protocol: &Protocol,
    finder: &mut F,
    picks: &[Pick],
    cube: &Cube,
) -> bool
    requires made { S.made_for scratch.old protocol.now }
    requires serves { F.serves finder.old protocol.now }
    requires picks { All (λ k. IsAskable protocol.now k.cube) picks.now }
    requires fit { IsAskable protocol.now cube.now }
    ensures value { IsTrue result ↔ IsCovered protocol.now (F.list finder.old ++ pick_cubes picks.now) cube.now }
    ensures same { F.list finder.new ≡ F.list finder.old }
    ensures serves { F.serves finder.new protocol.now }
    ensures made { S.made_for scratch.new protocol.now }
{
    if finder.is_covered(scratch, protocol, cube) {
        return true;
    }
    picks_cover(scratch, protocol, picks, cube)
}

// The cubes of the list that the cube covers.
pub fn links<S: Decisions, F: Finder<S>>(
    alloc: Global,
    scratch: &mut S,
    protocol: &Protocol,
    finder: &mut F,
    cube: &Cube,
) -> Result<Links, Memory>
    requires made { S.made_for scratch.old protocol.now }
    requires serves { F.serves finder.old protocol.now }
    requires fit { IsAskable protocol.now cube.now }
    ensures value { IfOk result (λ us. AreUnder protocol.now (F.list finder.old) 0 cube.now us) }
    ensures same { F.list finder.new ≡ F.list finder.old }
    ensures serves { F.serves finder.new protocol.now }
    ensures made { S.made_for scratch.new protocol.now }
{
    let mut under = Items::new(alloc);
    let mut at = 0;
    while let Some(link) = finder.under(scratch, protocol, at, cube) {
        let (node, places) = link;
        push(&mut under, Under { node, places })?;
        let _count = finder.count();
        at = node + 1;
    }
    Ok(under)
}

// The pick of a piece that is to be added.
fn pick_of<S: Decisions, F: Finder<S>>(
    alloc: Global,
    scratch: &mut S,
    protocol: &Protocol,
    finder: &mut F,
    piece: Numbered,
) -> Result<Pick, Memory>
    requires made { S.made_for scratch.old protocol.now }
    requires serves { F.serves finder.old protocol.now }
    requires fit { IsAskable protocol.now piece.cube }
    ensures number { IfOk result (λ k. k.piece ≡ piece.number) }
    ensures form { IfOk result (λ k. IsForm protocol.now piece.cube k.places k.cube) }
    ensures chosen { IfOk result (λ k. S.chosen protocol.now piece.cube k.places k.cube) }
    ensures exact { IfOk result (λ k. IsExact protocol.now (F.list finder.old) k) }
    ensures fit { IfOk result (λ k. IsAskable protocol.now k.cube) }
    ensures same { F.list finder.new ≡ F.list finder.old }
    ensures serves { F.serves finder.new protocol.now }
    ensures made { S.made_for scratch.new protocol.now }
{
    let Numbered { number, cube } = piece;
    let (cube, places) = scratch.form(protocol, cube)?;
    let starts = scratch.meets_start(protocol, &cube);
    let under = links(alloc, scratch, protocol, finder, &cube)?;
    Ok(Pick {
        piece: number,
        places,
        cube,
        starts,
        under,
    })
}

// Goes on with one more piece, unless a start state meets the last pick; tells whether one does.
fn judge_piece<S: Decisions, F: Finder<S>>(
    alloc: Global,
    scratch: &mut S,
    protocol: &Protocol,
    finder: &mut F,
    picks: &mut Picks,
    ended: bool,
    piece: Numbered,
) -> Result<bool, Memory>
    requires made { S.made_for scratch.old protocol.now }
    requires serves { F.serves finder.old protocol.now }
    requires picks { All (λ k. IsAskable protocol.now k.cube) picks.old }
    requires fit { IsAskable protocol.now piece.cube }
    ensures more { IfOk result (λ starts. (done : List Numbered) → ArePicksSoFar S.chosen protocol.now (F.list finder.old) done picks.old ended
        → ArePicksSoFar S.chosen protocol.now (F.list finder.old) (done ++ piece ∷ []) picks.new starts) }
    ensures same { F.list finder.new ≡ F.list finder.old }
    ensures serves { F.serves finder.new protocol.now }
    ensures made { S.made_for scratch.new protocol.now }
{
    if ended {
        return Ok(true);
    }
    if is_covered(scratch, protocol, finder, picks.as_slice(), &piece.cube) {
        return Ok(false);
    }
    let pick = pick_of(alloc, scratch, protocol, finder, piece)?;
    let starts = pick.starts;
    push(picks, pick)?;
    Ok(starts)
}

/// The picks of a list of numbered cubes, up to the first that meets a start state.
pub fn judge_list<S: Decisions, F: Finder<S>>(
    alloc: Global,
    scratch: &mut S,
    protocol: &Protocol,
    finder: &mut F,
    list: &[Numbered],
) -> Result<Picks, Memory>
    requires made { S.made_for scratch.old protocol.now }
    requires serves { F.serves finder.old protocol.now }
    requires fit { All (λ x. IsAskable protocol.now x.cube) list.now }
    ensures value { IfOk result (λ picks. ArePicks protocol.now (F.list finder.old) list.now picks) }
    ensures chosen { IfOk result (λ picks. All (λ k. IsChosen S.chosen protocol.now list.now (added_of k)) picks) }
    ensures same { F.list finder.new ≡ F.list finder.old }
    ensures serves { F.serves finder.new protocol.now }
    ensures made { S.made_for scratch.new protocol.now }
{
    let mut picks = Items::new(alloc);
    let mut ended = false;
    for piece in list {
        let number = piece.number;
        let cube = piece.cube.copy()?;
        let copy = Numbered { number, cube };
        ended = judge_piece(alloc, scratch, protocol, finder, &mut picks, ended, copy)?;
    }
    Ok(picks)
}

// The picks of the pieces of the cube.
fn judge_pieces<M: PreImages, S: Expands<M>, F: Finder<S>>(
    alloc: Global,
    scratch: &mut S,
    protocol: &Protocol,
    finder: &mut F,
    cube: &Cube,
) -> Result<Picks, Memory>
    requires made { S.made_for scratch.old protocol.now }
    requires serves { F.serves finder.old protocol.now }
    requires fit { IsExpandable protocol.now cube.now }
    ensures judged { IfOk result (λ picks. AreJudged S.chosen M.pieces protocol.now (F.list finder.old) cube.now picks) }
    ensures same { F.list finder.new ≡ F.list finder.old }
    ensures serves { F.serves finder.new protocol.now }
    ensures made { S.made_for scratch.new protocol.now }
{
    let mut walk = scratch.begin(alloc, protocol, cube)?;
    let mut picks = Items::new(alloc);
    let mut number = 0;
    let mut ended = false;
    while let Some(piece) = scratch.next(protocol, cube, &mut walk)? {
        let piece = Numbered {
            number,
            cube: piece,
        };
        ended = judge_piece(alloc, scratch, protocol, finder, &mut picks, ended, piece)?;
        number = next_number(number)?;
    }
    Ok(picks)
}

/// What an expansion of the node would add to a log whose nodes have the cubes of the finder: the pieces, in order, that
/// no cube of the finder and no earlier pick covers, up to the first that meets a start state. `cube` is the node's.
pub fn judge<M: PreImages, S: Expands<M>, F: Finder<S>>(
    alloc: Global,
    scratch: &mut S,
    protocol: &Protocol,
    finder: &mut F,
    node: u32,
    cube: &Cube,
) -> Result<Verdict, Memory>
    requires made { S.made_for scratch.old protocol.now }
    requires serves { F.serves finder.old protocol.now }
    requires fit { IsExpandable protocol.now cube.now }
    ensures node { IfOk result (λ v. v.node ≡ node) }
    ensures seen { IfOk result (λ v. v.seen ≡ length (F.list finder.old)) }
    ensures judged { IfOk result (λ v. AreJudged S.chosen M.pieces protocol.now (F.list finder.old) cube.now v.picks) }
    ensures same { F.list finder.new ≡ F.list finder.old }
    ensures serves { F.serves finder.new protocol.now }
    ensures made { S.made_for scratch.new protocol.now }
{
    let seen = finder.count();
    let picks = judge_pieces(alloc, scratch, protocol, finder, cube)?;
    Ok(Verdict { node, seen, picks })
}
