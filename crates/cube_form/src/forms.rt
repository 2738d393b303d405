//! Forms of a cube as a search adds it: some of its literals, its places renamed, the meaning kept. One form is given to
//! each cube here; a log admits every one, and whether a cube is one is decided exactly. That the literals are some of
//! the cube's is a look-up for each; that nothing is lost asks that they entail all of them.

ghost use Rattle.std.specs.Prelude.{◌≡◌, ◌≢◌, ◌↔◌, ◌<◌, ◌≤◌, length, All, AllPairs, Contains, IsTrue, IfOk};
ghost use Rattle.std.specs.List.{list_all};
ghost use Rattle.cub_proto.specs.StateOf.{signature_of};
ghost use Rattle.cub_proto.specs.Fits.{literal_fits};
ghost use Rattle.cub_cube.specs.Normal.{ordered};
ghost use Rattle.cub_cube.specs.Rename.{renamed, is_within, IsInjection};
ghost use Rattle.theory_laws.specs.Fitting.{AreFitting};
ghost use Rattle.theory_laws.specs.Entailed.{Entails};
ghost use Rattle.theory.specs.Made.{IsFor, IsKept};
ghost use Rattle.theory.specs.Loaded.{IsLoaded};
ghost use Rattle.log_form.specs.Pieces.{IsAskable};
ghost use Rattle.log_form.specs.Forms.{IsForm};
ghost use Rattle.cube_form.specs.Name.{turned};
ghost use Rattle.cube_form.specs.Form.{IsGivenForm};

use crate::naming::{normal_name, turned};
use crate::simplification::simplify;
use cub_base::{Memory, Places};
use cub_cube::{Cube, ordered, renamed};
use cub_proto::{Lit, Protocol, compare_lits};
use std::cmp::Ordering;
use theory::{Scratch, follows, load};

/// The form of a cube that a search adds: simplified, and with its places in order. Item `p` of the renaming is the
/// cube's place for place `p` of the form.
pub fn form(
    scratch: &mut Scratch,
    protocol: &Protocol,
    cube: Cube,
) -> Result<(Cube, Places), Memory>
    requires made { IsFor protocol.now scratch.old }
    requires fit { IsAskable protocol.now cube }
    ensures kept { IsKept scratch.old scratch.new }
    ensures made { IsFor protocol.now scratch.new }
    ensures given { IfOk result (λ f. IsGivenForm protocol.now cube f.1 f.0) }
    ensures admitted { IfOk result (λ f. IsForm protocol.now cube f.1 f.0) }
{
    let simple = simplify(scratch, protocol, cube);
    match normal_name(protocol, simple) {
        Ok((named, places)) => Ok((named, places)),
        Err((_, memory)) => Err(memory),
    }
}

// Whether all places are below the width.
fn are_below(places: &[u8], width: u8) -> bool
    ensures { IsTrue result ↔ All (λ p. p < width) places.now }
{
    for place in places {
        if *place >= width {
            return false;
        }
    }
    true
}

fn has_place(places: &[u8], place: u8) -> bool
    ensures { IsTrue result ↔ Contains places.now place }
{
    places.contains(&place)
}

// Whether no place stands twice.
fn are_apart(places: &[u8]) -> bool
    ensures { IsTrue result ↔ AllPairs (λ p q. p ≢ q) places.now }
{
    for at in 0..places.len() {
        if has_place(&places[..at], places[at]) {
            return false;
        }
    }
    true
}

// Whether the places are those below the width, each once.
fn is_renaming(places: &[u8], width: u8) -> bool
    ensures { IsTrue result ↔ IsInjection width width places.now }
{
    if places.len() != width as usize {
        return false;
    }
    if !are_below(places, width) {
        return false;
    }
    are_apart(places)
}

fn is_same(lit: &Lit, other: &Lit) -> bool
    ensures { IsTrue result ↔ (lit.now ≡ other.now) }
{
    compare_lits(lit, other) == Ordering::Equal
}

fn has_literal(lits: &[Lit], lit: &Lit) -> bool
    ensures { IsTrue result ↔ Contains lits.now lit.now }
{
    for other in lits {
        if is_same(other, lit) {
            return true;
        }
    }
    false
}

// Whether each literal stands, renamed, among others.
fn are_some(lits: &[Lit], places: &[u8], others: &[Lit]) -> bool
    requires { IsTrue (list_all (is_within (length places.now)) lits.now) }
    ensures { IsTrue result ↔ All (λ l. Contains others.now (ordered (renamed places.now l))) lits.now }
{
    for lit in lits {
        if !has_literal(others, &ordered(&renamed(places, lit))) {
            return false;
        }
    }
    true
}

// Whether the loaded literals entail each of others at the places of a renaming.
fn each_follows(
    scratch: &mut Scratch,
    protocol: &Protocol,
    width: u8,
    lits: &[Lit],
    places: &[u8],
    others: &[Lit],
) -> bool
    requires made { IsFor protocol.now scratch.old }
    requires loaded { IsLoaded protocol.now width lits.now scratch.old }
    requires below { All (λ p. p < width) places.now }
    requires fit { IsTrue (list_all (literal_fits (signature_of protocol.now) (length places.now)) others.now) }
    ensures kept { IsKept scratch.old scratch.new }
    ensures made { IsFor protocol.now scratch.new }
    ensures exact { IsTrue result ↔ All (λ m. Entails protocol.now width lits.now (renamed places.now m)) others.now }
{
    for other in others {
        if !follows(scratch, protocol, width, lits, &renamed(places, other)) {
            return false;
        }
    }
    true
}

// Whether literals entail each of others at the places of a renaming.
fn entail_each(
    scratch: &mut Scratch,
    protocol: &Protocol,
    width: u8,
    lits: &[Lit],
    places: &[u8],
    others: &[Lit],
) -> bool
    requires made { IsFor protocol.now scratch.old }
    requires fitting { AreFitting protocol.now width lits.now }
    requires below { All (λ p. p < width) places.now }
    requires fit { IsTrue (list_all (literal_fits (signature_of protocol.now) (length places.now)) others.now) }
    ensures kept { IsKept scratch.old scratch.new }
    ensures made { IsFor protocol.now scratch.new }
    ensures exact { IsTrue result ↔ All (λ m. Entails protocol.now width lits.now (renamed places.now m)) others.now }
{
    if !load(scratch, protocol, width, lits) {
        return true;
    }
    each_follows(scratch, protocol, width, lits, places, others)
}

// Whether the literals of a cube entail each of the piece's, at the cube's places.
fn says_all(
    scratch: &mut Scratch,
    protocol: &Protocol,
    piece: &Cube,
    places: &Places,
    cube: &Cube,
) -> bool
    requires made { IsFor protocol.now scratch.old }
    requires fitting { AreFitting protocol.now cube.now.width cube.now.lits }
    requires onto { IsInjection cube.now.width cube.now.width places.now }
    requires fit { IsTrue (list_all (literal_fits (signature_of protocol.now) cube.now.width) piece.now.lits) }
    ensures kept { IsKept scratch.old scratch.new }
    ensures made { IsFor protocol.now scratch.new }
    ensures exact { IsTrue result ↔ All (λ m. Entails protocol.now cube.now.width cube.now.lits (renamed (turned places.now) m)) piece.now.lits }
{
    let back = turned(places);
    let found = entail_each(
        scratch,
        protocol,
        cube.width,
        cube.lits.as_slice(),
        back.as_slice(),
        piece.lits.as_slice(),
    );
    found
}

/// Whether a log admits the cube, with that renaming, as a form of the piece: its literals are, renamed, some of the
/// piece's, it is in normal form and it has the piece's meaning. Item `p` of the renaming is the piece's place for place
/// `p` of the cube. It takes no memory.
pub fn is_form(
    scratch: &mut Scratch,
    protocol: &Protocol,
    piece: &Cube,
    places: &Places,
    cube: &Cube,
) -> bool
    requires made { IsFor protocol.now scratch.old }
    requires piece { IsAskable protocol.now piece.now }
    requires cube { IsAskable protocol.now cube.now }
    ensures kept { IsKept scratch.old scratch.new }
    ensures made { IsFor protocol.now scratch.new }
    ensures exact { IsTrue result ↔ IsForm protocol.now piece.now places.now cube.now }
{
    if cube.width != piece.width {
        return false;
    }
    if !is_renaming(places.as_slice(), piece.width) {
        return false;
    }
    if !are_some(
        cube.lits.as_slice(),
        places.as_slice(),
        piece.lits.as_slice(),
    ) {
        return false;
    }
    says_all(scratch, protocol, piece, places, cube)
}
