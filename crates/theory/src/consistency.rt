//! Consistency. A conjunction falls into three parts that share no terms: memberships and equalities of finite terms,
//! equalities of processes, differences of integers. Some state meets it exactly where each part has a solution, since
//! solutions of the parts can be put together to a state with as many processes as they need.

ghost use Rattle.std.specs.Prelude.{◌≡◌, ◌≤◌, ◌↔◌, ◌++◌, ◌*◌, [], take, length, All, IsTrue};
ghost use Rattle.cub_proto.specs.declared.protocol.Protocol.{Protocol};
ghost use Rattle.cub_proto.specs.StateOf.{signature_of};
ghost use Rattle.cub_cube.specs.Meaning.{IsConsistent};
ghost use Rattle.fin_dom.specs.Solution.{HasSolution as HasConstructors};
ghost use Rattle.proc_eq.specs.Solution.{HasSolution as HasProcesses, sides_fit};
ghost use Rattle.diff_close.specs.Literals.{HasSolution as HasIntegers, MentionAtMost, HasSmallBound};
ghost use Rattle.fin_dom.specs.Table.{terms_fit};
ghost use Rattle.diff_close.specs.Scratch.{IsClosureOf};
ghost use Rattle.theory_laws.specs.Fitting.{AreFitting, term_numbers};
ghost use Rattle.theory_laws.specs.Start.{IsConsistentWithStart, start_at};
ghost use Rattle.theory.specs.Made.{IsFor, IsKept};

use crate::kinds::{has_finite, has_integer, has_process};
use crate::scratch::Scratch;
use cub_cube::Cube;
use cub_proto::{Lit, Protocol};
use diff_close::DiffScratch;
use fin_dom::FinScratch;
use proc_eq::ProcScratch;

// Whether finite literals that have a solution have one together with more.
fn finite_extends(masks: &mut FinScratch, protocol: &Protocol, lits: &[Lit], more: &[Lit]) -> bool
    requires fit { All (λ lit. IsTrue (terms_fit (signature_of protocol.now) (length masks.old) lit)) lits.now }
    requires more_fit { All (λ lit. IsTrue (terms_fit (signature_of protocol.now) (length masks.old) lit)) more.now }
    requires solved { HasConstructors (signature_of protocol.now) lits.now }
    ensures size { length masks.new ≡ length masks.old }
    ensures exact { IsTrue result ↔ HasConstructors (signature_of protocol.now) (lits.now ++ more.now) }
{
    if !has_finite(more) {
        return true;
    }
    masks.solve(protocol, lits, more)
}

// Whether finite literals have a solution.
fn finite_part(masks: &mut FinScratch, protocol: &Protocol, lits: &[Lit], more: &[Lit]) -> bool
    requires fit { All (λ lit. IsTrue (terms_fit (signature_of protocol.now) (length masks.old) lit)) lits.now }
    requires more_fit { All (λ lit. IsTrue (terms_fit (signature_of protocol.now) (length masks.old) lit)) more.now }
    ensures size { length masks.new ≡ length masks.old }
    ensures exact { IsTrue result ↔ HasConstructors (signature_of protocol.now) (lits.now ++ more.now) }
{
    if !has_finite(lits) {
        return finite_extends(masks, protocol, lits, more);
    }
    masks.solve(protocol, lits, more)
}

// Whether process literals that have a solution have one together with more.
fn process_extends(classes: &mut ProcScratch, width: u8, lits: &[Lit], more: &[Lit]) -> bool
    requires narrow { width ≤ 11 }
    requires fit { All (λ lit. IsTrue (sides_fit width lit)) lits.now }
    requires more_fit { All (λ lit. IsTrue (sides_fit width lit)) more.now }
    requires solved { HasProcesses width lits.now }
    ensures exact { IsTrue result ↔ HasProcesses width (lits.now ++ more.now) }
{
    if !has_process(more) {
        return true;
    }
    classes.close(lits, more, width)
}

// Whether process literals have a solution.
fn process_part(classes: &mut ProcScratch, width: u8, lits: &[Lit], more: &[Lit]) -> bool
    requires narrow { width ≤ 11 }
    requires fit { All (λ lit. IsTrue (sides_fit width lit)) lits.now }
    requires more_fit { All (λ lit. IsTrue (sides_fit width lit)) more.now }
    ensures exact { IsTrue result ↔ HasProcesses width (lits.now ++ more.now) }
{
    if !has_process(lits) {
        return process_extends(classes, width, lits, more);
    }
    classes.close(lits, more, width)
}

// Closes the integer literals of both lists. False where they have no solution.
pub(crate) fn close_integers(integers: &mut DiffScratch, lits: &[Lit], more: &[Lit]) -> bool
    requires terms { MentionAtMost integers.old.room (lits.now ++ more.now) }
    requires bounds { All HasSmallBound (lits.now ++ more.now) }
    ensures room { integers.new.room ≡ integers.old.room }
    ensures exact { IsTrue result ↔ HasIntegers (lits.now ++ more.now) }
    ensures closed { IsTrue result → IsClosureOf (lits.now ++ more.now) integers.new }
{
    match integers.close(lits, more) {
        Ok(()) => true,
        Err(_) => false,
    }
}

// Whether integer literals that have a solution have one together with more.
fn integer_extends(integers: &mut DiffScratch, lits: &[Lit], more: &[Lit]) -> bool
    requires terms { MentionAtMost integers.old.room (lits.now ++ more.now) }
    requires bounds { All HasSmallBound (lits.now ++ more.now) }
    requires solved { HasIntegers lits.now }
    ensures room { integers.new.room ≡ integers.old.room }
    ensures exact { IsTrue result ↔ HasIntegers (lits.now ++ more.now) }
{
    if !has_integer(more) {
        return true;
    }
    close_integers(integers, lits, more)
}

// Whether integer literals have a solution.
fn integer_part(integers: &mut DiffScratch, lits: &[Lit], more: &[Lit]) -> bool
    requires terms { MentionAtMost integers.old.room (lits.now ++ more.now) }
    requires bounds { All HasSmallBound (lits.now ++ more.now) }
    ensures room { integers.new.room ≡ integers.old.room }
    ensures exact { IsTrue result ↔ HasIntegers (lits.now ++ more.now) }
{
    if !has_integer(lits) {
        return integer_extends(integers, lits, more);
    }
    close_integers(integers, lits, more)
}

// Whether each part of both lists has a solution.
fn parts_agree(
    masks: &mut FinScratch,
    classes: &mut ProcScratch,
    integers: &mut DiffScratch,
    protocol: &Protocol,
    width: u8,
    lits: &[Lit],
    more: &[Lit],
) -> bool
    requires size { length masks.old ≡ term_numbers protocol.now }
    requires room { integers.old.room ≡ 104 }
    requires fitting { AreFitting protocol.now width lits.now }
    requires more_fitting { AreFitting protocol.now width more.now }
    ensures size { length masks.new ≡ length masks.old }
    ensures room { integers.new.room ≡ integers.old.room }
    ensures exact { IsTrue result ↔ IsConsistent protocol.now width (lits.now ++ more.now) }
{
    if !finite_part(masks, protocol, lits, more) {
        return false;
    }
    if !process_part(classes, width, lits, more) {
        return false;
    }
    integer_part(integers, lits, more)
}

// Whether each part of a list that some state meets has a solution together with more.
fn parts_extend(
    masks: &mut FinScratch,
    classes: &mut ProcScratch,
    integers: &mut DiffScratch,
    protocol: &Protocol,
    width: u8,
    lits: &[Lit],
    more: &[Lit],
) -> bool
    requires size { length masks.old ≡ term_numbers protocol.now }
    requires room { integers.old.room ≡ 104 }
    requires fitting { AreFitting protocol.now width lits.now }
    requires more_fitting { AreFitting protocol.now width more.now }
    requires consistent { IsConsistent protocol.now width lits.now }
    ensures size { length masks.new ≡ length masks.old }
    ensures room { integers.new.room ≡ integers.old.room }
    ensures exact { IsTrue result ↔ IsConsistent protocol.now width (lits.now ++ more.now) }
{
    if !finite_extends(masks, protocol, lits, more) {
        return false;
    }
    if !process_extends(classes, width, lits, more) {
        return false;
    }
    integer_extends(integers, lits, more)
}

/// Whether some state of the protocol meets the literals of both lists, as one conjunction of that width.
pub fn are_consistent(
    scratch: &mut Scratch,
    protocol: &Protocol,
    width: u8,
    lits: &[Lit],
    more: &[Lit],
) -> bool
    requires made { IsFor protocol.now scratch.old }
    requires fitting { AreFitting protocol.now width lits.now }
    requires more_fitting { AreFitting protocol.now width more.now }
    ensures kept { IsKept scratch.old scratch.new }
    ensures made { IsFor protocol.now scratch.new }
    ensures exact { IsTrue result ↔ IsConsistent protocol.now width (lits.now ++ more.now) }
{
    parts_agree(
        &mut scratch.masks,
        &mut scratch.classes,
        &mut scratch.integers,
        protocol,
        width,
        lits,
        more,
    )
}

/// The same where some state meets the first list: only the parts that `more` speaks of are solved again. With a list
/// that grows at its end and is cut back, this tells at each addition whether it still is consistent.
pub fn stay_consistent(
    scratch: &mut Scratch,
    protocol: &Protocol,
    width: u8,
    lits: &[Lit],
    more: &[Lit],
) -> bool
    requires made { IsFor protocol.now scratch.old }
    requires fitting { AreFitting protocol.now width lits.now }
    requires more_fitting { AreFitting protocol.now width more.now }
    requires consistent { IsConsistent protocol.now width lits.now }
    ensures kept { IsKept scratch.old scratch.new }
    ensures made { IsFor protocol.now scratch.new }
    ensures exact { IsTrue result ↔ IsConsistent protocol.now width (lits.now ++ more.now) }
{
    parts_extend(
        &mut scratch.masks,
        &mut scratch.classes,
        &mut scratch.integers,
        protocol,
        width,
        lits,
        more,
    )
}

/// Whether some state of the protocol meets the cube.
pub fn consistent(scratch: &mut Scratch, protocol: &Protocol, cube: &Cube) -> bool
    requires made { IsFor protocol.now scratch.old }
    requires fitting { AreFitting protocol.now cube.now.width cube.now.lits }
    ensures kept { IsKept scratch.old scratch.new }
    ensures made { IsFor protocol.now scratch.new }
    ensures exact { IsTrue result ↔ IsConsistent protocol.now cube.now.width cube.now.lits }
{
    are_consistent(scratch, protocol, cube.width, cube.lits.as_slice(), &[])
}

// The start literals at the first places, of those at all places.
pub(crate) fn first_places(start: &[Lit], each: usize, places: u8) -> &[Lit]
    requires few { each ≤ 64 }
    requires enough { places * each ≤ length start.now }
    ensures { result.now ≡ take (places * each) start.now }
{
    &start[..places as usize * each]
}

/// Whether the start formula has a conjunction, and some state of the protocol meets the cube together with the literals
/// of that conjunction at each of its places, or at one place where it has none.
pub fn with_start(scratch: &mut Scratch, protocol: &Protocol, cube: &Cube) -> bool
    requires made { IsFor protocol.now scratch.old }
    requires fitting { AreFitting protocol.now cube.now.width cube.now.lits }
    ensures kept { IsKept scratch.old scratch.new }
    ensures made { IsFor protocol.now scratch.new }
    ensures exact { IsTrue result ↔ IsConsistentWithStart protocol.now cube.now.width cube.now.lits }
{
    if !scratch.has_start {
        return false;
    }
    let width = cube.width.max(1);
    let start = first_places(&scratch.start, scratch.each, width);
    parts_agree(
        &mut scratch.masks,
        &mut scratch.classes,
        &mut scratch.integers,
        protocol,
        width,
        cube.lits.as_slice(),
        start,
    )
}
