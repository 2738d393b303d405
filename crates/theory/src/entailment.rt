//! Entailment. The literals of a conjunction are closed once; then each literal is a look-up: a membership by what is left
//! to its term, an equality of processes by their classes, a difference by its least bound. Only where equalities or
//! disequalities of finite terms touch a finite literal, or a disequality of processes is asked, the closure of that part
//! is tried again with the literal's negation, in tables of its own, so the conjunction stays loaded.

ghost use Rattle.std.specs.Prelude.{◌≡◌, ◌≤◌, ◌↔◌, int_le, ◌++◌, ◌∷◌, [], ℕ, List, length, All, IsTrue, true, false};
ghost use Rattle.std.specs.List.{list_any};
ghost use Rattle.cub_proto.specs.declared.literal.Lit.{Lit};
ghost use Rattle.cub_proto.specs.declared.literal.Lit.TheVariants.{FinIn, FinEq, FinNe, ProcEq};
ghost use Rattle.cub_proto.specs.StateOf.{signature_of};
ghost use Rattle.cub_proto.specs.Truth.{has_bit};
ghost use Rattle.cub_proto.specs.Fits.{literal_fits};
ghost use Rattle.cub_cube.specs.Meaning.{IsConsistent};
ghost use Rattle.fin_dom.specs.Solution.{HasSolution as HasConstructors};
ghost use Rattle.fin_dom.specs.Table.{has_entry, terms_fit};
ghost use Rattle.proc_eq.specs.Solution.{HasSolution as HasProcesses, sides_fit, side_fits};
ghost use Rattle.diff_close.specs.Literals.{Entails as EntailsBound};
ghost use Rattle.diff_close.specs.Scratch.{IsClosureOf, IsClosed};
ghost use Rattle.theory_laws.specs.Fitting.{AreFitting, term_numbers};
ghost use Rattle.theory_laws.specs.Solved.{PartsHaveSolutions};
ghost use Rattle.theory_laws.specs.Entailed.{Entails};
ghost use Rattle.theory_laws.specs.Kinds.{is_open, is_link, links, is_finite_literal};
ghost use Rattle.theory.specs.Made.{IsFor, IsKept};
ghost use Rattle.theory.specs.Loaded.{IsLoaded, IsGathered};

use crate::consistency::close_integers;
use crate::kinds::{has_link, has_links, is_same_term};
use crate::masks::{both, differing, outside, some};
use crate::scratch::Scratch;
use cub_cube::Cube;
use cub_proto::{ISide, Lit, PSide, Protocol, Term, full_mask, negated};
use diff_close::DiffScratch;
use fin_dom::FinScratch;
use proc_eq::ProcScratch;

// Whether finite literals have a solution, where they have one if none of them is an equality or disequality.
fn links_agree(masks: &mut FinScratch, protocol: &Protocol, lits: &[Lit]) -> bool
    requires fit { All (λ lit. IsTrue (terms_fit (signature_of protocol.now) (length masks.old) lit)) lits.now }
    requires alone { list_any is_link lits.now ≡ false → HasConstructors (signature_of protocol.now) lits.now }
    ensures size { length masks.new ≡ length masks.old }
    ensures exact { IsTrue result ↔ HasConstructors (signature_of protocol.now) lits.now }
{
    if !has_link(lits) {
        return true;
    }
    masks.solve(protocol, lits, &[])
}

/// Closes the literals, as a conjunction of that width. True where some state of the protocol meets it: then `follows`
/// answers what it entails, until the next call that solves or loads another one.
pub fn load(scratch: &mut Scratch, protocol: &Protocol, width: u8, lits: &[Lit]) -> bool
    requires made { IsFor protocol.now scratch.old }
    requires fitting { AreFitting protocol.now width lits.now }
    ensures kept { IsKept scratch.old scratch.new }
    ensures made { IsFor protocol.now scratch.new }
    ensures exact { IsTrue result ↔ IsConsistent protocol.now width lits.now }
    ensures loaded { IsTrue result → IsLoaded protocol.now width lits.now scratch.new }
{
    if !scratch.domains.gather(protocol, lits) {
        return false;
    }
    if !links_agree(&mut scratch.masks, protocol, lits) {
        return false;
    }
    if !scratch.classes.close(lits, &[], width) {
        return false;
    }
    close_integers(&mut scratch.integers, lits, &[])
}

// Whether a finite literal follows from literals with solutions: its negation has none together with them.
fn finite_follows(
    masks: &mut FinScratch,
    protocol: &Protocol,
    width: u8,
    lits: &[Lit],
    lit: &Lit,
) -> bool
    requires size { length masks.old ≡ term_numbers protocol.now }
    requires fitting { AreFitting protocol.now width lits.now }
    requires parts { PartsHaveSolutions protocol.now width lits.now }
    requires finite { is_finite_literal lit.now ≡ true }
    requires fits { IsTrue (literal_fits (signature_of protocol.now) width lit.now) }
    ensures size { length masks.new ≡ length masks.old }
    ensures exact { IsTrue result ↔ Entails protocol.now width lits.now lit.now }
{
    let negation = [negated(protocol, width as u16, lit)];
    !masks.solve(protocol, lits, &negation)
}

// What is left to a term, of the constructors of its sort.
fn open_to(domains: &FinScratch, protocol: &Protocol, term: Term) -> u64
    requires { IsTrue (has_entry (length domains.now) term) }
    ensures { (c : ℕ) → has_bit result c ≡ is_open (signature_of protocol.now) domains.now term c }
{
    both(full_mask(protocol, term), domains.left(term))
}

// Whether a membership follows.
fn member_follows(
    domains: &FinScratch,
    masks: &mut FinScratch,
    protocol: &Protocol,
    width: u8,
    lits: &[Lit],
    term: Term,
    mask: u64,
) -> bool
    requires loaded { IsGathered protocol.now width lits.now domains.now masks.old }
    requires fits { IsTrue (literal_fits (signature_of protocol.now) width (FinIn term mask)) }
    ensures size { length masks.new ≡ length masks.old }
    ensures exact { IsTrue result ↔ Entails protocol.now width lits.now (FinIn term mask) }
{
    match outside(open_to(domains, protocol, term), mask) {
        None => true,
        Some(_) => {
            if !has_links(&term, lits) {
                return false;
            }
            finite_follows(masks, protocol, width, lits, &Lit::FinIn { term, mask })
        }
    }
}

// Whether no literal joins one of the two terms with another.
fn are_free(lits: &[Lit], a: Term, b: Term) -> bool
    ensures { IsTrue result ↔ (list_any (links a) lits.now ≡ false) × (list_any (links b) lits.now ≡ false) }
{
    if has_links(&a, lits) {
        return false;
    }
    !has_links(&b, lits)
}

// Whether an equality of two other terms follows.
fn equal_follows(
    domains: &FinScratch,
    masks: &mut FinScratch,
    protocol: &Protocol,
    width: u8,
    lits: &[Lit],
    a: Term,
    b: Term,
) -> bool
    requires loaded { IsGathered protocol.now width lits.now domains.now masks.old }
    requires fits { IsTrue (literal_fits (signature_of protocol.now) width (FinEq a b)) }
    ensures size { length masks.new ≡ length masks.old }
    ensures exact { IsTrue result ↔ Entails protocol.now width lits.now (FinEq a b) }
{
    if is_same_term(&a, &b) {
        return true;
    }
    match differing(open_to(domains, protocol, a), open_to(domains, protocol, b)) {
        None => true,
        Some(_) => {
            if are_free(lits, a, b) {
                return false;
            }
            finite_follows(masks, protocol, width, lits, &Lit::FinEq { a, b })
        }
    }
}

// Whether a disequality of two terms follows.
fn other_follows(
    domains: &FinScratch,
    masks: &mut FinScratch,
    protocol: &Protocol,
    width: u8,
    lits: &[Lit],
    a: Term,
    b: Term,
) -> bool
    requires loaded { IsGathered protocol.now width lits.now domains.now masks.old }
    requires fits { IsTrue (literal_fits (signature_of protocol.now) width (FinNe a b)) }
    ensures size { length masks.new ≡ length masks.old }
    ensures exact { IsTrue result ↔ Entails protocol.now width lits.now (FinNe a b) }
{
    if is_same_term(&a, &b) {
        return false;
    }
    match some(both(open_to(domains, protocol, a), open_to(domains, protocol, b))) {
        None => true,
        Some(_) => {
            if are_free(lits, a, b) {
                return false;
            }
            finite_follows(masks, protocol, width, lits, &Lit::FinNe { a, b })
        }
    }
}

// Whether two sides are forced to be two processes.
fn apart_follows(trial: &mut ProcScratch, width: u8, lits: &[Lit], a: PSide, b: PSide) -> bool
    requires narrow { width ≤ 11 }
    requires fit { All (λ lit. IsTrue (sides_fit width lit)) lits.now }
    requires sides { IsTrue (sides_fit width (ProcEq a b)) }
    ensures { IsTrue result ↔ (HasProcesses width (lits.now ++ ProcEq a b ∷ []) → ⊥) }
{
    !trial.close(lits, &[Lit::ProcEq { a, b }], width)
}

// Whether one bound is at most another.
fn is_at_most(least: &i64, bound: &i64) -> bool
    ensures { result ≡ int_le least.now bound.now }
{
    *least <= *bound
}

// Whether the closed literals entail a bound of a difference.
fn bound_follows(integers: &DiffScratch, a: ISide, b: ISide, bound: &i64) -> bool
    requires { IsClosed integers.now }
    ensures { (lits : List Lit) → IsClosureOf lits integers.now → IsTrue result ↔ EntailsBound lits a b bound.now }
{
    match integers.bound(a, b) {
        None => false,
        Some(least) => is_at_most(&least, bound),
    }
}

/// Whether the loaded literals, as a conjunction of that width, entail the literal: it is true at every state of the
/// protocol and processes that satisfy them. The conjunction stays loaded.
pub fn follows(
    scratch: &mut Scratch,
    protocol: &Protocol,
    width: u8,
    lits: &[Lit],
    lit: &Lit,
) -> bool
    requires made { IsFor protocol.now scratch.old }
    requires loaded { IsLoaded protocol.now width lits.now scratch.old }
    requires fits { IsTrue (literal_fits (signature_of protocol.now) width lit.now) }
    ensures kept { IsKept scratch.old scratch.new }
    ensures made { IsFor protocol.now scratch.new }
    ensures loaded { IsLoaded protocol.now width lits.now scratch.new }
    ensures exact { IsTrue result ↔ Entails protocol.now width lits.now lit.now }
{
    match lit {
        Lit::FinIn { term, mask } => member_follows(
            &scratch.domains,
            &mut scratch.masks,
            protocol,
            width,
            lits,
            *term,
            *mask,
        ),
        Lit::FinEq { a, b } => equal_follows(
            &scratch.domains,
            &mut scratch.masks,
            protocol,
            width,
            lits,
            *a,
            *b,
        ),
        Lit::FinNe { a, b } => other_follows(
            &scratch.domains,
            &mut scratch.masks,
            protocol,
            width,
            lits,
            *a,
            *b,
        ),
        Lit::ProcEq { a, b } => scratch.classes.same(*a, *b),
        Lit::ProcNe { a, b } => apart_follows(&mut scratch.trial, width, lits, *a, *b),
        Lit::Diff { a, b, bound } => bound_follows(&scratch.integers, *a, *b, bound),
    }
}

/// Whether the cube entails the literal: it is true at every state of the protocol and processes that satisfy the cube.
pub fn entails(scratch: &mut Scratch, protocol: &Protocol, cube: &Cube, lit: &Lit) -> bool
    requires made { IsFor protocol.now scratch.old }
    requires fitting { AreFitting protocol.now cube.now.width cube.now.lits }
    requires fits { IsTrue (literal_fits (signature_of protocol.now) cube.now.width lit.now) }
    ensures kept { IsKept scratch.old scratch.new }
    ensures made { IsFor protocol.now scratch.new }
    ensures exact { IsTrue result ↔ Entails protocol.now cube.now.width cube.now.lits lit.now }
{
    let lits = cube.lits.as_slice();
    if !load(scratch, protocol, cube.width, lits) {
        return true;
    }
    follows(scratch, protocol, cube.width, lits, lit)
}
