//! Marks of a cube: a few words of bits that say which globals and arrays its literals ask for, of which arrays two cells
//! have memberships, which memberships in one constructor stand there, once, twice and two at one place, and at which values
//! integer terms are held. They are a Bloom filter on what one cube must have to entail another one's literals: where two
//! things share a bit, the filter passes more, never less.

ghost use Rattle.std.specs.Prelude.{◌≡◌, ◌++◌, ◌∷◌, [], ◌+◌, ◌-◌, ◌*◌, ◌%◌, ◌^◌, ◌<◌, ◌==◌, ◌&&◌, ◌||◌, not, ◌↔◌, ℕ, List, IsTrue, if◌then◌else◌, false};
ghost use Rattle.std.specs.List.{list_any};
ghost use Rattle.std.specs.Option.{option_to_list};
ghost use Rattle.cub_proto.specs.declared.literal.Lit.{Lit};
ghost use Rattle.cub_proto.specs.Signature.{Signature, constructors_at};
ghost use Rattle.cub_proto.specs.StateOf.{signature_of};
ghost use Rattle.cub_proto.specs.Truth.{has_bit};
ghost use Rattle.cub_cube.specs.Mentions.{process_side_terms, integer_side_terms};
ghost use Rattle.theory_laws.specs.Kinds.{is_link};
ghost use Rattle.subsume.specs.Marks.{asked_terms, is_global, is_cell, marks_member, marks_constructor, constructor_bit, low, is_bond, HasMarks, HasOffers, IsPart, AreAmong};
ghost use Rattle.subsume.specs.Gathering.{IsGathered};

use crate::ties::{is_bond, joint_bits, value_bits};
use cub_proto::{ISide, Lit, PSide, Protocol, Term, full_mask};

/// Marks of literals, or of what they offer to others.
#[derive(Clone, Copy, Debug, PartialEq, Eq)]
pub struct Marks {
    /// Bit `g`: global `g` is asked for.
    pub globals: u64,
    /// Bit `a`: a cell of array `a` is asked for.
    pub arrays: u64,
    /// Bit `a`: two cells of array `a` have memberships.
    pub members: u64,
    /// Memberships in one constructor: a bit for each constructor of a global or array, shared with others.
    pub constructors: u64,
    /// The same bits, where two such memberships have it.
    pub pairs: u64,
    /// Two such memberships at one place: a bit for the two constructors, shared with others.
    pub joint: u64,
    /// Integer terms held at one value: a bit for each value of a global or array, shared with others.
    pub values: u64,
}

// Marks as they are gathered, with the arrays of memberships so far.
#[derive(Clone, Copy)]
struct Gathering {
    globals: u64,
    arrays: u64,
    members: u64,
    constructors: u64,
    pairs: u64,
    cells: u64,
    linked: bool,
    bonded: bool,
}

pub(crate) fn power(number: u16) -> u64
    requires { number < 64 }
    ensures { result ≡ 2 ^ number }
{
    1 << number
}

// The word with that bit alone; none where there is no such bit.
pub(crate) fn bit(number: u16) -> u64
    ensures { (b : ℕ) → b < 64 → has_bit result b ≡ (number == b) }
{
    if number < 64 { power(number) } else { 0 }
}

fn process_term(side: PSide) -> Option<Term>
    ensures { option_to_list result ≡ process_side_terms side }
{
    match side {
        PSide::Global(global) => Some(Term::Global(global)),
        PSide::Place(_) => None,
    }
}

fn integer_term(side: ISide) -> Option<Term>
    ensures { option_to_list result ≡ integer_side_terms side }
{
    match side {
        ISide::Zero => None,
        ISide::At(term) => Some(term),
    }
}

// Whether the term's sort has one constructor.
fn is_constant(protocol: &Protocol, term: Term) -> bool
    ensures { result ≡ (constructors_at (signature_of protocol.now) term == 1) }
{
    full_mask(protocol, term) == 1
}

// The terms that a cube must mention to entail the literal.
fn asked_terms(protocol: &Protocol, lit: &Lit) -> (Option<Term>, Option<Term>)
    ensures { option_to_list result.0 ++ option_to_list result.1 ≡ asked_terms (signature_of protocol.now) lit.now }
{
    match *lit {
        Lit::FinIn { term, .. } => (Some(term), None),
        Lit::FinEq { a, b } => {
            if is_constant(protocol, a) {
                (None, None)
            } else {
                (Some(a), Some(b))
            }
        }
        Lit::FinNe { a, b } => (Some(a), Some(b)),
        Lit::ProcEq { a, b } | Lit::ProcNe { a, b } => (process_term(a), process_term(b)),
        Lit::Diff { a, b, .. } => (integer_term(a), integer_term(b)),
    }
}

fn global_bits(term: Option<Term>) -> u64
    ensures { (b : ℕ) → b < 64 → has_bit result b ≡ list_any (is_global b) (option_to_list term) }
{
    match term {
        Some(Term::Global(global)) => bit(global),
        _ => 0,
    }
}

fn array_bits(term: Option<Term>) -> u64
    ensures { (b : ℕ) → b < 64 → has_bit result b ≡ list_any (is_cell b) (option_to_list term) }
{
    match term {
        Some(Term::Cell(array, _)) => bit(array),
        _ => 0,
    }
}

// The bit of the array of whose cell the literal is a membership.
fn member_bits(lit: &Lit) -> u64
    ensures { (b : ℕ) → b < 64 → has_bit result b ≡ marks_member b lit.now }
{
    match lit {
        Lit::FinIn {
            term: Term::Cell(array, _),
            ..
        } => bit(*array),
        _ => 0,
    }
}

pub(crate) fn constructor_bit(term: Term, constructor: u16) -> u16
    requires { constructor < 64 }
    ensures value { result ≡ constructor_bit term constructor }
    ensures inside { result < 64 }
{
    match term {
        Term::Global(global) => (63 - (7 * u32::from(global) + u32::from(constructor)) % 64) as u16,
        Term::Cell(array, _) => ((7 * u32::from(array) + u32::from(constructor)) % 64) as u16,
    }
}

// The bit of the constructor of a mask that has one alone.
fn sole_bits(term: Term, mask: u64) -> u64
    ensures { (b : ℕ) → b < 64 → has_bit result b ≡ ((mask == 2 ^ low mask) && (constructor_bit term (low mask) == b)) }
{
    let constructor = mask.trailing_zeros() as u16;
    if constructor >= 64 {
        return 0;
    }
    if mask != power(constructor) {
        return 0;
    }
    bit(constructor_bit(term, constructor))
}

// The bit of the constructor that the literal leaves to its term, if it is one alone.
fn constructor_bits(lit: &Lit) -> u64
    ensures { (b : ℕ) → b < 64 → has_bit result b ≡ marks_constructor b lit.now }
{
    match lit {
        Lit::FinIn { term, mask } => sole_bits(*term, *mask),
        _ => 0,
    }
}

// Whether the literal is an equality or disequality of finite terms.
fn is_link(lit: &Lit) -> bool
    ensures { result ≡ is_link lit.now }
{
    match lit {
        Lit::FinEq { .. } | Lit::FinNe { .. } => true,
        Lit::FinIn { .. } | Lit::ProcEq { .. } | Lit::ProcNe { .. } | Lit::Diff { .. } => false,
    }
}

// The bits of either word.
pub(crate) fn either(a: u64, b: u64) -> u64
    ensures { (c : ℕ) → has_bit result c ≡ (has_bit a c || has_bit b c) }
{
    a | b
}

// The bits of both words.
fn both(a: u64, b: u64) -> u64
    ensures { (c : ℕ) → has_bit result c ≡ (has_bit a c && has_bit b c) }
{
    a & b
}

// The bits of the first word that the second lacks.
fn beyond(a: u64, b: u64) -> u64
    ensures bits { (c : ℕ) → has_bit result c ≡ (has_bit a c && not (has_bit b c)) }
    ensures fits { result < 2 ^ 64 }
{
    a & !b
}

// Whether each bit of the first word is one of the second.
fn is_part(a: u64, b: u64) -> bool
    ensures { IsTrue result ↔ IsPart a b }
{
    beyond(a, b) == 0
}

// Whether finite terms are compared by the literal, if not by earlier ones.
fn links(linked: bool, lit: &Lit) -> bool
    ensures { result ≡ (linked || is_link lit.now) }
{
    linked || is_link(lit)
}

// The same of integer terms.
fn bonds(bonded: bool, lit: &Lit) -> bool
    ensures { result ≡ (bonded || is_bond lit.now) }
{
    bonded || is_bond(lit)
}

impl Gathering {
    ghost use Rattle.std.specs.Prelude.{◌≡◌, ◌++◌, ◌∷◌, [], List};
    ghost use Rattle.cub_proto.specs.StateOf.{signature_of};
    ghost use Rattle.cub_proto.specs.declared.literal.Lit.{Lit};
    ghost use Rattle.subsume.specs.Gathering.{IsGathered};

    // Nothing gathered.
    fn new() -> Gathering
        ensures { (sig : Signature) → IsGathered sig [] result }
    {
        Gathering {
            globals: 0,
            arrays: 0,
            members: 0,
            constructors: 0,
            pairs: 0,
            cells: 0,
            linked: false,
            bonded: false,
        }
    }

    // With one more literal.
    fn with(self, protocol: &Protocol, lit: &Lit) -> Gathering
        ensures { (lits : List Lit) → IsGathered (signature_of protocol.now) lits self → IsGathered (signature_of protocol.now) (lits ++ lit.now ∷ []) result }
    {
        let (first, second) = asked_terms(protocol, lit);
        let member = member_bits(lit);
        let constructor = constructor_bits(lit);
        let Gathering {
            globals,
            arrays,
            members,
            constructors,
            pairs,
            cells,
            linked,
            bonded,
        } = self;
        Gathering {
            globals: either(globals, either(global_bits(first), global_bits(second))),
            arrays: either(arrays, either(array_bits(first), array_bits(second))),
            members: either(members, both(cells, member)),
            constructors: either(constructors, constructor),
            pairs: either(pairs, both(constructors, constructor)),
            cells: either(cells, member),
            linked: links(linked, lit),
            bonded: bonds(bonded, lit),
        }
    }
}

// The marks of the literals, gathered.
fn gather(protocol: &Protocol, lits: &[Lit]) -> Gathering
    ensures { IsGathered (signature_of protocol.now) lits.now result }
{
    let mut gathering = Gathering::new();
    for lit in lits {
        gathering = gathering.with(protocol, lit);
    }
    gathering
}

// The marks of the literals, of which those of single ones are gathered.
fn whole(gathering: &Gathering, lits: &[Lit]) -> Marks
    ensures { (sig : Signature) → IsGathered sig lits.now gathering.now → HasMarks sig lits.now result }
{
    Marks {
        globals: gathering.globals,
        arrays: gathering.arrays,
        members: gathering.members,
        constructors: gathering.constructors,
        pairs: gathering.pairs,
        joint: joint_bits(lits),
        values: value_bits(lits),
    }
}

// All bits where it is so, else those of the word.
fn all_if(filled: bool, word: u64) -> u64
    ensures { (b : ℕ) → b < 64 → has_bit result b ≡ (filled || has_bit word b) }
{
    if filled { u64::MAX } else { word }
}

// What literals with these marks offer.
fn offered(marks: &Marks, linked: bool, bonded: bool) -> Marks
    ensures { (sig : Signature) (lits : List Lit) → HasMarks sig lits marks.now → linked ≡ list_any is_link lits → bonded ≡ list_any is_bond lits → HasOffers sig lits result }
{
    Marks {
        globals: marks.globals,
        arrays: marks.arrays,
        members: all_if(linked, marks.members),
        constructors: all_if(linked, marks.constructors),
        pairs: all_if(linked, marks.pairs),
        joint: all_if(linked, marks.joint),
        values: all_if(bonded, marks.values),
    }
}

/// The marks of the literals, and those that they offer.
pub(crate) fn marks_of(protocol: &Protocol, lits: &[Lit]) -> (Marks, Marks)
    ensures needs { HasMarks (signature_of protocol.now) lits.now result.0 }
    ensures offers { HasOffers (signature_of protocol.now) lits.now result.1 }
{
    let gathering = gather(protocol, lits);
    let marks = whole(&gathering, lits);
    let offers = offered(&marks, gathering.linked, gathering.bonded);
    (marks, offers)
}

impl Marks {
    ghost use Rattle.std.specs.Prelude.{◌↔◌, IsTrue};
    ghost use Rattle.subsume.specs.Marks.{AreAmong};

    /// Whether each of the marks is one of the other ones.
    pub fn are_among(&self, other: &Marks) -> bool
        ensures { IsTrue result ↔ AreAmong self.now other.now }
    {
        is_part(self.constructors, other.constructors)
            && is_part(self.arrays, other.arrays)
            && is_part(self.globals, other.globals)
            && is_part(self.members, other.members)
            && is_part(self.pairs, other.pairs)
            && is_part(self.joint, other.joint)
            && is_part(self.values, other.values)
    }
}
