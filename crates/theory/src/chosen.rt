//! The chosen state of a conjunction: the least constructors in the order of terms, processes class by class, and for
//! each integer the least sum of a path that ends at it, less that of zero. Processes beyond the places have the cells of
//! process 0.

ghost use Rattle.std.specs.Prelude.{◌≡◌, [], true, suc, cond, max, ◌≤◌, ◌<◌, ◌↔◌, ◌++◌, ◌+◌, ℕ, ℤ, List, length, slice_index_or, slice_set, replicate, IsTrue, IfOk, IfSome, All};
ghost use Rattle.cub_proto.specs.declared.literal.Term.{Term};
ghost use Rattle.cub_proto.specs.declared.literal.Term.TheVariants as Term;
ghost use Rattle.cub_proto.specs.declared.state.Val.TheVariants.{Con};
ghost use Rattle.cub_proto.specs.declared.protocol.Decl.{Decl};
ghost use Rattle.cub_proto.specs.declared.literal.Sort.TheVariants as Sort;
ghost use Rattle.cub_proto.specs.declared.literal.PSide.TheVariants as PSide;
ghost use Rattle.cub_proto.specs.Signature.{same_sort};
ghost use Rattle.cub_proto.specs.Configuration.{cells_of, process_count};
ghost use Rattle.proc_eq.specs.Classes.{entry_of};
ghost use Rattle.cub_base.specs.Numbered.{map_from};
ghost use Rattle.cub_cube.specs.Meaning.{IsConsistent};
ghost use Rattle.diff_close.specs.Scratch.{IsClosed};
ghost use Rattle.theory_laws.specs.Fitting.{AreFitting, term_numbers};
ghost use Rattle.theory_laws.specs.Built.{value_of, home, global_value, cell_values, built};
ghost use Rattle.theory_laws.specs.Chosen.{needed, needed_from, IsChosenState};
ghost use Rattle.theory_laws.specs.Solved.{Fulfils};
ghost use Rattle.theory_laws.specs.Start.{IsConsistentWithStart, start_width, with_start_literals, has_start};
ghost use Rattle.theory_laws.specs.Small.{IsSmallValue, HasSmallIntegers};
ghost use Rattle.theory.specs.Made.{IsFor, IsKept};
ghost use Rattle.theory.specs.Loaded.{IsSolved, AreChosen, table_values};

use crate::consistency::{close_integers, first_places};
use crate::scratch::Scratch;
use cub_base::Memory;
use cub_cube::Cube;
use cub_proto::{Decl, ISide, Lit, PSide, Protocol, Slot, Sort, State, Term, Val, same_sort};
use diff_close::DiffScratch;
use fin_dom::FinScratch;
use proc_eq::ProcScratch;
use std::alloc::Global;

// Solves the parts of both lists, and chooses the processes.
fn solve(
    masks: &mut FinScratch,
    classes: &mut ProcScratch,
    integers: &mut DiffScratch,
    protocol: &Protocol,
    width: u8,
    lits: &[Lit],
    more: &[Lit],
) -> bool
    requires size { length masks.old ≡ term_numbers protocol.now }
    requires room { integers.old.room ≡ 104 }
    requires fitting { AreFitting protocol.now width lits.now }
    requires more_fitting { AreFitting protocol.now width more.now }
    ensures size { length masks.new ≡ length masks.old }
    ensures room { integers.new.room ≡ integers.old.room }
    ensures exact { IsTrue result ↔ IsConsistent protocol.now width (lits.now ++ more.now) }
    ensures solved { IsTrue result → IsSolved protocol.now width (lits.now ++ more.now) masks.new classes.new integers.new }
{
    if !masks.solve(protocol, lits, more) {
        return false;
    }
    if !classes.close(lits, more, width) {
        return false;
    }
    if !close_integers(integers, lits, more) {
        return false;
    }
    classes.choose(lits, more);
    true
}

// The value of a term, by its sort.
fn value_in(
    masks: &FinScratch,
    classes: &ProcScratch,
    integers: &DiffScratch,
    sort: Sort,
    term: Term,
) -> Val
    requires closed { IsClosed integers.now }
    requires numbered { (g : ℕ) → term ≡ Term.Global g → g < 64 }
    ensures value { (w : Term → ℤ) → AreChosen w integers.now → result ≡ value_of (table_values masks.now classes.now w) sort term }
    ensures small { IsSmallValue result }
{
    match sort {
        Sort::Fin(_) => Val::Con(masks.con(term)),
        Sort::Int => Val::Int(integers.value(ISide::At(term))),
        Sort::Proc => match term {
            Term::Global(global) => Val::Proc(u32::from(classes.process(PSide::Global(global)))),
            Term::Cell(_, _) => Val::Proc(0),
        },
    }
}

// The number of processes that the chosen ones need.
fn processes_needed(classes: &ProcScratch, protocol: &Protocol, width: u8) -> u32
    requires { width ≤ 11 }
    ensures needed { (masks : List ℕ) (w : Term → ℤ) → result ≡ needed protocol.now width (table_values masks classes.now w) }
    ensures some { 0 < result }
{
    let mut most = u32::from(width.max(1));
    for (g, decl) in protocol.globals.as_slice().iter().enumerate() {
        most = with_global(classes, decl, g as u16, most);
    }
    most
}

// At least so many, and one more than the process of the global, if it has one.
fn with_global(classes: &ProcScratch, decl: &Decl, g: u16, most: u32) -> u32
    requires near { g < 64 }
    requires few { most ≤ 256 }
    ensures few { result ≤ 256 }
    ensures more { most ≤ result }
    ensures value { result ≡ cond (same_sort decl.now.sort Sort.Proc) (max most (suc (entry_of classes.now.processes (PSide.Global g)))) most }
{
    if same_sort(decl.sort, Sort::Proc) {
        return most.max(u32::from(classes.process(PSide::Global(g))) + 1);
    }
    most
}

// Gives the globals their values.
fn fill_globals(
    state: &mut State,
    masks: &FinScratch,
    classes: &ProcScratch,
    integers: &DiffScratch,
    protocol: &Protocol,
)
    requires closed { IsClosed integers.now }
    requires shape { length state.old.globals ≡ length protocol.now.globals }
    requires small { HasSmallIntegers state.old }
    ensures filled { (w : Term → ℤ) → AreChosen w integers.now → state.new ≡ record state.old { globals = map_from (global_value (table_values masks.now classes.now w)) 0 protocol.now.globals } }
    ensures small { HasSmallIntegers state.new }
{
    for (g, decl) in protocol.globals.as_slice().iter().enumerate() {
        let value = value_in(masks, classes, integers, decl.sort, Term::Global(g as u16));
        state.set(Slot::Global(g as u16), value);
    }
}

// The place whose cells a process has.
fn home(width: u8, process: u32) -> u8
    ensures { result ≡ home width process }
{
    if process < u32::from(width) {
        process as u8
    } else {
        0
    }
}

// Gives the cells of an array their values.
fn fill_cells(
    state: &mut State,
    masks: &FinScratch,
    classes: &ProcScratch,
    integers: &DiffScratch,
    width: u8,
    decl: &Decl,
    a: u16,
)
    requires closed { IsClosed integers.now }
    requires there { a < length state.old.arrays }
    requires cells { length (cells_of state.old a) ≡ process_count state.old }
    requires small { HasSmallIntegers state.old }
    ensures filled { (w : Term → ℤ) → AreChosen w integers.now → state.new ≡ record state.old { arrays = slice_set state.old.arrays a (cell_values width (process_count state.old) (table_values masks.now classes.now w) a decl.now) } }
    ensures small { HasSmallIntegers state.new }
{
    for i in 0..state.processes() {
        let value = value_in(
            masks,
            classes,
            integers,
            decl.sort,
            Term::Cell(a, home(width, i)),
        );
        state.set(Slot::Cell(a, i), value);
    }
}

// Gives the cells of all arrays their values.
fn fill_arrays(
    state: &mut State,
    masks: &FinScratch,
    classes: &ProcScratch,
    integers: &DiffScratch,
    width: u8,
    protocol: &Protocol,
)
    requires closed { IsClosed integers.now }
    requires shape { length state.old.arrays ≡ length protocol.now.arrays }
    requires cells { (a : ℕ) → a < length state.old.arrays → length (cells_of state.old a) ≡ process_count state.old }
    requires small { HasSmallIntegers state.old }
    ensures filled { (w : Term → ℤ) → AreChosen w integers.now → state.new ≡ record state.old { arrays = map_from (cell_values width (process_count state.old) (table_values masks.now classes.now w)) 0 protocol.now.arrays } }
    ensures small { HasSmallIntegers state.new }
{
    for (a, decl) in protocol.arrays.as_slice().iter().enumerate() {
        fill_cells(state, masks, classes, integers, width, decl, a as u16);
    }
}

// The state of the values that the tables give.
fn make(
    alloc: Global,
    masks: &FinScratch,
    classes: &ProcScratch,
    integers: &DiffScratch,
    width: u8,
    protocol: &Protocol,
) -> Result<State, Memory>
    requires closed { IsClosed integers.now }
    requires narrow { width ≤ 11 }
    ensures made { IfOk result (λ s. (w : Term → ℤ) → AreChosen w integers.now → s ≡ built protocol.now width (needed protocol.now width (table_values masks.now classes.now w)) (table_values masks.now classes.now w)) }
    ensures small { IfOk result HasSmallIntegers }
{
    let processes = processes_needed(classes, protocol, width);
    let mut state = State::new(alloc, protocol, processes)?;
    fill_globals(&mut state, masks, classes, integers, protocol);
    fill_arrays(&mut state, masks, classes, integers, width, protocol);
    Ok(state)
}

// The chosen state of both lists, or None where no state meets them.
fn chosen_state(
    alloc: Global,
    masks: &mut FinScratch,
    classes: &mut ProcScratch,
    integers: &mut DiffScratch,
    protocol: &Protocol,
    width: u8,
    lits: &[Lit],
    more: &[Lit],
) -> Result<Option<State>, Memory>
    requires size { length masks.old ≡ term_numbers protocol.now }
    requires room { integers.old.room ≡ 104 }
    requires fitting { AreFitting protocol.now width lits.now }
    requires more_fitting { AreFitting protocol.now width more.now }
    ensures size { length masks.new ≡ length masks.old }
    ensures room { integers.new.room ≡ integers.old.room }
    ensures none { result ≡ Ok None → IsConsistent protocol.now width (lits.now ++ more.now) → ⊥ }
    ensures chosen { IfOk result (λ found. IfSome found (IsChosenState protocol.now width (lits.now ++ more.now))) }
    ensures small { IfOk result (λ found. IfSome found HasSmallIntegers) }
{
    if !solve(masks, classes, integers, protocol, width, lits, more) {
        return Ok(None);
    }
    let state = make(alloc, masks, classes, integers, width, protocol)?;
    Ok(Some(state))
}

/// The chosen state of the cube: of its literals alone, without the start formula. None exactly where no state of the
/// protocol meets the cube. All its processes are alive, and the first ones satisfy the cube.
pub fn state_of(
    alloc: Global,
    scratch: &mut Scratch,
    protocol: &Protocol,
    cube: &Cube,
) -> Result<Option<State>, Memory>
    requires made { IsFor protocol.now scratch.old }
    requires fitting { AreFitting protocol.now cube.now.width cube.now.lits }
    ensures kept { IsKept scratch.old scratch.new }
    ensures made { IsFor protocol.now scratch.new }
    ensures none { result ≡ Ok None → IsConsistent protocol.now cube.now.width cube.now.lits → ⊥ }
    ensures chosen { IfOk result (λ found. IfSome found (IsChosenState protocol.now cube.now.width cube.now.lits)) }
    ensures satisfied { IfOk result (λ found. IfSome found (Fulfils protocol.now cube.now.width cube.now.lits)) }
    ensures small { IfOk result (λ found. IfSome found HasSmallIntegers) }
{
    chosen_state(
        alloc,
        &mut scratch.masks,
        &mut scratch.classes,
        &mut scratch.integers,
        protocol,
        cube.width,
        cube.lits.as_slice(),
        &[],
    )
}

/// The chosen state of the cube's literals together with those of the start conjunction at each of its places, or at one
/// place where it has none. None exactly where the start formula has no conjunction or they are inconsistent.
pub fn state_with_start(
    alloc: Global,
    scratch: &mut Scratch,
    protocol: &Protocol,
    cube: &Cube,
) -> Result<Option<State>, Memory>
    requires made { IsFor protocol.now scratch.old }
    requires fitting { AreFitting protocol.now cube.now.width cube.now.lits }
    ensures kept { IsKept scratch.old scratch.new }
    ensures made { IsFor protocol.now scratch.new }
    ensures none { result ≡ Ok None → IsConsistentWithStart protocol.now cube.now.width cube.now.lits → ⊥ }
    ensures some { IfOk result (λ found. IfSome found (λ s. has_start protocol.now.start ≡ true)) }
    ensures chosen { IfOk result (λ found. IfSome found (IsChosenState protocol.now (start_width cube.now.width) (with_start_literals protocol.now cube.now.width cube.now.lits))) }
    ensures small { IfOk result (λ found. IfSome found HasSmallIntegers) }
{
    if !scratch.has_start {
        return Ok(None);
    }
    let width = cube.width.max(1);
    let start = first_places(&scratch.start, scratch.each, width);
    chosen_state(
        alloc,
        &mut scratch.masks,
        &mut scratch.classes,
        &mut scratch.integers,
        protocol,
        width,
        cube.lits.as_slice(),
        start,
    )
}
