//! States. A state keeps one flag a process, one value a global and one list of cells an array, so that a step writes
//! whole lists in order; contracts see these lists.

ghost use Rattle.std.specs.Prelude.{◌≡◌, ◌<◌, ◌^◌, length, IfOk, map, replicate};
ghost use Rattle.cub_proto.specs.First.{first_value};

use crate::literal::Sort;
use crate::protocol::{Decls, Protocol};
use cub_base::{Items, Memory};
use std::alloc::{AllocError, Global};
use std::marker::Model;

/// A value: the number of a constructor, a process, or an integer.
#[derive(Clone, Copy, Debug, PartialEq, Eq)]
pub enum Val {
    Con(u8),
    Proc(u32),
    Int(i64),
}

/// What a state has a value for: a global, or the cell of an array for a process.
#[derive(Clone, Copy, Debug, PartialEq, Eq, PartialOrd, Ord)]
pub enum Slot {
    Global(u16),
    Cell(u16, u32),
}

/// The cells of an array, by process.
pub type Cells = Items<Val>;

/// A state. It has at least one process; crashed processes keep their cells.
#[derive(Debug, Drop)]
pub struct State {
    alive: Vec<bool>,
    globals: Vec<Val>,
    arrays: Vec<Cells>,
}

impl Model for State {
    ghost use Rattle.cub_proto.specs.Configuration.{Configuration, IsSmall};

    ghost Value = { Configuration };

    ghost view = { λ s. record { living = s.alive.items; globals = s.globals.items; arrays = s.arrays.items } };

    ghost invariant = { λ s. IsSmall s.alive.items s.globals.items s.arrays.items };
}

impl State {
    ghost use Rattle.cub_proto.specs.StateOf.{first_state};
    ghost use Rattle.cub_proto.specs.Configuration.{process_count, is_alive, value_at, cells_of, HasSlot, put, killed};

    /// The state of so many processes where all are alive, and each value is the first constructor, process 0 or 0.
    pub fn new(alloc: Global, protocol: &Protocol, processes: u32) -> Result<State, Memory>
        requires { 0 < processes }
        ensures { IfOk result (λ s. s ≡ first_state protocol.now processes) }
    {
        let alive = vec![in alloc; true; processes as usize]?;
        let globals = first_globals(alloc, &protocol.globals)?;
        let arrays = first_arrays(alloc, &protocol.arrays, processes)?;
        Ok(State {
            alive,
            globals,
            arrays,
        })
    }

    /// An equal state.
    pub fn copy(&self) -> Result<State, Memory>
        ensures { IfOk result (λ s. s ≡ self.now) }
    {
        let alloc = *self.alive.allocator();
        let alive = Vec::from_slice(alloc, self.alive.as_slice())?;
        let globals = Vec::from_slice(alloc, self.globals.as_slice())?;
        let arrays = copied_arrays(alloc, self.arrays.as_slice())?;
        Ok(State {
            alive,
            globals,
            arrays,
        })
    }

    /// The number of processes, alive or dead.
    pub fn processes(&self) -> u32
        ensures { result ≡ process_count self.now }
    {
        self.alive.len() as u32
    }

    /// The value at a slot.
    pub fn get(&self, slot: Slot) -> Val
        requires { HasSlot self.now slot }
        ensures { result ≡ value_at self.now slot }
    {
        match slot {
            Slot::Global(global) => self.globals[global as usize],
            Slot::Cell(array, process) => self.arrays[array as usize].as_slice()[process as usize],
        }
    }

    /// Changes the value at a slot, and nothing else.
    pub fn set(&mut self, slot: Slot, val: Val)
        requires { HasSlot self.old slot }
        ensures { self.new ≡ put self.old slot val }
    {
        match slot {
            Slot::Global(global) => self.globals[global as usize] = val,
            Slot::Cell(array, process) => self.arrays[array as usize].set(process as usize, val),
        }
    }

    /// Whether the process is alive.
    pub fn alive(&self, process: u32) -> bool
        requires { process < process_count self.now }
        ensures { result ≡ is_alive self.now process }
    {
        self.alive[process as usize]
    }

    /// Makes the process dead, and changes nothing else.
    pub fn kill(&mut self, process: u32)
        requires { process < process_count self.old }
        ensures { self.new ≡ killed self.old process }
    {
        self.alive[process as usize] = false;
    }

    /// The values of the globals, by number.
    pub fn globals(&self) -> &[Val]
        ensures { result.now ≡ self.now.globals }
    {
        self.globals.as_slice()
    }

    /// The cells of an array, by process.
    pub fn cells(&self, array: u16) -> &[Val]
        requires { array < length self.now.arrays }
        ensures { result.now ≡ cells_of self.now array }
    {
        self.arrays[array as usize].as_slice()
    }
}

fn first_value(sort: Sort) -> Val
    ensures { result ≡ first_value sort }
{
    match sort {
        Sort::Fin(_) => Val::Con(0),
        Sort::Proc => Val::Proc(0),
        Sort::Int => Val::Int(0),
    }
}

fn first_globals(alloc: Global, decls: &Decls) -> Result<Vec<Val>, AllocError>
    ensures { IfOk result (λ vals. vals.items ≡ map (λ d. first_value d.sort) decls.now) }
{
    decls
        .as_slice()
        .iter()
        .map(|decl| first_value(decl.sort))
        .collect(alloc)
}

fn first_arrays(alloc: Global, decls: &Decls, processes: u32) -> Result<Vec<Cells>, AllocError>
    ensures { IfOk result (λ arrays. arrays.items ≡ map (λ d. replicate processes (first_value d.sort)) decls.now) }
{
    let mut arrays = Vec::with_capacity(alloc, decls.len())?;
    for decl in decls.as_slice() {
        arrays.push(Items::filled(alloc, first_value(decl.sort), processes as usize)?)?;
    }
    Ok(arrays)
}

fn copied_arrays(alloc: Global, arrays: &[Cells]) -> Result<Vec<Cells>, AllocError>
    ensures { IfOk result (λ copies. copies.items ≡ arrays.now) }
{
    let mut copies = Vec::with_capacity(alloc, arrays.len())?;
    for cells in arrays {
        copies.push(cells.copy()?)?;
    }
    Ok(copies)
}
