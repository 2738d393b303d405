//! What a protocol declares, lent: enough to say which literals and values fit, before the protocol itself stands.

ghost use Rattle.std.specs.Prelude.{◌≡◌, ◌==◌, ◌<◌, ◌≤◌, ◌-◌, ◌^◌, length, nat_lt};
ghost use Rattle.std.specs.Option.{option_copied, option_map_or};

use crate::literal::{Sort, Term};
use crate::protocol::{Decl, SortDecl};
use crate::transition::Target;
use std::marker::Model;

/// The declared sorts, globals and arrays, lent.
#[derive(Debug, Drop)]
pub struct Declared<'a> {
    sorts: &'a [SortDecl],
    globals: &'a [Decl],
    arrays: &'a [Decl],
}

impl<'a> Model for Declared<'a> {
    ghost use Rattle.cub_proto.specs.Signature.{Signature, signature};

    ghost Value = { Signature };

    ghost view = { λ d. signature d.sorts.now d.globals.now d.arrays.now };
}

impl<'a> Declared<'a> {
    ghost use Rattle.cub_proto.specs.Signature.{signature, declared_sort, sort_of, target_sort, constructors_of, constructors_at};

    /// What these lists declare.
    pub fn new(sorts: &'a [SortDecl], globals: &'a [Decl], arrays: &'a [Decl]) -> Declared<'a>
        ensures { result ≡ signature sorts.now globals.now arrays.now }
    {
        Declared {
            sorts,
            globals,
            arrays,
        }
    }

    /// The sort of a global, if it is declared.
    pub fn global_sort(&self, global: u16) -> Option<Sort>
        ensures { result ≡ declared_sort self.now.globals global }
    {
        self.globals.get(global as usize).map(|decl| decl.sort)
    }

    /// The sort of an array's cells, if it is declared.
    pub fn array_sort(&self, array: u16) -> Option<Sort>
        ensures { result ≡ declared_sort self.now.arrays array }
    {
        self.arrays.get(array as usize).map(|decl| decl.sort)
    }

    /// The sort of a term.
    pub fn sort_of(&self, term: Term) -> Option<Sort>
        ensures { result ≡ sort_of self.now term }
    {
        match term {
            Term::Global(global) => self.global_sort(global),
            Term::Cell(array, _) => self.array_sort(array),
        }
    }

    /// The sort of a target.
    pub fn target_sort(&self, target: Target) -> Option<Sort>
        ensures { result ≡ target_sort self.now target }
    {
        match target {
            Target::Global(global) => self.global_sort(global),
            Target::Array(array) => self.array_sort(array),
        }
    }

    /// The number of constructors of a finite sort; 0 for any other.
    pub fn constructors_of(&self, sort: Sort) -> usize
        ensures { result ≡ constructors_of self.now sort }
    {
        match sort {
            Sort::Fin(number) => match self.sorts.get(number as usize) {
                Some(decl) => decl.cons.len(),
                None => 0,
            },
            Sort::Proc | Sort::Int => 0,
        }
    }

    /// The number of constructors of a term's sort.
    pub fn constructors_at(&self, term: Term) -> usize
        ensures { result ≡ constructors_at self.now term }
    {
        match self.sort_of(term) {
            Some(sort) => self.constructors_of(sort),
            None => 0,
        }
    }
}
