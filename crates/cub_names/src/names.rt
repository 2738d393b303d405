//! What the names of a text stand for, once its declarations have no fault: the protocol that is declared, without a start
//! formula, goals and transitions yet, and a map from names.

ghost use Rattle.std.specs.Prelude.{◌≡◌, ◌+◌, ◌<◌, ◌≤◌, [], None, Some, Err, length, map, IfOk, OnOk, IfSome, IsTrue, ℕ, List, if◌then◌else◌, bytes_eq};
ghost use Rattle.cub_proto.specs.StateOf.{signature_of};
ghost use Rattle.cub_names.specs.declared.fault.TypeKind.{TypeKind};
ghost use Rattle.cub_names.specs.declared.fault.TypeFault.TheVariants as faults;
ghost use Rattle.cub_names.specs.Checked.{fault, first_of_all};
ghost use Rattle.cub_names.specs.Words.{word_of};
ghost use Rattle.cub_names.specs.Seen.{value_in};
ghost use Rattle.cub_names.specs.Meaning.{stands_for, what_fits, constructor_from, constructors_from, global_from, array_from, or_else};
ghost use Rattle.std.specs.Prelude.{IfErr, All};
ghost use Rattle.cub_names.specs.Declarations.{declared, declared_faults, faults_among, words_of, types_of};
ghost use Rattle.cub_names.specs.Answers.{IsVerdict, IsJudged, IsNamed};

use crate::fault::{Fault, TypeFault};
use crate::faults::declared_faults;
use crate::meaning::What;
use crate::types::{TypeNames, type_names};
use crate::values::base_of;
use crate::words::word;
use cub_base::Name;
use cub_parse::{DeclNode, Leaf};
use cub_proto::{Decl, Protocol, SortDecl};
use indexmap::IndexMap;
use std::alloc::{AllocError, Global};
use std::marker::Model;

/// The text, what it declares, and what names stand for.
#[derive(Debug, Drop)]
pub struct Names<'a> {
    text: &'a [u8],
    base: Protocol,
    values: IndexMap<Vec<u8>, What>,
}

impl<'a> Model for Names<'a> {
    ghost use Rattle.std.specs.Prelude.{List, ℕ, ◌≡◌};
    ghost use Rattle.cub_proto.specs.StateOf.{signature_of};
    ghost use Rattle.cub_names.specs.Meaning.{Frame, stands_for};
    ghost use Rattle.cub_names.specs.Seen.{value_in};

    ghost Value = { Frame };

    ghost view = { λ n. record { text = n.text.now; sig = signature_of n.base } };

    ghost invariant = { λ n. (q : List ℕ) → value_in n.values q ≡ stands_for (signature_of n.base) q };
}

/// Puts the meaning at the name.
fn put(values: &mut IndexMap<Vec<u8>, What>, name: &Name, what: What) -> Result<(), AllocError>
    ensures { OnOk result ((q : List ℕ) → value_in values.new q ≡ (if bytes_eq name.now q then Some what else value_in values.old q)) }
{
    let key = Vec::from_slice(name.allocator(), name.as_slice())?;
    values.insert(key, what)?;
    Ok(())
}

/// What the map has at the name.
fn found(values: &IndexMap<Vec<u8>, What>, name: &[u8]) -> Option<What>
    ensures { result ≡ value_in values.now name.now }
{
    values.get(name).copied()
}

fn put_arrays(values: &mut IndexMap<Vec<u8>, What>, arrays: &[Decl]) -> Result<(), AllocError>
    requires { length arrays.now ≤ 32 }
    ensures { OnOk result ((q : List ℕ) → value_in values.new q ≡ or_else (array_from 0 arrays.now q) (value_in values.old q)) }
{
    let mut left = arrays.len();
    while left > 0 {
        let decl = &arrays[left - 1];
        put(
            values,
            &decl.name,
            What::Array((left - 1) as u16, decl.sort),
        )?;
        left -= 1;
    }
    Ok(())
}

fn put_globals(values: &mut IndexMap<Vec<u8>, What>, globals: &[Decl]) -> Result<(), AllocError>
    requires { length globals.now ≤ 64 }
    ensures { OnOk result ((q : List ℕ) → value_in values.new q ≡ or_else (global_from 0 globals.now q) (value_in values.old q)) }
{
    let mut left = globals.len();
    while left > 0 {
        let decl = &globals[left - 1];
        put(
            values,
            &decl.name,
            What::Global((left - 1) as u16, decl.sort),
        )?;
        left -= 1;
    }
    Ok(())
}

fn put_cons(
    values: &mut IndexMap<Vec<u8>, What>,
    sort: u16,
    cons: &[Name],
) -> Result<(), AllocError>
    requires { length cons.now ≤ 64 }
    ensures { OnOk result ((q : List ℕ) → value_in values.new q ≡ or_else (constructor_from sort 0 cons.now q) (value_in values.old q)) }
{
    let mut left = cons.len();
    while left > 0 {
        put(values, &cons[left - 1], What::Con(sort, (left - 1) as u8))?;
        left -= 1;
    }
    Ok(())
}

fn put_sorts(values: &mut IndexMap<Vec<u8>, What>, sorts: &[SortDecl]) -> Result<(), AllocError>
    requires few { length sorts.now ≤ 257 }
    requires small { All (λ d. length d.cons ≤ 64) sorts.now }
    ensures { OnOk result ((q : List ℕ) → value_in values.new q ≡ or_else (constructors_from 0 sorts.now q) (value_in values.old q)) }
{
    let mut left = sorts.len();
    while left > 0 {
        let decl = &sorts[left - 1];
        put_cons(values, (left - 1) as u16, decl.cons.as_slice())?;
        left -= 1;
    }
    Ok(())
}

#[tactic(auto, using(crate::proofs::SortsFew::few_constructors))]
fn fill(alloc: Global, base: &Protocol) -> Result<IndexMap<Vec<u8>, What>, AllocError>
    ensures { IfOk result (λ values. (q : List ℕ) → value_in values q ≡ stands_for (signature_of base.now) q) }
{
    let mut values = IndexMap::new(alloc);
    put_arrays(&mut values, base.arrays.as_slice())?;
    put_globals(&mut values, base.globals.as_slice())?;
    put_sorts(&mut values, base.sorts.as_slice())?;
    Ok(values)
}

impl<'a> Names<'a> {
    ghost use Rattle.cub_proto.specs.StateOf.{signature_of};
    ghost use Rattle.cub_names.specs.Meaning.{stands_for, what_fits};
    ghost use Rattle.cub_names.specs.Sides.{what_is_small};

    /// The bytes of the leaf.
    pub fn word(&self, leaf: &Leaf) -> &[u8]
        ensures { result.now ≡ word_of self.now.text leaf.now }
    {
        word(self.text, leaf)
    }

    /// What the name stands for, if it is declared as a constructor, a global or an array.
    pub fn stands_for(&self, name: &[u8]) -> Option<What>
        ensures value { result ≡ stands_for self.now.sig name.now }
        ensures fits { IfSome result (λ what. IsTrue (what_fits self.now.sig what)) }
        ensures small { IfSome result (λ what. IsTrue (what_is_small what)) }
    {
        found(&self.values, name)
    }

    /// The text.
    pub fn text(&self) -> &[u8]
        ensures { result.now ≡ self.now.text }
    {
        self.text
    }

    /// The protocol that is declared, without a start formula, goals and transitions.
    pub fn base(&self) -> &Protocol
        ensures { signature_of result.now ≡ self.now.sig }
    {
        &self.base
    }

    /// The protocol that is declared, taken out.
    pub fn into_base(self) -> Protocol
        ensures { signature_of result ≡ self.entry.sig }
    {
        let Names {
            text: _,
            base,
            values: _,
        } = self;
        base
    }
}

/// Takes the value of an option that is there, as an error.
fn refused(first: Option<Fault>) -> Result<(), TypeFault>
    ensures { IsVerdict result first }
{
    match first {
        None => Ok(()),
        Some(Fault { token, kind }) => Err(TypeFault::Fault { token, kind }),
    }
}

fn named_base<'a>(
    alloc: Global,
    text: &'a [u8],
    types: &TypeNames,
    decls: &[DeclNode],
) -> Result<Names<'a>, TypeFault>
    requires types { types.now ≡ words_of text.now (types_of decls.now) }
    requires none { declared_faults text.now decls.now ≡ [] }
    ensures value { IfOk result (λ names. (names.text ≡ text.now) × (names.sig ≡ declared text.now decls.now)) }
    ensures memory { IfErr result (λ e. e ≡ faults.Memory) }
{
    let base = match base_of(alloc, text, types, decls) {
        Ok(base) => base,
        Err(_) => return Err(TypeFault::Memory),
    };
    match fill(alloc, &base) {
        Ok(values) => Ok(Names { text, base, values }),
        Err(_) => Err(TypeFault::Memory),
    }
}

#[tactic(auto, using(crate::proofs::FirstFault::none_told))]
fn judged(
    alloc: Global,
    text: &[u8],
    decls: &[DeclNode],
    types: &TypeNames,
) -> Result<(), TypeFault>
    ensures { IsJudged result (faults_among text.now types.now decls.now) }
{
    let mut first = None;
    match declared_faults(alloc, text, decls, types, &mut first) {
        Ok(()) => refused(first),
        Err(_) => Err(TypeFault::Memory),
    }
}

fn names_among<'a>(
    alloc: Global,
    text: &'a [u8],
    decls: &[DeclNode],
    types: &TypeNames,
) -> Result<Names<'a>, TypeFault>
    requires { types.now ≡ words_of text.now (types_of decls.now) }
    ensures { IsNamed result text.now decls.now }
{
    match judged(alloc, text, decls, types) {
        Ok(()) => named_base(alloc, text, types, decls),
        Err(e) => Err(e),
    }
}

/// What the names of a text stand for, or the first fault of its declarations.
pub fn names_of<'a>(
    alloc: Global,
    text: &'a [u8],
    decls: &[DeclNode],
) -> Result<Names<'a>, TypeFault>
    ensures { IsNamed result text.now decls.now }
{
    match type_names(alloc, text, decls) {
        Ok(types) => names_among(alloc, text, decls, &types),
        Err(_) => Err(TypeFault::Memory),
    }
}
