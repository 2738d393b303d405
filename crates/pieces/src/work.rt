//! The work record of a search: one draft of a piece, whose lists grow at their ends and are cut back. It is made once, and
//! is all that the search holds beside the pieces that are kept.

ghost use Rattle.std.specs.Prelude.{◌≡◌, ◌<◌, ◌≤◌, ◌^◌, ◌++◌, ◌∷◌, [], map, take, true, length, slice_set, slice_index_or, OnOk, IfOk, IsTrue};
ghost use Rattle.std.specs.List.{list_all};
ghost use Rattle.cub_proto.specs.StateOf.{signature_of};
ghost use Rattle.cub_proto.specs.Fits.{literal_fits};
ghost use Rattle.cub_proto.specs.Negation.{negated};
ghost use Rattle.cub_cube.specs.Rename.{is_within, renamed};
ghost use Rattle.cub_cube.specs.Replace.{constant};
ghost use Rattle.updates.specs.Ways.{way, condition};
ghost use Rattle.updates.specs.Chosen.{choice, reading_places};
ghost use Rattle.piece_choices.specs.Picks.{pick};
ghost use Rattle.piece_steps.specs.Steps.{at_place, at_new_place, guarded, permitted, branched, failed, picked, choice_at, first_draft};
ghost use Rattle.cub_proto.specs.declared.literal.Term.{Term};
ghost use Rattle.pieces.specs.Marks.{mark_of, choice_back, cut_back};
ghost use Rattle.pieces.specs.Handed.{label_of};

use cub_base::{Items, Memory, Places};
use cub_cube::renamed;
use cub_proto::{Lit, Lits, Protocol, Term, Transition, Update, Value};
use piece_choices::Label;
use std::alloc::{AllocError, Global};
use std::marker::Model;
use updates::{Choice, condition, push_renamed, reading_places};

/// A draft of a piece: what the choices so far give. `values` is room for the values of terms; no contract sees it.
#[derive(Drop)]
pub struct Work {
    pub(crate) params: Places,
    pub(crate) inner: u8,
    pub(crate) width: u8,
    pub(crate) guard: u8,
    pub(crate) others: Vec<u8>,
    pub(crate) choices: Vec<Choice>,
    pub(crate) lits: Lits,
    pub(crate) values: Vec<Value>,
}

impl Model for Work {
    ghost use Rattle.piece_steps.specs.Steps.{Draft};

    ghost Value = { Draft };

    ghost view = { λ w. record { params = w.params; inner = w.inner; width = w.width; guard = w.guard; others = w.others.items; choices = w.choices.items; lits = w.lits } };
}

/// What a work record is cut back to: the lengths of its lists, and what one step may change.
#[derive(Clone, Copy)]
pub(crate) struct Mark {
    params: usize,
    inner: u8,
    width: u8,
    guard: u8,
    others: usize,
    pub(crate) lits: usize,
    term: usize,
    branch: u8,
    fails: usize,
    pick: Option<Value>,
}

fn plain_choice(alloc: Global, term: Term) -> Choice
    ensures { result ≡ choice term (way 0 []) }
{
    Choice {
        term,
        branch: 0,
        fails: Items::new(alloc),
        pick: None,
    }
}

fn plain_choices(alloc: Global, terms: &[Term]) -> Result<Vec<Choice>, AllocError>
    ensures { IfOk result (λ choices. choices.items ≡ map (λ u. choice u (way 0 [])) terms.now) }
{
    let mut choices = Vec::with_capacity(alloc, terms.len())?;
    for term in terms {
        choices.push(plain_choice(alloc, *term))?;
    }
    Ok(choices)
}

fn copied_choice(choice: &Choice) -> Result<Choice, AllocError>
    ensures { IfOk result (λ copy. copy ≡ choice.now) }
{
    let fails = choice.fails.copy()?;
    Ok(Choice {
        term: choice.term,
        branch: choice.branch,
        fails,
        pick: choice.pick,
    })
}

fn copied_choices(alloc: Global, choices: &[Choice]) -> Result<Items<Choice>, AllocError>
    ensures { IfOk result (λ copy. copy ≡ choices.now) }
{
    let mut copy = Items::with_room(alloc, choices.len())?;
    for choice in choices {
        copy.push(copied_choice(choice)?)?;
    }
    Ok(copy)
}

fn places_of(alloc: Global, places: &[u8]) -> Places
    requires { length places.now ≤ 12 }
    ensures { result ≡ places.now }
{
    let mut copy = Places::new(alloc);
    for place in places {
        copy.push(*place);
    }
    copy
}

fn set_branch(choice: &mut Choice, branch: u8)
    ensures { choice.new ≡ record choice.old { branch = branch } }
{
    choice.branch = branch;
}

fn push_fail(choice: &mut Choice, fail: u8) -> Result<(), AllocError>
    ensures { OnOk result (choice.new ≡ record choice.old { fails = choice.old.fails ++ fail ∷ [] }) }
{
    choice.fails.push(fail)?;
    Ok(())
}

// The negation of the literal with that number, at the places where the update is read.
fn failing_literal(protocol: &Protocol, places: &[u8], cond: &[Lit], f: u8) -> Lit
    requires few { length places.now < 2 ^ 16 }
    requires inside { f < length cond.now }
    requires fits { IsTrue (list_all (literal_fits (signature_of protocol.now) (length places.now)) cond.now) }
    ensures { result ≡ renamed places.now (negated (signature_of protocol.now) (slice_index_or cond.now f (constant true))) }
{
    let opposite = cub_proto::negated(protocol, places.len() as u16, &cond[f as usize]);
    renamed(places, &opposite)
}

// The branch, the number of fails and the pick of a choice; those of a plain one where there is none.
fn choice_parts(choices: &[Choice], term: usize) -> (u8, usize, Option<Value>)
    ensures branch { result.0 ≡ (slice_index_or choices.now term (choice (Term.Global 0) (way 0 []))).branch }
    ensures fails { result.1 ≡ length (slice_index_or choices.now term (choice (Term.Global 0) (way 0 []))).fails }
    ensures pick { result.2 ≡ (slice_index_or choices.now term (choice (Term.Global 0) (way 0 []))).pick }
{
    match choices.get(term) {
        Some(choice) => (choice.branch, choice.fails.len(), choice.pick),
        None => (0, 0, None),
    }
}

fn cut_choice(choice: &mut Choice, mark: &Mark)
    ensures { choice.new ≡ choice_back mark.now choice.old }
{
    choice.branch = mark.branch;
    choice.fails.truncate(mark.fails);
    choice.pick = mark.pick;
}

fn cut_choices(choices: &mut [Choice], mark: &Mark)
    ensures { choices.new ≡ slice_set choices.old mark.now.term (choice_back mark.now (slice_index_or choices.old mark.now.term (choice (Term.Global 0) (way 0 [])))) }
{
    if mark.term < choices.len() {
        cut_choice(&mut choices[mark.term], mark);
    }
}

impl Work {
    /// The first draft for a cube of that width with these terms.
    pub(crate) fn new(alloc: Global, width: u8, terms: &[Term]) -> Result<Work, AllocError>
        ensures { IfOk result (λ w. w ≡ first_draft width terms.now) }
    {
        let choices = plain_choices(alloc, terms)?;
        Ok(Work {
            params: Places::new(alloc),
            inner: width,
            width,
            guard: 0,
            others: Vec::new(alloc),
            choices,
            lits: Items::new(alloc),
            values: Vec::with_capacity(alloc, terms.len())?,
        })
    }

    /// The label that the draft has for the transition with that number.
    pub fn label(&self, transition: u16) -> Result<Label, Memory>
        requires { length self.now.others ≤ 12 }
        ensures { IfOk result (λ l. l ≡ label_of transition self.now) }
    {
        let alloc = self.lits.allocator();
        let choices = copied_choices(alloc, self.choices.as_slice())?;
        Ok(Label {
            transition,
            params: self.params.copy(),
            guard: self.guard,
            others: places_of(alloc, self.others.as_slice()),
            choices,
        })
    }

    pub(crate) fn place(&mut self, q: u8)
        requires { length self.old.params < 12 }
        ensures { self.new ≡ at_place self.old q }
    {
        self.params.push(q);
    }

    pub(crate) fn place_new(&mut self)
        requires room { length self.old.params < 12 }
        requires narrow { self.old.inner < 255 }
        ensures { self.new ≡ at_new_place self.old }
    {
        self.params.push(self.inner);
        self.inner += 1;
        self.width = self.inner;
    }

    pub(crate) fn take_guard(&mut self, transition: &Transition, n: u8) -> Result<(), AllocError>
        requires there { n < length transition.now.guard }
        requires within { IsTrue (list_all (is_within (length self.old.params)) (slice_index_or transition.now.guard n [])) }
        ensures { OnOk result (self.new ≡ guarded transition.now self.old n) }
    {
        self.guard = n;
        let alternatives = transition.guard.as_slice();
        push_renamed(
            &mut self.lits,
            self.params.as_slice(),
            alternatives[n as usize].as_slice(),
        )
    }

    pub(crate) fn permit(&mut self, transition: &Transition, q: u8, n: u8) -> Result<(), AllocError>
        requires there { n < length transition.now.others }
        requires room { length self.old.params < 12 }
        requires within { IsTrue (list_all (is_within (length (self.old.params ++ q ∷ []))) (slice_index_or transition.now.others n [])) }
        ensures { OnOk result (self.new ≡ permitted transition.now self.old q n) }
    {
        let mut places = self.params.copy();
        places.push(q);
        self.others.push(n)?;
        let alternatives = transition.others.as_slice();
        push_renamed(
            &mut self.lits,
            places.as_slice(),
            alternatives[n as usize].as_slice(),
        )
    }

    fn places_at(&self, i: usize) -> Places
        requires there { i < length self.now.choices }
        requires room { length self.now.params < 12 }
        ensures { result ≡ reading_places self.now.params (choice_at self.now i).term }
    {
        reading_places(
            self.lits.allocator(),
            self.params.as_slice(),
            self.choices[i].term,
        )
    }

    pub(crate) fn take_branch(&mut self, update: &Update, i: usize, n: u8) -> Result<(), AllocError>
        requires there { i < length self.old.choices }
        requires room { length self.old.params < 12 }
        requires within { IsTrue (list_all (is_within (length (reading_places self.old.params (choice_at self.old i).term))) (condition update.now.branches n)) }
        ensures { OnOk result (self.new ≡ branched self.old i (choice_at self.old i) update.now n) }
    {
        let places = self.places_at(i);
        set_branch(&mut self.choices[i], n);
        push_renamed(
            &mut self.lits,
            places.as_slice(),
            condition(update.branches.as_slice(), n),
        )
    }

    pub(crate) fn take_fail(
        &mut self,
        protocol: &Protocol,
        i: usize,
        cond: &[Lit],
        f: u8,
    ) -> Result<(), AllocError>
        requires there { i < length self.old.choices }
        requires room { length self.old.params < 12 }
        requires inside { f < length cond.now }
        requires fits { IsTrue (list_all (literal_fits (signature_of protocol.now) (length (reading_places self.old.params (choice_at self.old i).term))) cond.now) }
        ensures { OnOk result (self.new ≡ failed (signature_of protocol.now) self.old i (choice_at self.old i) cond.now f) }
    {
        let places = self.places_at(i);
        push_fail(&mut self.choices[i], f)?;
        self.lits
            .push(failing_literal(protocol, places.as_slice(), cond, f))?;
        Ok(())
    }

    pub(crate) fn take_pick(&mut self, i: usize, value: Value, width: u8)
        requires { i < length self.old.choices }
        ensures { self.new ≡ picked self.old i (choice_at self.old i) (pick width value) }
    {
        let choice = &mut self.choices[i];
        choice.pick = Some(value);
        self.width = width;
    }

    /// What to cut back to, where the choice of the term with that number may change.
    pub(crate) fn mark(&self, term: usize) -> Mark
        ensures { result ≡ mark_of term self.now }
    {
        let (branch, fails, pick) = choice_parts(self.choices.as_slice(), term);
        Mark {
            params: self.params.len(),
            inner: self.inner,
            width: self.width,
            guard: self.guard,
            others: self.others.len(),
            lits: self.lits.len(),
            term,
            branch,
            fails,
            pick,
        }
    }

    /// Keeps the first literals, so many.
    pub(crate) fn cut_lits(&mut self, count: usize)
        ensures { self.new ≡ record self.old { lits = take count self.old.lits } }
    {
        self.lits.truncate(count);
    }

    /// Cuts back to the mark.
    pub(crate) fn cut(&mut self, mark: &Mark)
        ensures { self.new ≡ cut_back mark.now self.old }
    {
        self.params.truncate(mark.params);
        self.inner = mark.inner;
        self.width = mark.width;
        self.guard = mark.guard;
        self.others.truncate(mark.others);
        cut_choices(self.choices.as_mut_slice(), mark);
        self.lits.truncate(mark.lits);
    }
}
