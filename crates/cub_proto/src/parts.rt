//! Which lists are the parts of a protocol. `Protocol::try_new` asks each test once, in the order of the declarations.

ghost use Rattle.std.specs.Prelude.{◌≡◌, ◌+◌, ◌&&◌, ◌↔◌, All, IsTrue, count_by, bytes_eq, nat_le};
ghost use Rattle.std.specs.List.{list_all, list_any};
ghost use Rattle.cub_proto.specs.Fits.{is_any, takes_any, picks_process, target_before, targets_rise, transition_fits, goal_fits, compares_no_place, sides_alike, start_fits, sort_decl_fits, constructors_are_false_true, is_bool, sorts_fit, sort_is_there, global_fits, array_fits, integers_in, counts_fit, update_fits, formula_fits};
ghost use Rattle.cub_base.specs.Name.{is_declarable};

use crate::declared::Declared;
use crate::fits;
use crate::literal::{Lit, Lits, PSide, Sort, Value};
use crate::protocol::{Decl, Goal, SortDecl};
use crate::transition::{Branch, Target, Transition, Update};
use cub_base::{Name, is_declarable};

fn is_any(value: Value) -> bool
    ensures { result ≡ is_any value }
{
    match value {
        Value::Any => true,
        Value::Con(_) | Value::Read(_) | Value::Proc(_) | Value::Sum { .. } => false,
    }
}

fn some_branch_takes_any(branches: &[Branch]) -> bool
    ensures { result ≡ list_any (λ b. is_any b.value) branches.now }
{
    branches.iter().any(|branch| is_any(branch.value))
}

/// Whether the update can give any value.
pub fn takes_any(update: &Update) -> bool
    ensures { result ≡ takes_any update.now }
{
    is_any(update.last) || some_branch_takes_any(update.branches.as_slice())
}

/// Whether the update can give any process to a global.
pub fn picks_process(declared: &Declared, update: &Update) -> bool
    ensures { result ≡ picks_process declared.now update.now }
{
    fits::is_sort(declared.target_sort(update.target), Sort::Proc) && takes_any(update)
}

/// Whether the one target comes before the other: globals before arrays, each group by number.
pub fn target_before(a: Target, b: Target) -> bool
    ensures { result ≡ target_before a b }
{
    match (a, b) {
        (Target::Global(g), Target::Global(h)) => g < h,
        (Target::Global(_), Target::Array(_)) => true,
        (Target::Array(_), Target::Global(_)) => false,
        (Target::Array(a), Target::Array(b)) => a < b,
    }
}

fn processes_picked(declared: &Declared, updates: &[Update]) -> usize
    ensures { result ≡ count_by (picks_process declared.now) updates.now }
{
    updates
        .iter()
        .filter(|update| picks_process(declared, update))
        .count()
}

fn updates_fit(declared: &Declared, params: u8, updates: &[Update]) -> bool
    ensures { result ≡ list_all (update_fits declared.now params) updates.now }
{
    updates
        .iter()
        .all(|update| fits::update_fits(declared, params, update))
}

/// Whether the one target comes before each of the updates' targets.
fn is_before_all(target: Target, updates: &[Update]) -> bool
    ensures { result ≡ list_all (λ v. target_before target v.target) updates.now }
{
    updates
        .iter()
        .all(|update| target_before(target, update.target))
}

/// Whether the targets rise strictly. Updates are few, at most one a global and one an array.
fn targets_rise(updates: &[Update]) -> bool
    ensures { result ≡ targets_rise updates.now }
{
    for index in 0..updates.len() {
        if !is_before_all(updates[index].target, &updates[index + 1..]) {
            return false;
        }
    }
    true
}

fn formulas_fit(declared: &Declared, transition: &Transition) -> bool
    ensures { result ≡ (formula_fits declared.now transition.now.params transition.now.guard && formula_fits declared.now (transition.now.params + 1) transition.now.others) }
{
    let params = u16::from(transition.params);
    fits::formula_fits(declared, params, transition.guard.as_slice())
        && fits::formula_fits(declared, params + 1, transition.others.as_slice())
}

fn params_fit(declared: &Declared, transition: &Transition) -> bool
    ensures { result ≡ nat_le (transition.now.params + count_by (picks_process declared.now) transition.now.updates) 3 }
{
    let picked = processes_picked(declared, transition.updates.as_slice());
    picked <= 3 && usize::from(transition.params) + picked <= 3
}

/// Whether the transition is one of a protocol with these declarations.
pub fn transition_fits(declared: &Declared, transition: &Transition) -> bool
    ensures { result ≡ transition_fits declared.now transition.now }
{
    is_declarable(transition.name.as_slice())
        && params_fit(declared, transition)
        && formulas_fit(declared, transition)
        && updates_fit(declared, transition.params, transition.updates.as_slice())
        && targets_rise(transition.updates.as_slice())
}

/// Whether each transition fits.
pub fn transitions_fit(declared: &Declared, transitions: &[Transition]) -> bool
    ensures { result ≡ list_all (transition_fits declared.now) transitions.now }
{
    transitions
        .iter()
        .all(|transition| transition_fits(declared, transition))
}

/// Whether the unsafe conjunction is one of a protocol with these declarations.
pub fn goal_fits(declared: &Declared, goal: &Goal) -> bool
    ensures { result ≡ goal_fits declared.now goal.now }
{
    goal.width <= 4 && fits::conjunction_fits(declared, u16::from(goal.width), goal.lits.as_slice())
}

/// Whether each unsafe conjunction fits.
pub fn goals_fit(declared: &Declared, goals: &[Goal]) -> bool
    ensures { result ≡ list_all (goal_fits declared.now) goals.now }
{
    goals.iter().all(|one| goal_fits(declared, one))
}

fn sides_alike(a: PSide, b: PSide) -> bool
    ensures { result ≡ sides_alike a b }
{
    match (a, b) {
        (PSide::Global(_), PSide::Global(_)) | (PSide::Place(_), PSide::Place(_)) => true,
        (PSide::Global(_), PSide::Place(_)) | (PSide::Place(_), PSide::Global(_)) => false,
    }
}

fn compares_no_place(lit: &Lit) -> bool
    ensures { result ≡ compares_no_place lit.now }
{
    match *lit {
        Lit::ProcEq { a, b } | Lit::ProcNe { a, b } => sides_alike(a, b),
        Lit::FinIn { .. } | Lit::FinEq { .. } | Lit::FinNe { .. } | Lit::Diff { .. } => true,
    }
}

fn all_compare_no_place(lits: &[Lit]) -> bool
    ensures { result ≡ list_all compares_no_place lits.now }
{
    lits.iter().all(|lit| compares_no_place(lit))
}

fn formulas_compare_no_place(conjs: &[Lits]) -> bool
    ensures { result ≡ list_all (list_all compares_no_place) conjs.now }
{
    conjs
        .iter()
        .all(|lits| all_compare_no_place(lits.as_slice()))
}

/// Whether the start formula is one of a protocol with these declarations.
pub fn start_fits(declared: &Declared, conjs: &[Lits]) -> bool
    ensures { result ≡ start_fits declared.now conjs.now }
{
    conjs.len() <= 1
        && fits::conjunctions_fit(declared, 1, conjs)
        && formulas_compare_no_place(conjs)
}

fn are_declarable(names: &[Name]) -> bool
    ensures { result ≡ list_all is_declarable names.now }
{
    names.iter().all(|name| is_declarable(name.as_slice()))
}

fn sort_decl_fits(decl: &SortDecl) -> bool
    ensures { result ≡ sort_decl_fits decl.now }
{
    let count = decl.cons.len();
    is_declarable(decl.name.as_slice())
        && 0 < count
        && count <= 64
        && are_declarable(decl.cons.as_slice())
}

fn is_word(name: &Name, word: &[u8]) -> bool
    ensures { result ≡ bytes_eq name.now word.now }
{
    name.as_slice() == word
}

fn constructors_are_false_true(cons: &[Name]) -> bool
    ensures { result ≡ constructors_are_false_true cons.now }
{
    match cons {
        [first, second] => is_word(first, b"False") && is_word(second, b"True"),
        _ => false,
    }
}

fn is_bool(decl: &SortDecl) -> bool
    ensures { result ≡ is_bool decl.now }
{
    is_word(&decl.name, b"bool") && constructors_are_false_true(decl.cons.as_slice())
}

fn sort_decls_fit(sorts: &[SortDecl]) -> bool
    ensures { result ≡ list_all sort_decl_fits sorts.now }
{
    sorts.iter().all(|decl| sort_decl_fits(decl))
}

/// Whether sort 0 is `bool` and each other sort has a name and 1 to 64 constructors.
pub fn sorts_fit(sorts: &[SortDecl]) -> bool
    ensures { result ≡ sorts_fit sorts.now }
{
    match sorts {
        [] => false,
        [first, rest @ ..] => is_bool(first) && sort_decls_fit(rest),
    }
}

fn sort_is_there(sorts: &[SortDecl], sort: Sort) -> bool
    ensures { result ≡ sort_is_there sorts.now sort }
{
    match sort {
        Sort::Fin(number) => usize::from(number) < sorts.len(),
        Sort::Proc | Sort::Int => true,
    }
}

fn global_fits(sorts: &[SortDecl], decl: &Decl) -> bool
    ensures { result ≡ global_fits sorts.now decl.now }
{
    is_declarable(decl.name.as_slice()) && sort_is_there(sorts, decl.sort)
}

fn array_fits(sorts: &[SortDecl], decl: &Decl) -> bool
    ensures { result ≡ array_fits sorts.now decl.now }
{
    is_declarable(decl.name.as_slice())
        && sort_is_there(sorts, decl.sort)
        && !fits::same_sort(decl.sort, Sort::Proc)
}

/// Whether each global has a name and a sort that is there.
pub fn globals_fit(sorts: &[SortDecl], globals: &[Decl]) -> bool
    ensures { IsTrue result ↔ All (λ d. IsTrue (global_fits sorts.now d)) globals.now }
{
    globals.iter().all(|decl| global_fits(sorts, decl))
}

/// Whether each array has a name and a sort that is there and holds no processes.
pub fn arrays_fit(sorts: &[SortDecl], arrays: &[Decl]) -> bool
    ensures { IsTrue result ↔ All (λ d. IsTrue (array_fits sorts.now d)) arrays.now }
{
    arrays.iter().all(|decl| array_fits(sorts, decl))
}

fn integers_in(decls: &[Decl]) -> usize
    ensures { result ≡ integers_in decls.now }
{
    decls
        .iter()
        .filter(|decl| fits::same_sort(decl.sort, Sort::Int))
        .count()
}

/// Whether there are not too many of anything.
pub fn counts_fit(
    sorts: &[SortDecl],
    globals: &[Decl],
    arrays: &[Decl],
    goals: &[Goal],
    transitions: &[Transition],
) -> bool
    ensures { result ≡ counts_fit sorts.now globals.now arrays.now goals.now transitions.now }
{
    sorts.len() <= 257
        && globals.len() <= 64
        && integers_in(globals) <= 16
        && arrays.len() <= 32
        && integers_in(arrays) <= 8
        && goals.len() <= 4096
        && transitions.len() <= 256
}
