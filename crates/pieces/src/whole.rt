//! The cube of a whole draft: its literals, and those of the cube after the step with each term replaced by its value.

ghost use Rattle.std.specs.Prelude.{◌≡◌, ◌<◌, ◌++◌, ◌↔◌, [], map, length, IsTrue, IfOk, IfSome, IfNone, OnOk};
ghost use Rattle.std.specs.List.{list_all};
ghost use Rattle.cub_proto.specs.StateOf.{signature_of};
ghost use Rattle.cub_proto.specs.Fits.{literal_fits, is_bounded, update_fits};
ghost use Rattle.cub_cube.specs.Meaning.{IsConsistent};
ghost use Rattle.cub_cube.specs.Normal.{normal_form};
ghost use Rattle.cub_cube.specs.Replace.{replaced, can_replace_all};
ghost use Rattle.theory_laws.specs.Fitting.{AreFitting};
ghost use Rattle.theory.specs.Made.{IsFor, IsKept};
ghost use Rattle.updates.specs.Chosen.{value_in, taken_value};
ghost use Rattle.updates.specs.Sides.{most_bound};
ghost use Rattle.updates.specs.Through.{literal_before};
ghost use Rattle.pieces.specs.Jobs.{IsWhole, Stands, whole_lits, cube_of};

use crate::alone::may_be_met;
use crate::job::Job;
use crate::work::Work;
use cub_base::Memory;
use cub_cube::Cube;
use cub_proto::{Lit, Lits, Protocol, Term, Transition, Update, Value};
use std::alloc::{AllocError, Global};
use theory::Scratch;
use updates::{Choice, replaced, taken_value};

fn fill_values(
    values: &mut Vec<Value>,
    alloc: Global,
    protocol: &Protocol,
    updates: &[Update],
    params: &[u8],
    choices: &[Choice],
) -> Result<(), AllocError>
    requires few { length params.now < 12 }
    requires fit { IsTrue (list_all (update_fits (signature_of protocol.now) (length params.now)) updates.now) }
    ensures { OnOk result (values.new.items ≡ map (taken_value updates.now params.now) choices.now) }
{
    values.clear();
    for choice in choices {
        values.push(taken_value(alloc, protocol, updates, params, choice))?;
    }
    Ok(())
}

fn push_replaced(
    protocol: &Protocol,
    width: u16,
    lits: &mut Lits,
    terms: &[Term],
    values: &[Value],
    more: &[Lit],
) -> Result<(), AllocError>
    requires size { length values.now ≡ length terms.now }
    requires fits { IsTrue (list_all (literal_fits (signature_of protocol.now) width) more.now) }
    requires can { IsTrue (list_all (can_replace_all (signature_of protocol.now) width (value_in terms.now values.now)) more.now) }
    requires bounded { IsTrue (list_all (is_bounded most_bound) more.now) }
    ensures { OnOk result (lits.new ≡ lits.old ++ map (replaced (signature_of protocol.now) (value_in terms.now values.now)) more.now) }
{
    for lit in more {
        lits.push(replaced(protocol, width, terms, values, lit))?;
    }
    Ok(())
}

// Appends the literals as they are before the step.
fn push_before(
    protocol: &Protocol,
    updates: &[Update],
    terms: &[Term],
    work: &mut Work,
    more: &[Lit],
) -> Result<(), AllocError>
    requires few { length work.old.params < 12 }
    requires fit { IsTrue (list_all (update_fits (signature_of protocol.now) (length work.old.params)) updates.now) }
    requires terms { terms.now ≡ map (λ c. c.term) work.old.choices }
    requires fits { IsTrue (list_all (literal_fits (signature_of protocol.now) work.old.width) more.now) }
    requires can { IsTrue (list_all (can_replace_all (signature_of protocol.now) work.old.width (value_in (map (λ c. c.term) work.old.choices) (map (taken_value updates.now work.old.params) work.old.choices))) more.now) }
    requires bounded { IsTrue (list_all (is_bounded most_bound) more.now) }
    ensures { OnOk result (work.new ≡ record work.old { lits = work.old.lits ++ map (literal_before (signature_of protocol.now) updates.now work.old.params work.old.choices) more.now }) }
{
    let alloc = work.lits.allocator();
    fill_values(
        &mut work.values,
        alloc,
        protocol,
        updates,
        work.params.as_slice(),
        work.choices.as_slice(),
    )?;
    push_replaced(
        protocol,
        u16::from(work.width),
        &mut work.lits,
        terms,
        work.values.as_slice(),
        more,
    )
}

// The cube of the literals, if some state meets them; those from that number on were not looked at yet. Most drafts end here,
// before anything is put in order.
fn met_cube(
    scratch: &mut Scratch,
    protocol: &Protocol,
    width: u8,
    lits: &Lits,
    from: usize,
) -> Result<Option<Cube>, Memory>
    requires made { IsFor protocol.now scratch.old }
    requires fitting { AreFitting protocol.now width lits.now }
    ensures kept { IsKept scratch.old scratch.new }
    ensures made { IsFor protocol.now scratch.new }
    ensures some { IfOk result (λ o. IfSome o (λ c. (c ≡ record { width = width; lits = normal_form (signature_of protocol.now) lits.now }) × IsConsistent protocol.now width lits.now)) }
    ensures none { IfOk result (λ o. IfNone o (IsConsistent protocol.now width lits.now → ⊥)) }
{
    if !may_be_met(lits.as_slice(), from) {
        return Ok(None);
    }
    if !theory::are_consistent(scratch, protocol, width, lits.as_slice(), &[]) {
        return Ok(None);
    }
    let cube = Cube::of(lits.allocator(), protocol, width, lits.as_slice())?;
    Ok(Some(cube))
}

// The cube of a whole draft, which stays as it was; none where no state meets it.
fn cube_by(
    scratch: &mut Scratch,
    protocol: &Protocol,
    transition: &Transition,
    terms: &[Term],
    work: &mut Work,
    lits: &[Lit],
) -> Result<Option<Cube>, Memory>
    requires made { IsFor protocol.now scratch.old }
    requires whole { IsWhole protocol.now transition.now terms.now lits.now work.old }
    requires fitting { AreFitting protocol.now work.old.width (whole_lits (signature_of protocol.now) transition.now lits.now work.old) }
    ensures kept { IsKept scratch.old scratch.new }
    ensures made { IsFor protocol.now scratch.new }
    ensures same { OnOk result (work.new ≡ work.old) }
    ensures some { IfOk result (λ o. IfSome o (λ c. (c ≡ cube_of (signature_of protocol.now) transition.now lits.now work.old) × IsConsistent protocol.now work.old.width (whole_lits (signature_of protocol.now) transition.now lits.now work.old))) }
    ensures none { IfOk result (λ o. IfNone o (IsConsistent protocol.now work.old.width (whole_lits (signature_of protocol.now) transition.now lits.now work.old) → ⊥)) }
{
    let kept = work.lits.len();
    push_before(protocol, transition.updates.as_slice(), terms, work, lits)?;
    let cube = met_cube(scratch, protocol, work.width, &work.lits, kept)?;
    work.cut_lits(kept);
    Ok(cube)
}

/// The cube of a whole draft, which stays as it was; none where no state meets it.
pub(crate) fn whole_cube(
    job: &Job,
    scratch: &mut Scratch,
    work: &mut Work,
) -> Result<Option<Cube>, Memory>
    requires made { IsFor job.now.protocol scratch.old }
    requires stands { Stands job.now [] work.old }
    ensures kept { IsKept scratch.old scratch.new }
    ensures made { IsFor job.now.protocol scratch.new }
    ensures same { OnOk result (work.new ≡ work.old) }
    ensures some { IfOk result (λ o. IfSome o (λ c. (c ≡ cube_of (signature_of job.now.protocol) job.now.transition job.now.cube.lits work.old) × IsConsistent job.now.protocol c.width c.lits)) }
    ensures none { IfOk result (λ o. IfNone o (IsConsistent job.now.protocol work.old.width (cube_of (signature_of job.now.protocol) job.now.transition job.now.cube.lits work.old).lits → ⊥)) }
{
    cube_by(
        scratch,
        job.protocol,
        job.transition,
        job.terms,
        work,
        job.cube.lits.as_slice(),
    )
}
