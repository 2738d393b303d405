//! The typing of a whole tree. The declarations are judged first; the rest is looked at whole, and what is answered is the
//! first of its faults, or the protocol.

ghost use Rattle.std.specs.Prelude.{◌≡◌, ◌++◌, [], Some, None, IfOk, IfErr, OnOk, Err};
ghost use Rattle.cub_proto.specs.Parts.{AreParts};
ghost use Rattle.cub_names.specs.Checked.{first_of_all, fault};
ghost use Rattle.cub_types.specs.Typing.{rest_of, typed_rest, rest_typed, faults_of, Reads, IsResolved, IsRested, IsBuilt, IsKnown};

use crate::bodies::{all_goals, start};
use crate::transitions::{all_transitions, name_faults};
use cub_base::Memory;
use cub_names::{Fault, Names, TypeFault, names_of};
use cub_parse::{BodyNode, RestNode, Syntax};
use cub_proto::{Conjs, Goals, NotProtocol, Protocol, Transitions};
use std::alloc::Global;

/// What stands behind the declarations.
#[derive(Debug, Drop)]
pub struct Rest {
    pub start: Conjs,
    pub goals: Goals,
    pub transitions: Transitions,
}

fn rest_of(
    start: Option<Conjs>,
    goals: Option<Goals>,
    transitions: Option<Transitions>,
) -> Option<Rest>
    ensures { result ≡ rest_of start goals transitions }
{
    match (start, goals, transitions) {
        (Some(start), Some(goals), Some(transitions)) => Some(Rest {
            start,
            goals,
            transitions,
        }),
        _ => None,
    }
}

/// What stands behind the declarations, with its faults told.
fn typed_rest(
    alloc: Global,
    names: &Names,
    first: &mut Option<Fault>,
    init: &BodyNode,
    rests: &[RestNode],
) -> Result<Option<Rest>, Memory>
    ensures value { IfOk result (λ rest. rest ≡ (typed_rest names.now init.now rests.now).value) }
    ensures first { OnOk result (first.new ≡ first_of_all first.old (typed_rest names.now init.now rests.now).faults) }
{
    let start = start(alloc, names, first, init)?;
    let goals = all_goals(alloc, names, first, rests)?;
    name_faults(alloc, names, first, rests)?;
    let transitions = all_transitions(alloc, names, first, rests)?;
    Ok(rest_of(start, goals, transitions))
}

/// What stands behind the declarations, or its first fault.
#[tactic(auto, using(cub_names::proofs::FirstFault::none_told, crate::proofs::RestTold::rest_not_lost))]
fn judged_rest(
    alloc: Global,
    names: &Names,
    init: &BodyNode,
    rests: &[RestNode],
) -> Result<Rest, TypeFault>
    ensures { IsRested result (typed_rest names.now init.now rests.now) }
{
    let mut first = None;
    match typed_rest(alloc, names, &mut first, init, rests) {
        Err(_) => Err(TypeFault::Memory),
        Ok(found) => match first {
            Some(Fault { token, kind }) => Err(TypeFault::Fault { token, kind }),
            None => match found {
                Some(rest) => Ok(rest),
                None => unreachable!(),
            },
        },
    }
}

/// The protocol of its parts.
fn built(alloc: Global, base: Protocol, rest: Rest) -> Result<Protocol, TypeFault>
    requires { AreParts base.sorts base.globals base.arrays rest.start rest.goals rest.transitions }
    ensures { IsBuilt result base rest }
{
    let Protocol {
        sorts,
        globals,
        arrays,
        ..
    } = base;
    let Rest {
        start,
        goals,
        transitions,
    } = rest;
    match Protocol::try_new(alloc, sorts, globals, arrays, start, goals, transitions) {
        Ok(protocol) => Ok(protocol),
        Err(NotProtocol::Memory) => Err(TypeFault::Memory),
        Err(NotProtocol::Unfit) => unreachable!(),
    }
}

#[tactic(auto, using(crate::proofs::WholeFits::parts_of_base))]
fn resolved(alloc: Global, names: Names, tree: &Syntax) -> Result<Protocol, TypeFault>
    ensures { IsKnown result names.entry tree.now }
{
    match judged_rest(alloc, &names, &tree.init, tree.rests.as_slice()) {
        Ok(rest) => built(alloc, names.into_base(), rest),
        Err(e) => Err(e),
    }
}

/// The protocol that the tree of the text reads as, or its fault: declarations first, then the rest; the first in the
/// text, and of several at one token the one with the least code.
pub fn resolve(alloc: Global, text: &[u8], tree: &Syntax) -> Result<Protocol, TypeFault>
    ensures { IsResolved result text.now tree.now }
{
    match names_of(alloc, text, tree.decls.as_slice()) {
        Ok(names) => resolved(alloc, names, tree),
        Err(e) => Err(e),
    }
}
