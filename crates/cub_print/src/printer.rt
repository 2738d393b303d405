//! Declarations and whole protocols, in the order in which the protocol has them.

ghost use Rattle.std.specs.Prelude.{◌≡◌, ◌++◌, ◌∷◌, [], OnOk, IfOk, drop, flat_map};
ghost use Rattle.cub_print.specs.Mark.{spelled, joined, name};
ghost use Rattle.cub_print.specs.Printed.{bar_marks, type_marks, global_marks, array_marks, init_marks, goal_marks, transition_marks, protocol_marks};

use crate::literals::{put_conjunction, put_formula};
use crate::terms::put_sort;
use crate::updates::{put_parameters, put_transition};
use cub_base::{Items, Memory, Name, Text};
use cub_proto::{Decl, Goal, Protocol, SortDecl, Transition};
use std::alloc::AllocError;

fn put_next_constructor(out: &mut Text, constructor: &Name) -> Result<(), AllocError>
    ensures { OnOk result (out.new ≡ out.old ++ spelled (bar_marks ++ name constructor.now ∷ [])) }
{
    out.extend(b" | ")?;
    out.extend(constructor.as_slice())
}

fn put_further_constructors(out: &mut Text, names: &[Name]) -> Result<(), AllocError>
    ensures { OnOk result (out.new ≡ out.old ++ spelled (flat_map (λ c. bar_marks ++ name c ∷ []) names.now)) }
{
    for constructor in names {
        put_next_constructor(out, constructor)?;
    }
    Ok(())
}

fn put_constructors(out: &mut Text, names: &[Name]) -> Result<(), AllocError>
    ensures { OnOk result (out.new ≡ out.old ++ spelled (joined bar_marks (λ c. name c ∷ []) names.now)) }
{
    match names {
        [] => Ok(()),
        [first, others @ ..] => {
            out.extend(first.as_slice())?;
            put_further_constructors(out, others)
        }
    }
}

fn put_type(out: &mut Text, decl: &SortDecl) -> Result<(), AllocError>
    ensures { OnOk result (out.new ≡ out.old ++ spelled (type_marks decl.now)) }
{
    out.extend(b"type ")?;
    out.extend(decl.name.as_slice())?;
    out.extend(b" = ")?;
    put_constructors(out, decl.cons.as_slice())?;
    out.extend(b"\n")
}

fn put_types(out: &mut Text, decls: &[SortDecl]) -> Result<(), AllocError>
    ensures { OnOk result (out.new ≡ out.old ++ spelled (flat_map type_marks decls.now)) }
{
    for decl in decls {
        put_type(out, decl)?;
    }
    Ok(())
}

fn put_global(out: &mut Text, protocol: &Protocol, decl: &Decl) -> Result<(), AllocError>
    ensures { OnOk result (out.new ≡ out.old ++ spelled (global_marks protocol.now decl.now)) }
{
    out.extend(b"var ")?;
    out.extend(decl.name.as_slice())?;
    out.extend(b" : ")?;
    put_sort(out, protocol, decl.sort)?;
    out.extend(b"\n")
}

fn put_globals(out: &mut Text, protocol: &Protocol, decls: &[Decl]) -> Result<(), AllocError>
    ensures { OnOk result (out.new ≡ out.old ++ spelled (flat_map (global_marks protocol.now) decls.now)) }
{
    for decl in decls {
        put_global(out, protocol, decl)?;
    }
    Ok(())
}

fn put_array(out: &mut Text, protocol: &Protocol, decl: &Decl) -> Result<(), AllocError>
    ensures { OnOk result (out.new ≡ out.old ++ spelled (array_marks protocol.now decl.now)) }
{
    out.extend(b"array ")?;
    out.extend(decl.name.as_slice())?;
    out.extend(b"[proc] : ")?;
    put_sort(out, protocol, decl.sort)?;
    out.extend(b"\n")
}

fn put_arrays(out: &mut Text, protocol: &Protocol, decls: &[Decl]) -> Result<(), AllocError>
    ensures { OnOk result (out.new ≡ out.old ++ spelled (flat_map (array_marks protocol.now) decls.now)) }
{
    for decl in decls {
        put_array(out, protocol, decl)?;
    }
    Ok(())
}

fn put_init(out: &mut Text, protocol: &Protocol) -> Result<(), AllocError>
    ensures { OnOk result (out.new ≡ out.old ++ spelled (init_marks protocol.now)) }
{
    out.extend(b"init ")?;
    put_parameters(out, 1)?;
    out.extend(b" { ")?;
    put_formula(out, protocol, 1, protocol.start.as_slice())?;
    out.extend(b" }\n")
}

fn put_goal(out: &mut Text, protocol: &Protocol, goal: &Goal) -> Result<(), AllocError>
    ensures { OnOk result (out.new ≡ out.old ++ spelled (goal_marks protocol.now goal.now)) }
{
    out.extend(b"unsafe ")?;
    put_parameters(out, goal.width)?;
    out.extend(b" { ")?;
    put_conjunction(out, protocol, goal.width, goal.lits.as_slice())?;
    out.extend(b" }\n")
}

fn put_goals(out: &mut Text, protocol: &Protocol, goals: &[Goal]) -> Result<(), AllocError>
    ensures { OnOk result (out.new ≡ out.old ++ spelled (flat_map (goal_marks protocol.now) goals.now)) }
{
    for one in goals {
        put_goal(out, protocol, one)?;
    }
    Ok(())
}

fn put_transitions(
    out: &mut Text,
    protocol: &Protocol,
    transitions: &[Transition],
) -> Result<(), AllocError>
    ensures { OnOk result (out.new ≡ out.old ++ spelled (flat_map (transition_marks protocol.now) transitions.now)) }
{
    for transition in transitions {
        put_transition(out, protocol, transition)?;
    }
    Ok(())
}

fn declared_types(decls: &[SortDecl]) -> &[SortDecl]
    ensures { result.now ≡ drop 1 decls.now }
{
    match decls {
        [] => decls,
        [_, others @ ..] => others,
    }
}

fn put_protocol(out: &mut Text, protocol: &Protocol) -> Result<(), AllocError>
    ensures { OnOk result (out.new ≡ out.old ++ spelled (protocol_marks protocol.now)) }
{
    put_types(out, declared_types(protocol.sorts.as_slice()))?;
    put_globals(out, protocol, protocol.globals.as_slice())?;
    put_arrays(out, protocol, protocol.arrays.as_slice())?;
    put_init(out, protocol)?;
    put_goals(out, protocol, protocol.goals.as_slice())?;
    put_transitions(out, protocol, protocol.transitions.as_slice())
}

/// The canonical text of the protocol: its types, globals and arrays, `init`, its goals as `unsafe`, its transitions.
pub fn print(protocol: &Protocol) -> Result<Vec<u8>, Memory>
    ensures { IfOk result (λ text. text.items ≡ spelled (protocol_marks protocol.now)) }
{
    let mut out = Items::new(protocol.sorts.allocator());
    put_protocol(&mut out, protocol)?;
    Ok(out.into_vec())
}
