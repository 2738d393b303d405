//! Verdicts of small logs, by the words that define them, and copies. One law is called where no cube has a piece.

use crate::{
    Added, Fate, LogEvent, LogVerdict, Mark, Node, Nodes, Origin, PreImages,
    safe_logs_pass_the_test, verdict,
};
use cub_base::{Items, Places};
use cub_cube::Cube;
use cub_proto::Budget;
use std::alloc::{AllocError, Global};
use std::process::Abort;
use std::test::Fail;

// no cube has a piece
struct NoPieces;

impl PreImages for NoPieces {
    ghost use Rattle.std.specs.Prelude.{◌≡◌, [], length};
    ghost use Rattle.std.proofs.Common.{sym, ◌∙◌, ap, arith};

    ghost pieces = { λ p c xs. xs ≡ [] };

    ghost one_list = { λ p c xs ys h k. h ∙ sym k };

    ghost possible = { λ p c xs x h inside. let none : length xs ≡ 0 = ap length h in absurd (Prim.omega (arith, inside.1)) };

    ghost fit = { λ p limit c xs x most fits h inside. let none : length xs ≡ 0 = ap length h in absurd (Prim.omega (arith, inside.1)) };
}

fn node(alloc: Global, width: u8, fate: Fate) -> Node {
    Node {
        cube: Cube {
            width,
            lits: Items::new(alloc),
        },
        origin: Origin::Root { goal: 0 },
        places: Places::new(alloc),
        fate,
    }
}

fn covered(alloc: Global, by: u32) -> Fate {
    Fate::Covered {
        by,
        places: Places::new(alloc),
    }
}

fn nodes(alloc: Global, first: Node, second: Node) -> Result<Nodes, AllocError> {
    let mut nodes = Items::new(alloc);
    nodes.push(first)?;
    nodes.push(second)?;
    Ok(nodes)
}

// the verdict at a width budget of 3
fn says(mark: Mark, nodes: &Nodes) -> Option<LogVerdict> {
    let budget = Budget {
        cubes: 10,
        width: 3,
    };
    verdict(mark, budget, nodes.as_slice())
}

fn expect(rt: &impl Abort, mark: Mark, nodes: &Nodes, is: Option<LogVerdict>) {
    assert_eq!(rt; says(mark, nodes), is);
}

#[test]
fn verdicts(rt: HostRuntime) -> Result<(), Fail> {
    let alloc = rt.alloc();
    let none = Items::new(alloc);
    expect(&rt, Mark::Going, &none, Some(LogVerdict::Safe));
    expect(&rt, Mark::Bad { node: 1 }, &none, Some(LogVerdict::Unsafe));
    let full = Mark::Full {
        node: None,
        needed: 2,
    };
    expect(&rt, full, &none, Some(LogVerdict::UnknownCubes));
    let waits = nodes(
        alloc,
        node(alloc, 2, Fate::Done),
        node(alloc, 3, Fate::Waiting),
    )?;
    expect(&rt, Mark::Going, &waits, None);
    let wide = nodes(
        alloc,
        node(alloc, 2, Fate::Done),
        node(alloc, 4, Fate::Waiting),
    )?;
    expect(&rt, Mark::Going, &wide, Some(LogVerdict::UnknownWidth));
    let hidden = nodes(
        alloc,
        node(alloc, 4, covered(alloc, 1)),
        node(alloc, 2, Fate::Done),
    )?;
    expect(&rt, Mark::Going, &hidden, Some(LogVerdict::Safe));
    Ok(())
}

#[test]
fn copies(rt: HostRuntime) -> Result<(), Fail> {
    let alloc = rt.alloc();
    let mut places = Places::new(alloc);
    places.push(1);
    places.push(0);
    let mut added = Items::new(alloc);
    added.push(Added {
        piece: 4,
        places,
        cube: Cube {
            width: 2,
            lits: Items::new(alloc),
        },
    })?;
    let event = LogEvent {
        node: Some(3),
        added,
        needed: 0,
    };
    let copy = event.copy()?;
    assert_eq!(rt; copy.node, Some(3));
    assert_eq!(rt; copy.added.len(), 1);
    let first = copy.added.get(0).ok_or("one")?;
    assert_eq!(rt; first.piece, 4);
    assert_eq!(rt; first.places.as_slice(), [1, 0].as_slice());
    let fate = covered(alloc, 7).copy();
    assert!(rt; !fate.is_live());
    assert!(rt; !fate.is_waiting());
    safe_logs_pass_the_test::<NoPieces>();
    Ok(())
}
