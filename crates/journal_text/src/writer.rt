//! Writing a journal, a line after another.

ghost use Rattle.std.specs.Prelude.{◌≡◌, ◌+◌, ◌++◌, [], ◌∷◌, ◌==◌, ◌≤◌, length, map, flat_map, not, codes, decimal, OnOk, IfOk, if◌then◌else◌};
ghost use Rattle.std.specs.List.{join_by, prefix_len};
ghost use Rattle.log_form.specs.Verdict.{is_live_wide};
ghost use Rattle.text_lines.specs.Line.{ended, text_of};
ghost use Rattle.text_lines.specs.Spelling.{process_text, processes_text};
ghost use Rattle.cube_text.specs.Text.{cube_text};
ghost use Rattle.journal_text.specs.Lawful.{IsUnknown};
ghost use Rattle.journal_text.specs.Text.{heading_text, version_text, budget_text, item_word, item_text, expand_text, node_text, full_text, wide_text, expand_lines, event_lines, least_wide, is_full, closing_lines, head_lines, text_of_log};

use cub_base::Memory;
use cub_proto::{Budget, Protocol};
use cube_core::Log;
use cube_text::push_cube;
use itoa::Buffer;
use log_form::{Added, LogEvent, Mark, Node, PreImages};
use std::alloc::{AllocError, Global};
use text_lines::{push, push_number, push_process};

/// The heading of a journal, where the cube budget is spent or wide nodes are left.
pub fn heading_text(full: bool) -> &'static [u8]
    ensures { result.now ≡ heading_text full }
{
    if full {
        b"UNKNOWN cubes"
    } else {
        b"UNKNOWN width"
    }
}

fn is_full(mark: Mark) -> bool
    ensures { result ≡ is_full mark }
{
    match mark {
        Mark::Going => false,
        Mark::Bad { .. } => false,
        Mark::Full { .. } => true,
    }
}

fn end_line(out: &mut Vec<u8>) -> Result<(), AllocError>
    ensures { OnOk result (out.new.items ≡ out.old.items ++ 10 ∷ []) }
{
    push(out, b"\n")
}

/// Appends the budget line.
pub fn push_budget(out: &mut Vec<u8>, budget: Budget) -> Result<(), AllocError>
    ensures { OnOk result (out.new.items ≡ out.old.items ++ budget_text budget) }
{
    push(out, b"budget ")?;
    push(out, Buffer::new().format(budget.cubes).as_bytes())?;
    push(out, b" ")?;
    push(out, Buffer::new().format(budget.width).as_bytes())
}

fn push_piece(out: &mut Vec<u8>, piece: u64) -> Result<(), AllocError>
    ensures { OnOk result (out.new.items ≡ out.old.items ++ decimal (piece + 1)) }
{
    push(out, Buffer::new().format(u128::from(piece) + 1).as_bytes())
}

fn push_other_places(out: &mut Vec<u8>, places: &[u8]) -> Result<(), AllocError>
    ensures { OnOk result (out.new.items ≡ out.old.items ++ flat_map (λ i. (32 ∷ []) ++ process_text i) places.now) }
{
    for place in places {
        push(out, b" ")?;
        push_process(out, u32::from(*place))?;
    }
    Ok(())
}

fn push_joined(out: &mut Vec<u8>, places: &[u8]) -> Result<(), AllocError>
    ensures { OnOk result (out.new.items ≡ out.old.items ++ join_by process_text (32 ∷ []) places.now) }
{
    match places {
        [] => Ok(()),
        [first, rest @ ..] => {
            push_process(out, u32::from(*first))?;
            push_other_places(out, rest)
        }
    }
}

fn push_places(out: &mut Vec<u8>, places: &[u8]) -> Result<(), AllocError>
    ensures { OnOk result (out.new.items ≡ out.old.items ++ processes_text places.now) }
{
    push(out, b"(")?;
    push_joined(out, places)?;
    push(out, b")")
}

/// What the line of an added cube begins with.
pub fn item_word(node: Option<u32>) -> &'static [u8]
    ensures { result.now ≡ item_word node }
{
    match node {
        None => b"root ",
        Some(_) => b"new ",
    }
}

/// Appends the line of an added cube, without its end.
pub fn push_item(
    out: &mut Vec<u8>,
    protocol: &Protocol,
    node: Option<u32>,
    item: &Added,
) -> Result<(), AllocError>
    ensures { OnOk result (out.new.items ≡ out.old.items ++ item_text protocol.now node item.now) }
{
    push(out, item_word(node))?;
    push_piece(out, item.piece)?;
    push(out, b" ")?;
    push_places(out, item.places.as_slice())?;
    push(out, b": ")?;
    push_cube(out, protocol, &item.cube)
}

/// Appends the line before the added cubes of a node, without its end.
pub fn push_expand(out: &mut Vec<u8>, node: u32) -> Result<(), AllocError>
    ensures { OnOk result (out.new.items ≡ out.old.items ++ expand_text node) }
{
    push(out, b"expand ")?;
    push_number(out, node)
}

fn push_node(out: &mut Vec<u8>, node: Option<u32>) -> Result<(), AllocError>
    ensures { OnOk result (out.new.items ≡ out.old.items ++ node_text node) }
{
    match node {
        None => push(out, b"roots"),
        Some(node) => push_number(out, node),
    }
}

/// Appends the closing line of a full log, without its end.
pub fn push_full(out: &mut Vec<u8>, node: Option<u32>, needed: u64) -> Result<(), AllocError>
    ensures { OnOk result (out.new.items ≡ out.old.items ++ full_text node needed) }
{
    push(out, b"full ")?;
    push_node(out, node)?;
    push(out, b" needs ")?;
    push(out, Buffer::new().format(needed).as_bytes())
}

/// Appends the closing line of a log with wide nodes, without its end.
pub fn push_wide(out: &mut Vec<u8>, node: usize) -> Result<(), AllocError>
    ensures { OnOk result (out.new.items ≡ out.old.items ++ wide_text node) }
{
    push(out, b"wide ")?;
    push(out, Buffer::new().format(node as u128 + 1).as_bytes())
}

fn push_head(out: &mut Vec<u8>, full: bool, budget: Budget) -> Result<(), AllocError>
    ensures { OnOk result (out.new.items ≡ out.old.items ++ text_of (head_lines full budget)) }
{
    push(out, heading_text(full))?;
    end_line(out)?;
    push(out, b"journal 1\n")?;
    push_budget(out, budget)?;
    end_line(out)
}

fn push_items(
    out: &mut Vec<u8>,
    protocol: &Protocol,
    node: Option<u32>,
    items: &[Added],
) -> Result<(), AllocError>
    ensures { OnOk result (out.new.items ≡ out.old.items ++ text_of (map (item_text protocol.now node) items.now)) }
{
    for item in items {
        push_item(out, protocol, node, item)?;
        end_line(out)?;
    }
    Ok(())
}

fn push_expand_line(out: &mut Vec<u8>, node: Option<u32>) -> Result<(), AllocError>
    ensures { OnOk result (out.new.items ≡ out.old.items ++ text_of (expand_lines node)) }
{
    match node {
        None => Ok(()),
        Some(node) => {
            push_expand(out, node)?;
            end_line(out)
        }
    }
}

fn push_event(out: &mut Vec<u8>, protocol: &Protocol, event: &LogEvent) -> Result<(), AllocError>
    ensures { OnOk result (out.new.items ≡ out.old.items ++ text_of (event_lines protocol.now event.now)) }
{
    if event.needed != 0 {
        return Ok(());
    }
    push_expand_line(out, event.node)?;
    push_items(out, protocol, event.node, event.added.as_slice())
}

fn push_events(
    out: &mut Vec<u8>,
    protocol: &Protocol,
    events: &[LogEvent],
) -> Result<(), AllocError>
    ensures { OnOk result (out.new.items ≡ out.old.items ++ text_of (flat_map (event_lines protocol.now) events.now)) }
{
    for event in events {
        push_event(out, protocol, event)?;
    }
    Ok(())
}

fn is_live_wide(budget: Budget, node: &Node) -> bool
    ensures { result ≡ is_live_wide budget node.now }
{
    node.fate.is_live() && budget.width < node.cube.width
}

/// The number of the least live node that is wider than the width budget; the number of nodes where there is none.
pub fn least_wide(budget: Budget, nodes: &[Node]) -> usize
    ensures value { result ≡ least_wide budget nodes.now }
    ensures within { result ≤ length nodes.now }
{
    for (at, node) in nodes.iter().enumerate() {
        if is_live_wide(budget, node) {
            return at;
        }
    }
    nodes.len()
}

fn push_closing(
    out: &mut Vec<u8>,
    mark: Mark,
    budget: Budget,
    nodes: &[Node],
) -> Result<(), AllocError>
    ensures { OnOk result (out.new.items ≡ out.old.items ++ text_of (closing_lines mark budget nodes.now)) }
{
    match mark {
        Mark::Bad { .. } => Ok(()),
        Mark::Going => {
            push_wide(out, least_wide(budget, nodes))?;
            end_line(out)
        }
        Mark::Full { node, needed } => {
            push_full(out, node, needed)?;
            end_line(out)
        }
    }
}

/// The journal of a log whose verdict is UNKNOWN.
pub fn write<M: PreImages>(
    alloc: Global,
    protocol: &Protocol,
    log: &Log<M>,
) -> Result<Vec<u8>, Memory>
    requires protocol { protocol.now ≡ log.now.protocol }
    requires unknown { IsUnknown log.now }
    ensures { IfOk result (λ text. text.items ≡ text_of_log log.now) }
{
    let mut out = Vec::new(alloc);
    push_head(&mut out, is_full(log.mark()), log.budget())?;
    push_events(&mut out, protocol, log.events())?;
    push_closing(&mut out, log.mark(), log.budget(), log.nodes())?;
    push(&mut out, b"end\n")?;
    Ok(out)
}
