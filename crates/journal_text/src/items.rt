//! Reading the added cubes of an event, as many as stand one after another.

ghost use Rattle.std.specs.Prelude.{◌≡◌, ◌+◌, ◌<◌, ◌≤◌, ◌^◌, [], ◌∷◌, length, IfOk, IfErr, IfSome, IfNone};
ghost use Rattle.journal_text.specs.declared.fault.JournalFault.TheVariants.{Memory};
ghost use Rattle.journal_text.specs.Items.{AreItemLines, IsNoItem};

use crate::fault::JournalFault;
use crate::head::next_line;
use crate::lines::item_of;
use cub_base::Items;
use cub_proto::Protocol;
use log_form::{Added, AddedList};
use std::alloc::Global;

fn next_item<'a>(
    alloc: Global,
    protocol: &Protocol,
    node: Option<u32>,
    text: &'a [u8],
) -> Result<Option<(Added, &'a [u8])>, JournalFault>
    ensures found { IfOk result (λ o. IfSome o (λ x. AreItemLines protocol.now node (x.0 ∷ []) text.now x.1.now)) }
    ensures room { IfOk result (λ o. IfSome o (λ x. length x.1.now < length text.now)) }
    ensures none { IfOk result (λ o. IfNone o (IsNoItem protocol.now node text.now)) }
    ensures err { IfErr result (λ f. f ≡ Memory) }
{
    let Some(cut) = next_line(text) else {
        return Ok(None);
    };
    let Some(item) = item_of(alloc, protocol, node, cut.bytes)? else {
        return Ok(None);
    };
    Ok(Some((item, cut.rest)))
}

/// The added cubes from this line on, the line behind them, and the text from there on.
pub fn read_items<'a>(
    alloc: Global,
    protocol: &Protocol,
    node: Option<u32>,
    line: u32,
    text: &'a [u8],
) -> Result<(AddedList, u32, &'a [u8]), JournalFault>
    requires { line + length text.now < 2 ^ 32 }
    ensures lines { IfOk result (λ x. AreItemLines protocol.now node x.0 text.now x.2.now) }
    ensures count { IfOk result (λ x. x.1 ≡ line + length x.0) }
    ensures room { IfOk result (λ x. x.1 + length x.2.now ≤ line + length text.now) }
    ensures no_item { IfOk result (λ x. IsNoItem protocol.now node x.2.now) }
    ensures err { IfErr result (λ f. f ≡ Memory) }
{
    let mut items = Items::new(alloc);
    let mut at = line;
    let mut rest = text;
    while let Some((item, behind)) = next_item(alloc, protocol, node, rest)? {
        items.push(item)?;
        at += 1;
        rest = behind;
    }
    Ok((items, at, rest))
}
