//! The single lines of a journal. Each is read loosely from its words; then what it tells is tested and written again, and
//! the line stands where both are equal. So whatever is accepted is written as it should be.

ghost use Rattle.std.specs.Prelude.{◌≡◌, ◌<◌, ◌^◌, ℕ, Bool, Option, Ok, nat_lt, bytes_eq, IfOk, IfErr, IfSome, IfNone};
ghost use Rattle.std.specs.List.{list_all};
ghost use Rattle.cub_proto.specs.declared.budget.Budget.{Budget};
ghost use Rattle.cub_cube.specs.declared.cube.Cube.{Cube};
ghost use Rattle.log_form.specs.declared.event.Added.{Added};
ghost use Rattle.cube_text.specs.Reading.{reading};
ghost use Rattle.journal_text.specs.Form.{widest, cube_part};
ghost use Rattle.journal_text.specs.declared.fault.JournalFault.TheVariants.{Memory};
ghost use Rattle.journal_text.specs.Text.{heading_text, budget_text, item_text, expand_text, full_text, wide_text, least_wide};
ghost use Rattle.journal_text.specs.Told.{number_told};
ghost use Rattle.journal_text.specs.Items.{IsItemLine, IsNode};

use crate::fault::JournalFault;
use crate::form::cube_part;
use crate::told::{expand_told, item_told, node_told, number_told};
use crate::writer::{
    heading_text, least_wide, push_budget, push_expand, push_full, push_item, push_wide,
};
use cub_cube::Cube;
use cub_proto::{Budget, Protocol};
use cube_text::{CubeFault, read_cube};
use log_form::{Added, Node};
use std::alloc::{AllocError, Global};
use text_lines::is_word;

const WIDEST: u8 = 11;

/// What a closing line of a full log says.
#[derive(Clone, Copy, Debug)]
pub struct Needs {
    pub node: Option<u32>,
    pub needed: u64,
}

/// Whether the line says that the cube budget is spent.
pub fn heading_of(line: &[u8]) -> Option<bool>
    ensures found { IfSome result (λ full. line.now ≡ heading_text full) }
    ensures none { IfNone result ((full : Bool) → line.now ≡ heading_text full → ⊥) }
{
    if is_word(line, heading_text(true)) {
        return Some(true);
    }
    if is_word(line, heading_text(false)) {
        return Some(false);
    }
    None
}

fn budget_told(line: &[u8]) -> Option<Budget>
    ensures cubes { IfSome result (λ b. b.cubes ≡ number_told 1 line.now) }
    ensures width { IfSome result (λ b. b.width ≡ number_told 2 line.now) }
    ensures none { IfNone result ((b : Budget) → line.now ≡ budget_text b → ⊥) }
{
    let cubes = number_told(1, line);
    let width = number_told(2, line);
    if cubes < 1 || 65_536 < cubes {
        return None;
    }
    if width < 1 || 8 < width {
        return None;
    }
    Some(Budget {
        cubes: cubes as u32,
        width: width as u8,
    })
}

fn budget_is_written(alloc: Global, budget: Budget, line: &[u8]) -> Result<bool, AllocError>
    ensures { IfOk result (λ same. same ≡ bytes_eq (budget_text budget) line.now) }
{
    let mut written = Vec::new(alloc);
    push_budget(&mut written, budget)?;
    Ok(is_word(written.as_slice(), line))
}

/// The budget that the line is the line of.
pub fn budget_of(alloc: Global, line: &[u8]) -> Result<Option<Budget>, JournalFault>
    ensures found { IfOk result (λ o. IfSome o (λ b. line.now ≡ budget_text b)) }
    ensures none { IfOk result (λ o. IfNone o ((b : Budget) → line.now ≡ budget_text b → ⊥)) }
    ensures err { IfErr result (λ f. f ≡ Memory) }
{
    let Some(budget) = budget_told(line) else {
        return Ok(None);
    };
    if !budget_is_written(alloc, budget, line)? {
        return Ok(None);
    }
    Ok(Some(budget))
}

fn are_below(places: &[u8]) -> bool
    ensures { result ≡ list_all (λ i. nat_lt i 11) places.now }
{
    places.iter().all(|place| *place < 11)
}

fn item_is_written(
    alloc: Global,
    protocol: &Protocol,
    node: Option<u32>,
    item: &Added,
    line: &[u8],
) -> Result<bool, AllocError>
    ensures { IfOk result (λ same. same ≡ bytes_eq (item_text protocol.now node item.now) line.now) }
{
    let mut written = Vec::with_capacity(alloc, line.len())?;
    push_item(&mut written, protocol, node, item)?;
    Ok(is_word(written.as_slice(), line))
}

// The cube behind the brackets, where one stands there.
fn cube_of(protocol: &Protocol, line: &[u8]) -> Result<Option<Cube>, JournalFault>
    ensures found { IfOk result (λ o. IfSome o (λ c. reading protocol.now widest (cube_part line.now) ≡ Ok c)) }
    ensures none { IfOk result (λ o. IfNone o ((c : Cube) → reading protocol.now widest (cube_part line.now) ≡ Ok c → ⊥)) }
    ensures err { IfErr result (λ f. f ≡ Memory) }
{
    match read_cube(protocol, cube_part(line), WIDEST) {
        Ok(cube) => Ok(Some(cube)),
        Err(CubeFault::Memory) => Err(JournalFault::Memory),
        Err(CubeFault::Form) => Ok(None),
        Err(CubeFault::Unknown) => Ok(None),
        Err(CubeFault::Order) => Ok(None),
    }
}

/// The added cube that the line is the line of.
pub fn item_of(
    alloc: Global,
    protocol: &Protocol,
    node: Option<u32>,
    line: &[u8],
) -> Result<Option<Added>, JournalFault>
    ensures found { IfOk result (λ o. IfSome o (IsItemLine protocol.now node line.now)) }
    ensures none { IfOk result (λ o. IfNone o ((a : Added) → IsItemLine protocol.now node line.now a → ⊥)) }
    ensures err { IfErr result (λ f. f ≡ Memory) }
{
    let Some(cube) = cube_of(protocol, line)? else {
        return Ok(None);
    };
    let told = item_told(alloc, cube, line);
    if !are_below(told.places.as_slice()) {
        return Ok(None);
    }
    if !item_is_written(alloc, protocol, node, &told, line)? {
        return Ok(None);
    }
    Ok(Some(told))
}

fn expand_is_written(alloc: Global, node: u32, line: &[u8]) -> Result<bool, AllocError>
    ensures { IfOk result (λ same. same ≡ bytes_eq (expand_text node) line.now) }
{
    let mut written = Vec::new(alloc);
    push_expand(&mut written, node)?;
    Ok(is_word(written.as_slice(), line))
}

/// The node whose expansion the line begins.
pub fn expand_of(alloc: Global, line: &[u8]) -> Result<Option<u32>, JournalFault>
    ensures found { IfOk result (λ o. IfSome o (λ n. line.now ≡ expand_text n)) }
    ensures small { IfOk result (λ o. IfSome o (λ n. n < 2 ^ 32)) }
    ensures none { IfOk result (λ o. IfNone o ((n : ℕ) → n < 2 ^ 32 → line.now ≡ expand_text n → ⊥)) }
    ensures err { IfErr result (λ f. f ≡ Memory) }
{
    let node = expand_told(line);
    if !expand_is_written(alloc, node, line)? {
        return Ok(None);
    }
    Ok(Some(node))
}

fn full_is_written(alloc: Global, told: Needs, line: &[u8]) -> Result<bool, AllocError>
    ensures { IfOk result (λ same. same ≡ bytes_eq (full_text told.node told.needed) line.now) }
{
    let mut written = Vec::new(alloc);
    push_full(&mut written, told.node, told.needed)?;
    Ok(is_word(written.as_slice(), line))
}

/// What fills the log, by its closing line.
pub fn full_of(alloc: Global, line: &[u8]) -> Result<Option<Needs>, JournalFault>
    ensures found { IfOk result (λ o. IfSome o (λ x. line.now ≡ full_text x.node x.needed)) }
    ensures small { IfOk result (λ o. IfSome o (λ x. IsNode x.node × (x.needed < 2 ^ 64))) }
    ensures none { IfOk result (λ o. IfNone o ((node : Option ℕ) (needed : ℕ) → IsNode node → needed < 2 ^ 64 → line.now ≡ full_text node needed → ⊥)) }
    ensures err { IfErr result (λ f. f ≡ Memory) }
{
    let told = Needs {
        node: node_told(line),
        needed: number_told(3, line),
    };
    if !full_is_written(alloc, told, line)? {
        return Ok(None);
    }
    Ok(Some(told))
}

/// Whether the line closes a log with these nodes, the least wide one of which it names.
pub fn is_wide(
    alloc: Global,
    budget: Budget,
    nodes: &[Node],
    line: &[u8],
) -> Result<bool, AllocError>
    ensures { IfOk result (λ same. same ≡ bytes_eq (wide_text (least_wide budget nodes.now)) line.now) }
{
    let mut written = Vec::new(alloc);
    push_wide(&mut written, least_wide(budget, nodes))?;
    Ok(is_word(written.as_slice(), line))
}
