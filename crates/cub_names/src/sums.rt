//! Sums, from the left: at most one integer term, and constants that stay within the limit. The loop keeps what was
//! summed so far, so that a sum of half a million parts costs no stack.

ghost use Rattle.std.specs.Prelude.{◌≡◌, ◌≤◌, unsigned_abs, IfSome, IsTrue};
ghost use Rattle.cub_names.specs.Checked.{first_of_all};
ghost use Rattle.cub_names.specs.Sides.{is_small, start, subtracts, moved, with_total, with_number, is_zero, is_minus, is_star, with_term, with_side, with_sign, with_part, with_step, with_steps, finished, sum_of, summed, side_of, side};

use crate::fault::{Fault, TypeKind};
use crate::first::tell;
use crate::names::Names;
use crate::scope::Local;
use crate::sides::{Side, named};
use crate::words::amount;
use cub_lexer::TokenKind;
use cub_parse::{Leaf, PartNode, SumNode, SumStep};
use cub_proto::ISide;

/// A sum so far: its integer term, its constants, and whether a constant or a part was refused.
#[derive(Clone, Copy, Debug)]
pub struct Summed {
    pub base: ISide,
    pub total: i64,
    pub over: bool,
    pub refused: bool,
}

fn start() -> Summed
    ensures { result ≡ start }
{
    Summed {
        base: ISide::Zero,
        total: 0,
        over: false,
        refused: false,
    }
}

fn subtracts(sign: TokenKind, minus: Option<Leaf>) -> bool
    ensures { result ≡ subtracts sign minus }
{
    match sign {
        TokenKind::Minus => minus.is_none(),
        _ => minus.is_some(),
    }
}

fn moved(total: i64, turned: bool, amount: u32) -> i64
    requires { unsigned_abs total ≤ 1000000000 }
    ensures { result ≡ moved total turned amount }
{
    if turned {
        total - i64::from(amount)
    } else {
        total + i64::from(amount)
    }
}

fn with_total(first: &mut Option<Fault>, s: Summed, token: u32, total: i64) -> Summed
    ensures value { result ≡ (with_total s token total).summed }
    ensures first { first.new ≡ first_of_all first.old (with_total s token total).faults }
{
    if total.unsigned_abs() <= 1_000_000_000 {
        return Summed { total, ..s };
    }
    tell(first, token, TypeKind::T15);
    Summed { over: true, ..s }
}

fn with_number(
    names: &Names,
    first: &mut Option<Fault>,
    s: Summed,
    sign: TokenKind,
    minus: Option<Leaf>,
    number: &Leaf,
) -> Summed
    requires { unsigned_abs s.total ≤ 1000000000 }
    ensures value { result ≡ (with_number names.now.text s sign minus number.now).summed }
    ensures first { first.new ≡ first_of_all first.old (with_number names.now.text s sign minus number.now).faults }
{
    if s.over {
        return s;
    }
    let total = moved(
        s.total,
        subtracts(sign, minus),
        amount(names.text(), number),
    );
    with_total(first, s, number.number, total)
}

fn is_zero(base: ISide) -> bool
    ensures { result ≡ is_zero base }
{
    match base {
        ISide::Zero => true,
        ISide::At(_) => false,
    }
}

fn is_minus(sign: TokenKind) -> bool
    ensures { result ≡ is_minus sign }
{
    match sign {
        TokenKind::Minus => true,
        _ => false,
    }
}

fn is_star(sign: TokenKind) -> bool
    ensures { result ≡ is_star sign }
{
    match sign {
        TokenKind::Star => true,
        _ => false,
    }
}

fn with_term(first: &mut Option<Fault>, s: Summed, minus: bool, token: u32, side: Side) -> Summed
    ensures value { result ≡ (with_term s minus token side).summed }
    ensures first { first.new ≡ first_of_all first.old (with_term s minus token side).faults }
{
    match side {
        Side::Int(base, _) if !minus && is_zero(s.base) => Summed { base, ..s },
        _ => {
            tell(first, token, TypeKind::T05);
            Summed { refused: true, ..s }
        }
    }
}

fn with_side(
    first: &mut Option<Fault>,
    s: Summed,
    minus: bool,
    token: u32,
    side: Option<Side>,
) -> Summed
    ensures value { result ≡ (with_side s minus token side).summed }
    ensures first { first.new ≡ first_of_all first.old (with_side s minus token side).faults }
{
    match side {
        Some(side) => with_term(first, s, minus, token, side),
        None => Summed { refused: true, ..s },
    }
}

fn with_sign(first: &mut Option<Fault>, s: Summed, sign: &Leaf) -> Summed
    ensures value { result ≡ (with_sign s sign.now).summed }
    ensures first { first.new ≡ first_of_all first.old (with_sign s sign.now).faults }
{
    if is_star(sign.token.kind) {
        tell(first, sign.number, TypeKind::T06);
        return Summed { refused: true, ..s };
    }
    s
}

fn with_part(
    names: &Names,
    scope: &[Local],
    first: &mut Option<Fault>,
    s: Summed,
    sign: TokenKind,
    part: &PartNode,
) -> Summed
    requires { unsigned_abs s.total ≤ 1000000000 }
    ensures value { result ≡ (with_part names.now scope.now s sign part.now).summed }
    ensures first { first.new ≡ first_of_all first.old (with_part names.now scope.now s sign part.now).faults }
    ensures small { unsigned_abs result.total ≤ 1000000000 }
{
    match *part {
        PartNode::Number { minus, number } => with_number(names, first, s, sign, minus, &number),
        PartNode::Named { name, index } => {
            let side = named(names, scope, first, &name, index);
            with_side(first, s, is_minus(sign), name.number, side)
        }
    }
}

fn with_step(
    names: &Names,
    scope: &[Local],
    first: &mut Option<Fault>,
    s: Summed,
    step: &SumStep,
) -> Summed
    requires { unsigned_abs s.total ≤ 1000000000 }
    ensures value { result ≡ (with_step names.now scope.now s step.now).summed }
    ensures first { first.new ≡ first_of_all first.old (with_step names.now scope.now s step.now).faults }
    ensures small { unsigned_abs result.total ≤ 1000000000 }
{
    let s = with_sign(first, s, &step.sign);
    with_part(names, scope, first, s, step.sign.token.kind, &step.part)
}

fn with_steps(
    names: &Names,
    scope: &[Local],
    first: &mut Option<Fault>,
    s: Summed,
    steps: &[SumStep],
) -> Summed
    requires { unsigned_abs s.total ≤ 1000000000 }
    ensures value { result ≡ (with_steps names.now scope.now s steps.now).summed }
    ensures first { first.new ≡ first_of_all first.old (with_steps names.now scope.now s steps.now).faults }
    ensures small { unsigned_abs result.total ≤ 1000000000 }
{
    let mut so_far = s;
    for step in steps {
        so_far = with_step(names, scope, first, so_far, step);
    }
    so_far
}

fn finished(s: Summed) -> Option<Side>
    requires { unsigned_abs s.total ≤ 1000000000 }
    ensures value { result ≡ finished s }
    ensures small { IfSome result (λ side. IsTrue (is_small side)) }
{
    if s.refused || s.over {
        None
    } else {
        Some(Side::Int(s.base, s.total))
    }
}

fn whole_sum(
    names: &Names,
    scope: &[Local],
    first: &mut Option<Fault>,
    node: &SumNode,
) -> Option<Side>
    ensures value { result ≡ (summed names.now scope.now node.now.first node.now.steps).value }
    ensures first { first.new ≡ first_of_all first.old (summed names.now scope.now node.now.first node.now.steps).faults }
    ensures small { IfSome result (λ side. IsTrue (is_small side)) }
{
    let s = with_part(names, scope, first, start(), TokenKind::Plus, &node.first);
    finished(with_steps(names, scope, first, s, node.steps.as_slice()))
}

/// The side that a sum gives: a name alone is what it stands for, all else is an integer.
pub fn sum_side(
    names: &Names,
    scope: &[Local],
    first: &mut Option<Fault>,
    node: &SumNode,
) -> Option<Side>
    ensures value { result ≡ (side names.now scope.now node.now).value }
    ensures first { first.new ≡ first_of_all first.old (side names.now scope.now node.now).faults }
    ensures small { IfSome result (λ side. IsTrue (is_small side)) }
{
    match node.first {
        PartNode::Named { name, index } if node.steps.is_empty() => {
            named(names, scope, first, &name, index)
        }
        _ => whole_sum(names, scope, first, node),
    }
}
