//! The tree of a protocol text. Its leaves are tokens with their numbers, and every part that repeats is a list.

use cub_base::{Boxed, Items};
use cub_lexer::Token;

/// A token with its number, counted from 0.
#[derive(Clone, Copy, Debug, PartialEq, Eq)]
pub struct Leaf {
    pub number: u32,
    pub token: Token,
}

/// Tokens of one list, in order.
pub type Leaves = Items<Leaf>;
/// Declarations of types, variables and arrays.
pub type DeclNodes = Items<DeclNode>;
/// What follows `init`.
pub type RestNodes = Items<RestNode>;
/// The updates of a transition.
pub type UpdateNodes = Items<UpdateNode>;
/// The branches of an update behind `case`.
pub type CaseNodes = Items<CaseNode>;
/// Formulas joined by one operator.
pub type FormNodes = Items<FormNode>;
/// What follows the first part of a sum.
pub type SumSteps = Items<SumStep>;

/// A whole text.
#[derive(Debug, Drop)]
pub struct Syntax {
    pub decls: DeclNodes,
    pub init: BodyNode,
    pub rests: RestNodes,
}

/// A declaration of a type, a variable or an array.
#[derive(Debug, Drop)]
pub enum DeclNode {
    Enumeration { name: Leaf, cons: Leaves },
    Var { name: Leaf, sort: Leaf },
    Array { name: Leaf, sort: Leaf },
}

/// Names in brackets, and a formula in braces, absent where it is `True`. `close` is the closing brace.
#[derive(Debug, Drop)]
pub struct BodyNode {
    pub names: Leaves,
    pub formula: Option<FormNode>,
    pub close: Leaf,
}

/// What may follow `init`. The guard is the body behind `requires`, and has no names.
#[derive(Debug, Drop)]
pub enum RestNode {
    Unsafe(BodyNode),
    Invariant {
        word: Leaf,
        body: BodyNode,
    },
    Transition {
        name: Leaf,
        names: Leaves,
        guard: Option<BodyNode>,
        updates: UpdateNodes,
    },
}

/// An update. `at` is its `:=`, or with `case` the `:` behind `_`; `last` stands behind it.
#[derive(Debug, Drop)]
pub struct UpdateNode {
    pub name: Leaf,
    pub index: Option<Leaf>,
    pub branches: CaseNodes,
    pub at: Leaf,
    pub last: RightNode,
}

/// A branch of an update.
#[derive(Debug, Drop)]
pub struct CaseNode {
    pub cond: FormNode,
    pub colon: Leaf,
    pub right: RightNode,
}

/// A new value: a sum, or any value.
#[derive(Debug, Drop)]
pub enum RightNode {
    Sum(SumNode),
    Any { mark: Leaf },
}

/// A formula. `Or` and `And` have two parts or more, since one part alone is that part.
#[derive(Debug, Drop)]
pub enum FormNode {
    Or(FormNodes),
    And(FormNodes),
    Not(Boxed<FormNode>),
    Group(Boxed<FormNode>),
    Forall {
        word: Leaf,
        name: Leaf,
        body: Boxed<FormNode>,
    },
    Side(SumNode),
    Rel {
        a: SumNode,
        sign: Leaf,
        b: SumNode,
    },
}

/// A sum of parts.
#[derive(Debug, Drop)]
pub struct SumNode {
    pub first: PartNode,
    pub steps: SumSteps,
}

/// A sign, and the part behind it.
#[derive(Clone, Copy, Debug)]
pub struct SumStep {
    pub sign: Leaf,
    pub part: PartNode,
}

/// A number, with a minus or without, or a name, with an index or without.
#[derive(Clone, Copy, Debug)]
pub enum PartNode {
    Number { minus: Option<Leaf>, number: Leaf },
    Named { name: Leaf, index: Option<Leaf> },
}
