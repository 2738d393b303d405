//! The grammar of protocol texts, exactly: the tree of a sentence, or the first token that no sentence has there.
#![tactic(auto)]

// The tree.
mod tree;

pub use tree::{
    BodyNode, CaseNode, CaseNodes, DeclNode, DeclNodes, FormNode, FormNodes, Leaf, Leaves,
    PartNode, RestNode, RestNodes, RightNode, SumNode, SumStep, SumSteps, Syntax, UpdateNode,
    UpdateNodes,
};

// Why there is none.
mod fault;

pub use fault::{ParseFault, ParseKind};

// Reading, from single tokens up to whole texts.
mod decls;
mod files;
mod formulas;
mod parser;
mod sums;
mod tokens;
mod updates;

pub use parser::{no_fault, one_fault, one_tree, parse};

#[cfg(test)]
mod tests;
