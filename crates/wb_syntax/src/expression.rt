//! What is an equation for, and what does it say?
//!
//! Its expression is a list of nodes; what lists are expressions is in `wb_syntax_expressions`.

use wb_base::{Bytes, Sequence};

/// A node of an expression, with names. A list of them is an expression: the parts of a node come before it, from left to right, and
/// are named by their places from 0 on; the last node is the whole.
pub type Node = wb_syntax_expressions::Node<Bytes, Bytes, Bytes, Bytes>;

/// What an equation is for.
#[derive(Drop)]
pub enum Target {
    /// A synthesized attribute of the production's top.
    Top(Bytes),
    /// An inherited attribute of the child or local of this label.
    Label {
        /// The label.
        label: Bytes,
        /// The attribute.
        attribute: Bytes,
    },
    /// An inherited attribute of the forwarded tree.
    Forward(Bytes),
    /// A local, a tree of this nonterminal.
    Local {
        /// The label.
        label: Bytes,
        /// The nonterminal.
        nonterminal: Bytes,
    },
    /// The tree that the production forwards to.
    ForwardsTo,
}

/// An equation.
pub struct Equation {
    /// The place of its first token, in bytes from the beginning of the file.
    pub offset: usize,
    /// What it is for.
    pub target: Target,
    /// Its expression.
    pub nodes: Sequence<Node>,
}

impl Drop for Equation {
    fn drop(self) {
        let Equation {
            offset: _,
            target: _,
            nodes,
        } = self;
        drop(nodes);
    }
}
