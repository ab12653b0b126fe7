//! What is an equation for, and what does it read, by numbers?
//!
//! Its expression is a list of nodes; what lists are expressions is in `wb_syntax_expressions`.

use wb_base::{Bytes, Sequence};

/// What a label names in a production.
#[derive(Clone, Copy)]
pub enum Place {
    /// The child of this number, from 0 on and from left to right.
    Child(usize),
    /// The local of this number, from 0 on and in the production's order.
    Local(usize),
}

/// A node of an expression: labels are places, attributes and productions are numbers, and an operation has its name. A list of nodes
/// is an expression: the parts of a node come before it, from left to right, and are named by their positions from 0 on; the last node
/// is the whole.
pub type Node = wb_syntax_expressions::Node<Place, usize, usize, Bytes>;

/// What an equation is for.
#[derive(Clone, Copy)]
pub enum Target {
    /// The synthesized attribute of this number, of the production's top.
    Top(usize),
    /// An inherited attribute of a child or local.
    Place {
        /// The child or local.
        place: Place,
        /// The number of the attribute.
        attribute: usize,
    },
    /// The inherited attribute of this number, of the forwarded tree.
    Forward(usize),
}

/// An equation for an attribute.
pub struct Equation {
    /// Its owner, by number.
    pub owner: usize,
    /// The position of its first token, in bytes from the beginning of its owner's file.
    pub offset: usize,
    /// What it is for.
    pub target: Target,
    /// Its expression.
    pub nodes: Sequence<Node>,
}

impl Drop for Equation {
    fn drop(self) {
        let Equation {
            owner: _,
            offset: _,
            target: _,
            nodes,
        } = self;
        drop(nodes);
    }
}
