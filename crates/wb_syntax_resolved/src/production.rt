//! What does a production keep, by numbers?
//!
//! All that is written on it is in one row, so that it is tested by itself. What an owner may write there is in `specs/Owned`.

use crate::{Equation, Node};
use wb_base::{Bytes, Kind, Sequence};

/// What a production is for.
#[derive(Clone, Copy)]
pub enum ProductionRole {
    /// It is of the concrete grammar.
    Concrete,
    /// No text has it.
    Abstract,
}

/// What a child is.
#[derive(Clone, Copy)]
pub enum ChildKind {
    /// The terminal of this number, whose value is the text of its lexeme. In range where a resolved specification has it.
    Terminal(usize),
    /// A value of this kind.
    Value(Kind),
}

/// A child of a production.
pub struct Child {
    /// The label by which its file names it.
    pub label: Bytes,
    /// What it is.
    pub kind: ChildKind,
}

impl Drop for Child {
    fn drop(self) {
        let Child { label, kind: _ } = self;
        drop(label);
    }
}

/// A local of a production: a tree that an equation makes.
pub struct Local {
    /// The label by which its owner's file names it.
    pub label: Bytes,
    /// Its owner, by number.
    pub owner: usize,
    /// The position of the first token of its equation, in bytes from the beginning of its owner's file.
    pub offset: usize,
    /// The number of its nonterminal.
    pub nonterminal: usize,
    /// The expression of its tree.
    pub nodes: Sequence<Node>,
}

impl Drop for Local {
    fn drop(self) {
        let Local {
            label,
            owner: _,
            offset: _,
            nonterminal: _,
            nodes,
        } = self;
        drop(label);
        drop(nodes);
    }
}

/// What a production forwards to.
pub struct Forward {
    /// The position of the first token of its equation, in bytes from the beginning of the file of the production's owner.
    pub offset: usize,
    /// The expression of the tree.
    pub nodes: Sequence<Node>,
}

impl Drop for Forward {
    fn drop(self) {
        let Forward { offset: _, nodes } = self;
        drop(nodes);
    }
}

/// A production with all that is written on it.
pub struct Production {
    /// Its name, as its owner's file writes it.
    pub name: Bytes,
    /// Its owner, by number.
    pub owner: usize,
    /// Whether the concrete grammar has it.
    pub role: ProductionRole,
    /// The number of the nonterminal on its left.
    pub left: usize,
    /// Its children, from left to right.
    pub children: Sequence<Child>,
    /// Its locals, of all owners that see it, in any order.
    pub locals: Sequence<Local>,
    /// What it forwards to, where it does.
    pub forward: Option<Forward>,
    /// Its equations for attributes, of all owners that see it, in any order.
    pub equations: Sequence<Equation>,
}

impl Drop for Production {
    fn drop(self) {
        let Production {
            name,
            owner: _,
            role: _,
            left: _,
            children,
            locals,
            forward,
            equations,
        } = self;
        drop(name);
        drop(children);
        drop(locals);
        drop(forward);
        drop(equations);
    }
}
