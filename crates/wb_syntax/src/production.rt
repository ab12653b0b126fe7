//! What does a production keep?
//!
//! Its names, children and equations, in the order in which they are written. Whether it is concrete is in its item.

use crate::Equation;
use wb_base::{Bytes, Sequence};

/// The kind of an attribute or a child, by name.
#[derive(Drop)]
pub enum NamedKind {
    /// A number.
    Int,
    /// A truth value.
    Bool,
    /// A text.
    Text,
    /// What this name stands for: a nonterminal, or for a child of a concrete production a terminal.
    Name(Bytes),
}

/// A child of a production.
pub struct Child {
    /// The label by which equations name it.
    pub label: Bytes,
    /// Its kind.
    pub kind: NamedKind,
}

impl Drop for Child {
    fn drop(self) {
        let Child { label, kind } = self;
        drop(label);
        drop(kind);
    }
}

/// A production with its equations.
pub struct Production {
    /// Its name.
    pub name: Bytes,
    /// The nonterminal on its left.
    pub left: Bytes,
    /// Its children, from left to right.
    pub children: Sequence<Child>,
    /// Its equations, in the order in which they are written.
    pub equations: Sequence<Equation>,
}

impl Drop for Production {
    fn drop(self) {
        let Production {
            name,
            left,
            children,
            equations,
        } = self;
        drop(name);
        drop(left);
        drop(children);
        drop(equations);
    }
}

/// What a production is for.
#[derive(Clone, Copy, Debug, PartialEq, Eq)]
pub enum ProductionRole {
    /// It is of the concrete grammar.
    Concrete,
    /// No text has it.
    Abstract,
}
