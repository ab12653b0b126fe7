//! What do nonterminals, attributes and their occurrences keep, by numbers?
//!
//! An occurrence has a flow type, so that one production is tested without the others. Which numbers are in range is in `specs/Named`.

use wb_base::{Bytes, Kind, Sequence};

/// A nonterminal.
pub struct Nonterminal {
    /// Its name, as its owner's file writes it.
    pub name: Bytes,
    /// Its owner, by number.
    pub owner: usize,
    /// Whether no other owner may declare that an attribute occurs on it.
    pub closed: bool,
    /// The numbers of the inherited attributes that what its productions forward to may need.
    pub forward_needs: Sequence<usize>,
}

impl Drop for Nonterminal {
    fn drop(self) {
        let Nonterminal {
            name,
            owner: _,
            closed: _,
            forward_needs,
        } = self;
        drop(name);
        drop(forward_needs);
    }
}

/// Which way an attribute's values go in a tree.
#[derive(Clone, Copy)]
pub enum Direction {
    /// Up: a production gives it to its top.
    Synthesized,
    /// Down: a production gives it to its children, locals and forwarded tree.
    Inherited,
}

/// An attribute.
pub struct Attribute {
    /// Its name, as its owner's file writes it.
    pub name: Bytes,
    /// Its owner, by number.
    pub owner: usize,
    /// Which way its values go.
    pub direction: Direction,
    /// The kind of its values.
    pub kind: Kind,
}

impl Drop for Attribute {
    fn drop(self) {
        let Attribute {
            name,
            owner: _,
            direction: _,
            kind: _,
        } = self;
        drop(name);
    }
}

/// An attribute on a nonterminal.
pub struct Occurrence {
    /// Its owner, by number.
    pub owner: usize,
    /// The number of the attribute.
    pub attribute: usize,
    /// The number of the nonterminal.
    pub nonterminal: usize,
    /// Its flow type: the numbers of inherited attributes of the nonterminal. Empty for an inherited attribute.
    pub needs: Sequence<usize>,
}

impl Drop for Occurrence {
    fn drop(self) {
        let Occurrence {
            owner: _,
            attribute: _,
            nonterminal: _,
            needs,
        } = self;
        drop(needs);
    }
}
