//! What does a file declare?
//!
//! All that rules compare, in one type, so that 'twice' and 'there' are said once. Which item declares what is in `specs/Declares`.

use wb_base::Bytes;
use wb_syntax_resolved::Direction;

/// What a name of a terminal, layout, marker, nonterminal or production is declared as.
#[derive(Clone, Copy)]
pub enum Sort {
    /// A terminal that is neither layout nor a marker.
    Terminal,
    /// Layout.
    Layout,
    /// A marker.
    Marker,
    /// A nonterminal.
    Nonterminal,
    /// A production.
    Production,
}

/// What a label of a production is.
#[derive(Drop)]
pub enum Labelled {
    /// A child of kind int, bool or text.
    Plain,
    /// A child that is what this name stands for.
    Child(Bytes),
    /// A local, a tree of this nonterminal.
    Local(Bytes),
}

/// The tree of which an equation gives or reads an attribute.
#[derive(Drop)]
pub enum Site {
    /// The node of the production itself.
    Top,
    /// The child or local of this label.
    Label(Bytes),
    /// The forwarded tree.
    Forward,
}

/// A declaration, by names as files write them.
#[derive(Drop)]
pub enum Declaration {
    /// A terminal, layout, marker, nonterminal or production.
    Symbol {
        /// Its name.
        name: Bytes,
        /// What it is declared as.
        sort: Sort,
    },
    /// An attribute.
    Attribute {
        /// Its name.
        name: Bytes,
        /// Which way its values go.
        direction: Direction,
    },
    /// An attribute occurs on a nonterminal.
    Occurrence {
        /// The attribute.
        attribute: Bytes,
        /// The nonterminal.
        nonterminal: Bytes,
    },
    /// A production has a nonterminal on its left.
    Left {
        /// The production.
        production: Bytes,
        /// The nonterminal.
        nonterminal: Bytes,
    },
    /// A production has a child or local.
    Label {
        /// The production.
        production: Bytes,
        /// Its label.
        label: Bytes,
        /// What it is.
        is: Labelled,
    },
    /// An equation of a production gives an attribute.
    Equation {
        /// The production.
        production: Bytes,
        /// The attribute.
        attribute: Bytes,
        /// The tree of which it is.
        site: Site,
    },
    /// A production forwards.
    Forward(Bytes),
    /// The start.
    Start(Bytes),
    /// A nonterminal to which extensions may add productions.
    Extensible(Bytes),
    /// A nonterminal to which no extension adds an occurrence.
    Closed(Bytes),
    /// The flow type of what a nonterminal's productions forward to.
    ForwardNeeds(Bytes),
    /// The first is preferred to the second.
    Preference {
        /// The first.
        first: Bytes,
        /// The second.
        second: Bytes,
    },
}
