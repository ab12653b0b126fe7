//! What does a file ask of the names that it uses?
//!
//! Each place of a name asks for something. Which place asks for what is in `specs/Uses`.

use crate::Site;
use wb_base::Bytes;

/// What the place of a name asks for. The last three are in the name space of attributes, the others in that of all else.
#[derive(Clone, Copy)]
pub enum Wanted {
    /// A terminal, layout or marker.
    Lexical,
    /// A terminal, a marker or a nonterminal.
    GrammarSymbol,
    /// A nonterminal.
    Nonterminal,
    /// A production.
    Production,
    /// An attribute.
    Attribute,
    /// A synthesized attribute.
    Synthesized,
    /// An inherited attribute.
    Inherited,
}

/// What the place of a label asks for.
#[derive(Clone, Copy)]
pub enum LabelWanted {
    /// A tree, whose attribute is given or read.
    Tree,
    /// A terminal or marker, whose lexeme is read.
    Lexeme,
    /// A local, or a child that is no terminal or marker, as a value.
    Value,
}

/// A name in its place, as files write it.
#[derive(Drop)]
pub enum Usage {
    /// A name in one of the two name spaces.
    Name {
        /// The name.
        name: Bytes,
        /// What its place asks for.
        wanted: Wanted,
    },
    /// A label in an equation of a production.
    Label {
        /// The production.
        production: Bytes,
        /// The label.
        label: Bytes,
        /// What its place asks for.
        wanted: LabelWanted,
    },
    /// An attribute that an equation of a production gives or reads.
    Attribute {
        /// The production.
        production: Bytes,
        /// The attribute.
        attribute: Bytes,
        /// The tree of which it is.
        site: Site,
    },
    /// An attribute in a flow type.
    Needs {
        /// The attribute.
        attribute: Bytes,
        /// The nonterminal on which the flow type is declared.
        nonterminal: Bytes,
    },
}
