//! Which forms does an item have, and what does each keep?
//!
//! Forms are grouped by what they hold: a regular expression, which is read later than the rest; names alone; or equations. So a form of
//! names alone is in one enum, and what is said of regular expressions or equations needs no line for it.

use crate::{Equation, NamedKind, Production, ProductionRole, Role};
use wb_base::{Bytes, Sequence};

/// An item of a specification. `P` is its regular expression, as written or as read.
#[derive(Drop)]
pub struct Item<P> {
    /// The place of its first token, in bytes from the beginning of the file.
    pub offset: usize,
    /// What it says.
    pub form: ItemForm<P>,
}

/// What an item says.
#[derive(Drop)]
pub enum ItemForm<P> {
    /// A terminal, layout or a marking terminal, and what it matches.
    Lexical {
        /// Which of the three.
        role: Role,
        /// Its name.
        name: Bytes,
        /// What it matches.
        pattern: P,
    },
    /// Something of names alone.
    Plain(PlainForm),
    /// A production, of the concrete grammar or abstract.
    Production {
        /// Which of the two.
        role: ProductionRole,
        /// The production.
        production: Production,
    },
    /// Further equations of a production.
    Aspect {
        /// The production.
        name: Bytes,
        /// The equations, in the order in which they are written.
        equations: Sequence<Equation>,
    },
}

/// What an item of names alone says.
#[derive(Drop)]
pub enum PlainForm {
    /// The first is preferred to the second.
    Prefer {
        /// The first.
        first: Bytes,
        /// The second.
        second: Bytes,
    },
    /// A nonterminal of this name.
    Nonterminal(Bytes),
    /// The nonterminal of this name is the start.
    Start(Bytes),
    /// Extensions may add productions to the nonterminal of this name.
    Extensible(Bytes),
    /// No extension adds an occurrence to the nonterminal of this name, and its productions on it needn't forward.
    Closed(Bytes),
    /// A synthesized attribute.
    Synthesized {
        /// Its name.
        name: Bytes,
        /// Its kind.
        kind: NamedKind,
    },
    /// An inherited attribute.
    Inherited {
        /// Its name.
        name: Bytes,
        /// Its kind.
        kind: NamedKind,
    },
    /// An attribute occurs on a nonterminal.
    Occurs {
        /// The attribute.
        attribute: Bytes,
        /// The nonterminal.
        nonterminal: Bytes,
        /// Its flow type, where one is written.
        needs: Option<Sequence<Bytes>>,
    },
    /// The flow type of what the productions of a nonterminal forward to.
    ForwardOn {
        /// The nonterminal.
        nonterminal: Bytes,
        /// The flow type.
        needs: Sequence<Bytes>,
    },
}
