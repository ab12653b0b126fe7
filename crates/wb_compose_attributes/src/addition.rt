//! What do a host and an extension lend to the attributes of their union?

use wb_syntax_resolved::{Attribute, Nonterminal, Occurrence, Production};

/// The rows of a host, or those that an extension adds.
///
/// Nonterminals and productions of the grammar stand apart from those that are abstract alone.
#[derive(Clone, Copy)]
pub struct Rows<'a> {
    /// How many terminals there are in the grammar.
    pub terminals: usize,
    pub nonterminals: &'a [Nonterminal],
    pub abstract_nonterminals: &'a [Nonterminal],
    pub attributes: &'a [Attribute],
    pub occurrences: &'a [Occurrence],
    pub productions: &'a [Production],
    pub abstract_productions: &'a [Production],
}

/// What an extension adds to its host, in the numbers that it has with the host alone.
#[derive(Clone, Copy)]
pub struct Addition<'a> {
    /// The name of the extension.
    pub name: &'a [u8],
    pub rows: Rows<'a>,
    /// All productions of the host with the extension. On one of the host the extension's locals and equations come after the host's.
    pub written: &'a [Production],
}
