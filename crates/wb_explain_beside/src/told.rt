//! What is known while an extension is spoken of?

use crate::sets::Marks;
use wb_base::{Grammar, Symbol};
use wb_explain_places::Source;
use wb_syntax_resolved::Resolved;

// An extension beside its host: the source, both by numbers, and their grammars.
#[derive(Clone, Copy)]
pub(crate) struct Told<'a> {
    pub(crate) source: &'a Source<'a>,
    pub(crate) resolved: &'a Resolved,
    pub(crate) host: &'a Grammar,
    pub(crate) grammar: &'a Grammar,
}

// What nonterminals can begin with, and what the host has after them.
#[derive(Clone, Copy)]
pub(crate) struct Sets<'a> {
    pub(crate) firsts: &'a Marks,
    pub(crate) follows: &'a Marks,
}

// A part of a production, which is a nonterminal, and the symbol right behind it.
#[derive(Clone, Copy)]
pub(crate) struct Side {
    pub(crate) production: usize,
    pub(crate) part: usize,
    pub(crate) nonterminal: usize,
    pub(crate) behind: Symbol,
}
