//! What does a terminal keep, by numbers?
//!
//! Layout is numbered on after the terminals of the grammar, so that one list has all that is scanned. What holds of it is in
//! `specs/Resolved`.

use wb_base::Bytes;
use wb_regex::Regex;

/// What a terminal is for.
#[derive(Clone, Copy)]
pub enum TerminalKind {
    /// It is of the grammar.
    Plain,
    /// Layout, which is skipped.
    Ignore,
    /// A marker: it is of the grammar, and an extension's.
    Marking,
}

/// A terminal.
pub struct Terminal {
    /// Its name, as its owner's file writes it.
    pub name: Bytes,
    /// Its owner, by number.
    pub owner: usize,
    /// What it is for.
    pub kind: TerminalKind,
    /// What it matches.
    pub pattern: Regex,
}

impl Drop for Terminal {
    fn drop(self) {
        let Terminal {
            name,
            owner: _,
            kind: _,
            pattern,
        } = self;
        drop(name);
        drop(pattern);
    }
}

/// The first terminal wins where both match the same longest text.
#[derive(Clone, Copy)]
pub struct Preference {
    /// The number of the terminal that wins.
    pub first: usize,
    /// The number of the other.
    pub second: usize,
}
