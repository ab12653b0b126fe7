//! What do lines show of grammars, texts and flow graphs?

use wb_base::Bytes;

/// What a parser would do.
#[derive(Drop)]
pub enum ShownAction {
    /// To shift.
    Shift,
    /// To reduce by this production.
    Reduce(Bytes),
    /// To accept the text.
    Accept,
}

/// Two actions on one terminal.
pub struct ShownConflict {
    /// The terminal, or `end`.
    pub terminal: Bytes,
    /// The action that is named first.
    pub first: ShownAction,
    /// The other.
    pub second: ShownAction,
}

impl Drop for ShownConflict {
    fn drop(self) {
        let ShownConflict {
            terminal,
            first,
            second,
        } = self;
        drop(terminal);
        drop(first);
        drop(second);
    }
}

/// A production with a place between its symbols.
pub struct ShownItem {
    /// The production.
    pub production: Bytes,
    /// How many of its symbols come before the place.
    pub dot: usize,
}

impl Drop for ShownItem {
    fn drop(self) {
        let ShownItem { production, dot: _ } = self;
        drop(production);
    }
}

/// Why a text stops.
#[derive(Drop)]
pub enum ShownStop {
    /// Nothing that is considered matches.
    NoToken,
    /// This terminal, or `end`, doesn't go on.
    Unexpected(Bytes),
}

/// A vertex of a flow graph.
#[derive(Drop)]
pub enum ShownVertex {
    /// An attribute of the left side.
    Top(Bytes),
    /// An attribute of a child or local.
    Label { label: Bytes, attribute: Bytes },
    /// An attribute of the forwarded tree.
    Forward(Bytes),
    /// The tree of a local.
    LocalTree(Bytes),
    /// The forwarded tree.
    ForwardTree,
}
