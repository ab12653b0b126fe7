//! Which terminals come with an item? An item with its set, by which contracts see `lookaheads.rt`.

use wb_grammar_theory::Item;
use wb_termset::TermSet;

/// An item with a set of terminals.
pub struct ItemLookahead {
    pub item: Item,
    pub set: TermSet,
}

impl Drop for ItemLookahead {
    fn drop(self) {
        let ItemLookahead { item: _, set } = self;
        drop(set);
    }
}
