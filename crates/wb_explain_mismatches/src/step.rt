//! What makes a value of one kind of one of another?

use wb_base::Kind;

// What makes a value of one value alone, by number.
#[derive(Clone, Copy)]
pub(crate) enum Maker {
    // A production with one child.
    Production(usize),
    // An operation with one argument.
    Operation(usize),
}

// A maker, the kind of which it makes one, and the kind that it makes.
#[derive(Clone, Copy)]
pub(crate) struct Step {
    pub(crate) maker: Maker,
    pub(crate) from: Kind,
    pub(crate) to: Kind,
}
