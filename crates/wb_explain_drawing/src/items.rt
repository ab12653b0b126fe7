//! What is listed of a tree?

ghost use Rattle.std.specs.Prelude.{◌≡◌, [], false};

use std::alloc::Global;

/// A node of a tree, of this production, or a leaf.
#[derive(Clone, Copy)]
pub enum Part {
    /// A node of this production.
    Node(usize),
    /// A leaf.
    Leaf,
}

/// What is at one place of a listing: how many nodes it is below, and how many leaves are before it, which is the number of a leaf.
#[derive(Clone, Copy)]
pub struct Item {
    /// What it is.
    pub part: Part,
    /// How many nodes it is below.
    pub depth: usize,
    /// How many leaves are before it.
    pub leaf: usize,
}

/// The nodes and leaves of a tree, each before what is below it.
pub struct Listing {
    /// Those that are listed.
    pub items: Vec<Item>,
    /// How many nodes and leaves come after each of them that aren't listed, since they are below more nodes than those that are.
    pub hidden: Vec<usize>,
    /// Whether it ends where the tree does.
    pub whole: bool,
}

impl Drop for Listing {
    fn drop(self) {
        let Listing {
            items,
            hidden,
            whole: _,
        } = self;
        drop(items);
        drop(hidden);
    }
}

impl Listing {
    // No items.
    pub(crate) fn new(alloc: Global) -> Listing
        ensures { result.items.items ≡ [] }
    {
        Listing {
            items: Vec::new(alloc),
            hidden: Vec::new(alloc),
            whole: false,
        }
    }
}
