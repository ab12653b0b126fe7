use wb_grammar_theory::Item;

/// A lookahead of an item at a kernel, and the place in the list of the entry from which it follows.
///
/// The kernel is by the number of its line. The first entry follows from none, and has no origin.
#[derive(Clone, Copy)]
pub struct Entry {
    pub kernel: usize,
    pub item: Item,
    pub terminal: usize,
    pub origin: Option<usize>,
}
