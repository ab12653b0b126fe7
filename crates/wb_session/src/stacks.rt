//! How are the stacks before all tokens kept? As linked entries, so that stacks share what is below.
//!
//! A stack is named by its link: 0 where it has no roots, and else one more than the number of the entry of its last root. Entries are only
//! added, so a link stands for the same stack as long as its entry is there.

ghost use Rattle.std.specs.Prelude.{◌≡◌, ◌<◌, ◌≤◌, ◌+◌, ◌-◌, ◌++◌, ◌∷◌, [], ℕ, IfOk, OnErr, OnOk, length};
ghost use Rattle.wb_values.specs.declared.value.Value.TheVariants.{Text, Tree as Stored};
ghost use Rattle.wb_session.specs.Inner.Entries.{state_in};
ghost use Rattle.wb_session.specs.Stacks.{IsLinked};
ghost use Rattle.wb_session.specs.Inner.Gathered.{AreBeingGathered, AreGathered, IsRoot};

use std::alloc::{AllocError, Global};
use wb_base::push;
use wb_values::{PackedValues, TreeId, TreeStore, Value};

// The state of a root, the link of the stack below it, and the number of its tree, or 0 where it is a leaf.
#[derive(Clone, Copy)]
pub(crate) struct Entry {
    pub(crate) state: usize,
    pub(crate) below: usize,
    pub(crate) tree: usize,
}

// Entries of an older run, from one of them on. Their trees are likely to be made again.
#[derive(Clone, Copy)]
pub(crate) struct Likely<'a> {
    pub(crate) entries: &'a [Entry],
    pub(crate) first: usize,
}

impl<'a> Likely<'a> {
    // The tree of the entry of this number, counted from the first on. Any number may be given.
    pub(crate) fn tree(&self, number: usize) -> usize {
        let place = self.first.saturating_add(number);
        if place < self.entries.len() {
            self.entries[place].tree
        } else {
            usize::MAX
        }
    }
}

// Entries with the values of their roots, by number; the store of the values' trees; and room for the children of a node.
pub(crate) struct Stacks {
    pub(crate) entries: Vec<Entry>,
    pub(crate) values: PackedValues,
    pub(crate) store: TreeStore,
    pub(crate) children: Vec<Value>,
}

impl Drop for Stacks {
    fn drop(self) {
        let Stacks {
            entries,
            values,
            store,
            children,
        } = self;
        drop(entries);
        drop(values);
        drop(store);
        drop(children);
    }
}

impl Stacks {
    // No entries and no trees.
    pub(crate) fn new(alloc: Global) -> Stacks
        ensures entries { result.entries.items ≡ [] }
        ensures values { result.values ≡ [] }
        ensures store { result.store ≡ [] }
    {
        Stacks {
            entries: Vec::new(alloc),
            values: PackedValues::new(alloc),
            store: TreeStore::new(alloc),
            children: Vec::new(alloc),
        }
    }
}

// The state on top of a stack.
pub(crate) fn state_at(entries: &[Entry], link: usize) -> usize
    requires { link ≤ length entries.now }
    ensures { result ≡ state_in entries.now link }
{
    if link == 0 {
        return 0;
    }
    entries[link - 1].state
}

// Puts a tree on top of a stack. Answers the link of that.
pub(crate) fn push_tree(
    stacks: &mut Stacks,
    entry: Entry,
    tree: TreeId,
) -> Result<usize, AllocError>
    ensures entries { OnOk result (stacks.new.entries.items ≡ stacks.old.entries.items ++ entry ∷ []) }
    ensures values { OnOk result (stacks.new.values ≡ stacks.old.values ++ Stored tree ∷ []) }
    ensures link { IfOk result (λ link. link ≡ length stacks.old.entries.items + 1) }
    ensures err_entries { OnErr result (stacks.new.entries.items ≡ stacks.old.entries.items) }
    ensures err_values { OnErr result (stacks.new.values ≡ stacks.old.values) }
    ensures store { stacks.new.store ≡ stacks.old.store }
{
    stacks.entries.reserve(1)?;
    stacks.values.push_tree(tree)?;
    stacks.entries.push_reserved(entry);
    Ok(stacks.entries.len())
}

// Puts a lexeme on top of a stack. Answers the link of that.
pub(crate) fn push_lexeme(
    stacks: &mut Stacks,
    entry: Entry,
    lexeme: &[u8],
) -> Result<usize, AllocError>
    ensures entries { OnOk result (stacks.new.entries.items ≡ stacks.old.entries.items ++ entry ∷ []) }
    ensures values { OnOk result (stacks.new.values ≡ stacks.old.values ++ Text lexeme.now ∷ []) }
    ensures link { IfOk result (λ link. link ≡ length stacks.old.entries.items + 1) }
    ensures err_entries { OnErr result (stacks.new.entries.items ≡ stacks.old.entries.items) }
    ensures err_values { OnErr result (stacks.new.values ≡ stacks.old.values) }
    ensures store { stacks.new.store ≡ stacks.old.store }
{
    stacks.entries.reserve(1)?;
    stacks.values.push_text(lexeme)?;
    stacks.entries.push_reserved(entry);
    Ok(stacks.entries.len())
}

// Gathers the values of the last roots of a stack, so many of them or all where there are fewer, in order. Answers the link of what is
// below them.
pub(crate) fn gather(
    entries: &[Entry],
    values: &PackedValues,
    children: &mut Vec<Value>,
    link: usize,
    count: usize,
) -> Result<usize, AllocError>
    requires linked { IsLinked entries.now }
    requires same { length values.now ≡ length entries.now }
    requires link { link ≤ length entries.now }
    ensures gathered { IfOk result (λ below. AreGathered entries.now values.now link count below children.new.items) }
    ensures below { IfOk result (λ below. below ≤ link) }
{
    children.clear();
    let mut below = link;
    'roots: for _taken in 0..count {
        below = add_root(entries, values, children, below)?;
    }
    children.reverse();
    Ok(below)
}

// Adds the value of the root on top, where there is one. Answers the link of the stack below it.
fn add_root(
    entries: &[Entry],
    values: &PackedValues,
    children: &mut Vec<Value>,
    link: usize,
) -> Result<usize, AllocError>
    requires linked { IsLinked entries.now }
    requires same { length values.now ≡ length entries.now }
    requires link { link ≤ length entries.now }
    ensures gathered { IfOk result (λ below. (first count : ℕ) → AreBeingGathered entries.now values.now first count link children.old.items → AreBeingGathered entries.now values.now first (count + 1) below children.new.items) }
    ensures below { IfOk result (λ below. below ≤ link) }
{
    if link == 0 {
        return Ok(link);
    }
    let below = take_root(entries, values, children, link)?;
    Ok(below)
}

// Adds the value of the root on top. Answers the link of the stack below it.
fn take_root(
    entries: &[Entry],
    values: &PackedValues,
    children: &mut Vec<Value>,
    link: usize,
) -> Result<usize, AllocError>
    requires some { 0 < link }
    requires link { link ≤ length entries.now }
    requires same { length values.now ≡ length entries.now }
    ensures root { IfOk result (λ below. IsRoot entries.now values.now link below children.old.items children.new.items) }
{
    let value = values.get(link - 1)?;
    push(children, value)?;
    Ok(entries[link - 1].below)
}
