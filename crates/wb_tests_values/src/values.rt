//! Are trees built, read and removed, are packed values equal to those of a list, and are signatures found by their names?
//!
//! Expected values are plain data, which owns nothing. A value is made at the call that takes it, and lives no longer.

ghost use Rattle.std.specs.Prelude.{◌<◌, IfOk, length};
ghost use Rattle.wb_values.specs.ValuesIn.{IsIn};

use crate::holds;
use std::alloc::{AllocError, Global};
use wb_base::{Bytes, Kind, push};
use wb_values::{PackedValues, Signatures, TreeId, TreeStore, Value};

// An expected value.
#[derive(Clone, Copy)]
enum Plain {
    Int(i64),
    Bool(bool),
    Text(&'static str),
    // The tree of this number in its store.
    Tree(usize),
}

// Whether a value is the expected one.
fn is(value: &Value, wanted: Plain) -> bool {
    match wanted {
        Plain::Int(wanted) => matches!(value, Value::Int(number) if *number == wanted),
        Plain::Bool(wanted) => matches!(value, Value::Bool(truth) if *truth == wanted),
        Plain::Text(wanted) => is_text(value, wanted.as_bytes()),
        Plain::Tree(wanted) => matches!(value, Value::Tree(tree) if tree.0 == wanted),
    }
}

fn is_text(value: &Value, wanted: &[u8]) -> bool {
    match value {
        Value::Text(text) => text.as_slice() == wanted,
        _ => false,
    }
}

// The expected tree, if one is expected.
fn tree_of(wanted: Plain) -> Option<TreeId> {
    match wanted {
        Plain::Tree(tree) => Some(TreeId(tree)),
        _ => None,
    }
}

// Whether the child at a position is the expected one.
fn is_child(
    store: &TreeStore,
    tree: TreeId,
    place: usize,
    wanted: Plain,
) -> Result<bool, AllocError> {
    if tree.0 >= store.len() || store.arity(tree) <= place {
        return Ok(false);
    }
    let same = is(&store.child(tree, place)?, wanted);
    Ok(same && store.child_tree(tree, place) == tree_of(wanted))
}

// Whether a tree has this production and these children.
fn is_tree(
    store: &TreeStore,
    tree: TreeId,
    production: usize,
    children: &[Plain],
) -> Result<bool, AllocError> {
    for (place, wanted) in children.iter().enumerate() {
        if !is_child(store, tree, place, *wanted)? {
            return Ok(false);
        }
    }
    Ok(
        tree.0 < store.len()
            && store.production(tree) == production
            && store.arity(tree) == children.len(),
    )
}

// Whether a store has these trees, each with its production and its children.
fn has_trees(store: &TreeStore, trees: &[(usize, &[Plain])]) -> Result<bool, AllocError> {
    for (place, (production, children)) in trees.iter().enumerate() {
        if !is_tree(store, TreeId(place), *production, children)? {
            return Ok(false);
        }
    }
    Ok(store.len() == trees.len())
}

// A leaf, and a pair over it.
static PAIR: [(usize, &[Plain]); 2] = [
    (3, &[Plain::Text("7")]),
    (0, &[Plain::Tree(0), Plain::Int(-2)]),
];

static LEAF: [(usize, &[Plain]); 1] = [(3, &[Plain::Text("7")])];

fn add_leaf(store: &mut TreeStore, alloc: Global) -> Result<TreeId, AllocError>
    ensures { IfOk result (λ leaf. leaf.0 < length store.new) }
{
    let seven = Bytes::from_slice(alloc, b"7")?;
    store.build(3, vec![in alloc; Value::Text(seven)]?)
}

fn add_pair(store: &mut TreeStore, alloc: Global, leaf: TreeId) -> Result<TreeId, AllocError>
    requires { leaf.0 < length store.old }
{
    store.build(0, vec![in alloc; Value::Tree(leaf), Value::Int(-2)]?)
}

// Whether the pair is there as it was built.
fn is_pair_built(store: &mut TreeStore, alloc: Global) -> Result<bool, AllocError> {
    let leaf = add_leaf(store, alloc)?;
    let pair = add_pair(store, alloc, leaf)?;
    Ok(leaf == TreeId(0) && pair == TreeId(1) && has_trees(store, &PAIR)?)
}

// Whether only the leaf is left after the pair is removed.
fn is_pair_taken_back(store: &mut TreeStore, alloc: Global) -> Result<bool, AllocError> {
    if !store.is_empty() || !is_pair_built(store, alloc)? || store.len() < 1 {
        return Ok(false);
    }
    store.truncate(1);
    has_trees(store, &LEAF)
}

// A check of a store that is empty at first.
fn is_leaf_left(alloc: Global) -> Result<bool, AllocError> {
    let mut store = TreeStore::new(alloc);
    is_pair_taken_back(&mut store, alloc)
}

#[test]
fn trees_are_built_and_taken_back(rt: HostRuntime) {
    assert!(rt; holds(is_leaf_left(rt.alloc())));
}

// A pair of the last two values, and a leaf of none.
static TAKEN_OFF: [(usize, &[Plain]); 2] = [(5, &[Plain::Bool(true), Plain::Int(2)]), (6, &[])];

// Whether one of three values is left in a vector after a pair and a leaf have taken the others from its end.
fn is_one_left(store: &mut TreeStore, alloc: Global) -> Result<bool, AllocError> {
    let mut values = vec![in alloc; Value::Int(1), Value::Bool(true), Value::Int(2)]?;
    store.build_from(5, &mut values, 2)?;
    store.build_from(6, &mut values, 0)?;
    Ok(values.len() == 1 && is(&values[0], Plain::Int(1)))
}

fn are_taken_off(alloc: Global) -> Result<bool, AllocError> {
    let mut store = TreeStore::new(alloc);
    Ok(is_one_left(&mut store, alloc)? && has_trees(&store, &TAKEN_OFF)?)
}

#[test]
fn children_are_taken_off_the_end(rt: HostRuntime) {
    assert!(rt; holds(are_taken_off(rt.alloc())));
}

// Values that fit into a cell, and values that just don't.
static SAMPLES: [Plain; 12] = [
    Plain::Int(2_147_483_647),
    Plain::Int(2_147_483_648),
    Plain::Int(-2_147_483_648),
    Plain::Int(-2_147_483_649),
    Plain::Int(-9_223_372_036_854_775_808),
    Plain::Int(-1),
    Plain::Bool(true),
    Plain::Text(""),
    Plain::Text("letter"),
    Plain::Text("letters"),
    Plain::Text("a text that is longer than the value"),
    Plain::Bool(false),
];

fn sample(number: usize) -> Plain {
    SAMPLES[number % 12]
}

// One of these values, or a tree. The number of a tree may also be one that just doesn't fit.
fn sample_or_tree(number: usize) -> Plain {
    match number % 5 {
        0 => Plain::Tree(number),
        1 => Plain::Tree(4_294_967_295),
        2 => Plain::Tree(4_294_967_296),
        _ => sample(number),
    }
}

// Packs a value, by the call for its kind.
fn pack(packed: &mut PackedValues, value: Plain) -> Result<(), AllocError> {
    match value {
        Plain::Int(number) => packed.push(Value::Int(number)),
        Plain::Bool(truth) => packed.push(Value::Bool(truth)),
        Plain::Text(text) => packed.push_text(text.as_bytes()),
        Plain::Tree(tree) => packed.push_tree(TreeId(tree)),
    }
}

// Whether the packed values are those of a list.
fn are_those(packed: &PackedValues, list: &[Plain]) -> Result<bool, AllocError> {
    for (place, wanted) in list.iter().enumerate() {
        if packed.len() <= place || !is(&packed.get(place)?, *wanted) {
            return Ok(false);
        }
    }
    let last = match list.last() {
        Some(value) => tree_of(*value),
        None => None,
    };
    Ok(packed.len() == list.len() && packed.last_tree() == last)
}

// Whether the values stay those of a list, when values are added to both and a third of them is sometimes removed.
fn stay_in_step(
    packed: &mut PackedValues,
    list: &mut Vec<Plain>,
    state: usize,
) -> Result<bool, AllocError> {
    let value = sample_or_tree(state);
    pack(packed, value)?;
    push(list, value)?;
    if state % 6 == 0 && packed.len() == list.len() {
        let kept = list.len() - list.len() / 3;
        packed.truncate(kept);
        list.truncate(kept);
    }
    are_those(packed, list.as_slice())
}

fn stay_in_steps(
    packed: &mut PackedValues,
    list: &mut Vec<Plain>,
    steps: usize,
) -> Result<bool, AllocError> {
    let mut state: usize = 7;
    for _step in 0..steps {
        state = state.wrapping_mul(37).wrapping_add(11) % 1_009;
        if !stay_in_step(packed, list, state)? {
            return Ok(false);
        }
    }
    Ok(true)
}

fn stay_same(alloc: Global, steps: usize) -> Result<bool, AllocError> {
    let mut packed = PackedValues::new(alloc);
    let mut list = Vec::new(alloc);
    stay_in_steps(&mut packed, &mut list, steps)
}

#[test]
fn packed_values_are_those_of_a_list(rt: HostRuntime) {
    assert!(rt; holds(stay_same(rt.alloc(), 1_000)));
}

// The value of a sample.
fn sample_value(alloc: Global, number: usize) -> Result<Value, AllocError>
    ensures { IfOk result (IsIn 0) }
{
    match sample(number) {
        Plain::Int(number) => Ok(Value::Int(number)),
        Plain::Bool(truth) => Ok(Value::Bool(truth)),
        Plain::Text(text) => Ok(Value::Text(Bytes::from_slice(alloc, text.as_bytes())?)),
        Plain::Tree(_) => Ok(Value::Bool(false)),
    }
}

// Adds a tree over two samples.
fn add_over_samples(
    store: &mut TreeStore,
    packed: &mut PackedValues,
    alloc: Global,
    number: usize,
) -> Result<TreeId, AllocError>
    ensures { IfOk result (λ tree. tree.0 < length store.new) }
{
    packed.push(sample_value(alloc, number / 2)?)?;
    packed.push(sample_value(alloc, number / 3)?)?;
    store.build_packed(number, packed, 2)
}

// Whether a tree is added after one more packed value, and the values before it stay.
fn is_added(
    store: &mut TreeStore,
    packed: &mut PackedValues,
    alloc: Global,
    number: usize,
) -> Result<bool, AllocError> {
    packed.push(sample_value(alloc, number)?)?;
    let kept = packed.len();
    let tree = add_over_samples(store, packed, alloc, number)?;
    Ok(packed.len() == kept && store.production(tree) == number)
}

// Whether the first trees are those that were built, each over its two samples.
fn are_kept(store: &TreeStore, trees: usize) -> Result<bool, AllocError> {
    for tree in 0..trees {
        if !is_tree(
            store,
            TreeId(tree),
            tree,
            &[sample(tree / 2), sample(tree / 3)],
        )? {
            return Ok(false);
        }
    }
    Ok(store.len() == trees)
}

// Whether trees are added, with numbers from the number of present trees on.
fn are_added(
    store: &mut TreeStore,
    packed: &mut PackedValues,
    alloc: Global,
    trees: usize,
) -> Result<bool, AllocError> {
    for number in store.len()..trees {
        if !is_added(store, packed, alloc, number)? {
            return Ok(false);
        }
    }
    are_kept(store, trees)
}

// Whether trees are added, removed and added again.
fn are_added_again(
    store: &mut TreeStore,
    packed: &mut PackedValues,
    alloc: Global,
) -> Result<bool, AllocError> {
    if !are_added(store, packed, alloc, 200)? || store.len() < 90 {
        return Ok(false);
    }
    store.truncate(90);
    let kept = are_kept(store, 90)?;
    Ok(kept && are_added(store, packed, alloc, 300)? && packed.len() == 410)
}

fn become_children(alloc: Global) -> Result<bool, AllocError> {
    let mut store = TreeStore::new(alloc);
    let mut packed = PackedValues::new(alloc);
    are_added_again(&mut store, &mut packed, alloc)
}

#[test]
fn packed_values_become_children(rt: HostRuntime) {
    assert!(rt; holds(become_children(rt.alloc())));
}

// A tree over a large value and a tree.
static OVER_TREES: [(usize, &[Plain]); 3] = [
    (1, &[]),
    (2, &[Plain::Tree(0)]),
    (3, &[Plain::Text("letters"), Plain::Tree(1)]),
];

// Adds a leaf, and a tree over it.
fn add_over_leaf(store: &mut TreeStore, packed: &mut PackedValues) -> Result<TreeId, AllocError>
    ensures { IfOk result (λ over. over.0 < length store.new) }
{
    let leaf = store.build_packed(1, packed, 0)?;
    packed.push_tree(leaf)?;
    store.build_packed(2, packed, 1)
}

// Adds a tree over a large value and this tree.
fn add_top(
    store: &mut TreeStore,
    packed: &mut PackedValues,
    over: TreeId,
) -> Result<TreeId, AllocError>
    requires { over.0 < length store.old }
{
    packed.push_text(b"letters")?;
    packed.push_tree(over)?;
    store.build_packed(3, packed, 2)
}

fn are_moved(store: &mut TreeStore, packed: &mut PackedValues) -> Result<bool, AllocError> {
    let over = add_over_leaf(store, packed)?;
    let top = add_top(store, packed, over)?;
    Ok(top == TreeId(2) && has_trees(store, &OVER_TREES)?)
}

fn trees_become_children(alloc: Global) -> Result<bool, AllocError> {
    let mut store = TreeStore::new(alloc);
    let mut packed = PackedValues::new(alloc);
    are_moved(&mut store, &mut packed)
}

#[test]
fn packed_trees_become_children(rt: HostRuntime) {
    assert!(rt; holds(trees_become_children(rt.alloc())));
}

// Whether the copy of a text's value is equal to it.
fn is_copied(alloc: Global, text: &str) -> Result<bool, AllocError> {
    let value = Value::Text(Bytes::from_slice(alloc, text.as_bytes())?);
    is_copy(&value, text)
}

fn is_copy(value: &Value, text: &str) -> Result<bool, AllocError> {
    Ok(is_text(&value.copy()?, text.as_bytes()))
}

// Whether short and long texts have equal copies, and a tree has.
fn are_copied(alloc: Global) -> Result<bool, AllocError> {
    let texts = is_copied(alloc, "short")?
        && is_copied(alloc, "a text that is longer than the value")?;
    Ok(texts && is(&Value::Tree(TreeId(4)).copy()?, Plain::Tree(4)))
}

#[test]
fn copies_are_equal(rt: HostRuntime) {
    assert!(rt; holds(are_copied(rt.alloc())));
}

// Productions by their names, left sides and kinds, two of one name.
static SIGNATURES: [(&str, usize, &[Kind]); 3] = [
    ("lit", 0, &[Kind::Int]),
    ("add", 1, &[Kind::Tree(0), Kind::Tree(1)]),
    ("lit", 1, &[Kind::Text]),
];

// Adds them, and returns the number of the last.
fn add_all(signatures: &mut Signatures) -> Result<usize, AllocError> {
    let mut last = 0;
    for (name, left, children) in &SIGNATURES {
        last = signatures.add(name.as_bytes(), *left, children)?;
    }
    Ok(last)
}

// Whether the signatures are these, and the first of each name is found.
fn are_found(signatures: &Signatures) -> bool {
    for (number, (name, left, children)) in SIGNATURES.iter().enumerate() {
        if signatures.len() <= number
            || signatures.name(number) != name.as_bytes()
            || signatures.left(number) != *left
            || signatures.children(number) != *children
        {
            return false;
        }
    }
    let named = signatures.find(b"lit") == Some(0) && signatures.find(b"add") == Some(1);
    named && signatures.find(b"li") == None && signatures.len() == 3
}

fn is_copy_found(signatures: &Signatures) -> Result<bool, AllocError> {
    Ok(are_found(&signatures.copy()?))
}

// Whether they are found in signatures that were empty at first, and in a copy.
fn are_found_in(signatures: &mut Signatures) -> Result<bool, AllocError> {
    let empty = signatures.is_empty();
    let last = add_all(signatures)?;
    Ok(empty && last == 2 && are_found(signatures) && is_copy_found(signatures)?)
}

fn are_signatures_found(alloc: Global) -> Result<bool, AllocError> {
    let mut signatures = Signatures::new(alloc);
    are_found_in(&mut signatures)
}

#[test]
fn the_first_production_of_a_name_is_found(rt: HostRuntime) {
    assert!(rt; holds(are_signatures_found(rt.alloc())));
}
