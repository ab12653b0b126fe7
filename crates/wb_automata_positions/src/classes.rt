//! Which bytes does no expression tell apart?
//!
//! An automaton goes the same way by each byte of a class, so its table has a column for each class.

ghost use Rattle.std.specs.Prelude.{◌≡◌, ◌<◌, ℕ, IfOk, IfSome, IsTrue, Some, length, replicate, slice_get, slice_index};
ghost use Rattle.wb_automata_positions.specs.Classes.{AreClasses};
ghost use Rattle.wb_automata_positions.specs.Inner.ClassPasses.{AreKeys, ClassPass, IsClassOf, IsRefined, IsRepeated, KeepsClasses, key_of};
ghost use Rattle.wb_regex.specs.declared.node.RegexNode.TheVariants.{Set};

use crate::transition::{has_byte, holds};
use std::alloc::{AllocError, Global};
use wb_base::push;
use wb_regex::RegexNode;

/// The number of the class of each byte, and the first byte of each class. Classes are numbered by their first bytes.
#[derive(Drop)]
pub struct Classes {
    pub of: Vec<u8>,
    pub firsts: Vec<u8>,
}

/// The classes of bytes that are in the same sets of these nodes.
///
/// They are guessed by a hash of the sets that each byte is in, and then tested.
pub fn classes_of(alloc: Global, nodes: &[RegexNode]) -> Result<Classes, AllocError>
    ensures { IfOk result (λ c. AreClasses nodes.now c.of.items c.firsts.items (length nodes.now)) }
{
    let classes = likely_classes(alloc, nodes)?;
    tested(alloc, nodes, classes)
}

// These classes, told apart further where a node holds one byte of a class and not another.
fn tested(alloc: Global, nodes: &[RegexNode], likely: Classes) -> Result<Classes, AllocError>
    requires { AreClasses nodes.now likely.of.items likely.firsts.items 0 }
    ensures { IfOk result (λ c. AreClasses nodes.now c.of.items c.firsts.items (length nodes.now)) }
{
    let mut notes = blank(alloc, 1024)?;
    let mut classes = likely;
    for i in 0..nodes.len() {
        if !is_settled(nodes, i, &classes, &mut notes) {
            classes = refined(alloc, &classes.of, nodes[i])?;
        }
    }
    Ok(classes)
}

// Whether a node is one that came before, or holds of each class all bytes or none, as most nodes do.
fn is_settled(nodes: &[RegexNode], i: usize, classes: &Classes, notes: &mut Vec<usize>) -> bool
    requires within { i < length nodes.now }
    requires before { AreClasses nodes.now classes.now.of.items classes.now.firsts.items i }
    ensures { IsTrue result → (node : RegexNode) → slice_get nodes.now i ≡ Some node → KeepsClasses node classes.now.of.items classes.now.firsts.items 256 }
{
    if is_repeated(nodes, i, notes) {
        return true;
    }
    are_kept(nodes[i], &classes.of, &classes.firsts)
}

// Whether a node is one that came before, where it was noted.
//
// The notes, by a hash of the set, make it fast and prove nothing.
fn is_repeated(nodes: &[RegexNode], i: usize, notes: &mut Vec<usize>) -> bool
    requires { i < length nodes.now }
    ensures { IsTrue result → IsRepeated nodes.now i }
{
    let place = note_place(nodes[i]);
    if place >= notes.len() {
        return false;
    }
    if is_before(nodes, notes[place], i) {
        return true;
    }
    notes[place] = i;
    false
}

// Whether the one node comes before the other and is the same.
fn is_before(nodes: &[RegexNode], first: usize, i: usize) -> bool
    requires { i < length nodes.now }
    ensures { IsTrue result → (first < i) × (slice_get nodes.now first ≡ slice_get nodes.now i) }
{
    if first >= i {
        return false;
    }
    is_same(nodes[first], nodes[i])
}

// Whether both are the same set.
fn is_same(node: RegexNode, other: RegexNode) -> bool
    ensures { IsTrue result → node ≡ other }
{
    match node {
        RegexNode::Set(words) => is_set_of(other, &words),
        RegexNode::Sequence(_, _) => false,
        RegexNode::Choice(_, _) => false,
        RegexNode::Star(_) => false,
        RegexNode::Plus(_) => false,
        RegexNode::Maybe(_) => false,
    }
}

fn is_set_of(node: RegexNode, words: &[u64; 4]) -> bool
    ensures { IsTrue result → Set words.now ≡ node }
{
    match node {
        RegexNode::Set(own) => are_same(words, &own),
        RegexNode::Sequence(_, _) => false,
        RegexNode::Choice(_, _) => false,
        RegexNode::Star(_) => false,
        RegexNode::Plus(_) => false,
        RegexNode::Maybe(_) => false,
    }
}

fn are_same(words: &[u64; 4], others: &[u64; 4]) -> bool
    ensures { IsTrue result → words.now ≡ others.now }
{
    for k in 0..4usize {
        if words[k] != others[k] {
            return false;
        }
    }
    true
}

// Where a set is noted, and nowhere for other nodes.
fn note_place(node: RegexNode) -> usize {
    match node {
        RegexNode::Set(words) => (hash_of(&words) >> 54) as usize,
        RegexNode::Sequence(_, _) => 1024,
        RegexNode::Choice(_, _) => 1024,
        RegexNode::Star(_) => 1024,
        RegexNode::Plus(_) => 1024,
        RegexNode::Maybe(_) => 1024,
    }
}

fn hash_of(words: &[u64; 4]) -> u64 {
    words[0]
        .wrapping_add(words[1].wrapping_mul(3))
        .wrapping_add(words[2].wrapping_mul(5))
        .wrapping_add(words[3].wrapping_mul(7))
        .wrapping_mul(11400714819323198485)
}

// Whether the node holds of each class all bytes or none.
fn are_kept(node: RegexNode, classes: &[u8], firsts: &[u8]) -> bool
    requires len { length classes.now ≡ 256 }
    requires below { (b : ℕ) → b < 256 → slice_index classes.now b < length firsts.now }
    ensures { IsTrue result → KeepsClasses node classes.now firsts.now 256 }
{
    match node {
        RegexNode::Set(words) => are_kept_by(&words, classes, firsts),
        RegexNode::Sequence(_, _) => true,
        RegexNode::Choice(_, _) => true,
        RegexNode::Star(_) => true,
        RegexNode::Plus(_) => true,
        RegexNode::Maybe(_) => true,
    }
}

// The same for a set of bytes.
fn are_kept_by(words: &[u64; 4], classes: &[u8], firsts: &[u8]) -> bool
    requires len { length classes.now ≡ 256 }
    requires below { (b : ℕ) → b < 256 → slice_index classes.now b < length firsts.now }
    ensures { IsTrue result → KeepsClasses (Set words.now) classes.now firsts.now 256 }
{
    for b in 0..256usize {
        let first = firsts[usize::from(classes[b])];
        if has_byte(words, first) != has_byte(words, b as u8) {
            return false;
        }
    }
    true
}

// Classes of bytes that are in the same sets but by a chance of the hash.
fn likely_classes(alloc: Global, nodes: &[RegexNode]) -> Result<Classes, AllocError>
    ensures { IfOk result (λ c. AreClasses nodes.now c.of.items c.firsts.items 0) }
{
    let marks = marks_of(alloc, nodes)?;
    grouped(alloc, &marks)
}

// A hash of the sets that each byte is in.
fn marks_of(alloc: Global, nodes: &[RegexNode]) -> Result<Vec<u64>, AllocError>
    ensures { IfOk result (λ marks. length marks.items ≡ 256) }
{
    let mut marks = no_marks(alloc, 256)?;
    for node in nodes {
        mark_node(*node, &mut marks);
    }
    Ok(marks)
}

fn mark_node(node: RegexNode, marks: &mut Vec<u64>)
    ensures { length marks.new.items ≡ length marks.old.items }
{
    match node {
        RegexNode::Set(words) => mark_set(&words, marks),
        RegexNode::Sequence(_, _) => {}
        RegexNode::Choice(_, _) => {}
        RegexNode::Star(_) => {}
        RegexNode::Plus(_) => {}
        RegexNode::Maybe(_) => {}
    }
}

fn mark_set(words: &[u64; 4], marks: &mut Vec<u64>)
    ensures { length marks.new.items ≡ length marks.old.items }
{
    let hash = hash_of(words);
    for place in 0..4usize {
        mark_word(words[place], place * 64, hash, marks);
    }
}

// Marks the bytes of one word of a set, of which this is the first.
fn mark_word(word: u64, first: usize, hash: u64, marks: &mut Vec<u64>)
    requires { first < 256 }
    ensures { length marks.new.items ≡ length marks.old.items }
{
    let mut rest = word;
    for _ in 0..64usize {
        if rest == 0 {
            return;
        }
        mark(first + rest.trailing_zeros() as usize, hash, marks);
        rest &= rest - 1;
    }
}

fn mark(byte: usize, hash: u64, marks: &mut Vec<u64>)
    ensures { length marks.new.items ≡ length marks.old.items }
{
    if byte < marks.len() {
        marks[byte] = (marks[byte] ^ hash).wrapping_mul(11400714819323198485);
    }
}

// The classes with those bytes told apart of which the node holds one and not the other.
fn refined(alloc: Global, classes: &[u8], node: RegexNode) -> Result<Classes, AllocError>
    requires { length classes.now ≡ 256 }
    ensures { IfOk result (λ c. IsRefined node classes.now c.of.items c.firsts.items) }
{
    let keys = keys_of(alloc, classes, node)?;
    grouped(alloc, &keys)
}

// A key for each class and for whether the node holds a byte of it.
fn keys_of(alloc: Global, classes: &[u8], node: RegexNode) -> Result<Vec<u64>, AllocError>
    requires { length classes.now ≡ 256 }
    ensures { IfOk result (λ keys. AreKeys node classes.now keys.items 256) }
{
    let mut keys = Vec::new(alloc);
    for b in 0..256usize {
        let key = key_of(classes[b], holds(node, b as u8));
        push(&mut keys, key)?;
    }
    Ok(keys)
}

fn key_of(class: u8, holds: bool) -> u64
    ensures { result ≡ key_of class holds }
{
    if holds {
        u64::from(class) * 2 + 1
    } else {
        u64::from(class) * 2
    }
}

// Bytes in classes by their keys.
fn grouped(alloc: Global, keys: &[u64]) -> Result<Classes, AllocError>
    requires { length keys.now ≡ 256 }
    ensures { IfOk result (λ c. ClassPass keys.now c.of.items c.firsts.items 256) }
{
    let mut of = Vec::new(alloc);
    let mut firsts = Vec::new(alloc);
    for b in 0..256usize {
        let class = class_of(&mut firsts, keys, b as u8)?;
        let number = class as u8;
        push(&mut of, number)?;
    }
    Ok(Classes { of, firsts })
}

// The class of a byte, which begins a new one where no byte before it has its key.
fn class_of(firsts: &mut Vec<u8>, keys: &[u64], byte: u8) -> Result<usize, AllocError>
    requires { length keys.now ≡ 256 }
    ensures { IfOk result (λ class. IsClassOf keys.now firsts.old.items firsts.new.items byte class) }
{
    if let Some(class) = class_with(firsts, keys, keys[usize::from(byte)]) {
        return Ok(class);
    }
    let class = firsts.len();
    push(firsts, byte)?;
    Ok(class)
}

// The class whose first byte has the key.
fn class_with(firsts: &[u8], keys: &[u64], key: u64) -> Option<usize>
    requires { length keys.now ≡ 256 }
    ensures within { IfSome result (λ class. class < length firsts.now) }
    ensures key { IfSome result (λ class. slice_index keys.now (slice_index firsts.now class) ≡ key) }
{
    for class in 0..firsts.len() {
        if keys[usize::from(firsts[class])] == key {
            return Some(class);
        }
    }
    None
}

fn blank(alloc: Global, count: usize) -> Result<Vec<usize>, AllocError>
    ensures { IfOk result (λ v. v.items ≡ replicate count 0) }
{
    vec![in alloc; 0; count]
}

fn no_marks(alloc: Global, count: usize) -> Result<Vec<u64>, AllocError>
    ensures { IfOk result (λ v. v.items ≡ replicate count 0) }
{
    vec![in alloc; 0; count]
}
