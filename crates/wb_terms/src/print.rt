//! How is a value printed, however deep its trees are?
//!
//! A stack holds the children that are left, so nothing recurses. The last child of a tree takes over what closes the tree, so that a chain
//! needs no stack. A tree may be a shared graph whose text would be astronomic, so printing ends where the text gets too long.

ghost use Rattle.std.specs.Prelude.{◌≡◌, ◌<◌, ◌≤◌, ◌++◌, ◌∷◌, [], List, Some, length, reverse, All, IfErr, IfOk, IfSome, IsTrue, OnOk, slice_get};
ghost use Rattle.wb_text_tokens.specs.Printing.{printed_text};
ghost use Rattle.wb_values.specs.declared.value.Value.{Value as Item};
ghost use Rattle.wb_values.specs.Signature.{Signature as Header};
ghost use Rattle.wb_values.specs.Tree.{Tree as Whole, tree as subtree, bool, children_of, empty, more};
ghost use Rattle.wb_values.specs.ValuesIn.{tree_in, value_in, IsIn};
ghost use Rattle.wb_terms.specs.Printed.{printed_plain, printed_tree, printed_value};
ghost use Rattle.wb_terms.specs.Lengths.{IsTooLong};
ghost use Rattle.wb_terms.specs.Inner.Plain.{ArePlain, IsPlain};
ghost use Rattle.wb_terms.specs.Inner.ShortNames.{AreShort};
ghost use Rattle.wb_terms.specs.Inner.Pending.{before, closing, current_text, next_text, Appends, ArePendingIn, Begins, Descends, Keeps, Steps};

use crate::name::{Names, print_name};
use crate::refusal::PrintRefusal;
use std::alloc::{AllocError, Global};
use wb_base::push;
use wb_text_tokens::{print_int, print_text};
use wb_values::{PackedValues, Signatures, TreeId, TreeStore, Value};

// The most bytes that a value is printed in.
const LIMIT: usize = 16_777_216;

// A tree that is begun: how many of the values that are left are none of its children, and how many parentheses come after these.
#[derive(Clone, Copy)]
struct Begun {
    below: usize,
    closes: usize,
}

// The tree whose children come next, and whether its first child is one that is left.
#[derive(Clone, Copy)]
struct Current {
    begun: Begun,
    first: bool,
}

// A tree, and how many parentheses come after it or after its children.
#[derive(Clone, Copy)]
struct Next {
    tree: TreeId,
    closes: usize,
}

// What is left to be printed: the children that are left, those of the current tree on top, the next one last; and the trees that were begun
// before it and have children left, the last one on top.
#[derive(Drop)]
struct Pending {
    values: PackedValues,
    begun: Vec<Begun>,
    names: Names,
}

// Appends a truth value.
fn print_bool(out: &mut Vec<u8>, truth: bool) -> Result<(), AllocError>
    ensures { OnOk result (out.new.items ≡ out.old.items ++ printed_plain (bool truth)) }
{
    if truth {
        out.extend_from_slice(b"true")
    } else {
        out.extend_from_slice(b"false")
    }
}

// Appends closing parentheses, so many of them.
fn print_closes(out: &mut Vec<u8>, closes: usize) -> Result<(), AllocError>
    ensures { OnOk result (out.new.items ≡ out.old.items ++ closing closes) }
{
    let mut left = closes;
    'many: while left > 16 {
        print_few(out, 16)?;
        left -= 16;
    }
    print_few(out, left)
}

// Like `print_closes`, of a few of them.
fn print_few(out: &mut Vec<u8>, closes: usize) -> Result<(), AllocError>
    requires { closes ≤ 16 }
    ensures { OnOk result (out.new.items ≡ out.old.items ++ closing closes) }
{
    out.extend_from_slice(b"))))))))))))))))")?;
    let len = out.len() - (16 - closes);
    out.truncate(len);
    Ok(())
}

// Appends what comes before a child: nothing before the first one.
fn print_separator(out: &mut Vec<u8>, first: bool) -> Result<(), AllocError>
    ensures { OnOk result (out.new.items ≡ out.old.items ++ before first) }
{
    if first {
        Ok(())
    } else {
        out.extend_from_slice(b", ")
    }
}

// Appends a text as a string, unless the text alone is too long.
fn print_short(out: &mut Vec<u8>, text: &[u8]) -> Result<(), PrintRefusal>
    ensures ok { OnOk result (out.new.items ≡ out.old.items ++ printed_text text.now) }
    ensures refused { IfErr result (IsTooLong (printed_text text.now)) }
{
    if text.len() > LIMIT {
        return Err(PrintRefusal::TooLong);
    }
    if is_plain(text) {
        Ok(print_plain_text(out, text)?)
    } else {
        Ok(print_text(out, text)?)
    }
}

// Whether each byte stands for itself in a string.
fn is_plain(text: &[u8]) -> bool
    ensures { IsTrue result → ArePlain text.now }
{
    'bytes: for b in text {
        if !is_plain_byte(*b) {
            return false;
        }
    }
    true
}

// Whether a byte stands for itself in a string.
fn is_plain_byte(b: u8) -> bool
    ensures { IsTrue result → IsPlain b }
{
    32 <= b && b <= 126 && b != b'"' && b != b'\\'
}

// Appends a text whose bytes stand for themselves as a string.
fn print_plain_text(out: &mut Vec<u8>, text: &[u8]) -> Result<(), AllocError>
    requires { ArePlain text.now }
    ensures { OnOk result (out.new.items ≡ out.old.items ++ printed_text text.now) }
{
    push(out, b'"')?;
    out.extend_from_slice(text)?;
    push(out, b'"')
}

// Appends a plain value. A tree is handed back, and nothing is appended.
fn print_plain(out: &mut Vec<u8>, value: &Value) -> Result<Option<TreeId>, PrintRefusal>
    ensures ok { IfOk result (Appends out.old.items out.new.items value.now) }
    ensures refused { (signatures : List Header) (trees : List Whole) → IfErr result (IsTooLong (printed_value signatures (value_in trees value.now))) }
{
    match value {
        Value::Int(number) => {
            print_int(out, *number)?;
            Ok(None)
        }
        Value::Bool(truth) => {
            print_bool(out, *truth)?;
            Ok(None)
        }
        Value::Text(text) => {
            print_short(out, text.as_slice())?;
            Ok(None)
        }
        Value::Tree(tree) => Ok(Some(*tree)),
    }
}

// Appends the value at a place, if it is no tree. A tree is handed back, and nothing is appended.
fn print_at(
    out: &mut Vec<u8>,
    values: &PackedValues,
    place: usize,
) -> Result<Option<TreeId>, PrintRefusal>
    requires place { place < length values.now }
    ensures ok { IfOk result (λ tree. (child : Item) → slice_get values.now place ≡ Some child → Appends out.old.items out.new.items child tree) }
    ensures refused { (signatures : List Header) (trees : List Whole) → IfErr result (λ error. (child : Item) → slice_get values.now place ≡ Some child → IsTooLong (printed_value signatures (value_in trees child)) error) }
{
    if let Some(tree) = values.tree(place) {
        return Ok(Some(tree));
    }
    if let Some(text) = values.text(place) {
        print_short(out, text)?;
        return Ok(None);
    }
    let value = values.get(place)?;
    print_plain(out, &value)
}

// The only child of a tree, if it has one child and that is a tree.
fn only_tree(store: &TreeStore, tree: TreeId) -> Option<TreeId>
    requires { tree.0 < length store.now }
    ensures only { IfSome result (λ child. children_of (tree_in store.now tree.0) ≡ more (subtree (tree_in store.now child.0)) empty) }
    ensures below { IfSome result (λ child. child.0 < tree.0) }
{
    if store.arity(tree) != 1 {
        return None;
    }
    store.child_tree(tree, 0)
}

// Appends the name of a tree, and those of the trees below it as long as each is the only child of the one before. Answers the last of
// them, with how many parentheses come after its children.
fn print_names(
    out: &mut Vec<u8>,
    names: &mut Names,
    next: Next,
    signatures: &Signatures,
    store: &TreeStore,
) -> Result<Next, PrintRefusal>
    requires within { next.tree.0 < length store.now }
    requires names { AreShort signatures.now names.old.short.items }
    ensures ok { IfOk result (Descends signatures.now store.now out.old.items out.new.items next) }
    ensures names { OnOk result (AreShort signatures.now names.new.short.items) }
    ensures refused { IfErr result (IsTooLong (out.old.items ++ next_text signatures.now store.now next.tree.0 next.closes)) }
{
    let mut tree = next.tree;
    let mut closes = next.closes;
    'names: while out.len() <= LIMIT {
        if closes > LIMIT {
            return Err(PrintRefusal::TooLong);
        }
        print_name(out, names, signatures, store.production(tree))?;
        closes += 1;
        match only_tree(store, tree) {
            Some(child) => tree = child,
            None => return Ok(Next { tree, closes }),
        }
    }
    Err(PrintRefusal::TooLong)
}

// Appends what comes before the children of a tree, or of one below it, which are then to be printed first.
fn begin_tree(
    out: &mut Vec<u8>,
    values: &mut PackedValues,
    names: &mut Names,
    next: Next,
    signatures: &Signatures,
    store: &TreeStore,
) -> Result<Current, PrintRefusal>
    requires within { next.tree.0 < length store.now }
    requires values { All (IsIn (length store.now)) values.old }
    requires names { AreShort signatures.now names.old.short.items }
    ensures ok { IfOk result (Begins signatures.now store.now out.old.items out.new.items next values.old values.new) }
    ensures names { OnOk result (AreShort signatures.now names.new.short.items) }
    ensures refused { IfErr result (IsTooLong (out.old.items ++ next_text signatures.now store.now next.tree.0 next.closes)) }
{
    let last = print_names(out, names, next, signatures, store)?;
    let below = values.len();
    store.push_children(last.tree, values)?;
    Ok(Current {
        begun: Begun {
            below,
            closes: last.closes,
        },
        first: true,
    })
}

// Keeps a tree that is begun, if any of its children are left. Otherwise answers how many parentheses come after what it was.
fn keep(begun: &mut Vec<Begun>, tree: Begun, left: usize) -> Result<usize, AllocError>
    ensures { IfOk result (Keeps left (tree ∷ reverse begun.old.items) (reverse begun.new.items)) }
{
    if left <= tree.below {
        return Ok(tree.closes);
    }
    push(begun, tree)?;
    Ok(0)
}

// Appends the next child of the current tree, or what comes before the children of that.
fn print_next(
    out: &mut Vec<u8>,
    pending: &mut Pending,
    current: Current,
    signatures: &Signatures,
    store: &TreeStore,
) -> Result<Current, PrintRefusal>
    requires some { current.begun.below < length pending.old.values }
    requires pending { ArePendingIn (length store.now) pending.old.values (current.begun ∷ reverse pending.old.begun.items) }
    requires names { AreShort signatures.now pending.old.names.short.items }
    ensures ok { IfOk result (Steps signatures.now store.now out.old.items out.new.items current pending.old.values pending.new.values (reverse pending.old.begun.items) (reverse pending.new.begun.items)) }
    ensures names { OnOk result (AreShort signatures.now pending.new.names.short.items) }
    ensures refused { IfErr result (IsTooLong (out.old.items ++ current_text signatures.now store.now pending.old.values current (reverse pending.old.begun.items))) }
{
    print_separator(out, current.first)?;
    let place = pending.values.len() - 1;
    let answer = print_at(out, &pending.values, place)?;
    pending.values.truncate(place);
    match answer {
        None => Ok(Current {
            begun: current.begun,
            first: false,
        }),
        Some(tree) => {
            let closes = keep(&mut pending.begun, current.begun, place)?;
            let next = Next { tree, closes };
            let Pending { values, names, .. } = pending;
            begin_tree(out, values, names, next, signatures, store)
        }
    }
}

// Appends a tree, where nothing is left to be printed before it.
fn print_tree(
    out: &mut Vec<u8>,
    pending: &mut Pending,
    tree: TreeId,
    signatures: &Signatures,
    store: &TreeStore,
) -> Result<(), PrintRefusal>
    requires within { tree.0 < length store.now }
    requires values { pending.old.values ≡ [] }
    requires begun { pending.old.begun.items ≡ [] }
    requires names { AreShort signatures.now pending.old.names.short.items }
    ensures text { OnOk result (out.new.items ≡ out.old.items ++ printed_tree signatures.now (tree_in store.now tree.0)) }
    ensures refused { IfErr result (IsTooLong (out.old.items ++ printed_tree signatures.now (tree_in store.now tree.0))) }
{
    pending.values.push_tree(tree)?;
    let mut current = Current {
        begun: Begun {
            below: 0,
            closes: 0,
        },
        first: true,
    };
    'print: while out.len() <= LIMIT {
        if pending.values.len() > current.begun.below {
            current = print_next(out, pending, current, signatures, store)?;
            continue 'print;
        }
        print_closes(out, current.begun.closes)?;
        let Some(begun) = pending.begun.pop() else {
            return Ok(());
        };
        current = Current {
            begun,
            first: false,
        };
    }
    Err(PrintRefusal::TooLong)
}

// Appends a value where there is no text yet.
fn print_whole(
    out: &mut Vec<u8>,
    value: &Value,
    signatures: &Signatures,
    store: &TreeStore,
) -> Result<(), PrintRefusal>
    requires within { IsIn (length store.now) value.now }
    requires out { out.old.items ≡ [] }
    ensures text { OnOk result (out.new.items ≡ printed_value signatures.now (value_in store.now value.now)) }
    ensures refused { IfErr result (IsTooLong (printed_value signatures.now (value_in store.now value.now))) }
{
    match print_plain(out, value)? {
        None => Ok(()),
        Some(tree) => {
            let alloc = *out.allocator();
            let mut pending = Pending {
                values: PackedValues::new(alloc),
                begun: Vec::new(alloc),
                names: Names::new(alloc),
            };
            print_tree(out, &mut pending, tree, signatures, store)
        }
    }
}

/// The printed text of a value, whose trees are those of the store.
///
/// A production without signature is printed with an empty name. `TooLong` comes exactly where the text has more than 16,777,216
/// bytes; what was printed until then is dropped. No clause bounds the work: it is linear in the text, as far as the limit, and in the
/// children of the trees that are begun there, and visits only nodes that the value has, a shared one once for each place. Nothing recurses.
pub fn print_value(
    alloc: Global,
    value: &Value,
    signatures: &Signatures,
    store: &TreeStore,
) -> Result<Vec<u8>, PrintRefusal>
    requires { IsIn (length store.now) value.now }
    ensures ok { IfOk result (λ text. text.items ≡ printed_value signatures.now (value_in store.now value.now)) }
    ensures short { IfOk result (λ text. length text.items ≤ 16777216) }
    ensures refused { IfErr result (IsTooLong (printed_value signatures.now (value_in store.now value.now))) }
{
    let mut out = Vec::new(alloc);
    print_whole(&mut out, value, signatures, store)?;
    if out.len() > LIMIT {
        return Err(PrintRefusal::TooLong);
    }
    Ok(out)
}
