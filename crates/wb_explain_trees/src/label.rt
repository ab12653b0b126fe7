//! What is shown of a node or a leaf? Its name, the place where it begins, and of a leaf its text.

ghost use Rattle.std.specs.Prelude.{◌≡◌, ◌≤◌, IfSome, Some, length, slice_get};
ghost use Rattle.wb_explain_drawing.specs.Reached.{IsReached};
ghost use Rattle.wb_explain_trees.specs.Inner.Sessions.{view_of};
ghost use Rattle.wb_explain_trees.specs.Labels.{IsLabel, IsLeafName, IsNameOf, IsProductionName, IsRead, begin_or};

use wb_base::Bytes;
use wb_explain_drawing::{Cursor, Item, Part};
use wb_session::{Parsed, Session};
use wb_values::{Signatures, TreeId};

// A text with its tree and the places of its leaves, the signatures of productions, and the printed names of terminals.
#[derive(Clone, Copy)]
pub(crate) struct Shown<'a> {
    pub(crate) session: &'a Session<'a>,
    pub(crate) signatures: &'a Signatures,
    pub(crate) names: &'a [Bytes],
}

// What is shown of a node or a leaf: its name, and where it begins.
#[derive(Clone, Copy)]
pub(crate) struct Label<'a> {
    pub(crate) name: &'a [u8],
    pub(crate) begin: Cursor,
}

// The root of the tree of the text, where it has one.
pub(crate) fn root_of(shown: &Shown<'_>) -> Option<TreeId>
    ensures { IfSome result (λ root. IsRead shown.now.session.now.language (view_of shown.now.session.now shown.now.signatures.now shown.now.names.now) shown.now.session.now.store root.0) }
{
    // What is known of all places comes with the first.
    let _first = shown.session.place_of(0);
    match *shown.session.answer() {
        Parsed::Tree(root) => Some(root),
        Parsed::Stopped { .. } => None,
    }
}

// What is shown of a node or a leaf that begins at this place of the text or after it.
pub(crate) fn label_of<'a>(shown: &Shown<'a>, item: Item, cursor: Cursor) -> Option<Label<'a>>
    requires { IsReached shown.now.session.now.text cursor }
    ensures { IfSome result (λ label. IsLabel (view_of shown.now.session.now shown.now.signatures.now shown.now.names.now) item label.name.now label.begin) }
{
    let Some(name) = name_of(shown, item) else {
        return None;
    };
    let Some(to) = begin_of(shown.session, item.leaf) else {
        return None;
    };
    if cursor.at > to {
        return None;
    }
    let begin = cursor.moved(shown.session.text(), to);
    Some(Label { name, begin })
}

// The name of a production, or of the terminal of a leaf.
pub(crate) fn name_of<'a>(shown: &Shown<'a>, item: Item) -> Option<&'a [u8]>
    ensures { IfSome result (λ name. IsNameOf (view_of shown.now.session.now shown.now.signatures.now shown.now.names.now) item.part item.leaf name.now) }
{
    match item.part {
        Part::Node(production) => {
            let Some(name) = production_name(shown.signatures, production) else {
                return None;
            };
            Some(name)
        }
        Part::Leaf => {
            let Some(name) = leaf_name(shown, item.leaf) else {
                return None;
            };
            Some(name)
        }
    }
}

// The name of a production.
fn production_name(signatures: &Signatures, production: usize) -> Option<&[u8]>
    ensures { IfSome result (λ name. IsProductionName signatures.now production name.now) }
{
    if production < signatures.len() {
        return Some(signatures.name(production));
    }
    None
}

// The name of the terminal of the leaf of a number.
fn leaf_name<'a>(shown: &Shown<'a>, leaf: usize) -> Option<&'a [u8]>
    ensures { IfSome result (λ name. IsLeafName (view_of shown.now.session.now shown.now.signatures.now shown.now.names.now) leaf name.now) }
{
    let Some(place) = shown.session.place_of(leaf) else {
        return None;
    };
    let Some(name) = terminal_name(shown.names, place.terminal) else {
        return None;
    };
    Some(name)
}

// The name of a terminal.
fn terminal_name(names: &[Bytes], terminal: usize) -> Option<&[u8]>
    ensures { IfSome result (λ name. slice_get names.now terminal ≡ Some name.now) }
{
    match names.get(terminal) {
        Some(name) => Some(name.as_slice()),
        None => None,
    }
}

// Where the leaf of a number begins; the end of the text, where there are not so many leaves.
fn begin_of(session: &Session<'_>, leaf: usize) -> Option<usize>
    ensures is { IfSome result (λ at. at ≡ begin_or (length session.now.text) (slice_get session.now.places leaf)) }
    ensures within { IfSome result (λ at. at ≤ length session.now.text) }
{
    let end = session.text().len();
    match session.place_of(leaf) {
        Some(place) => {
            if place.begin > end {
                return None;
            }
            Some(place.begin)
        }
        None => Some(end),
    }
}

// The text of a leaf, with its prefix; an empty one of a node.
pub(crate) fn text_of<'a>(shown: &Shown<'a>, item: Item) -> &'a [u8] {
    match item.part {
        Part::Node(_) => b"",
        Part::Leaf => leaf_text(shown.session, item.leaf),
    }
}

// The text of the leaf of a number.
fn leaf_text<'a>(session: &'a Session<'a>, leaf: usize) -> &'a [u8] {
    let text = session.text();
    match session.place_of(leaf) {
        Some(place) => {
            if place.begin <= place.end && place.end <= text.len() {
                return &text[place.begin..place.end];
            }
            b""
        }
        None => b"",
    }
}
