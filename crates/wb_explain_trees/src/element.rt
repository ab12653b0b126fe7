//! What is drawn of a node or a leaf? A box with its name, with the place where it begins as its title, and below it the text of a leaf or the
//! number of what isn't drawn.

ghost use Rattle.std.specs.Prelude.{◌≡◌, ◌++◌, IfNone, IfOk, IfSome, OnOk};
ghost use lib.Chars.{codes};
ghost use Rattle.wb_explain_drawing.specs.Reached.{IsReached};
ghost use Rattle.wb_explain_trees.specs.Inner.Sessions.{HasElement, view_of};
ghost use Rattle.wb_explain_trees.specs.Lines.{place_text};

use crate::label::{Label, Shown, label_of, name_of, text_of};
use crate::lines::push_place;
use std::alloc::{AllocError, Global};
use wb_explain_drawing::{
    Cursor, Item, Look, Part, Place, push_box, push_cut_xml, push_number, push_text,
};

// How wide a character is, the space on both sides of a name, and the most bytes of a leaf that are drawn.
const CHARACTER: usize = 8;

const SIDES: usize = 20;

const BYTES: usize = 24;

// Where a node or a leaf is drawn, and how many nodes and leaves below it aren't.
#[derive(Clone, Copy)]
pub(crate) struct Spot {
    pub(crate) middle: usize,
    pub(crate) width: usize,
    pub(crate) hidden: usize,
}

// How wide the box of a node or a leaf is.
pub(crate) fn width_of(shown: &Shown<'_>, item: Item, hidden: usize) -> usize {
    let name = match name_of(shown, item) {
        Some(name) => name.len(),
        None => 0,
    };
    let text = text_of(shown, item).len();
    let below = if hidden > 0 {
        8
    } else if text > BYTES {
        BYTES + 3
    } else {
        text
    };
    name.max(below)
        .saturating_mul(CHARACTER)
        .saturating_add(SIDES)
}

// Appends the element of a node or a leaf that begins at this place of the text or after it, and answers where it begins.
pub(crate) fn push_element(
    alloc: Global,
    out: &mut Vec<u8>,
    shown: &Shown<'_>,
    item: Item,
    spot: Spot,
    cursor: Cursor,
) -> Result<Option<Cursor>, AllocError>
    requires { IsReached shown.now.session.now.text cursor }
    ensures reached { IfOk result (λ found. IfSome found (IsReached shown.now.session.now.text)) }
    ensures element { IfOk result (λ found. IfSome found (λ next. HasElement (view_of shown.now.session.now shown.now.signatures.now shown.now.names.now) item out.old.items out.new.items)) }
    ensures none { IfOk result (λ found. IfNone found (out.new.items ≡ out.old.items)) }
{
    let Some(label) = label_of(shown, item, cursor) else {
        return Ok(None);
    };
    let rest = rest_of(alloc, shown, &label, item, spot)?;
    let answer = push_parts(out, &label, &rest);
    drop(rest);
    match answer {
        Ok(()) => Ok(Some(label.begin)),
        Err(error) => Err(error),
    }
}

// Appends the beginning of an element, its title, and the rest of it.
fn push_parts(out: &mut Vec<u8>, label: &Label<'_>, rest: &[u8]) -> Result<(), AllocError>
    ensures { OnOk result (out.new.items ≡ out.old.items ++ (codes "<g><title>" ++ label.now.name.now ++ codes " at " ++ place_text label.now.begin ++ codes "</title>" ++ rest.now)) }
{
    push_text(out, "<g><title>")?;
    out.extend_from_slice(label.name)?;
    push_text(out, " at ")?;
    push_place(out, label.begin)?;
    push_text(out, "</title>")?;
    out.extend_from_slice(rest)
}

// The rest of an element: its box, with a name, and what is below it.
fn rest_of(
    alloc: Global,
    shown: &Shown<'_>,
    label: &Label<'_>,
    item: Item,
    spot: Spot,
) -> Result<Vec<u8>, AllocError> {
    let below = below_of(alloc, text_of(shown, item), spot.hidden)?;
    let rest = boxed(alloc, label, item, spot, &below);
    drop(below);
    rest
}

// A box with a name and this below it, at the end of an element.
fn boxed(
    alloc: Global,
    label: &Label<'_>,
    item: Item,
    spot: Spot,
    below: &[u8],
) -> Result<Vec<u8>, AllocError> {
    let mut rest = Vec::new(alloc);
    match push_boxed(&mut rest, label, item, spot, below) {
        Ok(()) => Ok(rest),
        Err(error) => {
            drop(rest);
            Err(error)
        }
    }
}

// Appends that.
fn push_boxed(
    out: &mut Vec<u8>,
    label: &Label<'_>,
    item: Item,
    spot: Spot,
    below: &[u8],
) -> Result<(), AllocError> {
    let place = Place {
        middle: spot.middle,
        level: item.depth,
        width: spot.width,
        look: look_of(item, spot.hidden),
    };
    push_box(out, place, label.name, below)?;
    push_text(out, "</g>\n")
}

// How the box of a node or a leaf looks.
fn look_of(item: Item, hidden: usize) -> Look {
    match item.part {
        Part::Leaf => Look::Leaf,
        Part::Node(_) => {
            if hidden > 0 {
                return Look::Folded;
            }
            Look::Node
        }
    }
}

// What is below the box of a leaf with this text, or of a node below which so many aren't drawn.
fn below_of(alloc: Global, text: &[u8], hidden: usize) -> Result<Vec<u8>, AllocError> {
    let mut below = Vec::new(alloc);
    match push_below(&mut below, text, hidden) {
        Ok(()) => Ok(below),
        Err(error) => {
            drop(below);
            Err(error)
        }
    }
}

// Appends that.
fn push_below(out: &mut Vec<u8>, text: &[u8], hidden: usize) -> Result<(), AllocError> {
    if hidden > 0 {
        push_text(out, "+")?;
        return push_number(out, hidden);
    }
    push_cut_xml(out, text, BYTES)
}
