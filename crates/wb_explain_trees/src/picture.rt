//! A tree as a picture: a box for each node and each leaf, with a line to the one above it.

ghost use Rattle.std.specs.Prelude.{OnOk};
ghost use Rattle.wb_explain_trees.specs.Inner.Sessions.{view_of};
ghost use Rattle.wb_explain_trees.specs.Pictures.{HasDrawn, HasElements, SaysPicture};

use crate::element::{Spot, push_element, width_of};
use crate::label::{Shown, root_of};
use std::alloc::{AllocError, Global};
use wb_base::Bytes;
use wb_explain_drawing::{
    Cursor, Item, Layout, Listing, levels_of, listing_of, push_edges, push_head, push_number,
    push_text,
};
use wb_scan::Language;
use wb_session::Session;
use wb_values::Signatures;

// The longest text.
const LONGEST: usize = 1_048_576;

// The most nodes and leaves that are drawn, and the most levels.
const ITEMS: usize = 2_000;

const LEVELS: usize = 100;

/// Appends a picture of the tree of a text as an SVG file, or nothing where it has none, or more than 1,048,576 bytes.
///
/// Drawn are as many of the first levels as have 2,000 nodes and leaves at most, up to 100. Where that isn't all, the picture says so, and
/// shows of each node on the last level how many are below it. What the arguments are is as in [`push_tree`](crate::push_tree). The text is
/// read once. The only error is out of memory.
pub fn push_picture(
    alloc: Global,
    out: &mut Vec<u8>,
    language: &Language,
    signatures: &Signatures,
    names: &[Bytes],
    text: &[u8],
) -> Result<(), AllocError>
    ensures { OnOk result (SaysPicture language.now.language signatures.now names.now text.now out.old.items out.new.items) }
{
    if text.len() > LONGEST {
        return Ok(());
    }
    let session = Session::open(alloc, language, text)?;
    let shown = Shown {
        session: &session,
        signatures,
        names,
    };
    let answer = push_session(alloc, out, &shown);
    drop(session);
    answer
}

// Appends the picture of the tree of a text that is read.
fn push_session(alloc: Global, out: &mut Vec<u8>, shown: &Shown<'_>) -> Result<(), AllocError>
    ensures { OnOk result (SaysPicture shown.now.session.now.language shown.now.signatures.now shown.now.names.now shown.now.session.now.text out.old.items out.new.items) }
{
    let Some(root) = root_of(shown) else {
        return Ok(());
    };
    let store = shown.session.store();
    let levels = levels_of(alloc, store, root, LEVELS, ITEMS)?;
    let listing = listing_of(alloc, store, root, levels, usize::MAX)?;
    let answer = push_listing(alloc, out, shown, &listing);
    drop(listing);
    answer
}

// Appends the picture of a listing.
fn push_listing(
    alloc: Global,
    out: &mut Vec<u8>,
    shown: &Shown<'_>,
    listing: &Listing,
) -> Result<(), AllocError>
    ensures { OnOk result (HasDrawn (view_of shown.now.session.now shown.now.signatures.now shown.now.names.now) listing.now.items.items out.old.items out.new.items) }
{
    let mut layout = Layout::new(alloc);
    let answer = push_laid(alloc, out, shown, listing, &mut layout);
    drop(layout);
    answer
}

// Appends the picture, with an empty layout.
fn push_laid(
    alloc: Global,
    out: &mut Vec<u8>,
    shown: &Shown<'_>,
    listing: &Listing,
    layout: &mut Layout,
) -> Result<(), AllocError>
    ensures { OnOk result (HasDrawn (view_of shown.now.session.now shown.now.signatures.now shown.now.names.now) listing.now.items.items out.old.items out.new.items) }
{
    lay_out(shown, listing, layout)?;
    let head = head_of(alloc, listing, layout)?;
    let answer = push_svg(alloc, out, shown, listing, layout, &head);
    drop(head);
    answer
}

// Lays out the boxes of a listing.
fn lay_out(shown: &Shown<'_>, listing: &Listing, layout: &mut Layout) -> Result<(), AllocError> {
    'items: for (place, item) in listing.items.iter().enumerate() {
        layout.add(width_of(shown, *item, hidden_at(listing, place)))?;
    }
    layout.lay_out(&listing.items)
}

// How many nodes and leaves below the one at a place aren't listed.
fn hidden_at(listing: &Listing, place: usize) -> usize {
    if place < listing.hidden.len() {
        return listing.hidden[place];
    }
    0
}

// Appends the file: its first bytes, what is before the elements, these, and its last bytes.
fn push_svg(
    alloc: Global,
    out: &mut Vec<u8>,
    shown: &Shown<'_>,
    listing: &Listing,
    layout: &Layout,
    head: &[u8],
) -> Result<(), AllocError>
    ensures { OnOk result (HasDrawn (view_of shown.now.session.now shown.now.signatures.now shown.now.names.now) listing.now.items.items out.old.items out.new.items) }
{
    push_text(out, "<svg xmlns=\"http://www.w3.org/2000/svg\" ")?;
    out.extend_from_slice(head)?;
    push_elements(alloc, out, shown, listing, layout)?;
    push_text(out, "</svg>\n")?;
    Ok(())
}

// Appends the elements of a listing, of the first that can be shown.
fn push_elements(
    alloc: Global,
    out: &mut Vec<u8>,
    shown: &Shown<'_>,
    listing: &Listing,
    layout: &Layout,
) -> Result<(), AllocError>
    ensures { OnOk result (HasElements (view_of shown.now.session.now shown.now.signatures.now shown.now.names.now) listing.now.items.items out.old.items out.new.items) }
{
    let mut cursor = Cursor::begin(shown.session.text());
    let mut place = 0;
    'items: while place < listing.items.len() {
        let spot = Spot {
            middle: layout.middle(place),
            width: layout.width(place),
            hidden: hidden_at(listing, place),
        };
        match push_element(alloc, out, shown, listing.items[place], spot, cursor)? {
            Some(next) => cursor = next,
            None => return Ok(()),
        }
        place += 1;
    }
    Ok(())
}

// What is before the elements: how large all of it is, how it looks, what isn't drawn, and the lines between boxes.
fn head_of(alloc: Global, listing: &Listing, layout: &Layout) -> Result<Vec<u8>, AllocError> {
    let mut head = Vec::new(alloc);
    match push_before(alloc, &mut head, listing, layout) {
        Ok(()) => Ok(head),
        Err(error) => {
            drop(head);
            Err(error)
        }
    }
}

// Appends that.
fn push_before(
    alloc: Global,
    out: &mut Vec<u8>,
    listing: &Listing,
    layout: &Layout,
) -> Result<(), AllocError> {
    let note = note_of(alloc, listing)?;
    let answer = push_head(out, layout.span(0), levels_in(&listing.items), &note);
    drop(note);
    answer?;
    push_edges(out, &listing.items, layout)
}

// How many levels there are.
fn levels_in(items: &[Item]) -> usize {
    let mut levels = 0;
    'items: for item in items {
        levels = levels.max(item.depth.saturating_add(1));
    }
    levels
}

// What is said of what is drawn.
fn note_of(alloc: Global, listing: &Listing) -> Result<Vec<u8>, AllocError> {
    let mut note = Vec::new(alloc);
    match push_note(&mut note, listing) {
        Ok(()) => Ok(note),
        Err(error) => {
            drop(note);
            Err(error)
        }
    }
}

// Appends that.
fn push_note(out: &mut Vec<u8>, listing: &Listing) -> Result<(), AllocError> {
    let mut hidden: usize = 0;
    'items: for count in &listing.hidden {
        hidden = hidden.saturating_add(*count);
    }
    push_number(out, listing.items.len())?;
    push_text(out, " nodes and leaves")?;
    if hidden == 0 {
        return Ok(());
    }
    push_text(out, ", and ")?;
    push_number(out, hidden)?;
    push_text(
        out,
        " more that are not drawn, below the boxes with a broken border",
    )
}
