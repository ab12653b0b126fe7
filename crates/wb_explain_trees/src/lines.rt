//! A tree by lines: each node and each leaf on a line of its own, further in than the one above it, after the place where it begins.

ghost use Rattle.std.specs.Prelude.{◌≡◌, ◌++◌, IfNone, IfOk, IfSome, OnOk};
ghost use Rattle.wb_explain_drawing.specs.Reached.{IsReached};
ghost use Rattle.wb_explain_trees.specs.Inner.Sessions.{HasLine, view_of};
ghost use Rattle.wb_explain_trees.specs.Lines.{HasLines, ListsItems, SaysTree, place_text};

use crate::label::{Label, Shown, label_of, root_of, text_of};
use std::alloc::{AllocError, Global};
use wb_base::Bytes;
use wb_explain_drawing::{
    Cursor, Item, Listing, listing_of, push_cut_string, push_number, push_text,
};
use wb_scan::Language;
use wb_session::Session;
use wb_values::Signatures;

// The longest text.
const LONGEST: usize = 1_048_576;

// The most lines, the most levels that a line is further in, and the most bytes of a leaf that are shown.
const LINES: usize = 10_000;

const LEVELS: usize = 40;

const BYTES: usize = 40;

// The least width of a place with the space after it, and how much further in a level is.
const WIDTH: usize = 8;

const LEVEL: usize = 2;

// What is before a name that is on the last level that is further in.
static SPACES: &str =
    "                                                                                        ";

/// Appends the tree of a text by lines, or nothing where it has none, or more than 1,048,576 bytes.
///
/// On each line is the place where the node or the leaf begins, and further in the name of its production, or of its terminal with its text.
/// Of more than 10,000 nodes and leaves the first are shown, and after 40 levels the level is shown as a number. `signatures` are those of
/// the language's productions and `names` the printed names of its terminals, by number. The text is read once. The only error is out of
/// memory.
pub fn push_tree(
    alloc: Global,
    out: &mut Vec<u8>,
    language: &Language,
    signatures: &Signatures,
    names: &[Bytes],
    text: &[u8],
) -> Result<(), AllocError>
    ensures { OnOk result (SaysTree language.now.language signatures.now names.now text.now out.old.items out.new.items) }
{
    if text.len() > LONGEST {
        return Ok(());
    }
    let session = Session::open(alloc, language, text)?;
    let shown = Shown {
        session: &session,
        signatures,
        names,
    };
    let answer = push_session(alloc, out, &shown);
    drop(session);
    answer
}

// Appends the tree of a text that is read.
fn push_session(alloc: Global, out: &mut Vec<u8>, shown: &Shown<'_>) -> Result<(), AllocError>
    ensures { OnOk result (SaysTree shown.now.session.now.language shown.now.signatures.now shown.now.names.now shown.now.session.now.text out.old.items out.new.items) }
{
    let Some(root) = root_of(shown) else {
        return Ok(());
    };
    let listing = listing_of(alloc, shown.session.store(), root, usize::MAX, LINES)?;
    let answer = push_listing(alloc, out, shown, &listing);
    drop(listing);
    answer
}

// Appends a heading, the lines of a listing, and whether there are more.
fn push_listing(
    alloc: Global,
    out: &mut Vec<u8>,
    shown: &Shown<'_>,
    listing: &Listing,
) -> Result<(), AllocError>
    ensures { OnOk result (ListsItems (view_of shown.now.session.now shown.now.signatures.now shown.now.names.now) listing.now.items.items out.old.items out.new.items) }
{
    push_text(out, "\nThe tree, each node and leaf where it begins:\n\n")?;
    push_lines(alloc, out, shown, listing)?;
    push_text(out, more_of(listing.whole))?;
    Ok(())
}

// What is said where there are more.
fn more_of(whole: bool) -> &'static str {
    if whole {
        ""
    } else {
        "and more: the first 10,000 nodes and leaves are shown\n"
    }
}

// Appends the lines of a listing, of the first that can be shown.
fn push_lines(
    alloc: Global,
    out: &mut Vec<u8>,
    shown: &Shown<'_>,
    listing: &Listing,
) -> Result<(), AllocError>
    ensures { OnOk result (HasLines (view_of shown.now.session.now shown.now.signatures.now shown.now.names.now) listing.now.items.items out.old.items out.new.items) }
{
    let mut cursor = Cursor::begin(shown.session.text());
    let mut place = 0;
    'items: while place < listing.items.len() {
        match push_item(alloc, out, shown, listing.items[place], cursor)? {
            Some(next) => cursor = next,
            None => return Ok(()),
        }
        place += 1;
    }
    Ok(())
}

// Appends the line of a node or a leaf that begins at this place or after it, and answers where it begins.
fn push_item(
    alloc: Global,
    out: &mut Vec<u8>,
    shown: &Shown<'_>,
    item: Item,
    cursor: Cursor,
) -> Result<Option<Cursor>, AllocError>
    requires { IsReached shown.now.session.now.text cursor }
    ensures reached { IfOk result (λ found. IfSome found (IsReached shown.now.session.now.text)) }
    ensures line { IfOk result (λ found. IfSome found (λ next. HasLine (view_of shown.now.session.now shown.now.signatures.now shown.now.names.now) item out.old.items out.new.items)) }
    ensures none { IfOk result (λ found. IfNone found (out.new.items ≡ out.old.items)) }
{
    let Some(label) = label_of(shown, item, cursor) else {
        return Ok(None);
    };
    let rest = rest_of(alloc, item.depth, text_of(shown, item))?;
    let answer = push_line(out, &label, pad_of(label.begin, item.depth), &rest);
    drop(rest);
    match answer {
        Ok(()) => Ok(Some(label.begin)),
        Err(error) => Err(error),
    }
}

// Appends a place, a name further in, and the rest of a line.
fn push_line(
    out: &mut Vec<u8>,
    label: &Label<'_>,
    pad: &[u8],
    rest: &[u8],
) -> Result<(), AllocError>
    ensures { OnOk result (out.new.items ≡ out.old.items ++ (place_text label.now.begin ++ pad.now ++ label.now.name.now ++ rest.now)) }
{
    push_place(out, label.begin)?;
    out.extend_from_slice(pad)?;
    out.extend_from_slice(label.name)?;
    out.extend_from_slice(rest)
}

// Appends the numbers of a line and of a column.
pub(crate) fn push_place(out: &mut Vec<u8>, cursor: Cursor) -> Result<(), AllocError>
    ensures { OnOk result (out.new.items ≡ out.old.items ++ place_text cursor) }
{
    push_number(out, cursor.line)?;
    push_text(out, ":")?;
    push_number(out, cursor.column)
}

// The spaces between a place and a name.
fn pad_of(cursor: Cursor, depth: usize) -> &'static [u8] {
    let place = digits(cursor.line)
        .saturating_add(digits(cursor.column))
        .saturating_add(1);
    let count = WIDTH
        .saturating_sub(place)
        .max(1)
        .saturating_add(depth.min(LEVELS) * LEVEL);
    let spaces = SPACES.as_bytes();
    &spaces[..count.min(spaces.len())]
}

// How many digits a number has.
fn digits(number: usize) -> usize {
    let mut rest = number;
    'digits: for count in 1..20 {
        if rest < 10 {
            return count;
        }
        rest /= 10;
    }
    20
}

// What is after a name: the text of a leaf, and the number of a level that is no further in.
fn rest_of(alloc: Global, depth: usize, text: &[u8]) -> Result<Vec<u8>, AllocError> {
    let mut rest = Vec::new(alloc);
    match push_rest(&mut rest, depth, text) {
        Ok(()) => Ok(rest),
        Err(error) => {
            drop(rest);
            Err(error)
        }
    }
}

// Appends that.
fn push_rest(out: &mut Vec<u8>, depth: usize, text: &[u8]) -> Result<(), AllocError> {
    if !text.is_empty() {
        push_text(out, " ")?;
        push_cut_string(out, text, BYTES)?;
    }
    if depth > LEVELS {
        push_text(out, " on level ")?;
        push_number(out, depth)?;
    }
    push_text(out, "\n")
}
