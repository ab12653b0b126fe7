//! How is a picture written? As an SVG file without scripts, that refers to nothing else.

ghost use Rattle.std.specs.Prelude.{OnOk};
ghost use Rattle.wb_explain_drawing.specs.Pictures.{AddsPicture, HasPicture};

use crate::{Item, Layout, push_number, push_text, push_xml};
use std::alloc::{AllocError, Global};

// How far a level is below the one above, how high a box is, and the space around all of it.
const LEVEL: usize = 66;

const BOX: usize = 24;

const MARGIN: usize = 24;

// The space above all of it, where a note is.
const TOP: usize = 44;

// The least width, so that the note is seen.
const LEAST: usize = 760;

// How all of it looks.
const STYLE: &str =
    "<style>text{font:13px ui-monospace,Menlo,Consolas,'DejaVu Sans Mono',monospace;text-anchor:middle;fill:#1b2a41}rect{rx:6px;stroke-width:1.2px}.n{fill:#e8f0fe;stroke:#5b7db1}.l{fill:#f1f7ea;stroke:#7a9e57}.f{fill:#fff3dc;stroke:#b97f17;stroke-dasharray:4 3}.t{font-weight:bold;fill:#33551b}.m{fill:#8a5a00}.h{text-anchor:start;fill:#5a6475}path{fill:none;stroke:#a9b4c4;stroke-width:1.2px}</style>\n";

/// Appends a picture in which there is only a sentence.
pub fn push_blank(alloc: Global, out: &mut Vec<u8>, note: &str) -> Result<(), AllocError>
    ensures { OnOk result (AddsPicture out.old.items out.new.items) }
{
    let head = head_of(alloc, note)?;
    let answer = push_around(out, &head);
    drop(head);
    answer
}

// Appends a picture with this in it.
fn push_around(out: &mut Vec<u8>, inside: &[u8]) -> Result<(), AllocError>
    ensures { OnOk result (HasPicture inside.now out.old.items out.new.items) }
{
    push_text(out, "<svg xmlns=\"http://www.w3.org/2000/svg\" ")?;
    out.extend_from_slice(inside)?;
    push_text(out, "</svg>\n")
}

// What is at the head of a picture in which there is only a sentence.
fn head_of(alloc: Global, note: &str) -> Result<Vec<u8>, AllocError> {
    let mut head = Vec::new(alloc);
    match push_head(&mut head, 0, 0, note.as_bytes()) {
        Ok(()) => Ok(head),
        Err(error) => {
            drop(head);
            Err(error)
        }
    }
}

/// Appends what is at the head of a picture of so many levels that is so wide, after its first bytes.
pub fn push_head(
    out: &mut Vec<u8>,
    width: usize,
    levels: usize,
    note: &[u8],
) -> Result<(), AllocError> {
    let wide = width.saturating_add(2 * MARGIN).max(LEAST);
    let high = top_of(levels).saturating_add(MARGIN);
    push_sizes(out, wide, high)?;
    push_text(out, STYLE)?;
    push_text(
        out,
        "<rect style=\"fill:#fff;stroke:none\" width=\"100%\" height=\"100%\"/>\n<text class=\"h\" x=\"24\" y=\"26\">",
    )?;
    push_xml(out, note)?;
    push_text(out, "</text>\n")
}

// Appends how large a picture is.
fn push_sizes(out: &mut Vec<u8>, wide: usize, high: usize) -> Result<(), AllocError> {
    push_attribute(out, "width", wide)?;
    push_attribute(out, "height", high)?;
    push_text(out, "viewBox=\"0 0 ")?;
    push_number(out, wide)?;
    push_text(out, " ")?;
    push_number(out, high)?;
    push_text(out, "\">\n")
}

// Appends an attribute with a number.
fn push_attribute(out: &mut Vec<u8>, name: &str, number: usize) -> Result<(), AllocError> {
    push_text(out, name)?;
    push_text(out, "=\"")?;
    push_number(out, number)?;
    push_text(out, "\" ")
}

/// Appends the lines from items to those right above them.
pub fn push_edges(out: &mut Vec<u8>, items: &[Item], layout: &Layout) -> Result<(), AllocError> {
    if items.len() < 2 {
        return Ok(());
    }
    push_text(out, "<path d=\"")?;
    'items: for (place, item) in items.iter().enumerate() {
        if place > 0 {
            push_edge(
                out,
                layout.middle(layout.parent(place)),
                layout.middle(place),
                item.depth,
            )?;
        }
    }
    push_text(out, "\"/>\n")
}

// Appends the line to an item on a level from the one above it.
fn push_edge(
    out: &mut Vec<u8>,
    above: usize,
    middle: usize,
    level: usize,
) -> Result<(), AllocError> {
    let from = top_of(level.saturating_sub(1)).saturating_add(BOX);
    let to = top_of(level);
    let half = (from / 2).saturating_add(to / 2);
    push_point(out, "M", above, from)?;
    push_point(out, "C", above, half)?;
    push_point(out, " ", middle, half)?;
    push_point(out, " ", middle, to)
}

// Appends a point of a line.
fn push_point(out: &mut Vec<u8>, before: &str, x: usize, y: usize) -> Result<(), AllocError> {
    push_text(out, before)?;
    push_number(out, x.saturating_add(MARGIN))?;
    push_text(out, ",")?;
    push_number(out, y)
}

// How far the boxes of a level are from the top.
fn top_of(level: usize) -> usize {
    level.saturating_mul(LEVEL).saturating_add(TOP)
}

/// How a box looks.
#[derive(Clone, Copy)]
pub enum Look {
    /// As that of a node.
    Node,
    /// As that of a node below which nothing is drawn.
    Folded,
    /// As that of a leaf.
    Leaf,
}

/// Where a box is and how it looks.
#[derive(Clone, Copy)]
pub struct Place {
    /// How far the middle is from the left.
    pub middle: usize,
    /// Its level.
    pub level: usize,
    /// How wide it is.
    pub width: usize,
    /// How it looks.
    pub look: Look,
}

/// Appends the box of a node or a leaf, with a name in it and a text below it.
pub fn push_box(
    out: &mut Vec<u8>,
    place: Place,
    name: &[u8],
    below: &[u8],
) -> Result<(), AllocError> {
    let x = place.middle.saturating_add(MARGIN);
    let y = top_of(place.level);
    push_text(out, rect_of(place.look))?;
    push_attribute(out, "x", x.saturating_sub(place.width / 2))?;
    push_attribute(out, "y", y)?;
    push_attribute(out, "width", place.width)?;
    push_attribute(out, "height", BOX)?;
    push_text(out, "/>")?;
    push_label(out, "<text ", x, y.saturating_add(16), name)?;
    if below.is_empty() {
        return Ok(());
    }
    let text = text_of(place.look);
    push_label(out, text, x, y.saturating_add(BOX + 15), below)
}

// The beginning of a box.
fn rect_of(look: Look) -> &'static str {
    match look {
        Look::Node => "<rect class=\"n\" ",
        Look::Folded => "<rect class=\"f\" ",
        Look::Leaf => "<rect class=\"l\" ",
    }
}

// The beginning of a text below a box.
fn text_of(look: Look) -> &'static str {
    match look {
        Look::Leaf => "<text class=\"t\" ",
        _ => "<text class=\"m\" ",
    }
}

// Appends a text at a point. The bytes are those of XML.
fn push_label(
    out: &mut Vec<u8>,
    before: &str,
    x: usize,
    y: usize,
    text: &[u8],
) -> Result<(), AllocError> {
    push_text(out, before)?;
    push_attribute(out, "x", x)?;
    push_attribute(out, "y", y)?;
    push_text(out, ">")?;
    out.extend_from_slice(text)?;
    push_text(out, "</text>")
}
