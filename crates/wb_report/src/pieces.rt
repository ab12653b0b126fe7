//! How is a line put together?
//!
//! A line is a list of pieces, so that what it promises can be read off it.

ghost use Rattle.std.specs.Prelude.{◌≡◌, ◌++◌, [], OnOk};
ghost use Rattle.std.specs.Fmt.{decimal};
ghost use lib.Chars.{codes};
ghost use Rattle.wb_report.specs.Parts.{action_text, conflict_text, lookahead_text, share_text, spaced, vertex_text, vertices_text};
ghost use Rattle.wb_report.specs.Inner.Pieces.{joined, piece_text};

use crate::{ShownAction, ShownConflict, ShownItem, ShownVertex};
use itoa::Buffer;
use std::alloc::AllocError;
use wb_base::{Bytes, Sequence};
use wb_text_tokens::print_text;

// A piece of a line.
#[derive(Clone, Copy)]
pub(crate) enum Piece<'a> {
    // The bytes as they are.
    Plain(&'a [u8]),
    // Decimal digits.
    Number(u64),
    // A text as a string.
    Quoted(&'a [u8]),
    // Names, each after one space.
    Spaced(&'a [Bytes]),
    // What a parser would do.
    Action(&'a ShownAction),
}

// Appends pieces.
pub(crate) fn push_pieces(out: &mut Vec<u8>, pieces: &[Piece]) -> Result<(), AllocError>
    ensures { OnOk result (out.new.items ≡ out.old.items ++ joined [] pieces.now) }
{
    'pieces: for piece in pieces {
        push_piece(out, piece)?;
    }
    Ok(())
}

// Appends a piece.
fn push_piece(out: &mut Vec<u8>, piece: &Piece) -> Result<(), AllocError>
    ensures { OnOk result (out.new.items ≡ out.old.items ++ piece_text piece.now) }
{
    match piece {
        Piece::Plain(bytes) => out.extend_from_slice(bytes),
        Piece::Number(number) => push_number(out, *number),
        Piece::Quoted(bytes) => print_text(out, bytes),
        Piece::Spaced(names) => push_spaced(out, names),
        Piece::Action(action) => push_action(out, action),
    }
}

// Appends a number in decimal.
fn push_number(out: &mut Vec<u8>, number: u64) -> Result<(), AllocError>
    ensures { OnOk result (out.new.items ≡ out.old.items ++ decimal number) }
{
    let mut buffer = Buffer::new();
    out.extend_from_slice(buffer.format(number).as_bytes())
}

// Appends names, each after one space.
fn push_spaced(out: &mut Vec<u8>, names: &[Bytes]) -> Result<(), AllocError>
    ensures { OnOk result (out.new.items ≡ out.old.items ++ spaced names.now) }
{
    'names: for name in names {
        out.extend_from_slice(b" ")?;
        out.extend_from_slice(name.as_slice())?;
    }
    Ok(())
}

// Appends an action.
fn push_action(out: &mut Vec<u8>, action: &ShownAction) -> Result<(), AllocError>
    ensures { OnOk result (out.new.items ≡ out.old.items ++ action_text action.now) }
{
    match action {
        ShownAction::Shift => out.extend_from_slice(b"shift"),
        ShownAction::Accept => out.extend_from_slice(b"accept"),
        ShownAction::Reduce(production) => {
            out.extend_from_slice(b"reduce ")?;
            out.extend_from_slice(production.as_slice())
        }
    }
}

// Appends a vertex.
fn push_vertex(out: &mut Vec<u8>, vertex: &ShownVertex) -> Result<(), AllocError>
    ensures { OnOk result (out.new.items ≡ out.old.items ++ vertex_text vertex.now) }
{
    match vertex {
        ShownVertex::Top(attribute) => push_dotted(out, b"top", attribute.as_slice()),
        ShownVertex::Label { label, attribute } => {
            push_dotted(out, label.as_slice(), attribute.as_slice())
        }
        ShownVertex::Forward(attribute) => push_dotted(out, b"forward", attribute.as_slice()),
        ShownVertex::LocalTree(label) => out.extend_from_slice(label.as_slice()),
        ShownVertex::ForwardTree => out.extend_from_slice(b"forward"),
    }
}

// Appends two names with a dot between them.
fn push_dotted(out: &mut Vec<u8>, left: &[u8], right: &[u8]) -> Result<(), AllocError>
    ensures { OnOk result (out.new.items ≡ out.old.items ++ (left.now ++ codes "." ++ right.now)) }
{
    out.extend_from_slice(left)?;
    out.extend_from_slice(b".")?;
    out.extend_from_slice(right)
}

// Appends vertices, each after one space.
pub(crate) fn push_vertices(out: &mut Vec<u8>, vertices: &[ShownVertex]) -> Result<(), AllocError>
    ensures { OnOk result (out.new.items ≡ out.old.items ++ vertices_text vertices.now) }
{
    'vertices: for vertex in vertices {
        out.extend_from_slice(b" ")?;
        push_vertex(out, vertex)?;
    }
    Ok(())
}

// Appends the terminal of a conflict and its actions.
pub(crate) fn push_conflict(out: &mut Vec<u8>, conflict: &ShownConflict) -> Result<(), AllocError>
    ensures { OnOk result (out.new.items ≡ out.old.items ++ conflict_text conflict.now) }
{
    push_pieces(
        out,
        &[
            Piece::Plain(b" on "),
            Piece::Plain(conflict.terminal.as_slice()),
            Piece::Plain(b": "),
            Piece::Action(&conflict.first),
            Piece::Plain(b" and "),
            Piece::Action(&conflict.second),
        ],
    )
}

// Appends an item and a terminal of its lookaheads.
pub(crate) fn push_lookahead<'a>(
    out: &mut Vec<u8>,
    item: &'a ShownItem,
    terminal: &'a Bytes,
) -> Result<(), AllocError>
    ensures { OnOk result (out.new.items ≡ out.old.items ++ lookahead_text item.now terminal.now) }
{
    push_pieces(
        out,
        &[
            Piece::Plain(b" item "),
            Piece::Plain(item.production.as_slice()),
            Piece::Plain(b"/"),
            Piece::Number(item.dot as u64),
            Piece::Plain(b" on "),
            Piece::Plain(terminal.as_slice()),
        ],
    )
}

// Appends two terminals that match a text.
pub(crate) fn push_share<'a>(
    out: &mut Vec<u8>,
    left: &'a Bytes,
    right: &'a Bytes,
    text: &'a Bytes,
) -> Result<(), AllocError>
    ensures { OnOk result (out.new.items ≡ out.old.items ++ share_text left.now right.now text.now) }
{
    push_pieces(
        out,
        &[
            Piece::Plain(left.as_slice()),
            Piece::Plain(b" and "),
            Piece::Plain(right.as_slice()),
            Piece::Plain(b" share "),
            Piece::Quoted(text.as_slice()),
        ],
    )
}

// Appends a text and a name.
pub(crate) fn push_name(out: &mut Vec<u8>, text: &[u8], name: &Bytes) -> Result<(), AllocError>
    ensures { OnOk result (out.new.items ≡ out.old.items ++ (text.now ++ name.now)) }
{
    out.extend_from_slice(text)?;
    out.extend_from_slice(name.as_slice())
}

// Appends a text and a number.
pub(crate) fn push_offset(out: &mut Vec<u8>, text: &[u8], offset: usize) -> Result<(), AllocError>
    ensures { OnOk result (out.new.items ≡ out.old.items ++ (text.now ++ decimal offset)) }
{
    out.extend_from_slice(text)?;
    push_number(out, offset as u64)
}

// Appends a text and names, each after one space.
pub(crate) fn push_names(
    out: &mut Vec<u8>,
    text: &[u8],
    names: &Sequence<Bytes>,
) -> Result<(), AllocError>
    ensures { OnOk result (out.new.items ≡ out.old.items ++ (text.now ++ spaced names.now)) }
{
    out.extend_from_slice(text)?;
    push_spaced(out, names.as_slice())
}

// Appends a line of a text and a name.
pub(crate) fn push_line<'a>(
    out: &mut Vec<u8>,
    text: &'a [u8],
    name: &'a Bytes,
) -> Result<(), AllocError>
    ensures { OnOk result (out.new.items ≡ out.old.items ++ (text.now ++ name.now ++ codes "\n")) }
{
    push_pieces(
        out,
        &[
            Piece::Plain(text),
            Piece::Plain(name.as_slice()),
            Piece::Plain(b"\n"),
        ],
    )
}
