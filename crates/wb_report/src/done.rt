//! What does a command that comes to its end show?

ghost use Rattle.std.specs.Prelude.{◌≡◌, ◌++◌, IfOk, OnOk};
ghost use Rattle.std.specs.Fmt.{decimal};
ghost use lib.Chars.{codes};
ghost use Rattle.wb_report.specs.Done.{done_lines, extension_lines, marker_line, prefix_lines, rechecked_lines, value_line};

use crate::pieces::{Piece, push_line, push_pieces};
use std::alloc::{AllocError, Global};
use wb_base::{Bytes, Sequence, push};

/// What a command that comes to its end shows.
#[derive(Drop)]
pub enum Done {
    /// An attribute with its printed value.
    Value {
        attribute: Bytes,
        value: Sequence<u8>,
    },
    /// The canonical text of a specification.
    Canonical(Sequence<u8>),
    /// A host is certified, and so are these extensions.
    Certified {
        host: Bytes,
        extensions: Sequence<Bytes>,
    },
    /// A host with so many extensions, and the markers that need their prefix.
    Composed {
        host: Bytes,
        extensions: usize,
        prefixed: Sequence<Bytes>,
    },
    /// A printed tree.
    Tree(Sequence<u8>),
    /// The lines of a text and of what becomes of it by each of its edits.
    Edited(Sequence<u8>),
    /// A generated text with so many leaves and bytes, and an attribute with its printed value.
    Generated {
        leaves: u64,
        bytes: usize,
        attribute: Bytes,
        value: Sequence<u8>,
    },
    /// A host is certified by a certificate, and so is this extension.
    Rechecked {
        host: Bytes,
        extension: Option<Bytes>,
    },
    /// A text means to a host with extensions what it means to the host.
    HostReading,
    /// The first marker of a text, which begins at this place, in bytes from its beginning.
    MarkerAt {
        marker: Bytes,
        at: usize,
    },
}

// The lines of a command that comes to its end, by what it shows, which is handed over.
pub(crate) fn into_lines(alloc: Global, done: Done) -> Result<Vec<u8>, AllocError>
    ensures { IfOk result (λ lines. lines.items ≡ done_lines done) }
{
    match done {
        Done::Tree(text) => with_newline(text.into_vec()),
        Done::Canonical(text) => Ok(text.into_vec()),
        Done::Edited(lines) => Ok(lines.into_vec()),
        other => {
            let lines = lines_of(alloc, &other);
            drop(other);
            lines
        }
    }
}

// A text with LF after it.
fn with_newline(mut text: Vec<u8>) -> Result<Vec<u8>, AllocError>
    ensures { IfOk result (λ line. line.items ≡ text.items ++ codes "\n") }
{
    push(&mut text, b'\n')?;
    Ok(text)
}

// The lines of a command that comes to its end, by what it shows, which is lent.
fn lines_of(alloc: Global, done: &Done) -> Result<Vec<u8>, AllocError>
    ensures { IfOk result (λ lines. lines.items ≡ done_lines done.now) }
{
    let mut out = Vec::new(alloc);
    push_done(&mut out, done)?;
    Ok(out)
}

// Appends the lines of a command that comes to its end.
pub(crate) fn push_done(out: &mut Vec<u8>, done: &Done) -> Result<(), AllocError>
    ensures { OnOk result (out.new.items ≡ out.old.items ++ done_lines done.now) }
{
    match done {
        Done::Value { attribute, value } => push_value(out, attribute, value),
        Done::Canonical(text) => out.extend_from_slice(text.as_slice()),
        Done::Certified { host, extensions } => {
            push_line(out, b"certified host ", host)?;
            push_extensions(out, extensions.as_slice())
        }
        Done::Composed {
            host,
            extensions,
            prefixed,
        } => {
            push_composed(out, host, *extensions)?;
            push_prefixed(out, prefixed.as_slice())
        }
        Done::Tree(text) => {
            out.extend_from_slice(text.as_slice())?;
            out.extend_from_slice(b"\n")
        }
        Done::Edited(lines) => out.extend_from_slice(lines.as_slice()),
        Done::Generated {
            leaves,
            bytes,
            attribute,
            value,
        } => {
            push_size(out, *leaves, *bytes)?;
            push_value(out, attribute, value)
        }
        Done::Rechecked { host, extension } => push_rechecked(out, host, extension),
        Done::HostReading => out.extend_from_slice(b"host reading\n"),
        Done::MarkerAt { marker, at } => push_marker(out, marker, *at),
    }
}

// Appends an attribute and its printed value.
fn push_value<'a>(
    out: &mut Vec<u8>,
    attribute: &'a Bytes,
    value: &'a Sequence<u8>,
) -> Result<(), AllocError>
    ensures { OnOk result (out.new.items ≡ out.old.items ++ value_line attribute.now value.now) }
{
    push_pieces(
        out,
        &[
            Piece::Plain(attribute.as_slice()),
            Piece::Plain(b" = "),
            Piece::Plain(value.as_slice()),
            Piece::Plain(b"\n"),
        ],
    )
}

// Appends a line for each certified extension.
fn push_extensions(out: &mut Vec<u8>, names: &[Bytes]) -> Result<(), AllocError>
    ensures { OnOk result (out.new.items ≡ out.old.items ++ extension_lines names.now) }
{
    'names: for name in names {
        push_line(out, b"certified extension ", name)?;
    }
    Ok(())
}

// Appends a line for each marker that needs its prefix.
fn push_prefixed(out: &mut Vec<u8>, markers: &[Bytes]) -> Result<(), AllocError>
    ensures { OnOk result (out.new.items ≡ out.old.items ++ prefix_lines markers.now) }
{
    'markers: for marker in markers {
        push_line(out, b"prefix ", marker)?;
    }
    Ok(())
}

// Appends the line of a host with so many extensions.
fn push_composed(out: &mut Vec<u8>, host: &Bytes, extensions: usize) -> Result<(), AllocError>
    ensures { OnOk result (out.new.items ≡ out.old.items ++ (codes "composed " ++ host.now ++ codes " with " ++ decimal extensions ++ codes " extensions\n")) }
{
    push_pieces(
        out,
        &[
            Piece::Plain(b"composed "),
            Piece::Plain(host.as_slice()),
            Piece::Plain(b" with "),
            Piece::Number(extensions as u64),
            Piece::Plain(b" extensions\n"),
        ],
    )
}

// Appends a line for a host that is certified by a certificate, and one for an extension.
fn push_rechecked<'a>(
    out: &mut Vec<u8>,
    host: &'a Bytes,
    extension: &'a Option<Bytes>,
) -> Result<(), AllocError>
    ensures { OnOk result (out.new.items ≡ out.old.items ++ rechecked_lines host.now extension.now) }
{
    match extension {
        None => push_line(out, b"rechecked host ", host),
        Some(name) => push_pieces(
            out,
            &[
                Piece::Plain(b"rechecked host "),
                Piece::Plain(host.as_slice()),
                Piece::Plain(b"\nrechecked extension "),
                Piece::Plain(name.as_slice()),
                Piece::Plain(b"\n"),
            ],
        ),
    }
}

// Appends the line of a marker at a place.
fn push_marker(out: &mut Vec<u8>, marker: &Bytes, at: usize) -> Result<(), AllocError>
    ensures { OnOk result (out.new.items ≡ out.old.items ++ marker_line marker.now at) }
{
    push_pieces(
        out,
        &[
            Piece::Plain(b"marker "),
            Piece::Plain(marker.as_slice()),
            Piece::Plain(b" at "),
            Piece::Number(at as u64),
            Piece::Plain(b"\n"),
        ],
    )
}

// Appends the lines of a text's leaves and bytes.
fn push_size(out: &mut Vec<u8>, leaves: u64, bytes: usize) -> Result<(), AllocError>
    ensures { OnOk result (out.new.items ≡ out.old.items ++ (codes "leaves " ++ decimal leaves ++ codes "\nbytes " ++ decimal bytes ++ codes "\n")) }
{
    push_pieces(
        out,
        &[
            Piece::Plain(b"leaves "),
            Piece::Number(leaves),
            Piece::Plain(b"\nbytes "),
            Piece::Number(bytes as u64),
            Piece::Plain(b"\n"),
        ],
    )
}
