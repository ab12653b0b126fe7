//! Reports why a file is refused: its attributes aren't well defined.

ghost use Rattle.std.specs.Prelude.{◌≡◌, ◌++◌, OnOk};
ghost use Rattle.wb_report.specs.Reasons.{attribute_text, reader_text};

use crate::ShownVertex;
use crate::pieces::{Piece, push_name, push_pieces, push_vertices};
use std::alloc::AllocError;
use wb_base::{Bytes, Sequence};

/// Why a host, or an extension with its host, is refused for its attributes.
#[derive(Drop)]
pub enum AttributeReason {
    /// A5: the start has this inherited attribute.
    StartInherits(Bytes),
    /// E7: this production of an extension on a host's nonterminal doesn't forward.
    NoForward(Bytes),
    /// A1: the production has no equation for the attribute.
    NoEquation {
        production: Bytes,
        attribute: Bytes,
    },
    /// A2: the production gives no value to the attribute of the label, which is read.
    NoInherited {
        production: Bytes,
        label: Bytes,
        attribute: Bytes,
    },
    /// A6: the attribute of the nonterminal needs less than a forward there.
    LacksForward {
        nonterminal: Bytes,
        attribute: Bytes,
        inherited: Bytes,
    },
    /// A3: the attribute, or the forwarded tree, reads what it doesn't declare.
    Reads {
        production: Bytes,
        attribute: Option<Bytes>,
        inherited: Bytes,
    },
    /// A4: each of these reads the next, and the last the first.
    Cycle {
        production: Bytes,
        vertices: Sequence<ShownVertex>,
    },
    /// E8: the equation for what the forwarded tree inherits reads too much.
    ForwardReads {
        production: Bytes,
        attribute: Bytes,
        inherited: Bytes,
    },
}

// Appends why a file is refused for its attributes.
pub(crate) fn push_attribute_reason(
    out: &mut Vec<u8>,
    reason: &AttributeReason,
) -> Result<(), AllocError>
    ensures { OnOk result (out.new.items ≡ out.old.items ++ attribute_text reason.now) }
{
    match reason {
        AttributeReason::StartInherits(attribute) => push_name(out, b"A5 ", attribute),
        AttributeReason::NoForward(production) => push_name(out, b"E7 ", production),
        AttributeReason::NoEquation {
            production,
            attribute,
        } => push_no_equation(out, production, attribute),
        AttributeReason::NoInherited {
            production,
            label,
            attribute,
        } => push_no_inherited(out, production, label, attribute),
        AttributeReason::LacksForward {
            nonterminal,
            attribute,
            inherited,
        } => push_lacks_forward(out, nonterminal, attribute, inherited),
        AttributeReason::Reads {
            production,
            attribute,
            inherited,
        } => push_reads(out, production, attribute, inherited),
        AttributeReason::Cycle {
            production,
            vertices,
        } => push_cycle(out, production, vertices),
        AttributeReason::ForwardReads {
            production,
            attribute,
            inherited,
        } => push_forward_reads(out, production, attribute, inherited),
    }
}

// Appends that a production has no equation for an attribute.
fn push_no_equation<'a>(
    out: &mut Vec<u8>,
    production: &'a Bytes,
    attribute: &'a Bytes,
) -> Result<(), AllocError>
    ensures { OnOk result (out.new.items ≡ out.old.items ++ attribute_text (AttributeReason.NoEquation production.now attribute.now)) }
{
    push_pieces(
        out,
        &[
            Piece::Plain(b"A1 "),
            Piece::Plain(production.as_slice()),
            Piece::Plain(b" "),
            Piece::Plain(attribute.as_slice()),
        ],
    )
}

// Appends that a production gives no value to an attribute of a label.
fn push_no_inherited<'a>(
    out: &mut Vec<u8>,
    production: &'a Bytes,
    label: &'a Bytes,
    attribute: &'a Bytes,
) -> Result<(), AllocError>
    ensures { OnOk result (out.new.items ≡ out.old.items
        ++ attribute_text (AttributeReason.NoInherited production.now label.now attribute.now)) }
{
    push_pieces(
        out,
        &[
            Piece::Plain(b"A2 "),
            Piece::Plain(production.as_slice()),
            Piece::Plain(b" "),
            Piece::Plain(label.as_slice()),
            Piece::Plain(b"."),
            Piece::Plain(attribute.as_slice()),
        ],
    )
}

// Appends that an attribute needs less than a forward.
fn push_lacks_forward<'a>(
    out: &mut Vec<u8>,
    nonterminal: &'a Bytes,
    attribute: &'a Bytes,
    inherited: &'a Bytes,
) -> Result<(), AllocError>
    ensures { OnOk result (out.new.items ≡ out.old.items
        ++ attribute_text (AttributeReason.LacksForward nonterminal.now attribute.now inherited.now)) }
{
    push_pieces(
        out,
        &[
            Piece::Plain(b"A6 "),
            Piece::Plain(nonterminal.as_slice()),
            Piece::Plain(b" "),
            Piece::Plain(attribute.as_slice()),
            Piece::Plain(b" lacks "),
            Piece::Plain(inherited.as_slice()),
        ],
    )
}

// Appends that an attribute, or the forwarded tree, reads what it doesn't declare.
fn push_reads<'a>(
    out: &mut Vec<u8>,
    production: &'a Bytes,
    attribute: &'a Option<Bytes>,
    inherited: &'a Bytes,
) -> Result<(), AllocError>
    ensures { OnOk result (out.new.items ≡ out.old.items
        ++ attribute_text (AttributeReason.Reads production.now attribute.now inherited.now)) }
{
    push_pieces(
        out,
        &[
            Piece::Plain(b"A3 "),
            Piece::Plain(production.as_slice()),
            Piece::Plain(b" "),
            Piece::Plain(reader(attribute)),
            Piece::Plain(b" reads "),
            Piece::Plain(inherited.as_slice()),
        ],
    )
}

// Appends a cycle of reads.
fn push_cycle(
    out: &mut Vec<u8>,
    production: &Bytes,
    vertices: &Sequence<ShownVertex>,
) -> Result<(), AllocError>
    ensures { OnOk result (out.new.items ≡ out.old.items ++ attribute_text (AttributeReason.Cycle production.now vertices.now)) }
{
    push_name(out, b"A4 ", production)?;
    out.extend_from_slice(b":")?;
    push_vertices(out, vertices.as_slice())
}

// Appends that an equation for what the forwarded tree inherits reads too much.
fn push_forward_reads<'a>(
    out: &mut Vec<u8>,
    production: &'a Bytes,
    attribute: &'a Bytes,
    inherited: &'a Bytes,
) -> Result<(), AllocError>
    ensures { OnOk result (out.new.items ≡ out.old.items
        ++ attribute_text (AttributeReason.ForwardReads production.now attribute.now inherited.now)) }
{
    push_pieces(
        out,
        &[
            Piece::Plain(b"E8 "),
            Piece::Plain(production.as_slice()),
            Piece::Plain(b" forward."),
            Piece::Plain(attribute.as_slice()),
            Piece::Plain(b" reads "),
            Piece::Plain(inherited.as_slice()),
        ],
    )
}

// What a read is for, by name.
fn reader(attribute: &Option<Bytes>) -> &[u8]
    ensures { result.now ≡ reader_text attribute.now }
{
    match attribute {
        Some(name) => name.as_slice(),
        None => b"forward",
    }
}
