//! How are kinds, productions and operations named?

ghost use Rattle.std.specs.Prelude.{◌≡◌, ◌++◌, ◌<◌, ◌^◌, ◌+◌, [], OnOk, slice_get, slice_index_or};
ghost use Rattle.std.specs.Fmt.{decimal};
ghost use lib.Chars.{codes};
ghost use Rattle.wb_base.specs.declared.symbol.Kind.TheVariants.{Tree};
ghost use Rattle.wb_syntax_resolved.specs.Owners.{printed_name};
ghost use Rattle.wb_explain_mismatches.specs.Said.{argument_said, caller_said, choice_said, kind_said, maker_said, nonterminal_said, operation_said, part_said, production_said};

use crate::step::Maker;
use itoa::Buffer;
use std::alloc::AllocError;
use wb_base::{Bytes, Kind};
use wb_operations::OperationSignatures;
use wb_syntax_resolved::{AttributionParts, Node};
use wb_values::Signatures;

// Appends a number in decimal.
pub(crate) fn push_number(out: &mut Vec<u8>, number: usize) -> Result<(), AllocError>
    ensures { OnOk result (out.new.items ≡ out.old.items ++ decimal number) }
{
    let mut buffer = Buffer::new();
    out.extend_from_slice(buffer.format(number).as_bytes())
}

// Appends a kind in words.
pub(crate) fn push_kind(
    out: &mut Vec<u8>,
    attributes: &AttributionParts,
    kind: Kind,
) -> Result<(), AllocError>
    ensures { OnOk result (out.new.items ≡ out.old.items ++ kind_said attributes.now kind) }
{
    match kind {
        Kind::Int => out.extend_from_slice(b"an int"),
        Kind::Bool => out.extend_from_slice(b"a bool"),
        Kind::Text => out.extend_from_slice(b"a text"),
        Kind::Tree(number) => push_tree(out, attributes, number),
    }
}

// Appends the kind of trees of a nonterminal.
fn push_tree(
    out: &mut Vec<u8>,
    attributes: &AttributionParts,
    number: usize,
) -> Result<(), AllocError>
    ensures { OnOk result (out.new.items ≡ out.old.items ++ kind_said attributes.now (Tree number)) }
{
    out.extend_from_slice(b"a tree of ")?;
    push_nonterminal(out, attributes, number)
}

// Appends the name of a nonterminal that is there.
fn push_nonterminal(
    out: &mut Vec<u8>,
    attributes: &AttributionParts,
    number: usize,
) -> Result<(), AllocError>
    ensures { OnOk result (out.new.items ≡ out.old.items ++ nonterminal_said attributes.now.extensions (slice_get attributes.now.nonterminals number)) }
{
    let nonterminals = attributes.nonterminals.as_slice();
    if number >= nonterminals.len() {
        return Ok(());
    }
    let it = &nonterminals[number];
    push_printed(
        out,
        attributes.extensions.as_slice(),
        it.owner,
        it.name.as_slice(),
    )
}

// Appends a name with the extension that it is of.
pub(crate) fn push_printed(
    out: &mut Vec<u8>,
    extensions: &[Bytes],
    owner: usize,
    name: &[u8],
) -> Result<(), AllocError>
    ensures { OnOk result (out.new.items ≡ out.old.items ++ printed_name extensions.now owner name.now) }
{
    if owner != 0 {
        push_extension(out, extensions, owner - 1)?;
    }
    out.extend_from_slice(name)
}

// Appends the name of an extension, and a colon.
fn push_extension(out: &mut Vec<u8>, extensions: &[Bytes], number: usize) -> Result<(), AllocError>
    ensures { OnOk result (out.new.items ≡ out.old.items ++ (slice_index_or extensions.now number [] ++ codes ":")) }
{
    if let Some(extension) = extensions.get(number) {
        out.extend_from_slice(extension.as_slice())?;
    }
    out.extend_from_slice(b":")
}

// Appends the name of a production that is there.
fn push_production(
    out: &mut Vec<u8>,
    signatures: &Signatures,
    number: usize,
) -> Result<(), AllocError>
    ensures { OnOk result (out.new.items ≡ out.old.items ++ production_said (slice_get signatures.now number)) }
{
    if number >= signatures.len() {
        return Ok(());
    }
    out.extend_from_slice(signatures.name(number))
}

// Appends the name of an operation that is there.
fn push_operation(
    out: &mut Vec<u8>,
    operations: &OperationSignatures,
    number: usize,
) -> Result<(), AllocError>
    ensures { OnOk result (out.new.items ≡ out.old.items ++ operation_said (slice_get operations.now number)) }
{
    if number >= operations.len() {
        return Ok(());
    }
    out.extend_from_slice(b"@")?;
    out.extend_from_slice(operations.name(number))
}

// Appends what makes one kind of another, by name.
pub(crate) fn push_maker(
    out: &mut Vec<u8>,
    signatures: &Signatures,
    operations: &OperationSignatures,
    maker: Maker,
) -> Result<(), AllocError>
    ensures { OnOk result (out.new.items ≡ out.old.items ++ maker_said signatures.now operations.now maker) }
{
    match maker {
        Maker::Production(number) => push_production(out, signatures, number),
        Maker::Operation(number) => push_operation(out, operations, number),
    }
}

// Appends what a node calls.
pub(crate) fn push_caller(
    out: &mut Vec<u8>,
    attributes: &AttributionParts,
    node: &Node,
) -> Result<(), AllocError>
    ensures { OnOk result (out.new.items ≡ out.old.items ++ caller_said attributes.now node.now) }
{
    match node {
        Node::Build { production, .. } => {
            push_production(out, &attributes.signatures, *production)
        }
        Node::Call { operation, .. } => push_called(out, operation.as_slice()),
        _ => out.extend_from_slice(b"if"),
    }
}

// Appends the name of an operation.
fn push_called(out: &mut Vec<u8>, name: &[u8]) -> Result<(), AllocError>
    ensures { OnOk result (out.new.items ≡ out.old.items ++ (codes "@" ++ name.now)) }
{
    out.extend_from_slice(b"@")?;
    out.extend_from_slice(name)
}

// Appends which part of a node it is.
pub(crate) fn push_part(
    out: &mut Vec<u8>,
    attributes: &AttributionParts,
    node: &Node,
    number: usize,
) -> Result<(), AllocError>
    requires { number + 1 < 2 ^ 64 }
    ensures { OnOk result (out.new.items ≡ out.old.items ++ part_said attributes.now node.now number) }
{
    match node {
        Node::If { .. } => push_choice(out, number),
        _ => push_argument(out, attributes, node, number),
    }
}

// Appends which part of an if it is.
fn push_choice(out: &mut Vec<u8>, number: usize) -> Result<(), AllocError>
    ensures { OnOk result (out.new.items ≡ out.old.items ++ choice_said number) }
{
    if number == 0 {
        return out.extend_from_slice(b"the condition of an if");
    }
    out.extend_from_slice(b"what is after else, since what is after then is one")
}

// Appends which argument it is.
fn push_argument(
    out: &mut Vec<u8>,
    attributes: &AttributionParts,
    node: &Node,
    number: usize,
) -> Result<(), AllocError>
    requires { number + 1 < 2 ^ 64 }
    ensures { OnOk result (out.new.items ≡ out.old.items ++ argument_said attributes.now node.now number) }
{
    out.extend_from_slice(b"argument ")?;
    push_number(out, number + 1)?;
    out.extend_from_slice(b" of ")?;
    push_caller(out, attributes, node)
}
