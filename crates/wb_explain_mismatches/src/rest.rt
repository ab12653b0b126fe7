//! What is said besides: what to paste, what a call is declared with, and which attributes are of the kind that is wanted.
//!
//! All this is help, and nothing is proved of it but that it comes after what was there.

ghost use Rattle.std.specs.Prelude.{OnOk};
ghost use Rattle.wb_explain_mismatches.specs.Inner.Saying.{Grows};

use crate::context::World;
use crate::names::{push_caller, push_kind, push_maker, push_number, push_printed};
use crate::said::Claim;
use crate::step::{Maker, Step};
use std::alloc::{AllocError, Global};
use wb_base::Kind;
use wb_syntax_resolved::{AttributionParts, Child, Direction, Node};

// The most lines of a list.
const MOST: usize = 40;

// Appends what is said besides, after the steps.
pub(crate) fn push_after(
    alloc: Global,
    out: &mut Vec<u8>,
    world: &World<'_>,
    claim: &Claim<'_>,
    steps: &[Step],
) -> Result<(), AllocError>
    ensures { OnOk result (Grows out.old.items out.new.items) }
{
    let text = after_of(alloc, world, claim, steps)?;
    let answer = push_bytes(out, &text);
    drop(text);
    answer
}

// Appends what a call is declared with.
pub(crate) fn push_declared_after(
    alloc: Global,
    out: &mut Vec<u8>,
    world: &World<'_>,
    node: &Node,
) -> Result<(), AllocError>
    ensures { OnOk result (Grows out.old.items out.new.items) }
{
    let text = declared_of(alloc, world, node)?;
    let answer = push_bytes(out, &text);
    drop(text);
    answer
}

// Appends bytes.
fn push_bytes(out: &mut Vec<u8>, bytes: &[u8]) -> Result<(), AllocError>
    ensures { OnOk result (Grows out.old.items out.new.items) }
{
    out.extend_from_slice(bytes)
}

// What is said besides of a kind.
fn after_of(
    alloc: Global,
    world: &World<'_>,
    claim: &Claim<'_>,
    steps: &[Step],
) -> Result<Vec<u8>, AllocError> {
    let mut text = Vec::new(alloc);
    match push_besides(&mut text, world, claim, steps) {
        Ok(()) => Ok(text),
        Err(error) => {
            drop(text);
            Err(error)
        }
    }
}

// Appends that.
fn push_besides(
    out: &mut Vec<u8>,
    world: &World<'_>,
    claim: &Claim<'_>,
    steps: &[Step],
) -> Result<(), AllocError> {
    push_paste(out, world, steps)?;
    push_reads(out, world.attributes, claim)?;
    push_words(out, claim)?;
    match claim.asker {
        Some(node) => push_declared(out, world, node),
        None => push_whole_hint(out),
    }
}

// Appends the steps as one line to paste.
fn push_paste(out: &mut Vec<u8>, world: &World<'_>, steps: &[Step]) -> Result<(), AllocError> {
    if steps.len() == 0 {
        return Ok(());
    }
    out.extend_from_slice(b"\nTo paste, with what is there in the place of the dots:\n\n    ")?;
    'steps: for step in steps {
        push_written(out, world, step.maker)?;
        out.extend_from_slice(b"(")?;
    }
    out.extend_from_slice(b"..")?;
    'closing: for _ in steps {
        out.extend_from_slice(b")")?;
    }
    out.extend_from_slice(b"\n")
}

// Appends what makes one kind of another, as a file writes it: the names of an extension are without its name there.
fn push_written(out: &mut Vec<u8>, world: &World<'_>, maker: Maker) -> Result<(), AllocError> {
    match maker {
        Maker::Production(number) => {
            match world.attributes.productions.as_slice().get(number) {
                Some(it) => out.extend_from_slice(it.name.as_slice()),
                None => Ok(()),
            }
        }
        Maker::Operation(_) => push_maker(
            out,
            &world.attributes.signatures,
            world.operations,
            maker,
        ),
    }
}

// Appends the attributes that are of the kind that is wanted, where a tree is there by a label.
fn push_reads(
    out: &mut Vec<u8>,
    attributes: &AttributionParts,
    claim: &Claim<'_>,
) -> Result<(), AllocError> {
    match (claim.node, claim.found) {
        (Node::Label(_), Kind::Tree(number)) => {
            push_attributes(out, attributes, number, claim.wanted)
        }
        _ => Ok(()),
    }
}

// Appends the synthesized attributes of a nonterminal that are of this kind.
fn push_attributes(
    out: &mut Vec<u8>,
    attributes: &AttributionParts,
    nonterminal: usize,
    kind: Kind,
) -> Result<(), AllocError> {
    let mut count = 0;
    'occurrences: for occurrence in attributes.occurrences.as_slice() {
        if occurrence.nonterminal == nonterminal
            && count < MOST
            && is_read_as(attributes, occurrence.attribute, kind)
        {
            push_attribute(out, attributes, occurrence.attribute, count)?;
            count = count.saturating_add(1);
        }
    }
    Ok(())
}

// Whether an attribute is synthesized and of this kind.
fn is_read_as(attributes: &AttributionParts, number: usize, kind: Kind) -> bool {
    match attributes.attributes.as_slice().get(number) {
        Some(it) => matches!(it.direction, Direction::Synthesized) && it.kind == kind,
        None => false,
    }
}

// Appends an attribute, after a heading where it is the first.
fn push_attribute(
    out: &mut Vec<u8>,
    attributes: &AttributionParts,
    number: usize,
    count: usize,
) -> Result<(), AllocError> {
    if count == 0 {
        out.extend_from_slice(
            b"\nIf an attribute of it is meant, these are of the kind that is wanted:\n\n",
        )?;
    }
    let Some(it) = attributes.attributes.as_slice().get(number) else {
        return Ok(());
    };
    out.extend_from_slice(b"    .")?;
    push_printed(
        out,
        attributes.extensions.as_slice(),
        it.owner,
        it.name.as_slice(),
    )?;
    out.extend_from_slice(b"\n")
}

// Appends how the text of a word is written, where a text is wanted.
fn push_words(out: &mut Vec<u8>, claim: &Claim<'_>) -> Result<(), AllocError> {
    match claim.wanted {
        Kind::Text => out.extend_from_slice(
            b"\nA text is written in quotes, or it is that of a word: LABEL.lexeme, where LABEL is a\nchild that is a word.\n",
        ),
        _ => Ok(()),
    }
}

// Appends what the value of an equation has to be.
fn push_whole_hint(out: &mut Vec<u8>) -> Result<(), AllocError> {
    out.extend_from_slice(
        b"\nThe value of an equation is of the kind with which its attribute is declared. That\nof a local is a tree of the nonterminal that the local is declared with, and what\nis forwarded to is a tree of the production's left side.\n",
    )
}

// What a node that calls something is declared with.
fn declared_of(alloc: Global, world: &World<'_>, node: &Node) -> Result<Vec<u8>, AllocError> {
    let mut text = Vec::new(alloc);
    match push_declared(&mut text, world, node) {
        Ok(()) => Ok(text),
        Err(error) => {
            drop(text);
            Err(error)
        }
    }
}

// Appends that.
fn push_declared(out: &mut Vec<u8>, world: &World<'_>, node: &Node) -> Result<(), AllocError> {
    match node {
        Node::Build { production, .. } => {
            push_heading(out, world.attributes, node)?;
            push_children(out, world.attributes, *production)
        }
        Node::Call { operation, .. } => {
            push_heading(out, world.attributes, node)?;
            push_arguments(out, world, operation.as_slice())
        }
        _ => Ok(()),
    }
}

// Appends the first line of it.
fn push_heading(
    out: &mut Vec<u8>,
    attributes: &AttributionParts,
    node: &Node,
) -> Result<(), AllocError> {
    out.extend_from_slice(b"\nThe arguments of ")?;
    push_caller(out, attributes, node)?;
    out.extend_from_slice(b":\n\n")
}

// Appends a line for each child of a production.
fn push_children(
    out: &mut Vec<u8>,
    attributes: &AttributionParts,
    production: usize,
) -> Result<(), AllocError> {
    if production >= attributes.signatures.len() {
        return Ok(());
    }
    let kinds = attributes.signatures.children(production);
    let labels = children_of(attributes, production);
    let mut number = 0;
    'kinds: for &kind in kinds {
        if number < MOST {
            push_line(out, attributes, number, label_at(labels, number), kind)?;
        }
        number = number.saturating_add(1);
    }
    push_more(out, number)
}

// The children of a production.
fn children_of(attributes: &AttributionParts, production: usize) -> &[Child] {
    match attributes.productions.as_slice().get(production) {
        Some(it) => it.children.as_slice(),
        None => &[],
    }
}

// The label of a child.
fn label_at(children: &[Child], number: usize) -> &[u8] {
    match children.get(number) {
        Some(child) => child.label.as_slice(),
        None => b"",
    }
}

// Appends a line for each argument of an operation.
fn push_arguments(out: &mut Vec<u8>, world: &World<'_>, name: &[u8]) -> Result<(), AllocError> {
    let Some(operation) = world.operations.find(name) else {
        return Ok(());
    };
    let mut number = 0;
    'kinds: for &kind in world.operations.takes(operation) {
        if number < MOST {
            push_line(out, world.attributes, number, b"", kind)?;
        }
        number = number.saturating_add(1);
    }
    push_more(out, number)
}

// Appends a line for an argument: its number, from 1 on, its label, and its kind.
fn push_line(
    out: &mut Vec<u8>,
    attributes: &AttributionParts,
    number: usize,
    label: &[u8],
    kind: Kind,
) -> Result<(), AllocError> {
    out.extend_from_slice(b"    ")?;
    push_number(out, number.saturating_add(1))?;
    out.extend_from_slice(b": ")?;
    if label.len() > 0 {
        out.extend_from_slice(label)?;
        out.extend_from_slice(b", ")?;
    }
    push_kind(out, attributes, kind)?;
    out.extend_from_slice(b"\n")
}

// Appends how many lines are left out, or that there are none.
fn push_more(out: &mut Vec<u8>, count: usize) -> Result<(), AllocError> {
    if count == 0 {
        return out.extend_from_slice(b"    none\n");
    }
    if count <= MOST {
        return Ok(());
    }
    out.extend_from_slice(b"    and ")?;
    push_number(out, count - MOST)?;
    out.extend_from_slice(b" more\n")
}
