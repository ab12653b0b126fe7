//! Which flow type has to have an inherited attribute more, as a line to paste?

use std::alloc::{AllocError, Global};
use wb_explain_flows_lists::names::{own_attribute, own_nonterminal};
use wb_explain_flows_lists::told::Told;
use wb_explain_flows_lists::writing::push_text;

// The line of a flow type with an attribute more: that of an attribute on a nonterminal, or that of the nonterminal's forward.
pub(crate) fn needs_line(
    alloc: Global,
    told: &Told<'_>,
    attribute: Option<usize>,
    nonterminal: usize,
    inherited: usize,
) -> Result<Vec<u8>, AllocError> {
    let mut line = Vec::new(alloc);
    match push_paste(&mut line, told, attribute, nonterminal, inherited) {
        Ok(()) => Ok(line),
        Err(error) => {
            drop(line);
            Err(error)
        }
    }
}

// Appends it, after what it stands for.
fn push_paste(
    out: &mut Vec<u8>,
    told: &Told<'_>,
    attribute: Option<usize>,
    nonterminal: usize,
    inherited: usize,
) -> Result<(), AllocError> {
    push_head(out, told, attribute)?;
    push_text(out, "    ")?;
    push_line(out, told, attribute, nonterminal, inherited)?;
    push_text(out, "\n")
}

// Appends what the line is for.
fn push_head(
    out: &mut Vec<u8>,
    told: &Told<'_>,
    attribute: Option<usize>,
) -> Result<(), AllocError> {
    if attribute.is_some() {
        return push_text(
            out,
            "\nTo paste, in the place of what declares this  occurs , if it may need that:\n\n",
        );
    }
    if told.source.host.is_some() {
        return push_text(
            out,
            "\nTo paste into the host, for its  forward on , if it may need that:\n\n",
        );
    }
    push_text(
        out,
        "\nTo paste, for its  forward on , if it may need that:\n\n",
    )
}

// Appends the line without an end.
pub(crate) fn push_line(
    out: &mut Vec<u8>,
    told: &Told<'_>,
    attribute: Option<usize>,
    nonterminal: usize,
    inherited: usize,
) -> Result<(), AllocError> {
    match attribute {
        Some(number) => {
            push_text(out, "occurs ")?;
            out.extend_from_slice(own_attribute(told.scope.attributes, number))?;
        }
        None => push_text(out, "forward")?,
    }
    push_text(out, " on ")?;
    out.extend_from_slice(own_nonterminal(told.scope.attributes, nonterminal))?;
    push_text(out, " needs { ")?;
    push_listed(out, told, attribute, nonterminal)?;
    out.extend_from_slice(own_attribute(told.scope.attributes, inherited))?;
    push_text(out, " };")
}

// Appends what the flow type has.
fn push_listed(
    out: &mut Vec<u8>,
    told: &Told<'_>,
    attribute: Option<usize>,
    nonterminal: usize,
) -> Result<(), AllocError> {
    match attribute {
        Some(number) => push_occurrence(out, told, number, nonterminal),
        None => push_names(out, told, told.scope.forward_needs(nonterminal)),
    }
}

// Appends what the flow type of an attribute has.
fn push_occurrence(
    out: &mut Vec<u8>,
    told: &Told<'_>,
    attribute: usize,
    nonterminal: usize,
) -> Result<(), AllocError> {
    'occurrences: for occurrence in told.scope.attributes.occurrences.as_slice() {
        if occurrence.attribute == attribute && occurrence.nonterminal == nonterminal {
            return push_names(out, told, occurrence.needs.as_slice());
        }
    }
    Ok(())
}

// Appends attributes, each with a comma.
fn push_names(out: &mut Vec<u8>, told: &Told<'_>, attributes: &[usize]) -> Result<(), AllocError> {
    'attributes: for &attribute in attributes {
        out.extend_from_slice(own_attribute(told.scope.attributes, attribute))?;
        push_text(out, ", ")?;
    }
    Ok(())
}
