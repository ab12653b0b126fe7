//! Which lines show a node of an expression in its file?

use crate::expected::Expected;
use crate::layout::node_place;
use std::alloc::{AllocError, Global};
use wb_explain_places::{Source, push_place};

// The lines that show the node at a place, and a heading.
pub(crate) fn before_of(
    alloc: Global,
    source: &Source<'_>,
    expected: &Expected<'_>,
    at: usize,
    heading: &[u8],
) -> Result<Vec<u8>, AllocError> {
    let mut text = Vec::new(alloc);
    match push_before(alloc, &mut text, source, expected, at, heading) {
        Ok(()) => Ok(text),
        Err(error) => {
            drop(text);
            Err(error)
        }
    }
}

// Appends those lines.
fn push_before(
    alloc: Global,
    out: &mut Vec<u8>,
    source: &Source<'_>,
    expected: &Expected<'_>,
    at: usize,
    heading: &[u8],
) -> Result<(), AllocError> {
    let place = node_place(alloc, source.contents, expected.offset, expected.nodes, at)?;
    if place <= source.contents.len() {
        out.extend_from_slice(b"\n")?;
        push_place(out, source.file.as_bytes(), source.contents, place)?;
    }
    out.extend_from_slice(heading)
}
