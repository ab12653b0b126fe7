//! In which further lines is a name, whose first places are shown?

use itoa::Buffer;
use std::alloc::AllocError;
use wb_explain_places::next_use;

// The most lines that are listed.
const LINES: usize = 40;

// Appends the numbers of the lines from a place on in which the name is a word of its own, but for the line of that place; nothing where
// there are none.
pub(crate) fn push_further(
    out: &mut Vec<u8>,
    contents: &[u8],
    name: &[u8],
    from: usize,
) -> Result<(), AllocError> {
    if from > contents.len() {
        return Ok(());
    }
    let mut at = from;
    let mut line = line_feeds(&contents[..from]).saturating_add(1);
    let mut listed = 0;
    'lines: while listed < LINES {
        let Some(place) = next_use(contents, name, at) else {
            return ended(out, listed);
        };
        let passed = line_feeds(&contents[at..place]);
        if passed > 0 {
            line = line.saturating_add(passed);
            push_line_number(out, listed, line)?;
            listed += 1;
        }
        at = place + 1;
    }
    out.extend_from_slice(b", ..\n")
}

// Appends the end of the list, where something is listed.
fn ended(out: &mut Vec<u8>, listed: usize) -> Result<(), AllocError> {
    if listed == 0 {
        return Ok(());
    }
    out.extend_from_slice(b"\n")
}

// Appends the number of a line, after those that are listed.
fn push_line_number(out: &mut Vec<u8>, listed: usize, line: usize) -> Result<(), AllocError> {
    if listed == 0 {
        out.extend_from_slice(b"\nMore lines with it: ")?;
    } else {
        out.extend_from_slice(b", ")?;
    }
    let mut buffer = Buffer::new();
    out.extend_from_slice(buffer.format(line).as_bytes())
}

// How many line feeds there are.
fn line_feeds(bytes: &[u8]) -> usize {
    let mut count: usize = 0;
    for byte in bytes {
        if *byte == b'\n' {
            count = count.saturating_add(1);
        }
    }
    count
}
