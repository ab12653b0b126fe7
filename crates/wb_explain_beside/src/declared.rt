//! Where is a production declared in a file?

ghost use Rattle.std.specs.Prelude.{◌<◌, length, IfSome};

use std::alloc::{AllocError, Global};
use wb_explain_places::{Source, next_use, push_place};

// The lines that show where the production of this name is declared, after an empty one; none where it isn't found.
pub(crate) fn place_of(
    alloc: Global,
    source: &Source<'_>,
    name: &[u8],
) -> Result<Vec<u8>, AllocError> {
    let mut text = Vec::new(alloc);
    if let Some(at) = declared_at(source.contents, name) {
        text.extend_from_slice(b"\n")?;
        push_place(&mut text, source.file.as_bytes(), source.contents, at)?;
    }
    Ok(text)
}

// The place of the name after the word `concrete`.
fn declared_at(text: &[u8], name: &[u8]) -> Option<usize>
    ensures { IfSome result (λ at. at < length text.now) }
{
    let mut from: usize = 0;
    'uses: for _ in 0..text.len() {
        match next_use(text, name, from) {
            Some(at) => {
                if is_declared(&text[..at]) {
                    return Some(at);
                }
                from = at.saturating_add(1);
            }
            None => return None,
        }
    }
    None
}

// Whether this ends in the word `concrete` and blanks.
fn is_declared(before: &[u8]) -> bool {
    let mut end = before.len();
    while end > 0 && is_blank(before[end - 1]) {
        end -= 1;
    }
    match next_use(&before[..end], b"concrete", end.saturating_sub(8)) {
        Some(at) => at.saturating_add(8) == end,
        None => false,
    }
}

// Whether the byte is a space, a tab or the end of a line.
fn is_blank(byte: u8) -> bool {
    byte == b' ' || byte == b'\n' || byte == b'\t' || byte == b'\r'
}
