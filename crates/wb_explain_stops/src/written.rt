//! How does a file write a terminal? Its declaration is looked for as text: the name, and an expression after it.
//!
//! A comment that looks like one is taken for it.

ghost use Rattle.std.specs.Prelude.{◌≤◌, length};

use wb_base::Bytes;
use wb_explain_places::next_use;

// The most uses of a name that are looked at.
const USES: usize = 1_000;

// The expression of a terminal with this printed name, with its slashes. That of an extension's is looked for by the name after the colon, in
// the files after the host's.
pub(crate) fn expression_of<'a>(files: &'a [Bytes], name: &[u8]) -> Option<&'a [u8]> {
    let own = own_name(name);
    'files: for place in first_file(name)..files.len() {
        let file = files[place].as_slice();
        if let Some(found) = expression_in(file, own) {
            return Some(found);
        }
    }
    None
}

// The place of the first file that may declare it: that of the host, or the one after it where an extension's name is before the name.
fn first_file(name: &[u8]) -> usize {
    if colon_in(name) < name.len() { 1 } else { 0 }
}

// The name without an extension's before it.
fn own_name(name: &[u8]) -> &[u8] {
    let colon = colon_in(name);
    if colon < name.len() {
        return &name[colon + 1..];
    }
    name
}

// The place of the first colon, or the length.
pub(crate) fn colon_in(name: &[u8]) -> usize
    ensures { result ≤ length name.now }
{
    'bytes: for place in 0..name.len() {
        if name[place] == b':' {
            return place;
        }
    }
    name.len()
}

// The expression that a file declares for a name.
fn expression_in<'a>(file: &'a [u8], name: &[u8]) -> Option<&'a [u8]> {
    let mut from = 0;
    'uses: for _ in 0..USES {
        let Some(at) = next_use(file, name, from) else {
            return None;
        };
        let begin = skipped(file, at.saturating_add(name.len()));
        if let Some(found) = expression_at(file, begin) {
            return Some(found);
        }
        from = at.saturating_add(1);
    }
    None
}

// The expression that begins at a place.
fn expression_at(file: &[u8], begin: usize) -> Option<&[u8]> {
    if begin >= file.len() || file[begin] != b'/' {
        return None;
    }
    let end = after_expression(file, begin);
    if begin <= end && end <= file.len() {
        return Some(&file[begin..end]);
    }
    None
}

// The place after spaces.
fn skipped(file: &[u8], from: usize) -> usize {
    'bytes: for at in from..file.len() {
        if file[at] != b' ' && file[at] != b'\t' {
            return at;
        }
    }
    file.len()
}

// The place after an expression that begins at a slash, or the end of its line.
fn after_expression(file: &[u8], begin: usize) -> usize {
    let mut is_escaped = false;
    'bytes: for at in begin.saturating_add(1)..file.len() {
        let byte = file[at];
        if byte == b'\n' {
            return at;
        }
        if byte == b'/' && !is_escaped {
            return at.saturating_add(1);
        }
        is_escaped = byte == b'\\' && !is_escaped;
    }
    file.len()
}
