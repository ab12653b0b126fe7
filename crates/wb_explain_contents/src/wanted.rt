//! Which files are looked into, and for what?
//!
//! For a refusal the file that is refused, beside its host; for a text that one, beside the host and the extensions.

use crate::asked::{Named, named_by};
use wb_explain_lines::{Refused, other_host_of, refused_of};

// What is looked into.
#[derive(Clone, Copy)]
pub(crate) struct Wanted<'r> {
    // What the words name.
    pub(crate) named: Named<'r>,
    // The number of the status.
    pub(crate) status: u8,
    // The refusal, where a file is refused.
    pub(crate) refused: Option<Refused<'r>>,
    // The extensions that are read beside the host.
    pub(crate) extensions: &'r [String],
    // The file that is read last: the one that is refused, or the text.
    pub(crate) last: &'r str,
}

// What there is to look into for a run, from its words, the number of its status and its lines.
pub(crate) fn wanted_of<'r>(
    words: &'r [String],
    status: u8,
    lines: &'r [u8],
) -> Option<Wanted<'r>> {
    let named = named_by(words)?;
    if status == 3 || status == 4 || status == 18 {
        return Some(for_refusal(named, words, status, refused_of(lines, words)?));
    }
    if status == 16 {
        return Some(for_refusal(named, words, status, other_host(lines, words)?));
    }
    if status == 5 || status == 6 || status == 7 || status == 17 {
        return Some(for_text(named, status));
    }
    None
}

// An extension for another host, as a refusal with a code of its own; what is left of its line is the name of that host.
fn other_host<'r>(lines: &'r [u8], words: &'r [String]) -> Option<Refused<'r>> {
    let (file, host) = other_host_of(lines, words)?;
    Some(Refused {
        file,
        code: b"N5",
        rest: host,
    })
}

// What there is to look into for a file that is refused.
fn for_refusal<'r>(
    named: Named<'r>,
    words: &'r [String],
    status: u8,
    refused: Refused<'r>,
) -> Wanted<'r> {
    Wanted {
        named,
        status,
        refused: Some(refused),
        extensions: &words[..0],
        last: refused.file,
    }
}

// What there is to look into for a text.
fn for_text(named: Named<'_>, status: u8) -> Wanted<'_> {
    Wanted {
        named,
        status,
        refused: None,
        extensions: named.extensions,
        last: named.text,
    }
}
