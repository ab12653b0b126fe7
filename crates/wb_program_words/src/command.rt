//! What can words ask for?

/// A command with its words. Files and names are as they are written, and no number is out of its range.
#[derive(Clone, Copy)]
pub enum Command<'a> {
    /// `value HOST TERM ATTR`
    Value {
        host: &'a str,
        term: &'a str,
        attribute: &'a str,
    },
    /// `show SPEC`
    Show {
        file: &'a str,
    },
    /// `check HOST`
    Check {
        host: &'a str,
    },
    /// `certify HOST EXT..`
    Certify {
        host: &'a str,
        extensions: &'a [String],
    },
    /// `compose HOST EXT..`
    Compose {
        host: &'a str,
        extensions: &'a [String],
    },
    /// `tree --text FILE HOST EXT..`
    Tree {
        text: &'a str,
        host: &'a str,
        extensions: &'a [String],
    },
    /// `run --text FILE --attr NAME [--steps N] HOST EXT..`; 1,000,000 steps where none are given
    Run {
        text: &'a str,
        attribute: &'a str,
        steps: u64,
        host: &'a str,
        extensions: &'a [String],
    },
    /// `generate --number N --size K --attr NAME HOST EXT..`
    Generate {
        number: u64,
        size: u64,
        attribute: &'a str,
        host: &'a str,
        extensions: &'a [String],
    },
    /// `certificate HOST [EXT]`; one extension or none
    Certificate {
        host: &'a str,
        extensions: &'a [String],
    },
    /// `recheck HOST CERT [EXT CERT]`; an extension and its certificate, or neither
    Recheck {
        host: &'a str,
        certificate: &'a str,
        extension: &'a [String],
    },
    /// `edit --text FILE --edits FILE HOST EXT..`
    Edit {
        text: &'a str,
        edits: &'a str,
        host: &'a str,
        extensions: &'a [String],
    },
    /// `reading --text FILE HOST EXT..`
    Reading {
        text: &'a str,
        host: &'a str,
        extensions: &'a [String],
    },
}
