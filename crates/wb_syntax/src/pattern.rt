//! What is kept of a regular expression before it is read, and after?
//!
//! Its bytes both times, since it is printed as it is written.

use wb_base::Bytes;
use wb_regex::Regex;

/// A regular expression as it is written, not read yet.
#[derive(Drop)]
pub struct WrittenPattern {
    /// The bytes between the slashes.
    pub bytes: Bytes,
    /// The place of the slash before them.
    pub at: usize,
}

/// A regular expression as it is written, with what it says.
pub struct Pattern {
    /// The bytes between the slashes.
    pub bytes: Bytes,
    /// What they say.
    pub regex: Regex,
}

impl Drop for Pattern {
    fn drop(self) {
        let Pattern { bytes, regex } = self;
        drop(bytes);
        drop(regex);
    }
}

/// What a regular expression of an item is for.
#[derive(Clone, Copy, Debug, PartialEq, Eq)]
pub enum Role {
    /// A terminal.
    Terminal,
    /// Layout.
    Ignore,
    /// A marking terminal.
    Marking,
}
