//! What does a certificate's text say?

use wb_base::{Bytes, Sequence};
use wb_recheck_theory::{Entry, Line};

/// Whose certificate it is.
#[derive(Drop)]
pub enum Head {
    /// That of a host of this name.
    Host(Bytes),
    /// That of an extension of the first name for a host of the second.
    Extension(Bytes, Bytes),
}

/// A certificate as its text has it: numbers may be out of range, and nothing need follow from anything.
pub struct Certificate {
    pub head: Head,
    pub lines: Sequence<Line>,
    pub entries: Sequence<Entry>,
}

impl Drop for Certificate {
    fn drop(self) {
        let Certificate {
            head,
            lines,
            entries,
        } = self;
        drop(head);
        drop(lines);
        drop(entries);
    }
}
