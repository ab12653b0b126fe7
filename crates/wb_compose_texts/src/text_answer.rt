//! What is a text in a language that is composed?

use wb_base::Sequence;
use wb_report::ShownStop;

/// What a text is in the language of a host with extensions, as a report shows it.
#[derive(Drop)]
pub enum TextAnswer {
    /// It has a tree, which is printed so.
    Tree(Sequence<u8>),
    /// It stops at this place, counted in bytes from 0 on, after the layout that is skipped there.
    Stopped { at: usize, stop: ShownStop },
    /// It has a tree whose printed text is longer than 16,777,216 bytes.
    TooLong,
}
