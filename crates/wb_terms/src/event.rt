//! What is met in a term, from left to right?
//!
//! The table of `table` makes these of the tokens, and `builder` makes trees of them.

use wb_base::Bytes;

// What is met in a term, from left to right. Places count bytes from the beginning of the text.
#[derive(Debug, Drop)]
pub(crate) enum Event {
    // A name, with which a node begins.
    Begin { name: Bytes, at: usize },
    // A number.
    Int { value: i64, at: usize },
    // A truth value.
    Bool { value: bool, at: usize },
    // A text.
    Text { value: Bytes, at: usize },
    // A node ends.
    End,
}
