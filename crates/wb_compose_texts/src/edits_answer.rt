//! What becomes of a text by a list of edits?

use wb_base::Sequence;

/// What becomes of a text by a list of edits, as a report shows it.
#[derive(Drop)]
pub enum EditsAnswer {
    /// All are done, and these are the lines of the text and of the texts after each edit.
    Lines(Sequence<u8>),
    /// All are done, and the lines have more than 16,777,216 bytes together.
    TooLong,
    /// This edit, counted from 1, is the first that isn't done: it is out of the range of the text that it meets.
    OutOfRange(usize),
    /// Likewise, and it would make the text longer than 1,048,576 bytes.
    TextTooLong(usize),
}
