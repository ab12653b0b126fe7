//! What `generate` answers.

use wb_base::Bytes;

/// A text with its number of leaves, or that each text has too many.
#[derive(Drop)]
pub enum Generated {
    /// This text, made of so many leaves.
    Text { text: Bytes, leaves: u64 },
    /// Each text has more leaves: so many at the least, or 100,001 where they are more.
    NoSentence(u64),
}
