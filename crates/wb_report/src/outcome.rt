//! What does a command come to?

use crate::{Done, Refusal, ShownStop};
use wb_base::Bytes;

/// What a command comes to, with what its report shows. A file is named by its word of the command line.
#[derive(Drop)]
pub enum Outcome {
    /// It comes to its end.
    Done(Done),
    /// A file is refused.
    Refused { file: Bytes, refusal: Refusal },
    /// A text stops at a place, in bytes from its beginning.
    Stopped { at: usize, stop: ShownStop },
    /// An operation has no result.
    Fault { operation: Bytes, code: u32 },
    /// More than so many steps are needed.
    MoreSteps(u64),
    /// A text or term is too long.
    TextTooLong,
    /// A value or tree is too long to print.
    TooLongToPrint,
    /// Too many extensions are named.
    TooManyExtensions,
    /// Two extensions have this name.
    DuplicateExtension(Bytes),
    /// An extension is for another host.
    WrongHost { file: Bytes, host: Bytes },
    /// The attribute can't be asked for at the root.
    UnknownAttribute(Bytes),
    /// No sentence has so few leaves; the least has so many.
    NoSentence { size: u64, least: u64 },
}

impl Outcome {
    /// Lets go of the outcome. A crate that calls this proves no drop of what it holds.
    pub fn release(self) {}
}
