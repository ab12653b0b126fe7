//! Why are bytes refused as a specification?
//!
//! The causes have one order, and the first that holds is the refusal. When each holds is in `specs/Refusals.antt`.

use std::alloc::AllocError;
use wb_base::Bytes;

/// Why bytes are refused as a specification. Offsets count bytes from the beginning of the file.
#[derive(Debug, Drop)]
pub enum SpecRefusal {
    /// S2: there are more than 1,048,576 bytes.
    TooLong,
    /// S3: they begin with `format`, an integer other than 1 and 2, and `;`.
    WrongFormat,
    /// S1: at this offset stands the first token that can't follow those before it in any specification, or bytes that no token
    /// begins. Where the file ends too early, the offset is its length.
    Syntax(usize),
    /// R1: the first regular expression that isn't taken is none. At this offset stands the first symbol of it that can't follow
    /// those before it, or the slash after it where it ends too early.
    BadRegex(usize),
    /// R2: the first regular expression that isn't taken matches the empty text. It is that of the terminal, layout or marking
    /// terminal of this name.
    MatchesEmpty(Bytes),
    /// Out of memory.
    NoMemory(AllocError),
}

impl From<AllocError> for SpecRefusal {
    ghost use Rattle.std.specs.Prelude.{◌≡◌};
    ghost use Rattle.wb_reader.specs.declared.refusal.SpecRefusal.TheVariants.{NoMemory};

    ghost from_gives = { λ error refusal. refusal ≡ NoMemory error };

    fn from(error: AllocError) -> Self {
        SpecRefusal::NoMemory(error)
    }
}

impl SpecRefusal {
    /// Lets go of the refusal. A crate that calls this proves no drop of what it holds.
    pub fn release(self) {}
}
