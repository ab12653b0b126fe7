//! Why is a term not read, and why a value not printed?
//!
//! Places count bytes from the beginning of the text; which cause comes first is said at `TermRefusal`.

use std::alloc::AllocError;

/// Why a text isn't read as a term. Where several reasons hold, the first of this list. Places count bytes from the beginning
/// of the text.
#[derive(Debug, Drop)]
pub enum TermRefusal {
    /// The text isn't a term: at this place is the first token that can't follow those before it, the first bytes that no token
    /// begins, or the end of a text that ends too early.
    Bad(usize),
    /// The name at this place is that of no production. It is the first such name.
    Unknown(usize),
    /// The node whose name is at this place has a wrong number of children, or the child at this place is of a wrong kind. It is
    /// the first such place.
    WrongChild(usize),
    /// Out of memory.
    NoMemory(AllocError),
}

impl From<AllocError> for TermRefusal {
    ghost use Rattle.std.specs.Prelude.{◌≡◌};
    ghost use Rattle.wb_terms.specs.declared.refusal.TermRefusal.TheVariants.{NoMemory};

    ghost from_gives = { λ error refusal. refusal ≡ NoMemory error };

    fn from(error: AllocError) -> Self {
        TermRefusal::NoMemory(error)
    }
}

/// Why a value isn't printed.
#[derive(Debug, Drop)]
pub enum PrintRefusal {
    /// The text has more than 16,777,216 bytes.
    TooLong,
    /// Out of memory.
    NoMemory(AllocError),
}

impl From<AllocError> for PrintRefusal {
    ghost use Rattle.std.specs.Prelude.{◌≡◌};
    ghost use Rattle.wb_terms.specs.declared.refusal.PrintRefusal.TheVariants.{NoMemory};

    ghost from_gives = { λ error refusal. refusal ≡ NoMemory error };

    fn from(error: AllocError) -> Self {
        PrintRefusal::NoMemory(error)
    }
}
