//! Why are the markers of an extension refused?
//!
//! Terminals, layout and productions have the numbers of the resolved specification.

use std::alloc::AllocError;
use wb_base::Bytes;

/// Why they are refused: the first of this list that holds, with an example. Which of several examples is shown is left open.
#[derive(Drop)]
pub enum MarkRefusal {
    /// E1: this production of the extension is on a host's nonterminal and doesn't begin with one of its markers.
    NotBridge(usize),
    /// E2: this marker doesn't begin exactly one production on a host's nonterminal, or occurs elsewhere.
    MarkerElsewhere(usize),
    /// E3: this production begins with a marker, and its left side isn't extensible.
    NotExtensible(usize),
    /// E4: the marker and the other terminal match the text, and no preference orders them. Of two markers the lesser is first.
    MarkerClash {
        marker: usize,
        other: usize,
        text: Bytes,
    },
    /// Out of memory.
    NoMemory(AllocError),
}

impl From<AllocError> for MarkRefusal {
    ghost use Rattle.std.specs.Prelude.{◌≡◌};
    ghost use Rattle.wb_marking.specs.declared.refusal.MarkRefusal.TheVariants.{NoMemory};

    ghost from_gives = { λ error refusal. refusal ≡ NoMemory error };

    fn from(error: AllocError) -> Self {
        MarkRefusal::NoMemory(error)
    }
}
