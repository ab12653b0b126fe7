//! Why is there no language of a grammar?

use std::alloc::AllocError;
use wb_base::{Bytes, Sequence, Symbol};
use wb_lookahead::Action;

/// Why there is no language of a grammar: the first of this list that holds. Which of several examples is shown is left open.
#[derive(Drop)]
pub enum LanguageRefusal {
    /// Each of these terminals is preferred to the next, and the last to the first.
    Cycle(Sequence<usize>),
    /// At the prefix, on the terminal or the end of a text, both actions can be taken. A shift comes before reductions, these by
    /// production, and accepting last.
    Conflict {
        prefix: Sequence<Symbol>,
        terminal: usize,
        first: Action,
        second: Action,
    },
    /// Two terminals that are considered at the prefix match the text, and no preference orders them. The lesser is first.
    Clash {
        prefix: Sequence<Symbol>,
        left: usize,
        right: usize,
        text: Bytes,
    },
    /// Out of memory, or a number is too large for a table.
    NoMemory(AllocError),
}

impl From<AllocError> for LanguageRefusal {
    ghost use Rattle.std.specs.Prelude.{◌≡◌};
    ghost use Rattle.wb_scan.specs.declared.refusal.LanguageRefusal.TheVariants.{NoMemory};

    ghost from_gives = { λ error refusal. refusal ≡ NoMemory error };

    fn from(error: AllocError) -> Self {
        LanguageRefusal::NoMemory(error)
    }
}
