//! Why a grammar is refused, as `analyse` finds it; each reason has a true example. What the words mean is in `wb_grammar_theory`.

use std::alloc::AllocError;
use wb_base::Sequence;

/// Why a grammar isn't reduced.
#[derive(Debug, Drop)]
pub enum Reason {
    /// G1: the start derives no symbols among which this nonterminal is.
    Unreachable(usize),
    /// G1: this nonterminal derives no text of terminals.
    Unproductive(usize),
}

/// Why a grammar is refused: the first of this list that holds. Which of several examples is shown is left open.
#[derive(Drop)]
pub enum GrammarRefusal {
    /// G1: some nonterminal is not reachable or derives no text.
    NotReduced(Reason),
    /// G2: nonterminals each of which derives the next alone, and the last the first, in one or more steps. Each is there once.
    UnitCycle(Sequence<usize>),
    /// G3: nonterminals each the left side of a production with the next in it, and the last with the first, after symbols that
    /// derive the empty text; at one place these symbols are at least one. Each is there once.
    HiddenLeftRecursion(Sequence<usize>),
    /// Out of memory.
    NoMemory(AllocError),
}

impl From<AllocError> for GrammarRefusal {
    ghost use Rattle.std.specs.Prelude.{◌≡◌};
    ghost use Rattle.wb_grammar.specs.declared.refusal.GrammarRefusal.TheVariants.{NoMemory};

    ghost from_gives = { λ error refusal. refusal ≡ NoMemory error };

    fn from(error: AllocError) -> Self {
        GrammarRefusal::NoMemory(error)
    }
}
