//! Why is a host, or an extension, refused for its grammar or its scanner?
//!
//! Terminals, layout, nonterminals and productions have the numbers of the resolved specification. In prefixes, in conflicts, in items
//! and where an item's lookahead is shown, they have those of the grammar with holes.

use std::alloc::AllocError;
use wb_base::{Bytes, Sequence, Symbol};
use wb_determinism_contexts::PartsRefusal;
use wb_grammar::Reason;
use wb_items::Item;
use wb_lookahead::Action;
use wb_marking::MarkRefusal;

/// Why it is refused: the first of this list that holds, each with an example. Which of several examples is shown is left open.
pub enum DeterminismRefusal {
    /// E1 to E4: the markers of the extension are refused for this reason. G6 comes before E4.
    Markers(MarkRefusal),
    /// G6: each of these terminals is preferred to the next, and the last to the first.
    PreferenceCycle(Sequence<usize>),
    /// G1: a nonterminal is not reachable or derives no text.
    NotReduced(Reason),
    /// G2: nonterminals each of which derives the next alone, and the last the first, in one or more steps. Each is there once.
    UnitCycle(Sequence<usize>),
    /// G3: nonterminals each the left side of a production with the next in it, and the last with the first, after symbols that
    /// derive the empty text; at one place these symbols are at least one. Each is there once.
    HiddenLeftRecursion(Sequence<usize>),
    /// G4: at the prefix, on the terminal or the end of a text, both actions can be taken. A shift comes before reductions, these by
    /// production, and accepting last.
    Conflict {
        prefix: Sequence<Symbol>,
        terminal: usize,
        first: Action,
        second: Action,
    },
    /// G5: two terminals that are considered at the prefix match the text, and no preference orders them. The lesser is first.
    Clash {
        prefix: Sequence<Symbol>,
        left: usize,
        right: usize,
        text: Bytes,
    },
    /// E5: at the prefix the extension adds this terminal to the lookaheads of the host's item.
    Lookahead {
        prefix: Sequence<Symbol>,
        item: Item,
        terminal: usize,
    },
    /// E6: at the prefix the extension makes a kernel of host's items that goes beyond what the host allows.
    Envelope {
        prefix: Sequence<Symbol>,
        fault: EnvelopeFault,
    },
    /// Out of memory, or a number is too large for a table.
    NoMemory(AllocError),
}

/// How a kernel of host's items that an extension makes goes beyond what the host allows.
pub enum EnvelopeFault {
    /// This terminal is a lookahead of the item.
    Lookahead {
        item: Item,
        terminal: usize,
    },
    /// Both actions can be taken on the terminal.
    Conflict {
        terminal: usize,
        first: Action,
        second: Action,
    },
    /// The two match the text, and no preference orders them.
    Clash {
        left: usize,
        right: usize,
        text: Bytes,
    },
}

impl From<AllocError> for DeterminismRefusal {
    ghost use Rattle.std.specs.Prelude.{◌≡◌};
    ghost use Rattle.wb_determinism_host.specs.declared.refusal.DeterminismRefusal.TheVariants.{NoMemory};

    ghost from_gives = { λ error refusal. refusal ≡ NoMemory error };

    fn from(error: AllocError) -> Self {
        DeterminismRefusal::NoMemory(error)
    }
}

impl Drop for DeterminismRefusal {
    fn drop(self) {
        match self {
            DeterminismRefusal::Markers(refusal) => drop(refusal),
            DeterminismRefusal::PreferenceCycle(cycle) => drop(cycle),
            DeterminismRefusal::NotReduced(_) => {}
            DeterminismRefusal::UnitCycle(cycle) => drop(cycle),
            DeterminismRefusal::HiddenLeftRecursion(cycle) => drop(cycle),
            DeterminismRefusal::Conflict {
                prefix,
                terminal: _,
                first: _,
                second: _,
            } => drop(prefix),
            DeterminismRefusal::Clash {
                prefix,
                left: _,
                right: _,
                text,
            } => {
                drop(prefix);
                drop(text);
            }
            DeterminismRefusal::Lookahead {
                prefix,
                item: _,
                terminal: _,
            } => drop(prefix),
            DeterminismRefusal::Envelope { prefix, fault } => {
                drop(prefix);
                drop(fault);
            }
            DeterminismRefusal::NoMemory(_) => {}
        }
    }
}

impl Drop for EnvelopeFault {
    fn drop(self) {
        match self {
            EnvelopeFault::Lookahead {
                item: _,
                terminal: _,
            } => {}
            EnvelopeFault::Conflict {
                terminal: _,
                first: _,
                second: _,
            } => {}
            EnvelopeFault::Clash {
                left: _,
                right: _,
                text,
            } => drop(text),
        }
    }
}
