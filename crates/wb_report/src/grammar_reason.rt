//! Reports why a file is refused: its grammar or scanner isn't deterministic.

ghost use Rattle.std.specs.Prelude.{◌≡◌, ◌++◌, OnOk};
ghost use Rattle.wb_report.specs.Reasons.{grammar_text};

use crate::ShownConflict;
use crate::pieces::{push_conflict, push_name, push_names, push_share};
use std::alloc::AllocError;
use wb_base::{Bytes, Sequence};

/// Why a host, or an extension with its host, is refused for its grammar or its preferences.
#[derive(Drop)]
pub enum GrammarReason {
    /// G6: each of these terminals is preferred to the next, and the last to the first.
    PreferenceCycle(Sequence<Bytes>),
    /// G1: there is no start.
    NoStart,
    /// G1: this nonterminal isn't reachable.
    Unreachable(Bytes),
    /// G1: this nonterminal derives no text.
    Unproductive(Bytes),
    /// G2: each of these nonterminals derives the next alone, and the last the first.
    UnitCycle(Sequence<Bytes>),
    /// G3: each of these nonterminals leads to the next by hidden left recursion, and the last to the first.
    HiddenLeftRecursion(Sequence<Bytes>),
    /// G4: at the prefix two actions are possible.
    Conflict {
        prefix: Sequence<Bytes>,
        conflict: ShownConflict,
    },
    /// G5: at the prefix two terminals match the text.
    Clash {
        prefix: Sequence<Bytes>,
        left: Bytes,
        right: Bytes,
        text: Bytes,
    },
}

// Appends why a file is refused for its grammar or its preferences.
pub(crate) fn push_grammar_reason(
    out: &mut Vec<u8>,
    reason: &GrammarReason,
) -> Result<(), AllocError>
    ensures { OnOk result (out.new.items ≡ out.old.items ++ grammar_text reason.now) }
{
    match reason {
        GrammarReason::PreferenceCycle(terminals) => push_names(out, b"G6", terminals),
        GrammarReason::NoStart => out.extend_from_slice(b"G1 no start"),
        GrammarReason::Unreachable(nonterminal) => push_name(out, b"G1 unreachable ", nonterminal),
        GrammarReason::Unproductive(nonterminal) => {
            push_name(out, b"G1 unproductive ", nonterminal)
        }
        GrammarReason::UnitCycle(nonterminals) => push_names(out, b"G2", nonterminals),
        GrammarReason::HiddenLeftRecursion(nonterminals) => push_names(out, b"G3", nonterminals),
        GrammarReason::Conflict { prefix, conflict } => {
            push_names(out, b"G4 after", prefix)?;
            push_conflict(out, conflict)
        }
        GrammarReason::Clash {
            prefix,
            left,
            right,
            text,
        } => {
            push_names(out, b"G5 after", prefix)?;
            out.extend_from_slice(b": ")?;
            push_share(out, left, right, text)
        }
    }
}
