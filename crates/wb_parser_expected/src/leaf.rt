//! How is one leaf read? It is scanned at the state after the leaf before it, and tried on the states before these change.

ghost use Rattle.std.specs.Prelude.{◌≡◌, ◌≤◌, ◌++◌, ◌∷◌, [], ℕ, List, IfOk, OnOk, length};
ghost use Rattle.wb_grammar_theory.specs.Trees.{symbols};
ghost use Rattle.wb_scan_theory.specs.Tokens.{NextToken, over as over_at};
ghost use Rattle.wb_parser_states.specs.Rules.{AreRules};
ghost use Rattle.wb_parser_expected.specs.Inner.Trials.{AreBelow, HasTables, over};
ghost use Rattle.wb_parser_expected.specs.Inner.Walks.{GoesOn, HasRead, IsRound};

use crate::trial::try_terminal;
use std::alloc::AllocError;
use wb_parser_states::{Outcome, Rule, top};
use wb_scan::{Language, Scanned, scan};
use wb_scan_theory::StopKind;

// What became of one leaf.
#[derive(Clone, Copy)]
pub(crate) enum Round {
    // It was shifted, and the text goes on at this place.
    Goes(usize),
    // The text has a tree.
    Whole,
    // The text stops at the place, and the states are as before.
    Halts(usize, StopKind),
}

// Takes the next leaf of the text, from a place on.
pub(crate) fn take_leaf(
    language: &Language,
    rules: &[Rule],
    text: &[u8],
    states: &mut Vec<usize>,
    extra: &mut Vec<usize>,
    at: usize,
) -> Result<Round, AllocError>
    requires tables { HasTables language.now }
    requires rules { AreRules language.now.language.grammar rules.now }
    requires at { at ≤ length text.now }
    requires states { AreBelow language.now states.old.items }
    requires read { HasRead language.now text.now states.old.items at }
    ensures round { IfOk result (IsRound language.now text.now states.new.items) }
    ensures states { OnOk result (AreBelow language.now states.new.items) }
    ensures goes_on { IfOk result (GoesOn (length text.now) at) }
{
    match scan(language, top(states), text, at) {
        Scanned::NoToken { at: place } => Ok(Round::Halts(place, StopKind::NoToken)),
        Scanned::End { at: place } => finish(language, rules, states, extra, place),
        Scanned::Token {
            terminal,
            at: place,
            lexeme: _,
            end,
        } => {
            let trial = try_terminal(language, rules, states, extra, terminal)?;
            match trial.outcome {
                Outcome::Shifts(target) => {
                    shift(states, extra, trial.kept, target)?;
                    Ok(Round::Goes(end))
                }
                _ => Ok(Round::Halts(place, StopKind::Unexpected(terminal))),
            }
        }
    }
}

// What becomes of the end of the text, where this place is.
fn finish(
    language: &Language,
    rules: &[Rule],
    states: &[usize],
    extra: &mut Vec<usize>,
    place: usize,
) -> Result<Round, AllocError>
    requires tables { HasTables language.now }
    requires rules { AreRules language.now.language.grammar rules.now }
    requires states { AreBelow language.now states.now }
    ensures round { (text : List ℕ) (at : ℕ) (read : HasRead language.now text states.now at) → NextToken language.now.language text (symbols read.stack) at (over_at place) → IfOk result (IsRound language.now text states.now) }
    ensures ends { IfOk result (λ round. (size at : ℕ) → GoesOn size at round) }
{
    let end = language.grammar().terminals();
    let trial = try_terminal(language, rules, states, extra, end)?;
    match trial.outcome {
        Outcome::Accepts => Ok(Round::Whole),
        _ => Ok(Round::Halts(place, StopKind::Unexpected(end))),
    }
}

// Makes the reductions of a trial, and pushes one state more.
fn shift(
    states: &mut Vec<usize>,
    extra: &[usize],
    kept: usize,
    target: usize,
) -> Result<(), AllocError>
    ensures { OnOk result (states.new.items ≡ over kept states.old.items extra.now ++ target ∷ []) }
{
    states.truncate(kept);
    states.extend_from_slice(extra)?;
    states.push(target)?;
    Ok(())
}
