//! What do the states become on the terminal that is ahead? Reductions are made until it can be shifted, accepted, or nothing is left to do.
//!
//! Codes of actions tell it, for the state on top first, since a third of all leaves are shifted at once, and after each reduction for the
//! end of its chain. Where a code isn't known, the tables are asked.

ghost use Rattle.std.specs.Prelude.{◌≡◌, ◌<◌, ◌≤◌, ◌++◌, ◌∷◌, [], All, IfOk, OnOk, length, take};
ghost use Rattle.wb_lookahead.specs.Contents.{action_of, size_of};
ghost use Rattle.wb_scan_theory.specs.Facts.{IsLanguage};
ghost use Rattle.wb_scan_theory.specs.Parts.{AreTablesOf};
ghost use Rattle.wb_parser_states.specs.Chains.{IsRuleAction};
ghost use Rattle.wb_parser_states.specs.Codes.{IsCodeOf};
ghost use Rattle.wb_parser_states.specs.Kept.{AreReductions};
ghost use Rattle.wb_parser_states.specs.Stacks.{last_or};
ghost use Rattle.wb_parser_states.specs.Steps.{CarryOver, HasOutcome, ShiftsBelow};

use crate::Outcome;
use crate::chains::{Key, RuleAction};
use crate::kept::{action_from, rule_in, state_in};
use crate::reductions::{Reductions, asked_action, end_from};
use crate::rules::Rule;
use crate::stack::top;
use std::alloc::AllocError;
use wb_scan::Language;

/// Reduces while that is the action on the terminal, and answers what can be done then.
///
/// A terminal has its number in the grammar, and the end of the text is numbered after all terminals. `reductions` are those of the
/// language, and chains that are met are kept there. The only error is out of memory. More than `usize::MAX` reductions on one terminal
/// count as that, since no memory holds their tree.
#[inline(always)]
pub fn reduce_states(
    language: &Language,
    reductions: &mut Reductions,
    states: &mut Vec<usize>,
    terminal: usize,
) -> Result<Outcome, AllocError>
    requires reductions { AreReductions language.now.language.grammar language.now.tables reductions.old }
    requires terminal { terminal ≤ language.now.language.grammar.terminals }
    requires states { All (λ s. s < size_of language.now.tables) states.old.items }
    ensures outcome { IfOk result (HasOutcome language.now terminal states.old.items states.new.items) }
    ensures target { IfOk result (ShiftsBelow (size_of language.now.tables)) }
    ensures states { IfOk result (λ _. All (λ s. s < size_of language.now.tables) states.new.items) }
    ensures reductions { AreReductions language.now.language.grammar language.now.tables reductions.new }
{
    let _tables = language.tables();
    let mut code = reductions.codes.at(top(states), terminal);
    'reductions: for _ in 0..usize::MAX {
        if code % 2 == 0 {
            if code == 0 {
                return reduce_asked(language, reductions, states, terminal);
            }
            return Ok(Outcome::Shifts(state_in(code)));
        }
        code = reduce_top(language, reductions, states, terminal, rule_in(code))?;
    }
    Err(AllocError)
}

// The same where the action at the state on top may have no code that is known: then the tables are asked, and the code is kept.
#[inline(never)]
fn reduce_asked(
    language: &Language,
    reductions: &mut Reductions,
    states: &mut Vec<usize>,
    terminal: usize,
) -> Result<Outcome, AllocError>
    requires reductions { AreReductions language.now.language.grammar language.now.tables reductions.old }
    requires terminal { terminal ≤ language.now.language.grammar.terminals }
    requires states { All (λ s. s < size_of language.now.tables) states.old.items }
    ensures outcome { IfOk result (HasOutcome language.now terminal states.old.items states.new.items) }
    ensures target { IfOk result (ShiftsBelow (size_of language.now.tables)) }
    ensures states { IfOk result (λ _. All (λ s. s < size_of language.now.tables) states.new.items) }
    ensures reductions { AreReductions language.now.language.grammar language.now.tables reductions.new }
{
    let _tables = language.tables();
    let mut code = reductions.codes.at(top(states), terminal);
    'reductions: for _ in 0..usize::MAX {
        match action_for(language, reductions, states, terminal, code) {
            RuleAction::Shift(target) => return Ok(Outcome::Shifts(target)),
            RuleAction::Accept => return Ok(Outcome::Accepts),
            RuleAction::None => return Ok(Outcome::Stops),
            RuleAction::Reduce(rule) => code = reduce_top(
                language, reductions, states, terminal, rule,
            )?,
        }
    }
    Err(AllocError)
}

// The action at the state on top: that of its code, or where that isn't known, that of the tables.
#[inline(always)]
fn action_for(
    language: &Language,
    reductions: &mut Reductions,
    states: &[usize],
    terminal: usize,
    code: u32,
) -> RuleAction
    requires of_grammar { AreTablesOf language.now.language.grammar language.now.tables }
    requires reductions { AreReductions language.now.language.grammar language.now.tables reductions.old }
    requires terminal { terminal ≤ language.now.language.grammar.terminals }
    requires states { All (λ s. s < size_of language.now.tables) states.now }
    requires code { IsCodeOf language.now.language.grammar (action_of language.now.tables (last_or 0 states.now) terminal) code }
    ensures action { IsRuleAction language.now.language.grammar (action_of language.now.tables (last_or 0 states.now) terminal) result }
    ensures reductions { AreReductions language.now.language.grammar language.now.tables reductions.new }
{
    if code != 0 {
        return action_from(code);
    }
    asked_action(language, reductions, top(states), terminal)
}

// Makes a reduction of that rule, and then those of one symbol each that follow. Answers the code of the action after them.
#[inline(always)]
fn reduce_top(
    language: &Language,
    reductions: &mut Reductions,
    states: &mut Vec<usize>,
    terminal: usize,
    rule: Rule,
) -> Result<u32, AllocError>
    requires language { IsLanguage language.now.language }
    requires of_grammar { AreTablesOf language.now.language.grammar language.now.tables }
    requires reductions { AreReductions language.now.language.grammar language.now.tables reductions.old }
    requires terminal { terminal ≤ language.now.language.grammar.terminals }
    requires states { All (λ s. s < size_of language.now.tables) states.old.items }
    requires rule { IsRuleAction language.now.language.grammar (action_of language.now.tables (last_or 0 states.old.items) terminal) (RuleAction.Reduce rule) }
    ensures code { IfOk result (IsCodeOf language.now.language.grammar (action_of language.now.tables (last_or 0 states.new.items) terminal)) }
    ensures carries { IfOk result (λ _. CarryOver language.now terminal states.old.items states.new.items) }
    ensures states { IfOk result (λ _. All (λ s. s < size_of language.now.tables) states.new.items) }
    ensures reductions { AreReductions language.now.language.grammar language.now.tables reductions.new }
{
    let kept = states.len().saturating_sub(rule.width);
    let key = Key {
        below: top(&states[..kept]),
        from: rule.left,
        terminal,
    };
    let end = end_from(language, reductions, key);
    put(states, kept, end.target)?;
    Ok(end.code)
}

// Puts a state in the place of all but the first ones, so many. Only where none goes, room is asked for.
#[inline(always)]
fn put(states: &mut Vec<usize>, kept: usize, state: usize) -> Result<(), AllocError>
    requires { kept ≤ length states.old.items }
    ensures { OnOk result (states.new.items ≡ take kept states.old.items ++ state ∷ []) }
{
    if kept < states.len() {
        states[kept] = state;
        states.truncate(kept + 1);
        return Ok(());
    }
    states.push(state)?;
    Ok(())
}
