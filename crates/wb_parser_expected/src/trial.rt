//! What could be done on a terminal after these states? Reductions are made beside the states, which stay as they are: the first of them are
//! kept, and the others made way for the further ones.

ghost use Rattle.std.specs.Prelude.{◌≡◌, ◌<◌, ◌≤◌, ℕ, All, IfOk, OnOk, Some, length};
ghost use Rattle.wb_base.specs.Grammar.{GrammarView};
ghost use Rattle.wb_lookahead.specs.Contents.{action_of, goto_of, size_of};
ghost use Rattle.wb_scan_theory.specs.Parts.{AreTablesOf};
ghost use Rattle.wb_parser_states.specs.Rules.{AreRules};
ghost use Rattle.wb_parser_states.specs.Stacks.{IsMoved, last_or};
ghost use Rattle.wb_parser_states.specs.Steps.{ShiftsBelow};
ghost use Rattle.wb_parser_expected.specs.Inner.Trials.{AreBelow, IsMovedBy, IsTried, over};

use std::alloc::AllocError;
use wb_lookahead::{Action, Tables};
use wb_parser_states::{Outcome, Rule, top};
use wb_scan::Language;

// What was tried: so many of the states are kept, and then this can be done.
#[derive(Clone, Copy)]
pub(crate) struct Trial {
    pub(crate) kept: usize,
    pub(crate) outcome: Outcome,
}

// Tries a terminal, or the end of the text, after these states. What reductions push is in `extra`, which is emptied before.
pub(crate) fn try_terminal(
    language: &Language,
    rules: &[Rule],
    states: &[usize],
    extra: &mut Vec<usize>,
    terminal: usize,
) -> Result<Trial, AllocError>
    requires rules { AreRules language.now.language.grammar rules.now }
    requires terminal { terminal ≤ language.now.language.grammar.terminals }
    requires states { AreBelow language.now states.now }
    ensures tried { IfOk result (λ trial. IsTried language.now terminal states.now (over trial.kept states.now extra.new.items) trial.outcome) }
    ensures target { IfOk result (λ trial. ShiftsBelow (size_of language.now.tables) trial.outcome) }
    ensures extra { OnOk result (AreBelow language.now extra.new.items) }
{
    let _tables = language.tables();
    extra.clear();
    let mut kept = states.len();
    let mut action = action_over(language, states, kept, extra, terminal);
    'reductions: for _ in 0..usize::MAX {
        match action {
            Action::Shift(target) => return Ok(tried(kept, Outcome::Shifts(target))),
            Action::Accept => return Ok(tried(kept, Outcome::Accepts)),
            Action::None => return Ok(tried(kept, Outcome::Stops)),
            Action::Reduce(production) => {
                kept = reduce_by(language, rules, states, kept, extra, production)?;
                action = action_over(language, states, kept, extra, terminal);
            }
        }
    }
    Err(AllocError)
}

// What was tried.
fn tried(kept: usize, outcome: Outcome) -> Trial
    ensures kept { result.kept ≡ kept }
    ensures outcome { result.outcome ≡ outcome }
{
    Trial { kept, outcome }
}

// The action on a terminal at the state on top of those that are kept and the further ones.
fn action_over(
    language: &Language,
    states: &[usize],
    kept: usize,
    extra: &[usize],
    terminal: usize,
) -> Action
    requires terminal { terminal ≤ language.now.language.grammar.terminals }
    requires kept { kept ≤ length states.now }
    requires states { AreBelow language.now states.now }
    requires extra { AreBelow language.now extra.now }
    ensures { result ≡ action_of language.now.tables (last_or 0 (over kept states.now extra.now)) terminal }
{
    let tables = language.tables();
    let state = top_over(states, kept, extra);
    tables.action(state, terminal)
}

// Makes a reduction by a production of the language beside the states, and answers how many of them are kept.
fn reduce_by(
    language: &Language,
    rules: &[Rule],
    states: &[usize],
    kept: usize,
    extra: &mut Vec<usize>,
    production: usize,
) -> Result<usize, AllocError>
    requires rules { AreRules language.now.language.grammar rules.now }
    requires production { production < length language.now.language.grammar.productions }
    requires kept { kept ≤ length states.now }
    requires states { AreBelow language.now states.now }
    requires extra { AreBelow language.now extra.old.items }
    ensures moved { IfOk result (λ fewer. IsMovedBy language.now production (over kept states.now extra.old.items) (over fewer states.now extra.new.items)) }
    ensures kept { IfOk result (λ fewer. fewer ≤ length states.now) }
    ensures extra { OnOk result (AreBelow language.now extra.new.items) }
{
    let rule = rules[production];
    reduce_over(language.tables(), states, kept, extra, rule)
}

// The same, by tables and a rule.
fn reduce_over(
    tables: &Tables,
    states: &[usize],
    kept: usize,
    extra: &mut Vec<usize>,
    rule: Rule,
) -> Result<usize, AllocError>
    requires tables { (g : GrammarView) × AreTablesOf g tables.now }
    requires left { rule.left < tables.now.nonterminals }
    requires kept { kept ≤ length states.now }
    requires states { All (λ s. s < size_of tables.now) states.now }
    requires extra { All (λ s. s < size_of tables.now) extra.old.items }
    ensures moved { IfOk result (λ fewer. IsMoved tables.now (over kept states.now extra.old.items) rule.width rule.left (over fewer states.now extra.new.items)) }
    ensures kept { IfOk result (λ fewer. fewer ≤ length states.now) }
    ensures extra { OnOk result (All (λ s. s < size_of tables.now) extra.new.items) }
{
    let popped = rule.width.saturating_sub(extra.len());
    let stays = extra.len().saturating_sub(rule.width);
    let fewer = kept.saturating_sub(popped);
    extra.truncate(stays);
    let target = target_over(tables, states, fewer, extra, rule.left);
    extra.push(target)?;
    Ok(fewer)
}

// The state after a nonterminal, and 0 where it leads nowhere.
fn target_over(
    tables: &Tables,
    states: &[usize],
    kept: usize,
    extra: &[usize],
    left: usize,
) -> usize
    requires tables { (g : GrammarView) × AreTablesOf g tables.now }
    requires left { left < tables.now.nonterminals }
    requires kept { kept ≤ length states.now }
    requires states { All (λ s. s < size_of tables.now) states.now }
    requires extra { All (λ s. s < size_of tables.now) extra.now }
    ensures next { (next : ℕ) → goto_of tables.now (last_or 0 (over kept states.now extra.now)) left ≡ Some next → result ≡ next }
    ensures below { result < size_of tables.now }
{
    match tables.goto(top_over(states, kept, extra), left) {
        Some(next) => next,
        None => 0,
    }
}

// The state on top of those that are kept and the further ones.
fn top_over(states: &[usize], kept: usize, extra: &[usize]) -> usize
    requires { kept ≤ length states.now }
    ensures { result ≡ last_or 0 (over kept states.now extra.now) }
{
    if extra.len() == 0 {
        return top(&states[..kept]);
    }
    top(extra)
}
