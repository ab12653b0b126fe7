//! What does a reduction do to the stack? It builds the node of a production over the last values, and a chain builds one over another.

ghost use Rattle.std.specs.Prelude.{◌≡◌, ◌<◌, ◌≤◌, ◌-◌, ◌^◌, All, IfOk, OnOk, length, take};
ghost use Rattle.wb_values.specs.ValuesIn.{IsIn};
ghost use Rattle.wb_lookahead.specs.Contents.{action_of, size_of};
ghost use Rattle.wb_lookahead.specs.declared.action.Action.TheVariants.{Reduce};
ghost use Rattle.wb_parser_states.specs.Rules.{AreRules};
ghost use Rattle.wb_parser_states.specs.Stacks.{last_or};
ghost use Rattle.wb_parser.specs.Parses.{Extends};
ghost use Rattle.wb_parser.specs.Inner.Chains.{AreBuilt, AreReductions, IsChainOf};
ghost use Rattle.wb_parser.specs.Inner.Stacks.{IsReduction};
ghost use Rattle.wb_parser.specs.Inner.Steps.{AreReduced, IsSound};

use crate::chains::{Chain, Reductions, Start, chain_from};
use crate::stack::Stack;
use std::alloc::AllocError;
use wb_lookahead::Action;
use wb_parser_states::{Rule, move_states, top};
use wb_scan::Language;
use wb_values::{PackedValues, TreeStore};

// Reduces on a terminal by a production, and by all of a chain that begins after it. Answers the action after that.
//
// Most chains of some languages are of one production, so none is asked for before the second.
pub(crate) fn reduce_on(
    language: &Language,
    reductions: &mut Reductions,
    stack: &mut Stack,
    store: &mut TreeStore,
    terminal: usize,
    production: usize,
) -> Result<Action, AllocError>
    requires reductions { AreReductions language.now.language.grammar language.now.tables reductions.old }
    requires terminal { terminal ≤ language.now.language.grammar.terminals }
    requires action { action_of language.now.tables (last_or 0 stack.old.states.items) terminal ≡ Reduce production }
    requires sound { IsSound language.now stack.old.states.items stack.old.values store.old }
    ensures reduced { OnOk result (AreReduced language.now terminal stack.old.states.items stack.old.values store.old stack.new.states.items stack.new.values store.new) }
    ensures action { IfOk result (λ action. action ≡ action_of language.now.tables (last_or 0 stack.new.states.items) terminal) }
    ensures longer { OnOk result ((length store.old < 2 ^ 64) × (length store.old < length store.new)) }
    ensures extends { Extends store.old store.new }
    ensures reductions { AreReductions language.now.language.grammar language.now.tables reductions.new }
{
    let action = reduce_once(
        language,
        &reductions.rules,
        stack,
        store,
        terminal,
        production,
    )?;
    follow_chain(language, reductions, stack, store, terminal, action)
}

// Reduces by all of the chain that begins with the action at the states on top, where one does, and answers the action after that.
fn follow_chain(
    language: &Language,
    reductions: &mut Reductions,
    stack: &mut Stack,
    store: &mut TreeStore,
    terminal: usize,
    action: Action,
) -> Result<Action, AllocError>
    requires reductions { AreReductions language.now.language.grammar language.now.tables reductions.old }
    requires terminal { terminal ≤ language.now.language.grammar.terminals }
    requires action { action ≡ action_of language.now.tables (last_or 0 stack.old.states.items) terminal }
    requires sound { IsSound language.now stack.old.states.items stack.old.values store.old }
    ensures reduced { OnOk result (AreReduced language.now terminal stack.old.states.items stack.old.values store.old stack.new.states.items stack.new.values store.new) }
    ensures action { IfOk result (λ action. action ≡ action_of language.now.tables (last_or 0 stack.new.states.items) terminal) }
    ensures extends { Extends store.old store.new }
    ensures reductions { AreReductions language.now.language.grammar language.now.tables reductions.new }
{
    let Action::Reduce(production) = action else {
        return Ok(action);
    };
    if reductions.chains.is_empty()
        || reductions.rules[production].width != 1
        || stack.values.len() == 0
        || stack.states.is_empty()
    {
        return Ok(action);
    }
    let place = stack.states.len() - 1;
    let start = Start {
        below: top(&stack.states[..place]),
        state: stack.states[place],
        terminal,
    };
    let chain = chain_from(language, reductions, start);
    reduce_chain(language, &reductions.productions, stack, store, chain)
}

// Reduces on a terminal by one production, and answers the action after that.
fn reduce_once(
    language: &Language,
    rules: &[Rule],
    stack: &mut Stack,
    store: &mut TreeStore,
    terminal: usize,
    production: usize,
) -> Result<Action, AllocError>
    requires rules { AreRules language.now.language.grammar rules.now }
    requires terminal { terminal ≤ language.now.language.grammar.terminals }
    requires action { action_of language.now.tables (last_or 0 stack.old.states.items) terminal ≡ Reduce production }
    requires sound { IsSound language.now stack.old.states.items stack.old.values store.old }
    ensures reduced { OnOk result (AreReduced language.now terminal stack.old.states.items stack.old.values store.old stack.new.states.items stack.new.values store.new) }
    ensures action { IfOk result (λ action. action ≡ action_of language.now.tables (last_or 0 stack.new.states.items) terminal) }
    ensures longer { OnOk result ((length store.old < 2 ^ 64) × (length store.old < length store.new)) }
    ensures extends { Extends store.old store.new }
{
    let tables = language.tables();
    let state = reduce(language, rules, stack, store, production)?;
    Ok(tables.action(state, terminal))
}

// Reduces by a production: its node takes the place of its children. Answers the state on top.
fn reduce(
    language: &Language,
    rules: &[Rule],
    stack: &mut Stack,
    store: &mut TreeStore,
    production: usize,
) -> Result<usize, AllocError>
    requires rules { AreRules language.now.language.grammar rules.now }
    requires production { production < length language.now.language.grammar.productions }
    requires states { All (λ s. s < size_of language.now.tables) stack.old.states.items }
    requires values { All (IsIn (length store.old)) stack.old.values }
    ensures reduction { OnOk result (IsReduction language.now production stack.old.states.items stack.old.values store.old stack.new.states.items stack.new.values store.new) }
    ensures top { IfOk result (λ state. state ≡ last_or 0 stack.new.states.items) }
    ensures states { OnOk result (All (λ s. s < size_of language.now.tables) stack.new.states.items) }
    ensures values { OnOk result (All (IsIn (length store.new)) stack.new.values) }
    ensures extends { Extends store.old store.new }
{
    let tables = language.tables();
    let rule = rules[production];
    let width = rule.width.min(stack.values.len());
    let state = move_states(tables, &mut stack.states, width, rule.left)?;
    store.build_over(production, &mut stack.values, width)?;
    Ok(state)
}

// Reduces by all of a chain, which begins with the states on top, and answers the action after that.
fn reduce_chain(
    language: &Language,
    productions: &[usize],
    stack: &mut Stack,
    store: &mut TreeStore,
    chain: Chain,
) -> Result<Action, AllocError>
    requires chain { IsChainOf language.now.language.grammar language.now.tables productions.now chain }
    requires states { 1 ≤ length stack.old.states.items }
    requires values { 1 ≤ length stack.old.values }
    requires state { chain.start.state ≡ last_or 0 stack.old.states.items }
    requires below { chain.start.below ≡ last_or 0 (take (length stack.old.states.items - 1) stack.old.states.items) }
    requires sound { IsSound language.now stack.old.states.items stack.old.values store.old }
    ensures reduced { OnOk result (AreReduced language.now chain.start.terminal stack.old.states.items stack.old.values store.old stack.new.states.items stack.new.values store.new) }
    ensures action { IfOk result (λ action. action ≡ action_of language.now.tables (last_or 0 stack.new.states.items) chain.start.terminal) }
    ensures extends { Extends store.old store.new }
{
    build_chain(
        store,
        &mut stack.values,
        &productions[chain.first..chain.end],
    )?;
    let place = stack.states.len() - 1;
    stack.states[place] = chain.target;
    Ok(chain.action)
}

// Builds the nodes of productions in a row, the first over the last value, and each further one over the one before, in its place.
fn build_chain(
    store: &mut TreeStore,
    values: &mut PackedValues,
    productions: &[usize],
) -> Result<(), AllocError>
    requires some { 1 ≤ length values.old }
    requires values { All (IsIn (length store.old)) values.old }
    ensures built { OnOk result (AreBuilt productions.now values.old store.old values.new store.new) }
    ensures extends { Extends store.old store.new }
{
    'links: for production in productions {
        store.build_over(*production, values, 1)?;
    }
    Ok(())
}
