//! What does a reduction do to a stack? The node of a production over its last roots takes their place.

ghost use Rattle.std.specs.Prelude.{◌≡◌, ◌<◌, ◌≤◌, ◌^◌, ℕ, IfOk, OnOk, Some, length};
ghost use Rattle.wb_lookahead.specs.Contents.{size_of, goto_of};
ghost use Rattle.wb_parser_states.specs.Rules.{AreRules};
ghost use Rattle.wb_session.specs.Inner.Entries.{state_in};
ghost use Rattle.wb_session.specs.Stacks.{roots_of, IsSound};
ghost use Rattle.wb_session.specs.Inner.Steps.{Grows, IsMade};

use crate::node::node_of;
use crate::stacks::{Entry, Stacks, gather, push_tree, state_at};
use std::alloc::AllocError;
use wb_parser_states::Rule;
use wb_scan::Language;

// Reduces a stack by a production, whose tree is likely to be this one. Answers the link of the stack that it becomes.
pub(crate) fn reduce(
    language: &Language,
    rules: &[Rule],
    stacks: &mut Stacks,
    link: usize,
    production: usize,
    likely: usize,
) -> Result<usize, AllocError>
    requires rules { AreRules language.now.language.grammar rules.now }
    requires production { production < length language.now.language.grammar.productions }
    requires sound { IsSound language.now (roots_of stacks.old) }
    requires link { link ≤ length stacks.old.entries.items }
    ensures made { IfOk result (IsMade language.now production (roots_of stacks.old) link (roots_of stacks.new)) }
    ensures grows { Grows language.now (roots_of stacks.old) (roots_of stacks.new) }
    ensures link { IfOk result (λ made. made ≤ length stacks.new.entries.items) }
    ensures longer { OnOk result ((length stacks.old.entries.items < 2 ^ 64) × (length stacks.old.entries.items < length stacks.new.entries.items)) }
{
    let _tables = language.tables();
    let rule = rules[production];
    let below = gather(
        &stacks.entries,
        &stacks.values,
        &mut stacks.children,
        link,
        rule.width,
    )?;
    let state = state_after(language, &stacks.entries, below, rule.left);
    let tree = node_of(&mut stacks.store, &mut stacks.children, production, likely)?;
    let entry = Entry {
        state,
        below,
        tree: tree.0,
    };
    let made = push_tree(stacks, entry, tree)?;
    Ok(made)
}

// The state after a nonterminal above a stack, and 0 where that leads nowhere, as no reduction of the tables does.
fn state_after(language: &Language, entries: &[Entry], link: usize, left: usize) -> usize
    requires link { link ≤ length entries.now }
    requires state { state_in entries.now link < size_of language.now.tables }
    requires left { left < language.now.language.grammar.nonterminals }
    ensures goes { (next : ℕ) → goto_of language.now.tables (state_in entries.now link) left ≡ Some next → result ≡ next }
    ensures below { result < size_of language.now.tables }
{
    match language.tables().goto(state_at(entries, link), left) {
        Some(next) => next,
        None => 0,
    }
}
