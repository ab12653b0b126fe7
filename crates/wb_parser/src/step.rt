//! What does the parser do on the terminal that is ahead? It reduces until it can shift it, accept, or go no further.

ghost use Rattle.std.specs.Prelude.{◌≤◌, IfOk};
ghost use Rattle.wb_lookahead.specs.Contents.{size_of};
ghost use Rattle.wb_parser.specs.Parses.{Extends};
ghost use Rattle.wb_parser_states.specs.Steps.{ShiftsBelow};
ghost use Rattle.wb_parser.specs.Inner.Chains.{AreReductions};
ghost use Rattle.wb_parser.specs.Inner.Steps.{HasOutcome, IsSound};

use crate::chains::Reductions;
use crate::reduce::reduce_on;
use crate::stack::Stack;
use std::alloc::AllocError;
use wb_lookahead::Action;
use wb_parser_states::{Outcome, top};
use wb_scan::Language;
use wb_values::TreeStore;

// Reduces while that is the action on the terminal, or on the end of the text.
pub(crate) fn reduce_all(
    language: &Language,
    reductions: &mut Reductions,
    stack: &mut Stack,
    store: &mut TreeStore,
    terminal: usize,
) -> Result<Outcome, AllocError>
    requires reductions { AreReductions language.now.language.grammar language.now.tables reductions.old }
    requires terminal { terminal ≤ language.now.language.grammar.terminals }
    requires sound { IsSound language.now stack.old.states.items stack.old.values store.old }
    ensures outcome { IfOk result (HasOutcome language.now terminal stack.old.states.items stack.old.values store.old stack.new.states.items stack.new.values store.new) }
    ensures below { IfOk result (ShiftsBelow (size_of language.now.tables)) }
    ensures sound { IfOk result (λ _. IsSound language.now stack.new.states.items stack.new.values store.new) }
    ensures extends { Extends store.old store.new }
    ensures reductions { AreReductions language.now.language.grammar language.now.tables reductions.new }
{
    let tables = language.tables();
    let mut action = tables.action(top(&stack.states), terminal);
    'reductions: loop {
        match action {
            Action::Shift(target) => return Ok(Outcome::Shifts(target)),
            Action::Accept => return Ok(Outcome::Accepts),
            Action::None => return Ok(Outcome::Stops),
            Action::Reduce(production) => {
                action = reduce_on(language, reductions, stack, store, terminal, production)?;
            }
        }
    }
}
