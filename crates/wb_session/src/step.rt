//! What becomes of a stack on the terminal that is ahead? It is reduced until the terminal can be shifted or the text accepted, or nothing
//! is left to do.

ghost use Rattle.std.specs.Prelude.{◌≤◌, IfOk, length};
ghost use Rattle.wb_lookahead.specs.Contents.{size_of};
ghost use Rattle.wb_parser_states.specs.Rules.{AreRules};
ghost use Rattle.wb_parser_states.specs.Steps.{ShiftsBelow};
ghost use Rattle.wb_session.specs.Stacks.{roots_of, IsSound};
ghost use Rattle.wb_session.specs.Inner.Steps.{Grows, IsSettled};

use crate::reduce::reduce;
use crate::stacks::{Likely, Stacks, state_at};
use std::alloc::AllocError;
use wb_lookahead::Action;
use wb_parser_states::{Outcome, Rule};
use wb_scan::Language;

// A stack on which no more reductions are made, by its link, and what can be done there.
#[derive(Clone, Copy)]
pub(crate) struct Settled {
    pub(crate) link: usize,
    pub(crate) outcome: Outcome,
}

// Reduces a stack while that is the action on the terminal, or on the end of the text. The trees of these reductions are likely to be these.
pub(crate) fn reduce_all(
    language: &Language,
    rules: &[Rule],
    stacks: &mut Stacks,
    from: usize,
    terminal: usize,
    likely: Likely,
) -> Result<Settled, AllocError>
    requires rules { AreRules language.now.language.grammar rules.now }
    requires terminal { terminal ≤ language.now.language.grammar.terminals }
    requires sound { IsSound language.now (roots_of stacks.old) }
    requires link { from ≤ length stacks.old.entries.items }
    ensures settled { IfOk result (λ settled. IsSettled language.now terminal (roots_of stacks.old) from (roots_of stacks.new) settled.link settled.outcome) }
    ensures grows { Grows language.now (roots_of stacks.old) (roots_of stacks.new) }
    ensures link { IfOk result (λ settled. settled.link ≤ length stacks.new.entries.items) }
    ensures below { IfOk result (λ settled. ShiftsBelow (size_of language.now.tables) settled.outcome) }
{
    let tables = language.tables();
    let mut link = from;
    let mut number: usize = 0;
    'reductions: loop {
        match tables.action(state_at(&stacks.entries, link), terminal) {
            Action::Shift(target) => {
                return Ok(Settled {
                    link,
                    outcome: Outcome::Shifts(target),
                });
            }
            Action::Accept => {
                return Ok(Settled {
                    link,
                    outcome: Outcome::Accepts,
                });
            }
            Action::None => {
                return Ok(Settled {
                    link,
                    outcome: Outcome::Stops,
                });
            }
            Action::Reduce(production) => {
                let tree = likely.tree(number);
                link = reduce(language, rules, stacks, link, production, tree)?;
                number = number.saturating_add(1);
            }
        }
    }
}
