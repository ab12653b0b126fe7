//! What do the first states of a list become on the terminal that is ahead? Reductions are made in place, while codes tell them and each takes
//! a state away.
//!
//! So no list grows here and none is lent to a call out of line: a reading keeps the place of its states, and how many there are, beside the
//! loop. What codes don't tell is left to `step.rt`.

ghost use Rattle.std.specs.Prelude.{◌≡◌, ◌<◌, ◌≤◌, ◌+◌, ◌++◌, ◌∷◌, [], All, length, take};
ghost use Rattle.wb_lookahead.specs.Contents.{action_of, size_of};
ghost use Rattle.wb_scan_theory.specs.Facts.{IsLanguage};
ghost use Rattle.wb_scan_theory.specs.Parts.{AreTablesOf};
ghost use Rattle.wb_parser_states.specs.declared.chains.RuleAction.TheVariants.{Reduce};
ghost use Rattle.wb_parser_states.specs.Chains.{IsRuleAction};
ghost use Rattle.wb_parser_states.specs.Codes.{IsCodeOf};
ghost use Rattle.wb_parser_states.specs.Kept.{AreReductions};
ghost use Rattle.wb_parser_states.specs.Stacks.{last_or};
ghost use Rattle.wb_parser_states.specs.Steps.{IsReached};
ghost use Rattle.wb_parser_states.specs.Inner.Carried.{AreLeft};

use crate::chains::Key;
use crate::kept::{rule_in, state_in};
use crate::reductions::{Reductions, end_from};
use crate::rules::Rule;
use crate::stack::{put_at, top};
use wb_scan::Language;

/// How far reductions in place came: so many of the first states are left.
#[derive(Clone, Copy)]
pub enum Reached {
    /// The terminal can be shifted over them, and then the state is this one.
    Shifts { kept: usize, target: usize },
    /// What can be done at them is to be asked of `reduce_states`.
    Asks { kept: usize },
}

// So many of the first states are left, and the action at the last of them has this code.
#[derive(Clone, Copy)]
struct Left {
    kept: usize,
    code: u32,
}

/// Reduces the first states, so many, while that is known to be the action on the terminal, and while no room is asked for.
///
/// A terminal has its number in the grammar, and the end of the text is numbered after all terminals. `reductions` are those of the
/// language, and chains that are met are kept there.
#[inline(always)]
pub fn reduce_within(
    language: &Language,
    reductions: &mut Reductions,
    states: &mut [usize],
    count: usize,
    terminal: usize,
) -> Reached
    requires reductions { AreReductions language.now.language.grammar language.now.tables reductions.old }
    requires terminal { terminal ≤ language.now.language.grammar.terminals }
    requires count { count ≤ length states.old }
    requires states { All (λ s. s < size_of language.now.tables) (take count states.old) }
    ensures reached { IsReached language.now terminal (take count states.old) states.new result }
    ensures length { length states.new ≡ length states.old }
    ensures reductions { AreReductions language.now.language.grammar language.now.tables reductions.new }
{
    let _tables = language.tables();
    let mut left = Left {
        kept: count,
        code: reductions.codes.at(top(&states[..count]), terminal),
    };
    'reductions: for _ in 0..usize::MAX {
        if left.code % 2 == 0 {
            if left.code == 0 {
                return Reached::Asks { kept: left.kept };
            }
            return Reached::Shifts {
                kept: left.kept,
                target: state_in(left.code),
            };
        }
        let rule = rule_in(left.code);
        if rule.width == 0 || left.kept == 0 {
            return Reached::Asks { kept: left.kept };
        }
        left = reduce_some(language, reductions, states, left.kept, terminal, rule);
    }
    Reached::Asks { kept: left.kept }
}

// Makes a reduction of that rule on the first states, so many, where it takes one away, and then those of one symbol each that follow.
#[inline(always)]
fn reduce_some(
    language: &Language,
    reductions: &mut Reductions,
    states: &mut [usize],
    count: usize,
    terminal: usize,
    rule: Rule,
) -> Left
    requires language { IsLanguage language.now.language }
    requires of_grammar { AreTablesOf language.now.language.grammar language.now.tables }
    requires reductions { AreReductions language.now.language.grammar language.now.tables reductions.old }
    requires terminal { terminal ≤ language.now.language.grammar.terminals }
    requires some { 1 ≤ count }
    requires count { count ≤ length states.old }
    requires width { 1 ≤ rule.width }
    requires states { All (λ s. s < size_of language.now.tables) (take count states.old) }
    requires rule { IsRuleAction language.now.language.grammar (action_of language.now.tables (last_or 0 (take count states.old)) terminal) (Reduce rule) }
    ensures left { AreLeft language.now terminal (take count states.old) states.new result }
    ensures length { length states.new ≡ length states.old }
    ensures reductions { AreReductions language.now.language.grammar language.now.tables reductions.new }
{
    let kept = count.saturating_sub(rule.width);
    let key = Key {
        below: top(&states[..kept]),
        from: rule.left,
        terminal,
    };
    let end = end_from(language, reductions, key);
    put_at(states, kept, end.target);
    Left {
        kept: kept + 1,
        code: end.code,
    }
}
