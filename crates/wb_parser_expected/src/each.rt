//! Which terminals could come after these states? Each is tried by itself, the end of the text last.

ghost use Rattle.std.specs.Prelude.{◌≡◌, ◌≤◌, ◌+◌, ◌↔◌, ◌++◌, ◌∷◌, [], IfOk, IsTrue, OnOk};
ghost use Rattle.wb_grammar_theory.specs.Trees.{Forest, leaves};
ghost use Rattle.wb_parser_states.specs.Rules.{AreRules};
ghost use Rattle.wb_scan_theory.specs.Readings.{Begins, terminals_of};
ghost use Rattle.wb_parser_expected.specs.Inner.Trials.{AreBelow, Stands};
ghost use Rattle.wb_parser_expected.specs.Inner.Walks.{AreThoseBelow};

use crate::trial::try_terminal;
use std::alloc::{AllocError, Global};
use wb_base::push;
use wb_parser_states::{Outcome, Rule};
use wb_scan::Language;

// The terminals that could come after these states, in rising order, with the number after all terminals where the text could end.
pub(crate) fn terminals_after(
    alloc: Global,
    language: &Language,
    rules: &[Rule],
    states: &[usize],
    extra: &mut Vec<usize>,
) -> Result<Vec<usize>, AllocError>
    requires rules { AreRules language.now.language.grammar rules.now }
    requires states { AreBelow language.now states.now }
    ensures { IfOk result (λ made. AreThoseBelow language.now states.now (language.now.language.grammar.terminals + 1) made.items) }
{
    let mut found = Vec::new(alloc);
    match add_all(language, rules, states, extra, &mut found) {
        Ok(()) => Ok(found),
        Err(error) => {
            drop(found);
            Err(error)
        }
    }
}

// Adds them to an empty list.
fn add_all(
    language: &Language,
    rules: &[Rule],
    states: &[usize],
    extra: &mut Vec<usize>,
    found: &mut Vec<usize>,
) -> Result<(), AllocError>
    requires rules { AreRules language.now.language.grammar rules.now }
    requires states { AreBelow language.now states.now }
    requires found { found.old.items ≡ [] }
    ensures { OnOk result (AreThoseBelow language.now states.now (language.now.language.grammar.terminals + 1) found.new.items) }
{
    let end = language.grammar().terminals();
    'terminals: for terminal in 0..end {
        add(language, rules, states, extra, found, terminal)?;
    }
    add(language, rules, states, extra, found, end)
}

// Adds a terminal, where it could come.
fn add(
    language: &Language,
    rules: &[Rule],
    states: &[usize],
    extra: &mut Vec<usize>,
    found: &mut Vec<usize>,
    terminal: usize,
) -> Result<(), AllocError>
    requires rules { AreRules language.now.language.grammar rules.now }
    requires terminal { terminal ≤ language.now.language.grammar.terminals }
    requires states { AreBelow language.now states.now }
    ensures { OnOk result (AreThoseBelow language.now states.now terminal found.old.items → AreThoseBelow language.now states.now (terminal + 1) found.new.items) }
{
    if could_come(language, rules, states, extra, terminal)? {
        push(found, terminal)?;
    }
    Ok(())
}

// Whether a terminal, or the end of the text, could come after these states.
fn could_come(
    language: &Language,
    rules: &[Rule],
    states: &[usize],
    extra: &mut Vec<usize>,
    terminal: usize,
) -> Result<bool, AllocError>
    requires rules { AreRules language.now.language.grammar rules.now }
    requires terminal { terminal ≤ language.now.language.grammar.terminals }
    requires states { AreBelow language.now states.now }
    ensures { IfOk result (λ could. (stack : Forest) → Stands language.now.language.grammar language.now.tables states.now stack terminal → IsTrue could ↔ Begins language.now.language.grammar (terminals_of (leaves [] stack) ++ terminal ∷ [])) }
{
    let _tables = language.tables();
    let trial = try_terminal(language, rules, states, extra, terminal)?;
    match trial.outcome {
        Outcome::Stops => Ok(false),
        _ => Ok(true),
    }
}
