//! Builds the language of a grammar whose terminals are written as they are.
//!
//! One automaton serves the test for clashes and the scanner.

ghost use Rattle.std.specs.Prelude.{◌≡◌, ◌≤◌, IfErr, IfOk, ℕ, List};
ghost use Rattle.wb_base.specs.declared.symbol.Symbol.{Symbol};
ghost use Rattle.wb_base.specs.Grammar.{IsGrammar};
ghost use Rattle.wb_automata.specs.Automata.{IsMatch};
ghost use Rattle.wb_grammar.specs.Facts.{AreFacts};
ghost use Rattle.wb_determinism_contexts.specs.Parts.{ArePartsOf};
ghost use Rattle.wb_scan_theory.specs.Facts.{IsWritten};
ghost use Rattle.wb_scan_theory.specs.Parts.{AreLanguageParts};
ghost use Rattle.wb_scan.specs.Bare.{AreWrittenFor, bare_forms as forms_of, language_with};
ghost use Rattle.wb_scan.specs.Refusals.{AreAcyclic, IsFormClash, IsFree, IsLanguageRefusal};
ghost use Rattle.wb_scan.specs.Inner.Lexicons.{AreStateSets};
ghost use Rattle.wb_scan.specs.Inner.Written.{written_for, language_of_written};

use crate::forms::bare_forms;
use crate::layout::layout_set;
use crate::{Language, LanguageRefusal};
use std::alloc::{AllocError, Global};
use wb_automata::Automaton;
use wb_base::{Grammar, Sequence};
use wb_determinism_contexts::{Lexicon, Parts, PartsRefusal, considered_sets, parts_of};
use wb_grammar::Facts;
use wb_lexical::{find_clash_in, preference_cycle};
use wb_lookahead::Tables;
use wb_regex::Regex;
use wb_scan_theory::Form;
use wb_termset::TermSet;

/// The language of a grammar with a bare form for each terminal, or why there is none.
///
/// The expressions are those of the grammar's terminals, in order, and then of layout, which is numbered on from the grammar's terminals.
/// The pair `(t, u)` prefers t to u. No clause bounds the time.
pub fn language_of(
    alloc: Global,
    grammar: Grammar,
    facts: &Facts,
    regexes: &[Regex],
    layout: Vec<usize>,
    preferences: Vec<(usize, usize)>,
) -> Result<Language, LanguageRefusal>
    requires facts { AreFacts grammar facts.now }
    requires written { AreWrittenFor grammar.terminals regexes.now layout.items preferences.items }
    ensures in_range { IsGrammar grammar }
    ensures ok { IfOk result (λ made. made.language ≡ language_with grammar regexes.now layout.items preferences.items) }
    ensures free { IfOk result (λ made. IsFree (language_with grammar regexes.now layout.items preferences.items)) }
    ensures refused { IfErr result (IsLanguageRefusal (language_with grammar regexes.now layout.items preferences.items)) }
{
    let written = Written {
        regexes,
        layout: &layout,
        preferences: &preferences,
    };
    let made = made_of(alloc, &grammar, facts, &written)?;
    Ok(Language::new(
        grammar,
        made.tables,
        made.automaton,
        made.forms,
        layout,
        Vec::new(alloc),
        preferences,
    ))
}

// How the terminals of a grammar are written.
#[derive(Clone, Copy)]
struct Written<'a> {
    regexes: &'a [Regex],
    layout: &'a [usize],
    preferences: &'a [(usize, usize)],
}

// What is made of a grammar and its expressions.
#[derive(Drop)]
struct Made {
    tables: Tables,
    automaton: Automaton,
    forms: Vec<Form>,
}

// All that a language has beside what it is given.
fn made_of(
    alloc: Global,
    grammar: &Grammar,
    facts: &Facts,
    written: &Written,
) -> Result<Made, LanguageRefusal>
    requires facts { AreFacts grammar.now facts.now }
    requires written { written_for grammar.now written.now }
    ensures parts { IfOk result (λ made. IsGrammar grammar.now → AreLanguageParts (language_of_written grammar.now written.now) made.tables made.automaton) }
    ensures forms { IfOk result (λ made. made.forms.items ≡ forms_of grammar.now.terminals) }
    ensures terminals { IfOk result (λ made. made.automaton.terminals ≡ written.now.regexes.now) }
    ensures free { IfOk result (λ made. IsFree (language_of_written grammar.now written.now)) }
    ensures refused { IfErr result (IsLanguageRefusal (language_of_written grammar.now written.now)) }
{
    test_preferences(alloc, grammar, written)?;
    let parts = parts_by(alloc, grammar, facts, written)?;
    let built = built_on(alloc, grammar, written, &parts)?;
    Ok(Made {
        tables: parts.tables,
        automaton: built.automaton,
        forms: built.forms,
    })
}

// Whether preferences are acyclic.
fn test_preferences(
    alloc: Global,
    grammar: &Grammar,
    written: &Written,
) -> Result<(), LanguageRefusal>
    requires { written_for grammar.now written.now }
    ensures ok { IfOk result (λ done. AreAcyclic (language_of_written grammar.now written.now)) }
    ensures refused { IfErr result (IsLanguageRefusal (language_of_written grammar.now written.now)) }
{
    match preference_cycle(alloc, written.regexes.len(), written.preferences)? {
        Some(cycle) => Err(LanguageRefusal::Cycle(Sequence::from_vec(cycle))),
        None => Ok(()),
    }
}

// The kernels, lookaheads and tables of the grammar, or a conflict.
fn parts_by(
    alloc: Global,
    grammar: &Grammar,
    facts: &Facts,
    written: &Written,
) -> Result<Parts, LanguageRefusal>
    requires facts { AreFacts grammar.now facts.now }
    requires acyclic { AreAcyclic (language_of_written grammar.now written.now) }
    ensures ok { IfOk result (ArePartsOf grammar.now) }
    ensures refused { IfErr result (IsLanguageRefusal (language_of_written grammar.now written.now)) }
{
    match parts_of(alloc, grammar, facts) {
        Ok(parts) => Ok(parts),
        Err(PartsRefusal::Conflict(conflict)) => Err(LanguageRefusal::Conflict {
            prefix: conflict.prefix,
            terminal: conflict.terminal,
            first: conflict.first,
            second: conflict.second,
        }),
        Err(PartsRefusal::NoMemory(error)) => Err(LanguageRefusal::NoMemory(error)),
    }
}

// What is made of expressions.
#[derive(Drop)]
struct Built {
    automaton: Automaton,
    forms: Vec<Form>,
}

// The forms and the automaton, or a clash.
fn built_on(
    alloc: Global,
    grammar: &Grammar,
    written: &Written,
    parts: &Parts,
) -> Result<Built, LanguageRefusal>
    requires written { written_for grammar.now written.now }
    requires acyclic { AreAcyclic (language_of_written grammar.now written.now) }
    requires parts { ArePartsOf grammar.now parts.now }
    ensures forms { IfOk result (λ built. built.forms.items ≡ forms_of grammar.now.terminals) }
    ensures terminals { IfOk result (λ built. built.automaton.terminals ≡ written.now.regexes.now) }
    ensures is_written { IfOk result (λ built. IsWritten (language_of_written grammar.now written.now)) }
    ensures sets { IfOk result (λ built. AreStateSets (language_of_written grammar.now written.now) parts.now.tables built.automaton.sets) }
    ensures clear { IfOk result (λ built. (prefix : List Symbol) (left right : ℕ) (text : List ℕ) → ¬ IsFormClash (language_of_written grammar.now written.now) prefix left right text) }
    ensures refused { IfErr result (IsLanguageRefusal (language_of_written grammar.now written.now)) }
{
    let forms = bare_forms(alloc, grammar.terminals())?;
    let automaton = automaton_on(alloc, grammar, written, parts)?;
    test_clashes(alloc, grammar, written, parts, &automaton)?;
    Ok(Built { automaton, forms })
}

// The automaton for what is considered at each state.
fn automaton_on(
    alloc: Global,
    grammar: &Grammar,
    written: &Written,
    parts: &Parts,
) -> Result<Automaton, AllocError>
    requires written { written_for grammar.now written.now }
    requires parts { ArePartsOf grammar.now parts.now }
    ensures terminals { IfOk result (λ automaton. automaton.terminals ≡ written.now.regexes.now) }
    ensures sets { IfOk result (λ automaton. AreStateSets (language_of_written grammar.now written.now) parts.now.tables automaton.sets) }
{
    let sets = sets_of(alloc, grammar, written, parts)?;
    Automaton::build(alloc, written.regexes, &sets)
}

// What is considered at each state.
fn sets_of(
    alloc: Global,
    grammar: &Grammar,
    written: &Written,
    parts: &Parts,
) -> Result<Vec<TermSet>, AllocError>
    requires written { written_for grammar.now written.now }
    requires parts { ArePartsOf grammar.now parts.now }
    ensures { IfOk result (λ sets. AreStateSets (language_of_written grammar.now written.now) parts.now.tables sets.items) }
{
    let layout = layout_set(alloc, grammar.terminals(), written.regexes.len())?;
    let own_layout = TermSet::new(alloc, written.regexes.len())?;
    let lexicon = Lexicon {
        expressions: written.regexes,
        scanned: grammar.terminals(),
        layout: &layout,
        own_layout: &own_layout,
        own_productions: (0, 0),
        preferences: written.preferences,
    };
    considered_sets(alloc, &parts.kernels, parts.tables.valid_sets(), &lexicon)
}

// Whether no two forms clash.
fn test_clashes(
    alloc: Global,
    grammar: &Grammar,
    written: &Written,
    parts: &Parts,
    automaton: &Automaton,
) -> Result<(), LanguageRefusal>
    requires written { written_for grammar.now written.now }
    requires acyclic { AreAcyclic (language_of_written grammar.now written.now) }
    requires parts { ArePartsOf grammar.now parts.now }
    requires terminals { automaton.now.terminals ≡ written.now.regexes.now }
    requires sets { AreStateSets (language_of_written grammar.now written.now) parts.now.tables automaton.now.sets }
    ensures is_written { IfOk result (λ done. IsWritten (language_of_written grammar.now written.now)) }
    ensures ok { IfOk result (λ done. (prefix : List Symbol) (left right : ℕ) (text : List ℕ) → ¬ IsFormClash (language_of_written grammar.now written.now) prefix left right text) }
    ensures refused { IfErr result (IsLanguageRefusal (language_of_written grammar.now written.now)) }
{
    let _expressions = automaton.terminals();
    match find_clash_in(alloc, automaton, written.preferences)? {
        Some(clash) => {
            let prefix = Sequence::from_vec(parts.kernels.prefix(alloc, clash.set)?);
            Err(LanguageRefusal::Clash {
                prefix,
                left: clash.left,
                right: clash.right,
                text: clash.text,
            })
        }
        None => Ok(()),
    }
}
