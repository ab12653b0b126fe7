//! What is kept of a language, so that its texts can be scanned and parsed?
//!
//! Its tables, and an automaton with a start for what is considered at each state. What must hold of them is in `wb_scan_theory`.

ghost use Rattle.std.specs.Prelude.{◌≡◌};
ghost use Rattle.wb_scan_theory.specs.Parts.{AreLanguageParts, AreTablesOf};
ghost use Rattle.wb_scan_theory.specs.Facts.{IsLanguage};
ghost use Rattle.wb_scan.specs.Views.{language_in};

use crate::landing::{Landing, landings_of};
use crate::preferences::Preferences;
use crate::winner::Ranking;
use std::marker::Model;
use wb_automata::Automaton;
use wb_base::Grammar;
use wb_lookahead::Tables;
use wb_scan_theory::Form;

/// A language: a grammar with its tables, and how its terminals and its layout are written.
///
/// The grammar is reduced, without unit cycle, hidden left recursion and conflict. At each prefix and each place of a text at most one
/// form wins, and one does where any that is considered matches. States are those of the tables.
pub struct Language {
    pub(crate) grammar: Grammar,
    pub(crate) tables: Tables,
    pub(crate) automaton: Automaton,
    pub(crate) forms: Vec<Form>,
    pub(crate) layout: Vec<usize>,
    pub(crate) spans: Vec<Option<(usize, usize)>>,
    pub(crate) preferences: Preferences,
    pub(crate) landings: Vec<Landing>,
}

impl Model for Language {
    ghost use Rattle.std.specs.Coded.{codes};
    ghost use Rattle.wb_regex.specs.contracts.regex.Regex as regex;
    ghost use Rattle.wb_scan_theory.specs.Parts.{AreLanguageParts};
    ghost use Rattle.wb_scan.specs.Landings.{AreLandings, ranked};
    ghost use Rattle.wb_scan.specs.Views.{LanguageParts, language_in};

    ghost Value = { LanguageParts };

    ghost coded = { Prim.hlevel (codes, regex.the_row.coded) };

    ghost view = { λ l. record { language = language_in l.grammar l.forms.items l.layout.items l.spans.items l.automaton.terminals l.preferences; tables = l.tables } };

    ghost invariant = { λ l. AreLanguageParts (language_in l.grammar l.forms.items l.layout.items l.spans.items l.automaton.terminals l.preferences) l.tables l.automaton × AreLandings (ranked l.forms.items l.layout.items l.preferences) l.automaton l.landings.items };
}

impl Language {
    /// The language of these parts.
    ///
    /// The grammar is reduced, without unit cycle, hidden left recursion and conflict, and the tables are its own. Forms are of its
    /// terminals, and the layout terminal at place k has the number of the grammar's terminals and k more. Where `spans` has two numbers at
    /// that place, it is considered where the kernel holds an item of a production from the first to before the second, and else everywhere.
    ///
    /// The expressions of the automaton are one for each form, in order, and then one for each layout terminal. That of a form matches only
    /// texts that begin with the form's prefix, and none matches the empty text. The set of each state's number has the places of the forms
    /// that are considered there. Where some of these match at a place of a text, exactly one wins, and the pair `(t, u)` prefers t to u.
    pub fn new(
        grammar: Grammar,
        tables: Tables,
        automaton: Automaton,
        forms: Vec<Form>,
        layout: Vec<usize>,
        spans: Vec<Option<(usize, usize)>>,
        preferences: Vec<(usize, usize)>,
    ) -> Language
        requires { AreLanguageParts (language_in grammar forms.items layout.items spans.items automaton.terminals preferences.items) tables automaton }
        ensures { result ≡ record { language = language_in grammar forms.items layout.items spans.items automaton.terminals preferences.items; tables = tables } }
    {
        let preferences = Preferences::new(preferences);
        let ranking = Ranking {
            forms: &forms,
            layout: &layout,
            preferences: &preferences,
        };
        let landings = landings_of(*forms.allocator(), &automaton, &ranking);
        Language {
            grammar,
            tables,
            automaton,
            forms,
            layout,
            spans,
            preferences,
            landings,
        }
    }

    /// The grammar.
    pub fn grammar(&self) -> &Grammar
        ensures grammar { result.now ≡ self.now.language.grammar }
        ensures language { IsLanguage self.now.language }
    {
        &self.grammar
    }

    /// The tables of the grammar.
    pub fn tables(&self) -> &Tables
        ensures tables { result.now ≡ self.now.tables }
        ensures of_grammar { AreTablesOf self.now.language.grammar self.now.tables }
        ensures language { IsLanguage self.now.language }
    {
        &self.tables
    }

    /// Lets go of the language. A crate that calls this proves no drop of what it holds.
    pub fn release(self) {}
}

impl Drop for Language {
    fn drop(self) {
        let Language {
            grammar,
            tables,
            automaton,
            forms,
            layout,
            spans,
            preferences,
            landings,
        } = self;
        drop(grammar);
        drop(tables);
        drop(automaton);
        drop(forms);
        drop(layout);
        drop(spans);
        drop(preferences);
        drop(landings);
    }
}
