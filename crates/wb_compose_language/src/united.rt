//! Builds the language of a host with its extensions.
//!
//! Its grammar, its forms and how they are written are those of `wb_compose_language`; what is considered at a state is of its tables, and an
//! extension's own layout is of its kernels.

ghost use Rattle.std.specs.Prelude.{◌≡◌, ◌+◌, IfOk, length};
ghost use Rattle.wb_determinism_contexts.specs.Parts.{ArePartsOf};
ghost use Rattle.wb_items.specs.Kernels.{count_of};
ghost use Rattle.wb_lookahead.specs.Contents.{size_of};
ghost use Rattle.wb_compose_language.specs.Expressions.{layout_in};
ghost use Rattle.wb_compose_language.specs.Lents.{IsUnitable};
ghost use Rattle.wb_compose_language.specs.United.{HasWithdrawn, IsUnion};
ghost use Rattle.wb_compose_language.specs.Inner.Layouts.{AreSpansBelow, layouts_in};
ghost use Rattle.wb_compose_language.specs.Inner.Made.{IsMade, IsScanned, IsWrittenBy};
ghost use Rattle.wb_compose_language.specs.Inner.Rows.{ArePreferences, AreSums, grammar_of};
ghost use Rattle.wb_compose_language.specs.Inner.Sets.{AreFormSets, HaveRoom};

use crate::addition::host_layouts;
use crate::form_sets::{Considered, form_sets};
use crate::layout::{numbers_from, spans_of};
use crate::own_productions::sum;
use crate::preferences::{Sums, united_preferences};
use crate::tables::parts_in;
use crate::{Lent, united_forms, united_grammar};
use std::alloc::{AllocError, Global};
use wb_automata::Automaton;
use wb_base::Grammar;
use wb_determinism_contexts::Parts;
use wb_lookahead::Tables;
use wb_regex::Regex;
use wb_scan::Language;
use wb_scan_theory::Form;

/// The language of a union, and its markers that have no bare form.
#[derive(Drop)]
pub struct UnitedLanguage {
    pub language: Language,
    /// The markers without a bare form, by extension and then by number.
    pub withdrawn: Vec<usize>,
}

/// The language of a host and of extensions that are certified with it alone.
///
/// Terminals are numbered by the host, then by each extension, and then comes the host's layout, and after it each extension's own. No clause
/// bounds the time.
pub fn united_language(alloc: Global, lent: &Lent) -> Result<UnitedLanguage, AllocError>
    requires { IsUnitable lent.now }
    ensures language { IfOk result (λ made. IsUnion lent.now made.language.language) }
    ensures withdrawn { IfOk result (λ made. HasWithdrawn lent.now made.withdrawn.items) }
{
    let grammar = united_grammar(alloc, lent.grammar, lent.extensions)?;
    let made = made_of(alloc, lent, &grammar)?;
    let rows = made.rows;
    let scanned = made.scanned;
    Ok(UnitedLanguage {
        language: Language::new(
            grammar,
            made.tables,
            scanned.automaton,
            scanned.forms,
            rows.layout,
            rows.spans,
            rows.preferences,
        ),
        withdrawn: scanned.withdrawn,
    })
}

// What is made of a union beside its grammar.
#[derive(Drop)]
struct Made {
    tables: Tables,
    rows: Rows,
    scanned: Scanned,
}

// How it is written.
#[derive(Drop)]
struct Written {
    rows: Rows,
    scanned: Scanned,
}

// Numbers of its layout, the productions by which each is considered, and its preferences.
#[derive(Drop)]
struct Rows {
    layout: Vec<usize>,
    spans: Vec<Option<(usize, usize)>>,
    preferences: Vec<(usize, usize)>,
}

// Its forms with their automaton, and the markers that have no bare form.
#[derive(Drop)]
struct Scanned {
    automaton: Automaton,
    forms: Vec<Form>,
    withdrawn: Vec<usize>,
}

// All parts of the language beside its grammar.
fn made_of(alloc: Global, lent: &Lent, grammar: &Grammar) -> Result<Made, AllocError>
    requires unitable { IsUnitable lent.now }
    requires grammar { grammar.now ≡ grammar_of lent.now }
    ensures { IfOk result (IsMade lent.now grammar.now) }
{
    let parts = parts_in(alloc, grammar)?;
    let written = written_by(alloc, lent, grammar, &parts)?;
    Ok(Made {
        tables: parts.tables,
        rows: written.rows,
        scanned: written.scanned,
    })
}

// How the union is written, with what is considered at each of these kernels.
fn written_by(
    alloc: Global,
    lent: &Lent,
    grammar: &Grammar,
    parts: &Parts,
) -> Result<Written, AllocError>
    requires unitable { IsUnitable lent.now }
    requires grammar { grammar.now ≡ grammar_of lent.now }
    requires parts { ArePartsOf (grammar_of lent.now) parts.now }
    ensures { IfOk result (IsWrittenBy lent.now parts.now) }
{
    let rows = rows_of(alloc, lent, grammar)?;
    let scanned = scanned_by(alloc, lent, parts, rows.spans.as_slice())?;
    Ok(Written { rows, scanned })
}

// Layout with its productions, and preferences.
fn rows_of(alloc: Global, lent: &Lent, grammar: &Grammar) -> Result<Rows, AllocError>
    requires unitable { IsUnitable lent.now }
    requires grammar { grammar.now ≡ grammar_of lent.now }
    ensures layout { IfOk result (λ rows. rows.layout.items ≡ layout_in lent.now) }
    ensures spans { IfOk result (λ rows. AreSpansBelow lent.now (layouts_in lent.now) rows.spans.items) }
    ensures preferences { IfOk result (λ rows. ArePreferences lent.now rows.preferences.items) }
{
    let spans = spans_of(alloc, lent)?;
    let count = spans.len();
    let sums = sums_of(lent, grammar, count)?;
    let layout = numbers_from(alloc, grammar.terminals(), count)?;
    let preferences = united_preferences(alloc, lent, sums)?;
    Ok(Rows {
        layout,
        spans,
        preferences,
    })
}

// What all extensions have of their own, where their union has so many layouts.
fn sums_of(lent: &Lent, grammar: &Grammar, count: usize) -> Result<Sums, AllocError>
    requires unitable { IsUnitable lent.now }
    requires grammar { grammar.now ≡ grammar_of lent.now }
    requires count { count ≡ layouts_in lent.now }
    ensures { IfOk result (AreSums lent.now) }
{
    let hosts = host_layouts(lent);
    Ok(Sums {
        terminals: grammar.terminals() - lent.grammar.terminals(),
        layouts: count - hosts,
        from: sum(grammar.terminals(), hosts)?,
    })
}

// The forms, and the automaton for what is considered at each state, where layout has these productions.
fn scanned_by(
    alloc: Global,
    lent: &Lent,
    parts: &Parts,
    spans: &[Option<(usize, usize)>],
) -> Result<Scanned, AllocError>
    requires unitable { IsUnitable lent.now }
    requires parts { ArePartsOf (grammar_of lent.now) parts.now }
    requires spans { AreSpansBelow lent.now (layouts_in lent.now) spans.now }
    ensures { IfOk result (IsScanned lent.now parts.now spans.now) }
{
    let made = united_forms(alloc, lent)?;
    let count = made.expressions.len();
    let considered = Considered {
        forms: &made.forms,
        spans,
        count,
    };
    let automaton = automaton_on(alloc, parts, &considered, &made.expressions)?;
    let _expressions = automaton.terminals();
    Ok(Scanned {
        automaton,
        forms: made.forms,
        withdrawn: made.withdrawn,
    })
}

// The automaton of the expressions of these forms and of layout.
fn automaton_on(
    alloc: Global,
    parts: &Parts,
    considered: &Considered,
    expressions: &[Regex],
) -> Result<Automaton, AllocError>
    requires kernels { count_of parts.now.kernels ≡ size_of parts.now.tables }
    requires room { HaveRoom considered.now.forms.now parts.now.tables }
    requires count { considered.now.count ≡ length considered.now.forms.now + length considered.now.spans.now }
    ensures terminals { IfOk result (λ automaton. automaton.terminals ≡ expressions.now) }
    ensures sets { IfOk result (λ automaton. AreFormSets parts.now.kernels parts.now.tables considered.now.forms.now considered.now.spans.now (size_of parts.now.tables) automaton.sets) }
{
    let sets = form_sets(alloc, parts, considered)?;
    Automaton::build(alloc, expressions, &sets)
}
