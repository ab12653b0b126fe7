//! Builds the forms of the language of a union with their expressions, and finds the markers that are withdrawn.
//!
//! The host's terminals come first, then those of each extension (`extension_forms`), and the expressions of layout last, of the host's
//! and then of each extension's own.

ghost use Rattle.std.specs.Prelude.{◌≡◌, ◌≤◌, ◌<◌, [], IfOk, OnOk, length};
ghost use Rattle.wb_compose_theory_language.specs.Languages.{AreForms, AreWithdrawn};
ghost use Rattle.wb_compose_language.specs.Expressions.{AreExpressions};
ghost use Rattle.wb_compose_language.specs.Lents.{IsUnitable, all_in, own_in};
ghost use Rattle.wb_compose_language.specs.Inner.FormsMade.{AreMadeBelow};
ghost use Rattle.wb_compose_language.specs.Inner.Known.{AreBases, AreTexts};
ghost use Rattle.wb_compose_language.specs.Inner.Layouts.{AreLayoutAdded, ArePatternsFrom, hosts_in};
ghost use Rattle.wb_compose_language.specs.Inner.Opened.{IsOpened, union_terminals};
ghost use Rattle.wb_compose_language.specs.Inner.TextMachines.{IsTextMachine};

use crate::Lent;
use crate::addition::{host_layouts, own_from};
use crate::extension_forms::add_extension;
use crate::known::{Known, Owns, owns_of, texts_of, told_of};
use crate::own_productions::sum;
use crate::text_machine::text_machine;
use crate::written::add_bare;
use std::alloc::{AllocError, Global};
use wb_automata::Automaton;
use wb_base::{Sequence, push};
use wb_regex::Regex;
use wb_scan_theory::Form;
use wb_syntax_resolved::Terminal;

/// The forms of a union, and what they match. A form is named by its place, and a marker by its number in the union.
#[derive(Drop)]
pub struct UnitedForms {
    pub forms: Vec<Form>,
    /// One for each form, then one for each layout of the host, and then for each layout of an extension's own.
    pub expressions: Vec<Regex>,
    /// The markers without a bare form, in the order of their numbers.
    pub withdrawn: Vec<usize>,
}

/// The forms of the union of a host and its extensions.
///
/// Markers and terminals or layouts of other extensions that are one text each are compared as texts; where one of two is, the other is read along it;
/// and all other pairs of them are met by one walk over pairs of places.
pub fn united_forms(alloc: Global, lent: &Lent) -> Result<UnitedForms, AllocError>
    requires { IsUnitable lent.now }
    ensures forms { IfOk result (λ made. AreForms lent.now.grammar.now lent.now.extensible.now (own_in lent.now) (all_in lent.now) made.forms.items) }
    ensures expressions { IfOk result (λ made. AreExpressions lent.now made.forms.items made.expressions.items) }
    ensures withdrawn { IfOk result (λ made. AreWithdrawn lent.now.grammar.now lent.now.extensible.now (own_in lent.now) (all_in lent.now) made.withdrawn.items) }
{
    let hosts = host_layouts(lent);
    let owns = owns_of(alloc, lent.grammar.terminals(), hosts, lent.extensions)?;
    forms_of(alloc, lent, &owns)
}

// A host with extensions, and what is known of their own terminals and layouts.
#[derive(Clone, Copy)]
pub(crate) struct Opened<'a> {
    pub(crate) lent: Lent<'a>,
    pub(crate) known: &'a Known<'a>,
}

// Like `united_forms`, where the own terminals and layouts are listed.
fn forms_of(alloc: Global, lent: &Lent, owns: &Owns) -> Result<UnitedForms, AllocError>
    requires unitable { IsUnitable lent.now }
    requires owns { AreBases lent.now.grammar.now.terminals (hosts_in lent.now) lent.now.extensions.now owns.now.patterns.items owns.now.bases.items }
    ensures forms { IfOk result (λ made. AreForms lent.now.grammar.now lent.now.extensible.now (own_in lent.now) (all_in lent.now) made.forms.items) }
    ensures expressions { IfOk result (λ made. AreExpressions lent.now made.forms.items made.expressions.items) }
    ensures withdrawn { IfOk result (λ made. AreWithdrawn lent.now.grammar.now lent.now.extensible.now (own_in lent.now) (all_in lent.now) made.withdrawn.items) }
{
    let texts = texts_of(alloc, owns.patterns.as_slice())?;
    let made = forms_by(alloc, lent, owns, texts.as_slice());
    drop(texts);
    made
}

// Like `forms_of`, where these are texts alone.
fn forms_by(
    alloc: Global,
    lent: &Lent,
    owns: &Owns,
    texts: &[Option<Sequence<u8>>],
) -> Result<UnitedForms, AllocError>
    requires unitable { IsUnitable lent.now }
    requires owns { AreBases lent.now.grammar.now.terminals (hosts_in lent.now) lent.now.extensions.now owns.now.patterns.items owns.now.bases.items }
    requires texts { AreTexts owns.now.patterns.items texts.now }
    ensures forms { IfOk result (λ made. AreForms lent.now.grammar.now lent.now.extensible.now (own_in lent.now) (all_in lent.now) made.forms.items) }
    ensures expressions { IfOk result (λ made. AreExpressions lent.now made.forms.items made.expressions.items) }
    ensures withdrawn { IfOk result (λ made. AreWithdrawn lent.now.grammar.now lent.now.extensible.now (own_in lent.now) (all_in lent.now) made.withdrawn.items) }
{
    let machine = text_machine(alloc, owns.patterns.as_slice(), texts)?;
    let made = forms_told(alloc, lent, owns, texts, &machine);
    drop(machine);
    made
}

// Like `forms_by`, with the automaton of all others.
fn forms_told(
    alloc: Global,
    lent: &Lent,
    owns: &Owns,
    texts: &[Option<Sequence<u8>>],
    machine: &Automaton,
) -> Result<UnitedForms, AllocError>
    requires unitable { IsUnitable lent.now }
    requires owns { AreBases lent.now.grammar.now.terminals (hosts_in lent.now) lent.now.extensions.now owns.now.patterns.items owns.now.bases.items }
    requires texts { AreTexts owns.now.patterns.items texts.now }
    requires machine { IsTextMachine owns.now.patterns.items texts.now machine.now }
    ensures forms { IfOk result (λ made. AreForms lent.now.grammar.now lent.now.extensible.now (own_in lent.now) (all_in lent.now) made.forms.items) }
    ensures expressions { IfOk result (λ made. AreExpressions lent.now made.forms.items made.expressions.items) }
    ensures withdrawn { IfOk result (λ made. AreWithdrawn lent.now.grammar.now lent.now.extensible.now (own_in lent.now) (all_in lent.now) made.withdrawn.items) }
{
    let told = told_of(alloc, owns, texts)?;
    let made = forms_with(
        alloc,
        &Opened {
            lent: *lent,
            known: &Known {
                owns,
                texts,
                machine,
                told: &told,
            },
        },
    );
    drop(told);
    made
}

// Like `united_forms`, where this is known.
fn forms_with(alloc: Global, opened: &Opened) -> Result<UnitedForms, AllocError>
    requires { IsOpened opened.now }
    ensures forms { IfOk result (λ made. AreForms opened.now.lent.grammar.now opened.now.lent.extensible.now (own_in opened.now.lent) (all_in opened.now.lent) made.forms.items) }
    ensures expressions { IfOk result (λ made. AreExpressions opened.now.lent made.forms.items made.expressions.items) }
    ensures withdrawn { IfOk result (λ made. AreWithdrawn opened.now.lent.grammar.now opened.now.lent.extensible.now (own_in opened.now.lent) (all_in opened.now.lent) made.withdrawn.items) }
{
    let mut made = no_forms(alloc);
    add_host(&opened.lent, &mut made)?;
    add_extensions(alloc, opened, &mut made)?;
    add_layout(&opened.lent, &mut made.expressions)?;
    Ok(made)
}

fn no_forms(alloc: Global) -> UnitedForms
    ensures forms { result.forms.items ≡ [] }
    ensures expressions { result.expressions.items ≡ [] }
    ensures withdrawn { result.withdrawn.items ≡ [] }
{
    UnitedForms {
        forms: Vec::new(alloc),
        expressions: Vec::new(alloc),
        withdrawn: Vec::new(alloc),
    }
}

// Adds the forms of the host's terminals to none.
fn add_host(lent: &Lent, made: &mut UnitedForms) -> Result<(), AllocError>
    requires unitable { IsUnitable lent.now }
    requires made { AreMadeBelow lent.now 0 made.old }
    ensures { OnOk result (AreMadeBelow lent.now lent.now.grammar.now.terminals made.new) }
{
    'terminals: for terminal in 0..lent.grammar.terminals() {
        add_bare(
            &mut made.forms,
            &mut made.expressions,
            terminal,
            &lent.terminals[terminal].pattern,
        )?;
    }
    Ok(())
}

// Adds the forms of the extensions' own terminals to those of the host's.
fn add_extensions(alloc: Global, opened: &Opened, made: &mut UnitedForms) -> Result<(), AllocError>
    requires opened { IsOpened opened.now }
    requires made { AreMadeBelow opened.now.lent opened.now.lent.grammar.now.terminals made.old }
    ensures { OnOk result (AreMadeBelow opened.now.lent (union_terminals opened.now.lent) made.new) }
{
    let own = opened.lent.grammar.terminals();
    let mut before = 0;
    'extensions: for number in 0..opened.lent.extensions.len() {
        add_extension(alloc, opened, number, before, made)?;
        before = sum(
            before,
            opened.lent.extensions[number].grammar.terminals() - own,
        )?;
    }
    Ok(())
}

// Adds the expressions of the host's layout, and then those of each extension's own.
fn add_layout(lent: &Lent, expressions: &mut Vec<Regex>) -> Result<(), AllocError>
    requires { IsUnitable lent.now }
    ensures { OnOk result (AreLayoutAdded lent.now expressions.old.items expressions.new.items) }
{
    let hosts = host_layouts(lent);
    add_patterns(lent.terminals, lent.grammar.terminals(), expressions)?;
    'extensions: for number in 0..lent.extensions.len() {
        let extension = &lent.extensions[number];
        add_patterns(extension.terminals, own_from(extension, hosts), expressions)?;
    }
    Ok(())
}

// Adds the expressions of the rows from the first on.
fn add_patterns(
    rows: &[Terminal],
    first: usize,
    expressions: &mut Vec<Regex>,
) -> Result<(), AllocError>
    requires { first ≤ length rows.now }
    ensures { OnOk result (ArePatternsFrom first rows.now expressions.old.items expressions.new.items) }
{
    'rows: for row in first..rows.len() {
        push(expressions, rows[row].pattern.copy()?)?;
    }
    Ok(())
}
