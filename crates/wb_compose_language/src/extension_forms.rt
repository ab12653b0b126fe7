//! Builds the forms of an extension's own terminals in a union.
//!
//! A marker has its prefixed form, and its bare one where no terminal of another extension shares a text with it. Any other terminal has
//! its bare form.

ghost use Rattle.std.specs.Prelude.{◌≡◌, ◌+◌, ◌<◌, IfOk, OnOk, length};
ghost use Rattle.wb_compose_theory_grammar.specs.Places.{count_before};
ghost use Rattle.wb_compose_language.specs.Inner.FormsMade.{AreMadeBelow, IsBareAdded, IsChosen};
ghost use Rattle.wb_compose_language.specs.Inner.Opened.{IsMarkerTerminal, IsOpened, IsOwnTerminal, sizes_in};

use crate::addition::row_of;
use crate::own_productions::sum;
use crate::union_forms::{Opened, UnitedForms};
use crate::withdrawn::is_withdrawn;
use crate::written::{add_bare, add_prefixed, prefix_of};
use std::alloc::{AllocError, Global};
use wb_base::push;
use wb_regex::Regex;
use wb_syntax_resolved::TerminalKind;

// An own terminal of an extension, by the numbers of both, and how many own terminals of other extensions come before.
#[derive(Clone, Copy)]
pub(crate) struct OwnTerminal {
    pub(crate) extension: usize,
    pub(crate) number: usize,
    pub(crate) before: usize,
}

// Adds the forms of the own terminals of the extension of this number, before which others have so many.
pub(crate) fn add_extension(
    alloc: Global,
    opened: &Opened,
    extension: usize,
    before: usize,
    made: &mut UnitedForms,
) -> Result<(), AllocError>
    requires opened { IsOpened opened.now }
    requires extension { extension < length opened.now.lent.extensions.now }
    requires before { before ≡ count_before (sizes_in opened.now.lent) extension }
    requires made { AreMadeBelow opened.now.lent (opened.now.lent.grammar.now.terminals + before) made.old }
    ensures { OnOk result (AreMadeBelow opened.now.lent (opened.now.lent.grammar.now.terminals + count_before (sizes_in opened.now.lent) (extension + 1)) made.new) }
{
    let count = opened.lent.extensions[extension].grammar.terminals();
    'terminals: for number in opened.lent.grammar.terminals()..count {
        let terminal = OwnTerminal {
            extension,
            number,
            before,
        };
        add_terminal(alloc, opened, terminal, made)?;
    }
    Ok(())
}

// Adds the forms of one.
fn add_terminal(
    alloc: Global,
    opened: &Opened,
    terminal: OwnTerminal,
    made: &mut UnitedForms,
) -> Result<(), AllocError>
    requires opened { IsOpened opened.now }
    requires terminal { IsOwnTerminal opened.now.lent terminal }
    requires made { AreMadeBelow opened.now.lent (terminal.number + terminal.before) made.old }
    ensures { OnOk result (AreMadeBelow opened.now.lent (terminal.number + terminal.before + 1) made.new) }
{
    let extension = &opened.lent.extensions[terminal.extension];
    let row = row_of(extension, terminal.number);
    match row.kind {
        TerminalKind::Plain => add_plain(terminal, &row.pattern, made),
        TerminalKind::Ignore => add_plain(terminal, &row.pattern, made),
        TerminalKind::Marking => add_marker(alloc, opened, terminal, made),
    }
}

// Adds the form of one that is no marker.
fn add_plain(
    terminal: OwnTerminal,
    pattern: &Regex,
    made: &mut UnitedForms,
) -> Result<(), AllocError>
    ensures { OnOk result (IsBareAdded made.old made.new (terminal.number + terminal.before) pattern.now) }
{
    let number = sum(terminal.number, terminal.before)?;
    add_bare(&mut made.forms, &mut made.expressions, number, pattern)
}

// Adds the forms of a marker.
fn add_marker(
    alloc: Global,
    opened: &Opened,
    terminal: OwnTerminal,
    made: &mut UnitedForms,
) -> Result<(), AllocError>
    requires opened { IsOpened opened.now }
    requires terminal { IsMarkerTerminal opened.now.lent terminal }
    requires made { AreMadeBelow opened.now.lent (terminal.number + terminal.before) made.old }
    ensures { OnOk result (AreMadeBelow opened.now.lent (terminal.number + terminal.before + 1) made.new) }
{
    let extension = &opened.lent.extensions[terminal.extension];
    let pattern = &row_of(extension, terminal.number).pattern;
    let number = sum(terminal.number, terminal.before)?;
    let withdrawn = is_withdrawn(alloc, opened, terminal)?;
    let prefix = prefix_of(alloc, extension.name)?;
    add_prefixed(
        &mut made.forms,
        &mut made.expressions,
        number,
        prefix,
        pattern,
    )?;
    add_unless_withdrawn(made, number, pattern, withdrawn)
}

// Adds the bare form of a marker, or lists it as withdrawn.
fn add_unless_withdrawn(
    made: &mut UnitedForms,
    number: usize,
    pattern: &Regex,
    withdrawn: bool,
) -> Result<(), AllocError>
    ensures { OnOk result (IsChosen withdrawn made.old made.new number pattern.now) }
{
    if withdrawn {
        push(&mut made.withdrawn, number)
    } else {
        add_bare(&mut made.forms, &mut made.expressions, number, pattern)
    }
}
