//! Does a marker share a text with a terminal or layout of another extension? Then it has no bare form in the union.
//!
//! What is known of all pairs is in `known`.

ghost use Rattle.std.specs.Prelude.{◌≡◌, ◌≤◌, ◌+◌, ◌↔◌, IfOk, IsTrue, length};
ghost use Rattle.wb_compose_language.specs.declared.addition.Addition.{Addition};
ghost use Rattle.wb_compose_language.specs.Inner.FormsMade.{IsWithdrawnIn};
ghost use Rattle.wb_compose_language.specs.Inner.Known.{HasOwnPlaces, HasOwnRows, HasPlaces};
ghost use Rattle.wb_compose_language.specs.Inner.Opened.{AreOpened, IsAsked, IsMarkerTerminal, IsOpened};
ghost use Rattle.wb_compose_language.specs.Inner.Layouts.{hosts_in};
ghost use Rattle.wb_compose_language.specs.Inner.Sharing.{SharesBefore, SharesWith, SharesWithOther};

use crate::Addition;
use crate::addition::{host_layouts, own_from, row_of};
use crate::extension_forms::OwnTerminal;
use crate::known::{Known, shares};
use crate::own_productions::sum;
use crate::union_forms::Opened;
use std::alloc::{AllocError, Global};
use wb_regex::Regex;

// An expression with its place among those of which something is known.
#[derive(Clone, Copy)]
struct Asked<'a> {
    known: &'a Known<'a>,
    pattern: &'a Regex,
    place: usize,
}

// How many terminals and layouts the host has.
#[derive(Clone, Copy)]
struct Hosts {
    terminals: usize,
    layouts: usize,
}

// Rows of an extension, from the first number to before the end, with the place of the first among those of which something is known.
#[derive(Clone, Copy)]
struct Rows {
    first: usize,
    end: usize,
    base: usize,
}

// Whether a marker has no bare form.
pub(crate) fn is_withdrawn(
    alloc: Global,
    opened: &Opened,
    terminal: OwnTerminal,
) -> Result<bool, AllocError>
    requires opened { IsOpened opened.now }
    requires terminal { IsMarkerTerminal opened.now.lent terminal }
    ensures { IfOk result (λ withdrawn. IsTrue withdrawn ↔ IsWithdrawnIn opened.now.lent (terminal.number + terminal.before)) }
{
    let extension = &opened.lent.extensions[terminal.extension];
    let base = opened.known.owns.bases[terminal.extension];
    let asked = Asked {
        known: opened.known,
        pattern: &row_of(extension, terminal.number).pattern,
        place: base + (terminal.number - opened.lent.grammar.terminals()),
    };
    shares_with_other(alloc, opened, terminal.extension, &asked)
}

// Whether an expression shares a text with an own terminal or layout of an extension but the one of this number.
fn shares_with_other(
    alloc: Global,
    opened: &Opened,
    number: usize,
    asked: &Asked,
) -> Result<bool, AllocError>
    requires opened { AreOpened opened.now }
    requires known { asked.now.known.now.owns.now.patterns.items ≡ opened.now.known.now.owns.now.patterns.items }
    requires asked { IsAsked asked.now }
    ensures { IfOk result (λ shares. IsTrue shares ↔ SharesWithOther opened.now.lent.grammar.now.terminals (hosts_in opened.now.lent) opened.now.lent.extensions.now number asked.now.pattern.now) }
{
    let hosts = Hosts {
        terminals: opened.lent.grammar.terminals(),
        layouts: host_layouts(&opened.lent),
    };
    'extensions: for other in 0..opened.lent.extensions.len() {
        if other != number {
            let extension = &opened.lent.extensions[other];
            let base = opened.known.owns.bases[other];
            if shares_with(alloc, hosts, extension, base, asked)? {
                return Ok(true);
            }
        }
    }
    Ok(false)
}

// Whether it shares a text with an own terminal or layout of this extension, whose expressions begin at this place.
fn shares_with(
    alloc: Global,
    hosts: Hosts,
    extension: &Addition,
    base: usize,
    asked: &Asked,
) -> Result<bool, AllocError>
    requires rows { HasOwnRows hosts.terminals hosts.layouts extension.now }
    requires places { HasOwnPlaces hosts.terminals hosts.layouts extension.now asked.now.known.now.owns.now.patterns.items base }
    requires asked { IsAsked asked.now }
    ensures { IfOk result (λ shares. IsTrue shares ↔ SharesWith hosts.terminals hosts.layouts extension.now asked.now.pattern.now) }
{
    let count = extension.grammar.terminals();
    let terminals = Rows {
        first: hosts.terminals,
        end: count,
        base,
    };
    if shares_with_rows(alloc, extension, terminals, asked)? {
        return Ok(true);
    }
    let layouts = Rows {
        first: own_from(extension, hosts.layouts),
        end: extension.terminals.len(),
        base: sum(base, count - hosts.terminals)?,
    };
    shares_with_rows(alloc, extension, layouts, asked)
}

// Whether it shares a text with one of these rows.
fn shares_with_rows(
    alloc: Global,
    extension: &Addition,
    rows: Rows,
    asked: &Asked,
) -> Result<bool, AllocError>
    requires rows { rows.end ≤ length extension.now.terminals.now }
    requires places { HasPlaces rows.first rows.end extension.now asked.now.known.now.owns.now.patterns.items rows.base }
    requires asked { IsAsked asked.now }
    ensures { IfOk result (λ shares. IsTrue shares ↔ SharesBefore rows.first rows.end extension.now asked.now.pattern.now) }
{
    'rows: for row in rows.first..rows.end {
        if shares(
            alloc,
            asked.known,
            asked.place,
            rows.base + (row - rows.first),
        )? {
            return Ok(true);
        }
    }
    Ok(false)
}
