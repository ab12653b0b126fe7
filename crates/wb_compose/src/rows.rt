//! Which rows of a resolved specification are lent?
//!
//! Those of the grammar lead, and the others come after all that the host has.

ghost use Rattle.std.specs.Prelude.{◌≡◌, ◌+◌, ◌-◌, Some, IsSome, drop, length};
ghost use Rattle.wb_syntax_resolved.specs.Resolved.{IsResolved};
ghost use Rattle.wb_compose_attributes.specs.Lent.{rows_in};
ghost use Rattle.wb_compose.specs.Inner.Cuts.{added_by, rows_by};

use wb_base::Grammar;
use wb_compose_attributes::Rows;
use wb_compose_attributes::slices::{behind, leading};
use wb_syntax_resolved::{AttributionParts, Resolved};

// Attributes and their grammar.
#[derive(Clone, Copy)]
pub(crate) struct Lent<'a> {
    pub(crate) attributes: &'a AttributionParts,
    pub(crate) grammar: &'a Grammar,
}

// What is lent of a resolved specification.
pub(crate) fn lent_of<'a>(resolved: &'a Resolved) -> Lent<'a>
    requires { IsSome resolved.now.grammar }
    ensures whole { IsResolved resolved.now }
    ensures attributes { result.attributes.now ≡ resolved.now.attributes }
    ensures grammar { resolved.now.grammar ≡ Some result.grammar.now }
{
    let parts = resolved.parts();
    let attributes = parts.attributes.parts();
    match &parts.grammar {
        Some(grammar) => Lent {
            attributes,
            grammar,
        },
        None => unreachable!(),
    }
}

// The rows of a host.
pub(crate) fn host_rows<'a>(host: &Lent<'a>) -> Rows<'a>
    ensures { rows_in result ≡ rows_by host.now.attributes.now host.now.grammar.now }
{
    let nonterminals = host.grammar.nonterminals();
    let productions = host.grammar.productions();
    Rows {
        terminals: host.grammar.terminals(),
        nonterminals: leading(host.attributes.nonterminals.as_slice(), nonterminals),
        abstract_nonterminals: behind(host.attributes.nonterminals.as_slice(), nonterminals),
        attributes: host.attributes.attributes.as_slice(),
        occurrences: host.attributes.occurrences.as_slice(),
        productions: leading(host.attributes.productions.as_slice(), productions),
        abstract_productions: behind(host.attributes.productions.as_slice(), productions),
    }
}

// The rows that an extension adds to a host.
pub(crate) fn added_rows<'a>(host: &Lent, own: &Lent<'a>) -> Rows<'a>
    ensures { rows_in result ≡ added_by host.now.attributes.now host.now.grammar.now own.now.attributes.now own.now.grammar.now }
{
    let nonterminals = own.grammar.nonterminals();
    let productions = own.grammar.productions();
    Rows {
        terminals: own
            .grammar
            .terminals()
            .saturating_sub(host.grammar.terminals()),
        nonterminals: behind(
            leading(own.attributes.nonterminals.as_slice(), nonterminals),
            host.grammar.nonterminals(),
        ),
        abstract_nonterminals: past(
            own.attributes.nonterminals.as_slice(),
            nonterminals,
            abstract_nonterminals(host),
        ),
        attributes: behind(
            own.attributes.attributes.as_slice(),
            host.attributes.attributes.len(),
        ),
        occurrences: behind(
            own.attributes.occurrences.as_slice(),
            host.attributes.occurrences.len(),
        ),
        productions: behind(
            leading(own.attributes.productions.as_slice(), productions),
            host.grammar.productions(),
        ),
        abstract_productions: past(
            own.attributes.productions.as_slice(),
            productions,
            abstract_productions(host),
        ),
    }
}

// How many nonterminals of the host are abstract alone.
fn abstract_nonterminals(host: &Lent) -> usize
    ensures { result ≡ length host.now.attributes.now.nonterminals - host.now.grammar.now.nonterminals }
{
    host.attributes
        .nonterminals
        .len()
        .saturating_sub(host.grammar.nonterminals())
}

// How many productions of the host are.
fn abstract_productions(host: &Lent) -> usize
    ensures { result ≡ length host.now.attributes.now.productions - length host.now.grammar.now.productions }
{
    host.attributes
        .productions
        .len()
        .saturating_sub(host.grammar.productions())
}

// What comes after so many, and then so many more.
fn past<T>(list: &[T], count: usize, more: usize) -> &[T]
    ensures { result.now ≡ drop (count + more) list.now }
{
    behind(behind(list, count), more)
}
