//! What follows from an entry at its own kernel? The initial items of the nonterminal after its dot, by production and then by terminal.

ghost use Rattle.std.specs.Prelude.{◌≡◌, ◌<◌, ◌+◌, List, OnOk, Some, length, slice_get};
ghost use Rattle.wb_base.specs.declared.symbol.Symbol.{Symbol};
ghost use Rattle.wb_base.specs.declared.symbol.Symbol.TheVariants.{Nonterminal};
ghost use Rattle.wb_termset.specs.Sets.{IsMember};
ghost use Rattle.wb_grammar_theory.specs.Productions.{IsProduction};
ghost use Rattle.wb_items.specs.Table.{AreProductions, AreProductionsOf};
ghost use Rattle.wb_recheck_writer.specs.Inner.Reached.{AreOpened, AreReached, IsBefore, IsContext, IsOpening, IsRowUpTo, IsSource, grammar_of, lines_of};

use crate::context::Context;
use crate::entry_list::EntryList;
use crate::first_after::{first_after, rest_after};
use crate::source::Source;
use std::alloc::{AllocError, Global};
use wb_items::Item;
use wb_recheck_theory::Entry;
use wb_termset::TermSet;

// An entry with this nonterminal after its dot, and the terminals that begin what comes after that.
#[derive(Clone, Copy)]
pub(crate) struct Opening<'a> {
    pub(crate) source: Source,
    pub(crate) nonterminal: usize,
    pub(crate) set: &'a TermSet,
}

// Adds what follows from an entry at its own kernel, with this nonterminal after its dot.
pub(crate) fn add_opened(
    alloc: Global,
    context: &Context,
    source: Source,
    nonterminal: usize,
    entries: &mut EntryList,
) -> Result<(), AllocError>
    requires context { IsContext context.now }
    requires before { AreReached (grammar_of context.now) (lines_of context.now) entries.old source.place }
    requires at { IsSource entries.old source }
    requires symbol { IsBefore (grammar_of context.now) source (Nonterminal nonterminal) }
    ensures { OnOk result (AreOpened (grammar_of context.now) (lines_of context.now) entries.new source) }
{
    let rest = rest_after(context.grammar, source.entry.item);
    let terminal = source.entry.terminal;
    let set = first_after(alloc, context.grammar, context.facts, rest, terminal)?;
    let opening = Opening {
        source,
        nonterminal,
        set: &set,
    };
    let added = add_productions(context, &opening, entries);
    drop(set);
    added
}

// Adds the initial items of all productions.
fn add_productions(
    context: &Context,
    opening: &Opening,
    entries: &mut EntryList,
) -> Result<(), AllocError>
    requires context { IsContext context.now }
    requires before { AreReached (grammar_of context.now) (lines_of context.now) entries.old opening.now.source.place }
    requires at { IsSource entries.old opening.now.source }
    requires opening { IsOpening (grammar_of context.now) opening.now }
    ensures { OnOk result (AreOpened (grammar_of context.now) (lines_of context.now) entries.new opening.now.source) }
{
    let numbers = numbers_of(context, opening.nonterminal);
    'productions: for place in 0..numbers.len() {
        add_terminals(context, opening, number_at(numbers, place), entries)?;
    }
    Ok(())
}

// The productions of a nonterminal.
fn numbers_of<'a>(context: &Context<'a>, nonterminal: usize) -> &'a [usize]
    requires rules { AreProductions (grammar_of context.now) context.now.rules.now }
    requires within { nonterminal < length context.now.rules.now }
    ensures { AreProductionsOf (grammar_of context.now) nonterminal result.now }
{
    context.rules[nonterminal].as_slice()
}

// The number at a place.
fn number_at(numbers: &[usize], place: usize) -> usize
    requires { place < length numbers.now }
    ensures { slice_get numbers.now place ≡ Some result }
{
    numbers[place]
}

// Adds the initial item of a production with all terminals.
fn add_terminals(
    context: &Context,
    opening: &Opening,
    production: usize,
    entries: &mut EntryList,
) -> Result<(), AllocError>
    requires context { IsContext context.now }
    requires opening { IsOpening (grammar_of context.now) opening.now }
    requires production { (right : List Symbol) × IsProduction (grammar_of context.now) production opening.now.nonterminal right }
    requires before { IsRowUpTo (grammar_of context.now) (lines_of context.now) entries.old opening.now production 0 }
    ensures { OnOk result (IsRowUpTo (grammar_of context.now) (lines_of context.now) entries.new opening.now (production + 1) 0) }
{
    let mut from = 0;
    'terminals: while let Some(terminal) = opening.set.next_member(from) {
        add_initial(context, opening, production, terminal, entries)?;
        from = terminal + 1;
    }
    Ok(())
}

// Adds the initial item of a production with a terminal.
fn add_initial(
    context: &Context,
    opening: &Opening,
    production: usize,
    terminal: usize,
    entries: &mut EntryList,
) -> Result<(), AllocError>
    requires context { IsContext context.now }
    requires opening { IsOpening (grammar_of context.now) opening.now }
    requires production { (right : List Symbol) × IsProduction (grammar_of context.now) production opening.now.nonterminal right }
    requires member { IsMember opening.now.set.now terminal }
    requires before { IsRowUpTo (grammar_of context.now) (lines_of context.now) entries.old opening.now production terminal }
    ensures { OnOk result (IsRowUpTo (grammar_of context.now) (lines_of context.now) entries.new opening.now production (terminal + 1)) }
{
    entries.add(Entry {
        kernel: opening.source.entry.kernel,
        item: Item { production, dot: 0 },
        terminal,
        origin: Some(opening.source.place),
    })
}
