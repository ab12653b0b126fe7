//! Which entries has a grammar, as they are first reached? A worklist, in which each entry is followed in its turn.

ghost use Rattle.std.specs.Prelude.{◌≡◌, ◌<◌, ◌+◌, ◌^◌, [], IfOk, OnOk, length};
ghost use Rattle.wb_base.specs.declared.symbol.Symbol.{Symbol};
ghost use Rattle.wb_recheck_writer.specs.Inner.Reached.{AreOpened, AreReached, IsBefore, IsContext, IsEnd, IsOutcome, IsSource, grammar_of, lines_of};

use crate::context::Context;
use crate::entry_list::EntryList;
use crate::moved::moved;
use crate::opened::add_opened;
use crate::source::Source;
use std::alloc::{AllocError, Global};
use wb_base::{Sequence, Symbol};
use wb_items::{Item, symbol_after};
use wb_recheck_theory::Entry;

// The entries, or none where there are more than so many.
pub(crate) fn entries_of(
    alloc: Global,
    context: &Context,
    most: usize,
) -> Result<Option<Sequence<Entry>>, AllocError>
    requires { IsContext context.now }
    ensures { IfOk result (IsOutcome (grammar_of context.now) (lines_of context.now) most) }
{
    let mut entries = EntryList::new(alloc);
    match write_entries(alloc, context, most, &mut entries) {
        Ok(true) => Ok(Some(Sequence::from_vec(entries.into_vec()))),
        Ok(false) => {
            drop(entries);
            Ok(None)
        }
        Err(error) => {
            drop(entries);
            Err(error)
        }
    }
}

// Adds all entries to none, and answers whether there are no more than so many.
fn write_entries(
    alloc: Global,
    context: &Context,
    most: usize,
    entries: &mut EntryList,
) -> Result<bool, AllocError>
    requires context { IsContext context.now }
    requires none { entries.old ≡ [] }
    ensures { IfOk result (IsEnd (grammar_of context.now) (lines_of context.now) most entries.new) }
{
    add_first(context, entries)?;
    let mut place = 0;
    'entries: while place < entries.len() {
        if entries.len() > most {
            return Ok(false);
        }
        follow(alloc, context, place, entries)?;
        place += 1;
    }
    Ok(true)
}

// Adds the first entry to none.
fn add_first(context: &Context, entries: &mut EntryList) -> Result<(), AllocError>
    requires context { IsContext context.now }
    requires none { entries.old ≡ [] }
    ensures { OnOk result (AreReached (grammar_of context.now) (lines_of context.now) entries.new 0) }
{
    let production = context.grammar.productions();
    let terminal = context.grammar.terminals();
    entries.add(Entry {
        kernel: 0,
        item: Item { production, dot: 0 },
        terminal,
        origin: None,
    })
}

// Adds what follows from the entry at a place.
fn follow(
    alloc: Global,
    context: &Context,
    place: usize,
    entries: &mut EntryList,
) -> Result<(), AllocError>
    requires context { IsContext context.now }
    requires place { place < length entries.old }
    requires before { AreReached (grammar_of context.now) (lines_of context.now) entries.old place }
    ensures { OnOk result (AreReached (grammar_of context.now) (lines_of context.now) entries.new (place + 1)) }
{
    let entry = entries.at(place);
    match symbol_after(context.grammar, entry.item) {
        Some(symbol) => add_followers(alloc, context, Source { place, entry }, symbol, entries),
        None => Ok(()),
    }
}

// Adds what follows from an entry with this symbol after its dot.
fn add_followers(
    alloc: Global,
    context: &Context,
    source: Source,
    symbol: Symbol,
    entries: &mut EntryList,
) -> Result<(), AllocError>
    requires context { IsContext context.now }
    requires room { source.entry.item.dot + 1 < 2 ^ 64 }
    requires before { AreReached (grammar_of context.now) (lines_of context.now) entries.old source.place }
    requires at { IsSource entries.old source }
    requires symbol { IsBefore (grammar_of context.now) source symbol }
    ensures { OnOk result (AreReached (grammar_of context.now) (lines_of context.now) entries.new (source.place + 1)) }
{
    match symbol {
        Symbol::Terminal(_) => add_moved(context, source, symbol, entries),
        Symbol::Nonterminal(nonterminal) => {
            add_opened(alloc, context, source, nonterminal, entries)?;
            add_moved(context, source, symbol, entries)
        }
    }
}

// Adds the entry after the move over the symbol, where what follows at the same kernel is there.
fn add_moved(
    context: &Context,
    source: Source,
    symbol: Symbol,
    entries: &mut EntryList,
) -> Result<(), AllocError>
    requires context { IsContext context.now }
    requires room { source.entry.item.dot + 1 < 2 ^ 64 }
    requires before { AreOpened (grammar_of context.now) (lines_of context.now) entries.old source }
    requires symbol { IsBefore (grammar_of context.now) source symbol }
    ensures { OnOk result (AreReached (grammar_of context.now) (lines_of context.now) entries.new (source.place + 1)) }
{
    let kernel = moved(context, source.entry.kernel, symbol);
    let production = source.entry.item.production;
    let dot = source.entry.item.dot + 1;
    entries.add(Entry {
        kernel,
        item: Item { production, dot },
        terminal: source.entry.terminal,
        origin: Some(source.place),
    })
}
