//! Which items move over which symbol? All that a closure has, by symbol and then by item.

ghost use Rattle.std.specs.Prelude.{◌≡◌, ◌<◌, ◌+◌, ◌^◌, ◌↔◌, IfOk, OnOk, Some, length, slice_get};
ghost use Rattle.wb_base.specs.declared.symbol.Symbol.{Symbol};
ghost use Rattle.wb_grammar_theory.specs.declared.item.Item.{Item};
ghost use Rattle.wb_grammar_theory.specs.Items as items;
ghost use Rattle.wb_determinism_kernels.specs.declared.advance.Advance.{Advance};
ghost use Rattle.wb_determinism_kernels.specs.Inner.Advances.{AdvancesUpTo, AreAdvancesRising, HasAdvance, symbol_of};
ghost use Rattle.wb_items.specs.Moved.{IsMoved};

use crate::places::item_at;
use std::alloc::{AllocError, Global};
use wb_base::{Grammar, Symbol, push};
use wb_items::{Item, symbol_after};

// An item with its dot after a symbol. The order is by the symbol, terminals first, and then by the item.
#[derive(Clone, Copy, PartialEq, Eq, PartialOrd, Ord, Drop)]
pub(crate) struct Advance {
    nonterminal: bool,
    number: usize,
    pub(crate) item: Item,
}

// The items that move over a symbol from an item of the closure, by the symbol and then by the item.
pub(crate) fn advances(
    alloc: Global,
    grammar: &Grammar,
    closure: &[Item],
) -> Result<Vec<Advance>, AllocError>
    ensures exact { IfOk result (λ list. (x : Symbol) (item : Item) → HasAdvance list.items x item ↔ IsMoved grammar.now closure.now x item) }
    ensures rising { IfOk result (λ list. AreAdvancesRising list.items) }
{
    let mut list = Vec::with_capacity(alloc, closure.len())?;
    'places: for place in 0..closure.len() {
        add_advance(grammar, closure, place, &mut list)?;
    }
    list.sort()?;
    Ok(list)
}

// Adds the item at a place with its dot one symbol further, if there is a symbol.
fn add_advance(
    grammar: &Grammar,
    closure: &[Item],
    place: usize,
    list: &mut Vec<Advance>,
) -> Result<(), AllocError>
    requires place { place < length closure.now }
    requires before { AdvancesUpTo grammar.now closure.now list.old.items place }
    ensures { OnOk result (AdvancesUpTo grammar.now closure.now list.new.items (place + 1)) }
{
    let item = item_at(closure, place);
    if let Some(symbol) = symbol_after(grammar, item) {
        push(list, advanced(item, symbol))?;
    }
    Ok(())
}

// The item with its dot after this symbol.
fn advanced(item: Item, symbol: Symbol) -> Advance
    requires { item.dot + 1 < 2 ^ 64 }
    ensures symbol { symbol_of result ≡ symbol }
    ensures item { result.item ≡ items.advance item }
{
    let production = item.production;
    let dot = item.dot + 1;
    let (nonterminal, number) = match symbol {
        Symbol::Terminal(number) => (false, number),
        Symbol::Nonterminal(number) => (true, number),
    };
    Advance {
        nonterminal,
        number,
        item: Item { production, dot },
    }
}

// The symbol at a place.
pub(crate) fn symbol_at(list: &[Advance], place: usize) -> Symbol
    requires { place < length list.now }
    ensures { (a : Advance) → slice_get list.now place ≡ Some a → symbol_of a ≡ result }
{
    let found = list[place];
    if found.nonterminal {
        Symbol::Nonterminal(found.number)
    } else {
        Symbol::Terminal(found.number)
    }
}
