//! Is it true of a production that a symbol stands in it right behind a nonterminal of the host?

ghost use Rattle.std.specs.Prelude.{◌≡◌, ◌+◌, Some, slice_get, true};
ghost use Rattle.wb_base.specs.declared.symbol.Symbol.TheVariants.{Nonterminal};
ghost use Rattle.wb_explain_beside.specs.Said.{IsSide, Stands};

use crate::told::Side;
use wb_base::{Grammar, Symbol};

// Whether a production of the extension has the nonterminal of the host at this part, and this behind it.
pub(crate) fn is_side(host: &Grammar, grammar: &Grammar, side: Side) -> bool
    ensures { result ≡ true → IsSide host.now grammar.now side.production side.part side.nonterminal side.behind }
{
    if side.production < host.productions() || side.nonterminal >= host.nonterminals() {
        return false;
    }
    if side.production < grammar.productions() {
        return stands(grammar.right(side.production), side);
    }
    false
}

// Whether a right side has both.
fn stands(right: &[Symbol], side: Side) -> bool
    ensures { result ≡ true → Stands right.now side.part side.nonterminal side.behind }
{
    if side.part >= right.len() {
        return false;
    }
    if !is_at(right, side.part, Symbol::Nonterminal(side.nonterminal)) {
        return false;
    }
    is_at(right, side.part + 1, side.behind)
}

// Whether the symbol is at a place.
fn is_at(right: &[Symbol], place: usize, symbol: Symbol) -> bool
    ensures { result ≡ true → slice_get right.now place ≡ Some symbol }
{
    if place < right.len() {
        return right[place] == symbol;
    }
    false
}
