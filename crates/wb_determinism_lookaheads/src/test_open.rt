//! Does each initial item of the nonterminal after a dot have what opens it?

ghost use Rattle.std.specs.Prelude.{◌≡◌, ◌<◌, ◌∷◌, IsTrue, List, length};
ghost use Rattle.wb_base.specs.declared.symbol.Symbol.{Symbol};
ghost use Rattle.wb_grammar_theory.specs.Items.{after_dot};
ghost use Rattle.wb_determinism_lookaheads.specs.Inner.Spreading.{IsContext, IsOpened, both_of};

use crate::context::Context;
use crate::open::rest_after;
use crate::row::Row;
use crate::slots::{opened, slot_place};
use crate::test::is_within;
use wb_base::Symbol;
use wb_items::Item;
use wb_termset::TermSet;

// Whether they have, where the members of the set are those of an item before this symbol.
pub(crate) fn is_opened(
    context: &Context,
    place: usize,
    item: Item,
    symbol: Symbol,
    set: &TermSet,
    sets: &[Row],
) -> bool
    requires context { IsContext context.now }
    requires symbol { (rest : List Symbol) × (after_dot (both_of context.now) item ≡ symbol ∷ rest) }
    ensures { IsTrue result → IsOpened context.now sets.now place item set.now }
{
    let Symbol::Nonterminal(nonterminal) = symbol else {
        return true;
    };
    let Some(one) = opened(context, nonterminal) else {
        return false;
    };
    let Some(at) = slot_place(context, place, one) else {
        return false;
    };
    let Some(rest) = rest_after(context, item) else {
        return false;
    };
    if !is_within(&rest.set, sets, place, at) {
        return false;
    }
    !rest.empty || is_within(set, sets, place, at)
}
