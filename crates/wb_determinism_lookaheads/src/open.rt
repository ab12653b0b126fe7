//! What opens the nonterminal after a dot? The terminals that begin the rest after it, and where that may be empty the item's own.

ghost use Rattle.std.specs.Prelude.{◌≡◌, ◌+◌, ◌<◌, ◌∷◌, ℕ, List, IfSome, IsTrue, length};
ghost use Rattle.wb_base.specs.declared.symbol.Symbol.{Symbol};
ghost use Rattle.wb_base.specs.declared.symbol.Symbol.TheVariants.{Nonterminal};
ghost use Rattle.wb_termset.specs.Sets.{IsMember};
ghost use Rattle.wb_grammar_theory.specs.Items.{after_dot};
ghost use Rattle.wb_determinism_lookaheads.specs.Inner.Rests.{AreRests, IsRest};
ghost use Rattle.wb_determinism_lookaheads.specs.Inner.Spreading.{AreTrue, AreTrueFor, AreTrueOf, IsContext, IsSlot, both_of};

use crate::context::Context;
use crate::marks::mark;
use crate::pass::unite;
use crate::rests::Rest;
use crate::row::Row;
use crate::slots::{opened, slot_place};
use wb_items::Item;
use wb_termset::TermSet;

// Spreads to the initial items of the nonterminal after the dot.
pub(crate) fn open(
    context: &Context,
    place: usize,
    item: Item,
    nonterminal: usize,
    set: &TermSet,
    sets: &mut Vec<Row>,
    marks: &mut Vec<bool>,
)
    requires context { IsContext context.now }
    requires place { place < length context.now.new.now.index.steps }
    requires symbol { (rest : List Symbol) × (after_dot (both_of context.now) item ≡ Nonterminal nonterminal ∷ rest) }
    requires member { (t : ℕ) × IsMember set.now t }
    requires holds { AreTrueOf context.now place item set.now }
    requires sound { AreTrue context.now sets.old.items }
    ensures { AreTrue context.now sets.new.items }
{
    let Some(one) = opened(context, nonterminal) else {
        return;
    };
    let Some(at) = slot_place(context, place, one) else {
        return;
    };
    let Some(rest) = rest_after(context, item) else {
        return;
    };
    if join(context, place, at, one, rest, set, sets) {
        mark(marks, place);
    }
}

// Adds what begins a rest to the set of an item, and where the rest may be empty the other members. Answers whether the set grew.
fn join(
    context: &Context,
    place: usize,
    at: usize,
    one: Item,
    rest: &Rest,
    set: &TermSet,
    sets: &mut Vec<Row>,
) -> bool
    requires slot { IsSlot context.now place at one }
    requires begun { AreTrueFor context.now place one rest.now.set }
    requires passed { IsTrue rest.now.empty → AreTrueFor context.now place one set.now }
    requires sound { AreTrue context.now sets.old.items }
    ensures { AreTrue context.now sets.new.items }
{
    let grew = unite(context, place, at, one, &rest.set, sets);
    if !rest.empty {
        return grew;
    }
    let more = unite(context, place, at, one, set, sets);
    grew || more
}

// What the symbols after that after the dot begin with.
pub(crate) fn rest_after<'a>(context: &Context<'a>, item: Item) -> Option<&'a Rest>
    requires { AreRests (both_of context.now) context.now.rests.now }
    ensures { IfSome result (λ rest. (x : Symbol) (more : List Symbol) → after_dot (both_of context.now) item ≡ x ∷ more → IsRest (both_of context.now) more rest.now) }
{
    if item.production >= context.rests.len() {
        return None;
    }
    let row = context.rests[item.production].as_slice();
    if item.dot < row.len() {
        Some(&row[item.dot])
    } else {
        None
    }
}
